// How the lines of a script ended.
ghost use Rattle.std.specs.Prelude.{◌≡◌};
ghost use Rattle.session.specs.Stopping.{ended_of};

use queries::Stop;

/// How a session over a script ended.
#[derive(Clone, Copy, Debug, PartialEq, Eq)]
pub enum Ended {
    /// Each line has its reply.
    Done,
    /// The script could not be read on.
    ReadFault,
    /// The script has more than 2^30 bytes.
    Limit,
    /// The output failed.
    WriteFault,
    /// Memory ran out.
    Memory,
}

impl From<Stop> for Ended {
    ghost from_gives = { λ stop ended. ended ≡ ended_of stop };

    fn from(stop: Stop) -> Self {
        match stop {
            Stop::WriteFault => Ended::WriteFault,
            Stop::Memory => Ended::Memory,
        }
    }
}
