// A linear congruential generator modulo 2^64, with Knuth's multiplier for MMIX.
ghost use Rattle.std.specs.Prelude.{◌≡◌, ◌<◌};
ghost use Rattle.trial.specs.Draws.{next_state, drawn};

const MULTIPLIER: u64 = 6364136223846793005;

const INCREMENT: u64 = 1442695040888963407;

/// Numbers that are drawn one after the other.
#[derive(Drop)]
pub struct Draws {
    pub state: u64,
}

impl Draws {
    /// The next number, which is below the limit.
    pub fn below(&mut self, limit: u64) -> u64
        requires { 0 < limit }
        ensures number { result ≡ drawn self.new.state limit }
        ensures state { self.new.state ≡ next_state self.old.state }
        ensures below { result < limit }
    {
        self.state = self.state.wrapping_mul(MULTIPLIER).wrapping_add(INCREMENT);
        (self.state >> 33) % limit
    }
}
