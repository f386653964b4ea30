// The two coordinates of a message, which tell what is as fast however its clocks drift.
ghost use Rattle.std.specs.Prelude.{◌≡◌, ◌<◌, ◌^◌, pos};
ghost use Rattle.atto.specs.Span.{least_of, most_of};
ghost use Rattle.thinning.specs.Thinning.{coordinate_u, coordinate_v};

use atto::{Nano, Rate};

// The least that a clock of this rate may have run when it shows the stamp, in units of 1e-9 ns: below 2^93.
fn least_run(rate: Rate, stamp: Nano) -> i128
    ensures exact { result ≡ pos (least_of rate stamp) }
    ensures below { least_of rate stamp < 2 ^ 93 }
{
    i128::from(stamp.get()) * i128::from(1_000_000_000 - rate.short())
}

// The most that it may have run.
fn most_run(rate: Rate, stamp: Nano) -> i128
    ensures exact { result ≡ pos (most_of rate stamp) }
    ensures below { most_of rate stamp < 2 ^ 93 }
{
    i128::from(stamp.get()) * i128::from(1_000_000_000 + rate.long())
}

/// The least that the sender's clock may have run when a message is sent, less the most that the receiver's may have
/// when it is received, in units of 1e-9 ns.
pub fn coordinate_u(sender: Rate, receiver: Rate, sent: Nano, received: Nano) -> i128
    ensures { result ≡ coordinate_u sender receiver sent received }
{
    least_run(sender, sent) - most_run(receiver, received)
}

/// The most that the sender's clock may have run, less the least that the receiver's may have, in units of 1e-9 ns.
pub fn coordinate_v(sender: Rate, receiver: Rate, sent: Nano, received: Nano) -> i128
    ensures { result ≡ coordinate_v sender receiver sent received }
{
    most_run(sender, sent) - least_run(receiver, received)
}
