// The ends of an interval.
ghost use Rattle.std.specs.Prelude.{◌≡◌, ◌*◌, pos, neg_ℤ, ◌+ℤ◌};
ghost use Rattle.intervals.specs.Ends.{IsSmall, FitsReach, FitsPair, FitsEnd, FitsEnds, greatest_end, least_end, ends_of, shifted_end, shifted};

use atto::{Nano, delay_units};
use row_pool::{Pair, Reach};

/// One end of the interval in which a time lies over all executions.
#[derive(Clone, Copy, Debug, PartialEq, Eq)]
pub enum End {
    /// It is here, in units of 1e-9 ns.
    At(i128),
    /// There is none: executions pass every number.
    Unbounded,
}

/// The interval in which a time lies over all executions.
#[derive(Clone, Copy, Debug, PartialEq, Eq)]
pub struct Ends {
    /// The least time, or that executions fall below every number.
    pub least: End,
    /// The greatest time, or that executions rise above every number.
    pub greatest: End,
}

// The greatest difference as an end.
fn greatest_from(reach: Reach) -> End
    ensures { result ≡ greatest_end reach }
{
    match reach {
        Reach::At(units) => End::At(units),
        Reach::Never => End::Unbounded,
    }
}

// The difference the other way round.
fn turned(units: i128) -> i128
    requires { IsSmall units }
    ensures { result ≡ neg_ℤ units }
{
    -units
}

// The least difference is the negative of the greatest the other way round.
fn least_from(reach: Reach) -> End
    requires { FitsReach reach }
    ensures { result ≡ least_end reach }
{
    match reach {
        Reach::At(units) => End::At(turned(units)),
        Reach::Never => End::Unbounded,
    }
}

/// The least and the greatest `x_q - x_p` over all executions, in units of 1e-9 ns, of the greatest differences of p and q
/// in both directions. All are below 2^120 in absolute value.
pub fn ends_from(pair: Pair) -> Ends
    requires { FitsPair pair }
    ensures value { result ≡ ends_of pair }
    ensures fits { FitsEnds result }
{
    Ends {
        least: least_from(pair.down),
        greatest: greatest_from(pair.up),
    }
}

// That many units later.
fn later(units: i128, by: i128) -> i128
    requires units { IsSmall units }
    requires by { IsSmall by }
    ensures { result ≡ by +ℤ units }
{
    by + units
}

// An end that many units later.
fn later_end(end: End, by: i128) -> End
    requires end { FitsEnd end }
    requires by { IsSmall by }
    ensures { result ≡ shifted_end by end }
{
    match end {
        End::At(units) => End::At(later(units, by)),
        End::Unbounded => End::Unbounded,
    }
}

/// The time of an event by a source's clock, which reads `s`, in units of 1e-9 ns: its ends, of the greatest differences of
/// the reading and the event in both directions. These are below 2^120 in absolute value.
pub fn source_time(s: Nano, pair: Pair) -> Ends
    requires { FitsPair pair }
    ensures { result ≡ shifted (pos (s * 1000000000)) (ends_of pair) }
{
    let ends = ends_from(pair);
    let stamp = delay_units(s);
    Ends {
        least: later_end(ends.least, stamp),
        greatest: later_end(ends.greatest, stamp),
    }
}
