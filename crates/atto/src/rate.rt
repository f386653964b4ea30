// How much slower and faster than real time a clock may run.
ghost use Rattle.std.specs.Prelude.{◌≡◌, ℕ, ◌+◌, ◌-◌, ◌≤◌, ◌<◌, ◌^◌, SomeIff, pos};
ghost use Rattle.atto.specs.Span.{RateParts, least_of, most_of};

use crate::Nano;
use std::marker::Model;

/// How far a clock may be from real time, in parts per billion: a span that it shows as d ns lasts
/// from d * (10^9 - short) to d * (10^9 + long) units of 1e-9 ns. `short` is at most 999,999,999,
/// so real time never stands still, and `long` at most 1,000,000,000.
#[derive(Clone, Copy, Debug, PartialEq, Eq)]
pub struct Rate {
    short: u32,
    long: u32,
}

impl Model for Rate {
    ghost use Rattle.std.specs.Prelude.{◌≤◌};
    ghost use Rattle.atto.specs.Span.{RateParts};

    ghost Value = { RateParts };

    ghost view = { λ r. record { short = r.short; long = r.long } };

    ghost invariant = { λ r. (r.short ≤ 999999999) × (r.long ≤ 1000000000) };

    ghost inverse = { λ v. record { short = v.short; long = v.long } };
}

impl Rate {
    /// The rate of these parts per billion, and `None` exactly where one of them is past its range.
    pub fn new(short: u32, long: u32) -> Option<Rate>
        ensures { SomeIff result ((short ≤ 999999999) × (long ≤ 1000000000)) (record { short = short; long = long }) }
    {
        if short <= 999_999_999 && long <= 1_000_000_000 {
            Some(Rate { short, long })
        } else {
            None
        }
    }

    /// By how many parts per billion a span may be shorter than the clock shows.
    pub fn short(self) -> u32
        ensures value { result ≡ self.short }
        ensures fits { result ≤ 999999999 }
    {
        self.short
    }

    /// By how many parts per billion a span may be longer than the clock shows.
    pub fn long(self) -> u32
        ensures value { result ≡ self.long }
        ensures fits { result ≤ 1000000000 }
    {
        self.long
    }
}

/// The least number of units of 1e-9 ns from a reading `s` to a later or equal reading `t` of a
/// clock of this rate: exactly (t - s) * (10^9 - short), below 2^93.
pub fn span_least(r: Rate, s: Nano, t: Nano) -> i128
    requires { s ≤ t }
    ensures exact { result ≡ pos (least_of r (t - s)) }
    ensures below { least_of r (t - s) < 2 ^ 93 }
{
    i128::from(t.get() - s.get()) * i128::from(1_000_000_000 - r.short())
}

/// The greatest number of units of 1e-9 ns from a reading `s` to a later or equal reading `t` of a
/// clock of this rate: exactly (t - s) * (10^9 + long), below 2^93.
pub fn span_most(r: Rate, s: Nano, t: Nano) -> i128
    requires { s ≤ t }
    ensures exact { result ≡ pos (most_of r (t - s)) }
    ensures below { most_of r (t - s) < 2 ^ 93 }
{
    i128::from(t.get() - s.get()) * i128::from(1_000_000_000 + r.long())
}

/// A law, which does nothing when it runs: the bounds of a span are the sums of those of its parts.
pub fn spans_add()
    ensures most { (r : RateParts) (s t u : ℕ) → s ≤ t → t ≤ u → most_of r (u - s) ≡ most_of r (t - s) + most_of r (u - t) }
    ensures least { (r : RateParts) (s t u : ℕ) → s ≤ t → t ≤ u → least_of r (u - s) ≡ least_of r (t - s) + least_of r (u - t) }
{}
