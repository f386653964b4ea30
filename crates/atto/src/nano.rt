// Whole nanoseconds.
ghost use Rattle.std.specs.Prelude.{◌≡◌, ◌<◌, ◌*◌, ◌^◌, SomeIff, pos};

use std::marker::Model;

/// A whole number of nanoseconds below 2^62: a stamp, a delay, or how early or late a reading is.
/// It is seen as that number.
#[derive(Clone, Copy, Debug, PartialEq, Eq, PartialOrd, Ord)]
pub struct Nano {
    value: u64,
}

impl Model for Nano {
    ghost use Rattle.std.specs.Prelude.{ℕ, ◌<◌, ◌^◌};

    ghost Value = { ℕ };

    ghost view = { λ n. n.value };

    ghost invariant = { λ n. n.value < 2 ^ 62 };

    ghost inverse = { λ n. record { value = n } };
}

impl Nano {
    /// `v` ns, and `None` exactly from 2^62 on.
    pub fn new(v: u64) -> Option<Nano>
        ensures { SomeIff result (v < 2 ^ 62) v }
    {
        if v < 1 << 62 {
            Some(Nano { value: v })
        } else {
            None
        }
    }

    /// How many ns these are, which is below 2^62.
    pub fn get(self) -> u64
        ensures value { result ≡ self }
        ensures fits { self < 2 ^ 62 }
    {
        self.value
    }
}

/// How many units of 1e-9 ns a delay of `d` ns has: exactly 10^9 for each ns, so below 2^92.
pub fn delay_units(d: Nano) -> i128
    ensures exact { result ≡ pos (d * 1000000000) }
    ensures below { d * 1000000000 < 2 ^ 92 }
{
    i128::from(d.get()) * 1_000_000_000
}
