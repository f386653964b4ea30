// Units of real time.
ghost use Rattle.std.specs.Prelude.{◌≡◌, ◌≤◌, ◌^◌, SomeIff, unsigned_abs};

use std::marker::Model;

/// A whole number of units of 1e-9 ns of real time, at most 2^120 in absolute value. It is seen
/// as that number.
#[derive(Clone, Copy, Debug, PartialEq, Eq, PartialOrd, Ord)]
pub struct Units {
    value: i128,
}

impl Model for Units {
    ghost use Rattle.std.specs.Prelude.{ℤ, ◌≤◌, ◌^◌, unsigned_abs};

    ghost Value = { ℤ };

    ghost view = { λ u. u.value };

    ghost invariant = { λ u. unsigned_abs u.value ≤ 2 ^ 120 };

    ghost inverse = { λ z. record { value = z } };
}

impl Units {
    /// `v` units, and `None` exactly where `v` is past 2^120 in absolute value.
    pub fn new(v: i128) -> Option<Units>
        ensures { SomeIff result (unsigned_abs v ≤ 2 ^ 120) v }
    {
        if v.unsigned_abs() <= 1 << 120 {
            Some(Units { value: v })
        } else {
            None
        }
    }

    /// How many units these are: at most 2^120 in absolute value.
    pub fn get(self) -> i128
        ensures value { result ≡ self }
        ensures fits { unsigned_abs self ≤ 2 ^ 120 }
    {
        self.value
    }
}
