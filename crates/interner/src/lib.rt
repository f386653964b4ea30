//! Different values, each with its place: for names and keys that are looked up, whoever chose them.
#![tactic(auto)]

ghost use Rattle.std.specs.Prelude.{◌≡◌, ◌-◌, ◌<◌, ◌++◌, ◌∷◌, [], length, take, position, Some, None, IfSome, IfErr, OnOk, OnErr};
ghost use Rattle.interner.specs.Numbers.{IsLast};

use std::alloc::{AllocFailed, Global};
use std::collections::BTreeMap;
use std::marker::Model;

/// Different values, by their places from 0 on, in the order in which they came. Which are equal is what `==` says.
///
/// They stand in an ordered map, each once, with 8 bytes for its place. To find a value, to append one and to take the
/// last one away each compare values some log n times among n, whichever values these are; no hash is taken.
#[derive(Drop)]
pub struct Places<T: Ord> {
    numbers: BTreeMap<T, usize>,
}

impl<T: Ord> Model for Places<T> {
    ghost use Rattle.std.specs.Prelude.{List};
    ghost use Rattle.std.specs.BTreeMap.{IsOrdered};
    ghost use Rattle.interner.specs.Numbers.{by_number, HaveNumbers};

    ghost Value = { List T };

    ghost view = { λ p. by_number p.numbers.entries };

    ghost invariant = { λ p. HaveNumbers p.numbers.entries × IsOrdered T.cmp p.numbers };
}

impl<T: Ord + Drop> Places<T> {
    /// No values. It takes no memory.
    pub fn new(alloc: Global) -> Places<T>
        ensures { result ≡ [] }
    {
        Places {
            numbers: BTreeMap::new(alloc),
        }
    }

    /// How many values there are.
    pub fn len(&self) -> usize
        ensures { result ≡ length self.now }
    {
        self.numbers.len()
    }

    /// The place of the value that equals this one, and None where none does.
    pub fn place(&self, value: &T) -> Option<usize>
        ensures place { result ≡ position (T.eq value.now) self.now }
        ensures within { IfSome result (λ k. k < length self.now) }
    {
        match self.numbers.get(value) {
            Some(number) => Some(*number),
            None => None,
        }
    }

    /// Appends a value that equals none of them. An `Err` comes only if memory does not suffice: it gives the value back,
    /// and all stays as it was.
    pub fn push(&mut self, value: T) -> Result<(), AllocFailed<T>>
        requires new { position (T.eq value) self.old ≡ None }
        ensures ok { OnOk result (self.new ≡ self.old ++ value ∷ []) }
        ensures err { OnErr result (self.new ≡ self.old) }
        ensures value_returned { IfErr result (λ failed. failed.value ≡ value) }
    {
        let number = self.numbers.len();
        match self.numbers.insert(value, number) {
            Ok(_) => Ok(()),
            Err(AllocFailed { value: (value, _) }) => Err(AllocFailed { value }),
        }
    }

    /// Takes the last value away, which equals this one.
    pub fn take_last(&mut self, value: &T)
        requires last { IsLast (T.eq value.now) self.old }
        ensures { self.new ≡ take (length self.old - 1) self.old }
    {
        let _ = self.numbers.remove(value);
    }
}
