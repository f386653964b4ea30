// Keys by their places.
ghost use Rattle.std.specs.Prelude.{◌≡◌, ◌<◌, ◌-◌, ◌++◌, ◌∷◌, [], length, take, slice_get, Some, false, IfSome, IfNone, OnOk, OnErr};
ghost use Rattle.std.specs.List.{list_any};
ghost use Rattle.interner.specs.Numbers.{IsLast};
ghost use Rattle.traces.specs.Seen.{key_of, is_same_key};

use interner::Places;
use std::alloc::{AllocError, Global};
use std::marker::Model;
use traces::Key;

/// Different keys, by their places from 0 on.
#[derive(Drop)]
pub(crate) struct Keys {
    places: Places<Key>,
}

impl Model for Keys {
    ghost use Rattle.std.specs.Prelude.{List, map};
    ghost use Rattle.traces.specs.Seen.{EventKey, key_of};

    ghost Value = { List EventKey };

    ghost view = { λ k. map key_of k.places };
}

impl Keys {
    // None yet. It takes no memory.
    pub(crate) fn new(alloc: Global) -> Keys
        ensures { result ≡ [] }
    {
        Keys {
            places: Places::new(alloc),
        }
    }

    // How many there are.
    pub(crate) fn len(&self) -> usize
        ensures { result ≡ length self.now }
    {
        self.places.len()
    }

    // The place of a key, where it is there.
    pub(crate) fn place(&self, key: &Key) -> Option<usize>
        ensures some { IfSome result (λ k. slice_get self.now k ≡ Some (key_of key.now)) }
        ensures none { IfNone result (list_any (is_same_key (key_of key.now)) self.now ≡ false) }
        ensures within { IfSome result (λ k. k < length self.now) }
    {
        self.places.place(key)
    }

    // Appends a key that is not there. All stays as before where memory runs out.
    pub(crate) fn push(&mut self, key: Key) -> Result<(), AllocError>
        requires { list_any (is_same_key (key_of key)) self.old ≡ false }
        ensures ok { OnOk result (self.new ≡ self.old ++ key_of key ∷ []) }
        ensures err { OnErr result (self.new ≡ self.old) }
    {
        self.places.push(key)?;
        Ok(())
    }

    // Takes the last key away, which is this one.
    pub(crate) fn take_last(&mut self, key: &Key)
        requires last { IsLast (is_same_key (key_of key.now)) self.old }
        ensures { self.new ≡ take (length self.old - 1) self.old }
    {
        self.places.take_last(key);
    }
}
