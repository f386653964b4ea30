// Names and pairs by their places.
ghost use Rattle.std.specs.Prelude.{◌≡◌, ◌<◌, ◌+◌, ◌++◌, ◌∷◌, [], ℕ, length, slice_get, Some, IfSome, IfNone, OnOk, OnErr};

use interner::Places;
use problem_model::Name;
use std::alloc::{AllocFailed, Global};
use std::marker::Model;

/// The names of a list, by their places in it.
#[derive(Drop)]
pub struct Names {
    places: Places<Name>,
}

impl Model for Names {
    ghost use Rattle.std.specs.Prelude.{ℕ, List};

    ghost Value = { List (List ℕ) };

    ghost view = { λ n. n.places };
}

impl Names {
    /// None yet. It takes no memory.
    pub fn new(alloc: Global) -> Names
        ensures { result ≡ [] }
    {
        Names {
            places: Places::new(alloc),
        }
    }

    /// The place of a name, from 0 on, where it is there.
    pub fn place(&self, name: &Name) -> Option<usize>
        ensures some { IfSome result (λ k. slice_get self.now k ≡ Some name.now) }
        ensures none { IfNone result ((k : ℕ) → slice_get self.now k ≡ Some name.now → ⊥) }
        ensures within { IfSome result (λ k. k < length self.now) }
    {
        self.places.place(name)
    }

    /// Appends a name that is not there. All stays as before where memory runs out.
    pub fn push(&mut self, name: &Name) -> Result<(), AllocFailed<Name>>
        requires { (k : ℕ) → slice_get self.old k ≡ Some name.now → ⊥ }
        ensures ok { OnOk result (self.new ≡ self.old ++ name.now ∷ []) }
        ensures err { OnErr result (self.new ≡ self.old) }
    {
        self.places.push(*name)
    }
}

/// The sends and receives of a list of messages, by their places in it.
#[derive(Drop)]
pub struct Pairs {
    places: Places<(u32, u32)>,
}

impl Model for Pairs {
    ghost use Rattle.std.specs.Prelude.{ℕ, List};

    ghost Value = { List (ℕ × ℕ) };

    ghost view = { λ n. n.places };
}

impl Pairs {
    /// None yet. It takes no memory.
    pub fn new(alloc: Global) -> Pairs
        ensures { result ≡ [] }
    {
        Pairs {
            places: Places::new(alloc),
        }
    }

    /// The place of a pair, from 0 on, where it is there.
    pub fn place(&self, send: u32, receive: u32) -> Option<usize>
        ensures some { IfSome result (λ k. slice_get self.now k ≡ Some (send, receive)) }
        ensures none { IfNone result ((k : ℕ) → slice_get self.now k ≡ Some (send, receive) → ⊥) }
        ensures within { IfSome result (λ k. k < length self.now) }
    {
        self.places.place(&(send, receive))
    }

    /// Appends a pair that is not there. All stays as before where memory runs out.
    pub fn push(&mut self, send: u32, receive: u32) -> Result<(), AllocFailed<(u32, u32)>>
        requires { (k : ℕ) → slice_get self.old k ≡ Some (send, receive) → ⊥ }
        ensures ok { OnOk result (self.new ≡ self.old ++ (send, receive) ∷ []) }
        ensures err { OnErr result (self.new ≡ self.old) }
    {
        self.places.push((send, receive))
    }
}
