// The real times of the nodes of a problem.
ghost use Rattle.std.specs.Prelude.{◌≡◌, ◌≤◌, ◌<◌, ◌^◌, ◌++◌, ◌∷◌, [], length, slice_get, Some, IsTrue, ◌↔◌, OnOk, OnErr, unsigned_abs};
ghost use Rattle.problem_model.specs.Limits.{most_nodes};

use atto::Units;
use std::alloc::{AllocError, Global};
use std::marker::Model;

/// At most 2^25 real times in units of 1e-9 ns, each at most 2^120 in absolute value. That of a problem has one for
/// each node, in the order of the nodes.
#[derive(Drop)]
pub struct Execution {
    values: Vec<Units>,
}

impl Model for Execution {
    ghost use Rattle.std.specs.Prelude.{ℤ, List, ◌≤◌, ◌^◌, length};
    ghost use Rattle.problem_model.specs.Limits.{most_nodes};

    ghost Value = { List ℤ };

    ghost view = { λ e. e.values.items };

    ghost invariant = { λ e. length e.values.items ≤ most_nodes };
}

impl Execution {
    /// The execution with no values. It takes no memory.
    pub fn new(alloc: Global) -> Execution
        ensures { result ≡ [] }
    {
        Execution {
            values: Vec::new(alloc),
        }
    }

    /// Appends a value. All is as before where memory runs out.
    pub fn push(&mut self, v: Units) -> Result<(), AllocError>
        requires { length self.old < most_nodes }
        ensures ok { OnOk result (self.new ≡ self.old ++ v ∷ []) }
        ensures err { OnErr result (self.new ≡ self.old) }
    {
        self.values.reserve(1)?;
        self.values.push_reserved(v);
        Ok(())
    }

    /// The number of values.
    pub fn len(&self) -> u32
        ensures count { result ≡ length self.now }
        ensures limit { result ≤ most_nodes }
    {
        self.values.len() as u32
    }

    /// Whether there are no values.
    pub fn is_empty(&self) -> bool
        ensures { IsTrue result ↔ (self.now ≡ []) }
    {
        self.values.is_empty()
    }

    /// The value at a place, from 0 on.
    pub fn value(&self, k: u32) -> Units
        requires { k < length self.now }
        ensures value { slice_get self.now k ≡ Some result }
        ensures fits { unsigned_abs result ≤ 2 ^ 120 }
    {
        let v = self.values[k as usize];
        let _range = v.get();
        v
    }
}
