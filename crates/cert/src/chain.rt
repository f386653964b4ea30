// Steps of a certificate: bounds with their weights.
ghost use Rattle.std.specs.Prelude.{◌≡◌, ◌<◌, ◌≤◌, ◌^◌, ◌↔◌, ◌++◌, ◌∷◌, [], length, IsTrue, OnOk, OnErr};
ghost use Rattle.problem_model.specs.Limits.{most_steps};

use atto::Units;
use problem_model::Bound;
use std::alloc::{AllocError, Global};
use std::marker::Model;

/// A bound, and the weight that a certificate gives it.
#[derive(Clone, Copy, Debug, PartialEq, Eq)]
pub struct Step {
    /// The name of the bound.
    pub bound: Bound,
    /// In units of 1e-9 ns, at most 2^120 in absolute value.
    pub weight: Units,
}

/// At most 2^26 steps, one after another: a cycle or a path of difference constraints.
#[derive(Drop)]
pub struct Chain {
    held: Vec<Step>,
}

impl Model for Chain {
    ghost use Rattle.std.specs.Prelude.{List, ◌≤◌, ◌^◌, length};
    ghost use Rattle.problem_model.specs.Limits.{most_steps};
    ghost use Rattle.cert.specs.declared.chain.Step.{Step};

    ghost Value = { List Step };

    ghost view = { λ c. c.held.items };

    ghost invariant = { λ c. length c.held.items ≤ most_steps };
}

impl Chain {
    /// The chain with no steps. It takes no memory.
    pub fn new(alloc: Global) -> Chain
        ensures { result ≡ [] }
    {
        Chain {
            held: Vec::new(alloc),
        }
    }

    /// Appends a step. All is as before where memory runs out.
    pub fn push(&mut self, s: Step) -> Result<(), AllocError>
        requires { length self.old < most_steps }
        ensures ok { OnOk result (self.new ≡ self.old ++ s ∷ []) }
        ensures err { OnErr result (self.new ≡ self.old) }
    {
        let bound: Bound = s.bound;
        self.held.reserve(1)?;
        self.held.push_reserved(Step {
            bound,
            weight: s.weight,
        });
        Ok(())
    }

    /// The steps in their order.
    pub fn steps(&self) -> &[Step]
        ensures { result.now ≡ self.now }
    {
        &self.held
    }

    /// The number of steps.
    pub fn len(&self) -> u32
        ensures count { result ≡ length self.now }
        ensures limit { result ≤ most_steps }
    {
        self.held.len() as u32
    }

    /// Whether there are no steps.
    pub fn is_empty(&self) -> bool
        ensures { IsTrue result ↔ (self.now ≡ []) }
    {
        self.held.is_empty()
    }
}
