// The calls of a device in memory: which of them fail, and how many there were.
ghost use Rattle.std.specs.Prelude.{◌≡◌, ◌↔◌, ◌≤◌, IsTrue, IsErr, IfOk, OnOk, OnErr, Contains};
ghost use Rattle.ports.specs.Memory.{CallCounts, CallFails, next_count, no_calls, next_call, failed_call};

use crate::Failed;
use std::alloc::{AllocError, Global};
use std::marker::Model;

/// How many calls there were, how many of them failed, and which are to fail.
#[derive(Drop)]
pub struct Calls {
    failing: Vec<u32>,
    made: u64,
    failed: u64,
}

impl Model for Calls {
    ghost use Rattle.ports.specs.Memory.{CallCounts};

    ghost Value = { CallCounts };

    ghost view = { λ c. record { failing = c.failing.items; made = c.made; failed = c.failed } };
}

impl Calls {
    /// No calls yet. Those of these numbers will fail, the first call being 1.
    pub fn new(alloc: Global, failing: &[u32]) -> Result<Calls, AllocError>
        ensures { IfOk result (λ c. c ≡ no_calls failing.now) }
    {
        Ok(Calls {
            failing: Vec::from_slice(alloc, failing)?,
            made: 0,
            failed: 0,
        })
    }

    /// Counts one more call, which fails where its number is one of those that fail.
    pub fn next(&mut self) -> Result<(), Failed>
        ensures fails { IsErr result ↔ CallFails self.old }
        ensures ok { OnOk result (self.new ≡ next_call self.old) }
        ensures err { OnErr result (self.new ≡ failed_call self.old) }
        ensures no_fall { self.old.failed ≤ self.new.failed }
    {
        self.pass();
        if is_numbered(&self.failing, self.made) {
            self.failed = self.failed.saturating_add(1);
            return Err(Failed);
        }
        Ok(())
    }

    /// Counts one more call, which does not fail.
    pub fn pass(&mut self)
        ensures { self.new ≡ next_call self.old }
    {
        self.made = self.made.saturating_add(1);
    }

    /// The present call fails for a reason of its own.
    pub fn fail(&mut self)
        ensures failed { self.new ≡ record self.old { failed = next_count self.old.failed } }
        ensures no_fall { self.old.failed ≤ self.new.failed }
    {
        self.failed = self.failed.saturating_add(1);
    }
}

// Whether a call's number is in a list.
fn is_numbered(numbers: &[u32], number: u64) -> bool
    ensures { IsTrue result ↔ Contains numbers.now number }
{
    numbers.iter().any(|k| u64::from(*k) == number)
}
