// Nodes that are kept from now on.
ghost use Rattle.std.specs.Prelude.{◌≡◌, ◌+◌, ◌<◌, ◌≤◌, length, None, MatchOption, IfOk, IfErr, OnOk, OnErr};
ghost use Rattle.row_pool.specs.Pool.{free_rows};
ghost use Rattle.repair.specs.declared.slot.Slot as slots;
ghost use Rattle.repair.specs.Slots.{slot_of};
ghost use Rattle.repair.specs.Keeping.{TakesRows, with_slot, with_source, IsSlotNumber, IsKeepRefused};
ghost use Rattle.solver.specs.Changes.{StaysCurrent};
ghost use Rattle.solver.specs.Current.{IsCurrent};

use crate::search::search_of;
use crate::solver::{Solver, reserve_near};
use atto::Steps;
use repair::KeepError;
use std::sync::ledger::Ledger;

impl Solver {
    /// The number of a node's slot, from 1. It is `None` where the node has no slot, and only there.
    pub fn slot_of(&self, node: u32) -> Option<u32>
        ensures { MatchOption result (slot_of self.now.kept node ≡ None) (λ place. IsSlotNumber self.now.kept node place) }
    {
        self.kept.place_of(node)
    }

    /// Keeps a node's two rows from now on, and answers the number of its slot, from 1. An error leaves all as it was: the
    /// node has a slot already, or else eight nodes have one. It takes no memory.
    pub fn keep<L: Ledger>(&mut self, node: u32, steps: &mut Steps<L>) -> Result<u32, KeepError>
        requires current { IsCurrent self.old }
        requires node { node < length self.old.graph.nodes }
        requires free { 2 ≤ free_rows self.old.pool }
        ensures slot { IfOk result (λ place. (slot_of self.old.kept node ≡ None) × (length self.old.kept.slots < 8) × (place ≡ length self.old.kept.slots + 1)) }
        ensures takes { OnOk result ((slot : slots.Slot) × (slot.node ≡ node) × (self.new.kept ≡ with_slot self.old.kept slot) × TakesRows self.old.pool self.new.pool slot) }
        ensures free { OnOk result (free_rows self.new.pool + 2 ≡ free_rows self.old.pool) }
        ensures refused { IfErr result (IsKeepRefused self.old.kept node) }
        ensures err { OnErr result ((self.new.kept ≡ self.old.kept) × (self.new.pool ≡ self.old.pool)) }
        ensures leaves { StaysCurrent self.old self.new }
    {
        let search = search_of(&self.graph, &self.earliest);
        let pool = &mut self.pool;
        self.kept.keep(&search, node, pool, &mut self.queue, steps)
    }

    /// Keeps the two rows of the source's node, which has no slot yet. It needs no memory; where there is some, it takes
    /// some for questions about near nodes.
    pub fn keep_source<L: Ledger>(&mut self, node: u32, steps: &mut Steps<L>)
        requires current { IsCurrent self.old }
        requires none { self.old.kept.source ≡ None }
        requires node { node < length self.old.graph.nodes }
        requires free { 2 ≤ free_rows self.old.pool }
        ensures takes { (slot : slots.Slot) × (slot.node ≡ node) × (self.new.kept ≡ with_source self.old.kept slot) × TakesRows self.old.pool self.new.pool slot }
        ensures free { free_rows self.new.pool + 2 ≡ free_rows self.old.pool }
        ensures leaves { StaysCurrent self.old self.new }
    {
        let nodes = self.graph.nodes();
        reserve_near(&mut self.behind, &mut self.ahead, nodes);
        let search = search_of(&self.graph, &self.earliest);
        let pool = &mut self.pool;
        self.kept
            .keep_source(&search, node, pool, &mut self.queue, steps);
    }
}
