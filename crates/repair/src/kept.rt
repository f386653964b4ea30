// The rows that are kept.
ghost use Rattle.std.specs.Prelude.{◌≡◌, ◌+◌, ◌<◌, ◌≤◌, ℤ, List, length, max, true, false, Some, None, MatchOption, OnOk, OnErr, IfOk, IfErr, IfSome};
ghost use Rattle.problem_model.specs.Executions.{IsExecution};
ghost use Rattle.problem_model.specs.Limits.{most_nodes};
ghost use Rattle.sync_graph.specs.Graph.{GraphLists, IsGraph};
ghost use Rattle.sync_graph.specs.InForce.{arcs_of};
ghost use Rattle.repair.specs.declared.slot.Slot as slots;
ghost use Rattle.row_pool.specs.Pool.{free_rows};
ghost use Rattle.distances.specs.Searched.{nodes, table};
ghost use Rattle.repair.specs.Slots.{nothing_kept, with_presence, with_room, with_found, slot_of, all_slots, AreNodes, AreOwnRows, AreRowsOf, AreRowsBut, ChangesRowsOf};
ghost use Rattle.repair.specs.Keeping.{TakesRows, with_slot, with_source, IsSlotNumber, IsKeepRefused};
ghost use Rattle.repair.specs.Renewals.{CanRenew, TakesFewSteps};
ghost use Rattle.repair.specs.Withdrawals.{WereRows, TakesFewToWithdraw, ChangesFewCells, WritesFewPlaces};
ghost use Rattle.repair.specs.Pairs.{IsPairIn};

use crate::keep::{KeepError, new_slot};
use crate::look::look_in;
use crate::renew::{make_all, repair_all};
use crate::slot::{Slot, find_slot, place_of};
use crate::withdraw::Withdrawal;
use crate::withdrawal::withdraw_all;
use arrayvec::ArrayVec;
use atto::Steps;
use distances::Search;
use frontier::IdleQueue;
use row_pool::{Pair, RowId, RowPool};
use std::alloc::{AllocError, Global};
use std::marker::Model;
use std::slice::from_ref;
use std::sync::ledger::Ledger;

/// Up to eight nodes of events and the node of the source's clock, each with two rows of a pool. It is seen as these slots,
/// with whether their rows are those of the graph, with the room for the nodes of a graph, and with the list that it has
/// for them.
#[derive(Drop)]
pub struct Kept {
    slots: ArrayVec<Option<Slot>, 8>,
    source: Option<Slot>,
    present: bool,
    // A place for each node that there is room for, in which affected nodes are listed. It stays laid out.
    found: Vec<u32>,
    room: u32,
}

impl Model for Kept {
    ghost use Rattle.std.specs.Prelude.{◌≡◌, length};
    ghost use Rattle.repair.specs.Slots.{KeptRows, slots_in};

    ghost Value = { KeptRows };

    ghost view = { λ k. record { slots = slots_in k.slots.items; source = k.source; present = k.present; room = k.room; found = k.found.items } };

    ghost invariant = { λ k. (length (slots_in k.slots.items) ≡ length k.slots.items) × (k.room ≡ length k.found.items) };
}

impl Kept {
    /// Nothing is kept, so that all rows are those of the graph, and there is room for no node. It takes no memory.
    pub fn new(alloc: Global) -> Kept
        ensures { result ≡ nothing_kept }
    {
        Kept {
            slots: ArrayVec::new(),
            source: None,
            present: true,
            found: Vec::new(alloc),
            room: 0,
        }
    }

    /// Whether the rows are those of the graph.
    pub fn present(&self) -> bool
        ensures { result ≡ self.now.present }
    {
        self.present
    }

    /// From now on the rows are not those of the graph.
    pub fn lose(&mut self)
        ensures { self.new ≡ with_presence self.old false }
    {
        self.present = false;
    }

    /// Makes the room, in which withdrawn arcs are worked off, that for at least so many nodes. No slot and no row is
    /// changed. An `Err` comes only if memory does not suffice, and then all is as before.
    pub fn reserve(&mut self, nodes: u32) -> Result<(), AllocError>
        requires { nodes ≤ most_nodes }
        ensures ok { OnOk result (self.new ≡ with_room self.old (max self.old.room nodes)) }
        ensures err { OnErr result (self.new ≡ self.old) }
    {
        if nodes <= self.room {
            return Ok(());
        }
        self.found.resize(nodes as usize, 0)?;
        self.room = nodes;
        Ok(())
    }

    /// The greatest differences of a kept node p and of any node q in both directions, in units of 1e-9 ns: `up` of
    /// `x_q - x_p`, `down` of `x_p - x_q`. They are read off the rows, and hold for every graph that has an execution and
    /// has these rows. It is `None` where p is not kept, and only there.
    pub fn look(&self, pool: &RowPool, p: u32, q: u32) -> Option<Pair>
        requires present { self.now.present ≡ true }
        requires own { AreOwnRows self.now pool.now }
        requires node { q < pool.now.width }
        ensures { MatchOption result (slot_of self.now p ≡ None) (λ pair. (slot : slots.Slot) × (slot_of self.now p ≡ Some slot)
            × ((g : GraphLists) (xs : List ℤ) → IsGraph g → IsExecution (length g.nodes) (arcs_of g) xs → AreRowsOf g self.now pool.now
            → IsPairIn g p q pair)) }
    {
        match find_slot(&self.slots, p) {
            None => None,
            Some(slot) => Some(look_in(slot, pool, q)),
        }
    }

    /// The same for the node of the source's clock. It is `None` where the source has no slot, and only there.
    pub fn look_source(&self, pool: &RowPool, q: u32) -> Option<Pair>
        requires present { self.now.present ≡ true }
        requires own { AreOwnRows self.now pool.now }
        requires node { q < pool.now.width }
        ensures { MatchOption result (self.now.source ≡ None) (λ pair. (source : slots.Slot) × (self.now.source ≡ Some source)
            × ((g : GraphLists) (xs : List ℤ) → IsGraph g → IsExecution (length g.nodes) (arcs_of g) xs → AreRowsOf g self.now pool.now
            → IsPairIn g source.node q pair)) }
    {
        match &self.source {
            None => None,
            Some(source) => Some(look_in(source, pool, q)),
        }
    }

    /// The row from a kept node and the row towards it. It is `None` where the node is not kept, and only there.
    pub fn rows_of(&self, p: u32) -> Option<(&RowId, &RowId)>
        ensures { MatchOption result (slot_of self.now p ≡ None) (λ rows. (slot : slots.Slot) × (slot_of self.now p ≡ Some slot) × (rows.0.now ≡ slot.from) × (rows.1.now ≡ slot.to)) }
    {
        match find_slot(&self.slots, p) {
            None => None,
            Some(slot) => Some((&slot.from, &slot.to)),
        }
    }

    /// The row from the node of the source's clock and the row towards it. It is `None` where the source has no slot, and
    /// only there.
    pub fn source_rows(&self) -> Option<(&RowId, &RowId)>
        ensures { MatchOption result (self.now.source ≡ None) (λ rows. (slot : slots.Slot) × (self.now.source ≡ Some slot) × (rows.0.now ≡ slot.from) × (rows.1.now ≡ slot.to)) }
    {
        match &self.source {
            None => None,
            Some(source) => Some((&source.from, &source.to)),
        }
    }

    /// The number of a node's slot, from 1. It is `None` where the node has no slot, and only there.
    pub fn place_of(&self, p: u32) -> Option<u32>
        ensures { MatchOption result (slot_of self.now p ≡ None) (λ place. IsSlotNumber self.now p place) }
    {
        match place_of(&self.slots, p) {
            None => None,
            Some(place) => Some(place),
        }
    }

    /// Gives a node of the graph a slot with two free rows of the pool, and makes these where there is a search, of an
    /// execution that exists. Answers the number of the slot, from 1. It takes no memory. An error leaves all as it was: the
    /// node has a slot already, or else there are eight.
    pub fn keep<L: Ledger>(
        &mut self,
        search: &Option<Search>,
        p: u32,
        pool: &mut RowPool,
        queue: &mut IdleQueue,
        steps: &mut Steps<L>,
    ) -> Result<u32, KeepError>
        requires own { AreOwnRows self.old pool.old }
        requires free { 2 ≤ free_rows pool.old }
        requires node { IfSome search.now (λ s. p < nodes s) }
        requires rows { IfSome search.now (λ s. AreRowsOf s.graph self.old pool.old) }
        requires can { IfSome search.now (λ s. CanRenew s pool.old queue.old) }
        ensures slot { IfOk result (λ place. (slot_of self.old p ≡ None) × (length self.old.slots < 8) × (place ≡ length self.old.slots + 1)) }
        ensures takes { OnOk result ((slot : slots.Slot) × (slot.node ≡ p) × (self.new ≡ with_slot self.old slot) × TakesRows pool.old pool.new slot) }
        ensures own { AreOwnRows self.new pool.new }
        ensures rows { IfSome search.now (λ s. AreRowsOf s.graph self.new pool.new) }
        ensures refused { IfErr result (IsKeepRefused self.old p) }
        ensures err { OnErr result ((self.new ≡ self.old) × (pool.new ≡ pool.old)) }
        ensures queue { queue.new ≡ queue.old }
    {
        if let Some(place) = place_of(&self.slots, p) {
            return Err(KeepError::Already(place));
        }
        if self.slots.is_full() {
            return Err(KeepError::Full);
        }
        let slot = new_slot(search, p, pool, queue, steps);
        self.slots.push(Some(slot));
        Ok(self.slots.len() as u32)
    }

    /// Gives the node of the source's clock, which has no slot yet, two free rows of the pool, as `keep` does. It takes no
    /// memory.
    pub fn keep_source<L: Ledger>(
        &mut self,
        search: &Option<Search>,
        node: u32,
        pool: &mut RowPool,
        queue: &mut IdleQueue,
        steps: &mut Steps<L>,
    )
        requires none { self.old.source ≡ None }
        requires own { AreOwnRows self.old pool.old }
        requires free { 2 ≤ free_rows pool.old }
        requires node { IfSome search.now (λ s. node < nodes s) }
        requires rows { IfSome search.now (λ s. AreRowsOf s.graph self.old pool.old) }
        requires can { IfSome search.now (λ s. CanRenew s pool.old queue.old) }
        ensures takes { (slot : slots.Slot) × (slot.node ≡ node) × (self.new ≡ with_source self.old slot) × TakesRows pool.old pool.new slot }
        ensures own { AreOwnRows self.new pool.new }
        ensures rows { IfSome search.now (λ s. AreRowsOf s.graph self.new pool.new) }
        ensures queue { queue.new ≡ queue.old }
    {
        let slot = new_slot(search, node, pool, queue, steps);
        self.source = Some(slot);
    }

    /// Makes the rows of all slots anew by a search from nodes, and they are then present. It takes no memory.
    pub fn refresh<L: Ledger>(
        &mut self,
        search: &Search,
        pool: &mut RowPool,
        queue: &mut IdleQueue,
        steps: &mut Steps<L>,
    )
        requires own { AreOwnRows self.old pool.old }
        requires nodes { AreNodes search.now.graph self.old }
        requires can { CanRenew search.now pool.old queue.old }
        ensures slots { self.new ≡ with_presence self.old true }
        ensures own { AreOwnRows self.new pool.new }
        ensures rows { AreRowsOf search.now.graph self.new pool.new }
        ensures others { ChangesRowsOf (all_slots self.old) pool.old pool.new }
        ensures queue { queue.new ≡ queue.old }
    {
        make_all(search, from_ref(&self.source), pool, queue, steps);
        make_all(search, &self.slots, pool, queue, steps);
        self.present = true;
    }

    /// Repairs the rows of all slots after an arc in force was brought in, by a search from nodes: they were those of the
    /// graph without it, and are those of the graph now. It takes no memory, and few steps: for each row two, and for each
    /// node whose cell gets another value or becomes known two and one for each arc in force that leaves the node, or that
    /// arrives at it in a row towards the slot's node.
    pub fn after_insert<L: Ledger>(
        &mut self,
        search: &Search,
        arc: u32,
        pool: &mut RowPool,
        queue: &mut IdleQueue,
        steps: &mut Steps<L>,
    )
        requires own { AreOwnRows self.old pool.old }
        requires before { AreRowsBut search.now.graph arc self.old pool.old }
        requires in_force { (table search.now).in_force arc ≡ true }
        requires can { CanRenew search.now pool.old queue.old }
        ensures slots { self.new ≡ with_presence self.old true }
        ensures own { AreOwnRows self.new pool.new }
        ensures rows { AreRowsOf search.now.graph self.new pool.new }
        ensures others { ChangesRowsOf (all_slots self.old) pool.old pool.new }
        ensures few { TakesFewSteps search.now.graph (all_slots self.old) pool.old pool.new steps.old steps.new }
        ensures queue { queue.new ≡ queue.old }
    {
        repair_all(search, arc, from_ref(&self.source), pool, queue, steps);
        repair_all(search, arc, &self.slots, pool, queue, steps);
        self.present = true;
    }

    /// Repairs the rows of all slots once arcs were withdrawn, by a search from nodes: they were those of the graph before,
    /// and are those of the graph now. It takes no memory, since room was reserved for all nodes. No cell but those
    /// of affected nodes is changed, and of the list that it works in no more places than nodes are affected in one row.
    ///
    /// A node is affected in a row where its path by parents had an arc that equals one of those removed. There are few
    /// steps: for each row two, and for each node that is affected in it five and two for each arc in force that reaches or
    /// leaves it.
    pub fn after_withdraw<L: Ledger>(
        &mut self,
        withdrawal: &Withdrawal,
        pool: &mut RowPool,
        queue: &mut IdleQueue,
        steps: &mut Steps<L>,
    )
        requires own { AreOwnRows self.old pool.old }
        requires before { WereRows withdrawal.now.search.graph withdrawal.now.removed.now pool.old (all_slots self.old) }
        requires can { CanRenew withdrawal.now.search pool.old queue.old }
        requires found { nodes withdrawal.now.search ≤ self.old.room }
        ensures slots { self.new ≡ with_found (with_presence self.old true) self.new.found }
        ensures own { AreOwnRows self.new pool.new }
        ensures rows { AreRowsOf withdrawal.now.search.graph self.new pool.new }
        ensures others { ChangesRowsOf (all_slots self.old) pool.old pool.new }
        ensures few { TakesFewToWithdraw withdrawal.now.search.graph withdrawal.now.removed.now (all_slots self.old) pool.old steps.old steps.new }
        ensures cells { ChangesFewCells withdrawal.now.search.graph withdrawal.now.removed.now (all_slots self.old) pool.old pool.new }
        ensures places { WritesFewPlaces withdrawal.now.search.graph withdrawal.now.removed.now (all_slots self.old) pool.old self.old.found self.new.found }
        ensures queue { queue.new ≡ queue.old }
    {
        withdraw_all(
            withdrawal,
            from_ref(&self.source),
            pool,
            &mut self.found,
            queue,
            steps,
        );
        withdraw_all(withdrawal, &self.slots, pool, &mut self.found, queue, steps);
        self.present = true;
    }
}
