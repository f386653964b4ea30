// The earliest execution, as it is kept.
ghost use Rattle.std.specs.Prelude.{◌≡◌, ◌+◌, ◌<◌, ◌≤◌, ◌++◌, ◌∷◌, [], false, true, IfOk, OnOk, OnErr, All, length, pos, replicate, slice_index_or};
ghost use Rattle.problem_model.specs.Executions.{at};
ghost use Rattle.sync_graph.specs.Graph.{IsSound};
ghost use Rattle.earliest.specs.Values.{IsEarliestOf, IsEarliestBut};
ghost use Rattle.earliest.specs.Inserted.{IsInserted};
ghost use Rattle.earliest.specs.Steps.{most_insert_steps};
ghost use Rattle.earliest.specs.Withdrawn.{IsEarliestWith, TakesFewToFall, ListsFewNodes, ChangesFewValues};

use crate::cycle::cycle_of;
use crate::inserted::Inserted;
use crate::settle::add_arc;
use crate::withdraw::withdraw_arcs;
use atto::Steps;
use frontier::IdleQueue;
use std::alloc::{AllocError, Global};
use std::marker::Model;
use std::sync::ledger::Ledger;
use sync_graph::{Arc, Graph};

/// One value for each node, in units of 1e-9 ns, whether they are the earliest execution of a graph, and a list to work in.
#[derive(Drop)]
pub struct Earliest {
    alloc: Global,
    values: Vec<i128>,
    // The arc that asked for each raise while an arc is brought in, and the affected nodes while arcs are withdrawn.
    parents: Vec<u32>,
    solved: bool,
}

impl Model for Earliest {
    ghost use Rattle.std.specs.Prelude.{◌≡◌, length};
    ghost use Rattle.earliest.specs.Values.{Values};

    ghost Value = { Values };

    ghost view = { λ e. record { values = e.values.items; is_solved = e.solved; workspace = e.parents.items } };

    ghost invariant = { λ e. length e.parents.items ≡ length e.values.items };
}

impl Earliest {
    /// No values, solved. It takes no memory.
    pub fn new(alloc: Global) -> Earliest
        ensures { result ≡ record { values = []; is_solved = true; workspace = [] } }
    {
        Earliest {
            alloc,
            values: Vec::new(alloc),
            parents: Vec::new(alloc),
            solved: true,
        }
    }

    /// Whether the values are an earliest execution.
    pub fn solved(&self) -> bool
        ensures { result ≡ self.now.is_solved }
    {
        self.solved
    }

    /// The value of a node, in units of 1e-9 ns.
    pub fn value(&self, node: u32) -> i128
        requires solved { self.now.is_solved ≡ true }
        requires node { node < length self.now.values }
        ensures { result ≡ at self.now.values node }
    {
        self.values[node as usize]
    }

    /// Appends a node of value 0. All stays as it was where memory runs out.
    pub fn push_node(&mut self) -> Result<(), AllocError>
        ensures ok { OnOk result (self.new ≡ record { values = self.old.values ++ pos 0 ∷ []; is_solved = self.old.is_solved; workspace = self.old.workspace ++ 0 ∷ [] }) }
        ensures err { OnErr result (self.new ≡ self.old) }
    {
        if let Err(_) = self.values.reserve(1) {
            return Err(AllocError);
        }
        if let Err(_) = self.parents.reserve(1) {
            return Err(AllocError);
        }
        self.values.push_reserved(0);
        self.parents.push_reserved(0);
        Ok(())
    }

    /// All values 0, solved: the earliest execution where no arc is in force.
    pub(crate) fn set_zero(&mut self)
        ensures { self.new ≡ record { values = replicate (length self.old.values) (pos 0); is_solved = true; workspace = self.old.workspace } }
    {
        self.values.fill(0);
        self.solved = true;
    }

    /// Leaves the values as they are, unsolved.
    pub(crate) fn unsolve(&mut self)
        ensures { self.new ≡ record { values = self.old.values; is_solved = false; workspace = self.old.workspace } }
    {
        self.solved = false;
    }

    /// Where its memory comes from.
    pub(crate) fn alloc(&self) -> Global {
        self.alloc
    }

    /// Brings in one arc in force, where the values are the earliest execution of the others. `queue` has room for all
    /// nodes. Where memory runs out it is not solved.
    ///
    /// A step is one call of `leaving`, `arriving` or `pop`. Where the values are kept there are at most two and, for
    /// each node whose value differs before and after, two and the arcs in force that reach it. Where there is a
    /// negative cycle there are at most two, two for each node, and the arcs in force.
    pub fn insert<L: Ledger>(
        &mut self,
        g: &Graph,
        arc: u32,
        queue: &mut IdleQueue,
        steps: &mut Steps<L>,
    ) -> Result<Inserted, AllocError>
        requires in_force { slice_index_or g.now.in_force arc false ≡ true }
        requires solved { self.old.is_solved ≡ true }
        requires before { IsEarliestBut g.now arc self.old.values }
        requires room { length g.now.nodes ≤ queue.old }
        ensures found { IfOk result (λ found. IsInserted g.now self.new found) }
        ensures steps { IfOk result (λ found. steps.new ≤ steps.old + most_insert_steps g.now self.old.values self.new.values found) }
        ensures unsolved { OnErr result (self.new.is_solved ≡ false) }
        ensures values { length self.new.values ≡ length self.old.values }
        ensures queue { queue.new ≡ queue.old }
    {
        // It tells how many arcs the lists of all nodes hold together.
        g.degrees();
        let front = &mut queue.front;
        self.solved = add_arc(&mut self.values, &mut self.parents, g, arc, front, steps);
        if self.solved {
            return Ok(Inserted::Kept);
        }
        front.clear();
        let cycle = cycle_of(self.alloc, &self.parents, g, arc)?;
        Ok(Inserted::Negative(cycle))
    }

    /// Brings the values to the earliest execution of `g`, where they are that of `g` with the arcs `removed` in force
    /// as well. `queue` has room for all nodes. It takes no memory.
    ///
    /// A node is affected where a chain of arcs that the values before meet exactly starts at it and ends by one of
    /// those removed. There are at most two steps and, for each affected node, five and two for each arc in force that
    /// reaches or leaves it. No value but those of affected nodes is changed, and no more places of the list that it works
    /// in than there are of these.
    pub fn withdraw<L: Ledger>(
        &mut self,
        g: &Graph,
        removed: &[Arc],
        queue: &mut IdleQueue,
        steps: &mut Steps<L>,
    )
        requires solved { self.old.is_solved ≡ true }
        requires sound { All (IsSound (length g.now.nodes)) removed.now }
        requires before { IsEarliestWith g.now removed.now self.old.values }
        requires room { length g.now.nodes ≤ queue.old }
        ensures solved { self.new.is_solved ≡ true }
        ensures earliest { IsEarliestOf g.now self.new.values }
        ensures queue { queue.new ≡ queue.old }
        ensures steps { TakesFewToFall g.now removed.now self.old.values steps.old steps.new }
        ensures places { ListsFewNodes g.now removed.now self.old.values self.old.workspace self.new.workspace }
        ensures others { ChangesFewValues g.now removed.now self.old.values self.new.values }
    {
        let front = &mut queue.front;
        withdraw_arcs(
            &mut self.values,
            &mut self.parents,
            g,
            removed,
            front,
            steps,
        );
    }
}
