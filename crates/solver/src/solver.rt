// A graph with its earliest execution or a contradiction, and kept rows.
ghost use Rattle.std.specs.Prelude.{◌≡◌, ◌+◌, ◌-◌, ◌<◌, ◌≤◌, [], length, max, OnOk};
ghost use Rattle.problem_model.specs.Executions.{at};
ghost use Rattle.problem_model.specs.Limits.{most_nodes};
ghost use Rattle.sync_graph.specs.Graph.{no_graph};
ghost use Rattle.row_pool.specs.Pool.{grown};
ghost use Rattle.repair.specs.Slots.{nothing_kept, with_room};
ghost use Rattle.solver.specs.Changes.{KeepsAnswer};
ghost use Rattle.solver.specs.Current.{IsCurrent, IsSolvedNow, IsContradicted};

use distances::{MOST_AROUND, Scratch};
use earliest::Earliest;
use earliest::laws::growth;
use frontier::IdleQueue;
use repair::{Kept, rows_in_a_grown_pool};
use row_pool::RowPool;
use std::alloc::{AllocError, Global};
use std::marker::Model;
use sync_graph::{Arc, Graph};

/// A graph with its earliest execution, or with a contradiction where it has none, and with the rows of kept nodes. After
/// each call that answers no want of memory all of it is of the present graph; after want of memory it is used no more.
#[derive(Drop)]
pub struct Solver {
    pub(crate) alloc: Global,
    pub(crate) graph: Graph,
    pub(crate) earliest: Earliest,
    // Empty exactly where there is an execution.
    pub(crate) contradiction: Vec<Arc>,
    pub(crate) pool: RowPool,
    pub(crate) kept: Kept,
    pub(crate) queue: IdleQueue,
    // For questions about two near nodes.
    pub(crate) behind: Scratch,
    pub(crate) ahead: Scratch,
}

impl Model for Solver {
    ghost use Rattle.solver.specs.Solver.{SolverLists};

    ghost Value = { SolverLists };

    ghost view = { λ s. record { graph = s.graph; earliest = s.earliest; contradiction = s.contradiction.items; pool = s.pool; kept = s.kept; front = s.queue } };
}

impl Solver {
    /// The graph without nodes and arcs, of which nothing is kept. It takes no memory.
    pub fn new(alloc: Global) -> Solver
        ensures graph { result.graph ≡ no_graph }
        ensures kept { result.kept ≡ nothing_kept }
        ensures rows { result.pool.rows ≡ [] }
        ensures current { IsCurrent result }
    {
        // It tells that no values are the earliest execution of a graph without nodes.
        growth();
        let graph = Graph::new(alloc);
        // It tells what the lists of the graph hold.
        graph.exact();
        Solver {
            alloc,
            graph,
            earliest: Earliest::new(alloc),
            contradiction: Vec::new(alloc),
            pool: RowPool::new(alloc),
            kept: Kept::new(alloc),
            queue: IdleQueue::new(alloc),
            behind: Scratch::new(alloc),
            ahead: Scratch::new(alloc),
        }
    }

    /// Makes room for at least so many rows and nodes: 32 rows at most, of which each kept node takes two. What is held
    /// stays, also where memory runs out.
    pub fn reserve(&mut self, rows: u32, nodes: u32) -> Result<(), AllocError>
        requires current { IsCurrent self.old }
        requires rows { rows ≤ 32 }
        requires nodes { nodes ≤ most_nodes }
        ensures pool { OnOk result (self.new.pool ≡ grown self.old.pool rows nodes) }
        ensures kept { OnOk result (self.new.kept ≡ with_room self.old.kept (max self.old.kept.room nodes)) }
        ensures front { OnOk result (self.new.front ≡ self.old.front + (nodes - self.old.front)) }
        ensures answer { KeepsAnswer self.old self.new }
        ensures current { IsCurrent self.new }
    {
        // It tells that rows stay those of a pool that has grown.
        rows_in_a_grown_pool();
        self.queue.reserve(nodes)?;
        self.kept.reserve(nodes)?;
        self.pool.reserve(rows, nodes)?;
        let guided = guided_nodes(&self.kept, nodes);
        reserve_near(&mut self.behind, &mut self.ahead, guided);
        Ok(())
    }

    /// The graph.
    pub fn graph(&self) -> &Graph
        ensures { result.now ≡ self.now.graph }
    {
        &self.graph
    }

    /// The earliest execution of the graph, where there is one.
    pub fn earliest(&self) -> &Earliest
        ensures { result.now ≡ self.now.earliest }
    {
        &self.earliest
    }

    /// A closed chain of arcs in force with a negative sum, at most as many as there are nodes, or no arc. It is empty
    /// exactly where there is an execution.
    pub fn contradiction(&self) -> &[Arc]
        requires current { IsCurrent self.now }
        ensures value { result.now ≡ self.now.contradiction }
        ensures solved { result.now ≡ [] → IsSolvedNow self.now }
        ensures contradicted { (result.now ≡ [] → ⊥) → IsContradicted self.now }
    {
        &self.contradiction
    }

    /// The value of a node in the earliest execution, in units of 1e-9 ns.
    pub fn value(&self, node: u32) -> i128
        requires current { IsCurrent self.now }
        requires solved { self.now.contradiction ≡ [] }
        requires node { node < length self.now.graph.nodes }
        ensures { result ≡ at self.now.earliest.values node }
    {
        self.earliest.value(node)
    }
}

// Of so many nodes those that a guide may be asked about: all where the source has rows, and else none.
fn guided_nodes(kept: &Kept, nodes: u32) -> u32 {
    if kept.source_rows().is_some() {
        nodes
    } else {
        0
    }
}

// Makes the cells of both at least so many, where memory suffices and so many nodes may be asked about. Else near nodes are
// searched for as others are.
pub(crate) fn reserve_near(behind: &mut Scratch, ahead: &mut Scratch, nodes: u32) {
    if nodes <= MOST_AROUND && behind.reserve(nodes).is_ok() {
        let _is_enough = ahead.reserve(nodes).is_ok();
    }
}
