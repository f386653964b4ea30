// Nodes and arcs that come.
ghost use Rattle.std.specs.Prelude.{◌≡◌, ◌+◌, ◌<◌, ◌≤◌, ℕ, false, true, length, slice_get, slice_index_or, Some, IfOk, OnOk};
ghost use Rattle.problem_model.specs.Limits.{most_arcs, most_nodes};
ghost use Rattle.sync_graph.specs.Graph.{IsSound, with_arc};
ghost use Rattle.sync_graph.specs.Names.{IsNamed};
ghost use Rattle.solver.specs.Solver.{HasRoom, with_new_node};
ghost use Rattle.solver.specs.Current.{IsCurrent};
ghost use Rattle.solver.specs.Changes.{KeepsSlots};
ghost use Rattle.solver.specs.Costs.{pushing_steps};
ghost use Rattle.solver.specs.Pushed.{IsPushed, with_contradiction};

use crate::solver::Solver;
use atto::Steps;
use distances::{Search, Side};
use earliest::Inserted;
use earliest::laws::growth;
use problem_model::Node;
use repair::rows_of_a_grown_graph;
use std::alloc::AllocError;
use std::sync::ledger::Ledger;
use sync_graph::Arc;

impl Solver {
    /// Appends a node without arcs, and answers its number. Room was reserved for it.
    pub fn push_node(&mut self, n: Node) -> Result<u32, AllocError>
        requires current { IsCurrent self.old }
        requires new { (k : ℕ) → slice_get self.old.graph.nodes k ≡ Some n → ⊥ }
        requires few { length self.old.graph.nodes < most_nodes }
        requires room { HasRoom (length self.old.graph.nodes + 1) self.old }
        ensures number { IfOk result (λ node. node ≡ length self.old.graph.nodes) }
        ensures ok { OnOk result (self.new ≡ with_new_node self.old n) }
        ensures current { OnOk result (IsCurrent self.new) }
    {
        // They tell what holds of a graph that has grown, and what its rows are.
        growth();
        rows_of_a_grown_graph();
        self.earliest.push_node()?;
        let node = self.graph.push_node(n)?;
        // It tells what the lists of the graph hold.
        self.graph.exact();
        Ok(node)
    }

    /// Appends an arc, in force, and answers its number. Where there was an execution the arc is brought in, and then the
    /// kept rows are repaired, or a contradiction is held from now on.
    ///
    /// Where there is an execution before and after there are few steps: two and, for each node whose value differs, two
    /// and the arcs in force that reach it; and for each row two and, for each node whose cell gets another value or
    /// becomes known, two and the arcs in force that the row follows from it. Where there is none any more there are at most
    /// two, two for each node, and the arcs in force; where there was none there is no step.
    pub fn push_arc<L: Ledger>(&mut self, a: Arc, steps: &mut Steps<L>) -> Result<u32, AllocError>
        requires current { IsCurrent self.old }
        requires sound { IsSound (length self.old.graph.nodes) a }
        requires named { IsNamed self.old.graph.nodes a }
        requires few { length self.old.graph.arcs < most_arcs }
        ensures number { IfOk result (λ k. k ≡ length self.old.graph.arcs) }
        ensures graph { OnOk result (self.new.graph ≡ with_arc self.old.graph a) }
        ensures slots { OnOk result (KeepsSlots self.old self.new) }
        ensures steps { OnOk result (steps.new ≤ steps.old + pushing_steps self.old self.new) }
    {
        // They tell what holds of a graph that has grown, and what its rows are.
        growth();
        rows_of_a_grown_graph();
        let arc = self.graph.push_arc(a)?;
        // It tells what the lists of the graph hold.
        self.graph.exact();
        if self.earliest.solved() {
            self.bring_in(arc, steps)?;
        }
        Ok(arc)
    }

    // Brings in an arc of the graph, where all that is held is of the graph without it.
    fn bring_in<L: Ledger>(&mut self, arc: u32, steps: &mut Steps<L>) -> Result<(), AllocError>
        requires in_force { slice_index_or self.old.graph.in_force arc false ≡ true }
        requires before { IsPushed arc self.old }
        ensures graph { self.new.graph ≡ self.old.graph }
        ensures slots { OnOk result (KeepsSlots self.old self.new) }
        ensures steps { OnOk result (steps.new ≤ steps.old + pushing_steps self.old self.new) }
    {
        match self
            .earliest
            .insert(&self.graph, arc, &mut self.queue, steps)?
        {
            Inserted::Kept => {
                let search = Search::new(&self.graph, &self.earliest, Side::From);
                let pool = &mut self.pool;
                self.kept
                    .after_insert(&search, arc, pool, &mut self.queue, steps);
            }
            Inserted::Negative(cycle) => self.hold(cycle),
        }
        Ok(())
    }

    // Holds a contradiction, and gives the kept rows up.
    pub(crate) fn hold(&mut self, cycle: Vec<Arc>)
        ensures { self.new ≡ with_contradiction self.old cycle.items }
    {
        self.contradiction = cycle;
        self.kept.lose();
    }
}
