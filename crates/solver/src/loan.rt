// Rows that are lent for a question.
ghost use Rattle.std.specs.Prelude.{◌≡◌, ◌+◌, ◌<◌, ◌≤◌, ℕ, [], false, length};
ghost use Rattle.problem_model.specs.Parents.{IsRow};
ghost use Rattle.problem_model.specs.Tables.{reversed_table};
ghost use Rattle.sync_graph.specs.Graph.{table_of};
ghost use Rattle.row_pool.specs.Row.{cells_of};
ghost use Rattle.row_pool.specs.Pool.{free_rows, marked};
ghost use Rattle.repair.specs.Keeping.{TakesRows};
ghost use Rattle.solver.specs.Changes.{StaysCurrent};
ghost use Rattle.solver.specs.Current.{IsCurrent};
ghost use Rattle.solver.specs.Lending.{IsLent, AreRowsFor, lent_slot};

use crate::search::search_of;
use crate::solver::Solver;
use atto::Steps;
use repair::new_slot;
use row_pool::{Cell, RowId};
use std::sync::ledger::Ledger;

/// Two rows of a solver's pool that are lent: that of the distances from a node and that towards it. It is given back to the
/// same solver.
#[derive(Drop)]
pub struct Lent {
    pub(crate) from: RowId,
    pub(crate) to: RowId,
}

impl Solver {
    /// Lends two free rows, filled with the distances from a node and towards it. It takes no memory.
    pub fn lend<L: Ledger>(&mut self, p: u32, steps: &mut Steps<L>) -> Lent
        requires current { IsCurrent self.old }
        requires solved { self.old.contradiction ≡ [] }
        requires node { p < length self.old.graph.nodes }
        requires free { 2 ≤ free_rows self.old.pool }
        ensures lent { IsLent result self.new }
        ensures rows { AreRowsFor p result self.new }
        ensures takes { TakesRows self.old.pool self.new.pool (lent_slot p result) }
        ensures free { free_rows self.new.pool + 2 ≡ free_rows self.old.pool }
        ensures leaves { StaysCurrent self.old self.new }
        ensures kept { self.new.kept ≡ self.old.kept }
    {
        let search = search_of(&self.graph, &self.earliest);
        let pool = &mut self.pool;
        let slot = new_slot(&search, p, pool, &mut self.queue, steps);
        Lent {
            from: slot.from,
            to: slot.to,
        }
    }

    /// The lent rows: that of the distances from the node that they were lent for, and that towards it.
    pub fn lent(&self, lent: &Lent) -> (&[Cell], &[Cell])
        requires current { IsCurrent self.now }
        requires lent { IsLent lent.now self.now }
        ensures from { (p : ℕ) → AreRowsFor p lent.now self.now → IsRow (length self.now.graph.nodes) (table_of self.now.graph) p (cells_of result.0.now) }
        ensures to { (p : ℕ) → AreRowsFor p lent.now self.now
            → IsRow (length self.now.graph.nodes) (reversed_table (table_of self.now.graph)) p (cells_of result.1.now) }
        ensures cells_from { length self.now.graph.nodes ≤ length result.0.now }
        ensures cells_to { length self.now.graph.nodes ≤ length result.1.now }
    {
        (self.pool.row(&lent.from), self.pool.row(&lent.to))
    }

    /// Takes lent rows back, which are free from then on.
    pub fn give_back(&mut self, lent: Lent)
        requires current { IsCurrent self.old }
        requires lent { IsLent lent self.old }
        ensures pool { self.new.pool ≡ marked (marked self.old.pool lent.from false) lent.to false }
        ensures free { free_rows self.new.pool ≡ free_rows self.old.pool + 2 }
        ensures leaves { StaysCurrent self.old self.new }
        ensures kept { self.new.kept ≡ self.old.kept }
    {
        self.pool.give(lent.from);
        self.pool.give(lent.to);
    }
}
