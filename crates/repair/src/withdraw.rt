// Rows that are repaired once arcs are withdrawn.
ghost use Rattle.std.specs.Prelude.{◌≡◌, ℕ, ◌+◌, ◌*◌, ◌≤◌, Bool, false, true, length};
ghost use Rattle.problem_model.specs.Parents.{IsRow};
ghost use Rattle.withdrawals.specs.Withdrawals.{flagged_sum, flagged_count, LeavesFrom};
ghost use Rattle.sync_graph.specs.Graph.{GraphLists, reaching, departing};
ghost use Rattle.withdrawals.specs.Regrowths.{IsAffectedIn};
ghost use Rattle.row_pool.specs.Row.{cell_at, cells_of};
ghost use Rattle.earliest.specs.Values.{IsEarliestOf};
ghost use Rattle.distances.specs.declared.side.Side.TheVariants.{From};
ghost use Rattle.distances.specs.Facing.{opposite, facing};
ghost use Rattle.distances.specs.Searched.{nodes, table};
ghost use Rattle.distances.specs.Changes.{AreBlank};
ghost use Rattle.repair.specs.RowWithdrawals.{AreWithdrawn, IsRemoved};

use crate::affected::{clear_all, clear_heads};
use crate::regrow::{Found, regrow};
use atto::Steps;
use distances::{Search, Side};
use earliest::Earliest;
use frontier::IdleQueue;
use row_pool::Cell;
use std::sync::ledger::Ledger;
use sync_graph::{Arc, Graph};

/// A search of a graph from which arcs were withdrawn, and these arcs, or more.
#[derive(Drop)]
pub struct Withdrawal<'a> {
    pub search: Search<'a>,
    pub removed: &'a [Arc],
}

impl<'a> Withdrawal<'a> {
    /// A search from nodes of a graph whose earliest execution is known, and these arcs.
    pub fn new(graph: &'a Graph, earliest: &'a Earliest, removed: &'a [Arc]) -> Withdrawal<'a>
        requires solved { earliest.now.is_solved ≡ true }
        requires earliest { IsEarliestOf graph.now earliest.now.values }
        ensures search { result.search ≡ record { graph = graph.now; values = earliest.now.values; side = From } }
        ensures removed { result.removed.now ≡ removed.now }
    {
        let search = Search::new(graph, earliest, Side::From);
        Withdrawal { search, removed }
    }

    /// The same for rows the other way round.
    pub fn turned(&self) -> Withdrawal<'a>
        ensures search { result.search ≡ record { graph = self.now.search.graph; values = self.now.search.values; side = opposite self.now.search.side } }
        ensures removed { result.removed.now ≡ self.now.removed.now }
    {
        Withdrawal {
            search: self.search.turned(),
            removed: self.removed,
        }
    }
}

/// Makes the row of node `p` of a graph that of the graph once arcs were withdrawn. `found` is a list to work in, with a
/// place for each node. It takes no memory.
///
/// A node is affected where its path by parents had an arc that equals one of those removed. There are at most two steps
/// and, for each affected node, five and two for each arc in force that reaches or leaves it. No cell but those of
/// affected nodes is changed, and no more places of `found` than there are of these.
pub fn withdraw_row<L: Ledger>(
    withdrawal: &Withdrawal,
    p: u32,
    row: &mut [Cell],
    found: &mut [u32],
    queue: &mut IdleQueue,
    steps: &mut Steps<L>,
)
    requires before { (before : GraphLists) × AreWithdrawn before withdrawal.now.removed.now withdrawal.now.search.graph × IsRow (length before.nodes) (facing withdrawal.now.search.side before) p (cells_of row.old) }
    requires blank { AreBlank row.old }
    requires cells { nodes withdrawal.now.search ≤ length row.old }
    requires found { nodes withdrawal.now.search ≤ length found.old }
    requires room { nodes withdrawal.now.search ≤ queue.old }
    ensures row { IsRow (nodes withdrawal.now.search) (table withdrawal.now.search) p (cells_of row.new) }
    ensures blank { AreBlank row.new }
    ensures queue { queue.new ≡ queue.old }
    ensures steps { (affected : ℕ → Bool) → ((k : ℕ) → IsAffectedIn (table withdrawal.now.search) (IsRemoved withdrawal.now.search.graph withdrawal.now.removed.now) p (cells_of row.old) k → affected k ≡ true)
        → steps.new ≤ steps.old + flagged_sum (nodes withdrawal.now.search) (λ k. 2 * (reaching withdrawal.now.search.graph k + departing withdrawal.now.search.graph k) + 5) affected + 2 }
    ensures places { (affected : ℕ → Bool) → ((k : ℕ) → IsAffectedIn (table withdrawal.now.search) (IsRemoved withdrawal.now.search.graph withdrawal.now.removed.now) p (cells_of row.old) k → affected k ≡ true)
        → LeavesFrom (flagged_count (nodes withdrawal.now.search) affected) found.old found.new }
    ensures others { (affected : ℕ → Bool) → ((k : ℕ) → IsAffectedIn (table withdrawal.now.search) (IsRemoved withdrawal.now.search.graph withdrawal.now.removed.now) p (cells_of row.old) k → affected k ≡ true)
        → (k : ℕ) → affected k ≡ false → cell_at row.new k ≡ cell_at row.old k }
{
    let search = &withdrawal.search;
    // It tells that the values obey the arcs of the graph.
    search.exact();
    let first = clear_heads(search, withdrawal.removed, row, found);
    let count = clear_all(search, row, found, first, steps);
    let found = Found { list: found, count };
    regrow(search, p, &found, row, queue, steps);
}
