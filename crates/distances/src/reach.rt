// The greatest difference of two nodes, by a search that ends as soon as it knows.
ghost use Rattle.std.specs.Prelude.{◌≡◌, ℕ, ◌<◌, ◌≤◌, false, length};
ghost use Rattle.frontier.specs.Keys.{IsEmpty};
ghost use Rattle.row_pool.specs.Row.{cell_at, cells_of};
ghost use Rattle.row_pool.specs.Reach.{reach_of};
ghost use Rattle.distances.specs.Searched.{nodes, table};
ghost use Rattle.distances.specs.Reaches.{IsReachBy, IsReachOver};

use crate::relax::{Candidate, offer, relax_arcs};
use crate::row::clear;
use crate::search::Search;
use atto::Steps;
use frontier::{Frontier, IdleQueue};
use row_pool::{Cell, NO_PARENT, Reach};
use std::sync::ledger::Ledger;

/// The greatest `x_q - x_p` over all executions, in units of 1e-9 ns; by a search towards node `p` the greatest
/// `x_p - x_q`. The row is written as far as that takes, and says nothing afterwards. It takes no memory.
pub fn find_reach<L: Ledger>(
    search: &Search,
    p: u32,
    q: u32,
    row: &mut [Cell],
    queue: &mut IdleQueue,
    steps: &mut Steps<L>,
) -> Reach
    requires p { p < nodes search.now }
    requires q { q < nodes search.now }
    requires cells { nodes search.now ≤ length row.old }
    requires room { nodes search.now ≤ queue.old }
    ensures reach { IsReachBy search.now.side search.now.graph p q result }
    ensures queue { queue.new ≡ queue.old }
{
    // It tells that the values obey the arcs of the graph.
    search.exact();
    let front = &mut queue.front;
    clear(row);
    settle_until(search, p, q, row, front, steps);
    front.clear();
    row[q as usize].reach()
}

// Takes the waiting node of least reduced cost and relaxes its arcs, from `p` in a row without distances, until the node
// is `q` or none waits. The cell of `q` is then that of a whole row.
fn settle_until<L: Ledger>(
    search: &Search,
    p: u32,
    q: u32,
    row: &mut [Cell],
    front: &mut Frontier,
    steps: &mut Steps<L>,
)
    requires node { p < nodes search.now }
    requires none { (k : ℕ) → (cell_at row.old k).known ≡ false }
    requires cells { nodes search.now ≤ length row.old }
    requires empty { IsEmpty front.old }
    requires room { nodes search.now ≤ length front.old }
    ensures reach { IsReachOver (table search.now) p q (reach_of (cells_of row.new) q) }
    ensures room { length front.new ≡ length front.old }
{
    // It tells that the values obey the arcs of the graph.
    search.exact();
    let own = Candidate {
        node: p,
        distance: 0,
        parent: NO_PARENT,
    };
    offer(search, &own, row, front);
    while let Some((node, _)) = front.pop(steps) {
        if node == q {
            return;
        }
        relax_arcs(search, node, row, front, steps);
    }
}
