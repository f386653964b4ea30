// The taking of nodes by least reduced cost.
ghost use Rattle.std.specs.Prelude.{◌≡◌, ◌+◌, ◌≤◌, length};
ghost use Rattle.problem_model.specs.Parents.{IsRow};
ghost use Rattle.row_pool.specs.Row.{cells_of};
ghost use Rattle.distances.specs.Searched.{nodes, table, lists, IsPartRow, IsStart};
ghost use Rattle.distances.specs.Changes.{AreBlank, steps_of_changes};

use crate::relax::{Candidate, offer, relax_arcs};
use crate::search::Search;
use atto::Steps;
use frontier::IdleQueue;
use row_pool::Cell;
use std::sync::ledger::Ledger;

/// Makes the row of `p` from one that lacks at most what the candidate brings. It lets the candidate's node wait where
/// the candidate is shorter, and then takes the waiting node of least reduced cost and relaxes its arcs, until none
/// waits.
pub fn settle<L: Ledger>(
    search: &Search,
    p: u32,
    candidate: &Candidate,
    row: &mut [Cell],
    queue: &mut IdleQueue,
    steps: &mut Steps<L>,
)
    requires start { IsStart search.now p row.old candidate.now.node candidate.now.distance candidate.now.parent }
    requires part { IsPartRow search.now row.old }
    requires cells { nodes search.now ≤ length row.old }
    requires room { nodes search.now ≤ queue.old }
    ensures row { IsRow (nodes search.now) (table search.now) p (cells_of row.new) }
    ensures blank { AreBlank row.old → AreBlank row.new }
    ensures cost { steps.new ≤ steps.old + steps_of_changes (lists search.now) row.old row.new + 1 }
    ensures queue { queue.new ≡ queue.old }
{
    // It tells that the values obey the arcs of the graph.
    search.exact();
    let front = &mut queue.front;
    offer(search, candidate, row, front);
    while let Some((node, _)) = front.pop(steps) {
        relax_arcs(search, node, row, front, steps);
    }
}
