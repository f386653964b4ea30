// Rows that are repaired after an arc more.
ghost use Rattle.std.specs.Prelude.{◌≡◌, ◌+◌, ◌≤◌, true, length};
ghost use Rattle.problem_model.specs.Parents.{IsRow};
ghost use Rattle.problem_model.specs.Tables.{without};
ghost use Rattle.row_pool.specs.Row.{cells_of};
ghost use Rattle.distances.specs.Searched.{nodes, table, lists};
ghost use Rattle.distances.specs.Changes.{AreBlank, steps_of_changes};

use crate::relax::candidate_along;
use crate::search::Search;
use crate::settle::settle;
use atto::Steps;
use frontier::IdleQueue;
use row_pool::Cell;
use std::sync::ledger::Ledger;

/// Makes the row of node `p` of the graph without an arc in force that of the graph. An arc from a node without a
/// distance changes nothing. It takes no memory, and few steps: one, and for each node whose cell gets another distance
/// two and one for each arc in force that is followed from it.
pub fn repair_row<L: Ledger>(
    search: &Search,
    arc: u32,
    p: u32,
    row: &mut [Cell],
    queue: &mut IdleQueue,
    steps: &mut Steps<L>,
)
    requires in_force { (table search.now).in_force arc ≡ true }
    requires before { IsRow (nodes search.now) (without (table search.now) arc) p (cells_of row.old) }
    requires cells { nodes search.now ≤ length row.old }
    requires room { nodes search.now ≤ queue.old }
    ensures row { IsRow (nodes search.now) (table search.now) p (cells_of row.new) }
    ensures blank { AreBlank row.old → AreBlank row.new }
    ensures cost { steps.new ≤ steps.old + steps_of_changes (lists search.now) row.old row.new + 1 }
    ensures queue { queue.new ≡ queue.old }
{
    // It tells that the values obey the arcs of the graph.
    search.exact();
    let a = search.arc(arc);
    let tail = row[search.tail(&a) as usize];
    if tail.known {
        let candidate = candidate_along(search, arc, tail.value);
        settle(search, p, &candidate, row, queue, steps);
    }
}
