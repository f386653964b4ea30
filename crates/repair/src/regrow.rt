// Cleared cells are pulled from the neighbours that are left, and those that are reached are settled.
ghost use Rattle.std.specs.Prelude.{◌≡◌, ℕ, ◌+◌, ◌<◌, ◌≤◌, ◌^◌, ◌⊎◌, ℤ, List, Option, false, true, length};
ghost use Rattle.problem_model.specs.Numbers.{IsUpTo};
ghost use Rattle.problem_model.specs.Parents.{IsRow};
ghost use Rattle.problem_model.specs.RowPops.{IsUnderWay};
ghost use Rattle.problem_model.specs.Sums.{sum_to};
ghost use Rattle.problem_model.specs.Limits.{path_bits};
ghost use Rattle.frontier.specs.Keys.{IsEmpty};
ghost use Rattle.row_pool.specs.Row.{cell_at, cells_of};
ghost use Rattle.withdrawals.specs.Regrowths.{IsRemnant};
ghost use Rattle.earliest.specs.Withdrawn.{found_at};
ghost use Rattle.distances.specs.Facing.{opposite};
ghost use Rattle.distances.specs.Searched.{nodes, table, lists, height, IsOpenRow};
ghost use Rattle.distances.specs.Relaxed.{waits_of};
ghost use Rattle.distances.specs.Changes.{AreBlank, steps_of_changes};
ghost use Rattle.repair.specs.Pulling.{onward, AreSmallAtRest, IsIdle, IsPulledBy, IsTryingIn, IsPullingIn};

use atto::Steps;
use distances::{Search, relax_arc, relax_arcs};
use frontier::{Frontier, IdleQueue};
use row_pool::Cell;
use std::sync::ledger::Ledger;

/// The nodes that were found: the first so many of a list.
#[derive(Drop)]
pub struct Found<'a> {
    pub list: &'a [u32],
    pub count: u32,
}

// Offers the head of an arc the distance along it, where the tail is known and does not wait.
fn pull_arc(search: &Search, arc: u32, row: &mut [Cell], front: &mut Frontier)
    requires in_force { (table search.now).in_force arc ≡ true }
    requires at_rest { AreSmallAtRest row.old front.old }
    requires state { IsOpenRow search.now row.old front.old }
    ensures pulled { IsIdle search.now.graph search.now.side arc row.old row.new front.old front.new ⊎ IsPulledBy search.now.graph search.now.side arc row.old row.new front.old front.new }
    ensures state { IsOpenRow search.now row.new front.new }
    ensures room { length front.new ≡ length front.old }
{
    // It tells that the values obey the arcs of the graph.
    search.exact();
    let a = search.arc(arc);
    let tail = search.tail(&a);
    let cell = row[tail as usize];
    if !cell.known {
        return;
    }
    if let Some(_) = front.key(tail) {
        return;
    }
    relax_arc(search, arc, cell.value, row, front);
}

// Pulls the cell of a node along all arcs to it.
fn pull<L: Ledger>(
    search: &Search,
    node: u32,
    row: &mut [Cell],
    front: &mut Frontier,
    steps: &mut Steps<L>,
)
    requires node { node < nodes search.now }
    requires at_rest { AreSmallAtRest row.old front.old }
    requires own { (cell_at row.old node).known ≡ true → waits_of front.old node ≡ true }
    requires state { IsOpenRow search.now row.old front.old }
    ensures tried { IsTryingIn search.now.graph search.now.side node (onward (opposite search.now.side) search.now.graph node) row.old row.new front.old front.new }
    ensures at_rest { AreSmallAtRest row.new front.new }
    ensures state { IsOpenRow search.now row.new front.new }
    ensures room { length front.new ≡ length front.old }
    ensures steps { steps.new ≤ steps.old + onward (opposite search.now.side) search.now.graph node + 1 }
{
    // It tells that the values obey the arcs of the graph.
    search.exact();
    let mut k = 0;
    while let Some(arc) = search.next_arc_to(node, k, steps) {
        pull_arc(search, arc, row, front);
        k += 1;
    }
}

// Pulls each of the cells found.
fn pull_all<L: Ledger>(
    search: &Search,
    found: &Found,
    row: &mut [Cell],
    front: &mut Frontier,
    steps: &mut Steps<L>,
)
    requires few { found.now.count ≤ length found.now.list.now }
    requires found { (i : ℕ) → i < found.now.count → (found_at found.now.list.now i < nodes search.now) × ((cell_at row.old (found_at found.now.list.now i)).known ≡ false) }
    requires at_rest { AreSmallAtRest row.old front.old }
    requires empty { IsEmpty front.old }
    requires state { IsOpenRow search.now row.old front.old }
    ensures pulled { IsPullingIn search.now.graph search.now.side found.now.list.now found.now.count row.old row.new front.new }
    ensures state { IsOpenRow search.now row.new front.new }
    ensures room { length front.new ≡ length front.old }
    ensures steps { steps.new ≤ steps.old + sum_to found.now.count (λ i. onward (opposite search.now.side) search.now.graph (found_at found.now.list.now i) + 1) }
{
    // It tells that the values obey the arcs of the graph.
    search.exact();
    for i in 0..found.count {
        let node = found.list[i as usize];
        pull(search, node, row, front, steps);
    }
}

/// Makes the row of `p` from what is left of it, where those found are all cells that an arc in force leads to from a cell
/// that is left, and perhaps more.
pub fn regrow<L: Ledger>(
    search: &Search,
    p: u32,
    found: &Found,
    row: &mut [Cell],
    queue: &mut IdleQueue,
    steps: &mut Steps<L>,
)
    requires few { found.now.count ≤ length found.now.list.now }
    requires found { (i : ℕ) → i < found.now.count → (found_at found.now.list.now i < nodes search.now) × ((cell_at row.old (found_at found.now.list.now i)).known ≡ false) }
    requires all { (j : ℕ) → (table search.now).in_force j ≡ true → (cell_at row.old ((table search.now).arc j).from).known ≡ true → (cell_at row.old ((table search.now).arc j).to).known ≡ false
        → (i : ℕ) × (i < found.now.count) × (found_at found.now.list.now i ≡ ((table search.now).arc j).to) }
    requires left { IsRemnant (table search.now) p (cells_of row.old) }
    requires distances { (k : ℕ) → (cell_at row.old k).known ≡ true → IsUpTo (path_bits + 1) (cell_at row.old k).value }
    requires past { (k : ℕ) → nodes search.now ≤ k → (cell_at row.old k).known ≡ false }
    requires cells { nodes search.now ≤ length row.old }
    requires room { nodes search.now ≤ queue.old }
    ensures row { IsRow (nodes search.now) (table search.now) p (cells_of row.new) }
    ensures settled { (front : List (Option ℤ)) × IsEmpty front × IsUnderWay (nodes search.now) (table search.now) p (height search.now) (2 ^ (path_bits + 2)) (2 ^ 93) (cells_of row.old) (cells_of row.new) (waits_of front) }
    ensures blank { AreBlank row.old → AreBlank row.new }
    ensures queue { queue.new ≡ queue.old }
    ensures steps { steps.new ≤ steps.old + sum_to found.now.count (λ i. onward (opposite search.now.side) search.now.graph (found_at found.now.list.now i) + 1) + steps_of_changes (lists search.now) row.old row.new + 1 }
{
    // It tells that the values obey the arcs of the graph.
    search.exact();
    let front = &mut queue.front;
    pull_all(search, found, row, front, steps);
    while let Some((node, _)) = front.pop(steps) {
        relax_arcs(search, node, row, front, steps);
    }
}
