// The clearing of the cells whose paths had a removed arc: a list has their nodes in the order in which they were found.
ghost use Rattle.std.specs.Prelude.{◌≡◌, ◌≢◌, ℕ, ◌+◌, ◌<◌, ◌≤◌, Bool, true, false, List, length};
ghost use Rattle.problem_model.specs.Parents.{Cells};
ghost use Rattle.problem_model.specs.Sums.{sum_to};
ghost use Rattle.problem_model.specs.Limits.{most_nodes};
ghost use Rattle.withdrawals.specs.Withdrawals.{LeavesFrom};
ghost use Rattle.row_pool.specs.Row.{cell_at, cells_of};
ghost use Rattle.sync_graph.specs.declared.arc.Arc.{Arc as Removed};
ghost use Rattle.sync_graph.specs.Graph.{arc_at};
ghost use Rattle.earliest.specs.Withdrawn.{found_at};
ghost use Rattle.distances.specs.Changes.{AreBlank};
ghost use Rattle.distances.specs.Facing.{end_of};
ghost use Rattle.distances.specs.Searched.{nodes};
ghost use Rattle.repair.specs.RowWithdrawals.{IsRemoved};
ghost use Rattle.repair.specs.Clearings.{IsRowBefore, IsMarkingOf, IsChildBy, IsChildOf, IsClearedAt, IsClearedIf};
ghost use Rattle.repair.specs.Pulling.{onward};

use atto::Steps;
use distances::Search;
use row_pool::Cell;
use std::sync::ledger::Ledger;
use sync_graph::Arc;

// Whether two arcs are equal, names and all.
fn is_same(a: &Arc, b: &Arc) -> bool
    ensures same { result ≡ true → a.now ≡ b.now }
    ensures other { result ≡ false → a.now ≡ b.now → ⊥ }
{
    a == b
}

// Whether a cell is known, with a parent that equals an arc.
fn is_child_of(search: &Search, cell: &Cell, a: &Arc) -> bool
    ensures child { result ≡ true → (cell.now.known ≡ true) × (cell.now.parent < length search.now.graph.arcs) × (arc_at search.now.graph.arcs cell.now.parent ≡ a.now) }
    ensures other { result ≡ false → (cell.now.known ≡ true) × (cell.now.parent < length search.now.graph.arcs) × (arc_at search.now.graph.arcs cell.now.parent ≡ a.now) → ⊥ }
{
    if !cell.known || cell.parent >= search.arcs() {
        return false;
    }
    is_same(&search.arc(cell.parent), a)
}

// Clears the cell of a node and lists the node. How many are found.
fn clear_cell(row: &mut [Cell], found: &mut [u32], count: u32, node: u32) -> u32
    requires cell { node < length row.old }
    requires place { count < length found.old }
    requires few { count ≤ most_nodes }
    ensures cleared { IsClearedAt row.old row.new found.old found.new count node result }
{
    row[node as usize] = Cell::unknown();
    found[count as usize] = node;
    count + 1
}

// Clears the cell of the node to which a removed arc is followed, where the arc is its parent. How many are found.
fn clear_head(search: &Search, a: &Arc, row: &mut [Cell], found: &mut [u32], count: u32) -> u32
    requires place { IsChildOf search.now.graph row.old (end_of search.now.side a.now) a.now → count < length found.old }
    requires few { count ≤ most_nodes }
    ensures cleared { IsClearedIf (IsChildOf search.now.graph row.old (end_of search.now.side a.now) a.now) row.old row.new found.old found.new count (end_of search.now.side a.now) result }
{
    let head = search.head(a);
    if head as usize >= row.len() {
        return count;
    }
    if !is_child_of(search, &row[head as usize], a) {
        return count;
    }
    clear_cell(row, found, count, head)
}

/// Clears the cells of all nodes that have one of the removed arcs as parent. How many are found.
pub fn clear_heads(search: &Search, removed: &[Arc], row: &mut [Cell], found: &mut [u32]) -> u32
    requires cells { nodes search.now ≤ length row.old }
    requires found { nodes search.now ≤ length found.old }
    requires before { (was : ℕ → Bool) × (p : ℕ) × IsRowBefore search.now.graph search.now.side was removed.now p (cells_of row.old) }
    ensures marking { (was : ℕ → Bool) (p : ℕ) → IsRowBefore search.now.graph search.now.side was removed.now p (cells_of row.old)
        → (marks : ℕ → Bool) × IsMarkingOf search.now.graph search.now.side removed.now p (cells_of row.old) row.new marks found.new result 0
        × ((k : ℕ) → k ≢ p → (cell_at row.old k).known ≡ true → IsRemoved search.now.graph removed.now (cell_at row.old k).parent → marks k ≡ true) }
    ensures places { LeavesFrom result found.old found.new }
    ensures blank { AreBlank row.old → AreBlank row.new }
{
    // It tells that the values obey the arcs of the graph.
    search.exact();
    let mut count = 0;
    for i in 0..removed.len() {
        count = clear_head(search, &removed[i], row, found, count);
    }
    count
}

// Clears the cell of a node, where an arc is its parent. How many are found.
fn clear_child(row: &mut [Cell], found: &mut [u32], count: u32, head: u32, arc: u32) -> u32
    requires cell { head < length row.old }
    requires place { IsChildBy row.old head arc → count < length found.old }
    requires few { count ≤ most_nodes }
    ensures cleared { IsClearedIf (IsChildBy row.old head arc) row.old row.new found.old found.new count head result }
{
    if !row[head as usize].known {
        return count;
    }
    if row[head as usize].parent != arc {
        return count;
    }
    clear_cell(row, found, count, head)
}

/// Clears the cells of all children of a node. How many are found.
pub fn clear_children<L: Ledger>(
    search: &Search,
    node: u32,
    row: &mut [Cell],
    found: &mut [u32],
    first: u32,
    steps: &mut Steps<L>,
) -> u32
    requires node { node < nodes search.now }
    requires cells { nodes search.now ≤ length row.old }
    requires found { nodes search.now ≤ length found.old }
    requires first { (removed : List Removed) × (was : ℕ → Bool) × (p : ℕ) × (old : Cells) × (marked : ℕ → Bool) × (done : ℕ)
        × IsRowBefore search.now.graph search.now.side was removed p old × IsMarkingOf search.now.graph search.now.side removed p old row.old marked found.old first done × (done < first) × (found_at found.old done ≡ node) }
    ensures marking { (removed : List Removed) (was : ℕ → Bool) (p : ℕ) (old : Cells) (marked : ℕ → Bool) (done : ℕ)
        → IsRowBefore search.now.graph search.now.side was removed p old → IsMarkingOf search.now.graph search.now.side removed p old row.old marked found.old first done → done < first → found_at found.old done ≡ node
        → (marks : ℕ → Bool) × IsMarkingOf search.now.graph search.now.side removed p old row.new marks found.new result (done + 1) × ((k : ℕ) → marked k ≡ true → marks k ≡ true) }
    ensures before { (i : ℕ) → i < first → found_at found.new i ≡ found_at found.old i }
    ensures places { LeavesFrom result found.old found.new }
    ensures more { first ≤ result }
    ensures blank { AreBlank row.old → AreBlank row.new }
    ensures steps { steps.new ≤ steps.old + onward search.now.side search.now.graph node + 1 }
{
    // It tells that the values obey the arcs of the graph.
    search.exact();
    let mut count = first;
    let mut k = 0;
    while let Some(arc) = search.next_arc(node, k, steps) {
        let a = search.arc(arc);
        let head = search.head(&a);
        count = clear_child(row, found, count, head, arc);
        k += 1;
    }
    count
}

/// Clears the cells of all nodes whose paths pass a cleared one. How many are found.
pub fn clear_all<L: Ledger>(
    search: &Search,
    row: &mut [Cell],
    found: &mut [u32],
    first: u32,
    steps: &mut Steps<L>,
) -> u32
    requires cells { nodes search.now ≤ length row.old }
    requires found { nodes search.now ≤ length found.old }
    requires first { (removed : List Removed) × (was : ℕ → Bool) × (p : ℕ) × (old : Cells) × (marked : ℕ → Bool)
        × IsRowBefore search.now.graph search.now.side was removed p old × IsMarkingOf search.now.graph search.now.side removed p old row.old marked found.old first 0 }
    ensures marking { (removed : List Removed) (was : ℕ → Bool) (p : ℕ) (old : Cells) (marked : ℕ → Bool)
        → IsRowBefore search.now.graph search.now.side was removed p old → IsMarkingOf search.now.graph search.now.side removed p old row.old marked found.old first 0
        → (marks : ℕ → Bool) × IsMarkingOf search.now.graph search.now.side removed p old row.new marks found.new result result × ((k : ℕ) → marked k ≡ true → marks k ≡ true) }
    ensures places { LeavesFrom result found.old found.new }
    ensures more { first ≤ result }
    ensures blank { AreBlank row.old → AreBlank row.new }
    ensures steps { steps.new ≤ steps.old + sum_to result (λ i. onward search.now.side search.now.graph (found_at found.new i) + 1) }
{
    // It tells that the values obey the arcs of the graph.
    search.exact();
    let mut count = first;
    let mut done = 0;
    while done < count {
        let node = found[done as usize];
        count = clear_children(search, node, row, found, count, steps);
        done += 1;
    }
    count
}
