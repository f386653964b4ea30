// The relaxing of the arcs that are followed from one node.
ghost use Rattle.std.specs.Prelude.{◌≡◌, ◌+◌, ◌<◌, ◌≤◌, ℤ, ◌+ℤ◌, ◌≤ℤ◌, false, true, length, slice_set, Some};
ghost use Rattle.problem_model.specs.Numbers.{IsUpTo};
ghost use Rattle.problem_model.specs.RowPops.{IsRowStep};
ghost use Rattle.problem_model.specs.Limits.{path_bits};
ghost use Rattle.frontier.specs.Keys.{Waits};
ghost use Rattle.sync_graph.specs.Lists.{list_at};
ghost use Rattle.row_pool.specs.Row.{cell_at, cells_of};
ghost use Rattle.distances.specs.Searched.{nodes, table, lists, IsOpenRow};
ghost use Rattle.distances.specs.Relaxed.{waits_of, IsShorter, IsEnough, IsOffered, IsRelaxedBy};

use crate::search::Search;
use atto::Steps;
use frontier::Frontier;
use problem_model::numbers::longer;
use row_pool::Cell;
use std::sync::ledger::Ledger;

/// A node with a distance and a parent that it may have.
#[derive(Clone, Copy, Debug)]
pub struct Candidate {
    pub node: u32,
    /// In units of 1e-9 ns.
    pub distance: i128,
    pub parent: u32,
}

// Whether a distance is less than that of a cell, or the cell has none.
fn is_shorter(distance: i128, cell: &Cell) -> bool
    ensures shorter { result ≡ true → IsShorter distance cell.now }
    ensures enough { result ≡ false → IsEnough distance cell.now }
{
    if !cell.known {
        return true;
    }
    distance < cell.value
}

// Gives a node a distance and its parent, and lets it wait with a key, lower than the one that it may have.
fn put_cell(candidate: &Candidate, key: i128, row: &mut [Cell], front: &mut Frontier)
    requires cell { candidate.now.node < length row.old }
    requires room { candidate.now.node < length front.old }
    requires lower { (before : ℤ) → Waits front.old candidate.now.node before → key ≤ℤ before }
    ensures row { row.new ≡ slice_set row.old candidate.now.node (record { value = candidate.now.distance; parent = candidate.now.parent; known = true }) }
    ensures front { front.new ≡ slice_set front.old candidate.now.node (Some key) }
{
    let node = candidate.node;
    row[node as usize] = Cell {
        value: candidate.distance,
        parent: candidate.parent,
        known: true,
    };
    match front.key(node) {
        Some(_) => front.lower(node, key),
        None => front.put(node, key),
    }
}

/// Gives a node the distance and the parent that it may have, and lets it wait with its reduced cost, where that is
/// shorter.
pub fn offer(search: &Search, candidate: &Candidate, row: &mut [Cell], front: &mut Frontier)
    requires node { candidate.now.node < nodes search.now }
    requires distance { IsUpTo (path_bits + 4) candidate.now.distance }
    requires state { IsOpenRow search.now row.old front.old }
    ensures offered { IsOffered candidate.now.node candidate.now.distance candidate.now.parent row.old row.new front.old front.new }
    ensures state { IsOpenRow search.now row.new front.new }
    ensures room { length front.new ≡ length front.old }
{
    if is_shorter(candidate.distance, &row[candidate.node as usize]) {
        let key = search.key(candidate.node, candidate.distance);
        put_cell(candidate, key, row, front);
    }
}

/// What an arc in force gives the node to which it is followed, from a node at distance `base`.
pub fn candidate_along(search: &Search, arc: u32, base: i128) -> Candidate
    requires in_force { (table search.now).in_force arc ≡ true }
    requires base { IsUpTo (path_bits + 3) base }
    ensures node { result.node ≡ ((table search.now).arc arc).to }
    ensures distance { result.distance ≡ base +ℤ ((table search.now).arc arc).weight }
    ensures parent { result.parent ≡ arc }
{
    // It tells that the values obey the arcs of the graph.
    search.exact();
    let a = search.arc(arc);
    Candidate {
        node: search.head(&a),
        distance: longer(base, a.weight),
        parent: arc,
    }
}

/// Gives the end of an arc the distance along it from a node at distance `base`, and lets it wait, where that is
/// shorter.
pub fn relax_arc(search: &Search, arc: u32, base: i128, row: &mut [Cell], front: &mut Frontier)
    requires in_force { (table search.now).in_force arc ≡ true }
    requires base { IsUpTo (path_bits + 3) base }
    requires state { IsOpenRow search.now row.old front.old }
    ensures relaxed { IsRelaxedBy (table search.now) base arc row.old row.new front.old front.new }
    ensures state { IsOpenRow search.now row.new front.new }
    ensures room { length front.new ≡ length front.old }
{
    // It tells that the values obey the arcs of the graph.
    search.exact();
    let candidate = candidate_along(search, arc, base);
    offer(search, &candidate, row, front);
}

/// Relaxes each arc that is followed from a node that has just been taken: a step for each, and one that finds no more.
pub fn relax_arcs<L: Ledger>(
    search: &Search,
    node: u32,
    row: &mut [Cell],
    front: &mut Frontier,
    steps: &mut Steps<L>,
)
    requires node { node < nodes search.now }
    requires distance { IsUpTo (path_bits + 3) (cell_at row.old node).value }
    requires taken { waits_of front.old node ≡ false }
    requires state { IsOpenRow search.now row.old front.old }
    ensures step { IsRowStep (table search.now) node (cells_of row.old) (cells_of row.new) (waits_of front.old) (waits_of front.new) }
    ensures state { IsOpenRow search.now row.new front.new }
    ensures room { length front.new ≡ length front.old }
    ensures cost { steps.new ≤ steps.old + length (list_at (lists search.now) node) + 1 }
{
    // It tells that the values obey the arcs of the graph.
    search.exact();
    let base = row[node as usize].value;
    let mut k = 0;
    while let Some(arc) = search.next_arc(node, k, steps) {
        relax_arc(search, arc, base, row, front);
        k += 1;
    }
}
