// The greatest difference of two near nodes: a search from its end, which is left after so many nodes, makes a fence, and
// one from its beginning knows how far it is from inside the fence.
//
// A node inside counts its distance, the other way round, and one outside its mean less what is beyond: that obeys all
// arcs, so it orders nodes as an execution does, and the search takes few nodes that lead away from the end.
ghost use Rattle.std.specs.Prelude.{◌≡◌, ℕ, ◌<◌, ◌≤◌, ◌+◌, ◌^◌, [], true, All, Contains, length, vec_len, vec_capacity, IfSome};
ghost use Rattle.problem_model.specs.Numbers.{IsUpTo};
ghost use Rattle.frontier.specs.Keys.{IsEmpty};
ghost use Rattle.sync_graph.specs.Graph.{table_of};
ghost use Rattle.earliest.specs.Values.{IsEarliestOf};
ghost use Rattle.row_pool.specs.Row.{cell_at};
ghost use Rattle.distances.specs.Searched.{nodes, table, height};
ghost use Rattle.distances.specs.Relaxed.{waits_of};
ghost use Rattle.distances.specs.Reaches.{IsReachIn, IsReachOver};
ghost use Rattle.distances.specs.Wiping.{IsWiped, AreListed, rests};
ghost use Rattle.distances.specs.Ends.{IsEnd, told_reach, AreKnown, AreRowsAround, IsFenceAround};

use crate::guide::cell_of;
use crate::relax::{Candidate, offer, relax_arcs};
use crate::scratch::{Scratch, wipe_seen, wipe_waiting};
use crate::search::Search;
use crate::side::Side;
use atto::Steps;
use earliest::Earliest;
use frontier::{Frontier, IdleQueue};
use row_pool::{Cell, NO_PARENT, Reach};
use std::sync::ledger::Ledger;
use sync_graph::Graph;

/// How many nodes a graph has at most in which near ones are searched for: so what guides a search stays below 2^118.
pub const MOST_AROUND: u32 = 1 << 23;

/// How a search ended that is left after so many nodes.
#[derive(Clone, Copy, Debug)]
pub enum End {
    /// It knows the greatest difference.
    Known(Reach),
    /// It was left, and all other nodes have at least this reduced cost, in units of 1e-9 ns.
    Beyond(i128),
}

// Whether one more node may be listed, of at most so many.
fn has_room(seen: &Vec<u32>, most: usize) -> bool
    ensures { result ≡ true → vec_len seen.now < vec_capacity seen.now }
{
    seen.len() < most && seen.len() < seen.capacity()
}

// Takes the waiting node of least reduced cost, lists it and relaxes its arcs, from `p` in a wiped row, until the node is
// `q`, none waits, or so many are listed. The node at which it stops is wiped.
fn take_some<L: Ledger>(
    search: &Search,
    p: u32,
    q: u32,
    most: usize,
    row: &mut [Cell],
    front: &mut Frontier,
    seen: &mut Vec<u32>,
    steps: &mut Steps<L>,
) -> End
    requires p { p < nodes search.now }
    requires q { q < nodes search.now }
    requires wiped { IsWiped row.old }
    requires unlisted { seen.old.items ≡ [] }
    requires cells { nodes search.now ≤ length row.old }
    requires empty { IsEmpty front.old }
    requires room { nodes search.now ≤ length front.old }
    ensures end { IsEnd (table search.now) p q (height search.now) (rests row.new front.new) (λ k. (cell_at row.new k).value) result }
    ensures listed { AreListed (nodes search.now) row.new front.new seen.new.items }
    ensures waiting { (k : ℕ) → waits_of front.new k ≡ true → k < nodes search.now }
    ensures cells { length row.new ≡ length row.old }
    ensures room { length front.new ≡ length front.old }
{
    // It tells that the values obey the arcs of the graph.
    search.exact();
    let own = Candidate {
        node: p,
        distance: 0,
        parent: NO_PARENT,
    };
    offer(search, &own, row, front);
    while let Some((node, key)) = front.pop(steps) {
        if node == q {
            let reach = row[q as usize].reach();
            row[node as usize] = Cell::unknown();
            return End::Known(reach);
        }
        if !has_room(seen, most) {
            row[node as usize] = Cell::unknown();
            return End::Beyond(key);
        }
        seen.push_reserved(node);
        relax_arcs(search, node, row, front, steps);
    }
    End::Known(row[q as usize].reach())
}

// The same, and all nodes that wait in the end are wiped.
fn search_some<L: Ledger>(
    search: &Search,
    p: u32,
    q: u32,
    most: usize,
    row: &mut [Cell],
    front: &mut Frontier,
    seen: &mut Vec<u32>,
    steps: &mut Steps<L>,
) -> End
    requires p { p < nodes search.now }
    requires q { q < nodes search.now }
    requires wiped { IsWiped row.old }
    requires unlisted { seen.old.items ≡ [] }
    requires cells { nodes search.now ≤ length row.old }
    requires empty { IsEmpty front.old }
    requires room { nodes search.now ≤ length front.old }
    ensures end { IsEnd (table search.now) p q (height search.now) (λ k. (cell_at row.new k).known) (λ k. (cell_at row.new k).value) result }
    ensures listed { (k : ℕ) → (cell_at row.new k).known ≡ true → Contains seen.new.items k }
    ensures within { All (λ k. k < length row.new) seen.new.items }
    ensures cells { length row.new ≡ length row.old }
    ensures empty { IsEmpty front.new }
    ensures room { length front.new ≡ length front.old }
{
    let end = take_some(search, p, q, most, row, front, seen, steps);
    wipe_waiting(row, front, steps);
    end
}

/// A graph with its earliest execution, and the row from one of its nodes and the row towards it.
#[derive(Drop)]
pub struct Surroundings<'a> {
    pub graph: &'a Graph,
    pub earliest: &'a Earliest,
    pub from: &'a [Cell],
    pub to: &'a [Cell],
}

// Distances towards a node, and what each other node counts beyond, in units of 1e-9 ns.
#[derive(Drop)]
struct Fence<'a> {
    cells: &'a [Cell],
    beyond: i128,
}

// Whether both rows know a node.
fn is_surrounded(around: &Surroundings, node: u32) -> bool
    ensures { result ≡ true → AreKnown around.now.from.now around.now.to.now node }
{
    cell_of(around.from, node).known && cell_of(around.to, node).known
}

// Whether a number of units of 1e-9 ns is at most 2^116 in absolute value, as the difference of two nodes is in a graph of
// at most `MOST_AROUND`.
fn is_small(number: i128) -> bool
    ensures { result ≡ true → IsUpTo 116 number }
{
    -(1 << 116) <= number && number <= 1 << 116
}

// The greatest difference that a search told, if it knows it.
fn told_by(end: End) -> Option<Reach>
    ensures { result ≡ told_reach end }
{
    match end {
        End::Known(reach) => Some(reach),
        End::Beyond(_) => None,
    }
}

// The greatest `x_q - x_p` by a search from `p` that knows a fence about `q`, if so many nodes tell it.
fn search_ahead<L: Ledger>(
    around: &Surroundings,
    fence: &Fence,
    p: u32,
    q: u32,
    most: usize,
    row: &mut [Cell],
    seen: &mut Vec<u32>,
    queue: &mut IdleQueue,
    steps: &mut Steps<L>,
) -> Option<Reach>
    requires solved { around.now.earliest.now.is_solved ≡ true }
    requires earliest { IsEarliestOf around.now.graph.now around.now.earliest.now.values }
    requires rows { AreRowsAround around.now.graph.now around.now.from.now around.now.to.now }
    requires surrounded { AreKnown around.now.from.now around.now.to.now q }
    requires few { length around.now.graph.now.nodes ≤ 2 ^ 23 }
    requires p { p < length around.now.graph.now.nodes }
    requires q { q < length around.now.graph.now.nodes }
    requires fence { IsFenceAround around.now.graph.now around.now.from.now around.now.to.now around.now.earliest.now.values q fence.now.cells.now fence.now.beyond }
    requires wiped { IsWiped row.old }
    requires unlisted { seen.old.items ≡ [] }
    requires cells { length around.now.graph.now.nodes ≤ length row.old }
    requires room { length around.now.graph.now.nodes ≤ queue.old }
    ensures reach { IfSome result (λ reach. IsReachOver (table_of around.now.graph.now) p q reach) }
    ensures wiped { IsWiped row.new }
    ensures unlisted { seen.new.items ≡ [] }
    ensures cells { length row.new ≡ length row.old }
    ensures queue { queue.new ≡ queue.old }
{
    // It tells what the lists of the graph hold.
    around.graph.exact();
    if !is_small(fence.beyond) {
        return None;
    }
    let search = Search::guided(
        around.graph,
        around.earliest,
        Side::From,
        around.from,
        around.to,
        fence.cells,
        fence.beyond,
    );
    let front = &mut queue.front;
    let twice = most.saturating_mul(2);
    let end = search_some(&search, p, q, twice, row, front, seen, steps);
    wipe_seen(row, seen);
    told_by(end)
}

// The same in a row of its own.
fn find_ahead<L: Ledger>(
    around: &Surroundings,
    fence: &Fence,
    p: u32,
    q: u32,
    most: usize,
    ahead: &mut Scratch,
    queue: &mut IdleQueue,
    steps: &mut Steps<L>,
) -> Option<Reach>
    requires solved { around.now.earliest.now.is_solved ≡ true }
    requires earliest { IsEarliestOf around.now.graph.now around.now.earliest.now.values }
    requires rows { AreRowsAround around.now.graph.now around.now.from.now around.now.to.now }
    requires surrounded { AreKnown around.now.from.now around.now.to.now q }
    requires few { length around.now.graph.now.nodes ≤ 2 ^ 23 }
    requires p { p < length around.now.graph.now.nodes }
    requires q { q < length around.now.graph.now.nodes }
    requires fence { IsFenceAround around.now.graph.now around.now.from.now around.now.to.now around.now.earliest.now.values q fence.now.cells.now fence.now.beyond }
    requires cells { length around.now.graph.now.nodes ≤ ahead.old }
    requires room { length around.now.graph.now.nodes ≤ queue.old }
    ensures reach { IfSome result (λ reach. IsReachOver (table_of around.now.graph.now) p q reach) }
    ensures ahead { ahead.new ≡ ahead.old }
    ensures queue { queue.new ≡ queue.old }
{
    let seen = &mut ahead.seen;
    search_ahead(
        around,
        fence,
        p,
        q,
        most,
        &mut ahead.cells,
        seen,
        queue,
        steps,
    )
}

// The same by a search towards `q`, and where it does not tell it, by one from `p` with the fence that the first one made.
fn find_fenced<L: Ledger>(
    around: &Surroundings,
    p: u32,
    q: u32,
    most: usize,
    row: &mut [Cell],
    seen: &mut Vec<u32>,
    ahead: &mut Scratch,
    queue: &mut IdleQueue,
    steps: &mut Steps<L>,
) -> Option<Reach>
    requires solved { around.now.earliest.now.is_solved ≡ true }
    requires earliest { IsEarliestOf around.now.graph.now around.now.earliest.now.values }
    requires rows { AreRowsAround around.now.graph.now around.now.from.now around.now.to.now }
    requires surrounded { AreKnown around.now.from.now around.now.to.now q }
    requires few { length around.now.graph.now.nodes ≤ 2 ^ 23 }
    requires p { p < length around.now.graph.now.nodes }
    requires q { q < length around.now.graph.now.nodes }
    requires wiped { IsWiped row.old }
    requires unlisted { seen.old.items ≡ [] }
    requires cells { length around.now.graph.now.nodes ≤ length row.old }
    requires cells_ahead { length around.now.graph.now.nodes ≤ ahead.old }
    requires room { length around.now.graph.now.nodes ≤ queue.old }
    ensures reach { IfSome result (λ reach. IsReachOver (table_of around.now.graph.now) p q reach) }
    ensures listed { (k : ℕ) → (cell_at row.new k).known ≡ true → Contains seen.new.items k }
    ensures within { All (λ k. k < length row.new) seen.new.items }
    ensures cells { length row.new ≡ length row.old }
    ensures ahead { ahead.new ≡ ahead.old }
    ensures queue { queue.new ≡ queue.old }
{
    // It tells what the lists of the graph hold.
    around.graph.exact();
    let back = Search::guided(
        around.graph,
        around.earliest,
        Side::Towards,
        around.from,
        around.to,
        &[],
        0,
    );
    let front = &mut queue.front;
    match search_some(&back, q, p, most, row, front, seen, steps) {
        End::Known(reach) => Some(reach),
        End::Beyond(beyond) => {
            let fence = Fence { cells: row, beyond };
            find_ahead(around, &fence, p, q, most, ahead, queue, steps)
        }
    }
}

// The greatest `x_q - x_p` over all executions, if searches of so many nodes tell it.
fn find_within<L: Ledger>(
    around: &Surroundings,
    p: u32,
    q: u32,
    most: usize,
    behind: &mut Scratch,
    ahead: &mut Scratch,
    queue: &mut IdleQueue,
    steps: &mut Steps<L>,
) -> Option<Reach>
    requires solved { around.now.earliest.now.is_solved ≡ true }
    requires earliest { IsEarliestOf around.now.graph.now around.now.earliest.now.values }
    requires rows { AreRowsAround around.now.graph.now around.now.from.now around.now.to.now }
    requires p { p < length around.now.graph.now.nodes }
    requires q { q < length around.now.graph.now.nodes }
    requires room { length around.now.graph.now.nodes ≤ queue.old }
    ensures reach { IfSome result (λ reach. IsReachIn around.now.graph.now p q reach) }
    ensures behind { behind.new ≡ behind.old }
    ensures ahead { ahead.new ≡ ahead.old }
    ensures queue { queue.new ≡ queue.old }
{
    // It tells what the lists of the graph hold.
    around.graph.exact();
    let nodes = around.graph.nodes();
    if nodes > MOST_AROUND || nodes as usize > behind.cells() || nodes as usize > ahead.cells() {
        return None;
    }
    if !is_surrounded(around, q) {
        return None;
    }
    let found = find_fenced(
        around,
        p,
        q,
        most,
        &mut behind.cells,
        &mut behind.seen,
        ahead,
        queue,
        steps,
    );
    wipe_seen(&mut behind.cells, &mut behind.seen);
    found
}

// How many nodes a search takes before it is left, one time after the other, of at most a quarter of all; the search that
// knows the fence takes twice as many.
const LIMITS: [usize; 5] = [1024, 4096, 16_384, 65_536, 262_144];

/// The greatest `x_q - x_p` over all executions, in units of 1e-9 ns, if searches of few nodes tell it, in a graph of at
/// most 2^23. It takes no memory.
pub fn find_near<L: Ledger>(
    around: &Surroundings,
    p: u32,
    q: u32,
    behind: &mut Scratch,
    ahead: &mut Scratch,
    queue: &mut IdleQueue,
    steps: &mut Steps<L>,
) -> Option<Reach>
    requires solved { around.now.earliest.now.is_solved ≡ true }
    requires earliest { IsEarliestOf around.now.graph.now around.now.earliest.now.values }
    requires rows { AreRowsAround around.now.graph.now around.now.from.now around.now.to.now }
    requires p { p < length around.now.graph.now.nodes }
    requires q { q < length around.now.graph.now.nodes }
    requires room { length around.now.graph.now.nodes ≤ queue.old }
    ensures reach { IfSome result (λ reach. IsReachIn around.now.graph.now p q reach) }
    ensures behind { behind.new ≡ behind.old }
    ensures ahead { ahead.new ≡ ahead.old }
    ensures queue { queue.new ≡ queue.old }
{
    let quarter = around.graph.nodes() as usize / 4;
    for most in LIMITS {
        if most > quarter && most > LIMITS[0] {
            return None;
        }
        let found = find_within(around, p, q, most, behind, ahead, queue, steps);
        if found.is_some() {
            return found;
        }
    }
    None
}
