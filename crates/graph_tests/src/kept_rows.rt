// Rows that are kept while an arc more is brought in: what is looked up in them is what rows made anew tell.
ghost use Rattle.std.specs.Prelude.{◌≡◌, ◌<◌, ◌≤◌, true, None, length};
ghost use Rattle.earliest.specs.Values.{IsEarliestOf};
ghost use Rattle.repair.specs.Slots.{nothing_kept, AreOwnRows, AreRowsOf};

use crate::fixtures::{Link, bring_in, execute, fill, two_clocks};
use atto::Steps;
use distances::{Search, Side, make_row};
use earliest::Earliest;
use frontier::IdleQueue;
use repair::{Kept, rows_of_a_grown_graph};
use row_pool::{Cell, Pair, Reach, RowPool};
use std::alloc::Global;
use std::marker::Brand;
use std::sync::ledger::{Blank, Ledger};
use std::test::*;
use sync_graph::Graph;

// The node that is kept as that of the source; the nodes 0 and 2 are kept as those of events.
const SOURCE: u32 = 1;

// Arcs among four nodes, and one that comes then.
const CASES: [([Link; 4], Link); 8] = [
    // A way that is shorter to one node, and to the one behind it.
    ([(0, 1, 5), (0, 2, 2), (2, 1, 9), (1, 3, 1)], (2, 1, -1)),
    // A second way that is as short.
    ([(0, 1, 5), (0, 2, 2), (2, 1, 9), (1, 3, 1)], (2, 1, 3)),
    // A circle of sum 0 behind the new arc.
    ([(0, 1, 4), (1, 2, 3), (2, 1, -3), (0, 2, 8)], (0, 2, 6)),
    // An arc that closes a circle of sum 0.
    ([(0, 1, 3), (1, 2, 4), (0, 3, 0), (3, 0, 0)], (2, 0, -7)),
    // Arcs from a node to itself.
    ([(0, 0, 0), (1, 1, 2), (0, 1, 1), (1, 2, 0)], (1, 1, 0)),
    // Equal arcs.
    ([(0, 1, 5), (0, 1, 5), (1, 2, 0), (1, 2, 0)], (0, 1, 5)),
    // The arc begins out of reach.
    ([(0, 1, 1), (1, 0, -1), (2, 3, 4), (3, 2, 4)], (3, 1, 0)),
    // The arc leads to nodes that were out of reach.
    ([(0, 1, 1), (1, 0, -1), (2, 3, 4), (3, 2, 4)], (1, 2, -7)),
];

// An arc that comes, and what is told of the nodes from 0 on by the slot of node 0 before and after.
#[derive(Clone, Copy)]
struct Growth<'a> {
    arc: Link,
    before: &'a [Pair],
    after: &'a [Pair],
}

// Kept nodes, and the pool that has their rows.
#[derive(Drop)]
struct Rows {
    kept: Kept,
    pool: RowPool,
}

// Keeps a node, or that of the source, and tells whether it has its rows.
fn keep<L: Ledger>(
    rows: &mut Rows,
    g: &Graph,
    e: &Earliest,
    node: u32,
    queue: &mut IdleQueue,
    steps: &mut Steps<L>,
) -> bool
    requires own { AreOwnRows rows.old.kept rows.old.pool }
    requires rows { AreRowsOf g.now rows.old.kept rows.old.pool }
    requires solved { e.now.is_solved ≡ true }
    requires earliest { IsEarliestOf g.now e.now.values }
    requires room { length g.now.nodes ≤ queue.old }
    ensures own { AreOwnRows rows.new.kept rows.new.pool }
    ensures rows { AreRowsOf g.now rows.new.kept rows.new.pool }
    ensures room { queue.new ≡ queue.old }
{
    if !rows.kept.present()
        || node >= g.nodes()
        || rows.pool.free() < 2
        || rows.pool.width() < g.nodes()
    {
        return false;
    }
    let search = Some(Search::new(g, e, Side::From));
    rows.kept
        .keep(&search, node, &mut rows.pool, queue, steps)
        .is_ok()
}

// The same for the node of the source.
fn keep_source<L: Ledger>(
    rows: &mut Rows,
    g: &Graph,
    e: &Earliest,
    queue: &mut IdleQueue,
    steps: &mut Steps<L>,
) -> bool
    requires none { rows.old.kept.source ≡ None }
    requires own { AreOwnRows rows.old.kept rows.old.pool }
    requires rows { AreRowsOf g.now rows.old.kept rows.old.pool }
    requires solved { e.now.is_solved ≡ true }
    requires earliest { IsEarliestOf g.now e.now.values }
    requires room { length g.now.nodes ≤ queue.old }
    ensures own { AreOwnRows rows.new.kept rows.new.pool }
    ensures rows { AreRowsOf g.now rows.new.kept rows.new.pool }
    ensures room { queue.new ≡ queue.old }
{
    if !rows.kept.present()
        || SOURCE >= g.nodes()
        || rows.pool.free() < 2
        || rows.pool.width() < g.nodes()
    {
        return false;
    }
    let search = Some(Search::new(g, e, Side::From));
    rows.kept
        .keep_source(&search, SOURCE, &mut rows.pool, queue, steps);
    true
}

// Keeps three nodes, and tells whether all have their rows.
fn keep_three<L: Ledger>(
    rows: &mut Rows,
    g: &Graph,
    e: &Earliest,
    queue: &mut IdleQueue,
    steps: &mut Steps<L>,
) -> bool
    requires kept { rows.old.kept ≡ nothing_kept }
    requires solved { e.now.is_solved ≡ true }
    requires earliest { IsEarliestOf g.now e.now.values }
    requires room { length g.now.nodes ≤ queue.old }
    ensures own { AreOwnRows rows.new.kept rows.new.pool }
    ensures rows { AreRowsOf g.now rows.new.kept rows.new.pool }
    ensures room { queue.new ≡ queue.old }
{
    keep_source(rows, g, e, queue, steps)
        && keep(rows, g, e, 0, queue, steps)
        && keep(rows, g, e, 2, queue, steps)
}

// Brings an arc in, and repairs the rows.
fn take<L: Ledger>(
    rows: &mut Rows,
    g: &mut Graph,
    e: &mut Earliest,
    link: &Link,
    queue: &mut IdleQueue,
    steps: &mut Steps<L>,
) -> bool
    requires own { AreOwnRows rows.old.kept rows.old.pool }
    requires rows { AreRowsOf g.old rows.old.kept rows.old.pool }
    requires solved { e.old.is_solved ≡ true }
    requires earliest { IsEarliestOf g.old e.old.values }
    requires room { length g.old.nodes ≤ queue.old }
    ensures own { AreOwnRows rows.new.kept rows.new.pool }
    ensures nodes { result ≡ true → length g.new.nodes ≡ length g.old.nodes }
    ensures solved { result ≡ true → e.new.is_solved ≡ true }
    ensures earliest { result ≡ true → IsEarliestOf g.new e.new.values }
    ensures room { queue.new ≡ queue.old }
{
    rows_of_a_grown_graph();
    g.exact();
    if rows.pool.width() < g.nodes() {
        return false;
    }
    let Some(arc) = bring_in(g, e, link, queue, steps) else {
        return false;
    };
    let search = Search::new(g, e, Side::From);
    rows.kept
        .after_insert(&search, arc, &mut rows.pool, queue, steps);
    true
}

// Whether the slot of a node tells this of another one.
fn tells(rows: &Rows, node: u32, other: u32, want: &Pair) -> bool
    requires own { AreOwnRows rows.now.kept rows.now.pool }
{
    if !rows.kept.present() || other >= rows.pool.width() {
        return false;
    }
    let told = if node == SOURCE {
        rows.kept.look_source(&rows.pool, other)
    } else {
        rows.kept.look(&rows.pool, node, other)
    };
    told == Some(*want)
}

// Whether the slot of node 0 tells this of the nodes from 0 on.
fn tells_all(rows: &Rows, want: &[Pair]) -> bool
    requires own { AreOwnRows rows.now.kept rows.now.pool }
{
    for (other, pair) in want.iter().enumerate() {
        if other >= 6 || !tells(rows, 0, other as u32, pair) {
            return false;
        }
    }
    true
}

// Whether the slot of a node tells of each node what these rows tell.
fn tells_rows(rows: &Rows, node: u32, from: &[Cell; 6], to: &[Cell; 6]) -> bool
    requires own { AreOwnRows rows.now.kept rows.now.pool }
{
    for other in 0..6 {
        let want = Pair {
            up: from[other].reach(),
            down: to[other].reach(),
        };
        if !tells(rows, node, other as u32, &want) {
            return false;
        }
    }
    true
}

// Whether the slot of a node tells what rows made anew tell.
fn is_as_new<L: Ledger>(
    rows: &Rows,
    g: &Graph,
    e: &Earliest,
    node: u32,
    queue: &mut IdleQueue,
    steps: &mut Steps<L>,
) -> bool
    requires own { AreOwnRows rows.now.kept rows.now.pool }
    requires solved { e.now.is_solved ≡ true }
    requires earliest { IsEarliestOf g.now e.now.values }
    requires room { length g.now.nodes ≤ queue.old }
    ensures room { queue.new ≡ queue.old }
{
    if node >= g.nodes() || g.nodes() > 6 {
        return false;
    }
    let search = Search::new(g, e, Side::From);
    let mut from = [Cell::unknown(); 6];
    make_row(&search, node, &mut from, queue, steps);
    let mut to = [Cell::unknown(); 6];
    make_row(&search.turned(), node, &mut to, queue, steps);
    tells_rows(rows, node, &from, &to)
}

// Whether all slots tell what rows made anew tell.
fn all_as_new<L: Ledger>(
    rows: &Rows,
    g: &Graph,
    e: &Earliest,
    queue: &mut IdleQueue,
    steps: &mut Steps<L>,
) -> bool
    requires own { AreOwnRows rows.now.kept rows.now.pool }
    requires solved { e.now.is_solved ≡ true }
    requires earliest { IsEarliestOf g.now e.now.values }
    requires room { length g.now.nodes ≤ queue.old }
{
    is_as_new(rows, g, e, 0, queue, steps)
        && is_as_new(rows, g, e, SOURCE, queue, steps)
        && is_as_new(rows, g, e, 2, queue, steps)
}

// Whether the rows of three nodes are right before an arc comes, and repaired when it has come.
fn are_repaired<L: Ledger>(
    rows: &mut Rows,
    g: &mut Graph,
    e: &mut Earliest,
    growth: &Growth,
    queue: &mut IdleQueue,
    steps: &mut Steps<L>,
) -> bool
    requires kept { rows.old.kept ≡ nothing_kept }
    requires solved { e.old.is_solved ≡ true }
    requires earliest { IsEarliestOf g.old e.old.values }
    requires room { length g.old.nodes ≤ queue.old }
{
    keep_three(rows, g, e, queue, steps)
        && tells_all(rows, growth.before)
        && take(rows, g, e, &growth.arc, queue, steps)
        && tells_all(rows, growth.after)
        && all_as_new(rows, g, e, queue, steps)
}

// The same over six rows, of three nodes.
fn in_a_pool<L: Ledger>(
    alloc: Global,
    g: &mut Graph,
    e: &mut Earliest,
    growth: &Growth,
    queue: &mut IdleQueue,
    steps: &mut Steps<L>,
) -> bool
    requires solved { e.old.is_solved ≡ true }
    requires earliest { IsEarliestOf g.old e.old.values }
    requires room { length g.old.nodes ≤ queue.old }
{
    let mut rows = Rows {
        kept: Kept::new(alloc),
        pool: RowPool::new(alloc),
    };
    rows.pool.reserve(6, 6).is_ok() && are_repaired(&mut rows, g, e, growth, queue, steps)
}

// Whether rows of the graph are repaired.
fn grows<L: Ledger>(alloc: Global, g: &mut Graph, growth: &Growth, steps: &mut Steps<L>) -> bool {
    let mut e = Earliest::new(alloc);
    let mut queue = IdleQueue::new(alloc);
    execute(g, &mut e, &mut queue, steps) && in_a_pool(alloc, g, &mut e, growth, &mut queue, steps)
}

// Whether rows are repaired where an arc comes to others.
fn is_right<L: Ledger>(alloc: Global, links: &[Link], arc: Link, steps: &mut Steps<L>) -> bool {
    let growth = Growth {
        arc,
        before: &[],
        after: &[],
    };
    let mut g = Graph::new(alloc);
    fill(&mut g, 4, links) && grows(alloc, &mut g, &growth, steps)
}

// How many cases there are in which rows are repaired.
fn right_cases<L: Ledger>(alloc: Global, blank: Blank) -> usize
    requires { (blank.name ≡ L.name) × (blank.parts ≡ L.parts) × (0 < L.parts) }
{
    let mut steps = Steps::<L>::open(blank);
    let mut right = 0;
    for (links, arc) in &CASES {
        if is_right(alloc, links, *arc, &mut steps) {
            right += 1;
        }
    }
    right
}

#[test]
fn repaired_rows_are_those_made_anew(rt: HostRuntime) {
    assert!(rt; right_cases::<Brand>(rt.alloc(), Blank::new(1)) == CASES.len());
}

// Both at the same time.
const SAME: Pair = Pair {
    up: Reach::At(0),
    down: Reach::At(0),
};

// 10 units behind.
const BEHIND: Pair = Pair {
    up: Reach::At(10),
    down: Reach::At(-10),
};

// Nothing is told.
const NEVER: Pair = Pair {
    up: Reach::Never,
    down: Reach::Never,
};

// At most 20 units behind.
const LIMITED: Pair = Pair {
    up: Reach::At(20),
    down: Reach::Never,
};

// The graph of the two clocks, in which an arc of 20 units from p to r changes what is told of r and of its reading.
fn two_clocks_grow<L: Ledger>(alloc: Global, blank: Blank) -> bool
    requires { (blank.name ≡ L.name) × (blank.parts ≡ L.parts) × (0 < L.parts) }
{
    let mut steps = Steps::<L>::open(blank);
    let growth = Growth {
        arc: (0, 2, 20),
        before: &[SAME, BEHIND, NEVER, SAME, BEHIND, NEVER],
        after: &[SAME, BEHIND, LIMITED, SAME, BEHIND, LIMITED],
    };
    match two_clocks(alloc) {
        Some(mut g) => grows(alloc, &mut g, &growth, &mut steps),
        None => false,
    }
}

#[test]
fn an_arc_changes_two_cells_of_a_kept_row(rt: HostRuntime) {
    assert!(rt; two_clocks_grow::<Brand>(rt.alloc(), Blank::new(1)));
}
