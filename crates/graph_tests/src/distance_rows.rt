// Rows of a graph in both directions, a row that is repaired when an arc more comes, and differences of near nodes.
ghost use Rattle.std.specs.Prelude.{◌≡◌, ◌<◌, true, length};
ghost use Rattle.earliest.specs.Values.{IsEarliestOf};
ghost use Rattle.distances.specs.Ends.{AreRowsAround};

use crate::fixtures::{Link, bring_in, execute, fill, two_clocks};
use atto::Steps;
use distances::{Scratch, Search, Side, Surroundings, find_near, make_row, repair_row};
use earliest::Earliest;
use frontier::IdleQueue;
use problem_model::Node;
use row_pool::{Cell, Reach};
use std::alloc::Global;
use std::marker::Brand;
use std::sync::ledger::{Blank, Ledger};
use std::test::*;
use sync_graph::Graph;

// What a cell may hold before.
const OLD: Cell = Cell {
    value: 7,
    parent: 0,
    known: true,
};

// A cell of a node that is out of reach.
const NONE: Cell = Cell {
    value: 0,
    parent: u32::MAX,
    known: false,
};

// A known cell.
fn cell(value: i128, parent: u32) -> Cell {
    Cell {
        value,
        parent,
        known: true,
    }
}

// Among the events 0 to 2, arcs of weight 5 from 0 to 1, of 2 from 0 to 2, and of -1 from 2 to 1.
const LINKS: [Link; 3] = [(0, 1, 5), (0, 2, 2), (2, 1, -1)];

// Whether the row of a node, over old cells, has these cells.
fn row_is<L: Ledger>(
    search: &Search,
    queue: &mut IdleQueue,
    p: u32,
    want: [Cell; 4],
    steps: &mut Steps<L>,
) -> bool
    requires nodes { length search.now.graph.nodes ≡ 3 }
    requires node { p < 3 }
    requires room { queue.old ≡ 3 }
    ensures room { queue.new ≡ 3 }
{
    let mut row = [OLD; 4];
    make_row(search, p, &mut row, queue, steps);
    row == want
}

// Rows in both directions: a path of two arcs is shorter than one arc, and from node 2 no path leads to node 0.
fn are_right<L: Ledger>(
    g: &Graph,
    e: &Earliest,
    queue: &mut IdleQueue,
    steps: &mut Steps<L>,
) -> bool
    requires nodes { length g.now.nodes ≡ 3 }
    requires solved { e.now.is_solved ≡ true }
    requires earliest { IsEarliestOf g.now e.now.values }
    requires room { queue.old ≡ 3 }
{
    let search = Search::new(g, e, Side::From);
    let back = search.turned();
    let whole = [cell(0, u32::MAX), cell(1, 2), cell(2, 1), NONE];
    let part = [NONE, cell(-1, 2), cell(0, u32::MAX), NONE];
    let towards = [cell(1, 1), cell(0, u32::MAX), cell(-1, 2), NONE];
    row_is(&search, queue, 0, whole, steps)
        && row_is(&search, queue, 2, part, steps)
        && row_is(&back, queue, 1, towards, steps)
}

// Whether the earliest execution of three nodes has these rows.
fn has_rows<L: Ledger>(alloc: Global, g: &Graph, steps: &mut Steps<L>) -> bool {
    if g.nodes() != 3 {
        return false;
    }
    let mut e = Earliest::new(alloc);
    let mut queue = IdleQueue::new(alloc);
    execute(g, &mut e, &mut queue, steps) && are_right(g, &e, &mut queue, steps)
}

// The same once the arcs are among the nodes.
fn three_have_rows<L: Ledger>(alloc: Global, g: &mut Graph, blank: Blank) -> bool
    requires { (blank.name ≡ L.name) × (blank.parts ≡ L.parts) × (0 < L.parts) }
{
    let mut steps = Steps::<L>::open(blank);
    fill(g, 3, &LINKS) && has_rows(alloc, g, &mut steps)
}

#[test]
fn rows_have_the_shortest_distances(rt: HostRuntime) {
    let mut g = Graph::new(rt.alloc());
    assert!(rt; three_have_rows::<Brand>(rt.alloc(), &mut g, Blank::new(1)));
}

// The row from p: the first clock alone is known.
fn row_before() -> [Cell; 6] {
    [
        cell(0, u32::MAX),
        cell(10, 4),
        NONE,
        cell(0, 3),
        cell(10, 0),
        NONE,
    ]
}

// The same with an arc of 20 units from p to r, of number 8: the event r and its reading are known, and no other cell is
// another.
fn row_after() -> [Cell; 6] {
    [
        cell(0, u32::MAX),
        cell(10, 4),
        cell(20, 8),
        cell(0, 3),
        cell(10, 0),
        cell(20, 7),
    ]
}

// Whether the row from p is repaired after that arc.
fn is_repaired<L: Ledger>(
    g: &mut Graph,
    e: &mut Earliest,
    queue: &mut IdleQueue,
    steps: &mut Steps<L>,
) -> bool
    requires nodes { length g.old.nodes ≡ 6 }
    requires solved { e.old.is_solved ≡ true }
    requires earliest { IsEarliestOf g.old e.old.values }
    requires room { queue.old ≡ 6 }
{
    g.exact();
    let Some(p) = g.node_of(Node::Event(0)) else {
        return false;
    };
    let mut row = [OLD; 6];
    let before = Search::new(g, e, Side::From);
    make_row(&before, p, &mut row, queue, steps);
    let was = row == row_before();
    let Some(arc) = bring_in(g, e, &(0, 2, 20), queue, steps) else {
        return false;
    };
    let search = Search::new(g, e, Side::From);
    repair_row(&search, arc, p, &mut row, queue, steps);
    was && row == row_after()
}

// Whether it is so in the earliest execution of six nodes.
fn repaired<L: Ledger>(alloc: Global, g: &mut Graph, steps: &mut Steps<L>) -> bool {
    if g.nodes() != 6 {
        return false;
    }
    let mut e = Earliest::new(alloc);
    let mut queue = IdleQueue::new(alloc);
    execute(g, &mut e, &mut queue, steps) && is_repaired(g, &mut e, &mut queue, steps)
}

// The graph of the two clocks, and whether its row is repaired.
fn two_clocks_repaired<L: Ledger>(alloc: Global, blank: Blank) -> bool
    requires { (blank.name ≡ L.name) × (blank.parts ≡ L.parts) × (0 < L.parts) }
{
    let mut steps = Steps::<L>::open(blank);
    match two_clocks(alloc) {
        Some(mut g) => repaired(alloc, &mut g, &mut steps),
        None => false,
    }
}

#[test]
fn a_row_is_repaired_after_an_arc_more(rt: HostRuntime) {
    assert!(rt; two_clocks_repaired::<Brand>(rt.alloc(), Blank::new(1)));
}

// Event 1 is behind event 0 by 2 to 5 units, and event 2 by 3 to 7; event 2 is at most 1 behind event 1, and that at most 6
// behind event 2.
const AROUND: [Link; 6] = [
    (0, 1, 5),
    (1, 0, -2),
    (0, 2, 7),
    (2, 0, -3),
    (1, 2, 1),
    (2, 1, 6),
];

// Whether one of three nodes is so many units behind another at most, as a few nodes tell.
fn near_is<L: Ledger>(
    alloc: Global,
    around: &Surroundings,
    ask: &Link,
    queue: &mut IdleQueue,
    steps: &mut Steps<L>,
) -> bool
    requires solved { around.now.earliest.now.is_solved ≡ true }
    requires earliest { IsEarliestOf around.now.graph.now around.now.earliest.now.values }
    requires rows { AreRowsAround around.now.graph.now around.now.from.now around.now.to.now }
    requires nodes { length around.now.graph.now.nodes ≡ 3 }
    requires room { queue.old ≡ 3 }
    ensures room { queue.new ≡ 3 }
{
    let (p, q, want) = *ask;
    let mut behind = Scratch::new(alloc);
    let mut ahead = Scratch::new(alloc);
    if p >= 3 || q >= 3 || behind.reserve(3).is_err() || ahead.reserve(3).is_err() {
        return false;
    }
    find_near(around, p, q, &mut behind, &mut ahead, queue, steps) == Some(Reach::At(want))
}

// The difference from event 1 to event 2 is that of their own arc, the one back goes over event 0.
fn near_are_right<L: Ledger>(
    alloc: Global,
    g: &Graph,
    e: &Earliest,
    queue: &mut IdleQueue,
    steps: &mut Steps<L>,
) -> bool
    requires nodes { length g.now.nodes ≡ 3 }
    requires solved { e.now.is_solved ≡ true }
    requires earliest { IsEarliestOf g.now e.now.values }
    requires room { queue.old ≡ 3 }
{
    let search = Search::new(g, e, Side::From);
    let back = search.turned();
    let mut from = [OLD; 4];
    let mut to = [OLD; 4];
    make_row(&search, 0, &mut from, queue, steps);
    make_row(&back, 0, &mut to, queue, steps);
    let around = Surroundings {
        graph: g,
        earliest: e,
        from: &from,
        to: &to,
    };
    near_is(alloc, &around, &(1, 2, 1), queue, steps)
        && near_is(alloc, &around, &(2, 1, 2), queue, steps)
}

// Whether it is so in the earliest execution of three nodes.
fn has_near<L: Ledger>(alloc: Global, g: &Graph, steps: &mut Steps<L>) -> bool {
    if g.nodes() != 3 {
        return false;
    }
    let mut e = Earliest::new(alloc);
    let mut queue = IdleQueue::new(alloc);
    execute(g, &mut e, &mut queue, steps) && near_are_right(alloc, g, &e, &mut queue, steps)
}

// The same once the arcs are among the nodes.
fn three_are_near<L: Ledger>(alloc: Global, g: &mut Graph, blank: Blank) -> bool
    requires { (blank.name ≡ L.name) × (blank.parts ≡ L.parts) × (0 < L.parts) }
{
    let mut steps = Steps::<L>::open(blank);
    fill(g, 3, &AROUND) && has_near(alloc, g, &mut steps)
}

#[test]
fn few_nodes_tell_of_near_ones(rt: HostRuntime) {
    let mut g = Graph::new(rt.alloc());
    assert!(rt; three_are_near::<Brand>(rt.alloc(), &mut g, Blank::new(1)));
}
