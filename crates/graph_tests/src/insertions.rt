// Values as arcs come and go, and values that are made anew.
ghost use Rattle.std.specs.Prelude.{◌≡◌, ◌<◌, ◌≤◌, [], true, false, slice_index_or, OnOk, length};
ghost use Rattle.sync_graph.specs.Graph.{no_graph};
ghost use Rattle.earliest.specs.Values.{IsEarliestOf};

use crate::fixtures::{Link, bring_in, fill, push};
use atto::Steps;
use earliest::{Earliest, Inserted};
use frontier::IdleQueue;
use problem_model::Node;
use std::alloc::{AllocError, Global};
use std::marker::Brand;
use std::sync::ledger::{Blank, Ledger};
use std::test::*;
use sync_graph::Graph;

// Two nodes without arcs, both of value 0, and a queue with room for them.
fn begin(g: &mut Graph, e: &mut Earliest, queue: &mut IdleQueue) -> Result<(), AllocError>
    requires graph { g.old ≡ no_graph }
    requires values { e.old ≡ record { values = []; is_solved = true; workspace = [] } }
    requires room { queue.old ≡ 0 }
    ensures nodes { OnOk result (length g.new.nodes ≡ 2) }
    ensures solved { OnOk result (e.new.is_solved ≡ true) }
    ensures earliest { OnOk result (IsEarliestOf g.new e.new.values) }
    ensures room { OnOk result (queue.new ≡ 2) }
{
    queue.reserve(2)?;
    g.exact();
    g.push_node(Node::Event(0))?;
    e.push_node()?;
    g.exact();
    g.push_node(Node::Event(1))?;
    e.push_node()?;
    Ok(())
}

// That node 0 comes at most 2 after node 1 leaves no values, where it comes at least 3 after it.
fn takes_no_more<L: Ledger>(
    g: &mut Graph,
    e: &mut Earliest,
    queue: &mut IdleQueue,
    steps: &mut Steps<L>,
) -> bool
    requires solved { e.old.is_solved ≡ true }
    requires earliest { IsEarliestOf g.old e.old.values }
    requires room { length g.old.nodes ≤ queue.old }
{
    g.exact();
    let Some(arc) = push(g, &(1, 0, 2)) else {
        return false;
    };
    match e.insert(g, arc, queue, steps) {
        Ok(Inserted::Negative(cycle)) => cycle.len() == 2 && !e.solved(),
        _ => false,
    }
}

// Takes an arc of two nodes out of force, and tells whether the value of node 0 falls to 0.
fn falls<L: Ledger>(
    g: &mut Graph,
    e: &mut Earliest,
    queue: &mut IdleQueue,
    arc: u32,
    steps: &mut Steps<L>,
) -> bool
    requires nodes { length g.old.nodes ≡ 2 }
    requires in_force { slice_index_or g.old.in_force arc false ≡ true }
    requires solved { e.old.is_solved ≡ true }
    requires earliest { IsEarliestOf g.old e.old.values }
    requires room { length g.old.nodes ≤ queue.old }
{
    g.exact();
    let removed = [g.arc(arc)];
    g.withdraw(arc);
    g.exact();
    e.withdraw(g, &removed, queue, steps);
    e.value(0) == 0
}

// Node 0 comes at least 3 after node 1. Then that is withdrawn, or an arc comes that leaves no values.
fn takes_one<L: Ledger>(
    g: &mut Graph,
    e: &mut Earliest,
    queue: &mut IdleQueue,
    withdrawn: bool,
    steps: &mut Steps<L>,
) -> bool
    requires graph { g.old ≡ no_graph }
    requires values { e.old ≡ record { values = []; is_solved = true; workspace = [] } }
    requires room { queue.old ≡ 0 }
{
    if begin(g, e, queue).is_err() {
        return false;
    }
    let Some(arc) = bring_in(g, e, &(0, 1, -3), queue, steps) else {
        return false;
    };
    if e.value(0) != 3 || e.value(1) != 0 {
        return false;
    }
    if withdrawn {
        falls(g, e, queue, arc, steps)
    } else {
        takes_no_more(g, e, queue, steps)
    }
}

// The same of nodes and values that are made here.
fn is_taken<L: Ledger>(alloc: Global, withdrawn: bool, blank: Blank) -> bool
    requires { (blank.name ≡ L.name) × (blank.parts ≡ L.parts) × (0 < L.parts) }
{
    let mut steps = Steps::<L>::open(blank);
    let mut g = Graph::new(alloc);
    let mut e = Earliest::new(alloc);
    let mut queue = IdleQueue::new(alloc);
    takes_one(&mut g, &mut e, &mut queue, withdrawn, &mut steps)
}

#[test]
fn arcs_are_brought_in(rt: HostRuntime) {
    assert!(rt; is_taken::<Brand>(rt.alloc(), false, Blank::new(1)));
}

#[test]
fn values_fall_once_an_arc_is_withdrawn(rt: HostRuntime) {
    assert!(rt; is_taken::<Brand>(rt.alloc(), true, Blank::new(1)));
}

// Two values, and a queue with room for them.
fn ready(e: &mut Earliest, queue: &mut IdleQueue) -> Result<(), AllocError>
    requires values { length e.old.values ≡ 0 }
    requires room { queue.old ≡ 0 }
    ensures values { OnOk result (length e.new.values ≡ 2) }
    ensures room { OnOk result (queue.new ≡ 2) }
{
    queue.reserve(2)?;
    e.push_node()?;
    e.push_node()?;
    Ok(())
}

// Whether the values of two nodes are these when they are made anew, or the graph has a negative cycle where there are none.
fn anew<L: Ledger>(
    e: &mut Earliest,
    queue: &mut IdleQueue,
    g: &Graph,
    want: Option<(i128, i128)>,
    steps: &mut Steps<L>,
) -> bool
    requires values { length e.old.values ≡ 2 }
    requires room { queue.old ≡ 2 }
    ensures values { length e.new.values ≡ 2 }
    ensures room { queue.new ≡ 2 }
{
    if g.nodes() != 2 {
        return false;
    }
    match e.rebuild(g, queue, steps) {
        Ok(Inserted::Kept) => want == Some((e.value(0), e.value(1))),
        Ok(Inserted::Negative(_)) => want.is_none(),
        Err(_) => false,
    }
}

// The same of two nodes with these arcs.
fn anew_between<L: Ledger>(
    alloc: Global,
    e: &mut Earliest,
    queue: &mut IdleQueue,
    links: &[Link],
    want: Option<(i128, i128)>,
    steps: &mut Steps<L>,
) -> bool
    requires values { length e.old.values ≡ 2 }
    requires room { queue.old ≡ 2 }
    ensures values { length e.new.values ≡ 2 }
    ensures room { queue.new ≡ 2 }
{
    let mut g = Graph::new(alloc);
    let is_filled = fill(&mut g, 2, links);
    anew(e, queue, &g, want, steps) && is_filled
}

// Two arcs without an execution, and then two with one, which is made where the values were not solved.
fn both_over<L: Ledger>(
    alloc: Global,
    e: &mut Earliest,
    queue: &mut IdleQueue,
    steps: &mut Steps<L>,
) -> bool
    requires values { length e.old.values ≡ 0 }
    requires room { queue.old ≡ 0 }
{
    ready(e, queue).is_ok()
        && anew_between(alloc, e, queue, &[(0, 1, -3), (1, 0, 2)], None, steps)
        && !e.solved()
        && anew_between(
            alloc,
            e,
            queue,
            &[(0, 1, -3), (1, 0, 4)],
            Some((3, 0)),
            steps,
        )
}

// The same of values that are made here.
fn both<L: Ledger>(alloc: Global, blank: Blank) -> bool
    requires { (blank.name ≡ L.name) × (blank.parts ≡ L.parts) × (0 < L.parts) }
{
    let mut steps = Steps::<L>::open(blank);
    let mut e = Earliest::new(alloc);
    let mut queue = IdleQueue::new(alloc);
    both_over(alloc, &mut e, &mut queue, &mut steps)
}

#[test]
fn values_are_made_anew(rt: HostRuntime) {
    assert!(rt; both::<Brand>(rt.alloc(), Blank::new(1)));
}
