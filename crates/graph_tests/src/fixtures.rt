// Graphs that several modules are over, arcs that are brought into them, and their earliest executions.
ghost use Rattle.std.specs.Prelude.{◌≡◌, ◌≤◌, [], false, true, IfSome, OnOk, length, slice_index_or};
ghost use Rattle.sync_graph.specs.declared.arc.Arc.{Arc};
ghost use Rattle.sync_graph.specs.Graph.{with_arc};
ghost use Rattle.earliest.specs.Values.{IsEarliestOf};

use atto::Steps;
use earliest::{Earliest, Inserted};
use frontier::IdleQueue;
use problem_model::{Bound, Node};
use std::alloc::{AllocError, Global};
use std::sync::ledger::Ledger;
use sync_graph::{Arc, Graph};

// An arc between two nodes, and its weight.
pub(crate) type Link = (u32, u32, i128);

// The bounds of two clocks of rate 0 whose stamps are exact, the second reading of the first one 10 units behind the
// first. Three events are the nodes 0 to 2, and their readings the nodes 3 to 5.
const TWO_CLOCKS: [Link; 8] = [
    (3, 4, 10),
    (4, 3, -10),
    (3, 0, 0),
    (0, 3, 0),
    (4, 1, 0),
    (1, 4, 0),
    (5, 2, 0),
    (2, 5, 0),
];

// The graph of these.
pub(crate) fn two_clocks(alloc: Global) -> Option<Graph> {
    let mut g = Graph::new(alloc);
    if fill(&mut g, 6, &TWO_CLOCKS) {
        Some(g)
    } else {
        None
    }
}

// Appends the event at the next place, and answers its node.
fn push_event(g: &mut Graph) -> Option<u32> {
    let place = g.nodes();
    if place >= 100 || g.node_of(Node::Event(place)).is_some() {
        return None;
    }
    g.push_node(Node::Event(place)).ok()
}

// Pushes an arc between the nodes of two events, and answers its number. Its weight is in units of 1e-9 ns.
pub(crate) fn push(g: &mut Graph, link: &Link) -> Option<u32>
    ensures number { IfSome result (λ arc. arc ≡ length g.old.arcs) }
    ensures pushed { IfSome result (λ arc. (a : Arc) × (g.new ≡ with_arc g.old a)) }
{
    let (send, receive, weight) = *link;
    let from = g.node_of(Node::Event(send))?;
    let to = g.node_of(Node::Event(receive))?;
    if g.arcs() >= 100 || weight < -1000 || weight > 1000 {
        return None;
    }
    let name = Bound::DelayMost { send, receive };
    g.push_arc(Arc {
        from,
        to,
        weight,
        name,
    })
    .ok()
}

// Whether so many events and these arcs among them are appended.
pub(crate) fn fill(g: &mut Graph, events: u32, links: &[Link]) -> bool {
    for _ in 0..events {
        if push_event(g).is_none() {
            return false;
        }
    }
    for link in links {
        if push(g, link).is_none() {
            return false;
        }
    }
    true
}

// Pushes an arc, and brings it in. None if no execution is left.
pub(crate) fn bring_in<L: Ledger>(
    g: &mut Graph,
    e: &mut Earliest,
    link: &Link,
    queue: &mut IdleQueue,
    steps: &mut Steps<L>,
) -> Option<u32>
    requires solved { e.old.is_solved ≡ true }
    requires earliest { IsEarliestOf g.old e.old.values }
    requires room { length g.old.nodes ≤ queue.old }
    ensures number { IfSome result (λ arc. arc ≡ length g.old.arcs) }
    ensures pushed { IfSome result (λ arc. (a : Arc) × (g.new ≡ with_arc g.old a)) }
    ensures in_force { IfSome result (λ arc. slice_index_or g.new.in_force arc false ≡ true) }
    ensures nodes { IfSome result (λ arc. length g.new.nodes ≡ length g.old.nodes) }
    ensures solved { IfSome result (λ arc. e.new.is_solved ≡ true) }
    ensures earliest { IfSome result (λ arc. IsEarliestOf g.new e.new.values) }
    ensures room { queue.new ≡ queue.old }
{
    g.exact();
    let arc = push(g, link)?;
    match e.insert(g, arc, queue, steps) {
        Ok(Inserted::Kept) => Some(arc),
        _ => None,
    }
}

// As many values as there are nodes.
fn push_values(g: &Graph, e: &mut Earliest) -> Result<(), AllocError>
    requires { length e.old.values ≡ 0 }
    ensures { OnOk result (length e.new.values ≡ length g.now.nodes) }
{
    for _node in 0..g.nodes() {
        e.push_node()?;
    }
    Ok(())
}

// Makes the earliest execution of a graph, and tells whether there is one.
pub(crate) fn execute<L: Ledger>(
    g: &Graph,
    e: &mut Earliest,
    queue: &mut IdleQueue,
    steps: &mut Steps<L>,
) -> bool
    requires values { length e.old.values ≡ 0 }
    requires room { queue.old ≡ 0 }
    ensures solved { result ≡ true → e.new.is_solved ≡ true }
    ensures earliest { result ≡ true → IsEarliestOf g.now e.new.values }
    ensures room { result ≡ true → queue.new ≡ length g.now.nodes }
{
    if queue.reserve(g.nodes()).is_err() || push_values(g, e).is_err() {
        return false;
    }
    match e.rebuild(g, queue, steps) {
        Ok(Inserted::Kept) => true,
        _ => false,
    }
}
