// The lists of a graph whose arcs come and go.
ghost use Rattle.std.specs.Prelude.{◌≡◌, ◌<◌, length};

use crate::fixtures::{fill, push};
use atto::Steps;
use problem_model::Bound;
use std::marker::Brand;
use std::sync::ledger::{Blank, Ledger};
use std::test::*;
use sync_graph::{Arc, Graph};

// Whether the arc of a greatest delay from one event to another is appended between the nodes of these numbers, and comes
// back as it was.
fn push_delay(g: &mut Graph, send: u32, receive: u32) -> bool {
    let Some(k) = push(g, &(send, receive, 1)) else {
        return false;
    };
    let arc = Arc {
        from: send,
        to: receive,
        weight: 1,
        name: Bound::DelayMost { send, receive },
    };
    k < g.arcs() && g.arc(k) == arc
}

// Four events and, in each of ten turns, an arc from event 0 to 1, one from 1 to 2 and one from 0 to 3, so that the lists
// of event 0 and of the others grow past one another.
fn push_turns(g: &mut Graph) -> bool {
    let mut sound = fill(g, 4, &[]);
    for _ in 0..10 {
        sound = sound && push_delay(g, 0, 1) && push_delay(g, 1, 2) && push_delay(g, 0, 3);
    }
    sound
}

// The arcs that leave a node, each as a bit, and how many there are.
fn leaving_bits<L: Ledger>(g: &Graph, node: u32, steps: &mut Steps<L>) -> (u64, u32)
    requires { node < length g.now.nodes }
{
    let mut bits = 0;
    for k in 0..64 {
        match g.leaving(node, k, steps) {
            Some(arc) if arc < 64 => bits |= 1 << arc,
            _ => return (bits, k),
        }
    }
    (bits, 64)
}

// The same of the arcs that reach it.
fn arriving_bits<L: Ledger>(g: &Graph, node: u32, steps: &mut Steps<L>) -> (u64, u32)
    requires { node < length g.now.nodes }
{
    let mut bits = 0;
    for k in 0..64 {
        match g.arriving(node, k, steps) {
            Some(arc) if arc < 64 => bits |= 1 << arc,
            _ => return (bits, k),
        }
    }
    (bits, 64)
}

// Takes the arc at a place of an event's list out of force.
fn withdraw_at<L: Ledger>(g: &mut Graph, node: u32, place: u32, steps: &mut Steps<L>) -> Option<u32>
    requires { node < length g.old.nodes }
    ensures { length g.new.nodes ≡ length g.old.nodes }
{
    let arc = g.leaving(node, place, steps)?;
    g.exact();
    g.withdraw(arc);
    Some(arc)
}

// Every third arc begins at event 1.
const FROM_1: u64 = 0b010_010_010_010_010_010_010_010_010_010;

// The others begin at event 0.
const FROM_0: u64 = FROM_1 << 1 | FROM_1 >> 1;

// Whether the lists are those of all 30 arcs.
fn has_all<L: Ledger>(g: &Graph, steps: &mut Steps<L>) -> bool {
    g.nodes() == 4
        && leaving_bits(g, 2, steps) == (0, 0)
        && arriving_bits(g, 1, steps) == (FROM_1 >> 1, 10)
        && arriving_bits(g, 3, steps) == (FROM_1 << 1, 10)
        && has_all_but(g, 0, 0, steps)
}

// Whether the lists are those of all arcs but for these, which leave event 0.
fn has_all_but<L: Ledger>(g: &Graph, gone: u64, count: u32, steps: &mut Steps<L>) -> bool {
    if g.nodes() != 4 || count > 20 {
        return false;
    }
    let (first, _) = arriving_bits(g, 1, steps);
    let (last, _) = arriving_bits(g, 3, steps);
    leaving_bits(g, 0, steps) == (FROM_0 & !gone, 20 - count)
        && leaving_bits(g, 1, steps) == (FROM_1, 10)
        && arriving_bits(g, 2, steps) == (FROM_1, 10)
        && first == (FROM_1 >> 1) & !gone
        && last == (FROM_1 << 1) & !gone
}

// Whether the arcs at these places of the list of event 0 go, each alone.
fn they_go<L: Ledger>(g: &mut Graph, places: &[u32], steps: &mut Steps<L>) -> bool {
    let mut gone = 0;
    for (count, place) in places.iter().enumerate() {
        if g.nodes() != 4 {
            return false;
        }
        match withdraw_at(g, 0, *place, steps) {
            Some(arc) if arc < 64 => gone |= 1 << arc,
            _ => return false,
        }
        if count >= 20 || !has_all_but(g, gone, count as u32 + 1, steps) {
            return false;
        }
    }
    true
}

// Whether all arcs are in the lists of a new graph, and some leave them again.
fn lists_are_kept<L: Ledger>(g: &mut Graph, blank: Blank) -> bool
    requires { (blank.name ≡ L.name) × (blank.parts ≡ L.parts) × (0 < L.parts) }
{
    let mut steps = Steps::<L>::open(blank);
    push_turns(g) && has_all(g, &mut steps) && they_go(g, &[0, 18, 5, 5, 15], &mut steps)
}

// Lists that move several times keep all their entries, and a withdrawn arc leaves both its lists and no other.
#[test]
fn lists_hold_the_arcs_in_force(rt: HostRuntime) {
    let mut g = Graph::new(rt.alloc());
    assert!(rt; lists_are_kept::<Brand>(&mut g, Blank::new(1)));
}
