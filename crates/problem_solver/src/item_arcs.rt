// The arcs of what is brought in.
ghost use Rattle.std.specs.Prelude.{◌≡◌, ◌+◌, ◌<◌, ◌^◌, [], ◌∷◌, List, Some, Contains, length, slice_get};
ghost use Rattle.problem_model.specs.Nodes.{Reading, AreReadings, nodes_of};
ghost use Rattle.problem_model.specs.Bounds.{Declares, EventAt};
ghost use Rattle.problem.specs.Nearest.{gap_between};
ghost use Rattle.problem_model.specs.ShortList.{message_bounds};
ghost use Rattle.problem_model.specs.declared.items.Bound.TheVariants as bounds;
ghost use Rattle.problem_model.specs.declared.items.Bound.TheVariants.{Late, Early};
ghost use Rattle.problem_graph.specs.BoundArcs.{arcs_in};
ghost use Rattle.problem_solver.specs.declared.items.Item.TheVariants as items;
ghost use Rattle.problem_solver.specs.Items.{IsItem, bounds_of, reading_at};
ghost use Rattle.problem_solver.specs.Pushing.{AreBoundsAmong};

use crate::items::{Item, place_of, reading_of};
use atto::Nano;
use problem::{NearestFollow, Problem};
use problem_graph::{Arcs, follow_arcs, message_arcs, span_arcs, stamp_arcs};
use problem_model::{Event, Message};

// The number of the node of the reading at a place.
fn node_of_reading(p: &Problem, place: u32) -> u32
    requires { (readings : List Reading) → AreReadings p.now readings → place < length readings }
    ensures node { result ≡ length p.now.events + place }
    ensures few { result < 2 ^ 31 }
{
    // It tells what the readings of the problem are.
    let _ = p.readings();
    p.events().len() as u32 + place
}

// Those of the span of the reading at a place and the next one.
fn arcs_of_span(
    p: &Problem,
    readings: &[(u32, Nano)],
    k: u32,
    a: (u32, Nano),
    b: (u32, Nano),
) -> Arcs
    requires readings { AreReadings p.now readings.now }
    requires item { IsItem p.now readings.now (items.Span k) }
    requires a { a ≡ reading_at readings.now k }
    requires b { b ≡ reading_at readings.now (k + 1) }
    ensures { AreBoundsAmong p.now (nodes_of p.now readings.now) (bounds_of p.now readings.now (items.Span k)) (arcs_in result) }
{
    let clock = &p.clocks()[a.0 as usize];
    let first = node_of_reading(p, k);
    span_arcs(a.0, clock, a.1, b.1, first, first + 1)
}

// That of the bound between a reading of one clock and one of a clock that comes after it.
fn arcs_between(p: &Problem, later: u32, f: &NearestFollow) -> Arcs
    requires { Declares p.now (bounds.Follow f.now.earlier f.now.s later f.now.t) (gap_between f.now.earlier f.now.s later f.now.t f.now.gap) }
    ensures { (readings : List Reading) → AreReadings p.now readings
        → AreBoundsAmong p.now (nodes_of p.now readings) (bounds.Follow f.now.earlier f.now.s later f.now.t ∷ []) (arcs_in result) }
{
    let first = place_of(p, f.earlier, f.s);
    let second = place_of(p, later, f.t);
    let first = node_of_reading(p, first);
    let second = node_of_reading(p, second);
    follow_arcs(f, later, first, second)
}

// That of the follow that leads to the clock at a place, where there is one.
fn arcs_of_follow(p: &Problem, place: u32) -> Arcs
    requires { place < length p.now.clocks }
    ensures { (readings : List Reading) → AreReadings p.now readings
        → AreBoundsAmong p.now (nodes_of p.now readings) (bounds_of p.now readings (items.Follow place)) (arcs_in result) }
{
    match p.nearest_follow(place) {
        Some(f) => arcs_between(p, place, &f),
        None => Arcs::Nothing,
    }
}

// Those of the stamp of the event at a place, whose reading is at this place.
fn arcs_of_event(p: &Problem, place: u32, event: &Event, reading: u32) -> Arcs
    requires event { EventAt p.now place event.now }
    requires reading { (readings : List Reading) → AreReadings p.now readings → slice_get readings reading ≡ Some (event.now.clock, event.now.stamp) }
    ensures { (readings : List Reading) → AreReadings p.now readings
        → AreBoundsAmong p.now (nodes_of p.now readings) (Late place ∷ Early place ∷ []) (arcs_in result) }
{
    let clock = &p.clocks()[event.clock as usize];
    let node = node_of_reading(p, reading);
    stamp_arcs(
        place,
        event.clock,
        clock,
        event.stamp,
        &event.bounds,
        node,
        place,
    )
}

// Those of the delay of a message.
fn arcs_of_message(p: &Problem, message: &Message) -> Arcs
    requires { Contains p.now.messages message.now }
    ensures { (readings : List Reading) → AreReadings p.now readings
        → AreBoundsAmong p.now (nodes_of p.now readings) (message_bounds message.now) (arcs_in result) }
{
    // It tells that the problem is lawful.
    let _ = p.events();
    message_arcs(message, message.send, message.receive)
}

/// The arcs of an item, between the numbers of the problem's nodes.
pub fn item_arcs(p: &Problem, readings: &[(u32, Nano)], item: Item) -> Arcs
    requires readings { AreReadings p.now readings.now }
    requires item { IsItem p.now readings.now item }
    ensures { AreBoundsAmong p.now (nodes_of p.now readings.now) (bounds_of p.now readings.now item) (arcs_in result) }
{
    match item {
        Item::Span(k) => {
            let (a, b) = (readings[k as usize], readings[k as usize + 1]);
            arcs_of_span(p, readings, k, a, b)
        }
        Item::Follow(clock) => arcs_of_follow(p, clock),
        Item::Event(e) => {
            let event = &p.events()[e as usize];
            arcs_of_event(p, e, event, reading_of(p, event))
        }
        Item::Message(m) => arcs_of_message(p, &p.messages()[m as usize]),
    }
}
