// The first and the last reading of each clock.
ghost use Rattle.std.specs.Prelude.{◌≡◌, ◌<◌, ◌≤◌, ◌+◌, Some, All, IfOk, length, slice_get};
ghost use Rattle.problem_model.specs.declared.items.Event.{Event};
ghost use Rattle.problem_model.specs.Limits.{most_events};
ghost use Rattle.thinning.specs.Edges.{AreEdges, AreEdgesOfClocks, IsEarlierOf, IsLaterOf};

use problem_model::Event;
use std::alloc::{AllocError, Global};

// The places of two events of one clock: one with its first reading, and one with its last.
#[derive(Clone, Copy)]
pub(crate) struct ClockEdges {
    pub(crate) first: u32,
    pub(crate) last: u32,
}

// Of two events the one whose stamp is less.
fn earlier_of(events: &[Event], a: u32, b: u32) -> u32
    requires inside { (a < length events.now) × (b < length events.now) }
    ensures { IsEarlierOf events.now a b result }
{
    if events[b as usize].stamp.get() < events[a as usize].stamp.get() {
        b
    } else {
        a
    }
}

// Of two events the one whose stamp is greater.
fn later_of(events: &[Event], a: u32, b: u32) -> u32
    requires inside { (a < length events.now) × (b < length events.now) }
    ensures { IsLaterOf events.now a b result }
{
    if events[a as usize].stamp.get() < events[b as usize].stamp.get() {
        b
    } else {
        a
    }
}

// The edges of a clock with one event more.
fn with_event(events: &[Event], edges: Option<ClockEdges>, place: u32) -> ClockEdges
    requires { (v : Event) × (slice_get events.now place ≡ Some v) × AreEdges events.now place v.clock edges }
    ensures { (v : Event) → slice_get events.now place ≡ Some v → AreEdges events.now (place + 1) v.clock (Some result) }
{
    match edges {
        None => ClockEdges {
            first: place,
            last: place,
        },
        Some(edges) => ClockEdges {
            first: earlier_of(events, edges.first, place),
            last: later_of(events, edges.last, place),
        },
    }
}

// Of each clock an event with its first reading and one with its last, in one pass over the events.
pub(crate) fn clock_edges(
    alloc: Global,
    clocks: usize,
    events: &[Event],
) -> Result<Vec<Option<ClockEdges>>, AllocError>
    requires few { length events.now ≤ most_events }
    requires clocks { All (λ e. e.clock < clocks) events.now }
    ensures each { IfOk result (λ edges. length edges.items ≡ clocks) }
    ensures edges { IfOk result (λ edges. AreEdgesOfClocks events.now (length events.now) edges.items) }
{
    let mut edges: Vec<Option<ClockEdges>> = vec![in alloc; None; clocks]?;
    for place in 0..events.len() as u32 {
        let clock = events[place as usize].clock as usize;
        edges[clock] = Some(with_event(events, edges[clock], place));
    }
    Ok(edges)
}
