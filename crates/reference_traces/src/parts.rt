// The events and messages of a problem, by the labels of their declaration.
ghost use Rattle.std.specs.Prelude.{◌≡◌, ◌<◌, length};
ghost use Rattle.decl.specs.Declaration.{HasLawfulLabels, declaration_of, link_bounds};
ghost use Rattle.problem.specs.Line.{HasEvent};
ghost use Rattle.reference_traces.specs.Known.{IsKnownEvent};
ghost use Rattle.traces.specs.Traces.{name_of, host_of, clock_of};
ghost use Rattle.traces.specs.Messages.{bounds_of, event_with};
ghost use Rattle.traces.specs.Held.{placed_of};

use decl::Decl;
use problem::Problem;
use problem_model::{Event, Message, StampBounds};
use traces::{Couple, EventId, PlacedEvent, name_of};

// The host that an event happened at.
fn host_of(decl: &Decl, id: EventId) -> u32
    requires { id.label < length decl.now.labels.items }
    ensures { result ≡ host_of (declaration_of decl.now) id }
{
    decl.labels[id.label as usize].host
}

// The clock that an event was stamped by.
fn clock_of(decl: &Decl, id: EventId) -> u32
    requires label { id.label < length decl.now.labels.items }
    ensures { result ≡ clock_of (declaration_of decl.now) id }
{
    decl.labels[id.label as usize].clock
}

// The bounds that an event has of its own.
fn bounds_of(decl: &Decl, id: EventId) -> Option<StampBounds>
    requires { id.label < length decl.now.labels.items }
    ensures { result ≡ bounds_of (declaration_of decl.now) id }
{
    decl.own_bounds(&decl.labels[id.label as usize])
}

/// An event with its name and its own bounds, on the clock of its label.
pub(crate) fn event_of(decl: &Decl, e: &PlacedEvent) -> Event
    requires labels { HasLawfulLabels (declaration_of decl.now) }
    requires label { e.now.id.label < length decl.now.labels.items }
    ensures { result ≡ event_with (declaration_of decl.now) (placed_of e.now) }
{
    Event {
        name: name_of(decl, e.id),
        clock: clock_of(decl, e.id),
        stamp: e.event.stamp,
        bounds: bounds_of(decl, e.id),
    }
}

// The place of an event in a problem that has it.
fn place_of(decl: &Decl, p: &Problem, id: EventId) -> u32
    requires labels { HasLawfulLabels (declaration_of decl.now) }
    requires label { id.label < length decl.now.labels.items }
    requires known { IsKnownEvent (declaration_of decl.now) p.now id }
    ensures { HasEvent p.now result (name_of (declaration_of decl.now) id) }
{
    p.event_place(&name_of(decl, id)).unwrap()
}

/// A message of a problem that has its events, with the bounds of the link from the one's host to the other's.
pub(crate) fn message_of(decl: &Decl, p: &Problem, m: &Couple) -> Message
    requires labels { HasLawfulLabels (declaration_of decl.now) }
    requires send_label { m.now.send.label < length decl.now.labels.items }
    requires receive_label { m.now.receive.label < length decl.now.labels.items }
    requires send_known { IsKnownEvent (declaration_of decl.now) p.now m.now.send }
    requires receive_known { IsKnownEvent (declaration_of decl.now) p.now m.now.receive }
    ensures send { HasEvent p.now result.send (name_of (declaration_of decl.now) m.now.send) }
    ensures receive { HasEvent p.now result.receive (name_of (declaration_of decl.now) m.now.receive) }
    ensures bounds { (result.least, result.most) ≡ link_bounds (declaration_of decl.now) (host_of (declaration_of decl.now) m.now.send) (host_of (declaration_of decl.now) m.now.receive) }
{
    let (least, most) = decl.link_of(host_of(decl, m.send), host_of(decl, m.receive));
    Message {
        send: place_of(decl, p, m.send),
        receive: place_of(decl, p, m.receive),
        least,
        most,
    }
}
