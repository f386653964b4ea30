// What a problem declares under the name of a bound.
ghost use Rattle.std.specs.Prelude.{◌≡◌, ◌<◌, ◌^◌, ◌+◌, ◌*◌, ℕ, pos, Some, length, Contains, unsigned_abs};
ghost use Rattle.problem_model.specs.declared.items.Bound.TheVariants as bounds;
ghost use Rattle.problem_model.specs.Problem.{ProblemLists, IsWellFormed};
ghost use Rattle.problem_model.specs.Bounds.{Constraint, Declares, ClockAt, EventAt, IsReading, early_of, late_of};
ghost use Rattle.problem.specs.Line.{HasMessageAt};
ghost use Rattle.problem_model.specs.declared.items.Follow.{Follow};
ghost use Rattle.cert_check.specs.Walks.{constraint, HasMessageBetween, LeadsTo};
ghost use Rattle.cert_check.specs.Widened.{with_delays, widened};

use crate::what::{What, added_to, clock_in, gap_left, least_left, widened_event};
use atto::{Nano, delay_units, span_least, span_most};
use problem::{NearestFollow, Problem};
use problem_model::{Bound, Clock, Event, Message, Node};

/// The difference constraint `x_to - x_from <= weight` that a problem declares. The weight is in units of 1e-9 ns.
#[derive(Clone, Copy, Debug, PartialEq, Eq)]
pub struct Declaration {
    pub from: Node,
    pub to: Node,
    pub weight: i128,
}

/// A greatest delay that is so many ns greater, in units of 1e-9 ns.
pub fn widened_units(most: Nano, added: Nano) -> i128
    ensures exact { result ≡ pos ((most + added) * 1000000000) }
    ensures below { unsigned_abs result < 2 ^ 93 }
{
    delay_units(most) + delay_units(added)
}

/// The bound of the short list whose later clock this is.
pub fn listed_bound(later: u32, follow: &NearestFollow) -> Bound
    ensures { result ≡ bounds.Follow follow.now.earlier follow.now.s later follow.now.t }
{
    Bound::Follow {
        earlier: follow.earlier,
        s: follow.s,
        later,
        t: follow.t,
    }
}

// The greatest real time of a span.
fn longest(place: u32, clock: &Clock, s: Nano, t: Nano) -> Declaration
    requires { s < t }
    ensures declares { (p : ProblemLists) → ClockAt p place clock.now → IsReading p place s → IsReading p place t → Declares p (bounds.SpanMost place s t) (constraint result) }
    ensures below { unsigned_abs result.weight < 2 ^ 93 }
{
    Declaration {
        from: Node::Reading(place, s),
        to: Node::Reading(place, t),
        weight: span_most(clock.rate, s, t),
    }
}

// The least real time of a span.
fn shortest(place: u32, clock: &Clock, s: Nano, t: Nano) -> Declaration
    requires { s < t }
    ensures declares { (p : ProblemLists) → ClockAt p place clock.now → IsReading p place s → IsReading p place t → Declares p (bounds.SpanLeast place s t) (constraint result) }
    ensures below { unsigned_abs result.weight < 2 ^ 93 }
{
    Declaration {
        from: Node::Reading(place, t),
        to: Node::Reading(place, s),
        weight: -span_least(clock.rate, s, t),
    }
}

/// How far behind the reading of its stamp an event may lie.
pub fn late_of(event: &Event, clock: &Clock) -> Nano
    ensures { result ≡ late_of clock.now event.now }
{
    match event.bounds {
        None => clock.late,
        Some(own) => own.late,
    }
}

/// How far before it.
pub fn early_of(event: &Event, clock: &Clock) -> Nano
    ensures { result ≡ early_of clock.now event.now }
{
    match event.bounds {
        None => clock.early,
        Some(own) => own.early,
    }
}

// How long an event may come behind the reading of its stamp.
fn latest(place: u32, event: &Event, clock: &Clock) -> Declaration
    ensures declares { (p : ProblemLists) → EventAt p place event.now → ClockAt p event.now.clock clock.now → Declares p (bounds.Late place) (constraint result) }
    ensures below { unsigned_abs result.weight < 2 ^ 93 }
{
    Declaration {
        from: Node::Reading(event.clock, event.stamp),
        to: Node::Event(place),
        weight: delay_units(late_of(event, clock)),
    }
}

// How long it may come before it.
fn earliest(place: u32, event: &Event, clock: &Clock) -> Declaration
    ensures declares { (p : ProblemLists) → EventAt p place event.now → ClockAt p event.now.clock clock.now → Declares p (bounds.Early place) (constraint result) }
    ensures below { unsigned_abs result.weight < 2 ^ 93 }
{
    Declaration {
        from: Node::Event(place),
        to: Node::Reading(event.clock, event.stamp),
        weight: delay_units(early_of(event, clock)),
    }
}

// The greatest delay of a message, so much greater.
fn slowest(message: &Message, most: Nano, added: Nano) -> Declaration
    requires { message.now.most ≡ Some most }
    ensures declares { (p : ProblemLists) (least : ℕ) → Contains p.messages (with_delays least added message.now) → Declares p (bounds.DelayMost message.now.send message.now.receive) (constraint result) }
    ensures below { unsigned_abs result.weight < 2 ^ 93 }
{
    Declaration {
        from: Node::Event(message.send),
        to: Node::Event(message.receive),
        weight: widened_units(most, added),
    }
}

// What is left of the least delay of a message.
fn quickest(message: &Message, least: Nano) -> Declaration
    ensures declares { (p : ProblemLists) (added : ℕ) → Contains p.messages (with_delays least added message.now) → Declares p (bounds.DelayLeast message.now.send message.now.receive) (constraint result) }
    ensures below { unsigned_abs result.weight < 2 ^ 93 }
{
    Declaration {
        from: Node::Event(message.receive),
        to: Node::Event(message.send),
        weight: -delay_units(least),
    }
}

// The event at a place, whose clock is one of the problem's.
fn event_at(p: &Problem, place: u32) -> &Event
    requires { place < length p.now.events }
    ensures event { EventAt p.now place result.now }
    ensures clock { result.now.clock < length p.now.clocks }
{
    &p.events()[place as usize]
}

// The event at a place of a problem that is widened.
fn event_in(p: &Problem, what: What, extra: Nano, place: u32) -> Event
    requires { place < length p.now.events }
    ensures event { EventAt (widened what p.now extra) place result }
    ensures clock { result.clock < length p.now.clocks }
{
    widened_event(what, extra, event_at(p, place))
}

// The place of the message from one event to another.
fn message_place(p: &Problem, send: u32, receive: u32) -> u32
    requires { HasMessageBetween p.now send receive }
    ensures { HasMessageAt p.now result send receive }
{
    match p.message_place(send, receive) {
        Some(place) => place,
        None => 0,
    }
}

// The message from one event to another.
fn message_between(p: &Problem, send: u32, receive: u32) -> &Message
    requires { HasMessageBetween p.now send receive }
    ensures message { Contains p.now.messages result.now }
    ensures send { result.now.send ≡ send }
    ensures receive { result.now.receive ≡ receive }
    ensures formed { IsWellFormed p.now }
{
    &p.messages()[message_place(p, send, receive) as usize]
}

// The greatest delay of the message from one event to another, which has one, in a problem that is widened.
fn slowest_between(p: &Problem, what: What, extra: Nano, send: u32, receive: u32) -> Declaration
    requires { (c : Constraint) × Declares p.now (bounds.DelayMost send receive) c }
    ensures declares { Declares (widened what p.now extra) (bounds.DelayMost send receive) (constraint result) }
    ensures below { unsigned_abs result.weight < 2 ^ 93 }
{
    let message = message_between(p, send, receive);
    match message.most {
        Some(most) => slowest(message, most, added_to(p, what, extra, message)),
        None => unreachable!(),
    }
}

// The least delay of the message from one event to another in a problem that is widened.
fn quickest_between(p: &Problem, what: What, extra: Nano, send: u32, receive: u32) -> Declaration
    requires { HasMessageBetween p.now send receive }
    ensures declares { Declares (widened what p.now extra) (bounds.DelayLeast send receive) (constraint result) }
    ensures below { unsigned_abs result.weight < 2 ^ 93 }
{
    let message = message_between(p, send, receive);
    quickest(message, least_left(p, what, extra, message))
}

// The gap in ns of the follow whose later clock this is.
fn gap_to(p: &Problem, later: u32) -> Nano
    requires { (f : Follow) × LeadsTo p.now f later }
    ensures { (f : Follow) → LeadsTo p.now f later → result ≡ f.gap }
{
    // It tells that the problem is lawful.
    let _ = p.follows();
    match p.follow_to(later) {
        Some(follow) => follow.gap,
        None => unreachable!(),
    }
}

// How long a reading of one clock comes at least before one of a clock that comes after it, by the gap of the follow
// whose later clock that is, in a problem that is widened.
fn following(
    p: &Problem,
    what: What,
    extra: Nano,
    earlier: u32,
    s: Nano,
    later: u32,
    t: Nano,
) -> Declaration
    requires { (c : Constraint) × Declares p.now (bounds.Follow earlier s later t) c }
    ensures declares { Declares (widened what p.now extra) (bounds.Follow earlier s later t) (constraint result) }
    ensures below { unsigned_abs result.weight < 2 ^ 93 }
{
    Declaration {
        from: Node::Reading(later, t),
        to: Node::Reading(earlier, s),
        weight: -delay_units(gap_left(what, extra, gap_to(p, later))),
    }
}

/// What `p` declares under the name of a bound, where it is widened by `extra` ns, or parts per billion of rates: its
/// ends, and its weight, which is below 2^93 in absolute value.
pub fn declared_in(p: &Problem, what: What, extra: Nano, bound: &Bound) -> Declaration
    requires { (c : Constraint) × Declares p.now bound.now c }
    ensures declares { Declares (widened what p.now extra) bound.now (constraint result) }
    ensures below { unsigned_abs result.weight < 2 ^ 93 }
{
    match *bound {
        Bound::SpanMost { clock, s, t } => longest(clock, &clock_in(p, what, extra, clock), s, t),
        Bound::SpanLeast { clock, s, t } => shortest(clock, &clock_in(p, what, extra, clock), s, t),
        Bound::Late(place) => {
            let event = event_in(p, what, extra, place);
            latest(place, &event, &clock_in(p, what, extra, event.clock))
        }
        Bound::Early(place) => {
            let event = event_in(p, what, extra, place);
            earliest(place, &event, &clock_in(p, what, extra, event.clock))
        }
        Bound::Follow {
            earlier,
            s,
            later,
            t,
        } => following(p, what, extra, earlier, s, later, t),
        Bound::DelayMost { send, receive } => slowest_between(p, what, extra, send, receive),
        Bound::DelayLeast { send, receive } => quickest_between(p, what, extra, send, receive),
    }
}
