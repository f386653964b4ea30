// Judges an execution by the bounds of a problem.
ghost use Rattle.std.specs.Prelude.{◌≡◌, ◌<◌, ◌+◌, ℕ, List, [], ◌∷◌, length, slice_get, Some, Contains, ◌-ℤ◌, ◌≤◌, ◌^◌, unsigned_abs};
ghost use Rattle.problem_model.specs.Problem.{IsWellFormed, ProblemLists};
ghost use Rattle.problem_model.specs.Bounds.{Constraint, Declares, Times, ClockAt, EventAt, IsReading};
ghost use Rattle.problem_model.specs.Nodes.{Reading, AreReadings, Lists};
ghost use Rattle.problem_model.specs.ShortList.{neighbour_bounds, span_bounds, event_bounds, clocks_before, first_reading, nearest_reading, follow_bound, follow_bounds, message_bounds, most_bound};
ghost use Rattle.std.specs.List.{flat_map};
ghost use Rattle.problem_model.specs.declared.items.Node.TheVariants as nodes;
ghost use Rattle.problem_model.specs.declared.items.Bound.TheVariants.{Late, Early};
ghost use Rattle.cert.specs.CertificateText.{HasOneEach};
ghost use Rattle.cert_check.specs.Reasons.{joining_bounds};
ghost use Rattle.cert_check.specs.Verdict.{Judges, IsVerdict, AreTimes};
ghost use Rattle.cert_check.specs.Sizes.{IsSmallVerdict};
ghost use Rattle.cert_check.specs.Widened.{with_delays, widened};

use crate::declared::{early_of, late_of, listed_bound, widened_units};
use crate::what::{Links, What, added_to, clock_in, gap_left, least_left, no_extra, widened_event};
use atto::{Nano, Units, delay_units, span_least, span_most};
use cert::Execution;
use problem::Problem;
use problem_model::{Bound, Clock, Event, Message};

/// Whether an execution obeys the bounds of a problem. Weight and difference are in units of 1e-9 ns.
#[derive(Clone, Copy, Debug, PartialEq, Eq)]
pub enum Verdict {
    /// Every declared bound is obeyed, between every two readings of a clock and of clocks that come after each other.
    Obeys,
    /// The first bound of the short list that is not obeyed, its weight, and what `x_to - x_from` is.
    Broken {
        bound: Bound,
        weight: i128,
        difference: i128,
    },
}

// The real time from one node to another, in units.
pub(crate) fn difference(from: Units, to: Units) -> i128
    ensures exact { result ≡ to -ℤ from }
    ensures below { unsigned_abs result ≤ 2 ^ 121 }
{
    to.get() - from.get()
}

// Judges one bound by the real times of its ends.
fn judge(bound: Bound, weight: i128, from: Units, to: Units) -> Verdict
    requires { unsigned_abs weight < 2 ^ 93 }
    ensures verdict { (p : ProblemLists) (x : Times) (a : Constraint) → IsWellFormed p → Declares p bound a → a.weight ≡ weight → x a.from ≡ from → x a.to ≡ to → Judges p x (bound ∷ []) result }
    ensures small { IsSmallVerdict result }
{
    let difference = difference(from, to);
    if difference <= weight {
        Verdict::Obeys
    } else {
        Verdict::Broken {
            bound,
            weight,
            difference,
        }
    }
}

// Judges the two bounds over the span of neighbouring readings of one clock.
fn judge_span(place: u32, clock: &Clock, s: Nano, t: Nano, from: Units, to: Units) -> Verdict
    requires { s < t }
    ensures verdict { (p : ProblemLists) (x : Times) → IsWellFormed p → ClockAt p place clock.now → IsReading p place s → IsReading p place t → x (nodes.Reading place s) ≡ from → x (nodes.Reading place t) ≡ to
        → Judges p x (neighbour_bounds (place, s) (place, t)) result }
    ensures small { IsSmallVerdict result }
{
    let most = Bound::SpanMost { clock: place, s, t };
    match judge(most, span_most(clock.rate, s, t), from, to) {
        Verdict::Obeys => {
            let least = Bound::SpanLeast { clock: place, s, t };
            judge(least, -span_least(clock.rate, s, t), to, from)
        }
        broken => broken,
    }
}

// Judges the two bounds on the stamp of an event.
fn judge_stamp(place: u32, event: &Event, clock: &Clock, reading: Units, time: Units) -> Verdict
    ensures verdict { (p : ProblemLists) (x : Times) → IsWellFormed p → EventAt p place event.now → ClockAt p event.now.clock clock.now → x (nodes.Reading event.now.clock event.now.stamp) ≡ reading → x (nodes.Event place) ≡ time
        → Judges p x (Late place ∷ Early place ∷ []) result }
    ensures small { IsSmallVerdict result }
{
    match judge(
        Bound::Late(place),
        delay_units(late_of(event, clock)),
        reading,
        time,
    ) {
        Verdict::Obeys => judge(
            Bound::Early(place),
            delay_units(early_of(event, clock)),
            time,
            reading,
        ),
        broken => broken,
    }
}

// Judges the bound on the greatest delay of a message, where there is one, so many ns greater.
fn judge_most(message: &Message, added: Nano, send: Units, receive: Units) -> Verdict
    ensures verdict { (p : ProblemLists) (x : Times) (least : ℕ) → IsWellFormed p → Contains p.messages (with_delays least added message.now) → x (nodes.Event message.now.send) ≡ send → x (nodes.Event message.now.receive) ≡ receive
        → Judges p x (most_bound message.now message.now.most) result }
    ensures small { IsSmallVerdict result }
{
    match message.most {
        Some(most) => {
            let bound = Bound::DelayMost {
                send: message.send,
                receive: message.receive,
            };
            judge(bound, widened_units(most, added), send, receive)
        }
        None => Verdict::Obeys,
    }
}

// Judges the bounds on the delay of a message that has this least delay, and its greatest one so many ns greater.
fn judge_message(
    message: &Message,
    least: Nano,
    added: Nano,
    send: Units,
    receive: Units,
) -> Verdict
    ensures verdict { (p : ProblemLists) (x : Times) → IsWellFormed p → Contains p.messages (with_delays least added message.now) → x (nodes.Event message.now.send) ≡ send → x (nodes.Event message.now.receive) ≡ receive
        → Judges p x (message_bounds message.now) result }
    ensures small { IsSmallVerdict result }
{
    match judge_most(message, added, send, receive) {
        Verdict::Obeys => {
            let bound = Bound::DelayLeast {
                send: message.send,
                receive: message.receive,
            };
            judge(bound, -delay_units(least), receive, send)
        }
        broken => broken,
    }
}

// The place of a reading among those of a problem.
fn place_of(p: &Problem, clock: u32, stamp: Nano) -> usize
    requires { IsReading p.now clock stamp }
    ensures { (readings : List Reading) → AreReadings p.now readings → slice_get readings result ≡ Some (clock, stamp) }
{
    match p.reading_place(clock, stamp) {
        Some(place) => place as usize,
        None => 0,
    }
}

// Judges the bounds over the span of two neighbouring readings, if they are of one clock, which is that of the first.
fn judge_neighbours(
    clock: &Clock,
    a: (u32, Nano),
    b: (u32, Nano),
    from: Units,
    to: Units,
) -> Verdict
    requires { a.0 ≡ b.0 → a.1 < b.1 }
    ensures verdict { (p : ProblemLists) (x : Times) → IsWellFormed p → ClockAt p a.0 clock.now → IsReading p a.0 a.1 → IsReading p b.0 b.1 → x (nodes.Reading a.0 a.1) ≡ from → x (nodes.Reading b.0 b.1) ≡ to
        → Judges p x (neighbour_bounds a b) result }
    ensures small { IsSmallVerdict result }
{
    if a.0 != b.0 {
        return Verdict::Obeys;
    }
    judge_span(a.0, clock, a.1, b.1, from, to)
}

// The real time of the reading at a place.
fn reading_time(p: &Problem, e: &Execution, place: usize) -> Units
    requires each { HasOneEach p.now e.now }
    requires within { (readings : List Reading) → AreReadings p.now readings → place < length readings }
    ensures { (x : Times) (readings : List Reading) (r : Reading) → AreTimes p.now x readings e.now → slice_get readings place ≡ Some r → x (nodes.Reading r.0 r.1) ≡ result }
{
    e.value(e.len() - (p.readings().len() - place) as u32)
}

// The real time of the event at a place.
pub(crate) fn event_time(p: &Problem, e: &Execution, place: u32) -> Units
    requires each { HasOneEach p.now e.now }
    requires within { place < length p.now.events }
    ensures { (x : Times) (readings : List Reading) → AreTimes p.now x readings e.now → x (nodes.Event place) ≡ result }
{
    e.value(place)
}

// Judges the bounds over the spans of neighbouring readings in a problem that is widened.
fn judge_spans(p: &Problem, what: What, extra: Nano, e: &Execution) -> Verdict
    requires { HasOneEach p.now e.now }
    ensures verdict { (x : Times) (readings : List Reading) → AreTimes p.now x readings e.now → Judges (widened what p.now extra) x (span_bounds readings) result }
    ensures small { IsSmallVerdict result }
{
    // It tells that the problem is lawful.
    let _ = p.clocks();
    let readings = p.readings();
    let last = readings.len().saturating_sub(1);
    for place in 0..last {
        let a = readings[place];
        let b = readings[place + 1];
        let clock = clock_in(p, what, extra, a.0);
        let from = reading_time(p, e, place);
        let to = reading_time(p, e, place + 1);
        match judge_neighbours(&clock, a, b, from, to) {
            Verdict::Obeys => {}
            broken => return broken,
        }
    }
    Verdict::Obeys
}

// Judges the bounds on the stamps of events in a problem that is widened.
fn judge_stamps(p: &Problem, what: What, extra: Nano, e: &Execution) -> Verdict
    requires { HasOneEach p.now e.now }
    ensures verdict { (x : Times) (readings : List Reading) → AreTimes p.now x readings e.now → Judges (widened what p.now extra) x (event_bounds 0 p.now.events) result }
    ensures small { IsSmallVerdict result }
{
    // It tells that the problem is lawful.
    let _ = p.clocks();
    for (place, event) in p.events().iter().enumerate() {
        let clock = clock_in(p, what, extra, event.clock);
        let reading = reading_time(p, e, place_of(p, event.clock, event.stamp));
        let time = event_time(p, e, place as u32);
        let wide = widened_event(what, extra, event);
        match judge_stamp(place as u32, &wide, &clock, reading, time) {
            Verdict::Obeys => {}
            broken => return broken,
        }
    }
    Verdict::Obeys
}

// Judges the bounds on the delays of messages in a problem that is widened.
fn judge_messages(p: &Problem, what: What, extra: Nano, e: &Execution) -> Verdict
    requires { HasOneEach p.now e.now }
    ensures verdict { (x : Times) (readings : List Reading) → AreTimes p.now x readings e.now → Judges (widened what p.now extra) x (flat_map message_bounds p.now.messages) result }
    ensures small { IsSmallVerdict result }
{
    for message in p.messages() {
        let least = least_left(p, what, extra, message);
        let added = added_to(p, what, extra, message);
        let send = event_time(p, e, message.send);
        let receive = event_time(p, e, message.receive);
        match judge_message(message, least, added, send, receive) {
            Verdict::Obeys => {}
            broken => return broken,
        }
    }
    Verdict::Obeys
}

// Judges the follow of the short list whose later clock this is, where there is one, in a problem that is widened.
fn judge_follow(p: &Problem, what: What, extra: Nano, e: &Execution, later: u32) -> Verdict
    requires each { HasOneEach p.now e.now }
    requires later { later < length p.now.clocks }
    ensures verdict { (x : Times) (readings : List Reading) → AreTimes p.now x readings e.now
        → Judges (widened what p.now extra) x (follow_bound (nearest_reading readings (clocks_before p.now.follows later later)) (first_reading readings later)) result }
    ensures small { IsSmallVerdict result }
{
    // It tells that the problem is lawful.
    let _ = p.clocks();
    match p.nearest_follow(later) {
        Some(follow) => {
            let from = reading_time(p, e, place_of(p, later, follow.t));
            let to = reading_time(p, e, place_of(p, follow.earlier, follow.s));
            let bound = listed_bound(later, &follow);
            let gap = gap_left(what, extra, follow.gap);
            judge(bound, -delay_units(gap), from, to)
        }
        None => Verdict::Obeys,
    }
}

// Judges the follows of the short list in a problem that is widened.
fn judge_follows(p: &Problem, what: What, extra: Nano, e: &Execution) -> Verdict
    requires { HasOneEach p.now e.now }
    ensures verdict { (x : Times) (readings : List Reading) → AreTimes p.now x readings e.now → Judges (widened what p.now extra) x (follow_bounds p.now.follows readings 0 p.now.clocks) result }
    ensures small { IsSmallVerdict result }
{
    for later in 0..p.clocks().len() as u32 {
        match judge_follow(p, what, extra, e, later) {
            Verdict::Obeys => {}
            broken => return broken,
        }
    }
    Verdict::Obeys
}

// Judges the bounds that join two clocks in a problem that is widened: the follows of the short list, then the messages.
fn judge_joining(p: &Problem, what: What, extra: Nano, e: &Execution) -> Verdict
    requires { HasOneEach p.now e.now }
    ensures verdict { (x : Times) (readings : List Reading) → AreTimes p.now x readings e.now → Judges (widened what p.now extra) x (joining_bounds p.now readings) result }
    ensures small { IsSmallVerdict result }
{
    match judge_follows(p, what, extra, e) {
        Verdict::Obeys => judge_messages(p, what, extra, e),
        broken => broken,
    }
}

/// Whether an execution of `p` obeys every bound that `p` declares where it is widened by `extra` ns, or parts per
/// billion of rates, between every two readings of a clock and of clocks that come after each other; else the first
/// bound of the short list that it breaks. Its weight, which is that of the widened problem, is below 2^93 in absolute
/// value, and the difference at most 2^121. It takes no memory.
pub fn obeys_widened(p: &Problem, what: What, extra: Nano, e: &Execution) -> Verdict
    requires { HasOneEach p.now e.now }
    ensures verdict { (x : Times) → Lists p.now x e.now → IsVerdict (widened what p.now extra) x result }
    ensures small { IsSmallVerdict result }
{
    // It tells that the problem is lawful.
    let _ = p.events();
    match judge_spans(p, what, extra, e) {
        Verdict::Obeys => match judge_stamps(p, what, extra, e) {
            Verdict::Obeys => judge_joining(p, what, extra, e),
            broken => broken,
        },
        broken => broken,
    }
}

/// Whether an execution of `p` obeys every bound that `p` declares, between every two readings of a clock and of clocks that
/// come after each other; else the first bound of the short list that it breaks. Its weight is then below 2^93 in absolute
/// value, and the difference at most 2^121. It takes no memory.
pub fn obeys(p: &Problem, e: &Execution) -> Verdict
    requires { HasOneEach p.now e.now }
    ensures verdict { (x : Times) → Lists p.now x e.now → IsVerdict p.now x result }
    ensures small { IsSmallVerdict result }
{
    obeys_widened(p, What::Delays(Links::All), no_extra(), e)
}
