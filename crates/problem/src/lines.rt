// Lines that are taken one by one.
ghost use Rattle.std.specs.Prelude.{◌≡◌, ◌≢◌, ◌↔◌, [], ℕ, Option, true, false, IsTrue, OnOk};
ghost use Rattle.line_format.specs.Format.{Takes, TakesLine};
ghost use Rattle.problem_model.specs.Name.{IsClockName};
ghost use Rattle.problem.specs.Line.{IsInOrder, IsSaid, HasWhatItNeeds, MayFollow, AreBounded, are_own, problem_format};
ghost use Rattle.problem.specs.Line.Line.{ClockLine, FollowLine, EventLine, OwnLine, MessageLine};
ghost use Rattle.problem.specs.Written.{ClockIs, NanoIs, OwnIs, MostIs, RefusesDelays, RefusesGap, clock_body, follow_body, event_body, message_body};
ghost use Rattle.problem.specs.declared.version.Version.{Version};
ghost use Rattle.problem.specs.declared.version.Version.TheVariants.{Third};

use crate::items::Items;
use crate::ranges::{OwnStamp, clock_of, most_of, nano_of, own_of};
use crate::version::Version;
use crate::words::{clock_words, event_words, follow_words, message_words, own_words};
use atto::Nano;
use line_format::{FaultKind, LineError, Taken, cut};
use problem_model::{Clock, Event, Follow, Message, Name, StampBounds};

fn has_clocks_alone(items: &Items) -> bool
    ensures { IsTrue result ↔ ((items.now.follows ≡ []) × (items.now.events ≡ []) × (items.now.messages ≡ [])) }
{
    items.follows().is_empty() && items.events().is_empty() && items.messages().is_empty()
}

fn has_no_messages(items: &Items) -> bool
    ensures { IsTrue result ↔ (items.now.messages ≡ []) }
{
    items.messages().is_empty()
}

// Whether a follow may come next.
fn may_follow(version: Version, items: &Items) -> bool
    ensures { IsTrue result ↔ MayFollow version items.now }
{
    match version {
        Version::First => false,
        Version::Second => items.events().is_empty() && items.messages().is_empty(),
        Version::Third => items.events().is_empty() && items.messages().is_empty(),
    }
}

// Whether what the version asks for before its messages is there.
fn has_its_own(version: Version, items: &Items) -> bool
    ensures { IsTrue result ↔ HasWhatItNeeds version items.now }
{
    match version {
        Version::First => true,
        Version::Second => !items.follows().is_empty(),
        Version::Third => !items.events().is_empty(),
    }
}

// Whether the version's events have bounds of their own.
fn has_bounds(version: Version) -> bool
    ensures { result ≡ are_own version }
{
    match version {
        Version::First => false,
        Version::Second => false,
        Version::Third => true,
    }
}

// Adds the clock of a line, which is None where a number is out of its range.
fn take_clock(items: &mut Items, name: &Name, clock: Option<Clock>) -> Result<(), LineError>
    requires follows { items.old.follows ≡ [] }
    requires events { items.old.events ≡ [] }
    requires messages { items.old.messages ≡ [] }
    requires named { IsClockName name.now }
    ensures taken { (version : Version) (s : ℕ) (l : ℕ) (e : ℕ) (t : ℕ) → ClockIs clock name.now s l e t → TakesLine (problem_format version) items.old (ClockLine name.now s l e t) result items.new }
    ensures alone { OnOk result ((items.new.follows ≡ []) × (items.new.events ≡ []) × (items.new.messages ≡ [])) }
{
    let Some(clock) = clock else {
        return match items.clock_place(name) {
            Some(_place) => Err(LineError::Fault(FaultKind::Name)),
            None => Err(LineError::Fault(FaultKind::Range)),
        };
    };
    items.allows_clock(&clock)?;
    items.add_clock(clock)?;
    Ok(())
}

// A clock's line behind its first word.
fn clock_line(items: &mut Items, rest: &[u8]) -> Result<Taken, LineError>
    ensures taken { (version : Version) → Takes (problem_format version) items.old (clock_body rest.now) result items.new }
    ensures ordered { (version : Version) → OnOk result (IsInOrder version items.new) }
{
    if !has_clocks_alone(items) {
        return Err(LineError::Fault(FaultKind::Syntax));
    }
    let Some(w) = clock_words(rest) else {
        return Err(LineError::Fault(FaultKind::Syntax));
    };
    match take_clock(items, &w.name, clock_of(&w)) {
        Ok(()) => Ok(Taken::Line),
        Err(fault) => Err(fault),
    }
}

// Why a follow from the one clock to the other may not stand where its gap is out of its range.
fn gap_fault(items: &Items, earlier: u32, later: u32) -> LineError
    ensures { RefusesGap items.now earlier later result }
{
    if items.is_new_follow(earlier, later) {
        LineError::Fault(FaultKind::Range)
    } else {
        LineError::Fault(FaultKind::Name)
    }
}

// Adds the follow of a line, whose gap is None where it is out of its range.
fn take_follow(
    items: &mut Items,
    earlier: &Name,
    later: &Name,
    gap: Option<Nano>,
) -> Result<(), LineError>
    requires events { items.old.events ≡ [] }
    requires messages { items.old.messages ≡ [] }
    ensures taken { (version : Version) (g : ℕ) → NanoIs gap g → TakesLine (problem_format version) items.old (FollowLine earlier.now later.now g) result items.new }
    ensures followed { OnOk result (items.new.follows ≢ []) }
    ensures alone { OnOk result ((items.new.events ≡ []) × (items.new.messages ≡ [])) }
{
    let Some(c) = items.clock_place(earlier) else {
        return Err(LineError::Fault(FaultKind::Name));
    };
    let Some(d) = items.clock_place(later) else {
        return Err(LineError::Fault(FaultKind::Name));
    };
    let Some(gap) = gap else {
        return Err(gap_fault(items, c, d));
    };
    let follow = Follow {
        earlier: c,
        later: d,
        gap,
    };
    items.allows_follow(&follow)?;
    items.add_follow(follow)?;
    Ok(())
}

// A follow's line behind its first word.
fn follow_line(version: Version, items: &mut Items, rest: &[u8]) -> Result<Taken, LineError>
    ensures taken { Takes (problem_format version) items.old (follow_body rest.now) result items.new }
    ensures ordered { OnOk result (IsInOrder version items.new) }
{
    if !may_follow(version, items) {
        return Err(LineError::Fault(FaultKind::Syntax));
    }
    let Some(w) = follow_words(rest) else {
        return Err(LineError::Fault(FaultKind::Syntax));
    };
    match take_follow(items, &w.earlier, &w.later, nano_of(w.gap)) {
        Ok(()) => Ok(Taken::Line),
        Err(fault) => Err(fault),
    }
}

// Adds the event of a line, whose stamp is None where it is out of its range.
fn take_event(
    items: &mut Items,
    name: &Name,
    clock: &Name,
    stamp: Option<Nano>,
) -> Result<(), LineError>
    requires messages { items.old.messages ≡ [] }
    requires bounds { AreBounded false items.old.events }
    ensures taken { (version : Version) (t : ℕ) → NanoIs stamp t → TakesLine (problem_format version) items.old (EventLine name.now clock.now t) result items.new }
    ensures follows { OnOk result (items.new.follows ≡ items.old.follows) }
    ensures bounds { OnOk result (AreBounded false items.new.events) }
{
    let Some(place) = items.clock_place(clock) else {
        return Err(LineError::Fault(FaultKind::Name));
    };
    let Some(stamp) = stamp else {
        return match items.event_place(name) {
            Some(_place) => Err(LineError::Fault(FaultKind::Name)),
            None => Err(LineError::Fault(FaultKind::Range)),
        };
    };
    let bounds: Option<StampBounds> = None;
    let event = Event {
        name: *name,
        clock: place,
        stamp,
        bounds,
    };
    items.allows_event(&event)?;
    items.add_event(event)?;
    Ok(())
}

// Adds the event of a line with bounds of its own, which is None where a number is out of its range.
fn take_own(
    items: &mut Items,
    name: &Name,
    clock: &Name,
    own: Option<OwnStamp>,
) -> Result<(), LineError>
    requires messages { items.old.messages ≡ [] }
    requires bounds { AreBounded true items.old.events }
    ensures taken { (version : Version) (s : ℕ) (e : ℕ) (t : ℕ) → OwnIs own s e t → TakesLine (problem_format version) items.old (OwnLine name.now clock.now s e t) result items.new }
    ensures some { OnOk result (items.new.events ≢ []) }
    ensures bounds { OnOk result (AreBounded true items.new.events) }
{
    let Some(place) = items.clock_place(clock) else {
        return Err(LineError::Fault(FaultKind::Name));
    };
    let Some(own) = own else {
        return match items.event_place(name) {
            Some(_place) => Err(LineError::Fault(FaultKind::Name)),
            None => Err(LineError::Fault(FaultKind::Range)),
        };
    };
    let event = Event {
        name: *name,
        clock: place,
        stamp: own.stamp,
        bounds: Some(own.bounds),
    };
    items.allows_event(&event)?;
    items.add_event(event)?;
    Ok(())
}

// The line behind its first word of an event with bounds of its own.
fn own_line(items: &mut Items, rest: &[u8]) -> Result<Taken, LineError>
    requires { AreBounded true items.old.events }
    ensures taken { Takes (problem_format Third) items.old (event_body rest.now) result items.new }
    ensures ordered { OnOk result (IsInOrder Third items.new) }
{
    if !has_no_messages(items) {
        return Err(LineError::Fault(FaultKind::Syntax));
    }
    let Some(w) = own_words(rest) else {
        return Err(LineError::Fault(FaultKind::Syntax));
    };
    match take_own(items, &w.name, &w.clock, own_of(&w)) {
        Ok(()) => Ok(Taken::Line),
        Err(fault) => Err(fault),
    }
}

// The line behind its first word of an event without bounds of its own.
fn event_line(version: Version, items: &mut Items, rest: &[u8]) -> Result<Taken, LineError>
    requires plain { are_own version ≡ false }
    requires ordered { IsInOrder version items.old }
    ensures taken { Takes (problem_format version) items.old (event_body rest.now) result items.new }
    ensures ordered { OnOk result (IsInOrder version items.new) }
{
    if !has_its_own(version, items) || !has_no_messages(items) {
        return Err(LineError::Fault(FaultKind::Syntax));
    }
    let Some(w) = event_words(rest) else {
        return Err(LineError::Fault(FaultKind::Syntax));
    };
    match take_event(items, &w.name, &w.clock, nano_of(w.stamp)) {
        Ok(()) => Ok(Taken::Line),
        Err(fault) => Err(fault),
    }
}

// An event's line behind its first word.
fn any_event_line(version: Version, items: &mut Items, rest: &[u8]) -> Result<Taken, LineError>
    requires { IsInOrder version items.old }
    ensures taken { Takes (problem_format version) items.old (event_body rest.now) result items.new }
    ensures ordered { OnOk result (IsInOrder version items.new) }
{
    if has_bounds(version) {
        own_line(items, rest)
    } else {
        event_line(version, items, rest)
    }
}

// Why a message between these two events may not stand where a number is out of its range.
fn delay_fault(items: &Items, send: u32, receive: u32) -> LineError
    ensures { RefusesDelays items.now send receive result }
{
    if items.is_new_pair(send, receive) {
        LineError::Fault(FaultKind::Range)
    } else {
        LineError::Fault(FaultKind::Name)
    }
}

// Adds the message of a line, whose delays are None where they are out of their range.
fn take_message(
    items: &mut Items,
    send: &Name,
    receive: &Name,
    least: Option<Nano>,
    most: Option<Option<Nano>>,
) -> Result<(), LineError>
    ensures taken { (version : Version) (l : ℕ) (m : Option ℕ) → NanoIs least l → MostIs most m → TakesLine (problem_format version) items.old (MessageLine send.now receive.now l m) result items.new }
    ensures follows { OnOk result (items.new.follows ≡ items.old.follows) }
    ensures events { OnOk result (items.new.events ≡ items.old.events) }
{
    let Some(s) = items.event_place(send) else {
        return Err(LineError::Fault(FaultKind::Name));
    };
    let Some(r) = items.event_place(receive) else {
        return Err(LineError::Fault(FaultKind::Name));
    };
    let Some(least) = least else {
        return Err(delay_fault(items, s, r));
    };
    let Some(most) = most else {
        return Err(delay_fault(items, s, r));
    };
    let message = Message {
        send: s,
        receive: r,
        least,
        most,
    };
    items.allows_message(&message)?;
    items.add_message(&message)?;
    Ok(())
}

// A message's line behind its first word.
fn message_line(version: Version, items: &mut Items, rest: &[u8]) -> Result<Taken, LineError>
    ensures taken { Takes (problem_format version) items.old (message_body rest.now) result items.new }
    ensures ordered { IsInOrder version items.old → OnOk result (IsInOrder version items.new) }
{
    if !has_its_own(version, items) {
        return Err(LineError::Fault(FaultKind::Syntax));
    }
    let Some(w) = message_words(rest) else {
        return Err(LineError::Fault(FaultKind::Syntax));
    };
    match take_message(
        items,
        &w.send,
        &w.receive,
        nano_of(w.least),
        most_of(w.most),
    ) {
        Ok(()) => Ok(Taken::Line),
        Err(fault) => Err(fault),
    }
}

fn take_form(version: Version, items: &mut Items, body: &[u8]) -> Result<Taken, LineError>
    requires { IsInOrder version items.old }
    ensures taken { Takes (problem_format version) items.old body.now result items.new }
    ensures ordered { OnOk result (IsInOrder version items.new) }
{
    let Some((first, rest)) = cut(b' ', body) else {
        return if body == b"end".as_slice() && has_its_own(version, items) {
            Ok(Taken::End)
        } else {
            Err(LineError::Fault(FaultKind::Syntax))
        };
    };
    if first == b"clock".as_slice() {
        return clock_line(items, rest);
    }
    if first == b"follow".as_slice() {
        return follow_line(version, items, rest);
    }
    if first == b"event".as_slice() {
        return any_event_line(version, items, rest);
    }
    if first == b"message".as_slice() {
        return message_line(version, items, rest);
    }
    Err(LineError::Fault(FaultKind::Syntax))
}

/// Takes a line behind the head of this version, without its line feed: says whether it was the end, or why it was not
/// taken.
pub fn take(version: Version, items: &mut Items, body: &[u8]) -> Result<Taken, LineError>
    requires { IsInOrder version items.old }
    ensures taken { Takes (problem_format version) items.old body.now result items.new }
    ensures said { IsSaid version items.old → OnOk result (IsSaid version items.new) }
{
    let taken = take_form(version, items, body);
    // It tells that the items are lawful.
    let _ = items.clocks();
    taken
}
