// The messages among events.
ghost use Rattle.std.specs.Prelude.{◌≡◌, ◌≤◌, length, IfOk, option_map, option_to_list};
ghost use Rattle.problem_model.specs.Limits.{most_events};
ghost use Rattle.traces.specs.declared.event.Side.TheVariants.{Send, Receive};
ghost use Rattle.traces.specs.Seen.{is_mark, is_same_message, is_same_moment, message_of, seen_moment};
ghost use Rattle.traces.specs.Traces.{event_count, events_of};
ghost use Rattle.traces.specs.Messages.{couples_of, messages_of, only_two, sent_by, with_mark};
ghost use Rattle.traces.specs.Held.{placed_in, seen_in};
ghost use Rattle.reference_traces.specs.Ends.{only_event};
ghost use Rattle.reference_traces.specs.Groups.{group_of, grouped_event, grouped_events};

use crate::groups::{GroupedEvent, grouped};
use std::alloc::{AllocError, Global};
use traces::{Accepted, Couple, EventId, Mark, MessageKey, Moment, PlacedEvent, Side, events};

// Whether two moments are one, or there is neither.
fn is_same_moment(a: Option<Moment>, b: Option<Moment>) -> bool
    ensures { result ≡ is_same_moment (option_map seen_moment a) (option_map seen_moment b) }
{
    match (a, b) {
        (None, None) => true,
        (Some(a), Some(b)) => a == b,
        _ => false,
    }
}

// Whether two messages are known by the same.
fn is_same_message(a: &MessageKey, b: &MessageKey) -> bool
    ensures { result ≡ is_same_message (message_of a.now) (message_of b.now) }
{
    a == b
}

// Whether an event is such an end of a message of this group.
fn is_end(event: &GroupedEvent, message: &MessageKey, moment: Option<Moment>, side: Side) -> bool
    ensures { result ≡ is_mark (group_of message.now moment) side (grouped_event event.now).seen.mark }
{
    match &event.placed.event.mark {
        Mark::Keyed {
            key,
            side: its_side,
        } => {
            is_same_message(&key.message, message)
                && is_same_moment(event.moment, moment)
                && *its_side == side
        }
        Mark::Unkeyed(_) => false,
    }
}

// The only one of these events that is such an end of a message of this group.
fn only_event(
    events: &[GroupedEvent],
    message: &MessageKey,
    moment: Option<Moment>,
    side: Side,
) -> Option<EventId>
    ensures { result ≡ only_event (with_mark (group_of message.now moment) side (grouped_events events.now)) }
{
    let mut found: Option<EventId> = None;
    for event in events {
        if is_end(event, message, moment, side) {
            if found.is_some() {
                return None;
            }
            found = Some(event.placed.id);
        }
    }
    found
}

// The message of this group, where it has one send and one receive.
fn couple_of(
    events: &[GroupedEvent],
    message: &MessageKey,
    moment: Option<Moment>,
) -> Option<Couple>
    ensures { option_to_list result ≡ only_two (with_mark (group_of message.now moment) Send (grouped_events events.now)) (with_mark (group_of message.now moment) Receive (grouped_events events.now)) }
{
    let send = only_event(events, message, moment, Side::Send)?;
    let receive = only_event(events, message, moment, Side::Receive)?;
    Some(Couple { send, receive })
}

// The message that an event sends.
fn sent_by(events: &[GroupedEvent], event: &GroupedEvent) -> Option<Couple>
    ensures { option_to_list result ≡ sent_by (grouped_events events.now) (grouped_event event.now).seen.mark }
{
    match &event.placed.event.mark {
        Mark::Keyed { key, side } => match side {
            Side::Send => couple_of(events, &key.message, event.moment),
            Side::Receive => None,
        },
        Mark::Unkeyed(_) => None,
    }
}

// The couples among events, in the order of their sends; an error where memory runs out.
fn couples(alloc: Global, events: &[GroupedEvent]) -> Result<Vec<Couple>, AllocError>
    ensures { IfOk result (λ couples. couples.items ≡ couples_of (grouped_events events.now)) }
{
    let mut couples = Vec::new(alloc);
    for event in events {
        if let Some(couple) = sent_by(events, event) {
            couples.push(couple)?;
        }
    }
    Ok(couples)
}

/// The messages among events, in the order of their sends; an error where memory runs out.
///
/// Two events are a message where one is the only send of a group among all events and the other the only receive of that
/// group. Without a window the events of a key are a group; with one those are that follow each other within the window.
/// Each event is looked for among all, so the time grows with the square of their number, and with its cube where many
/// events of one key happened at different times.
pub fn messages(alloc: Global, events: &[PlacedEvent]) -> Result<Vec<Couple>, AllocError>
    ensures { IfOk result (λ ms. ms.items ≡ messages_of (placed_in events.now)) }
{
    let groups = grouped(alloc, events)?;
    couples(alloc, &groups)
}

/// The messages among the events of all labels, in the order of their sends; an error where memory runs out.
///
/// There are at most 65,536 labels, with at most 2^24 events together.
pub fn messages_in(alloc: Global, accepted: &[Accepted]) -> Result<Vec<Couple>, AllocError>
    requires labels { length accepted.now ≤ 65536 }
    requires few { event_count (seen_in accepted.now) ≤ most_events }
    ensures { IfOk result (λ ms. ms.items ≡ messages_of (events_of (seen_in accepted.now))) }
{
    let events = events(alloc, accepted)?;
    messages(alloc, &events)
}
