// In which order events and messages come.
ghost use Rattle.std.specs.Prelude.{◌≡◌, ◌<◌, ◌≤◌, ◌+◌, ◌^◌, Some, All, length, slice_get, IfOk, OnOk};
ghost use Rattle.std.specs.List.{range_with_len};
ghost use Rattle.std.specs.List.Sorted.{IsPermutation};
ghost use Rattle.problem_model.specs.Limits.{most_events};
ghost use Rattle.roster.specs.Readings.{stamps_of};
ghost use Rattle.session_graph.specs.Plans.{turn_numbers, messages_in};

use problem_model::Message;
use roster::Roster;
use std::alloc::{AllocError, Global};
use traces::Event;

/// An event that comes, by its number, with its stamp in ns.
#[derive(Clone, Copy)]
pub struct Turn {
    pub stamp: u64,
    pub event: u32,
}

/// A message that comes, with the stamp and the number of that of its ends which enters last; zeros where both were there.
#[derive(Clone, Copy)]
pub struct Due {
    pub stamp: u64,
    pub event: u32,
    pub message: Message,
}

// The stamp of an event, in ns.
fn stamp_of(events: &[Event], k: usize) -> u64
    requires { k < length events.now }
    ensures is { slice_get (stamps_of events.now) k ≡ Some result }
    ensures fits { result < 2 ^ 62 }
{
    events[k].stamp.get()
}

// The turns of events that have the numbers from `first` on, as they stand.
fn turns_from(alloc: Global, events: &[Event], first: u32) -> Result<Vec<Turn>, AllocError>
    requires { first + length events.now ≤ most_events }
    ensures numbers { IfOk result (λ turns. turn_numbers turns.items ≡ range_with_len first (length events.now)) }
    ensures fits { OnOk result (All (λ stamp. stamp < 2 ^ 62) (stamps_of events.now)) }
{
    let mut turns = Vec::new(alloc);
    for k in 0..events.len() {
        let stamp = stamp_of(events, k);
        turns.push(Turn {
            stamp,
            event: first + k as u32,
        })?;
    }
    Ok(turns)
}

/// The turns of events that have the numbers from `first` on, in the order of their stamps.
pub(crate) fn turns_of(alloc: Global, events: &[Event], first: u32) -> Result<Vec<Turn>, AllocError>
    requires { first + length events.now ≤ most_events }
    ensures numbers { IfOk result (λ turns. IsPermutation (range_with_len first (length events.now)) (turn_numbers turns.items)) }
    ensures fits { OnOk result (All (λ stamp. stamp < 2 ^ 62) (stamps_of events.now)) }
{
    let mut turns = turns_from(alloc, events, first)?;
    turns.sort_unstable_by_key(|turn| (turn.stamp, turn.event));
    Ok(turns)
}

// The stamp and the number of an event that comes; zeros of one that was there.
fn turn_of(roster: &Roster, v: u32, first: u32) -> (u64, u32) {
    if v < first || v >= roster.len() {
        return (0, 0);
    }
    (roster.event(v).stamp.get(), v)
}

// A message that comes, with the turn of its later end.
fn due_of(roster: &Roster, message: &Message, first: u32) -> Due
    ensures { result.message ≡ message.now }
{
    let (sent, send) = turn_of(roster, message.send, first);
    let (received, receive) = turn_of(roster, message.receive, first);
    let is_sent_last = received < sent || (received == sent && receive < send);
    let (stamp, event) = if is_sent_last {
        (sent, send)
    } else {
        (received, receive)
    };
    Due {
        stamp,
        event,
        message: *message,
    }
}

// The messages that come, each with the turn of its later end, as they stand.
fn dues_from(
    alloc: Global,
    roster: &Roster,
    messages: &[Message],
    first: u32,
) -> Result<Vec<Due>, AllocError>
    ensures { IfOk result (λ dues. messages_in dues.items ≡ messages.now) }
{
    let mut dues = Vec::new(alloc);
    for k in 0..messages.len() {
        dues.push(due_of(roster, &messages[k], first))?;
    }
    Ok(dues)
}

// A message's rank from the one that joins last on.
fn rank_of(due: &Due) -> (u64, u32) {
    (
        u64::MAX.saturating_sub(due.stamp),
        u32::MAX.saturating_sub(due.event),
    )
}

/// The messages that come, from the one that joins last on: its later end enters last. Events from a number on come.
pub(crate) fn dues_of(
    alloc: Global,
    roster: &Roster,
    messages: &[Message],
    first: u32,
) -> Result<Vec<Due>, AllocError>
    ensures { IfOk result (λ dues. IsPermutation messages.now (messages_in dues.items)) }
{
    let mut dues = dues_from(alloc, roster, messages, first)?;
    dues.sort_unstable_by_key(|due| rank_of(due));
    Ok(dues)
}
