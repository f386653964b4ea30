// The events of all labels, by the place of their label and then by number.
ghost use Rattle.std.specs.Prelude.{◌≡◌, ◌≤◌, ◌-◌, ◌^◌, ◌++◌, min, length, IfOk, OnOk};
ghost use Rattle.problem_model.specs.Limits.{most_events};
ghost use Rattle.traces.specs.Seen.{seen_events};
ghost use Rattle.traces.specs.Traces.{event_count, events_of, numbered};
ghost use Rattle.traces.specs.Held.{placed_in, seen_in};

use crate::{Accepted, Event, EventId, PlacedEvent};
use std::alloc::{AllocError, Global};

/// How many events were accepted. It is 2^64 - 1 where they are that many or more.
pub fn event_count(accepted: &[Accepted]) -> u64
    ensures { result ≡ min (event_count (seen_in accepted.now)) (2 ^ 64 - 1) }
{
    let mut count: u64 = 0;
    for under in accepted {
        count = count.saturating_add(under.events.len() as u64);
    }
    count
}

// Appends the events of a label, numbered from 1 on.
fn place_events<'a>(
    placed: &mut Vec<PlacedEvent<'a>>,
    label: u32,
    events: &'a [Event],
) -> Result<(), AllocError>
    requires { length events.now ≤ most_events }
    ensures { OnOk result (placed_in placed.new.items ≡ placed_in placed.old.items ++ numbered label 1 (seen_events events.now)) }
{
    for (place, event) in events.iter().enumerate() {
        let number = place as u32 + 1;
        let id = EventId { label, number };
        placed.push(PlacedEvent { id, event })?;
    }
    Ok(())
}

/// The events of all labels with their names, by the place of their label and then by number; an error where memory runs
/// out.
///
/// A label goes by its place, from 0 on. Events of a label are numbered from 1 on, in their order. There are at most
/// 65,536 labels, with at most 2^24 events together.
pub fn events(alloc: Global, accepted: &[Accepted]) -> Result<Vec<PlacedEvent<'_>>, AllocError>
    requires labels { length accepted.now ≤ 65536 }
    requires few { event_count (seen_in accepted.now) ≤ most_events }
    ensures { IfOk result (λ es. placed_in es.items ≡ events_of (seen_in accepted.now)) }
{
    let mut events = Vec::with_capacity(alloc, event_count(accepted) as usize)?;
    for (label, under) in accepted.iter().enumerate() {
        place_events(&mut events, label as u32, &under.events)?;
    }
    Ok(events)
}
