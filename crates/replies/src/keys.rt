// What events are merged by.
ghost use Rattle.std.specs.Prelude.{◌≡◌, ◌<◌, ◌≤◌, true, length, IfOk};
ghost use Rattle.problem_model.specs.Executions.{at};
ghost use Rattle.problem_model.specs.Limits.{most_events};
ghost use Rattle.traces.specs.Held.{placed_in};
ghost use Rattle.replies.specs.Merged.{keys_from};
ghost use Rattle.replies.specs.Writing.{AreValued, listed_node, times_by};

use earliest::Earliest;
use problem::Listing;
use report::MergeKey;
use std::alloc::{AllocError, Global};
use traces::PlacedEvent;

/// The value of the event at a place, which is that of its node.
pub(crate) fn value_at<N: Listing>(names: &N, e: &Earliest, place: u32) -> i128
    requires solved { e.now.is_solved ≡ true }
    requires event { place < length (N.listed names.now).events }
    requires value { listed_node (N.listed names.now) place < length e.now.values }
    ensures { result ≡ at e.now.values (listed_node (N.listed names.now) place) }
{
    let (_, node) = names.event_at(place);
    e.value(node)
}

// What the event at this place is merged by.
fn key_of<N: Listing>(names: &N, e: &Earliest, place: u32, event: &PlacedEvent) -> MergeKey
    requires solved { e.now.is_solved ≡ true }
    requires event { place < length (N.listed names.now).events }
    requires value { listed_node (N.listed names.now) place < length e.now.values }
    ensures { result ≡ record { value = at e.now.values (listed_node (N.listed names.now) place); place = event.now.id.label; n = event.now.id.number } }
{
    MergeKey {
        value: value_at(names, e, place),
        place: event.id.label,
        n: event.id.number,
    }
}

/// What events are merged by, in their order, where these events are listed and their nodes have values; an error where
/// memory runs out.
pub(crate) fn keys_of<N: Listing>(
    alloc: Global,
    names: &N,
    events: &[PlacedEvent],
    e: &Earliest,
) -> Result<Vec<MergeKey>, AllocError>
    requires solved { e.now.is_solved ≡ true }
    requires valued { AreValued (N.listed names.now) (length events.now) e.now.values }
    requires few { length events.now ≤ most_events }
    ensures { IfOk result (λ keys. keys.items ≡ keys_from (times_by (N.listed names.now) e.now.values) 0 (placed_in events.now)) }
{
    let mut keys = Vec::with_capacity(alloc, events.len())?;
    for (place, event) in events.iter().enumerate() {
        keys.push(key_of(names, e, place as u32, event))?;
    }
    Ok(keys)
}
