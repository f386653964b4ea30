// How many events have no key.
ghost use Rattle.std.specs.Prelude.{◌≡◌, ◌≤◌, length};
ghost use Rattle.problem_model.specs.Limits.{most_events};
ghost use Rattle.traces.specs.Seen.{mark_of, seen_events};
ghost use Rattle.traces.specs.Traces.{event_count, events_of};
ghost use Rattle.traces.specs.Held.{seen_in};
ghost use Rattle.report.specs.Reports.{count_without, is_reason, has_no_key_for, nokeys_of};
ghost use Rattle.report.specs.Inside.{lacking};

use crate::NoKeys;
use traces::{Accepted, Event, Mark, NoKey};

// Whether it is the same reason.
fn is_reason(reason: NoKey, other: NoKey) -> bool
    ensures { result ≡ is_reason reason other }
{
    match reason {
        NoKey::Link => matches!(other, NoKey::Link),
        NoKey::Other => matches!(other, NoKey::Other),
        NoKey::Short => matches!(other, NoKey::Short),
        NoKey::Header => matches!(other, NoKey::Header),
        NoKey::Fragment => matches!(other, NoKey::Fragment),
        NoKey::Length => matches!(other, NoKey::Length),
        NoKey::Side => matches!(other, NoKey::Side),
        NoKey::Local => matches!(other, NoKey::Local),
        NoKey::Interface => matches!(other, NoKey::Interface),
    }
}

// Whether an event with this mark has no key, for this reason.
fn lacks_key(mark: &Mark, reason: NoKey) -> bool
    ensures { result ≡ has_no_key_for reason (mark_of mark.now) }
{
    match mark {
        Mark::Keyed { .. } => false,
        Mark::Unkeyed(other) => is_reason(reason, *other),
    }
}

// How many events of a label have no key for this reason.
fn count_under(events: &[Event], reason: NoKey) -> u32
    requires { length events.now ≤ most_events }
    ensures { result ≡ lacking reason (seen_events events.now) }
{
    let mut count: u32 = 0;
    for event in events {
        if lacks_key(&event.mark, reason) {
            count += 1;
        }
    }
    count
}

// How many events have no key for this reason.
fn count_without(accepted: &[Accepted], reason: NoKey) -> u32
    requires { event_count (seen_in accepted.now) ≤ most_events }
    ensures { result ≡ count_without (events_of (seen_in accepted.now)) reason }
{
    let mut count: u32 = 0;
    for under in accepted {
        count += count_under(&under.events, reason);
    }
    count
}

/// How many events have no key, by reason. Each reason is looked for among all events.
pub(crate) fn nokeys_of(accepted: &[Accepted]) -> NoKeys
    requires { event_count (seen_in accepted.now) ≤ most_events }
    ensures { result ≡ nokeys_of (events_of (seen_in accepted.now)) }
{
    NoKeys {
        link: count_without(accepted, NoKey::Link),
        other: count_without(accepted, NoKey::Other),
        short: count_without(accepted, NoKey::Short),
        header: count_without(accepted, NoKey::Header),
        fragment: count_without(accepted, NoKey::Fragment),
        length: count_without(accepted, NoKey::Length),
        side: count_without(accepted, NoKey::Side),
        local: count_without(accepted, NoKey::Local),
        interface: count_without(accepted, NoKey::Interface),
    }
}
