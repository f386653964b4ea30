// Events by their groups.
ghost use Rattle.std.specs.Prelude.{◌≡◌, IfOk, flat_map, option_map, option_to_list};
ghost use Rattle.traces.specs.Seen.{key_of, mark_of, seen_moment};
ghost use Rattle.traces.specs.Beginnings.{beginning, begins, begins_by, lies_just_before};
ghost use Rattle.traces.specs.Windows.{by_group, group_key, group_mark, grouped, is_alike, is_same_window, key_in, keys_among, time_with, times_of};
ghost use Rattle.traces.specs.Held.{placed_in, placed_of};
ghost use Rattle.reference_traces.specs.Groups.{grouped_event, grouped_events, later, mark_at};

use std::alloc::{AllocError, Global};
use traces::{Key, Mark, Moment, PlacedEvent};

/// An event, and the moment at which its group begins; without a moment where the event has no key, or no window is
/// declared.
#[derive(Clone, Copy)]
pub(crate) struct GroupedEvent<'a> {
    /// The event.
    pub(crate) placed: PlacedEvent<'a>,
    /// When its group begins.
    pub(crate) moment: Option<Moment>,
}

// Whether a time lies before another one, and not further than the window.
fn lies_just_before(window: u64, before: i64, time: i64) -> bool
    ensures { result ≡ lies_just_before window before time }
{
    before < time && i128::from(time) - i128::from(before) <= i128::from(window)
}

// Whether none of these times lies just before a time.
fn begins(window: u64, times: &[i64], time: i64) -> bool
    ensures { result ≡ begins window times.now time }
{
    for before in times {
        if lies_just_before(window, *before, time) {
            return false;
        }
    }
    true
}

// The later one of a time and another one that may be there.
fn later(found: Option<i64>, time: i64) -> i64
    ensures { result ≡ later found time }
{
    match found {
        Some(other) if time <= other => other,
        _ => time,
    }
}

// Whether a time begins a group and is not after another one.
fn begins_by(window: u64, times: &[i64], time: i64, other: i64) -> bool
    ensures { result ≡ begins_by window times.now time other }
{
    other <= time && begins(window, times, other)
}

// When the group of a time begins: at the latest of these times that begins one and is not after it.
fn beginning(window: u64, times: &[i64], time: i64) -> i64
    ensures { result ≡ beginning window times.now time }
{
    let mut found: Option<i64> = None;
    for other in times {
        if begins_by(window, times, time, *other) {
            found = Some(later(found, *other));
        }
    }
    match found {
        Some(latest) => latest,
        None => time,
    }
}

// Whether two windows are one, or there is neither.
fn is_same_window(a: Option<Moment>, b: Option<Moment>) -> bool
    ensures { result ≡ is_same_window (option_map seen_moment a) (option_map seen_moment b) }
{
    match (a, b) {
        (None, None) => true,
        (Some(a), Some(b)) => a.window == b.window,
        _ => false,
    }
}

// Whether two keys are of one message and of one window.
fn is_alike(a: &Key, b: &Key) -> bool
    ensures { result ≡ is_alike (key_of a.now) (key_of b.now) }
{
    a.message == b.message && is_same_window(a.moment, b.moment)
}

// When the event of the other key happened, if that key is like this one and a window is declared.
fn time_with(key: &Key, other: &Key) -> Option<i64>
    ensures { option_to_list result ≡ time_with (key_of key.now) (key_of other.now) }
{
    if !is_alike(key, other) {
        return None;
    }
    match other.moment {
        Some(moment) => Some(moment.time),
        None => None,
    }
}

// The same of an event of this mark.
fn time_by_mark(key: &Key, mark: &Mark) -> Option<i64>
    ensures { option_to_list result ≡ flat_map (time_with (key_of key.now)) (key_in (mark_of mark.now)) }
{
    match mark {
        Mark::Keyed { key: other, .. } => time_with(key, other),
        Mark::Unkeyed(_) => None,
    }
}

// When the events happened whose keys are like this one; an error where memory runs out.
fn times_of(alloc: Global, events: &[PlacedEvent], key: &Key) -> Result<Vec<i64>, AllocError>
    ensures { IfOk result (λ times. times.items ≡ times_of (keys_among (placed_in events.now)) (key_of key.now)) }
{
    let mut times = Vec::new(alloc);
    for event in events {
        if let Some(time) = time_by_mark(key, &event.event.mark) {
            times.push(time)?;
        }
    }
    Ok(times)
}

// The moment at which the group of a key begins, among events; an error where memory runs out.
fn group_moment(
    alloc: Global,
    events: &[PlacedEvent],
    key: &Key,
) -> Result<Option<Moment>, AllocError>
    ensures { IfOk result (λ moment. option_map seen_moment moment ≡ (group_key (keys_among (placed_in events.now)) (key_of key.now)).moment) }
{
    let Some(moment) = key.moment else {
        return Ok(None);
    };
    let times = times_of(alloc, events, key)?;
    Ok(Some(Moment {
        time: beginning(moment.window, &times, moment.time),
        window: moment.window,
    }))
}

// The moment at which the group of a mark begins, among events; an error where memory runs out.
fn moment_by_mark(
    alloc: Global,
    events: &[PlacedEvent],
    mark: &Mark,
) -> Result<Option<Moment>, AllocError>
    ensures { IfOk result (λ moment. mark_at (option_map seen_moment moment) (mark_of mark.now) ≡ group_mark (keys_among (placed_in events.now)) (mark_of mark.now)) }
{
    match mark {
        Mark::Keyed { key, .. } => group_moment(alloc, events, key),
        Mark::Unkeyed(_) => Ok(None),
    }
}

// An event by its group among events; an error where memory runs out.
fn by_group<'a>(
    alloc: Global,
    events: &[PlacedEvent],
    placed: &PlacedEvent<'a>,
) -> Result<GroupedEvent<'a>, AllocError>
    ensures { IfOk result (λ g. grouped_event g ≡ by_group (keys_among (placed_in events.now)) (placed_of placed.now)) }
{
    let moment = moment_by_mark(alloc, events, &placed.event.mark)?;
    Ok(GroupedEvent {
        placed: *placed,
        moment,
    })
}

/// Events by their groups, in their order; an error where memory runs out.
pub(crate) fn grouped<'a>(
    alloc: Global,
    events: &[PlacedEvent<'a>],
) -> Result<Vec<GroupedEvent<'a>>, AllocError>
    ensures { IfOk result (λ groups. grouped_events groups.items ≡ grouped (placed_in events.now)) }
{
    let mut groups = Vec::with_capacity(alloc, events.len())?;
    for placed in events {
        groups.push(by_group(alloc, events, placed)?)?;
    }
    Ok(groups)
}
