// The ambiguous keys, with the names of their events.
ghost use Rattle.std.specs.Prelude.{◌≡◌, ◌<◌, ◌++◌, ◌∷◌, [], List, All, AllPairs, length, map, true, IfOk, OnOk};
ghost use Rattle.std.specs.List.Sorted.{IsPermutation};
ghost use Rattle.traces.specs.Seen.{Seen};
ghost use Rattle.msg_match.specs.Groups.{SeenItem, is_ambiguous};
ghost use Rattle.msg_match.specs.Held.{seen_group, seen_groups};
ghost use Rattle.msg_match.specs.Parts.{keys_in};
ghost use Rattle.traces.specs.declared.event_id.EventId as names;
ghost use Rattle.traces.specs.Pairs.{ComesBefore};
ghost use Rattle.traces.specs.Traces.{events_of};
ghost use Rattle.traces.specs.Windows.{grouped};
ghost use Rattle.msg_match.specs.Ends.{AreEndsBy, End, ends_among, name_as_came};
ghost use Rattle.msg_match.specs.Ambiguous.{EndGroup, ambiguous_ends};
ghost use Rattle.msg_match.specs.EndsInside.{AreNamesInOrder, AreRising, HasEventsOf, IsWithin, earlier, led_group, led_groups};
ghost use Rattle.report.specs.Inside.{ids_in, led, seen_ambiguous};

use msg_match::{Group, Matcher};
use roster::Roster;
use std::alloc::{AllocError, Global};
use traces::{EventId, Key};

/// An ambiguous key, with its events: it has sends and receives, and two of the ones or the others at least.
#[derive(Drop)]
pub(crate) struct Ambiguous<'a> {
    /// What the events are known by, and when their group begins where a window is declared.
    pub(crate) key: &'a Key,
    /// The events that send, by label and then by number.
    pub(crate) sends: Vec<EventId>,
    /// The events that receive, by label and then by number.
    pub(crate) receives: Vec<EventId>,
    // The first of all of them.
    first: EventId,
}

// The name of the event with this number.
fn id_at(roster: &Roster, number: u32) -> EventId
    requires { number < length roster.now.came }
    ensures { result ≡ name_as_came (ids_in roster.now) number }
{
    let came = roster.event(number);
    EventId {
        label: came.label,
        number: came.number,
    }
}

// The one of two events that comes first, by label and then by number.
fn earlier(a: EventId, b: EventId) -> EventId
    ensures { result ≡ earlier a b }
{
    if a.label < b.label || (a.label == b.label && a.number < b.number) {
        a
    } else {
        b
    }
}

// The names of the events with these numbers, by label and then by number; an error where memory runs out.
fn sorted_names(alloc: Global, roster: &Roster, numbers: &[u32]) -> Result<Vec<EventId>, AllocError>
    requires { All (λ number. number < length (ids_in roster.now)) numbers.now }
    ensures names { (in_order : List names.EventId) → AreNamesInOrder in_order → IsPermutation in_order (map (name_as_came (ids_in roster.now)) numbers.now) → IfOk result (λ sorted. sorted.items ≡ in_order) }
    ensures many { IfOk result (λ sorted. length sorted.items ≡ length numbers.now) }
{
    let mut sorted = Vec::with_capacity(alloc, numbers.len())?;
    for number in numbers {
        sorted.push(id_at(roster, *number))?;
    }
    sorted.sort_unstable_by_key(|id| (id.label, id.number));
    Ok(sorted)
}

// An ambiguous key with the names of its events; an error where memory runs out.
fn named_group<'a>(
    alloc: Global,
    roster: &Roster,
    group: &'a Group,
) -> Result<Ambiguous<'a>, AllocError>
    requires within { IsWithin (ids_in roster.now) (seen_group group.now) }
    requires ambiguous { is_ambiguous (seen_group group.now) ≡ true }
    ensures { (ends : List End) → AreRising ends → HasEventsOf (ids_in roster.now) ends (seen_group group.now) → IfOk result (λ key. led key ≡ led_group ends (seen_group group.now).key) }
{
    let sends = sorted_names(alloc, roster, &group.sends)?;
    let receives = sorted_names(alloc, roster, &group.receives)?;
    let first = earlier(sends[0], receives[0]);
    Ok(Ambiguous {
        key: &group.key,
        sends,
        receives,
        first,
    })
}

// Appends a key with the names of its events, if it is ambiguous; an error where memory runs out.
fn push_ambiguous<'a>(
    keys: &mut Vec<Ambiguous<'a>>,
    roster: &Roster,
    group: &'a Group,
) -> Result<(), AllocError>
    requires { IsWithin (ids_in roster.now) (seen_group group.now) }
    ensures { (ends : List End) → AreRising ends → HasEventsOf (ids_in roster.now) ends (seen_group group.now)
        → OnOk result (map led keys.new.items ≡ map led keys.old.items ++ led_groups ends ((seen_group group.now).key ∷ [])) }
{
    if group.is_ambiguous() {
        let key = named_group(*keys.allocator(), roster, group)?;
        keys.push(key)?;
    }
    Ok(())
}

// The ambiguous keys among these, each with the names of its events, in their order; an error where memory runs out.
fn ambiguous_keys<'a>(
    alloc: Global,
    roster: &Roster,
    groups: &'a [Group],
) -> Result<Vec<Ambiguous<'a>>, AllocError>
    requires { All (IsWithin (ids_in roster.now)) (seen_groups groups.now) }
    ensures { (ends : List End) → AreRising ends → All (HasEventsOf (ids_in roster.now) ends) (seen_groups groups.now)
        → IfOk result (λ keys. map led keys.items ≡ led_groups ends (keys_in (seen_groups groups.now))) }
{
    let mut keys = Vec::new(alloc);
    for group in groups {
        push_ambiguous(&mut keys, roster, group)?;
    }
    Ok(keys)
}

// Sorts keys by the first of their events. No two have the same.
fn sort_keys(keys: &mut [Ambiguous<'_>])
    ensures { (in_order : List (names.EventId × EndGroup)) → AllPairs (λ (a b : names.EventId × EndGroup). ComesBefore a.0 b.0) in_order → IsPermutation in_order (map led keys.old) → map led keys.new ≡ in_order }
{
    keys.sort_unstable_by_key(|key| (key.first.label, key.first.number));
}

/// The ambiguous keys, each with the names of its events, in the order of their first events by label and then by number; an
/// error where memory runs out.
///
/// The time goes by the keys, and by n log n for the n events of those that are ambiguous. Memory is taken for these
/// keys and the names of their events alone.
pub(crate) fn keys_in_order<'a>(
    alloc: Global,
    roster: &Roster,
    matcher: &'a Matcher,
) -> Result<Vec<Ambiguous<'a>>, AllocError>
    requires { All (λ (x : SeenItem). x.event < length (ids_in roster.now)) matcher.now }
    ensures { (seen : List (List Seen)) → AreEndsBy (ids_in roster.now) matcher.now seen → IfOk result (λ keys. map seen_ambiguous keys.items ≡ ambiguous_ends (ends_among (grouped (events_of seen)))) }
{
    let mut keys = ambiguous_keys(alloc, roster, matcher.all_groups())?;
    sort_keys(&mut keys);
    Ok(keys)
}
