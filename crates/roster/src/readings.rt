// The readings of one clock, in the order of their stamps, and how more come among them.
ghost use Rattle.std.specs.Prelude.{◌≡◌, ◌<◌, ◌≤◌, ◌+◌, ◌++◌, ◌∷◌, [], ℕ, List, length, take, slice_get, Some, All, IfSome, IfNone, IfOk, OnOk};
ghost use Rattle.roster.specs.Readings.{Stamped, Rise, HasStamp, IsLastUnder, IsFirstOver, IsFirstStamp, IsLastStamp, stamps_of, JoinsStamps, AreFresh, AreBefore, AreSorted};

use atto::Nano;
use std::alloc::{AllocError, Global};
use traces::Event;

/// The place of a stamp among readings, where one has it.
pub(crate) fn place_of(readings: &[(Nano, u32)], stamp: Nano) -> Option<usize>
    requires { Rise readings.now }
    ensures some { IfSome result (λ k. (node : ℕ) × (slice_get {X = Stamped} readings.now k ≡ Some (stamp, node))) }
    ensures none { IfNone result (HasStamp readings.now stamp → ⊥) }
{
    match readings.binary_search_by_key(&stamp, |reading| reading.0) {
        Ok(place) => Some(place),
        Err(_) => None,
    }
}

// The reading at a place.
fn reading_at(readings: &[(Nano, u32)], place: usize) -> (Nano, u32)
    requires { place < length readings.now }
    ensures { slice_get {X = Stamped} readings.now place ≡ Some result }
{
    readings[place]
}

// The stamp at a place.
fn stamp_at(readings: &[(Nano, u32)], place: usize) -> Option<Nano>
    ensures some { IfSome result (λ stamp. (node : ℕ) × (slice_get {X = Stamped} readings.now place ≡ Some (stamp, node))) }
    ensures none { IfNone result (length readings.now ≤ place) }
{
    if place >= readings.len() {
        return None;
    }
    Some(reading_at(readings, place).0)
}

/// The greatest stamp below one that is there; None where that is the least one.
pub(crate) fn stamp_below(readings: &[(Nano, u32)], stamp: Nano) -> Option<Nano>
    requires rise { Rise readings.now }
    requires there { HasStamp readings.now stamp }
    ensures { IsLastUnder readings.now stamp result }
{
    let place = place_of(readings, stamp).unwrap();
    if place == 0 {
        return None;
    }
    stamp_at(readings, place - 1)
}

/// The least stamp above one that is there; None where that is the greatest one.
pub(crate) fn stamp_above(readings: &[(Nano, u32)], stamp: Nano) -> Option<Nano>
    requires rise { Rise readings.now }
    requires there { HasStamp readings.now stamp }
    ensures { IsFirstOver readings.now stamp result }
{
    let place = place_of(readings, stamp).unwrap();
    stamp_at(readings, place + 1)
}

/// The least stamp; None where there is none.
pub(crate) fn first_stamp(readings: &[(Nano, u32)]) -> Option<Nano>
    requires { Rise readings.now }
    ensures { IsFirstStamp readings.now result }
{
    stamp_at(readings, 0)
}

/// The greatest stamp; None where there is none.
pub(crate) fn last_stamp(readings: &[(Nano, u32)]) -> Option<Nano>
    requires { Rise readings.now }
    ensures { IsLastStamp readings.now result }
{
    let count = readings.len();
    if count == 0 {
        return None;
    }
    stamp_at(readings, count - 1)
}

// Appends a reading of this stamp, unless one of the readings has it.
fn push_fresh(
    fresh: &mut Vec<(Nano, u32)>,
    readings: &[(Nano, u32)],
    stamp: Nano,
) -> Result<(), AllocError>
    requires { Rise readings.now }
    ensures { (stamps : List ℕ) → AreFresh readings.now stamps fresh.old.items → OnOk result (AreFresh readings.now (stamps ++ stamp ∷ []) fresh.new.items) }
{
    if place_of(readings, stamp).is_none() {
        fresh.push((stamp, 0))?;
    }
    Ok(())
}

// Readings of those stamps of events that none of the readings has, in any order.
fn fresh_readings(
    alloc: Global,
    readings: &[(Nano, u32)],
    events: &[Event],
) -> Result<Vec<(Nano, u32)>, AllocError>
    requires { Rise readings.now }
    ensures { IfOk result (λ fresh. AreFresh readings.now (stamps_of events.now) fresh.items) }
{
    let mut fresh = Vec::new(alloc);
    for event in events {
        push_fresh(&mut fresh, readings, event.stamp)?;
    }
    Ok(fresh)
}

// The lesser one of two stamps.
fn lesser(a: Nano, b: Nano) -> Nano
    ensures first { result ≤ a }
    ensures second { result ≤ b }
{
    if a < b { a } else { b }
}

// A stamp that none of these readings is below, and that is one of theirs; None where there is none.
fn least_of(fresh: &[(Nano, u32)]) -> Option<Nano>
    ensures some { IfSome result (λ least. All (λ (r : Stamped). least ≤ r.0) fresh.now) }
    ensures none { IfNone result (fresh.now ≡ []) }
{
    let first = fresh.first()?;
    let mut least = first.0;
    for reading in fresh {
        least = lesser(least, reading.0);
    }
    Some(least)
}

// How many readings are below a stamp.
fn below(readings: &[(Nano, u32)], stamp: Nano) -> usize
    requires { Rise readings.now }
    ensures bound { result ≤ length readings.now }
    ensures before { All (λ (r : Stamped). r.0 < stamp) (take result readings.now) }
{
    readings.partition_point(|reading| reading.0.get() < stamp.get())
}

// How many readings come before all fresh ones.
fn unmoved(readings: &[(Nano, u32)], fresh: &[(Nano, u32)]) -> usize
    requires { Rise readings.now }
    ensures bound { result ≤ length readings.now }
    ensures before { AreBefore (take result readings.now) fresh.now }
{
    match least_of(fresh) {
        Some(least) => below(readings, least),
        None => readings.len(),
    }
}

// The readings of both lists in their order, each once.
fn sorted(
    alloc: Global,
    first: &[(Nano, u32)],
    second: &[(Nano, u32)],
) -> Result<Vec<(Nano, u32)>, AllocError>
    ensures { IfOk result (λ all. AreSorted (first.now ++ second.now) all.items) }
{
    let mut all = Vec::new(alloc);
    all.extend_from_slice(first)?;
    all.extend_from_slice(second)?;
    all.sort_unstable();
    all.dedup();
    Ok(all)
}

/// How readings change: those from a place on become these.
#[derive(Drop)]
pub(crate) struct Change {
    pub(crate) from: usize,
    pub(crate) tail: Vec<(Nano, u32)>,
}

/// How readings change when those of events come among them; an error where memory runs out. The time goes by the events,
/// and by the readings that are not before all new ones.
pub(crate) fn change_of(
    alloc: Global,
    readings: &[(Nano, u32)],
    events: &[Event],
) -> Result<Change, AllocError>
    requires { Rise readings.now }
    ensures joins { IfOk result (λ c. JoinsStamps readings.now (stamps_of events.now) (take c.from readings.now ++ c.tail.items)) }
    ensures few { IfOk result (λ c. length c.tail.items ≤ length readings.now + length events.now) }
{
    let fresh = fresh_readings(alloc, readings, events)?;
    let from = unmoved(readings, &fresh);
    let tail = sorted(alloc, &readings[from..], &fresh)?;
    Ok(Change { from, tail })
}
