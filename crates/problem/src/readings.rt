// The readings of a problem: the clocks and stamps of its events, without repeats.
ghost use Rattle.std.specs.Prelude.{◌≡◌, ◌<◌, map, AllPairs, Contains, slice_get, Some, IfSome, IfNone, IfOk};
ghost use Rattle.std.specs.Vec.{vec_len, vec_capacity};
ghost use Rattle.problem_model.specs.Nodes.{Reading, AreReadings, IsEarlierReading};
ghost use Rattle.problem_model.specs.ShortList.{first_reading, last_reading};
ghost use Rattle.problem.specs.Growing.{AddsReading, reading_of};

use crate::items::Items;
use atto::Nano;
use problem_model::Event;
use std::alloc::{AllocError, Global};

/// Puts a reading into its place, unless it stands there. There is room for it.
pub fn insert_reading(readings: &mut Vec<(u32, Nano)>, reading: (u32, Nano))
    requires room { vec_len readings.old < vec_capacity readings.old }
    requires rising { AllPairs IsEarlierReading readings.old.items }
    ensures rising { AllPairs IsEarlierReading readings.new.items }
    ensures adds { AddsReading readings.old.items readings.new.items reading }
{
    if let Err(place) = readings.as_slice().binary_search(&reading) {
        let _ = readings.insert(place, reading);
    }
}

// The readings of the events in their order.
fn stamps_of(alloc: Global, events: &[Event]) -> Result<Vec<(u32, Nano)>, AllocError>
    ensures { IfOk result (λ r. r.items ≡ map reading_of events.now) }
{
    let mut stamps = Vec::new(alloc);
    stamps.reserve(events.len())?;
    for event in events {
        stamps.push((event.clock, event.stamp))?;
    }
    Ok(stamps)
}

/// The readings of these lists, in their order.
pub fn readings_of(alloc: Global, items: &Items) -> Result<Vec<(u32, Nano)>, AllocError>
    ensures { IfOk result (λ r. AreReadings items.now r.items) }
{
    let mut readings = stamps_of(alloc, items.events())?;
    readings.sort_unstable();
    readings.dedup();
    Ok(readings)
}

/// The place of a reading among readings in their order, where it is there.
pub fn place_of(readings: &[(u32, Nano)], clock: u32, stamp: Nano) -> Option<usize>
    requires rising { AllPairs IsEarlierReading readings.now }
    ensures some { IfSome result (λ k. slice_get {X = Reading} readings.now k ≡ Some (clock, stamp)) }
    ensures none { IfNone result (Contains {X = Reading} readings.now (clock, stamp) → ⊥) }
{
    match readings.binary_search(&(clock, stamp)) {
        Ok(place) => Some(place),
        Err(_) => None,
    }
}

// The reading at a place, where there is one and the clock is its clock.
fn reading_at(readings: &[(u32, Nano)], place: usize, clock: u32) -> Option<(u32, Nano)>
    ensures some { IfSome result (λ r. (slice_get {X = Reading} readings.now place ≡ Some r) × (r.0 ≡ clock)) }
    ensures none { IfNone result ((r : Reading) → slice_get {X = Reading} readings.now place ≡ Some r → r.0 ≡ clock → ⊥) }
{
    match readings.get(place) {
        Some(reading) if reading.0 == clock => Some(*reading),
        _ => None,
    }
}

/// The first reading of a clock among readings in their order, where it has one.
pub fn first_of(readings: &[(u32, Nano)], clock: u32) -> Option<(u32, Nano)>
    requires { AllPairs IsEarlierReading readings.now }
    ensures { result ≡ first_reading readings.now clock }
{
    let start = readings.partition_point(|reading| reading.0 < clock);
    reading_at(readings, start, clock)
}

/// The last reading of a clock among readings in their order, where it has one.
pub fn last_of(readings: &[(u32, Nano)], clock: u32) -> Option<(u32, Nano)>
    requires { AllPairs IsEarlierReading readings.now }
    ensures { result ≡ last_reading readings.now clock }
{
    let end = readings.partition_point(|reading| reading.0 <= clock);
    let place = end.checked_sub(1)?;
    reading_at(readings, place, clock)
}
