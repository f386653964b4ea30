// What is brought in one after another.
ghost use Rattle.std.specs.Prelude.{◌≡◌, ◌+◌, ◌<◌, ◌-◌, ◌^◌, ℕ, List, length, slice_get, Some, Contains, OnOk, IfOk};
ghost use Rattle.problem_model.specs.Problem.{ProblemLists};
ghost use Rattle.problem_model.specs.Bounds.{IsReading};
ghost use Rattle.problem_model.specs.Nodes.{Reading, AreReadings};
ghost use Rattle.problem_solver.specs.Items.{AreItems, items_of};

use crate::event_ranks;
use atto::{Nano, Steps};
use problem::{NearestFollow, Problem};
use problem_model::{Event, Message};
use std::alloc::{AllocError, Global};
use std::sync::ledger::Ledger;

/// Bounds that are brought in together.
#[derive(Clone, Copy, PartialEq, Eq, PartialOrd, Ord)]
pub enum Item {
    /// Those over the span of the reading at this place and the next one, both of one clock.
    Span(u32),
    /// The one between the first reading of the clock at this place and the nearest reading before it in its chain.
    Follow(u32),
    /// Those on the stamp of the event at this place.
    Event(u32),
    /// Those on the delay of the message at this place.
    Message(u32),
}

/// An item behind its rank.
#[derive(Clone, Copy)]
pub struct Ranked {
    /// The greatest rank of its nodes.
    pub rank: u32,
    /// The item.
    pub item: Item,
}

// Readings come behind all events, until one of their events gives them its rank.
const LAST: u32 = u32::MAX;

/// The place of a reading.
pub fn place_of(p: &Problem, clock: u32, stamp: Nano) -> u32
    requires { IsReading p.now clock stamp }
    ensures { (readings : List Reading) → AreReadings p.now readings → slice_get readings result ≡ Some (clock, stamp) }
{
    p.reading_place(clock, stamp).unwrap()
}

/// The place of an event's reading.
pub fn reading_of(p: &Problem, event: &Event) -> u32
    requires { Contains p.now.events event.now }
    ensures { (readings : List Reading) → AreReadings p.now readings → slice_get readings result ≡ Some (event.now.clock, event.now.stamp) }
{
    p.reading_place(event.clock, event.stamp).unwrap()
}

// The rank of each reading: the least one among its events.
fn reading_ranks(
    alloc: Global,
    p: &Problem,
    readings: &[(u32, Nano)],
    ranks: &[u32],
) -> Result<Vec<u32>, AllocError>
    requires readings { AreReadings p.now readings.now }
    requires ranks { length ranks.now ≡ length p.now.events }
    ensures { IfOk result (λ found. length found.items ≡ length readings.now) }
{
    let mut found: Vec<u32> = Vec::new(alloc);
    found.resize(readings.len(), LAST)?;
    for (place, event) in p.events().iter().enumerate() {
        let reading = reading_of(p, event) as usize;
        found[reading] = found[reading].min(ranks[place]);
    }
    Ok(found)
}

// Appends the span of the reading at a place and the next one, if both are of one clock.
fn push_span(
    items: &mut Vec<Ranked>,
    readings: &[(u32, Nano)],
    ranks: &[u32],
    place: usize,
) -> Result<(), AllocError>
    requires inside { place + 1 < length readings.now }
    requires few { length readings.now < 2 ^ 32 }
    requires ranks { length ranks.now ≡ length readings.now }
    ensures { OnOk result ((p : ProblemLists) → AreItems p readings.now place 0 0 0 (items_of items.old.items) → AreItems p readings.now (place + 1) 0 0 0 (items_of items.new.items)) }
{
    if readings[place].0 != readings[place + 1].0 {
        return Ok(());
    }
    items.push(Ranked {
        rank: ranks[place].max(ranks[place + 1]),
        item: Item::Span(place as u32),
    })?;
    Ok(())
}

// Appends the spans of neighbouring readings.
fn push_spans(
    items: &mut Vec<Ranked>,
    p: &Problem,
    readings: &[(u32, Nano)],
    ranks: &[u32],
) -> Result<(), AllocError>
    requires readings { AreReadings p.now readings.now }
    requires none { AreItems p.now readings.now 0 0 0 0 (items_of items.old.items) }
    requires ranks { length ranks.now ≡ length readings.now }
    ensures { OnOk result (AreItems p.now readings.now (length readings.now - 1) 0 0 0 (items_of items.new.items)) }
{
    // It tells that the problem is lawful.
    let _ = p.events();
    let last = readings.len().saturating_sub(1);
    for place in 0..last {
        push_span(items, readings, ranks, place)?;
    }
    Ok(())
}

// The greater rank of the two readings of a follow that leads to a clock.
fn follow_rank(
    p: &Problem,
    readings: &[(u32, Nano)],
    ranks: &[u32],
    later: u32,
    f: &NearestFollow,
) -> u32
    requires readings { AreReadings p.now readings.now }
    requires earlier { IsReading p.now f.now.earlier f.now.s }
    requires later { IsReading p.now later f.now.t }
    requires ranks { length ranks.now ≡ length readings.now }
{
    let first = place_of(p, f.earlier, f.s) as usize;
    let second = place_of(p, later, f.t) as usize;
    ranks[first].max(ranks[second])
}

// Appends the follow that leads to the clock at a place, if there is one.
fn push_follow(
    items: &mut Vec<Ranked>,
    p: &Problem,
    readings: &[(u32, Nano)],
    ranks: &[u32],
    place: u32,
) -> Result<(), AllocError>
    requires readings { AreReadings p.now readings.now }
    requires inside { place < length p.now.clocks }
    requires ranks { length ranks.now ≡ length readings.now }
    ensures { OnOk result ((spans : ℕ) → AreItems p.now readings.now spans place 0 0 (items_of items.old.items) → AreItems p.now readings.now spans (place + 1) 0 0 (items_of items.new.items)) }
{
    match p.nearest_follow(place) {
        Some(f) => {
            items.push(Ranked {
                rank: follow_rank(p, readings, ranks, place, &f),
                item: Item::Follow(place),
            })?;
            Ok(())
        }
        None => Ok(()),
    }
}

// Appends the follows that lead to clocks.
fn push_follows(
    items: &mut Vec<Ranked>,
    p: &Problem,
    readings: &[(u32, Nano)],
    ranks: &[u32],
) -> Result<(), AllocError>
    requires readings { AreReadings p.now readings.now }
    requires items { AreItems p.now readings.now (length readings.now - 1) 0 0 0 (items_of items.old.items) }
    requires ranks { length ranks.now ≡ length readings.now }
    ensures { OnOk result (AreItems p.now readings.now (length readings.now - 1) (length p.now.clocks) 0 0 (items_of items.new.items)) }
{
    let clocks = p.clocks().len();
    for place in 0..clocks {
        push_follow(items, p, readings, ranks, place as u32)?;
    }
    Ok(())
}

// Appends the stamps of events.
fn push_events(
    items: &mut Vec<Ranked>,
    p: &Problem,
    readings: &[(u32, Nano)],
    ranks: &[u32],
) -> Result<(), AllocError>
    requires items { AreItems p.now readings.now (length readings.now - 1) (length p.now.clocks) 0 0 (items_of items.old.items) }
    requires ranks { length ranks.now ≡ length p.now.events }
    ensures { OnOk result (AreItems p.now readings.now (length readings.now - 1) (length p.now.clocks) (length p.now.events) 0 (items_of items.new.items)) }
{
    let events = p.events().len();
    for place in 0..events {
        items.push(Ranked {
            rank: ranks[place],
            item: Item::Event(place as u32),
        })?;
    }
    Ok(())
}

// The greater rank of the two ends of a message.
fn message_rank(ranks: &[u32], message: &Message) -> u32
    requires send { message.now.send < length ranks.now }
    requires receive { message.now.receive < length ranks.now }
{
    ranks[message.send as usize].max(ranks[message.receive as usize])
}

// Appends the delays of messages.
fn push_messages(
    items: &mut Vec<Ranked>,
    p: &Problem,
    readings: &[(u32, Nano)],
    ranks: &[u32],
) -> Result<(), AllocError>
    requires items { AreItems p.now readings.now (length readings.now - 1) (length p.now.clocks) (length p.now.events) 0 (items_of items.old.items) }
    requires ranks { length ranks.now ≡ length p.now.events }
    ensures { OnOk result (AreItems p.now readings.now (length readings.now - 1) (length p.now.clocks) (length p.now.events) (length p.now.messages) (items_of items.new.items)) }
{
    for (place, message) in p.messages().iter().enumerate() {
        items.push(Ranked {
            rank: message_rank(ranks, message),
            item: Item::Message(place as u32),
        })?;
    }
    Ok(())
}

// All items of a problem, each behind its rank.
fn ranked_items<L: Ledger>(
    alloc: Global,
    p: &Problem,
    readings: &[(u32, Nano)],
    steps: &mut Steps<L>,
) -> Result<Vec<Ranked>, AllocError>
    requires { AreReadings p.now readings.now }
    ensures { IfOk result (λ items. AreItems p.now readings.now (length readings.now - 1) (length p.now.clocks) (length p.now.events) (length p.now.messages) (items_of items.items)) }
{
    let ranks = event_ranks(alloc, p, steps)?;
    let of_readings = reading_ranks(alloc, p, readings, &ranks)?;
    let mut items = Vec::new(alloc);
    push_spans(&mut items, p, readings, &of_readings)?;
    push_follows(&mut items, p, readings, &of_readings)?;
    push_events(&mut items, p, readings, &ranks)?;
    push_messages(&mut items, p, readings, &ranks)?;
    Ok(items)
}

/// All items of a problem in the order in which their nodes come; of those that come with one node the spans first, then
/// the follows, then the stamp, then the messages.
pub fn ordered_items<L: Ledger>(
    alloc: Global,
    p: &Problem,
    readings: &[(u32, Nano)],
    steps: &mut Steps<L>,
) -> Result<Vec<Ranked>, AllocError>
    requires { AreReadings p.now readings.now }
    ensures { IfOk result (λ items. AreItems p.now readings.now (length readings.now - 1) (length p.now.clocks) (length p.now.events) (length p.now.messages) (items_of items.items)) }
{
    let mut items = ranked_items(alloc, p, readings, steps)?;
    items.sort_unstable_by_key(|ranked| (ranked.rank, ranked.item));
    Ok(items)
}
