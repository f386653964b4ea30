// A problem: its lists and its readings.
ghost use Rattle.std.specs.Prelude.{◌≡◌, ◌↔◌, ◌<◌, ℕ, List, length, slice_get, Some, IfSome, IfNone, IsTrue, OnOk, OnErr, IfOk, IsErrOf};
ghost use Rattle.problem_model.specs.declared.items.Bound.TheVariants as bounds;
ghost use Rattle.problem_model.specs.ChainNumbers.{with_follow};
ghost use Rattle.problem_model.specs.ShortList.{follow_to, clocks_before, first_reading, nearest_reading, follow_bound};
ghost use Rattle.problem.specs.Nearest.{listed_follow, gap_between};
ghost use Rattle.problem_model.specs.Bounds.{IsReading, ComesAfter, Declares};
ghost use Rattle.problem_model.specs.Nodes.{Reading, AreReadings};
ghost use Rattle.problem_model.specs.Problem.{IsProblem, empty_problem};
ghost use Rattle.problem.specs.Line.{HasClock, HasEvent, HasMessageAt};
ghost use Rattle.problem.specs.Growing.{IsNewClock, IsNewFollow, IsNewEvent, IsMessageOfNewPair, HasRoomForClock, HasRoomForEvent, HasRoomForMessage, with_clock, with_event, with_message};

use crate::errors::PushError;
use crate::items::Items;
use crate::nearest::{NearestFollow, nearest_follow};
use crate::readings::{insert_reading, place_of, readings_of};
use atto::Nano;
use problem_model::{Clock, Event, Follow, Message, Name};
use std::alloc::{AllocError, Global};
use std::marker::Model;

/// Clocks, follows, events and messages that meet the rules of a problem, with the readings of the clocks.
#[derive(Drop)]
pub struct Problem {
    items: Items,
    readings: Vec<(u32, Nano)>,
}

impl Model for Problem {
    ghost use Rattle.problem_model.specs.Problem.{ProblemLists};
    ghost use Rattle.problem_model.specs.Nodes.{AreReadings};

    ghost Value = { ProblemLists };

    ghost view = { λ p. p.items };

    ghost invariant = { λ p. AreReadings p.items p.readings.items };
}

impl Problem {
    /// The problem that says nothing. It takes no memory.
    pub fn empty(alloc: Global) -> Problem
        ensures { result ≡ empty_problem }
    {
        Problem {
            items: Items::new(alloc),
            readings: Vec::new(alloc),
        }
    }

    // The problem of these lists.
    pub(crate) fn of_items(alloc: Global, items: Items) -> Result<Problem, AllocError>
        ensures { IfOk result (λ p. p ≡ items) }
    {
        let readings = readings_of(alloc, &items)?;
        Ok(Problem { items, readings })
    }

    /// The clocks; an event's clock is the place of its clock here, from 0 on.
    pub fn clocks(&self) -> &[Clock]
        ensures value { result.now ≡ self.now.clocks }
        ensures lawful { IsProblem self.now }
    {
        self.items.clocks()
    }

    /// The follows. The later clock of each comes after its earlier one, and after each that the earlier one comes after.
    pub fn follows(&self) -> &[Follow]
        ensures value { result.now ≡ self.now.follows }
        ensures lawful { IsProblem self.now }
    {
        self.items.follows()
    }

    /// The events; a message's send and receive are places here, from 0 on.
    pub fn events(&self) -> &[Event]
        ensures value { result.now ≡ self.now.events }
        ensures lawful { IsProblem self.now }
    {
        self.items.events()
    }

    /// The messages, at most one for each ordered pair of events.
    pub fn messages(&self) -> &[Message]
        ensures value { result.now ≡ self.now.messages }
        ensures lawful { IsProblem self.now }
    {
        self.items.messages()
    }

    /// The clocks' places with their stamps in ns, by clock and then by stamp, each pair once.
    pub fn readings(&self) -> &[(u32, Nano)]
        ensures { AreReadings self.now result.now }
    {
        &self.readings
    }

    /// The place of the clock of this name, where there is one. Look-ups take no memory.
    pub fn clock_place(&self, name: &Name) -> Option<u32>
        ensures some { IfSome result (λ k. HasClock self.now k name.now) }
        ensures none { IfNone result ((k : ℕ) → HasClock self.now k name.now → ⊥) }
    {
        self.items.clock_place(name)
    }

    /// The place of the event of this name, where there is one.
    pub fn event_place(&self, name: &Name) -> Option<u32>
        ensures some { IfSome result (λ k. HasEvent self.now k name.now) }
        ensures none { IfNone result ((k : ℕ) → HasEvent self.now k name.now → ⊥) }
    {
        self.items.event_place(name)
    }

    /// The place of the message from one event to another, where there is one.
    pub fn message_place(&self, send: u32, receive: u32) -> Option<u32>
        ensures some { IfSome result (λ k. HasMessageAt self.now k send receive) }
        ensures none { IfNone result ((k : ℕ) → HasMessageAt self.now k send receive → ⊥) }
    {
        self.items.message_place(send, receive)
    }

    /// The place of a reading among the readings, where the clock has the stamp.
    pub fn reading_place(&self, clock: u32, stamp: Nano) -> Option<u32>
        ensures some { IfSome result (λ k. (readings : List Reading) → AreReadings self.now readings → slice_get readings k ≡ Some (clock, stamp)) }
        ensures none { IfNone result (IsReading self.now clock stamp → ⊥) }
    {
        // It tells that the items are lawful.
        let _ = self.items.events();
        match place_of(&self.readings, clock, stamp) {
            Some(place) => Some(place as u32),
            None => None,
        }
    }

    /// Adds a clock. Answers `Name` where its name is no clock name or is that of another clock, else `Limit`
    /// where there are 65,536 clocks, else `Memory` where memory runs out. All stays as it was on each of them.
    pub fn push_clock(&mut self, c: Clock) -> Result<(), PushError>
        ensures ok { OnOk result (self.new ≡ with_clock self.old c) }
        ensures err { OnErr result (self.new ≡ self.old) }
        ensures name { IsErrOf result PushError.Name ↔ (IsNewClock self.old c → ⊥) }
        ensures limit { IsErrOf result PushError.Limit ↔ (IsNewClock self.old c × (HasRoomForClock self.old → ⊥)) }
    {
        self.items.allows_clock(&c)?;
        self.items.add_clock(c)?;
        Ok(())
    }

    /// The follow whose later clock this is, where there is one.
    pub fn follow_to(&self, later: u32) -> Option<Follow>
        ensures { result ≡ follow_to self.now.follows later }
    {
        self.items.follow_to(later)
    }

    /// Whether one clock comes after another: one or more follows lead there, each one's later clock being the earlier
    /// one of the next. Both places are those of clocks. It costs one comparison.
    pub fn comes_after(&self, earlier: u32, later: u32) -> bool
        requires earlier { earlier < length self.now.clocks }
        requires later { later < length self.now.clocks }
        ensures { IsTrue result ↔ ComesAfter self.now earlier later }
    {
        self.items.comes_after(earlier, later)
    }

    /// The bound that the nearest reading before a clock and the clock's first reading make, with the gap of the follow
    /// that leads to the clock, whose place is that of a clock; None where the clock has no reading, or no clock before
    /// it in its chain has one. It looks at the clocks from there to the nearest one that has a reading.
    pub fn nearest_follow(&self, later: u32) -> Option<NearestFollow>
        requires { later < length self.now.clocks }
        ensures bound { (readings : List Reading) → AreReadings self.now readings
            → follow_bound (nearest_reading readings (clocks_before self.now.follows later later)) (first_reading readings later) ≡ listed_follow later result }
        ensures declared { IfSome result (λ f. Declares self.now (bounds.Follow f.earlier f.s later f.t) (gap_between f.earlier f.s later f.t f.gap)) }
    {
        nearest_follow(&self.items, &self.readings, later)
    }

    /// Adds a follow. Answers `Name` where a clock's place is out of range, the earlier clock does not stand before the
    /// later, a follow has the same earlier clock, or one has the same later clock, else `Memory` where memory runs out. All
    /// stays as it was on each of them.
    pub fn push_follow(&mut self, f: Follow) -> Result<(), PushError>
        ensures ok { OnOk result (self.new ≡ with_follow self.old f) }
        ensures err { OnErr result (self.new ≡ self.old) }
        ensures name { IsErrOf result PushError.Name ↔ (IsNewFollow self.old f → ⊥) }
        ensures limit { IsErrOf result PushError.Limit → ⊥ }
    {
        self.items.allows_follow(&f)?;
        self.items.add_follow(f)?;
        Ok(())
    }

    /// Adds an event. Answers `Name` where its name is that of another event, its clock's place is out of range, or it
    /// has bounds of its own and another event has none or the other way round, else `Limit` where there are 2^24
    /// events, else `Memory` where memory runs out. All stays as it was on each.
    pub fn push_event(&mut self, e: Event) -> Result<(), PushError>
        ensures ok { OnOk result (self.new ≡ with_event self.old e) }
        ensures err { OnErr result (self.new ≡ self.old) }
        ensures name { IsErrOf result PushError.Name ↔ (IsNewEvent self.old e → ⊥) }
        ensures limit { IsErrOf result PushError.Limit ↔ (IsNewEvent self.old e × (HasRoomForEvent self.old → ⊥)) }
    {
        self.items.allows_event(&e)?;
        self.readings.reserve(1)?;
        let reading = (e.clock, e.stamp);
        self.items.add_event(e)?;
        insert_reading(&mut self.readings, reading);
        Ok(())
    }

    /// Adds a message. Answers `Name` where a place is out of range, where both are one, or where a message of this
    /// send and this receive is there, else `Limit` where there are 2^24 messages, else `Memory` where memory runs
    /// out. All stays as it was on each of them.
    pub fn push_message(&mut self, m: Message) -> Result<(), PushError>
        ensures ok { OnOk result (self.new ≡ with_message self.old m) }
        ensures err { OnErr result (self.new ≡ self.old) }
        ensures name { IsErrOf result PushError.Name ↔ (IsMessageOfNewPair self.old m → ⊥) }
        ensures limit { IsErrOf result PushError.Limit ↔ (IsMessageOfNewPair self.old m × (HasRoomForMessage self.old → ⊥)) }
    {
        self.items.allows_message(&m)?;
        self.items.add_message(&m)?;
        Ok(())
    }
}
