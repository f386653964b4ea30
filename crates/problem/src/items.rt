// The lists of a problem with the look-ups of their names.
ghost use Rattle.std.specs.Prelude.{◌≡◌, ◌≢◌, ◌↔◌, ◌<◌, ℕ, IsTrue, OnOk, OnErr, IfSome, IfNone, All, is_some, length};
ghost use Rattle.problem_model.specs.Problem.{IsProblem, EventFits, MessageFits, empty_problem};
ghost use Rattle.problem_model.specs.Bounds.{ComesAfter};
ghost use Rattle.problem_model.specs.ShortList.{follow_to};
ghost use Rattle.problem.specs.Line.{HasClock, HasEvent, HasMessageAt};
ghost use Rattle.problem_model.specs.ChainNumbers.{with_follow};
ghost use Rattle.problem.specs.Inside.{follow_of_earlier};
ghost use Rattle.problem.specs.Growing.{IsNewClock, IsNewFollow, IsNewEvent, IsNewPair, IsMessageOfNewPair, HasRoomForClock, HasRoomForEvent, HasRoomForMessage, Allows, with_clock, with_event, with_message};

use crate::chains::{Link, join};
use crate::errors::PushError;
use crate::names::{Names, Pairs};
use atto::Nano;
use problem_model::{Clock, Event, Follow, MOST_CLOCKS, MOST_EVENTS, MOST_MESSAGES, Message, Name};
use std::alloc::{AllocError, Global};
use std::marker::Model;

/// The lists of a problem, each with a look-up of its names, pairs or clocks.
#[derive(Drop)]
pub struct Items {
    clocks: Vec<Clock>,
    follows: Vec<Follow>,
    events: Vec<Event>,
    messages: Vec<Message>,
    clock_names: Names,
    event_names: Names,
    pairs: Pairs,
    links: Vec<Link>,
}

impl Model for Items {
    ghost use Rattle.problem_model.specs.Problem.{ProblemLists};
    ghost use Rattle.problem.specs.Inside.{AreProblemItems};

    ghost Value = { ProblemLists };

    ghost view = { λ i. record { clocks = i.clocks.items; follows = i.follows.items; events = i.events.items; messages = i.messages.items } };

    ghost invariant = { λ i. AreProblemItems (record { clocks = i.clocks.items; follows = i.follows.items; events = i.events.items; messages = i.messages.items }) i.clock_names i.event_names i.pairs i.links.items };
}

impl Items {
    /// No items. It takes no memory.
    pub fn new(alloc: Global) -> Items
        ensures { result ≡ empty_problem }
    {
        Items {
            clocks: Vec::new(alloc),
            follows: Vec::new(alloc),
            events: Vec::new(alloc),
            messages: Vec::new(alloc),
            clock_names: Names::new(alloc),
            event_names: Names::new(alloc),
            pairs: Pairs::new(alloc),
            links: Vec::new(alloc),
        }
    }

    /// The clocks by their places.
    pub fn clocks(&self) -> &[Clock]
        ensures value { result.now ≡ self.now.clocks }
        ensures lawful { IsProblem self.now }
    {
        &self.clocks
    }

    /// The follows in their order.
    pub fn follows(&self) -> &[Follow]
        ensures value { result.now ≡ self.now.follows }
        ensures lawful { IsProblem self.now }
    {
        &self.follows
    }

    /// The events by their places.
    pub fn events(&self) -> &[Event]
        ensures value { result.now ≡ self.now.events }
        ensures lawful { IsProblem self.now }
    {
        &self.events
    }

    /// The messages in their order.
    pub fn messages(&self) -> &[Message]
        ensures value { result.now ≡ self.now.messages }
        ensures lawful { IsProblem self.now }
    {
        &self.messages
    }

    /// The place of the clock of this name.
    pub fn clock_place(&self, name: &Name) -> Option<u32>
        ensures some { IfSome result (λ k. HasClock self.now k name.now) }
        ensures none { IfNone result ((k : ℕ) → HasClock self.now k name.now → ⊥) }
        ensures within { IfSome result (λ k. k < length self.now.clocks) }
        ensures lawful { IsProblem self.now }
    {
        let place = self.clock_names.place(name)?;
        Some(place as u32)
    }

    /// The place of the event of this name.
    pub fn event_place(&self, name: &Name) -> Option<u32>
        ensures some { IfSome result (λ k. HasEvent self.now k name.now) }
        ensures none { IfNone result ((k : ℕ) → HasEvent self.now k name.now → ⊥) }
        ensures within { IfSome result (λ k. k < length self.now.events) }
        ensures lawful { IsProblem self.now }
    {
        let place = self.event_names.place(name)?;
        Some(place as u32)
    }

    /// The place of the message from one event to another.
    pub fn message_place(&self, send: u32, receive: u32) -> Option<u32>
        ensures some { IfSome result (λ k. HasMessageAt self.now k send receive) }
        ensures none { IfNone result ((k : ℕ) → HasMessageAt self.now k send receive → ⊥) }
    {
        let place = self.pairs.place(send, receive)?;
        Some(place as u32)
    }

    fn is_new_clock(&self, c: &Clock) -> bool
        ensures { IsTrue result ↔ IsNewClock self.now c.now }
    {
        match self.clock_names.place(&c.name) {
            Some(_place) => false,
            None => c.name.is_short(),
        }
    }

    /// Whether this clock may be added.
    pub fn allows_clock(&self, c: &Clock) -> Result<(), PushError>
        ensures { Allows (IsNewClock self.now c.now) (HasRoomForClock self.now) result }
    {
        if !self.is_new_clock(c) {
            return Err(PushError::Name);
        }
        if self.clocks.len() >= MOST_CLOCKS {
            return Err(PushError::Limit);
        }
        Ok(())
    }

    /// Adds a clock, and leaves all as it was where memory runs out.
    pub fn add_clock(&mut self, c: Clock) -> Result<(), AllocError>
        requires new { IsNewClock self.old c }
        requires room { HasRoomForClock self.old }
        ensures ok { OnOk result (self.new ≡ with_clock self.old c) }
        ensures err { OnErr result (self.new ≡ self.old) }
    {
        self.clocks.reserve(1)?;
        self.links.reserve(1)?;
        self.clock_names.push(&c.name)?;
        let number = self.clocks.len() as u32;
        self.links.push_reserved(Link {
            before: None,
            after: None,
            number,
            size: 1,
        });
        self.clocks.push_reserved(c);
        Ok(())
    }

    /// The follow whose later clock this is.
    pub fn follow_to(&self, later: u32) -> Option<Follow>
        ensures value { result ≡ follow_to self.now.follows later }
        ensures lawful { IsProblem self.now }
    {
        match self.links.get(later as usize) {
            Some(link) => link.before,
            None => None,
        }
    }

    /// Whether one clock comes after another.
    pub fn comes_after(&self, earlier: u32, later: u32) -> bool
        requires earlier { earlier < length self.now.clocks }
        requires later { later < length self.now.clocks }
        ensures { IsTrue result ↔ ComesAfter self.now earlier later }
    {
        earlier < later && self.links[earlier as usize].number == self.links[later as usize].number
    }

    // The follow whose earlier clock this is.
    fn follow_from(&self, earlier: u32) -> Option<Follow>
        ensures { result ≡ follow_of_earlier self.now.follows earlier }
    {
        match self.links.get(earlier as usize) {
            Some(link) => link.after,
            None => None,
        }
    }

    fn are_clocks_in_order(&self, earlier: u32, later: u32) -> bool
        ensures { IsTrue result ↔ ((earlier < later) × (later < length self.now.clocks)) }
    {
        earlier < later && (later as usize) < self.clocks.len()
    }

    /// Whether a follow may lead from the one clock to the other, whatever its gap is.
    pub fn is_new_follow(&self, earlier: u32, later: u32) -> bool
        ensures test { (gap : ℕ) → IsTrue result ↔ IsNewFollow self.now (record { earlier = earlier; later = later; gap = gap }) }
        ensures lawful { IsProblem self.now }
    {
        match (self.follow_from(earlier), self.follow_to(later)) {
            (None, None) => self.are_clocks_in_order(earlier, later),
            _ => false,
        }
    }

    /// Whether this follow may be added. Only `Name` is against it: no clock is the later one of two follows, so there are
    /// fewer of them than clocks.
    pub fn allows_follow(&self, f: &Follow) -> Result<(), PushError>
        ensures { Allows (IsNewFollow self.now f.now) (Unit {0}) result }
    {
        if self.is_new_follow(f.earlier, f.later) {
            Ok(())
        } else {
            Err(PushError::Name)
        }
    }

    /// Adds a follow, and leaves all as it was where memory runs out.
    pub fn add_follow(&mut self, f: Follow) -> Result<(), AllocError>
        requires new { IsNewFollow self.old f }
        ensures ok { OnOk result (self.new ≡ with_follow self.old f) }
        ensures err { OnErr result (self.new ≡ self.old) }
    {
        self.follows.reserve(1)?;
        join(&mut self.links, &f);
        self.follows.push_reserved(f);
        Ok(())
    }

    // Whether this event has bounds of its own where the events there have, and none where they have none.
    fn is_alike(&self, e: &Event) -> bool
        ensures { IsTrue result ↔ All (λ x. is_some x.bounds ≡ is_some e.now.bounds) self.now.events }
    {
        match self.events().first() {
            Some(first) => first.bounds.is_some() == e.bounds.is_some(),
            None => true,
        }
    }

    // Whether its clock is known, and it is alike.
    fn has_place_for(&self, e: &Event) -> bool
        ensures { IsTrue result ↔ ((e.now.clock < length self.now.clocks) × All (λ x. is_some x.bounds ≡ is_some e.now.bounds) self.now.events) }
    {
        (e.clock as usize) < self.clocks.len() && self.is_alike(e)
    }

    fn is_new_event(&self, e: &Event) -> bool
        ensures { IsTrue result ↔ IsNewEvent self.now e.now }
    {
        match self.event_names.place(&e.name) {
            Some(_place) => false,
            None => self.has_place_for(e),
        }
    }

    /// Whether this event may be added.
    pub fn allows_event(&self, e: &Event) -> Result<(), PushError>
        ensures { Allows (IsNewEvent self.now e.now) (HasRoomForEvent self.now) result }
    {
        if !self.is_new_event(e) {
            return Err(PushError::Name);
        }
        if self.events.len() >= MOST_EVENTS {
            return Err(PushError::Limit);
        }
        Ok(())
    }

    /// Adds an event, and leaves all as it was where memory runs out.
    pub fn add_event(&mut self, e: Event) -> Result<(), AllocError>
        requires new { IsNewEvent self.old e }
        requires room { HasRoomForEvent self.old }
        ensures ok { OnOk result (self.new ≡ with_event self.old e) }
        ensures err { OnErr result (self.new ≡ self.old) }
    {
        event_fits(&e);
        self.events.reserve(1)?;
        self.event_names.push(&e.name)?;
        self.events.push_reserved(e);
        Ok(())
    }

    fn are_two_events(&self, send: u32, receive: u32) -> bool
        ensures { IsTrue result ↔ ((send < length self.now.events) × (receive < length self.now.events) × (send ≢ receive)) }
    {
        let count = self.events.len();
        (send as usize) < count && (receive as usize) < count && send != receive
    }

    /// Whether a message may go from the one event to the other.
    pub fn is_new_pair(&self, send: u32, receive: u32) -> bool
        ensures test { IsTrue result ↔ IsNewPair self.now send receive }
        ensures lawful { IsProblem self.now }
    {
        match self.pairs.place(send, receive) {
            Some(_place) => false,
            None => self.are_two_events(send, receive),
        }
    }

    /// Whether this message may be added.
    pub fn allows_message(&self, m: &Message) -> Result<(), PushError>
        ensures { Allows (IsMessageOfNewPair self.now m.now) (HasRoomForMessage self.now) result }
    {
        if !self.is_new_pair(m.send, m.receive) {
            return Err(PushError::Name);
        }
        if self.messages.len() >= MOST_MESSAGES {
            return Err(PushError::Limit);
        }
        Ok(())
    }

    /// Adds a message, and leaves all as it was where memory runs out.
    pub fn add_message(&mut self, m: &Message) -> Result<(), AllocError>
        requires new { IsMessageOfNewPair self.old m.now }
        requires room { HasRoomForMessage self.old }
        ensures ok { OnOk result (self.new ≡ with_message self.old m.now) }
        ensures err { OnErr result (self.new ≡ self.old) }
    {
        let most: Option<Nano> = m.most;
        delays_fit(m);
        self.messages.reserve(1)?;
        self.pairs.push(m.send, m.receive)?;
        self.messages.push_reserved(Message {
            send: m.send,
            receive: m.receive,
            least: m.least,
            most,
        });
        Ok(())
    }
}

// The stamp of an event and its own bounds are below 2 ^ 62 ns: a call that reads one tells it, so it reads all.
fn event_fits(e: &Event)
    ensures { EventFits e.now }
{
    let _ = e.stamp.get();
    if let Some(own) = &e.bounds {
        let _ = own.early.get();
        let _ = own.late.get();
    }
}

// The delays of a message are below 2 ^ 62 ns: a call that reads one tells it, so it reads both.
fn delays_fit(m: &Message)
    ensures { MessageFits m.now }
{
    let _ = m.least.get();
    if let Some(most) = &m.most {
        let _ = most.get();
    }
}
