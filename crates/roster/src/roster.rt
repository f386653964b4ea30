// The events and readings of a session.
ghost use Rattle.std.specs.Prelude.{◌≡◌, ℕ, ◌<◌, ◌≤◌, ◌+◌, [], length, replicate, slice_get, slice_set, Some, Contains, OnOk, OnErr, IfOk, IfSome, IfNone};
ghost use Rattle.problem_model.specs.Limits.{most_events};
ghost use Rattle.decl.specs.Declaration.{IsDeclaration, declaration_of};
ghost use Rattle.roster.specs.Readings.{Stamped, HasStamp, IsLastUnder, IsFirstOver, IsFirstStamp, IsLastStamp, stamps_of};
ghost use Rattle.roster.specs.Groups.{group_at};
ghost use Rattle.roster.specs.Roster.{IsRoster, IsNumberUnder, Finds, IsGrown, SetsReading, event_at};

use crate::arrivals::{append_came, numbers_from, put_both};
use crate::came::{Came, Partner};
use crate::event_names::{event_numbered, find_event};
use crate::groups::Groups;
use crate::readings::{change_of, first_stamp, last_stamp, place_of, stamp_above, stamp_below};
use atto::Nano;
use decl::Decl;
use std::alloc::{AllocError, Global};
use std::marker::Model;
use traces::{Event, EventId};

/// The events of a session by their numbers, by label and by name, and the readings of its clocks. It keeps its declaration.
///
/// An event's number counts all events as they came. Under its label an event has another number, by which it is named: the
/// label's name, `#`, and that number. No table of names is kept.
#[derive(Drop)]
pub struct Roster {
    pub(crate) decl: Decl,
    pub(crate) came: Vec<Came>,
    // Of each label, the numbers of its events in their order.
    pub(crate) under: Groups<u32>,
    // Of each clock, its stamps with the nodes of their readings.
    pub(crate) readings: Groups<(Nano, u32)>,
}

impl Model for Roster {
    ghost use Rattle.decl.specs.Declaration.{declaration_of};
    ghost use Rattle.roster.specs.Roster.{RosterLists, IsRoster};

    ghost Value = { RosterLists };

    ghost view = { λ r. record { declaration = declaration_of r.decl; came = r.came.items; under = r.under; readings = r.readings } };

    ghost invariant = { λ r. IsRoster (record { declaration = declaration_of r.decl; came = r.came.items; under = r.under; readings = r.readings }) };
}

impl Roster {
    /// No events yet; an error where memory runs out, which drops the declaration.
    pub fn new(alloc: Global, decl: Decl) -> Result<Roster, AllocError>
        requires { IsDeclaration (declaration_of decl) }
        ensures { IfOk result (λ r. r ≡ record { declaration = declaration_of decl; came = []; under = replicate (length decl.labels.items) []; readings = replicate (length decl.clocks.items) [] }) }
    {
        let under = Groups::new(alloc, decl.labels.len())?;
        let readings = Groups::new(alloc, decl.clocks.len())?;
        Ok(Roster {
            decl,
            came: Vec::new(alloc),
            under,
            readings,
        })
    }

    /// The declaration.
    pub fn decl(&self) -> &Decl
        ensures same { declaration_of result.now ≡ self.now.declaration }
        ensures lawful { IsRoster self.now }
    {
        &self.decl
    }

    /// Adds events of the label at a place, behind those that it has, and answers the number of the first: the others have
    /// those behind it. Stamps that their clock has not shown become readings. Nodes are 0 until they are told. Where memory
    /// runs out there is an error, and all is as before.
    pub fn push(&mut self, label: u32, events: &[Event]) -> Result<u32, AllocError>
        requires label { label < length self.old.declaration.labels }
        requires few { length self.old.came + length events.now ≤ most_events }
        ensures first { IfOk result (λ first. first ≡ length self.old.came) }
        ensures grown { OnOk result (IsGrown self.old self.new label (stamps_of events.now)) }
        ensures err { OnErr result (self.new ≡ self.old) }
    {
        let alloc = *self.came.allocator();
        let clock = self.decl.labels[label as usize].clock;
        let first = self.came.len() as u32;
        let before = self.under.group(label).len();
        let change = change_of(alloc, self.readings.group(clock), events)?;
        let numbers = numbers_from(alloc, first, events.len())?;
        self.came.reserve(events.len())?;
        put_both(
            &mut self.under,
            &mut self.readings,
            label,
            &numbers,
            clock,
            &change,
        )?;
        append_came(&mut self.came, label, before as u32 + 1, events);
        Ok(first)
    }

    /// How many events came: at most 2^24.
    pub fn len(&self) -> u32
        ensures count { result ≡ length self.now.came }
        ensures few { result ≤ most_events }
    {
        self.came.len() as u32
    }

    /// The event with this number.
    pub fn event(&self, v: u32) -> Came
        requires { v < length self.now.came }
        ensures { slice_get self.now.came v ≡ Some result }
    {
        self.came[v as usize]
    }

    /// The number of the event that a label numbers so.
    pub fn number_of(&self, id: EventId) -> u32
        requires { (v : ℕ) × IsNumberUnder self.now.under id v }
        ensures { IsNumberUnder self.now.under id result }
    {
        event_numbered(self.under.group(id.label), id.number)
    }

    /// The number of the event of this name; None exactly where no event has it.
    pub fn find(&self, name: &[u8]) -> Option<u32>
        ensures { Finds self.now name.now result }
    {
        find_event(&self.decl, &self.under, name)
    }

    /// Tells the node of an event.
    pub fn set_node(&mut self, v: u32, node: u32)
        requires { v < length self.old.came }
        ensures { self.new ≡ record self.old { came = slice_set self.old.came v (record (event_at self.old.came v) { node = node }) } }
    {
        self.came[v as usize].node = node;
    }

    /// Tells the message that an event is an end of, or that it is the end of none.
    pub fn set_partner(&mut self, v: u32, partner: Option<Partner>)
        requires { v < length self.old.came }
        ensures { self.new ≡ record self.old { came = slice_set self.old.came v (record (event_at self.old.came v) { partner = partner }) } }
    {
        self.came[v as usize].partner = partner;
    }

    /// The node of a reading; None exactly where the clock has not shown the stamp.
    pub fn reading_node(&self, clock: u32, stamp: Nano) -> Option<u32>
        requires { clock < length self.now.declaration.clocks }
        ensures some { IfSome result (λ node. Contains {X = Stamped} (group_at self.now.readings clock) (stamp, node)) }
        ensures none { IfNone result (HasStamp (group_at self.now.readings clock) stamp → ⊥) }
    {
        let readings = self.readings.group(clock);
        let place = place_of(readings, stamp)?;
        Some(readings[place].1)
    }

    /// The greatest stamp of a clock below one that it has shown; None where that is its least one.
    pub fn stamp_below(&self, clock: u32, stamp: Nano) -> Option<Nano>
        requires clock { clock < length self.now.declaration.clocks }
        requires shown { HasStamp (group_at self.now.readings clock) stamp }
        ensures { IsLastUnder (group_at self.now.readings clock) stamp result }
    {
        stamp_below(self.readings.group(clock), stamp)
    }

    /// The least stamp of a clock above one that it has shown; None where that is its greatest one.
    pub fn stamp_above(&self, clock: u32, stamp: Nano) -> Option<Nano>
        requires clock { clock < length self.now.declaration.clocks }
        requires shown { HasStamp (group_at self.now.readings clock) stamp }
        ensures { IsFirstOver (group_at self.now.readings clock) stamp result }
    {
        stamp_above(self.readings.group(clock), stamp)
    }

    /// The least stamp of a clock; None where it has shown none.
    pub fn first_stamp(&self, clock: u32) -> Option<Nano>
        requires { clock < length self.now.declaration.clocks }
        ensures { IsFirstStamp (group_at self.now.readings clock) result }
    {
        first_stamp(self.readings.group(clock))
    }

    /// The greatest stamp of a clock; None where it has shown none.
    pub fn last_stamp(&self, clock: u32) -> Option<Nano>
        requires { clock < length self.now.declaration.clocks }
        ensures { IsLastStamp (group_at self.now.readings clock) result }
    {
        last_stamp(self.readings.group(clock))
    }

    /// Tells the node of a reading, which the clock has shown.
    pub fn set_reading_node(&mut self, clock: u32, stamp: Nano, node: u32)
        requires clock { clock < length self.old.declaration.clocks }
        requires shown { HasStamp (group_at self.old.readings clock) stamp }
        ensures { SetsReading self.old self.new clock stamp node }
    {
        let place = place_of(self.readings.group(clock), stamp).unwrap();
        self.readings.set(clock, place, (stamp, node));
    }
}
