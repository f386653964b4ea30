// The clocks of hosts so far, by their places, by their names and by their hosts.
ghost use Rattle.std.specs.Prelude.{◌≡◌, ◌++◌, ◌∷◌, [], false, OnOk};
ghost use Rattle.problem_model.specs.Limits.{most_clocks};
ghost use Rattle.decl.specs.Booked.{Booked};
ghost use Rattle.decl.specs.Clocks.{first_clock_place, own_clock_place, is_taken, have_no_room};
ghost use Rattle.decl.specs.Inside.{IsTurnOf};
ghost use Rattle.decl.specs.Places.{clock_place};

use crate::Owner;
use crate::limits::MOST_ENTRIES;
use interner::Places;
use problem_model::{Clock, Name};
use std::alloc::{AllocError, Global};
use std::marker::Model;

// Clocks in the order in which they came, with their owners. No two have the same name, and hosts come one after another.
#[derive(Drop)]
pub(crate) struct ClockBook {
    clocks: Vec<Clock>,
    owners: Vec<Owner>,
    names: Places<Name>,
    // The place of each host's first clock.
    firsts: Vec<u32>,
}

impl Model for ClockBook {
    ghost use Rattle.std.specs.Prelude.{◌≡◌, ◌≤◌, ℕ, map, length, slice_get};
    ghost use Rattle.problem_model.specs.Limits.{most_clocks};
    ghost use Rattle.decl.specs.Booked.{Booked};
    ghost use Rattle.decl.specs.Clocks.{first_clock_place};

    ghost Value = { Booked };

    ghost view = { λ b. record { clocks = b.clocks.items; owners = b.owners.items } };

    ghost invariant = { λ b. (b.names ≡ map (λ c. c.name) b.clocks.items) × (length b.owners.items ≡ length b.clocks.items) × (length b.clocks.items ≤ most_clocks)
        × ((host : ℕ) → slice_get b.firsts.items host ≡ first_clock_place b.owners.items host) };
}

impl ClockBook {
    pub(crate) fn new(alloc: Global) -> ClockBook
        ensures { result ≡ record { clocks = []; owners = [] } }
    {
        ClockBook {
            clocks: Vec::new(alloc),
            owners: Vec::new(alloc),
            names: Places::new(alloc),
            firsts: Vec::new(alloc),
        }
    }

    // The clocks.
    pub(crate) fn list(&self) -> &[Clock]
        ensures { result.now ≡ self.now.clocks }
    {
        self.clocks.as_slice()
    }

    // Whether there is no room for one clock more.
    pub(crate) fn is_full(&self) -> bool
        ensures { result ≡ have_no_room self.now.clocks }
    {
        self.clocks.len() >= MOST_ENTRIES as usize
    }

    // The place of the clock of this name, from 0 on, where there is one.
    pub(crate) fn place(&self, name: &Name) -> Option<u32>
        ensures { result ≡ clock_place self.now.clocks name.now }
    {
        match self.names.place(name) {
            Some(place) => Some(place as u32),
            None => None,
        }
    }

    // The place of the first clock of a host.
    pub(crate) fn first_of(&self, host: u32) -> Option<u32>
        ensures { result ≡ first_clock_place self.now.owners host }
    {
        self.firsts.get(host as usize).copied()
    }

    // The place of the host's clock of this name.
    pub(crate) fn place_among(&self, host: u32, name: &Name) -> Option<u32>
        ensures { result ≡ own_clock_place self.now.clocks self.now.owners host name.now }
    {
        let place = self.place(name)?;
        let owner = self.owners.get(place as usize)?;
        if owner.host == host {
            Some(place)
        } else {
            None
        }
    }

    // Adds a clock of the host that came last or of the next one, whose name is that of no other.
    pub(crate) fn push(&mut self, clock: Clock, owner: Owner) -> Result<(), AllocError>
        requires new { is_taken self.old.clocks clock.name ≡ false }
        requires room { have_no_room self.old.clocks ≡ false }
        requires turn { IsTurnOf self.old.owners owner.host }
        ensures clocks { OnOk result (self.new.clocks ≡ self.old.clocks ++ clock ∷ []) }
        ensures owners { OnOk result (self.new.owners ≡ self.old.owners ++ owner ∷ []) }
    {
        self.clocks.reserve(1)?;
        self.owners.reserve(1)?;
        self.firsts.reserve(1)?;
        self.names.push(clock.name)?;
        if owner.host as usize == self.firsts.len() {
            self.firsts.push_reserved(self.clocks.len() as u32);
        }
        self.clocks.push_reserved(clock);
        self.owners.push_reserved(owner);
        Ok(())
    }

    // The clocks, and whose each is.
    pub(crate) fn into_lists(self) -> (Vec<Clock>, Vec<Owner>)
        ensures clocks { result.0.items ≡ self.clocks }
        ensures owners { result.1.items ≡ self.owners }
    {
        (self.clocks, self.owners)
    }
}
