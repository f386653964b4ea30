// The events of one key.
ghost use Rattle.std.specs.Prelude.{◌≡◌, ◌≤◌, ◌==◌, [], OnOk, OnErr};
ghost use Rattle.problem_model.specs.Limits.{most_items};
ghost use Rattle.traces.specs.Seen.{key_of};
ghost use Rattle.msg_match.specs.Groups.{group_size, couple_of, is_ambiguous};
ghost use Rattle.msg_match.specs.Held.{seen_group};
ghost use Rattle.msg_match.specs.Parts.{with_entry, without_last, tallies_of};

use crate::{Couple, Tallies};
use std::alloc::{AllocError, Global};
use traces::{Key, Side};

/// The events of one key.
#[derive(Debug, Drop)]
pub struct Group {
    /// What they are known by.
    pub key: Key,
    /// The numbers of those that send, in the order in which they came.
    pub sends: Vec<u32>,
    /// The numbers of those that receive, in the order in which they came.
    pub receives: Vec<u32>,
}

impl Group {
    // A key with no events.
    pub(crate) fn new(alloc: Global, key: Key) -> Group
        ensures { seen_group result ≡ record { key = key_of key; sends = []; receives = [] } }
    {
        Group {
            key,
            sends: Vec::new(alloc),
            receives: Vec::new(alloc),
        }
    }

    // Appends an event. All stays as before where memory runs out.
    pub(crate) fn push(&mut self, side: Side, event: u32) -> Result<(), AllocError>
        ensures ok { OnOk result (seen_group self.new ≡ with_entry (seen_group self.old) side event) }
        ensures err { OnErr result (seen_group self.new ≡ seen_group self.old) }
    {
        match side {
            Side::Send => self.sends.push(event)?,
            Side::Receive => self.receives.push(event)?,
        }
        Ok(())
    }

    // Takes the last event of a side away, where there is one.
    pub(crate) fn pop(&mut self, side: Side)
        ensures { seen_group self.new ≡ without_last (seen_group self.old) side }
    {
        match side {
            Side::Send => {
                let _last = self.sends.pop();
            }
            Side::Receive => {
                let _last = self.receives.pop();
            }
        }
    }

    // Whether there are no events.
    pub(crate) fn is_empty(&self) -> bool
        ensures { result ≡ (group_size (seen_group self.now) == 0) }
    {
        self.sends.is_empty() && self.receives.is_empty()
    }

    // The message of the key, where it has one send and one receive.
    pub(crate) fn couple(&self) -> Option<Couple>
        ensures { result ≡ couple_of (seen_group self.now) }
    {
        match (self.sends.as_slice(), self.receives.as_slice()) {
            ([send], [receive]) => Some(Couple {
                send: *send,
                receive: *receive,
            }),
            _ => None,
        }
    }

    /// Whether there are sends and receives, and two of the ones or the others at least.
    pub fn is_ambiguous(&self) -> bool
        ensures { result ≡ is_ambiguous (seen_group self.now) }
    {
        let sends = self.sends.len();
        let receives = self.receives.len();
        sends > 0 && receives > 0 && (sends > 1 || receives > 1)
    }

    // What the events of the key count as.
    pub(crate) fn tallies(&self) -> Tallies
        requires { group_size (seen_group self.now) ≤ most_items }
        ensures { result ≡ tallies_of (seen_group self.now) }
    {
        let mut tallies = Tallies::none();
        let events = self.sends.len() as u32 + self.receives.len() as u32;
        if self.couple().is_some() {
            tallies.messages = 1;
        } else if self.is_ambiguous() {
            tallies.ambiguous = events;
        } else {
            tallies.unmatched = events;
        }
        tallies
    }
}
