// Messages among events by their keys.
ghost use Rattle.std.specs.Prelude.{◌≡◌, ◌<◌, ◌≤◌, ◌-◌, ◌+◌, ◌++◌, ◌∷◌, [], List, length, take, slice_get, OnOk, OnErr, IfOk};
ghost use Rattle.problem_model.specs.Limits.{most_items};
ghost use Rattle.traces.specs.Seen.{key_of};
ghost use Rattle.msg_match.specs.Groups.{SeenItem, couple_of, group_of, groups_of, ambiguous_groups};
ghost use Rattle.msg_match.specs.Messages.{tallies};
ghost use Rattle.msg_match.specs.Held.{seen_item, seen_items, seen_found, seen_groups};
ghost use Rattle.msg_match.specs.Changes.{HaveOwnNumbers, AreCouplesAnew};
ghost use Rattle.msg_match.specs.Parts.{AreAllCouples, AreCouplesIn, AreCouplesOf};

use crate::couples::Couples;
use crate::entry::Entry;
use crate::keys::Keys;
use crate::tables::{push_at, push_first, take_back};
use crate::tallies::{ambiguous_count, ambiguous_group, sum};
use crate::{Change, Couple, Group, Item, Tallies};
use std::alloc::{AllocError, Global};
use std::marker::Model;
use traces::Key;

/// Events by their keys, and which of them are a message. It is seen as the list of all events that were added, at
/// most 2^25.
///
/// Two events are a message where one is the only send of a key and the other the only receive of that key.
#[derive(Drop)]
pub(crate) struct KeyMatcher {
    log: Vec<Entry>,
    keys: Keys,
    groups: Vec<Group>,
}

impl Model for KeyMatcher {
    ghost use Rattle.std.specs.Prelude.{List};
    ghost use Rattle.msg_match.specs.Groups.{SeenItem};
    ghost use Rattle.msg_match.specs.Held.{seen_groups};
    ghost use Rattle.msg_match.specs.Inside.{items_by, AreGrouped};

    ghost Value = { List SeenItem };

    ghost view = { λ m. items_by m.keys m.log.items };

    ghost invariant = { λ m. AreGrouped m.keys m.log.items (seen_groups m.groups.items) };
}

// The messages of groups, each once; an error where memory runs out.
fn couples_in(alloc: Global, groups: &[Group]) -> Result<Couples, AllocError>
    ensures { IfOk result (λ found. AreCouplesIn (seen_groups groups.now) found) }
{
    let mut found = Couples::new(alloc);
    for group in groups {
        found.note(group.couple())?;
    }
    Ok(found)
}

impl KeyMatcher {
    // No events. It takes no memory.
    pub(crate) fn new(alloc: Global) -> KeyMatcher
        ensures { result ≡ [] }
    {
        KeyMatcher {
            log: Vec::new(alloc),
            keys: Keys::new(alloc),
            groups: Vec::new(alloc),
        }
    }

    // How many events were added.
    pub(crate) fn len(&self) -> usize
        ensures count { result ≡ length self.now }
        ensures few { length self.now ≤ most_items }
    {
        self.log.len()
    }

    // The message of a key, where it has one send and one receive among all events.
    fn couple(&self, key: &Key) -> Option<Couple>
        ensures { result ≡ couple_of (group_of self.now (key_of key.now)) }
    {
        let place = self.keys.place(key)?;
        self.groups[place].couple()
    }

    // The messages of the keys of some events, each once; an error where memory runs out.
    fn couples(&self, items: &[Item]) -> Result<Vec<Couple>, AllocError>
        ensures { IfOk result (λ found. AreCouplesOf self.now (seen_items items.now) found.items) }
    {
        let alloc = *self.log.allocator();
        let mut found = Couples::new(alloc);
        for item in items {
            found.note(self.couple(&item.key))?;
        }
        Ok(found.into_list())
    }

    // The messages of all keys, each once; an error where memory runs out.
    pub(crate) fn messages(&self) -> Result<Couples, AllocError>
        ensures { IfOk result (λ found. AreAllCouples self.now found) }
    {
        couples_in(*self.log.allocator(), &self.groups)
    }

    // All events once more, in the order in which they came; an error where memory runs out.
    pub(crate) fn items(&self) -> Result<Vec<Item>, AllocError>
        ensures { IfOk result (λ items. seen_items items.items ≡ self.now) }
    {
        let mut items = Vec::new(*self.log.allocator());
        for entry in &self.log {
            let group = &self.groups[entry.place as usize];
            items.push(Item::new(entry.event, entry.side, &group.key)?)?;
        }
        Ok(items)
    }

    // Appends an event. All stays as before where memory runs out.
    pub(crate) fn push(&mut self, item: &Item) -> Result<(), AllocError>
        requires { length self.old < most_items }
        ensures ok { OnOk result (self.new ≡ self.old ++ seen_item item.now ∷ []) }
        ensures err { OnErr result (self.new ≡ self.old) }
    {
        match self.keys.place(&item.key) {
            Some(place) => push_at(&mut self.groups, &mut self.log, place, item),
            None => push_first(&mut self.keys, &mut self.groups, &mut self.log, item),
        }
    }

    // Takes the last event away, where there is one.
    fn pop(&mut self)
        ensures { self.new ≡ take (length self.old - 1) self.old }
    {
        if let Some(entry) = self.log.pop() {
            take_back(&mut self.keys, &mut self.groups, entry);
        }
    }

    // Takes all events behind the first `len` away. The time goes by those that are taken away.
    fn truncate(&mut self, len: usize)
        requires { len ≤ length self.old }
        ensures { self.new ≡ take len self.old }
    {
        while self.len() > len {
            self.pop();
        }
    }

    // Appends events, and answers the messages of their keys. Where memory runs out, some of them may stay.
    fn append(&mut self, items: &[Item]) -> Result<Vec<Couple>, AllocError>
        requires { length self.old + length items.now ≤ most_items }
        ensures ok { OnOk result (self.new ≡ self.old ++ seen_items items.now) }
        ensures found { IfOk result (λ found. AreCouplesOf self.new (seen_items items.now) found.items) }
        ensures err { OnErr result ((some : List SeenItem) × (self.new ≡ self.old ++ some)) }
    {
        for item in items {
            self.push(item)?;
        }
        self.couples(items)
    }

    // Adds events, and answers how they change the messages. All stays as before where memory runs out. A message
    // that comes and goes again within the events added is in neither list. The time goes by the events that are
    // added; for each, a key is looked up among all by some log n comparisons.
    pub(crate) fn add(&mut self, items: &[Item]) -> Result<Change, AllocError>
        requires few { length self.old + length items.now ≤ most_items }
        requires differ { HaveOwnNumbers (self.old ++ seen_items items.now) }
        ensures ok { OnOk result (self.new ≡ self.old ++ seen_items items.now) }
        ensures added { IfOk result (λ change. AreCouplesAnew self.old self.new change.added.items) }
        ensures withdrawn { IfOk result (λ change. AreCouplesAnew self.new self.old change.withdrawn.items) }
        ensures err { OnErr result (self.new ≡ self.old) }
    {
        let before = self.len();
        let withdrawn = self.couples(items)?;
        match self.append(items) {
            Ok(added) => Ok(Change { added, withdrawn }),
            Err(error) => {
                self.truncate(before);
                Err(error)
            }
        }
    }

    // How many messages there are, unmatched events (in no message, and their key is not ambiguous), and events with
    // ambiguous keys. The time goes by the keys.
    pub(crate) fn tallies(&self) -> Tallies
        ensures { result ≡ tallies self.now }
    {
        sum(&self.groups)
    }

    // How many keys are ambiguous, at most 2^25.
    pub(crate) fn groups(&self) -> u32
        ensures { result ≡ length (ambiguous_groups self.now) }
    {
        ambiguous_count(&self.groups)
    }

    // The events of an ambiguous key. Such keys are counted from 0 on, in the order in which they first came; None
    // exactly from `groups` on.
    pub(crate) fn group(&self, k: u32) -> Option<&Group>
        ensures { seen_found result ≡ slice_get (ambiguous_groups self.now) k }
    {
        ambiguous_group(&self.groups, k)
    }

    // The events of each key, ambiguous or not, in the order in which the keys first came.
    pub(crate) fn all_groups(&self) -> &[Group]
        ensures { seen_groups result.now ≡ groups_of self.now }
    {
        &self.groups
    }
}
