// Messages among all events that were added.
ghost use Rattle.std.specs.Prelude.{◌≡◌, ◌≤◌, ◌+◌, ◌++◌, [], length, slice_get, OnOk, OnErr, IfOk};
ghost use Rattle.problem_model.specs.Limits.{most_items};
ghost use Rattle.msg_match.specs.Groups.{groups_of, ambiguous_groups};
ghost use Rattle.msg_match.specs.Messages.{tallies};
ghost use Rattle.msg_match.specs.Held.{seen_items, seen_found, seen_groups};
ghost use Rattle.msg_match.specs.Changes.{HaveOwnNumbers, AreCouplesAnew, AreMessagesAnew};
ghost use Rattle.msg_match.specs.Windowed.{grouped_items};

use crate::key_matcher::KeyMatcher;
use crate::regrouping::{append_copies, are_untimed, by_groups};
use crate::{Change, Group, Item, Tallies};
use std::alloc::{AllocError, Global};
use std::marker::Model;

/// The events that are ends of messages, and which of them are a message. It is seen as the list of all events that
/// were added, at most 2^25.
///
/// Events of one key are of one group. Where their keys have moments, the events of one message and one window are
/// ordered by their times, and neighbours that lie the window apart at most are of one group. Two events are a
/// message where one is the only send of a group and the other its only receive, among all events that were added. An
/// ambiguous group has sends and receives, and two of the ones or the others at least: nobody can tell which belong
/// together.
#[derive(Drop)]
pub struct Matcher {
    // The events, each by the key of its group: the moment tells when the group begins.
    by_group: KeyMatcher,
    // The events as they came, where one has a moment; else none.
    timed: Vec<Item>,
}

impl Model for Matcher {
    ghost use Rattle.std.specs.Prelude.{List};
    ghost use Rattle.msg_match.specs.Groups.{SeenItem};
    ghost use Rattle.msg_match.specs.Held.{seen_items};
    ghost use Rattle.msg_match.specs.Inside.{AreKept, events_kept};

    ghost Value = { List SeenItem };

    ghost view = { λ m. events_kept m.by_group (seen_items m.timed.items) };

    ghost invariant = { λ m. AreKept m.by_group (seen_items m.timed.items) };
}

// The messages that come and go between two lists of events by their groups; an error where memory runs out.
fn change_between(before: &KeyMatcher, after: &KeyMatcher) -> Result<Change, AllocError>
    ensures added { IfOk result (λ change. AreCouplesAnew before.now after.now change.added.items) }
    ensures withdrawn { IfOk result (λ change. AreCouplesAnew after.now before.now change.withdrawn.items) }
{
    let olds = before.messages()?;
    let news = after.messages()?;
    let added = news.without(&olds)?;
    let withdrawn = olds.without(&news)?;
    Ok(Change { added, withdrawn })
}

impl Matcher {
    /// No events. It takes no memory.
    pub fn new(alloc: Global) -> Matcher
        ensures { result ≡ [] }
    {
        Matcher {
            by_group: KeyMatcher::new(alloc),
            timed: Vec::new(alloc),
        }
    }

    // All events once more; an error where memory runs out.
    fn events(&self) -> Result<Vec<Item>, AllocError>
        ensures { IfOk result (λ events. seen_items events.items ≡ self.now) }
    {
        if self.timed.is_empty() {
            return self.by_group.items();
        }
        let mut events = Vec::new(*self.timed.allocator());
        append_copies(&mut events, &self.timed)?;
        Ok(events)
    }

    // The same events and these behind them, made anew; an error where memory runs out.
    fn with(&self, items: &[Item]) -> Result<Matcher, AllocError>
        requires { length self.now + length items.now ≤ most_items }
        ensures { IfOk result (λ anew. anew ≡ self.now ++ seen_items items.now) }
    {
        let mut timed = self.events()?;
        append_copies(&mut timed, items)?;
        let by_group = by_groups(*timed.allocator(), &timed)?;
        Ok(Matcher { by_group, timed })
    }

    // Adds events, where some of all have a moment: all groups are made anew. All stays as before where memory runs
    // out.
    fn add_timed(&mut self, items: &[Item]) -> Result<Change, AllocError>
        requires { length self.old + length items.now ≤ most_items }
        ensures ok { OnOk result (self.new ≡ self.old ++ seen_items items.now) }
        ensures added { IfOk result (λ change. AreMessagesAnew self.old self.new change.added.items) }
        ensures withdrawn { IfOk result (λ change. AreMessagesAnew self.new self.old change.withdrawn.items) }
        ensures err { OnErr result (self.new ≡ self.old) }
    {
        let anew = self.with(items)?;
        let change = change_between(&self.by_group, &anew.by_group)?;
        *self = anew;
        Ok(change)
    }

    /// Adds events, and answers how they change the messages. Where memory runs out there is an error, and all is as
    /// before.
    ///
    /// No two events have the same number, those before included, and there are at most 2^25 in all. A message that
    /// comes and goes again within the events added is in neither list. Where no event has a moment, the time goes by
    /// the events that are added; for each, a key is looked up among all by some log n comparisons, whatever the keys
    /// are. Where one has, all n events are grouped anew, in some n log n comparisons.
    pub fn add(&mut self, items: &[Item]) -> Result<Change, AllocError>
        requires few { length self.old + length items.now ≤ most_items }
        requires differ { HaveOwnNumbers (self.old ++ seen_items items.now) }
        ensures ok { OnOk result (self.new ≡ self.old ++ seen_items items.now) }
        ensures added { IfOk result (λ change. AreMessagesAnew self.old self.new change.added.items) }
        ensures withdrawn { IfOk result (λ change. AreMessagesAnew self.new self.old change.withdrawn.items) }
        ensures err { OnErr result (self.new ≡ self.old) }
    {
        if self.timed.is_empty() && are_untimed(items) {
            self.by_group.add(items)
        } else {
            self.add_timed(items)
        }
    }

    /// How many messages there are, unmatched events (in no message, and their group is not ambiguous), and events of
    /// ambiguous groups. The time goes by the groups.
    pub fn tallies(&self) -> Tallies
        ensures { result ≡ tallies (grouped_items self.now) }
    {
        self.by_group.tallies()
    }

    /// How many groups are ambiguous, at most 2^25.
    pub fn groups(&self) -> u32
        ensures { result ≡ length (ambiguous_groups (grouped_items self.now)) }
    {
        self.by_group.groups()
    }

    /// The events of an ambiguous group, whose key tells when the group begins. Such groups are counted from 0 on, in
    /// the order in which they first came; None exactly from `groups` on.
    pub fn group(&self, k: u32) -> Option<&Group>
        ensures { seen_found result ≡ slice_get (ambiguous_groups (grouped_items self.now)) k }
    {
        self.by_group.group(k)
    }

    /// The events of each group, ambiguous or not, in the order in which the groups first came.
    pub fn all_groups(&self) -> &[Group]
        ensures { seen_groups result.now ≡ groups_of (grouped_items self.now) }
    {
        self.by_group.all_groups()
    }
}
