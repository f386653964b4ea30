// The tables of a matcher, changed by one event.
ghost use Rattle.std.specs.Prelude.{◌≡◌, ◌<◌, ◌≤◌, ◌++◌, ◌∷◌, [], length, slice_set, false, OnOk, OnErr, IfOk, option_map};
ghost use Rattle.std.specs.List.{list_any};
ghost use Rattle.problem_model.specs.Limits.{most_items};
ghost use Rattle.traces.specs.Seen.{key_of, message_of, seen_moment, is_same_key};
ghost use Rattle.msg_match.specs.Held.{seen_groups};
ghost use Rattle.msg_match.specs.Series.{key_at, moment_at};
ghost use Rattle.msg_match.specs.Parts.{group_at_place, with_entry, empty_group, entry_with_key, groups_before, keys_before, keys_in};

use crate::entry::Entry;
use crate::keys::Keys;
use crate::{Group, Item};
use std::alloc::AllocError;
use traces::{Content, Key, MessageKey, Moment};

// What a message is known by, once more; an error where memory runs out.
fn copy_message(message: &MessageKey) -> Result<MessageKey, AllocError>
    ensures { IfOk result (λ copy. message_of copy ≡ message_of message.now) }
{
    let content = match &message.content {
        Content::Packet(packet) => Content::Packet(packet.clone()?),
        Content::Word(word) => Content::Word(*word),
    };
    Ok(MessageKey {
        segment: message.segment,
        content,
    })
}

// The moment of a key at another time, where it has one.
fn moment_at(key: &Key, time: i64) -> Option<Moment>
    ensures { option_map seen_moment result ≡ moment_at (option_map seen_moment key.now.moment) time }
{
    match key.moment {
        None => None,
        Some(moment) => Some(Moment {
            time,
            window: moment.window,
        }),
    }
}

/// A key once more, of another time where it has one; an error where memory runs out.
pub(crate) fn key_at(key: &Key, time: i64) -> Result<Key, AllocError>
    ensures { IfOk result (λ copy. key_of copy ≡ key_at (key_of key.now) time) }
{
    let message = copy_message(&key.message)?;
    let moment = moment_at(key, time);
    Ok(Key { message, moment })
}

/// A key once more; an error where memory runs out.
pub(crate) fn copy_key(key: &Key) -> Result<Key, AllocError>
    ensures { IfOk result (λ copy. key_of copy ≡ key_of key.now) }
{
    let message = copy_message(&key.message)?;
    Ok(Key {
        message,
        moment: key.moment,
    })
}

// Appends an event whose key has this place. All stays as before where memory runs out.
pub(crate) fn push_at(
    groups: &mut Vec<Group>,
    log: &mut Vec<Entry>,
    place: usize,
    item: &Item,
) -> Result<(), AllocError>
    requires within { place < length groups.old.items }
    requires few { length groups.old.items ≤ most_items }
    ensures groups_ok { OnOk result (seen_groups groups.new.items ≡ slice_set (seen_groups groups.old.items) place (with_entry (group_at_place (seen_groups groups.old.items) place) item.now.side item.now.event)) }
    ensures log_ok { OnOk result (log.new.items ≡ log.old.items ++ entry_with_key item.now.event item.now.side place ∷ []) }
    ensures groups_err { OnErr result (seen_groups groups.new.items ≡ seen_groups groups.old.items) }
    ensures log_err { OnErr result (log.new.items ≡ log.old.items) }
{
    log.reserve(1)?;
    let group = &mut groups[place];
    group.push(item.side, item.event)?;
    log.push_reserved(Entry {
        event: item.event,
        side: item.side,
        place: place as u32,
    });
    Ok(())
}

// Appends the first event of a key. All stays as before where memory runs out.
pub(crate) fn push_first(
    keys: &mut Keys,
    groups: &mut Vec<Group>,
    log: &mut Vec<Entry>,
    item: &Item,
) -> Result<(), AllocError>
    requires absent { list_any (is_same_key (key_of item.now.key)) keys.old ≡ false }
    requires few { length groups.old.items ≤ most_items }
    ensures keys_ok { OnOk result (keys.new ≡ keys.old ++ key_of item.now.key ∷ []) }
    ensures groups_ok { OnOk result (seen_groups groups.new.items ≡ seen_groups groups.old.items ++ with_entry (empty_group (key_of item.now.key)) item.now.side item.now.event ∷ []) }
    ensures log_ok { OnOk result (log.new.items ≡ log.old.items ++ entry_with_key item.now.event item.now.side (length groups.old.items) ∷ []) }
    ensures keys_err { OnErr result (keys.new ≡ keys.old) }
    ensures groups_err { OnErr result (groups.new.items ≡ groups.old.items) }
    ensures log_err { OnErr result (log.new.items ≡ log.old.items) }
{
    let mut group = Group::new(*groups.allocator(), copy_key(&item.key)?);
    group.push(item.side, item.event)?;
    groups.reserve(1)?;
    log.reserve(1)?;
    keys.push(copy_key(&item.key)?)?;
    log.push_reserved(Entry {
        event: item.event,
        side: item.side,
        place: groups.len() as u32,
    });
    groups.push_reserved(group);
    Ok(())
}

// Takes the last event away, which was this one, and its key where it has no other event.
pub(crate) fn take_back(keys: &mut Keys, groups: &mut Vec<Group>, entry: Entry)
    requires within { entry.place < length groups.old.items }
    requires kept { keys_in (seen_groups groups.old.items) ≡ keys.old }
    ensures groups { seen_groups groups.new.items ≡ groups_before (seen_groups groups.old.items) entry }
    ensures keys { keys.new ≡ keys_before (seen_groups groups.old.items) entry keys.old }
{
    let group = &mut groups[entry.place as usize];
    group.pop(entry.side);
    if group.is_empty() {
        if let Some(last) = groups.pop() {
            keys.take_last(&last.key);
        }
    }
}
