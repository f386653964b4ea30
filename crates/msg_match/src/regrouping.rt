// Events by their groups.
ghost use Rattle.std.specs.Prelude.{◌≡◌, ◌≤◌, ◌++◌, length, OnOk, IfOk, All};
ghost use Rattle.std.specs.Bool.{OnTrue};
ghost use Rattle.problem_model.specs.Limits.{most_items};
ghost use Rattle.msg_match.specs.Held.{seen_item, seen_items};
ghost use Rattle.msg_match.specs.Inside.{IsUntimed};
ghost use Rattle.msg_match.specs.Series.{item_at};
ghost use Rattle.msg_match.specs.Windowed.{grouped_items};

use crate::Item;
use crate::key_matcher::KeyMatcher;
use crate::series::beginnings;
use crate::tables::key_at;
use std::alloc::{AllocError, Global};

// Whether no event has a moment.
pub(crate) fn are_untimed(items: &[Item]) -> bool
    ensures { OnTrue result (All IsUntimed (seen_items items.now)) }
{
    for item in items {
        if item.key.moment.is_some() {
            return false;
        }
    }
    true
}

// Appends copies of events; an error where memory runs out.
pub(crate) fn append_copies(all: &mut Vec<Item>, items: &[Item]) -> Result<(), AllocError>
    ensures { OnOk result (seen_items all.new.items ≡ seen_items all.old.items ++ seen_items items.now) }
{
    for item in items {
        all.push(Item::new(item.event, item.side, &item.key)?)?;
    }
    Ok(())
}

// A copy of an event, at another time where it has one; an error where memory runs out.
fn item_at(item: &Item, time: i64) -> Result<Item, AllocError>
    ensures { IfOk result (λ copy. seen_item copy ≡ item_at (seen_item item.now) time) }
{
    let key = key_at(&item.key, time)?;
    Ok(Item {
        event: item.event,
        side: item.side,
        key,
    })
}

// Events by the keys of their groups; an error where memory runs out.
pub(crate) fn by_groups(alloc: Global, items: &[Item]) -> Result<KeyMatcher, AllocError>
    requires { length items.now ≤ most_items }
    ensures { IfOk result (λ matcher. matcher ≡ grouped_items (seen_items items.now)) }
{
    let begins = beginnings(alloc, items)?;
    let mut matcher = KeyMatcher::new(alloc);
    for (place, item) in items.iter().enumerate() {
        let grouped = item_at(item, begins[place])?;
        matcher.push(&grouped)?;
    }
    Ok(matcher)
}
