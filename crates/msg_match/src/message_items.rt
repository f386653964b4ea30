// The ends of messages among events.
ghost use Rattle.std.specs.Prelude.{◌≡◌, ◌+◌, ◌<◌, ◌^◌, ◌++◌, length, OnOk, IfOk};
ghost use Rattle.traces.specs.Seen.{mark_of, seen_events};
ghost use Rattle.msg_match.specs.Held.{seen_items};
ghost use Rattle.msg_match.specs.Ends.{item_of, items_from};

use crate::Item;
use std::alloc::{AllocError, Global};
use traces::{Event, Mark};

// Appends the event of a number, where its mark says that it is an end of a message; an error where memory runs out.
fn push_end(items: &mut Vec<Item>, number: u32, mark: &Mark) -> Result<(), AllocError>
    ensures { OnOk result (seen_items items.new.items ≡ seen_items items.old.items ++ item_of number (mark_of mark.now)) }
{
    if let Mark::Keyed { key, side } = mark {
        let item = Item::new(number, *side, key)?;
        items.push(item)?;
    }
    Ok(())
}

/// The ends of messages among events that have the numbers from `first` on; an error where memory runs out. The number
/// behind the last event is below 2^32.
pub fn items_of(alloc: Global, first: u32, events: &[Event]) -> Result<Vec<Item>, AllocError>
    requires { first + length events.now < 2 ^ 32 }
    ensures { IfOk result (λ items. seen_items items.items ≡ items_from first (seen_events events.now)) }
{
    let mut items = Vec::new(alloc);
    for (place, event) in events.iter().enumerate() {
        push_end(&mut items, first + place as u32, &event.mark)?;
    }
    Ok(items)
}
