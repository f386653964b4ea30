// Events that are added.
ghost use Rattle.std.specs.Prelude.{◌≡◌, IfOk};
ghost use Rattle.traces.specs.Seen.{key_of};
ghost use Rattle.msg_match.specs.Held.{seen_item};

use crate::tables::copy_key;
use std::alloc::AllocError;
use traces::{Key, Side};

/// An event that is an end of a message.
#[derive(Debug, Drop)]
pub struct Item {
    /// The number that the caller knows the event by. No two events have the same.
    pub event: u32,
    /// Which end of a message it is.
    pub side: Side,
    /// What the message is known by.
    pub key: Key,
}

impl Item {
    /// An event of this number, with a copy of its key; an error where memory runs out.
    pub fn new(event: u32, side: Side, key: &Key) -> Result<Item, AllocError>
        ensures { IfOk result (λ item. seen_item item ≡ record { event = event; side = side; key = key_of key.now }) }
    {
        let key = copy_key(key)?;
        Ok(Item { event, side, key })
    }
}
