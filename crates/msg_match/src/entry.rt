// Events that were added.
use traces::Side;

// An event: its number, its side, and the place of its key.
#[derive(Clone, Copy)]
pub(crate) struct Entry {
    pub(crate) event: u32,
    pub(crate) side: Side,
    pub(crate) place: u32,
}
