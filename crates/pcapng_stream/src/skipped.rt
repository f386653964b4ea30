// Blocks that are skipped, and come in pieces.
ghost use Rattle.std.specs.Prelude.{◌≡◌, ◌≤◌, ◌<◌, ◌+◌, ◌-◌, ◌^◌, ◌++◌, length, drop, IfOk, IfErr};
ghost use Rattle.pcapng_stream.specs.declared.errors.PcapngError.TheVariants.{Memory};
ghost use Rattle.pcapng_stream.specs.Skipping.{begun_with, held_of, skipped_in};

use crate::PcapngError;
use crate::block_kind::kind_at;
use crate::bytes::{behind, front};
use crate::order::Order;
use std::alloc::Global;

// The bytes that tell that a block is skipped, and how long it is.
const HEAD_BYTES: usize = 12;

const LENGTH_PLACE: usize = 4;

// How many bytes the last length takes.
const LAST_BYTES: u32 = 4;

/// A block that is skipped, of which not all bytes came: none of them is held but those of its last four.
#[derive(Clone, Copy, Debug, PartialEq, Eq)]
pub struct Skipped {
    /// The order of its bytes.
    pub order: Order,
    /// Its type.
    pub block_type: u32,
    /// How many bytes it has.
    pub size: u32,
    /// How many of them came: 12 or more.
    pub came: u32,
}

impl Skipped {
    /// The block of which so many bytes more came.
    pub(crate) fn with(self, more: usize) -> Skipped
        requires { self.came + more < 2 ^ 32 }
        ensures { result ≡ begun_with self more }
    {
        Skipped {
            came: self.came + more as u32,
            ..self
        }
    }
}

/// The block that begins these bytes behind blocks of this order, if its first twelve bytes tell that it is skipped.
pub(crate) fn skipped_in(present: Option<Order>, bytes: &[u8]) -> Option<Skipped>
    requires { length bytes.now ≤ 2 ^ 30 }
    ensures { result ≡ skipped_in present bytes.now }
{
    let Some(order) = present else {
        return None;
    };
    let begin = front(bytes, HEAD_BYTES);
    if begin.len() < HEAD_BYTES || kind_at(order, begin).is_read() {
        return None;
    }
    Some(Skipped {
        order,
        block_type: order.word_at(begin, 0),
        size: order.word_at(begin, LENGTH_PLACE),
        came: bytes.len() as u32,
    })
}

/// The bytes of a rest that are held: of a skipped block those of its last four.
pub(crate) fn held_of(skipped: Option<Skipped>, bytes: &[u8]) -> &[u8]
    ensures { result.now ≡ held_of skipped bytes.now }
{
    match skipped {
        Some(block) => behind(bytes, block.size.saturating_sub(LAST_BYTES) as usize),
        None => bytes,
    }
}

/// The bytes that are held with this piece, which does not go beyond the block.
pub(crate) fn held_with(
    alloc: Global,
    block: Skipped,
    held: &[u8],
    piece: &[u8],
) -> Result<Vec<u8>, PcapngError>
    requires { length held.now + length piece.now ≤ 2 ^ 31 }
    ensures ok { IfOk result (λ last. last.items ≡ held.now ++ drop (block.size - 4 - block.came) piece.now) }
    ensures fault { IfErr result (λ e. e ≡ Memory) }
{
    let before = block.size.saturating_sub(LAST_BYTES);
    let last = behind(piece, before.saturating_sub(block.came) as usize);
    let mut bytes = Vec::with_capacity(alloc, held.len() + last.len())?;
    bytes.extend_from_slice(held)?;
    bytes.extend_from_slice(last)?;
    Ok(bytes)
}
