// Whole blocks.
ghost use Rattle.std.specs.Prelude.{◌≡◌, ◌≤◌, length, IfOk, IfErr, None};
ghost use Rattle.pcapng_stream.specs.Blocks.{kind_of, last_length};
ghost use Rattle.pcapng_stream.specs.Inside.{FindsBlock, IsWrong, block_of};

use crate::block_kind::{BlockKind, kind_at};
use crate::bytes::front;
use crate::flaw::Flaw;
use crate::head::read_head;
use crate::order::Order;

// How many bytes the last length takes.
const LAST_BYTES: usize = 4;

/// A whole block: all of its bytes, and their order.
#[derive(Clone, Copy, Debug)]
pub struct WholeBlock<'a> {
    pub order: Order,
    pub bytes: &'a [u8],
}

impl WholeBlock<'_> {
    /// The kind, by the type.
    pub(crate) fn kind(&self) -> BlockKind
        requires { 12 ≤ length self.now.bytes.now }
        ensures { result ≡ kind_of (block_of self.now) }
    {
        kind_at(self.order, self.bytes)
    }

    /// The length that stands at its end.
    pub(crate) fn last_length(&self) -> u32
        requires { 12 ≤ length self.now.bytes.now }
        ensures { result ≡ last_length (block_of self.now) }
    {
        self.order
            .word_at(self.bytes, self.bytes.len() - LAST_BYTES)
    }
}

/// The whole block that begins these bytes behind blocks of this order, if one does. `Malformed` comes where no block
/// begins so.
pub(crate) fn find_block(
    present: Option<Order>,
    bytes: &[u8],
) -> Result<Option<WholeBlock<'_>>, Flaw>
    ensures ok { IfOk result (λ found. FindsBlock present bytes.now found) }
    ensures fault { IfErr result (λ flaw. IsWrong present bytes.now flaw) }
{
    let Some(head) = read_head(present, bytes)? else {
        return Ok(None);
    };
    if bytes.len() < head.size as usize {
        return Ok(None);
    }
    Ok(Some(WholeBlock {
        order: head.order,
        bytes: front(bytes, head.size as usize),
    }))
}
