// How a block begins: its type and its length, and of a section header the magic number that tells the order of bytes.
ghost use Rattle.std.specs.Prelude.{◌≡◌, ◌≤◌, ◌||◌, true, false, length, IfOk, IfErr, OnOk, OnSome, IsTrue, ◌↔◌};
ghost use Rattle.pcapng_stream.specs.declared.flaw.Flaw.TheVariants.{Malformed};
ghost use Rattle.pcapng_stream.specs.Blocks.{is_section, magic_order, order_of, head_by, head_of};
ghost use Rattle.pcapng_stream.specs.Flaws.{lacks_order, is_wrong_size, begins_wrong};
ghost use Rattle.pcapng_stream.specs.Pcapng.{BeginsSection};

use crate::block_kind::{BlockKind, SECTION_TYPE, is_section, kind_at};
use crate::bytes::front;
use crate::flaw::Flaw;
use crate::order::Order;

// What a section header has at byte 8.
const BYTE_ORDER_MAGIC: u32 = 0x1a2b_3c4d;

const MAGIC_PLACE: usize = 8;

// The bytes that tell the order and the length of each block.
const HEAD_BYTES: usize = 12;

// The bytes up to the end of the length.
const LENGTH_END: usize = 8;

const LENGTH_PLACE: usize = 4;

// The length of a block without contents, and of the longest one that is read.
const LEAST_LENGTH: u32 = 12;

const MOST_LENGTH: u32 = 1 << 24;

/// The order and the length of a block.
#[derive(Clone, Copy, Debug, PartialEq, Eq)]
pub struct Head {
    pub order: Order,
    /// In bytes.
    pub size: u32,
}

/// Whether a section header begins these bytes, or may still do so.
pub(crate) fn begins_section(bytes: &[u8]) -> bool
    ensures { IsTrue result ↔ BeginsSection bytes.now }
{
    SECTION_TYPE.starts_with(front(bytes, SECTION_TYPE.len()))
}

// The order in which the magic number reads as it should, if it does in one.
fn magic_order(begin: &[u8]) -> Option<Order>
    requires { 12 ≤ length begin.now }
    ensures { result ≡ magic_order begin.now }
{
    if Order::Big.word_at(begin, MAGIC_PLACE) == BYTE_ORDER_MAGIC {
        Some(Order::Big)
    } else if Order::Little.word_at(begin, MAGIC_PLACE) == BYTE_ORDER_MAGIC {
        Some(Order::Little)
    } else {
        None
    }
}

// The order of the block that begins so, where it can be told. `Malformed` comes for a section header with another magic
// number.
fn order_of(present: Option<Order>, begin: &[u8]) -> Result<Option<Order>, Flaw>
    ensures ok { IfOk result (λ order. order ≡ order_of present begin.now) }
    ensures sound { OnOk result (lacks_order begin.now ≡ false) }
    ensures fault { IfErr result (λ flaw. (lacks_order begin.now ≡ true) × (flaw ≡ Malformed)) }
{
    if !is_section(begin) {
        return Ok(present);
    }
    if begin.len() < HEAD_BYTES {
        return Ok(None);
    }
    match magic_order(begin) {
        Some(order) => Ok(Some(order)),
        None => Err(Flaw::Malformed),
    }
}

// The order and the length, where both are there.
fn head_by(order: Option<Order>, begin: &[u8]) -> Option<Head>
    ensures head { result ≡ head_by order begin.now }
    ensures long { OnSome result (8 ≤ length begin.now) }
{
    let Some(order) = order else {
        return None;
    };
    if begin.len() < LENGTH_END {
        return None;
    }
    let size = order.word_at(begin, LENGTH_PLACE);
    Some(Head { order, size })
}

fn is_wrong_size(kind: BlockKind, size: u32) -> bool
    ensures { result ≡ is_wrong_size kind size }
{
    size < LEAST_LENGTH || size % 4 != 0 || kind.is_read() && size > MOST_LENGTH
}

/// The head of the block that begins these bytes behind blocks of this order, or `None` where it is not there yet.
/// `Malformed` comes where no block begins so.
pub(crate) fn read_head(present: Option<Order>, bytes: &[u8]) -> Result<Option<Head>, Flaw>
    ensures ok { IfOk result (λ head. head ≡ head_of present bytes.now) }
    ensures sound { OnOk result (begins_wrong present bytes.now ≡ false) }
    ensures fault { IfErr result (λ flaw. (begins_wrong present bytes.now ≡ true) × (flaw ≡ Malformed)) }
{
    let begin = front(bytes, HEAD_BYTES);
    let order = order_of(present, begin)?;
    let Some(head) = head_by(order, begin) else {
        return Ok(None);
    };
    if is_wrong_size(kind_at(head.order, begin), head.size) {
        return Err(Flaw::Malformed);
    }
    Ok(Some(head))
}
