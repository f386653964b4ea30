// The kinds of blocks, by their types.
ghost use Rattle.std.specs.Prelude.{◌≡◌, ◌≤◌, length};
ghost use Rattle.pcapng_stream.specs.Blocks.{is_section, kind_at, statistics_kind};
ghost use Rattle.pcapng_stream.specs.Flaws.{is_read, least_length};

use crate::order::Order;

/// The type of a section header, as it is written in either order.
pub(crate) const SECTION_TYPE: [u8; 4] = [0x0a, 0x0d, 0x0d, 0x0a];

// The types of blocks that are read, beside that of a section header.
const INTERFACE_TYPE: u32 = 1;

const PACKET_TYPE: u32 = 6;

const STATISTICS_TYPE: u32 = 5;

// Where the length of a block stands, and how many bytes of statistics are read.
const LENGTH_PLACE: usize = 4;

const MOST_STATISTICS: u32 = 1 << 24;

/// The kind of a block.
#[derive(Clone, Copy, Debug, PartialEq, Eq)]
pub enum BlockKind {
    /// It begins a section, and tells the order of its bytes.
    SectionHeader,
    /// It tells the link type of an interface, and how its times are read.
    InterfaceDescription,
    /// It has a packet.
    EnhancedPacket,
    /// It tells how many packets were dropped at an interface. It has at most 2^24 bytes: a longer one is `Other`.
    InterfaceStatistics,
    /// It is skipped.
    Other,
}

/// Whether a section header begins these bytes.
pub(crate) fn is_section(bytes: &[u8]) -> bool
    ensures { result ≡ is_section bytes.now }
{
    bytes.starts_with(&SECTION_TYPE)
}

// The kind of statistics of this length.
fn statistics_kind(size: u32) -> BlockKind
    ensures { result ≡ statistics_kind size }
{
    if size > MOST_STATISTICS {
        BlockKind::Other
    } else {
        BlockKind::InterfaceStatistics
    }
}

/// The kind of the block that begins so, whose bytes have this order.
pub(crate) fn kind_at(order: Order, begin: &[u8]) -> BlockKind
    requires { 8 ≤ length begin.now }
    ensures { result ≡ kind_at order begin.now }
{
    if is_section(begin) {
        return BlockKind::SectionHeader;
    }
    match order.word_at(begin, 0) {
        INTERFACE_TYPE => BlockKind::InterfaceDescription,
        PACKET_TYPE => BlockKind::EnhancedPacket,
        STATISTICS_TYPE => statistics_kind(order.word_at(begin, LENGTH_PLACE)),
        _ => BlockKind::Other,
    }
}

impl BlockKind {
    /// Whether what such a block says is read.
    pub(crate) fn is_read(self) -> bool
        ensures { result ≡ is_read self }
    {
        match self {
            BlockKind::SectionHeader => true,
            BlockKind::InterfaceDescription => true,
            BlockKind::EnhancedPacket => true,
            BlockKind::InterfaceStatistics => true,
            BlockKind::Other => false,
        }
    }

    /// The least length of such a block, in bytes.
    pub(crate) fn least_length(self) -> usize
        ensures { result ≡ least_length self }
    {
        match self {
            BlockKind::SectionHeader => 28,
            BlockKind::InterfaceDescription => 20,
            BlockKind::EnhancedPacket => 32,
            BlockKind::InterfaceStatistics => 12,
            BlockKind::Other => 12,
        }
    }
}
