// A captured packet.
use atto::Nano;

/// A packet as it was captured.
#[derive(Debug, Drop)]
pub struct Packet {
    /// When it was captured, in ns of the clock that stamped it.
    pub stamp: Nano,
    /// The link type of its capture, the lower 16 bits of the field.
    pub link: u16,
    /// The number of its interface in its section of a pcapng capture; None of a classic one, which numbers none.
    pub interface: Option<u32>,
    /// How many bytes it had on its link, as its capture says (the original packet length of both formats). Nothing ties
    /// it to how many were captured.
    pub original_length: u32,
    /// Its first bytes, as many as were captured.
    pub bytes: Vec<u8>,
}
