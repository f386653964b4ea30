// Packets that are merged.
use packets::Packet;

/// A packet of a capture, and what it is merged by.
#[derive(Debug, Drop)]
pub struct Stored {
    /// The place of its label, from 0 on.
    pub place: u32,
    /// Its number there, from 1 on.
    pub n: u32,
    /// Its time in the earliest execution, in units of 1e-9 ns.
    pub value: i128,
    /// What was captured. The stamp of the clock there is not written.
    pub packet: Packet,
}
