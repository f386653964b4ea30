// Merged packets, and how long they were after one event.
use crate::DatedPackets;
use intervals::Ends;
use traces::EventId;

/// How long packets were after one event.
#[derive(Debug, Drop)]
pub struct Since {
    /// The event.
    pub event: EventId,
    /// The least and the greatest real time from it to each packet, in units of 1e-9 ns, in the order of the packets.
    pub ends: Vec<Ends>,
}

/// All that a merged file has.
#[derive(Debug, Drop)]
pub struct MergedPackets {
    /// The packets with their dates.
    pub dated: DatedPackets,
    /// How long they were after one event.
    pub since: Since,
}
