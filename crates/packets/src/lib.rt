//! What captures give, whatever format they are in: packets, of which the first ones may be kept alone, how many more
//! were passed over, and how many were dropped before.
#![tactic(auto)]

mod dropped;
mod first_packets;
mod packet;
mod passed;

pub use dropped::Dropped;
pub use first_packets::FirstPackets;
pub use packet::Packet;
pub use passed::Passed;
