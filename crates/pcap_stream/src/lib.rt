//! Packet captures in the classic pcap format, version 2.4, read piece by piece however they are cut.
#![tactic(auto)]

mod errors;
mod header;
mod record;
mod stream;

pub use errors::PcapError;
pub use stream::PcapStream;
