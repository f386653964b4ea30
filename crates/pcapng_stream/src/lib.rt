//! Packet captures in pcapng, read piece by piece however they are cut.
//!
//! Of pcapng (draft-ietf-opsawg-pcapng, PCAP Next Generation Capture File Format) section headers of major version 1,
//! interface descriptions with the options if_tsresol and if_tsoffset, enhanced packets, and of interface statistics
//! the options isb_ifdrop and isb_osdrop are read. All other options are ignored, and all other blocks are skipped:
//! simple packets have no time. Those of them that Wireshark numbers as frames are counted.
#![tactic(auto)]

mod block;
mod block_kind;
mod block_stream;
mod bytes;
mod content;
mod errors;
mod flaw;
mod head;
mod options;
mod order;
mod packet;
mod passed;
mod section;
mod skipped;
mod statistics;

pub use block_stream::BlockStream;
pub use errors::PcapngError;
