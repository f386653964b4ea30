//! Files of pcapng (draft-ietf-opsawg-pcapng, PCAP Next Generation Capture File Format) that are written block by block,
//! little-endian, version 1.0: one section header, descriptions of interfaces, and enhanced packets with stamps in ns.
#![tactic(auto)]

mod blocks;
mod laws;
mod options;
mod said;

pub use blocks::{write_interface, write_packet, write_section};
pub use laws::files_are_read;
pub use said::{InterfaceText, PacketText};
