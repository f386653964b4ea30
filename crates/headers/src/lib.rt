//! What a captured packet is known by: the fields of its headers that are the same at both of its ends. It may stand in
//! an Ethernet frame, behind a Linux cooked header or by itself, and be of IPv4 (RFC 791) or of IPv6 (RFC 8200), with TCP
//! (RFC 9293) or UDP (RFC 768); where that is wanted, behind extension headers, or as a fragment.
#![tactic(auto)]

mod bytes;
mod ethernet;
mod extensions;
mod frame;
mod ipv4;
mod ipv6;
mod key;
mod link;
mod options;
mod packet;
mod pieces;
mod tcp;
mod transport;
mod udp;

pub use frame::decode;
pub use key::{Network, PacketKey, Piece, Ports, Reason, Segment, Transport, UserDatagram, Wanted};
pub use link::interface_of;
