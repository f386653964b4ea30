//! Captures of packets, read piece by piece however they are cut, whatever format they are in.
//!
//! The bytes of a capture stand for packets, for how many more were passed over, for how many were dropped before they were
//! captured, and for a rest that waits for more bytes.
//! Nothing that a format has beside these passes this door. There are two formats, classic pcap and pcapng, and the first
//! byte tells which it is.
#![tactic(auto)]

mod errors;
mod kind;
mod laws;
mod stream;

pub use errors::CaptureError;
pub use laws::{
    captures_are_one, faults_are_one, kept_streams_are_read, new_stands, nothing_reads,
    old_packets_stay, refused_or_read, streams_are_judged, tails_are_one,
};
pub use packets::{Dropped, FirstPackets, Packet, Passed};
pub use stream::CaptureStream;
