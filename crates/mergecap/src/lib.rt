//! The packets of several captures as one capture, in the order of their times: a classic pcap file, version 2.4,
//! little-endian and with nanoseconds.
#![tactic(auto)]

mod errors;
mod heads;
mod laws;
mod order;
mod start;
mod stored;
mod write;

pub use errors::ArrangeError;
pub use laws::{arranged_in_one_way, merged_captures_are_read};
pub use order::{arrange, sort};
pub use start::Start;
pub use stored::Stored;
pub use write::write_capture;
