//! Merged packets as one file of pcapng (draft-ietf-opsawg-pcapng, PCAP Next Generation Capture File Format): one section, an
//! interface for each label and each link type that its packets have, and each packet with its date, both its lengths, and a
//! comment that names its event and says how long after one event it was, in any execution.
#![tactic(auto)]

mod dates;
mod descriptions;
mod laws;
mod remarks;
mod since;
mod taps;
mod write;

pub use dates::{DateError, DatedPackets, date};
pub use laws::{files_are_read_back, taps_are_one};
pub use since::{MergedPackets, Since};
pub use taps::Tap;
pub use write::write_merged;
