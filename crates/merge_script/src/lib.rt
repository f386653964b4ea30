//! A script of additions whose packets are merged: each line adds a file to a label, and the packets of all captures are
//! put in the order of their events' times. What a capture has beside its packets is told on a sink of its own.
#![tactic(auto)]

mod added_packets;
mod arrangement;
mod dated;
mod notes;
mod sizes;
mod unmerged;

pub use arrangement::merge_script;
pub use dated::date_script;
pub use unmerged::Unmerged;
