//! What traces come to, in the plainest way: their messages by filters over all events, and their problem as a whole.
//! It is what tests compare with, and nothing else stands on it. `Additions` is what such tests add events to: a roster
//! and an index of messages, as a session keeps them, with the events of each label beside.
#![tactic(auto)]

mod additions;
mod couples;
mod groups;
mod items;
mod parts;
mod problems;
mod withdrawn;

pub use additions::Additions;
pub use couples::{messages, messages_in};
pub use problems::problem_of;
pub use withdrawn::missing;
