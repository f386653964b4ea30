//! What a session keeps ready for questions: the graph of all that was added, with the ends of messages and the rows of
//! the kept events and of the source.
//!
//! `renew` brings the events and messages of an addition into the graph, and gives the source its rows when its first
//! reading comes. `keep_event` gives an event its rows. `ask_comparison`, `ask_proof` and `ask_time` answer questions
//! about events by their names, and `ask_times` the question for the times of all events. `ends_since` tells how long many
//! events were after one.
#![tactic(auto)]

mod answers;
mod events;
mod kept_events;
mod quantity;
mod questions;
mod since;
mod slots;
mod times;
mod times_lines;

pub use answers::{Answers, Renewed, decl_of, first_answers, renew};
pub use events::{TwoNames, find_event};
pub use kept_events::keep_event;
pub use questions::{ask_comparison, ask_proof, ask_time};
pub use since::ends_since;
pub use times::ask_times;
