//! The events of traces: rows of event logs and packets of captures, what each is known by at both ends of a message,
//! and what was accepted under the labels of a declaration: the events of all labels with their names, the messages
//! among them, and that their problem is lawful. Where a window is declared, events of one key that lie far apart in
//! time are of different messages.
#![tactic(auto)]

mod accepted;
mod captured;
mod event;
mod event_id;
mod event_names;
mod event_places;
mod laws;
mod moments;
mod rows;

pub use accepted::{Accepted, Stream};
pub use captured::packet_events;
pub use event::{Content, Event, Key, Mark, MessageKey, Moment, NoKey, Side};
pub use event_id::{Couple, EventId, PlacedEvent};
pub use event_names::{event_name, name_of};
pub use event_places::{event_count, events};
pub use laws::{groups_are_chains, lawful, messages_are_pairs, without_window};
pub use rows::row_events;
