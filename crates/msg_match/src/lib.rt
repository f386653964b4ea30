//! Messages among events of all labels: which send and receive are one message, kept by an index of keys while events
//! are added. Where events have times, those of one key that lie apart are of several groups, and a message is of one
//! group. Events go by their numbers: what is found among those that come, how many messages a change brings and
//! takes, and, as definitions, which keys are ambiguous.
#![tactic(auto)]

mod change;
mod changes;
mod couples;
mod ends;
mod entry;
mod group;
mod item;
mod key_matcher;
mod keys;
mod laws;
mod matcher;
mod message_items;
mod regrouping;
mod series;
mod tables;
mod tallies;

pub use change::{Change, Couple, Tallies};
pub use changes::{Changed, counts};
pub use ends::ends_grow;
pub use group::Group;
pub use item::Item;
pub use laws::matched_events_are_ends;
pub use matcher::Matcher;
pub use message_items::items_of;
pub use traces::{Content, Key, MessageKey, Moment, Side};
