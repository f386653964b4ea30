//! Reports on traces: how many events and messages there are, how many packets were passed over or dropped, how many
//! events have no key or no partner, and which keys are ambiguous, with the texts of keys and the names of events, as
//! one line of JSON (RFC 8259); and the order and the lines of events that are merged.
//!
//! A report has no space between its parts, and an object's keys stand in byte order. What it is made of comes in as a
//! `View`, which `trace_view` makes of the events of all labels; the line knows nothing of sessions or of how messages
//! are found.
#![tactic(auto)]

mod alone;
mod ambiguous;
mod dropped_labels;
mod fragments;
mod key_names;
mod key_parts;
mod laws;
mod line;
mod merge;
mod nokey_counts;
mod passed_counts;
mod texts;
mod trace_view;
mod values;
mod view;

pub use laws::counts_add_up;
pub use line::report_line;
pub use merge::{MergeKey, merge_order, write_merge_line};
pub use texts::key_text;
pub use trace_view::view_of;
pub use view::{LabelDrops, NamedGroup, NoKeys, PassedSums, View};
