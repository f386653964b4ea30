//! The events of a session, by the number in which they came, by label and by name, and the readings of its clocks, listed
//! as they are printed.
//!
//! `growth` says what holds of a graph that grows event by event, between two additions and while events enter it, whatever
//! their order.
#![tactic(auto)]

mod arrivals;
mod came;
mod event_names;
mod groups;
mod growth;
mod laws;
mod listing;
mod readings;
mod roster;
mod sums;

pub use came::{Came, Partner};
pub use growth::{
    a_bound_is_pushed, a_graph_stands_for_its_roster, a_push_brings_events, an_event_enters,
    bounds_are_in_force_once, growth_begins_with_nothing, messages_are_withdrawn, nodes_are_pushed,
    the_whole_stands_for_its_problem,
};
pub use laws::{roster_lists_its_problem, rosters_grow, telling_keeps_events};
pub use roster::Roster;
