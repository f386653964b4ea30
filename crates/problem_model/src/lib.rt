//! What a problem is: its types, the difference constraints `x_to - x_from <= weight` between numbered nodes that its
//! bounds come to, and in `specs/` the definitions that contracts cite.
//!
//! These define executions, paths and contradictions, greatest differences, cuts, the earliest execution and rows of
//! distances. `differences` says what is proved of them, and `numbers` has the few sums that solvers make. Declared
//! bounds are difference constraints on real times, as in B. Patt-Shamir and S. Rajsbaum, "A Theory of Clock
//! Synchronization", STOC 1994.
#![tactic(auto)]

mod bounds;
pub mod differences;
mod items;
mod limits;
mod name;
pub mod numbers;

pub use bounds::{follows_join_neighbours, nodes_are_one_list, short_list_suffices};
pub use items::{Bound, Clock, Event, Follow, Message, Node, StampBounds};
pub use limits::{MOST_CLOCKS, MOST_EVENTS, MOST_MESSAGES, MOST_STEPS};
pub use name::Name;
