//! Rows of greatest differences: the shortest distances from a node of a graph, or towards it. They are made, and they
//! are repaired after an arc more.
//!
//! Nodes are taken by least reduced cost, with values that obey all arcs as potential, the earliest execution or a
//! guide, so that no arc has a cost below 0 and each node is taken once. See D. B. Johnson, "Efficient algorithms for
//! shortest paths in sparse networks", Journal of the ACM 24, 1977. A repair begins at the head of the new arc, and
//! takes the nodes whose distance the arc shortens, and no other.
//!
//! The greatest difference of two nodes takes no whole row. Where the rows of a third node are known, a search from one
//! end is left early, and what it took is a fence for the search from the other (`near`).
#![tactic(auto)]

mod guide;
mod near;
mod reach;
mod relax;
mod repair;
mod row;
mod scratch;
mod search;
mod settle;
mod side;

pub use near::{End, MOST_AROUND, Surroundings, find_near};
pub use reach::find_reach;
pub use relax::{relax_arc, relax_arcs};
pub use repair::repair_row;
pub use row::make_row;
pub use scratch::Scratch;
pub use search::Search;
pub use side::Side;
