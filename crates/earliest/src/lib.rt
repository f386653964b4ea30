//! The earliest execution of a graph, kept while arcs are added and withdrawn, and the negative cycles for which there is
//! none.
//!
//! A new arc asks its tail to rise. Raises are given out with the values before as potential, the greatest first, so
//! that each node rises at most once; a raise of the new arc's own head shows a negative cycle. See B. V. Cherkassky
//! and A. V. Goldberg, "Negative-cycle detection algorithms", Mathematical Programming 85, 1999.
//!
//! Withdrawn arcs let nodes fall. The nodes from which arcs that the values meet exactly lead to a withdrawn one wait, each
//! to fall to 0. An arc to a node that does not wait stops its tail, and the least fall is given out first, so that each
//! of these nodes falls at most once and no other one changes.
#![tactic(auto)]

mod affected;
mod cycle;
mod falls;
mod in_force;
mod inserted;
mod kept;
pub mod laws;
mod raises;
mod rebuild;
mod settle;
mod withdraw;

pub use inserted::Inserted;
pub use kept::Earliest;
