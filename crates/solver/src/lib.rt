//! A graph of bounds with what is known of it, kept while arcs come and go: its earliest execution, or a contradiction
//! where it has none, and the rows of kept nodes.
//!
//! Between two calls all that is held is of the present graph. So the value of a node, and the greatest differences of a
//! kept node, are read and not computed.
//!
//! A step is one call of `leaving`, `arriving` or `pop`. How many an arc more may take is promised; no number of steps is
//! for the other calls, but that a kept node is asked for without any.
#![tactic(auto)]

mod kept_nodes;
mod loan;
mod pairs;
mod pushes;
mod search;
mod solver;
mod withdrawn_arcs;

pub use loan::Lent;
pub use solver::Solver;
