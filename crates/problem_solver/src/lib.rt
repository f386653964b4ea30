//! The earliest execution of a problem, or a contradiction where it has none.
//!
//! The bounds are brought in one by one, in the order in which their events come: upward on each clock and on those
//! that follow it, each send before its receive, and otherwise by the stamps, with the offsets of the clocks taken off,
//! which follow messages. So most of them raise few values, since few of a clock's readings are there when a message
//! raises one. No clause says more of the ranks than that there is one for each event; tests show them.
//!
//! `steps` counts each node that is asked for at the frontier and each arc that is asked for at a node. No number of
//! them is promised.
#![tactic(auto)]

mod graphs;
mod item_arcs;
mod items;
mod offsets;
mod problems;
mod pushes;
mod queue;
mod ranks;
mod solution;
mod times;

pub use graphs::solve_graph;
pub use problems::solve;
pub use ranks::event_ranks;
pub use solution::GraphSolution;
