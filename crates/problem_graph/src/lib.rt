//! The graph of a problem, whoever numbers its nodes: which arcs a span of a clock, an event, a follow and a message
//! bring, and when a graph of them stands for the problem.
#![tactic(auto)]

mod arcs;

pub use arcs::{Arcs, follow_arcs, message_arcs, span_arcs, stamp_arcs};
