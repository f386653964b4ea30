//! A graph that is kept while events come, with the ends of messages among them. An addition brings events of one
//! label, and with them the messages may change: those that go are withdrawn, the events enter the graph in the order
//! of their stamps, and each message that comes joins it as soon as both its ends have entered. Between any two of
//! these steps the graph has grown to the events that have entered. No clause asks for this order: what is proved holds
//! of any.
//!
//! Behind an addition the graph stands for the problem of all that was accepted, whatever the order in which it came.
//! It has at most eight arcs an event, those of withdrawn messages among them.
#![tactic(auto)]

mod arrivals;
mod changes;
mod entries;
mod follows;
mod joints;
mod kept;
mod links;
mod nearest;
mod numbers;
mod plans;
mod pushes;
mod room;
mod withdrawn;

pub use kept::KeptGraph;
