//! The interval in which the difference of two real times lies over all executions, their order, and an event's time by a
//! source's clock, of the greatest differences in both directions.
#![tactic(auto)]

mod ends;
pub mod laws;
mod order;

pub use ends::{End, Ends, ends_from, source_time};
pub use order::{Order, order_of};
