//! What is asked of a problem and of its events, of an engine that holds the problem's answer, the earliest execution
//! or a contradiction: whether some execution obeys the bounds, the interval of the difference of two real times and
//! its certificate, their order, and the time of an event by a clock.
//!
//! Events are named by their nodes in the engine's graph, and a listing tells which event of which name a node is. No
//! call takes memory. What is kept is read and not computed, without a step; what is not is computed in rows that the
//! engine has free, and then a step is counted for each node that is asked for at the frontier and each arc that is
//! asked for at a node.
//!
//! `IsSolutionBy` says that the engine's graph stands for a problem, by whatever listing. The laws carry over what it
//! holds: its values, its contradiction, greatest differences of its nodes. How a graph of the problem came about they
//! do not ask.
#![tactic(auto)]

mod comparison;
mod consistent;
mod contradiction;
mod lines;
mod prove;
mod reply;
mod reply_laws;
mod solver_laws;
mod stop;
mod time;

pub use comparison::{Asked, Comparison};
pub use consistent::is_consistent;
pub use contradiction::write_contradiction;
pub use lines::{ends_line, order_word};
pub use prove::write_proof;
pub use reply::write_comparison;
pub use reply_laws::replies_are_one;
pub use solver_laws::{contradictions, executions, own_graphs, pairs};
pub use stop::Stop;
pub use time::write_time;
