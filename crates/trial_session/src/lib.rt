//! The session of a trial: it goes over the workload that is made of the trial's number, and is asked at its end.
//!
//! `logs` has the files that it reads, `lines` how lines are answered, `outcome` the whole and what it comes to.
#![tactic(auto)]

mod lines;
mod logs;
mod outcome;

pub use outcome::{Outcome, conduct};
