//! Executions and certificates of a problem: their values, and the texts that they are read from and written as.
#![tactic(auto)]

mod bounds;
mod certificate;
mod chain;
mod error;
mod execution;
mod heads;
mod kinds;
mod laws;
mod lists;
mod nodes;
mod parts;
mod read;
mod read_certificate;
pub mod steps;
pub mod take_part;
mod words;
mod write;

pub use certificate::{Cert, EndProof};
pub use chain::{Chain, Step};
pub use error::{CertError, error_at};
pub use execution::Execution;
pub use heads::behind;
pub use kinds::{Extreme, Side, StampBound};
pub use laws::{listings, read_again};
pub use lists::{write_steps, write_values};
pub use read::{execution_answers_are_one, read_execution};
pub use read_certificate::{certificate_answers_are_one, read_cert};
pub use write::{push_bound, push_clock, push_event, write_step, write_value};
