//! The workload of a trial: a declaration, logs and a script, which are made anew from one number.
//!
//! Eight hosts send each other 2,000 messages, drawn by a linear congruential generator that begins at that number. The
//! logs come in twenty batches of a hundred messages; after each of them the script asks for the first event of each
//! host. `draws` has the generator, `rounds` the messages, `declaration`, `pieces` and `script` the texts.
#![tactic(auto)]

mod declaration;
mod draws;
mod pieces;
mod rounds;
mod script;
mod workload;

pub use workload::{Trial, generate};
