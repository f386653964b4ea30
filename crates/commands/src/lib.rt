//! The commands of the program: `run` does what the words on its command line say, over whatever files, input and
//! output it is given, and `run_to_end` does so over an output that it passes on to its end. Notes go to a sink of
//! their own.
#![tactic(auto)]

mod dated;
mod declaration;
mod help;
mod lines;
mod merged;
mod program;
mod request;
mod sessions;
mod trials;
mod whole;

pub use program::run;
pub use whole::run_to_end;
