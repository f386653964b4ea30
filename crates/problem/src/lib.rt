//! Problems: their lists, how they grow, and how their text is read.
#![tactic(auto)]

mod chains;
mod errors;
mod items;
mod lines;
mod listing;
mod names;
mod nearest;
mod problem;
mod ranges;
mod read;
mod readings;
mod version;
mod words;

pub use errors::{ProblemError, PushError};
pub use listing::Listing;
pub use nearest::NearestFollow;
pub use problem::Problem;
pub use problem_model::{Bound, Clock, Event, Follow, Message, Name, Node};
pub use read::{problem_answers_are_one, read_problem};
pub use version::Version;
