//! The problem of a roster, written as its text: a line for the head, one for each clock, each follow, each event and each
//! message, and the end. Lines of which there may be many are gathered in pages, and no memory is taken. `problem_of_roster`
//! makes the same problem as a value, by its text. The lines and the pages serve for writing other problems too.
#![tactic(auto)]

mod held_problem;
mod laws;
mod lines;
mod pages;
mod roster_lines;
mod roster_problem;
mod text_sink;
mod words;

pub use held_problem::problem_of_roster;
pub use laws::read_again;
pub use lines::{write_clock, write_end, write_follow, write_head};
pub use pages::{Page, put};
pub use roster_problem::write_roster;
pub use words::{event_line, message_line};
