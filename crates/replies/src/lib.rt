//! Commands of a session, and the replies to them.
//!
//! `read_command` tells what a line asks for: to add a file to a label, to keep an event, or a `Question`. What a reply
//! to it may be, and what a session then has, is a relation (`specs/Reply.antt`); here stand the lines of it that tell
//! what came of a change (`Outcome`) and why a line changes nothing (`Refusal`), and the events of all labels in one
//! order, by their times in the earliest execution (`merge`). Laws say that a line asks for one command at most, that
//! it has one reply but for which contradiction, path or smaller problem is printed, and that what a session has stays
//! lawful.
//!
//! It knows no session: who keeps the graph, and who answers questions of it, cite what a reply is from here.
#![tactic(auto)]

mod command;
mod keys;
mod laws;
mod lines;
mod merge;
mod merge_laws;
mod names;
mod outcome;
mod refusal;
mod refused;
mod times_laws;

pub use command::{Command, Question, read_command};
pub use laws::{
    commands_are_one, outputs_are_one, proofs_are_one, reads_are_one, replies_are_one,
    sessions_are_lawful,
};
pub use merge::write_merge;
pub use merge_laws::merges_are_one;
pub use names::Names;
pub use outcome::{Added, Aside, Outcome};
pub use refusal::{Refusal, capture_refusal, log_refusal, write_refusal};
pub use refused::{RefusedText, refused_text, too_long_text};
pub use times_laws::times_are_one;
