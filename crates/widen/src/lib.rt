//! The least widening that heals a contradiction: by how much each greatest delay of a message must be greater at
//! least, or each least delay less, stamps or rates off by more, of all or of one clock or link, or each gap between
//! clocks that follow each other less, so that an execution exists.
//!
//! A `Widening` says so with what shows it from both sides: an execution of the problem that is widened by that much,
//! and a contradiction of the one that is widened by 1 less; or a contradiction of the one that is widened by as much
//! as can be. `judge` checks one and trusts no solver; `read_widening` and `write_widening` have its text. `blame_text`
//! says by how much each of several must be widened by itself.
#![tactic(auto)]

mod attempt;
mod blame;
mod choice;
mod cycles;
mod found;
mod healing;
mod known;
mod laws;
mod links;
mod named;
mod proposed;
mod raising;
mod read;
mod rises;
mod shared_cycles;
mod text;
mod tried;
mod verdicts;
mod weighed;
mod widening;
mod write;

pub use blame::blame_text;
pub use found::{Found, least_widening, widening_in_rounds};
pub use laws::{blames_are_one, found_widenings, least, widening_answers_are_one};
pub use named::{NamedClocks, NamedLinks, NamedWhat, what_of};
pub use read::read_widening;
pub use text::judge_text;
pub use verdicts::judge;
pub use widening::{StatedWidening, Widening};
pub use write::write_widening;
