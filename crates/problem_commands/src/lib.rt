//! The commands over texts of problems: `obey`, `solve`, `ends`, `verify`, `widen`, `judge`, `blame` and `thin`.
#![tactic(auto)]

pub mod blame;
pub mod ends;
pub mod judge;
pub mod last_line;
pub mod obey;
mod print;
pub mod refusal;
pub mod solve;
pub mod status;
mod texts;
pub mod thin;
pub mod verify;
pub mod what_words;
pub mod widening;

pub use status::Status;
