//! Texts that tests of several crates use: two hosts with a log each, and others; texts made of lines, and files with
//! texts. No crate but those of tests stands on it.
#![tactic(auto)]

mod certificates;
mod declarations;
mod files;
mod problems;
mod replies;
mod texts;

pub use certificates::{APART_PROOF, CYCLE, TWO_LOGS_PROOF};
pub use declarations::{TWO_CAPTURES_DECLARATION, TWO_CLOCKS_DECLARATION, TWO_LOGS_DECLARATION};
pub use files::files_of;
pub use problems::{
    APART_PROBLEM, CONTRADICTING_PROBLEM, HOPELESS_PROBLEM, LATE_LOGS_PROBLEM, ONE_WAY_PROBLEM,
    OPEN_PROBLEM, TWO_LOGS_PROBLEM,
};
pub use replies::EMPTY_REPORT;
pub use texts::{push_lines, text_with};
