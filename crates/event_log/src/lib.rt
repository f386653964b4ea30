//! Event logs: rows of comma-separated fields, each with a stamp, a kind, a message and a text.
#![tactic(auto)]

mod errors;
mod fields;
mod front;
mod law;
mod log_text;
mod read;
mod row;
mod word_key;

pub use errors::LogError;
pub use law::log_answers_are_one;
pub use log_text::LogText;
pub use read::{FirstRows, read_first_rows, read_rows};
pub use row::{Kind, Row};
pub use word_key::WordKey;
