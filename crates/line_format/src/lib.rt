//! Texts of lines and words: how they are cut, and what their first fault is.
//!
//! A format says of its lines which words they have, and of the lines so far which lines may follow: by form,
//! by names, by the ranges of numbers, by how many there may be. `specs/Format.antt` defines from this what
//! reading a text answers: what it says, or the number of its first faulty line with the first cause in this
//! order. A text that ends early, lacks its last line feed or goes on behind its end is faulty by the same rule.
//! A format that meets `IsReadable` gives each text at most one answer (`proofs/OneAnswer.antt`).
#![tactic(auto)]

mod fault;
mod parts;

pub use fault::{FaultKind, LineError, Taken};
pub use parts::{cut, five_words, four_words, three_words};

/// The most bytes of a text that is read: 2^34. It is held in memory whole.
pub const MOST_BYTES: usize = 1 << 34;
