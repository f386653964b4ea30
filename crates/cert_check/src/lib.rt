//! Judges executions and certificates by the bounds of a problem.
#![tactic(auto)]

mod answer;
mod attained;
mod certificates;
mod cut;
mod cycle;
mod declared;
mod laws;
mod path;
mod text;
mod verdict;
mod walk;
mod what;

pub use answer::{Answer, Part, Reason};
pub use certificates::{check, check_cycle};
pub use declared::{Declaration, declared_in};
pub use laws::{reasons, soundness};
pub use text::check_text;
pub use verdict::{Verdict, obeys, obeys_widened};
pub use what::{Clocks, Links, What};
