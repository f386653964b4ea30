//! Units of real time, rates of clocks, spans between readings, the texts of numbers, and a count of
//! steps.
//!
//! One unit of real time is 1e-9 ns, an attosecond. Spans and delays are exact: nothing is rounded.
#![tactic(auto)]

mod nano;
mod rate;
mod steps;
mod text;
mod units;

pub use nano::{Nano, delay_units};
pub use rate::{Rate, span_least, span_most, spans_add};
pub use steps::Steps;
pub use text::{
    NsText, NumFault, read_decimal, read_ns, spellings_are_one, write_decimal, write_ns,
};
pub use units::Units;
