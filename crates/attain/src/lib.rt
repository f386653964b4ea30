//! That arcs, and problems, have an outcome, an earliest execution or a contradiction; and certificates, written as
//! they are made: a contradiction bound by bound, an execution value by value, the ends of an interval path by path and
//! cut by cut.
//!
//! To write a certificate no call takes memory. For an outcome arcs are taken one after the other, with a table of the
//! least sums of paths. Where one more arc closes a cycle of negative sum, that is a contradiction; and where none
//! does, the earliest execution is read off the table.
#![tactic(auto)]

mod cut;
mod cycle;
mod ends;
mod interval;
pub mod laws;
mod lead;
mod node_rows;
pub mod outcomes;
mod part;
mod path;
mod run;
mod side;

pub use cycle::write_cycle;
pub use ends::write_ends;
pub use node_rows::NodeRows;
pub use run::write_run;
