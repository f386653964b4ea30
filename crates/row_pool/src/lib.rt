//! Rows of distances: what a row says of a node, what is read of it, and a pool that lends rows.
#![tactic(auto)]

mod cell;
mod laws;
mod pool;
mod region;

pub use cell::{Cell, NO_PARENT, Pair, Reach};
pub use laws::{one_row_is_written, rows_stay};
pub use pool::{RowId, RowPool};
