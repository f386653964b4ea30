//! Rows of distances that are kept while arcs come and go: those of up to eight events and of the source's clock.
//!
//! Each kept node has two rows of a pool, one of the distances from it and one of those towards it. While an execution
//! exists they are the rows of the present graph, so that a greatest difference of a kept node is looked up and not
//! computed. After an arc that was brought in each row is repaired, and only nodes whose distance it shortens are
//! taken. Once arcs are withdrawn, the cells whose paths by parents had one of them are cleared, each is pulled from
//! the neighbours that are left, and the nodes that are pulled are settled by least reduced cost. So no other cell is
//! looked at, but as a neighbour. See G. Ramalingam and T. Reps, "An incremental algorithm for a generalization of the
//! shortest-path problem", Journal of Algorithms 21, 1996.
#![tactic(auto)]

mod affected;
mod keep;
mod kept;
mod laws;
mod look;
mod regrow;
mod renew;
pub mod row_laws;
mod slot;
mod withdraw;
mod withdrawal;

pub use keep::{KeepError, new_slot};
pub use kept::Kept;
pub use laws::{rows_in_a_grown_pool, rows_of_a_grown_graph};
pub use slot::Slot;
pub use withdraw::{Withdrawal, withdraw_row};
