// What kept rows tell of a node.
ghost use Rattle.std.specs.Prelude.{◌≡◌, ◌<◌, length};
ghost use Rattle.row_pool.specs.Row.{cells_of};
ghost use Rattle.row_pool.specs.Reach.{reach_of};
ghost use Rattle.repair.specs.Slots.{HasRows};
ghost use Rattle.repair.specs.Pairs.{pair_in};

use crate::slot::Slot;
use row_pool::{Cell, Pair, Reach, RowPool};

// The greatest difference that a row tells of a node.
fn reach_in(row: &[Cell], node: u32) -> Reach
    requires { node < length row.now }
    ensures { result ≡ reach_of (cells_of row.now) node }
{
    row[node as usize].reach()
}

/// The greatest differences that the rows of a slot tell of a node.
pub fn look_in(slot: &Slot, pool: &RowPool, node: u32) -> Pair
    requires rows { HasRows pool.now slot.now }
    requires node { node < pool.now.width }
    ensures { result ≡ pair_in pool.now slot.now node }
{
    Pair {
        up: reach_in(pool.row(&slot.from), node),
        down: reach_in(pool.row(&slot.to), node),
    }
}
