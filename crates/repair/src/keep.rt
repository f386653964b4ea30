// Nodes that are kept from now on.
ghost use Rattle.std.specs.Prelude.{◌≡◌, ◌<◌, ◌≤◌, IfSome};
ghost use Rattle.sync_graph.specs.Graph.{table_of};
ghost use Rattle.row_pool.specs.Pool.{free_rows};
ghost use Rattle.distances.specs.Searched.{nodes};
ghost use Rattle.repair.specs.Slots.{IsRowsOf};
ghost use Rattle.repair.specs.Keeping.{TakesRows};
ghost use Rattle.repair.specs.Renewals.{CanRenew};

use crate::renew::make_rows;
use crate::slot::Slot;
use atto::Steps;
use distances::Search;
use frontier::IdleQueue;
use row_pool::RowPool;
use std::sync::ledger::Ledger;

/// Why a node gets no slot.
#[derive(Clone, Copy, Debug, PartialEq, Eq, thiserror::Error)]
pub enum KeepError {
    /// It has this one already, counted from 1.
    #[error("the node is kept already, in slot {0}")]
    Already(u32),
    /// Eight nodes are kept.
    #[error("eight nodes are kept")]
    Full,
}

// Takes two free rows for a node.
fn take_rows(node: u32, pool: &mut RowPool) -> Slot
    requires free { 2 ≤ free_rows pool.old }
    ensures node { result.node ≡ node }
    ensures takes { TakesRows pool.old pool.new result }
{
    let _width = pool.width();
    let Some(from) = pool.take() else {
        unreachable!()
    };
    let Some(to) = pool.take() else {
        unreachable!()
    };
    Slot { node, from, to }
}

/// Takes two free rows for a node, and makes them where there is a search, of an execution that exists.
pub fn new_slot<L: Ledger>(
    search: &Option<Search>,
    node: u32,
    pool: &mut RowPool,
    queue: &mut IdleQueue,
    steps: &mut Steps<L>,
) -> Slot
    requires free { 2 ≤ free_rows pool.old }
    requires node { IfSome search.now (λ s. node < nodes s) }
    requires can { IfSome search.now (λ s. CanRenew s pool.old queue.old) }
    ensures node { result.node ≡ node }
    ensures takes { TakesRows pool.old pool.new result }
    ensures rows { IfSome search.now (λ s. IsRowsOf (nodes s) (table_of s.graph) pool.new result) }
    ensures queue { queue.new ≡ queue.old }
{
    let slot = take_rows(node, pool);
    if let Some(search) = search {
        make_rows(search, &slot, pool, queue, steps);
    }
    slot
}
