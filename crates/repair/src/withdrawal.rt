// Rows that are repaired once arcs are withdrawn.
ghost use Rattle.std.specs.Prelude.{◌≡◌, ◌≤◌, ◌∷◌, [], length};
ghost use Rattle.sync_graph.specs.Graph.{table_of};
ghost use Rattle.distances.specs.Searched.{nodes};
ghost use Rattle.repair.specs.Slots.{slots_in, HasRows, AreOwn, IsRowsOf, ChangesRowsOf};
ghost use Rattle.repair.specs.Renewals.{CanRenew};
ghost use Rattle.repair.specs.Withdrawals.{WereRows, WithdrawsRows, TakesFewToWithdraw, ChangesFewCells, WritesFewPlaces};

use crate::slot::Slot;
use crate::withdraw::{Withdrawal, withdraw_row};
use atto::Steps;
use frontier::IdleQueue;
use row_pool::RowPool;
use std::sync::ledger::Ledger;

// Repairs both rows of a slot.
fn withdraw_rows<L: Ledger>(
    withdrawal: &Withdrawal,
    slot: &Slot,
    pool: &mut RowPool,
    found: &mut [u32],
    queue: &mut IdleQueue,
    steps: &mut Steps<L>,
)
    requires has { HasRows pool.old slot.now }
    requires before { WereRows withdrawal.now.search.graph withdrawal.now.removed.now pool.old (slot.now ∷ []) }
    requires can { CanRenew withdrawal.now.search pool.old queue.old }
    requires found { nodes withdrawal.now.search ≤ length found.old }
    ensures rows { IsRowsOf (nodes withdrawal.now.search) (table_of withdrawal.now.search.graph) pool.new slot.now }
    ensures changes { ChangesRowsOf (slot.now ∷ []) pool.old pool.new }
    ensures few { TakesFewToWithdraw withdrawal.now.search.graph withdrawal.now.removed.now (slot.now ∷ []) pool.old steps.old steps.new }
    ensures cells { ChangesFewCells withdrawal.now.search.graph withdrawal.now.removed.now (slot.now ∷ []) pool.old pool.new }
    ensures places { WritesFewPlaces withdrawal.now.search.graph withdrawal.now.removed.now (slot.now ∷ []) pool.old found.old found.new }
    ensures queue { queue.new ≡ queue.old }
{
    let _width = pool.width();
    let back = withdrawal.turned();
    let from = pool.row_mut(&slot.from);
    withdraw_row(withdrawal, slot.node, from, found, queue, steps);
    let to = pool.row_mut(&slot.to);
    withdraw_row(&back, slot.node, to, found, queue, steps);
}

/// Repairs the rows of these slots.
pub fn withdraw_all<L: Ledger>(
    withdrawal: &Withdrawal,
    entries: &[Option<Slot>],
    pool: &mut RowPool,
    found: &mut [u32],
    queue: &mut IdleQueue,
    steps: &mut Steps<L>,
)
    requires own { AreOwn pool.old (slots_in entries.now) }
    requires before { WereRows withdrawal.now.search.graph withdrawal.now.removed.now pool.old (slots_in entries.now) }
    requires can { CanRenew withdrawal.now.search pool.old queue.old }
    requires found { nodes withdrawal.now.search ≤ length found.old }
    ensures withdraws { WithdrawsRows withdrawal.now.search.graph withdrawal.now.removed.now (slots_in entries.now) pool.old pool.new found.old found.new steps.old steps.new }
    ensures queue { queue.new ≡ queue.old }
{
    for entry in entries {
        if let Some(slot) = entry {
            withdraw_rows(withdrawal, slot, pool, found, queue, steps);
        }
    }
}
