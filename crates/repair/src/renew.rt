// Rows that are made, and rows that are repaired.
ghost use Rattle.std.specs.Prelude.{◌≡◌, ◌+◌, ◌<◌, ◌≤◌, ◌∷◌, [], true, All};
ghost use Rattle.problem_model.specs.Tables.{without};
ghost use Rattle.sync_graph.specs.Graph.{table_of};
ghost use Rattle.distances.specs.Searched.{nodes, table};
ghost use Rattle.repair.specs.Slots.{slots_in, HasRows, AreOwn, IsRowsOf, ChangesRowsOf};
ghost use Rattle.repair.specs.Renewals.{CanRenew, Renews, Repairs, insertion_steps};

use crate::slot::Slot;
use atto::Steps;
use distances::{Search, make_row, repair_row};
use frontier::IdleQueue;
use row_pool::RowPool;
use std::sync::ledger::Ledger;

/// Makes both rows of a slot.
pub fn make_rows<L: Ledger>(
    search: &Search,
    slot: &Slot,
    pool: &mut RowPool,
    queue: &mut IdleQueue,
    steps: &mut Steps<L>,
)
    requires has { HasRows pool.old slot.now }
    requires node { slot.now.node < nodes search.now }
    requires can { CanRenew search.now pool.old queue.old }
    ensures rows { IsRowsOf (nodes search.now) (table_of search.now.graph) pool.new slot.now }
    ensures changes { ChangesRowsOf (slot.now ∷ []) pool.old pool.new }
    ensures queue { queue.new ≡ queue.old }
{
    let _width = pool.width();
    let back = search.turned();
    make_row(search, slot.node, pool.row_mut(&slot.from), queue, steps);
    make_row(&back, slot.node, pool.row_mut(&slot.to), queue, steps);
}

/// Makes the rows of these slots.
pub fn make_all<L: Ledger>(
    search: &Search,
    entries: &[Option<Slot>],
    pool: &mut RowPool,
    queue: &mut IdleQueue,
    steps: &mut Steps<L>,
)
    requires own { AreOwn pool.old (slots_in entries.now) }
    requires below { All (λ slot. slot.node < nodes search.now) (slots_in entries.now) }
    requires can { CanRenew search.now pool.old queue.old }
    ensures renews { Renews search.now.graph (slots_in entries.now) pool.old pool.new }
    ensures queue { queue.new ≡ queue.old }
{
    for entry in entries {
        if let Some(slot) = entry {
            make_rows(search, slot, pool, queue, steps);
        }
    }
}

/// Repairs both rows of a slot after an arc was brought in.
pub fn repair_rows<L: Ledger>(
    search: &Search,
    arc: u32,
    slot: &Slot,
    pool: &mut RowPool,
    queue: &mut IdleQueue,
    steps: &mut Steps<L>,
)
    requires has { HasRows pool.old slot.now }
    requires before { IsRowsOf (nodes search.now) (without (table_of search.now.graph) arc) pool.old slot.now }
    requires in_force { (table search.now).in_force arc ≡ true }
    requires can { CanRenew search.now pool.old queue.old }
    ensures rows { IsRowsOf (nodes search.now) (table_of search.now.graph) pool.new slot.now }
    ensures changes { ChangesRowsOf (slot.now ∷ []) pool.old pool.new }
    ensures few { steps.new ≤ (steps.old + insertion_steps search.now.graph pool.old pool.new slot.now) }
    ensures queue { queue.new ≡ queue.old }
{
    let _width = pool.width();
    let back = search.turned();
    let from = pool.row_mut(&slot.from);
    repair_row(search, arc, slot.node, from, queue, steps);
    let to = pool.row_mut(&slot.to);
    repair_row(&back, arc, slot.node, to, queue, steps);
}

/// Repairs the rows of these slots.
pub fn repair_all<L: Ledger>(
    search: &Search,
    arc: u32,
    entries: &[Option<Slot>],
    pool: &mut RowPool,
    queue: &mut IdleQueue,
    steps: &mut Steps<L>,
)
    requires own { AreOwn pool.old (slots_in entries.now) }
    requires before { All (IsRowsOf (nodes search.now) (without (table_of search.now.graph) arc) pool.old) (slots_in entries.now) }
    requires in_force { (table search.now).in_force arc ≡ true }
    requires can { CanRenew search.now pool.old queue.old }
    ensures repairs { Repairs search.now.graph (slots_in entries.now) pool.old pool.new steps.old steps.new }
    ensures queue { queue.new ≡ queue.old }
{
    for entry in entries {
        if let Some(slot) = entry {
            repair_rows(search, arc, slot, pool, queue, steps);
        }
    }
}
