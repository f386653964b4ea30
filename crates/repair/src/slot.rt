// A node of which the rows are kept.
ghost use Rattle.std.specs.Prelude.{◌≡◌, ◌==◌, ◌+◌, ◌≤◌, ℕ, length, find, slice_get, Some, None, IfNone, IfSome};
ghost use Rattle.repair.specs.declared.slot.Slot as slots;
ghost use Rattle.std.specs.Option.{option_copied};
ghost use Rattle.repair.specs.Slots.{slots_in};

use row_pool::RowId;

/// A node and the numbers of its two rows.
#[derive(Drop)]
pub struct Slot {
    /// The number of the node in the graph.
    pub node: u32,
    /// The row of the distances from the node.
    pub from: RowId,
    /// The row of the distances towards the node.
    pub to: RowId,
}

/// The first slot of a node.
pub fn find_slot(entries: &[Option<Slot>], node: u32) -> Option<&Slot>
    ensures { option_copied result ≡ find (λ slot. slot.node == node) (slots_in entries.now) }
{
    for entry in entries {
        if let Some(slot) = entry {
            if slot.node == node {
                return Some(slot);
            }
        }
    }
    None
}

/// The place of the first slot of a node, from 1.
pub fn place_of(entries: &[Option<Slot>], node: u32) -> Option<u32>
    requires { length entries.now ≤ 8 }
    ensures none { IfNone result (find (λ slot. slot.node == node) (slots_in entries.now) ≡ None) }
    ensures place { IfSome result (λ place. (slot : slots.Slot) × (k : ℕ) × (find (λ slot. slot.node == node) (slots_in entries.now) ≡ Some slot) × (place ≡ k + 1) × (slice_get entries.now k ≡ Some (Some slot))) }
{
    for (before, entry) in entries.iter().enumerate() {
        if let Some(slot) = entry {
            if slot.node == node {
                return Some(before as u32 + 1);
            }
        }
    }
    None
}
