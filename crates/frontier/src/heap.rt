// A heap of the nodes that wait, and the place of each. One place, the hole, is moved up or down to where a node belongs.
ghost use Rattle.std.specs.Prelude.{◌≡◌, ◌≢◌, ℕ, ◌<◌, ◌^◌, length, slice_set, vec_capacity, IfNone, IfSome};
ghost use Rattle.frontier.specs.Keys.{IsFreeNode};
ghost use Rattle.frontier.specs.Heap.{heap_node, waiting_keys, IsHeap, HasHole, IsWaiting, ComesOutFirst, IsAheadBelow, IsBehindAbove, IsChildPlace};

use crate::order::comes_first;

/// Moves the hole up to where the node belongs, and puts the node there.
pub fn sift_up(keys: &[i128], heap: &mut [u32], places: &mut [u32], mut hole: usize, node: u32)
    requires few { length heap.old < 2 ^ 32 }
    requires waits { IsWaiting (waiting_keys keys.now places.old) node }
    requires hole { HasHole (waiting_keys keys.now places.old) heap.old places.old hole node }
    requires ahead { IsAheadBelow (waiting_keys keys.now places.old) heap.old hole node }
    ensures keys { waiting_keys keys.now places.new ≡ waiting_keys keys.now places.old }
    ensures heap { IsHeap (waiting_keys keys.now places.old) heap.new places.new }
{
    while hole > 0 {
        let above = (hole - 1) / 2;
        let parent = heap[above];
        if comes_first(keys, parent, node) {
            break;
        }
        seat(heap, places, hole, parent);
        hole = above;
    }
    seat(heap, places, hole, node);
}

/// Moves the hole down to where the node belongs, and puts the node there.
pub fn sift_down(keys: &[i128], heap: &mut [u32], places: &mut [u32], mut hole: usize, node: u32)
    requires few { length heap.old < 2 ^ 32 }
    requires waits { IsWaiting (waiting_keys keys.now places.old) node }
    requires hole { HasHole (waiting_keys keys.now places.old) heap.old places.old hole node }
    requires behind { IsBehindAbove (waiting_keys keys.now places.old) heap.old hole node }
    ensures keys { waiting_keys keys.now places.new ≡ waiting_keys keys.now places.old }
    ensures heap { IsHeap (waiting_keys keys.now places.old) heap.new places.new }
{
    while let Some(below) = first_below(keys, heap, hole) {
        let child = heap[below];
        if comes_first(keys, node, child) {
            break;
        }
        seat(heap, places, hole, child);
        hole = below;
    }
    seat(heap, places, hole, node);
}

// Of the two places below another the one whose node comes out first.
fn first_below(keys: &[i128], heap: &[u32], place: usize) -> Option<usize>
    requires few { length heap.now < 2 ^ 32 }
    requires place { place < length heap.now }
    requires nodes { (k : ℕ) → k < length heap.now → k ≢ place → heap_node heap.now k < length keys.now }
    ensures none { IfNone result ((k : ℕ) → k < length heap.now → IsChildPlace k place → ⊥) }
    ensures below { IfSome result (λ first. IsChildPlace first place) }
    ensures within { IfSome result (λ first. first < length heap.now) }
    ensures first { IfSome result (λ first. (k : ℕ) → k < length heap.now → IsChildPlace k place → k ≢ first → ComesOutFirst keys.now (heap_node heap.now first) (heap_node heap.now k)) }
{
    let left = 2 * place + 1;
    let right = left + 1;
    if right < heap.len() && comes_first(keys, heap[right], heap[left]) {
        return Some(right);
    }
    if left < heap.len() {
        return Some(left);
    }
    None
}

// Puts a node at a place.
fn seat(heap: &mut [u32], places: &mut [u32], place: usize, node: u32)
    requires few { length heap.old < 2 ^ 32 }
    requires place { place < length heap.old }
    requires node { node < length places.old }
    ensures heap { heap.new ≡ slice_set heap.old place node }
    ensures places { places.new ≡ slice_set places.old node place }
{
    heap[place] = node;
    places[node as usize] = place as u32;
}

/// Takes the root out, whose node waits no more.
pub fn remove_root(keys: &[i128], heap: &mut Vec<u32>, places: &mut [u32])
    requires few { length heap.old.items < 2 ^ 32 }
    requires gone { IsFreeNode (waiting_keys keys.now places.old) (heap_node heap.old.items 0) }
    requires hole { HasHole (waiting_keys keys.now places.old) heap.old.items places.old 0 (heap_node heap.old.items 0) }
    ensures keys { waiting_keys keys.now places.new ≡ waiting_keys keys.now places.old }
    ensures heap { IsHeap (waiting_keys keys.now places.old) heap.new.items places.new }
    ensures capacity { vec_capacity heap.new ≡ vec_capacity heap.old }
{
    if let Some(last) = heap.pop() {
        if !heap.is_empty() {
            sift_down(keys, heap, places, 0, last);
        }
    }
}
