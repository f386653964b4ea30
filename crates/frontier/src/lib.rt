//! Nodes that wait for a solver, each with a key, of which the least is taken first.
#![tactic(auto)]

mod heap;
mod idle;
mod order;

ghost use Rattle.std.specs.Prelude.{◌≡◌, ◌+◌, ◌-◌, ◌<◌, ◌≤◌, ◌^◌, [], ◌++◌, length, replicate, IfNone, IfSome, IfOk, OnOk, OnErr, List, ℤ, ◌≤ℤ◌, slice_set, slice_index_or, Option, Some, None};
ghost use Rattle.frontier.specs.Keys.{Waits, IsFreeNode, IsEmpty, IsLeastEntry};

use crate::heap::{remove_root, sift_up};
use atto::Steps;
pub use idle::IdleQueue;
use std::alloc::{AllocError, Global};
use std::marker::Model;
use std::sync::ledger::Ledger;

/// The place of a node that does not wait.
const NOWHERE: u32 = u32::MAX;

/// The nodes that wait, each with its key. It is seen as a list as long as its room: at the place of each node its key,
/// or none.
///
/// Beside the keys it has a heap of the nodes that wait, and the place of each of them there; a node that does not wait
/// has none. So `put` and `lower` look at one node for each level of the heap, and `pop` at two. A node takes 24 bytes,
/// and the heap's capacity is never less than the room.
#[derive(Drop)]
pub struct Frontier {
    keys: Vec<i128>,
    heap: Vec<u32>,
    places: Vec<u32>,
}

impl Model for Frontier {
    ghost use Rattle.std.specs.Prelude.{List, Option, ℤ, length, ◌<◌, ◌≤◌, ◌^◌, vec_capacity};
    ghost use Rattle.frontier.specs.Heap.{waiting_keys, IsHeap};

    ghost Value = { List (Option ℤ) };

    ghost view = { λ f. waiting_keys f.keys.items f.places.items };

    ghost invariant = { λ f. (length f.places.items < 2 ^ 32) × (length f.places.items ≤ length f.keys.items) × (length f.places.items ≤ vec_capacity f.heap) × IsHeap (waiting_keys f.keys.items f.places.items) f.heap.items f.places.items };
}

impl Frontier {
    /// Nothing waits, and there is room for no node. No memory is taken.
    #[tactic(auto, unfolding(crate::specs::Heap::waiting_keys))]
    pub fn new(alloc: Global) -> Frontier
        ensures { result ≡ [] }
    {
        Frontier {
            keys: Vec::new(alloc),
            heap: Vec::new(alloc),
            places: Vec::new(alloc),
        }
    }

    /// Nothing waits, and there is room for so many nodes. An `Err` comes only if memory does not suffice.
    pub fn with_room(alloc: Global, nodes: u32) -> Result<Frontier, AllocError>
        ensures empty { IfOk result (λ front. IsEmpty front) }
        ensures room { IfOk result (λ front. length front ≡ nodes) }
    {
        let mut front = Frontier::new(alloc);
        front.reserve(nodes)?;
        Ok(front)
    }

    /// Grows the room to `nodes`, if it is less. What waits goes on waiting. An `Err` comes only if memory does not
    /// suffice, and then neither keys nor room are different.
    pub fn reserve(&mut self, nodes: u32) -> Result<(), AllocError>
        ensures ok { OnOk result (self.new ≡ self.old ++ replicate (nodes - length self.old) None) }
        ensures err { OnErr result (self.new ≡ self.old) }
    {
        let room = nodes as usize;
        if room <= self.places.len() {
            return Ok(());
        }
        self.heap.reserve(room - self.heap.len())?;
        self.keys.resize(room, 0)?;
        self.places.resize(room, NOWHERE)
    }

    /// No node waits any more, and the room is the same.
    pub fn clear(&mut self)
        ensures { self.new ≡ replicate (length self.old) None }
    {
        while let Some(last) = self.heap.pop() {
            self.places[last as usize] = NOWHERE;
        }
    }

    /// A free node waits from now on, with this key.
    pub fn put(&mut self, node: u32, key: i128)
        requires { IsFreeNode self.old node }
        ensures { self.new ≡ slice_set self.old node (Some key) }
    {
        let last = self.heap.len();
        self.keys[node as usize] = key;
        self.places[node as usize] = last as u32;
        self.heap.push_reserved(node);
        sift_up(&self.keys, &mut self.heap, &mut self.places, last, node);
    }

    /// Gives a node that waits a key that is no greater than the one it has.
    pub fn lower(&mut self, node: u32, key: i128)
        requires { (before : ℤ) × Waits self.old node before × (key ≤ℤ before) }
        ensures { self.new ≡ slice_set self.old node (Some key) }
    {
        let hole = self.places[node as usize] as usize;
        self.keys[node as usize] = key;
        sift_up(&self.keys, &mut self.heap, &mut self.places, hole, node);
    }

    /// The key with which a node waits. It is `None` of any other node, also of one past the room.
    pub fn key(&self, node: u32) -> Option<i128>
        ensures { result ≡ slice_index_or self.now node None }
    {
        let place = *self.places.get(node as usize)?;
        if place == NOWHERE {
            return None;
        }
        Some(self.keys[node as usize])
    }

    /// Takes out the node that no other comes before, and gives it with its key: of the least keys it is the one whose
    /// node has the least number. It is `None` if nothing waits, and only then. Whatever it answers is one step.
    pub fn pop<L: Ledger>(&mut self, steps: &mut Steps<L>) -> Option<(u32, i128)>
        ensures none { IfNone result (IsEmpty self.old) }
        ensures same { IfNone result (self.new ≡ self.old) }
        ensures least { IfSome result (λ entry. IsLeastEntry self.old entry.0 entry.1) }
        ensures taken { IfSome result (λ entry. self.new ≡ slice_set self.old entry.0 None) }
        ensures step { steps.new ≡ steps.old + 1 }
    {
        steps.tick();
        let node = *self.heap.first()?;
        let key = self.keys[node as usize];
        self.places[node as usize] = NOWHERE;
        remove_root(&self.keys, &mut self.heap, &mut self.places);
        Some((node, key))
    }
}
