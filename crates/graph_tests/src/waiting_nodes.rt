// The order in which nodes are taken.
ghost use Rattle.std.specs.Prelude.{◌≡◌, ◌<◌, [], ◌∷◌, None, length};

use atto::Steps;
use frontier::Frontier;
use std::alloc::{AllocError, Global};
use std::marker::Brand;
use std::sync::ledger::{Blank, Ledger};
use std::test::*;

// Nodes come by key, then by node; a lowered key counts, and so do the extremes.
#[test]
fn the_least_comes_first(rt: HostRuntime) {
    assert!(rt; the_least_come::<Brand>(rt.alloc(), Blank::new(1)));
}

// The same of a frontier that is made here.
fn the_least_come<L: Ledger>(alloc: Global, blank: Blank) -> bool
    requires { (blank.name ≡ L.name) × (blank.parts ≡ L.parts) × (0 < L.parts) }
{
    let mut steps = Steps::<L>::open(blank);
    let mut front = Frontier::new(alloc);
    front.reserve(5).is_ok() && put_all(&mut front) && comes_as(&mut front, &mut steps)
}

// Puts four of five nodes, and tells whether their keys are there.
fn put_all(front: &mut Frontier) -> bool
    requires { front.old ≡ None ∷ None ∷ None ∷ None ∷ None ∷ [] }
{
    front.put(4, 7);
    front.lower(4, i128::MIN);
    front.put(1, -3);
    front.put(3, -3);
    front.put(0, i128::MAX);
    front.key(1) == Some(-3) && front.key(2).is_none() && front.key(5).is_none()
}

// Whether these nodes come in this order, and no other.
fn comes_as<L: Ledger>(front: &mut Frontier, steps: &mut Steps<L>) -> bool {
    for want in [
        Some((4, i128::MIN)),
        Some((1, -3)),
        Some((3, -3)),
        Some((0, i128::MAX)),
        None,
    ] {
        if front.pop(steps) != want {
            return false;
        }
    }
    true
}

// The same calls in any order give what a table of keys gives in which all are looked at.
#[test]
fn it_answers_as_a_table_of_keys(rt: HostRuntime) {
    for seed in [1, 2, 3] {
        assert!(rt; table_agrees::<Brand>(rt.alloc(), Blank::new(1), seed));
    }
}

// Whether a frontier and a table that are made here agree.
fn table_agrees<L: Ledger>(alloc: Global, blank: Blank, seed: u64) -> bool
    requires { (blank.name ≡ L.name) × (blank.parts ≡ L.parts) × (0 < L.parts) }
{
    let mut steps = Steps::<L>::open(blank);
    let mut tried = Tried {
        front: Frontier::new(alloc),
        room: 0,
        table: [None; 24],
    };
    agree(&mut tried, &mut steps, seed) == Ok(true)
}

// A frontier, its room, and a table of keys that is given the same calls.
#[derive(Drop)]
struct Tried {
    front: Frontier,
    room: u32,
    table: [Option<i128>; 24],
    ghost as_long: { room ≡ length front },
}

// Whether 600 calls, chosen by a linear congruential generator, give the same in both.
fn agree<L: Ledger>(
    tried: &mut Tried,
    steps: &mut Steps<L>,
    seed: u64,
) -> Result<bool, AllocError> {
    let mut state = seed;
    for _ in 0..600 {
        state = state
            .wrapping_mul(6364136223846793005)
            .wrapping_add(1442695040888963407);
        if !call(tried, steps, state >> 32)? || !same_keys(tried) {
            return Ok(false);
        }
    }
    Ok(true)
}

// One call, in both; whether the answers are one. Most keys are equal to others.
fn call<L: Ledger>(
    tried: &mut Tried,
    steps: &mut Steps<L>,
    drawn: u64,
) -> Result<bool, AllocError> {
    let node = (drawn / 64 % 24) as u32;
    let key = KEYS[(drawn / 2048 % 8) as usize];
    match drawn % 64 {
        0 => clear(tried),
        1..=3 => reserve(tried, node)?,
        4..=30 => put(tried, node, key),
        31..=50 => lower(tried, node, key),
        _ => return Ok(pop(tried, steps)),
    }
    Ok(true)
}

// The keys that are drawn from.
const KEYS: [i128; 8] = [i128::MIN, -2, -1, -1, 0, 0, 3, i128::MAX];

// Nothing waits in either.
fn clear(tried: &mut Tried) {
    tried.front.clear();
    tried.table = [None; 24];
}

// Room for so many nodes, if there is less.
fn reserve(tried: &mut Tried, nodes: u32) -> Result<(), AllocError> {
    tried.front.reserve(nodes)?;
    tried.room = tried.room.max(nodes);
    Ok(())
}

// Puts a node that has room and does not wait.
fn put(tried: &mut Tried, node: u32, key: i128) {
    if node < tried.room && tried.front.key(node).is_none() {
        tried.front.put(node, key);
        set_key(&mut tried.table, node, Some(key));
    }
}

// Lowers the key of a node that waits, where it is not less already.
fn lower(tried: &mut Tried, node: u32, key: i128) {
    if let Some(before) = tried.front.key(node) {
        if key <= before {
            tried.front.lower(node, key);
            set_key(&mut tried.table, node, Some(key));
        }
    }
}

// Whether the node that comes is the least of the table.
fn pop<L: Ledger>(tried: &mut Tried, steps: &mut Steps<L>) -> bool {
    let least = least(&tried.table);
    if let Some((node, _)) = least {
        set_key(&mut tried.table, node, None);
    }
    tried.front.pop(steps) == least
}

// Whether both have the same keys.
fn same_keys(tried: &Tried) -> bool {
    for (node, key) in tried.table.iter().enumerate() {
        if tried.front.key(node as u32) != *key {
            return false;
        }
    }
    true
}

// Writes the key of a node into a table that has it.
fn set_key(table: &mut [Option<i128>], node: u32, key: Option<i128>) {
    if let Some(place) = table.get_mut(node as usize) {
        *place = key;
    }
}

// The entry that no other comes before, by a look at all of them.
fn least(table: &[Option<i128>; 24]) -> Option<(u32, i128)> {
    let mut best = None;
    for (node, key) in table.iter().enumerate() {
        best = better(best, node as u32, *key);
    }
    best
}

// Of the best so far and the entry of one more node, if it waits, the one that comes first.
fn better(best: Option<(u32, i128)>, node: u32, key: Option<i128>) -> Option<(u32, i128)> {
    match (best, key) {
        (None, Some(key)) => Some((node, key)),
        (Some(entry), Some(key)) => if key < entry.1 {
            Some((node, key))
        } else {
            Some(entry)
        },
        (best, None) => best,
    }
}
