// Values of nodes, and the rises that wait to be given out.
ghost use Rattle.std.specs.Prelude.{◌≡◌, ◌<◌, length, IfOk, IfSome};
ghost use Rattle.problem_model.specs.Numbers.{IsUpTo};

use atto::Steps;
use frontier::Frontier;
use std::alloc::{AllocError, Global};
use std::marker::Model;
use std::sync::ledger::Ledger;

// Values and weights count as far as this, in units of 1e-9 ns. What lies beyond is taken for the limit.
const LIMIT: i128 = 1 << 120;

/// A rise of a node, and the value that the node had before.
#[derive(Drop)]
pub struct Rise {
    pub node: u32,
    pub before: i128,
}

/// The difference constraint of an arc: the value of `to` less that of `from` is to be at most `weight`.
#[derive(Drop)]
pub struct Demand {
    pub arc: u32,
    pub from: u32,
    pub to: u32,
    pub weight: i128,
}

// A value or a weight, no farther than the limit.
fn limited(v: i128) -> i128
    ensures { IsUpTo 120 result }
{
    if v > LIMIT {
        return LIMIT;
    }
    if v < -LIMIT {
        return -LIMIT;
    }
    v
}

// By how much the tail of an arc must rise for the arc to be obeyed.
fn lacking(from: i128, to: i128, weight: i128) -> i128
    ensures { IsUpTo 122 result }
{
    limited(to) - limited(weight) - limited(from)
}

// Lets a node wait for a rise, where it waits for less; whether it does so now.
fn wait(waiting: &mut Frontier, node: u32, rise: i128) -> bool
    requires node { node < length waiting.old }
    requires rise { IsUpTo 122 rise }
    ensures { length waiting.new ≡ length waiting.old }
{
    match waiting.key(node) {
        None => {
            if rise <= 0 {
                return false;
            }
            waiting.put(node, -rise);
        }
        Some(key) => {
            if key <= -rise {
                return false;
            }
            waiting.lower(node, -rise);
        }
    }
    true
}

/// One value for each node, which starts at 0, the arc by which each rose last, and the rises that wait. It is seen as
/// how many nodes there are.
#[derive(Drop)]
pub struct Rises {
    values: Vec<i128>,
    reasons: Vec<u32>,
    waiting: Frontier,
}

impl Model for Rises {
    ghost use Rattle.std.specs.Prelude.{ℕ, ◌≡◌, length};

    ghost Value = { ℕ };

    ghost view = { λ r. length r.values.items };

    ghost invariant = { λ r. (length r.reasons.items ≡ length r.values.items) × (length r.waiting ≡ length r.values.items) };
}

impl Rises {
    /// The values of so many nodes. Nothing waits.
    pub fn new(alloc: Global, nodes: u32) -> Result<Rises, AllocError>
        ensures { IfOk result (λ rises. rises ≡ nodes) }
    {
        let mut values = Vec::new(alloc);
        let mut reasons = Vec::new(alloc);
        values.resize(nodes as usize, 0)?;
        reasons.resize(nodes as usize, 0)?;
        let waiting = Frontier::with_room(alloc, nodes)?;
        Ok(Rises {
            values,
            reasons,
            waiting,
        })
    }

    /// The value of a node.
    pub fn value(&self, node: u32) -> i128
        requires { node < self.now }
    {
        self.values[node as usize]
    }

    /// The number of the arc by which a node rose last, or waits to rise.
    pub fn reason(&self, node: u32) -> u32
        requires { node < self.now }
    {
        self.reasons[node as usize]
    }

    /// Lets the tail of an arc wait for the rise that the arc asks for, where it waits for less.
    pub fn ask(&mut self, demand: &Demand)
        requires from { demand.now.from < self.old }
        requires to { demand.now.to < self.old }
        ensures { self.new ≡ self.old }
    {
        let from = demand.from as usize;
        let to = demand.to as usize;
        let rise = lacking(self.values[from], self.values[to], demand.weight);
        if wait(&mut self.waiting, demand.from, rise) {
            self.reasons[from] = demand.arc;
        }
    }

    /// Gives out the greatest rise that waits; `None` where none does. It is one step.
    pub fn give<L: Ledger>(&mut self, steps: &mut Steps<L>) -> Option<Rise>
        ensures same { self.new ≡ self.old }
        ensures node { IfSome result (λ rise. rise.node < self.old) }
    {
        let (node, key) = self.waiting.pop(steps)?;
        let before = self.values[node as usize];
        self.values[node as usize] = limited(before) - limited(key);
        Some(Rise { node, before })
    }

    /// Takes a rise back.
    pub fn take_back(&mut self, rise: &Rise)
        ensures { self.new ≡ self.old }
    {
        if let Some(value) = self.values.get_mut(rise.node as usize) {
            *value = rise.before;
        }
    }

    /// No rise waits any more.
    pub fn forget(&mut self)
        ensures { self.new ≡ self.old }
    {
        self.waiting.clear();
    }
}
