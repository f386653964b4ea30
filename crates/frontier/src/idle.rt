// A queue between two searches.
ghost use Rattle.std.specs.Prelude.{◌≡◌, ◌+◌, ◌-◌, IfOk, OnOk, OnErr};

use crate::Frontier;
use std::alloc::{AllocError, Global};
use std::marker::Model;

/// A queue in which no node waits. It is seen as how many nodes it has room for. What works on its field leaves it empty.
#[derive(Drop)]
pub struct IdleQueue {
    pub front: Frontier,
}

impl Model for IdleQueue {
    ghost use Rattle.std.specs.Prelude.{ℕ, length};
    ghost use Rattle.frontier.specs.Keys.{IsEmpty};

    ghost Value = { ℕ };

    ghost view = { λ q. length q.front };

    ghost invariant = { λ q. IsEmpty q.front };
}

impl IdleQueue {
    /// A queue with room for no node. No memory is taken.
    pub fn new(alloc: Global) -> IdleQueue
        ensures { result ≡ 0 }
    {
        IdleQueue {
            front: Frontier::new(alloc),
        }
    }

    /// A queue with room for so many nodes. An `Err` comes only if memory does not suffice.
    pub fn with_room(alloc: Global, nodes: u32) -> Result<IdleQueue, AllocError>
        ensures { IfOk result (λ queue. queue ≡ nodes) }
    {
        let front = Frontier::with_room(alloc, nodes)?;
        Ok(IdleQueue { front })
    }

    /// Grows the room to `nodes`, if it is less. An `Err` comes only if memory does not suffice, and then the room is as
    /// it was.
    pub fn reserve(&mut self, nodes: u32) -> Result<(), AllocError>
        ensures ok { OnOk result (self.new ≡ self.old + (nodes - self.old)) }
        ensures err { OnErr result (self.new ≡ self.old) }
    {
        self.front.reserve(nodes)
    }
}
