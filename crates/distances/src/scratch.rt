// A row that is wiped behind a search by the nodes that it took.
ghost use Rattle.std.specs.Prelude.{◌≡◌, ℕ, ◌<◌, [], true, false, max, All, Contains, length, OnOk, OnErr};
ghost use Rattle.frontier.specs.Keys.{IsEmpty};
ghost use Rattle.row_pool.specs.Row.{cell_at};
ghost use Rattle.distances.specs.Relaxed.{waits_of};
ghost use Rattle.distances.specs.Wiping.{IsWiped, rests};

use atto::Steps;
use frontier::Frontier;
use row_pool::Cell;
use std::alloc::{AllocError, Global};
use std::marker::Model;
use std::sync::ledger::Ledger;

/// A row for searches that are left early, in which no node is known between two of them, with a list for the nodes that
/// one takes: one of eight at most, and 1,024. It is seen as how many cells it has.
#[derive(Drop)]
pub struct Scratch {
    pub(crate) cells: Vec<Cell>,
    pub(crate) seen: Vec<u32>,
}

impl Model for Scratch {
    ghost use Rattle.std.specs.Prelude.{◌≡◌, ℕ, [], length};
    ghost use Rattle.distances.specs.Wiping.{IsWiped};

    ghost Value = { ℕ };

    ghost view = { λ s. length s.cells.items };

    ghost invariant = { λ s. IsWiped s.cells.items × (s.seen.items ≡ []) };
}

impl Scratch {
    /// No cell. It takes no memory.
    pub fn new(alloc: Global) -> Scratch
        ensures { result ≡ 0 }
    {
        Scratch {
            cells: Vec::new(alloc),
            seen: Vec::new(alloc),
        }
    }

    /// How many cells there are.
    pub fn cells(&self) -> usize
        ensures { result ≡ self.now }
    {
        self.cells.len()
    }

    /// Makes the cells at least so many. An `Err` comes only if memory does not suffice, and then they are as many as
    /// before.
    pub fn reserve(&mut self, nodes: u32) -> Result<(), AllocError>
        ensures ok { OnOk result (self.new ≡ max self.old nodes) }
        ensures err { OnErr result (self.new ≡ self.old) }
    {
        let room = nodes as usize;
        if room <= self.cells.len() {
            return Ok(());
        }
        self.seen.reserve(room / 8 + 1024)?;
        self.cells.resize(room, Cell::unknown())?;
        Ok(())
    }
}

/// Wipes the cells of the waiting nodes, which wait no more.
pub fn wipe_waiting<L: Ledger>(row: &mut [Cell], front: &mut Frontier, steps: &mut Steps<L>)
    requires within { (k : ℕ) → waits_of front.old k ≡ true → k < length row.old }
    ensures known { (k : ℕ) → (cell_at row.new k).known ≡ rests row.old front.old k }
    ensures same { (k : ℕ) → (cell_at row.new k).known ≡ true → (cell_at row.new k).value ≡ (cell_at row.old k).value }
    ensures cells { length row.new ≡ length row.old }
    ensures empty { IsEmpty front.new }
    ensures room { length front.new ≡ length front.old }
{
    while let Some((node, _)) = front.pop(steps) {
        row[node as usize] = Cell::unknown();
    }
}

/// Wipes the cells of the listed nodes, and the list.
pub fn wipe_seen(row: &mut [Cell], seen: &mut Vec<u32>)
    requires within { All (λ k. k < length row.old) seen.old.items }
    requires listed { (k : ℕ) → (cell_at row.old k).known ≡ true → Contains seen.old.items k }
    ensures wiped { IsWiped row.new }
    ensures unlisted { seen.new.items ≡ [] }
    ensures cells { length row.new ≡ length row.old }
{
    while let Some(node) = seen.pop() {
        row[node as usize] = Cell::unknown();
    }
}
