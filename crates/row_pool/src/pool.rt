// A pool that lends rows.
ghost use Rattle.std.specs.Prelude.{◌≡◌, ◌≢◌, ℕ, ◌+◌, ◌*◌, ◌<◌, ◌≤◌, ◌↔◌, [], true, false, ◌^◌, length, position, not, IfNone, IfSome, IsTrue, OnOk, OnErr};
ghost use Rattle.std.specs.Borrow.{sem, Lends, Array};
ghost use Rattle.problem_model.specs.Limits.{most_nodes};
ghost use Rattle.row_pool.specs.Region.{spaced};
ghost use Rattle.row_pool.specs.Pool.{IsPool, IsTakenRow, IsFree, row_of, free_rows, written_pool, marked, grown};
ghost use Rattle.row_pool.specs.Writing.{TakesBoth, WritesTwo};
ghost use Rattle.row_pool.specs.contracts.cell.Cell.{the_row as cell_row};
ghost use Rattle.row_pool.specs.contracts.pool.RowPool.{the_row};

use crate::cell::Cell;
use crate::region::write_both;
use std::alloc::{AllocError, Global};
use std::marker::Model;

/// The number of a row of a pool, from 0. It is seen as that number.
#[derive(Debug, PartialEq, Eq, Drop)]
pub struct RowId {
    number: u32,
}

impl Model for RowId {
    ghost use Rattle.std.specs.Prelude.{ℕ};

    ghost Value = { ℕ };

    ghost view = { λ r. r.number };

    ghost inverse = { λ n. record { number = n } };
}

/// Rows of one width, each free or taken, all in one region. It is seen as the list of its rows, with their width.
#[derive(Drop)]
pub struct RowPool {
    alloc: Global,
    cells: Vec<Cell>,
    taken: Vec<bool>,
    width: u32,
}

impl Model for RowPool {
    ghost use Rattle.row_pool.specs.Pool.{Pool};
    ghost use Rattle.row_pool.specs.Region.{pool_of, IsRegion};

    ghost Value = { Pool };

    ghost view = { λ p. pool_of p.width p.taken.items p.cells.items };

    ghost invariant = { λ p. IsRegion p.width p.taken.items p.cells.items };
}

impl RowPool {
    /// A pool without rows. No memory is taken.
    pub fn new(alloc: Global) -> RowPool
        ensures rows { result.rows ≡ [] }
        ensures width { result.width ≡ 0 }
    {
        RowPool {
            alloc,
            cells: Vec::new(alloc),
            taken: Vec::new(alloc),
            width: 0,
        }
    }

    /// Grows the pool to at least `rows` rows of at least `nodes` cells. A row that is taken stays so and begins with its
    /// old cells; each new row is free, and each new cell unknown. An `Err` comes only if memory does not suffice, and then
    /// all is as before.
    pub fn reserve(&mut self, rows: u32, nodes: u32) -> Result<(), AllocError>
        requires rows { rows ≤ 32 }
        requires nodes { nodes ≤ most_nodes }
        ensures ok { OnOk result (self.new ≡ grown self.old rows nodes) }
        ensures err { OnErr result (self.new ≡ self.old) }
    {
        let before = self.taken.len();
        let narrow = self.width as usize;
        let count = before.max(rows as usize);
        let width = narrow.max(nodes as usize);
        if count == before && width == narrow {
            return Ok(());
        }
        let mut cells = Vec::with_capacity(self.alloc, count * width)?;
        append_spaced(&mut cells, &self.cells, before, narrow, width - narrow)?;
        cells.resize(count * width, Cell::unknown())?;
        self.taken.resize(count, false)?;
        self.cells = cells;
        self.width = width as u32;
        Ok(())
    }

    /// How many cells each row has.
    pub fn width(&self) -> u32
        ensures width { result ≡ self.now.width }
        ensures lawful { IsPool self.now }
    {
        self.width
    }

    /// How many rows are free.
    pub fn free(&self) -> u32
        ensures { result ≡ free_rows self.now }
    {
        self.taken.iter().filter(|taken| !**taken).count() as u32
    }

    /// Whether the pool has a row of this number that is taken.
    pub fn is_taken(&self, id: &RowId) -> bool
        ensures { IsTrue result ↔ IsTakenRow self.now id.now }
    {
        self.taken.get(id.number as usize).copied().unwrap_or(false)
    }

    /// Takes a free row, of which the cells may hold anything. It is `None` where no row is free, and only there.
    pub fn take(&mut self) -> Option<RowId>
        ensures none { IfNone result ((number : ℕ) → IsFree self.old number → ⊥) }
        ensures same { IfNone result (self.new ≡ self.old) }
        ensures free { IfSome result (λ id. IsFree self.old id) }
        ensures taken { IfSome result (λ id. self.new ≡ marked self.old id true) }
    {
        match first_free(&self.taken) {
            None => None,
            Some(number) => {
                self.taken[number] = true;
                Some(RowId {
                    number: number as u32,
                })
            }
        }
    }

    /// Gives a row back, which is free from then on.
    pub fn give(&mut self, id: RowId)
        requires { IsTakenRow self.old id }
        ensures { self.new ≡ marked self.old id false }
    {
        self.taken[id.number as usize] = false;
    }

    /// The cells of a row that is taken.
    pub fn row(&self, id: &RowId) -> &[Cell]
        requires { IsTakenRow self.now id.now }
        ensures value { result.now ≡ row_of self.now id.now }
        ensures width { length result.now ≡ self.now.width }
    {
        let width = self.width as usize;
        let start = id.number as usize * width;
        &self.cells[start..start + width]
    }

    /// The cells of a row that is taken, for writing. What is written changes this row and no other.
    pub fn row_mut(&mut self, id: &RowId) -> &mut [Cell]
        requires { IsTakenRow self.old id.now }
        ensures* writes_back { sem 𝓛 (Lends the_row (Array cell_row 0) self.entry result (written_pool self.old id.now)) }
        ensures value { result.now ≡ row_of self.old id.now }
        ensures width { length result.now ≡ self.old.width }
    {
        let width = self.width as usize;
        let start = id.number as usize * width;
        self.cells.slice_mut(start..start + width)
    }

    /// Lets a function write the cells of two rows that are taken and differ. What it writes changes these rows and no
    /// other.
    pub fn two_mut<F: FnOnce(&mut [Cell], &mut [Cell])>(
        &mut self,
        first: &RowId,
        second: &RowId,
        write: F,
    )
        requires first { IsTakenRow self.old first.now }
        requires second { IsTakenRow self.old second.now }
        requires apart { first.now ≢ second.now }
        requires callable { TakesBoth F.FnOnce write (row_of self.old first.now) (row_of self.old second.now) }
        ensures { WritesTwo F.FnOnce write self.old self.new first.now second.now }
    {
        let width = self.width as usize;
        let one = first.number as usize * width;
        let two = second.number as usize * width;
        write_both(&mut self.cells, one, two, width, write);
    }
}

// The first place at which no row is taken.
fn first_free(taken: &[bool]) -> Option<usize>
    ensures { result ≡ position (λ b. not b) taken.now }
{
    taken.iter().position(|taken| !*taken)
}

// Appends rows of cells, each with so many unknown cells behind it.
fn append_spaced(
    out: &mut Vec<Cell>,
    cells: &[Cell],
    rows: usize,
    width: usize,
    more: usize,
) -> Result<(), AllocError>
    requires empty { out.old.items ≡ [] }
    requires whole { length cells.now ≡ rows * width }
    requires few { rows * (width + more) < 2 ^ 32 }
    ensures { OnOk result (out.new.items ≡ spaced width more rows cells.now) }
{
    let mut rest = cells;
    for _row in 0..rows {
        let (row, behind) = rest.split_at(width);
        out.extend_from_slice(row)?;
        out.resize(out.len() + more, Cell::unknown())?;
        rest = behind;
    }
    Ok(())
}
