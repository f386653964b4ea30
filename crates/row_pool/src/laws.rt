// What is proved of pools as such. Nothing is done here.
ghost use Rattle.std.specs.Prelude.{◌≡◌, ◌≢◌, ℕ, ◌<◌, List, ◌++◌, length};
ghost use Rattle.row_pool.specs.declared.cell.Cell.{Cell};
ghost use Rattle.row_pool.specs.Pool.{Pool, IsPool, IsTakenRow, row_at, row_of, written_pool, with_cells, grown};

/// All cells of a row that are written are its cells from then on, and no other row is changed.
pub fn one_row_is_written()
    ensures row { (pool : Pool) (number : ℕ) (cells : List Cell)
        → IsPool pool → number < length pool.rows → length cells ≡ pool.width
        → written_pool pool number cells ≡ with_cells pool number cells }
    ensures own { (pool : Pool) (number : ℕ) (cells : List Cell) → number < length pool.rows → row_of (with_cells pool number cells) number ≡ cells }
    ensures others { (pool : Pool) (number other : ℕ) (cells : List Cell) → other ≢ number → row_at (with_cells pool number cells) other ≡ row_at pool other }
{}

/// What growing leaves of a row that was there.
pub fn rows_stay()
    ensures taken { (pool : Pool) (count nodes number : ℕ) → IsTakenRow pool number → IsTakenRow (grown pool count nodes) number }
    ensures begins { (pool : Pool) (count nodes number : ℕ)
        → number < length pool.rows
        → (more : List Cell) × (row_of (grown pool count nodes) number ≡ row_of pool number ++ more) }
{}
