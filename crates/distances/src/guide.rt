// The values by which a search for two near nodes is guided.
ghost use Rattle.std.specs.Prelude.{◌≡◌, ◌+◌, true, pos, ◌+ℤ◌};
ghost use Rattle.std.specs.Int.{int_div_euclid};
ghost use Rattle.problem_model.specs.Numbers.{IsUpTo};
ghost use Rattle.problem_model.specs.Limits.{path_bits};
ghost use Rattle.row_pool.specs.Row.{cell_at};
ghost use Rattle.distances.specs.Guides.{most_later, least_later, mean_of, fenced};

use problem_model::numbers::longer;
use row_pool::Cell;

// More than any difference that a row tells, in units of 1e-9 ns: 2^118.
const FAR: i128 = 1 << 118;

/// The cell of a node, unknown where the row has none.
pub fn cell_of(row: &[Cell], node: u32) -> Cell
    ensures { result ≡ cell_at row.now node }
{
    row.get(node as usize).copied().unwrap_or(Cell::unknown())
}

// How much later a node is at most, by its cell of the row from a node.
fn most_later(from: &Cell, value: i128) -> i128
    requires cell { from.now.known ≡ true → IsUpTo (path_bits + 3) from.now.value }
    requires value { IsUpTo path_bits value }
    ensures later { result ≡ most_later from.now value }
    ensures small { IsUpTo (path_bits + 3) result }
{
    if from.known { from.value } else { value + FAR }
}

// How much later a node is at least, by its cell of the row towards a node.
fn least_later(to: &Cell, value: i128) -> i128
    requires cell { to.now.known ≡ true → IsUpTo (path_bits + 3) to.now.value }
    requires value { IsUpTo path_bits value }
    ensures later { result ≡ least_later to.now value }
    ensures small { IsUpTo (path_bits + 3) result }
{
    if to.known { -to.value } else { value - FAR }
}

// Half of a sum, rounded down.
fn half_sum(most: i128, least: i128) -> i128
    requires most { IsUpTo (path_bits + 3) most }
    requires least { IsUpTo (path_bits + 3) least }
    ensures half { result ≡ int_div_euclid (most +ℤ least) (pos 2) }
    ensures small { IsUpTo (path_bits + 4) result }
{
    let sum = longer(most, least);
    sum.div_euclid(2)
}

// How much later a node is in the mean, by its cells of the rows from a node and towards it, rounded down, in units of
// 1e-9 ns.
fn mean_of(from: &Cell, to: &Cell, value: i128) -> i128
    requires from { from.now.known ≡ true → IsUpTo (path_bits + 3) from.now.value }
    requires to { to.now.known ≡ true → IsUpTo (path_bits + 3) to.now.value }
    requires value { IsUpTo path_bits value }
    ensures mean { result ≡ mean_of from.now to.now value }
    ensures small { IsUpTo (path_bits + 4) result }
{
    half_sum(most_later(from, value), least_later(to, value))
}

// What a node counts by its cell of a fence: its distance, the other way round, or where it is not in there the mean,
// less by what is beyond the fence.
fn fenced(cell: &Cell, mean: i128, beyond: i128) -> i128
    requires cell { cell.now.known ≡ true → IsUpTo (path_bits + 3) cell.now.value }
    requires mean { IsUpTo (path_bits + 4) mean }
    requires beyond { IsUpTo path_bits beyond }
    ensures { result ≡ fenced cell.now mean beyond }
{
    if cell.known {
        -cell.value
    } else {
        mean - beyond
    }
}

/// The value by which a node is ordered, in units of 1e-9 ns: by its cells of a row from a node, of the row towards that
/// and of a fence, by its value in the earliest execution, and by what is beyond the fence.
pub fn guided_value(from: &Cell, to: &Cell, fence: &Cell, value: i128, beyond: i128) -> i128
    requires from { from.now.known ≡ true → IsUpTo (path_bits + 3) from.now.value }
    requires to { to.now.known ≡ true → IsUpTo (path_bits + 3) to.now.value }
    requires fence { fence.now.known ≡ true → IsUpTo (path_bits + 3) fence.now.value }
    requires value { IsUpTo path_bits value }
    requires beyond { IsUpTo path_bits beyond }
    ensures { result ≡ fenced fence.now (mean_of from.now to.now value) beyond }
{
    fenced(fence, mean_of(from, to, value), beyond)
}
