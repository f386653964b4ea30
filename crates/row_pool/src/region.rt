// Two parts of one list of cells.
ghost use Rattle.std.specs.Prelude.{◌+◌, ◌≤◌, ◌⊎◌, length, take, drop};
ghost use Rattle.row_pool.specs.Writing.{TakesBoth, WritesParts};

use crate::cell::Cell;

/// Lets a function write two parts that lie apart, each of so many cells.
pub fn write_both<F: FnOnce(&mut [Cell], &mut [Cell])>(
    cells: &mut [Cell],
    first: usize,
    second: usize,
    width: usize,
    write: F,
)
    requires first { first + width ≤ length cells.old }
    requires second { second + width ≤ length cells.old }
    requires apart { (first + width ≤ second) ⊎ (second + width ≤ first) }
    requires callable { TakesBoth F.FnOnce write (take width (drop first cells.old)) (take width (drop second cells.old)) }
    ensures { WritesParts F.FnOnce write cells.old cells.new first second width }
{
    if first < second {
        let (front, back) = cells.split_at_mut(second);
        write(&mut front[first..first + width], &mut back[..width]);
    } else {
        let (front, back) = cells.split_at_mut(first);
        write(&mut back[..width], &mut front[second..second + width]);
    }
}
