// Numbers at places, and the place that a sum falls into.
ghost use Rattle.std.specs.Prelude.{◌≡◌, ℕ, ◌<◌, ◌≤◌, ◌+◌, ◌-◌, ◌^◌, List, length, replicate, slice_index, slice_set, IfOk};
ghost use Rattle.roster.specs.Groups.{total, IsPlaceOf, lists_of};
ghost use Rattle.roster.specs.Sums.{pair_sums, AreLevelsTo, first_of};

use std::alloc::{AllocError, Global};
use std::marker::Model;

/// Numbers at places, at most 65,536 of them. To write one, and to find the place that a sum of those from the first one on
/// falls into, takes a time that grows with the logarithm of how many there are.
#[derive(Drop)]
pub(crate) struct Sums {
    // The numbers, then the sums of their pairs, the sums of pairs of these, and so on to a level of at most one number.
    levels: Vec<Vec<u32>>,
}

impl Model for Sums {
    ghost use Rattle.std.specs.Prelude.{◌≤◌, ℕ, List, length};
    ghost use Rattle.roster.specs.Groups.{lists_of};
    ghost use Rattle.roster.specs.Sums.{AreLevelsTo, first_of};

    ghost Value = { List ℕ };

    ghost view = { λ s. first_of (lists_of s.levels.items) };

    ghost invariant = { λ s. AreLevelsTo 1 (lists_of s.levels.items) × (length (first_of (lists_of s.levels.items)) ≤ 65536) };
}

// So many zeros.
fn zeros(alloc: Global, count: usize) -> Result<Vec<u32>, AllocError>
    ensures { IfOk result (λ zeros. zeros.items ≡ replicate count 0) }
{
    let mut zeros = Vec::new(alloc);
    zeros.resize(count, 0)?;
    Ok(zeros)
}

// Levels over so many zeros.
fn levels_of_zeros(alloc: Global, count: usize) -> Result<Vec<Vec<u32>>, AllocError>
    ensures levels { IfOk result (λ levels. AreLevelsTo 1 (lists_of levels.items)) }
    ensures first { IfOk result (λ levels. first_of (lists_of levels.items) ≡ replicate count 0) }
{
    let mut levels = Vec::new(alloc);
    levels.push(zeros(alloc, count)?)?;
    let mut width = count;
    while width > 1 {
        width -= width / 2;
        levels.push(zeros(alloc, width)?)?;
    }
    Ok(levels)
}

// The sum of all numbers of the first level.
fn sum_of(levels: &[Vec<u32>]) -> u32
    requires { AreLevelsTo 1 (lists_of levels.now) }
    ensures { result ≡ total (first_of (lists_of levels.now)) }
{
    let top = &levels[levels.len() - 1];
    if top.is_empty() { 0 } else { top[0] }
}

// The place in a level that falls into a pair of it at a place of its own, and what is left of the sum there.
fn in_pair(level: &[u32], pair: usize, rest: u32) -> (usize, u32)
    requires { (sum : ℕ) × IsPlaceOf (pair_sums level.now) sum pair rest }
    ensures { (sum : ℕ) → IsPlaceOf (pair_sums level.now) sum pair rest → IsPlaceOf level.now sum result.0 result.1 }
{
    let left = level[2 * pair];
    if rest < left {
        (2 * pair, rest)
    } else {
        (2 * pair + 1, rest - left)
    }
}

// The place in the first level that a sum falls into, and what is left of it there.
fn place_in(levels: &[Vec<u32>], sum: u32) -> (usize, u32)
    requires levels { AreLevelsTo 1 (lists_of levels.now) }
    requires within { sum < total (first_of (lists_of levels.now)) }
    ensures { IsPlaceOf (first_of (lists_of levels.now)) sum result.0 result.1 }
{
    let mut found = (0, sum);
    for above in 1..levels.len() {
        found = in_pair(&levels[levels.len() - 1 - above], found.0, found.1);
    }
    found
}

// Takes one part out of a number, and puts another in its place.
fn exchange(level: &mut Vec<u32>, at: usize, old: u32, new: u32)
    requires inside { at < length level.old.items }
    requires part { old ≤ slice_index level.old.items at }
    requires fits { slice_index level.old.items at + new < 2 ^ 32 + old }
    ensures { level.new.items ≡ slice_set level.old.items at (slice_index level.old.items at - old + new) }
{
    level[at] = level[at] - old + new;
}

// Writes a number of the first level anew, and the sums that it is in.
fn write(levels: &mut [Vec<u32>], place: usize, new: u32)
    requires levels { AreLevelsTo 1 (lists_of levels.old) }
    requires inside { place < length (first_of (lists_of levels.old)) }
    requires fits { total (slice_set (first_of (lists_of levels.old)) place new) < 2 ^ 32 }
    ensures levels { AreLevelsTo 1 (lists_of levels.new) }
    ensures first { first_of (lists_of levels.new) ≡ slice_set (first_of (lists_of levels.old)) place new }
{
    let old = levels[0][place];
    let mut at = place;
    for level in levels.iter_mut() {
        exchange(level, at, old, new);
        at /= 2;
    }
}

impl Sums {
    /// So many zeros.
    pub(crate) fn new(alloc: Global, count: usize) -> Result<Sums, AllocError>
        requires { count ≤ 65536 }
        ensures { IfOk result (λ s. s ≡ replicate count 0) }
    {
        let levels = levels_of_zeros(alloc, count)?;
        Ok(Sums { levels })
    }

    /// The sum of all.
    pub(crate) fn total(&self) -> u32
        ensures { result ≡ total self.now }
    {
        sum_of(&self.levels)
    }

    /// The place that a sum falls into, and what is left of the sum there.
    pub(crate) fn find(&self, sum: u32) -> (u32, u32)
        requires { sum < total self.now }
        ensures { IsPlaceOf self.now sum result.0 result.1 }
    {
        let found = place_in(&self.levels, sum);
        (found.0 as u32, found.1)
    }

    /// Writes the number at a place.
    pub(crate) fn set(&mut self, place: u32, number: u32)
        requires inside { place < length self.old }
        requires fits { total (slice_set self.old place number) < 2 ^ 32 }
        ensures { self.new ≡ slice_set self.old place number }
    {
        write(&mut self.levels, place as usize, number);
    }
}
