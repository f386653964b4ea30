// The numbers of a line in their ranges.
ghost use Rattle.std.specs.Prelude.{◌≡◌, ◌<◌, ◌≤◌, ◌^◌, ℕ, SomeIff, Option};
ghost use Rattle.atto.specs.Number.{Counts};
ghost use Rattle.problem.specs.Written.{MostCounts};
ghost use Rattle.problem.specs.Written.{SaysClock, ClockIs, joined, SaysOwn, OwnIs, joined_own, MostIs};

use crate::words::{ClockWords, OwnWords};
use atto::{Nano, Rate};
use problem_model::{Clock, Name, StampBounds};

/// A stamp with the event's own bounds.
#[derive(Clone, Copy)]
pub struct OwnStamp {
    pub stamp: Nano,
    pub bounds: StampBounds,
}

/// A number of ns, where it is below 2^62.
pub fn nano_of(n: Option<u64>) -> Option<Nano>
    ensures { (m : ℕ) → Counts (2 ^ 64) m n → SomeIff result (m < 2 ^ 62) m }
{
    Nano::new(n?)
}

// A rate, where both numbers are in their ranges.
fn rate_of(short: Option<u64>, long: Option<u64>) -> Option<Rate>
    ensures { (s : ℕ) (l : ℕ) → Counts (2 ^ 64) s short → Counts (2 ^ 64) l long → SomeIff result ((s ≤ 999999999) × (l ≤ 1000000000)) (record { short = s; long = l }) }
{
    let short = short?;
    let long = long?;
    if short > 999_999_999 || long > 1_000_000_000 {
        return None;
    }
    Rate::new(short as u32, long as u32)
}

// The clock, where all its numbers are in their ranges.
fn joined(name: Name, rate: Option<Rate>, early: Option<Nano>, late: Option<Nano>) -> Option<Clock>
    ensures { result ≡ joined name rate early late }
{
    Some(Clock {
        name,
        rate: rate?,
        early: early?,
        late: late?,
    })
}

/// The clock of a line, where its numbers are in their ranges.
pub fn clock_of(w: &ClockWords) -> Option<Clock>
    ensures { (s : ℕ) (l : ℕ) (e : ℕ) (t : ℕ) → SaysClock w.now s l e t → ClockIs result w.now.name s l e t }
{
    joined(
        w.name,
        rate_of(w.short, w.long),
        nano_of(w.early),
        nano_of(w.late),
    )
}

// The stamp and its bounds, where all three are in range.
fn joined_own(stamp: Option<Nano>, early: Option<Nano>, late: Option<Nano>) -> Option<OwnStamp>
    ensures { result ≡ joined_own stamp early late }
{
    Some(OwnStamp {
        stamp: stamp?,
        bounds: StampBounds {
            early: early?,
            late: late?,
        },
    })
}

/// The stamp of a line and the bounds there, where the numbers are in their ranges.
pub fn own_of(w: &OwnWords) -> Option<OwnStamp>
    ensures { (s : ℕ) (e : ℕ) (t : ℕ) → SaysOwn w.now s e t → OwnIs result s e t }
{
    joined_own(nano_of(w.stamp), nano_of(w.early), nano_of(w.late))
}

/// The greatest delay of a line, where it is `none` or in its range.
pub fn most_of(n: Option<Option<u64>>) -> Option<Option<Nano>>
    ensures { (m : Option ℕ) → MostCounts m n → MostIs result m }
{
    match n {
        None => Some(None),
        Some(n) => match nano_of(n) {
            Some(n) => Some(Some(n)),
            None => None,
        },
    }
}
