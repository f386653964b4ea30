// The follows of the short list.
ghost use Rattle.std.specs.Prelude.{◌≡◌, ◌<◌, AllPairs, IfSome};
ghost use Rattle.problem_model.specs.declared.items.Bound.TheVariants as bounds;
ghost use Rattle.problem_model.specs.Bounds.{Declares};
ghost use Rattle.problem_model.specs.Nodes.{AreReadings, IsEarlierReading};
ghost use Rattle.problem_model.specs.ShortList.{clocks_before, first_reading, nearest_reading, follow_bound};
ghost use Rattle.problem.specs.Nearest.{listed_follow, gap_between};

use crate::items::Items;
use crate::readings::{first_of, last_of};
use atto::Nano;

/// A bound of the short list between two clocks that follow each other: the reading of the one before, that of the later
/// one, and the gap.
#[derive(Clone, Copy, Debug, PartialEq, Eq)]
pub struct NearestFollow {
    /// The place of the nearest clock before that has a reading.
    pub earlier: u32,
    /// The stamp in ns of its last reading.
    pub s: Nano,
    /// The stamp in ns of the later clock's first reading.
    pub t: Nano,
    /// The least real time in ns between the two.
    pub gap: Nano,
}

// The last reading of the nearest clock before this one in its chain that has one.
fn last_before(items: &Items, readings: &[(u32, Nano)], later: u32) -> Option<(u32, Nano)>
    requires { AllPairs IsEarlierReading readings.now }
    ensures { result ≡ nearest_reading readings.now (clocks_before items.now.follows later later) }
{
    let mut clock = later;
    while let Some(follow) = items.follow_to(clock) {
        if let Some(last) = last_of(readings, follow.earlier) {
            return Some(last);
        }
        clock = follow.earlier;
    }
    None
}

/// The bound that the nearest reading before a clock and the clock's first reading make. The readings are those of the
/// items.
pub fn nearest_follow(items: &Items, readings: &[(u32, Nano)], later: u32) -> Option<NearestFollow>
    requires { AreReadings items.now readings.now }
    ensures bound { follow_bound (nearest_reading readings.now (clocks_before items.now.follows later later)) (first_reading readings.now later) ≡ listed_follow later result }
    ensures declared { IfSome result (λ f. Declares items.now (bounds.Follow f.earlier f.s later f.t) (gap_between f.earlier f.s later f.t f.gap)) }
{
    let follow = items.follow_to(later)?;
    let first = first_of(readings, later)?;
    let last = last_before(items, readings, later)?;
    Some(NearestFollow {
        earlier: last.0,
        s: last.1,
        t: first.1,
        gap: follow.gap,
    })
}
