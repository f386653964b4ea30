ghost use Rattle.intervals.specs.Ends.{FitsReach};

use atto::Nano;
use intervals::{End, Ends, Order, ends_from, order_of, source_time};
use row_pool::{Pair, Reach};

// A greatest difference, `None` where there is none.
fn reach(units: Option<i16>) -> Reach
    ensures { FitsReach result }
{
    match units {
        Some(units) => Reach::At(i128::from(units)),
        None => Reach::Never,
    }
}

// Greatest differences up and down, the ends of the interval, and the order of the two events.
struct Interval {
    up: Option<i16>,
    down: Option<i16>,
    least: Option<i16>,
    greatest: Option<i16>,
    order: Order,
}

// Intervals and their orders.
const INTERVALS: [Interval; 11] = [
    Interval {
        up: Some(9),
        down: Some(-4),
        least: Some(4),
        greatest: Some(9),
        order: Order::Before,
    },
    Interval {
        up: Some(9),
        down: Some(0),
        least: Some(0),
        greatest: Some(9),
        order: Order::Undecided,
    },
    Interval {
        up: Some(9),
        down: Some(4),
        least: Some(-4),
        greatest: Some(9),
        order: Order::Undecided,
    },
    Interval {
        up: Some(0),
        down: Some(0),
        least: Some(0),
        greatest: Some(0),
        order: Order::Same,
    },
    Interval {
        up: Some(0),
        down: Some(4),
        least: Some(-4),
        greatest: Some(0),
        order: Order::Undecided,
    },
    Interval {
        up: Some(-1),
        down: Some(4),
        least: Some(-4),
        greatest: Some(-1),
        order: Order::After,
    },
    Interval {
        up: None,
        down: Some(-1),
        least: Some(1),
        greatest: None,
        order: Order::Before,
    },
    Interval {
        up: None,
        down: Some(0),
        least: Some(0),
        greatest: None,
        order: Order::Undecided,
    },
    Interval {
        up: Some(-1),
        down: None,
        least: None,
        greatest: Some(-1),
        order: Order::After,
    },
    Interval {
        up: Some(0),
        down: None,
        least: None,
        greatest: Some(0),
        order: Order::Undecided,
    },
    Interval {
        up: None,
        down: None,
        least: None,
        greatest: None,
        order: Order::Undecided,
    },
];

// An end of an interval, where it is there.
fn end(units: Option<i16>) -> End {
    match units {
        Some(units) => End::At(i128::from(units)),
        None => End::Unbounded,
    }
}

// Whether the greatest differences of an interval have its ends and its order.
fn is_interval(case: &Interval) -> bool {
    let pair = Pair {
        up: reach(case.up),
        down: reach(case.down),
    };
    let ends = Ends {
        least: end(case.least),
        greatest: end(case.greatest),
    };
    ends_from(pair) == ends && order_of(&ends) == case.order
}

// The first of these intervals that has other ends or another order.
fn first_wrong(cases: &[Interval]) -> Option<usize> {
    for (k, case) in cases.iter().enumerate() {
        if !is_interval(case) {
            return Some(k);
        }
    }
    None
}

// Whether an event with these greatest differences from and to a reading of this stamp has these ends of its source time.
fn has_source_time(stamp: u64, up: Option<i16>, down: Option<i16>, ends: Ends) -> bool {
    let pair = Pair {
        up: reach(up),
        down: reach(down),
    };
    match Nano::new(stamp) {
        Some(stamp) => source_time(stamp, pair) == ends,
        None => false,
    }
}

// The ends where both are there.
fn between(least: i128, greatest: i128) -> Ends {
    Ends {
        least: End::At(least),
        greatest: End::At(greatest),
    }
}

// The ends where there is none above.
fn from(least: i128) -> Ends {
    Ends {
        least: End::At(least),
        greatest: End::Unbounded,
    }
}

// The ends where there is none below.
fn up_to(greatest: i128) -> Ends {
    Ends {
        least: End::Unbounded,
        greatest: End::At(greatest),
    }
}

// The order of two events is that of the interval of their difference, with its ends.
#[test]
fn intervals_and_orders(rt: HostRuntime) {
    assert_eq!(rt; first_wrong(&INTERVALS), None);
}

// A stamp counts 10^9 units for each ns, and an end that is not there stays away.
#[test]
fn source_times(rt: HostRuntime) {
    for (stamp, up, down, ends) in [
        (3, Some(5), Some(2), between(2_999_999_998, 3_000_000_005)),
        (3, None, Some(-2), from(3_000_000_002)),
        (0, Some(-5), None, up_to(-5)),
    ] {
        assert!(rt; has_source_time(stamp, up, down, ends));
    }
}
