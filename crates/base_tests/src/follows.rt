// Two clocks of which one follows the other, pushed, and what the problem says of their order.
use atto::{Nano, Rate};
use problem::{NearestFollow, Problem, PushError};
use problem_model::{Clock, Event, Follow, Name};
use std::alloc::Global;
use std::process::Abort;
use std::test::*;

// The name of these bytes.
fn named(rt: &impl Abort, text: &str) -> Name {
    Name::new(text.as_bytes()).expect(rt, "a name")
}

fn nano(rt: &impl Abort, ns: u64) -> Nano {
    Nano::new(ns).expect(rt, "a number of ns")
}

// Clock d follows clock c by 5 ns; p is at 10 on c, and q at 3 on d.
fn follow_gap(rt: &impl Abort, alloc: Global) -> Problem {
    let rate = Rate::new(0, 0).expect(rt, "a rate");
    let zero = nano(rt, 0);
    let mut problem = Problem::empty(alloc);
    for name in ["c", "d"] {
        let clock = Clock {
            name: named(rt, name),
            rate,
            early: zero,
            late: zero,
        };
        assert!(rt; problem.push_clock(clock).is_ok());
    }
    let follow = Follow {
        earlier: 0,
        later: 1,
        gap: nano(rt, 5),
    };
    assert!(rt; problem.push_follow(follow).is_ok());
    for (name, clock, stamp) in [("p", 0, 10), ("q", 1, 3)] {
        let event = Event {
            name: named(rt, name),
            clock,
            stamp: nano(rt, stamp),
            bounds: None,
        };
        assert!(rt; problem.push_event(event).is_ok());
    }
    problem
}

#[test]
fn one_clock_comes_after_the_other(rt: HostRuntime) {
    let problem = follow_gap(&rt, rt.alloc());
    assert_eq!(rt; problem.clocks().len(), 2);
    if problem.clocks().len() == 2 {
        assert!(rt; problem.comes_after(0, 1));
        assert!(rt; !problem.comes_after(1, 0));
    }
}

#[test]
fn the_follow_leads_to_the_later_clock(rt: HostRuntime) {
    let problem = follow_gap(&rt, rt.alloc());
    let follow = Follow {
        earlier: 0,
        later: 1,
        gap: nano(&rt, 5),
    };
    assert!(rt; problem.follow_to(1) == Some(follow));
    assert!(rt; problem.follow_to(0).is_none());
}

#[test]
fn the_nearest_reading_is_the_last_one_before(rt: HostRuntime) {
    let problem = follow_gap(&rt, rt.alloc());
    let nearest = NearestFollow {
        earlier: 0,
        s: nano(&rt, 10),
        t: nano(&rt, 3),
        gap: nano(&rt, 5),
    };
    assert_eq!(rt; problem.clocks().len(), 2);
    if problem.clocks().len() == 2 {
        assert!(rt; problem.nearest_follow(1) == Some(nearest));
        assert!(rt; problem.nearest_follow(0).is_none());
    }
}

#[test]
fn a_follow_that_leads_back_is_refused(rt: HostRuntime) {
    let mut problem = follow_gap(&rt, rt.alloc());
    let back = Follow {
        earlier: 1,
        later: 0,
        gap: nano(&rt, 5),
    };
    assert!(rt; problem.push_follow(back) == Err(PushError::Name));
    assert_eq!(rt; problem.follows().len(), 1);
}
