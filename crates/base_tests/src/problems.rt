use atto::{Nano, Rate};
use problem::{Listing, Problem, ProblemError, read_problem};
use problem_model::{Clock, Event, Message, Name};
use shared_fixtures::TWO_LOGS_PROBLEM;
use std::alloc::Global;
use std::process::Abort;
use std::test::*;

// The fault of a text, if it has one.
fn fault_of(rt: &HostRuntime, text: &str) -> Option<ProblemError> {
    match read_problem(rt.alloc(), text.as_bytes()) {
        Ok(_) => None,
        Err(fault) => Some(fault),
    }
}

// Nothing; clocks alone, with the least and the greatest numbers; the longest names; each kind of line, with and without
// a greatest delay.
const TEXTS: [&str; 4] = [
    "problem 1\nend\n",
    "problem 1\nclock a 0 0 0 0\nclock B-2_c.3 999999999 1000000000 4611686018427387903 10\nend\n",
    "problem 1\nclock a23456789b23456789c23456789d2345 1 20 300 4000\n\
    event a23456789b23456789c23456789d23456789e23456789#12 a23456789b23456789c23456789d2345 4611686018427387903\nend\n",
    "problem 1\nclock a 0 0 5 7\nclock b 100 200 0 0\nevent b#1 b 250\nevent a#1 a 100\nevent a#2 a 100\n\
    message a#1 b#1 10 20\nmessage b#1 a#2 0 none\nmessage a#2 a#1 9 4611686018427387903\nend\n",
];

#[test]
fn problems_are_read(rt: HostRuntime) {
    for text in TEXTS {
        assert!(rt; fault_of(&rt, text).is_none(), "{text}");
    }
}

#[test]
fn faults_of_lines(rt: HostRuntime) {
    let cases = [
        ("", ProblemError::Syntax(1)),
        ("problem 1", ProblemError::Syntax(1)),
        ("problem 1 \nend\n", ProblemError::Syntax(1)),
        ("problem 1\n", ProblemError::Syntax(2)),
        ("problem 1\nend", ProblemError::Syntax(2)),
        ("problem 1\nend\n\n", ProblemError::Syntax(3)),
        ("problem 1\nclock c 0 0 0 0\neve", ProblemError::Syntax(3)),
        (
            "problem 1\nclock  c 0 0 0 0\nend\n",
            ProblemError::Syntax(2),
        ),
        (
            "problem 1\nclock c 0 0 0 0 \nend\n",
            ProblemError::Syntax(2),
        ),
        (
            "problem 1\nclock c 0 0 0 0\r\nend\n",
            ProblemError::Syntax(2),
        ),
        (
            "problem 1\nclock c#1 0 0 0 0\nend\n",
            ProblemError::Syntax(2),
        ),
        (
            "problem 1\nclock a23456789a23456789a23456789a2345x 0 0 0 0\nend\n",
            ProblemError::Syntax(2),
        ),
        (
            "problem 1\nclock c 00 0 0 0\nend\n",
            ProblemError::Syntax(2),
        ),
        (
            "problem 1\nclock c +1 0 0 0\nend\n",
            ProblemError::Syntax(2),
        ),
        (
            "problem 1\nclock c 1000000000 0 0 0\nend\n",
            ProblemError::Range(2),
        ),
        (
            "problem 1\nclock c 0 1000000001 0 0\nend\n",
            ProblemError::Range(2),
        ),
        (
            "problem 1\nclock c 0 0 123456789012345678901234567890 0\nend\n",
            ProblemError::Range(2),
        ),
        (
            "problem 1\nclock c 0 0 0 0\nclock c 0 0 0 0\nend\n",
            ProblemError::Name(3),
        ),
        (
            "problem 1\nclock c 0 0 0 0\nevent p d 0\nend\n",
            ProblemError::Name(3),
        ),
        (
            "problem 1\nclock c 0 0 0 0\nevent p d 123456789012345678901234567890\nend\n",
            ProblemError::Name(3),
        ),
        (
            "problem 1\nclock c 0 0 0 0\nevent p c 4611686018427387904\nend\n",
            ProblemError::Range(3),
        ),
        (
            "problem 1\nclock c 0 0 0 0\nevent p c 0\nclock d 0 0 0 0\nend\n",
            ProblemError::Syntax(4),
        ),
    ];
    for (text, fault) in cases {
        assert!(rt; fault_of(&rt, text) == Some(fault), "at {text}");
    }
}

#[test]
fn faults_behind_two_events(rt: HostRuntime) {
    let cases = [
        ("message p q 10 none\nmessage q p 10 9\nend\n", None),
        (
            "message p q 10 none\nevent r c 0\nend\n",
            Some(ProblemError::Syntax(6)),
        ),
        ("message p r 10 none\nend\n", Some(ProblemError::Name(5))),
        ("message p p 10 none\nend\n", Some(ProblemError::Name(5))),
        (
            "message p q 10 none\nmessage p q 1 2\nend\n",
            Some(ProblemError::Name(6)),
        ),
        ("message p q 10 12 \nend\n", Some(ProblemError::Syntax(5))),
        (
            "message p q 0 4611686018427387904\nend\n",
            Some(ProblemError::Range(5)),
        ),
        ("event q c 3\nend\n", Some(ProblemError::Name(5))),
        (
            "event a23456789a23456789a23456789a23456789a23456789#123 c 3\nend\n",
            Some(ProblemError::Syntax(5)),
        ),
        (
            "event a23456789a23456789a23456789a23456789a23456789#12 c 3\nend\n",
            None,
        ),
        ("end\nend\n", Some(ProblemError::Syntax(6))),
    ];
    for (lines, fault) in cases {
        let text = format!(in rt.alloc();
            "problem 1\nclock c 0 0 0 0\nevent p c 0\nevent q c 5\n{lines}"
        );
        assert!(rt;
            text.is_ok_and(|text| fault_of(&rt, &text) == fault),
            "at {lines}"
        );
    }
}

// The name of these bytes.
fn named(rt: &impl Abort, text: &str) -> Name {
    Name::new(text.as_bytes()).expect(rt, "a name")
}

fn nano(rt: &impl Abort, ns: u64) -> Nano {
    Nano::new(ns).expect(rt, "a number of ns")
}

fn two_logs(rt: &impl Abort, alloc: Global) -> Problem {
    let rate = Rate::new(0, 0).expect(rt, "a rate");
    let zero = nano(rt, 0);
    let mut problem = Problem::empty(alloc);
    for name in ["a", "b"] {
        let clock = Clock {
            name: named(rt, name),
            rate,
            early: zero,
            late: zero,
        };
        assert!(rt; problem.push_clock(clock).is_ok());
    }
    for (name, clock, stamp) in [
        ("a#1", 0, 100),
        ("a#2", 0, 180),
        ("b#1", 1, 250),
        ("b#2", 1, 300),
    ] {
        let event = Event {
            name: named(rt, name),
            clock,
            stamp: nano(rt, stamp),
            bounds: None,
        };
        assert!(rt; problem.push_event(event).is_ok());
    }
    for (send, receive) in [(0, 2), (3, 1)] {
        let message = Message {
            send,
            receive,
            least: nano(rt, 10),
            most: Some(nano(rt, 20)),
        };
        assert!(rt; problem.push_message(message).is_ok());
    }
    problem
}

// Whether two problems have the same lists and the same readings.
fn has_same_lists(one: &Problem, other: &Problem) -> bool {
    one.clocks() == other.clocks()
        && one.events() == other.events()
        && one.messages() == other.messages()
        && one.readings() == other.readings()
}

// Whether a text is read as this problem.
fn reads_as(alloc: Global, text: &str, problem: &Problem) -> bool {
    match read_problem(alloc, text.as_bytes()) {
        Ok(read) => has_same_lists(&read, problem),
        Err(_) => false,
    }
}

// Whether the readings have these stamps, one after another.
fn has_stamps(problem: &Problem, stamps: &[u64]) -> bool {
    let readings = problem.readings();
    readings.len() == stamps.len()
        && readings
            .iter()
            .zip(stamps)
            .all(|(reading, stamp)| reading.1.get() == *stamp)
}

#[test]
fn pushed_is_read(rt: HostRuntime) {
    let pushed = two_logs(&rt, rt.alloc());
    assert!(rt; reads_as(rt.alloc(), TWO_LOGS_PROBLEM, &pushed));
    assert!(rt; has_stamps(&pushed, &[100, 180, 250, 300]));
}

// Whether the event at each place has the place as its number and its node.
fn events_stand_in_order<L: Listing>(listing: &L) -> bool {
    let count = listing.event_count();
    for place in 0..count {
        if listing.event_at(place) != (place, place) {
            return false;
        }
    }
    count == 4
}

// Whether the readings, two a clock, are the nodes behind the four events.
fn readings_stand_in_order<L: Listing>(listing: &L) -> bool {
    let count = listing.reading_count();
    for place in 0..count {
        let (clock, _, node) = listing.reading_at(place);
        if clock != place / 2 || node.checked_sub(4) != Some(place) {
            return false;
        }
    }
    count == 4
}

#[test]
fn listed_in_its_own_order(rt: HostRuntime) {
    let problem = two_logs(&rt, rt.alloc());
    assert!(rt; events_stand_in_order(&problem));
    assert!(rt; readings_stand_in_order(&problem));
}
