// Problems whose events have bounds of their own, read and pushed.
use crate::followed_problems::fault_of;
use atto::Nano;
use problem::{Problem, ProblemError, PushError, read_problem};
use problem_model::{Event, Name, StampBounds};
use std::alloc::Global;
use std::test::*;

// Texts of version 3 with their faults. Some are read: with the least and the greatest numbers, follows, and a message.
// Then the first event is missing before the end, before a message, and behind a follow; a follow or a clock stands
// behind an event, and an event behind a message; the text is cut.
const ORDERS: [(&str, Option<ProblemError>); 13] = [
    ("clock c 0 0 0 7\nevent p c 0 0 2\nend\n", None),
    (
        "clock c 0 0 0 0\nclock d 0 0 0 0\nfollow c d 5\nevent p c 10 4611686018427387903 0\n\
        event q d 3 0 4611686018427387903\nmessage p q 0 none\nmessage q p 1 2\nend\n",
        None,
    ),
    ("", Some(ProblemError::Syntax(2))),
    ("end\n", Some(ProblemError::Syntax(2))),
    ("clock c 0 0 0 0\nend\n", Some(ProblemError::Syntax(3))),
    (
        "clock c 0 0 0 0\nclock d 0 0 0 0\nfollow c d 5\nend\n",
        Some(ProblemError::Syntax(5)),
    ),
    (
        "clock c 0 0 0 0\nmessage p q 0 none\nend\n",
        Some(ProblemError::Syntax(3)),
    ),
    (
        "clock c 0 0 0 0\nclock d 0 0 0 0\nfollow c d 5\nmessage p q 0 none\nend\n",
        Some(ProblemError::Syntax(5)),
    ),
    (
        "clock c 0 0 0 0\nclock d 0 0 0 0\nevent p c 0 0 0\nfollow c d 5\nend\n",
        Some(ProblemError::Syntax(5)),
    ),
    (
        "clock c 0 0 0 0\nevent p c 0 0 0\nclock d 0 0 0 0\nend\n",
        Some(ProblemError::Syntax(4)),
    ),
    (
        "clock c 0 0 0 0\nevent p c 0 0 0\nevent q c 1 0 0\nmessage p q 0 none\nevent r c 1 0 0\nend\n",
        Some(ProblemError::Syntax(6)),
    ),
    (
        "clock c 0 0 0 0\nevent p c 0 0 0\nend",
        Some(ProblemError::Syntax(4)),
    ),
    (
        "clock c 0 0 0 0\nevent p c 0 0 0\nend\n\n",
        Some(ProblemError::Syntax(5)),
    ),
];

// Lines of the second event, on the clock c behind the event p, with their faults: without bounds, with one bound or
// three, misspelled, out of range, and with wrong names, which are told before a range.
const EVENTS: [(&str, Option<ProblemError>); 15] = [
    ("event q c 0 0 0", None),
    ("event q c 0", Some(ProblemError::Syntax(4))),
    ("event q c 0 0", Some(ProblemError::Syntax(4))),
    ("event q c 0 0 0 0", Some(ProblemError::Syntax(4))),
    ("event q c 0 00 0", Some(ProblemError::Syntax(4))),
    ("event q c 0 0 -1", Some(ProblemError::Syntax(4))),
    ("event q c 0 0 0 ", Some(ProblemError::Syntax(4))),
    ("event q c 0 0 none", Some(ProblemError::Syntax(4))),
    (
        "event q c 0 4611686018427387904 0",
        Some(ProblemError::Range(4)),
    ),
    (
        "event q c 0 0 4611686018427387904",
        Some(ProblemError::Range(4)),
    ),
    (
        "event q c 0 0 18446744073709551616",
        Some(ProblemError::Range(4)),
    ),
    (
        "event q c 4611686018427387904 0 0",
        Some(ProblemError::Range(4)),
    ),
    (
        "event q d 0 0 4611686018427387904",
        Some(ProblemError::Name(4)),
    ),
    (
        "event p c 0 4611686018427387904 0",
        Some(ProblemError::Name(4)),
    ),
    ("event p c 5 1 1", Some(ProblemError::Name(4))),
];

// Bounds of an event's own in the other versions.
const OTHER_VERSIONS: [(&str, ProblemError); 2] = [
    (
        "problem 1\nclock c 0 0 0 0\nevent p c 0 0 0\nend\n",
        ProblemError::Syntax(3),
    ),
    (
        "problem 2\nclock c 0 0 0 0\nclock d 0 0 0 0\nfollow c d 5\nevent p c 0 0 0\nend\n",
        ProblemError::Syntax(5),
    ),
];

#[test]
fn events_with_bounds_are_read(rt: HostRuntime) {
    for (lines, fault) in ORDERS {
        let text = format!(in rt.alloc(); "problem 3\n{lines}");
        assert!(rt;
            text.is_ok_and(|text| fault_of(rt.alloc(), text.as_bytes()) == fault),
            "{lines}"
        );
    }
    for (line, fault) in EVENTS {
        let text = format!(in rt.alloc();
            "problem 3\nclock c 0 0 0 0\nevent p c 0 0 0\n{line}\nend\n"
        );
        assert!(rt;
            text.is_ok_and(|text| fault_of(rt.alloc(), text.as_bytes()) == fault),
            "{line}"
        );
    }
    for (text, fault) in OTHER_VERSIONS {
        assert!(rt;
            fault_of(rt.alloc(), text.as_bytes()) == Some(fault),
            "{text}"
        );
    }
}

// Two events whose own bounds are not their clock's.
const OWN: &str =
    "problem 3\nclock c 0 0 3 7\nevent p c 0 0 2\nevent q c 5 4611686018427387903 1\nend\n";

const PLAIN: &str = "problem 1\nclock c 0 0 3 7\nevent p c 0\nend\n";

// The early and the late of its own, in ns, of the event at a place.
fn bounds_of(problem: &Problem, place: usize) -> Option<(u64, u64)> {
    let own = problem.events().get(place)?.bounds?;
    Some((own.early.get(), own.late.get()))
}

fn has_bounds(problem: &Problem) -> bool {
    bounds_of(problem, 0) == Some((0, 2))
        && bounds_of(problem, 1) == Some((4_611_686_018_427_387_903, 1))
}

fn keeps_bounds(alloc: Global) -> bool {
    match read_problem(alloc, OWN.as_bytes()) {
        Ok(problem) => has_bounds(&problem),
        Err(_) => false,
    }
}

fn bounds(own: bool) -> Option<StampBounds> {
    if !own {
        return None;
    }
    Some(StampBounds {
        early: Nano::new(1)?,
        late: Nano::new(2)?,
    })
}

// What is answered of one event more, which has bounds of its own or none.
fn push_answer(problem: &mut Problem, own: bool) -> Option<Result<(), PushError>> {
    let bounds: Option<StampBounds> = bounds(own);
    let event = Event {
        name: Name::new(b"r")?,
        clock: 0,
        stamp: Nano::new(5)?,
        bounds,
    };
    Some(problem.push_event(event))
}

fn pushed(alloc: Global, text: &str, own: bool) -> Option<Result<(), PushError>> {
    match read_problem(alloc, text.as_bytes()) {
        Ok(mut problem) => push_answer(&mut problem, own),
        Err(_) => None,
    }
}

#[test]
fn all_events_have_bounds_or_none(rt: HostRuntime) {
    assert!(rt; keeps_bounds(rt.alloc()));
    assert!(rt; pushed(rt.alloc(), OWN, true) == Some(Ok(())));
    assert!(rt; pushed(rt.alloc(), OWN, false) == Some(Err(PushError::Name)));
    assert!(rt; pushed(rt.alloc(), PLAIN, false) == Some(Ok(())));
    assert!(rt; pushed(rt.alloc(), PLAIN, true) == Some(Err(PushError::Name)));
}
