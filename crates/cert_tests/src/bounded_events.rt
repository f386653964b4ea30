// Executions, certificates and widenings of problems whose events have bounds of their own.
use crate::parts::{NS, execution};
use crate::verdicts::text_answers;
use crate::widenings::{broken, cycle, have_answers};
use cert_check::{Answer, Part, Reason, Verdict, obeys};
use problem::{Problem, read_problem};
use problem_model::Bound;
use std::alloc::Global;
use std::test::*;

// Each event has other bounds, and only the last one those of its clock. The nodes are p, q and r, then c, d at 0 and
// d at 10.
const BOUNDED: &str =
    "problem 3\nclock c 0 0 0 7\nclock d 0 0 3 5\nevent p c 0 0 2\nevent q d 0 1 0\nevent r d 10 3 5\n\
    message p q 10 20\nend\n";

// The real times of the nodes, and what is broken first: the bound, its weight and the difference.
type Run = ([i128; 6], Option<(Bound, i128, i128)>);

const RUNS: [Run; 8] = [
    ([2 * NS, 12 * NS, 20 * NS, 0, 13 * NS, 23 * NS], None),
    ([0, 13 * NS, 28 * NS, 0, 13 * NS, 23 * NS], None),
    // Its clock may be 7 ns late, and not early.
    (
        [2 * NS + 1, 13 * NS, 23 * NS, 0, 13 * NS, 23 * NS],
        Some((Bound::Late(0), 2 * NS, 2 * NS + 1)),
    ),
    (
        [-1, 13 * NS, 23 * NS, 0, 13 * NS, 23 * NS],
        Some((Bound::Early(0), 0, 1)),
    ),
    // Two events of one clock.
    (
        [0, 12 * NS - 1, 23 * NS, 0, 13 * NS, 23 * NS],
        Some((Bound::Early(1), NS, NS + 1)),
    ),
    (
        [0, 13 * NS + 1, 23 * NS, 0, 13 * NS, 23 * NS],
        Some((Bound::Late(1), 0, 1)),
    ),
    (
        [0, 13 * NS, 20 * NS - 1, 0, 13 * NS, 23 * NS],
        Some((Bound::Early(2), 3 * NS, 3 * NS + 1)),
    ),
    (
        [0, 13 * NS, 28 * NS + 1, 0, 13 * NS, 23 * NS],
        Some((Bound::Late(2), 5 * NS, 5 * NS + 1)),
    ),
];

// What is to be answered of a run.
fn verdict(want: &Option<(Bound, i128, i128)>) -> Verdict {
    match want {
        Some((bound, weight, difference)) => Verdict::Broken {
            bound: *bound,
            weight: *weight,
            difference: *difference,
        },
        None => Verdict::Obeys,
    }
}

fn is_judged(alloc: Global, p: &Problem, run: &Run) -> bool {
    match execution(alloc, p, &run.0) {
        Some(times) => obeys(p, &times) == verdict(&run.1),
        None => false,
    }
}

// The first of the runs that has another verdict; 0 where the text is no problem.
fn first_misjudged(alloc: Global) -> Option<usize> {
    let Ok(p) = read_problem(alloc, BOUNDED.as_bytes()) else {
        return Some(0);
    };
    for (k, run) in RUNS.iter().enumerate() {
        if !is_judged(alloc, &p, run) {
            return Some(k);
        }
    }
    None
}

#[test]
fn runs_are_judged_by_bounds_of_events(rt: HostRuntime) {
    assert_eq!(rt; first_misjudged(rt.alloc()), None);
}

// A message takes 20 ns at least between events that are 10 ns apart, of which the first may be 1 ns early and the
// second 2 ns late. By the bounds of their clock it could. Nothing is on the clock d.
pub(crate) const CONTRADICTED: &str =
    "problem 3\nclock c 0 0 9 9\nclock d 0 0 0 0\nevent p c 0 1 0\nevent q c 10 0 2\nmessage p q 20 none\nend\n";

// Certificates with their answers: with the events' own bounds, and with those of their clock.
const PROOFS: [(&str, Answer); 3] = [
    (
        "certificate 1\ncycle\nstep delay-least p q -20.000000000\nstep early p 1.000000000\n\
        step span-most c 0 10 10.000000000\nstep late q 2.000000000\nend\n",
        Answer::Yes,
    ),
    (
        "certificate 1\ncycle\nstep delay-least p q -20.000000000\nstep early p 9.000000000\n\
        step span-most c 0 10 10.000000000\nstep late q 2.000000000\nend\n",
        Answer::No {
            part: Part::Cycle,
            reason: Reason::Weight(2),
        },
    ),
    (
        "certificate 1\ncycle\nstep delay-least p q -20.000000000\nstep early p 1.000000000\n\
        step span-most c 0 10 10.000000000\nstep late q 9.000000000\nend\n",
        Answer::No {
            part: Part::Cycle,
            reason: Reason::Weight(4),
        },
    ),
];

#[test]
fn certificates_have_bounds_of_events(rt: HostRuntime) {
    let p = read_problem(rt.alloc(), CONTRADICTED.as_bytes()).expect(&rt, "a problem");
    for (text, answer) in &PROOFS {
        assert!(rt;
            text_answers(rt.alloc(), &p, text.as_bytes(), answer),
            "{text}"
        );
    }
}

// With 4 ns more each they can, with 3 ns more they are 19 ns apart at most.
const FOUR: [&str; 12] = [
    "widening 1\n",
    "least 4 stamps\n",
    "event p 0.000000000\n",
    "event q 20.000000000\n",
    "reading c 0 5.000000000\n",
    "reading c 10 15.000000000\n",
    "cycle\n",
    "step delay-least p q -20.000000000\n",
    "step early p 4.000000000\n",
    "step span-most c 0 10 10.000000000\n",
    "step late q 5.000000000\n",
    "end\n",
];

// The bounds of the other clock's events, of which there are none, don't heal.
const NONE: [&str; 8] = [
    "widening 1\n",
    "least none stamps d\n",
    "cycle\n",
    "step delay-least p q -20.000000000\n",
    "step early p 1.000000000\n",
    "step span-most c 0 10 10.000000000\n",
    "step late q 2.000000000\n",
    "end\n",
];

#[test]
fn widenings_of_stamps_widen_bounds_of_events(rt: HostRuntime) {
    let cases = [
        (0, "", Answer::Yes),
        (2, "least 4 stamps c\n", Answer::Yes),
        (2, "least 5 stamps\n", cycle(Reason::Weight(2))),
        (
            2,
            "least 3 stamps\n",
            broken(Bound::Early(0), 4 * NS, 5 * NS),
        ),
        // Where other numbers are widened bounds are as they are declared.
        (2, "least 4 stamps d\n", broken(Bound::Early(0), NS, 5 * NS)),
        (2, "least 4\n", broken(Bound::Early(0), NS, 5 * NS)),
        (2, "least 4 least\n", broken(Bound::Early(0), NS, 5 * NS)),
        // The weights that are declared, and those of the clock's bounds with 3 ns more.
        (9, "step early p 1.000000000\n", cycle(Reason::Weight(2))),
        (9, "step early p 12.000000000\n", cycle(Reason::Weight(2))),
        (11, "step late q 2.000000000\n", cycle(Reason::Weight(4))),
        (11, "step late q 12.000000000\n", cycle(Reason::Weight(4))),
    ];
    assert!(rt; have_answers(rt.alloc(), CONTRADICTED, &FOUR, &cases));
    let cases = [
        (0, "", Answer::Yes),
        (2, "least none stamps c\n", cycle(Reason::Weight(2))),
    ];
    assert!(rt; have_answers(rt.alloc(), CONTRADICTED, &NONE, &cases));
}
