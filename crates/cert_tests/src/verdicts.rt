// Worked certificates and what is wrong with each first.
use crate::fixtures::MESSAGE_PROBLEM;
use crate::parts::{LEAST, MOST, NS, chain, execution};
use cert::Cert;
use cert_check::{Answer, Part, Reason, check, check_text};
use problem::{Problem, read_problem};
use problem_model::Bound;
use shared_fixtures::push_lines;
use std::alloc::{AllocError, Global};
use std::test::*;

// The message of two clocks, and it may take any longer.
const NO_MOST: &str =
    "problem 1\nclock a 0 0 0 0\nclock b 0 0 3 5\nevent a#1 a 100\nevent b#1 b 250\nmessage a#1 b#1 10 none\nend\n";

// The message takes at least 20 ns and at most 10.
const CONTRADICTED: &str =
    "problem 1\nclock a 0 0 0 0\nclock b 0 0 3 5\nevent a#1 a 100\nevent b#1 b 250\nmessage a#1 b#1 20 10\nend\n";

// A message between two events of one clock.
const SAME_CLOCK: &str =
    "problem 1\nclock a 0 0 0 0\nevent a#1 a 100\nevent a#2 a 110\nmessage a#1 a#2 10 20\nend\n";

// Two events of one clock, 10 ns apart.
const SPAN: &str = "problem 1\nclock c 0 0 0 0\nevent p c 0\nevent q c 10\nend\n";

// The steps of a cycle, each with its weight, and the answer.
type Cycle = ([(Bound, i128); 2], Answer);

// Cycles of the message.
const CYCLES: [Cycle; 8] = [
    (
        [(MOST, 20 * NS), (LEAST, -10 * NS)],
        Answer::No {
            part: Part::Cycle,
            reason: Reason::Sum(10 * NS),
        },
    ),
    (
        [(Bound::Late(0), 0), (Bound::Early(0), 0)],
        Answer::No {
            part: Part::Cycle,
            reason: Reason::Sum(0),
        },
    ),
    (
        [(Bound::Late(1), 5 * NS), (Bound::Early(1), 3 * NS)],
        Answer::No {
            part: Part::Cycle,
            reason: Reason::Sum(8 * NS),
        },
    ),
    (
        [(Bound::Late(1), 3 * NS), (Bound::Early(1), 5 * NS)],
        Answer::No {
            part: Part::Cycle,
            reason: Reason::Weight(1),
        },
    ),
    (
        [(MOST, 20 * NS), (LEAST, -30 * NS)],
        Answer::No {
            part: Part::Cycle,
            reason: Reason::Weight(2),
        },
    ),
    (
        [(MOST, 19 * NS), (Bound::Late(0), 0)],
        Answer::No {
            part: Part::Cycle,
            reason: Reason::Weight(1),
        },
    ),
    (
        [(MOST, 20 * NS), (Bound::Late(0), 1)],
        Answer::No {
            part: Part::Cycle,
            reason: Reason::Join(1),
        },
    ),
    (
        [(Bound::Late(0), 0), (MOST, 20 * NS)],
        Answer::No {
            part: Part::Cycle,
            reason: Reason::Join(2),
        },
    ),
];

// Whether this is the answer for a cycle of these steps.
fn cycle_answers(alloc: Global, p: &Problem, steps: &[(Bound, i128)], want: &Answer) -> bool {
    if steps.len() > 9 {
        return false;
    }
    match chain(alloc, p, steps) {
        Some(steps) => check(p, &Cert::Cycle(steps)) == *want,
        None => false,
    }
}

// The first of these cycles that has another answer.
fn first_wrong_cycle(alloc: Global, p: &Problem, cases: &[Cycle]) -> Option<usize> {
    for (k, (steps, want)) in cases.iter().enumerate() {
        if !cycle_answers(alloc, p, steps, want) {
            return Some(k);
        }
    }
    None
}

#[test]
fn cycles_are_checked(rt: HostRuntime) {
    let p = read_problem(rt.alloc(), MESSAGE_PROBLEM.as_bytes()).expect(&rt, "a problem");
    assert_eq!(rt; first_wrong_cycle(rt.alloc(), &p, &CYCLES), None);
}

#[test]
fn contradictions_and_nothing_are_checked(rt: HostRuntime) {
    let p = read_problem(rt.alloc(), CONTRADICTED.as_bytes()).expect(&rt, "a problem");
    assert!(rt;
        cycle_answers(
            rt.alloc(),
            &p,
            &[],
            &Answer::No {
                part: Part::Cycle,
                reason: Reason::Empty
            }
        )
    );
    let steps = [(MOST, 10 * NS), (LEAST, -20 * NS)];
    assert!(rt; cycle_answers(rt.alloc(), &p, &steps, &Answer::Yes));
}

// Whether this is the answer for a run in which the second clock and event come so much later than the first.
fn run_answers(alloc: Global, p: &Problem, last: i128, want: &Answer) -> bool {
    match execution(alloc, p, &[0, last, 0, last]) {
        Some(times) => check(p, &Cert::Run(times)) == *want,
        None => false,
    }
}

// That the message takes 21 ns, by a run or by the execution of an upper end.
const LATE: Reason = Reason::Broken {
    bound: MOST,
    weight: 20 * NS,
    difference: 21 * NS,
};

// That it takes 9 ns.
const EARLY: Reason = Reason::Broken {
    bound: LEAST,
    weight: -10 * NS,
    difference: -9 * NS,
};

#[test]
fn runs_are_checked(rt: HostRuntime) {
    let p = read_problem(rt.alloc(), MESSAGE_PROBLEM.as_bytes()).expect(&rt, "a problem");
    let late = Answer::No {
        part: Part::Run,
        reason: LATE,
    };
    assert!(rt; run_answers(rt.alloc(), &p, 15 * NS, &Answer::Yes));
    assert!(rt; run_answers(rt.alloc(), &p, 21 * NS, &late));
}

// The lines of the upper end and of the lower one, and the answer. An end has its value, then a path or the clock inside a
// cut, and then an execution.
pub(crate) type Ends = ([&'static str; 3], [&'static str; 3], Answer);

// Executions in which the second clock and event come so many ns later than the first.
const AFTER_9: &str =
    "event a#1 0.000000000\nevent b#1 9.000000000\nreading a 100 0.000000000\nreading b 250 9.000000000\n";

const AFTER_10: &str =
    "event a#1 0.000000000\nevent b#1 10.000000000\nreading a 100 0.000000000\nreading b 250 10.000000000\n";

const AFTER_12: &str =
    "event a#1 0.000000000\nevent b#1 12.000000000\nreading a 100 0.000000000\nreading b 250 12.000000000\n";

const AFTER_15: &str =
    "event a#1 0.000000000\nevent b#1 15.000000000\nreading a 100 0.000000000\nreading b 250 15.000000000\n";

const AFTER_20: &str =
    "event a#1 0.000000000\nevent b#1 20.000000000\nreading a 100 0.000000000\nreading b 250 20.000000000\n";

const AFTER_21: &str =
    "event a#1 0.000000000\nevent b#1 21.000000000\nreading a 100 0.000000000\nreading b 250 21.000000000\n";

// An execution of two events of one clock, 10 ns apart.
const SAME_CLOCK_RUN: &str =
    "event a#1 0.000000000\nevent a#2 10.000000000\nreading a 100 0.000000000\nreading a 110 10.000000000\n";

const SPAN_RUN: &str =
    "event p 0.000000000\nevent q 10.000000000\nreading c 0 0.000000000\nreading c 10 10.000000000\n";

// Steps of the message.
const BY_MOST: &str = "step delay-most a#1 b#1 20.000000000\n";

const BY_LEAST: &str = "step delay-least a#1 b#1 -10.000000000\n";

// Paths back over the span of a clock, and along it.
const BACK: &str =
    "step late q 0.000000000\nstep span-most c 0 10 10.000000000\nstep early p 0.000000000\n";

const ALONG: &str =
    "step early q 0.000000000\nstep span-least c 0 10 -10.000000000\nstep late p 0.000000000\n";

// Ends of the message that show what they should.
const UPPER: [&str; 3] = ["upper 20.000000000\n", BY_MOST, AFTER_20];

const LOWER: [&str; 3] = ["lower 10.000000000\n", BY_LEAST, AFTER_10];

// Upper ends of the message.
const UPPER_ENDS: [Ends; 7] = [
    (UPPER, LOWER, Answer::Yes),
    (
        [
            "upper 19.000000000\n",
            "step delay-most a#1 b#1 19.000000000\n",
            AFTER_20,
        ],
        LOWER,
        Answer::No {
            part: Part::Upper,
            reason: Reason::Weight(1),
        },
    ),
    (
        [
            "upper 20.000000000\n",
            "step delay-least a#1 b#1 0.000000007\n",
            AFTER_20,
        ],
        LOWER,
        Answer::No {
            part: Part::Upper,
            reason: Reason::Join(1),
        },
    ),
    (
        [
            "upper 20.000000000\n",
            "step late b#1 5.000000000\n",
            AFTER_20,
        ],
        LOWER,
        Answer::No {
            part: Part::Upper,
            reason: Reason::Join(2),
        },
    ),
    (
        ["upper 21.000000000\n", BY_MOST, AFTER_20],
        LOWER,
        Answer::No {
            part: Part::Upper,
            reason: Reason::Sum(20 * NS),
        },
    ),
    (
        ["upper 20.000000000\n", BY_MOST, AFTER_21],
        LOWER,
        Answer::No {
            part: Part::Upper,
            reason: LATE,
        },
    ),
    (
        ["upper 20.000000000\n", BY_MOST, AFTER_15],
        LOWER,
        Answer::No {
            part: Part::Upper,
            reason: Reason::Difference(15 * NS),
        },
    ),
];

// Lower ends of the message.
const LOWER_ENDS: [Ends; 4] = [
    (UPPER, LOWER, Answer::Yes),
    (
        UPPER,
        ["lower -10.000000000\n", BY_LEAST, AFTER_10],
        Answer::No {
            part: Part::Lower,
            reason: Reason::Sum(-10 * NS),
        },
    ),
    (
        UPPER,
        ["lower 10.000000000\n", BY_MOST, AFTER_10],
        Answer::No {
            part: Part::Lower,
            reason: Reason::Join(1),
        },
    ),
    (
        UPPER,
        ["lower 10.000000000\n", BY_LEAST, AFTER_12],
        Answer::No {
            part: Part::Lower,
            reason: Reason::Difference(12 * NS),
        },
    ),
];

// Ends of two events of one clock.
const SPAN_ENDS: [Ends; 3] = [
    (
        ["upper 10.000000000\n", BACK, SPAN_RUN],
        ["lower 10.000000000\n", ALONG, SPAN_RUN],
        Answer::Yes,
    ),
    (
        ["upper 11.000000000\n", BACK, SPAN_RUN],
        ["lower 9.000000000\n", ALONG, SPAN_RUN],
        Answer::No {
            part: Part::Upper,
            reason: Reason::Sum(10 * NS),
        },
    ),
    (
        ["upper 10.000000000\n", BACK, SPAN_RUN],
        ["lower 9.000000000\n", ALONG, SPAN_RUN],
        Answer::No {
            part: Part::Lower,
            reason: Reason::Sum(-10 * NS),
        },
    ),
];

// Cuts above a message that may take any longer.
const OPEN_CUTS: [Ends; 3] = [
    (["upper +inf\n", "inside a\n", AFTER_10], LOWER, Answer::Yes),
    (
        ["upper +inf\n", "inside b\n", AFTER_10],
        LOWER,
        Answer::No {
            part: Part::Upper,
            reason: Reason::Home,
        },
    ),
    (
        ["upper +inf\n", "inside a\n", AFTER_9],
        LOWER,
        Answer::No {
            part: Part::Upper,
            reason: EARLY,
        },
    ),
];

// Cuts that the message leaves, or that do not hold the clock that they should.
const CUTS: [Ends; 3] = [
    (
        ["upper +inf\n", "inside a\n", AFTER_10],
        LOWER,
        Answer::No {
            part: Part::Upper,
            reason: Reason::Leaves(MOST),
        },
    ),
    (
        UPPER,
        ["lower -inf\n", "inside b\n", AFTER_10],
        Answer::No {
            part: Part::Lower,
            reason: Reason::Leaves(LEAST),
        },
    ),
    (
        UPPER,
        ["lower -inf\n", "inside a\n", AFTER_10],
        Answer::No {
            part: Part::Lower,
            reason: Reason::Home,
        },
    ),
];

// A cut between two events of one clock.
const CUT_OF_ONE_CLOCK: [Ends; 1] = [(
    ["upper +inf\n", "inside a\n", SAME_CLOCK_RUN],
    [
        "lower 10.000000000\n",
        "step delay-least a#1 a#2 -10.000000000\n",
        SAME_CLOCK_RUN,
    ],
    Answer::No {
        part: Part::Upper,
        reason: Reason::Away,
    },
)];

// Whether this is the answer for the text of a certificate.
pub(crate) fn text_answers(alloc: Global, p: &Problem, text: &[u8], want: &Answer) -> bool {
    match check_text(alloc, p, text) {
        Ok(answer) => answer == *want,
        Err(_) => false,
    }
}

// Appends the text of a certificate of these ends.
fn push_ends(text: &mut Vec<u8>, events: &str, case: &Ends) -> Result<(), AllocError> {
    text.extend_from_slice(b"certificate 1\n")?;
    text.extend_from_slice(events.as_bytes())?;
    push_lines(text, &case.0)?;
    push_lines(text, &case.1)?;
    text.extend_from_slice(b"end\n")
}

// Whether that is the answer for these ends of the interval of two events.
pub(crate) fn ends_answer(alloc: Global, p: &Problem, events: &str, case: &Ends) -> bool {
    let mut text = Vec::new(alloc);
    match push_ends(&mut text, events, case) {
        Ok(()) => text_answers(alloc, p, &text, &case.2),
        Err(_) => false,
    }
}

// The first of these ends that have another answer.
fn first_wrong(alloc: Global, p: &Problem, events: &str, cases: &[Ends]) -> Option<usize> {
    for (k, case) in cases.iter().enumerate() {
        if !ends_answer(alloc, p, events, case) {
            return Some(k);
        }
    }
    None
}

// The same of a problem by its text; 0 where it is none.
pub(crate) fn first_wrong_of(
    alloc: Global,
    problem: &str,
    events: &str,
    cases: &[Ends],
) -> Option<usize> {
    match read_problem(alloc, problem.as_bytes()) {
        Ok(p) => first_wrong(alloc, &p, events, cases),
        Err(_) => Some(0),
    }
}

#[test]
fn upper_ends_are_checked(rt: HostRuntime) {
    assert_eq!(rt;
        first_wrong_of(rt.alloc(), MESSAGE_PROBLEM, "ends a#1 b#1\n", &UPPER_ENDS),
        None
    );
}

#[test]
fn lower_ends_are_checked(rt: HostRuntime) {
    assert_eq!(rt;
        first_wrong_of(rt.alloc(), MESSAGE_PROBLEM, "ends a#1 b#1\n", &LOWER_ENDS),
        None
    );
}

#[test]
fn ends_over_a_span_are_checked(rt: HostRuntime) {
    assert_eq!(rt;
        first_wrong_of(rt.alloc(), SPAN, "ends p q\n", &SPAN_ENDS),
        None
    );
}

#[test]
fn open_cuts_are_checked(rt: HostRuntime) {
    assert_eq!(rt;
        first_wrong_of(rt.alloc(), NO_MOST, "ends a#1 b#1\n", &OPEN_CUTS),
        None
    );
}

#[test]
fn cuts_are_checked(rt: HostRuntime) {
    assert_eq!(rt;
        first_wrong_of(rt.alloc(), MESSAGE_PROBLEM, "ends a#1 b#1\n", &CUTS),
        None
    );
}

#[test]
fn a_cut_of_one_clock_is_checked(rt: HostRuntime) {
    assert_eq!(rt;
        first_wrong_of(rt.alloc(), SAME_CLOCK, "ends a#1 a#2\n", &CUT_OF_ONE_CLOCK),
        None
    );
}
