// Executions and certificates of clocks that follow each other.
use crate::parts::{NS, execution};
use crate::verdicts::{Ends, ends_answer, first_wrong_of, text_answers};
use atto::Nano;
use cert_check::{Answer, Part, Reason, Verdict, obeys};
use problem::{Problem, read_problem};
use problem_model::Bound;
use std::alloc::Global;
use std::test::*;

// Three clocks in a chain, each with a reading. The nodes are p, q and r, then c, d and e.
const CHAIN: &str =
    "problem 2\nclock c 0 0 0 0\nclock d 0 0 0 0\nclock e 0 0 0 0\nfollow c d 5\nfollow d e 7\n\
    event p c 10\nevent q e 0\nevent r d 0\nend\n";

// The clock in the middle has no reading, and the first has two. The nodes are p, q and r, then c at 10, c at 11 and e.
const PASSED_OVER: &str =
    "problem 2\nclock c 0 0 0 0\nclock d 0 0 0 0\nclock e 0 0 0 0\nfollow c d 5\nfollow d e 7\n\
    event p c 10\nevent q e 0\nevent r c 11\nend\n";

// A message from the later clock to the earlier one. The nodes are p, q and r, then c, d at 3 and d at 4.
const SENT_BACK: &str =
    "problem 2\nclock c 0 0 0 0\nclock d 0 0 0 0\nfollow c d 5\nevent p c 10\nevent q d 3\nevent r d 4\n\
    message q p 0 none\nend\n";

// A follow by the places of its clocks and the stamps of its readings in ns, or another bound.
#[derive(Clone, Copy)]
enum Named {
    Follow(u32, u64, u32, u64),
    Other(Bound),
}

fn bound(name: Named) -> Option<Bound> {
    match name {
        Named::Follow(earlier, s, later, t) => Some(Bound::Follow {
            earlier,
            s: Nano::new(s)?,
            later,
            t: Nano::new(t)?,
        }),
        Named::Other(bound) => Some(bound),
    }
}

// The real times of the nodes, and what is broken first: the bound, its weight and the difference.
type Run = ([i128; 6], Option<(Named, i128, i128)>);

// The gaps are 5 ns from c to d and 7 ns from d to e.
const CHAIN_RUNS: [Run; 5] = [
    ([0, 12 * NS, 5 * NS, 0, 5 * NS, 12 * NS], None),
    (
        [0, 12 * NS, 5 * NS - 1, 0, 5 * NS - 1, 12 * NS],
        Some((Named::Follow(0, 10, 1, 0), -5 * NS, 1 - 5 * NS)),
    ),
    (
        [0, 12 * NS - 1, 5 * NS, 0, 5 * NS, 12 * NS - 1],
        Some((Named::Follow(1, 0, 2, 0), -7 * NS, 1 - 7 * NS)),
    ),
    (
        [0, 5 * NS, 4 * NS, 0, 4 * NS, 5 * NS],
        Some((Named::Follow(0, 10, 1, 0), -5 * NS, -4 * NS)),
    ),
    (
        [0, 12 * NS, 4 * NS + 1, 0, 4 * NS, 12 * NS],
        Some((Named::Other(Bound::Late(2)), 0, 1)),
    ),
];

// Only the gap of the line to e counts, from the last reading of c on.
const PASSED_OVER_RUNS: [Run; 2] = [
    ([0, 8 * NS, NS, 0, NS, 8 * NS], None),
    (
        [0, 8 * NS - 1, NS, 0, NS, 8 * NS - 1],
        Some((Named::Follow(0, 11, 2, 0), -7 * NS, 1 - 7 * NS)),
    ),
];

// No run obeys both the follow and the message, which stands behind it in the short list.
const SENT_BACK_RUNS: [Run; 2] = [
    (
        [0, 4 * NS, 5 * NS, 0, 4 * NS, 5 * NS],
        Some((Named::Follow(0, 10, 1, 3), -5 * NS, -4 * NS)),
    ),
    (
        [0, 5 * NS, 6 * NS, 0, 5 * NS, 6 * NS],
        Some((
            Named::Other(Bound::DelayLeast {
                send: 1,
                receive: 0,
            }),
            0,
            5 * NS,
        )),
    ),
];

// What is to be answered of a run.
fn verdict(want: &Option<(Named, i128, i128)>) -> Option<Verdict> {
    match want {
        Some((name, weight, difference)) => Some(Verdict::Broken {
            bound: bound(*name)?,
            weight: *weight,
            difference: *difference,
        }),
        None => Some(Verdict::Obeys),
    }
}

// Whether that is the verdict over a run.
fn is_judged(alloc: Global, p: &Problem, run: &Run) -> bool {
    match execution(alloc, p, &run.0) {
        Some(times) => Some(obeys(p, &times)) == verdict(&run.1),
        None => false,
    }
}

// The first of these runs that has another verdict; 0 where the text is no problem.
fn first_misjudged(alloc: Global, problem: &str, runs: &[Run]) -> Option<usize> {
    let Ok(p) = read_problem(alloc, problem.as_bytes()) else {
        return Some(0);
    };
    for (k, run) in runs.iter().enumerate() {
        if !is_judged(alloc, &p, run) {
            return Some(k);
        }
    }
    None
}

#[test]
fn runs_along_a_chain_are_judged(rt: HostRuntime) {
    assert_eq!(rt; first_misjudged(rt.alloc(), CHAIN, &CHAIN_RUNS), None);
}

#[test]
fn a_clock_without_a_reading_is_passed_over(rt: HostRuntime) {
    assert_eq!(rt;
        first_misjudged(rt.alloc(), PASSED_OVER, &PASSED_OVER_RUNS),
        None
    );
}

#[test]
fn follows_are_judged_before_messages(rt: HostRuntime) {
    assert_eq!(rt;
        first_misjudged(rt.alloc(), SENT_BACK, &SENT_BACK_RUNS),
        None
    );
}

const CHAIN_RUN: &str = "event p 0.000000000\nevent q 12.000000000\nevent r 5.000000000\n\
    reading c 10 0.000000000\nreading d 0 5.000000000\nreading e 0 12.000000000\n";

// The path from q to p over both follows, over both with the gap of the other line, and over the follow from c to e.
const BOTH: &str =
    "step early q 0.000000000\nstep follow d 0 e 0 -7.000000000\nstep follow c 10 d 0 -5.000000000\nstep late p 0.000000000\n";

const EXCHANGED: &str =
    "step early q 0.000000000\nstep follow d 0 e 0 -5.000000000\nstep follow c 10 d 0 -7.000000000\nstep late p 0.000000000\n";

const OVER_D: &str =
    "step early q 0.000000000\nstep follow c 10 e 0 -7.000000000\nstep late p 0.000000000\n";

const OVER_D_BY_BOTH: &str =
    "step early q 0.000000000\nstep follow c 10 e 0 -12.000000000\nstep late p 0.000000000\n";

const OPEN: [&str; 3] = ["upper +inf\n", "inside c\n", CHAIN_RUN];

// Ends of the interval from p to q. It begins at the sum of both gaps, and each follow has the gap of the line to its later
// clock.
const CHAIN_ENDS: [Ends; 6] = [
    (OPEN, ["lower 12.000000000\n", BOTH, CHAIN_RUN], Answer::Yes),
    (
        ["upper +inf\n", "inside c\ninside d\n", CHAIN_RUN],
        ["lower 12.000000000\n", BOTH, CHAIN_RUN],
        Answer::Yes,
    ),
    (
        OPEN,
        ["lower 12.000000000\n", EXCHANGED, CHAIN_RUN],
        Answer::No {
            part: Part::Lower,
            reason: Reason::Weight(2),
        },
    ),
    (
        OPEN,
        ["lower 12.000000000\n", OVER_D, CHAIN_RUN],
        Answer::No {
            part: Part::Lower,
            reason: Reason::Sum(-7 * NS),
        },
    ),
    (
        OPEN,
        ["lower 12.000000000\n", OVER_D_BY_BOTH, CHAIN_RUN],
        Answer::No {
            part: Part::Lower,
            reason: Reason::Weight(2),
        },
    ),
    (
        OPEN,
        ["lower 7.000000000\n", OVER_D, CHAIN_RUN],
        Answer::No {
            part: Part::Lower,
            reason: Reason::Difference(12 * NS),
        },
    ),
];

#[test]
fn ends_over_follows_are_checked(rt: HostRuntime) {
    assert_eq!(rt;
        first_wrong_of(rt.alloc(), CHAIN, "ends p q\n", &CHAIN_ENDS),
        None
    );
}

const PASSED_OVER_RUN: &str = "event p 0.000000000\nevent q 8.000000000\nevent r 1.000000000\n\
    reading c 10 0.000000000\nreading c 11 1.000000000\nreading e 0 8.000000000\n";

const SENT_BACK_RUN: &str = "event p 0.000000000\nevent q 5.000000000\nevent r 6.000000000\n\
    reading c 10 0.000000000\nreading d 3 5.000000000\nreading d 4 6.000000000\n";

// A problem, the interval of two events, a run, the clocks inside at an upper end without limit and at such a lower end, and
// the first bound that leaves the upper cut.
struct Left {
    problem: &'static str,
    events: &'static str,
    run: &'static str,
    upper: &'static str,
    lower: &'static str,
    bound: Named,
}

const LEFT_CUTS: [Left; 6] = [
    Left {
        problem: CHAIN,
        events: "ends q p\n",
        run: CHAIN_RUN,
        upper: "inside e\n",
        lower: "inside c\n",
        bound: Named::Follow(1, 0, 2, 0),
    },
    Left {
        problem: CHAIN,
        events: "ends q p\n",
        run: CHAIN_RUN,
        upper: "inside d\ninside e\n",
        lower: "inside c\n",
        bound: Named::Follow(0, 10, 1, 0),
    },
    Left {
        problem: PASSED_OVER,
        events: "ends q p\n",
        run: PASSED_OVER_RUN,
        upper: "inside e\n",
        lower: "inside c\n",
        bound: Named::Follow(0, 11, 2, 0),
    },
    Left {
        problem: PASSED_OVER,
        events: "ends q p\n",
        run: PASSED_OVER_RUN,
        upper: "inside d\ninside e\n",
        lower: "inside c\n",
        bound: Named::Follow(0, 11, 2, 0),
    },
    Left {
        problem: SENT_BACK,
        events: "ends q p\n",
        run: SENT_BACK_RUN,
        upper: "inside d\n",
        lower: "inside c\n",
        bound: Named::Follow(0, 10, 1, 3),
    },
    Left {
        problem: SENT_BACK,
        events: "ends p q\n",
        run: SENT_BACK_RUN,
        upper: "inside c\n",
        lower: "inside d\n",
        bound: Named::Other(Bound::DelayLeast {
            send: 1,
            receive: 0,
        }),
    },
];

// Whether the upper end is refused for that bound.
fn is_left(alloc: Global, case: &Left) -> bool {
    let Some(bound) = bound(case.bound) else {
        return false;
    };
    let ends = (
        ["upper +inf\n", case.upper, case.run],
        ["lower -inf\n", case.lower, case.run],
        Answer::No {
            part: Part::Upper,
            reason: Reason::Leaves(bound),
        },
    );
    match read_problem(alloc, case.problem.as_bytes()) {
        Ok(p) => ends_answer(alloc, &p, case.events, &ends),
        Err(_) => false,
    }
}

// The first of these cuts that is answered otherwise.
fn first_kept(alloc: Global, cases: &[Left]) -> Option<usize> {
    for (k, case) in cases.iter().enumerate() {
        if !is_left(alloc, case) {
            return Some(k);
        }
    }
    None
}

#[test]
fn follows_leave_cuts(rt: HostRuntime) {
    assert_eq!(rt; first_kept(rt.alloc(), &LEFT_CUTS), None);
}

// The message takes no time at least, and its receive stands on the earlier clock.
const CONTRADICTED: &str =
    "problem 2\nclock c 0 0 0 0\nclock d 0 0 0 0\nfollow c d 5\nevent p c 10\nevent q d 3\nmessage q p 0 none\nend\n";

const PROOF: &str =
    "certificate 1\ncycle\nstep delay-least q p 0.000000000\nstep early q 0.000000000\n\
    step follow c 10 d 3 -5.000000000\nstep late p 0.000000000\nend\n";

const LIGHTER_PROOF: &str =
    "certificate 1\ncycle\nstep delay-least q p 0.000000000\nstep early q 0.000000000\n\
    step follow c 10 d 3 -5.000000001\nstep late p 0.000000000\nend\n";

#[test]
fn a_contradiction_by_a_follow_is_checked(rt: HostRuntime) {
    let p = read_problem(rt.alloc(), CONTRADICTED.as_bytes()).expect(&rt, "a problem");
    let no = Answer::No {
        part: Part::Cycle,
        reason: Reason::Weight(3),
    };
    assert!(rt; text_answers(rt.alloc(), &p, PROOF.as_bytes(), &Answer::Yes));
    assert!(rt; text_answers(rt.alloc(), &p, LIGHTER_PROOF.as_bytes(), &no));
}
