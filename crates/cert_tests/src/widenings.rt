// Worked texts of widenings: what judging them answers, why others are refused, and that they are written as they are read.
use atto::Nano;
use cert::CertError;
use cert_check::{Answer, Part, Reason};
use problem::{Problem, read_problem};
use problem_model::Bound;
use shared_fixtures::{CONTRADICTING_PROBLEM, HOPELESS_PROBLEM, TWO_LOGS_PROBLEM, text_with};
use std::alloc::Global;
use std::test::*;
use widen::judge_text;

// One ns, in units of 1e-9 ns.
const NS: i128 = 1_000_000_000;

// With 3 ns more each they can; with 2 ns more they take 44 at most.
const THREE: [&str; 20] = [
    "widening 1\n",
    "least 3\n",
    "event a#1 0.000000000\n",
    "event a#2 95.000000000\n",
    "event b#1 22.000000000\n",
    "event b#2 72.000000000\n",
    "reading a 100 0.000000000\n",
    "reading a 195 95.000000000\n",
    "reading b 250 22.000000000\n",
    "reading b 300 72.000000000\n",
    "cycle\n",
    "step delay-most a#1 b#1 22.000000000\n",
    "step early b#1 0.000000000\n",
    "step span-most b 250 300 50.000000000\n",
    "step late b#2 0.000000000\n",
    "step delay-most b#2 a#2 22.000000000\n",
    "step early a#2 0.000000000\n",
    "step span-least a 100 195 -95.000000000\n",
    "step late a#1 0.000000000\n",
    "end\n",
];

// The same execution with a cycle of no steps.
const NO_STEPS: [&str; 12] = [
    "widening 1\n",
    "least 3\n",
    "event a#1 0.000000000\n",
    "event a#2 95.000000000\n",
    "event b#1 22.000000000\n",
    "event b#2 72.000000000\n",
    "reading a 100 0.000000000\n",
    "reading a 195 95.000000000\n",
    "reading b 250 22.000000000\n",
    "reading b 300 72.000000000\n",
    "cycle\n",
    "end\n",
];

const ZERO: [&str; 11] = [
    "widening 1\n",
    "least 0\n",
    "event a#1 0.000000000\n",
    "event a#2 80.000000000\n",
    "event b#1 10.000000000\n",
    "event b#2 60.000000000\n",
    "reading a 100 0.000000000\n",
    "reading a 180 80.000000000\n",
    "reading b 250 10.000000000\n",
    "reading b 300 60.000000000\n",
    "end\n",
];

const NONE: [&str; 8] = [
    "widening 1\n",
    "least none\n",
    "cycle\n",
    "step delay-least p q -20.000000000\n",
    "step early p 0.000000000\n",
    "step span-most c 0 10 10.000000000\n",
    "step late q 0.000000000\n",
    "end\n",
];

// Two events lie 2^62 - 1 ns apart. A message leaves with the first, takes 0 ns, and arrives 10 ns behind the second.
const FAR: &str =
    "problem 1\nclock c 0 0 0 0\nclock d 0 0 0 0\nevent p c 0\nevent q c 4611686018427387903\nevent r d 0\n\
    message q r 10 none\nmessage p r 0 0\nend\n";

// 2^62 - 1 ns more are 10 too few.
const FAR_NONE: [&str; 9] = [
    "widening 1\n",
    "least none\n",
    "cycle\n",
    "step delay-most p r 4611686018427387903.000000000\n",
    "step delay-least q r -10.000000000\n",
    "step early q 0.000000000\n",
    "step span-least c 0 4611686018427387903 -4611686018427387903.000000000\n",
    "step late p 0.000000000\n",
    "end\n",
];

// The clock b is 10 ns behind a. The message from b to a takes 1 ns at least, so 3 ns are left: p may come 3 ns behind
// its reading, and q 1 ns before its own.
pub(crate) const FOLLOWED: &str =
    "problem 2\nclock a 0 0 0 3\nclock b 0 0 1 0\nfollow a b 10\nevent p a 0\nevent q b 0\nmessage q p 1 none\nend\n";

// With gaps of 7 ns less b is 3 ns behind a; with 6 ns less it is 4.
const GAPS_SEVEN: [&str; 12] = [
    "widening 1\n",
    "least 7 gaps\n",
    "event p 3.000000000\n",
    "event q 2.000000000\n",
    "reading a 0 0.000000000\n",
    "reading b 0 3.000000000\n",
    "cycle\n",
    "step follow a 0 b 0 -4.000000000\n",
    "step late p 3.000000000\n",
    "step delay-least q p -1.000000000\n",
    "step early q 1.000000000\n",
    "end\n",
];

// The same with a message of 5 ns at least: without any gap the sum is -1 ns still.
pub(crate) const FOLLOWED_NEVER: &str =
    "problem 2\nclock a 0 0 0 3\nclock b 0 0 1 0\nfollow a b 10\nevent p a 0\nevent q b 0\nmessage q p 5 none\nend\n";

const GAPS_NEVER: [&str; 8] = [
    "widening 1\n",
    "least none gaps\n",
    "cycle\n",
    "step follow a 0 b 0 0.000000000\n",
    "step late p 3.000000000\n",
    "step delay-least q p -5.000000000\n",
    "step early q 1.000000000\n",
    "end\n",
];

// The answer of the lines with another text in the place of one.
fn answer_with(
    alloc: Global,
    p: &Problem,
    lines: &[&str],
    place: usize,
    text: &str,
) -> Result<Answer, CertError> {
    match text_with(alloc, lines, place, text) {
        Ok(bytes) => judge_text(alloc, p, &bytes),
        Err(_) => Err(CertError::Memory),
    }
}

// Whether the lines of a problem, each time with another text in the place of one, have these answers.
pub(crate) fn have_answers(
    alloc: Global,
    problem: &str,
    lines: &[&str],
    cases: &[(usize, &str, Answer)],
) -> bool {
    let Ok(p) = read_problem(alloc, problem.as_bytes()) else {
        return false;
    };
    cases.iter().all(|(place, text, answer)| answer_with(alloc, &p, lines, *place, text)
        == Ok(*answer))
}

// Whether they have these faults.
fn have_faults(
    alloc: Global,
    problem: &str,
    lines: &[&str],
    cases: &[(usize, &str, CertError)],
) -> bool {
    let Ok(p) = read_problem(alloc, problem.as_bytes()) else {
        return false;
    };
    cases.iter().all(|(place, text, fault)| answer_with(alloc, &p, lines, *place, text)
        == Err(*fault))
}

pub(crate) const fn cycle(reason: Reason) -> Answer {
    Answer::No {
        part: Part::Cycle,
        reason,
    }
}

pub(crate) const fn broken(bound: Bound, weight: i128, difference: i128) -> Answer {
    Answer::No {
        part: Part::Run,
        reason: Reason::Broken {
            bound,
            weight,
            difference,
        },
    }
}

#[test]
fn widening_by_three_is_judged_from_both_sides(rt: HostRuntime) {
    let back = Bound::DelayMost {
        send: 3,
        receive: 1,
    };
    let cases = [
        (0, "", Answer::Yes),
        // With 4 ns more the execution stands, but the cycle is not one of 3.
        (2, "least 4\n", cycle(Reason::Weight(1))),
        (2, "least 4611686018427387903\n", cycle(Reason::Weight(1))),
        // With 2 ns more the second message may take 22 ns, and takes 23.
        (2, "least 2\n", broken(back, 22 * NS, 23 * NS)),
        // An event before the reading of its stamp is looked at behind the spans and before the messages.
        (5, "event b#1 23.000000000\n", broken(Bound::Late(2), 0, NS)),
        // The weights that are declared, and those of 3.
        (
            12,
            "step delay-most a#1 b#1 20.000000000\n",
            cycle(Reason::Weight(1)),
        ),
        (
            12,
            "step delay-most a#1 b#1 23.000000000\n",
            cycle(Reason::Weight(1)),
        ),
        (
            16,
            "step delay-most b#2 a#2 23.000000000\n",
            cycle(Reason::Weight(5)),
        ),
        (
            18,
            "step span-least a 100 195 -93.000000000\n",
            cycle(Reason::Weight(7)),
        ),
        // The least delay is as it is declared, and leads elsewhere.
        (
            13,
            "step delay-least a#1 b#1 -10.000000000\n",
            cycle(Reason::Join(2)),
        ),
        (
            13,
            "step delay-least a#1 b#1 -12.000000000\n",
            cycle(Reason::Weight(2)),
        ),
        (15, "", cycle(Reason::Join(3))),
        (19, "", cycle(Reason::Join(7))),
    ];
    assert!(rt; have_answers(rt.alloc(), CONTRADICTING_PROBLEM, &THREE, &cases));
}

#[test]
fn changed_lines_of_a_widening_are_told(rt: HostRuntime) {
    let there = Bound::DelayMost {
        send: 0,
        receive: 2,
    };
    let cases = [
        // With 1 ns more the first message may take 21 ns, and takes 22; with 5 the weights of 4 are wanted.
        (2, "least 1\n", broken(there, 21 * NS, 22 * NS)),
        (2, "least 5\n", cycle(Reason::Weight(1))),
        // Each event is at its reading.
        (3, "event a#1 1.000000000\n", broken(Bound::Late(0), 0, NS)),
        (
            4,
            "event a#2 94.000000000\n",
            broken(Bound::Early(1), 0, NS),
        ),
        (5, "event b#1 21.999999999\n", broken(Bound::Early(2), 0, 1)),
        (6, "event b#2 73.000000000\n", broken(Bound::Late(3), 0, NS)),
        // No other bound weighs more or less where the problem is widened.
        (13, "step early b#1 2.000000000\n", cycle(Reason::Weight(2))),
        (
            14,
            "step span-most b 250 300 49.000000000\n",
            cycle(Reason::Weight(3)),
        ),
        (19, "step late a#1 0.000000001\n", cycle(Reason::Weight(8))),
        // Without its first step the chain ends at a#1, and begins at b#1.
        (12, "", cycle(Reason::Join(7))),
        // Twice round is a chain too, with a sum of -2 ns.
        (
            19,
            "step late a#1 0.000000000\nstep delay-most a#1 b#1 22.000000000\nstep early b#1 0.000000000\n\
            step span-most b 250 300 50.000000000\nstep late b#2 0.000000000\nstep delay-most b#2 a#2 22.000000000\n\
            step early a#2 0.000000000\nstep span-least a 100 195 -95.000000000\nstep late a#1 0.000000000\n",
            Answer::Yes,
        ),
    ];
    assert!(rt; have_answers(rt.alloc(), CONTRADICTING_PROBLEM, &THREE, &cases));
}

#[test]
fn cycles_that_show_nothing_are_told(rt: HostRuntime) {
    let cases = [
        (0, "", cycle(Reason::Empty)),
        (
            11,
            "cycle\nstep late a#1 0.000000000\nstep early a#1 0.000000000\n",
            cycle(Reason::Sum(0)),
        ),
        (
            11,
            "cycle\nstep late a#1 0.000000000\n",
            cycle(Reason::Join(1)),
        ),
        (
            11,
            "cycle\nstep delay-most a#1 b#1 22.000000000\nstep delay-least a#1 b#1 -10.000000000\n",
            cycle(Reason::Sum(12 * NS)),
        ),
    ];
    assert!(rt; have_answers(rt.alloc(), CONTRADICTING_PROBLEM, &NO_STEPS, &cases));
}

#[test]
fn texts_of_widenings_have_their_faults(rt: HostRuntime) {
    let cases = [
        (1, "widening 2\n", CertError::Syntax(1)),
        (1, "certificate 1\n", CertError::Syntax(1)),
        (2, "least 03\n", CertError::Syntax(2)),
        (2, "least -3\n", CertError::Syntax(2)),
        (2, "least\n", CertError::Syntax(2)),
        (2, "least 4611686018427387904\n", CertError::Range(2)),
        (2, "least 99999999999999999999\n", CertError::Range(2)),
        (2, "least none\n", CertError::Syntax(3)),
        (2, "least 0\n", CertError::Syntax(11)),
        (3, "reading a 100 0.000000000\n", CertError::Syntax(3)),
        (4, "event b#1 95.000000000\n", CertError::Name(4)),
        (10, "", CertError::Syntax(10)),
        (11, "", CertError::Syntax(11)),
        (11, "end\n", CertError::Syntax(11)),
        (11, "cycle\ncycle\n", CertError::Syntax(12)),
        (
            12,
            "step delay-most a#1 b#2 22.000000000\n",
            CertError::Name(12),
        ),
        (
            12,
            "step delay-most a#1 b#1 1329227995784915872903807060.280344577\n",
            CertError::Range(12),
        ),
        (20, "", CertError::Syntax(20)),
        (20, "end", CertError::Syntax(20)),
        (20, "end\nend\n", CertError::Syntax(21)),
    ];
    assert!(rt; have_faults(rt.alloc(), CONTRADICTING_PROBLEM, &THREE, &cases));
}

#[test]
fn nothing_is_widened_where_an_execution_exists(rt: HostRuntime) {
    let cases = [
        (0, "", Answer::Yes),
        (
            6,
            "event b#2 59.000000000\n",
            broken(Bound::Early(3), 0, NS),
        ),
        (4, "event a#2 80.000000001\n", broken(Bound::Late(1), 0, 1)),
    ];
    assert!(rt; have_answers(rt.alloc(), TWO_LOGS_PROBLEM, &ZERO, &cases));
}

#[test]
fn cycle_stands_behind_a_widening_above_0_alone(rt: HostRuntime) {
    let cases = [
        (2, "least 1\n", CertError::Syntax(11)),
        (11, "cycle\nend\n", CertError::Syntax(11)),
        (
            11,
            "step late a#1 0.000000000\nend\n",
            CertError::Syntax(11),
        ),
    ];
    assert!(rt; have_faults(rt.alloc(), TWO_LOGS_PROBLEM, &ZERO, &cases));
}

#[test]
fn no_widening_is_judged_by_the_greatest(rt: HostRuntime) {
    let cases = [
        (0, "", Answer::Yes),
        (
            4,
            "step delay-least p q -19.000000000\n",
            cycle(Reason::Weight(1)),
        ),
        (6, "", cycle(Reason::Join(2))),
    ];
    assert!(rt; have_answers(rt.alloc(), HOPELESS_PROBLEM, &NONE, &cases));
}

#[test]
fn weights_of_no_widening_are_the_greatest(rt: HostRuntime) {
    let cases = [
        (0, "", Answer::Yes),
        (
            4,
            "step delay-most p r 0.000000000\n",
            cycle(Reason::Weight(1)),
        ),
        (
            4,
            "step delay-most p r 4611686018427387902.000000000\n",
            cycle(Reason::Weight(1)),
        ),
    ];
    assert!(rt; have_answers(rt.alloc(), FAR, &FAR_NONE, &cases));
}

#[test]
fn no_widening_has_no_real_times(rt: HostRuntime) {
    let cases = [
        (2, "least 1\n", CertError::Syntax(3)),
        (3, "event p 0.000000000\n", CertError::Syntax(3)),
        (3, "", CertError::Syntax(3)),
        (3, "end\n", CertError::Syntax(3)),
        (4, "step delay-most p q 0.000000000\n", CertError::Name(4)),
    ];
    assert!(rt; have_faults(rt.alloc(), HOPELESS_PROBLEM, &NONE, &cases));
}

// What breaks the follow from a to b of `FOLLOWED`, where it has this weight and they are 3 ns apart.
fn gap_broken(weight: i128) -> Option<Answer> {
    let follow = Bound::Follow {
        earlier: 0,
        s: Nano::new(0)?,
        later: 1,
        t: Nano::new(0)?,
    };
    Some(broken(follow, weight, -3 * NS))
}

// Whether the execution of `GAPS_SEVEN` breaks the follow, which has this weight, with another second line.
fn breaks_gap(alloc: Global, line: &str, weight: i128) -> bool {
    let Ok(p) = read_problem(alloc, FOLLOWED.as_bytes()) else {
        return false;
    };
    match gap_broken(weight) {
        Some(answer) => answer_with(alloc, &p, &GAPS_SEVEN, 2, line) == Ok(answer),
        None => false,
    }
}

#[test]
fn gaps_of_seven_less_are_judged_from_both_sides(rt: HostRuntime) {
    let cases = [
        (0, "", Answer::Yes),
        // With 8 ns less the execution stands, but the cycle is not one of 7; and so where no gap is left.
        (2, "least 8 gaps\n", cycle(Reason::Weight(1))),
        (2, "least 11 gaps\n", cycle(Reason::Weight(1))),
        // The weights that are declared, and those of 7.
        (
            8,
            "step follow a 0 b 0 -10.000000000\n",
            cycle(Reason::Weight(1)),
        ),
        (
            8,
            "step follow a 0 b 0 -3.000000000\n",
            cycle(Reason::Weight(1)),
        ),
        // No other bound weighs less where gaps do.
        (
            10,
            "step delay-least q p 0.000000000\n",
            cycle(Reason::Weight(3)),
        ),
    ];
    assert!(rt; have_answers(rt.alloc(), FOLLOWED, &GAPS_SEVEN, &cases));
}

#[test]
fn execution_is_judged_by_the_gap_that_is_left(rt: HostRuntime) {
    assert!(rt; breaks_gap(rt.alloc(), "least 6 gaps\n", -4 * NS));
    // Where other numbers are widened the gap is as it is declared.
    assert!(rt; breaks_gap(rt.alloc(), "least 7\n", -10 * NS));
    assert!(rt; breaks_gap(rt.alloc(), "least 7 least\n", -10 * NS));
}

#[test]
fn gaps_have_no_names(rt: HostRuntime) {
    let cases = [
        (2, "least 7 gap\n", CertError::Syntax(2)),
        (2, "least 7 gaps a\n", CertError::Syntax(2)),
        (2, "least 7 gaps a b\n", CertError::Syntax(2)),
    ];
    assert!(rt; have_faults(rt.alloc(), FOLLOWED, &GAPS_SEVEN, &cases));
}

#[test]
fn no_gap_is_below_0(rt: HostRuntime) {
    let cases = [
        (0, "", Answer::Yes),
        (
            4,
            "step follow a 0 b 0 -10.000000000\n",
            cycle(Reason::Weight(1)),
        ),
        (
            4,
            "step follow a 0 b 0 5.000000000\n",
            cycle(Reason::Weight(1)),
        ),
    ];
    assert!(rt; have_answers(rt.alloc(), FOLLOWED_NEVER, &GAPS_NEVER, &cases));
}
