// Certificates with steps between clocks that follow each other, read and written back, and the faults of such steps.
use crate::certificates_read::{Case, first_unread, first_wrong, is_read};
use crate::fixtures::MESSAGE_PROBLEM;
use cert::CertError;
use problem::read_problem;
use std::test::*;

// Clock d begins at least 5 ns after the end of clock c, but q, on d, comes at the latest with p, on c.
const GAP_PROBLEM: &str =
    "problem 2\nclock c 0 0 0 0\nclock d 0 0 0 0\nfollow c d 5\nevent p c 10\nevent q d 3\nmessage q p 0 none\nend\n";

const GAP_CYCLE: [&str; 7] = [
    "certificate 1\n",
    "cycle\n",
    "step delay-least q p 0.000000000\n",
    "step early q 0.000000000\n",
    "step follow c 10 d 3 -5.000000000\n",
    "step late p 0.000000000\n",
    "end\n",
];

// Clocks c, d and e follow each other, in this order. Clock f follows none and has none behind it.
const CHAIN_PROBLEM: &str =
    "problem 2\nclock c 0 0 0 0\nclock d 0 0 0 0\nclock e 0 0 0 0\nclock f 0 0 0 0\nfollow c d 5\nfollow d e 7\n\
    event p c 10\nevent q d 3\nevent r e 0\nevent s f 1\nevent t c 20\nend\n";

// No limit above; below, r comes at least 22 ns behind p, by both follows and by what passes on clock c.
const CHAIN_ENDS: [&str; 31] = [
    "certificate 1\n",
    "ends p r\n",
    "upper +inf\n",
    "inside c\n",
    "event p 0.000000000\n",
    "event q 15.000000000\n",
    "event r 22.000000000\n",
    "event s 0.000000000\n",
    "event t 10.000000000\n",
    "reading c 10 0.000000000\n",
    "reading c 20 10.000000000\n",
    "reading d 3 15.000000000\n",
    "reading e 0 22.000000000\n",
    "reading f 1 0.000000000\n",
    "lower 22.000000000\n",
    "step early r 0.000000000\n",
    "step follow d 3 e 0 -7.000000000\n",
    "step follow c 20 d 3 -5.000000000\n",
    "step span-least c 10 20 -10.000000000\n",
    "step late p 0.000000000\n",
    "event p 0.000000000\n",
    "event q 15.000000000\n",
    "event r 22.000000000\n",
    "event s 0.000000000\n",
    "event t 10.000000000\n",
    "reading c 10 0.000000000\n",
    "reading c 20 10.000000000\n",
    "reading d 3 15.000000000\n",
    "reading e 0 22.000000000\n",
    "reading f 1 0.000000000\n",
    "end\n",
];

// Any reading of either clock, any clock that comes after the first, and any weight in range.
const LAWFUL_STEPS: [(usize, &str); 6] = [
    (0, ""),
    (17, "step follow c 20 e 0 -7.000000000\n"),
    (17, "step follow c 10 e 0 -7.000000000\n"),
    (17, "step follow c 10 d 3 0.000000001\n"),
    (
        17,
        "step follow c 10 d 3 1329227995784915872903807060.280344576\n",
    ),
    (
        17,
        "step follow c 10 d 3 -5.000000000\nstep follow c 10 d 3 -5.000000000\n",
    ),
];

#[test]
fn follow_steps_are_read(rt: HostRuntime) {
    let p = read_problem(rt.alloc(), GAP_PROBLEM.as_bytes()).expect(&rt, "a problem");
    assert!(rt; is_read(rt.alloc(), &p, &GAP_CYCLE, 0, ""));
    let chain = read_problem(rt.alloc(), CHAIN_PROBLEM.as_bytes()).expect(&rt, "a problem");
    assert_eq!(rt;
        first_unread(rt.alloc(), &chain, &CHAIN_ENDS, &LAWFUL_STEPS),
        None
    );
}

const MISSPELLED: [Case; 10] = [
    (17, "step follow c 10 e 0\n", CertError::Syntax(17)),
    (17, "step follow c 10 e 0 -7\n", CertError::Syntax(17)),
    (
        17,
        "step follow c 10 e -7.000000000\n",
        CertError::Syntax(17),
    ),
    (
        17,
        "step follow c 10 e 0 -7.000000000 \n",
        CertError::Syntax(17),
    ),
    (
        17,
        "step follow c 010 e 0 -7.000000000\n",
        CertError::Syntax(17),
    ),
    (
        17,
        "step follow c 10 e  0 -7.000000000\n",
        CertError::Syntax(17),
    ),
    (
        17,
        "step follow c#1 10 e 0 -7.000000000\n",
        CertError::Syntax(17),
    ),
    (
        17,
        "step follow c 10 e#1 0 -7.000000000\n",
        CertError::Syntax(17),
    ),
    (
        17,
        "step follow c e 10 0 -7.000000000\n",
        CertError::Syntax(17),
    ),
    (
        17,
        "step follows c 10 e 0 -7.000000000\n",
        CertError::Syntax(17),
    ),
];

const UNDECLARED: [Case; 12] = [
    (
        17,
        "step follow g 10 e 0 -7.000000000\n",
        CertError::Name(17),
    ),
    (
        17,
        "step follow c 10 g 0 -7.000000000\n",
        CertError::Name(17),
    ),
    (
        17,
        "step follow e 0 c 10 -7.000000000\n",
        CertError::Name(17),
    ),
    (
        17,
        "step follow c 10 c 20 -5.000000000\n",
        CertError::Name(17),
    ),
    (
        17,
        "step follow c 10 f 1 0.000000000\n",
        CertError::Name(17),
    ),
    (
        17,
        "step follow f 1 e 0 -7.000000000\n",
        CertError::Name(17),
    ),
    (
        17,
        "step follow c 11 e 0 -7.000000000\n",
        CertError::Name(17),
    ),
    (
        17,
        "step follow c 10 e 3 -7.000000000\n",
        CertError::Name(17),
    ),
    (
        17,
        "step follow c 0 e 10 -7.000000000\n",
        CertError::Name(17),
    ),
    (
        17,
        "step follow c 99999999999999999999 e 0 -7.000000000\n",
        CertError::Name(17),
    ),
    (
        17,
        "step follow c 11 e 0 1329227995784915872903807060.280344577\n",
        CertError::Name(17),
    ),
    (
        17,
        "step follow c 10 e 0 1329227995784915872903807060.280344577\n",
        CertError::Range(17),
    ),
];

#[test]
fn faults_of_follow_steps(rt: HostRuntime) {
    let p = read_problem(rt.alloc(), CHAIN_PROBLEM.as_bytes()).expect(&rt, "a problem");
    assert_eq!(rt; first_wrong(rt.alloc(), &p, &CHAIN_ENDS, &MISSPELLED), None);
    assert_eq!(rt; first_wrong(rt.alloc(), &p, &CHAIN_ENDS, &UNDECLARED), None);
}

const ONE_STEP: [&str; 4] = [
    "certificate 1\n",
    "cycle\n",
    "step late a#1 0.000000000\n",
    "end\n",
];

// Of a problem in which no clock follows another.
const WITHOUT_FOLLOWS: [Case; 2] = [
    (3, "step follow a 100 b 250\n", CertError::Syntax(3)),
    (
        3,
        "step follow a 100 b 250 0.000000000\n",
        CertError::Name(3),
    ),
];

#[test]
fn no_clock_follows(rt: HostRuntime) {
    let p = read_problem(rt.alloc(), MESSAGE_PROBLEM.as_bytes()).expect(&rt, "a problem");
    assert_eq!(rt;
        first_wrong(rt.alloc(), &p, &ONE_STEP, &WITHOUT_FOLLOWS),
        None
    );
}
