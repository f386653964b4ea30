// Worked texts of certificates that are read, and faults of others.
use cert::{CertError, read_cert};
use problem::{Problem, read_problem};
use shared_fixtures::text_with;
use std::alloc::Global;
use std::test::*;

// Two readings of clock a, and a message each way, of which one has no greatest delay.
const PROBLEM: &str =
    "problem 1\nclock a 0 0 0 0\nclock b 0 0 3 5\nevent a#1 a 100\nevent a#2 a 180\nevent b#1 b 250\n\
    message a#1 b#1 10 20\nmessage b#1 a#2 5 none\nend\n";

const CYCLE: [&str; 10] = [
    "certificate 1\n",
    "cycle\n",
    "step span-most a 100 180 80.000000000\n",
    "step span-least a 100 180 -80.000000000\n",
    "step late b#1 5.000000000\n",
    "step early a#2 0.000000000\n",
    "step delay-most a#1 b#1 20.000000000\n",
    "step delay-least a#1 b#1 -10.000000000\n",
    "step delay-least b#1 a#2 -5.000000001\n",
    "end\n",
];

const RUN: [&str; 9] = [
    "certificate 1\n",
    "run\n",
    "event a#1 -0.000000001\n",
    "event a#2 80.000000000\n",
    "event b#1 12.500000000\n",
    "reading a 100 0.000000000\n",
    "reading a 180 80.000000000\n",
    "reading b 250 7.000000001\n",
    "end\n",
];

// A limit above, and none below.
const ENDS: [&str; 20] = [
    "certificate 1\n",
    "ends a#1 b#1\n",
    "upper 20.000000000\n",
    "step delay-most a#1 b#1 20.000000000\n",
    "event a#1 0.000000000\n",
    "event a#2 80.000000000\n",
    "event b#1 20.000000000\n",
    "reading a 100 0.000000000\n",
    "reading a 180 80.000000000\n",
    "reading b 250 17.000000000\n",
    "lower -inf\n",
    "inside a\n",
    "inside b\n",
    "event a#1 0.000000000\n",
    "event a#2 80.000000000\n",
    "event b#1 20.000000000\n",
    "reading a 100 0.000000000\n",
    "reading a 180 80.000000000\n",
    "reading b 250 17.000000000\n",
    "end\n",
];

// A text in the place of a line, and the fault that it makes.
pub(crate) type Case = (usize, &'static str, CertError);

// Why the text is refused, if it is.
fn fault_of(
    alloc: Global,
    p: &Problem,
    lines: &[&str],
    place: usize,
    text: &str,
) -> Option<CertError> {
    match text_with(alloc, lines, place, text) {
        Ok(bytes) => read_cert(alloc, p, &bytes).err(),
        Err(_) => Some(CertError::Memory),
    }
}

// Whether the lines are read as a certificate, with another text in the place of one.
pub(crate) fn is_read(
    alloc: Global,
    p: &Problem,
    lines: &[&str],
    place: usize,
    text: &str,
) -> bool {
    match text_with(alloc, lines, place, text) {
        Ok(bytes) => read_cert(alloc, p, &bytes).is_ok(),
        Err(_) => false,
    }
}

// The first of these texts, each in the place of a line, that is not read.
pub(crate) fn first_unread(
    alloc: Global,
    p: &Problem,
    lines: &[&str],
    cases: &[(usize, &str)],
) -> Option<usize> {
    for (k, (place, text)) in cases.iter().enumerate() {
        if !is_read(alloc, p, lines, *place, text) {
            return Some(k);
        }
    }
    None
}

const LAWFUL_ENDS: [(usize, &str); 6] = [
    (0, ""),
    (2, "ends b#1 b#1\n"),
    (3, "upper -0.000000001\n"),
    (4, ""),
    (4, "step late b#1 1329227995784915872903807060.280344576\n"),
    (12, ""),
];

#[test]
fn certificates_are_read(rt: HostRuntime) {
    let p = read_problem(rt.alloc(), PROBLEM.as_bytes()).expect(&rt, "a problem");
    assert!(rt; is_read(rt.alloc(), &p, &CYCLE, 0, ""));
    assert!(rt; is_read(rt.alloc(), &p, &RUN, 0, ""));
    assert_eq!(rt; first_unread(rt.alloc(), &p, &ENDS, &LAWFUL_ENDS), None);
}

// Whether this is the fault of a case.
fn has_fault(
    alloc: Global,
    p: &Problem,
    lines: &[&str],
    place: usize,
    text: &str,
    want: CertError,
) -> bool {
    fault_of(alloc, p, lines, place, text) == Some(want)
}

// The first case of a table whose fault is another.
pub(crate) fn first_wrong(
    alloc: Global,
    p: &Problem,
    lines: &[&str],
    cases: &[Case],
) -> Option<usize> {
    for (k, (place, text, want)) in cases.iter().enumerate() {
        if !has_fault(alloc, p, lines, *place, text, *want) {
            return Some(k);
        }
    }
    None
}

const CYCLE_FAULTS: [Case; 28] = [
    (1, "", CertError::Syntax(1)),
    (1, "certificate 2\n", CertError::Syntax(1)),
    (2, "cycles\n", CertError::Syntax(2)),
    (2, "", CertError::Syntax(2)),
    (3, "step span-most a 100 180 80.0\n", CertError::Syntax(3)),
    (3, "step span-most c 100 180 80.0\n", CertError::Syntax(3)),
    (
        3,
        "step span-most a 0100 180 80.000000000\n",
        CertError::Syntax(3),
    ),
    (
        3,
        "step span-most a#1 100 180 80.000000000\n",
        CertError::Syntax(3),
    ),
    (
        3,
        "step span a 100 180 80.000000000\n",
        CertError::Syntax(3),
    ),
    (3, "step span-most a 100 180\n", CertError::Syntax(3)),
    (3, "inside a\n", CertError::Syntax(3)),
    (3, "event a#1 0.000000000\n", CertError::Syntax(3)),
    (
        3,
        "step span-most c 100 180 80.000000000\n",
        CertError::Name(3),
    ),
    (
        3,
        "step span-most a 100 181 80.000000000\n",
        CertError::Name(3),
    ),
    (
        3,
        "step span-least b 100 180 80.000000000\n",
        CertError::Name(3),
    ),
    (
        3,
        "step span-least a 180 100 80.000000000\n",
        CertError::Name(3),
    ),
    (
        3,
        "step span-most a 100 100 0.000000000\n",
        CertError::Name(3),
    ),
    (
        3,
        "step span-most a 100 99999999999999999999 0.000000000\n",
        CertError::Name(3),
    ),
    (5, "step late b#2 5.000000000\n", CertError::Name(5)),
    (
        6,
        "step early a#2 1329227995784915872903807060.280344577\n",
        CertError::Range(6),
    ),
    (
        6,
        "step early a#3 1329227995784915872903807060.280344577\n",
        CertError::Name(6),
    ),
    (
        7,
        "step delay-most b#1 a#1 1.000000000\n",
        CertError::Name(7),
    ),
    (
        7,
        "step delay-most b#1 a#2 1.000000000\n",
        CertError::Name(7),
    ),
    (
        7,
        "step delay-most a#1 b#2 1.000000000\n",
        CertError::Name(7),
    ),
    (10, "", CertError::Syntax(10)),
    (10, "end", CertError::Syntax(10)),
    (10, "end\n\n", CertError::Syntax(11)),
    (10, "end\nend\n", CertError::Syntax(11)),
];

const RUN_FAULTS: [Case; 5] = [
    (3, "event a#2 0.000000000\n", CertError::Name(3)),
    (3, "step late b#1 5.000000000\n", CertError::Syntax(3)),
    (6, "reading a 180 0.000000000\n", CertError::Name(6)),
    (8, "", CertError::Syntax(8)),
    (
        8,
        "reading b 250 -9999999999999999999999999999.000000000\n",
        CertError::Range(8),
    ),
];

const END_FAULTS: [Case; 18] = [
    (2, "ends a#1\n", CertError::Syntax(2)),
    (2, "ends a#1 b#1 \n", CertError::Syntax(2)),
    (2, "ends a#1 b#2\n", CertError::Name(2)),
    (3, "upper 20\n", CertError::Syntax(3)),
    (3, "upper -inf\n", CertError::Syntax(3)),
    (3, "lower -inf\n", CertError::Syntax(3)),
    (
        3,
        "upper 9999999999999999999999999999.000000000\n",
        CertError::Range(3),
    ),
    (4, "inside a\n", CertError::Syntax(4)),
    (3, "upper +inf\n", CertError::Syntax(4)),
    (
        5,
        "event a#1 0.000000000\nstep late b#1 5.000000000\n",
        CertError::Syntax(6),
    ),
    (10, "end\n", CertError::Syntax(10)),
    (11, "upper +inf\n", CertError::Syntax(11)),
    (11, "end\n", CertError::Syntax(11)),
    (12, "inside c\n", CertError::Name(12)),
    (12, "inside b\n", CertError::Name(13)),
    (12, "inside a#1\n", CertError::Syntax(12)),
    (13, "inside a\n", CertError::Name(13)),
    (20, "lower -inf\n", CertError::Syntax(20)),
];

#[test]
fn first_faults(rt: HostRuntime) {
    let p = read_problem(rt.alloc(), PROBLEM.as_bytes()).expect(&rt, "a problem");
    assert_eq!(rt; first_wrong(rt.alloc(), &p, &CYCLE, &CYCLE_FAULTS), None);
    assert_eq!(rt; first_wrong(rt.alloc(), &p, &RUN, &RUN_FAULTS), None);
    assert_eq!(rt; first_wrong(rt.alloc(), &p, &ENDS, &END_FAULTS), None);
}
