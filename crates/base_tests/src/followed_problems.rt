// Problems with clocks that follow each other, read.
use problem::{ProblemError, read_problem};
use std::alloc::Global;
use std::test::*;

// A follow over a gap, and a message against it; a chain of three clocks, and an event on the one between; a chain whose
// follows do not stand in its order, and the greatest gap.
const TEXTS: [&str; 5] = [
    "problem 2\nclock c 0 0 0 0\nclock d 0 0 0 0\nfollow c d 5\nevent p c 10\nevent q d 3\nend\n",
    "problem 2\nclock c 0 0 0 0\nclock d 0 0 0 0\nfollow c d 5\nevent p c 10\nevent q d 3\nmessage q p 0 none\nend\n",
    "problem 2\nclock c 0 0 0 0\nclock d 0 0 0 0\nclock e 0 0 0 0\nfollow c d 5\nfollow d e 7\n\
    event p c 10\nevent q e 0\nend\n",
    "problem 2\nclock c 0 0 0 0\nclock d 0 0 0 0\nclock e 0 0 0 0\nfollow c d 5\nfollow d e 7\n\
    event p c 10\nevent q e 0\nevent r d 0\nend\n",
    "problem 2\nclock c 0 0 0 0\nclock d 0 0 0 0\nclock e 0 0 0 0\nfollow d e 4611686018427387903\nfollow c d 0\nend\n",
];

// The fault of a text, if it has one.
pub(crate) fn fault_of(alloc: Global, text: &[u8]) -> Option<ProblemError> {
    match read_problem(alloc, text) {
        Ok(_) => None,
        Err(fault) => Some(fault),
    }
}

// The texts of version 2 whose form is wrong, each with its first faulty line: no follow before the end, before an event
// or before a message; a clock behind a follow; a follow behind an event or behind a message; a gap with a zero in front,
// with a sign, left out, twice, or with a space behind it; an event's name for a clock's; a follow in version 1.
const MISPLACED: [(&str, u64); 16] = [
    ("problem 2\n", 2),
    ("problem 2\nend\n", 2),
    ("problem 2\nclock c 0 0 0 0\nclock d 0 0 0 0\nend\n", 4),
    (
        "problem 2\nclock c 0 0 0 0\nclock d 0 0 0 0\nevent p c 10\nevent q d 3\nend\n",
        4,
    ),
    (
        "problem 2\nclock c 0 0 0 0\nclock d 0 0 0 0\nmessage p q 0 none\nend\n",
        4,
    ),
    (
        "problem 2\nclock c 0 0 0 0\nclock d 0 0 0 0\nfollow c d 5\nclock e 0 0 0 0\nend\n",
        5,
    ),
    (
        "problem 2\nclock c 0 0 0 0\nclock d 0 0 0 0\nfollow c d 5\nevent p c 10\nfollow c d 5\nend\n",
        6,
    ),
    (
        "problem 2\nclock c 0 0 0 0\nclock d 0 0 0 0\nfollow c d 5\nevent p c 10\nevent q d 3\nmessage p q 0 none\n\
        follow c d 5\nend\n",
        8,
    ),
    (
        "problem 2\nclock c 0 0 0 0\nclock d 0 0 0 0\nfollow c d 05\nend\n",
        4,
    ),
    (
        "problem 2\nclock c 0 0 0 0\nclock d 0 0 0 0\nfollow c d +5\nend\n",
        4,
    ),
    (
        "problem 2\nclock c 0 0 0 0\nclock d 0 0 0 0\nfollow c d\nend\n",
        4,
    ),
    (
        "problem 2\nclock c 0 0 0 0\nclock d 0 0 0 0\nfollow c d 5 5\nend\n",
        4,
    ),
    (
        "problem 2\nclock c 0 0 0 0\nclock d 0 0 0 0\nfollow c d 5 \nend\n",
        4,
    ),
    (
        "problem 2\nclock c 0 0 0 0\nclock d 0 0 0 0\nfollow c#1 d 5\nend\n",
        4,
    ),
    (
        "problem 2\nclock c 0 0 0 0\nclock d 0 0 0 0\nfollow c d 5\nend",
        5,
    ),
    (
        "problem 1\nclock c 0 0 0 0\nclock d 0 0 0 0\nfollow c d 5\nend\n",
        4,
    ),
];

// The texts whose follow has a name that may not stand there, each with its line: a follow before its clocks, or before
// one of them; an unknown clock; one clock twice; the later clock first, also with a gap that is out of its range; the
// same earlier clock twice, the same later clock twice, and both.
const MISNAMED: [(&str, u64); 10] = [
    (
        "problem 2\nfollow c d 5\nclock c 0 0 0 0\nclock d 0 0 0 0\nend\n",
        2,
    ),
    (
        "problem 2\nclock c 0 0 0 0\nfollow c d 5\nclock d 0 0 0 0\nend\n",
        3,
    ),
    (
        "problem 2\nclock c 0 0 0 0\nclock d 0 0 0 0\nfollow x d 5\nend\n",
        4,
    ),
    (
        "problem 2\nclock c 0 0 0 0\nclock d 0 0 0 0\nfollow c x 5\nend\n",
        4,
    ),
    (
        "problem 2\nclock c 0 0 0 0\nclock d 0 0 0 0\nfollow c c 5\nend\n",
        4,
    ),
    (
        "problem 2\nclock c 0 0 0 0\nclock d 0 0 0 0\nfollow d c 5\nevent p c 10\nevent q d 3\nend\n",
        4,
    ),
    (
        "problem 2\nclock c 0 0 0 0\nclock d 0 0 0 0\nfollow d c 4611686018427387904\nend\n",
        4,
    ),
    (
        "problem 2\nclock c 0 0 0 0\nclock d 0 0 0 0\nclock e 0 0 0 0\nfollow c d 5\nfollow c e 18446744073709551616\nend\n",
        6,
    ),
    (
        "problem 2\nclock c 0 0 0 0\nclock d 0 0 0 0\nclock e 0 0 0 0\nfollow c e 5\nfollow d e 5\nend\n",
        6,
    ),
    (
        "problem 2\nclock c 0 0 0 0\nclock d 0 0 0 0\nfollow c d 5\nfollow c d 5\nend\n",
        5,
    ),
];

// The texts whose gap is out of its range, each with its line: 2^62, and 2^64.
const OUT_OF_RANGE: [(&str, u64); 2] = [
    (
        "problem 2\nclock c 0 0 0 0\nclock d 0 0 0 0\nfollow c d 4611686018427387904\nevent p c 10\nevent q d 3\nend\n",
        4,
    ),
    (
        "problem 2\nclock c 0 0 0 0\nclock d 0 0 0 0\nfollow c d 18446744073709551616\nend\n",
        4,
    ),
];

// First lines of no version.
const HEADS: [&str; 6] = [
    "problem 4\nend\n",
    "problem 0\nend\n",
    "problem 12\nend\n",
    "problem 02\nend\n",
    "problem 2 \nend\n",
    "problem  2\nend\n",
];

#[test]
fn problems_with_follows_are_read(rt: HostRuntime) {
    for text in TEXTS {
        assert!(rt; fault_of(rt.alloc(), text.as_bytes()).is_none(), "{text}");
    }
}

#[test]
fn follows_that_may_not_stand_there(rt: HostRuntime) {
    for (text, line) in MISPLACED {
        assert!(rt;
            fault_of(rt.alloc(), text.as_bytes()) == Some(ProblemError::Syntax(line)),
            "{text}"
        );
    }
}

#[test]
fn follows_of_wrong_clocks(rt: HostRuntime) {
    for (text, line) in MISNAMED {
        assert!(rt;
            fault_of(rt.alloc(), text.as_bytes()) == Some(ProblemError::Name(line)),
            "{text}"
        );
    }
}

#[test]
fn gaps_out_of_their_range(rt: HostRuntime) {
    for (text, line) in OUT_OF_RANGE {
        assert!(rt;
            fault_of(rt.alloc(), text.as_bytes()) == Some(ProblemError::Range(line)),
            "{text}"
        );
    }
}

#[test]
fn heads_of_no_version(rt: HostRuntime) {
    for text in HEADS {
        assert!(rt;
            fault_of(rt.alloc(), text.as_bytes()) == Some(ProblemError::Syntax(1)),
            "{text}"
        );
    }
    let head = b"problem 2";
    for bytes in 0..head.len() + 1 {
        assert!(rt;
            fault_of(rt.alloc(), &head[..bytes]) == Some(ProblemError::Syntax(1)),
            "{bytes}"
        );
    }
}
