// Problems are printed without the messages that others imply, and without the events that nothing then needs.
use crate::fixtures::USAGE;
use crate::runs::rows_right;
use problem_commands::Status;
use std::alloc::{AllocError, Global};
use std::test::Fail;

// Both messages may take any time from 10 ns on, and the clocks do not drift, so the one that is received 100 ns behind
// its stamp says all that the other one says, which takes 110. Event v is of no message.
const FAST: &str =
    "problem 1\nclock a 0 0 0 0\nclock b 0 0 0 0\nevent p a 0\nevent q b 100\nevent r a 50\nevent s b 160\n\
    event v a 70\nmessage p q 10 none\nmessage r s 10 none\nend\n";

const FAST_KEPT: &str =
    "problem 1\nclock a 0 0 0 0\nclock b 0 0 0 0\nevent p a 0\nevent q b 100\nmessage p q 10 none\nend\n";

// The same with the event that is of no message.
const LONE_KEPT: &str =
    "problem 1\nclock a 0 0 0 0\nclock b 0 0 0 0\nevent p a 0\nevent q b 100\nevent v a 70\nmessage p q 10 none\nend\n";

// The same with the message of an event that is asked about.
const BOTH_KEPT: &str =
    "problem 1\nclock a 0 0 0 0\nclock b 0 0 0 0\nevent p a 0\nevent q b 100\nevent r a 50\nevent s b 160\n\
    message p q 10 none\nmessage r s 10 none\nend\n";

// With a greatest delay the slowest message says something too, and the third one nothing.
const SLOW: &str =
    "problem 1\nclock a 0 0 0 0\nclock b 0 0 0 0\nevent p a 0\nevent q b 100\nevent r a 50\nevent s b 160\n\
    event t a 60\nevent u b 165\nmessage p q 10 200\nmessage r s 10 200\nmessage t u 10 200\nend\n";

const SLOW_KEPT: &str =
    "problem 1\nclock a 0 0 0 0\nclock b 0 0 0 0\nevent p a 0\nevent q b 100\nevent r a 50\nevent s b 160\n\
    message p q 10 200\nmessage r s 10 200\nend\n";

// No event is of a message. The last one of the earlier clock and the first one of the later clock stay for the follow.
const FOLLOWING: &str =
    "problem 2\nclock a 0 0 0 0\nclock b 0 0 0 0\nfollow a b 5\nevent v a 10\nevent w a 20\nevent x b 30\n\
    event y b 40\nend\n";

const FOLLOWING_KEPT: &str =
    "problem 2\nclock a 0 0 0 0\nclock b 0 0 0 0\nfollow a b 5\nevent w a 20\nevent x b 30\nend\n";

// The first message may be sent up to 5 ns behind its stamp, and the second one not, so neither implies the other.
const LATE: &str =
    "problem 3\nclock a 0 0 0 0\nclock b 0 0 0 0\nevent p a 0 0 5\nevent q b 100 0 0\nevent r a 50 0 0\n\
    event s b 160 0 0\nmessage p q 10 none\nmessage r s 10 none\nend\n";

// Both may be sent so late, and the first one says all that the second one says.
const BOTH_LATE: &str =
    "problem 3\nclock a 0 0 0 0\nclock b 0 0 0 0\nevent p a 0 0 5\nevent q b 100 0 0\nevent r a 50 0 5\n\
    event s b 160 0 0\nmessage p q 10 none\nmessage r s 10 none\nend\n";

const BOTH_LATE_KEPT: &str =
    "problem 3\nclock a 0 0 0 0\nclock b 0 0 0 0\nevent p a 0 0 5\nevent q b 100 0 0\nmessage p q 10 none\nend\n";

// The slower message has an event of another one, and so it stays although the faster one implies it.
const SHARED: &str =
    "problem 1\nclock a 0 0 0 0\nclock b 0 0 0 0\nevent p a 0\nevent q b 100\nevent r a 50\nevent s b 160\n\
    event v a 70\nmessage p q 10 none\nmessage r s 10 none\nmessage r q 0 none\nend\n";

const SHARED_KEPT: &str =
    "problem 1\nclock a 0 0 0 0\nclock b 0 0 0 0\nevent p a 0\nevent q b 100\nevent r a 50\nevent s b 160\n\
    message p q 10 none\nmessage r s 10 none\nmessage r q 0 none\nend\n";

// Words, the writes that fail, and what is answered.
const THINNED: [(&[&str], &[u32], Status, &str); 19] = [
    (&["thin", "fast"], &[], Status::Done, FAST_KEPT),
    (&["thin", "fast", "q"], &[], Status::Done, FAST_KEPT),
    (
        &["thin", "fast", "p", "q", "p"],
        &[],
        Status::Done,
        FAST_KEPT,
    ),
    (&["thin", "fast", "v"], &[], Status::Done, LONE_KEPT),
    (&["thin", "fast", "r"], &[], Status::Done, BOTH_KEPT),
    (&["thin", "fast", "p", "s"], &[], Status::Done, BOTH_KEPT),
    (&["thin", "slow"], &[], Status::Done, SLOW_KEPT),
    (&["thin", "slow", "t"], &[], Status::Done, SLOW),
    (&["thin", "follow"], &[], Status::Done, FOLLOWING_KEPT),
    (&["thin", "late"], &[], Status::Done, LATE),
    (&["thin", "both"], &[], Status::Done, BOTH_LATE_KEPT),
    (&["thin", "shared"], &[], Status::Done, SHARED_KEPT),
    (
        &["thin", "fast", "w"],
        &[],
        Status::UnknownName,
        "unknown event\n",
    ),
    (
        &["thin", "fast", "p", ""],
        &[],
        Status::UnknownName,
        "unknown event\n",
    ),
    (&["thin", "none"], &[], Status::ReadFault, "read fault\n"),
    (
        &["thin", "bad", "p"],
        &[],
        Status::BadProblem,
        "problem 1 1\n",
    ),
    (&["thin", "fast"], &[1], Status::WriteFault, ""),
    (&["thin", "fast"], &[3], Status::WriteFault, "problem 1\n"),
    (&["thin"], &[], Status::Usage, USAGE),
];

// How many rows, from the first on, come out as they say, over the problems and a text that is none.
fn rows_thinned(alloc: Global) -> Result<usize, AllocError> {
    let files: [(&str, &[u8]); 7] = [
        ("fast", FAST.as_bytes()),
        ("slow", SLOW.as_bytes()),
        ("follow", FOLLOWING.as_bytes()),
        ("late", LATE.as_bytes()),
        ("both", BOTH_LATE.as_bytes()),
        ("shared", SHARED.as_bytes()),
        ("bad", b"no problem"),
    ];
    rows_right(alloc, &files, &THINNED)
}

#[test]
fn what_others_imply_is_left_out(rt: HostRuntime) -> Result<(), Fail> {
    let right = rows_thinned(rt.alloc())?;
    assert!(rt; right == THINNED.len(), "at row {right}");
    Ok(())
}
