// Sessions over traces whose labels give bounds of their own stamps, which may be others than those of their clock.
use crate::fixtures::{CAPTURE_A, CAPTURE_B, ONE_EVENT, TWO_EVENTS, TWO_MESSAGES, replies_over};
use session::Stop;
use shared_fixtures::{added, files_of};
use std::alloc::Global;
use std::test::*;

// A log and a capture by one clock, which shows true time, and a capture by another one.
const OWN_DECLARATION: &str =
    "source = \"a\"\n[hosts.a]\naddresses = [\"10.0.0.1\"]\n[hosts.b]\naddresses = [\"10.0.0.2\"]\n\
    [labels.log]\nhost = \"a\"\nkind = \"log\"\nlate = 1000000\n\
    [labels.nic]\nhost = \"a\"\nkind = \"capture\"\nlate = 1000\n\
    [labels.peer]\nhost = \"b\"\nkind = \"capture\"\n\
    [[links]]\nfrom = \"a\"\nto = \"b\"\nleast = 10\nmost = 20\n\
    [[links]]\nfrom = \"b\"\nto = \"a\"\nleast = 10\nmost = 20\n";

const OWN_PROBLEM: &str =
    "problem 3\nclock a 0 0 0 0\nclock b 0 0 0 0\nevent log#1 a 150 0 1000000\nevent nic#1 a 100 0 1000\n\
    event nic#2 a 180 0 1000\nevent peer#1 b 250 0 0\nevent peer#2 b 300 0 0\nmessage nic#1 peer#1 10 20\n\
    message peer#2 nic#2 10 20\nend\n";

// Two logs by one clock whose stamps it says may be 9 ns off. A message takes 20 ns at least from the one to the other,
// which are 10 ns apart, with 1 ns and 2 ns of their own.
const NARROW_DECLARATION: &str =
    "[hosts.a]\nearly = 9\nlate = 9\n[labels.p]\nhost = \"a\"\nkind = \"log\"\nearly = 1\n\
    [labels.q]\nhost = \"a\"\nkind = \"log\"\nearly = 0\nlate = 2\n[labels.r]\nhost = \"a\"\nkind = \"log\"\n\
    [[links]]\nfrom = \"a\"\nto = \"a\"\nleast = 20\n";

const NARROW_PROBLEM: &str =
    "problem 3\nclock a 0 0 9 9\nevent p#1 a 0 1 9\nevent q#1 a 10 0 2\nevent r#1 a 10 9 9\nmessage p#1 q#1 20 none\nend\n";

const NARROW_CYCLE: &str =
    "certificate 1\ncycle\nstep early p#1 1.000000000\nstep span-most a 0 10 10.000000000\n\
    step late q#1 2.000000000\nstep delay-least p#1 q#1 -20.000000000\nend\n";

// The events are 13 ns apart at most: 7 too few, and 4 ns more of each are enough.
const NARROW_BLAME: &str =
    "blame delays none\nblame least 7 ns\nblame stamps 4 ns\nblame rates 700000000 ppb\nblame stamps a 4 ns\n\
    blame rates a 700000000 ppb\nblame delays a a none\nblame least a a 7 ns\nend\n";

// Logs by their paths.
const LOGS: [(&str, &str); 4] = [
    ("150.csv", "150,local,,\n"),
    ("10.csv", "10,local,,\n"),
    ("send.csv", "0,send,m,\n"),
    ("receive.csv", "10,receive,m,\n"),
];

// A session over a declaration: lines with their replies.
struct Case {
    declaration: &'static str,
    lines: &'static [(&'static str, &'static str)],
}

const CASES: [Case; 2] = [
    // Before there is an event none has bounds. The capture's two messages tell nothing of when its first packet came,
    // but how far its packets are apart.
    Case {
        declaration: OWN_DECLARATION,
        lines: &[
            (
                "problem",
                "problem 1\nclock a 0 0 0 0\nclock b 0 0 0 0\nend\n",
            ),
            ("add nic a", TWO_EVENTS),
            ("add log 150.csv", ONE_EVENT),
            (
                "interval nic#1 nic#2",
                "interval -920.000000000 1080.000000000\n",
            ),
            (
                "interval nic#1 log#1",
                "interval -950.000000000 1000050.000000000\n",
            ),
            ("time nic#1", "time 100.000000000 1100.000000000\n"),
            ("time log#1", "time 150.000000000 1000150.000000000\n"),
            ("add peer b", TWO_MESSAGES),
            (
                "interval nic#1 nic#2",
                "interval 70.000000000 90.000000000\n",
            ),
            (
                "interval peer#1 peer#2",
                "interval 50.000000000 50.000000000\n",
            ),
            ("time peer#1", "time 110.000000000 1120.000000000\n"),
            ("problem", OWN_PROBLEM),
        ],
    },
    // A contradiction by the bounds of labels. An event of a label that gives none has those of its clock.
    Case {
        declaration: NARROW_DECLARATION,
        lines: &[
            ("add p send.csv", ONE_EVENT),
            ("add r 10.csv", ONE_EVENT),
            ("interval p#1 r#1", "interval -8.000000000 20.000000000\n"),
            ("add q receive.csv", added!(1, 1, 0, 0, inconsistent)),
            ("interval p#1 q#1", NARROW_CYCLE),
            ("problem", NARROW_PROBLEM),
            ("blame", NARROW_BLAME),
        ],
    },
];

// Whether a session gives these replies.
fn replies(alloc: Global, case: &Case) -> Result<bool, Stop> {
    let mut files = files_of(alloc, &LOGS, &[])?;
    files.put("a", &CAPTURE_A)?;
    files.put("b", &CAPTURE_B)?;
    replies_over(alloc, case.declaration, &mut files, case.lines)
}

#[test]
fn bounds_of_labels(rt: HostRuntime) {
    for (k, case) in CASES.iter().enumerate() {
        assert!(rt; replies(rt.alloc(), case) == Ok(true), "case {k}");
    }
}
