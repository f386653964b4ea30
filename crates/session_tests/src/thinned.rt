// Sessions that are asked for a smaller problem which says the same of some events.
use crate::fixtures::replies_over;
use session::Stop;
use shared_fixtures::{TWO_LOGS_DECLARATION, added, files_of};
use std::alloc::Global;
use std::test::*;

// A log of each of two hosts, and a link without a greatest delay.
const ONE_WAY_DECLARATION: &str =
    "[hosts.a]\n[hosts.b]\n[labels.a]\nhost = \"a\"\nkind = \"log\"\n[labels.b]\nhost = \"b\"\nkind = \"log\"\n\
    [[links]]\nfrom = \"a\"\nto = \"b\"\nleast = 10\n";

// Three messages from a to b, of which the second one is fastest, and an event of no message. And the same with a
// message back, where the first of three messages is fastest and the third one slowest; the way there and back takes
// longer by the clock of b than by that of a.
const LOGS: [(&str, &str); 5] = [
    (
        "sends.csv",
        "100,send,m1,\n200,send,m2,\n300,send,m3,\n400,local,,\n",
    ),
    (
        "receives.csv",
        "1130,receive,m1,\n1212,receive,m2,\n1340,receive,m3,\n",
    ),
    (
        "there.csv",
        "100,send,m1,\n104,send,m3,\n108,send,m4,\n195,receive,m2,\n",
    ),
    (
        "back.csv",
        "250,receive,m1,\n256,receive,m3,\n263,receive,m4,\n300,send,m2,\n",
    ),
    ("note.csv", "7,local,,\n"),
];

// The fastest message says what the others do.
const FASTEST: &str =
    "problem 1\nclock a 0 0 0 0\nclock b 0 0 0 0\nevent a#2 a 200\nevent b#2 b 1212\nmessage a#2 b#2 10 none\nend\n";

// An event that is named stays, with its message where it has one.
const WITH_FIRST: &str =
    "problem 1\nclock a 0 0 0 0\nclock b 0 0 0 0\nevent a#1 a 100\nevent a#2 a 200\nevent b#1 b 1130\n\
    event b#2 b 1212\nmessage a#1 b#1 10 none\nmessage a#2 b#2 10 none\nend\n";

const WITH_LONE: &str =
    "problem 1\nclock a 0 0 0 0\nclock b 0 0 0 0\nevent a#2 a 200\nevent a#4 a 400\nevent b#2 b 1212\n\
    message a#2 b#2 10 none\nend\n";

// Before the messages there are events that say nothing of others.
const FIRST_ALONE: &str = "problem 1\nclock a 0 0 0 0\nclock b 0 0 0 0\nevent a#1 a 100\nend\n";

const NO_EVENTS: &str = "problem 1\nclock a 0 0 0 0\nclock b 0 0 0 0\nend\n";

// With a greatest delay the slowest message stays, too.
const BOTH_WAYS: &str =
    "problem 1\nclock a 0 0 0 0\nclock b 0 0 0 0\nevent a#1 a 100\nevent a#3 a 108\nevent a#4 a 195\n\
    event b#1 b 250\nevent b#3 b 263\nevent b#4 b 300\nmessage a#1 b#1 10 20\nmessage a#3 b#3 10 20\n\
    message b#4 a#4 10 20\nend\n";

const BOTH_WAYS_WITH_SECOND: &str =
    "problem 1\nclock a 0 0 0 0\nclock b 0 0 0 0\nevent a#1 a 100\nevent a#2 a 104\nevent a#3 a 108\n\
    event a#4 a 195\nevent b#1 b 250\nevent b#2 b 256\nevent b#3 b 263\nevent b#4 b 300\n\
    message a#1 b#1 10 20\nmessage a#2 b#2 10 20\nmessage a#3 b#3 10 20\nmessage b#4 a#4 10 20\nend\n";

// A session over a declaration: lines with their replies.
struct Case {
    declaration: &'static str,
    lines: &'static [(&'static str, &'static str)],
}

const CASES: [Case; 3] = [
    // Any number of names, in any order, and some twice. The whole session is asked on as before.
    Case {
        declaration: ONE_WAY_DECLARATION,
        lines: &[
            ("thin", NO_EVENTS),
            ("thin a#1", "refused 28\n"),
            ("add a sends.csv", added!(4, 0, 0, 0)),
            ("thin", NO_EVENTS),
            ("thin a#1", FIRST_ALONE),
            ("add b receives.csv", added!(3, 3, 0, 0)),
            ("thin", FASTEST),
            ("thin b#2", FASTEST),
            ("thin b#1", WITH_FIRST),
            ("thin a#1 b#2 a#1 b#1", WITH_FIRST),
            ("thin a#4 a#4", WITH_LONE),
            ("interval a#1 b#1", "interval 28.000000000 +inf\n"),
        ],
    },
    // One name that no event has, wherever it stands, and lines that are none.
    Case {
        declaration: ONE_WAY_DECLARATION,
        lines: &[
            ("add a sends.csv", added!(4, 0, 0, 0)),
            ("thin a#5", "refused 28\n"),
            ("thin a#1 a#2 a#3 b#1", "refused 28\n"),
            ("thin b#1 a#1", "refused 28\n"),
            ("thin a#01", "refused 28\n"),
            ("thin ", "refused 20\n"),
            (" thin", "refused 20\n"),
            ("thin  a#1", "refused 20\n"),
            ("thin a#1 ", "refused 20\n"),
            ("thin a#1  a#2", "refused 20\n"),
            ("thinner a#1", "refused 20\n"),
            ("thi", "refused 20\n"),
        ],
    },
    // A contradiction stays one.
    Case {
        declaration: TWO_LOGS_DECLARATION,
        lines: &[
            ("add a there.csv", added!(4, 0, 0, 0)),
            ("add b back.csv", added!(4, 4, 0, 0, inconsistent)),
            ("thin", BOTH_WAYS),
            ("thin a#1 b#4", BOTH_WAYS),
            ("thin b#2", BOTH_WAYS_WITH_SECOND),
            ("thin b#5", "refused 28\n"),
            ("add a note.csv", added!(1, 0, 0, 0, inconsistent)),
            ("thin", BOTH_WAYS),
        ],
    },
];

// Whether a session gives these replies.
fn replies(alloc: Global, case: &Case) -> Result<bool, Stop> {
    let mut files = files_of(alloc, &LOGS, &[])?;
    replies_over(alloc, case.declaration, &mut files, case.lines)
}

#[test]
fn smaller_problems(rt: HostRuntime) {
    for (k, case) in CASES.iter().enumerate() {
        assert!(rt; replies(rt.alloc(), case) == Ok(true), "case {k}");
    }
}
