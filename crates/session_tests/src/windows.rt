// Sessions where a window is declared: which events of a word or of a packet are a message goes by when they happened.
use crate::fixtures::{
    CAPTURE_A, CAPTURE_B, NO_EVENT, ONE_EVENT, TWO_EVENTS, TWO_MESSAGES, replies_over,
};
use ports::MemFiles;
use session::Stop;
use shared_fixtures::{added, files_of};
use std::alloc::{AllocError, Global};
use std::test::*;

// Two hosts with a log each, whose clocks are some 1,000 ns apart.
const AHEAD_DECLARATION: &str =
    "window = 20\n[hosts.a]\n[hosts.b]\noffset = 1000\n[labels.a]\nhost = \"a\"\nkind = \"log\"\n[labels.b]\n\
    host = \"b\"\nkind = \"log\"\n[[links]]\nfrom = \"a\"\nto = \"b\"\nleast = 10\nmost = 20\n";

// The same where nothing is said of that.
const LEVEL_DECLARATION: &str =
    "window = 20\n[hosts.a]\n[hosts.b]\n[labels.a]\nhost = \"a\"\nkind = \"log\"\n[labels.b]\n\
    host = \"b\"\nkind = \"log\"\n[[links]]\nfrom = \"a\"\nto = \"b\"\nleast = 10\nmost = 20\n";

// A host with two clocks, of which the second one is 500 ns ahead and the first one 10 ns behind, and another host.
const CLOCKS_DECLARATION: &str =
    "window = 20\n[hosts.a]\nclocks = [{ name = \"a1\", offset = -10 }, { name = \"a2\", offset = 500 }]\n[hosts.b]\n\
    [labels.a]\nhost = \"a\"\nkind = \"log\"\n[labels.b]\nhost = \"b\"\nkind = \"log\"\n\
    [labels.r]\nhost = \"a\"\nkind = \"log\"\nclock = \"a2\"\n\
    [[links]]\nfrom = \"a\"\nto = \"b\"\nleast = 10\nmost = 20\n";

// Two hosts with a capture each; the clock of the second one is 140 ns ahead, or 150 ns.
const CAPTURES_DECLARATION: &str =
    "window = 20\n[hosts.a]\naddresses = [\"10.0.0.1\"]\n[hosts.b]\naddresses = [\"10.0.0.2\"]\noffset = 140\n\
    [labels.a]\nhost = \"a\"\nkind = \"capture\"\n[labels.b]\nhost = \"b\"\nkind = \"capture\"\n";

const CAPTURES_AHEAD_DECLARATION: &str =
    "window = 20\n[hosts.a]\naddresses = [\"10.0.0.1\"]\n[hosts.b]\naddresses = [\"10.0.0.2\"]\noffset = 150\n\
    [labels.a]\nhost = \"a\"\nkind = \"capture\"\n[labels.b]\nhost = \"b\"\nkind = \"capture\"\n";

// The problem of two messages under one word.
const TWO_GROUPS_PROBLEM: &str =
    "problem 1\nclock a 0 0 0 0\nclock b 0 0 0 0\nevent a#1 a 100\nevent a#2 a 200\nevent b#1 b 1115\n\
    event b#2 b 1220\nmessage a#1 b#1 10 20\nmessage a#2 b#2 10 20\nend\n";

// The report where three events of a word are a message and one more.
const ROW_REPORT: &str =
    "{\"alone\":0,\"ambiguous\":[],\"consistent\":true,\"events\":3,\"messages\":1,\"nokey\":{\"fragment\":0,\"header\":0,\
    \"length\":0,\"link\":0,\"local\":0,\"other\":0,\"short\":0,\"side\":0},\"unmatched\":1}\n";

// The report where two messages became one group.
const JOINED_REPORT: &str =
    "{\"alone\":0,\"ambiguous\":[{\"key\":\"log m\",\"receives\":[\"b#1\",\"b#2\"],\"sends\":[\"a#1\",\"a#2\",\"a#3\"]}],\
    \"consistent\":true,\"events\":5,\"messages\":0,\"nokey\":{\"fragment\":0,\"header\":0,\"length\":0,\"link\":0,\
    \"local\":0,\"other\":0,\"short\":0,\"side\":0},\"unmatched\":0}\n";

// The report where the only word stands alone.
const ALONE_REPORT: &str =
    "{\"alone\":1,\"ambiguous\":[],\"consistent\":true,\"events\":4,\"messages\":0,\"nokey\":{\"fragment\":0,\"header\":0,\
    \"length\":0,\"link\":0,\"local\":0,\"other\":0,\"short\":0,\"side\":0},\"unmatched\":4}\n";

// The logs, by their paths.
const LOGS: [(&str, &str); 11] = [
    ("far-a.csv", "100,send,m,\n200,send,m,\n"),
    ("far-b.csv", "1115,receive,m,\n1220,receive,m,\n"),
    ("row-a.csv", "100,send,m,\n141,send,m,\n"),
    ("row-b.csv", "1120,receive,m,\n"),
    ("near-a.csv", "100,send,m,\n150,send,m,\n"),
    ("near-b.csv", "1115,receive,m,\n1165,receive,m,\n"),
    ("between.csv", "132,send,m,\n"),
    ("behind.csv", "1185,receive,m,\n"),
    ("level.csv", "120,receive,m,\n"),
    ("ahead.csv", "600,send,m,\n"),
    ("empty.csv", ""),
];

// A session over a declaration: lines with their replies.
struct Case {
    declaration: &'static str,
    lines: &'static [(&'static str, &'static str)],
}

const CASES: [Case; 8] = [
    // Two groups of one word are two messages.
    Case {
        declaration: AHEAD_DECLARATION,
        lines: &[
            ("add a far-a.csv", TWO_EVENTS),
            ("add b far-b.csv", TWO_MESSAGES),
            ("interval a#1 b#1", "interval 10.000000000 15.000000000\n"),
            ("order a#2 b#2", "order before\n"),
            ("add a empty.csv", NO_EVENT),
            ("problem", TWO_GROUPS_PROBLEM),
        ],
    },
    // The clocks are further apart than the window.
    Case {
        declaration: LEVEL_DECLARATION,
        lines: &[
            ("add a far-a.csv", TWO_EVENTS),
            ("add b far-b.csv", TWO_EVENTS),
            ("interval a#1 b#1", "interval -inf +inf\n"),
            ("report", ALONE_REPORT),
        ],
    },
    // Of three events in a row the last one is more than the window behind the second one.
    Case {
        declaration: AHEAD_DECLARATION,
        lines: &[
            ("add a row-a.csv", TWO_EVENTS),
            ("add b row-b.csv", added!(1, 1, 0, 0)),
            ("interval a#1 b#1", "interval 10.000000000 20.000000000\n"),
            ("report", ROW_REPORT),
        ],
    },
    // An event between two groups joins them, and withdraws the messages of both.
    Case {
        declaration: AHEAD_DECLARATION,
        lines: &[
            ("add a near-a.csv", TWO_EVENTS),
            ("keep a#1", "kept 1\n"),
            ("add b near-b.csv", TWO_MESSAGES),
            ("interval a#1 b#1", "interval 10.000000000 20.000000000\n"),
            ("add a between.csv", added!(1, 0, 2, 0)),
            ("interval a#1 b#1", "interval -inf +inf\n"),
            ("interval a#1 a#3", "interval 32.000000000 32.000000000\n"),
            ("report", JOINED_REPORT),
        ],
    },
    // An event at the end of one group withdraws the message of that group alone.
    Case {
        declaration: AHEAD_DECLARATION,
        lines: &[
            ("add b near-b.csv", TWO_EVENTS),
            ("add a near-a.csv", TWO_MESSAGES),
            ("add b behind.csv", added!(1, 0, 1, 0)),
            ("interval a#1 b#1", "interval 10.000000000 20.000000000\n"),
        ],
    },
    // The offset is that of the label's clock.
    Case {
        declaration: CLOCKS_DECLARATION,
        lines: &[
            ("add r ahead.csv", ONE_EVENT),
            ("add b level.csv", added!(1, 1, 0, 0)),
            ("interval r#1 b#1", "interval 10.000000000 20.000000000\n"),
        ],
    },
    // Packets go by the times of their captures.
    Case {
        declaration: CAPTURES_DECLARATION,
        lines: &[("add a a.pcap", TWO_EVENTS), ("add b b.pcap", TWO_MESSAGES)],
    },
    Case {
        declaration: CAPTURES_AHEAD_DECLARATION,
        lines: &[
            ("add a a.pcap", TWO_EVENTS),
            ("add b b.pcap", added!(2, 1, 0, 0)),
        ],
    },
];

fn put_files(alloc: Global) -> Result<MemFiles, AllocError> {
    let mut files = files_of(alloc, &LOGS, &[])?;
    files.put("a.pcap", &CAPTURE_A)?;
    files.put("b.pcap", &CAPTURE_B)?;
    Ok(files)
}

// Whether a session gives these replies.
fn replies(alloc: Global, case: &Case) -> Result<bool, Stop> {
    let mut files = put_files(alloc)?;
    replies_over(alloc, case.declaration, &mut files, case.lines)
}

#[test]
fn windows(rt: HostRuntime) {
    for (k, case) in CASES.iter().enumerate() {
        assert!(rt; replies(rt.alloc(), case) == Ok(true), "case {k}");
    }
}
