// Sessions over hosts with several clocks: their events stand on the clocks of their labels, and each clock comes after
// those before it that have readings.
use crate::fixtures::{ONE_EVENT, TWO_EVENTS, TWO_MESSAGES, replies_over};
use session::Stop;
use shared_fixtures::{TWO_CLOCKS_DECLARATION, added, files_of};
use std::alloc::Global;
use std::test::*;

// The same where no time is known to be between the clocks, and where the first label does not name one.
const NO_GAP_DECLARATION: &str =
    "[hosts.a]\nclocks = [{ name = \"a1\" }, { name = \"a2\" }]\n[hosts.b]\n\
    [labels.a]\nhost = \"a\"\nkind = \"log\"\n[labels.b]\nhost = \"b\"\nkind = \"log\"\n\
    [labels.r]\nhost = \"a\"\nkind = \"log\"\nclock = \"a2\"\n\
    [[links]]\nfrom = \"a\"\nto = \"b\"\nleast = 10\nmost = 20\n";

// One host with three clocks, and a label for each.
const CHAIN_DECLARATION: &str =
    "[hosts.a]\nclocks = [{ name = \"a1\" }, { name = \"a2\", gap = 5 }, { name = \"a3\", gap = 7 }]\n\
    [labels.p]\nhost = \"a\"\nkind = \"log\"\n[labels.q]\nhost = \"a\"\nkind = \"log\"\nclock = \"a2\"\n\
    [labels.r]\nhost = \"a\"\nkind = \"log\"\nclock = \"a3\"\n";

// The same, where the second clock shows true time.
const SOURCE_DECLARATION: &str =
    "source = \"a2\"\n[hosts.a]\nclocks = [{ name = \"a1\" }, { name = \"a2\", gap = 5 }, { name = \"a3\", gap = 7 }]\n\
    [labels.p]\nhost = \"a\"\nkind = \"log\"\n[labels.q]\nhost = \"a\"\nkind = \"log\"\nclock = \"a2\"\n\
    [labels.r]\nhost = \"a\"\nkind = \"log\"\nclock = \"a3\"\n";

// The problem of the first two hosts when all logs were added.
const TWO_CLOCKS_PROBLEM: &str =
    "problem 2\nclock a1 0 0 0 0\nclock a2 0 0 0 0\nclock b 0 0 0 0\nfollow a1 a2 5\nevent a#1 a1 100\nevent b#1 b 250\n\
    event b#2 b 255\nevent r#1 a2 0\nmessage a#1 b#1 10 20\nmessage r#1 b#2 10 20\nend\n";

const NO_GAP_PROBLEM: &str =
    "problem 2\nclock a1 0 0 0 0\nclock a2 0 0 0 0\nclock b 0 0 0 0\nfollow a1 a2 0\nevent a#1 a1 100\nevent b#1 b 250\n\
    event b#2 b 255\nevent r#1 a2 0\nmessage a#1 b#1 10 20\nmessage r#1 b#2 10 20\nend\n";

// That of the three clocks, with nothing on them, and with a reading each.
const BARE_CHAIN: &str =
    "problem 2\nclock a1 0 0 0 0\nclock a2 0 0 0 0\nclock a3 0 0 0 0\nfollow a1 a2 5\nfollow a2 a3 7\nend\n";

const READ_CHAIN: &str =
    "problem 2\nclock a1 0 0 0 0\nclock a2 0 0 0 0\nclock a3 0 0 0 0\nfollow a1 a2 5\nfollow a2 a3 7\nevent p#1 a1 0\n\
    event q#1 a2 0\nevent r#1 a3 0\nend\n";

// The contradiction of a message that is received by an earlier clock than it was sent by.
const CYCLE: &str =
    "certificate 1\ncycle\nstep early q#1 0.000000000\nstep follow a1 0 a2 0 -5.000000000\n\
    step late p#1 0.000000000\nstep delay-least q#1 p#1 0.000000000\nend\n";

// What is to blame where b received the message of the later clock 9 ns before that of the earlier one. At most 5 ns
// may be between the two: the one takes 10 ns at least, and was sent 5 ns later than the other, which takes 20 at most.
const BACKWARD_BLAME: &str =
    "blame delays 4 ns\nblame least 4 ns\nblame stamps 1 ns\nblame rates 444444445 ppb\nblame gaps 4 ns\n\
    blame stamps a1 4 ns\nblame rates a1 none\nblame stamps a2 4 ns\nblame rates a2 none\nblame stamps b 2 ns\n\
    blame rates b 444444445 ppb\nblame delays a1 b 4 ns\nblame least a1 b none\nblame delays a2 b none\n\
    blame least a2 b 4 ns\nend\n";

// The logs, by their paths.
const LOGS: [(&str, &str); 12] = [
    ("a.csv", "100,send,m1,\n"),
    ("r.csv", "0,send,m2,\n"),
    ("b.csv", "250,receive,m1,\n255,receive,m2,\n"),
    ("backward.csv", "250,receive,m2,\n259,receive,m1,\n"),
    ("0.csv", "0,local,,\n"),
    ("20.csv", "20,local,,\n"),
    ("40.csv", "40,local,,\n"),
    ("50.csv", "50,local,,\n"),
    ("80.csv", "80,local,,\n"),
    ("100-250.csv", "100,local,,\n250,local,,\n"),
    ("send.csv", "0,send,m,\n"),
    ("receive.csv", "0,receive,m,\n"),
];

// A session over a declaration: lines with their replies.
struct Case {
    declaration: &'static str,
    lines: &'static [(&'static str, &'static str)],
}

const CASES: [Case; 9] = [
    Case {
        declaration: TWO_CLOCKS_DECLARATION,
        lines: &[
            ("add a a.csv", ONE_EVENT),
            ("add r r.csv", ONE_EVENT),
            ("interval a#1 r#1", "interval 5.000000000 +inf\n"),
            ("add b b.csv", TWO_MESSAGES),
            ("interval a#1 r#1", "interval 5.000000000 15.000000000\n"),
            ("interval r#1 a#1", "interval -15.000000000 -5.000000000\n"),
            ("order a#1 r#1", "order before\n"),
            (
                "merge",
                "merge 4\n0.000000000 a#1\n5.000000000 r#1\n10.000000000 b#1\n15.000000000 b#2\n",
            ),
            ("problem", TWO_CLOCKS_PROBLEM),
        ],
    },
    Case {
        declaration: NO_GAP_DECLARATION,
        lines: &[
            ("add a a.csv", ONE_EVENT),
            ("add r r.csv", ONE_EVENT),
            ("add b b.csv", TWO_MESSAGES),
            ("interval a#1 r#1", "interval 0.000000000 15.000000000\n"),
            ("order a#1 r#1", "order open\n"),
            ("problem", NO_GAP_PROBLEM),
        ],
    },
    // A contradiction in which the gap has a part.
    Case {
        declaration: TWO_CLOCKS_DECLARATION,
        lines: &[
            ("add a a.csv", ONE_EVENT),
            ("add r r.csv", ONE_EVENT),
            ("blame", "blame none\n"),
            ("add b backward.csv", added!(2, 2, 0, 0, inconsistent)),
            ("blame", BACKWARD_BLAME),
        ],
    },
    // The gap of the nearest clock with a reading counts, and the readings between, once they come.
    Case {
        declaration: CHAIN_DECLARATION,
        lines: &[
            ("problem", BARE_CHAIN),
            ("add p 0.csv", ONE_EVENT),
            ("add r 0.csv", ONE_EVENT),
            ("interval p#1 r#1", "interval 7.000000000 +inf\n"),
            ("order r#1 p#1", "order after\n"),
            ("add q 0.csv", ONE_EVENT),
            ("interval p#1 r#1", "interval 12.000000000 +inf\n"),
            ("interval p#1 q#1", "interval 5.000000000 +inf\n"),
            ("interval q#1 r#1", "interval 7.000000000 +inf\n"),
            ("interval r#1 p#1", "interval -inf -12.000000000\n"),
            ("problem", READ_CHAIN),
        ],
    },
    // The same the other way round, and from an event that is kept.
    Case {
        declaration: CHAIN_DECLARATION,
        lines: &[
            ("add r 0.csv", ONE_EVENT),
            ("keep r#1", "kept 1\n"),
            ("add p 0.csv", ONE_EVENT),
            ("interval r#1 p#1", "interval -inf -7.000000000\n"),
            ("add q 0.csv", ONE_EVENT),
            ("interval r#1 p#1", "interval -inf -12.000000000\n"),
            ("interval r#1 q#1", "interval -inf -7.000000000\n"),
            ("problem", READ_CHAIN),
        ],
    },
    // The clock between first, and then those at both sides of it.
    Case {
        declaration: CHAIN_DECLARATION,
        lines: &[
            ("add q 0.csv", ONE_EVENT),
            ("keep q#1", "kept 1\n"),
            ("add r 0.csv", ONE_EVENT),
            ("add p 0.csv", ONE_EVENT),
            ("interval q#1 r#1", "interval 7.000000000 +inf\n"),
            ("interval q#1 p#1", "interval -inf -5.000000000\n"),
            ("interval p#1 r#1", "interval 12.000000000 +inf\n"),
            ("problem", READ_CHAIN),
        ],
    },
    // Readings come before the first one of a clock, behind its last one, between two of it, and once more.
    Case {
        declaration: CHAIN_DECLARATION,
        lines: &[
            ("add q 100-250.csv", TWO_EVENTS),
            ("add p 50.csv", ONE_EVENT),
            ("interval p#1 q#1", "interval 5.000000000 +inf\n"),
            ("add q 40.csv", ONE_EVENT),
            ("interval p#1 q#1", "interval 65.000000000 +inf\n"),
            ("interval p#1 q#3", "interval 5.000000000 +inf\n"),
            ("add p 80.csv", ONE_EVENT),
            ("interval p#1 q#1", "interval 95.000000000 +inf\n"),
            ("add p 20.csv", ONE_EVENT),
            ("interval p#3 q#1", "interval 125.000000000 +inf\n"),
            ("add p 40.csv", ONE_EVENT),
            ("interval p#4 q#3", "interval 45.000000000 +inf\n"),
            ("add p 80.csv", ONE_EVENT),
            ("interval p#5 q#3", "interval 5.000000000 +inf\n"),
            ("interval p#5 p#2", "interval 0.000000000 0.000000000\n"),
            ("add r 0.csv", ONE_EVENT),
            ("interval p#2 r#1", "interval 222.000000000 +inf\n"),
            ("interval q#1 r#1", "interval 157.000000000 +inf\n"),
        ],
    },
    // A message from a later clock to an earlier one can't be, until a second send withdraws it.
    Case {
        declaration: CHAIN_DECLARATION,
        lines: &[
            ("add p receive.csv", ONE_EVENT),
            ("add q send.csv", added!(1, 1, 0, 0, inconsistent)),
            ("interval p#1 q#1", CYCLE),
            ("add r send.csv", added!(1, 0, 1, 0)),
            ("interval p#1 q#1", "interval 5.000000000 +inf\n"),
            ("interval p#1 r#1", "interval 12.000000000 +inf\n"),
        ],
    },
    // The source is one clock of its host, and has no reading before it has one of its own.
    Case {
        declaration: SOURCE_DECLARATION,
        lines: &[
            ("add p 50.csv", ONE_EVENT),
            ("add r 20.csv", ONE_EVENT),
            ("time p#1", "refused 29\n"),
            ("add q 100-250.csv", TWO_EVENTS),
            ("time p#1", "time -inf 95.000000000\n"),
            ("time q#2", "time 250.000000000 250.000000000\n"),
            ("time r#1", "time 257.000000000 +inf\n"),
        ],
    },
];

// Whether a session gives these replies.
fn replies(alloc: Global, case: &Case) -> Result<bool, Stop> {
    let mut files = files_of(alloc, &LOGS, &[])?;
    replies_over(alloc, case.declaration, &mut files, case.lines)
}

#[test]
fn hosts_of_several_clocks(rt: HostRuntime) {
    for (k, case) in CASES.iter().enumerate() {
        assert!(rt; replies(rt.alloc(), case) == Ok(true), "case {k}");
    }
}
