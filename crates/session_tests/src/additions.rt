use crate::fixtures::{
    CAPTURE_A, CAPTURE_B, MERGED, NO_EVENT, ONE_EVENT, TWO_EVENTS, TWO_MESSAGES, answers, put_cut,
    replies_over, session_over, step,
};
use ports::{MemFiles, MemSink};
use session::{Session, Stop};
use shared_fixtures::{
    CYCLE, TWO_CAPTURES_DECLARATION, TWO_LOGS_DECLARATION, TWO_LOGS_PROBLEM, added, files_of,
};
use std::alloc::{AllocError, Global};
use std::test::*;

// A capture and a log at one host.
const CAPTURE_DECLARATION: &str =
    "[hosts.h]\n[labels.c]\nhost = \"h\"\nkind = \"capture\"\n[labels.l]\nhost = \"h\"\nkind = \"log\"\n";

// The head of a record that says that 262,145 bytes were captured.
const TOO_LONG: [u8; 16] = [0, 0, 0, 0, 100, 0, 0, 0, 1, 0, 4, 0, 1, 0, 4, 0];

// What is asked when both hosts' traces were added, whether they are logs or captures.
const QUESTIONS: [(&str, &str); 5] = [
    ("interval a#1 b#1", "interval 10.000000000 20.000000000\n"),
    ("interval b#1 a#1", "interval -20.000000000 -10.000000000\n"),
    ("order a#1 b#1", "order before\n"),
    ("merge", MERGED),
    ("problem", TWO_LOGS_PROBLEM),
];

// Where the first capture is cut, and the replies to its two pieces.
const CUTS: [(usize, &str, &str); 14] = [
    (0, NO_EVENT, TWO_EVENTS),
    (1, added!(0, 0, 0, 1), TWO_EVENTS),
    (3, added!(0, 0, 0, 3), TWO_EVENTS),
    (4, added!(0, 0, 0, 4), TWO_EVENTS),
    (8, added!(0, 0, 0, 8), TWO_EVENTS),
    (23, added!(0, 0, 0, 23), TWO_EVENTS),
    (24, NO_EVENT, TWO_EVENTS),
    (39, added!(0, 0, 0, 15), TWO_EVENTS),
    (40, added!(0, 0, 0, 16), TWO_EVENTS),
    (67, added!(0, 0, 0, 43), TWO_EVENTS),
    (68, ONE_EVENT, ONE_EVENT),
    (84, added!(1, 0, 0, 16), ONE_EVENT),
    (111, added!(1, 0, 0, 43), ONE_EVENT),
    (112, TWO_EVENTS, NO_EVENT),
];

// The files that are read, by their paths.
const FILES: [(&str, &str); 11] = [
    ("a.csv", "100,send,m1,\n180,receive,m2,\n"),
    ("late.csv", "100,send,m1,\n190,receive,m2,\n"),
    ("later.csv", "100,send,m1,\n195,receive,m2,\n"),
    ("b.csv", "250,receive,m1,\n300,send,m2,\n"),
    ("d.csv", "310,send,m2,\n"),
    ("e.csv", "140,local,,note\n"),
    ("zero.csv", "0,local,,\n"),
    ("large.csv", "4611686018427387904,local,,\n"),
    ("wrong.csv", "1,local,,\n2,local,,\n3,sends,m,\n4,send,m,\n"),
    ("fields.csv", "1,local,,\n2,local,,\n3,local,,\n4,local\n"),
    ("empty.csv", ""),
];

// Pieces of captures by their paths: no magic number in either format, version 2.3, a record of 2^32 - 1 bytes, the
// front of a second header behind the first one, a byte, and two bytes that may begin a section header.
const PIECES: [(&str, &[u8]); 7] = [
    ("no.pcap", &[0x0b, 0x0d]),
    ("no.pcapng", &[0x0a, 0x0d, 0x0d, 0x0d]),
    ("old.pcap", &[0x4d, 0x3c, 0xb2, 0xa1, 2, 0, 3, 0]),
    (
        "endless.pcap",
        &[
            0x4d, 0x3c, 0xb2, 0xa1, 2, 0, 4, 0, 0, 0, 0, 0, 0, 0, 0, 0, 0, 0, 4, 0, 101, 0, 0, 0, //
            0, 0, 0, 0, 100, 0, 0, 0, 255, 255, 255, 255, 255, 255, 255, 255, //
        ],
    ),
    (
        "twice.pcap",
        &[
            0x4d, 0x3c, 0xb2, 0xa1, 2, 0, 4, 0, 0, 0, 0, 0, 0, 0, 0, 0, 0, 0, 4, 0, 101, 0, 0, 0, //
            0x4d, 0x3c, 0xb2, 0xa1, 2, 0, 4, 0, 0, 0, 0, 0, 0, 0, 0, 0, //
        ],
    ),
    ("zero.pcap", &[0]),
    ("begun.pcapng", &[0x0a, 0x0d]),
];

// A session over a declaration: lines with their replies. Reads with these numbers fail, counted from 1.
struct Case {
    declaration: &'static str,
    fails: &'static [u32],
    lines: &'static [(&'static str, &'static str)],
}

const CASES: [Case; 10] = [
    // Two logs with a message each way. What is refused changes nothing.
    Case {
        declaration: TWO_LOGS_DECLARATION,
        fails: &[],
        lines: &[
            (
                "problem",
                "problem 1\nclock a 0 0 0 0\nclock b 0 0 0 0\nend\n",
            ),
            ("add a a.csv", TWO_EVENTS),
            ("add b b.csv", TWO_MESSAGES),
            ("interval a#1 b#1", "interval 10.000000000 20.000000000\n"),
            ("interval b#1 a#1", "interval -20.000000000 -10.000000000\n"),
            ("order a#1 b#1", "order before\n"),
            ("order b#1 a#1", "order after\n"),
            ("order b#2 b#2", "order same\n"),
            ("interval a#1", "refused 20\n"),
            ("", "refused 20\n"),
            ("merges", "refused 20\n"),
            ("problem ", "refused 20\n"),
            ("interval  a#1 b#1", "refused 20\n"),
            ("interval a#1 b#1 ", "refused 20\n"),
            ("add a a.csv\r", "refused 20\n"),
            ("add x a.csv", "refused 21\n"),
            ("add x nofile", "refused 21\n"),
            ("add a nofile", "refused 22\n"),
            ("add a large.csv", "refused 26 1 2\n"),
            ("add a wrong.csv", "refused 26 3 3\n"),
            ("add a fields.csv", "refused 26 4 1\n"),
            ("interval a#1 a#01", "refused 28\n"),
            ("order c#1 a#1", "refused 28\n"),
            ("order a#3 a#1", "refused 28\n"),
            ("interval a#1 a", "refused 28\n"),
            ("problem", TWO_LOGS_PROBLEM),
        ],
    },
    // A reply that comes late.
    Case {
        declaration: TWO_LOGS_DECLARATION,
        fails: &[],
        lines: &[
            ("add a late.csv", TWO_EVENTS),
            ("add b b.csv", TWO_MESSAGES),
            ("interval a#1 b#1", "interval 20.000000000 20.000000000\n"),
        ],
    },
    // Logs that contradict each other, until a second send withdraws a message.
    Case {
        declaration: TWO_LOGS_DECLARATION,
        fails: &[],
        lines: &[
            ("add a later.csv", TWO_EVENTS),
            ("add b b.csv", added!(2, 2, 0, 0, inconsistent)),
            ("interval a#1 b#1", CYCLE),
            ("add b d.csv", added!(1, 0, 1, 0)),
            ("interval a#1 b#1", "interval 10.000000000 20.000000000\n"),
        ],
    },
    // A local row is no message.
    Case {
        declaration: TWO_LOGS_DECLARATION,
        fails: &[],
        lines: &[
            ("add a a.csv", TWO_EVENTS),
            ("add b b.csv", TWO_MESSAGES),
            ("add a e.csv", ONE_EVENT),
            ("interval a#1 b#1", "interval 10.000000000 20.000000000\n"),
            ("interval a#1 a#3", "interval 40.000000000 40.000000000\n"),
        ],
    },
    // Events that nothing links, and a piece without rows.
    Case {
        declaration: TWO_LOGS_DECLARATION,
        fails: &[],
        lines: &[
            ("add b zero.csv", ONE_EVENT),
            ("add a zero.csv", ONE_EVENT),
            ("add a empty.csv", NO_EVENT),
            ("interval a#1 b#1", "interval -inf +inf\n"),
            ("order a#1 b#1", "order open\n"),
        ],
    },
    // A read that fails, and the same addition again.
    Case {
        declaration: TWO_LOGS_DECLARATION,
        fails: &[1],
        lines: &[
            ("add a a.csv", "refused 22\n"),
            ("order a#1 a#1", "refused 28\n"),
            ("add a a.csv", TWO_EVENTS),
            ("add b b.csv", TWO_MESSAGES),
        ],
    },
    // A capture and a log; what is refused of the capture changes nothing. The path comes first.
    Case {
        declaration: CAPTURE_DECLARATION,
        fails: &[],
        lines: &[
            ("add c nofile", "refused 22\n"),
            ("add c no.pcap", "refused 24 1\n"),
            ("add c no.pcapng", "refused 24 1\n"),
            ("add c old.pcap", "refused 24 2\n"),
            ("add c endless.pcap", "refused 25 24\n"),
            ("add c toolong.pcap", "refused 25 68\n"),
            ("add c twice.pcap", "refused 25 24 header\n"),
            ("add c begun.pcap", added!(0, 0, 0, 23)),
            ("add c zero.pcap", NO_EVENT),
            ("add l a.csv", TWO_EVENTS),
            ("interval l#1 l#2", "interval 80.000000000 80.000000000\n"),
        ],
    },
    // A capture in pcapng that may have begun, and does not go on.
    Case {
        declaration: CAPTURE_DECLARATION,
        fails: &[],
        lines: &[
            ("add c begun.pcapng", added!(0, 0, 0, 2)),
            ("add c zero.pcap", "refused 24 1\n"),
        ],
    },
    // A record that is refused, and whole captures.
    Case {
        declaration: TWO_CAPTURES_DECLARATION,
        fails: &[],
        lines: &[
            ("add a toolong.pcap", "refused 25 68\n"),
            ("add a a.pcap", TWO_EVENTS),
            ("add b b.pcap", TWO_MESSAGES),
            ("interval a#1 b#1", "interval 10.000000000 20.000000000\n"),
            ("problem", TWO_LOGS_PROBLEM),
        ],
    },
    // No labels.
    Case {
        declaration: "",
        fails: &[],
        lines: &[
            ("add a a.csv", "refused 21\n"),
            ("problem", "problem 1\nend\n"),
        ],
    },
];

// A capture as far as its first record, and then a record that is too long.
fn too_long(alloc: Global) -> Result<Vec<u8>, AllocError> {
    let mut bytes = Vec::from_slice(alloc, &CAPTURE_A[..68])?;
    bytes.extend_from_slice(&TOO_LONG)?;
    Ok(bytes)
}

fn put_too_long(alloc: Global, files: &mut MemFiles) -> Result<(), AllocError> {
    let bytes = too_long(alloc)?;
    files.put("toolong.pcap", &bytes)
}

fn put_captures(alloc: Global, files: &mut MemFiles) -> Result<(), AllocError> {
    files.put("a.pcap", &CAPTURE_A)?;
    files.put("b.pcap", &CAPTURE_B)?;
    files.put("begun.pcap", &CAPTURE_A[..23])?;
    put_too_long(alloc, files)?;
    for (path, bytes) in &PIECES {
        files.put(path, bytes)?;
    }
    Ok(())
}

fn put_files(alloc: Global, fails: &[u32]) -> Result<MemFiles, AllocError> {
    let mut files = files_of(alloc, &FILES, fails)?;
    put_captures(alloc, &mut files)?;
    Ok(files)
}

fn replies(alloc: Global, case: &Case) -> Result<bool, Stop> {
    let mut files = put_files(alloc, case.fails)?;
    replies_over(alloc, case.declaration, &mut files, case.lines)
}

#[test]
fn sessions(rt: HostRuntime) {
    for (k, case) in CASES.iter().enumerate() {
        assert!(rt; replies(rt.alloc(), case) == Ok(true), "case {k}");
    }
}

// Whether a session answers the additions so, and then all questions.
fn is_answered_by(
    alloc: Global,
    session: &mut Session,
    files: &mut MemFiles,
    additions: &[(&str, &str)],
) -> Result<bool, Stop> {
    let added = answers(alloc, session, files, additions)?;
    Ok(added && answers(alloc, session, files, &QUESTIONS)?)
}

// The same of a session over these files.
fn is_answered_over(
    alloc: Global,
    files: &mut MemFiles,
    additions: &[(&str, &str)],
) -> Result<bool, Stop> {
    match session_over(alloc, TWO_CAPTURES_DECLARATION)? {
        Some(mut session) => is_answered_by(alloc, &mut session, files, additions),
        None => Ok(false),
    }
}

// Whether a capture in two pieces, and another host's, are answered so.
fn is_answered_when_cut(
    alloc: Global,
    cut: usize,
    first: &'static str,
    second: &'static str,
) -> Result<bool, Stop> {
    let mut files = MemFiles::new(alloc, &[])?;
    let is_put = put_cut(&mut files, &CAPTURE_A, cut)?;
    let additions = [
        ("add a front", first),
        ("add a back", second),
        ("add b b", TWO_MESSAGES),
    ];
    Ok(is_put && is_answered_over(alloc, &mut files, &additions)?)
}

#[test]
fn cut_captures(rt: HostRuntime) {
    for (cut, first, second) in &CUTS {
        assert!(rt;
            is_answered_when_cut(rt.alloc(), *cut, first, second) == Ok(true),
            "cut {cut}"
        );
    }
}

// Whether a line that is too long is refused, and a sink that fails stops the session.
fn session_stops(
    session: &mut Session,
    files: &mut MemFiles,
    out: &mut MemSink,
) -> Result<bool, Stop> {
    session.too_long(out)?;
    let stop = step(session, files, "problem", out);
    Ok(out.bytes() == b"refused 20\n".as_slice() && stop == Err(Stop::WriteFault))
}

// The same over a sink.
fn stops_into(alloc: Global, session: &mut Session, files: &mut MemFiles) -> Result<bool, Stop> {
    let mut out = MemSink::new(alloc, 100, 5_000, &[2])?;
    session_stops(session, files, &mut out)
}

// The same over files.
fn stops_over(alloc: Global, session: &mut Session) -> Result<bool, Stop> {
    let mut files = put_files(alloc, &[])?;
    stops_into(alloc, session, &mut files)
}

fn stops(alloc: Global) -> Result<bool, Stop> {
    match session_over(alloc, TWO_LOGS_DECLARATION)? {
        Some(mut session) => stops_over(alloc, &mut session),
        None => Ok(false),
    }
}

#[test]
fn ends(rt: HostRuntime) {
    assert!(rt; stops(rt.alloc()) == Ok(true));
}
