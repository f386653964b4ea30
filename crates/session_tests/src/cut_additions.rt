// Captures cut at each byte, stamps and faults in pcapng, and the longest record.
use crate::fixtures::{
    BLOCKS_A, CAPTURE_A, TWO_EVENTS, TWO_MESSAGES, put_cut, replies_over, session_over, step,
};
use atto::{NsText, write_decimal};
use ports::{MemFiles, MemSink};
use session::{Session, Stop};
use shared_fixtures::TWO_CAPTURES_DECLARATION;
use std::alloc::{AllocError, Global};
use std::test::*;

// What is replied when both captures were added, wherever the first one was cut.
const ANSWERS: &str =
    "interval 10.000000000 20.000000000\norder before\nmerge 4\n0.000000000 a#1\n10.000000000 b#1\n60.000000000 b#2\n\
    80.000000000 a#2\nproblem 1\nclock a 0 0 0 0\nclock b 0 0 0 0\nevent a#1 a 100\nevent a#2 a 180\nevent b#1 b 250\n\
    event b#2 b 300\nmessage a#1 b#1 10 20\nmessage b#2 a#2 10 20\nend\n";

const REPORT: &str =
    "{\"ambiguous\":[],\"consistent\":true,\"events\":1,\"messages\":0,\"nokey\":{\"fragment\":0,\"header\":0,\
    \"length\":0,\"link\":0,\"local\":0,\"other\":1,\"short\":0,\"side\":0},\"unmatched\":0}\n";

// A capture, and the places at which a header, a record or a block of it ends, each with how many packets are whole there.
struct Whole {
    bytes: &'static [u8],
    ends: &'static [(u64, u64)],
}

const CLASSIC: Whole = Whole {
    bytes: &CAPTURE_A,
    ends: &[(24, 0), (68, 1), (112, 2)],
};

const BLOCKS: Whole = Whole {
    bytes: &BLOCKS_A,
    ends: &[(28, 0), (60, 0), (120, 1), (180, 2)],
};

// How many packets are whole before a cut, and how many bytes then wait.
fn parts_at(ends: &[(u64, u64)], cut: u64) -> (u64, u64) {
    let mut parts = (0, cut);
    for (end, packets) in ends {
        if *end <= cut {
            parts = (*packets, cut.saturating_sub(*end));
        }
    }
    parts
}

// Appends the reply to an addition without messages.
fn push_added(text: &mut Vec<u8>, events: u64, pending: u64) -> Result<(), AllocError> {
    let mut digits = NsText::new();
    text.extend_from_slice(b"added events ")?;
    write_decimal(events, &mut digits);
    text.extend_from_slice(digits.as_slice())?;
    text.extend_from_slice(b" messages 0 withdrawn 0 pending ")?;
    write_decimal(pending, &mut digits);
    text.extend_from_slice(digits.as_slice())?;
    text.extend_from_slice(b" consistent\n")
}

// All replies of a session whose first capture was cut there.
fn wanted_at(alloc: Global, ends: &[(u64, u64)], cut: u64) -> Result<Vec<u8>, AllocError> {
    let mut text = Vec::new(alloc);
    let (events, pending) = parts_at(ends, cut);
    push_added(&mut text, events, pending)?;
    push_added(&mut text, 2_u64.saturating_sub(events), 0)?;
    text.extend_from_slice(TWO_MESSAGES.as_bytes())?;
    text.extend_from_slice(ANSWERS.as_bytes())?;
    Ok(text)
}

// What a session replies to some lines.
fn reply(
    session: &mut Session,
    files: &mut MemFiles,
    lines: &[&str],
    out: &mut MemSink,
) -> Result<bool, Stop> {
    for line in lines {
        if !step(session, files, line, out)? {
            return Ok(false);
        }
    }
    Ok(true)
}

// What a session over these files replies to some lines.
fn reply_over(
    alloc: Global,
    files: &mut MemFiles,
    lines: &[&str],
    out: &mut MemSink,
) -> Result<bool, Stop> {
    match session_over(alloc, TWO_CAPTURES_DECLARATION)? {
        Some(mut session) => reply(&mut session, files, lines, out),
        None => Ok(false),
    }
}

// Whether these are all replies to some lines.
fn are_replies(
    alloc: Global,
    files: &mut MemFiles,
    lines: &[&str],
    wanted: &[u8],
) -> Result<bool, Stop> {
    let mut out = MemSink::new(alloc, 5_000, 4_000, &[])?;
    let replied = reply_over(alloc, files, lines, &mut out)?;
    Ok(replied && out.bytes() == wanted)
}

const LINES: [&str; 7] = [
    "add a front",
    "add a back",
    "add b b",
    "interval a#1 b#1",
    "order a#1 b#1",
    "merge",
    "problem",
];

// Whether a capture that is cut there is answered as if it were whole.
fn whole_over(
    alloc: Global,
    files: &mut MemFiles,
    ends: &[(u64, u64)],
    cut: usize,
) -> Result<bool, Stop> {
    let wanted = wanted_at(alloc, ends, cut as u64)?;
    are_replies(alloc, files, &LINES, &wanted)
}

fn is_whole(alloc: Global, whole: &Whole, cut: usize) -> Result<bool, Stop> {
    let mut files = MemFiles::new(alloc, &[])?;
    let is_put = put_cut(&mut files, whole.bytes, cut)?;
    Ok(is_put && whole_over(alloc, &mut files, whole.ends, cut)?)
}

#[test]
fn cuts_at_each_byte(rt: HostRuntime) {
    for cut in 0..113_usize {
        assert!(rt;
            is_whole(rt.alloc(), &CLASSIC, cut) == Ok(true),
            "cut {cut}"
        );
    }
}

#[test]
fn cuts_between_blocks(rt: HostRuntime) {
    for cut in 0..181_usize {
        assert!(rt; is_whole(rt.alloc(), &BLOCKS, cut) == Ok(true), "cut {cut}");
    }
}

// Bytes that are altered, each at its place, and the replies to `add` and to `problem`.
const ALTERED: [(&[(usize, u8)], &str, &str); 8] = [
    // Microseconds: 5 of them.
    (
        &[(48, 6), (76, 5)],
        TWO_EVENTS,
        "problem 1\nclock a 0 0 0 0\nclock b 0 0 0 0\nevent a#1 a 5000\nevent a#2 a 180000\nend\n",
    ),
    // 1,024 parts of a second: all of them.
    (
        &[(48, 0x8a), (76, 0), (77, 4)],
        TWO_EVENTS,
        "problem 1\nclock a 0 0 0 0\nclock b 0 0 0 0\nevent a#1 a 1000000000\nevent a#2 a 175781250\nend\n",
    ),
    // And one.
    (
        &[(48, 0x8a), (76, 1)],
        TWO_EVENTS,
        "problem 1\nclock a 0 0 0 0\nclock b 0 0 0 0\nevent a#1 a 976562\nevent a#2 a 175781250\nend\n",
    ),
    // Microseconds, and 9 s are added to them.
    (
        &[(44, 14), (46, 8)],
        TWO_EVENTS,
        "problem 1\nclock a 0 0 0 0\nclock b 0 0 0 0\nevent a#1 a 9000100000\nevent a#2 a 9000180000\nend\n",
    ),
    // An option that passes the end of its block, a block of 13 bytes, a section of another version, and a packet of
    // too many bytes.
    (&[(46, 9)], "refused 31 28\n", NO_PROBLEM),
    (&[(32, 13)], "refused 31 28\n", NO_PROBLEM),
    (&[(12, 2)], "refused 24 2\n", NO_PROBLEM),
    (&[(82, 5)], "refused 25 60\n", NO_PROBLEM),
];

const NO_PROBLEM: &str = "problem 1\nclock a 0 0 0 0\nclock b 0 0 0 0\nend\n";

// The first capture in pcapng with these bytes at these places.
fn altered(alloc: Global, changes: &[(usize, u8)]) -> Result<Vec<u8>, AllocError> {
    let mut bytes = Vec::from_slice(alloc, &BLOCKS_A)?;
    for (place, byte) in changes {
        if *place < bytes.len() {
            bytes[*place] = *byte;
        }
    }
    Ok(bytes)
}

fn put_altered(
    alloc: Global,
    files: &mut MemFiles,
    changes: &[(usize, u8)],
) -> Result<(), AllocError> {
    let bytes = altered(alloc, changes)?;
    files.put("a", &bytes)
}

fn replies_to(
    alloc: Global,
    changes: &[(usize, u8)],
    added: &str,
    problem: &str,
) -> Result<bool, Stop> {
    let mut files = MemFiles::new(alloc, &[])?;
    put_altered(alloc, &mut files, changes)?;
    let lines = [("add a a", added), ("problem", problem)];
    replies_over(alloc, TWO_CAPTURES_DECLARATION, &mut files, &lines)
}

#[test]
fn altered_blocks(rt: HostRuntime) {
    for (changes, added, problem) in &ALTERED {
        assert!(rt; replies_to(rt.alloc(), changes, added, problem) == Ok(true));
    }
}

// A capture of a record of zeros, so long.
fn zeros(alloc: Global, size: u32, zeros: usize) -> Result<Vec<u8>, AllocError> {
    let mut bytes = Vec::from_slice(alloc, &CAPTURE_A[..24])?;
    bytes.extend_from_slice(&[0, 0, 0, 0, 0, 0, 0, 0])?;
    bytes.extend_from_slice(&size.to_le_bytes())?;
    bytes.extend_from_slice(&size.to_le_bytes())?;
    let body = vec![in alloc; 0_u8; zeros]?;
    bytes.extend_from_slice(&body)?;
    Ok(bytes)
}

// What is replied where the longest record is an event, and one byte more is refused by the record's head alone.
fn wanted_of_longest(alloc: Global) -> Result<Vec<u8>, AllocError> {
    let mut wanted = Vec::new(alloc);
    push_added(&mut wanted, 1, 0)?;
    wanted.extend_from_slice(REPORT.as_bytes())?;
    wanted.extend_from_slice(b"refused 25 24\n")?;
    wanted.extend_from_slice(REPORT.as_bytes())?;
    Ok(wanted)
}

// A file with a capture of a record of zeros.
fn put_zeros(
    alloc: Global,
    files: &mut MemFiles,
    path: &str,
    size: u32,
    count: usize,
) -> Result<(), AllocError> {
    let bytes = zeros(alloc, size, count)?;
    files.put(path, &bytes)
}

fn longest_over(alloc: Global, files: &mut MemFiles) -> Result<bool, Stop> {
    let wanted = wanted_of_longest(alloc)?;
    let lines = ["add a longest", "report", "add b longer", "report"];
    are_replies(alloc, files, &lines, &wanted)
}

fn longest_is_taken(alloc: Global) -> Result<bool, Stop> {
    let mut files = MemFiles::new(alloc, &[])?;
    put_zeros(alloc, &mut files, "longest", 262_144, 262_144)?;
    put_zeros(alloc, &mut files, "longer", 262_145, 0)?;
    longest_over(alloc, &mut files)
}

#[test]
fn longest_records(rt: HostRuntime) {
    assert!(rt; longest_is_taken(rt.alloc()) == Ok(true));
}
