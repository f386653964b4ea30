// Each call of a device fails in turn, in a session over two logs.
use crate::runs::{Script, run_over};
use ports::{MemFiles, MemSink};
use problem_commands::Status;
use shared_fixtures::{TWO_LOGS_DECLARATION, added};
use std::alloc::{AllocError, Global};
use std::test::Fail;

// More calls than such a session makes of a device.
const MANY_CALLS: u32 = 200;

// How many bytes of the script come with each read.
const PIECE: usize = 14;

const SCRIPT: &str = "add a a.csv\nadd b b.csv\ninterval a#1 b#1\norder a#1 b#1\nmerge\nproblem\n";

// The reply to each line.
const REPLIES: [&str; 6] = [
    added!(2, 0, 0, 0),
    added!(2, 2, 0, 0),
    "interval 10.000000000 20.000000000\n",
    "order before\n",
    "merge 4\n0.000000000 a#1\n10.000000000 b#1\n60.000000000 b#2\n80.000000000 a#2\n",
    "problem 1\nclock a 0 0 0 0\nclock b 0 0 0 0\nevent a#1 a 100\nevent a#2 a 180\nevent b#1 b 250\nevent b#2 b 300\n\
    message a#1 b#1 10 20\nmessage b#2 a#2 10 20\nend\n",
];

// The replies where the first log, and where the second one, could not be read.
const WITHOUT_FIRST: [&str; 6] = [
    "refused 22\n",
    added!(2, 0, 0, 0),
    "refused 28\n",
    "refused 28\n",
    "merge 2\n0.000000000 b#1\n50.000000000 b#2\n",
    "problem 1\nclock a 0 0 0 0\nclock b 0 0 0 0\nevent b#1 b 250\nevent b#2 b 300\nend\n",
];

const WITHOUT_SECOND: [&str; 6] = [
    added!(2, 0, 0, 0),
    "refused 22\n",
    "refused 28\n",
    "refused 28\n",
    "merge 2\n0.000000000 a#1\n80.000000000 a#2\n",
    "problem 1\nclock a 0 0 0 0\nclock b 0 0 0 0\nevent a#1 a 100\nevent a#2 a 180\nend\n",
];

// Which calls fail of each device.
#[derive(Clone, Copy)]
struct Failing<'a> {
    files: &'a [u32],
    reads: &'a [u32],
    writes: &'a [u32],
}

const NONE: Failing<'static> = Failing {
    files: &[],
    reads: &[],
    writes: &[],
};

// Runs the session over these files.
fn run_in(
    alloc: Global,
    failing: &Failing<'_>,
    files: &mut MemFiles,
    printed: &mut Vec<u8>,
) -> Result<Status, AllocError> {
    let mut out = MemSink::new(alloc, 900, 300, failing.writes)?;
    let script = Script {
        text: SCRIPT.as_bytes(),
        fails: failing.reads,
    };
    let status = run_over(alloc, &["session", "d"], files, &script, &mut out)?;
    printed.extend_from_slice(out.bytes())?;
    Ok(status)
}

// How the session ends where these calls fail, and what it prints.
fn run_failing(
    alloc: Global,
    failing: &Failing<'_>,
    printed: &mut Vec<u8>,
) -> Result<Status, AllocError> {
    let mut files = MemFiles::new(alloc, failing.files)?;
    files.put("d", TWO_LOGS_DECLARATION.as_bytes())?;
    files.put("a.csv", b"100,send,m1,\n180,receive,m2,\n")?;
    files.put("b.csv", b"250,receive,m1,\n300,send,m2,\n")?;
    run_in(alloc, failing, &mut files, printed)
}

// Whether these bytes are the first of the replies and then a last line.
fn are_replies(printed: &[u8], replies: &[&str], last: &str) -> bool {
    let mut left = printed;
    for reply in replies {
        match left.strip_prefix(reply.as_bytes()) {
            Some(rest) => left = rest,
            None => return false,
        }
    }
    left == last.as_bytes()
}

// Whether these bytes are a front of the replies.
fn is_front(printed: &[u8], replies: &[&str]) -> bool {
    let mut left = printed;
    for reply in replies {
        let reply = reply.as_bytes();
        if left.len() <= reply.len() {
            return reply.starts_with(left);
        }
        match left.strip_prefix(reply) {
            Some(rest) => left = rest,
            None => return false,
        }
    }
    left.is_empty()
}

// How many lines of the script are whole in its first so many bytes.
fn lines_in(size: usize) -> usize {
    let size = size.min(SCRIPT.len());
    SCRIPT.as_bytes()[..size]
        .iter()
        .filter(|b| **b == b'\n')
        .count()
}

// Whether the output failed behind a front of the replies, in the write of this number.
fn is_cut_off(alloc: Global, number: u32) -> Result<Option<bool>, AllocError> {
    let mut printed = Vec::new(alloc);
    let failing = Failing {
        writes: &[number],
        ..NONE
    };
    match run_failing(alloc, &failing, &mut printed)? {
        Status::Done => Ok(None),
        Status::WriteFault => Ok(Some(is_front(&printed, &REPLIES))),
        _ => Ok(Some(false)),
    }
}

// Whether the script was not read on behind the replies to its whole lines, in the read of this number.
fn is_not_read_on(alloc: Global, number: u32) -> Result<Option<bool>, AllocError> {
    let mut printed = Vec::new(alloc);
    let failing = Failing {
        reads: &[number],
        ..NONE
    };
    let lines = lines_in((number as usize).saturating_sub(1) * PIECE);
    match run_failing(alloc, &failing, &mut printed)? {
        Status::Done => Ok(None),
        Status::ReadFault => Ok(Some(are_replies(
            &printed,
            &REPLIES[..lines.min(REPLIES.len())],
            "read fault\n",
        ))),
        _ => Ok(Some(false)),
    }
}

// Whether a file was not read in the read of this number: the declaration, when nothing else is said, or one of the
// logs.
fn is_told_of(alloc: Global, number: u32) -> Result<Option<bool>, AllocError> {
    let mut printed = Vec::new(alloc);
    let failing = Failing {
        files: &[number],
        ..NONE
    };
    match run_failing(alloc, &failing, &mut printed)? {
        Status::Done if are_replies(&printed, &REPLIES, "") => Ok(None),
        Status::Done => Ok(Some(
            are_replies(&printed, &WITHOUT_FIRST, "") || are_replies(&printed, &WITHOUT_SECOND, ""),
        )),
        Status::ReadFault => Ok(Some(are_replies(&printed, &[], "read fault\n"))),
        _ => Ok(Some(false)),
    }
}

// At which call in turn a failure is told otherwise than it should be, or how many calls there are.
#[derive(Clone, Copy)]
enum Turn {
    Wrong(u32),
    All(u32),
}

// Each call of the sink fails in turn.
fn writes_in_turn(alloc: Global) -> Result<Turn, AllocError> {
    for number in 1..MANY_CALLS {
        match is_cut_off(alloc, number)? {
            Some(true) => {}
            Some(false) => return Ok(Turn::Wrong(number)),
            None => return Ok(Turn::All(number - 1)),
        }
    }
    Ok(Turn::Wrong(MANY_CALLS))
}

// Each call of the source fails in turn.
fn reads_in_turn(alloc: Global) -> Result<Turn, AllocError> {
    for number in 1..MANY_CALLS {
        match is_not_read_on(alloc, number)? {
            Some(true) => {}
            Some(false) => return Ok(Turn::Wrong(number)),
            None => return Ok(Turn::All(number - 1)),
        }
    }
    Ok(Turn::Wrong(MANY_CALLS))
}

// Each read of a file fails in turn.
fn files_in_turn(alloc: Global) -> Result<Turn, AllocError> {
    for number in 1..MANY_CALLS {
        match is_told_of(alloc, number)? {
            Some(true) => {}
            Some(false) => return Ok(Turn::Wrong(number)),
            None => return Ok(Turn::All(number - 1)),
        }
    }
    Ok(Turn::Wrong(MANY_CALLS))
}

// Whether all calls failed in turn, at least so many, and each was told as it should be.
fn is_right(turn: &Turn, least: u32) -> bool {
    match turn {
        Turn::Wrong(_) => false,
        Turn::All(calls) => *calls >= least,
    }
}

// The output of a session whose writes fail is a front of what it would print.
#[test]
fn each_write_fails(rt: HostRuntime) -> Result<(), Fail> {
    assert!(rt; is_right(&writes_in_turn(rt.alloc())?, 6));
    Ok(())
}

// The whole lines that were read have their replies.
#[test]
fn each_read_of_the_script_fails(rt: HostRuntime) -> Result<(), Fail> {
    assert!(rt; is_right(&reads_in_turn(rt.alloc())?, 6));
    Ok(())
}

// A declaration that is not read ends the run, a log that is not read is refused alone.
#[test]
fn each_read_of_a_file_fails(rt: HostRuntime) -> Result<(), Fail> {
    assert!(rt; is_right(&files_in_turn(rt.alloc())?, 6));
    Ok(())
}
