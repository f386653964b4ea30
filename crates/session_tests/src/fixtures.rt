// Declarations, captures and replies that several modules use, and sessions over them.
ghost use Rattle.std.specs.Prelude.{◌≡◌, ◌<◌, ◌≤◌, length};
ghost use Rattle.session.specs.Stands.{IsReady};

use atto::Steps;
use decl::read_decl;
use ports::{Files, MemFiles, MemSink};
use session::{Session, Stop};
use shared_fixtures::added;
use std::alloc::{AllocError, Global};
use std::marker::Brand;
use std::sync::ledger::{Blank, Ledger};

// Two records of 28 bytes under a header of little-endian nanoseconds and link type 101: at 100 ns a packet from
// 10.0.0.1:5000 to 10.0.0.2:6000, at 180 ns one back.
pub(crate) const CAPTURE_A: [u8; 112] = [
    0x4d, 0x3c, 0xb2, 0xa1, 2, 0, 4, 0, 0, 0, 0, 0, 0, 0, 0, 0, 0, 0, 4, 0, 101, 0, 0, 0, //
    0, 0, 0, 0, 100, 0, 0, 0, 28, 0, 0, 0, 28, 0, 0, 0, //
    0x45, 0, 0, 0x1c, 0, 7, 0, 0, 0x40, 0x11, 0, 0, 10, 0, 0, 1, 10, 0, 0, 2, 0x13, 0x88, 0x17,
    0x70, 0, 8, 0, 0, //
    0, 0, 0, 0, 180, 0, 0, 0, 28, 0, 0, 0, 28, 0, 0, 0, //
    0x45, 0, 0, 0x1c, 0, 8, 0, 0, 0x40, 0x11, 0, 0, 10, 0, 0, 2, 10, 0, 0, 1, 0x17, 0x70, 0x13,
    0x88, 0, 8, 0, 0, //
];

// The same packets at 250 ns and 300 ns.
pub(crate) const CAPTURE_B: [u8; 112] = [
    0x4d, 0x3c, 0xb2, 0xa1, 2, 0, 4, 0, 0, 0, 0, 0, 0, 0, 0, 0, 0, 0, 4, 0, 101, 0, 0, 0, //
    0, 0, 0, 0, 250, 0, 0, 0, 28, 0, 0, 0, 28, 0, 0, 0, //
    0x45, 0, 0, 0x1c, 0, 7, 0, 0, 0x40, 0x11, 0, 0, 10, 0, 0, 1, 10, 0, 0, 2, 0x13, 0x88, 0x17,
    0x70, 0, 8, 0, 0, //
    0, 0, 0, 0, 44, 1, 0, 0, 28, 0, 0, 0, 28, 0, 0, 0, //
    0x45, 0, 0, 0x1c, 0, 8, 0, 0, 0x40, 0x11, 0, 0, 10, 0, 0, 2, 10, 0, 0, 1, 0x17, 0x70, 0x13,
    0x88, 0, 8, 0, 0, //
];

// The packets of the first capture at the same times, in pcapng: a section of little-endian numbers, and an interface
// of link type 101 that counts nanoseconds.
pub(crate) const BLOCKS_A: [u8; 180] = [
    0x0a, 0x0d, 0x0d, 0x0a, 28, 0, 0, 0, 0x4d, 0x3c, 0x2b, 0x1a, 1, 0, 0, 0, //
    255, 255, 255, 255, 255, 255, 255, 255, 28, 0, 0, 0, //
    1, 0, 0, 0, 32, 0, 0, 0, 101, 0, 0, 0, 0, 0, 4, 0, 9, 0, 1, 0, 9, 0, 0, 0, 0, 0, 0, 0, 32, 0,
    0, 0, //
    6, 0, 0, 0, 60, 0, 0, 0, 0, 0, 0, 0, 0, 0, 0, 0, 100, 0, 0, 0, 28, 0, 0, 0, 28, 0, 0, 0, //
    0x45, 0, 0, 0x1c, 0, 7, 0, 0, 0x40, 0x11, 0, 0, 10, 0, 0, 1, 10, 0, 0, 2, 0x13, 0x88, 0x17,
    0x70, 0, 8, 0, 0, 60, 0, 0, 0, //
    6, 0, 0, 0, 60, 0, 0, 0, 0, 0, 0, 0, 0, 0, 0, 0, 180, 0, 0, 0, 28, 0, 0, 0, 28, 0, 0, 0, //
    0x45, 0, 0, 0x1c, 0, 8, 0, 0, 0x40, 0x11, 0, 0, 10, 0, 0, 2, 10, 0, 0, 1, 0x17, 0x70, 0x13,
    0x88, 0, 8, 0, 0, 60, 0, 0, 0, //
];

// The replies to additions of no event, of one, of two, and of two that make two messages with those before.
pub(crate) const NO_EVENT: &str = added!(0, 0, 0, 0);

pub(crate) const ONE_EVENT: &str = added!(1, 0, 0, 0);

pub(crate) const TWO_EVENTS: &str = added!(2, 0, 0, 0);

pub(crate) const TWO_MESSAGES: &str = added!(2, 2, 0, 0);

// The replies to `merge` and to `problem` when both hosts' traces were added, whether they are logs or captures.
pub(crate) const MERGED: &str =
    "merge 4\n0.000000000 a#1\n10.000000000 b#1\n60.000000000 b#2\n80.000000000 a#2\n";

// A capture of the first host in two pieces, and the one of the other.
pub(crate) fn put_cut(
    files: &mut MemFiles,
    capture: &[u8],
    cut: usize,
) -> Result<bool, AllocError> {
    if cut > capture.len() {
        return Ok(false);
    }
    let (front, back) = capture.split_at(cut);
    files.put("front", front)?;
    files.put("back", back)?;
    files.put("b", &CAPTURE_B)?;
    Ok(true)
}

// What a session does with a line, its steps counted from none on.
fn step_counted<F: Files, L: Ledger>(
    session: &mut Session,
    files: &mut F,
    line: &[u8],
    out: &mut MemSink,
    blank: Blank,
) -> Result<(), Stop>
    requires short { length line.now ≤ 4_096 }
    requires ready { IsReady session.old }
    requires blank { (blank.name ≡ L.name) × (blank.parts ≡ L.parts) × (0 < L.parts) }
{
    let mut steps = Steps::<L>::open(blank);
    session.step(line, files, out, &mut steps)
}

// What a session does with a line, and whether it is short enough to be one and the session ready.
pub(crate) fn step<F: Files>(
    session: &mut Session,
    files: &mut F,
    line: &str,
    out: &mut MemSink,
) -> Result<bool, Stop> {
    if line.len() > 4_096 || !session.is_ready() {
        return Ok(false);
    }
    step_counted::<F, Brand>(session, files, line.as_bytes(), out, Blank::new(1))?;
    Ok(true)
}

// Whether a line is answered by this reply, behind what was wanted so far.
fn is_answered(
    session: &mut Session,
    files: &mut MemFiles,
    line: &str,
    reply: &str,
    wanted: &mut Vec<u8>,
    out: &mut MemSink,
) -> Result<bool, Stop> {
    let is_line = step(session, files, line, out)?;
    wanted.extend_from_slice(reply.as_bytes())?;
    Ok(is_line && out.bytes() == wanted.as_slice())
}

// Whether each line is answered by its reply.
fn are_answered(
    session: &mut Session,
    files: &mut MemFiles,
    lines: &[(&str, &str)],
    wanted: &mut Vec<u8>,
    out: &mut MemSink,
) -> Result<bool, Stop> {
    for (line, reply) in lines {
        if !is_answered(session, files, line, reply, wanted, out)? {
            return Ok(false);
        }
    }
    Ok(true)
}

// The same over a sink.
fn answers_into(
    alloc: Global,
    session: &mut Session,
    files: &mut MemFiles,
    lines: &[(&str, &str)],
    out: &mut MemSink,
) -> Result<bool, Stop> {
    let mut wanted = Vec::new(alloc);
    are_answered(session, files, lines, &mut wanted, out)
}

// Whether a session gives these replies.
pub(crate) fn answers(
    alloc: Global,
    session: &mut Session,
    files: &mut MemFiles,
    lines: &[(&str, &str)],
) -> Result<bool, Stop> {
    let mut out = MemSink::new(alloc, 5_000, 7, &[])?;
    answers_into(alloc, session, files, lines, &mut out)
}

// A session over a declaration by its text.
pub(crate) fn session_over(alloc: Global, declaration: &str) -> Result<Option<Session>, Stop> {
    match read_decl(alloc, declaration.as_bytes()) {
        Ok(decl) => Ok(Some(Session::new(alloc, decl)?)),
        Err(_) => Ok(None),
    }
}

// Whether a session over these files gives these replies.
pub(crate) fn replies_over(
    alloc: Global,
    declaration: &str,
    files: &mut MemFiles,
    lines: &[(&str, &str)],
) -> Result<bool, Stop> {
    match session_over(alloc, declaration)? {
        Some(mut session) => answers(alloc, &mut session, files, lines),
        None => Ok(false),
    }
}
