// A session over a log of some thousand rows.
use crate::runs::{Script, Wanted, answers};
use atto::{NsText, write_decimal};
use ports::{MemFiles, MemSink};
use problem_commands::Status;
use shared_fixtures::replies;
use std::alloc::{AllocError, Global};
use std::test::Fail;

// One host with a log.
const ONE_LOG_DECLARATION: &str = "[hosts.a]\n[labels.a]\nhost = \"a\"\nkind = \"log\"\n";

// Appends the row of an event with this stamp.
fn push_row(log: &mut Vec<u8>, stamp: u64) -> Result<(), AllocError> {
    let mut digits = NsText::new();
    write_decimal(stamp, &mut digits);
    log.extend_from_slice(digits.as_slice())?;
    log.extend_from_slice(b",local,,\n")
}

// Appends the rows of so many events, each 1 ns behind the one before it.
fn push_rows(log: &mut Vec<u8>, rows: u64) -> Result<(), AllocError> {
    for stamp in 0..rows {
        push_row(log, stamp)?;
    }
    Ok(())
}

// Puts a log of so many events.
fn put_log(alloc: Global, rows: u64, files: &mut MemFiles) -> Result<(), AllocError> {
    let mut log = Vec::new(alloc);
    push_rows(&mut log, rows)?;
    files.put("a.csv", &log)
}

// Whether a session over these files adds the log and tells how far its last event is behind its first one.
fn adds_so(alloc: Global, wanted: &Wanted<'_>, files: &mut MemFiles) -> Result<bool, AllocError> {
    let mut out = MemSink::new(alloc, 900, 300, &[])?;
    let script = Script {
        text: b"add a a.csv\ninterval a#1 a#3000\n",
        fails: &[],
    };
    answers(alloc, wanted, files, &script, &mut out)
}

// The same over a declaration of one host, and a log of 3,000 events.
fn is_answered(alloc: Global, wanted: &Wanted<'_>) -> Result<bool, AllocError> {
    let mut files = MemFiles::new(alloc, &[])?;
    files.put("d", ONE_LOG_DECLARATION.as_bytes())?;
    put_log(alloc, 3_000, &mut files)?;
    adds_so(alloc, wanted, &mut files)
}

#[test]
fn log_of_thousands_of_rows(rt: HostRuntime) -> Result<(), Fail> {
    let wanted = Wanted {
        words: &["session", "d"],
        status: Status::Done,
        printed: replies!(
            added(3000, 0, 0, 0),
            "interval 2999.000000000 2999.000000000\n"
        ),
    };
    assert!(rt; is_answered(rt.alloc(), &wanted)?);
    Ok(())
}
