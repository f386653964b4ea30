// Runs of the program over objects in memory. Each function makes one of them, and gives it to the next.
use commands::run;
use ports::{MemFiles, MemSink, MemSource, Words};
use problem_commands::Status;
use std::alloc::{AllocError, Global};

// Words, and what a run with them comes to.
#[derive(Clone, Copy)]
pub(crate) struct Wanted<'a> {
    pub(crate) words: &'a [&'a str],
    pub(crate) status: Status,
    pub(crate) printed: &'a str,
}

// The lines of a script, and the numbers of the reads of it that fail.
#[derive(Clone, Copy)]
pub(crate) struct Script<'a> {
    pub(crate) text: &'a [u8],
    pub(crate) fails: &'a [u32],
}

// No line.
pub(crate) const NO_SCRIPT: Script<'static> = Script {
    text: b"",
    fails: &[],
};

// How a run with these words ends.
fn status_of(
    alloc: Global,
    words: &[&str],
    files: &mut MemFiles,
    input: &mut MemSource,
    out: &mut MemSink,
    notes: &mut MemSink,
) -> Result<Status, AllocError> {
    let mut all = Words::new(alloc);
    for word in words {
        all.push(word)?;
    }
    Ok(run(alloc, &all, files, input, out, notes))
}

// How a run ends over this script, which comes in pieces of 14 bytes.
pub(crate) fn run_noted(
    alloc: Global,
    words: &[&str],
    files: &mut MemFiles,
    script: &Script<'_>,
    out: &mut MemSink,
    notes: &mut MemSink,
) -> Result<Status, AllocError> {
    let mut input = MemSource::new(alloc, script.text, 14, script.fails)?;
    status_of(alloc, words, files, &mut input, out, notes)
}

// The same where nothing is to be noted.
pub(crate) fn run_over(
    alloc: Global,
    words: &[&str],
    files: &mut MemFiles,
    script: &Script<'_>,
    out: &mut MemSink,
) -> Result<Status, AllocError> {
    let mut notes = MemSink::new(alloc, 0, 1, &[])?;
    run_noted(alloc, words, files, script, out, &mut notes)
}

// Whether a run over this script comes to what is wanted.
pub(crate) fn answers(
    alloc: Global,
    wanted: &Wanted<'_>,
    files: &mut MemFiles,
    script: &Script<'_>,
    out: &mut MemSink,
) -> Result<bool, AllocError> {
    let found = run_over(alloc, wanted.words, files, script, out)?;
    Ok(found.code() == wanted.status.code() && out.bytes() == wanted.printed.as_bytes())
}

// Whether a run without a script comes to what is wanted. Writes with these numbers fail, each of at most 7 bytes.
pub(crate) fn prints(
    alloc: Global,
    wanted: &Wanted<'_>,
    files: &mut MemFiles,
    fails: &[u32],
) -> Result<bool, AllocError> {
    let mut out = MemSink::new(alloc, 600, 7, fails)?;
    answers(alloc, wanted, files, &NO_SCRIPT, &mut out)
}

// Files with these bytes at these paths.
fn files_with(alloc: Global, files: &[(&str, &[u8])]) -> Result<MemFiles, AllocError> {
    let mut found = MemFiles::new(alloc, &[])?;
    for (path, bytes) in files {
        found.put(path, bytes)?;
    }
    Ok(found)
}

// How many rows, from the first on, come out as they say over these files: words, the writes that fail, the status, and
// what is printed.
pub(crate) fn rows_right(
    alloc: Global,
    files: &[(&str, &[u8])],
    rows: &[(&[&str], &[u32], Status, &str)],
) -> Result<usize, AllocError> {
    for (place, (words, fails, status, printed)) in rows.iter().enumerate() {
        let wanted = Wanted {
            words: *words,
            status: *status,
            printed: *printed,
        };
        let mut held = files_with(alloc, files)?;
        if !prints(alloc, &wanted, &mut held, fails)? {
            return Ok(place);
        }
    }
    Ok(rows.len())
}
