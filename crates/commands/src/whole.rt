// Runs to the end of their output: what is held of it is passed on.
ghost use Rattle.std.specs.Prelude.{◌≡◌, true, false};
ghost use Rattle.session.specs.Script.{devices};
ghost use Rattle.problem_commands.specs.declared.status.Status.TheVariants.{WriteFault};
ghost use Rattle.commands.specs.Runs.{EndsSo};

use crate::program::run;
use ports::{Files, Gathering, Sink, Source, Words};
use problem_commands::Status;
use std::alloc::Global;

// Whether the words are those of a session, whose replies are waited for one by one.
fn is_session(words: &Words) -> bool {
    words.len() == 2 && words.word(0) == "session"
}

// How a run with this status ends, by whether what it held could be passed on.
fn ended(status: Status, is_passed: bool) -> Status
    ensures passed { is_passed ≡ true → result ≡ status }
    ensures lost { is_passed ≡ false → result ≡ WriteFault }
{
    if is_passed {
        status
    } else {
        Status::WriteFault
    }
}

/// Does what the words say, as `run` does, over an output that is handed over, and gives that back with the status.
///
/// The replies of `session` are written one by one, before the next line is read. What any other command prints is held
/// in pieces of 64 KiB, and the last one is passed on at the end: then all that was printed stands written, or the
/// status is `WriteFault` and a front of it does. Notes are written at once.
pub fn run_to_end<F: Files, I: Source, O: Sink + Drop, N: Sink>(
    alloc: Global,
    words: &Words,
    files: &mut F,
    input: &mut I,
    out: O,
    notes: &mut N,
) -> (O, Status)
    ensures { EndsSo words.now (devices (F.told files.old) (I.told input.old) (O.told out)) (devices (F.told files.new) (I.told input.new) (O.told result.0)) (N.told notes.old) (N.told notes.new) result.1 }
{
    if is_session(words) {
        let mut each = out;
        let status = run(alloc, words, files, input, &mut each, notes);
        return (each, status);
    }
    let mut gathering = Gathering::new(alloc, out);
    let status = run(alloc, words, files, input, &mut gathering, notes);
    let (below, passed) = gathering.finish();
    (below, ended(status, passed.is_ok()))
}
