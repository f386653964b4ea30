//! Finds the earliest execution that declared bounds allow, or a contradiction of them, judges executions and
//! certificates, and answers questions about event logs and packet captures.
#![tactic(auto)]

mod waiting;

use crate::waiting::Waiting;
use commands::run_to_end;
use ports::{DiskFiles, StdSink, StdSource, Words};
use problem_commands::Status;
use std::io::ErrorKind;
use std::process::ExitCode;
use std::{env, io};

// The words after the program's name.
fn words_of(rt: &HostRuntime) -> io::Result<Words> {
    let mut words = Words::new(rt.alloc());
    for word in env::args(rt)?.skip(1) {
        words.push(word.as_str())?;
    }
    Ok(words)
}

// Runs the command over the files, the standard input, the standard output and the standard error.
fn run_over_host(rt: &HostRuntime, words: &Words) -> Status {
    let mut files = DiskFiles::new(rt.alloc(), rt);
    let mut input = StdSource::new(Waiting::new(rt.reader(), rt, "/proc/self/fd/0"));
    let out = StdSink::new(Waiting::new(io::writer(rt), rt, "/proc/self/fd/1"));
    let mut notes = StdSink::new(Waiting::new(rt.stderr(), rt, "/proc/self/fd/2"));
    run_to_end(rt.alloc(), words, &mut files, &mut input, out, &mut notes).1
}

fn main(rt: HostRuntime) -> ExitCode {
    // A word that is no text is of no form.
    let words = match words_of(&rt) {
        Ok(words) => words,
        Err(error) if error.kind() == ErrorKind::OutOfMemory => {
            return ExitCode::from(Status::Memory.code());
        }
        Err(_) => Words::new(rt.alloc()),
    };
    ExitCode::from(run_over_host(&rt, &words).code())
}
