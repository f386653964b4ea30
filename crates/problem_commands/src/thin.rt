// Prints what is kept of a problem when messages that others imply are left out.
ghost use Rattle.std.specs.Prelude.{◌≡◌, ℕ, List, IfOk, IfErr, All, drop};
ghost use Rattle.ports.specs.Files.{Keeps};
ghost use Rattle.thinning.specs.Kept.{event_marks, message_marks, FitsTo};
ghost use Rattle.thinning.specs.Named.{IsKnown, AreNamed, IsThinnedFor, IsUnfound};
ghost use Rattle.problem_commands.specs.Printing.{Prints};
ghost use Rattle.problem_commands.specs.Thin.{TellsThin, ProblemThinned};

use crate::last_line::{finish, stop};
use crate::status::Status;
use crate::texts::problem_in;
use ports::{Failed, Files, Sink, Words};
use problem::Problem;
use std::alloc::Global;
use thinning::{Thinned, Unfound, event_named, thin as thinned, write_thinned};

// The places of the events that the words behind the first two name.
fn events_of(alloc: Global, p: &Problem, words: &Words) -> Result<Vec<u32>, Unfound>
    ensures ok { IfOk result (λ places. AreNamed p.now (drop 2 words.now) places.items) }
    ensures err { IfErr result (IsUnfound p.now (drop 2 words.now)) }
{
    let mut places = Vec::new(alloc);
    for k in 2..words.len() {
        match event_named(p, words.word(k).as_bytes()) {
            Some(place) => places.push(place)?,
            None => return Err(Unfound::Unknown),
        }
    }
    Ok(places)
}

// Prints the text of what is kept, and answers the status.
fn print_kept<O: Sink>(p: &Problem, kept: &Thinned, out: &mut O) -> Status
    requires { FitsTo p.now kept.now }
    ensures { (names : List (List ℕ)) → All (IsKnown p.now) names → IsThinnedFor p.now names (event_marks kept.now) (message_marks kept.now) → Prints (TellsThin p.now names) (O.told out.old) (O.told out.new) result }
{
    match write_thinned(p, kept, out) {
        Ok(()) => Status::Done,
        Err(Failed) => Status::WriteFault,
    }
}

// Thins a problem but for the events that the words behind the first two name, and prints what is kept.
fn answer<O: Sink>(alloc: Global, p: &Problem, words: &Words, out: &mut O) -> Status
    ensures { Prints (TellsThin p.now (drop 2 words.now)) (O.told out.old) (O.told out.new) result }
{
    let asked = match events_of(alloc, p, words) {
        Ok(asked) => asked,
        Err(Unfound::Unknown) => return finish(b"unknown event\n", Status::UnknownName, out),
        Err(Unfound::Memory) => return Status::Memory,
    };
    match thinned(alloc, p, &asked) {
        Ok(kept) => print_kept(p, &kept, out),
        Err(_) => Status::Memory,
    }
}

/// What is kept of the problem in a file when messages that others imply are left out, but for those of the events that
/// the words behind the first two name.
pub fn thin<F: Files, O: Sink>(
    alloc: Global,
    files: &mut F,
    problem: &str,
    words: &Words,
    out: &mut O,
) -> Status
    ensures thinned { Prints (ProblemThinned problem.now (drop 2 words.now) (F.told files.old) (F.told files.new)) (O.told out.old) (O.told out.new) result }
    ensures keeps { Keeps (F.told files.old) (F.told files.new) }
{
    match problem_in(alloc, files, problem) {
        Ok(p) => answer(alloc, &p, words, out),
        Err(unread) => stop(unread, b"problem", Status::BadProblem, out),
    }
}
