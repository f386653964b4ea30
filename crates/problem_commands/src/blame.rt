// Tells by how much each candidate must be widened, so that it heals a contradiction by itself.
ghost use Rattle.ports.specs.Files.{Keeps};
ghost use Rattle.problem_commands.specs.Printing.{Prints};
ghost use Rattle.problem_commands.specs.Blame.{TellsBlame, Blamed};

use crate::last_line::{finish, stop};
use crate::status::Status;
use crate::texts::problem_in;
use atto::Steps;
use ports::{Files, Sink};
use problem::Problem;
use std::alloc::Global;
use std::sync::ledger::Ledger;
use widen::blame_text;

// Finds and prints the text of a problem.
fn answer<O: Sink, L: Ledger>(
    alloc: Global,
    p: &Problem,
    out: &mut O,
    steps: &mut Steps<L>,
) -> Status
    ensures { Prints (TellsBlame p.now) (O.told out.old) (O.told out.new) result }
{
    match blame_text(alloc, p, steps) {
        Ok(text) => finish(&text, Status::Done, out),
        Err(_) => Status::Memory,
    }
}

/// By how much each candidate of the problem in a file must be widened, so that it heals by itself.
pub fn blame<F: Files, O: Sink, L: Ledger>(
    alloc: Global,
    files: &mut F,
    problem: &str,
    out: &mut O,
    steps: &mut Steps<L>,
) -> Status
    ensures blamed { Prints (Blamed problem.now (F.told files.old) (F.told files.new)) (O.told out.old) (O.told out.new) result }
    ensures keeps { Keeps (F.told files.old) (F.told files.new) }
{
    match problem_in(alloc, files, problem) {
        Ok(p) => answer(alloc, &p, out, steps),
        Err(unread) => stop(unread, b"problem", Status::BadProblem, out),
    }
}
