// Judges an execution by the bounds of a problem.
ghost use Rattle.ports.specs.Files.{Keeps};
ghost use Rattle.problem_commands.specs.Printing.{Prints};
ghost use Rattle.problem_commands.specs.Obey.{NamesVerdict, TellsVerdict, Obeyed};

use crate::last_line::{finish, stop};
use crate::print::broken_line;
use crate::status::Status;
use crate::texts::{execution_in, problem_in};
use cert_check::{Verdict, obeys};
use ports::{Files, Sink};
use problem::Problem;
use std::alloc::Global;

// Prints a verdict, and answers the status.
fn answer<O: Sink>(p: &Problem, verdict: &Verdict, out: &mut O) -> Status
    requires { NamesVerdict p.now verdict.now }
    ensures { Prints (TellsVerdict p.now verdict.now) (O.told out.old) (O.told out.new) result }
{
    match *verdict {
        Verdict::Obeys => finish(b"obeys\n", Status::Done, out),
        Verdict::Broken {
            bound,
            weight,
            difference,
        } => finish(
            broken_line(p, &bound, weight, difference).as_slice(),
            Status::No,
            out,
        ),
    }
}

/// Whether the execution in one file obeys the problem in another.
pub fn obey<F: Files, O: Sink>(
    alloc: Global,
    files: &mut F,
    problem: &str,
    exec: &str,
    out: &mut O,
) -> Status
    ensures obeyed { Prints (Obeyed problem.now exec.now (F.told files.old) (F.told files.new)) (O.told out.old) (O.told out.new) result }
    ensures keeps { Keeps (F.told files.old) (F.told files.new) }
{
    let p = match problem_in(alloc, files, problem) {
        Ok(p) => p,
        Err(unread) => return stop(unread, b"problem", Status::BadProblem, out),
    };
    // It tells that the problem is lawful.
    let _ = p.events();
    let e = match execution_in(alloc, files, exec, &p) {
        Ok(e) => e,
        Err(unread) => return stop(unread, b"execution", Status::BadExec, out),
    };
    answer(&p, &obeys(&p, &e), out)
}
