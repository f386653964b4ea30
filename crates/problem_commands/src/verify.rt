// Checks a certificate of a problem.
ghost use Rattle.ports.specs.Files.{Keeps};
ghost use Rattle.problem_commands.specs.Printing.{Prints};
ghost use Rattle.problem_commands.specs.Verify.{NamesAnswer, TellsAnswer, Verified};

use crate::last_line::{finish, stop};
use crate::print::no_line;
use crate::status::Status;
use crate::texts::{answer_in, problem_in};
use cert_check::Answer;
use ports::{Files, Sink};
use problem::Problem;
use std::alloc::Global;

/// Prints an answer, and answers the status.
pub fn answer<O: Sink>(p: &Problem, answer: &Answer, out: &mut O) -> Status
    requires { NamesAnswer p.now answer.now }
    ensures { Prints (TellsAnswer p.now answer.now) (O.told out.old) (O.told out.new) result }
{
    match answer {
        Answer::Yes => finish(b"yes\n", Status::Done, out),
        Answer::No { part, reason } => finish(
            no_line(p, *part, reason).as_slice(),
            Status::No,
            out,
        ),
    }
}

/// Whether the certificate in one file shows what it should of the problem in another.
pub fn verify<F: Files, O: Sink>(
    alloc: Global,
    files: &mut F,
    problem: &str,
    cert: &str,
    out: &mut O,
) -> Status
    ensures verified { Prints (Verified problem.now cert.now (F.told files.old) (F.told files.new)) (O.told out.old) (O.told out.new) result }
    ensures keeps { Keeps (F.told files.old) (F.told files.new) }
{
    let p = match problem_in(alloc, files, problem) {
        Ok(p) => p,
        Err(unread) => return stop(unread, b"problem", Status::BadProblem, out),
    };
    // It tells that the problem is lawful.
    let _ = p.events();
    match answer_in(alloc, files, cert, &p) {
        Ok(found) => answer(&p, &found, out),
        Err(unread) => stop(unread, b"certificate", Status::BadCert, out),
    }
}
