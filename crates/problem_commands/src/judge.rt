// Judges a widening of a problem.
ghost use Rattle.std.specs.Prelude.{IfOk, IfErr};
ghost use Rattle.ports.specs.Files.{HasBytes, Keeps};
ghost use Rattle.widen.specs.declared.widening.StatedWidening.{StatedWidening};
ghost use Rattle.widen.specs.JudgedText.{IsJudgedAs};
ghost use Rattle.problem_commands.specs.Printing.{Prints};
ghost use Rattle.problem_commands.specs.Unread.{IsUnread, IsRefusedFor};
ghost use Rattle.problem_commands.specs.Widening.{SpellsWidening, RefusesWidening, WideningJudged};

use crate::last_line::stop;
use crate::status::Status;
use crate::texts::{Unread, problem_in, text_in, unread_cert};
use crate::verify::answer;
use cert_check::Answer;
use ports::{Files, Sink};
use problem::Problem;
use std::alloc::Global;
use widen::judge_text;

// What judging the widening answers that a text spells.
fn judged_of(alloc: Global, p: &Problem, text: &[u8]) -> Result<Answer, Unread>
    ensures ok { IfOk result (λ answer. (s : StatedWidening) × SpellsWidening p.now s.what s.widening text.now × IsJudgedAs s.what p.now s.widening answer) }
    ensures err { IfErr result (IsRefusedFor (RefusesWidening p.now) text.now) }
{
    // It tells what the readings of the problem are.
    let _readings = p.readings();
    match judge_text(alloc, p, text) {
        Ok(answer) => Ok(answer),
        Err(error) => Err(unread_cert(error)),
    }
}

// What judging the widening in a file answers, or why there is none.
fn judged_in<F: Files>(
    alloc: Global,
    files: &mut F,
    path: &str,
    p: &Problem,
) -> Result<Answer, Unread>
    ensures ok { IfOk result (λ answer. (s : StatedWidening) × HasBytes (F.told files.old).content path.now (SpellsWidening p.now s.what s.widening) × IsJudgedAs s.what p.now s.widening answer) }
    ensures err { IfErr result (IsUnread (RefusesWidening p.now) path.now (F.told files.old) (F.told files.new)) }
    ensures keeps { Keeps (F.told files.old) (F.told files.new) }
{
    // It tells what the readings of the problem are.
    let _readings = p.readings();
    match text_in(alloc, files, path) {
        Ok(text) => judged_of(alloc, p, &text),
        Err(unread) => Err(unread),
    }
}

/// Whether the widening in one file, of what it names, shows what it should of the problem in another.
pub fn judge<F: Files, O: Sink>(
    alloc: Global,
    files: &mut F,
    problem: &str,
    widening: &str,
    out: &mut O,
) -> Status
    ensures judged { Prints (WideningJudged problem.now widening.now (F.told files.old) (F.told files.new)) (O.told out.old) (O.told out.new) result }
    ensures keeps { Keeps (F.told files.old) (F.told files.new) }
{
    let p = match problem_in(alloc, files, problem) {
        Ok(p) => p,
        Err(unread) => return stop(unread, b"problem", Status::BadProblem, out),
    };
    // It tells that the problem is lawful.
    let _ = p.events();
    match judged_in(alloc, files, widening, &p) {
        Ok(found) => answer(&p, &found, out),
        Err(unread) => stop(unread, b"certificate", Status::BadCert, out),
    }
}
