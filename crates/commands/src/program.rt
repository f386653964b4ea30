// The program's one call.
ghost use Rattle.std.specs.Prelude.{◌≡◌, ◌<◌};
ghost use Rattle.ports.specs.Files.{Keeps};
ghost use Rattle.session.specs.Script.{devices};
ghost use Rattle.commands.specs.Asked.{asked_of, seen_request, ReadsNoFile, ReadsNoScript};
ghost use Rattle.commands.specs.Runs.{Answers, Notes};
ghost use Rattle.commands.specs.Complete.{IsLawfulInput, IsFaultless, IsAnswered};

use crate::dated::{mergecap_dated, mergecap_since};
use crate::declaration::DeclFile;
use crate::help::{help, usage, version};
use crate::merged::mergecap;
use crate::request::{Request, request_of};
use crate::sessions::session;
use crate::trials::trial;
use atto::Steps;
use ports::{Files, Sink, Source, Words};
use problem::problem_answers_are_one;
use problem_commands::Status;
use problem_commands::blame::blame;
use problem_commands::ends::{TwoNames, ends};
use problem_commands::judge::judge;
use problem_commands::last_line::finish;
use problem_commands::obey::obey;
use problem_commands::solve::solve;
use problem_commands::thin::thin;
use problem_commands::verify::verify;
use problem_commands::what_words::WhatWords;
use problem_commands::widening::widen;
use std::alloc::Global;
use std::marker::Brand;
use std::sync::ledger::{Blank, Ledger};

// What is asked for, with the memory for it.
#[derive(Clone, Copy)]
struct Task<'a> {
    alloc: Global,
    request: Request<'a>,
}

// Does what is asked for, and counts its steps by this ledger.
fn run_counted<F: Files, I: Source, O: Sink, N: Sink, L: Ledger>(
    task: Task<'_>,
    files: &mut F,
    input: &mut I,
    out: &mut O,
    notes: &mut N,
    blank: Blank,
) -> Status
    requires { (blank.name ≡ L.name) × (blank.parts ≡ L.parts) × (0 < L.parts) }
    ensures answers { Answers (seen_request task.entry.request) (devices (F.told files.old) (I.told input.old) (O.told out.old)) (devices (F.told files.new) (I.told input.new) (O.told out.new)) result }
    ensures notes { Notes (seen_request task.entry.request) (devices (F.told files.old) (I.told input.old) (O.told out.old)) (devices (F.told files.new) (I.told input.new) (O.told out.new)) (N.told notes.old) (N.told notes.new) result }
    ensures files { Keeps (F.told files.old) (F.told files.new) }
    ensures unread { ReadsNoFile (seen_request task.entry.request) → F.told files.new ≡ F.told files.old }
    ensures input { ReadsNoScript (seen_request task.entry.request) → I.told input.new ≡ I.told input.old }
{
    let mut steps = Steps::<L>::open(blank);
    let alloc = task.alloc;
    match task.request {
        Request::Obey { problem, exec } => obey(alloc, files, problem, exec, out),
        Request::Solve { problem } => solve(alloc, files, problem, out, &mut steps),
        Request::Ends {
            problem,
            first,
            second,
        } => {
            let names = TwoNames { first, second };
            ends(alloc, files, problem, &names, out, &mut steps)
        }
        Request::Verify { problem, cert } => verify(alloc, files, problem, cert, out),
        Request::Session { decl } => session(alloc, files, decl, input, out, &mut steps),
        Request::Trial { number } => trial(alloc, number, out, &mut steps),
        Request::WidenLinks { problem, kind } => {
            let what = WhatWords::Links(kind);
            widen(alloc, files, problem, &what, out, &mut steps)
        }
        Request::WidenClocks { problem, kind } => {
            let what = WhatWords::Clocks(kind);
            widen(alloc, files, problem, &what, out, &mut steps)
        }
        Request::WidenGaps { problem } => {
            widen(alloc, files, problem, &WhatWords::Gaps, out, &mut steps)
        }
        Request::WidenLink {
            problem,
            kind,
            from,
            to,
        } => {
            let what = WhatWords::Link { kind, from, to };
            widen(alloc, files, problem, &what, out, &mut steps)
        }
        Request::WidenClock {
            problem,
            kind,
            clock,
        } => {
            let what = WhatWords::Clock { kind, clock };
            widen(alloc, files, problem, &what, out, &mut steps)
        }
        Request::Judge { problem, widening } => judge(alloc, files, problem, widening, out),
        Request::Blame { problem } => blame(alloc, files, problem, out, &mut steps),
        Request::Thin { problem, words } => thin(alloc, files, problem, words, out),
        Request::Mergecap { decl } => {
            let file = DeclFile { alloc, path: decl };
            mergecap(&file, files, input, out, &mut steps, notes)
        }
        Request::MergeDated { decl } => {
            let file = DeclFile { alloc, path: decl };
            mergecap_dated(&file, files, input, out, &mut steps, notes)
        }
        Request::MergeSince { decl, event } => {
            let file = DeclFile { alloc, path: decl };
            mergecap_since(&file, event, files, input, out, &mut steps, notes)
        }
        Request::Help => finish(help(), Status::Done, out),
        Request::Version => finish(version(), Status::Done, out),
        Request::Nothing => finish(usage(), Status::Usage, out),
    }
}

/// Does what the words say: reads the files that they name, prints the answer, and says how it ended.
///
/// `obey PROBLEM EXEC` reads and judges the problem before it reads the execution, and says whether that is one; `solve
/// PROBLEM` prints the certificate of the earliest execution, or of a contradiction where there is none; `ends PROBLEM
/// P Q` prints the least and the greatest difference of the real times of two events over all executions, and their
/// order, or a contradiction; `verify PROBLEM CERT` says whether a certificate of the problem shows what it should, or
/// the first reason why not; `session DECL` answers the lines of the input, one after another, in a session over the
/// declaration; `trial N` makes a workload by its number, and prints how many events and messages a session over it has
/// at its end, and its replies to the last questions for intervals; `widen PROBLEM WHAT..` prints the least widening of
/// what the words name of the problem, of all greatest delays without any, with what shows it from both sides, or that
/// there is none; `judge PROBLEM WIDENING` says whether such a text shows what it should, or the first reason why not;
/// `blame PROBLEM` prints by how much all delays, stamps, rates or gaps, or those of one clock or of the messages from
/// one clock to another, must be widened at least so that this alone heals a contradiction; `thin PROBLEM P..` prints a
/// problem of some of its events and messages, with the events of the names P among them, that has the same greatest
/// difference of each two events that it has, and an execution exactly where the whole one has; `mergecap DECL` adds
/// what the lines of the input say, each an `add`, in a session over the declaration, and prints the packets of all
/// captures as one, in the order of their events' times, with a third word `pcapng` as a file of pcapng, with their
/// dates, and with how long each was after the event that a fourth word names, or without one after the first event of
/// all; `--help` prints the commands, each with what it is for, `--version` the number of the version.
///
/// `Usage` comes where the words are of no form, `BadDecl`, `BadProblem`, `BadExec` and `BadCert` where a text is
/// refused, `UnknownName` where the problem has no event or no clock of a name, `ReadFault` where a named file is not
/// there or a read failed, `ScriptLimit` where the input of a session or of a merge is too long, `NoMerge` where there
/// is no merge, with one line that says why, `WriteFault` where a write failed, `Memory` where memory ran out, and else
/// `Done` or `No` with the answer. Beside `WriteFault` a front of what was to be printed stands written; beside
/// `Memory` nothing, but in a session the replies to the lines before one that may ask for memory. No command but
/// `session` and `mergecap` reads the input, and `trial` reads no file, nor is one read where the words are of no form.
///
/// Beside a merge, a line `LABEL pending B` in `notes` tells how many bytes stand behind the last whole record or block
/// of a capture, and a line `LABEL passed simple S obsolete O other X` how many of its packets were passed over. A
/// write to `notes` that fails changes neither the status nor what is printed. Nothing else is written there.
///
/// Where the words are of a form, no file that they name is absent or refused, events and clocks by name are ones of
/// the problem, the input of a session or of a merge is not too long, and no count of faults rose, nothing ends the run
/// but `Done`, `No`, `Memory` and, in a merge, `NoMerge` (`complete`); what is printed with them, and when which of
/// them comes, the clause of the form says.
pub fn run<F: Files, I: Source, O: Sink, N: Sink>(
    alloc: Global,
    words: &Words,
    files: &mut F,
    input: &mut I,
    out: &mut O,
    notes: &mut N,
) -> Status
    ensures answers { Answers (asked_of words.now) (devices (F.told files.old) (I.told input.old) (O.told out.old)) (devices (F.told files.new) (I.told input.new) (O.told out.new)) result }
    ensures notes { Notes (asked_of words.now) (devices (F.told files.old) (I.told input.old) (O.told out.old)) (devices (F.told files.new) (I.told input.new) (O.told out.new)) (N.told notes.old) (N.told notes.new) result }
    ensures files { Keeps (F.told files.old) (F.told files.new) }
    ensures unread { ReadsNoFile (asked_of words.now) → F.told files.new ≡ F.told files.old }
    ensures input { ReadsNoScript (asked_of words.now) → I.told input.new ≡ I.told input.old }
    ensures complete { let old = devices (F.told files.old) (I.told input.old) (O.told out.old) in let new = devices (F.told files.new) (I.told input.new) (O.told out.new) in
        IsLawfulInput (asked_of words.now) old.files.content old.input.left → IsFaultless old new → IsAnswered result }
{
    // It tells that a text of a problem has one answer.
    problem_answers_are_one();
    let request = request_of(words);
    let task = Task { alloc, request };
    run_counted::<F, I, O, N, Brand>(task, files, input, out, notes, Blank::new(1))
}
