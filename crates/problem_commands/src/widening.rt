// Finds the least widening of a problem.
ghost use Rattle.ports.specs.Files.{Keeps};
ghost use Rattle.widen.specs.Named.{NamesWhat};
ghost use Rattle.widen.specs.Found.{FindsWidening};
ghost use Rattle.problem_commands.specs.Printing.{Prints};
ghost use Rattle.problem_commands.specs.WhatWords.{asked_words};
ghost use Rattle.problem_commands.specs.Widening.{TellsLeast, TellsLeastNamed, WideningFound};

use crate::last_line::{finish, stop};
use crate::status::Status;
use crate::texts::problem_in;
use crate::what_words::{WhatWords, asked_in};
use atto::Steps;
use cert_check::What;
use ports::{Failed, Files, Sink};
use problem::Problem;
use std::alloc::Global;
use std::sync::ledger::Ledger;
use widen::{Widening, least_widening, write_widening};

// Prints the text of what was found, and answers the status.
fn print_widening<O: Sink>(p: &Problem, what: What, w: &Widening, out: &mut O) -> Status
    requires named { NamesWhat p.now what }
    requires found { FindsWidening what p.now w.now }
    ensures { Prints (TellsLeast p.now what) (O.told out.old) (O.told out.new) result }
{
    // It tells that the problem is lawful.
    let _ = p.events();
    match write_widening(p, what, w, out) {
        Ok(()) => Status::Done,
        Err(Failed) => Status::WriteFault,
    }
}

// Finds and prints the least widening of a problem.
fn answer<O: Sink, L: Ledger>(
    alloc: Global,
    p: &Problem,
    what: What,
    out: &mut O,
    steps: &mut Steps<L>,
) -> Status
    requires { NamesWhat p.now what }
    ensures { Prints (TellsLeast p.now what) (O.told out.old) (O.told out.new) result }
{
    match least_widening(alloc, p, what, steps) {
        Ok(w) => print_widening(p, what, &w, out),
        Err(_) => Status::Memory,
    }
}

// Finds and prints the least widening of what the words name.
fn answer_named<O: Sink, L: Ledger>(
    alloc: Global,
    p: &Problem,
    words: &WhatWords,
    out: &mut O,
    steps: &mut Steps<L>,
) -> Status
    ensures { Prints (TellsLeastNamed p.now (asked_words words.now)) (O.told out.old) (O.told out.new) result }
{
    match asked_in(p, words) {
        Some(what) => answer(alloc, p, what, out, steps),
        None => finish(b"unknown clock\n", Status::UnknownName, out),
    }
}

/// The least widening of what the words name of the problem in a file.
pub fn widen<F: Files, O: Sink, L: Ledger>(
    alloc: Global,
    files: &mut F,
    problem: &str,
    words: &WhatWords,
    out: &mut O,
    steps: &mut Steps<L>,
) -> Status
    ensures found { Prints (WideningFound problem.now (asked_words words.now) (F.told files.old) (F.told files.new)) (O.told out.old) (O.told out.new) result }
    ensures keeps { Keeps (F.told files.old) (F.told files.new) }
{
    match problem_in(alloc, files, problem) {
        Ok(p) => answer_named(alloc, &p, words, out, steps),
        Err(unread) => stop(unread, b"problem", Status::BadProblem, out),
    }
}
