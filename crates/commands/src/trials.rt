// A session over a workload that the program makes.
ghost use Rattle.std.specs.Prelude.{◌≡◌, ◌++◌, ℕ, IfSome, IfNone};
ghost use Rattle.ports.specs.Content.{Writes};
ghost use Rattle.trial_session.specs.Trial.{IsTrial};
ghost use Rattle.problem_commands.specs.Printing.{Prints};
ghost use Rattle.commands.specs.Trials.{counts_line, IsNumber, Tried, TriedBy};

use crate::help::usage;
use crate::lines::counts_line;
use atto::{Steps, read_decimal};
use ports::{Failed, Sink, write_whole};
use problem_commands::Status;
use problem_commands::last_line::finish;
use std::alloc::Global;
use std::sync::ledger::Ledger;
use trial_session::{Outcome, conduct};

// Writes the counts of a trial, and behind them its replies.
fn write_outcome<O: Sink>(number: u32, outcome: &Outcome, out: &mut O) -> Result<(), Failed>
    ensures { Writes (counts_line number outcome.now.events outcome.now.messages ++ outcome.now.replies.held) (O.told out.old) (O.told out.new) result }
{
    write_whole(
        out,
        counts_line(number, outcome.events, outcome.messages).as_slice(),
    )?;
    write_whole(out, outcome.replies.bytes())
}

// Prints what a trial came to, and answers the status.
fn tell<O: Sink>(number: u32, outcome: &Outcome, out: &mut O) -> Status
    requires { IsTrial number outcome.now.events outcome.now.messages outcome.now.replies.held }
    ensures { Prints (Tried number) (O.told out.old) (O.told out.new) result }
{
    match write_outcome(number, outcome, out) {
        Ok(()) => Status::Done,
        Err(Failed) => Status::WriteFault,
    }
}

// Goes over the workload of the trial with this number.
fn go_over<O: Sink, L: Ledger>(
    alloc: Global,
    number: u32,
    out: &mut O,
    steps: &mut Steps<L>,
) -> Status
    ensures { Prints (Tried number) (O.told out.old) (O.told out.new) result }
{
    match conduct(alloc, number, steps) {
        Ok(outcome) => tell(number, &outcome, out),
        Err(_) => Status::Memory,
    }
}

// The number of a trial by its decimal, which is below 2^32.
fn number_of(text: &str) -> Option<u32>
    ensures some { IfSome result (λ n. IsNumber n text.now) }
    ensures none { IfNone result ((n : ℕ) → IsNumber n text.now → ⊥) }
{
    match read_decimal(text.as_bytes()) {
        Ok(n) => { if n < 1 << 32 { Some(n as u32) } else { None } }
        Err(_) => None,
    }
}

/// Goes over the workload of the trial whose number this text is, and prints how many events and messages its session
/// then has, and its replies to the last questions for intervals. Where the text is no decimal below 2^32, it prints
/// the usage.
pub fn trial<O: Sink, L: Ledger>(
    alloc: Global,
    text: &str,
    out: &mut O,
    steps: &mut Steps<L>,
) -> Status
    ensures { TriedBy text.now (O.told out.old) (O.told out.new) result }
{
    match number_of(text) {
        Some(number) => go_over(alloc, number, out, steps),
        None => finish(usage(), Status::Usage, out),
    }
}
