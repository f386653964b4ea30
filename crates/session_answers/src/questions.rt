// Questions about events, by their names.
ghost use Rattle.std.specs.Prelude.{◌≡◌, ◌⊎◌, ◌≤◌, ◌<◌, ℕ, List, Option, IfSome};
ghost use Rattle.problem_model.specs.Problem.{ProblemLists};
ghost use Rattle.ports.specs.Content.{Writes};
ghost use Rattle.row_pool.specs.Pool.{free_rows};
ghost use Rattle.roster.specs.Roster.{listed};
ghost use Rattle.solver.specs.Changes.{LeavesAnswer};
ghost use Rattle.solver.specs.Solution.{IsSolutionBy};
ghost use Rattle.queries.specs.Clocks.{KeepsTime};
ghost use Rattle.queries.specs.Replies.{IsComparisonLine, IsProofText};
ghost use Rattle.replies.specs.Reply.{IsTimeReply, OfOne, OfTwo};
ghost use Rattle.session_answers.specs.Ready.{KeepsSource};
ghost use Rattle.session_answers.specs.Keeping.{HasSlotBy};

use crate::events::{TwoNames, find_event, two_events};
use atto::{Nano, Steps};
use ports::{Failed, Sink};
use queries::{Asked, Comparison, write_comparison, write_proof, write_time};
use replies::{Refusal, write_refusal};
use roster::Roster;
use solver::Solver;
use std::sync::ledger::Ledger;

/// Writes what is asked of two events, or the refusal where there is no such event. `Failed` comes only where a write fails.
pub fn ask_comparison<O: Sink, L: Ledger>(
    names: &Roster,
    solver: &mut Solver,
    asked: Asked,
    events: &TwoNames,
    out: &mut O,
    steps: &mut Steps<L>,
) -> Result<(), Failed>
    requires solution { (p : ProblemLists) × IsSolutionBy (listed names.now) p solver.old }
    requires free { 2 ≤ free_rows solver.old.pool }
    ensures writes { (p : ProblemLists) → IsSolutionBy (listed names.now) p solver.old
        → (text : List ℕ) × OfTwo p events.now.first.now events.now.second.now (IsComparisonLine asked p) text × Writes text (O.told out.old) (O.told out.new) result }
    ensures leaves { LeavesAnswer solver.old solver.new }
    ensures steps { HasSlotBy names.now solver.old events.now.first.now ⊎ HasSlotBy names.now solver.old events.now.second.now → steps.new ≡ steps.old }
{
    match two_events(names, events) {
        Some((from, to)) => {
            let question = Comparison {
                asked,
                first: from,
                second: to,
            };
            write_comparison(names, solver, question, out, steps)
        }
        None => write_refusal(Refusal::UnknownEvent, out),
    }
}

/// Writes the certificate of the interval from the first event to the second, or the refusal where there is no such event.
/// `Failed` comes only where a write fails.
pub fn ask_proof<O: Sink, L: Ledger>(
    names: &Roster,
    solver: &mut Solver,
    events: &TwoNames,
    out: &mut O,
    steps: &mut Steps<L>,
) -> Result<(), Failed>
    requires solution { (p : ProblemLists) × IsSolutionBy (listed names.now) p solver.old }
    requires free { 2 ≤ free_rows solver.old.pool }
    ensures writes { (p : ProblemLists) → IsSolutionBy (listed names.now) p solver.old
        → (text : List ℕ) × OfTwo p events.now.first.now events.now.second.now (IsProofText p) text × Writes text (O.told out.old) (O.told out.new) result }
    ensures leaves { LeavesAnswer solver.old solver.new }
    ensures steps { HasSlotBy names.now solver.old events.now.first.now → steps.new ≡ steps.old }
{
    match two_events(names, events) {
        Some((from, to)) => write_proof(names, solver, from, to, out, steps),
        None => write_refusal(Refusal::UnknownEvent, out),
    }
}

/// Writes the time of an event by the source's clock, whose reading with kept rows has this stamp, in ns; or the
/// refusal where there is no such event, or no source with a reading. `Failed` comes only where a write fails.
pub fn ask_time<O: Sink>(
    names: &Roster,
    solver: &Solver,
    source: Option<Nano>,
    event: &[u8],
    out: &mut O,
) -> Result<(), Failed>
    requires { (p : ProblemLists) × IsSolutionBy (listed names.now) p solver.now × ((declared : Option ℕ) × KeepsSource (listed names.now) p declared source solver.now) }
    ensures { (p : ProblemLists) (declared : Option ℕ) → IsSolutionBy (listed names.now) p solver.now → IfSome declared (λ clock. KeepsTime p clock)
        → KeepsSource (listed names.now) p declared source solver.now
        → (text : List ℕ) × OfOne p event.now (IsTimeReply p declared) text × Writes text (O.told out.old) (O.told out.new) result }
{
    match find_event(names, event) {
        Some((_, node)) => match source {
            Some(stamp) => write_time(names, solver, stamp, node, out),
            None => write_refusal(Refusal::NoSourceTime, out),
        },
        None => write_refusal(Refusal::UnknownEvent, out),
    }
}
