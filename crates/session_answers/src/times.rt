// The times of all events.
ghost use Rattle.std.specs.Prelude.{◌≡◌, ◌≤◌, ℕ, List, Option, IfSome, option_map};
ghost use Rattle.problem_model.specs.Problem.{ProblemLists};
ghost use Rattle.ports.specs.Content.{Writes};
ghost use Rattle.problem_graph.specs.ListedStanding.{IsEventAt};
ghost use Rattle.row_pool.specs.Pool.{free_rows};
ghost use Rattle.roster.specs.Roster.{listed};
ghost use Rattle.solver.specs.Changes.{LeavesAnswer};
ghost use Rattle.solver.specs.Solution.{IsSolutionBy};
ghost use Rattle.queries.specs.Asking.{IsAtHand, IsSourceReading};
ghost use Rattle.queries.specs.Clocks.{KeepsTime};
ghost use Rattle.replies.specs.Reply.{IsSinceText, IsTimesAnswer, IsTimesReply, OfOne};
ghost use Rattle.session_answers.specs.Ready.{KeepsSource};
ghost use Rattle.session_answers.specs.Keeping.{HasSlotBy};
ghost use Rattle.session_answers.specs.TimesAsking.{IsAskedSince, RepliesSince, RepliesWithTimes};

use crate::events::find_event;
use crate::quantity::Quantity;
use crate::times_lines::write_times;
use atto::{Nano, Steps};
use ports::{Failed, Sink};
use problem::Listing;
use queries::write_contradiction;
use replies::{Refusal, write_refusal};
use roster::Roster;
use solver::Solver;
use std::sync::ledger::Ledger;

// Writes the times of all events by the source's clock, whose reading with kept rows has this stamp, in ns; or the
// certificate of a contradiction.
fn write_by_source<N: Listing, O: Sink>(
    names: &N,
    solver: &Solver,
    stamp: Nano,
    out: &mut O,
) -> Result<(), Failed>
    requires solution { (p : ProblemLists) × IsSolutionBy (N.listed names.now) p solver.now }
    requires source { (clock : ℕ) × IsSourceReading (N.listed names.now) solver.now clock stamp }
    ensures { RepliesWithTimes (N.listed names.now) solver.now stamp (λ text. Writes text (O.told out.old) (O.told out.new) result) }
{
    let cycle = solver.contradiction();
    if cycle.is_empty() {
        write_times(names, &Quantity::BySource { solver, stamp }, out)
    } else {
        write_contradiction(names, cycle, out)
    }
}

// Writes the real times from the event at a node to each, by rows that are lent for it.
fn write_lent<N: Listing, O: Sink, L: Ledger>(
    names: &N,
    solver: &mut Solver,
    first: u32,
    out: &mut O,
    steps: &mut Steps<L>,
) -> Result<(), Failed>
    requires asked { IsAskedSince (N.listed names.now) solver.old first }
    requires free { 2 ≤ free_rows solver.old.pool }
    ensures writes { RepliesSince (N.listed names.now) solver.old first (λ text. Writes text (O.told out.old) (O.told out.new) result) }
    ensures leaves { LeavesAnswer solver.old solver.new }
{
    let rows = solver.lend(first, steps);
    let (from, to) = solver.lent(&rows);
    let written = write_times(names, &Quantity::Since { from, to }, out);
    solver.give_back(rows);
    written
}

// Writes the real times from the event at a node to each, where there is an execution: by kept rows where it has them.
fn write_from<N: Listing, O: Sink, L: Ledger>(
    names: &N,
    solver: &mut Solver,
    first: u32,
    out: &mut O,
    steps: &mut Steps<L>,
) -> Result<(), Failed>
    requires asked { IsAskedSince (N.listed names.now) solver.old first }
    requires free { 2 ≤ free_rows solver.old.pool }
    ensures writes { RepliesSince (N.listed names.now) solver.old first (λ text. Writes text (O.told out.old) (O.told out.new) result) }
    ensures leaves { LeavesAnswer solver.old solver.new }
    ensures steps { IsAtHand solver.old first → steps.new ≡ steps.old }
{
    match solver.rows_of(first) {
        Some((from, to)) => write_times(names, &Quantity::Since { from, to }, out),
        None => write_lent(names, solver, first, out, steps),
    }
}

// Writes the real times from the event at a node to each, or the certificate of a contradiction.
fn write_since<N: Listing, O: Sink, L: Ledger>(
    names: &N,
    solver: &mut Solver,
    first: u32,
    out: &mut O,
    steps: &mut Steps<L>,
) -> Result<(), Failed>
    requires solution { (p : ProblemLists) × IsSolutionBy (N.listed names.now) p solver.old }
    requires event { (place : ℕ) × IsEventAt (N.listed names.now) place first }
    requires free { 2 ≤ free_rows solver.old.pool }
    ensures writes { RepliesSince (N.listed names.now) solver.old first (λ text. Writes text (O.told out.old) (O.told out.new) result) }
    ensures leaves { LeavesAnswer solver.old solver.new }
    ensures steps { IsAtHand solver.old first → steps.new ≡ steps.old }
{
    let cycle = solver.contradiction();
    if cycle.is_empty() {
        write_from(names, solver, first, out, steps)
    } else {
        write_contradiction(names, cycle, out)
    }
}

// Writes the times of all events by the source's clock, whose reading with kept rows has this stamp, in ns; or the refusal
// where no source is declared, or its clock has no reading.
fn ask_by_source<O: Sink>(
    names: &Roster,
    solver: &Solver,
    source: Option<Nano>,
    out: &mut O,
) -> Result<(), Failed>
    requires { (p : ProblemLists) × IsSolutionBy (listed names.now) p solver.now × ((declared : Option ℕ) × KeepsSource (listed names.now) p declared source solver.now) }
    ensures { (p : ProblemLists) (declared : Option ℕ) → IsSolutionBy (listed names.now) p solver.now → IfSome declared (λ clock. KeepsTime p clock)
        → KeepsSource (listed names.now) p declared source solver.now
        → (text : List ℕ) × IsTimesReply p declared text × Writes text (O.told out.old) (O.told out.new) result }
{
    match source {
        Some(stamp) => write_by_source(names, solver, stamp, out),
        None => write_refusal(Refusal::NoSourceTime, out),
    }
}

// Writes the real times from the event of this name to each, or the refusal where there is no such event.
fn ask_since<O: Sink, L: Ledger>(
    names: &Roster,
    solver: &mut Solver,
    event: &[u8],
    out: &mut O,
    steps: &mut Steps<L>,
) -> Result<(), Failed>
    requires solution { (p : ProblemLists) × IsSolutionBy (listed names.now) p solver.old }
    requires free { 2 ≤ free_rows solver.old.pool }
    ensures writes { (p : ProblemLists) → IsSolutionBy (listed names.now) p solver.old
        → (text : List ℕ) × OfOne p event.now (IsSinceText p) text × Writes text (O.told out.old) (O.told out.new) result }
    ensures leaves { LeavesAnswer solver.old solver.new }
    ensures steps { HasSlotBy names.now solver.old event.now → steps.new ≡ steps.old }
{
    match find_event(names, event) {
        Some((_, node)) => write_since(names, solver, node, out, steps),
        None => write_refusal(Refusal::UnknownEvent, out),
    }
}

/// Writes the times of all events by the source's clock, whose reading with kept rows has this stamp, in ns; or where an
/// event is named, the real times from it to each. The first line has the number of events, and behind it stands that of each,
/// by label and number: `NAME LEAST GREATEST`, in ns, with `-inf` and `+inf` where there is no end. Where there is no
/// execution it writes the certificate of a contradiction, and where there is no such event, or no source with a reading,
/// the refusal.
///
/// It takes no memory. No step is taken where no event is named, or its node is kept; else two free rows are filled once and
/// given back. `Failed` comes only where a write fails.
pub fn ask_times<O: Sink, L: Ledger>(
    names: &Roster,
    solver: &mut Solver,
    source: Option<Nano>,
    since: Option<&[u8]>,
    out: &mut O,
    steps: &mut Steps<L>,
) -> Result<(), Failed>
    requires solution { (p : ProblemLists) × IsSolutionBy (listed names.now) p solver.old × ((declared : Option ℕ) × KeepsSource (listed names.now) p declared source solver.old) }
    requires free { 2 ≤ free_rows solver.old.pool }
    ensures writes { (p : ProblemLists) (declared : Option ℕ) → IsSolutionBy (listed names.now) p solver.old → IfSome declared (λ clock. KeepsTime p clock)
        → KeepsSource (listed names.now) p declared source solver.old
        → (text : List ℕ) × IsTimesAnswer p declared (option_map (λ event. event.now) since.entry) text × Writes text (O.told out.old) (O.told out.new) result }
    ensures leaves { LeavesAnswer solver.old solver.new }
    ensures steps { IfSome since.entry (λ event. HasSlotBy names.now solver.old event.now) → steps.new ≡ steps.old }
{
    match since {
        Some(event) => ask_since(names, solver, event, out, steps),
        None => ask_by_source(names, solver, source, out),
    }
}
