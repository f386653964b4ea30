// Where the dates of what was added begin.
ghost use Rattle.std.specs.Prelude.{◌≡◌, ◌<◌, ◌*◌, ◌≤ℤ◌, [], ℕ, List, Option, true, pos, length};
ghost use Rattle.problem_model.specs.declared.items.Node.TheVariants as nodes;
ghost use Rattle.problem_model.specs.Problem.{ProblemLists};
ghost use Rattle.problem_model.specs.Executions.{at};
ghost use Rattle.traces.specs.Seen.{Seen};
ghost use Rattle.intervals.specs.Ends.{FitsPair, ends_of, shifted};
ghost use Rattle.intervals.specs.declared.ends.End.{End};
ghost use Rattle.intervals.specs.Executions.{IsLeastEnd, time_by};
ghost use Rattle.problem_graph.specs.ListedStanding.{IsEventAt};
ghost use Rattle.roster.specs.Roster.{event_at, listed};
ghost use Rattle.roster.specs.Rosters.{KnowsNodes};
ghost use Rattle.solver.specs.Current.{IsCurrent};
ghost use Rattle.solver.specs.Solution.{IsSolutionBy};
ghost use Rattle.queries.specs.Asking.{IsAskedTime, IsSourceReading};
ghost use Rattle.queries.specs.Consistent.{IsConsistent};
ghost use Rattle.mergecap.specs.Packets.{shift_of};
ghost use Rattle.session_answers.specs.Ready.{KeepsSource};
ghost use Rattle.session.specs.Dates.{AreDatedBy, IsDateOf, end_or};
ghost use Rattle.session.specs.Firsts.{IsFirstBefore, IsFirstOfTwo, IsStartOf, key_of_came};
ghost use Rattle.session.specs.Stands.{IsReady, problem_held, seen_held};

use crate::Session;
use atto::{Nano, delay_units};
use intervals::laws::source_times;
use intervals::{End, source_time};
use mergecap::Start;
use queries::{contradictions, executions, pairs};
use report::MergeKey;
use roster::{Came, Roster};
use row_pool::Pair;
use solver::Solver;
use std::cmp::Ordering;

// What an event is merged by.
fn key_of(names: &Roster, solver: &Solver, v: u32) -> MergeKey
    requires current { IsCurrent solver.now }
    requires solved { solver.now.contradiction ≡ [] }
    requires nodes { KnowsNodes names.now solver.now.graph }
    requires inside { v < length names.now.came }
    ensures { result ≡ key_of_came solver.now (event_at names.now.came v) }
{
    let came = names.event(v);
    MergeKey {
        value: solver.value(came.node),
        place: came.label,
        n: came.number,
    }
}

// Which of two events comes first in the merge.
fn first_of_two(names: &Roster, solver: &Solver, first: u32, second: u32) -> u32
    requires current { IsCurrent solver.now }
    requires solved { solver.now.contradiction ≡ [] }
    requires nodes { KnowsNodes names.now solver.now.graph }
    requires first { first < length names.now.came }
    requires second { second < length names.now.came }
    ensures { IsFirstOfTwo solver.now names.now.came first second result }
{
    // It tells that the roster is lawful.
    let _ = names.decl();
    match key_of(names, solver, second).cmp(&key_of(names, solver, first)) {
        Ordering::Less => second,
        _ => first,
    }
}

/// The number of the event that comes first in the merge.
pub(crate) fn first_event(names: &Roster, solver: &Solver) -> u32
    requires current { IsCurrent solver.now }
    requires solved { solver.now.contradiction ≡ [] }
    requires nodes { KnowsNodes names.now solver.now.graph }
    requires some { 0 < length names.now.came }
    ensures { IsFirstBefore solver.now names.now.came result (length names.now.came) }
{
    let mut first = 0;
    for v in 0..names.len() {
        first = first_of_two(names, solver, first, v);
    }
    first
}

// The least end of an event's time by a source's reading of this stamp, by their greatest differences; where there is none,
// the event's own stamp. All are units of 1e-9 ns but the stamps.
fn least_or(own: Nano, stamp: Nano, pair: Pair) -> i128
    requires { FitsPair pair }
    ensures { result ≡ end_or own (shifted (pos (stamp * 1000000000)) (ends_of pair)).least }
{
    match source_time(stamp, pair).least {
        End::At(units) => units,
        End::Unbounded => delay_units(own),
    }
}

// The date of an event by the source's reading of this stamp.
fn source_date(names: &Roster, solver: &Solver, stamp: Nano, came: &Came) -> i128
    requires { IsAskedTime (listed names.now) solver.now stamp came.now.node }
    ensures { (p : ProblemLists) (clock place : ℕ) → IsSolutionBy (listed names.now) p solver.now → IsSourceReading (listed names.now) solver.now clock stamp → IsEventAt (listed names.now) place came.now.node
        → (least : End) × IsLeastEnd p (time_by clock stamp (nodes.Event place)) least × (result ≡ end_or came.now.stamp least) }
{
    // They tell what greatest differences are, and what times they give.
    pairs();
    source_times();
    match solver.source_pair(came.node) {
        Some(pair) => least_or(came.stamp, stamp, pair),
        None => unreachable!(),
    }
}

// The date of an event, by the source's reading where it has one.
fn date_of(names: &Roster, solver: &Solver, source: Option<Nano>, came: &Came) -> i128
    requires none { solver.now.contradiction ≡ [] }
    requires asked { (p : ProblemLists) × (declared : Option ℕ) × (place : ℕ) × IsSolutionBy (listed names.now) p solver.now × KeepsSource (listed names.now) p declared source solver.now × IsEventAt (listed names.now) place came.now.node }
    ensures { (p : ProblemLists) (declared : Option ℕ) (place : ℕ) → IsSolutionBy (listed names.now) p solver.now → KeepsSource (listed names.now) p declared source solver.now → IsEventAt (listed names.now) place came.now.node
        → IsDateOf p declared place came.now.stamp result }
{
    match source {
        Some(stamp) => source_date(names, solver, stamp, came),
        None => delay_units(came.stamp),
    }
}

// Where dates begin, by the event of this number.
fn start_at(names: &Roster, solver: &Solver, source: Option<Nano>, v: u32) -> Start
    requires current { IsCurrent solver.now }
    requires none { solver.now.contradiction ≡ [] }
    requires nodes { KnowsNodes names.now solver.now.graph }
    requires inside { v < length names.now.came }
    requires asked { (p : ProblemLists) × (declared : Option ℕ) × (place : ℕ) × IsSolutionBy (listed names.now) p solver.now × KeepsSource (listed names.now) p declared source solver.now × IsEventAt (listed names.now) place (event_at names.now.came v).node }
    ensures time { result.time ≡ at solver.now.earliest.values (event_at names.now.came v).node }
    ensures date { (p : ProblemLists) (declared : Option ℕ) (place : ℕ) → IsSolutionBy (listed names.now) p solver.now → KeepsSource (listed names.now) p declared source solver.now → IsEventAt (listed names.now) place (event_at names.now.came v).node
        → IsDateOf p declared place (event_at names.now.came v).stamp result.date }
{
    let came = names.event(v);
    Start {
        time: solver.value(came.node),
        date: date_of(names, solver, source, &came),
    }
}

// Where dates begin.
fn start_of(names: &Roster, solver: &Solver, source: Option<Nano>) -> Start
    requires current { IsCurrent solver.now }
    requires none { solver.now.contradiction ≡ [] }
    requires nodes { KnowsNodes names.now solver.now.graph }
    requires asked { (seen : List (List Seen)) × IsStartOf names.now solver.now source seen }
    ensures dated { (seen : List (List Seen)) → IsStartOf names.now solver.now source seen → AreDatedBy names.now.declaration seen (shift_of result) }
    ensures from_zero { pos 0 ≤ℤ result.time }
{
    // It tells what the values of nodes are, and that the roster is lawful.
    executions();
    let _ = names.decl();
    if names.len() == 0 {
        return Start { time: 0, date: 0 };
    }
    start_at(names, solver, source, first_event(names, solver))
}

impl Session {
    /// The time and the date of the event of all that was added that comes first in the merge, in units of 1e-9 ns;
    /// both are the same where there is no event. It takes no memory, and no steps.
    ///
    /// With a source whose clock has a reading, the date is the least end of the event's time by that clock, where there is
    /// one; else it is the event's own stamp. No call before ran out of memory, and some execution obeys all bounds.
    pub fn start(&self) -> Start
        requires ready { IsReady self.now }
        requires consistent { IsConsistent (problem_held self.now) true }
        ensures dated { AreDatedBy self.now.declaration (seen_held self.now.under) (shift_of result) }
        ensures from_zero { pos 0 ≤ℤ result.time }
    {
        // It tells that no contradiction is held where there is an execution.
        contradictions();
        let graph = &self.answers.graph;
        start_of(&graph.roster, &graph.solver, self.answers.source)
    }
}
