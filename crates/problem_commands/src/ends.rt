// The interval and the order of two events, or a contradiction.
ghost use Rattle.std.specs.Prelude.{◌≡◌, ◌<◌, ◌⊎◌, [], ℕ, length, IfSome, IfNone};
ghost use Rattle.ports.specs.Files.{Keeps};
ghost use Rattle.problem_model.specs.declared.items.Node.TheVariants as nodes;
ghost use Rattle.problem_model.specs.Problem.{ProblemLists};
ghost use Rattle.problem.specs.Line.{HasEvent, IsUnknown};
ghost use Rattle.intervals.specs.Ends.{FitsPair};
ghost use Rattle.intervals.specs.Executions.{IsPairOf};
ghost use Rattle.row_pool.specs.Pool.{free_rows};
ghost use Rattle.solver.specs.Solution.{IsSolution};
ghost use Rattle.problem_commands.specs.Printing.{Prints};
ghost use Rattle.problem_commands.specs.Intervals.{TellsInterval, TellsNamed, IntervalAnswered};

use crate::last_line::{finish, stop};
use crate::print::interval_line;
use crate::status::Status;
use crate::texts::problem_in;
use atto::Steps;
use intervals::{ends_from, order_of};
use ports::{Failed, Files, Sink};
use problem::Problem;
use queries::{pairs, write_contradiction};
use row_pool::Pair;
use solver::Solver;
use std::alloc::Global;
use std::sync::ledger::Ledger;
use thinning::event_named;

/// The names of two events.
#[derive(Clone, Copy, Debug)]
pub struct TwoNames<'a> {
    /// The name of the first event.
    pub first: &'a str,
    /// The name of the second event.
    pub second: &'a str,
}

// Prints the interval and the order of two events, by their greatest differences in both directions.
fn answer<O: Sink>(pair: Pair, out: &mut O) -> Status
    requires { FitsPair pair }
    ensures { (p : ProblemLists) (from to : ℕ) → IsPairOf p (nodes.Event from) (nodes.Event to) pair
        → Prints (TellsInterval p from to) (O.told out.old) (O.told out.new) result }
{
    let ends = ends_from(pair);
    let order = order_of(&ends);
    finish(interval_line(&ends, order).as_slice(), Status::Done, out)
}

// The places of the events of two names.
fn events_of(p: &Problem, names: &TwoNames) -> Option<(u32, u32)>
    ensures some { IfSome result (λ places. HasEvent p.now places.0 names.now.first.now × HasEvent p.now places.1 names.now.second.now) }
    ensures none { IfNone result (IsUnknown p.now names.now.first.now ⊎ IsUnknown p.now names.now.second.now) }
{
    let from = event_named(p, names.first.as_bytes())?;
    let to = event_named(p, names.second.as_bytes())?;
    Some((from, to))
}

// Prints the interval and the order of two events of a problem that has an execution. An event's node is its place.
fn interval<O: Sink, L: Ledger>(
    p: &Problem,
    solver: &mut Solver,
    from: u32,
    to: u32,
    out: &mut O,
    steps: &mut Steps<L>,
) -> Status
    requires solution { IsSolution p.now solver.old }
    requires solved { solver.old.contradiction ≡ [] }
    requires free { 0 < free_rows solver.old.pool }
    requires from { from < length p.now.events }
    requires to { to < length p.now.events }
    ensures { Prints (TellsInterval p.now from to) (O.told out.old) (O.told out.new) result }
{
    // They tell that the problem is lawful, what the readings of the problem are, and what greatest differences are.
    let _ = p.events();
    let _ = p.readings();
    pairs();
    let pair = solver.pair(from, to, steps);
    answer(pair, out)
}

// Prints the certificate of the contradiction that is held, whichever events were asked for.
fn contradict<O: Sink>(p: &Problem, solver: &Solver, out: &mut O) -> Status
    requires solution { IsSolution p.now solver.now }
    requires held { solver.now.contradiction ≡ [] → ⊥ }
    ensures { (from to : ℕ) → Prints (TellsInterval p.now from to) (O.told out.old) (O.told out.new) result }
{
    match write_contradiction(p, solver.contradiction(), out) {
        Ok(()) => Status::Done,
        Err(Failed) => Status::WriteFault,
    }
}

// Prints what a solution says of two events.
fn conclude<O: Sink, L: Ledger>(
    p: &Problem,
    solver: &mut Solver,
    from: u32,
    to: u32,
    out: &mut O,
    steps: &mut Steps<L>,
) -> Status
    requires solution { IsSolution p.now solver.old }
    requires free { 0 < free_rows solver.old.pool }
    requires from { from < length p.now.events }
    requires to { to < length p.now.events }
    ensures { Prints (TellsInterval p.now from to) (O.told out.old) (O.told out.new) result }
{
    if solver.contradiction().is_empty() {
        interval(p, solver, from, to, out, steps)
    } else {
        contradict(p, solver, out)
    }
}

// Solves a problem, and prints what it says of two events.
fn solve_for<O: Sink, L: Ledger>(
    alloc: Global,
    p: &Problem,
    from: u32,
    to: u32,
    out: &mut O,
    steps: &mut Steps<L>,
) -> Status
    requires from { from < length p.now.events }
    requires to { to < length p.now.events }
    ensures { Prints (TellsInterval p.now from to) (O.told out.old) (O.told out.new) result }
{
    match problem_solver::solve(alloc, p, 1, steps) {
        Ok(mut solver) => conclude(p, &mut solver, from, to, out, steps),
        Err(_) => Status::Memory,
    }
}

// Prints what a problem says of the events of two names.
fn between<O: Sink, L: Ledger>(
    alloc: Global,
    p: &Problem,
    names: &TwoNames,
    out: &mut O,
    steps: &mut Steps<L>,
) -> Status
    ensures { Prints (TellsNamed p.now names.now.first.now names.now.second.now) (O.told out.old) (O.told out.new) result }
{
    let Some((from, to)) = events_of(p, names) else {
        return finish(b"unknown event\n", Status::UnknownName, out);
    };
    solve_for(alloc, p, from, to, out, steps)
}

/// The least and the greatest difference of the real times of the events of two names in the problem in a file, over all
/// executions, and their order; or a contradiction where there is no execution.
pub fn ends<F: Files, O: Sink, L: Ledger>(
    alloc: Global,
    files: &mut F,
    problem: &str,
    names: &TwoNames,
    out: &mut O,
    steps: &mut Steps<L>,
) -> Status
    ensures answered { Prints (IntervalAnswered problem.now names.now.first.now names.now.second.now (F.told files.old) (F.told files.new)) (O.told out.old) (O.told out.new) result }
    ensures keeps { Keeps (F.told files.old) (F.told files.new) }
{
    match problem_in(alloc, files, problem) {
        Ok(p) => between(alloc, &p, names, out, steps),
        Err(unread) => stop(unread, b"problem", Status::BadProblem, out),
    }
}
