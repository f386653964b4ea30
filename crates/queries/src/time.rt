// The time of an event by a clock that keeps time.
ghost use Rattle.std.specs.Prelude.{ℕ, List};
ghost use Rattle.problem_model.specs.declared.items.Node.TheVariants as nodes;
ghost use Rattle.problem_model.specs.Problem.{ProblemLists};
ghost use Rattle.problem_model.specs.Bounds.{IsReading};
ghost use Rattle.ports.specs.Content.{Writes};
ghost use Rattle.problem_graph.specs.ListedStanding.{IsEventAt};
ghost use Rattle.intervals.specs.Ends.{FitsPair};
ghost use Rattle.intervals.specs.Executions.{IsPairOf};
ghost use Rattle.solver.specs.Solution.{IsSolutionBy};
ghost use Rattle.queries.specs.Asking.{IsAskedTime, IsSourceReading};
ghost use Rattle.queries.specs.Clocks.{KeepsTime};
ghost use Rattle.queries.specs.Replies.{IsTimeLine};
ghost use Rattle.queries.specs.Answers.{RepliesWithTime};

use crate::contradiction::write_contradiction;
use crate::lines::time_line;
use crate::{executions, pairs};
use atto::Nano;
use intervals::source_time;
use ports::{Failed, Sink, write_whole};
use problem::Listing;
use row_pool::Pair;
use solver::Solver;

// Writes the line of an event's time, by the greatest differences of a reading of this stamp and the event.
fn write_line<O: Sink>(stamp: Nano, pair: Pair, out: &mut O) -> Result<(), Failed>
    requires { FitsPair pair }
    ensures { (p : ProblemLists) (clock event : ℕ) → KeepsTime p clock → IsReading p clock stamp
        → IsPairOf p (nodes.Reading clock stamp) (nodes.Event event) pair
        → (text : List ℕ) × IsTimeLine p clock event text × Writes text (O.told out.old) (O.told out.new) result }
{
    let ends = source_time(stamp, pair);
    let line = time_line(&ends);
    write_whole(out, line.as_slice())
}

// Writes the time where there is an execution.
fn write_answer<N: Listing, O: Sink>(
    names: &N,
    solver: &Solver,
    stamp: Nano,
    event: u32,
    out: &mut O,
) -> Result<(), Failed>
    requires { IsAskedTime (N.listed names.now) solver.now stamp event }
    ensures { RepliesWithTime (N.listed names.now) solver.now stamp event (λ text. Writes text (O.told out.old) (O.told out.new) result) }
{
    // They tell what the values of nodes are, and what greatest differences are.
    executions();
    pairs();
    match solver.source_pair(event) {
        Some(pair) => write_line(stamp, pair, out),
        None => unreachable!(),
    }
}

/// Writes the line of the least and the greatest time of an event by a source's clock, over all executions, in ns, as
/// `time LEAST GREATEST`, with `-inf` and `+inf` where there is none; or the certificate of a contradiction where there is
/// no execution. The time by a reading of the clock is its stamp and the real time from that reading to the event; the
/// clock is never short or long, so it is the same by each of its readings. It is read off the rows of the source's reading,
/// which has this stamp, in ns, without a step. The event is given by its node.
///
/// It takes no memory. `Failed` is answered only where the sink's count of faults rose, or stands at its last value; a
/// front of such a reply is then written.
pub fn write_time<N: Listing, O: Sink>(
    names: &N,
    solver: &Solver,
    stamp: Nano,
    event: u32,
    out: &mut O,
) -> Result<(), Failed>
    requires solution { (p : ProblemLists) × IsSolutionBy (N.listed names.now) p solver.now }
    requires source { (clock : ℕ) × IsSourceReading (N.listed names.now) solver.now clock stamp }
    requires event { (place : ℕ) × IsEventAt (N.listed names.now) place event }
    ensures { RepliesWithTime (N.listed names.now) solver.now stamp event (λ text. Writes text (O.told out.old) (O.told out.new) result) }
{
    let cycle = solver.contradiction();
    if cycle.is_empty() {
        write_answer(names, solver, stamp, event, out)
    } else {
        write_contradiction(names, cycle, out)
    }
}
