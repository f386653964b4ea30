// The interval or the order of two events, or a contradiction.
ghost use Rattle.std.specs.Prelude.{◌≡◌, ◌<◌};
ghost use Rattle.problem_model.specs.Problem.{ProblemLists};
ghost use Rattle.ports.specs.Content.{Writes};
ghost use Rattle.problem.specs.Listing.{Listed};
ghost use Rattle.attain.specs.Ends.{AreEventNodes};
ghost use Rattle.row_pool.specs.Pool.{free_rows};
ghost use Rattle.solver.specs.Changes.{LeavesAnswer};
ghost use Rattle.solver.specs.Solution.{IsSolutionBy};
ghost use Rattle.queries.specs.Asking.{IsAskedOf, IsPairAtHand};
ghost use Rattle.queries.specs.Replies.{IsComparisonLine};
ghost use Rattle.queries.specs.Answers.{RepliesFor};

use crate::comparison::Comparison;
use crate::contradiction::write_contradiction;
use crate::lines::line_for;
use crate::{executions, pairs};
use atto::Steps;
use ports::{Failed, Sink, write_whole};
use problem::Listing;
use solver::Solver;
use std::sync::ledger::Ledger;

// Writes the answer where there is an execution.
fn write_answer<N: Listing, O: Sink, L: Ledger>(
    names: &N,
    solver: &mut Solver,
    question: Comparison,
    out: &mut O,
    steps: &mut Steps<L>,
) -> Result<(), Failed>
    requires asked { IsAskedOf (N.listed names.now) solver.old question.first question.second }
    requires free { 0 < free_rows solver.old.pool }
    ensures writes { RepliesFor (N.listed names.now) solver.old question.first question.second (IsComparisonLine question.asked) (λ text. Writes text (O.told out.old) (O.told out.new) result) }
    ensures leaves { LeavesAnswer solver.old solver.new }
    ensures steps { IsPairAtHand solver.old question.first question.second → steps.new ≡ steps.old }
{
    // They tell what the values of nodes are, and what greatest differences are.
    executions();
    pairs();
    let pair = solver.pair(question.first, question.second, steps);
    let line = line_for(question.asked, pair);
    write_whole(out, line.as_slice())
}

/// Writes the line that answers what is asked of two events, or the certificate of a contradiction where there is no
/// execution. The line of an interval has the least and the greatest difference from the first event to the second over all
/// executions, in ns, as `interval LEAST GREATEST`, with `-inf` and `+inf` where there is none. That of an order is
/// `order WORD`: `before` where the first one always comes before the second, `after`, `same`, or `open` where none of these
/// is so in every execution.
///
/// It takes no memory. No step is taken where one of the nodes is kept, or a contradiction is held; else a free row of the
/// engine is filled and given back. `Failed` is answered only where the sink's count of faults rose, or stands at its last
/// value; a front of such a reply is then written.
pub fn write_comparison<N: Listing, O: Sink, L: Ledger>(
    names: &N,
    solver: &mut Solver,
    question: Comparison,
    out: &mut O,
    steps: &mut Steps<L>,
) -> Result<(), Failed>
    requires solution { (p : ProblemLists) × IsSolutionBy (N.listed names.now) p solver.old }
    requires events { AreEventNodes (N.listed names.now) question.first question.second }
    requires free { 0 < free_rows solver.old.pool }
    ensures writes { RepliesFor (N.listed names.now) solver.old question.first question.second (IsComparisonLine question.asked) (λ text. Writes text (O.told out.old) (O.told out.new) result) }
    ensures leaves { LeavesAnswer solver.old solver.new }
    ensures solution { (l : Listed) (p : ProblemLists) → IsSolutionBy l p solver.old → IsSolutionBy l p solver.new }
    ensures steps { IsPairAtHand solver.old question.first question.second → steps.new ≡ steps.old }
{
    let cycle = solver.contradiction();
    if cycle.is_empty() {
        write_answer(names, solver, question, out, steps)
    } else {
        write_contradiction(names, cycle, out)
    }
}
