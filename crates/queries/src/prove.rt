// The certificate of the interval of two events.
ghost use Rattle.std.specs.Prelude.{◌≡◌, ◌≤◌};
ghost use Rattle.problem_model.specs.Problem.{ProblemLists};
ghost use Rattle.ports.specs.Content.{Writes};
ghost use Rattle.problem.specs.Listing.{Listed};
ghost use Rattle.attain.specs.Ends.{AreRowsAt, AreEventNodes};
ghost use Rattle.row_pool.specs.Pool.{free_rows};
ghost use Rattle.solver.specs.Changes.{LeavesAnswer};
ghost use Rattle.solver.specs.Solution.{IsSolutionBy};
ghost use Rattle.queries.specs.Asking.{IsAskedOf, IsAtHand};
ghost use Rattle.queries.specs.Replies.{IsProofText};
ghost use Rattle.queries.specs.Answers.{RepliesFor};

use crate::contradiction::write_contradiction;
use crate::executions;
use attain::{NodeRows, write_ends};
use atto::Steps;
use ports::{Failed, Sink};
use problem::Listing;
use row_pool::Cell;
use solver::Solver;
use std::sync::ledger::Ledger;

// Writes the certificate of two events by the rows of the first one's node.
fn write_by<N: Listing, O: Sink>(
    names: &N,
    solver: &Solver,
    from: &[Cell],
    to: &[Cell],
    events: (u32, u32),
    out: &mut O,
) -> Result<(), Failed>
    requires asked { IsAskedOf (N.listed names.now) solver.now events.0 events.1 }
    requires rows { AreRowsAt solver.now.graph events.0 from.now to.now }
    ensures { RepliesFor (N.listed names.now) solver.now events.0 events.1 IsProofText (λ text. Writes text (O.told out.old) (O.told out.new) result) }
{
    // It tells what the values of nodes are.
    executions();
    let rows = NodeRows::new(solver.graph(), solver.earliest(), events.0, from, to);
    write_ends(names, &rows, events.1, out)
}

// Writes the certificate by rows that are lent for it.
fn write_lent<N: Listing, O: Sink, L: Ledger>(
    names: &N,
    solver: &mut Solver,
    first: u32,
    second: u32,
    out: &mut O,
    steps: &mut Steps<L>,
) -> Result<(), Failed>
    requires asked { IsAskedOf (N.listed names.now) solver.old first second }
    requires free { 2 ≤ free_rows solver.old.pool }
    ensures writes { RepliesFor (N.listed names.now) solver.old first second IsProofText (λ text. Writes text (O.told out.old) (O.told out.new) result) }
    ensures leaves { LeavesAnswer solver.old solver.new }
{
    let rows = solver.lend(first, steps);
    let (from, to) = solver.lent(&rows);
    let written = write_by(names, solver, from, to, (first, second), out);
    solver.give_back(rows);
    written
}

// Writes the certificate where there is an execution: by kept rows where the first node has them.
fn write_answer<N: Listing, O: Sink, L: Ledger>(
    names: &N,
    solver: &mut Solver,
    first: u32,
    second: u32,
    out: &mut O,
    steps: &mut Steps<L>,
) -> Result<(), Failed>
    requires asked { IsAskedOf (N.listed names.now) solver.old first second }
    requires free { 2 ≤ free_rows solver.old.pool }
    ensures writes { RepliesFor (N.listed names.now) solver.old first second IsProofText (λ text. Writes text (O.told out.old) (O.told out.new) result) }
    ensures leaves { LeavesAnswer solver.old solver.new }
    ensures steps { IsAtHand solver.old first → steps.new ≡ steps.old }
{
    match solver.rows_of(first) {
        Some((from, to)) => write_by(names, solver, from, to, (first, second), out),
        None => write_lent(names, solver, first, second, out, steps),
    }
}

/// Writes the certificate of the least and the greatest difference from one event to another over all executions: for
/// each that there is a path of bounds with its sum and an execution that attains it, and for each that there is not a cut;
/// or the certificate of a contradiction where there is no execution. Events are given by their nodes.
///
/// It takes no memory. No step is taken where the first node is kept, or a contradiction is held; else two free rows of
/// the engine are filled and given back. `Failed` is answered only where the sink's count of faults rose, or stands at its
/// last value; a front of such a reply is then written.
pub fn write_proof<N: Listing, O: Sink, L: Ledger>(
    names: &N,
    solver: &mut Solver,
    first: u32,
    second: u32,
    out: &mut O,
    steps: &mut Steps<L>,
) -> Result<(), Failed>
    requires solution { (p : ProblemLists) × IsSolutionBy (N.listed names.now) p solver.old }
    requires events { AreEventNodes (N.listed names.now) first second }
    requires free { 2 ≤ free_rows solver.old.pool }
    ensures writes { RepliesFor (N.listed names.now) solver.old first second IsProofText (λ text. Writes text (O.told out.old) (O.told out.new) result) }
    ensures leaves { LeavesAnswer solver.old solver.new }
    ensures solution { (l : Listed) (p : ProblemLists) → IsSolutionBy l p solver.old → IsSolutionBy l p solver.new }
    ensures steps { IsAtHand solver.old first → steps.new ≡ steps.old }
{
    let cycle = solver.contradiction();
    if cycle.is_empty() {
        write_answer(names, solver, first, second, out, steps)
    } else {
        write_contradiction(names, cycle, out)
    }
}
