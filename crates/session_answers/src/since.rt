// How long events were after one event.
ghost use Rattle.std.specs.Prelude.{◌≡◌, ◌≤◌, ◌*◌, ℕ, List, length, slice_get, Some, map, All, IfOk};
ghost use Rattle.problem_model.specs.Problem.{ProblemLists};
ghost use Rattle.problem.specs.Listing.{Listed};
ghost use Rattle.problem_graph.specs.ListedStanding.{IsEventAt};
ghost use Rattle.row_pool.specs.Pool.{free_rows};
ghost use Rattle.intervals.specs.Ends.{FitsEnds, ends_of};
ghost use Rattle.solver.specs.Changes.{LeavesAnswer};
ghost use Rattle.session_answers.specs.Quantities.{TellsSince, pair_by};
ghost use Rattle.session_answers.specs.SinceAsking.{AreSinceAt, AsksSince};

use crate::quantity::since_at;
use atto::Steps;
use intervals::Ends;
use row_pool::Cell;
use solver::Solver;
use std::alloc::{AllocError, Global};
use std::sync::ledger::Ledger;

// The ends of the real times to these nodes, by the rows of another.
fn ends_by(
    alloc: Global,
    from: &[Cell],
    to: &[Cell],
    nodes: &[u32],
) -> Result<Vec<Ends>, AllocError>
    requires { All (TellsSince from.now to.now) nodes.now }
    ensures { IfOk result (λ all. all.items ≡ map (λ (node : ℕ). ends_of (pair_by from.now to.now node)) nodes.now) }
{
    let mut all = Vec::new(alloc);
    all.reserve(nodes.len())?;
    for node in nodes {
        all.push(since_at(from, to, *node))?;
    }
    Ok(all)
}

// The same by rows that are lent for it.
fn ends_lent<L: Ledger>(
    alloc: Global,
    solver: &mut Solver,
    first: u32,
    nodes: &[u32],
    steps: &mut Steps<L>,
) -> Result<Vec<Ends>, AllocError>
    requires asked { AsksSince solver.old first nodes.now }
    requires free { 2 ≤ free_rows solver.old.pool }
    ensures are { IfOk result (λ all. AreSinceAt solver.old first nodes.now all.items) }
    ensures small { IfOk result (λ all. All FitsEnds all.items) }
    ensures leaves { LeavesAnswer solver.old solver.new }
{
    let rows = solver.lend(first, steps);
    let (from, to) = solver.lent(&rows);
    let all = ends_by(alloc, from, to, nodes);
    solver.give_back(rows);
    all
}

/// The least and the greatest real time from the event at a node to each of the events at these nodes, over all
/// executions, in units of 1e-9 ns and in the order of the nodes; by kept rows where the one event has them, else by two
/// free rows, which are filled once and given back. An error comes only where memory runs out.
pub fn ends_since<L: Ledger>(
    alloc: Global,
    solver: &mut Solver,
    first: u32,
    nodes: &[u32],
    steps: &mut Steps<L>,
) -> Result<Vec<Ends>, AllocError>
    requires asked { AsksSince solver.old first nodes.now }
    requires free { 2 ≤ free_rows solver.old.pool }
    ensures are { IfOk result (λ all. AreSinceAt solver.old first nodes.now all.items) }
    ensures small { IfOk result (λ all. All FitsEnds all.items) }
    ensures leaves { LeavesAnswer solver.old solver.new }
{
    match solver.rows_of(first) {
        Some((from, to)) => ends_by(alloc, from, to, nodes),
        None => ends_lent(alloc, solver, first, nodes, steps),
    }
}
