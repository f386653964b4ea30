// The solving of a problem.
ghost use Rattle.std.specs.Prelude.{◌≡◌, ◌≤◌, [], List, None, length, IfOk};
ghost use Rattle.problem_model.specs.Nodes.{Reading, AreReadings, nodes_of};
ghost use Rattle.problem_model.specs.Limits.{most_nodes};
ghost use Rattle.row_pool.specs.Pool.{free_rows};
ghost use Rattle.problem_graph.specs.HeldBounds.{HoldsShortList};
ghost use Rattle.solver.specs.Solution.{IsSolution};
ghost use Rattle.problem_solver.specs.Pushing.{NodesCome};

use crate::items::ordered_items;
use crate::pushes::{push_items, push_nodes};
use atto::{Nano, Steps};
use problem::Problem;
use solver::Solver;
use std::alloc::{AllocError, Global};
use std::sync::ledger::Ledger;

// How many nodes a problem has.
fn node_count(p: &Problem, readings: &[(u32, Nano)]) -> u32
    requires { AreReadings p.now readings.now }
    ensures count { result ≡ length (nodes_of p.now readings.now) }
    ensures few { result ≤ most_nodes }
{
    (p.events().len() + readings.len()) as u32
}

// A solver of the nodes of a problem, without arcs.
fn start(alloc: Global, p: &Problem, rows: u32) -> Result<Solver, AllocError>
    requires rows { rows ≤ 32 }
    ensures come { IfOk result (λ s. (readings : List Reading) → AreReadings p.now readings → NodesCome p.now readings [] s) }
    ensures free { IfOk result (λ s. free_rows s.pool ≡ rows) }
    ensures count { IfOk result (λ s. length s.pool.rows ≡ rows) }
    ensures slots { IfOk result (λ s. s.kept.slots ≡ []) }
    ensures source { IfOk result (λ s. s.kept.source ≡ None) }
{
    // It tells that the problem is lawful.
    let _ = p.events();
    let readings = p.readings();
    let mut s = Solver::new(alloc);
    s.reserve(rows, node_count(p, readings))?;
    push_nodes(&mut s, p, readings)?;
    Ok(s)
}

/// Finds the earliest execution of a problem, or a contradiction where it has none, and holds it over a graph of the
/// problem: its nodes are those of the problem in their order, so a node's number is its place, and its arcs are the bounds
/// of the short list in the order in which they were brought in. So many rows are free, of which each node that is kept or
/// asked for takes two. It answers an error only where memory runs out.
pub fn solve<L: Ledger>(
    alloc: Global,
    p: &Problem,
    rows: u32,
    steps: &mut Steps<L>,
) -> Result<Solver, AllocError>
    requires rows { rows ≤ 32 }
    ensures solution { IfOk result (λ s. IsSolution p.now s) }
    ensures bounds { IfOk result (λ s. HoldsShortList p.now s.graph) }
    ensures nodes { IfOk result (λ s. (readings : List Reading) → AreReadings p.now readings → s.graph.nodes ≡ nodes_of p.now readings) }
    ensures free { IfOk result (λ s. free_rows s.pool ≡ rows) }
    ensures count { IfOk result (λ s. length s.pool.rows ≡ rows) }
    ensures slots { IfOk result (λ s. s.kept.slots ≡ []) }
    ensures source { IfOk result (λ s. s.kept.source ≡ None) }
{
    // It tells that the problem is lawful.
    let _ = p.events();
    let readings = p.readings();
    let items = ordered_items(alloc, p, readings, steps)?;
    let mut s = start(alloc, p, rows)?;
    push_items(&mut s, p, readings, &items, steps)?;
    Ok(s)
}
