// Tries one widening.
ghost use Rattle.std.specs.Prelude.{◌+◌, ◌≡◌, ◌≤◌, ◌<◌, ◌^◌, [], true, length, All, IfOk};
ghost use Rattle.problem_model.specs.Numbers.{IsUpTo};
ghost use Rattle.problem_model.specs.Limits.{most_nodes, path_bits};
ghost use Rattle.solver.specs.Current.{IsCurrent};
ghost use Rattle.problem_graph.specs.HeldBounds.{HoldsShortList};
ghost use Rattle.problem_solver.specs.GraphSolution.{IsGraphSolution};
ghost use Rattle.problem_solver.specs.Order.{AreAllArcs};
ghost use Rattle.cert_check.specs.Widened.{widened};
ghost use Rattle.widen.specs.Found.{IsCycleFor};
ghost use Rattle.widen.specs.Search.{IsTried};

use crate::cycles::{chain_of, last_of, sum_of, units};
use crate::known::nano;
use crate::tried::Tried;
use crate::weighed::{arcs_in, widened_graph};
use atto::Steps;
use cert::Execution;
use cert_check::What;
use earliest::Earliest;
use problem::Problem;
use problem_solver::{GraphSolution, solve_graph};
use solver::Solver;
use std::alloc::{AllocError, Global};
use std::sync::ledger::Ledger;
use sync_graph::{Arc, Graph};

// One value for each node, as the execution of a problem.
fn execution_of(alloc: Global, e: &Earliest, nodes: u32) -> Result<Execution, AllocError>
    requires solved { e.now.is_solved ≡ true }
    requires one_each { length e.now.values ≡ nodes }
    requires few { nodes ≤ most_nodes }
    requires small { All (IsUpTo (path_bits + 2)) e.now.values }
    ensures { IfOk result (λ execution. execution ≡ e.now.values) }
{
    let mut execution = Execution::new(alloc);
    for node in 0..nodes {
        execution.push(units(e.value(node)))?;
    }
    Ok(execution)
}

/// A contradiction, with the weights that it has where the problem is widened as far as it is seen to last.
pub fn last_cycle(
    alloc: Global,
    p: &Problem,
    what: What,
    arcs: &[Arc],
    extra: u64,
) -> Result<Tried, AllocError>
    requires extra { extra < 2 ^ 62 }
    requires cycle { IsCycleFor what p.now extra arcs.now }
    ensures { IfOk result (λ tried. IsTried what p.now extra tried) }
{
    // They tell that the problem is lawful, and what the readings of the problem are.
    let _ = p.events();
    let _ = p.readings();
    let last = last_of(p, what, arcs, extra);
    let later = arcs_in(alloc, p, what, nano(last), arcs)?;
    if sum_of(&later) < 0 {
        let cycle = chain_of(alloc, &later)?;
        return Ok(Tried::Cycle { last, cycle });
    }
    let cycle = chain_of(alloc, arcs)?;
    Ok(Tried::Cycle { last: extra, cycle })
}

// The execution that the solver of a problem holds.
fn run_held(alloc: Global, p: &Problem, what: What, s: &Solver) -> Result<Tried, AllocError>
    requires current { IsCurrent s.now }
    requires solved { s.now.contradiction ≡ [] }
    requires graph { HoldsShortList p.now s.now.graph }
    ensures { IfOk result (λ tried. IsTried what p.now 0 tried) }
{
    // They tell that the problem is lawful, and what the readings of the problem are.
    let _ = p.events();
    let _ = p.readings();
    let g = s.graph();
    // It tells what the lists of the graph hold.
    g.exact();
    let execution = execution_of(alloc, s.earliest(), g.nodes())?;
    Ok(Tried::Run(execution))
}

// The contradiction that the solver of a problem holds, as far as it lasts.
fn cycle_held(alloc: Global, p: &Problem, what: What, s: &Solver) -> Result<Tried, AllocError>
    requires current { IsCurrent s.now }
    requires held { s.now.contradiction ≡ [] → ⊥ }
    requires graph { HoldsShortList p.now s.now.graph }
    ensures { IfOk result (λ tried. IsTried what p.now 0 tried) }
{
    // They tell that the problem is lawful, and what the readings of the problem are.
    let _ = p.events();
    let _ = p.readings();
    last_cycle(alloc, p, what, s.contradiction(), 0)
}

/// Tries to widen by nothing: what the solver of the problem holds.
pub fn try_nothing(alloc: Global, p: &Problem, what: What, s: &Solver) -> Result<Tried, AllocError>
    requires current { IsCurrent s.now }
    requires graph { HoldsShortList p.now s.now.graph }
    ensures { IfOk result (λ tried. IsTried what p.now 0 tried) }
{
    if s.contradiction().is_empty() {
        run_held(alloc, p, what, s)
    } else {
        cycle_held(alloc, p, what, s)
    }
}

// What solving the graph of a problem that is widened found, said of the problem.
fn said_of_problem(
    alloc: Global,
    p: &Problem,
    what: What,
    g: &Graph,
    found: &GraphSolution,
    extra: u64,
) -> Result<Tried, AllocError>
    requires extra { extra < 2 ^ 62 }
    requires graph { HoldsShortList (widened what p.now extra) g.now }
    requires found { IsGraphSolution g.now found.now }
    ensures { IfOk result (λ tried. IsTried what p.now extra tried) }
{
    // They tell that the problem is lawful, what the readings of the problem are, and what the lists of the graph hold.
    let _ = p.events();
    let _ = p.readings();
    g.exact();
    match found {
        GraphSolution::Execution(e) => {
            let execution = execution_of(alloc, e, g.nodes())?;
            Ok(Tried::Run(execution))
        }
        GraphSolution::Contradiction(arcs) => last_cycle(alloc, p, what, arcs, extra),
    }
}

/// The graph of a problem, and the order in which its arcs are brought in.
#[derive(Drop)]
pub struct Ordered<'a> {
    pub graph: &'a Graph,
    pub order: &'a [u32],
}

/// Solves the graph of a problem where that is widened by so much. The graph is that of the problem, and its arcs are
/// brought in in its order.
pub fn try_widening<L: Ledger>(
    alloc: Global,
    p: &Problem,
    what: What,
    from: &Ordered<'_>,
    extra: u64,
    steps: &mut Steps<L>,
) -> Result<Tried, AllocError>
    requires extra { extra < 2 ^ 62 }
    requires graph { HoldsShortList p.now from.now.graph.now }
    requires order { AreAllArcs from.now.graph.now from.now.order.now }
    ensures { IfOk result (λ tried. IsTried what p.now extra tried) }
{
    // They tell that the problem is lawful, what the readings of the problem are, and what the lists of the graph hold.
    let _ = p.events();
    let _ = p.readings();
    let g = from.graph;
    g.exact();
    let h = widened_graph(alloc, p, what, nano(extra), g)?;
    let found = solve_graph(alloc, &h, from.order, steps)?;
    said_of_problem(alloc, p, what, &h, &found, extra)
}
