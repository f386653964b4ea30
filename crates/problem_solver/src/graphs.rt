// The solving of a graph.
ghost use Rattle.std.specs.Prelude.{◌≡◌, ◌+◌, length, IfOk, OnOk};
ghost use Rattle.sync_graph.specs.Graph.{GraphLists};
ghost use Rattle.earliest.specs.Inserted.{IsInserted};
ghost use Rattle.problem_solver.specs.Order.{AreAllArcs, AreAllInForce};
ghost use Rattle.problem_solver.specs.GraphSolution.{IsGraphSolution};

use crate::solution::GraphSolution;
use atto::Steps;
use earliest::{Earliest, Inserted};
use frontier::IdleQueue;
use std::alloc::{AllocError, Global};
use std::sync::ledger::Ledger;
use sync_graph::Graph;

// So many more nodes have the value 0.
fn push_zeros(e: &mut Earliest, nodes: u32) -> Result<(), AllocError>
    ensures { OnOk result (length e.new.values ≡ length e.old.values + nodes) }
{
    for _node in 0..nodes {
        e.push_node()?;
    }
    Ok(())
}

// One value of 0 for each node.
fn zeros(alloc: Global, nodes: u32) -> Result<Earliest, AllocError>
    ensures { IfOk result (λ e. length e.values ≡ nodes) }
{
    let mut e = Earliest::new(alloc);
    push_zeros(&mut e, nodes)?;
    Ok(e)
}

// Brings in the arcs of a graph one by one, over values that are 0.
fn bring_in<L: Ledger>(
    alloc: Global,
    g: &Graph,
    order: &[u32],
    e: &mut Earliest,
    steps: &mut Steps<L>,
) -> Result<Inserted, AllocError>
    requires order { AreAllArcs g.now order.now }
    requires in_force { AreAllInForce g.now }
    requires one_each { length e.old.values ≡ length g.now.nodes }
    ensures { IfOk result (λ found. IsInserted g.now e.new found) }
{
    // It tells what the lists of the graph hold.
    g.exact();
    let mut queue = IdleQueue::with_room(alloc, g.nodes())?;
    e.rebuild_in_order(g, order, &mut queue, steps)
}

// The values that were kept, or the cycle that was found.
fn kept_or_cycle(e: Earliest, found: Inserted) -> GraphSolution
    ensures { (g : GraphLists) → IsInserted g e found → IsGraphSolution g result }
{
    match found {
        Inserted::Kept => GraphSolution::Execution(e),
        Inserted::Negative(steps) => GraphSolution::Contradiction(steps),
    }
}

/// Finds the earliest execution of a graph whose arcs are all in force, or a contradiction where it has none. The arcs
/// are brought in in the order in which their numbers stand, which decides what it costs, and which contradiction is
/// found where there are several. It answers an error only where memory runs out.
pub fn solve_graph<L: Ledger>(
    alloc: Global,
    g: &Graph,
    order: &[u32],
    steps: &mut Steps<L>,
) -> Result<GraphSolution, AllocError>
    requires order { AreAllArcs g.now order.now }
    requires in_force { AreAllInForce g.now }
    ensures { IfOk result (λ solution. IsGraphSolution g.now solution) }
{
    let mut e = zeros(alloc, g.nodes())?;
    let found = bring_in(alloc, g, order, &mut e, steps)?;
    Ok(kept_or_cycle(e, found))
}
