// Nodes and bounds of a problem that are brought in.
ghost use Rattle.std.specs.Prelude.{◌≡◌, ◌+◌, ◌<◌, ◌≤◌, [], ◌∷◌, All, length, OnOk};
ghost use Rattle.std.specs.List.{flat_map};
ghost use Rattle.problem_model.specs.Problem.{ProblemLists};
ghost use Rattle.problem_model.specs.Nodes.{AreReadings, nodes_of};
ghost use Rattle.problem_model.specs.Limits.{most_arcs};
ghost use Rattle.sync_graph.specs.Graph.{with_arc};
ghost use Rattle.problem_graph.specs.BoundArcs.{FitsNodes, IsBoundAmong, arcs_in, names_of};
ghost use Rattle.solver.specs.Current.{IsCurrent};
ghost use Rattle.problem_solver.specs.Items.{IsItem, bounds_of, items_of};
ghost use Rattle.problem_solver.specs.Pushing.{AddsBounds, HasNodesOf, NodesCome};

use crate::item_arcs::item_arcs;
use crate::items::{Item, Ranked};
use atto::{Nano, Steps};
use problem::Problem;
use problem_graph::Arcs;
use problem_model::Node;
use solver::Solver;
use std::alloc::AllocError;
use std::sync::ledger::Ledger;
use sync_graph::Arc;

// Brings in an arc.
fn push_arc<L: Ledger>(s: &mut Solver, a: Arc, steps: &mut Steps<L>) -> Result<(), AllocError>
    requires current { IsCurrent s.old }
    requires fits { FitsNodes s.old.graph.nodes a }
    requires room { length s.old.graph.arcs < most_arcs }
    ensures current { OnOk result (IsCurrent s.new) }
    ensures graph { OnOk result (s.new.graph ≡ with_arc s.old.graph a) }
    ensures added { OnOk result ((p : ProblemLists) → IsBoundAmong p s.old.graph.nodes a → AddsBounds p (a.name ∷ []) s.old s.new) }
{
    s.push_arc(a, steps)?;
    Ok(())
}

// Brings in arcs, one after another.
fn push_arcs<L: Ledger>(s: &mut Solver, arcs: Arcs, steps: &mut Steps<L>) -> Result<(), AllocError>
    requires current { IsCurrent s.old }
    requires fit { All (FitsNodes s.old.graph.nodes) (arcs_in arcs) }
    requires room { length s.old.graph.arcs + 2 ≤ most_arcs }
    ensures { OnOk result ((p : ProblemLists) → All (IsBoundAmong p s.old.graph.nodes) (arcs_in arcs)
        → AddsBounds p (names_of (arcs_in arcs)) s.old s.new) }
{
    match arcs {
        Arcs::Nothing => Ok(()),
        Arcs::One(a) => push_arc(s, a, steps),
        Arcs::Two(a, b) => {
            push_arc(s, a, steps)?;
            push_arc(s, b, steps)
        }
    }
}

// Brings in the bounds of an item.
fn push_item<L: Ledger>(
    s: &mut Solver,
    p: &Problem,
    readings: &[(u32, Nano)],
    item: Item,
    steps: &mut Steps<L>,
) -> Result<(), AllocError>
    requires current { IsCurrent s.old }
    requires nodes { HasNodesOf p.now s.old }
    requires readings { AreReadings p.now readings.now }
    requires item { IsItem p.now readings.now item }
    requires room { length s.old.graph.arcs + 2 ≤ most_arcs }
    ensures { OnOk result (AddsBounds p.now (bounds_of p.now readings.now item) s.old s.new) }
{
    let arcs = item_arcs(p, readings, item);
    push_arcs(s, arcs, steps)
}

/// Brings in the bounds of items, one after another.
pub fn push_items<L: Ledger>(
    s: &mut Solver,
    p: &Problem,
    readings: &[(u32, Nano)],
    items: &[Ranked],
    steps: &mut Steps<L>,
) -> Result<(), AllocError>
    requires current { IsCurrent s.old }
    requires nodes { HasNodesOf p.now s.old }
    requires none { s.old.graph.arcs ≡ [] }
    requires readings { AreReadings p.now readings.now }
    requires items { All (IsItem p.now readings.now) (items_of items.now) }
    requires few { length items.now + length items.now ≤ most_arcs }
    ensures { OnOk result (AddsBounds p.now (flat_map (bounds_of p.now readings.now) (items_of items.now)) s.old s.new) }
{
    for ranked in items {
        push_item(s, p, readings, ranked.item, steps)?;
    }
    Ok(())
}

/// Appends the nodes of a problem in their order to a solver without nodes. Room was reserved for them.
pub fn push_nodes(s: &mut Solver, p: &Problem, readings: &[(u32, Nano)]) -> Result<(), AllocError>
    requires readings { AreReadings p.now readings.now }
    requires start { NodesCome p.now readings.now (nodes_of p.now readings.now) s.old }
    ensures come { OnOk result (NodesCome p.now readings.now [] s.new) }
    ensures pool { OnOk result (s.new.pool ≡ s.old.pool) }
    ensures kept { OnOk result (s.new.kept ≡ s.old.kept) }
{
    let events = p.events().len();
    for place in 0..events {
        s.push_node(Node::Event(place as u32))?;
    }
    for reading in readings {
        s.push_node(Node::Reading(reading.0, reading.1))?;
    }
    Ok(())
}
