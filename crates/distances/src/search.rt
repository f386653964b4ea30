// What a search looks at: a graph, values by which nodes are ordered, and the way in which arcs are followed.
ghost use Rattle.std.specs.Prelude.{◌≡◌, ◌+◌, ◌<◌, ◌-ℤ◌, true, length, slice_get};
ghost use Rattle.problem_model.specs.Executions.{at};
ghost use Rattle.problem_model.specs.Numbers.{IsUpTo};
ghost use Rattle.problem_model.specs.Limits.{path_bits};
ghost use Rattle.sync_graph.specs.Graph.{arc_at};
ghost use Rattle.sync_graph.specs.Lists.{list_at};
ghost use Rattle.earliest.specs.Values.{IsEarliestOf};
ghost use Rattle.distances.specs.Facing.{end_of, opposite, followed};
ghost use Rattle.distances.specs.Guides.{guided_values, IsSmallGuide};
ghost use Rattle.distances.specs.Searched.{IsSearch, nodes, lists, height};

use crate::guide::{cell_of, guided_value};
use crate::side::Side;
use atto::Steps;
use earliest::Earliest;
use problem_model::numbers::reduced_distance;
use row_pool::Cell;
use std::marker::Model;
use std::sync::ledger::Ledger;
use sync_graph::{Arc, Graph};

/// A graph with its earliest execution, whose arcs are followed from nodes or towards them. Nodes are ordered by that
/// execution, or by a guide.
#[derive(Drop)]
pub struct Search<'a> {
    graph: &'a Graph,
    earliest: &'a Earliest,
    side: Side,
    guided: bool,
    from: &'a [Cell],
    to: &'a [Cell],
    fence: &'a [Cell],
    beyond: i128,
}

impl<'a> Model for Search<'a> {
    ghost use Rattle.std.specs.Prelude.{◌≡◌, true, length};
    ghost use Rattle.problem_model.specs.Limits.{path_bits};
    ghost use Rattle.problem_model.specs.Numbers.{IsUpTo};
    ghost use Rattle.std.specs.Prelude.{All};
    ghost use Rattle.distances.specs.Guides.{ordering, IsSmallGuide};
    ghost use Rattle.distances.specs.Searched.{Searched, IsSearch};

    ghost Value = { Searched };

    ghost view = { λ s. record { graph = s.graph.now; values = ordering s.guided (record { from = s.from.now; to = s.to.now; fence = s.fence.now; beyond = s.beyond }) s.earliest.now.values; side = s.side } };

    ghost invariant = { λ s. (s.earliest.now.is_solved ≡ true) × (length s.earliest.now.values ≡ length s.graph.now.nodes) × All (IsUpTo path_bits) s.earliest.now.values
        × IsSmallGuide (record { from = s.from.now; to = s.to.now; fence = s.fence.now; beyond = s.beyond })
        × IsSearch (record { graph = s.graph.now; values = ordering s.guided (record { from = s.from.now; to = s.to.now; fence = s.fence.now; beyond = s.beyond }) s.earliest.now.values; side = s.side }) };
}

impl<'a> Search<'a> {
    /// A search of a graph whose earliest execution is known.
    pub fn new(graph: &'a Graph, earliest: &'a Earliest, side: Side) -> Search<'a>
        requires solved { earliest.now.is_solved ≡ true }
        requires earliest { IsEarliestOf graph.now earliest.now.values }
        ensures { result ≡ record { graph = graph.now; values = earliest.now.values; side = side } }
    {
        // It tells what the lists of the graph hold.
        graph.exact();
        Search {
            graph,
            earliest,
            side,
            guided: false,
            from: &[],
            to: &[],
            fence: &[],
            beyond: 0,
        }
    }

    /// The same with a row from a node and the row towards it, and with a fence, as a guide.
    pub fn guided(
        graph: &'a Graph,
        earliest: &'a Earliest,
        side: Side,
        from: &'a [Cell],
        to: &'a [Cell],
        fence: &'a [Cell],
        beyond: i128,
    ) -> Search<'a>
        requires solved { earliest.now.is_solved ≡ true }
        requires earliest { IsEarliestOf graph.now earliest.now.values }
        requires guide { IsSmallGuide (record { from = from.now; to = to.now; fence = fence.now; beyond = beyond }) }
        requires ordered { IsSearch (record { graph = graph.now; values = guided_values (record { from = from.now; to = to.now; fence = fence.now; beyond = beyond }) earliest.now.values; side = side }) }
        ensures { result ≡ record { graph = graph.now; values = guided_values (record { from = from.now; to = to.now; fence = fence.now; beyond = beyond }) earliest.now.values; side = side } }
    {
        Search {
            graph,
            earliest,
            side,
            guided: true,
            from,
            to,
            fence,
            beyond,
        }
    }

    /// The same search the other way round.
    pub fn turned(&self) -> Search<'a>
        ensures { result ≡ record { graph = self.now.graph; values = self.now.values; side = opposite self.now.side } }
    {
        Search {
            graph: self.graph,
            earliest: self.earliest,
            side: self.side.opposite(),
            guided: self.guided,
            from: self.from,
            to: self.to,
            fence: self.fence,
            beyond: self.beyond,
        }
    }

    /// A law, which does nothing when it runs: the values obey the arcs of the graph, and are small.
    pub fn exact(&self)
        ensures { IsSearch self.now }
    {
        let _ = &self.side;
    }

    /// An arc of the graph.
    pub fn arc(&self, arc: u32) -> Arc
        requires { arc < length self.now.graph.arcs }
        ensures { result ≡ arc_at self.now.graph.arcs arc }
    {
        self.graph.arc(arc)
    }

    /// How many arcs the graph has, in force or not.
    pub fn arcs(&self) -> u32
        ensures { result ≡ length self.now.graph.arcs }
    {
        self.graph.arcs()
    }

    /// The end to which an arc is followed.
    pub fn head(&self, arc: &Arc) -> u32
        ensures { result ≡ end_of self.now.side arc.now }
    {
        self.side.end(arc)
    }

    /// The end from which an arc is followed.
    pub fn tail(&self, arc: &Arc) -> u32
        ensures { result ≡ end_of (opposite self.now.side) arc.now }
    {
        self.side.opposite().end(arc)
    }

    /// The number of the arc at place `k` of those that are followed from a node, in one step.
    pub fn next_arc<L: Ledger>(&self, node: u32, k: u32, steps: &mut Steps<L>) -> Option<u32>
        requires { node < nodes self.now }
        ensures entry { result ≡ slice_get (list_at (lists self.now) node) k }
        ensures step { steps.new ≡ steps.old + 1 }
    {
        match self.side {
            Side::From => self.graph.leaving(node, k, steps),
            Side::Towards => self.graph.arriving(node, k, steps),
        }
    }

    /// The number of the arc at place `k` of those that are followed to a node, in one step.
    pub fn next_arc_to<L: Ledger>(&self, node: u32, k: u32, steps: &mut Steps<L>) -> Option<u32>
        requires { node < nodes self.now }
        ensures entry { result ≡ slice_get (list_at (followed (opposite self.now.side) self.now.graph) node) k }
        ensures step { steps.new ≡ steps.old + 1 }
    {
        match self.side {
            Side::From => self.graph.arriving(node, k, steps),
            Side::Towards => self.graph.leaving(node, k, steps),
        }
    }

    // The value by which a node is ordered.
    fn value(&self, node: u32) -> i128
        requires node { node < nodes self.now }
        ensures { result ≡ at self.now.values node }
    {
        let value = self.earliest.value(node);
        if !self.guided {
            return value;
        }
        let from = cell_of(self.from, node);
        let to = cell_of(self.to, node);
        let fence = cell_of(self.fence, node);
        guided_value(&from, &to, &fence, value, self.beyond)
    }

    /// The reduced cost of a distance of a node: less by the node's value, or more by it for a row towards a node.
    pub fn key(&self, node: u32, distance: i128) -> i128
        requires node { node < nodes self.now }
        requires distance { IsUpTo (path_bits + 4) distance }
        ensures { result ≡ distance -ℤ height self.now node }
    {
        // It tells that the values are small.
        self.exact();
        let value = self.value(node);
        match self.side {
            Side::From => reduced_distance(distance, value),
            Side::Towards => reduced_distance(distance, -value),
        }
    }
}
