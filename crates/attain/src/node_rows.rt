// The rows of a node, by which the ends of intervals from it are written.
ghost use Rattle.std.specs.Prelude.{◌≡◌, ◌<◌, true, length};
ghost use Rattle.problem_model.specs.Executions.{at};
ghost use Rattle.problem_model.specs.Numbers.{IsUpTo};
ghost use Rattle.problem_model.specs.Limits.{path_bits};
ghost use Rattle.sync_graph.specs.Graph.{arc_at};
ghost use Rattle.sync_graph.specs.InForce.{IsEarliestOf};
ghost use Rattle.row_pool.specs.Row.{cell_at};
ghost use Rattle.attain.specs.Ends.{AreRowsAt};
ghost use Rattle.attain.specs.RowLists.{AreRows, IsKnown, row_for, cells_for};
ghost use Rattle.attain.specs.Sides.{differences};

use crate::side::Side;
use earliest::Earliest;
use row_pool::Cell;
use std::marker::Model;
use sync_graph::{Arc, Graph};

/// The rows of distances from a node of a graph and towards it, with the graph's earliest execution.
#[derive(Drop)]
pub struct NodeRows<'a> {
    graph: &'a Graph,
    earliest: &'a Earliest,
    node: u32,
    from: &'a [Cell],
    to: &'a [Cell],
}

impl<'a> Model for NodeRows<'a> {
    ghost use Rattle.std.specs.Prelude.{◌≡◌, true};
    ghost use Rattle.attain.specs.RowLists.{RowLists, AreRows};

    ghost Value = { RowLists };

    ghost view = { λ r. record { graph = r.graph.now; values = r.earliest.now.values; node = r.node; from = r.from.now; to = r.to.now } };

    ghost invariant = { λ r. (r.earliest.now.is_solved ≡ true) × AreRows (record { graph = r.graph.now; values = r.earliest.now.values; node = r.node; from = r.from.now; to = r.to.now }) };
}

impl<'a> NodeRows<'a> {
    /// The row of distances from a node, and that towards it, in a graph whose earliest execution is known.
    pub fn new(
        graph: &'a Graph,
        earliest: &'a Earliest,
        node: u32,
        from: &'a [Cell],
        to: &'a [Cell],
    ) -> NodeRows<'a>
        requires solved { earliest.now.is_solved ≡ true }
        requires earliest { IsEarliestOf graph.now earliest.now.values }
        requires rows { AreRowsAt graph.now node from.now to.now }
        ensures { result ≡ record { graph = graph.now; values = earliest.now.values; node = node; from = from.now; to = to.now } }
    {
        // It tells what the lists of the graph hold.
        graph.exact();
        NodeRows {
            graph,
            earliest,
            node,
            from,
            to,
        }
    }

    // A law, which does nothing when it runs: the values are the earliest execution, and the rows those of the node.
    pub(crate) fn exact(&self)
        ensures { AreRows self.now }
    {
        let _ = &self.node;
    }

    // The earliest execution.
    pub(crate) fn earliest(&self) -> &'a Earliest
        ensures solved { result.now.is_solved ≡ true }
        ensures values { result.now.values ≡ self.now.values }
    {
        self.earliest
    }

    // The node that the rows are those of.
    pub(crate) fn node(&self) -> u32
        ensures { result ≡ self.now.node }
    {
        self.node
    }

    // How many nodes the graph has.
    pub(crate) fn nodes(&self) -> u32
        ensures { result ≡ length self.now.graph.nodes }
    {
        self.graph.nodes()
    }

    // The earliest value of a node.
    pub(crate) fn value(&self, node: u32) -> i128
        requires { node < length self.now.graph.nodes }
        ensures value { result ≡ at self.now.values node }
        ensures small { IsUpTo path_bits result }
    {
        self.earliest.value(node)
    }

    // The row for an end.
    fn row(&self, side: Side) -> &'a [Cell]
        ensures { result.now ≡ row_for side self.now }
    {
        match side {
            Side::Upper => self.from,
            Side::Lower => self.to,
        }
    }

    // What the row for an end says of a node.
    fn cell(&self, side: Side, node: u32) -> Cell
        requires { node < length self.now.graph.nodes }
        ensures { result ≡ cell_at (row_for side self.now) node }
    {
        // It tells that there is a cell for each node.
        self.exact();
        let row = self.row(side);
        row[node as usize]
    }

    // Whether the row for an end has a distance of a node.
    pub(crate) fn is_known(&self, side: Side, node: u32) -> bool
        requires { node < length self.now.graph.nodes }
        ensures { result ≡ (cells_for side self.now).known node }
    {
        self.cell(side, node).known
    }

    // The greatest or the least difference that the distance of a known node is.
    pub(crate) fn difference(&self, side: Side, node: u32) -> i128
        requires { IsKnown side self.now node }
        ensures value { result ≡ differences side (cells_for side self.now) node }
        ensures small { IsUpTo path_bits result }
    {
        // It tells how great distances are.
        self.exact();
        side.difference(&self.cell(side, node))
    }

    // The arc between a known node and its parent.
    pub(crate) fn parent_arc(&self, side: Side, node: u32) -> Arc
        requires known { IsKnown side self.now node }
        requires parent { (cells_for side self.now).parent node < length self.now.graph.arcs }
        ensures { result ≡ arc_at self.now.graph.arcs ((cells_for side self.now).parent node) }
    {
        // It tells that known nodes are nodes of the graph.
        self.exact();
        self.graph.arc(self.cell(side, node).parent)
    }
}
