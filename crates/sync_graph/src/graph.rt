// A graph of numbered arcs.
ghost use Rattle.std.specs.Prelude.{◌≡◌, ℕ, ◌<◌, ◌+◌, ◌++◌, ◌∷◌, [], length, true, false, slice_get, slice_set, slice_index_or, Some, IfSome, IfNone, OnOk, OnErr, IfOk};
ghost use Rattle.problem_model.specs.Sums.{sum_to};
ghost use Rattle.problem_model.specs.Limits.{most_arcs, most_nodes};
ghost use Rattle.sync_graph.specs.Lists.{list_at};
ghost use Rattle.sync_graph.specs.Neighbours.{IsNearestBelow, IsNearestAbove, IsFirstReading, IsLastReading, HasNoReading};
ghost use Rattle.sync_graph.specs.Names.{IsNamed};
ghost use Rattle.sync_graph.specs.Graph.{GraphLists, IsGraph, IsSound, arc_at, no_graph, with_node, with_arc, departing, reaching, arcs_in_force};

use crate::arc::Arc;
use crate::arcs::{Arcs, KindArc, name_between, of_kind};
use crate::lists::Lists;
use crate::numbers::Numbers;
use atto::{Nano, Steps};
use problem_model::Node;
use std::alloc::{AllocError, Global};
use std::marker::Model;
use std::sync::ledger::Ledger;

/// Nodes and arcs by their numbers, with the arcs in force that leave and reach each node.
#[derive(Drop)]
pub struct Graph {
    numbers: Numbers,
    arcs: Arcs,
    in_force: Vec<bool>,
    leaving: Lists,
    arriving: Lists,
}

impl Model for Graph {
    ghost use Rattle.sync_graph.specs.Graph.{GraphLists, IsGraph};
    ghost use Rattle.sync_graph.specs.Kinds.{named_arcs};

    ghost Value = { GraphLists };

    ghost view = { λ s. record { nodes = s.numbers; arcs = named_arcs s.numbers s.arcs; in_force = s.in_force.items; leaving = s.leaving; arriving = s.arriving } };

    ghost invariant = { λ s. IsGraph (record { nodes = s.numbers; arcs = named_arcs s.numbers s.arcs; in_force = s.in_force.items; leaving = s.leaving; arriving = s.arriving }) };
}

// Appends the number of an arc to the lists of both its ends, or leaves both as they were.
fn push_both(
    leaving: &mut Lists,
    arriving: &mut Lists,
    from: u32,
    to: u32,
    k: u32,
) -> Result<(), AllocError>
    requires from { from < length leaving.old }
    requires to { to < length arriving.old }
    requires few_leaving { length (list_at leaving.old from) < most_arcs }
    requires few_arriving { length (list_at arriving.old to) < most_arcs }
    ensures leaving { OnOk result (leaving.new ≡ slice_set leaving.old from (list_at leaving.old from ++ k ∷ [])) }
    ensures arriving { OnOk result (arriving.new ≡ slice_set arriving.old to (list_at arriving.old to ++ k ∷ [])) }
    ensures err { OnErr result ((leaving.new ≡ leaving.old) × (arriving.new ≡ arriving.old)) }
{
    if let Err(_) = leaving.push_to(from, k) {
        return Err(AllocError);
    }
    if let Err(_) = arriving.push_to(to, k) {
        leaving.pop_from(from);
        return Err(AllocError);
    }
    Ok(())
}

// Appends an arc to all three, with its number in the lists, or leaves all as they were.
fn push_all(
    arcs: &mut Arcs,
    leaving: &mut Lists,
    arriving: &mut Lists,
    a: KindArc,
    k: u32,
) -> Result<(), AllocError>
    requires from { a.from < length leaving.old }
    requires to { a.to < length arriving.old }
    requires few_leaving { length (list_at leaving.old a.from) < most_arcs }
    requires few_arriving { length (list_at arriving.old a.to) < most_arcs }
    ensures arcs { OnOk result (arcs.new ≡ arcs.old ++ a ∷ []) }
    ensures leaving { OnOk result (leaving.new ≡ slice_set leaving.old a.from (list_at leaving.old a.from ++ k ∷ [])) }
    ensures arriving { OnOk result (arriving.new ≡ slice_set arriving.old a.to (list_at arriving.old a.to ++ k ∷ [])) }
    ensures err { OnErr result ((arcs.new ≡ arcs.old) × (leaving.new ≡ leaving.old) × (arriving.new ≡ arriving.old)) }
{
    push_both(leaving, arriving, a.from, a.to, k)?;
    if let Err(_) = arcs.push(a) {
        leaving.pop_from(a.from);
        arriving.pop_from(a.to);
        return Err(AllocError);
    }
    Ok(())
}

// Appends an empty list to both, or leaves both as they were.
fn grow_both(leaving: &mut Lists, arriving: &mut Lists) -> Result<(), AllocError>
    ensures leaving { OnOk result (leaving.new ≡ leaving.old ++ [] ∷ []) }
    ensures arriving { OnOk result (arriving.new ≡ arriving.old ++ [] ∷ []) }
    ensures err { OnErr result ((leaving.new ≡ leaving.old) × (arriving.new ≡ arriving.old)) }
{
    if let Err(_) = leaving.grow() {
        return Err(AllocError);
    }
    if let Err(_) = arriving.grow() {
        leaving.shrink();
        return Err(AllocError);
    }
    Ok(())
}

// Appends a node without arcs to all three, or leaves all as they were.
fn grow_all(
    numbers: &mut Numbers,
    leaving: &mut Lists,
    arriving: &mut Lists,
    n: Node,
) -> Result<(), AllocError>
    requires new { (k : ℕ) → slice_get numbers.old k ≡ Some n → ⊥ }
    requires room { length numbers.old < most_nodes }
    ensures numbers { OnOk result (numbers.new ≡ numbers.old ++ n ∷ []) }
    ensures leaving { OnOk result (leaving.new ≡ leaving.old ++ [] ∷ []) }
    ensures arriving { OnOk result (arriving.new ≡ arriving.old ++ [] ∷ []) }
    ensures err { OnErr result ((numbers.new ≡ numbers.old) × (leaving.new ≡ leaving.old) × (arriving.new ≡ arriving.old)) }
{
    grow_both(leaving, arriving)?;
    if let Err(_) = numbers.push(n) {
        leaving.shrink();
        arriving.shrink();
        return Err(AllocError);
    }
    Ok(())
}

impl Graph {
    /// The graph without nodes and arcs. It takes no memory.
    pub fn new(alloc: Global) -> Graph
        ensures { result ≡ no_graph }
    {
        Graph {
            numbers: Numbers::new(alloc),
            arcs: Arcs::new(alloc),
            in_force: Vec::new(alloc),
            leaving: Lists::new(alloc),
            arriving: Lists::new(alloc),
        }
    }

    /// A graph of the same nodes, with the same numbers, without arcs.
    pub fn without_arcs(&self, alloc: Global) -> Result<Graph, AllocError>
        ensures nodes { IfOk result (λ g. g.nodes ≡ self.now.nodes) }
        ensures arcs { IfOk result (λ g. g.arcs ≡ []) }
        ensures flags { IfOk result (λ g. g.in_force ≡ []) }
    {
        let mut g = Graph::new(alloc);
        for k in 0..self.nodes() {
            g.push_node(self.numbers.node(k))?;
        }
        Ok(g)
    }

    /// How many nodes there are, at most 2^25.
    pub fn nodes(&self) -> u32
        ensures { result ≡ length self.now.nodes }
    {
        self.leaving.len() as u32
    }

    /// How many arcs there are, in force or not, at most 2^28.
    pub fn arcs(&self) -> u32
        ensures { result ≡ length self.now.arcs }
    {
        self.arcs.len() as u32
    }

    /// A law, which does nothing when it runs. Each node's list of leaving arcs holds every arc in force with this
    /// tail, once, and no other; each node's list of arriving arcs does so for the arcs with this head.
    pub fn exact(&self)
        ensures { IsGraph self.now }
    {
        let _ = &self.arcs;
    }

    /// A law, which does nothing when it runs. The lists of leaving arcs of all nodes have together as many entries as
    /// arcs are in force, and so have the lists of arriving arcs.
    pub fn degrees(&self)
        ensures leaving { sum_to (length self.now.nodes) (departing self.now) ≡ arcs_in_force self.now }
        ensures arriving { sum_to (length self.now.nodes) (reaching self.now) ≡ arcs_in_force self.now }
    {
        self.exact();
    }

    /// Appends a node without arcs, and answers its number. All stays as it was where memory runs out.
    pub fn push_node(&mut self, n: Node) -> Result<u32, AllocError>
        requires new { (k : ℕ) → slice_get self.old.nodes k ≡ Some n → ⊥ }
        requires room { length self.old.nodes < most_nodes }
        ensures number { IfOk result (λ node. node ≡ length self.old.nodes) }
        ensures ok { OnOk result (self.new ≡ with_node self.old n) }
        ensures err { OnErr result (self.new ≡ self.old) }
    {
        let node = self.leaving.len() as u32;
        if let Err(_) = grow_all(&mut self.numbers, &mut self.leaving, &mut self.arriving, n) {
            return Err(AllocError);
        }
        Ok(node)
    }

    /// Appends an arc, in force, and answers its number. All stays as it was where memory runs out.
    pub fn push_arc(&mut self, a: Arc) -> Result<u32, AllocError>
        requires sound { IsSound (length self.old.nodes) a }
        requires named { IsNamed self.old.nodes a }
        requires room { length self.old.arcs < most_arcs }
        ensures number { IfOk result (λ k. k ≡ length self.old.arcs) }
        ensures ok { OnOk result (self.new ≡ with_arc self.old a) }
        ensures err { OnErr result (self.new ≡ self.old) }
    {
        let k = self.arcs.len() as u32;
        if let Err(_) = self.in_force.reserve(1) {
            return Err(AllocError);
        }
        if let Err(_) = push_all(
            &mut self.arcs,
            &mut self.leaving,
            &mut self.arriving,
            of_kind(a),
            k,
        ) {
            return Err(AllocError);
        }
        self.in_force.push_reserved(true);
        Ok(k)
    }

    /// Takes an arc out of force. It takes no memory.
    pub fn withdraw(&mut self, k: u32)
        requires { slice_index_or self.old.in_force k false ≡ true }
        ensures nodes { self.new.nodes ≡ self.old.nodes }
        ensures arcs { self.new.arcs ≡ self.old.arcs }
        ensures in_force { self.new.in_force ≡ slice_set self.old.in_force k false }
    {
        let a = self.arcs.get(k);
        self.in_force[k as usize] = false;
        self.leaving.remove(a.from, k);
        self.arriving.remove(a.to, k);
    }

    /// The arc of a number, in force or not.
    pub fn arc(&self, k: u32) -> Arc
        requires { k < length self.now.arcs }
        ensures { result ≡ arc_at self.now.arcs k }
    {
        let a = self.arcs.get(k);
        let from = self.numbers.node(a.from);
        let to = self.numbers.node(a.to);
        Arc {
            from: a.from,
            to: a.to,
            weight: a.weight,
            name: name_between(a.kind, from, to),
        }
    }

    /// The number of a node, and None exactly where it is not there.
    pub fn node_of(&self, n: Node) -> Option<u32>
        ensures some { IfSome result (λ k. slice_get self.now.nodes k ≡ Some n) }
        ensures none { IfNone result ((k : ℕ) → slice_get self.now.nodes k ≡ Some n → ⊥) }
    {
        self.numbers.number(&n)
    }

    /// The nodes of the nearest readings of a clock strictly below and strictly above a stamp, each None exactly where there
    /// is none.
    pub fn neighbours(&self, clock: u32, stamp: Nano) -> (Option<u32>, Option<u32>)
        ensures below { IsNearestBelow self.now.nodes clock stamp result.0 }
        ensures above { IsNearestAbove self.now.nodes clock stamp result.1 }
    {
        (self.below(clock, stamp), self.above(clock, stamp))
    }

    fn below(&self, clock: u32, stamp: Nano) -> Option<u32>
        ensures { IsNearestBelow self.now.nodes clock stamp result }
    {
        self.numbers.below(clock, stamp)
    }

    fn above(&self, clock: u32, stamp: Nano) -> Option<u32>
        ensures { IsNearestAbove self.now.nodes clock stamp result }
    {
        self.numbers.above(clock, stamp)
    }

    /// The nodes of a clock's first and last reading, and None exactly where no node is a reading of it. It takes no
    /// memory.
    pub fn ends_of(&self, clock: u32) -> Option<(u32, u32)>
        ensures first { IfSome result (λ ends. IsFirstReading self.now.nodes clock ends.0) }
        ensures last { IfSome result (λ ends. IsLastReading self.now.nodes clock ends.1) }
        ensures none { IfNone result (HasNoReading self.now.nodes clock) }
    {
        let first = self.numbers.first(clock)?;
        let last = self.numbers.last(clock)?;
        Some((first, last))
    }

    /// The number of one of the arcs in force that leave a node, the `k`-th of its list from 0 on; None exactly behind
    /// the list's end. The list of a node changes only where arcs are pushed or withdrawn. Each call is one step.
    pub fn leaving<L: Ledger>(&self, node: u32, k: u32, steps: &mut Steps<L>) -> Option<u32>
        requires { node < length self.now.nodes }
        ensures entry { result ≡ slice_get (list_at self.now.leaving node) k }
        ensures step { steps.new ≡ steps.old + 1 }
    {
        steps.tick();
        self.leaving.entry(node, k)
    }

    /// The number of one of the arcs in force that reach a node, the `k`-th of its list from 0 on; None exactly behind
    /// the list's end. The list of a node changes only where arcs are pushed or withdrawn. Each call is one step.
    pub fn arriving<L: Ledger>(&self, node: u32, k: u32, steps: &mut Steps<L>) -> Option<u32>
        requires { node < length self.now.nodes }
        ensures entry { result ≡ slice_get (list_at self.now.arriving node) k }
        ensures step { steps.new ≡ steps.old + 1 }
    {
        steps.tick();
        self.arriving.entry(node, k)
    }
}
