// Arcs without the places in their names.
ghost use Rattle.std.specs.Prelude.{◌≡◌, ℕ, ◌<◌, ◌++◌, ◌∷◌, [], length, slice_index_or, OnOk, OnErr};
ghost use Rattle.problem_model.specs.declared.items.Node.TheVariants as nodes;
ghost use Rattle.sync_graph.specs.Names.{JoinsNodes};
ghost use Rattle.sync_graph.specs.Kinds.{bound_kind, name_between, of_kind};

use crate::arc::Arc;
use atto::Nano;
use problem_model::{Bound, Node};
use std::alloc::{AllocError, Global};
use std::marker::Model;

/// The kind of a bound. With the two nodes that the bound is between it tells the bound's name.
#[derive(Clone, Copy)]
pub enum Kind {
    SpanMost,
    SpanLeast,
    Late,
    Early,
    Follow,
    DelayMost,
    DelayLeast,
}

/// An arc with the kind of its bound in place of the bound's name.
#[derive(Clone, Copy)]
pub struct KindArc {
    /// The number of the tail.
    pub from: u32,
    /// The number of the head.
    pub to: u32,
    /// In units of 1e-9 ns.
    pub weight: i128,
    pub kind: Kind,
}

#[derive(Clone, Copy)]
struct Ends {
    from: u32,
    to: u32,
}

// The kind of a bound of this name.
fn kind_of(name: Bound) -> Kind
    ensures { result ≡ bound_kind name }
{
    match name {
        Bound::SpanMost { .. } => Kind::SpanMost,
        Bound::SpanLeast { .. } => Kind::SpanLeast,
        Bound::Late(_) => Kind::Late,
        Bound::Early(_) => Kind::Early,
        Bound::Follow { .. } => Kind::Follow,
        Bound::DelayMost { .. } => Kind::DelayMost,
        Bound::DelayLeast { .. } => Kind::DelayLeast,
    }
}

/// The arc with the kind of its bound in place of the bound's name.
pub fn of_kind(a: Arc) -> KindArc
    ensures { result ≡ of_kind a }
{
    KindArc {
        from: a.from,
        to: a.to,
        weight: a.weight,
        kind: kind_of(a.name),
    }
}

// The clock and the stamp of a node that is a reading.
fn reading(node: Node) -> (u32, Nano)
    requires { (clock : ℕ) × (stamp : ℕ) × (node ≡ nodes.Reading clock stamp) }
    ensures { node ≡ nodes.Reading result.0 result.1 }
{
    match node {
        Node::Reading(clock, stamp) => (clock, stamp),
        Node::Event(_) => unreachable!(),
    }
}

// The place of a node that is an event.
fn event(node: Node) -> u32
    requires { (place : ℕ) × (node ≡ nodes.Event place) }
    ensures { node ≡ nodes.Event result }
{
    match node {
        Node::Event(place) => place,
        Node::Reading(..) => unreachable!(),
    }
}

/// The name of the bound of this kind from one node to another.
pub fn name_between(kind: Kind, from: Node, to: Node) -> Bound
    requires { JoinsNodes (name_between kind from to) from to }
    ensures { result ≡ name_between kind from to }
{
    match kind {
        Kind::SpanMost => {
            let (clock, s) = reading(from);
            let (_, t) = reading(to);
            Bound::SpanMost { clock, s, t }
        }
        Kind::SpanLeast => {
            let (clock, t) = reading(from);
            let (_, s) = reading(to);
            Bound::SpanLeast { clock, s, t }
        }
        Kind::Late => Bound::Late(event(to)),
        Kind::Early => Bound::Early(event(from)),
        Kind::Follow => {
            let (later, t) = reading(from);
            let (earlier, s) = reading(to);
            Bound::Follow {
                earlier,
                s,
                later,
                t,
            }
        }
        Kind::DelayMost => Bound::DelayMost {
            send: event(from),
            receive: event(to),
        },
        Kind::DelayLeast => Bound::DelayLeast {
            send: event(to),
            receive: event(from),
        },
    }
}

/// Arcs by their numbers, each in 25 bytes.
#[derive(Drop)]
pub struct Arcs {
    ends: Vec<Ends>,
    weights: Vec<i128>,
    kinds: Vec<Kind>,
}

impl Model for Arcs {
    ghost use Rattle.std.specs.Prelude.{◌≡◌, List, length};
    ghost use Rattle.sync_graph.specs.declared.arcs.KindArc.{KindArc};
    ghost use Rattle.sync_graph.specs.Kinds.{joined};

    ghost Value = { List KindArc };

    ghost view = { λ a. joined a.ends.items a.weights.items a.kinds.items };

    ghost invariant = { λ a. (length a.weights.items ≡ length a.ends.items) × (length a.kinds.items ≡ length a.ends.items) };
}

impl Arcs {
    /// No arcs. It takes no memory.
    pub fn new(alloc: Global) -> Arcs
        ensures { result ≡ [] }
    {
        Arcs {
            ends: Vec::new(alloc),
            weights: Vec::new(alloc),
            kinds: Vec::new(alloc),
        }
    }

    /// How many arcs there are.
    pub fn len(&self) -> usize
        ensures { result ≡ length self.now }
    {
        self.ends.len()
    }

    /// Appends an arc, and leaves all as it was where memory runs out.
    pub fn push(&mut self, a: KindArc) -> Result<(), AllocError>
        ensures ok { OnOk result (self.new ≡ self.old ++ a ∷ []) }
        ensures err { OnErr result (self.new ≡ self.old) }
    {
        self.ends.reserve(1)?;
        self.weights.reserve(1)?;
        self.kinds.reserve(1)?;
        self.ends.push_reserved(Ends {
            from: a.from,
            to: a.to,
        });
        self.weights.push_reserved(a.weight);
        self.kinds.push_reserved(a.kind);
        Ok(())
    }

    /// The arc of a number.
    pub fn get(&self, k: u32) -> KindArc
        requires { k < length self.now }
        ensures { result ≡ slice_index_or self.now k result }
    {
        let ends = self.ends[k as usize];
        KindArc {
            from: ends.from,
            to: ends.to,
            weight: self.weights[k as usize],
            kind: self.kinds[k as usize],
        }
    }
}
