// Proposes the least widening of a problem in one pass over its bounds. What is proposed is judged before it is taken
// for true (`proposed`), so no clause says here that it is.
//
// The arcs of a graph of the problem are brought in one by one. One that the values do not obey asks its tail to rise,
// and rises spread against the arcs before, the greatest first, so that each node rises at most once. Where the head of
// the new arc itself is to rise, the arcs by which nodes rose are a contradiction: then the problem is widened by 1 more
// than that lasts, and the arc is brought in again. Weights only grow so, and what was obeyed before still is.
ghost use Rattle.std.specs.Prelude.{◌≡◌, ◌+◌, ◌<◌, ◌≤◌, ◌^◌, length, All, IfOk, IfSome, OnOk};
ghost use Rattle.problem_model.specs.Limits.{most_nodes};
ghost use Rattle.widen.specs.Weighed.{IsNameOf};
ghost use Rattle.widen.specs.Raising.{HoldsBounds, IsLastingOf, IsPassOf};
ghost use Rattle.problem_model.specs.Problem.{ProblemLists};

use crate::cycles::last_of;
use crate::known::nano;
use crate::rises::{Demand, Rise, Rises};
use atto::Steps;
use cert_check::{What, declared_in};
use problem::Problem;
use problem_model::Bound;
use std::alloc::{AllocError, Global};
use std::sync::ledger::Ledger;
use sync_graph::{Arc, Graph};

// How many rises a pass gives out at most, for each node.
const MOST_RISES: u64 = 256;

// How often a pass brings in one arc at most.
const MOST_TRIES: u32 = 1_000;

// The greatest widening.
const MOST_EXTRA: u64 = (1 << 62) - 1;

/// Bounds of a problem, as the arcs of a graph, and what of it is widened.
#[derive(Drop)]
pub struct Bounds<'a> {
    pub problem: &'a Problem,
    pub what: What,
    pub graph: &'a Graph,
}

/// Arcs that are said to be a contradiction where the problem is widened by `last`, in ns or parts per billion.
#[derive(Drop)]
pub struct Lasting {
    pub arcs: Vec<Arc>,
    pub last: u64,
}

/// What a pass has come to.
#[derive(Drop)]
pub struct Pass {
    /// By how much the problem is widened.
    pub extra: u64,
    /// The values, which obey the arcs so far, and what waits.
    pub rises: Rises,
    /// The contradiction that was healed last, or the one that cannot be; without arcs where there was none.
    pub healed: Lasting,
    // The rises since the last arc was brought in.
    given: Vec<Rise>,
    // How many more there may be.
    left: u64,
}

// What bringing in an arc comes to.
#[derive(Clone, Copy)]
enum Outcome {
    // The values obey all arcs so far.
    Obeyed,
    // The arcs by which nodes rose lead from the head of the arc back to it.
    Closed,
    // There were too many rises.
    GivenUp,
}

// Whether bounds of this kind are widened.
fn is_widened(what: What, name: &Bound) -> bool {
    match name {
        Bound::SpanMost { .. } => matches!(what, What::Rates(_)),
        Bound::SpanLeast { .. } => matches!(what, What::Rates(_)),
        Bound::Late(_) => matches!(what, What::Stamps(_)),
        Bound::Early(_) => matches!(what, What::Stamps(_)),
        Bound::Follow { .. } => matches!(what, What::Gaps),
        Bound::DelayMost { .. } => matches!(what, What::Delays(_)),
        Bound::DelayLeast { .. } => matches!(what, What::Least(_)),
    }
}

// The weight that an arc has where the problem is widened by so much, in units of 1e-9 ns.
fn weight_of(b: &Bounds<'_>, extra: u64, arc: &Arc) -> i128
    requires extra { extra < 2 ^ 62 }
    requires name { IsNameOf b.now.problem.now arc.now }
{
    if is_widened(b.what, &arc.name) {
        return declared_in(b.problem, b.what, nano(extra), &arc.name).weight;
    }
    arc.weight
}

// Lets the tail of an arc wait for the rise that the arc asks for.
fn ask(b: &Bounds<'_>, pass: &mut Pass, k: u32)
    requires bounds { HoldsBounds b.now }
    requires pass { IsPassOf b.now pass.old }
    requires arc { k < length b.now.graph.now.arcs }
    ensures { IsPassOf b.now pass.new }
{
    // It tells what the lists of the graph hold.
    b.graph.exact();
    let arc = b.graph.arc(k);
    let weight = weight_of(b, pass.extra, &arc);
    pass.rises.ask(&Demand {
        arc: k,
        from: arc.from,
        to: arc.to,
        weight,
    });
}

// Lets the tails of the arcs before one that arrive at a node wait for the rises that these arcs ask for.
fn ask_tails<L: Ledger>(
    b: &Bounds<'_>,
    pass: &mut Pass,
    node: u32,
    before: u32,
    steps: &mut Steps<L>,
)
    requires bounds { HoldsBounds b.now }
    requires pass { IsPassOf b.now pass.old }
    requires node { node < length b.now.graph.now.nodes }
    requires arc { before < length b.now.graph.now.arcs }
    ensures { IsPassOf b.now pass.new }
{
    for place in 0..before {
        match b.graph.arriving(node, place, steps) {
            Some(k) => {
                if k < before {
                    ask(b, pass, k);
                }
            }
            None => return,
        }
    }
}

// Brings in an arc.
fn bring_in<L: Ledger>(
    b: &Bounds<'_>,
    pass: &mut Pass,
    new: u32,
    steps: &mut Steps<L>,
) -> Result<Outcome, AllocError>
    requires bounds { HoldsBounds b.now }
    requires pass { IsPassOf b.now pass.old }
    requires arc { new < length b.now.graph.now.arcs }
    ensures { IsPassOf b.now pass.new }
{
    pass.given.clear();
    ask(b, pass, new);
    let head = b.graph.arc(new).to;
    for _ in 0..pass.left {
        match pass.rises.give(steps) {
            None => return Ok(Outcome::Obeyed),
            Some(rise) => {
                let node = rise.node;
                pass.given.push(rise)?;
                if node == head {
                    return Ok(Outcome::Closed);
                }
                ask_tails(b, pass, node, new, steps);
            }
        }
        pass.left = pass.left.saturating_sub(1);
    }
    Ok(Outcome::GivenUp)
}

// Takes the rises of the last arc back.
fn take_back(pass: &mut Pass)
    ensures extra { pass.new.extra ≡ pass.old.extra }
    ensures rises { pass.new.rises ≡ pass.old.rises }
    ensures healed { pass.new.healed ≡ pass.old.healed }
{
    while let Some(rise) = pass.given.pop() {
        pass.rises.take_back(&rise);
    }
    pass.rises.forget();
}

// Appends the arc of a number, and answers its head.
fn push_arc(arcs: &mut Vec<Arc>, b: &Bounds<'_>, k: u32) -> Result<u32, AllocError>
    requires bounds { HoldsBounds b.now }
    requires arc { k < length b.now.graph.now.arcs }
    requires names { All (IsNameOf b.now.problem.now) arcs.old.items }
    ensures head { IfOk result (λ head. head < length b.now.graph.now.nodes) }
    ensures names { OnOk result (All (IsNameOf b.now.problem.now) arcs.new.items) }
    ensures one { OnOk result (length arcs.new.items ≡ length arcs.old.items + 1) }
{
    // It tells what the lists of the graph hold.
    b.graph.exact();
    let arc = b.graph.arc(k);
    let name: Bound = arc.name;
    arcs.push(Arc {
        from: arc.from,
        to: arc.to,
        weight: arc.weight,
        name,
    })?;
    Ok(arc.to)
}

// The arcs by which nodes rose, from a node back to it; `None` where they do not lead back.
fn cycle_at(
    alloc: Global,
    b: &Bounds<'_>,
    rises: &Rises,
    head: u32,
) -> Result<Option<Vec<Arc>>, AllocError>
    requires bounds { HoldsBounds b.now }
    requires nodes { length b.now.graph.now.nodes ≡ rises.now }
    requires head { head < length b.now.graph.now.nodes }
    ensures names { IfOk result (λ cycle. IfSome cycle (λ arcs. All (IsNameOf b.now.problem.now) arcs.items)) }
    ensures few { IfOk result (λ cycle. IfSome cycle (λ arcs. length arcs.items ≤ most_nodes)) }
{
    // It tells what the lists of the graph hold.
    b.graph.exact();
    let mut arcs = Vec::new(alloc);
    let mut node = head;
    for _ in 0..b.graph.nodes() {
        let k = rises.reason(node);
        if k >= b.graph.arcs() {
            return Ok(None);
        }
        node = push_arc(&mut arcs, b, k)?;
        if node == head {
            return Ok(Some(arcs));
        }
    }
    Ok(None)
}

// Widens by 1 more than a contradiction lasts; whether that can be.
fn heal(b: &Bounds<'_>, pass: &mut Pass, arcs: Vec<Arc>) -> bool
    requires bounds { HoldsBounds b.now }
    requires pass { IsPassOf b.now pass.old }
    requires names { All (IsNameOf b.now.problem.now) arcs.items }
    requires few { length arcs.items ≤ most_nodes }
    ensures { IsPassOf b.now pass.new }
{
    let last = last_of(b.problem, b.what, &arcs, pass.extra);
    pass.healed = Lasting { arcs, last };
    if last == MOST_EXTRA {
        return false;
    }
    pass.extra = last + 1;
    true
}

// Heals the contradiction that an arc closed; whether that can be.
fn heal_closed(alloc: Global, b: &Bounds<'_>, pass: &mut Pass, new: u32) -> Result<bool, AllocError>
    requires bounds { HoldsBounds b.now }
    requires pass { IsPassOf b.now pass.old }
    requires arc { new < length b.now.graph.now.arcs }
    ensures { IsPassOf b.now pass.new }
{
    // It tells what the lists of the graph hold.
    b.graph.exact();
    let head = b.graph.arc(new).to;
    let cycle = cycle_at(alloc, b, &pass.rises, head)?;
    take_back(pass);
    match cycle {
        Some(arcs) => Ok(heal(b, pass, arcs)),
        None => Ok(false),
    }
}

// Brings in an arc, and widens for it where it closes contradictions; whether the values obey it then.
fn bring_in_healed<L: Ledger>(
    alloc: Global,
    b: &Bounds<'_>,
    pass: &mut Pass,
    new: u32,
    steps: &mut Steps<L>,
) -> Result<bool, AllocError>
    requires bounds { HoldsBounds b.now }
    requires pass { IsPassOf b.now pass.old }
    requires arc { new < length b.now.graph.now.arcs }
    ensures { IsPassOf b.now pass.new }
{
    for _ in 0..MOST_TRIES {
        match bring_in(b, pass, new, steps)? {
            Outcome::Obeyed => return Ok(true),
            Outcome::Closed => {
                if !heal_closed(alloc, b, pass, new)? {
                    return Ok(false);
                }
            }
            Outcome::GivenUp => return Ok(false),
        }
    }
    Ok(false)
}

// The pass before any arc.
fn first_pass(alloc: Global, nodes: u32, extra: u64) -> Result<Pass, AllocError>
    requires { extra < 2 ^ 62 }
    ensures extra { IfOk result (λ pass. pass.extra ≡ extra) }
    ensures rises { IfOk result (λ pass. pass.rises ≡ nodes) }
    ensures healed { IfOk result (λ pass. (p : ProblemLists) → IsLastingOf p pass.healed) }
{
    let rises = Rises::new(alloc, nodes)?;
    let healed = Lasting {
        arcs: Vec::new(alloc),
        last: 0,
    };
    Ok(Pass {
        extra,
        rises,
        healed,
        given: Vec::new(alloc),
        left: u64::from(nodes) * MOST_RISES,
    })
}

/// What one pass from a widening on comes to, and whether it came to its end. An `Err` comes only where memory runs
/// out.
pub fn propose<L: Ledger>(
    alloc: Global,
    b: &Bounds<'_>,
    extra: u64,
    steps: &mut Steps<L>,
) -> Result<(Pass, bool), AllocError>
    requires bounds { HoldsBounds b.now }
    requires extra { extra < 2 ^ 62 }
    ensures { IfOk result (λ proposal. IsPassOf b.now proposal.0) }
{
    let mut pass = first_pass(alloc, b.graph.nodes(), extra)?;
    for k in 0..b.graph.arcs() {
        if !bring_in_healed(alloc, b, &mut pass, k, steps)? {
            return Ok((pass, false));
        }
    }
    Ok((pass, true))
}
