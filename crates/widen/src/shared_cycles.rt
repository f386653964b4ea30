// Contradictions that one search found, for searches of other widenings of the same problem.
ghost use Rattle.std.specs.Prelude.{◌≡◌, ◌<◌, ◌^◌, map, All, IfOk, IfSome, OnOk};
ghost use Rattle.problem_model.specs.Problem.{ProblemLists};
ghost use Rattle.cert_check.specs.declared.what.What.{What};
ghost use Rattle.widen.specs.Weighed.{arc_of};
ghost use Rattle.widen.specs.Search.{IsTried, IsKnown, IsCycleOf};

use crate::attempt::last_cycle;
use crate::cycles::sum_of;
use crate::known::{Known, nano, narrow};
use crate::tried::Tried;
use crate::weighed::arcs_in;
use cert::{Chain, Step};
use cert_check::What;
use problem::Problem;
use problem_model::Bound;
use std::alloc::{AllocError, Global};
use sync_graph::Arc;

// How many cycles are kept.
const MOST_CYCLES: usize = 64;

// A step as an arc, whose ends are left open.
fn arc_of(s: &Step) -> Arc
    ensures { result ≡ arc_of s.now }
{
    let name: Bound = s.bound;
    Arc {
        from: 0,
        to: 0,
        weight: s.weight.get(),
        name,
    }
}

// The steps as arcs.
fn arcs_of(alloc: Global, steps: &[Step]) -> Result<Vec<Arc>, AllocError>
    ensures { IfOk result (λ arcs. arcs.items ≡ map arc_of steps.now) }
{
    let mut arcs = Vec::new(alloc);
    for step in steps {
        arcs.push(arc_of(step))?;
    }
    Ok(arcs)
}

// Tries a cycle with the weights that its bounds have where the problem is widened by so much: it shows something where
// it is a contradiction there too.
fn try_cycle(
    alloc: Global,
    p: &Problem,
    what: What,
    cycle: &Chain,
    extra: u64,
) -> Result<Option<Tried>, AllocError>
    requires extra { extra < 2 ^ 62 }
    requires cycle { IsCycleOf p.now cycle.now }
    ensures { IfOk result (λ tried. IfSome tried (IsTried what p.now extra)) }
{
    // They tell that the problem is lawful, and what the readings of the problem are.
    let _ = p.events();
    let _ = p.readings();
    let arcs = arcs_of(alloc, cycle.steps())?;
    let here = arcs_in(alloc, p, what, nano(extra), &arcs)?;
    if sum_of(&here) < 0 {
        let tried = last_cycle(alloc, p, what, &here, extra)?;
        return Ok(Some(tried));
    }
    Ok(None)
}

// What is known once a cycle was tried at the low end.
fn narrow_by_one(
    alloc: Global,
    p: &Problem,
    what: What,
    cycle: &Chain,
    known: &mut Known,
) -> Result<(), AllocError>
    requires open { known.old.low < known.old.high }
    requires cycle { IsCycleOf p.now cycle.now }
    requires known { IsKnown what p.now known.old }
    ensures { OnOk result (IsKnown what p.now known.new) }
{
    let low = known.low;
    let shown = try_cycle(alloc, p, what, cycle, low)?;
    if let Some(tried) = shown {
        narrow(known, low, tried);
    }
    Ok(())
}

/// What is known once each cycle was tried at the low end, as long as something is left between both ends.
pub fn narrow_by(
    alloc: Global,
    p: &Problem,
    what: What,
    cycles: &[Chain],
    known: &mut Known,
) -> Result<(), AllocError>
    requires cycles { All (IsCycleOf p.now) cycles.now }
    requires known { IsKnown what p.now known.old }
    ensures { OnOk result (IsKnown what p.now known.new) }
{
    for cycle in cycles {
        if known.low < known.high {
            narrow_by_one(alloc, p, what, cycle, known)?;
        }
    }
    Ok(())
}

/// Keeps the cycle that a search found for those to come: at most 64 of them. It answers an error only where memory runs
/// out.
pub fn share(cycles: &mut Vec<Chain>, found: Option<Chain>) -> Result<(), AllocError>
    ensures { OnOk result ((p : ProblemLists) → IfSome found (IsCycleOf p) → All (IsCycleOf p) cycles.old.items → All (IsCycleOf p) cycles.new.items) }
{
    if cycles.len() < MOST_CYCLES {
        if let Some(cycle) = found {
            cycles.push(cycle)?;
        }
    }
    Ok(())
}
