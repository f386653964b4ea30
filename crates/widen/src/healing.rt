// The least widening of a problem, without what shows it.
ghost use Rattle.std.specs.Prelude.{◌≡◌, ◌<◌, ◌≤◌, ◌^◌, All, IfOk, IfSome, Option};
ghost use Rattle.problem_model.specs.Problem.{ProblemLists};
ghost use Rattle.problem_graph.specs.HeldBounds.{HoldsShortList};
ghost use Rattle.solver.specs.Current.{IsCurrent};
ghost use Rattle.cert_check.specs.declared.what.What.{What};
ghost use Rattle.widen.specs.Found.{FindsWidening};
ghost use Rattle.widen.specs.Least.{HasExecution};
ghost use Rattle.widen.specs.Search.{IsKnown, IsCycleOf};
ghost use Rattle.widen.specs.Blame.{IsHealing};

use crate::found::{close, first_known};
use crate::known::{Known, concluded, nano};
use crate::proposed::narrow_by_pass;
use crate::shared_cycles::narrow_by;
use crate::widening::Widening;
use atto::{Nano, Steps};
use cert::Chain;
use cert_check::What;
use problem::Problem;
use solver::Solver;
use std::alloc::{AllocError, Global};
use std::sync::ledger::Ledger;

/// By how much a problem must be widened at least, `None` where nothing heals, and a contradiction that the search for it
/// found, where that may be new.
#[derive(Drop)]
pub struct Healing {
    pub extra: Option<Nano>,
    pub cycle: Option<Chain>,
}

// The widening of what was found.
fn extra_of(found: &Widening) -> Option<Nano>
    ensures { (what : What) (p : ProblemLists) → FindsWidening what p found.now → IsHealing p what result }
{
    match found {
        Widening::Least { extra, .. } => Some(*extra),
        Widening::Never(_) => None,
    }
}

// The cycle of what was found.
fn cycle_of(found: Widening) -> Option<Chain>
    ensures { (what : What) (p : ProblemLists) → FindsWidening what p found → IfSome result (IsCycleOf p) }
{
    match found {
        Widening::Least { cycle, .. } => cycle,
        Widening::Never(cycle) => Some(cycle),
    }
}

// What is known once nothing is left between both ends.
fn healing_of(known: Known) -> Healing
    requires done { known.high ≤ known.low }
    requires known { (what : What) × (p : ProblemLists) × IsKnown what p known }
    ensures healing { (what : What) (p : ProblemLists) → IsKnown what p known → IsHealing p what result.extra }
    ensures cycle { (what : What) (p : ProblemLists) → IsKnown what p known → IfSome result.cycle (IsCycleOf p) }
{
    let found = concluded(known);
    let extra = extra_of(&found);
    let cycle = cycle_of(found);
    Healing { extra, cycle }
}

// What is known once the low end heals. Its contradiction is not new where the low end was that before.
fn healing_at_low(known: Known, before: u64) -> Healing
    requires { known.low < 2 ^ 62 }
    ensures healing { (what : What) (p : ProblemLists) → IsKnown what p known → HasExecution what p known.low → IsHealing p what result.extra }
    ensures cycle { (what : What) (p : ProblemLists) → IsKnown what p known → IfSome result.cycle (IsCycleOf p) }
{
    let (low, below) = (known.low, known.below);
    let extra = Some(nano(low));
    if low == before {
        return Healing { extra, cycle: None };
    }
    Healing {
        extra,
        cycle: below,
    }
}

// The least widening of a problem, by what is known of it already.
fn healing_beyond<L: Ledger>(
    alloc: Global,
    p: &Problem,
    what: What,
    s: &Solver,
    mut known: Known,
    steps: &mut Steps<L>,
) -> Result<Healing, AllocError>
    requires graph { HoldsShortList p.now s.now.graph }
    requires open { known.low < known.high }
    requires known { IsKnown what p.now known }
    ensures healing { IfOk result (λ found. IsHealing p.now what found.extra) }
    ensures cycle { IfOk result (λ found. IfSome found.cycle (IsCycleOf p.now)) }
{
    let low = known.low;
    if narrow_by_pass(alloc, p, what, s, &mut known, steps)? {
        return Ok(healing_at_low(known, low));
    }
    close(alloc, p, what, s, &mut known, steps)?;
    Ok(healing_of(known))
}

/// The least widening of a problem, by what its solver holds and by contradictions that other searches found.
pub fn least_healing<L: Ledger>(
    alloc: Global,
    p: &Problem,
    what: What,
    s: &Solver,
    cycles: &[Chain],
    steps: &mut Steps<L>,
) -> Result<Healing, AllocError>
    requires current { IsCurrent s.now }
    requires graph { HoldsShortList p.now s.now.graph }
    requires cycles { All (IsCycleOf p.now) cycles.now }
    ensures healing { IfOk result (λ found. IsHealing p.now what found.extra) }
    ensures cycle { IfOk result (λ found. IfSome found.cycle (IsCycleOf p.now)) }
{
    let mut known = first_known(alloc, p, what, s)?;
    narrow_by(alloc, p, what, cycles, &mut known)?;
    if known.low < known.high {
        return healing_beyond(alloc, p, what, s, known, steps);
    }
    let extra = extra_of(&concluded(known));
    Ok(Healing { extra, cycle: None })
}
