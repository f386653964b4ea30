// The least widening of a problem, found.
ghost use Rattle.std.specs.Prelude.{◌<◌, ◌≤◌, IfOk, OnOk};
ghost use Rattle.solver.specs.Current.{IsCurrent};
ghost use Rattle.problem_graph.specs.HeldBounds.{HoldsShortList};
ghost use Rattle.problem_solver.specs.Order.{AreAllArcs};
ghost use Rattle.widen.specs.Found.{FindsWidening};
ghost use Rattle.widen.specs.Search.{IsKnown};
ghost use Rattle.widen.specs.Widening.{IsWideningOf, ShowsWidening};

use crate::attempt::{Ordered, try_nothing, try_widening};
use crate::choice::Choice;
use crate::known::{Known, concluded, narrow, nothing_known};
use crate::proposed::narrow_by_pass;
use crate::widening::Widening;
use atto::Steps;
use cert_check::What;
use problem::Problem;
use problem_solver::solve;
use solver::Solver;
use std::alloc::{AllocError, Global};
use std::sync::ledger::Ledger;
use sync_graph::Graph;

// The numbers of the arcs of a graph, as they stand.
fn all_arcs(alloc: Global, g: &Graph) -> Result<Vec<u32>, AllocError>
    ensures { IfOk result (λ order. AreAllArcs g.now order.items) }
{
    // It tells what the lists of the graph hold.
    g.exact();
    let mut order = Vec::new(alloc);
    for k in 0..g.arcs() {
        order.push(k)?;
    }
    Ok(order)
}

/// What the solver of the problem says of widenings.
pub fn first_known(alloc: Global, p: &Problem, what: What, s: &Solver) -> Result<Known, AllocError>
    requires current { IsCurrent s.now }
    requires graph { HoldsShortList p.now s.now.graph }
    ensures { IfOk result (λ known. IsKnown what p.now known) }
{
    let mut known = nothing_known();
    let tried = try_nothing(alloc, p, what, s)?;
    narrow(&mut known, 0, tried);
    Ok(known)
}

/// Tries widenings until nothing is left between both ends, and says in how many rounds, with that of `first_known`.
pub fn close<L: Ledger>(
    alloc: Global,
    p: &Problem,
    what: What,
    s: &Solver,
    known: &mut Known,
    steps: &mut Steps<L>,
) -> Result<u64, AllocError>
    requires graph { HoldsShortList p.now s.now.graph }
    requires known { IsKnown what p.now known.old }
    ensures known { OnOk result (IsKnown what p.now known.new) }
    ensures closed { OnOk result (known.new.high ≤ known.new.low) }
    ensures some { IfOk result (λ rounds. 0 < rounds) }
{
    if known.high <= known.low {
        return Ok(1);
    }
    let g = s.graph();
    let order = all_arcs(alloc, g)?;
    let from = Ordered {
        graph: g,
        order: &order,
    };
    let mut choice = Choice::new();
    let mut rounds = 1;
    'widenings: while known.low < known.high {
        let extra = choice.next(known.low, known.high, known.run.is_some());
        let tried = try_widening(alloc, p, what, &from, extra, steps)?;
        narrow(known, extra, tried);
        rounds += 1;
    }
    Ok(rounds)
}

/// The least widening of a problem, or that there is none, and in how many rounds it was found: for so many widenings,
/// 0 the first of them, the graph of the problem was solved.
#[derive(Drop)]
pub struct Found {
    pub widening: Widening,
    pub rounds: u64,
}

// What is known once a pass over the bounds was judged, if anything is left between both ends.
fn narrow_first<L: Ledger>(
    alloc: Global,
    p: &Problem,
    what: What,
    s: &Solver,
    known: &mut Known,
    steps: &mut Steps<L>,
) -> Result<(), AllocError>
    requires graph { HoldsShortList p.now s.now.graph }
    requires known { IsKnown what p.now known.old }
    ensures { OnOk result (IsKnown what p.now known.new) }
{
    if known.low < known.high {
        narrow_by_pass(alloc, p, what, s, known, steps)?;
    }
    Ok(())
}

// What `widening_in_rounds` finds, by what the solver of the problem holds: the search between what does not heal and
// what does.
fn search<L: Ledger>(
    alloc: Global,
    p: &Problem,
    what: What,
    s: &Solver,
    steps: &mut Steps<L>,
) -> Result<Found, AllocError>
    requires current { IsCurrent s.now }
    requires graph { HoldsShortList p.now s.now.graph }
    ensures finds { IfOk result (λ found. FindsWidening what p.now found.widening) }
    ensures some { IfOk result (λ found. 0 < found.rounds) }
{
    let mut known = first_known(alloc, p, what, s)?;
    narrow_first(alloc, p, what, s, &mut known, steps)?;
    let rounds = close(alloc, p, what, s, &mut known, steps)?;
    Ok(Found {
        widening: concluded(known),
        rounds,
    })
}

/// What `least_widening` finds, and in how many rounds. There is one round at least; how many there are is not promised.
pub fn widening_in_rounds<L: Ledger>(
    alloc: Global,
    p: &Problem,
    what: What,
    steps: &mut Steps<L>,
) -> Result<Found, AllocError>
    ensures widening { IfOk result (λ found. IsWideningOf p.now found.widening) }
    ensures shows { IfOk result (λ found. ShowsWidening what p.now found.widening) }
    ensures finds { IfOk result (λ found. FindsWidening what p.now found.widening) }
    ensures some { IfOk result (λ found. 0 < found.rounds) }
{
    let s = solve(alloc, p, 0, steps)?;
    let found = search(alloc, p, what, &s, steps)?;
    Ok(found)
}

/// By how much what is named must be widened at least, in ns or for rates in parts per billion, so that an execution
/// exists, with what shows it from both sides: the earliest execution of the problem that is widened by so much and,
/// where that is above 0, a contradiction of the one that is widened by 1 less, with the weights that its bounds have
/// there. `Never` comes exactly where no number below 2^62 will do, with a contradiction of the problem that is widened
/// by 2^62 - 1. It answers an error only where memory runs out. No number of steps is promised.
pub fn least_widening<L: Ledger>(
    alloc: Global,
    p: &Problem,
    what: What,
    steps: &mut Steps<L>,
) -> Result<Widening, AllocError>
    ensures widening { IfOk result (λ w. IsWideningOf p.now w) }
    ensures shows { IfOk result (λ w. ShowsWidening what p.now w) }
    ensures finds { IfOk result (λ w. FindsWidening what p.now w) }
{
    let found = widening_in_rounds(alloc, p, what, steps)?;
    Ok(found.widening)
}
