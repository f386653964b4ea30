// Judges what a pass proposes.
ghost use Rattle.std.specs.Prelude.{◌≡◌, ◌≤◌, ◌<◌, ◌^◌, ℕ, List, length, All, IfOk, IfSome, OnOk, IsTrue};
ghost use Rattle.problem_model.specs.Nodes.{Reading, AreReadings, nodes_of};
ghost use Rattle.problem_model.specs.Solutions.{IsContradictionOf};
ghost use Rattle.problem_model.specs.Limits.{most_nodes};
ghost use Rattle.problem_graph.specs.HeldBounds.{HoldsShortList};
ghost use Rattle.cert.specs.CertificateText.{IsStepOf};
ghost use Rattle.cert.specs.Shows.{weighed_bounds};
ghost use Rattle.cert_check.specs.Widened.{widened};
ghost use Rattle.widen.specs.Least.{HasExecution};
ghost use Rattle.widen.specs.Raising.{HoldsBounds, IsLastingOf, IsPassOf};
ghost use Rattle.widen.specs.Search.{IsTried, IsKnown};

use crate::cycles::chain_of;
use crate::known::{Known, nano, narrow};
use crate::raising::{Bounds, Lasting, Pass, propose};
use crate::rises::Rises;
use crate::tried::Tried;
use crate::weighed::arcs_in;
use atto::{Steps, Units};
use cert::{Chain, Execution};
use cert_check::{Answer, Verdict, What, check_cycle, obeys_widened};
use problem::Problem;
use solver::Solver;
use std::alloc::{AllocError, Global};
use std::sync::ledger::Ledger;

// Whether a cycle is a contradiction where the problem is widened by so much, of at most as many steps as there are
// nodes.
fn is_contradiction(p: &Problem, what: What, last: u64, cycle: &Chain) -> bool
    requires last { last < 2 ^ 62 }
    requires steps { All (IsStepOf p.now) cycle.now }
    ensures contradiction { IsTrue result → IsContradictionOf (widened what p.now last) (weighed_bounds cycle.now) }
    ensures short { IsTrue result → (readings : List Reading) → AreReadings p.now readings → length cycle.now ≤ length (nodes_of p.now readings) }
{
    // They tell that the problem is lawful, and what the readings of the problem are.
    let events = p.events().len();
    let readings = p.readings().len();
    if cycle.steps().len() > events + readings {
        return false;
    }
    match check_cycle(p, what, nano(last), cycle) {
        Answer::Yes => true,
        Answer::No { .. } => false,
    }
}

// What the contradiction of a pass shows, if it is one where it is said to be.
fn judged(
    alloc: Global,
    p: &Problem,
    what: What,
    healed: &Lasting,
) -> Result<Option<Tried>, AllocError>
    requires { IsLastingOf p.now healed.now }
    ensures { IfOk result (λ tried. IfSome tried (λ shown. (e : ℕ) → e ≤ healed.now.last → IsTried what p.now e shown)) }
{
    let last = healed.last;
    let arcs = arcs_in(alloc, p, what, nano(last), &healed.arcs)?;
    let cycle = chain_of(alloc, &arcs)?;
    if is_contradiction(p, what, last, &cycle) {
        return Ok(Some(Tried::Cycle { last, cycle }));
    }
    Ok(None)
}

// What is known once the contradiction of a pass was judged.
fn narrow_by_healed(
    alloc: Global,
    p: &Problem,
    what: What,
    healed: &Lasting,
    known: &mut Known,
) -> Result<(), AllocError>
    requires healed { IsLastingOf p.now healed.now }
    requires open { known.old.low < known.old.high }
    requires known { IsKnown what p.now known.old }
    ensures { OnOk result (IsKnown what p.now known.new) }
{
    let low = known.low;
    if healed.last < low {
        return Ok(());
    }
    let shown = judged(alloc, p, what, healed)?;
    if let Some(tried) = shown {
        narrow(known, low, tried);
    }
    Ok(())
}

// The values of so many nodes as an execution; `None` where one is out of range.
fn execution_of(alloc: Global, values: &Rises, nodes: u32) -> Result<Option<Execution>, AllocError>
    requires nodes { nodes ≡ values.now }
    requires few { nodes ≤ most_nodes }
    ensures { IfOk result (λ execution. IfSome execution (λ e. length e ≡ nodes)) }
{
    let mut execution = Execution::new(alloc);
    for node in 0..nodes {
        match Units::new(values.value(node)) {
            Some(value) => execution.push(value)?,
            None => return Ok(None),
        }
    }
    Ok(Some(execution))
}

// Whether an execution with one value for each node obeys all bounds where the problem is widened by so much.
fn obeys(p: &Problem, what: What, extra: u64, execution: &Execution) -> bool
    requires extra { extra < 2 ^ 62 }
    requires each { (readings : List Reading) → AreReadings p.now readings → length execution.now ≡ length (nodes_of p.now readings) }
    ensures { IsTrue result → HasExecution what p.now extra }
{
    // They tell that the problem is lawful, and what the readings of the problem are.
    let _ = p.events();
    let _ = p.readings();
    match obeys_widened(p, what, nano(extra), execution) {
        Verdict::Obeys => true,
        Verdict::Broken { .. } => false,
    }
}

// Whether the values of a pass are an execution where the problem is widened as it is in the end.
fn heals(alloc: Global, b: &Bounds<'_>, pass: &Pass) -> Result<bool, AllocError>
    requires pass { IsPassOf b.now pass.now }
    requires nodes { (readings : List Reading) → AreReadings b.now.problem.now readings → b.now.graph.now.nodes ≡ nodes_of b.now.problem.now readings }
    ensures { IfOk result (λ yes. IsTrue yes → HasExecution b.now.what b.now.problem.now pass.now.extra) }
{
    // It tells what the lists of the graph hold.
    b.graph.exact();
    let execution = execution_of(alloc, &pass.rises, b.graph.nodes())?;
    match execution {
        Some(execution) => Ok(obeys(b.problem, b.what, pass.extra, &execution)),
        None => Ok(false),
    }
}

/// What is known once a pass from the low end on was judged, and whether the low end heals, by the values of the pass.
pub fn narrow_by_pass<L: Ledger>(
    alloc: Global,
    p: &Problem,
    what: What,
    s: &Solver,
    known: &mut Known,
    steps: &mut Steps<L>,
) -> Result<bool, AllocError>
    requires graph { HoldsShortList p.now s.now.graph }
    requires open { known.old.low < known.old.high }
    requires known { IsKnown what p.now known.old }
    ensures known { OnOk result (IsKnown what p.now known.new) }
    ensures within { IfOk result (λ heals. IsTrue heals → known.new.low < 2 ^ 62) }
    ensures heals { IfOk result (λ heals. IsTrue heals → HasExecution what p.now known.new.low) }
{
    // It tells what the readings of the problem are.
    let _ = p.readings();
    let b = Bounds {
        problem: p,
        what,
        graph: s.graph(),
    };
    let (pass, is_whole) = propose(alloc, &b, known.low, steps)?;
    narrow_by_healed(alloc, p, what, &pass.healed, known)?;
    if !is_whole || known.low != pass.extra {
        return Ok(false);
    }
    heals(alloc, &b, &pass)
}
