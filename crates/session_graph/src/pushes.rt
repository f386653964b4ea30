// Arcs that are brought in.
ghost use Rattle.std.specs.Prelude.{◌≡◌, ◌<◌, ◌≤◌, ◌+◌, ℕ, Bool, List, [], ◌∷◌, ◌++◌, Some, length, slice_get, All, Contains, OnOk};
ghost use Rattle.problem_model.specs.declared.items.Event.{Event};
ghost use Rattle.problem_model.specs.declared.items.Follow.{Follow};
ghost use Rattle.problem_model.specs.declared.items.Node.TheVariants as nodes;
ghost use Rattle.problem_model.specs.declared.items.Bound.{Bound};
ghost use Rattle.problem_model.specs.declared.items.Bound.TheVariants as bounds;
ghost use Rattle.problem_model.specs.declared.items.Bound.TheVariants.{SpanMost, SpanLeast, Late, Early};
ghost use Rattle.problem_model.specs.Problem.{ProblemLists};
ghost use Rattle.problem_model.specs.Bounds.{ClockAt, EventAt, ComesAfter};
ghost use Rattle.problem_model.specs.Limits.{most_arcs};
ghost use Rattle.sync_graph.specs.Graph.{with_arc};
ghost use Rattle.problem_graph.specs.BoundArcs.{FitsNodes, IsBoundAmong, arcs_in, names_of};
ghost use Rattle.problem_graph.specs.Standing.{HasNode};
ghost use Rattle.solver.specs.Current.{IsCurrent};
ghost use Rattle.roster.specs.Growing.{IsGrowing};
ghost use Rattle.session_graph.specs.Pushes.{Brings, with_arcs};
ghost use Rattle.session_graph.specs.Extensions.{TakesFewToPush};

use atto::{Nano, Steps};
use problem::NearestFollow;
use problem_graph::{Arcs, follow_arcs, span_arcs, stamp_arcs};
use problem_model::{Clock, Node, StampBounds};
use solver::Solver;
use std::alloc::AllocError;
use std::sync::ledger::Ledger;
use sync_graph::Arc;

/// A reading of a clock: the place of the clock, the clock, and the stamp that it showed.
#[derive(Clone, Copy)]
pub(crate) struct ClockReading {
    pub place: u32,
    pub clock: Clock,
    pub stamp: Nano,
}

/// The number of a node that is there.
pub(crate) fn number_of(solver: &Solver, n: Node) -> u32
    requires { HasNode solver.now.graph n }
    ensures { slice_get solver.now.graph.nodes result ≡ Some n }
{
    solver.graph().node_of(n).unwrap()
}

// Brings in an arc.
fn push_arc<L: Ledger>(solver: &mut Solver, a: Arc, steps: &mut Steps<L>) -> Result<(), AllocError>
    requires current { IsCurrent solver.old }
    requires fits { FitsNodes solver.old.graph.nodes a }
    requires room { length solver.old.graph.arcs < most_arcs }
    ensures brings { OnOk result (Brings (a.name ∷ []) solver.old solver.new) }
    ensures steps { OnOk result (TakesFewToPush solver.old solver.new steps.old steps.new) }
    ensures graph { OnOk result (solver.new.graph ≡ with_arc solver.old.graph a) }
{
    solver.push_arc(a, steps)?;
    Ok(())
}

/// Brings in arcs, one after another.
pub(crate) fn push_arcs<L: Ledger>(
    solver: &mut Solver,
    arcs: Arcs,
    steps: &mut Steps<L>,
) -> Result<(), AllocError>
    requires current { IsCurrent solver.old }
    requires fit { All (FitsNodes solver.old.graph.nodes) (arcs_in arcs) }
    requires room { length solver.old.graph.arcs + length (arcs_in arcs) ≤ most_arcs }
    ensures brings { OnOk result (Brings (names_of (arcs_in arcs)) solver.old solver.new) }
    ensures steps { OnOk result (TakesFewToPush solver.old solver.new steps.old steps.new) }
    ensures graph { OnOk result (solver.new.graph ≡ with_arcs solver.old.graph (arcs_in arcs)) }
    ensures left { OnOk result ((p : ProblemLists) (entered : ℕ → Bool) (rest : List Bound) → All (IsBoundAmong p solver.old.graph.nodes) (arcs_in arcs)
        → IsGrowing p entered (names_of (arcs_in arcs) ++ rest) solver.old.graph → IsGrowing p entered rest solver.new.graph) }
{
    match arcs {
        Arcs::Nothing => Ok(()),
        Arcs::One(a) => push_arc(solver, a, steps),
        Arcs::Two(a, b) => {
            push_arc(solver, a, steps)?;
            push_arc(solver, b, steps)
        }
    }
}

/// Brings in both bounds over the span of two readings of the clock at a place.
pub(crate) fn push_span<L: Ledger>(
    solver: &mut Solver,
    place: u32,
    clock: &Clock,
    s: Nano,
    t: Nano,
    steps: &mut Steps<L>,
) -> Result<(), AllocError>
    requires current { IsCurrent solver.old }
    requires rising { s < t }
    requires from { HasNode solver.old.graph (nodes.Reading place s) }
    requires to { HasNode solver.old.graph (nodes.Reading place t) }
    requires room { length solver.old.graph.arcs + 2 ≤ most_arcs }
    ensures brings { OnOk result (Brings (SpanMost place s t ∷ SpanLeast place s t ∷ []) solver.old solver.new) }
    ensures steps { OnOk result (TakesFewToPush solver.old solver.new steps.old steps.new) }
    ensures left { OnOk result ((p : ProblemLists) (entered : ℕ → Bool) (rest : List Bound)
        → ClockAt p place clock.now
        → IsGrowing p entered (SpanMost place s t ∷ SpanLeast place s t ∷ rest) solver.old.graph → IsGrowing p entered rest solver.new.graph) }
{
    let first = number_of(solver, Node::Reading(place, s));
    let second = number_of(solver, Node::Reading(place, t));
    let arcs = span_arcs(place, clock, s, t, first, second);
    push_arcs(solver, arcs, steps)
}

/// Brings in both bounds on the stamp of an event, which is that of a reading: by the event's own bounds, where it has
/// any.
pub(crate) fn push_stamp<L: Ledger>(
    solver: &mut Solver,
    v: u32,
    reading: &ClockReading,
    own: &Option<StampBounds>,
    steps: &mut Steps<L>,
) -> Result<(), AllocError>
    requires current { IsCurrent solver.old }
    requires from { HasNode solver.old.graph (nodes.Reading reading.now.place reading.now.stamp) }
    requires to { HasNode solver.old.graph (nodes.Event v) }
    requires room { length solver.old.graph.arcs + 2 ≤ most_arcs }
    ensures brings { OnOk result (Brings (Late v ∷ Early v ∷ []) solver.old solver.new) }
    ensures steps { OnOk result (TakesFewToPush solver.old solver.new steps.old steps.new) }
    ensures left { OnOk result ((p : ProblemLists) (entered : ℕ → Bool) (rest : List Bound) (e : Event)
        → EventAt p v e → e.clock ≡ reading.now.place → e.stamp ≡ reading.now.stamp → e.bounds ≡ own.now → ClockAt p reading.now.place reading.now.clock
        → IsGrowing p entered (Late v ∷ Early v ∷ rest) solver.old.graph → IsGrowing p entered rest solver.new.graph) }
{
    let first = number_of(solver, Node::Reading(reading.place, reading.stamp));
    let second = number_of(solver, Node::Event(v));
    let arcs = stamp_arcs(
        v,
        reading.place,
        &reading.clock,
        reading.stamp,
        own,
        first,
        second,
    );
    push_arcs(solver, arcs, steps)
}

/// Brings in the bound from a reading of a clock to one of another that comes before it, by the later one's gap.
pub(crate) fn push_follow<L: Ledger>(
    solver: &mut Solver,
    follow: &NearestFollow,
    later: u32,
    steps: &mut Steps<L>,
) -> Result<(), AllocError>
    requires current { IsCurrent solver.old }
    requires from { HasNode solver.old.graph (nodes.Reading later follow.now.t) }
    requires to { HasNode solver.old.graph (nodes.Reading follow.now.earlier follow.now.s) }
    requires room { length solver.old.graph.arcs + 1 ≤ most_arcs }
    ensures brings { OnOk result (Brings (bounds.Follow follow.now.earlier follow.now.s later follow.now.t ∷ []) solver.old solver.new) }
    ensures steps { OnOk result (TakesFewToPush solver.old solver.new steps.old steps.new) }
    ensures left { OnOk result ((p : ProblemLists) (entered : ℕ → Bool) (rest : List Bound) (f : Follow)
        → Contains p.follows f → f.later ≡ later → f.gap ≡ follow.now.gap → ComesAfter p follow.now.earlier later
        → IsGrowing p entered (bounds.Follow follow.now.earlier follow.now.s later follow.now.t ∷ rest) solver.old.graph → IsGrowing p entered rest solver.new.graph) }
{
    let first = number_of(solver, Node::Reading(follow.earlier, follow.s));
    let second = number_of(solver, Node::Reading(later, follow.t));
    let arcs = follow_arcs(follow, later, first, second);
    push_arcs(solver, arcs, steps)
}
