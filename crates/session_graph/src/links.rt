// What a new reading is linked to: the nearest ones on its clock, and where there is none, those on the clocks of its
// host before and after it.
ghost use Rattle.std.specs.Prelude.{◌≡◌, ◌<◌, ◌≤◌, ◌+◌, ℕ, Bool, List, ◌++◌, Some, length, slice_get, IfSome, OnOk};
ghost use Rattle.problem_model.specs.declared.items.Node.TheVariants as nodes;
ghost use Rattle.problem_model.specs.declared.items.Bound.{Bound};
ghost use Rattle.problem_model.specs.Problem.{ProblemLists};
ghost use Rattle.problem_model.specs.Bounds.{ClockAt, ComesAfter};
ghost use Rattle.problem_model.specs.Limits.{most_arcs};
ghost use Rattle.decl.specs.Declaration.{follows_of};
ghost use Rattle.decl.specs.declared.items.Owner.{Owner};
ghost use Rattle.problem_graph.specs.Standing.{HasNode};
ghost use Rattle.solver.specs.Current.{IsCurrent};
ghost use Rattle.roster.specs.Entering.{span_below, span_above, follow_before, follow_after};
ghost use Rattle.roster.specs.Growing.{IsGrowing};
ghost use Rattle.session_graph.specs.Pushes.{Brings};
ghost use Rattle.session_graph.specs.Links.{AreThere, AreBeside, bounds_beside};
ghost use Rattle.session_graph.specs.Extensions.{TakesFewToPush};

use crate::follows::Nearest;
use crate::pushes::{ClockReading, push_follow, push_span};
use atto::{Nano, Steps};
use problem::NearestFollow;
use roster::Roster;
use solver::Solver;
use std::alloc::AllocError;
use std::sync::ledger::Ledger;

// Brings in both bounds over the span to the stamp below, if there is one.
fn push_below<L: Ledger>(
    solver: &mut Solver,
    reading: &ClockReading,
    below: Option<Nano>,
    steps: &mut Steps<L>,
) -> Result<(), AllocError>
    requires current { IsCurrent solver.old }
    requires reading { HasNode solver.old.graph (nodes.Reading reading.now.place reading.now.stamp) }
    requires below { IfSome below (λ s. (s < reading.now.stamp) × HasNode solver.old.graph (nodes.Reading reading.now.place s)) }
    requires room { length solver.old.graph.arcs + 2 ≤ most_arcs }
    ensures brings { OnOk result (Brings (span_below reading.now.place reading.now.stamp below) solver.old solver.new) }
    ensures steps { OnOk result (TakesFewToPush solver.old solver.new steps.old steps.new) }
    ensures left { OnOk result ((p : ProblemLists) (entered : ℕ → Bool) (rest : List Bound) → ClockAt p reading.now.place reading.now.clock
        → IsGrowing p entered (span_below reading.now.place reading.now.stamp below ++ rest) solver.old.graph → IsGrowing p entered rest solver.new.graph) }
{
    match below {
        Some(s) => push_span(
            solver,
            reading.place,
            &reading.clock,
            s,
            reading.stamp,
            steps,
        ),
        None => Ok(()),
    }
}

// Brings in both bounds over the span to the stamp above, if there is one.
fn push_above<L: Ledger>(
    solver: &mut Solver,
    reading: &ClockReading,
    above: Option<Nano>,
    steps: &mut Steps<L>,
) -> Result<(), AllocError>
    requires current { IsCurrent solver.old }
    requires reading { HasNode solver.old.graph (nodes.Reading reading.now.place reading.now.stamp) }
    requires above { IfSome above (λ t. (reading.now.stamp < t) × HasNode solver.old.graph (nodes.Reading reading.now.place t)) }
    requires room { length solver.old.graph.arcs + 2 ≤ most_arcs }
    ensures brings { OnOk result (Brings (span_above reading.now.place reading.now.stamp above) solver.old solver.new) }
    ensures steps { OnOk result (TakesFewToPush solver.old solver.new steps.old steps.new) }
    ensures left { OnOk result ((p : ProblemLists) (entered : ℕ → Bool) (rest : List Bound) → ClockAt p reading.now.place reading.now.clock
        → IsGrowing p entered (span_above reading.now.place reading.now.stamp above ++ rest) solver.old.graph → IsGrowing p entered rest solver.new.graph) }
{
    match above {
        Some(t) => push_span(
            solver,
            reading.place,
            &reading.clock,
            reading.stamp,
            t,
            steps,
        ),
        None => Ok(()),
    }
}

// The gap of the clock at a place.
fn gap_of(roster: &Roster, place: u32) -> Nano
    requires { place < length roster.now.declaration.clocks }
    ensures { (o : Owner) × (slice_get roster.now.declaration.owners place ≡ Some o) × (o.gap ≡ result) }
{
    roster.decl().owners[place as usize].gap
}

// Brings in the follow from a reading to one of a clock before, if there is one.
fn push_before<L: Ledger>(
    roster: &Roster,
    solver: &mut Solver,
    reading: &ClockReading,
    earlier: Option<(u32, Nano)>,
    steps: &mut Steps<L>,
) -> Result<(), AllocError>
    requires inside { reading.now.place < length roster.now.declaration.clocks }
    requires current { IsCurrent solver.old }
    requires reading { HasNode solver.old.graph (nodes.Reading reading.now.place reading.now.stamp) }
    requires earlier { IfSome earlier (λ e. HasNode solver.old.graph (nodes.Reading e.0 e.1)) }
    requires room { length solver.old.graph.arcs + length (follow_before reading.now.place reading.now.stamp earlier) ≤ most_arcs }
    ensures brings { OnOk result (Brings (follow_before reading.now.place reading.now.stamp earlier) solver.old solver.new) }
    ensures steps { OnOk result (TakesFewToPush solver.old solver.new steps.old steps.new) }
    ensures left { OnOk result ((p : ProblemLists) (entered : ℕ → Bool) (rest : List Bound) → p.follows ≡ follows_of roster.now.declaration → IfSome earlier (λ e. ComesAfter p e.0 reading.now.place)
        → IsGrowing p entered (follow_before reading.now.place reading.now.stamp earlier ++ rest) solver.old.graph → IsGrowing p entered rest solver.new.graph) }
{
    match earlier {
        Some(last) => {
            let gap = gap_of(roster, reading.place);
            let nearest = NearestFollow {
                earlier: last.0,
                s: last.1,
                t: reading.stamp,
                gap,
            };
            push_follow(solver, &nearest, reading.place, steps)
        }
        None => Ok(()),
    }
}

// Brings in the follow from a reading of a clock after to this one, if there is one.
fn push_after<L: Ledger>(
    roster: &Roster,
    solver: &mut Solver,
    reading: &ClockReading,
    later: Option<(u32, Nano)>,
    steps: &mut Steps<L>,
) -> Result<(), AllocError>
    requires inside { IfSome later (λ e. e.0 < length roster.now.declaration.clocks) }
    requires current { IsCurrent solver.old }
    requires reading { HasNode solver.old.graph (nodes.Reading reading.now.place reading.now.stamp) }
    requires later { IfSome later (λ e. HasNode solver.old.graph (nodes.Reading e.0 e.1)) }
    requires room { length solver.old.graph.arcs + length (follow_after reading.now.place reading.now.stamp later) ≤ most_arcs }
    ensures brings { OnOk result (Brings (follow_after reading.now.place reading.now.stamp later) solver.old solver.new) }
    ensures steps { OnOk result (TakesFewToPush solver.old solver.new steps.old steps.new) }
    ensures left { OnOk result ((p : ProblemLists) (entered : ℕ → Bool) (rest : List Bound) → p.follows ≡ follows_of roster.now.declaration → IfSome later (λ e. ComesAfter p reading.now.place e.0)
        → IsGrowing p entered (follow_after reading.now.place reading.now.stamp later ++ rest) solver.old.graph → IsGrowing p entered rest solver.new.graph) }
{
    match later {
        Some(first) => {
            let gap = gap_of(roster, first.0);
            let nearest = NearestFollow {
                earlier: reading.place,
                s: reading.stamp,
                t: first.1,
                gap,
            };
            push_follow(solver, &nearest, first.0, steps)
        }
        None => Ok(()),
    }
}

/// Brings in the bounds between a reading and those nearest to it.
pub(crate) fn push_links<L: Ledger>(
    roster: &Roster,
    solver: &mut Solver,
    reading: &ClockReading,
    nearest: &Nearest,
    steps: &mut Steps<L>,
) -> Result<(), AllocError>
    requires inside { reading.now.place < length roster.now.declaration.clocks }
    requires current { IsCurrent solver.old }
    requires reading { HasNode solver.old.graph (nodes.Reading reading.now.place reading.now.stamp) }
    requires there { AreThere (length roster.now.declaration.clocks) solver.old.graph reading.now.place reading.now.stamp nearest.now }
    requires room { length solver.old.graph.arcs + 4 ≤ most_arcs }
    ensures brings { OnOk result (Brings (bounds_beside reading.now.place reading.now.stamp nearest.now) solver.old solver.new) }
    ensures steps { OnOk result (TakesFewToPush solver.old solver.new steps.old steps.new) }
    ensures left { OnOk result ((p : ProblemLists) (entered : ℕ → Bool) (rest : List Bound) → ClockAt p reading.now.place reading.now.clock → p.follows ≡ follows_of roster.now.declaration → AreBeside p reading.now.place nearest.now
        → IsGrowing p entered (bounds_beside reading.now.place reading.now.stamp nearest.now ++ rest) solver.old.graph → IsGrowing p entered rest solver.new.graph) }
{
    push_below(solver, reading, nearest.below, steps)?;
    push_above(solver, reading, nearest.above, steps)?;
    push_before(roster, solver, reading, nearest.earlier, steps)?;
    push_after(roster, solver, reading, nearest.later, steps)?;
    Ok(())
}
