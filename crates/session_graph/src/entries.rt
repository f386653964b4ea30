// An event that enters the graph.
ghost use Rattle.std.specs.Prelude.{◌≡◌, ◌<◌, ◌≤◌, ◌+◌, ℕ, Bool, true, false, List, [], ◌∷◌, ◌++◌, Option, Some, None, length, slice_get, slice_set, OnOk};
ghost use Rattle.problem_model.specs.declared.items.Event as items;
ghost use Rattle.problem_model.specs.declared.items.Message.{Message};
ghost use Rattle.problem_model.specs.declared.items.Node.TheVariants as nodes;
ghost use Rattle.problem_model.specs.declared.items.Bound.TheVariants.{Late, Early};
ghost use Rattle.problem_model.specs.Problem.{ProblemLists};
ghost use Rattle.problem_model.specs.Bounds.{ClockAt, EventAt};
ghost use Rattle.problem_model.specs.Limits.{most_arcs, most_nodes};
ghost use Rattle.decl.specs.Declaration.{follows_of, has_own_bounds};
ghost use Rattle.problem_graph.specs.Standing.{HasNode};
ghost use Rattle.solver.specs.Solver.{HasRoom, with_new_node};
ghost use Rattle.solver.specs.Current.{IsCurrent};
ghost use Rattle.traces.specs.Traces.{clock_of};
ghost use Rattle.traces.specs.Messages.{bounds_of};
ghost use Rattle.roster.specs.Groups.{group_at};
ghost use Rattle.roster.specs.Readings.{HasStamp};
ghost use Rattle.roster.specs.Roster.{SetsReading, event_at};
ghost use Rattle.roster.specs.Growing.{IsGrowing};
ghost use Rattle.session_graph.specs.Pushes.{Brings};
ghost use Rattle.session_graph.specs.Links.{AreThere, AreBeside, bounds_beside};
ghost use Rattle.session_graph.specs.Extensions.{TakesFewToPush};
ghost use Rattle.session_graph.specs.UnderWay.{IsEntering};
ghost use Rattle.session_graph.specs.Arrivals.{HasRoomFor, HaveCome};

use crate::follows::{Nearest, nearest_of};
use crate::links::push_links;
use crate::nearest::is_known;
use crate::pushes::{ClockReading, push_stamp};
use atto::{Nano, Steps};
use problem_model::{Clock, Node, StampBounds};
use roster::Roster;
use solver::Solver;
use std::alloc::AllocError;
use std::sync::ledger::Ledger;

// Appends the node of an event, and tells it.
fn push_event(roster: &mut Roster, solver: &mut Solver, v: u32) -> Result<(), AllocError>
    requires v { v < length roster.old.came }
    requires current { IsCurrent solver.old }
    requires new { (k : ℕ) → slice_get solver.old.graph.nodes k ≡ Some (nodes.Event v) → ⊥ }
    requires few { length solver.old.graph.nodes < most_nodes }
    requires room { HasRoom (length solver.old.graph.nodes + 1) solver.old }
    ensures graph { OnOk result (solver.new ≡ with_new_node solver.old (nodes.Event v)) }
    ensures current { OnOk result (IsCurrent solver.new) }
    ensures told { OnOk result (roster.new ≡ record roster.old { came = slice_set roster.old.came v (record (event_at roster.old.came v) { node = length solver.old.graph.nodes }) }) }
    ensures err { roster.new.declaration ≡ roster.old.declaration }
{
    let node = solver.push_node(Node::Event(v))?;
    roster.set_node(v, node);
    Ok(())
}

// Appends the node of a reading, where it is new, and tells it.
fn push_reading(
    roster: &mut Roster,
    solver: &mut Solver,
    place: u32,
    stamp: Nano,
    known: bool,
) -> Result<(), AllocError>
    requires clock { place < length roster.old.declaration.clocks }
    requires shown { HasStamp (group_at roster.old.readings place) stamp }
    requires current { IsCurrent solver.old }
    requires new { known ≡ false → (k : ℕ) → slice_get solver.old.graph.nodes k ≡ Some (nodes.Reading place stamp) → ⊥ }
    requires few { length solver.old.graph.nodes < most_nodes }
    requires room { HasRoom (length solver.old.graph.nodes + 1) solver.old }
    ensures current { OnOk result (IsCurrent solver.new) }
    ensures known { known ≡ true → OnOk result ((solver.new ≡ solver.old) × (roster.new ≡ roster.old)) }
    ensures graph { known ≡ false → OnOk result (solver.new ≡ with_new_node solver.old (nodes.Reading place stamp)) }
    ensures told { known ≡ false → OnOk result (SetsReading roster.old roster.new place stamp (length solver.old.graph.nodes)) }
    ensures declaration { roster.new.declaration ≡ roster.old.declaration }
{
    if known {
        return Ok(());
    }
    let node = solver.push_node(Node::Reading(place, stamp))?;
    roster.set_reading_node(place, stamp, node);
    Ok(())
}

// Brings in the bounds of an event that enters: those of its reading, if that is new, and those of its stamp.
fn push_entry<L: Ledger>(
    roster: &Roster,
    solver: &mut Solver,
    v: u32,
    reading: &ClockReading,
    own: &Option<StampBounds>,
    nearest: &Nearest,
    steps: &mut Steps<L>,
) -> Result<(), AllocError>
    requires inside { reading.now.place < length roster.now.declaration.clocks }
    requires current { IsCurrent solver.old }
    requires event { HasNode solver.old.graph (nodes.Event v) }
    requires reading { HasNode solver.old.graph (nodes.Reading reading.now.place reading.now.stamp) }
    requires there { AreThere (length roster.now.declaration.clocks) solver.old.graph reading.now.place reading.now.stamp nearest.now }
    requires room { length solver.old.graph.arcs + 6 ≤ most_arcs }
    ensures brings { OnOk result (Brings (bounds_beside reading.now.place reading.now.stamp nearest.now ++ (Late v ∷ Early v ∷ [])) solver.old solver.new) }
    ensures steps { OnOk result (TakesFewToPush solver.old solver.new steps.old steps.new) }
    ensures left { OnOk result ((p : ProblemLists) (entered : ℕ → Bool) (e : items.Event)
        → EventAt p v e → e.clock ≡ reading.now.place → e.stamp ≡ reading.now.stamp → e.bounds ≡ own.now → ClockAt p reading.now.place reading.now.clock
        → p.follows ≡ follows_of roster.now.declaration → AreBeside p reading.now.place nearest.now
        → IsGrowing p entered (bounds_beside reading.now.place reading.now.stamp nearest.now ++ (Late v ∷ Early v ∷ [])) solver.old.graph → IsGrowing p entered [] solver.new.graph) }
{
    push_links(roster, solver, reading, nearest, steps)?;
    push_stamp(solver, v, reading, own, steps)?;
    Ok(())
}

// The place of a label's clock.
fn clock_of(roster: &Roster, label: u32) -> u32
    requires { label < length roster.now.declaration.labels }
    ensures is { (number : ℕ) → clock_of roster.now.declaration (record { label = label; number = number }) ≡ result }
    ensures inside { result < length roster.now.declaration.clocks }
{
    roster.decl().labels[label as usize].clock
}

// The clock at a place.
fn clock_at(roster: &Roster, place: u32) -> Clock
    requires { place < length roster.now.declaration.clocks }
    ensures { slice_get roster.now.declaration.clocks place ≡ Some result }
{
    roster.decl().clocks[place as usize]
}

/// Whether some label of the declaration gives a bound of its trace's own stamps. It takes a step for each label.
pub(crate) fn gives_bounds(roster: &Roster) -> bool
    ensures { result ≡ has_own_bounds roster.now.declaration }
{
    roster.decl().has_own_bounds()
}

// The bounds that events of the label at a place have of their own; `given` says whether some label gives any.
fn bounds_of(roster: &Roster, label: u32, given: bool) -> Option<StampBounds>
    requires label { label < length roster.now.declaration.labels }
    requires given { given ≡ has_own_bounds roster.now.declaration }
    ensures { (number : ℕ) → bounds_of roster.now.declaration (record { label = label; number = number }) ≡ result }
{
    let decl = roster.decl();
    decl.own_bounds_if(given, &decl.labels[label as usize])
}

/// Whether an event has entered the graph.
pub(crate) fn has_entered(solver: &Solver, v: u32) -> bool
    ensures is { result ≡ true → HasNode solver.now.graph (nodes.Event v) }
    ensures not { result ≡ false → HasNode solver.now.graph (nodes.Event v) → ⊥ }
{
    solver.graph().node_of(Node::Event(v)).is_some()
}

// The stamp above in ns, where there is one, or else the one that was a hint before.
fn hint_of(above: &Option<Nano>, hint: u64) -> u64 {
    match above {
        Some(stamp) => stamp.get(),
        None => hint,
    }
}

// An event of the roster enters the graph.
fn enter_new<L: Ledger>(
    roster: &mut Roster,
    solver: &mut Solver,
    v: u32,
    given: bool,
    hint: u64,
    steps: &mut Steps<L>,
) -> Result<u64, AllocError>
    requires inside { v < length roster.old.came }
    requires given { given ≡ has_own_bounds roster.old.declaration }
    requires new { HasNode solver.old.graph (nodes.Event v) → ⊥ }
    requires ready { (entered : ℕ → Bool) × (messages : List Message) × IsEntering entered messages roster.old solver.old }
    requires room { HasRoomFor 2 6 solver.old }
    ensures come { OnOk result (HaveCome [] roster.old roster.new solver.old solver.new) }
    ensures entered { OnOk result (HasNode solver.new.graph (nodes.Event v)) }
    ensures nodes { OnOk result (length solver.new.graph.nodes ≤ length solver.old.graph.nodes + 2) }
    ensures arcs { OnOk result (length solver.new.graph.arcs ≤ length solver.old.graph.arcs + 6) }
    ensures declaration { roster.new.declaration ≡ roster.old.declaration }
    ensures steps { OnOk result (TakesFewToPush solver.old solver.new steps.old steps.new) }
{
    // It tells that the roster is lawful.
    let _ = roster.decl();
    let came = roster.event(v);
    let stamp = came.stamp;
    let place = clock_of(roster, came.label);
    let clock = clock_at(roster, place);
    let own = bounds_of(roster, came.label, given);
    let known = is_known(solver, place, stamp);
    let nearest = nearest_of(roster, solver, place, stamp, known, hint);
    let next = hint_of(&nearest.above, hint);
    push_event(roster, solver, v)?;
    push_reading(roster, solver, place, stamp, known)?;
    let reading = ClockReading {
        place,
        clock,
        stamp,
    };
    push_entry(roster, solver, v, &reading, &own, &nearest, steps)?;
    Ok(next)
}

/// An event of the roster enters the graph, unless it has. There is room for its nodes. `given` says whether some label
/// gives a bound of its trace's own stamps. The answer is a stamp, in ns, that may be the nearest one above the next
/// event, as the hint may be that of this one: a wrong one costs time alone. An error comes only where memory runs out,
/// and then roster and graph are used no more.
pub(crate) fn enter<L: Ledger>(
    roster: &mut Roster,
    solver: &mut Solver,
    v: u32,
    given: bool,
    hint: u64,
    steps: &mut Steps<L>,
) -> Result<u64, AllocError>
    requires inside { v < length roster.old.came }
    requires given { given ≡ has_own_bounds roster.old.declaration }
    requires ready { (entered : ℕ → Bool) × (messages : List Message) × IsEntering entered messages roster.old solver.old }
    requires room { HasRoomFor 2 6 solver.old }
    ensures come { OnOk result (HaveCome [] roster.old roster.new solver.old solver.new) }
    ensures entered { OnOk result (HasNode solver.new.graph (nodes.Event v)) }
    ensures nodes { OnOk result (length solver.new.graph.nodes ≤ length solver.old.graph.nodes + 2) }
    ensures arcs { OnOk result (length solver.new.graph.arcs ≤ length solver.old.graph.arcs + 6) }
    ensures declaration { roster.new.declaration ≡ roster.old.declaration }
    ensures steps { OnOk result (TakesFewToPush solver.old solver.new steps.old steps.new) }
{
    if has_entered(solver, v) {
        return Ok(hint);
    }
    enter_new(roster, solver, v, given, hint, steps)
}
