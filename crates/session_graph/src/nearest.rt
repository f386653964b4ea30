// The nearest nodes of a new reading.
ghost use Rattle.std.specs.Prelude.{◌≡◌, ◌<◌, true, false, Option, Some, None, length, slice_get, IfSome};
ghost use Rattle.problem_model.specs.declared.items.Node.TheVariants as nodes;
ghost use Rattle.problem_graph.specs.Standing.{HasNode};
ghost use Rattle.roster.specs.Groups.{group_at};
ghost use Rattle.roster.specs.Readings.{HasStamp};
ghost use Rattle.roster.specs.Entering.{IsStampBelow, IsStampAbove};
ghost use Rattle.session_graph.specs.Links.{ShowsNodes};

use atto::Nano;
use problem_model::Node;
use roster::Roster;
use solver::Solver;

/// Whether a reading is a node.
pub(crate) fn is_known(solver: &Solver, place: u32, stamp: Nano) -> bool
    ensures known { result ≡ true → HasNode solver.now.graph (nodes.Reading place stamp) }
    ensures new { result ≡ false → HasNode solver.now.graph (nodes.Reading place stamp) → ⊥ }
{
    solver
        .graph()
        .node_of(Node::Reading(place, stamp))
        .is_some()
}

// The greatest stamp of a clock's nodes below one that the clock has shown.
fn stamp_below(roster: &Roster, solver: &Solver, place: u32, stamp: Nano) -> Option<Nano>
    requires clock { place < length roster.now.declaration.clocks }
    requires shown { HasStamp (group_at roster.now.readings place) stamp }
    requires nodes { ShowsNodes roster.now solver.now.graph }
    ensures { IsStampBelow solver.now.graph place stamp result }
{
    let mut last = roster.stamp_below(place, stamp);
    while let Some(s) = last {
        if is_known(solver, place, s) {
            return Some(s);
        }
        last = roster.stamp_below(place, s);
    }
    None
}

// The least stamp of a clock's nodes above one that the clock has shown.
fn stamp_above(roster: &Roster, solver: &Solver, place: u32, stamp: Nano) -> Option<Nano>
    requires clock { place < length roster.now.declaration.clocks }
    requires shown { HasStamp (group_at roster.now.readings place) stamp }
    requires nodes { ShowsNodes roster.now solver.now.graph }
    ensures { IsStampAbove solver.now.graph place stamp result }
{
    let mut next = roster.stamp_above(place, stamp);
    while let Some(t) = next {
        if is_known(solver, place, t) {
            return Some(t);
        }
        let _range = t.get();
        next = roster.stamp_above(place, t);
    }
    None
}

// The hint, in ns, where it is the stamp of this node.
fn stamp_of(solver: &Solver, place: u32, hint: u64, node: u32) -> Option<Nano>
    ensures { IfSome result (λ t. slice_get solver.now.graph.nodes node ≡ Some (nodes.Reading place t)) }
{
    let stamp = Nano::new(hint)?;
    match solver.graph().node_of(Node::Reading(place, stamp)) {
        Some(k) => { if k == node { Some(stamp) } else { None } }
        None => None,
    }
}

/// The greatest stamp of a clock's nodes below one that it has shown, if that is a new reading.
pub(crate) fn below(
    roster: &Roster,
    solver: &Solver,
    place: u32,
    stamp: Nano,
    known: bool,
) -> Option<Nano>
    requires clock { place < length roster.now.declaration.clocks }
    requires shown { HasStamp (group_at roster.now.readings place) stamp }
    requires nodes { ShowsNodes roster.now solver.now.graph }
    ensures known { known ≡ true → result ≡ None }
    ensures new { known ≡ false → IsStampBelow solver.now.graph place stamp result }
{
    if known {
        return None;
    }
    stamp_below(roster, solver, place, stamp)
}

/// The least stamp of a clock's nodes above one that it has shown, if that is a new reading. The hint, in
/// ns, may be it.
pub(crate) fn above(
    roster: &Roster,
    solver: &Solver,
    place: u32,
    stamp: Nano,
    known: bool,
    hint: u64,
) -> Option<Nano>
    requires clock { place < length roster.now.declaration.clocks }
    requires shown { HasStamp (group_at roster.now.readings place) stamp }
    requires nodes { ShowsNodes roster.now solver.now.graph }
    ensures known { known ≡ true → result ≡ None }
    ensures new { known ≡ false → IsStampAbove solver.now.graph place stamp result }
{
    if known {
        return None;
    }
    let node = solver.graph().neighbours(place, stamp).1?;
    match stamp_of(solver, place, hint, node) {
        Some(t) => Some(t),
        None => stamp_above(roster, solver, place, stamp),
    }
}
