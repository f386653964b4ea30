// All events, merged.
ghost use Rattle.std.specs.Prelude.{◌≡◌, ◌≤◌, [], true, length, IsErrOf};
ghost use Rattle.problem_model.specs.Limits.{most_events};
ghost use Rattle.ports.specs.Content.{WritesSuch};
ghost use Rattle.solver.specs.Solution.{IsSolutionBy};
ghost use Rattle.decl.specs.Declaration.{IsDeclaration, declaration_of};
ghost use Rattle.traces.specs.Traces.{event_count};
ghost use Rattle.traces.specs.Held.{placed_in, seen_in};
ghost use Rattle.traces.specs.Messages.{problem_of_seen};
ghost use Rattle.traces.specs.Making.{AreEventsOf};
ghost use Rattle.queries.specs.declared.stop.Stop.TheVariants as stops;
ghost use Rattle.queries.specs.Replies.{Replies};
ghost use Rattle.replies.specs.Merged.{IsMergeText};
ghost use Rattle.replies.specs.Writing.{AreValued, IsTextBy, times_by};

use crate::keys::keys_of;
use crate::lines::write_ordered;
use decl::Decl;
use earliest::Earliest;
use ports::Sink;
use problem::Listing;
use queries::{Stop, executions, write_contradiction};
use report::merge_order;
use solver::Solver;
use std::alloc::Global;
use traces::{Accepted, PlacedEvent, events};

// Writes these events, merged by the values of their nodes.
fn write_merged<N: Listing, O: Sink>(
    alloc: Global,
    decl: &Decl,
    names: &N,
    events: &[PlacedEvent],
    e: &Earliest,
    out: &mut O,
) -> Result<(), Stop>
    requires declared { IsDeclaration (declaration_of decl.now) }
    requires events { AreEventsOf (declaration_of decl.now) (placed_in events.now) }
    requires solved { e.now.is_solved ≡ true }
    requires valued { AreValued (N.listed names.now) (length events.now) e.now.values }
    ensures writes { WritesSuch (IsTextBy (declaration_of decl.now) (times_by (N.listed names.now) e.now.values) (placed_in events.now)) stops.WriteFault (O.told out.old) (O.told out.new) result }
    ensures untouched { IsErrOf result stops.Memory → O.told out.new ≡ O.told out.old }
{
    let keys = keys_of(alloc, names, events, e)?;
    let order = merge_order(alloc, &keys)?;
    write_ordered(decl, names, events, e, &order, out)?;
    Ok(())
}

// Writes all events of a problem that has an execution, merged.
fn write_events<N: Listing, O: Sink>(
    alloc: Global,
    decl: &Decl,
    accepted: &[Accepted],
    names: &N,
    solver: &Solver,
    out: &mut O,
) -> Result<(), Stop>
    requires declared { IsDeclaration (declaration_of decl.now) }
    requires labels { length accepted.now ≡ length decl.now.labels.items }
    requires few { event_count (seen_in accepted.now) ≤ most_events }
    requires solution { IsSolutionBy (N.listed names.now) (problem_of_seen (declaration_of decl.now) (seen_in accepted.now)) solver.now }
    requires solved { solver.now.contradiction ≡ [] }
    ensures writes { WritesSuch (Replies (problem_of_seen (declaration_of decl.now) (seen_in accepted.now)) (IsMergeText (declaration_of decl.now) (seen_in accepted.now))) stops.WriteFault (O.told out.old) (O.told out.new) result }
    ensures untouched { IsErrOf result stops.Memory → O.told out.new ≡ O.told out.old }
{
    // It tells what the values of nodes are.
    executions();
    let events = events(alloc, accepted)?;
    write_merged(alloc, decl, names, &events, solver.earliest(), out)
}

// Writes the certificate of the contradiction that is held.
fn write_held<N: Listing, O: Sink>(
    decl: &Decl,
    accepted: &[Accepted],
    names: &N,
    solver: &Solver,
    out: &mut O,
) -> Result<(), Stop>
    requires solution { IsSolutionBy (N.listed names.now) (problem_of_seen (declaration_of decl.now) (seen_in accepted.now)) solver.now }
    requires held { solver.now.contradiction ≡ [] → ⊥ }
    ensures writes { WritesSuch (Replies (problem_of_seen (declaration_of decl.now) (seen_in accepted.now)) (IsMergeText (declaration_of decl.now) (seen_in accepted.now))) stops.WriteFault (O.told out.old) (O.told out.new) result }
    ensures untouched { IsErrOf result stops.Memory → O.told out.new ≡ O.told out.old }
{
    write_contradiction(names, solver.contradiction(), out)?;
    Ok(())
}

/// Writes `merge` and the number of all events, and then a line for each: its time in the earliest execution of the
/// problem as ns text, its name, and what an event log says of it. The lines are sorted by time, then by label, then by
/// number. Where the problem has no execution, it writes the certificate of a contradiction. The solver holds the
/// answer of the problem, and an event's time is the value of the node that the listing gives for it; so no step is
/// taken.
///
/// `Memory` is answered for want of memory, and nothing is written then. `WriteFault` is answered only where the sink's
/// count of faults rose, or stands at its last value; a front of such a reply is then written.
pub fn write_merge<N: Listing, O: Sink>(
    alloc: Global,
    decl: &Decl,
    accepted: &[Accepted],
    names: &N,
    solver: &Solver,
    out: &mut O,
) -> Result<(), Stop>
    requires declared { IsDeclaration (declaration_of decl.now) }
    requires labels { length accepted.now ≡ length decl.now.labels.items }
    requires few { event_count (seen_in accepted.now) ≤ most_events }
    requires solution { IsSolutionBy (N.listed names.now) (problem_of_seen (declaration_of decl.now) (seen_in accepted.now)) solver.now }
    ensures writes { WritesSuch (Replies (problem_of_seen (declaration_of decl.now) (seen_in accepted.now)) (IsMergeText (declaration_of decl.now) (seen_in accepted.now))) stops.WriteFault (O.told out.old) (O.told out.new) result }
    ensures untouched { IsErrOf result stops.Memory → O.told out.new ≡ O.told out.old }
{
    if solver.contradiction().is_empty() {
        write_events(alloc, decl, accepted, names, solver, out)
    } else {
        write_held(decl, accepted, names, solver, out)
    }
}
