// Events that come at once, and the messages that change with them.
ghost use Rattle.std.specs.Prelude.{◌≡◌, ◌<◌, ◌≤◌, ◌+◌, ◌*◌, ◌++◌, true, List, [], length, map, OnOk};
ghost use Rattle.problem_model.specs.Limits.{most_events};
ghost use Rattle.sync_graph.specs.declared.arc.Arc.{Arc};
ghost use Rattle.solver.specs.Solver.{SolverLists, HasRoom};
ghost use Rattle.traces.specs.Seen.{Seen, seen_events};
ghost use Rattle.msg_match.specs.Ends.{AreChanges, AreCouplesBelow};
ghost use Rattle.roster.specs.Groups.{with_more};
ghost use Rattle.roster.specs.Roster.{id_of};
ghost use Rattle.session_graph.specs.Kept.{IsKeptFor, KeepsEvents, KeepsReadings, KeepsRows};
ghost use Rattle.session_graph.specs.Numbers.{names_then};
ghost use Rattle.session_graph.specs.Steps.{IsBetween, TakesFewToAdd};

use crate::arrivals::come;
use crate::numbers::messages_of;
use crate::plans::{dues_of, turns_of};
use crate::withdrawn::withdraw;
use atto::Steps;
use msg_match::Change;
use roster::Roster;
use solver::Solver;
use std::alloc::AllocError;
use std::sync::ledger::Ledger;
use traces::Event;

/// Events of a label come, which change the messages so, by the numbers that the events have then: those that go are
/// withdrawn, the events enter in the order of their stamps, and each message that comes joins once both its ends have
/// entered. There is room for all nodes. An error comes only where memory runs out, and then roster and graph are used
/// no more.
pub(crate) fn change<L: Ledger>(
    roster: &mut Roster,
    solver: &mut Solver,
    label: u32,
    events: &[Event],
    change: &Change,
    steps: &mut Steps<L>,
) -> Result<(), AllocError>
    requires kept { (before : List (List Seen)) × IsKeptFor before roster.old solver.old × AreChanges (names_then roster.old label (seen_events events.now)) before (with_more before label (seen_events events.now)) change.now }
    requires added { AreCouplesBelow (length roster.old.came + length events.now) change.now.added.items }
    requires withdrawn { AreCouplesBelow (length roster.old.came) change.now.withdrawn.items }
    requires label { label < length roster.old.declaration.labels }
    requires few { length roster.old.came + length events.now ≤ most_events }
    requires room { HasRoom (2 * (length roster.old.came + length events.now)) solver.old }
    ensures kept { OnOk result ((before : List (List Seen)) → IsKeptFor before roster.old solver.old → AreChanges (names_then roster.old label (seen_events events.now)) before (with_more before label (seen_events events.now)) change.now
        → IsKeptFor (with_more before label (seen_events events.now)) roster.new solver.new) }
    ensures declaration { roster.new.declaration ≡ roster.old.declaration }
    ensures count { OnOk result (length roster.new.came ≡ length roster.old.came + length events.now) }
    ensures names { OnOk result (map id_of roster.new.came ≡ names_then roster.old label (seen_events events.now)) }
    ensures events { OnOk result (KeepsEvents roster.old roster.new) }
    ensures readings { OnOk result (KeepsReadings roster.old roster.new) }
    ensures rows { OnOk result (KeepsRows solver.old solver.new) }
    ensures arcs { OnOk result ((more : List Arc) × (solver.new.graph.arcs ≡ solver.old.graph.arcs ++ more)) }
    ensures between { solver.old.earliest.is_solved ≡ true → OnOk result ((between : SolverLists) × IsBetween solver.old solver.new between) }
    ensures nothing { events.now ≡ [] → solver.old.earliest.is_solved ≡ true → OnOk result (steps.new ≤ steps.old) }
    ensures steps { OnOk result (TakesFewToAdd (length events.now) solver.old solver.new steps.old steps.new) }
{
    // `decl` tells, of the roster as it is before and after each change, that it is lawful.
    let alloc = *roster.decl().labels.allocator();
    let withdrawn = messages_of(alloc, roster, &change.withdrawn)?;
    withdraw(alloc, roster, solver, &withdrawn, steps)?;
    let _ = roster.decl();
    let first = roster.push(label, events)?;
    let _ = roster.decl();
    let turns = turns_of(alloc, events, first)?;
    let added = messages_of(alloc, roster, &change.added)?;
    let dues = dues_of(alloc, roster, &added, first)?;
    come(roster, solver, &turns, &dues, steps)?;
    let _ = roster.decl();
    Ok(())
}
