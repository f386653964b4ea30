// Events that are kept from now on.
ghost use Rattle.std.specs.Prelude.{◌≡◌, ◌<◌, ◌≤◌, None, List, length, IfOk, OnOk, OnErr};
ghost use Rattle.traces.specs.Seen.{Seen};
ghost use Rattle.repair.specs.Slots.{slot_of};
ghost use Rattle.solver.specs.Current.{IsCurrent};
ghost use Rattle.replies.specs.Outcomes.{outcome_line};
ghost use Rattle.replies.specs.Reply.{AreKept, KeepReply, most_kept};
ghost use Rattle.session_answers.specs.Ready.{AreAnswersOf, HasSpareRows, answers_problem};
ghost use Rattle.session_answers.specs.Keeping.{IsKeptNext};

use crate::answers::{Answers, rows_for};
use crate::events::find_event;
use crate::slots::keep_node;
use atto::Steps;
use replies::{Outcome, Refusal};
use solver::Solver;
use std::alloc::AllocError;
use std::sync::ledger::Ledger;
use traces::EventId;

// How many events are kept at most: as many as a solver has slots for.
const MOST_KEPT: usize = 8;

// Keeps the rows of a node that has no slot, unless eight have one, and notes its event.
fn keep_new<L: Ledger>(
    kept: &mut Vec<EventId>,
    solver: &mut Solver,
    event: EventId,
    node: u32,
    steps: &mut Steps<L>,
) -> Result<Outcome, AllocError>
    requires current { IsCurrent solver.old }
    requires node { node < length solver.old.graph.nodes }
    requires none { slot_of solver.old.kept node ≡ None }
    requires few { length kept.old.items ≤ most_kept }
    requires each { length solver.old.kept.slots ≡ length kept.old.items }
    requires rows { HasSpareRows solver.old }
    ensures kept { IfOk result (λ outcome. IsKeptNext event node kept.old.items kept.new.items solver.old solver.new outcome) }
    ensures err { OnErr result (kept.new.items ≡ kept.old.items) }
{
    if kept.len() >= MOST_KEPT {
        return Ok(Outcome::Refused(Refusal::EightAreKept));
    }
    let nodes = solver.graph().nodes();
    solver.reserve(rows_for(kept.len() + 1), nodes)?;
    kept.push(event)?;
    Ok(Outcome::Kept(keep_node(solver, node, steps)))
}

/// Keeps the rows of the event of this name from now on, and answers what came of it: its slot, or the refusal where no
/// event has the name, or where it is a ninth. An error is answered only where memory runs out; then the answers are
/// used no more, but for the declaration.
pub fn keep_event<L: Ledger>(
    kept: &mut Vec<EventId>,
    answers: &mut Answers,
    name: &[u8],
    steps: &mut Steps<L>,
) -> Result<Outcome, AllocError>
    requires ready { (seen : List (List Seen)) × AreKept seen kept.old.items × AreAnswersOf seen kept.old.items answers.old }
    ensures replies { (seen : List (List Seen)) → AreKept seen kept.old.items → AreAnswersOf seen kept.old.items answers.old
        → IfOk result (λ outcome. KeepReply (answers_problem answers.old seen) seen kept.old.items name.now (outcome_line outcome) kept.new.items) }
    ensures roster { answers.new.graph.roster ≡ answers.old.graph.roster }
    ensures matcher { answers.new.graph.matcher ≡ answers.old.graph.matcher }
    ensures kept { (seen : List (List Seen)) → AreKept seen kept.old.items → AreAnswersOf seen kept.old.items answers.old → AreKept seen kept.new.items }
    ensures ready { OnOk result ((seen : List (List Seen)) → AreKept seen kept.old.items → AreAnswersOf seen kept.old.items answers.old → AreAnswersOf seen kept.new.items answers.new) }
{
    match find_event(&answers.graph.roster, name) {
        Some((event, node)) => match answers.graph.solver.slot_of(node) {
            Some(slot) => Ok(Outcome::Kept(slot)),
            None => keep_new(kept, &mut answers.graph.solver, event, node, steps),
        },
        None => Ok(Outcome::Refused(Refusal::UnknownEvent)),
    }
}
