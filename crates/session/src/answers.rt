// What answers a question about all that was added.
ghost use Rattle.std.specs.Prelude.{◌≡◌, ◌≤◌, List, length, IsErrOf};
ghost use Rattle.problem_model.specs.Limits.{most_events};
ghost use Rattle.ports.specs.Content.{WritesSuch};
ghost use Rattle.traces.specs.declared.event_id.EventId.{EventId};
ghost use Rattle.traces.specs.Traces.{event_count};
ghost use Rattle.traces.specs.Held.{missed_in, seen_in};
ghost use Rattle.queries.specs.declared.stop.Stop.TheVariants as stops;
ghost use Rattle.replies.specs.Commands as commands;
ghost use Rattle.replies.specs.Commands.{TakesMemory, IsReadOff, question_seen};
ghost use Rattle.replies.specs.Reply.{IsAnswerTo};
ghost use Rattle.session_answers.specs.Ready.{AreAnswersOf, declared};
ghost use Rattle.session_answers.specs.Keeping.{HasSlotBy};

use crate::blames::write_blame;
use crate::lines::written;
use crate::reports::write_report;
use crate::thins::write_thin;
use atto::Steps;
use ports::Sink;
use problem_text::write_roster;
use queries::Stop;
use replies::{Question, write_merge};
use session_answers::{Answers, TwoNames, ask_comparison, ask_proof, ask_time, ask_times};
use std::alloc::Global;
use std::sync::ledger::Ledger;
use traces::Accepted;

/// Writes the answer to a question about what was accepted, of which these are the answers.
pub(crate) fn answer<O: Sink, L: Ledger>(
    alloc: Global,
    accepted: &[Accepted],
    answers: &mut Answers,
    question: Question,
    out: &mut O,
    steps: &mut Steps<L>,
) -> Result<(), Stop>
    requires labels { length accepted.now ≡ length (declared answers.old).labels }
    requires few { event_count (seen_in accepted.now) ≤ most_events }
    requires ready { (kept : List EventId) × AreAnswersOf (seen_in accepted.now) kept answers.old }
    ensures writes { WritesSuch (IsAnswerTo (question_seen question.entry) (declared answers.old) (seen_in accepted.now) (missed_in accepted.now))
        stops.WriteFault (O.told out.old) (O.told out.new) result }
    ensures roster { answers.new.graph.roster ≡ answers.old.graph.roster }
    ensures ready { (kept : List EventId) → AreAnswersOf (seen_in accepted.now) kept answers.old → AreAnswersOf (seen_in accepted.now) kept answers.new }
    ensures memory { IsErrOf result stops.Memory → TakesMemory (commands.Ask (question_seen question.entry)) }
    ensures untouched { IsErrOf result stops.Memory → O.told out.new ≡ O.told out.old }
    ensures steps { IsReadOff (HasSlotBy answers.old.graph.roster answers.old.graph.solver) (question_seen question.entry) → steps.new ≡ steps.old }
{
    let names = &answers.graph.roster;
    let matcher = &answers.graph.matcher;
    let solver = &mut answers.graph.solver;
    match question {
        Question::Compare {
            asked,
            first,
            second,
        } => {
            let events = TwoNames { first, second };
            written(ask_comparison(names, solver, asked, &events, out, steps))
        }
        Question::Time { event } => { written(ask_time(names, solver, answers.source, event, out)) }
        Question::Times { since } => {
            let source = answers.source;
            written(ask_times(names, solver, source, since, out, steps))
        }
        Question::Merge => write_merge(alloc, names.decl(), accepted, names, solver, out),
        Question::Prove { first, second } => {
            let events = TwoNames { first, second };
            written(ask_proof(names, solver, &events, out, steps))
        }
        Question::Problem => written(write_roster(names, out)),
        Question::Report => write_report(alloc, accepted, names, matcher, solver, out),
        Question::Blame => write_blame(alloc, names, out, steps),
        Question::Thin { events } => write_thin(alloc, names, &events, out),
    }
}
