// What stands ready for questions.
ghost use Rattle.std.specs.Prelude.{◌≡◌, ◌<◌, ◌≤◌, ◌+◌, ◌++◌, ◌*◌, ◌↔◌, List, [], Some, length, map, IfOk, OnOk, IsTrue};
ghost use Rattle.problem_model.specs.Limits.{most_events};
ghost use Rattle.decl.specs.declared.items.Label.{Label};
ghost use Rattle.decl.specs.Declaration.{IsDeclaration, declaration_of};
ghost use Rattle.traces.specs.Seen.{Seen, seen_events};
ghost use Rattle.traces.specs.declared.event_id.EventId.{EventId};
ghost use Rattle.traces.specs.Traces.{event_count};
ghost use Rattle.traces.specs.Held.{seen_in};
ghost use Rattle.msg_match.specs.Ends.{IsChange};
ghost use Rattle.roster.specs.Roster.{IsRoster};
ghost use Rattle.queries.specs.Consistent.{IsConsistent};
ghost use Rattle.replies.specs.Reply.{most_kept};
ghost use Rattle.session_answers.specs.Ready.{AreAnswersOf, IsAddition, answers_problem, declared};
ghost use Rattle.session_answers.specs.Keeping.{AreAnswersBut, BringsEvents, BringsSource, clock_at};

use crate::slots::keep_source;
use atto::{Nano, Steps};
use decl::Decl;
use msg_match::Changed;
use queries::is_consistent;
use session_graph::KeptGraph;
use std::alloc::{AllocError, Global};
use std::sync::ledger::Ledger;
use traces::{Accepted, Event};

/// The graph of all that was added, with its declaration and the ends of messages, and with the rows of the kept events
/// and of the source.
#[derive(Drop)]
pub struct Answers {
    /// The graph, with its declaration, the ends of messages and the rows.
    pub graph: KeptGraph,
    /// The stamp, in ns, of the source's reading whose rows are kept. None where there is no source, or its clock has no
    /// reading.
    pub source: Option<Nano>,
}

/// What came of events that were brought in.
#[derive(Clone, Copy, Debug)]
pub struct Renewed {
    /// Whether some execution obeys all bounds.
    pub consistent: bool,
    /// How many messages came with the events, and how many went.
    pub changed: Changed,
}

/// How many rows there are for so many kept events: two for each, two for the source, and two for a question.
pub(crate) fn rows_for(kept: usize) -> u32
    requires { kept ≤ most_kept }
    ensures { result ≡ 2 * kept + 4 }
{
    2 * kept as u32 + 4
}

/// The declaration.
pub fn decl_of(answers: &Answers) -> &Decl
    ensures same { declaration_of result.now ≡ declared answers.now }
    ensures lawful { IsRoster answers.now.graph.roster }
{
    answers.graph.roster.decl()
}

/// The answers where nothing was added. It answers an error only where memory runs out.
pub fn first_answers(alloc: Global, decl: Decl) -> Result<Answers, AllocError>
    requires { IsDeclaration (declaration_of decl) }
    ensures declaration { IfOk result (λ answers. declared answers ≡ declaration_of decl) }
    ensures ready { IfOk result (λ answers. AreAnswersOf (map (λ (l : Label). []) (declared answers).labels) [] answers) }
{
    let mut graph = KeptGraph::new(alloc, decl)?;
    // It tells that the roster is lawful.
    let _ = graph.roster.decl();
    graph.solver.reserve(rows_for(0), 0)?;
    Ok(Answers {
        graph,
        source: None,
    })
}

// The events under a label that came last, so many.
fn newest(under: &Accepted, more: usize) -> &[Event]
    requires { more ≤ length under.now.events.items }
    ensures events { (old events : List Seen) → seen_events under.now.events.items ≡ old ++ events → length events ≡ more → seen_events result.now ≡ events }
    ensures count { length result.now ≡ more }
{
    let first = under.events.len() - more;
    &under.events[first..]
}

// Whether the label at a place is on the source's clock.
fn is_on_source(decl: &Decl, k: usize) -> bool
    requires { k < length decl.now.labels.items }
    ensures { IsTrue result ↔ (decl.now.source ≡ Some (clock_at (declaration_of decl.now) k)) }
{
    match decl.source {
        Some(clock) => decl.labels[k].clock == clock,
        None => false,
    }
}

// Keeps the rows of a reading of the source's clock, where events that came under the label at a place brought its first.
fn keep_source_now<L: Ledger>(answers: &mut Answers, k: usize, steps: &mut Steps<L>)
    requires label { k < length (declared answers.old).labels }
    requires so_far { (seen : List (List Seen)) × (kept : List EventId) × AreAnswersBut k seen kept answers.old }
    ensures roster { answers.new.graph.roster ≡ answers.old.graph.roster }
    ensures matcher { answers.new.graph.matcher ≡ answers.old.graph.matcher }
    ensures source { BringsSource answers.old.graph.solver answers.new.graph.solver steps.old steps.new }
    ensures ready { (seen : List (List Seen)) (kept : List EventId) → AreAnswersBut k seen kept answers.old → AreAnswersOf seen kept answers.new }
{
    if answers.source.is_some() {
        return;
    }
    let decl = answers.graph.roster.decl();
    if !is_on_source(decl, k) {
        return;
    }
    let source = decl.source;
    answers.source = keep_source(
        &mut answers.graph.solver,
        &answers.graph.roster,
        source,
        steps,
    );
}

/// Brings the events into the graph that came last under the label at a place, so many, and tells whether some
/// execution obeys all bounds and how the messages changed. It answers an error only where memory runs out, and then
/// the graph is used no more.
pub fn renew<L: Ledger>(
    answers: &mut Answers,
    accepted: &[Accepted],
    k: usize,
    more: usize,
    steps: &mut Steps<L>,
) -> Result<Renewed, AllocError>
    requires inside { k < length accepted.now }
    requires few { event_count (seen_in accepted.now) ≤ most_events }
    requires brings { (before : List (List Seen)) × (kept : List EventId) × AreAnswersOf before kept answers.old × BringsEvents before (seen_in accepted.now) k more }
    ensures declaration { declared answers.new ≡ declared answers.old }
    ensures consistent { IfOk result (λ renewed. IsConsistent (answers_problem answers.new (seen_in accepted.now)) renewed.consistent) }
    ensures changed { IfOk result (λ renewed. (before : List (List Seen)) (kept : List EventId) → AreAnswersOf before kept answers.old → BringsEvents before (seen_in accepted.now) k more
        → IsChange before (seen_in accepted.now) renewed.changed) }
    ensures ready { OnOk result ((before : List (List Seen)) (kept : List EventId) → AreAnswersOf before kept answers.old → BringsEvents before (seen_in accepted.now) k more
        → AreAnswersOf (seen_in accepted.now) kept answers.new) }
    ensures addition { OnOk result (IsAddition more answers.old.graph.solver answers.new.graph.solver steps.old steps.new) }
{
    let events = newest(&accepted[k], more);
    let changed = answers.graph.add(k as u32, events, steps)?;
    // It tells that the roster is lawful.
    let _ = decl_of(answers);
    keep_source_now(answers, k, steps);
    Ok(Renewed {
        consistent: is_consistent(&answers.graph.solver),
        changed,
    })
}
