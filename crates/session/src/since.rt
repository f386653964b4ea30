// How long packets were after one event.
ghost use Rattle.std.specs.Prelude.{◌≡◌, ◌<◌, ◌≤◌, ℕ, List, [], map, length, true, All, IfOk, IfSome, IfNone, Some, slice_get};
ghost use Rattle.mergecap.specs.declared.stored.Stored.{Stored};
ghost use Rattle.mergecap.specs.Packets.{timed, all_timed};
ghost use Rattle.intervals.specs.Ends.{FitsEnds};
ghost use Rattle.problem.specs.Line.{HasEvent, IsUnknown};
ghost use Rattle.traces.specs.Seen.{Seen};
ghost use Rattle.traces.specs.declared.event_id.EventId.{EventId};
ghost use Rattle.traces.specs.Traces.{events_of, name_of};
ghost use Rattle.queries.specs.Consistent.{IsConsistent};
ghost use Rattle.replies.specs.Reply.{IsPlacedAt};
ghost use Rattle.roster.specs.declared.came.Came.{Came};
ghost use Rattle.roster.specs.Roster.{IsNumberUnder, IsRoster, id_of};
ghost use Rattle.roster.specs.Rosters.{KnowsNodes};
ghost use Rattle.solver.specs.Current.{IsCurrent};
ghost use Rattle.session_answers.specs.Ready.{AreAnswersOf, answers_problem, declared};
ghost use Rattle.session.specs.Firsts.{IsFirstBefore};
ghost use Rattle.session.specs.Settled.{HasEventOf, event_of, node_of};
ghost use Rattle.session.specs.Since.{AreEndsFrom, IsFirstOfAll};
ghost use Rattle.session.specs.Stands.{IsReady, problem_held, seen_held};

use crate::Session;
use crate::starts::first_event;
use atto::Steps;
use intervals::Ends;
use mergecap::Stored;
use queries::{contradictions, executions};
use roster::Roster;
use session_answers::{Answers, ends_since, find_event};
use solver::Solver;
use std::alloc::{AllocError, Global};
use std::sync::ledger::Ledger;
use traces::EventId;

// The node of an event.
fn node_of(names: &Roster, event: EventId) -> u32
    requires { (v : ℕ) × IsNumberUnder names.now.under event v }
    ensures { result ≡ node_of names.now event }
{
    // It tells that the roster is lawful.
    let _ = names.decl();
    names.event(names.number_of(event)).node
}

// The node of a packet's event.
fn packet_node(names: &Roster, stored: &Stored) -> u32
    requires { (v : ℕ) × IsNumberUnder names.now.under (event_of (timed stored.now)) v }
    ensures { result ≡ node_of names.now (event_of (timed stored.now)) }
{
    let event = EventId {
        label: stored.place,
        number: stored.n,
    };
    node_of(names, event)
}

// The nodes of packets' events.
fn packet_nodes(alloc: Global, names: &Roster, kept: &[Stored]) -> Result<Vec<u32>, AllocError>
    requires { All (λ (s : Stored). (v : ℕ) × IsNumberUnder names.now.under (event_of (timed s)) v) kept.now }
    ensures { IfOk result (λ nodes. nodes.items ≡ map (λ (s : Stored). node_of names.now (event_of (timed s))) kept.now) }
{
    let mut nodes = Vec::new(alloc);
    nodes.reserve(kept.len())?;
    for stored in kept {
        nodes.push(packet_node(names, stored))?;
    }
    Ok(nodes)
}

// The ends of the real times from an event to packets.
fn packet_ends<L: Ledger>(
    alloc: Global,
    answers: &mut Answers,
    event: EventId,
    kept: &[Stored],
    steps: &mut Steps<L>,
) -> Result<Vec<Ends>, AllocError>
    requires { (seen : List (List Seen)) × (ids : List EventId) × AreAnswersOf seen ids answers.old × IsConsistent (answers_problem answers.old seen) true
        × ((place : ℕ) × IsPlacedAt seen place event) × All (HasEventOf seen) (all_timed kept.now) }
    ensures are { IfOk result (λ all. (seen : List (List Seen)) (ids : List EventId) (place : ℕ) → AreAnswersOf seen ids answers.old → IsPlacedAt seen place event → All (HasEventOf seen) (all_timed kept.now)
        → AreEndsFrom (declared answers.old) seen place (all_timed kept.now) all.items) }
    ensures small { IfOk result (λ all. All FitsEnds all.items) }
    ensures roster { answers.new.graph.roster ≡ answers.old.graph.roster }
    ensures ready { (seen : List (List Seen)) (ids : List EventId) → AreAnswersOf seen ids answers.old → AreAnswersOf seen ids answers.new }
{
    // It tells that no contradiction is held where there is an execution.
    contradictions();
    let graph = &mut answers.graph;
    let nodes = packet_nodes(alloc, &graph.roster, kept)?;
    let first = node_of(&graph.roster, event);
    ends_since(alloc, &mut graph.solver, first, &nodes, steps)
}

// The event that comes first in the merge.
fn first_of(names: &Roster, solver: &Solver) -> Option<EventId>
    requires current { IsCurrent solver.now }
    requires none { solver.now.contradiction ≡ [] }
    requires nodes { KnowsNodes names.now solver.now.graph }
    ensures lawful { IsRoster names.now }
    ensures some { IfSome result (λ event. (v : ℕ) × (e : Came) × (slice_get names.now.came v ≡ Some e) × IsFirstBefore solver.now names.now.came v (length names.now.came) × (id_of e ≡ event)) }
    ensures none { IfNone result (length names.now.came ≡ 0) }
{
    // It tells that the roster is lawful.
    let _ = names.decl();
    if names.len() == 0 {
        return None;
    }
    let came = names.event(first_event(names, solver));
    Some(EventId {
        label: came.label,
        number: came.number,
    })
}

impl Session {
    /// The event of this name; None exactly where no event that was added has it. No call before ran out of memory.
    pub fn named(&self, name: &[u8]) -> Option<EventId>
        requires { IsReady self.now }
        ensures some { IfSome result (λ event. ((place : ℕ) × IsPlacedAt (seen_held self.now.under) place event × HasEvent (problem_held self.now) place name.now) × (name_of self.now.declaration event ≡ name.now)) }
        ensures none { IfNone result (IsUnknown (problem_held self.now) name.now) }
    {
        match find_event(&self.answers.graph.roster, name) {
            Some((event, _)) => Some(event),
            None => None,
        }
    }

    /// The event of all that was added that comes first in the merge, as the one by which dates begin; None where there is
    /// no event. No call before ran out of memory, and some execution obeys all bounds.
    pub fn first(&self) -> Option<EventId>
        requires ready { IsReady self.now }
        requires consistent { IsConsistent (problem_held self.now) true }
        ensures some { IfSome result (λ event. (place : ℕ) × IsFirstOfAll self.now.declaration (seen_held self.now.under) place event) }
        ensures none { IfNone result (events_of (seen_held self.now.under) ≡ []) }
    {
        // They tell what the values of nodes are, and that none is held where there is an execution.
        executions();
        contradictions();
        let graph = &self.answers.graph;
        first_of(&graph.roster, &graph.solver)
    }

    /// The least and the greatest real time from an event to that of each packet, over all executions of what was added,
    /// in units of 1e-9 ns and in the order of the packets. An error comes only where memory runs out; what was
    /// declared and accepted stays.
    ///
    /// No call before ran out of memory, some execution obeys all bounds, and the event and that of each packet were
    /// accepted. By kept rows where the event has them, else two free rows are filled once, and the steps for it are
    /// counted.
    pub fn ends_since<L: Ledger>(
        &mut self,
        event: EventId,
        kept: &[Stored],
        steps: &mut Steps<L>,
    ) -> Result<Vec<Ends>, AllocError>
        requires ready { IsReady self.old }
        requires consistent { IsConsistent (problem_held self.old) true }
        requires event { (place : ℕ) × IsPlacedAt (seen_held self.old.under) place event }
        requires there { All (HasEventOf (seen_held self.old.under)) (all_timed kept.now) }
        ensures are { IfOk result (λ all. (place : ℕ) → IsPlacedAt (seen_held self.old.under) place event → AreEndsFrom self.old.declaration (seen_held self.old.under) place (all_timed kept.now) all.items) }
        ensures small { IfOk result (λ all. All FitsEnds all.items) }
        ensures declared { self.new.declaration ≡ self.old.declaration }
        ensures held { self.new.under ≡ self.old.under }
    {
        packet_ends(self.alloc, &mut self.answers, event, kept, steps)
    }
}
