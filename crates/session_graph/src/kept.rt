// A graph, the roster of its events and the matcher of their messages.
ghost use Rattle.std.specs.Prelude.{◌≡◌, ◌<◌, ◌≤◌, ◌+◌, ◌^◌, ◌++◌, true, List, [], None, length, map, IfOk, OnOk};
ghost use Rattle.problem_model.specs.Limits.{most_events, most_items};
ghost use Rattle.decl.specs.declared.items.Label.{Label};
ghost use Rattle.decl.specs.Declaration.{IsDeclaration, declaration_of};
ghost use Rattle.sync_graph.specs.declared.arc.Arc.{Arc};
ghost use Rattle.solver.specs.Solver.{SolverLists};
ghost use Rattle.traces.specs.Seen.{Seen, seen_events};
ghost use Rattle.msg_match.specs.Changes.{HaveOwnNumbers, AreMessagesAnew};
ghost use Rattle.msg_match.specs.Ends.{AreEndsBy, IsChange, items_from};
ghost use Rattle.roster.specs.Groups.{with_more};
ghost use Rattle.roster.specs.Roster.{id_of};
ghost use Rattle.session_graph.specs.Kept.{IsKeptFor, KeepsEvents, KeepsReadings, KeepsRows};
ghost use Rattle.session_graph.specs.Steps.{IsBetween, TakesFewToAdd};

use crate::changes::change;
use crate::room::make_room;
use atto::Steps;
use decl::Decl;
use msg_match::{Change, Changed, Matcher, counts, items_of};
use roster::Roster;
use solver::Solver;
use std::alloc::{AllocError, Global};
use std::sync::ledger::Ledger;
use traces::Event;

// The matcher gets the ends of messages among events that have the numbers from `first` on, and answers how the
// messages change; an error where memory runs out.
fn rematch(
    alloc: Global,
    matcher: &mut Matcher,
    first: u32,
    events: &[Event],
) -> Result<Change, AllocError>
    requires fits { first + length events.now < 2 ^ 32 }
    requires few { length matcher.old + length (items_from first (seen_events events.now)) ≤ most_items }
    requires differ { HaveOwnNumbers (matcher.old ++ items_from first (seen_events events.now)) }
    ensures ok { OnOk result (matcher.new ≡ matcher.old ++ items_from first (seen_events events.now)) }
    ensures added { IfOk result (λ change. AreMessagesAnew matcher.old matcher.new change.added.items) }
    ensures withdrawn { IfOk result (λ change. AreMessagesAnew matcher.new matcher.old change.withdrawn.items) }
{
    let items = items_of(alloc, first, events)?;
    matcher.add(&items)
}

/// The events of a session by number, with its declaration, which of them are messages, and their graph with what is
/// known of it.
#[derive(Drop)]
pub struct KeptGraph {
    /// The declaration, the events by number, and the readings, each with its node.
    pub roster: Roster,
    /// The events that are ends of messages, by number, and which of them are a message.
    pub matcher: Matcher,
    /// The graph, its earliest execution or a contradiction, and the rows of kept nodes.
    pub solver: Solver,
}

impl KeptGraph {
    /// No events, and no rows; an error where memory runs out, which drops the declaration.
    pub fn new(alloc: Global, decl: Decl) -> Result<KeptGraph, AllocError>
        requires { IsDeclaration (declaration_of decl) }
        ensures declared { IfOk result (λ k. k.roster.declaration ≡ declaration_of decl) }
        ensures kept { IfOk result (λ k. IsKeptFor (map (λ (l : Label). []) k.roster.declaration.labels) k.roster k.solver) }
        ensures ends { IfOk result (λ k. AreEndsBy (map id_of k.roster.came) k.matcher (map (λ (l : Label). []) k.roster.declaration.labels)) }
        ensures none { IfOk result (λ k. k.roster.came ≡ []) }
        ensures slots { IfOk result (λ k. k.solver.kept.slots ≡ []) }
        ensures source { IfOk result (λ k. k.solver.kept.source ≡ None) }
        ensures rows { IfOk result (λ k. k.solver.pool.rows ≡ []) }
    {
        let roster = Roster::new(alloc, decl)?;
        // It tells that the roster is lawful.
        let _ = roster.decl();
        Ok(KeptGraph {
            roster,
            matcher: Matcher::new(alloc),
            solver: Solver::new(alloc),
        })
    }

    /// Adds events of a label, behind those that it has, and answers how many messages come by them, and how many go.
    /// Arcs keep their numbers. An error comes only where memory runs out, and then the graph is used no more.
    ///
    /// Where an execution exists before and after, the steps are at most those of the withdrawing part, which is none
    /// where no message goes, and for each arc that comes what it may take between the state before it and the one with
    /// it: two, two for each kept row, and for each node that it changes, in the earliest execution or in a row, two
    /// and the arcs at it. At most eight arcs come for each event. Without an event there is no step where an execution
    /// existed before.
    pub fn add<L: Ledger>(
        &mut self,
        label: u32,
        events: &[Event],
        steps: &mut Steps<L>,
    ) -> Result<Changed, AllocError>
        requires kept { (before : List (List Seen)) × IsKeptFor before self.old.roster self.old.solver × AreEndsBy (map id_of self.old.roster.came) self.old.matcher before }
        requires label { label < length self.old.roster.declaration.labels }
        requires few { length self.old.roster.came + length events.now ≤ most_events }
        ensures kept { OnOk result ((before : List (List Seen)) → IsKeptFor before self.old.roster self.old.solver → AreEndsBy (map id_of self.old.roster.came) self.old.matcher before
            → IsKeptFor (with_more before label (seen_events events.now)) self.new.roster self.new.solver) }
        ensures ends { OnOk result ((before : List (List Seen)) → IsKeptFor before self.old.roster self.old.solver → AreEndsBy (map id_of self.old.roster.came) self.old.matcher before
            → AreEndsBy (map id_of self.new.roster.came) self.new.matcher (with_more before label (seen_events events.now))) }
        ensures changed { IfOk result (λ changed. (before : List (List Seen)) → IsKeptFor before self.old.roster self.old.solver → AreEndsBy (map id_of self.old.roster.came) self.old.matcher before
            → IsChange before (with_more before label (seen_events events.now)) changed) }
        ensures declaration { self.new.roster.declaration ≡ self.old.roster.declaration }
        ensures count { OnOk result (length self.new.roster.came ≡ length self.old.roster.came + length events.now) }
        ensures events { OnOk result (KeepsEvents self.old.roster self.new.roster) }
        ensures readings { OnOk result (KeepsReadings self.old.roster self.new.roster) }
        ensures rows { OnOk result (KeepsRows self.old.solver self.new.solver) }
        ensures arcs { OnOk result ((more : List Arc) × (self.new.solver.graph.arcs ≡ self.old.solver.graph.arcs ++ more)) }
        ensures between { self.old.solver.earliest.is_solved ≡ true → OnOk result ((between : SolverLists) × IsBetween self.old.solver self.new.solver between) }
        ensures nothing { events.now ≡ [] → self.old.solver.earliest.is_solved ≡ true → OnOk result (steps.new ≤ steps.old) }
        ensures steps { OnOk result (TakesFewToAdd (length events.now) self.old.solver self.new.solver steps.old steps.new) }
    {
        let alloc = *self.roster.decl().labels.allocator();
        make_room(&self.roster, &mut self.solver, events.len() as u32)?;
        let changes = rematch(alloc, &mut self.matcher, self.roster.len(), events)?;
        change(
            &mut self.roster,
            &mut self.solver,
            label,
            events,
            &changes,
            steps,
        )?;
        Ok(counts(&changes))
    }
}
