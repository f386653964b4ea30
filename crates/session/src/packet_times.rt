// Packets at the times of their events.
ghost use Rattle.std.specs.Prelude.{◌≡◌, ◌≤ℤ◌, ℕ, [], map, pos, true, All};
ghost use Rattle.problem_model.specs.Executions.{at};
ghost use Rattle.mergecap.specs.Packets.{timed, all_timed};
ghost use Rattle.solver.specs.Current.{IsCurrent};
ghost use Rattle.queries.specs.Consistent.{IsConsistent};
ghost use Rattle.roster.specs.Roster.{IsNumberUnder};
ghost use Rattle.roster.specs.Rosters.{KnowsNodes};
ghost use Rattle.session.specs.Stands.{IsReady, problem_held, seen_held};
ghost use Rattle.session.specs.Settled.{AreSettled, HasEventOf, event_of, node_of, valued};

use crate::Session;
use mergecap::Stored;
use queries::{contradictions, executions, is_consistent};
use roster::Roster;
use solver::Solver;
use traces::EventId;

// The value of an event's node in the earliest execution.
fn value_of(names: &Roster, solver: &Solver, event: EventId) -> i128
    requires current { IsCurrent solver.now }
    requires solved { solver.now.contradiction ≡ [] }
    requires nodes { KnowsNodes names.now solver.now.graph }
    requires there { (v : ℕ) × IsNumberUnder names.now.under event v }
    ensures { result ≡ at solver.now.earliest.values (node_of names.now event) }
{
    // It tells that the roster is lawful.
    let _ = names.decl();
    let came = names.event(names.number_of(event));
    solver.value(came.node)
}

// Gives a packet the value of its event.
fn settle_one(names: &Roster, solver: &Solver, stored: &mut Stored)
    requires current { IsCurrent solver.now }
    requires solved { solver.now.contradiction ≡ [] }
    requires nodes { KnowsNodes names.now solver.now.graph }
    requires there { (v : ℕ) × IsNumberUnder names.now.under (event_of (timed stored.old)) v }
    ensures { timed stored.new ≡ valued names.now solver.now (timed stored.old) }
{
    let event = EventId {
        label: stored.place,
        number: stored.n,
    };
    stored.value = value_of(names, solver, event);
}

// Gives packets the values of their events.
fn settle_each(names: &Roster, solver: &Solver, kept: &mut [Stored])
    requires current { IsCurrent solver.now }
    requires solved { solver.now.contradiction ≡ [] }
    requires nodes { KnowsNodes names.now solver.now.graph }
    requires there { All (λ t. (v : ℕ) × IsNumberUnder names.now.under (event_of t) v) (all_timed kept.old) }
    ensures { all_timed kept.new ≡ map (valued names.now solver.now) (all_timed kept.old) }
{
    for stored in kept.iter_mut() {
        settle_one(names, solver, stored);
    }
}

impl Session {
    /// Whether some execution obeys all bounds of what was added. No call before ran out of memory.
    pub fn consistent(&self) -> bool
        requires { IsReady self.now }
        ensures { IsConsistent (problem_held self.now) result }
    {
        is_consistent(&self.answers.graph.solver)
    }

    /// Gives each packet the time that the event of its place and number has in the earliest execution of what was added, in
    /// units of 1e-9 ns, and changes nothing else. It takes no memory.
    ///
    /// No call before ran out of memory, some execution obeys all bounds, and the event of each packet was accepted.
    pub fn settle(&self, kept: &mut [Stored])
        requires ready { IsReady self.now }
        requires consistent { IsConsistent (problem_held self.now) true }
        requires there { All (HasEventOf (seen_held self.now.under)) (all_timed kept.old) }
        ensures settled { AreSettled self.now.declaration (seen_held self.now.under) (all_timed kept.old) (all_timed kept.new) }
        ensures from_zero { All (λ (s : Stored). pos 0 ≤ℤ s.value) kept.new }
    {
        // They tell what the values of nodes are, and that none is held where there is an execution.
        executions();
        contradictions();
        let graph = &self.answers.graph;
        settle_each(&graph.roster, &graph.solver, kept);
    }
}
