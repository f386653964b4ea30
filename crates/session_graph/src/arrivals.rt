// Events and messages that come in turn.
ghost use Rattle.std.specs.Prelude.{◌≡◌, ◌<◌, ◌≤◌, ◌+◌, ◌-◌, ◌*◌, ◌⊎◌, ℕ, Bool, true, false, List, All, length, slice_get, Some, Contains, OnOk};
ghost use Rattle.problem_model.specs.declared.items.Message.{Message};
ghost use Rattle.problem_model.specs.declared.items.Node.TheVariants as nodes;
ghost use Rattle.problem_graph.specs.Standing.{HasNode};
ghost use Rattle.session_graph.specs.declared.plans.Due.{Due};
ghost use Rattle.session_graph.specs.UnderWay.{IsEntering};
ghost use Rattle.session_graph.specs.Extensions.{TakesFewToPush};
ghost use Rattle.session_graph.specs.Plans.{turn_numbers, messages_in};
ghost use Rattle.session_graph.specs.Arrivals.{HasRoomFor, HaveOwnSends, HaveCome};

use crate::entries::{enter, gives_bounds, has_entered};
use crate::joints::join;
use crate::plans::{Due, Turn};
use atto::Steps;
use problem_model::Message;
use roster::Roster;
use solver::Solver;
use std::alloc::AllocError;
use std::sync::ledger::Ledger;

// The event at a place.
fn event_at(turns: &[Turn], place: usize) -> u32
    requires { place < length turns.now }
    ensures { slice_get (turn_numbers turns.now) place ≡ Some result }
{
    turns[place].event
}

// The message at a place.
fn due_at(dues: &[Due], place: usize) -> Due
    requires { place < length dues.now }
    ensures { slice_get dues.now place ≡ Some result }
{
    dues[place]
}

// Whether both ends of a message have entered.
fn both_stand(solver: &Solver, message: &Message) -> bool
    ensures sent { result ≡ true → HasNode solver.now.graph (nodes.Event message.now.send) }
    ensures received { result ≡ true → HasNode solver.now.graph (nodes.Event message.now.receive) }
{
    let sent = has_entered(solver, message.send);
    let received = has_entered(solver, message.receive);
    sent && received
}

// Whether the last of these messages that are left can join: both its ends have entered.
fn is_ready(solver: &Solver, dues: &[Due], left: usize) -> bool
    requires { left ≤ length dues.now }
    ensures some { result ≡ true → 0 < left }
    ensures sent { result ≡ true → (d : Due) → slice_get dues.now (left - 1) ≡ Some d → HasNode solver.now.graph (nodes.Event d.message.send) }
    ensures received { result ≡ true → (d : Due) → slice_get dues.now (left - 1) ≡ Some d → HasNode solver.now.graph (nodes.Event d.message.receive) }
{
    if left == 0 {
        return false;
    }
    let due = due_at(dues, left - 1);
    both_stand(solver, &due.message)
}

// Whether a message comes next, and no event: its ends have entered, or no event is left.
fn is_message_next(solver: &Solver, turns: &[Turn], next: usize, dues: &[Due], left: usize) -> bool
    requires { left ≤ length dues.now }
    ensures event { result ≡ false → next < length turns.now }
    ensures some { result ≡ true → next < length turns.now → 0 < left }
    ensures sent { result ≡ true → next < length turns.now → (d : Due) → slice_get dues.now (left - 1) ≡ Some d → HasNode solver.now.graph (nodes.Event d.message.send) }
    ensures received { result ≡ true → next < length turns.now → (d : Due) → slice_get dues.now (left - 1) ≡ Some d → HasNode solver.now.graph (nodes.Event d.message.receive) }
{
    if next >= turns.len() {
        return true;
    }
    is_ready(solver, dues, left)
}

/// Events of the roster enter the graph, in the order of their turns, and messages come, from the last to the first,
/// each as soon as both its ends have entered. There is room for all nodes.
pub(crate) fn come<L: Ledger>(
    roster: &mut Roster,
    solver: &mut Solver,
    turns: &[Turn],
    dues: &[Due],
    steps: &mut Steps<L>,
) -> Result<(), AllocError>
    requires inside { All (λ v. v < length roster.old.came) (turn_numbers turns.now) }
    requires sends { All (λ m. m.send < length roster.old.came) (messages_in dues.now) }
    requires receives { All (λ m. m.receive < length roster.old.came) (messages_in dues.now) }
    requires ready { (entered : ℕ → Bool) × (messages : List Message) × IsEntering entered messages roster.old solver.old × HaveOwnSends (messages_in dues.now) messages }
    requires all { (v : ℕ) → v < length roster.old.came → HasNode solver.old.graph (nodes.Event v) ⊎ Contains (turn_numbers turns.now) v }
    requires room { HasRoomFor (2 * length turns.now) (6 * length turns.now + 2 * length dues.now) solver.old }
    ensures come { OnOk result (HaveCome (messages_in dues.now) roster.old roster.new solver.old solver.new) }
    ensures all { OnOk result ((v : ℕ) → v < length roster.old.came → HasNode solver.new.graph (nodes.Event v)) }
    ensures nodes { OnOk result (length solver.new.graph.nodes ≤ length solver.old.graph.nodes + 2 * length turns.now) }
    ensures arcs { OnOk result (length solver.new.graph.arcs ≤ length solver.old.graph.arcs + 6 * length turns.now + 2 * length dues.now) }
    ensures declaration { roster.new.declaration ≡ roster.old.declaration }
    ensures steps { OnOk result (TakesFewToPush solver.old solver.new steps.old steps.new) }
{
    let given = gives_bounds(roster);
    let mut next = 0;
    let mut left = dues.len();
    let mut hint = 0;
    let total = turns.len() + dues.len();
    for k in 0..total {
        if is_message_next(solver, turns, next, dues, left) {
            left -= 1;
            let due = due_at(dues, left);
            join(roster, solver, &due.message, steps)?;
        } else {
            let event = event_at(turns, next);
            hint = enter(roster, solver, event, given, hint, steps)?;
            next += 1;
        }
    }
    Ok(())
}
