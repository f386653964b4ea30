// Messages that come.
ghost use Rattle.std.specs.Prelude.{◌≡◌, ◌<◌, ◌≤◌, ◌+◌, ℕ, Bool, List, [], ◌∷◌, ◌++◌, Some, length, Contains, IfOk, OnOk};
ghost use Rattle.problem_model.specs.declared.items.Message.{Message};
ghost use Rattle.problem_model.specs.declared.items.Node.TheVariants as nodes;
ghost use Rattle.problem_model.specs.declared.items.Bound.{Bound};
ghost use Rattle.problem_model.specs.Problem.{ProblemLists};
ghost use Rattle.problem_model.specs.ShortList.{message_bounds};
ghost use Rattle.problem_model.specs.Limits.{most_arcs};
ghost use Rattle.problem_graph.specs.Standing.{HasNode};
ghost use Rattle.solver.specs.Current.{IsCurrent};
ghost use Rattle.roster.specs.Growing.{IsGrowing};
ghost use Rattle.session_graph.specs.Kept.{HasArcs};
ghost use Rattle.session_graph.specs.Pushes.{Brings};
ghost use Rattle.session_graph.specs.Extensions.{TakesFewToPush};
ghost use Rattle.session_graph.specs.UnderWay.{IsEntering};
ghost use Rattle.session_graph.specs.Arrivals.{HaveCome};

use crate::pushes::{number_of, push_arcs};
use atto::Steps;
use problem_graph::message_arcs;
use problem_model::{Message, Node};
use roster::{Partner, Roster};
use solver::Solver;
use std::alloc::AllocError;
use std::sync::ledger::Ledger;

/// Brings in the bounds on the delay of a message, and answers the number of the arc of its least one.
pub(crate) fn push_message<L: Ledger>(
    solver: &mut Solver,
    message: &Message,
    steps: &mut Steps<L>,
) -> Result<u32, AllocError>
    requires current { IsCurrent solver.old }
    requires from { HasNode solver.old.graph (nodes.Event message.now.send) }
    requires to { HasNode solver.old.graph (nodes.Event message.now.receive) }
    requires room { length solver.old.graph.arcs + 2 ≤ most_arcs }
    ensures brings { OnOk result (Brings (message_bounds message.now) solver.old solver.new) }
    ensures steps { OnOk result (TakesFewToPush solver.old solver.new steps.old steps.new) }
    ensures arc { IfOk result (λ arc. HasArcs solver.new.graph message.now arc) }
    ensures left { OnOk result ((p : ProblemLists) (entered : ℕ → Bool) (rest : List Bound) → Contains p.messages message.now
        → IsGrowing p entered (message_bounds message.now ++ rest) solver.old.graph → IsGrowing p entered rest solver.new.graph) }
{
    let send = number_of(solver, Node::Event(message.send));
    let receive = number_of(solver, Node::Event(message.receive));
    let arcs = message_arcs(message, send, receive);
    push_arcs(solver, arcs, steps)?;
    Ok(solver.graph().arcs() - 1)
}

/// A message comes, whose ends have entered the graph. An error comes only where memory runs out, and then roster and
/// graph are used no more.
pub(crate) fn join<L: Ledger>(
    roster: &mut Roster,
    solver: &mut Solver,
    message: &Message,
    steps: &mut Steps<L>,
) -> Result<(), AllocError>
    requires sent { HasNode solver.old.graph (nodes.Event message.now.send) }
    requires received { HasNode solver.old.graph (nodes.Event message.now.receive) }
    requires ready { (entered : ℕ → Bool) × (messages : List Message) × IsEntering entered messages roster.old solver.old }
    requires arcs { length solver.old.graph.arcs + 2 ≤ most_arcs }
    ensures come { OnOk result (HaveCome (message.now ∷ []) roster.old roster.new solver.old solver.new) }
    ensures nodes { OnOk result (solver.new.graph.nodes ≡ solver.old.graph.nodes) }
    ensures arcs { OnOk result (length solver.new.graph.arcs ≤ length solver.old.graph.arcs + 2) }
    ensures declaration { roster.new.declaration ≡ roster.old.declaration }
    ensures steps { OnOk result (TakesFewToPush solver.old solver.new steps.old steps.new) }
{
    let arc = push_message(solver, message, steps)?;
    let partner = Partner {
        event: message.receive,
        arc,
    };
    roster.set_partner(message.send, Some(partner));
    Ok(())
}
