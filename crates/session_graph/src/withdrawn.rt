// Messages that are withdrawn.
ghost use Rattle.std.specs.Prelude.{◌≡◌, ◌≢◌, ◌<◌, ◌++◌, ℕ, suc, List, [], Some, None, length, slice_get, All, AllPairs, OnOk, IfOk};
ghost use Rattle.std.specs.List.{flat_map};
ghost use Rattle.problem_model.specs.declared.items.Message.{Message};
ghost use Rattle.sync_graph.specs.Graph.{GraphLists};
ghost use Rattle.solver.specs.Solver.{HasRoom};
ghost use Rattle.roster.specs.declared.came.Came.{Came};
ghost use Rattle.roster.specs.declared.came.Partner.{Partner};
ghost use Rattle.roster.specs.Roster.{event_at};
ghost use Rattle.session_graph.specs.Kept.{KeepsRows, TellsArc};
ghost use Rattle.session_graph.specs.Growth.{Retells};
ghost use Rattle.session_graph.specs.UnderWay.{IsChangeUnderWay};
ghost use Rattle.session_graph.specs.Cuts.{CutsInFewSteps};
ghost use Rattle.session_graph.specs.Withdrawn.{AreLeft, partner_arc, arcs_to, told_arcs, without_partner, without_partners};

use atto::Steps;
use problem_model::Message;
use roster::Roster;
use solver::Solver;
use std::alloc::{AllocError, Global};
use std::sync::ledger::Ledger;

// The number of the arc that the roster tells of at a send.
fn arc_of(roster: &Roster, send: u32) -> u32
    requires { (e : Came) × (p : Partner) × (slice_get roster.now.came send ≡ Some e) × (e.partner ≡ Some p) }
    ensures { result ≡ partner_arc (event_at roster.now.came send).partner }
{
    roster.event(send).partner.unwrap().arc
}

// Appends the numbers of a message's arcs, of which this is the last one.
fn list_arcs(numbers: &mut Vec<u32>, message: &Message, arc: u32) -> Result<(), AllocError>
    requires { (w : ℕ) → message.now.most ≡ Some w → (k : ℕ) × (arc ≡ suc k) }
    ensures { OnOk result (numbers.new.items ≡ numbers.old.items ++ arcs_to arc message.now.most) }
{
    match message.most {
        Some(_) => {
            numbers.push(arc - 1)?;
            numbers.push(arc)?;
            Ok(())
        }
        None => {
            numbers.push(arc)?;
            Ok(())
        }
    }
}

// Appends the numbers of the arcs of a message.
fn list_message(
    roster: &Roster,
    message: &Message,
    numbers: &mut Vec<u32>,
) -> Result<(), AllocError>
    requires { (g : GraphLists) × TellsArc roster.now g message.now }
    ensures { OnOk result (numbers.new.items ≡ numbers.old.items ++ told_arcs roster.now message.now) }
{
    let arc = arc_of(roster, message.send);
    list_arcs(numbers, message, arc)
}

// The numbers of the arcs of messages.
fn list_messages(
    alloc: Global,
    roster: &Roster,
    messages: &[Message],
) -> Result<Vec<u32>, AllocError>
    requires { (g : GraphLists) × All (λ m. TellsArc roster.now g m) messages.now }
    ensures { IfOk result (λ numbers. numbers.items ≡ flat_map (told_arcs roster.now) messages.now) }
{
    let mut numbers = Vec::new(alloc);
    for message in messages {
        list_message(roster, message, &mut numbers)?;
    }
    Ok(numbers)
}

// The roster tells of a message no more.
fn forget(roster: &mut Roster, message: &Message)
    requires { message.now.send < length roster.old.came }
    ensures { roster.new ≡ without_partner roster.old message.now.send }
{
    roster.set_partner(message.send, None);
}

// The roster tells of these messages no more.
fn forget_all(roster: &mut Roster, messages: &[Message])
    requires { All (λ m. m.send < length roster.old.came) messages.now }
    ensures { roster.new ≡ without_partners roster.old messages.now }
{
    for message in messages {
        forget(roster, message);
    }
}

/// Messages of the graph are withdrawn, each once. Their arcs are there still, out of force.
pub(crate) fn withdraw<L: Ledger>(
    alloc: Global,
    roster: &mut Roster,
    solver: &mut Solver,
    messages: &[Message],
    steps: &mut Steps<L>,
) -> Result<(), AllocError>
    requires differ { AllPairs (λ a b. a ≢ b) messages.now }
    requires ready { (all left : List Message) × IsChangeUnderWay all roster.old solver.old × AreLeft all messages.now left }
    ensures gone { OnOk result ((all left : List Message) → IsChangeUnderWay all roster.old solver.old → AreLeft all messages.now left → IsChangeUnderWay left roster.new solver.new) }
    ensures retells { OnOk result (Retells roster.old roster.new) }
    ensures arcs { OnOk result (solver.new.graph.arcs ≡ solver.old.graph.arcs) }
    ensures rows { OnOk result (KeepsRows solver.old solver.new) }
    ensures room { OnOk result ((n : ℕ) → HasRoom n solver.old → HasRoom n solver.new) }
    ensures declaration { roster.new.declaration ≡ roster.old.declaration }
    ensures unchanged { messages.now ≡ [] → OnOk result (solver.new ≡ solver.old) }
    ensures steps { OnOk result (CutsInFewSteps solver.old solver.new steps.old steps.new) }
{
    let numbers = list_messages(alloc, roster, messages)?;
    solver.withdraw(&numbers, steps)?;
    forget_all(roster, messages);
    Ok(())
}
