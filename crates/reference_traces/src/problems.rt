// The problem of events and messages, and of all that was accepted.
ghost use Rattle.std.specs.Prelude.{◌≡◌, ◌≤◌, length, IfOk};
ghost use Rattle.problem_model.specs.Limits.{most_events};
ghost use Rattle.decl.specs.Declaration.{IsDeclaration, declaration_of};
ghost use Rattle.traces.specs.Traces.{event_count, events_of};
ghost use Rattle.traces.specs.Messages.{messages_of, problem_of_seen};
ghost use Rattle.traces.specs.Held.{placed_in, seen_in};
ghost use Rattle.traces.specs.Making.{AreEventsOf, AreMessages, problem_by};

use crate::items::{add_clock, add_event, add_follow, add_message};
use crate::parts::{event_of, message_of};
use decl::Decl;
use problem::Problem;
use std::alloc::{AllocError, Global};
use traces::{Accepted, Couple, PlacedEvent, events};

// The problem of a declaration's clocks, of these events and of these messages.
fn problem_by(
    alloc: Global,
    decl: &Decl,
    events: &[PlacedEvent],
    couples: &[Couple],
) -> Result<Problem, AllocError>
    requires lawful { IsDeclaration (declaration_of decl.now) }
    requires events { AreEventsOf (declaration_of decl.now) (placed_in events.now) }
    requires messages { AreMessages (placed_in events.now) couples.now }
    ensures { IfOk result (λ p. p ≡ problem_by (declaration_of decl.now) (placed_in events.now) couples.now) }
{
    let mut p = Problem::empty(alloc);
    for clock in &decl.clocks {
        add_clock(&mut p, *clock)?;
    }
    for place in 0..decl.clocks.len() as u32 {
        if let Some(follow) = decl.follow_from(place) {
            add_follow(&mut p, follow)?;
        }
    }
    for event in events {
        let event = event_of(decl, event);
        add_event(&mut p, event)?;
    }
    for couple in couples {
        let message = message_of(decl, &p, couple);
        add_message(&mut p, message)?;
    }
    Ok(p)
}

/// The problem of a declaration and of what was accepted under each of its labels: the clocks of all hosts, a follow
/// for each two neighbouring clocks of a host, the events of all labels on the clocks of their labels, and their
/// messages, which are given in the order of their sends, with the bounds of the links between the hosts. An error
/// where memory runs out.
pub fn problem_of(
    alloc: Global,
    decl: &Decl,
    accepted: &[Accepted],
    messages: &[Couple],
) -> Result<Problem, AllocError>
    requires declared { IsDeclaration (declaration_of decl.now) }
    requires labels { length accepted.now ≡ length decl.now.labels.items }
    requires count { event_count (seen_in accepted.now) ≤ most_events }
    requires messages { messages.now ≡ messages_of (events_of (seen_in accepted.now)) }
    ensures problem { IfOk result (λ p. p ≡ problem_of_seen (declaration_of decl.now) (seen_in accepted.now)) }
{
    let events = events(alloc, accepted)?;
    problem_by(alloc, decl, &events, messages)
}
