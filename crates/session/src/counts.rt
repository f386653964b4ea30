// How many events and messages there are.
ghost use Rattle.std.specs.Prelude.{◌≡◌, length, filter, is_some};
ghost use Rattle.roster.specs.declared.came.Came.{Came};
ghost use Rattle.traces.specs.Traces.{event_count, events_of};
ghost use Rattle.traces.specs.Messages.{messages_of};
ghost use Rattle.session.specs.Stands.{IsReady, seen_held};

use crate::Session;
use roster::Roster;
use traces::event_count;

// How many events send a message, as the roster tells.
fn told_messages(roster: &Roster) -> u64
    ensures { result ≡ length (filter (λ (e : Came). is_some e.partner) roster.now.came) }
{
    let mut count = 0;
    for v in 0..roster.len() {
        if roster.event(v).partner.is_some() {
            count += 1;
        }
    }
    count
}

impl Session {
    /// How many events were accepted, under all labels together: at most 2^24. It takes a constant time, unless a call
    /// before ran out of memory: then it goes through the labels.
    pub fn event_count(&self) -> u64
        ensures { result ≡ event_count (seen_held self.now.under) }
    {
        if self.ready {
            return u64::from(self.answers.graph.roster.len());
        }
        event_count(&self.accepted)
    }

    /// How many messages there are among the events that were accepted. No call before answered `Memory`. The time goes by
    /// the events.
    pub fn message_count(&self) -> u64
        requires { IsReady self.now }
        ensures { result ≡ length (messages_of (events_of (seen_held self.now.under))) }
    {
        told_messages(&self.answers.graph.roster)
    }
}
