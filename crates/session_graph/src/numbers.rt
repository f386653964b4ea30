// Messages by the numbers of their ends.
ghost use Rattle.std.specs.Prelude.{◌≡◌, ◌<◌, length, map, IfOk};
ghost use Rattle.decl.specs.Declaration.{link_bounds};
ghost use Rattle.msg_match.specs.Ends.{AreCouplesBelow};
ghost use Rattle.session_graph.specs.Numbers.{host_of_event, message_by};

use atto::Nano;
use msg_match::Couple;
use problem_model::Message;
use roster::Roster;
use std::alloc::{AllocError, Global};

// The host of the event with this number.
fn host_of(roster: &Roster, v: u32) -> u32
    requires { v < length roster.now.came }
    ensures { result ≡ host_of_event roster.now v }
{
    let came = roster.event(v);
    roster.decl().labels[came.label as usize].host
}

// The bounds of the link between the hosts of a message's ends.
fn bounds_of(roster: &Roster, couple: &Couple) -> (Nano, Option<Nano>)
    requires send { couple.now.send < length roster.now.came }
    requires receive { couple.now.receive < length roster.now.came }
    ensures { result ≡ link_bounds roster.now.declaration (host_of_event roster.now couple.now.send) (host_of_event roster.now couple.now.receive) }
{
    let from = host_of(roster, couple.send);
    let to = host_of(roster, couple.receive);
    roster.decl().link_of(from, to)
}

/// Messages between events of the roster, each with the bounds of the link between the hosts of its ends; an error
/// where memory runs out.
pub(crate) fn messages_of(
    alloc: Global,
    roster: &Roster,
    couples: &[Couple],
) -> Result<Vec<Message>, AllocError>
    requires { AreCouplesBelow (length roster.now.came) couples.now }
    ensures { IfOk result (λ messages. messages.items ≡ map (message_by roster.now) couples.now) }
{
    let mut messages = Vec::new(alloc);
    for couple in couples {
        let (least, most) = bounds_of(roster, couple);
        messages.push(Message {
            send: couple.send,
            receive: couple.receive,
            least,
            most,
        })?;
    }
    Ok(messages)
}
