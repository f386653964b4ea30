// The links of a problem: each clock with each that a message goes to.
ghost use Rattle.std.specs.Prelude.{◌≡◌, ◌<◌, length, map, All, IfOk};
ghost use Rattle.widen.specs.Blame.{link_of, links_of};

use problem::Problem;
use problem_model::{Event, Message};
use std::alloc::{AllocError, Global};

// The places of the clocks of the events that a message joins.
fn link_of(events: &[Event], message: &Message) -> (u32, u32)
    requires send { message.now.send < length events.now }
    requires receive { message.now.receive < length events.now }
    ensures { result ≡ link_of events.now message.now }
{
    let send = events[message.send as usize].clock;
    let receive = events[message.receive as usize].clock;
    (send, receive)
}

// Those of each message.
fn ends_of(alloc: Global, p: &Problem) -> Result<Vec<(u32, u32)>, AllocError>
    ensures { IfOk result (λ ends. ends.items ≡ map (link_of p.now.events) p.now.messages) }
{
    let events = p.events();
    let mut ends = Vec::new(alloc);
    for message in p.messages() {
        ends.push(link_of(events, message))?;
    }
    Ok(ends)
}

/// The links of a problem, each once, by the first clock and then by the second.
pub fn links_of(alloc: Global, p: &Problem) -> Result<Vec<(u32, u32)>, AllocError>
    ensures are { IfOk result (λ links. links.items ≡ links_of p.now) }
    ensures named { IfOk result (λ links. All (λ l. (l.0 < length p.now.clocks) × (l.1 < length p.now.clocks)) links.items) }
{
    // It tells that the problem is lawful.
    let _ = p.messages();
    let mut links = ends_of(alloc, p)?;
    links.sort_unstable();
    links.dedup();
    Ok(links)
}
