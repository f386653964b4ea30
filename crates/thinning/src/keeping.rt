// Which messages are kept.
ghost use Rattle.std.specs.Prelude.{◌≡◌, ◌<◌, IsTrue, IfOk, length};
ghost use Rattle.thinning.specs.Thinned.{MayBeKept};
ghost use Rattle.thinning.specs.Keeping.{MayGo, IsUnmarked};

use crate::cover::is_covered;
use crate::sharing::shared_events;
use crate::staircase::{Proposal, propose};
use problem::Problem;
use problem_model::Message;
use std::alloc::{AllocError, Global};

// Whether the events of a message have no mark.
fn has_no_mark(marks: &[bool], message: &Message) -> bool
    requires send { message.now.send < length marks.now }
    requires receive { message.now.receive < length marks.now }
    ensures { IsTrue result → IsUnmarked marks.now message.now }
{
    !marks[message.send as usize] && !marks[message.receive as usize]
}

// Whether the message at a place may be left out.
fn may_go(p: &Problem, proposal: &Proposal, shared: &[bool], asked: &[bool], place: u32) -> bool
    requires place { place < length p.now.messages }
    requires asked { length asked.now ≡ length p.now.events }
    requires shared { length shared.now ≡ length p.now.events }
    requires fixed { length proposal.now.fixed.items ≡ length p.now.messages }
    ensures { IsTrue result → MayGo p.now proposal.now.fixed.items shared.now asked.now place }
{
    let message = &p.messages()[place as usize];
    !proposal.fixed[place as usize]
        && has_no_mark(shared, message)
        && has_no_mark(asked, message)
        && is_covered(p, proposal, place, message)
}

/// For each message whether it is kept: others say what the rest say, whose events are of no other message and are not
/// asked about. Of messages that could all be left out it keeps the fastest of each link, and the slowest where there are
/// greatest delays. It takes the time of sorting the messages, and memory for some of their numbers.
pub(crate) fn kept_messages(
    alloc: Global,
    p: &Problem,
    asked: &[bool],
) -> Result<Vec<bool>, AllocError>
    requires { length asked.now ≡ length p.now.events }
    ensures { IfOk result (λ keeps. MayBeKept p.now asked.now keeps.items) }
{
    let proposal = propose(alloc, p)?;
    let shared = shared_events(alloc, p)?;
    let mut keeps = Vec::new(alloc);
    for place in 0..p.messages().len() as u32 {
        keeps.push(!may_go(p, &proposal, &shared, asked, place))?;
    }
    Ok(keeps)
}
