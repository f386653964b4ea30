// Events of two messages or more.
ghost use Rattle.std.specs.Prelude.{◌≡◌, ◌<◌, All, IfOk, length};
ghost use Rattle.thinning.specs.Keeping.{AreMarked, MarksShared, Notes};

use problem::Problem;
use problem_model::Message;
use std::alloc::{AllocError, Global};

// Takes an event of a message: one that was seen before is shared.
fn note(seen: &mut [bool], shared: &mut [bool], event: u32)
    requires seen { event < length seen.old }
    requires shared { event < length shared.old }
    ensures { Notes seen.old shared.old event seen.new shared.new }
{
    let place = event as usize;
    if seen[place] {
        shared[place] = true;
    }
    seen[place] = true;
}

// Marks the events of the messages as seen, and those of two of them or more as shared.
fn mark_shared(messages: &[Message], seen: &mut [bool], shared: &mut [bool])
    requires sends { All (λ m. m.send < length seen.old) messages.now }
    requires receives { All (λ m. m.receive < length seen.old) messages.now }
    requires each { length shared.old ≡ length seen.old }
    ensures { AreMarked messages.now (length messages.now) seen.new shared.new }
{
    for message in messages {
        note(seen, shared, message.send);
        note(seen, shared, message.receive);
    }
}

/// For each event whether it is of two messages or more.
pub fn shared_events(alloc: Global, p: &Problem) -> Result<Vec<bool>, AllocError>
    ensures { IfOk result (λ shared. MarksShared p.now shared.items) }
{
    let count = p.events().len();
    let mut seen = Vec::new(alloc);
    seen.resize(count, false)?;
    let mut shared = Vec::new(alloc);
    shared.resize(count, false)?;
    mark_shared(p.messages(), &mut seen, &mut shared);
    Ok(shared)
}
