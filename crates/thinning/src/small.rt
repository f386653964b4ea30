// What is kept of a problem.
ghost use Rattle.std.specs.Prelude.{◌≡◌, ◌<◌, Bool, List, All, IfOk, length};
ghost use Rattle.problem_model.specs.Problem.{IsProblem};
ghost use Rattle.thinning.specs.Small.{ShrinksTo};
ghost use Rattle.thinning.specs.Thinned.{IsThinnedTo, HasAsked};
ghost use Rattle.thinning.specs.Kept.{event_marks, message_marks, thinned_lists, FitsTo};
ghost use Rattle.thinning.specs.Staying.{Stay, IsMarkedAlso, AreEndsMarked};

use crate::asked::{asked_marks, mark};
use crate::keeping::kept_messages;
use crate::laws::{small_ends_are_the_same, small_problems_suffice};
use problem::{Message, Problem};
use std::alloc::{AllocError, Global};

/// What is kept of a problem: a mark for each of its events and one for each of its messages.
#[derive(Drop)]
pub struct Thinned {
    pub(crate) stays: Vec<bool>,
    pub(crate) keeps: Vec<bool>,
}

// Marks both events of a message.
fn mark_message(stays: &mut [bool], message: &Message)
    requires send { message.now.send < length stays.old }
    requires receive { message.now.receive < length stays.old }
    ensures { (mid : List Bool) × IsMarkedAlso message.now.send stays.old mid × IsMarkedAlso message.now.receive mid stays.new }
{
    mark(stays, message.send);
    mark(stays, message.receive);
}

// Marks both events of each message whose own mark is true.
fn mark_ends(stays: &mut [bool], messages: &[Message], keeps: &[bool])
    requires each { length keeps.now ≡ length messages.now }
    requires sends { All (λ m. m.send < length stays.old) messages.now }
    requires receives { All (λ m. m.receive < length stays.old) messages.now }
    ensures { AreEndsMarked messages.now keeps.now stays.old stays.new }
{
    for place in 0..messages.len() {
        if keeps[place] {
            mark_message(stays, &messages[place]);
        }
    }
}

// Marks the events of the messages that are kept beside those that are marked.
fn mark_kept(stays: &mut [bool], p: &Problem, keeps: &[bool])
    requires events { length stays.old ≡ length p.now.events }
    requires messages { length keeps.now ≡ length p.now.messages }
    ensures { Stay p.now stays.old keeps.now stays.new }
{
    mark_ends(stays, p.messages(), keeps);
}

// Marks of the events that stay: those that are marked, and those of the messages that are kept.
fn staying(
    alloc: Global,
    p: &Problem,
    marks: &[bool],
    keeps: &[bool],
) -> Result<Vec<bool>, AllocError>
    requires events { length marks.now ≡ length p.now.events }
    requires messages { length keeps.now ≡ length p.now.messages }
    ensures { IfOk result (λ stays. Stay p.now marks.now keeps.now stays.items) }
{
    let mut stays = Vec::new(alloc);
    stays.extend_from_slice(marks)?;
    mark_kept(&mut stays, p, keeps);
    Ok(stays)
}

/// What is kept of a problem when messages that others imply are left out. The events at the places that are asked about stay,
/// each place being that of an event. For each two events that stay, what is kept has the same greatest differences as the
/// whole, and it has an execution exactly where the whole has one; each message that is left out is implied by those that
/// are kept. It takes memory for some bytes for each event, each message and each clock, and answers an error where there
/// is none.
pub fn thin(alloc: Global, p: &Problem, asked: &[u32]) -> Result<Thinned, AllocError>
    requires inside { All (λ k. k < length p.now.events) asked.now }
    ensures thinned { IfOk result (λ t. IsThinnedTo p.now (thinned_lists p.now t)) }
    ensures shrinks { IfOk result (λ t. ShrinksTo p.now (event_marks t) (message_marks t)) }
    ensures asked { IfOk result (λ t. HasAsked p.now asked.now (thinned_lists p.now t)) }
    ensures problem { IfOk result (λ t. IsProblem (thinned_lists p.now t)) }
    ensures fits { IfOk result (λ t. FitsTo p.now t) }
{
    // They tell why what is kept suffices.
    small_ends_are_the_same();
    small_problems_suffice();
    // It tells that the problem is lawful.
    let _ = p.events();
    let marks = asked_marks(alloc, p, asked)?;
    let keeps = kept_messages(alloc, p, &marks)?;
    let stays = staying(alloc, p, &marks, &keeps)?;
    Ok(Thinned { stays, keeps })
}
