// The problem of what a roster holds, as a value.
ghost use Rattle.std.specs.Prelude.{◌≡◌, List, IfOk};
ghost use Rattle.problem_model.specs.Problem.{ProblemLists, IsProblem};
ghost use Rattle.problem_model.specs.ProblemText.{problem_text};
ghost use Rattle.traces.specs.Seen.{Seen};
ghost use Rattle.traces.specs.Messages.{problem_of_seen};
ghost use Rattle.roster.specs.Roster.{HoldsEvents};
ghost use Rattle.roster.specs.Told.{TellsMessages, messages_by_number};

use crate::laws::read_again;
use crate::roster_problem::write_roster;
use crate::text_sink::TextSink;
use problem::{Problem, read_problem};
use roster::Roster;
use std::alloc::{AllocError, Global};

// The text of the problem of what a roster holds.
fn text_of(alloc: Global, roster: &Roster) -> Result<Vec<u8>, AllocError>
    requires told { (seen : List (List Seen)) × HoldsEvents roster.now seen × TellsMessages roster.now (messages_by_number roster.now seen) }
    ensures { (seen : List (List Seen)) → HoldsEvents roster.now seen → TellsMessages roster.now (messages_by_number roster.now seen) → IfOk result (λ text. text.items ≡ problem_text (problem_of_seen roster.now.declaration seen)) }
{
    let mut sink = TextSink::new(alloc);
    match write_roster(roster, &mut sink) {
        Ok(()) => Ok(sink.bytes),
        Err(_) => Err(AllocError),
    }
}

// The problem of a text that is that of a lawful problem.
fn problem_in(alloc: Global, text: &[u8]) -> Result<Problem, AllocError>
    ensures { (p : ProblemLists) → IsProblem p → text.now ≡ problem_text p → IfOk result (λ q. q ≡ p) }
{
    // It tells that nothing but want of memory is in the way.
    read_again();
    match read_problem(alloc, text) {
        Ok(p) => Ok(p),
        Err(_) => Err(AllocError),
    }
}

/// The problem whose text `write_roster` writes: that of what a roster holds. It is made by its text, which is held in
/// memory meanwhile and has at most 2^34 bytes. An error only where memory runs out.
pub fn problem_of_roster(alloc: Global, roster: &Roster) -> Result<Problem, AllocError>
    requires told { (seen : List (List Seen)) × HoldsEvents roster.now seen × TellsMessages roster.now (messages_by_number roster.now seen) }
    ensures { (seen : List (List Seen)) → HoldsEvents roster.now seen → TellsMessages roster.now (messages_by_number roster.now seen) → IsProblem (problem_of_seen roster.now.declaration seen) → IfOk result (λ p. p ≡ problem_of_seen roster.now.declaration seen) }
{
    let text = text_of(alloc, roster)?;
    problem_in(alloc, &text)
}
