// Adding to a problem what may be added: only memory can be wanting.
ghost use Rattle.std.specs.Prelude.{◌≡◌, OnOk, IsOk, IsErrOf};
ghost use Rattle.problem_model.specs.ChainNumbers.{with_follow};
ghost use Rattle.problem.specs.Growing.{IsNewClock, IsNewFollow, IsNewEvent, IsMessageOfNewPair, HasRoomForClock, HasRoomForEvent, HasRoomForMessage, with_clock, with_event, with_message};

use problem::{Problem, PushError};
use problem_model::{Clock, Event, Follow, Message};
use std::alloc::AllocError;

// The answer where no name and no limit forbids what is added.
fn of_memory(answer: Result<(), PushError>) -> Result<(), AllocError>
    requires name { IsErrOf answer PushError.Name → ⊥ }
    requires limit { IsErrOf answer PushError.Limit → ⊥ }
    ensures { OnOk result (IsOk answer) }
{
    match answer {
        Ok(()) => Ok(()),
        Err(PushError::Memory) => Err(AllocError),
        Err(PushError::Name) => unreachable!(),
        Err(PushError::Limit) => unreachable!(),
    }
}

/// Adds a clock that may be added.
pub(crate) fn add_clock(p: &mut Problem, c: Clock) -> Result<(), AllocError>
    requires new { IsNewClock p.old c }
    requires room { HasRoomForClock p.old }
    ensures { OnOk result (p.new ≡ with_clock p.old c) }
{
    of_memory(p.push_clock(c))
}

/// Adds a follow that may be added.
pub(crate) fn add_follow(p: &mut Problem, f: Follow) -> Result<(), AllocError>
    requires { IsNewFollow p.old f }
    ensures { OnOk result (p.new ≡ with_follow p.old f) }
{
    of_memory(p.push_follow(f))
}

/// Adds an event that may be added.
pub(crate) fn add_event(p: &mut Problem, e: Event) -> Result<(), AllocError>
    requires new { IsNewEvent p.old e }
    requires room { HasRoomForEvent p.old }
    ensures { OnOk result (p.new ≡ with_event p.old e) }
{
    of_memory(p.push_event(e))
}

/// Adds a message that may be added.
pub(crate) fn add_message(p: &mut Problem, m: Message) -> Result<(), AllocError>
    requires new { IsMessageOfNewPair p.old m }
    requires room { HasRoomForMessage p.old }
    ensures { OnOk result (p.new ≡ with_message p.old m) }
{
    of_memory(p.push_message(m))
}
