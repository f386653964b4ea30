// By what times events come.
ghost use Rattle.std.specs.Prelude.{◌≡◌, ◌<◌, ◌^◌, length, IfOk};
ghost use Rattle.problem_solver.specs.Times.{AreStamps};

use crate::offsets::{Offset, clock_offsets};
use problem::Problem;
use std::alloc::{AllocError, Global};
use std::marker::Model;

/// What the clock of an event showed, in ns.
#[derive(Clone, Copy)]
pub struct Stamp {
    clock: u32,
    shown: u64,
}

/// The times of events: their stamps, each less the offset that its clock has then, in ns. Offsets follow messages.
///
/// It is seen as how many events there are. A call names an event below their number, so no look-up misses.
#[derive(Drop)]
pub struct Times {
    // Of each event.
    stamps: Vec<Stamp>,
    // Of each clock.
    offsets: Vec<Offset>,
}

impl Model for Times {
    ghost use Rattle.std.specs.Prelude.{ℕ, length};
    ghost use Rattle.problem_solver.specs.Times.{AreStamps};

    ghost Value = { ℕ };

    ghost view = { λ t. length t.stamps.items };

    ghost invariant = { λ t. AreStamps (length t.offsets.items) t.stamps.items };
}

// The stamps of all events.
fn stamps_of(alloc: Global, p: &Problem) -> Result<Vec<Stamp>, AllocError>
    ensures one_each { IfOk result (λ stamps. length stamps.items ≡ length p.now.events) }
    ensures few { IfOk result (λ stamps. length stamps.items < 2 ^ 32) }
    ensures clocks { IfOk result (λ stamps. AreStamps (length p.now.clocks) stamps.items) }
{
    let mut stamps = Vec::new(alloc);
    for event in p.events() {
        stamps.push(Stamp {
            clock: event.clock,
            shown: event.stamp.get(),
        })?;
    }
    Ok(stamps)
}

// The time of a stamp, in ns.
fn time_of(offsets: &[Offset], stamp: Stamp) -> i128
    requires { stamp.clock < length offsets.now }
{
    i128::from(stamp.shown).saturating_sub(offsets[stamp.clock as usize].ahead)
}

// The clock of the second stamp takes the offset by which both stamps have the time of the first one.
fn join(offsets: &mut [Offset], first: Stamp, second: Stamp)
    requires first { first.clock < length offsets.old }
    requires second { second.clock < length offsets.old }
    ensures { length offsets.new ≡ length offsets.old }
{
    let time = time_of(offsets, first);
    offsets[second.clock as usize].ahead = i128::from(second.shown).saturating_sub(time);
}

impl Times {
    /// The times of a problem's events, by one message for each clock.
    pub fn new(alloc: Global, p: &Problem) -> Result<Times, AllocError>
        ensures one_each { IfOk result (λ times. times ≡ length p.now.events) }
        ensures few { IfOk result (λ times. times < 2 ^ 32) }
    {
        let stamps = stamps_of(alloc, p)?;
        let offsets = clock_offsets(alloc, p)?;
        Ok(Times { stamps, offsets })
    }

    /// How many events there are.
    pub fn len(&self) -> usize
        ensures { result ≡ self.now }
    {
        self.stamps.len()
    }

    /// The time of an event as things stand, in ns.
    pub fn of(&self, event: u32) -> i128
        requires { event < self.now }
    {
        time_of(&self.offsets, self.stamps[event as usize])
    }

    /// Of the two clocks of a message the one that was reached later takes its offset from the message.
    pub fn follow_message(&mut self, send: u32, receive: u32)
        requires send { send < self.old }
        requires receive { receive < self.old }
        ensures { self.new ≡ self.old }
    {
        let (send, receive) = (self.stamps[send as usize], self.stamps[receive as usize]);
        let sender = self.offsets[send.clock as usize].turn;
        let receiver = self.offsets[receive.clock as usize].turn;
        if sender < receiver {
            join(&mut self.offsets, send, receive);
        } else if receiver < sender {
            join(&mut self.offsets, receive, send);
        }
    }
}
