// Events that are brought in one after another.
ghost use Rattle.std.specs.Prelude.{◌≡◌, ◌+◌, ◌<◌, ◌^◌, length, IfOk, IfSome, IfNone};
ghost use Rattle.problem_solver.specs.Queues.{AreSuccessions};

use crate::times::Times;
use atto::Steps;
use frontier::Frontier;
use std::alloc::{AllocError, Global};
use std::marker::Model;
use std::sync::ledger::Ledger;

/// An event that comes next behind another: on its clock, as the first one of a clock that follows another, or as the
/// receive of a message behind its send.
#[derive(Clone, Copy)]
pub struct Succession {
    /// The place of the event before.
    pub before: u32,
    /// The place of the event behind it.
    pub after: u32,
    /// Whether their clocks say so, and no message.
    pub by_clocks: bool,
}

/// The events that are ready, by time, and how many each of the others waits for.
///
/// Each event is queued once and taken out once. It is seen as how many events there are, and how many of them have not
/// been taken out. A call names an event below their number, so no look-up misses.
#[derive(Drop)]
pub struct Queue {
    times: Times,
    ready: Frontier,
    queued: Vec<bool>,
    waiting: Vec<u32>,
}

impl Model for Queue {
    ghost use Rattle.std.specs.Prelude.{◌+◌, length};
    ghost use Rattle.problem_solver.specs.Turns.{Turns};
    ghost use Rattle.problem_solver.specs.Queues.{IsQueue, not_queued, are_ready};

    ghost Value = { Turns };

    ghost view = { λ q. record { all = length q.queued.items; left = not_queued q.queued.items + are_ready q.ready } };

    ghost invariant = { λ q. IsQueue q.times q.ready q.queued.items q.waiting.items };
}

// How many others each event waits for.
fn waits(alloc: Global, events: usize, successions: &[Succession]) -> Result<Vec<u32>, AllocError>
    requires { AreSuccessions events successions.now }
    ensures { IfOk result (λ counts. length counts.items ≡ events) }
{
    let mut counts: Vec<u32> = Vec::new(alloc);
    counts.resize(events, 0)?;
    for pair in successions {
        let count = counts[pair.after as usize];
        counts[pair.after as usize] = count.saturating_add(1);
    }
    Ok(counts)
}

impl Queue {
    /// Each event, by these times, waits for those that it comes next behind, and none is queued.
    pub fn new(alloc: Global, times: Times, successions: &[Succession]) -> Result<Queue, AllocError>
        requires few { times < 2 ^ 32 }
        requires successions { AreSuccessions times successions.now }
        ensures all { IfOk result (λ queue. queue.all ≡ times) }
        ensures left { IfOk result (λ queue. queue.left ≡ times) }
    {
        let events = times.len();
        let waiting = waits(alloc, events, successions)?;
        let ready = Frontier::with_room(alloc, events as u32)?;
        let queued = vec![in alloc; false; events]?;
        Ok(Queue {
            times,
            ready,
            queued,
            waiting,
        })
    }

    /// Queues an event by the time that it has now, unless it has been queued.
    pub fn push(&mut self, event: u32)
        requires { event < self.old.all }
        ensures { self.new ≡ self.old }
    {
        if self.queued[event as usize] {
            return;
        }
        self.ready.put(event, self.times.of(event));
        self.queued[event as usize] = true;
    }

    /// Queues an event that waits for no other, unless it has been queued.
    pub fn push_ready(&mut self, event: u32)
        requires { event < self.old.all }
        ensures { self.new ≡ self.old }
    {
        if self.waiting[event as usize] == 0 {
            self.push(event);
        }
    }

    /// Takes out the earliest event that is ready; None where none is.
    pub fn take<L: Ledger>(&mut self, steps: &mut Steps<L>) -> Option<u32>
        ensures all { self.new.all ≡ self.old.all }
        ensures event { IfSome result (λ event. event < self.old.all) }
        ensures left { IfSome result (λ event. self.new.left + 1 ≡ self.old.left) }
        ensures none { IfNone result (self.new ≡ self.old) }
    {
        let (event, _) = self.ready.pop(steps)?;
        Some(event)
    }

    // An event waits for one other less.
    fn lessen(&mut self, event: u32)
        requires { event < self.old.all }
        ensures { self.new ≡ self.old }
    {
        let count = self.waiting[event as usize];
        self.waiting[event as usize] = count.saturating_sub(1);
        self.push_ready(event);
    }

    /// Those that come next behind an event wait for it no longer, and are queued where they wait for no other. Offsets
    /// follow the messages that it sends.
    pub fn release(&mut self, event: u32, successions: &[Succession])
        requires event { event < self.old.all }
        requires successions { AreSuccessions self.old.all successions.now }
        ensures { self.new ≡ self.old }
    {
        let first = successions.partition_point(|pair| pair.before < event);
        for place in first..successions.len() {
            let pair = successions[place];
            if pair.before != event {
                break;
            }
            if !pair.by_clocks {
                self.times.follow_message(event, pair.after);
            }
            self.lessen(pair.after);
        }
    }
}
