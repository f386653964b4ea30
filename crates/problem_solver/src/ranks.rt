// When events come.
ghost use Rattle.std.specs.Prelude.{◌≡◌, ◌+◌, ◌<◌, ◌^◌, ◌≤◌, ℕ, length, All, IfOk, OnOk};
ghost use Rattle.problem_solver.specs.Queues.{AreSuccessions, AreEventPlaces};

use crate::queue::{Queue, Succession};
use crate::times::Times;
use atto::Steps;
use problem::Problem;
use std::alloc::{AllocError, Global};
use std::sync::ledger::Ledger;

// An event behind its clock and its stamp, in ns.
#[derive(Clone, Copy)]
struct Stamped {
    clock: u32,
    stamp: u64,
    event: u32,
}

// An event behind its time, in ns.
#[derive(Clone, Copy)]
struct Timed {
    time: i128,
    event: u32,
}

// The events by clock and then by stamp.
fn by_clock(alloc: Global, p: &Problem) -> Result<Vec<Stamped>, AllocError>
    ensures { IfOk result (λ all. All (λ entry. entry.event < length p.now.events) all.items) }
{
    let mut all = Vec::new(alloc);
    for (place, event) in p.events().iter().enumerate() {
        all.push(Stamped {
            clock: event.clock,
            stamp: event.stamp.get(),
            event: place as u32,
        })?;
    }
    all.sort_unstable_by_key(|entry| (entry.clock, entry.stamp, entry.event));
    Ok(all)
}

// Appends, for each event, the next one on its clock.
fn push_clocks(pairs: &mut Vec<Succession>, all: &[Stamped]) -> Result<(), AllocError>
    ensures { OnOk result ((events : ℕ) → All (λ entry. entry.event < events) all.now → AreSuccessions events pairs.old.items
        → AreSuccessions events pairs.new.items) }
{
    for place in 1..all.len() {
        let (before, after) = (all[place - 1], all[place]);
        if before.clock == after.clock {
            pairs.push(Succession {
                before: before.event,
                after: after.event,
                by_clocks: true,
            })?;
        }
    }
    Ok(())
}

// Appends the first event of a clock behind the last one of another clock.
fn push_between(
    pairs: &mut Vec<Succession>,
    all: &[Stamped],
    earlier: u32,
    later: u32,
) -> Result<(), AllocError>
    ensures { OnOk result ((events : ℕ) → All (λ entry. entry.event < events) all.now → AreSuccessions events pairs.old.items
        → AreSuccessions events pairs.new.items) }
{
    let behind = all.partition_point(|entry| entry.clock <= earlier);
    let first = all.partition_point(|entry| entry.clock < later);
    if behind > 0 && first < all.len() {
        pairs.push(Succession {
            before: all[behind - 1].event,
            after: all[first].event,
            by_clocks: true,
        })?;
    }
    Ok(())
}

// Appends, for each clock that follows another, its first event behind the last one of the nearest clock before it that
// has any.
fn push_follows(pairs: &mut Vec<Succession>, p: &Problem, all: &[Stamped]) -> Result<(), AllocError>
    requires all { All (λ entry. entry.event < length p.now.events) all.now }
    requires pairs { AreSuccessions (length p.now.events) pairs.old.items }
    ensures { OnOk result (AreSuccessions (length p.now.events) pairs.new.items) }
{
    let clocks = p.clocks().len();
    for clock in 0..clocks {
        if let Some(follow) = p.nearest_follow(clock as u32) {
            push_between(pairs, all, follow.earlier, clock as u32)?;
        }
    }
    Ok(())
}

// Appends the receive of each message behind its send.
fn push_messages(pairs: &mut Vec<Succession>, p: &Problem) -> Result<(), AllocError>
    requires { AreSuccessions (length p.now.events) pairs.old.items }
    ensures { OnOk result (AreSuccessions (length p.now.events) pairs.new.items) }
{
    for message in p.messages() {
        pairs.push(Succession {
            before: message.send,
            after: message.receive,
            by_clocks: false,
        })?;
    }
    Ok(())
}

// Which events come next behind which, in the order of those before; those by messages come before those by clocks.
fn successions(alloc: Global, p: &Problem) -> Result<Vec<Succession>, AllocError>
    ensures { IfOk result (λ pairs. AreSuccessions (length p.now.events) pairs.items) }
{
    let all = by_clock(alloc, p)?;
    let mut pairs = Vec::new(alloc);
    push_clocks(&mut pairs, &all)?;
    push_follows(&mut pairs, p, &all)?;
    push_messages(&mut pairs, p)?;
    pairs.sort_unstable_by_key(|pair| (pair.before, pair.by_clocks, pair.after));
    Ok(pairs)
}

// The events by time.
fn by_time(alloc: Global, times: &Times) -> Result<Vec<Timed>, AllocError>
    requires { times.now < 2 ^ 32 }
    ensures { IfOk result (λ timed. All (λ entry. entry.event < times.now) timed.items) }
{
    let mut timed = Vec::new(alloc);
    for event in 0..times.len() as u32 {
        let time = times.of(event);
        timed.push(Timed { time, event })?;
    }
    timed.sort_unstable_by_key(|entry| (entry.time, entry.event));
    Ok(timed)
}

// Takes out the events that are ready, and those that become so by it, one after another.
fn take_ready<L: Ledger>(
    queue: &mut Queue,
    pairs: &[Succession],
    order: &mut Vec<u32>,
    steps: &mut Steps<L>,
) -> Result<(), AllocError>
    requires pairs { AreSuccessions queue.old.all pairs.now }
    requires order { AreEventPlaces queue.old.all order.old.items }
    ensures all { queue.new.all ≡ queue.old.all }
    ensures order { OnOk result (AreEventPlaces queue.old.all order.new.items) }
    ensures once { OnOk result (length order.new.items + queue.new.left ≡ length order.old.items + queue.old.left) }
{
    while let Some(event) = queue.take(steps) {
        order.push(event)?;
        queue.release(event, pairs);
    }
    Ok(())
}

// Takes out all events. Where none is ready, the earliest one that has not been queued is.
fn take_all<L: Ledger>(
    queue: &mut Queue,
    pairs: &[Succession],
    timed: &[Timed],
    order: &mut Vec<u32>,
    steps: &mut Steps<L>,
) -> Result<(), AllocError>
    requires pairs { AreSuccessions queue.old.all pairs.now }
    requires timed { All (λ entry. entry.event < queue.old.all) timed.now }
    requires order { AreEventPlaces queue.old.all order.old.items }
    ensures order { OnOk result (AreEventPlaces queue.old.all order.new.items) }
    ensures once { OnOk result (length order.new.items + queue.new.left ≡ length order.old.items + queue.old.left) }
{
    for entry in timed {
        queue.push_ready(entry.event);
    }
    take_ready(queue, pairs, order, steps)?;
    for entry in timed {
        queue.push(entry.event);
        take_ready(queue, pairs, order, steps)?;
    }
    Ok(())
}

// All events, in an order that goes up on each clock and on those that follow it, has each send before its receive, and
// otherwise goes by time. Where clocks, follows and messages allow no such order, the earliest event comes first.
fn event_order<L: Ledger>(
    alloc: Global,
    p: &Problem,
    steps: &mut Steps<L>,
) -> Result<Vec<u32>, AllocError>
    ensures events { IfOk result (λ order. AreEventPlaces (length p.now.events) order.items) }
    ensures once { IfOk result (λ order. length order.items ≤ length p.now.events) }
{
    let pairs = successions(alloc, p)?;
    let times = Times::new(alloc, p)?;
    let timed = by_time(alloc, &times)?;
    let mut queue = Queue::new(alloc, times, &pairs)?;
    let mut order = Vec::new(alloc);
    take_all(&mut queue, &pairs, &timed, &mut order, steps)?;
    Ok(order)
}

/// The rank of each event: its place in the order of all of them.
pub fn event_ranks<L: Ledger>(
    alloc: Global,
    p: &Problem,
    steps: &mut Steps<L>,
) -> Result<Vec<u32>, AllocError>
    ensures { IfOk result (λ ranks. length ranks.items ≡ length p.now.events) }
{
    let order = event_order(alloc, p, steps)?;
    let mut ranks = Vec::new(alloc);
    ranks.resize(p.events().len(), 0)?;
    for (rank, event) in order.iter().enumerate() {
        ranks[*event as usize] = rank as u32;
    }
    Ok(ranks)
}
