// How far the clocks of a problem are apart, by the stamps of messages.
ghost use Rattle.std.specs.Prelude.{◌≡◌, ◌+◌, ◌<◌, ℕ, length, IfOk, IfSome, OnOk};
ghost use Rattle.problem_solver.specs.Offsets.{LeadToClocks};

use problem::Problem;
use problem_model::Event;
use std::alloc::{AllocError, Global};
use std::marker::Model;

/// A message as one of its clocks sees the other.
#[derive(Clone, Copy)]
pub struct Link {
    from: u32,
    to: u32,
    // How much more than at the one end is stamped at the other, in ns.
    ahead: i128,
}

/// How far a clock is ahead of others.
#[derive(Clone, Copy)]
pub struct Offset {
    /// In ns.
    pub ahead: i128,
    /// How many clocks had been reached before it.
    pub turn: usize,
}

// Appends a message, as both its clocks see it.
fn push_links(links: &mut Vec<Link>, send: &Event, receive: &Event) -> Result<(), AllocError>
    ensures { OnOk result ((clocks : ℕ) → LeadToClocks clocks links.old.items → send.now.clock < clocks → receive.now.clock < clocks
        → LeadToClocks clocks links.new.items) }
{
    let (from, to) = (send.clock, receive.clock);
    let ahead = i128::from(receive.stamp.get()).saturating_sub(i128::from(send.stamp.get()));
    links.push(Link { from, to, ahead })?;
    links.push(Link {
        from: to,
        to: from,
        ahead: 0i128.saturating_sub(ahead),
    })?;
    Ok(())
}

// The messages, each as both its clocks see it, by clock.
fn links_of(alloc: Global, p: &Problem) -> Result<Vec<Link>, AllocError>
    ensures { IfOk result (λ links. LeadToClocks (length p.now.clocks) links.items) }
{
    let events = p.events();
    let mut links = Vec::new(alloc);
    for message in p.messages() {
        push_links(
            &mut links,
            &events[message.send as usize],
            &events[message.receive as usize],
        )?;
    }
    links.sort_unstable_by_key(|link| (link.from, link.to, link.ahead));
    Ok(links)
}

// The clocks that have been reached, in this order, and how far each is ahead of the first one of its kind. Each has one
// turn, in which it reaches others. A call names a clock below their number, so no look-up misses.
#[derive(Drop)]
struct Reached {
    order: Vec<u32>,
    // Of each clock.
    reached: Vec<bool>,
    offsets: Vec<Offset>,
    // Of the order, those before this place had their turn.
    turn: usize,
}

impl Model for Reached {
    ghost use Rattle.std.specs.Prelude.{◌-◌, length};
    ghost use Rattle.problem_solver.specs.Turns.{Turns};
    ghost use Rattle.problem_solver.specs.Offsets.{AreReached};

    ghost Value = { Turns };

    ghost view = { λ r. record { all = length r.reached.items; left = length r.reached.items - r.turn } };

    ghost invariant = { λ r. AreReached r.order.items r.reached.items r.offsets.items };
}

impl Reached {
    fn new(alloc: Global, clocks: usize) -> Result<Reached, AllocError>
        ensures { IfOk result (λ r. r.all ≡ clocks) }
    {
        let mut reached = Vec::new(alloc);
        reached.resize(clocks, false)?;
        let mut offsets = Vec::new(alloc);
        offsets.resize(clocks, Offset { ahead: 0, turn: 0 })?;
        Ok(Reached {
            order: Vec::new(alloc),
            reached,
            offsets,
            turn: 0,
        })
    }

    // Reaches a clock, unless it has been reached.
    fn reach(&mut self, clock: u32, ahead: i128) -> Result<(), AllocError>
        requires { clock < self.old.all }
        ensures { self.new ≡ self.old }
    {
        if self.reached[clock as usize] {
            return Ok(());
        }
        let turn = self.order.len();
        self.order.push(clock)?;
        self.reached[clock as usize] = true;
        self.offsets[clock as usize] = Offset { ahead, turn };
        Ok(())
    }

    // The next clock whose turn it is, and how far it is ahead; None where all that were reached had their turn.
    fn next(&mut self) -> Option<(u32, i128)>
        ensures all { self.new.all ≡ self.old.all }
        ensures some { IfSome result (λ r. self.new.left + 1 ≡ self.old.left) }
    {
        let clock = *self.order.get(self.turn)?;
        self.turn += 1;
        Some((clock, self.offsets[clock as usize].ahead))
    }

    // Reaches the clocks that messages join with this one.
    fn spread(&mut self, clock: u32, ahead: i128, links: &[Link]) -> Result<(), AllocError>
        requires { LeadToClocks self.old.all links.now }
        ensures { self.new ≡ self.old }
    {
        let first = links.partition_point(|link| link.from < clock);
        for place in first..links.len() {
            let link = links[place];
            if link.from != clock {
                break;
            }
            self.reach(link.to, ahead.saturating_add(link.ahead))?;
        }
        Ok(())
    }

    // Gives all clocks that were reached their turn, and those that they reach.
    fn spread_all(&mut self, links: &[Link]) -> Result<(), AllocError>
        requires { LeadToClocks self.old.all links.now }
        ensures { self.new.all ≡ self.old.all }
    {
        while let Some((clock, ahead)) = self.next() {
            self.spread(clock, ahead, links)?;
        }
        Ok(())
    }

    // How far each clock is ahead.
    fn into_offsets(self) -> Vec<Offset>
        ensures { length result.items ≡ self.all }
    {
        self.offsets
    }
}

/// How far each clock is ahead of others, by one message for each: clocks are reached breadth-first over messages,
/// time and again from the first one that has not been reached. The delay of a message counts as a part of it.
pub fn clock_offsets(alloc: Global, p: &Problem) -> Result<Vec<Offset>, AllocError>
    ensures { IfOk result (λ offsets. length offsets.items ≡ length p.now.clocks) }
{
    let clocks = p.clocks().len();
    let links = links_of(alloc, p)?;
    let mut reached = Reached::new(alloc, clocks)?;
    for clock in 0..clocks {
        reached.reach(clock as u32, 0)?;
        reached.spread_all(&links)?;
    }
    Ok(reached.into_offsets())
}
