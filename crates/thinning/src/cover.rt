// Whether a message takes the place of another.
ghost use Rattle.std.specs.Prelude.{◌≡◌, ◌<◌, ◌≤◌, IsTrue, IfSome, length};
ghost use Rattle.problem_model.specs.declared.items.Message.{Message};
ghost use Rattle.problem_model.specs.Bounds.{ClockAt, EventAt, early_of, late_of};
ghost use Rattle.thinning.specs.Thinning.{HaveSameBounds, HasNearEnds, IsAsFast, IsAsNear};
ghost use Rattle.thinning.specs.Neighbours.{GoesAsFast};
ghost use Rattle.thinning.specs.Keeping.{HasEnds, IsFixed, IsCoveredBy};

use crate::coordinates::{coordinate_u, coordinate_v};
use crate::staircase::{Proposal, onward};
use atto::{Nano, Rate};
use problem::Problem;
use problem_model::{Clock, Event, Message};

// The event at a place, whose clock is one of the problem's.
fn event_at(p: &Problem, place: u32) -> &Event
    requires { place < length p.now.events }
    ensures event { EventAt p.now place result.now }
    ensures clock { result.now.clock < length p.now.clocks }
{
    &p.events()[place as usize]
}

// The clock at a place.
fn clock_at(p: &Problem, place: u32) -> &Clock
    requires { place < length p.now.clocks }
    ensures { ClockAt p.now place result.now }
{
    &p.clocks()[place as usize]
}

// How far before the reading of its stamp an event may lie, in ns.
fn early_of(event: &Event, clock: &Clock) -> Nano
    ensures { result ≡ early_of clock.now event.now }
{
    match event.bounds {
        None => clock.early,
        Some(own) => own.early,
    }
}

// How far behind it.
fn late_of(event: &Event, clock: &Clock) -> Nano
    ensures { result ≡ late_of clock.now event.now }
{
    match event.bounds {
        None => clock.late,
        Some(own) => own.late,
    }
}

// Whether an event may lie no further from its reading than another.
fn is_nearer(v: &Event, b: &Clock, w: &Event, c: &Clock) -> bool
    ensures { IsTrue result → (early_of b.now v.now ≤ early_of c.now w.now) × (late_of b.now v.now ≤ late_of c.now w.now) }
{
    early_of(v, b) <= early_of(w, c) && late_of(v, b) <= late_of(w, c)
}

// Whether the event at one place may lie no further from its reading than that at another.
fn is_as_near(p: &Problem, first: u32, second: u32) -> bool
    requires first { first < length p.now.events }
    requires second { second < length p.now.events }
    ensures { IsTrue result → IsAsNear p.now first second }
{
    let v = event_at(p, first);
    let w = event_at(p, second);
    is_nearer(v, clock_at(p, v.clock), w, clock_at(p, w.clock))
}

// Whether the bounds on the delays of two messages are the same.
fn has_same_bounds(k: &Message, m: &Message) -> bool
    ensures { IsTrue result → HaveSameBounds k.now m.now }
{
    k.least == m.least && k.most == m.most
}

// Whether the ends of a message may lie no further from their readings than those of another.
fn has_near_ends(p: &Problem, k: &Message, m: &Message) -> bool
    requires k { HasEnds p.now k.now }
    requires m { HasEnds p.now m.now }
    ensures { IsTrue result → HasNearEnds p.now k.now m.now }
{
    is_as_near(p, k.send, m.send) && is_as_near(p, k.receive, m.receive)
}

// Whether a message takes another one's place but for its stamps.
fn is_like(p: &Problem, k: &Message, m: &Message) -> bool
    requires k { HasEnds p.now k.now }
    requires m { HasEnds p.now m.now }
    ensures { IsTrue result → HaveSameBounds k.now m.now × HasNearEnds p.now k.now m.now }
{
    has_same_bounds(k, m) && has_near_ends(p, k, m)
}

// Whether neither coordinate of the one pair of stamps, sent and received, is less than that of the other.
fn goes_as_fast(a: Rate, b: Rate, k: (Nano, Nano), m: (Nano, Nano)) -> bool
    ensures { IsTrue result → GoesAsFast a b k m }
{
    coordinate_u(a, b, m.0, m.1) <= coordinate_u(a, b, k.0, k.1)
        && coordinate_v(a, b, m.0, m.1) <= coordinate_v(a, b, k.0, k.1)
}

// Whether one clock stamped both sends and one both receives, and the first message goes as fast as the second.
fn is_as_fast(p: &Problem, k: &Message, m: &Message) -> bool
    requires k { HasEnds p.now k.now }
    requires m { HasEnds p.now m.now }
    ensures { IsTrue result → IsAsFast p.now 0 k.now m.now }
{
    let k_send = event_at(p, k.send);
    let k_receive = event_at(p, k.receive);
    let m_send = event_at(p, m.send);
    let m_receive = event_at(p, m.receive);
    let sender = clock_at(p, k_send.clock);
    let receiver = clock_at(p, k_receive.clock);
    k_send.clock == m_send.clock
        && k_receive.clock == m_receive.clock
        && goes_as_fast(
            sender.rate,
            receiver.rate,
            (k_send.stamp, k_receive.stamp),
            (m_send.stamp, m_receive.stamp),
        )
}

// The message at a place, if it is one of those that are kept.
fn fixed_message<'a>(p: &'a Problem, fixed: &[bool], place: u32) -> Option<&'a Message>
    ensures { IfSome result (λ k. IsFixed p.now fixed.now k.now × HasEnds p.now k.now) }
{
    let message = p.messages().get(place as usize)?;
    match fixed.get(place as usize) {
        Some(true) => Some(message),
        _ => None,
    }
}

// Whether the message at a place, which is kept, is as fast as another.
fn has_fast(p: &Problem, fixed: &[bool], place: u32, m: &Message) -> bool
    requires { HasEnds p.now m.now }
    ensures { IsTrue result → (k : Message) × IsFixed p.now fixed.now k × HaveSameBounds k m.now × HasNearEnds p.now k m.now × IsAsFast p.now 0 k m.now }
{
    match fixed_message(p, fixed, place) {
        Some(k) => is_like(p, k, m) && is_as_fast(p, k, m),
        None => false,
    }
}

// Whether another is as fast as the message at a place, which is kept.
fn has_slow(p: &Problem, fixed: &[bool], place: u32, m: &Message) -> bool
    requires { HasEnds p.now m.now }
    ensures { IsTrue result → (k : Message) × IsFixed p.now fixed.now k × HaveSameBounds k m.now × HasNearEnds p.now k m.now × IsAsFast p.now 0 m.now k }
{
    match fixed_message(p, fixed, place) {
        Some(k) => is_like(p, k, m) && is_as_fast(p, m, k),
        None => false,
    }
}

/// Whether the messages that are proposed for the one at a place are kept and cover it.
pub fn is_covered(p: &Problem, proposal: &Proposal, place: u32, m: &Message) -> bool
    requires { HasEnds p.now m.now }
    ensures { IsTrue result → IsCoveredBy p.now proposal.now.fixed.items m.now }
{
    has_fast(p, &proposal.fixed, onward(&proposal.fast, place), m)
        && (m.most.is_none() || has_slow(p, &proposal.fixed, onward(&proposal.slow, place), m))
}
