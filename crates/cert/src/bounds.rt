// The bounds of a problem by their names.
ghost use Rattle.std.specs.Prelude.{◌≡◌, ◌↔◌, ◌<◌, ◌^◌, ℕ, SomeIff, IfSome, IfNone, IsTrue, length};
ghost use Rattle.atto.specs.Number.{Counts};
ghost use Rattle.problem_model.specs.declared.items.Bound.TheVariants as bounds;
ghost use Rattle.cert.specs.CertificateFormat.{IsDeclared, span_bound, stamp_bound, delay_bound};
ghost use Rattle.cert.specs.CertificateFormat.NamedBound.{Stamp, Delay};
ghost use Rattle.cert.specs.SaidStep.{FindsNamed, FindsNoNamed, FindsSpan, FindsNoSpan, FindsFollow, FindsNoFollow, FindsBound, FindsNone};
ghost use Rattle.cert.specs.TakesPart.{HasDelayBound};

use crate::kinds::{Extreme, StampBound};
use crate::steps::{FollowWords, SpanWords, StepWords};
use atto::Nano;
use problem::Problem;
use problem_model::{Bound, Message, Name};

// The stamp of a number that is held.
fn nano_of(n: Option<u64>) -> Option<Nano>
    ensures { (m : ℕ) → Counts (2 ^ 64) m n → SomeIff result (m < 2 ^ 62) m }
{
    Nano::new(n?)
}

fn span_named(extreme: Extreme, clock: u32, s: Nano, t: Nano) -> Bound
    ensures { result ≡ span_bound extreme clock s t }
{
    match extreme {
        Extreme::Most => Bound::SpanMost { clock, s, t },
        Extreme::Least => Bound::SpanLeast { clock, s, t },
    }
}

// The bound between two readings of a clock.
fn span_between(p: &Problem, extreme: Extreme, clock: u32, s: Nano, t: Nano) -> Option<Bound>
    requires { clock < length p.now.clocks }
    ensures some { IfSome result (λ b. (b ≡ span_bound extreme clock s t) × IsDeclared p.now b) }
    ensures none { IfNone result (IsDeclared p.now (span_bound extreme clock s t) → ⊥) }
{
    if s.get() >= t.get() {
        return None;
    }
    // It tells what the readings of the problem are.
    let _ = p.readings();
    let _low = p.reading_place(clock, s)?;
    let _high = p.reading_place(clock, t)?;
    Some(span_named(extreme, clock, s, t))
}

fn span_of(p: &Problem, extreme: Extreme, w: &SpanWords) -> Option<Bound>
    ensures some { IfSome result (λ b. FindsSpan p.now extreme w.now b) }
    ensures none { IfNone result (FindsNoSpan p.now extreme w.now) }
{
    // It tells that the problem is lawful.
    let _ = p.events();
    let clock = p.clock_place(&w.clock)?;
    let s = nano_of(w.s)?;
    let t = nano_of(w.t)?;
    span_between(p, extreme, clock, s, t)
}

fn stamp_named(kind: StampBound, event: u32) -> Bound
    ensures { result ≡ stamp_bound kind event }
{
    match kind {
        StampBound::Late => Bound::Late(event),
        StampBound::Early => Bound::Early(event),
    }
}

fn stamp_of(p: &Problem, kind: StampBound, event: &Name) -> Option<Bound>
    ensures some { IfSome result (λ b. FindsNamed p.now (Stamp kind event.now) b) }
    ensures none { IfNone result (FindsNoNamed p.now (Stamp kind event.now)) }
{
    // It tells that the problem is lawful.
    let _ = p.events();
    let event = p.event_place(event)?;
    Some(stamp_named(kind, event))
}

// The bound between a reading of a clock and one of a clock that comes after it.
fn follow_between(p: &Problem, earlier: u32, s: Nano, later: u32, t: Nano) -> Option<Bound>
    requires earlier { earlier < length p.now.clocks }
    requires later { later < length p.now.clocks }
    ensures some { IfSome result (λ b. (b ≡ bounds.Follow earlier s later t) × IsDeclared p.now b) }
    ensures none { IfNone result (IsDeclared p.now (bounds.Follow earlier s later t) → ⊥) }
{
    if !p.comes_after(earlier, later) {
        return None;
    }
    // It tells what the readings of the problem are.
    let _ = p.readings();
    let _first = p.reading_place(earlier, s)?;
    let _second = p.reading_place(later, t)?;
    Some(Bound::Follow {
        earlier,
        s,
        later,
        t,
    })
}

fn follow_of(p: &Problem, w: &FollowWords) -> Option<Bound>
    ensures some { IfSome result (λ b. FindsFollow p.now w.now b) }
    ensures none { IfNone result (FindsNoFollow p.now w.now) }
{
    // It tells that the problem is lawful.
    let _ = p.events();
    let earlier = p.clock_place(&w.earlier)?;
    let later = p.clock_place(&w.later)?;
    let s = nano_of(w.s)?;
    let t = nano_of(w.t)?;
    follow_between(p, earlier, s, later, t)
}

fn delay_named(extreme: Extreme, send: u32, receive: u32) -> Bound
    ensures { result ≡ delay_bound extreme send receive }
{
    match extreme {
        Extreme::Most => Bound::DelayMost { send, receive },
        Extreme::Least => Bound::DelayLeast { send, receive },
    }
}

// Whether a message has this bound on its delay.
fn has_bound(extreme: Extreme, m: &Message) -> bool
    ensures { IsTrue result ↔ HasDelayBound extreme m.now }
{
    match (extreme, &m.most) {
        (Extreme::Most, None) => false,
        _ => true,
    }
}

// The bound on the delay of the message between two events.
fn delay_between(p: &Problem, extreme: Extreme, send: u32, receive: u32) -> Option<Bound>
    ensures some { IfSome result (λ b. (b ≡ delay_bound extreme send receive) × IsDeclared p.now b) }
    ensures none { IfNone result (IsDeclared p.now (delay_bound extreme send receive) → ⊥) }
{
    let messages = p.messages();
    let place = p.message_place(send, receive)?;
    if !has_bound(extreme, &messages[place as usize]) {
        return None;
    }
    Some(delay_named(extreme, send, receive))
}

fn delay_of(p: &Problem, extreme: Extreme, send: &Name, receive: &Name) -> Option<Bound>
    ensures some { IfSome result (λ b. FindsNamed p.now (Delay extreme send.now receive.now) b) }
    ensures none { IfNone result (FindsNoNamed p.now (Delay extreme send.now receive.now)) }
{
    // It tells that the problem is lawful.
    let _ = p.events();
    let send = p.event_place(send)?;
    let receive = p.event_place(receive)?;
    delay_between(p, extreme, send, receive)
}

/// The bound of a problem that a step's line names; None where the problem declares no such bound.
pub fn bound_of(p: &Problem, words: &StepWords) -> Option<Bound>
    ensures some { IfSome result (λ b. FindsBound p.now words.now b) }
    ensures none { IfNone result (FindsNone p.now words.now) }
{
    match words {
        StepWords::Span(extreme, w) => span_of(p, *extreme, w),
        StepWords::Stamp(kind, w) => stamp_of(p, *kind, &w.event),
        StepWords::Follow(w) => follow_of(p, w),
        StepWords::Delay(extreme, w) => delay_of(p, *extreme, &w.send, &w.receive),
    }
}
