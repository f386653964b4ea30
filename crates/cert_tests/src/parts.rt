// Parts of certificates, where they are of a problem.
ghost use Rattle.std.specs.Prelude.{◌≤◌, ◌<◌, IsTrue, IfSome, All, length};
ghost use Rattle.problem_model.specs.declared.items.Bound.TheVariants as bounds;
ghost use Rattle.problem_model.specs.Bounds.{Constraint, Declares, IsReading};
ghost use Rattle.cert.specs.CertificateText.{IsStepOf, HasOneEach};

use atto::{Nano, Units};
use cert::{Chain, Execution, Step};
use problem::Problem;
use problem_model::Bound;
use std::alloc::Global;

pub(crate) const NS: i128 = 1_000_000_000;

pub(crate) const MOST: Bound = Bound::DelayMost {
    send: 0,
    receive: 1,
};

pub(crate) const LEAST: Bound = Bound::DelayLeast {
    send: 0,
    receive: 1,
};

fn has_reading(p: &Problem, clock: u32, stamp: Nano) -> bool
    ensures { IsTrue result → IsReading p.now clock stamp }
{
    for event in p.events() {
        if event.clock == clock && event.stamp == stamp {
            return true;
        }
    }
    false
}

fn has_span(p: &Problem, clock: u32, s: Nano, t: Nano) -> bool
    ensures most { IsTrue result → (c : Constraint) × Declares p.now (bounds.SpanMost clock s t) c }
    ensures least { IsTrue result → (c : Constraint) × Declares p.now (bounds.SpanLeast clock s t) c }
{
    let _ = p.clocks();
    if s < t && has_reading(p, clock, s) {
        return has_reading(p, clock, t);
    }
    false
}

fn has_event(p: &Problem, event: u32) -> bool
    ensures late { IsTrue result → (c : Constraint) × Declares p.now (bounds.Late event) c }
    ensures early { IsTrue result → (c : Constraint) × Declares p.now (bounds.Early event) c }
{
    if event as usize >= p.events().len() {
        return false;
    }
    true
}

fn has_message(p: &Problem, send: u32, receive: u32) -> bool
    ensures { IsTrue result → (c : Constraint) × Declares p.now (bounds.DelayLeast send receive) c }
{
    for message in p.messages() {
        if message.send == send && message.receive == receive {
            return true;
        }
    }
    false
}

fn has_most(p: &Problem, send: u32, receive: u32) -> bool
    ensures { IsTrue result → (c : Constraint) × Declares p.now (bounds.DelayMost send receive) c }
{
    for message in p.messages() {
        if let Some(_) = message.most {
            if message.send == send && message.receive == receive {
                return true;
            }
        }
    }
    false
}

// Whether the problem declares a bound of this name.
fn is_declared(p: &Problem, bound: &Bound) -> bool
    ensures { IsTrue result → (c : Constraint) × Declares p.now bound.now c }
{
    match *bound {
        Bound::SpanMost { clock, s, t } => has_span(p, clock, s, t),
        Bound::SpanLeast { clock, s, t } => has_span(p, clock, s, t),
        Bound::Late(event) => has_event(p, event),
        Bound::Early(event) => has_event(p, event),
        Bound::Follow { .. } => false,
        Bound::DelayMost { send, receive } => has_most(p, send, receive),
        Bound::DelayLeast { send, receive } => has_message(p, send, receive),
    }
}

// These steps, where the problem declares their bounds.
pub(crate) fn chain(alloc: Global, p: &Problem, steps: &[(Bound, i128)]) -> Option<Chain>
    requires { length steps.now ≤ 9 }
    ensures { IfSome result (All (IsStepOf p.now)) }
{
    let mut chain = Chain::new(alloc);
    for (bound, weight) in steps {
        if !is_declared(p, bound) {
            return None;
        }
        let step = Step {
            bound: *bound,
            weight: Units::new(*weight)?,
        };
        chain.push(step).ok()?;
    }
    Some(chain)
}

// These real times in ns, where they are as many as the nodes.
pub(crate) fn execution(alloc: Global, p: &Problem, times: &[i128]) -> Option<Execution>
    requires { length times.now ≤ 9 }
    ensures { IfSome result (λ e. HasOneEach p.now e) }
{
    let mut execution = Execution::new(alloc);
    for time in times {
        execution.push(Units::new(*time)?).ok()?;
    }
    let nodes = p.events().len() as u64 + p.readings().len() as u64;
    if u64::from(execution.len()) == nodes {
        Some(execution)
    } else {
        None
    }
}
