// A contradiction, and how far a problem may be widened until it is none any more.
ghost use Rattle.std.specs.Prelude.{◌≡◌, ◌≤◌, ◌<◌, ◌^◌, length, map, unsigned_abs, All, IfOk};
ghost use Rattle.problem_model.specs.Numbers.{IsUpTo};
ghost use Rattle.problem_model.specs.Solutions.{weight_of};
ghost use Rattle.problem_model.specs.Limits.{most_nodes, path_bits};
ghost use Rattle.widen.specs.Weighed.{IsNameOf, step_of, weighed_arcs};

use crate::known::nano;
use atto::{Nano, Units};
use cert::{Chain, Step};
use cert_check::{What, declared_in};
use problem::Problem;
use problem_model::Bound;
use std::alloc::{AllocError, Global};
use sync_graph::Arc;

// The greatest widening.
const MOST_EXTRA: u64 = (1 << 62) - 1;

// How many times it is looked how far a contradiction lasts.
const LOOKS: u32 = 64;

/// The sum of the weights, in units of 1e-9 ns.
pub fn sum_of(arcs: &[Arc]) -> i128
    requires few { length arcs.now ≤ most_nodes }
    requires small { All (λ a. IsUpTo 93 a.weight) arcs.now }
    ensures value { result ≡ weight_of (weighed_arcs arcs.now) }
    ensures small { unsigned_abs result ≤ 2 ^ path_bits }
{
    let mut sum = 0;
    for arc in arcs {
        sum += arc.weight;
    }
    sum
}

// The sum of the weights that the bounds have in the problem that is widened, in units of 1e-9 ns.
fn sum_in(p: &Problem, what: What, extra: Nano, arcs: &[Arc]) -> i128
    requires few { length arcs.now ≤ most_nodes }
    requires names { All (IsNameOf p.now) arcs.now }
    ensures { unsigned_abs result ≤ 2 ^ path_bits }
{
    let mut sum = 0;
    for arc in arcs {
        let bound = declared_in(p, what, extra, &arc.name);
        sum += bound.weight;
    }
    sum
}

// How many times, up to a limit, what a sum grows by each time leaves it below 0.
fn times_below(lacks: u128, each: u128, limit: u64) -> u64
    requires some { 0 < lacks }
    requires grows { 0 < each }
    ensures { result ≤ limit }
{
    let times = (lacks - 1) / each;
    if times < u128::from(limit) {
        times as u64
    } else {
        limit
    }
}

// How far the contradiction lasts, by what its sum grows by at once; no farther where it is none there any more. Where
// bounds come to their limits on the way it grows by less, and lasts longer.
fn farther(p: &Problem, what: What, arcs: &[Arc], extra: u64) -> u64
    requires extra { extra < 2 ^ 62 }
    requires few { length arcs.now ≤ most_nodes }
    requires names { All (IsNameOf p.now) arcs.now }
    ensures from { extra ≤ result }
    ensures within { result < 2 ^ 62 }
{
    if extra == MOST_EXTRA {
        return extra;
    }
    let sum = sum_in(p, what, nano(extra), arcs);
    let next = sum_in(p, what, nano(extra + 1), arcs);
    if sum >= 0 || next >= 0 {
        return extra;
    }
    if next <= sum {
        return MOST_EXTRA;
    }
    let each = (next - sum).unsigned_abs();
    extra + times_below(sum.unsigned_abs(), each, MOST_EXTRA - extra)
}

/// A widening, from this one on, up to which a contradiction is sought to last.
pub fn last_of(p: &Problem, what: What, arcs: &[Arc], extra: u64) -> u64
    requires extra { extra < 2 ^ 62 }
    requires few { length arcs.now ≤ most_nodes }
    requires names { All (IsNameOf p.now) arcs.now }
    ensures from { extra ≤ result }
    ensures within { result < 2 ^ 62 }
{
    let mut last = extra;
    for _ in 0..LOOKS {
        let next = farther(p, what, arcs, last);
        if next == last {
            return last;
        }
        last = next;
    }
    last
}

// A weight or a real time, which is in range.
pub(crate) fn units(v: i128) -> Units
    requires { unsigned_abs v ≤ 2 ^ 120 }
    ensures { result ≡ v }
{
    match Units::new(v) {
        Some(units) => units,
        None => unreachable!(),
    }
}

// The step of an arc.
fn step_of(a: &Arc) -> Step
    requires { IsUpTo 93 a.now.weight }
    ensures { result ≡ step_of a.now }
{
    let bound: Bound = a.name;
    Step {
        bound,
        weight: units(a.weight),
    }
}

/// The steps of arcs, each with its weight.
pub fn chain_of(alloc: Global, arcs: &[Arc]) -> Result<Chain, AllocError>
    requires few { length arcs.now ≤ most_nodes }
    requires small { All (λ a. IsUpTo 93 a.weight) arcs.now }
    ensures { IfOk result (λ cycle. cycle ≡ map step_of arcs.now) }
{
    let mut cycle = Chain::new(alloc);
    for arc in arcs {
        cycle.push(step_of(arc))?;
    }
    Ok(cycle)
}
