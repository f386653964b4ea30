ghost use Rattle.std.specs.Prelude.{◌≡◌, []};
ghost use Rattle.solver.specs.Current.{IsCurrent};

use crate::fixtures::{CIRCLE_PROBLEM, is_solved, solve_alone};
use atto::{NsText, write_decimal};
use problem::{Problem, read_problem};
use shared_fixtures::LATE_LOGS_PROBLEM;
use solver::Solver;
use std::alloc::{AllocError, Global};
use std::test::*;

// Whether the first values are these, in units.
fn begins_with(s: &Solver, want: &[i128]) -> bool
    requires current { IsCurrent s.now }
    requires solved { s.now.contradiction ≡ [] }
{
    let nodes = s.graph().nodes();
    for (k, value) in want.iter().enumerate() {
        if nodes as usize <= k {
            return false;
        }
        if s.value(k as u32) != *value {
            return false;
        }
    }
    true
}

// Whether there is an execution, and its first values are these, in units.
fn is_begun_with(s: &Solver, want: &[i128]) -> bool
    requires { IsCurrent s.now }
{
    is_solved(s) && begins_with(s, want)
}

// Whether a problem has an execution, and its earliest one begins with these values, in units.
fn values_begin(alloc: Global, p: &Problem, want: &[i128]) -> Option<bool> {
    let s = solve_alone(alloc, p).ok()?;
    Some(is_begun_with(&s, want))
}

// The same of a problem by its text.
fn has_values(alloc: Global, text: &[u8], want: &[i128]) -> Option<bool> {
    let p = read_problem(alloc, text).ok()?;
    values_begin(alloc, &p, want)
}

// How many bounds the contradiction of a problem has, which are none where it has an execution.
fn bounds_of_contradiction(alloc: Global, p: &Problem) -> Option<usize> {
    let s = solve_alone(alloc, p).ok()?;
    Some(s.contradiction().len())
}

// The same of a problem by its text.
fn contradiction_size(alloc: Global, text: &str) -> Option<usize> {
    let p = read_problem(alloc, text.as_bytes()).ok()?;
    bounds_of_contradiction(alloc, &p)
}

// Appends the line of an event of the clock `c` at this stamp, named by it.
fn push_event(text: &mut Vec<u8>, stamp: u64) -> Result<(), AllocError> {
    let mut digits = NsText::new();
    write_decimal(stamp, &mut digits);
    text.extend_from_slice(b"event c#")?;
    text.extend_from_slice(digits.as_slice())?;
    text.extend_from_slice(b" c ")?;
    text.extend_from_slice(digits.as_slice())?;
    text.extend_from_slice(b"\n")
}

// Appends a problem of one clock and so many events, each 1 ns behind the one before it.
fn push_chain(text: &mut Vec<u8>, events: u64) -> Result<(), AllocError> {
    text.extend_from_slice(b"problem 1\nclock c 0 0 0 0\n")?;
    for stamp in 0..events {
        push_event(text, stamp)?;
    }
    text.extend_from_slice(b"end\n")
}

// Whether the earliest execution of such a problem begins with these values, in units.
fn chain_has_values(alloc: Global, events: u64, want: &[i128]) -> Option<bool> {
    let mut text = Vec::new(alloc);
    push_chain(&mut text, events).ok()?;
    has_values(alloc, &text, want)
}

#[test]
fn problems_are_solved(rt: HostRuntime) {
    let alloc = rt.alloc();
    let want = [0, 80_000_000_000, 10_000_000_000, 60_000_000_000];
    assert!(rt; has_values(alloc, LATE_LOGS_PROBLEM.as_bytes(), &want) == Some(true));
    assert!(rt; has_values(alloc, b"problem 1\nend\n", &[]) == Some(true));
    assert!(rt; contradiction_size(alloc, CIRCLE_PROBLEM) == Some(8));
}

#[test]
fn clock_of_thousands_of_events(rt: HostRuntime) {
    let want = [0, 1_000_000_000, 2_000_000_000, 3_000_000_000];
    assert!(rt; chain_has_values(rt.alloc(), 2_000, &want) == Some(true));
}
