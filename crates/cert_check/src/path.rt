// What is wrong with the path that shows the end of an interval.
ghost use Rattle.std.specs.Prelude.{◌≡◌, ◌≢◌, ◌≤◌, ◌<◌, ◌^◌, unsigned_abs, ℕ, List, All, length};
ghost use Rattle.problem_model.specs.declared.items.Node.TheVariants as nodes;
ghost use Rattle.problem_model.specs.Problem.{ProblemLists, IsWellFormed};
ghost use Rattle.problem_model.specs.Solutions.{weight_of};
ghost use Rattle.cert.specs.declared.chain.Step.{Step};
ghost use Rattle.cert.specs.CertificateText.{IsStepOf};
ghost use Rattle.cert.specs.Shows.{weighed_bounds};
ghost use Rattle.cert_check.specs.declared.answer.Part.TheVariants as parts;
ghost use Rattle.cert_check.specs.declared.walk.Walk.TheVariants as walks;
ghost use Rattle.cert_check.specs.Walks.{Goes, IsWalk};
ghost use Rattle.cert_check.specs.Reasons.{sum_for, PathIs};
ghost use Rattle.cert_check.specs.Faults.{FindsFault};
ghost use Rattle.cert_check.specs.Sizes.{IsSmallReason};
ghost use Rattle.std.specs.Prelude.{IfSome};
ghost use Rattle.problem_model.specs.Limits.{most_steps, walk_bits};

use crate::answer::{Part, Reason};
use crate::walk::{Held, Walk, walk_over};
use crate::what::{Links, What, no_extra};
use atto::Units;
use cert::Chain;
use problem::Problem;
use problem_model::Node;

// The sum that a path should have, in units of 1e-9 ns.
fn sum_for(part: Part, value: Units) -> i128
    ensures { result ≡ sum_for part value }
{
    match part {
        Part::Lower => -value.get(),
        _ => value.get(),
    }
}

// What is wrong with a path that went over so many steps.
fn arrival_fault(part: Part, held: Held, first: u32, value: Units, count: u32) -> Option<Reason>
    requires few { count ≤ most_steps }
    requires low { unsigned_abs held.sum < 2 ^ walk_bits }
    ensures found { (p : ProblemLists) (second : ℕ) (steps : List Step) → IsWellFormed p → part ≢ parts.Cycle → All (IsStepOf p) steps → count ≡ length steps → IsWalk p part (nodes.Event second) steps (walks.Arrived held)
        → FindsFault part (PathIs p part first second value steps)
        (Goes p part (nodes.Event second) (weighed_bounds steps) (nodes.Event first) × (weight_of (weighed_bounds steps) ≡ sum_for part value)) result }
    ensures small { IfSome result IsSmallReason }
{
    if held.node != Node::Event(first) {
        return Some(Reason::Join(count + 1));
    }
    if held.sum != sum_for(part, value) {
        return Some(Reason::Sum(held.sum));
    }
    None
}

/// What is wrong with a path from the second event to the first that should have the value as its sum, or in a lower
/// part its negative.
pub fn path_fault(
    p: &Problem,
    part: Part,
    first: u32,
    second: u32,
    value: Units,
    path: &Chain,
) -> Option<Reason>
    requires part { part ≢ parts.Cycle }
    requires steps { All (IsStepOf p.now) path.now }
    ensures found { FindsFault part (PathIs p.now part first second value path.now)
        (Goes p.now part (nodes.Event second) (weighed_bounds path.now) (nodes.Event first) × (weight_of (weighed_bounds path.now) ≡ sum_for part value)) result }
    ensures small { IfSome result IsSmallReason }
{
    // It tells that the problem is lawful.
    let _ = p.events();
    match walk_over(
        p,
        What::Delays(Links::All),
        no_extra(),
        part,
        &Node::Event(second),
        path,
    ) {
        Walk::Astray(step) => Some(Reason::Join(step)),
        Walk::Misweighed(step) => Some(Reason::Weight(step)),
        Walk::Arrived(held) => arrival_fault(part, held, first, value, path.len()),
    }
}
