// What is wrong with a cycle.
ghost use Rattle.std.specs.Prelude.{◌≡◌, ◌<◌, ◌^◌, unsigned_abs, List, All, length, slice_get, Some};
ghost use Rattle.problem_model.specs.Problem.{ProblemLists, IsWellFormed};
ghost use Rattle.problem_model.specs.Bounds.{Constraint, Declares};
ghost use Rattle.problem_model.specs.Solutions.{IsContradictionOf};
ghost use Rattle.cert.specs.declared.chain.Step.{Step};
ghost use Rattle.cert.specs.CertificateText.{IsStepOf};
ghost use Rattle.cert.specs.Shows.{weighed_bounds};
ghost use Rattle.cert_check.specs.declared.answer.Part.TheVariants as parts;
ghost use Rattle.cert_check.specs.declared.walk.Walk.TheVariants as walks;
ghost use Rattle.cert_check.specs.Walks.{IsWalk};
ghost use Rattle.cert_check.specs.Reasons.{CycleIs};
ghost use Rattle.cert_check.specs.Faults.{FindsFault};
ghost use Rattle.cert_check.specs.Sizes.{IsSmallReason};
ghost use Rattle.cert_check.specs.Widened.{widened};
ghost use Rattle.std.specs.Prelude.{IfSome};
ghost use Rattle.problem_model.specs.Limits.{walk_bits};

use crate::answer::{Part, Reason};
use crate::declared::declared_in;
use crate::walk::{Held, Walk, walk_over};
use crate::what::What;
use atto::Nano;
use cert::Chain;
use problem::Problem;
use problem_model::Node;

// What is wrong with a cycle whose walk from where the first step comes from went over all so many steps.
fn closing_fault(start: &Node, held: Held, count: u32) -> Option<Reason>
    requires { unsigned_abs held.sum < 2 ^ walk_bits }
    ensures found { (p : ProblemLists) (steps : List Step) (f : Step) (a : Constraint) → IsWellFormed p → All (IsStepOf p) steps → count ≡ length steps → slice_get steps 0 ≡ Some f → Declares p f.bound a → a.from ≡ start.now
        → IsWalk p parts.Cycle start.now steps (walks.Arrived held) → FindsFault parts.Cycle (CycleIs p steps) (IsContradictionOf p (weighed_bounds steps)) result }
    ensures small { IfSome result IsSmallReason }
{
    if held.node != *start {
        return Some(Reason::Join(count));
    }
    if held.sum >= 0 {
        return Some(Reason::Sum(held.sum));
    }
    None
}

// Where the first step comes from.
fn start_of(p: &Problem, what: What, extra: Nano, chain: &Chain) -> Node
    requires steps { All (IsStepOf p.now) chain.now }
    requires some { 0 < length chain.now }
    ensures { (f : Step) × (a : Constraint) × (slice_get chain.now 0 ≡ Some f) × Declares (widened what p.now extra) f.bound a × (a.from ≡ result) }
{
    let first = &chain.steps()[0];
    let bound = declared_in(p, what, extra, &first.bound);
    bound.from
}

/// What is wrong with a cycle of a problem that is widened.
pub fn cycle_fault(p: &Problem, what: What, extra: Nano, chain: &Chain) -> Option<Reason>
    requires { All (IsStepOf p.now) chain.now }
    ensures found { FindsFault parts.Cycle (CycleIs (widened what p.now extra) chain.now) (IsContradictionOf (widened what p.now extra) (weighed_bounds chain.now)) result }
    ensures small { IfSome result IsSmallReason }
{
    // It tells that the problem is lawful.
    let _ = p.events();
    if chain.is_empty() {
        return Some(Reason::Empty);
    }
    let start = start_of(p, what, extra, chain);
    match walk_over(p, what, extra, Part::Cycle, &start, chain) {
        Walk::Astray(step) => Some(Reason::Join(step - 1)),
        Walk::Misweighed(step) => Some(Reason::Weight(step)),
        Walk::Arrived(held) => closing_fault(&start, held, chain.len()),
    }
}
