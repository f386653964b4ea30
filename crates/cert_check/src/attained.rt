// What is wrong with an execution by itself, or as one that has a difference.
ghost use Rattle.std.specs.Prelude.{◌≡◌, ◌<◌, ◌⊎◌, length, ◌-ℤ◌};
ghost use Rattle.problem_model.specs.declared.items.Node.TheVariants as nodes;
ghost use Rattle.problem_model.specs.Bounds.{Times};
ghost use Rattle.problem_model.specs.Nodes.{Lists};
ghost use Rattle.cert.specs.CertificateText.{HasOneEach};
ghost use Rattle.cert.specs.Shows.{IsExecutionOf, Attains};
ghost use Rattle.cert_check.specs.Reasons.{IsBrokenBy, DifferenceIs};
ghost use Rattle.cert_check.specs.Faults.{FindsFault};
ghost use Rattle.cert_check.specs.declared.answer.Part.{Part};
ghost use Rattle.cert_check.specs.Sizes.{IsSmallReason};
ghost use Rattle.std.specs.Prelude.{IfSome};

use crate::answer::Reason;
use crate::verdict::{Verdict, difference, event_time, obeys};
use atto::Units;
use cert::Execution;
use problem::Problem;

/// The first bound that an execution breaks.
pub fn run_fault(p: &Problem, execution: &Execution) -> Option<Reason>
    requires { HasOneEach p.now execution.now }
    ensures found { (part : Part) → FindsFault part (IsBrokenBy p.now execution.now) (IsExecutionOf p.now execution.now) result }
    ensures small { IfSome result IsSmallReason }
{
    match obeys(p, execution) {
        Verdict::Obeys => None,
        Verdict::Broken {
            bound,
            weight,
            difference,
        } => Some(Reason::Broken {
            bound,
            weight,
            difference,
        }),
    }
}

// By how much later the second event is than the first, where it is not the value.
fn difference_fault(
    p: &Problem,
    first: u32,
    second: u32,
    value: Units,
    execution: &Execution,
) -> Option<Reason>
    requires each { HasOneEach p.now execution.now }
    requires first { first < length p.now.events }
    requires second { second < length p.now.events }
    ensures found { (part : Part) → FindsFault part (DifferenceIs p.now first second value execution.now)
        ((x : Times) → Lists p.now x execution.now → (x (nodes.Event second) -ℤ x (nodes.Event first)) ≡ value) result }
    ensures small { IfSome result IsSmallReason }
{
    let from = event_time(p, execution, first);
    let to = event_time(p, execution, second);
    let difference = difference(from, to);
    if difference == value.get() {
        None
    } else {
        Some(Reason::Difference(difference))
    }
}

/// What is wrong with an execution that should have a value as the difference of two events: the first bound that it
/// breaks, else its difference.
pub fn attained_fault(
    p: &Problem,
    first: u32,
    second: u32,
    value: Units,
    execution: &Execution,
) -> Option<Reason>
    requires each { HasOneEach p.now execution.now }
    requires first { first < length p.now.events }
    requires second { second < length p.now.events }
    ensures found { (part : Part) → FindsFault part (λ r. IsBrokenBy p.now execution.now r ⊎ DifferenceIs p.now first second value execution.now r)
        (Attains p.now first second value execution.now) result }
    ensures small { IfSome result IsSmallReason }
{
    // It tells that the problem is lawful.
    let _ = p.events();
    match run_fault(p, execution) {
        None => difference_fault(p, first, second, value, execution),
        fault => fault,
    }
}
