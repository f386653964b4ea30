// Walks over the steps of a certificate.
ghost use Rattle.std.specs.Prelude.{◌≡◌, ◌<◌, ◌≤◌, ◌^◌, ◌*◌, ◌+◌, ◌-◌, ◌+ℤ◌, All, unsigned_abs};
ghost use Rattle.problem_model.specs.Limits.{most_steps};
ghost use Rattle.cert_check.specs.Walks.{constraint, entry_of, exit_of, IsWalk};
ghost use Rattle.cert.specs.CertificateText.{IsStepOf};
ghost use Rattle.cert_check.specs.Sizes.{IsSmallWalk};
ghost use Rattle.cert_check.specs.Widened.{widened};

use crate::answer::Part;
use crate::declared::{Declaration, declared_in};
use crate::what::What;
use atto::Nano;
use cert::Chain;
use problem::Problem;
use problem_model::Node;

/// What became of a walk. Steps count from 1.
#[derive(Clone, Copy, Debug, PartialEq, Eq)]
pub enum Walk {
    /// The step is not entered where the walk had come to.
    Astray(u32),
    /// It is, and has another weight than its bound.
    Misweighed(u32),
    /// The walk went over all steps.
    Arrived(Held),
}

// The node where a walk enters a bound.
fn entry(part: Part, bound: &Declaration) -> Node
    ensures { result ≡ entry_of part (constraint bound.now) }
{
    match part {
        Part::Upper => bound.to,
        _ => bound.from,
    }
}

// The node where it leaves the bound.
fn exit(part: Part, bound: &Declaration) -> Node
    ensures { result ≡ exit_of part (constraint bound.now) }
{
    match part {
        Part::Upper => bound.from,
        _ => bound.to,
    }
}

/// Where a walk has come to, and the sum of the weights so far in units of 1e-9 ns, below 2^119 in absolute value.
#[derive(Clone, Copy, Debug, PartialEq, Eq)]
pub struct Held {
    pub node: Node,
    pub sum: i128,
}

// Takes one step more, after so many.
fn onward(part: Part, held: Held, bound: &Declaration, taken: usize) -> Held
    requires small { unsigned_abs held.sum ≤ taken * (2 ^ 93 - 1) }
    requires few { taken < most_steps }
    requires below { unsigned_abs bound.now.weight < 2 ^ 93 }
    ensures node { result.node ≡ exit_of part (constraint bound.now) }
    ensures sum { result.sum ≡ held.sum +ℤ bound.now.weight }
    ensures small { unsigned_abs result.sum ≤ (taken + 1) * (2 ^ 93 - 1) }
{
    Held {
        node: exit(part, bound),
        sum: held.sum + bound.weight,
    }
}

/// Walks over the steps from a node, in an upper part against their bounds and elsewhere along them. Each step must be
/// entered where the walk has come to, and have the weight of its bound where the problem is widened by `extra`. The
/// sum of all is below 2^119 in absolute value. It takes no memory.
pub fn walk_over(
    p: &Problem,
    what: What,
    extra: Nano,
    part: Part,
    start: &Node,
    chain: &Chain,
) -> Walk
    requires { All (IsStepOf p.now) chain.now }
    ensures walk { IsWalk (widened what p.now extra) part start.now chain.now result }
    ensures small { IsSmallWalk result }
{
    let count = chain.len();
    let steps = chain.steps();
    let mut held = Held {
        node: *start,
        sum: 0,
    };
    for k in 0..count {
        let step = &steps[k as usize];
        let bound = declared_in(p, what, extra, &step.bound);
        if entry(part, &bound) != held.node {
            return Walk::Astray(k + 1);
        }
        if step.weight.get() != bound.weight {
            return Walk::Misweighed(k + 1);
        }
        held = onward(part, held, &bound, k as usize);
    }
    Walk::Arrived(held)
}
