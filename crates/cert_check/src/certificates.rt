// Checks certificates of a problem.
ghost use Rattle.std.specs.Prelude.{◌≡◌, ◌≢◌, ◌<◌, length, All};
ghost use Rattle.cert.specs.declared.certificate.Cert.TheVariants as certs;
ghost use Rattle.cert.specs.CertificateText.{IsStepOf, IsEndOf, IsCertOf};
ghost use Rattle.cert.specs.Shows.{Shows};
ghost use Rattle.cert_check.specs.declared.answer.Part.TheVariants as parts;
ghost use Rattle.cert_check.specs.declared.answer.Answer.TheVariants as answers;
ghost use Rattle.cert_check.specs.Reasons.{EndIs, IsAnswer};
ghost use Rattle.cert_check.specs.Faults.{FindsFault, ShowsEnd, verdict_at};
ghost use Rattle.cert_check.specs.Sizes.{IsSmallReason, IsSmallAnswer};
ghost use Rattle.cert_check.specs.Widened.{widened};
ghost use Rattle.std.specs.Prelude.{IfSome};

use crate::answer::{Answer, Part, Reason};
use crate::attained::{attained_fault, run_fault};
use crate::cut::cut_fault;
use crate::cycle::cycle_fault;
use crate::path::path_fault;
use crate::what::{Links, What, no_extra};
use atto::Nano;
use cert::{Cert, Chain, EndProof};
use problem::Problem;

// What is wrong with one end of the interval from the first event to the second.
fn end_fault(p: &Problem, part: Part, first: u32, second: u32, end: &EndProof) -> Option<Reason>
    requires part { part ≢ parts.Cycle }
    requires first { first < length p.now.events }
    requires second { second < length p.now.events }
    requires lawful { IsEndOf p.now end.now }
    ensures found { FindsFault part (EndIs p.now part first second end.now) (ShowsEnd p.now part first second end.now) result }
    ensures small { IfSome result IsSmallReason }
{
    // It tells that the problem is lawful.
    let _ = p.events();
    match end {
        EndProof::At {
            value,
            path,
            execution,
        } => match path_fault(p, part, first, second, *value, path) {
            None => attained_fault(p, first, second, *value, execution),
            fault => fault,
        },
        EndProof::Unbounded { inside, execution } => match cut_fault(
            p, part, first, second, inside,
        ) {
            None => run_fault(p, execution),
            fault => fault,
        },
    }
}

// The answer of one part.
fn answer(part: Part, fault: Option<Reason>) -> Answer
    ensures { result ≡ verdict_at part fault }
{
    match fault {
        None => Answer::Yes,
        Some(reason) => Answer::No { part, reason },
    }
}

// The answer of both ends of an interval, the upper one first.
fn ends_answer(p: &Problem, first: u32, second: u32, upper: &EndProof, lower: &EndProof) -> Answer
    requires { IsCertOf p.now (certs.Ends first second upper.now lower.now) }
    ensures answer { IsAnswer p.now (certs.Ends first second upper.now lower.now) result }
    ensures small { IsSmallAnswer result }
{
    // It tells that the problem is lawful.
    let _ = p.events();
    match end_fault(p, Part::Upper, first, second, upper) {
        None => answer(Part::Lower, end_fault(p, Part::Lower, first, second, lower)),
        fault => answer(Part::Upper, fault),
    }
}

/// Whether a cycle is a contradiction of `p` where it is widened by `extra` ns, or parts per billion of rates, or the first
/// reason why it is not: no steps, then for each step its weight, which is to be that of the widened problem, and its join,
/// then the sum, which is below 2^119 in absolute value. It takes no memory.
pub fn check_cycle(p: &Problem, what: What, extra: Nano, c: &Chain) -> Answer
    requires { All (IsStepOf p.now) c.now }
    ensures answer { IsAnswer (widened what p.now extra) (certs.Cycle c.now) result }
    ensures exact { Shows (widened what p.now extra) (certs.Cycle c.now) → result ≡ answers.Yes }
    ensures small { IsSmallAnswer result }
{
    // It tells that the problem is lawful.
    let _ = p.events();
    answer(Part::Cycle, cycle_fault(p, what, extra, c))
}

/// Whether a certificate of `p` shows what it should, or the first reason why it does not: in a cycle no steps, then for
/// each step its weight and its join, then the sum; of an execution the first bound of the short list that it breaks; of
/// the end of an interval, the upper one first, for each step its join and its weight, then the last join, the sum, the
/// execution and its difference, or the clocks of the two events, the bounds that leave the cut, and the execution.
/// Sums that it tells are below 2^119 in absolute value, weights below 2^93, differences at most 2^121. It takes no memory.
pub fn check(p: &Problem, c: &Cert) -> Answer
    requires { IsCertOf p.now c.now }
    ensures answer { IsAnswer p.now c.now result }
    ensures exact { Shows p.now c.now → result ≡ answers.Yes }
    ensures small { IsSmallAnswer result }
{
    // It tells that the problem is lawful.
    let _ = p.events();
    match c {
        Cert::Cycle(chain) => check_cycle(p, What::Delays(Links::All), no_extra(), chain),
        Cert::Run(execution) => answer(Part::Run, run_fault(p, execution)),
        Cert::Ends {
            p: first,
            q: second,
            upper,
            lower,
        } => ends_answer(p, *first, *second, upper, lower),
    }
}
