// Lines of the lists and ends of a certificate, taken one by one.
ghost use Rattle.std.specs.Prelude.{◌≡◌, ◌↔◌, ◌<◌, ℤ, length, IsTrue, All, AllPairs, SomeIff, IfSome, IfNone, OnOk};
ghost use Rattle.atto.specs.Number.{FitsUnits};
ghost use Rattle.line_format.specs.Format.{Takes};
ghost use Rattle.problem_model.specs.Nodes.{nodes_of};
ghost use Rattle.problem.specs.Listing.{all_readings};
ghost use Rattle.cert.specs.ExecutionFormat.{execution_format, AreValues};
ghost use Rattle.cert.specs.CertificateFormat.{NamedBound, AreSteps, end_values, IsSoundEnd, IsWhole, certificate_format};
ghost use Rattle.cert.specs.CertificateFormat.Said.{CycleSaid};
ghost use Rattle.cert.specs.EndLists.{end_lists, Limited, Unlimited};
ghost use Rattle.cert.specs.SaidStep.{HoldsStep, SaysInside, NoInside};
ghost use Rattle.cert.specs.TakesPart.{TakesStep, TakesInside, TakesInEnd};

use crate::bounds::bound_of;
use crate::certificate::EndProof;
use crate::chain::{Chain, Step};
use crate::execution::Execution;
use crate::nodes::Nodes;
use crate::read::take_line;
use crate::steps::{StepWords, step_words};
use crate::words::clock_name;
use atto::Units;
use line_format::{FaultKind, LineError, Taken, cut};
use problem::Problem;
use problem_model::{MOST_STEPS, Name};

/// The clock of a line `inside CLOCK`.
fn inside_words(body: &[u8]) -> Option<Name>
    ensures some { IfSome result (λ name. SaysInside body.now name) }
    ensures none { IfNone result (NoInside body.now) }
{
    match cut(b' ', body) {
        Some((word, clock)) => {
            if word != b"inside".as_slice() {
                return None;
            }
            clock_name(clock)
        }
        None => None,
    }
}

// The weight that a step's line says; None where it is out of range.
fn weight_of(words: &StepWords) -> Option<Units>
    ensures { (n : NamedBound) (z : ℤ) → HoldsStep words.now n z → SomeIff result (FitsUnits z) z }
{
    match words {
        StepWords::Span(_, w) => w.weight,
        StepWords::Stamp(_, w) => w.weight,
        StepWords::Follow(w) => w.weight,
        StepWords::Delay(_, w) => w.weight,
    }
}

/// Puts the step of a line behind the others. `Name` comes where the problem declares no such bound, else `Range` where the
/// weight is out of range, else `Limit` behind 2^26 steps; `Memory` where memory runs out.
pub fn push_step(p: &Problem, steps: &mut Chain, words: &StepWords) -> Result<(), LineError>
    ensures { (n : NamedBound) (z : ℤ) → HoldsStep words.now n z → TakesStep p.now steps.old n z result steps.new }
{
    let Some(bound) = bound_of(p, words) else {
        return Err(LineError::Fault(FaultKind::Name));
    };
    let Some(weight) = weight_of(words) else {
        return Err(LineError::Fault(FaultKind::Range));
    };
    if steps.steps().len() >= MOST_STEPS {
        return Err(LineError::Fault(FaultKind::Limit));
    }
    steps.push(Step { bound, weight })?;
    Ok(())
}

/// Takes the line of a step of a cycle, or the end of the text: says which it was, or why it was not taken, by the format
/// of certificates. `Memory` comes only where memory runs out.
pub fn take_in_cycle(p: &Problem, steps: &mut Chain, body: &[u8]) -> Result<Taken, LineError>
    ensures takes { Takes (certificate_format p.now (all_readings p.now.events)) (CycleSaid steps.old) body.now result (CycleSaid steps.new) }
    ensures sound { AreSteps p.now steps.old → OnOk result (AreSteps p.now steps.new) }
{
    match step_words(body) {
        Some(words) => match push_step(p, steps, &words) {
            Ok(()) => Ok(Taken::Line),
            Err(fault) => Err(fault),
        },
        None => {
            if body == b"end".as_slice() {
                Ok(Taken::End)
            } else {
                Err(LineError::Fault(FaultKind::Syntax))
            }
        }
    }
}

// Whether a clock comes behind all these, which rise.
fn is_behind(inside: &[u32], clock: u32) -> bool
    requires { AllPairs (λ j k. j < k) inside.now }
    ensures { IsTrue result ↔ All (λ j. j < clock) inside.now }
{
    match inside.last() {
        Some(last) => *last < clock,
        None => true,
    }
}

// Puts the clock of a line behind the others.
fn push_inside(p: &Problem, inside: &mut Vec<u32>, name: &Name) -> Result<(), LineError>
    requires { AllPairs (λ j k. j < k) inside.old.items }
    ensures { TakesInside p.now inside.old.items name.now result inside.new.items }
{
    // It tells that the problem is lawful.
    let _ = p.clocks();
    let Some(clock) = p.clock_place(name) else {
        return Err(LineError::Fault(FaultKind::Name));
    };
    if !is_behind(inside, clock) {
        return Err(LineError::Fault(FaultKind::Name));
    }
    inside.push(clock)?;
    Ok(())
}

/// Takes the line of the node whose turn it is, or the end of the text behind the last node: says which it was, or why it
/// was not taken, by the format of executions. `Memory` comes only where memory runs out.
pub fn take_value(p: &Problem, values: &mut Execution, body: &[u8]) -> Result<Taken, LineError>
    requires { AreValues (length (nodes_of p.now (all_readings p.now.events))) values.old }
    ensures takes { Takes (execution_format p.now (all_readings p.now.events)) values.old body.now result values.new }
    ensures sound { AreValues (length (nodes_of p.now (all_readings p.now.events))) values.new }
{
    let nodes = Nodes::new(p);
    take_line(&nodes, values, body)
}

// A step, before the first real time, or the line of a node.
fn take_in_path(
    p: &Problem,
    path: &mut Chain,
    values: &mut Execution,
    body: &[u8],
) -> Result<Taken, LineError>
    requires { AreValues (length (nodes_of p.now (all_readings p.now.events))) values.old }
    ensures takes { (value : ℤ) → TakesInEnd p.now (all_readings p.now.events) (Limited value path.old values.old) body.now result (Limited value path.new values.new) }
    ensures sound { OnOk result ((value : ℤ) → IsSoundEnd p.now (all_readings p.now.events) (Limited value path.old values.old) → IsSoundEnd p.now (all_readings p.now.events) (Limited value path.new values.new)) }
{
    if !values.is_empty() {
        return take_value(p, values, body);
    }
    match step_words(body) {
        Some(words) => {
            match push_step(p, path, &words) {
                Ok(()) => Ok(Taken::Line),
                Err(fault) => Err(fault),
            }
        }
        None => take_value(p, values, body),
    }
}

// A clock inside, before the first real time, or the line of a node.
fn take_in_cut(
    p: &Problem,
    inside: &mut Vec<u32>,
    values: &mut Execution,
    body: &[u8],
) -> Result<Taken, LineError>
    requires { IsSoundEnd p.now (all_readings p.now.events) (Unlimited inside.old.items values.old) }
    ensures takes { TakesInEnd p.now (all_readings p.now.events) (Unlimited inside.old.items values.old) body.now result (Unlimited inside.new.items values.new) }
    ensures sound { OnOk result (IsSoundEnd p.now (all_readings p.now.events) (Unlimited inside.new.items values.new)) }
{
    if !values.is_empty() {
        return take_value(p, values, body);
    }
    match inside_words(body) {
        Some(name) => {
            match push_inside(p, inside, &name) {
                Ok(()) => Ok(Taken::Line),
                Err(fault) => Err(fault),
            }
        }
        None => take_value(p, values, body),
    }
}

/// Takes a line of the part of an end: says whether it was the end of the text, or why it was not taken, by the format of
/// certificates. `Memory` comes only where memory runs out.
pub fn take_in_end(p: &Problem, end: &mut EndProof, body: &[u8]) -> Result<Taken, LineError>
    requires { IsSoundEnd p.now (all_readings p.now.events) (end_lists end.old) }
    ensures takes { TakesInEnd p.now (all_readings p.now.events) (end_lists end.old) body.now result (end_lists end.new) }
    ensures sound { OnOk result (IsSoundEnd p.now (all_readings p.now.events) (end_lists end.new)) }
{
    match end {
        EndProof::At {
            path,
            execution,
            ..
        } => take_in_path(p, path, execution, body),
        EndProof::Unbounded { inside, execution } => take_in_cut(p, inside, execution, body),
    }
}

// How many nodes have their real time in this end.
fn value_count(end: &EndProof) -> u32
    ensures { result ≡ length (end_values (end_lists end.now)) }
{
    match end {
        EndProof::At { execution, .. } => execution.len(),
        EndProof::Unbounded { execution, .. } => execution.len(),
    }
}

/// Whether each node has its real time in this end.
pub fn is_whole(p: &Problem, end: &EndProof) -> bool
    ensures { IsTrue result ↔ IsWhole p.now (all_readings p.now.events) (end_lists end.now) }
{
    u64::from(value_count(end)) == p.events().len() as u64 + p.readings().len() as u64
}
