// The text of a certificate, line by line.
ghost use Rattle.std.specs.Prelude.{◌≡◌, ◌↔◌, ◌≤◌, ◌++◌, ◌⊎◌, ℕ, List, length, Result, Ok, Err};
ghost use Rattle.line_format.specs.Words.{line_of};
ghost use Rattle.line_format.specs.Format.{Answers, Answer, most_text_bytes};
ghost use Rattle.line_format.specs.Format.Answer.{Found};
ghost use Rattle.problem_model.specs.Problem.{ProblemLists, IsProblem};
ghost use Rattle.problem_model.specs.Nodes.{Reading, AreReadings, nodes_of};
ghost use Rattle.problem.specs.Listing.{all_readings};
ghost use Rattle.cert.specs.ExecutionFormat.{AreValues};
ghost use Rattle.cert.specs.Listed.{certificate_head};
ghost use Rattle.cert.specs.CertificateFormat.{Said, AreSteps, AreEvents, IsSound, IsWhole, said, certificate_format};
ghost use Rattle.cert.specs.EndLists.{end_lists};
ghost use Rattle.cert.specs.CertificateFormat.Said.{NoneSaid, CycleSaid, RunSaid, EventsSaid, UpperSaid, EndsSaid};
ghost use Rattle.cert.specs.CertificateText.{IsCertOf, certificate_text};
ghost use Rattle.cert.specs.ReadsCert.{FitsCert, IsCertTextOf, ReadsCert, ReadsCertOver};
ghost use Rattle.cert.specs.TakesPart.{parts_said, Gives};
ghost use Rattle.cert.specs.declared.error.CertError.TheVariants as errors;

use crate::certificate::{Cert, EndProof};
use crate::chain::Chain;
use crate::error::{CertError, error_at};
use crate::execution::Execution;
use crate::heads::{begin_end, behind, ends_words, event_places};
use crate::kinds::Side;
use crate::parts::{Next, Parts};
use crate::take_part::{is_whole, take_in_cycle, take_in_end, take_value};
use line_format::{FaultKind, LineError, MOST_BYTES, Taken, cut};
use problem::Problem;
use std::alloc::Global;

// The line that says which kind of certificate it is.
fn kind_line(alloc: Global, p: &Problem, body: &[u8]) -> Result<Next, LineError>
    ensures { Gives p.now NoneSaid body.now result }
{
    if body == b"cycle".as_slice() {
        return Ok(Next::More(Parts::Whole(Cert::Cycle(Chain::new(alloc)))));
    }
    if body == b"run".as_slice() {
        return Ok(Next::More(Parts::Whole(Cert::Run(Execution::new(alloc)))));
    }
    let Some(words) = ends_words(body) else {
        return Err(LineError::Fault(FaultKind::Syntax));
    };
    match event_places(p, &words.p, &words.q) {
        Some((p, q)) => Ok(Next::More(Parts::Events { p, q })),
        None => Err(LineError::Fault(FaultKind::Name)),
    }
}

// A step, or the end.
fn cycle_line(p: &Problem, mut steps: Chain, body: &[u8]) -> Result<Next, LineError>
    requires { AreSteps p.now steps }
    ensures { Gives p.now (CycleSaid steps) body.now result }
{
    match take_in_cycle(p, &mut steps, body) {
        Ok(Taken::Line) => Ok(Next::More(Parts::Whole(Cert::Cycle(steps)))),
        Ok(Taken::End) => Ok(Next::Done(Cert::Cycle(steps))),
        Err(fault) => Err(fault),
    }
}

// The line of a node, or the end.
fn run_line(p: &Problem, mut values: Execution, body: &[u8]) -> Result<Next, LineError>
    requires { AreValues (length (nodes_of p.now (all_readings p.now.events))) values }
    ensures { Gives p.now (RunSaid values) body.now result }
{
    match take_value(p, &mut values, body) {
        Ok(Taken::Line) => Ok(Next::More(Parts::Whole(Cert::Run(values)))),
        Ok(Taken::End) => Ok(Next::Done(Cert::Run(values))),
        Err(fault) => Err(fault),
    }
}

// The first line of the upper part.
fn upper_begins(alloc: Global, p: u32, q: u32, body: &[u8]) -> Result<Next, LineError>
    ensures { (problem : ProblemLists) → AreEvents problem p q → Gives problem (EventsSaid p q) body.now result }
{
    match begin_end(alloc, Side::Upper, body) {
        Ok(upper) => Ok(Next::More(Parts::Upper { p, q, upper })),
        Err(fault) => Err(fault),
    }
}

// The first line of the lower part.
fn lower_begins(
    alloc: Global,
    p: u32,
    q: u32,
    upper: EndProof,
    body: &[u8],
) -> Result<Next, LineError>
    ensures { (problem : ProblemLists) → IsSound problem (all_readings problem.events) (UpperSaid p q (end_lists upper)) → IsWhole problem (all_readings problem.events) (end_lists upper) → Gives problem (UpperSaid p q (end_lists upper)) body.now result }
{
    match begin_end(alloc, Side::Lower, body) {
        Ok(lower) => Ok(Next::More(Parts::Whole(Cert::Ends { p, q, upper, lower }))),
        Err(fault) => Err(fault),
    }
}

// A line of the upper part, which is not the end.
fn upper_line(
    problem: &Problem,
    p: u32,
    q: u32,
    mut upper: EndProof,
    body: &[u8],
) -> Result<Next, LineError>
    requires sound { IsSound problem.now (all_readings problem.now.events) (UpperSaid p q (end_lists upper)) }
    requires more { IsWhole problem.now (all_readings problem.now.events) (end_lists upper) → ⊥ }
    ensures { Gives problem.now (UpperSaid p q (end_lists upper)) body.now result }
{
    match take_in_end(problem, &mut upper, body) {
        Ok(_) => Ok(Next::More(Parts::Upper { p, q, upper })),
        Err(fault) => Err(fault),
    }
}

// A line of the lower part, or the end.
fn lower_line(
    problem: &Problem,
    p: u32,
    q: u32,
    upper: EndProof,
    mut lower: EndProof,
    body: &[u8],
) -> Result<Next, LineError>
    requires { IsSound problem.now (all_readings problem.now.events) (EndsSaid p q (end_lists upper) (end_lists lower)) }
    ensures { Gives problem.now (EndsSaid p q (end_lists upper) (end_lists lower)) body.now result }
{
    match take_in_end(problem, &mut lower, body) {
        Ok(Taken::Line) => Ok(Next::More(Parts::Whole(Cert::Ends { p, q, upper, lower }))),
        Ok(Taken::End) => Ok(Next::Done(Cert::Ends { p, q, upper, lower })),
        Err(fault) => Err(fault),
    }
}

// A line of a certificate's only or last list.
fn whole_line(problem: &Problem, c: Cert, body: &[u8]) -> Result<Next, LineError>
    requires { IsSound problem.now (all_readings problem.now.events) (said c) }
    ensures { Gives problem.now (said c) body.now result }
{
    match c {
        Cert::Cycle(steps) => cycle_line(problem, steps, body),
        Cert::Run(values) => run_line(problem, values, body),
        Cert::Ends { p, q, upper, lower } => lower_line(problem, p, q, upper, lower, body),
    }
}

// The line behind these parts.
fn take(alloc: Global, problem: &Problem, parts: Parts, body: &[u8]) -> Result<Next, LineError>
    requires { IsSound problem.now (all_readings problem.now.events) (parts_said parts) }
    ensures { Gives problem.now (parts_said parts) body.now result }
{
    match parts {
        Parts::Nothing => kind_line(alloc, problem, body),
        Parts::Events { p, q } => upper_begins(alloc, p, q, body),
        Parts::Upper { p, q, upper } => {
            if is_whole(problem, &upper) {
                return lower_begins(alloc, p, q, upper, body);
            }
            upper_line(problem, p, q, upper, body)
        }
        Parts::Whole(c) => whole_line(problem, c, body),
    }
}

// The lines behind the head, which is line 1.
fn read_lines(alloc: Global, p: &Problem, lines: &[u8]) -> Result<Cert, CertError>
    requires { length (line_of certificate_head ++ lines.now) ≤ most_text_bytes }
    ensures { ReadsCertOver p.now (all_readings p.now.events) (line_of certificate_head ++ lines.now) result }
{
    // It tells what the readings of the problem are.
    let _ = p.readings();
    let mut parts = Parts::Nothing;
    let mut rest = lines;
    let mut line: u64 = 2;
    while let Some((body, after)) = cut(b'\n', rest) {
        match take(alloc, p, parts, body) {
            Ok(Next::More(more)) => parts = more,
            Ok(Next::Done(cert)) => {
                if after.is_empty() {
                    return Ok(cert);
                }
                return Err(CertError::Syntax(line + 1));
            }
            Err(fault) => return Err(error_at(fault, line)),
        }
        rest = after;
        line += 1;
    }
    Err(CertError::Syntax(line))
}

fn read_text(alloc: Global, p: &Problem, text: &[u8]) -> Result<Cert, CertError>
    ensures { ReadsCertOver p.now (all_readings p.now.events) text.now result }
{
    if text.len() > MOST_BYTES {
        return Err(CertError::Long);
    }
    match behind(b"certificate 1", text) {
        Some(lines) => read_lines(alloc, p, lines),
        None => Err(CertError::Syntax(1)),
    }
}

/// The certificate of a problem that a text spells, or the first fault of the text: `Syntax`, `Name`, `Range` or
/// `Limit` with its line, and `Long` beyond 2^34 bytes. `Memory` comes only where memory runs out.
pub fn read_cert(alloc: Global, p: &Problem, text: &[u8]) -> Result<Cert, CertError>
    ensures { ReadsCert p.now text.now result }
{
    read_text(alloc, p, text)
}

/// A law, which does nothing when it runs: for a lawful problem each text has one answer, and a certificate's own text is
/// read again as what it says, which is all but where its list of clocks lies in memory.
pub fn certificate_answers_are_one()
    ensures one { (p : ProblemLists) (readings : List Reading) (text : List ℕ) (a : Answer Said) (b : Answer Said) → IsProblem p → AreReadings p readings → Answers (certificate_format p readings) text a → Answers (certificate_format p readings) text b → a ≡ b }
    ensures found { (p : ProblemLists) (readings : List Reading) (text : List ℕ) (c : Cert) → AreReadings p readings → (IsCertTextOf p readings c text ↔ Answers (certificate_format p readings) text (Found (said c))) }
    ensures read_again { (p : ProblemLists) (readings : List Reading) (c : Cert) (result : Result Cert CertError) → IsProblem p → AreReadings p readings → IsCertOf p c → FitsCert c → length (certificate_text p (nodes_of p readings) c) ≤ most_text_bytes
        → ReadsCertOver p readings (certificate_text p (nodes_of p readings) c) result → ((d : Cert) × (result ≡ Ok d) × (said d ≡ said c)) ⊎ (result ≡ Err errors.Memory) }
{}
