// The text of an execution, line by line.
ghost use Rattle.std.specs.Prelude.{◌≡◌, ◌↔◌, ◌<◌, ◌≤◌, ◌++◌, ◌+◌, ℕ, List, length, ℤ};
ghost use Rattle.line_format.specs.Words.{line_of};
ghost use Rattle.line_format.specs.Format.{Takes, Answers, Answer, most_text_bytes};
ghost use Rattle.line_format.specs.Format.Answer.{Found};
ghost use Rattle.problem_model.specs.Problem.{ProblemLists, IsProblem};
ghost use Rattle.problem_model.specs.Nodes.{Reading, AreReadings, nodes_of};
ghost use Rattle.problem_model.specs.ExecutionText.{execution_head};
ghost use Rattle.problem_model.specs.Limits.{most_nodes};
ghost use Rattle.cert.specs.ExecutionFormat.{execution_format, AreValues};
ghost use Rattle.cert.specs.NodeLists.{NodeLists, StandsAtNode};
ghost use Rattle.cert.specs.ReadsExecution.{Reads, ReadsOver, IsTextOf};
ghost use Rattle.cert.specs.declared.nodes.NextNode.TheVariants as next;

use crate::error::{CertError, error_at};
use crate::execution::Execution;
use crate::heads::behind;
use crate::nodes::{NextNode, Nodes};
use crate::words::{event_words, reading_words};
use atto::Nano;
use line_format::{FaultKind, LineError, MOST_BYTES, Taken, cut};
use problem::Problem;
use problem_model::Name;
use std::alloc::Global;

// The line of the event of this name.
fn take_event(values: &mut Execution, name: &Name, body: &[u8]) -> Result<Taken, LineError>
    requires { length values.old < most_nodes }
    ensures takes { (n : NodeLists) → StandsAtNode n (length values.old) (next.Event name.now) → Takes (execution_format n.problem n.readings) values.old body.now result values.new }
    ensures sound { (n : NodeLists) → StandsAtNode n (length values.old) (next.Event name.now) → AreValues (length (nodes_of n.problem n.readings)) values.old → AreValues (length (nodes_of n.problem n.readings)) values.new }
{
    let Some(w) = event_words(body) else {
        return Err(LineError::Fault(FaultKind::Syntax));
    };
    if !w.name.is_same(name) {
        return Err(LineError::Fault(FaultKind::Name));
    }
    let Some(value) = w.value else {
        return Err(LineError::Fault(FaultKind::Range));
    };
    values.push(value)?;
    Ok(Taken::Line)
}

// The line of the reading of this stamp on the clock of this name.
fn take_reading(
    values: &mut Execution,
    clock: &Name,
    stamp: Nano,
    body: &[u8],
) -> Result<Taken, LineError>
    requires { length values.old < most_nodes }
    ensures takes { (n : NodeLists) → StandsAtNode n (length values.old) (next.Reading clock.now stamp) → Takes (execution_format n.problem n.readings) values.old body.now result values.new }
    ensures sound { (n : NodeLists) → StandsAtNode n (length values.old) (next.Reading clock.now stamp) → AreValues (length (nodes_of n.problem n.readings)) values.old → AreValues (length (nodes_of n.problem n.readings)) values.new }
{
    let Some(w) = reading_words(body) else {
        return Err(LineError::Fault(FaultKind::Syntax));
    };
    if !w.clock.is_same(clock) {
        return Err(LineError::Fault(FaultKind::Name));
    }
    if w.stamp != Some(stamp.get()) {
        return Err(LineError::Fault(FaultKind::Name));
    }
    let Some(value) = w.value else {
        return Err(LineError::Fault(FaultKind::Range));
    };
    values.push(value)?;
    Ok(Taken::Line)
}

// The end, behind the last node.
fn take_end(body: &[u8]) -> Result<Taken, LineError>
    ensures { (n : NodeLists) (values : List ℤ) → StandsAtNode n (length values) next.End → AreValues (length (nodes_of n.problem n.readings)) values → Takes (execution_format n.problem n.readings) values body.now result values }
{
    if body == b"end".as_slice() {
        Ok(Taken::End)
    } else {
        Err(LineError::Fault(FaultKind::Syntax))
    }
}

/// The line at the place of the next value.
pub fn take_line(nodes: &Nodes<'_>, values: &mut Execution, body: &[u8]) -> Result<Taken, LineError>
    requires { AreValues (length (nodes_of nodes.now.problem nodes.now.readings)) values.old }
    ensures takes { Takes (execution_format nodes.now.problem nodes.now.readings) values.old body.now result values.new }
    ensures sound { AreValues (length (nodes_of nodes.now.problem nodes.now.readings)) values.new }
{
    match nodes.at(values.len()) {
        NextNode::Event(name) => take_event(values, &name, body),
        NextNode::Reading(clock, stamp) => take_reading(values, &clock, stamp, body),
        NextNode::End => take_end(body),
    }
}

// The number of the line behind those of these values.
fn line_behind(values: &Execution) -> u64
    ensures is { result ≡ length values.now + 2 }
    ensures few { result ≤ most_nodes + 2 }
{
    u64::from(values.len()) + 2
}

// The lines behind the head, which is line 1.
fn read_lines(alloc: Global, nodes: &Nodes<'_>, lines: &[u8]) -> Result<Execution, CertError>
    requires { length (line_of execution_head ++ lines.now) ≤ most_text_bytes }
    ensures { ReadsOver nodes.now.problem nodes.now.readings (line_of execution_head ++ lines.now) result }
{
    let mut values = Execution::new(alloc);
    let mut rest = lines;
    while let Some((body, after)) = cut(b'\n', rest) {
        let line = line_behind(&values);
        match take_line(nodes, &mut values, body) {
            Ok(Taken::Line) => {}
            Ok(Taken::End) => {
                if after.is_empty() {
                    return Ok(values);
                }
                return Err(CertError::Syntax(line + 1));
            }
            Err(fault) => return Err(error_at(fault, line)),
        }
        rest = after;
    }
    Err(CertError::Syntax(line_behind(&values)))
}

fn read_text(alloc: Global, nodes: &Nodes<'_>, text: &[u8]) -> Result<Execution, CertError>
    ensures { ReadsOver nodes.now.problem nodes.now.readings text.now result }
{
    if text.len() > MOST_BYTES {
        return Err(CertError::Long);
    }
    match behind(b"execution 1", text) {
        Some(lines) => read_lines(alloc, nodes, lines),
        None => Err(CertError::Syntax(1)),
    }
}

/// The execution of a problem that a text spells, or the first fault of the text: `Syntax`, `Name` or
/// `Range` with its line, and `Long` beyond 2^34 bytes. `Limit` never comes, and `Memory` only where
/// memory runs out.
pub fn read_execution(alloc: Global, p: &Problem, text: &[u8]) -> Result<Execution, CertError>
    ensures { Reads p.now text.now result }
{
    let nodes = Nodes::new(p);
    read_text(alloc, &nodes, text)
}

/// A law, which does nothing when it runs: for a lawful problem each text has one answer, so each answer comes exactly
/// where it is defined.
pub fn execution_answers_are_one()
    ensures one { (p : ProblemLists) (readings : List Reading) (text : List ℕ) (a : Answer (List ℤ)) (b : Answer (List ℤ)) → IsProblem p → AreReadings p readings → Answers (execution_format p readings) text a → Answers (execution_format p readings) text b → a ≡ b }
    ensures found { (p : ProblemLists) (readings : List Reading) (text : List ℕ) (values : List ℤ) → IsTextOf p readings values text ↔ Answers (execution_format p readings) text (Found values) }
{}
