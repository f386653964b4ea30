// The text of a problem, line by line.
ghost use Rattle.std.specs.Prelude.{◌≡◌, ◌≤◌, ◌++◌, ◌↔◌, List, [], ℕ, length, IfSome, IfNone, IsTrue, Ok};
ghost use Rattle.line_format.specs.Words.{words};
ghost use Rattle.line_format.specs.Format.{Answer, head_line, most_text_bytes};
ghost use Rattle.line_format.specs.Format.Answer.{Found};
ghost use Rattle.problem_model.specs.Problem.{ProblemLists};
ghost use Rattle.problem.specs.Line.{head_with, problem_format};
ghost use Rattle.problem.specs.Reading.{Reads, AnswersProblem};
ghost use Rattle.problem.specs.declared.version.Version.{Version};

use crate::errors::{ProblemError, fault_at};
use crate::items::Items;
use crate::lines::take;
use crate::problem::Problem;
use crate::version::Version;
use line_format::{MOST_BYTES, Taken, cut};
use std::alloc::Global;

fn is_end(rest: &[u8]) -> bool
    ensures { IsTrue result ↔ (rest.now ≡ []) }
{
    matches!(rest, [])
}

// The version that a first line names.
fn version_of(head: &[u8]) -> Option<Version>
    ensures some { IfSome result (λ version. head.now ≡ words (head_with version)) }
    ensures none { IfNone result ((version : Version) → head.now ≡ words (head_with version) → ⊥) }
{
    if head == b"problem 1".as_slice() {
        return Some(Version::First);
    }
    if head == b"problem 2".as_slice() {
        return Some(Version::Second);
    }
    if head == b"problem 3".as_slice() {
        return Some(Version::Third);
    }
    None
}

// The version of a text, and what follows its head.
fn after_head(text: &[u8]) -> Option<(Version, &[u8])>
    ensures some { IfSome result (λ r. text.now ≡ head_line (problem_format r.0) ++ r.1.now) }
    ensures none { IfNone result ((version : Version) (more : List ℕ) → text.now ≡ head_line (problem_format version) ++ more → ⊥) }
{
    let Some((head, rest)) = cut(b'\n', text) else {
        return None;
    };
    match version_of(head) {
        Some(version) => Some((version, rest)),
        None => None,
    }
}

// The lines behind the head of a version.
fn read_lines(alloc: Global, version: Version, lines: &[u8]) -> Result<Items, ProblemError>
    requires { length (head_line (problem_format version) ++ lines.now) ≤ most_text_bytes }
    ensures { Reads (head_line (problem_format version) ++ lines.now) result }
{
    let mut items = Items::new(alloc);
    let mut rest = lines;
    let mut line: u64 = 2;
    while let Some((body, after)) = cut(b'\n', rest) {
        match take(version, &mut items, body) {
            Ok(Taken::Line) => {}
            Ok(Taken::End) => {
                if is_end(after) {
                    return Ok(items);
                }
                return Err(ProblemError::Syntax(line + 1));
            }
            Err(fault) => return Err(fault_at(fault, line)),
        }
        rest = after;
        line += 1;
    }
    Err(ProblemError::Syntax(line))
}

// The lists of the problem that a text spells.
fn read_items(alloc: Global, text: &[u8]) -> Result<Items, ProblemError>
    ensures { Reads text.now result }
{
    if text.len() > MOST_BYTES {
        return Err(ProblemError::Long);
    }
    match after_head(text) {
        Some((version, lines)) => read_lines(alloc, version, lines),
        None => Err(ProblemError::Syntax(1)),
    }
}

/// The problem that a text spells, or the fault of its first faulty line. Each answer comes exactly where it is
/// defined, but for `Memory`, which comes where memory runs out.
pub fn read_problem(alloc: Global, text: &[u8]) -> Result<Problem, ProblemError>
    ensures { Reads text.now result }
{
    let items = read_items(alloc, text)?;
    Ok(Problem::of_items(alloc, items)?)
}

/// A law, which does nothing when it runs: a text has one answer, and it is a problem exactly where it reads as one.
pub fn problem_answers_are_one()
    ensures one { (text : List ℕ) (a : Answer ProblemLists) (b : Answer ProblemLists) → AnswersProblem text a → AnswersProblem text b → a ≡ b }
    ensures found { (text : List ℕ) (p : ProblemLists) → AnswersProblem text (Found p) ↔ Reads text (Ok p) }
{}
