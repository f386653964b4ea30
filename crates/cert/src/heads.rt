// The first lines of texts, and those that name the events of a certificate and begin its parts.
ghost use Rattle.std.specs.Prelude.{◌≡◌, ◌↔◌, ◌++◌, ◌∷◌, [], ℕ, List, IsTrue, IfSome, IfNone};
ghost use Rattle.line_format.specs.Words.{line_of};
ghost use Rattle.line_format.specs.Cut.{Lacks};
ghost use Rattle.problem_model.specs.Name.{IsEventName};
ghost use Rattle.problem.specs.Line.{HasEvent};
ghost use Rattle.cert.specs.CertificateFormat.{side_word, unlimited_word};
ghost use Rattle.cert.specs.SaidStep.{EndsParts, SaysEnds, NoEnds};
ghost use Rattle.cert.specs.TakesPart.{HasLimit, BeginsEnd};

use crate::certificate::EndProof;
use crate::chain::Chain;
use crate::execution::Execution;
use crate::kinds::Side;
use atto::{NumFault, read_ns};
use line_format::{FaultKind, LineError, cut, three_words};
use problem::Problem;
use problem_model::Name;
use std::alloc::Global;

/// What follows a first line of this text.
pub fn behind<'a>(line: &[u8], text: &'a [u8]) -> Option<&'a [u8]>
    requires { Lacks 10 line.now }
    ensures some { IfSome result (λ rest. text.now ≡ line_of (line.now ∷ []) ++ rest.now) }
    ensures none { IfNone result ((more : List ℕ) → text.now ≡ line_of (line.now ∷ []) ++ more → ⊥) }
{
    match cut(b'\n', text) {
        Some((first, rest)) => { if first == line { Some(rest) } else { None } }
        None => None,
    }
}

/// The names of the two events whose difference has the ends.
#[derive(Clone, Copy)]
pub struct EndsWords {
    pub p: Name,
    pub q: Name,
}

// The names that two words are.
fn names_of(p: &[u8], q: &[u8]) -> Option<EndsWords>
    ensures some { IfSome result (λ w. EndsParts p.now q.now w) }
    ensures none { IfNone result (IsEventName p.now → IsEventName q.now → ⊥) }
{
    Some(EndsWords {
        p: Name::new(p)?,
        q: Name::new(q)?,
    })
}

/// The events of a line `ends P Q`.
pub fn ends_words(body: &[u8]) -> Option<EndsWords>
    ensures some { IfSome result (λ w. SaysEnds body.now w) }
    ensures none { IfNone result (NoEnds body.now) }
{
    match three_words(body) {
        Some((word, p, q)) => {
            if word != b"ends".as_slice() {
                return None;
            }
            names_of(p, q)
        }
        None => None,
    }
}

/// The places of two events, where both are the problem's.
pub fn event_places(p: &Problem, a: &Name, b: &Name) -> Option<(u32, u32)>
    ensures some { IfSome result (λ r. HasEvent p.now r.0 a.now × HasEvent p.now r.1 b.now) }
    ensures none { IfNone result ((j : ℕ) (k : ℕ) → HasEvent p.now j a.now → HasEvent p.now k b.now → ⊥) }
{
    let first = p.event_place(a)?;
    let second = p.event_place(b)?;
    Some((first, second))
}

// Whether a word is the first of this part.
fn is_side(word: &[u8], side: Side) -> bool
    ensures { IsTrue result ↔ (word.now ≡ side_word side) }
{
    match side {
        Side::Upper => word == b"upper".as_slice(),
        Side::Lower => word == b"lower".as_slice(),
    }
}

// Whether a word says that this end has no limit.
fn is_unlimited(word: &[u8], side: Side) -> bool
    ensures { IsTrue result ↔ (word.now ≡ unlimited_word side) }
{
    match side {
        Side::Upper => word == b"+inf".as_slice(),
        Side::Lower => word == b"-inf".as_slice(),
    }
}

// An end of this limit, or of none, by the word for it.
fn limit_of(alloc: Global, side: Side, limit: &[u8]) -> Result<EndProof, LineError>
    ensures { HasLimit side limit.now result }
{
    if is_unlimited(limit, side) {
        return Ok(EndProof::Unbounded {
            inside: Vec::new(alloc),
            execution: Execution::new(alloc),
        });
    }
    match read_ns(limit) {
        Ok(value) => Ok(EndProof::At {
            value,
            path: Chain::new(alloc),
            execution: Execution::new(alloc),
        }),
        Err(NumFault::Range) => Err(LineError::Fault(FaultKind::Range)),
        Err(NumFault::Spelling) => Err(LineError::Fault(FaultKind::Syntax)),
    }
}

/// The end that a line `upper LIMIT` or `lower LIMIT` begins.
pub fn begin_end(alloc: Global, side: Side, body: &[u8]) -> Result<EndProof, LineError>
    ensures { BeginsEnd side body.now result }
{
    let Some((word, limit)) = cut(b' ', body) else {
        return Err(LineError::Fault(FaultKind::Syntax));
    };
    if !is_side(word, side) {
        return Err(LineError::Fault(FaultKind::Syntax));
    }
    limit_of(alloc, side, limit)
}
