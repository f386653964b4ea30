// The line of a step by its words.
ghost use Rattle.std.specs.Prelude.{◌≡◌, ℕ, ℤ, IfSome, IfNone, codes};
ghost use Rattle.atto.specs.Decimal.{decimal_of};
ghost use Rattle.atto.specs.NsText.{ns_text};
ghost use Rattle.problem_model.specs.Name.{IsEventName, IsClockName};
ghost use Rattle.cert.specs.declared.kinds.Extreme.{Extreme};
ghost use Rattle.cert.specs.declared.kinds.StampBound.{StampBound};
ghost use Rattle.cert.specs.CertificateFormat.{span_word, stamp_word, delay_word};
ghost use Rattle.cert.specs.SaidStep.{SpanParts, SaysSpan, NoSpan, StampParts, SaysStamp, NoStamp, FollowStepParts, SaysFollow, NoFollowStep, DelayParts, SaysDelay, NoDelay, SaysKind, NoKind, SaysStep, NoStep};

use crate::kinds::{Extreme, StampBound};
use crate::words::{clock_name, number_of, value_of};
use atto::Units;
use line_format::{cut, five_words, four_words, three_words};
use problem_model::Name;

/// A bound over a span with a weight. A stamp of 2^64 or more is None, and a weight out of range.
#[derive(Clone, Copy)]
pub struct SpanWords {
    /// The name of the clock.
    pub clock: Name,
    /// The lower stamp, in ns.
    pub s: Option<u64>,
    /// The higher stamp, in ns.
    pub t: Option<u64>,
    /// In units of 1e-9 ns.
    pub weight: Option<Units>,
}

/// A bound on an event's stamp with a weight. A weight out of range is None.
#[derive(Clone, Copy)]
pub struct StampWords {
    /// The name of the event.
    pub event: Name,
    /// In units of 1e-9 ns.
    pub weight: Option<Units>,
}

/// A bound between clocks that follow each other with a weight. A stamp of 2^64 or more is None, and a weight out of range.
#[derive(Clone, Copy)]
pub struct FollowWords {
    /// The name of the clock that comes first.
    pub earlier: Name,
    /// The stamp on it, in ns.
    pub s: Option<u64>,
    /// The name of the clock that comes after it.
    pub later: Name,
    /// The stamp on that one, in ns.
    pub t: Option<u64>,
    /// In units of 1e-9 ns.
    pub weight: Option<Units>,
}

/// A bound on a message's delay with a weight. A weight out of range is None.
#[derive(Clone, Copy)]
pub struct DelayWords {
    /// The name of the event that sends.
    pub send: Name,
    /// The name of the event that receives.
    pub receive: Name,
    /// In units of 1e-9 ns.
    pub weight: Option<Units>,
}

/// What a step's line says: the kind of its bound, and the names, stamps and weight behind it.
#[derive(Clone, Copy)]
pub enum StepWords {
    /// `span-most` or `span-least`.
    Span(Extreme, SpanWords),
    /// `late` or `early`.
    Stamp(StampBound, StampWords),
    /// `follow`.
    Follow(FollowWords),
    /// `delay-most` or `delay-least`.
    Delay(Extreme, DelayWords),
}

// Which bound over a span a word is.
fn span_kind(word: &[u8]) -> Option<Extreme>
    ensures some { IfSome result (λ e. word.now ≡ span_word e) }
    ensures none { IfNone result ((e : Extreme) → word.now ≡ span_word e → ⊥) }
{
    if word == b"span-most".as_slice() {
        return Some(Extreme::Most);
    }
    if word == b"span-least".as_slice() {
        return Some(Extreme::Least);
    }
    None
}

// Which bound on a stamp a word is.
fn stamp_kind(word: &[u8]) -> Option<StampBound>
    ensures some { IfSome result (λ k. word.now ≡ stamp_word k) }
    ensures none { IfNone result ((k : StampBound) → word.now ≡ stamp_word k → ⊥) }
{
    if word == b"late".as_slice() {
        return Some(StampBound::Late);
    }
    if word == b"early".as_slice() {
        return Some(StampBound::Early);
    }
    None
}

// Which bound on a delay a word is.
fn delay_kind(word: &[u8]) -> Option<Extreme>
    ensures some { IfSome result (λ e. word.now ≡ delay_word e) }
    ensures none { IfNone result ((e : Extreme) → word.now ≡ delay_word e → ⊥) }
{
    if word == b"delay-most".as_slice() {
        return Some(Extreme::Most);
    }
    if word == b"delay-least".as_slice() {
        return Some(Extreme::Least);
    }
    None
}

fn span_of(clock: &[u8], s: &[u8], t: &[u8], weight: &[u8]) -> Option<SpanWords>
    ensures some { IfSome result (λ w. SpanParts clock.now s.now t.now weight.now w) }
    ensures none { IfNone result ((x : ℕ) (y : ℕ) (z : ℤ) → IsClockName clock.now → s.now ≡ decimal_of x → t.now ≡ decimal_of y → weight.now ≡ ns_text z → ⊥) }
{
    Some(SpanWords {
        clock: clock_name(clock)?,
        s: number_of(s)?,
        t: number_of(t)?,
        weight: value_of(weight)?,
    })
}

// The words `CLOCK S T WEIGHT`.
fn span_words(rest: &[u8]) -> Option<SpanWords>
    ensures some { IfSome result (λ w. SaysSpan rest.now w) }
    ensures none { IfNone result (NoSpan rest.now) }
{
    match four_words(rest) {
        Some((clock, s, t, weight)) => span_of(clock, s, t, weight),
        None => None,
    }
}

fn stamp_of(event: &[u8], weight: &[u8]) -> Option<StampWords>
    ensures some { IfSome result (λ w. StampParts event.now weight.now w) }
    ensures none { IfNone result ((z : ℤ) → IsEventName event.now → weight.now ≡ ns_text z → ⊥) }
{
    Some(StampWords {
        event: Name::new(event)?,
        weight: value_of(weight)?,
    })
}

// The words `EVENT WEIGHT`.
fn stamp_words(rest: &[u8]) -> Option<StampWords>
    ensures some { IfSome result (λ w. SaysStamp rest.now w) }
    ensures none { IfNone result (NoStamp rest.now) }
{
    match cut(b' ', rest) {
        Some((event, weight)) => stamp_of(event, weight),
        None => None,
    }
}

fn follow_of(earlier: &[u8], s: &[u8], later: &[u8], t: &[u8], weight: &[u8]) -> Option<FollowWords>
    ensures some { IfSome result (λ w. FollowStepParts earlier.now s.now later.now t.now weight.now w) }
    ensures none { IfNone result ((x : ℕ) (y : ℕ) (z : ℤ) → IsClockName earlier.now → s.now ≡ decimal_of x → IsClockName later.now → t.now ≡ decimal_of y → weight.now ≡ ns_text z → ⊥) }
{
    Some(FollowWords {
        earlier: clock_name(earlier)?,
        s: number_of(s)?,
        later: clock_name(later)?,
        t: number_of(t)?,
        weight: value_of(weight)?,
    })
}

// The words `EARLIER S LATER T WEIGHT`.
fn follow_words(rest: &[u8]) -> Option<FollowWords>
    ensures some { IfSome result (λ w. SaysFollow rest.now w) }
    ensures none { IfNone result (NoFollowStep rest.now) }
{
    match five_words(rest) {
        Some((earlier, s, later, t, weight)) => follow_of(earlier, s, later, t, weight),
        None => None,
    }
}

fn delay_of(send: &[u8], receive: &[u8], weight: &[u8]) -> Option<DelayWords>
    ensures some { IfSome result (λ w. DelayParts send.now receive.now weight.now w) }
    ensures none { IfNone result ((z : ℤ) → IsEventName send.now → IsEventName receive.now → weight.now ≡ ns_text z → ⊥) }
{
    Some(DelayWords {
        send: Name::new(send)?,
        receive: Name::new(receive)?,
        weight: value_of(weight)?,
    })
}

// The words `SEND RECEIVE WEIGHT`.
fn delay_words(rest: &[u8]) -> Option<DelayWords>
    ensures some { IfSome result (λ w. SaysDelay rest.now w) }
    ensures none { IfNone result (NoDelay rest.now) }
{
    match three_words(rest) {
        Some((send, receive, weight)) => delay_of(send, receive, weight),
        None => None,
    }
}

// The words of a bound by its first, with a weight behind.
fn step_of(kind: &[u8], rest: &[u8]) -> Option<StepWords>
    ensures some { IfSome result (λ w. SaysKind kind.now rest.now w) }
    ensures none { IfNone result (NoKind kind.now rest.now) }
{
    if let Some(extreme) = span_kind(kind) {
        return match span_words(rest) {
            Some(words) => Some(StepWords::Span(extreme, words)),
            None => None,
        };
    }
    if let Some(bound) = stamp_kind(kind) {
        return match stamp_words(rest) {
            Some(words) => Some(StepWords::Stamp(bound, words)),
            None => None,
        };
    }
    if kind == b"follow".as_slice() {
        return match follow_words(rest) {
            Some(words) => Some(StepWords::Follow(words)),
            None => None,
        };
    }
    if let Some(extreme) = delay_kind(kind) {
        return match delay_words(rest) {
            Some(words) => Some(StepWords::Delay(extreme, words)),
            None => None,
        };
    }
    None
}

/// The bound and the weight of a line `step BOUND WEIGHT`. A line that is spelled otherwise is None. Whether a problem
/// declares the bound is not looked at.
pub fn step_words(body: &[u8]) -> Option<StepWords>
    ensures some { IfSome result (λ w. SaysStep body.now w) }
    ensures none { IfNone result (NoStep body.now) }
{
    match three_words(body) {
        Some((word, kind, rest)) => {
            if word != b"step".as_slice() {
                return None;
            }
            step_of(kind, rest)
        }
        None => None,
    }
}
