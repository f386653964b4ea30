// Lines by their words.
ghost use Rattle.std.specs.Prelude.{◌≡◌, ℕ, ℤ, IfSome, IfNone, SomeIff, codes};
ghost use Rattle.atto.specs.Decimal.{decimal_of};
ghost use Rattle.atto.specs.NsText.{ns_text};
ghost use Rattle.problem_model.specs.Name.{IsEventName, IsClockName};
ghost use Rattle.cert.specs.Said.{SpellsValue, SpellsNumber, EventValueParts, SaysEvent, NoEventValue, ReadingParts, SaysReading, NoReading};

use atto::{NumFault, Units, read_decimal, read_ns};
use line_format::{four_words, three_words};
use problem_model::Name;

/// What an event's line says. A value out of range is None.
#[derive(Clone, Copy)]
pub struct EventWords {
    pub name: Name,
    pub value: Option<Units>,
}

/// What a reading's line says. A stamp of 2^64 or more is None, and a value out of range.
#[derive(Clone, Copy)]
pub struct ReadingWords {
    pub clock: Name,
    pub stamp: Option<u64>,
    pub value: Option<Units>,
}

/// The value that a word spells; None inside where it is out of range.
pub fn value_of(text: &[u8]) -> Option<Option<Units>>
    ensures some { IfSome result (λ v. SpellsValue text.now v) }
    ensures none { IfNone result ((z : ℤ) → text.now ≡ ns_text z → ⊥) }
{
    match read_ns(text) {
        Ok(v) => Some(Some(v)),
        Err(NumFault::Range) => Some(None),
        Err(NumFault::Spelling) => None,
    }
}

/// The number that a word spells; None inside from 2^64 on.
pub fn number_of(text: &[u8]) -> Option<Option<u64>>
    ensures some { IfSome result (λ n. SpellsNumber text.now n) }
    ensures none { IfNone result ((m : ℕ) → text.now ≡ decimal_of m → ⊥) }
{
    match read_decimal(text) {
        Ok(n) => Some(Some(n)),
        Err(NumFault::Range) => Some(None),
        Err(NumFault::Spelling) => None,
    }
}

/// The clock name that a word is.
pub fn clock_name(text: &[u8]) -> Option<Name>
    ensures { SomeIff result (IsClockName text.now) text.now }
{
    let name = Name::new(text)?;
    if name.is_short() { Some(name) } else { None }
}

fn event_of(word: &[u8], name: &[u8], value: &[u8]) -> Option<EventWords>
    ensures some { IfSome result (λ w. EventValueParts word.now name.now value.now w) }
    ensures none { IfNone result ((z : ℤ) → word.now ≡ codes "event" → IsEventName name.now → value.now ≡ ns_text z → ⊥) }
{
    if word != b"event".as_slice() {
        return None;
    }
    Some(EventWords {
        name: Name::new(name)?,
        value: value_of(value)?,
    })
}

/// The event and the value of a line `event NAME VALUE`.
pub fn event_words(body: &[u8]) -> Option<EventWords>
    ensures some { IfSome result (λ w. SaysEvent body.now w) }
    ensures none { IfNone result (NoEventValue body.now) }
{
    match three_words(body) {
        Some((word, name, value)) => event_of(word, name, value),
        None => None,
    }
}

fn reading_of(word: &[u8], clock: &[u8], stamp: &[u8], value: &[u8]) -> Option<ReadingWords>
    ensures some { IfSome result (λ w. ReadingParts word.now clock.now stamp.now value.now w) }
    ensures none { IfNone result ((m : ℕ) (z : ℤ) → word.now ≡ codes "reading" → IsClockName clock.now → stamp.now ≡ decimal_of m → value.now ≡ ns_text z → ⊥) }
{
    if word != b"reading".as_slice() {
        return None;
    }
    Some(ReadingWords {
        clock: clock_name(clock)?,
        stamp: number_of(stamp)?,
        value: value_of(value)?,
    })
}

/// The clock, the stamp and the value of a line `reading CLOCK STAMP VALUE`.
pub fn reading_words(body: &[u8]) -> Option<ReadingWords>
    ensures some { IfSome result (λ w. SaysReading body.now w) }
    ensures none { IfNone result (NoReading body.now) }
{
    match four_words(body) {
        Some((word, clock, stamp, value)) => reading_of(word, clock, stamp, value),
        None => None,
    }
}
