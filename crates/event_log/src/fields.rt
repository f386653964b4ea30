// A row by the fields of its record.
ghost use Rattle.std.specs.Prelude.{◌≡◌, ◌≢◌, ◌<◌, ◌≤◌, ◌↔◌, ◌∷◌, [], length, SomeIff, IfSome, IfNone, IsTrue, All};
ghost use Rattle.std.specs.Int.{IsInRange};
ghost use Rattle.std.specs.Str.Parse.{digits_value};
ghost use Rattle.csv.specs.Records.{fields_of};
ghost use Rattle.event_log.specs.Texts.{IsMessageText};
ghost use Rattle.event_log.specs.Row.{IsStampText, IsKind, FitsKind, ReadsRow, row_key, kind_word};
ghost use Rattle.event_log.specs.declared.row.Kind.{Kind};

use crate::{Kind, LogError, LogText, Row, WordKey};
use atto::Nano;
use csv::ByteRecord;
use std::alloc::Global;

#[derive(Clone, Copy)]
struct Fields<'a> {
    stamp: &'a [u8],
    kind: &'a [u8],
    message: &'a [u8],
    text: &'a [u8],
}

// The fields of a record that has four.
fn four_fields(record: &ByteRecord) -> Option<Fields<'_>>
    ensures some { IfSome result (λ f. fields_of «record».now ≡ f.stamp.now ∷ f.kind.now ∷ f.message.now ∷ f.text.now ∷ []) }
    ensures none { IfNone result (length (fields_of «record».now) ≢ 4) }
{
    if record.len() != 4 {
        return None;
    }
    Some(Fields {
        stamp: record.get(0)?,
        kind: record.get(1)?,
        message: record.get(2)?,
        text: record.get(3)?,
    })
}

fn are_digits(text: &[u8]) -> bool
    ensures { IsTrue result ↔ All (λ c. IsInRange 48 57 c) text.now }
{
    text.iter().all(|c| c.is_ascii_digit())
}

// The number that at most 19 digits write, which is below 10^19.
fn digits_number(text: &[u8]) -> u64
    requires short { length text.now ≤ 19 }
    requires digits { All (λ c. IsInRange 48 57 c) text.now }
    ensures { result ≡ digits_value 10 text.now }
{
    let mut n: u64 = 0;
    for c in text {
        n = n * 10 + u64::from(*c - b'0');
    }
    n
}

fn read_stamp(text: &[u8]) -> Option<Nano>
    ensures { SomeIff result (IsStampText text.now) (digits_value 10 text.now) }
{
    if text.is_empty() || text.len() > 19 || !are_digits(text) {
        return None;
    }
    Nano::new(digits_number(text))
}

// The kind of this word.
fn kind_of_word(word: &[u8]) -> Option<Kind>
    ensures some { IfSome result (λ kind. word.now ≡ kind_word kind) }
    ensures none { IfNone result ((kind : Kind) → word.now ≡ kind_word kind → ⊥) }
{
    if word == b"send".as_slice() {
        Some(Kind::Send)
    } else if word == b"receive".as_slice() {
        Some(Kind::Receive)
    } else if word == b"local".as_slice() {
        Some(Kind::Local)
    } else {
        None
    }
}

fn read_kind(word: &[u8], message: &[u8]) -> Option<Kind>
    ensures some { IfSome result (λ kind. IsKind word.now message.now kind) }
    ensures none { IfNone result ((kind : Kind) → IsKind word.now message.now kind → ⊥) }
{
    let kind = kind_of_word(word)?;
    if fits_kind(kind, message) {
        Some(kind)
    } else {
        None
    }
}

// Whether a row of this kind may have this message.
fn fits_kind(kind: Kind, message: &[u8]) -> bool
    ensures { IsTrue result ↔ FitsKind kind message.now }
{
    match kind {
        Kind::Send | Kind::Receive => !message.is_empty(),
        Kind::Local => message.is_empty(),
    }
}

// The key of a row with this message.
fn read_key(kind: Kind, message: &[u8]) -> Option<Option<WordKey>>
    requires { FitsKind kind message.now }
    ensures { SomeIff result (IsMessageText message.now) (row_key kind message.now) }
{
    match kind {
        Kind::Send | Kind::Receive => Some(Some(WordKey::new(message)?)),
        Kind::Local => Some(None),
    }
}

// The row of this record, or the first that it lacks.
pub(crate) fn read_row(alloc: Global, record: &ByteRecord, number: u32) -> Result<Row, LogError>
    ensures { ReadsRow (fields_of «record».now) number result }
{
    let Some(fields) = four_fields(record) else {
        return Err(LogError::Fields(number));
    };
    let Some(stamp) = read_stamp(fields.stamp) else {
        return Err(LogError::Stamp(number));
    };
    let Some(kind) = read_kind(fields.kind, fields.message) else {
        return Err(LogError::Kind(number));
    };
    let Some(key) = read_key(kind, fields.message) else {
        return Err(LogError::Text(number));
    };
    let Some(text) = LogText::new(alloc, fields.text)? else {
        return Err(LogError::Text(number));
    };
    Ok(Row {
        stamp,
        kind,
        key,
        text,
    })
}
