// The texts of numbers.
ghost use Rattle.std.specs.Prelude.{◌≡◌, ℕ, ℤ, ◌+◌, ◌*◌, ◌≤◌, ◌<◌, ◌^◌, ◌↔◌, ◌++◌, ◌∷◌, List, length, IfSome, IfNone, IsTrue, All};
ghost use Rattle.std.specs.Int.{IsInRange};
ghost use Rattle.arrayvec.specs.ArrayVec.{array_vec_len};
ghost use Rattle.atto.specs.Decimal.{decimal_of};
ghost use Rattle.atto.specs.NsText.{last_digits, ns_text, unsigned_ns_text};
ghost use Rattle.atto.specs.Number.{Reads, FitsUnits, Counts};

use crate::Units;
use arrayvec::ArrayVec;

/// A text of a number: 48 bytes are room for each that is written here, of which the longest has a
/// sign, 30 digits, a point and 9 digits.
pub type NsText = ArrayVec<u8, 48>;

/// Why a text is no number.
#[derive(Clone, Copy, Debug, PartialEq, Eq, thiserror::Error)]
pub enum NumFault {
    /// It is the spelling of no number.
    #[error("no spelling of a number")]
    Spelling,
    /// It is the spelling of a number that is out of range.
    #[error("the number is out of range")]
    Range,
}

// Appends the decimal of a number.
fn push_decimal(v: u128, out: &mut NsText)
    requires { array_vec_len out.old + length (decimal_of v) ≤ 48 }
    ensures { out.new.items ≡ out.old.items ++ decimal_of v }
{
    if v < 10 {
        out.push(b'0' + v as u8);
        return;
    }
    push_decimal(v / 10, out);
    out.push(b'0' + (v % 10) as u8);
}

// Appends the last k digits of a number.
fn push_last_digits(k: u32, v: u32, out: &mut NsText)
    requires { array_vec_len out.old + k ≤ 48 }
    ensures { out.new.items ≡ out.old.items ++ last_digits k v }
{
    if k == 0 {
        return;
    }
    push_last_digits(k - 1, v / 10, out);
    out.push(b'0' + (v % 10) as u8);
}

/// Makes `out` the decimal of `v`, which has no leading zero but for 0 itself.
pub fn write_decimal(v: u64, out: &mut NsText)
    ensures { out.new.items ≡ decimal_of v }
{
    out.clear();
    push_decimal(u128::from(v), out);
}

/// Makes `out` the text of `v` units as ns, with nine digits behind the point and a minus sign for
/// values below 0. 0 is `0.000000000`, and -1 is `-0.000000001`.
pub fn write_ns(v: i128, out: &mut NsText)
    ensures { out.new.items ≡ ns_text v }
{
    out.clear();
    if v < 0 {
        out.push(b'-');
        push_ns(v.unsigned_abs(), out);
    } else {
        push_ns(v.unsigned_abs(), out);
    }
}

// Appends the text of a number of units, without a sign.
fn push_ns(v: u128, out: &mut NsText)
    requires room { array_vec_len out.old ≤ 1 }
    requires small { v ≤ 2 ^ 127 }
    ensures { out.new.items ≡ out.old.items ++ unsigned_ns_text v }
{
    push_decimal(v / 1_000_000_000, out);
    out.push(b'.');
    push_last_digits(9, (v % 1_000_000_000) as u32, out);
}

// The number with one more digit, or None from the limit on.
fn next_number(n: Option<u128>, digit: u8, limit: u128) -> Option<u128>
    requires digit { digit < 10 }
    requires limit { (0 < limit) × (limit ≤ 2 ^ 100) }
    requires below { IfSome n (λ n. n < limit) }
    ensures { (m : ℕ) → Counts limit m n → Counts limit (m * 10 + digit) result }
{
    let next = n? * 10 + u128::from(digit);
    if next < limit { Some(next) } else { None }
}

// The number below the limit that the text spells.
fn read_number(text: &[u8], limit: u128) -> Result<u128, NumFault>
    requires { (0 < limit) × (limit ≤ 2 ^ 100) }
    ensures { Reads decimal_of (λ n. n < limit) text.now result }
{
    if text.is_empty() {
        return Err(NumFault::Spelling);
    }
    if text[0] == b'0' {
        return if text.len() == 1 {
            Ok(0)
        } else {
            Err(NumFault::Spelling)
        };
    }
    let mut number = Some(0);
    for c in text {
        if !c.is_ascii_digit() {
            return Err(NumFault::Spelling);
        }
        number = next_number(number, *c - b'0', limit);
    }
    match number {
        Some(n) => Ok(n),
        None => Err(NumFault::Range),
    }
}

/// The number that a decimal spells; a sign or a leading zero makes it none. A decimal of 2^64 or
/// more is `Range`, and any other text is `Spelling`.
pub fn read_decimal(text: &[u8]) -> Result<u64, NumFault>
    ensures { Reads decimal_of (λ n. n < 2 ^ 64) text.now result }
{
    let n = read_number(text, 1 << 64)?;
    Ok(n as u64)
}

// Whether each byte is a digit.
fn are_digits(text: &[u8]) -> bool
    ensures { IsTrue result ↔ All (λ c. IsInRange 48 57 c) text.now }
{
    text.iter().all(|c| c.is_ascii_digit())
}

// The number that nine digits spell.
fn nine_digits(text: &[u8]) -> u32
    requires nine { length text.now ≡ 9 }
    requires digits { All (λ c. IsInRange 48 57 c) text.now }
    ensures spelled { text.now ≡ last_digits 9 result }
    ensures below { result < 1000000000 }
{
    let mut n: u32 = 0;
    for c in text {
        n = n * 10 + u32::from(*c - b'0');
    }
    n
}

// The bytes before the point and the number behind it.
fn split_ns(text: &[u8]) -> Option<(&[u8], u32)>
    ensures some { IfSome result (λ r. (text.now ≡ r.0.now ++ 46 ∷ last_digits 9 r.1) × (r.1 < 1000000000)) }
    ensures none { IfNone result ((whole : List ℕ) (n : ℕ) → text.now ≡ whole ++ 46 ∷ last_digits 9 n → ⊥) }
{
    if text.len() < 10 {
        return None;
    }
    let (whole, rest) = text.split_at(text.len() - 10);
    if rest[0] != b'.' {
        return None;
    }
    if !are_digits(&rest[1..]) {
        return None;
    }
    Some((whole, nine_digits(&rest[1..])))
}

// The number of units, without a sign.
fn read_unsigned_ns(text: &[u8]) -> Result<u128, NumFault>
    ensures { Reads unsigned_ns_text (λ n. n ≤ 2 ^ 120) text.now result }
{
    let Some((whole, rest)) = split_ns(text) else {
        return Err(NumFault::Spelling);
    };
    match read_number(whole, 1 << 92) {
        Ok(seconds) => {
            let units = seconds * 1_000_000_000 + u128::from(rest);
            if units <= 1 << 120 {
                Ok(units)
            } else {
                Err(NumFault::Range)
            }
        }
        Err(fault) => Err(fault),
    }
}

// The number of units below 0 that a text behind the sign spells.
fn read_negative(rest: &[u8]) -> Result<Units, NumFault>
    ensures { Reads ns_text FitsUnits (45 ∷ rest.now) result }
{
    match read_unsigned_ns(rest) {
        Ok(size) => {
            if size == 0 {
                return Err(NumFault::Spelling);
            }
            match Units::new(-(size as i128)) {
                Some(units) => Ok(units),
                None => Err(NumFault::Range),
            }
        }
        Err(fault) => Err(fault),
    }
}

// The number of units from 0 on that a text spells.
fn read_positive(text: &[u8]) -> Result<Units, NumFault>
    requires { (more : List ℕ) → text.now ≡ 45 ∷ more → ⊥ }
    ensures { Reads ns_text FitsUnits text.now result }
{
    match read_unsigned_ns(text) {
        Ok(size) => match Units::new(size as i128) {
            Some(units) => Ok(units),
            None => Err(NumFault::Range),
        },
        Err(fault) => Err(fault),
    }
}

/// The number of units that a text spells, as `write_ns` writes it. The text of a number past 2^120
/// in absolute value is `Range`, and any other text is `Spelling`, among them `-0.000000000` and
/// texts with a `+`, with a 0 before another digit, or without nine digits behind the point.
pub fn read_ns(text: &[u8]) -> Result<Units, NumFault>
    ensures { Reads ns_text FitsUnits text.now result }
{
    match text {
        [b'-', rest @ ..] => read_negative(rest),
        _ => read_positive(text),
    }
}

/// A law, which does nothing when it runs: a text spells at most one number, and at most one number of units. So where
/// `Range` is answered, the text spells no value within the range.
pub fn spellings_are_one()
    ensures decimal { (m n : ℕ) → decimal_of m ≡ decimal_of n → m ≡ n }
    ensures ns { (y z : ℤ) → ns_text y ≡ ns_text z → y ≡ z }
{}
