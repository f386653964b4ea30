// Refusals as texts.
ghost use Rattle.std.specs.Prelude.{◌≡◌, ◌≤◌, ◌+◌, ◌++◌, ◌∷◌, [], ℕ, List, length, codes};
ghost use Rattle.atto.specs.Decimal.{decimal_of};
ghost use Rattle.line_format.specs.Words.{words};
ghost use Rattle.replies.specs.declared.refusal.Refusal.TheVariants as refusals;
ghost use Rattle.replies.specs.Refusals.{details, refusal_line};

use crate::refusal::Refusal;
use arrayvec::ArrayVec;
use atto::{NsText, write_decimal};

/// How many bytes such a text has at most: `refused`, a number of two digits, and two words of at most 20 bytes, with
/// spaces between them, are fewer.
pub const REFUSED_ROOM: usize = 64;

/// The reply to an addition that was refused, without its line feed.
pub type RefusedText = ArrayVec<u8, REFUSED_ROOM>;

// Appends bytes.
fn push_bytes(text: &mut RefusedText, bytes: &[u8])
    requires { length text.old.items + length bytes.now ≤ 64 }
    ensures { text.new.items ≡ text.old.items ++ bytes.now }
{
    for byte in bytes {
        text.push(*byte);
    }
}

// The digits of a number, at most 20.
fn digits_of(number: u64) -> NsText
    ensures digits { result.items ≡ decimal_of number }
    ensures few { length result.items ≤ 20 }
{
    let mut digits = NsText::new();
    write_decimal(number, &mut digits);
    digits
}

// Appends a word of at most 20 bytes behind a space.
fn push_word(text: &mut RefusedText, word: &[u8])
    requires short { length word.now ≤ 20 }
    requires room { length text.old.items + 21 ≤ 64 }
    ensures appended { (first : List ℕ) (ws : List (List ℕ)) → text.old.items ≡ words (first ∷ ws) → text.new.items ≡ words (first ∷ ws ++ word.now ∷ []) }
    ensures exact { length text.new.items ≡ length text.old.items + 1 + length word.now }
{
    text.push(b' ');
    push_bytes(text, word);
}

// Appends a decimal behind a space.
fn push_number(text: &mut RefusedText, number: u64)
    requires { length text.old.items + 21 ≤ 64 }
    ensures appended { (first : List ℕ) (ws : List (List ℕ)) → text.old.items ≡ words (first ∷ ws) → text.new.items ≡ words (first ∷ ws ++ decimal_of number ∷ []) }
    ensures grown { length text.new.items ≤ length text.old.items + 21 }
    ensures exact { length text.new.items ≡ length text.old.items + 1 + length (decimal_of number) }
{
    push_word(text, digits_of(number).as_slice());
}

// Appends the place of a second file header, and the word for one.
fn push_header(text: &mut RefusedText, place: u32)
    requires { length text.old.items + 42 ≤ 64 }
    ensures { (first : List ℕ) (ws : List (List ℕ)) → text.old.items ≡ words (first ∷ ws) → text.new.items ≡ words (first ∷ ws ++ decimal_of place ∷ codes "header" ∷ []) }
{
    push_number(text, u64::from(place));
    push_word(text, b"header");
}

// Appends two decimals.
fn push_both(text: &mut RefusedText, first: u64, second: u64)
    requires { length text.old.items + 42 ≤ 64 }
    ensures { (word : List ℕ) (ws : List (List ℕ)) → text.old.items ≡ words (word ∷ ws) → text.new.items ≡ words (word ∷ ws ++ decimal_of first ∷ decimal_of second ∷ []) }
{
    push_number(text, first);
    push_number(text, second);
}

// Appends the words that say where and why.
fn push_details(text: &mut RefusedText, refusal: Refusal)
    requires { length text.old.items + 42 ≤ 64 }
    ensures { (first : List ℕ) (ws : List (List ℕ)) → text.old.items ≡ words (first ∷ ws) → text.new.items ≡ words (first ∷ ws ++ details refusal) }
{
    match refusal {
        Refusal::CaptureMagic => push_number(text, 1),
        Refusal::CaptureVersion => push_number(text, 2),
        Refusal::CaptureHeader { place } => push_header(text, place),
        Refusal::CaptureRecord { place } => push_number(text, u64::from(place)),
        Refusal::CaptureBlock { place } => push_number(text, u64::from(place)),
        Refusal::LogRow { row, lack } => push_both(text, u64::from(row), u64::from(lack)),
        _ => {}
    }
}

// The word that each refusal begins with.
fn first_word() -> RefusedText
    ensures { result.items ≡ codes "refused" }
{
    let mut text = RefusedText::new();
    push_bytes(&mut text, b"refused");
    text
}

/// The line of a refusal, without its line feed.
pub fn refused_text(refusal: Refusal) -> RefusedText
    ensures { result.items ++ 10 ∷ [] ≡ refusal_line refusal }
{
    let mut text = first_word();
    push_number(&mut text, refusal.number());
    push_details(&mut text, refusal);
    text
}

/// The reply to a line of more than 4,096 bytes, without its line feed.
pub fn too_long_text() -> RefusedText
    ensures { result.items ++ 10 ∷ [] ≡ refusal_line refusals.NoCommand }
{
    refused_text(Refusal::NoCommand)
}
