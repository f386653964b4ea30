// Lines that are composed word by word: here in memory of their own, and in `line` in a buffer of a fixed size.
//
// A line is words with one space between any two. Each call says what it makes of any line of words.

ghost use Rattle.std.specs.Prelude.{◌≡◌, ◌∷◌, [], ◌++◌, ℕ, List, OnOk};
ghost use Rattle.atto.specs.Decimal.{decimal_of};
ghost use Rattle.atto.specs.NsText.{ns_text};
ghost use Rattle.line_format.specs.Words.{words};

use atto::{NsText, write_decimal, write_ns};
use std::alloc::AllocError;

/// Appends a word behind a space. An error comes only where memory runs out.
pub fn push_word(line: &mut Vec<u8>, word: &[u8]) -> Result<(), AllocError>
    ensures { (first : List ℕ) (ws : List (List ℕ)) → line.old.items ≡ words (first ∷ ws) → OnOk result (line.new.items ≡ words (first ∷ ws ++ word.now ∷ [])) }
{
    line.push(b' ')?;
    line.extend_from_slice(word)?;
    Ok(())
}

/// Appends a decimal behind a space. An error comes only where memory runs out.
pub fn push_decimal(line: &mut Vec<u8>, number: u64) -> Result<(), AllocError>
    ensures { (first : List ℕ) (ws : List (List ℕ)) → line.old.items ≡ words (first ∷ ws) → OnOk result (line.new.items ≡ words (first ∷ ws ++ decimal_of number ∷ [])) }
{
    let mut text = NsText::new();
    write_decimal(number, &mut text);
    push_word(line, text.as_slice())
}

/// Appends a number of units of 1e-9 ns as ns text behind a space. An error comes only where memory runs out.
pub fn push_ns(line: &mut Vec<u8>, units: i128) -> Result<(), AllocError>
    ensures { (first : List ℕ) (ws : List (List ℕ)) → line.old.items ≡ words (first ∷ ws) → OnOk result (line.new.items ≡ words (first ∷ ws ++ ns_text units ∷ [])) }
{
    let mut text = NsText::new();
    write_ns(units, &mut text);
    push_word(line, text.as_slice())
}
