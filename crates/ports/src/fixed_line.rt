//! Lines that are composed in a fixed buffer.
ghost use Rattle.std.specs.Prelude.{◌≡◌, ◌≤◌, ◌+◌, ◌++◌, ◌∷◌, [], ℕ, List, length};
ghost use Rattle.atto.specs.Decimal.{decimal_of};
ghost use Rattle.atto.specs.NsText.{ns_text};
ghost use Rattle.line_format.specs.Words.{words, line_of};
ghost use Rattle.ports.specs.Room.{HasRoomBehind};

use arrayvec::ArrayVec;
use atto::{NsText, write_decimal, write_ns};

/// The bytes of a line at most: behind a first word of at most 20 bytes there is room for ten of at most 48 bytes, each
/// with a space before it, and for the line feed. No line of the texts has more words.
pub const LINE_ROOM: usize = 512;

/// A line being composed. It takes no memory.
pub type Line = ArrayVec<u8, LINE_ROOM>;

// Appends bytes.
fn push_bytes(line: &mut Line, bytes: &[u8])
    requires { HasRoomBehind line.old.items (length bytes.now) }
    ensures { line.new.items ≡ line.old.items ++ bytes.now }
{
    for byte in bytes {
        line.push(*byte);
    }
}

/// The line with this word alone.
pub fn first_word(word: &[u8]) -> Line
    requires { length word.now ≤ 48 }
    ensures { result.items ≡ word.now }
{
    let mut line = Line::new();
    push_bytes(&mut line, word);
    line
}

/// Appends a word of at most 48 bytes behind a space.
pub fn push_word(line: &mut Line, word: &[u8])
    requires short { length word.now ≤ 48 }
    requires room { HasRoomBehind line.old.items 49 }
    ensures appended { (first : List ℕ) (ws : List (List ℕ)) → line.old.items ≡ words (first ∷ ws) → line.new.items ≡ words (first ∷ ws ++ word.now ∷ []) }
    ensures grown { length line.new.items ≤ length line.old.items + 49 }
{
    line.push(b' ');
    push_bytes(line, word);
}

/// Appends a decimal behind a space.
pub fn push_decimal(line: &mut Line, number: u64)
    requires { HasRoomBehind line.old.items 49 }
    ensures appended { (first : List ℕ) (ws : List (List ℕ)) → line.old.items ≡ words (first ∷ ws) → line.new.items ≡ words (first ∷ ws ++ decimal_of number ∷ []) }
    ensures grown { length line.new.items ≤ length line.old.items + 49 }
{
    let mut text = NsText::new();
    write_decimal(number, &mut text);
    push_word(line, text.as_slice());
}

/// Appends a number of units as ns text behind a space.
pub fn push_ns(line: &mut Line, units: i128)
    requires { HasRoomBehind line.old.items 49 }
    ensures appended { (first : List ℕ) (ws : List (List ℕ)) → line.old.items ≡ words (first ∷ ws) → line.new.items ≡ words (first ∷ ws ++ ns_text units ∷ []) }
    ensures grown { length line.new.items ≤ length line.old.items + 49 }
{
    let mut text = NsText::new();
    write_ns(units, &mut text);
    push_word(line, text.as_slice());
}

/// The line of a limit: which end it is, and where, given in units of 1e-9 ns, as ns text.
pub fn limit_line(part: &[u8], value: i128) -> Line
    requires { length part.now ≤ 48 }
    ensures { result.items ≡ line_of (part.now ∷ ns_text value ∷ []) }
{
    let mut line = first_word(part);
    push_ns(&mut line, value);
    line.push(b'\n');
    line
}

/// The line of an end without a limit: which end it is, and the word for that.
pub fn unlimited_line(part: &[u8], unlimited: &[u8]) -> Line
    requires part { length part.now ≤ 48 }
    requires unlimited { length unlimited.now ≤ 48 }
    ensures { result.items ≡ line_of (part.now ∷ unlimited.now ∷ []) }
{
    let mut line = first_word(part);
    push_word(&mut line, unlimited);
    line.push(b'\n');
    line
}
