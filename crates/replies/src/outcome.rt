// What came of a command that changes a session, and the line that tells it.
ghost use Rattle.std.specs.Prelude.{◌≡◌, ◌≤◌, ◌+◌, ◌∷◌, [], ◌++◌, ℕ, List, length};
ghost use Rattle.atto.specs.Decimal.{decimal_of};
ghost use Rattle.line_format.specs.Words.{words};
ghost use Rattle.ports.specs.Room.{HasRoomBehind};
ghost use Rattle.replies.specs.Reply.{added_line, kept_line, passed_words, state_word};
ghost use Rattle.replies.specs.Outcomes.{outcome_line};

use crate::refusal::Refusal;
use ports::fixed_line::{Line, first_word, push_decimal, push_word};

/// What under a label gives no events.
#[derive(Clone, Copy, Debug)]
pub struct Aside {
    /// How many bytes wait for more.
    pub pending: u64,
    /// How many packets were passed over, in all pieces so far.
    pub passed: u64,
}

/// What an addition changed.
#[derive(Clone, Copy, Debug)]
pub struct Added {
    /// How many events there are more.
    pub events: u64,
    /// How many messages are new.
    pub messages: u64,
    /// How many messages are none any more.
    pub withdrawn: u64,
    /// What under the label gives no events.
    pub aside: Aside,
    /// Whether some execution obeys all bounds.
    pub consistent: bool,
}

/// What came of a command that changes a session.
#[derive(Clone, Copy, Debug)]
pub enum Outcome {
    /// The piece was accepted.
    Added(Added),
    /// The event has this slot, counted from 1.
    Kept(u32),
    /// Nothing changed.
    Refused(Refusal),
}

impl Outcome {
    /// The line that tells it.
    pub fn line(self) -> Line
        ensures { result.items ≡ outcome_line self }
    {
        match self {
            Outcome::Added(added) => added_line(added),
            Outcome::Kept(slot) => kept_line(slot),
            Outcome::Refused(refusal) => refusal.line(),
        }
    }
}

// Appends a word of at most 20 bytes and a decimal.
fn push_count(line: &mut Line, word: &[u8], number: u64)
    requires short { length word.now ≤ 20 }
    requires room { HasRoomBehind line.old.items 70 }
    ensures appended { (first : List ℕ) (ws : List (List ℕ)) → line.old.items ≡ words (first ∷ ws) → line.new.items ≡ words (first ∷ ws ++ word.now ∷ decimal_of number ∷ []) }
    ensures grown { length line.new.items ≤ length line.old.items + 70 }
{
    push_word(line, word);
    push_decimal(line, number);
}

// Appends how many packets were passed over, where any were.
fn push_passed(line: &mut Line, passed: u64)
    requires room { HasRoomBehind line.old.items 70 }
    ensures appended { (first : List ℕ) (ws : List (List ℕ)) → line.old.items ≡ words (first ∷ ws) → line.new.items ≡ words (first ∷ ws ++ passed_words passed) }
    ensures grown { length line.new.items ≤ length line.old.items + 70 }
{
    match passed {
        0 => {}
        _ => push_count(line, b"passed", passed),
    }
}

fn state_word(consistent: bool) -> &'static [u8]
    ensures word { result.now ≡ state_word consistent }
    ensures short { length result.now ≤ 20 }
{
    if consistent {
        b"consistent"
    } else {
        b"inconsistent"
    }
}

// The line of what an addition changed.
fn added_line(added: Added) -> Line
    ensures { result.items ≡ added_line added }
{
    let mut line = first_word(b"added");
    push_count(&mut line, b"events", added.events);
    push_count(&mut line, b"messages", added.messages);
    push_count(&mut line, b"withdrawn", added.withdrawn);
    push_count(&mut line, b"pending", added.aside.pending);
    push_passed(&mut line, added.aside.passed);
    push_word(&mut line, state_word(added.consistent));
    line.push(b'\n');
    line
}

// The line of the slot of an event.
fn kept_line(slot: u32) -> Line
    ensures { result.items ≡ kept_line slot }
{
    let mut line = first_word(b"kept");
    push_decimal(&mut line, u64::from(slot));
    line.push(b'\n');
    line
}
