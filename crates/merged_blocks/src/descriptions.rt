// What there is to say of the interface of a label.
ghost use Rattle.std.specs.Prelude.{◌≡◌, ◌≤◌, ◌+◌, ◌∷◌, [], ◌++◌, ℕ, List, length};
ghost use Rattle.atto.specs.Decimal.{decimal_of};
ghost use Rattle.line_format.specs.Words.{words};
ghost use Rattle.ports.specs.Room.{HasRoomBehind};
ghost use Rattle.merged_blocks.specs.Descriptions.{clock_as, clock_words};

use decl::Label;
use ports::fixed_line::{Line, first_word, push_decimal, push_word};
use problem_model::{Clock, Name};

// Appends a short word behind a space.
fn push_short(line: &mut Line, word: &[u8])
    requires short { length word.now ≤ 5 }
    requires room { HasRoomBehind line.old.items 49 }
    ensures appended { (first : List ℕ) (ws : List (List ℕ)) → line.old.items ≡ words (first ∷ ws) → line.new.items ≡ words (first ∷ ws ++ word.now ∷ []) }
    ensures grown { length line.new.items ≤ length line.old.items + 6 }
{
    push_word(line, word);
}

// Appends a bound: its word, its number and the unit of that.
fn push_bound(line: &mut Line, word: &[u8], number: u64, unit: &[u8])
    requires word { length word.now ≤ 5 }
    requires unit { length unit.now ≤ 5 }
    requires room { HasRoomBehind line.old.items 104 }
    ensures appended { (first : List ℕ) (ws : List (List ℕ)) → line.old.items ≡ words (first ∷ ws) → line.new.items ≡ words (first ∷ ws ++ word.now ∷ decimal_of number ∷ unit.now ∷ []) }
    ensures grown { length line.new.items ≤ length line.old.items + 61 }
{
    push_short(line, word);
    push_decimal(line, number);
    push_short(line, unit);
}

/// A clock with the bounds of the stamps of a label's trace.
pub(crate) fn clock_as(label: &Label, clock: &Clock) -> Clock
    ensures { result ≡ clock_as label.now clock.now }
{
    Clock {
        name: clock.name,
        rate: clock.rate,
        early: label.early.unwrap_or(clock.early),
        late: label.late.unwrap_or(clock.late),
    }
}

/// What there is to say of a host's clock: by how much its rate and its stamps may be off.
pub(crate) fn clock_line(host: &Name, clock: &Clock) -> Line
    ensures is { result.items ≡ clock_words host.now clock.now }
    ensures short { length result.items ≤ 512 }
{
    let mut line = first_word(host.bytes());
    push_short(&mut line, b"clock");
    push_word(&mut line, clock.name.bytes());
    push_bound(&mut line, b"short", u64::from(clock.rate.short()), b"ppb");
    push_bound(&mut line, b"long", u64::from(clock.rate.long()), b"ppb");
    push_bound(&mut line, b"early", clock.early.get(), b"ns");
    push_bound(&mut line, b"late", clock.late.get(), b"ns");
    line
}
