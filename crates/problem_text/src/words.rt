// Lines that are composed word by word.
ghost use Rattle.std.specs.Prelude.{◌≡◌, ◌≤◌, ◌+◌, ◌++◌, ◌∷◌, [], ℕ, List, length};
ghost use Rattle.line_format.specs.Words.{words, line_of};
ghost use Rattle.std.specs.Prelude.{codes};
ghost use Rattle.atto.specs.Decimal.{decimal_of};
ghost use Rattle.problem_model.specs.ProblemText.{bound_words, clock_line, most_word};
ghost use Rattle.problem.specs.Line.{line_words};
ghost use Rattle.problem.specs.Line.Line.{FollowLine, MessageLine};

use atto::Nano;
use ports::fixed_line::{Line, first_word, push_decimal, push_word};
use problem_model::{Clock, Name, StampBounds};

// Appends a name behind a space.
fn push_name(line: &mut Line, name: &Name)
    requires { length line.old.items + 49 ≤ 256 }
    ensures appended { (first : List ℕ) (ws : List (List ℕ)) → line.old.items ≡ words (first ∷ ws) → line.new.items ≡ words (first ∷ ws ++ name.now ∷ []) }
    ensures grown { length line.new.items ≤ length line.old.items + 49 }
{
    push_word(line, name.bytes());
}

// Appends the greatest delay, or the word for none, behind a space.
fn push_most(line: &mut Line, most: Option<Nano>)
    requires { length line.old.items + 49 ≤ 256 }
    ensures appended { (first : List ℕ) (ws : List (List ℕ)) → line.old.items ≡ words (first ∷ ws) → line.new.items ≡ words (first ∷ ws ++ most_word most ∷ []) }
    ensures grown { length line.new.items ≤ length line.old.items + 49 }
{
    match most {
        Some(most) => push_decimal(line, most.get()),
        None => push_word(line, b"none"),
    }
}

// Appends an event's own bounds, if it has any, each behind a space.
fn push_bounds(line: &mut Line, bounds: Option<StampBounds>)
    requires { length line.old.items + 98 ≤ 256 }
    ensures appended { (first : List ℕ) (ws : List (List ℕ)) → line.old.items ≡ words (first ∷ ws) → line.new.items ≡ words (first ∷ ws ++ bound_words bounds) }
    ensures grown { length line.new.items ≤ length line.old.items + 98 }
{
    match bounds {
        Some(own) => {
            push_decimal(line, own.early.get());
            push_decimal(line, own.late.get());
        }
        None => {}
    }
}

/// The line of a clock.
pub fn clock_line(c: &Clock) -> Line
    ensures { result.items ≡ clock_line c.now }
{
    let mut line = first_word(b"clock");
    push_name(&mut line, &c.name);
    push_decimal(&mut line, u64::from(c.rate.short()));
    push_decimal(&mut line, u64::from(c.rate.long()));
    push_decimal(&mut line, c.early.get());
    push_decimal(&mut line, c.late.get());
    line.push(b'\n');
    line
}

/// The line of a follow, by the names of its clocks and its gap.
pub fn follow_line(earlier: &Name, later: &Name, gap: Nano) -> Line
    ensures { result.items ≡ line_of (line_words (FollowLine earlier.now later.now gap)) }
{
    let mut line = first_word(b"follow");
    push_name(&mut line, earlier);
    push_name(&mut line, later);
    push_decimal(&mut line, gap.get());
    line.push(b'\n');
    line
}

/// The line of an event, by its name, the name of its clock, its stamp, and its own bounds, if it has any.
pub fn event_line(name: &Name, clock: &Name, stamp: Nano, bounds: Option<StampBounds>) -> Line
    ensures { result.items ≡ line_of (codes "event" ∷ name.now ∷ clock.now ∷ decimal_of stamp ∷ bound_words bounds) }
{
    let mut line = first_word(b"event");
    push_name(&mut line, name);
    push_name(&mut line, clock);
    push_decimal(&mut line, stamp.get());
    push_bounds(&mut line, bounds);
    line.push(b'\n');
    line
}

/// The line of a message, by the names of its events and its delays.
pub fn message_line(send: &Name, receive: &Name, least: Nano, most: Option<Nano>) -> Line
    ensures { result.items ≡ line_of (line_words (MessageLine send.now receive.now least most)) }
{
    let mut line = first_word(b"message");
    push_name(&mut line, send);
    push_name(&mut line, receive);
    push_decimal(&mut line, least.get());
    push_most(&mut line, most);
    line.push(b'\n');
    line
}
