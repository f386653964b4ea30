// The lines that the program prints. They are composed in a fixed buffer, and take no memory.
ghost use Rattle.std.specs.Prelude.{◌≡◌, ◌≤◌, ◌+◌, ◌∷◌, [], ◌++◌, ℕ, List, length, codes};
ghost use Rattle.atto.specs.Decimal.{decimal_of};
ghost use Rattle.atto.specs.NsText.{ns_text};
ghost use Rattle.line_format.specs.Words.{words};
ghost use Rattle.ports.specs.Room.{HasRoomBehind};
ghost use Rattle.problem_model.specs.BoundText.{bound_words, broken_line};
ghost use Rattle.problem.specs.Listing.{listing_of};
ghost use Rattle.cert.specs.Listed.{HasNames};
ghost use Rattle.problem_commands.specs.Refusal.{refused_text_line};
ghost use Rattle.queries.specs.Words.{end_word, order_word};
ghost use Rattle.problem_commands.specs.Intervals.{interval_line};
ghost use Rattle.problem_commands.specs.Verify.{part_word, broken_words, reason_words, no_line, NamesReason};

use crate::refusal::Refusal;
use atto::{NsText, write_ns};
use cert::push_bound;
use cert_check::{Part, Reason};
use intervals::{End, Ends, Order};
use ports::fixed_line::{Line, first_word, push_decimal, push_ns, push_word};
use problem::Problem;
use problem_model::Bound;
use queries::order_word;

/// The line that names a broken bound, its weight and the difference found, which are given in units of 1e-9 ns and
/// printed as ns texts.
pub fn broken_line(p: &Problem, bound: &Bound, weight: i128, difference: i128) -> Line
    requires { HasNames (listing_of p.now) bound.now }
    ensures { result.items ≡ broken_line p.now bound.now weight difference }
{
    let mut line = first_word(b"broken");
    push_bound(&mut line, p, bound);
    push_ns(&mut line, weight);
    push_ns(&mut line, difference);
    line.push(b'\n');
    line
}

/// The line that says why a text is refused: the kind of text, the number of the cause, and the line.
pub fn refusal_line(kind: &[u8], refusal: Refusal) -> Line
    requires { length kind.now ≤ 48 }
    ensures { result.items ≡ refused_text_line kind.now refusal }
{
    let mut line = first_word(kind);
    push_decimal(&mut line, u64::from(refusal.number()));
    push_decimal(&mut line, refusal.place());
    line.push(b'\n');
    line
}

// The line that has the word of the end below alone.
fn least_word(end: End) -> Line
    ensures word { result.items ≡ end_word (codes "-inf") end }
    ensures short { length result.items ≤ 48 }
{
    match end {
        End::At(units) => {
            let mut text = NsText::new();
            write_ns(units, &mut text);
            first_word(text.as_slice())
        }
        End::Unbounded => first_word(b"-inf"),
    }
}

// Appends the word of the end above.
fn push_greatest(line: &mut Line, end: End)
    requires { HasRoomBehind line.old.items 49 }
    ensures appended { (first : List ℕ) (ws : List (List ℕ)) → line.old.items ≡ words (first ∷ ws) → line.new.items ≡ words (first ∷ ws ++ end_word (codes "+inf") end ∷ []) }
    ensures grown { length line.new.items ≤ length line.old.items + 49 }
{
    match end {
        End::At(units) => push_ns(line, units),
        End::Unbounded => push_word(line, b"+inf"),
    }
}

// Appends the word of an order.
fn push_order(line: &mut Line, order: Order)
    requires { HasRoomBehind line.old.items 49 }
    ensures appended { (first : List ℕ) (ws : List (List ℕ)) → line.old.items ≡ words (first ∷ ws) → line.new.items ≡ words (first ∷ ws ++ order_word order ∷ []) }
    ensures grown { length line.new.items ≤ length line.old.items + 49 }
{
    push_word(line, order_word(order));
}

/// The line of an interval, whose ends are given in units of 1e-9 ns and printed as ns texts, and of an order.
pub fn interval_line(ends: &Ends, order: Order) -> Line
    ensures { result.items ≡ interval_line ends.now order }
{
    let mut line = least_word(ends.least);
    push_greatest(&mut line, ends.greatest);
    push_order(&mut line, order);
    line.push(b'\n');
    line
}

// The word of a part.
fn part_word(part: Part) -> &'static [u8]
    ensures word { result.now ≡ part_word part }
    ensures short { length result.now ≤ 48 }
{
    match part {
        Part::Cycle => b"cycle",
        Part::Run => b"run",
        Part::Upper => b"upper",
        Part::Lower => b"lower",
    }
}

// Appends a word and the number of a step.
fn push_step(line: &mut Line, word: &[u8], step: u32)
    requires word { length word.now ≤ 48 }
    requires room { HasRoomBehind line.old.items 98 }
    ensures appended { (first : List ℕ) (ws : List (List ℕ)) → line.old.items ≡ words (first ∷ ws) → line.new.items ≡ words (first ∷ ws ++ word.now ∷ decimal_of step ∷ []) }
    ensures grown { length line.new.items ≤ length line.old.items + 98 }
{
    push_word(line, word);
    push_decimal(line, u64::from(step));
}

// Appends a word and a number of units.
fn push_units(line: &mut Line, word: &[u8], units: i128)
    requires word { length word.now ≤ 48 }
    requires room { HasRoomBehind line.old.items 98 }
    ensures appended { (first : List ℕ) (ws : List (List ℕ)) → line.old.items ≡ words (first ∷ ws) → line.new.items ≡ words (first ∷ ws ++ word.now ∷ ns_text units ∷ []) }
    ensures grown { length line.new.items ≤ length line.old.items + 98 }
{
    push_word(line, word);
    push_ns(line, units);
}

// Appends what is said of a broken bound.
fn push_broken(line: &mut Line, p: &Problem, bound: &Bound, weight: i128, difference: i128)
    requires named { HasNames (listing_of p.now) bound.now }
    requires room { HasRoomBehind line.old.items 392 }
    ensures appended { (first : List ℕ) (ws : List (List ℕ)) → line.old.items ≡ words (first ∷ ws) → line.new.items ≡ words (first ∷ ws ++ broken_words p.now bound.now weight difference) }
    ensures grown { length line.new.items ≤ length line.old.items + 392 }
{
    push_word(line, b"broken");
    push_bound(line, p, bound);
    push_ns(line, weight);
    push_ns(line, difference);
}

// Appends the word and the words of a bound that leaves a cut.
fn push_leaving(line: &mut Line, p: &Problem, bound: &Bound)
    requires named { HasNames (listing_of p.now) bound.now }
    requires room { HasRoomBehind line.old.items 392 }
    ensures appended { (first : List ℕ) (ws : List (List ℕ)) → line.old.items ≡ words (first ∷ ws) → line.new.items ≡ words (first ∷ ws ++ codes "leaves" ∷ bound_words p.now bound.now) }
    ensures grown { length line.new.items ≤ length line.old.items + 392 }
{
    push_word(line, b"leaves");
    push_bound(line, p, bound);
}

// Appends the words of a reason.
fn push_reason(line: &mut Line, p: &Problem, reason: &Reason)
    requires named { NamesReason p.now reason.now }
    requires room { HasRoomBehind line.old.items 392 }
    ensures appended { (first : List ℕ) (ws : List (List ℕ)) → line.old.items ≡ words (first ∷ ws) → line.new.items ≡ words (first ∷ ws ++ reason_words p.now reason.now) }
    ensures grown { length line.new.items ≤ length line.old.items + 392 }
{
    match *reason {
        Reason::Empty => push_word(line, b"empty"),
        Reason::Weight(step) => push_step(line, b"weight", step),
        Reason::Join(step) => push_step(line, b"join", step),
        Reason::Sum(sum) => push_units(line, b"sum", sum),
        Reason::Broken {
            bound,
            weight,
            difference,
        } => push_broken(line, p, &bound, weight, difference),
        Reason::Difference(difference) => push_units(line, b"difference", difference),
        Reason::Home => push_word(line, b"home"),
        Reason::Away => push_word(line, b"away"),
        Reason::Leaves(bound) => push_leaving(line, p, &bound),
    }
}

/// The line that says what is wrong with which part of a certificate. Sums and differences are given in units of 1e-9 ns
/// and printed as ns texts.
pub fn no_line(p: &Problem, part: Part, reason: &Reason) -> Line
    requires { NamesReason p.now reason.now }
    ensures { result.items ≡ no_line p.now part reason.now }
{
    let mut line = first_word(b"no");
    push_word(&mut line, part_word(part));
    push_reason(&mut line, p, reason);
    line.push(b'\n');
    line
}
