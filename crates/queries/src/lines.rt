// The lines that answer questions.
ghost use Rattle.std.specs.Prelude.{◌≡◌, ◌≤◌, ◌+◌, ◌++◌, ◌∷◌, [], ℕ, List, length, codes};
ghost use Rattle.line_format.specs.Words.{words, line_of};
ghost use Rattle.problem_model.specs.declared.items.Node.TheVariants as nodes;
ghost use Rattle.problem_model.specs.Problem.{ProblemLists};
ghost use Rattle.intervals.specs.Ends.{FitsPair};
ghost use Rattle.intervals.specs.Executions.{IsPairOf};
ghost use Rattle.queries.specs.Words.{end_word, order_word};
ghost use Rattle.queries.specs.Replies.{IsComparisonLine};

use crate::comparison::Asked;
use intervals::{End, Ends, Order, ends_from, order_of};
use ports::fixed_line::{Line, first_word, push_ns, push_word};
use row_pool::Pair;

// Appends the word of an end.
fn push_end(line: &mut Line, end: End, unlimited: &[u8])
    requires short { length unlimited.now ≤ 48 }
    requires room { length line.old.items + 49 ≤ 256 }
    ensures appended { (first : List ℕ) (ws : List (List ℕ)) → line.old.items ≡ words (first ∷ ws) → line.new.items ≡ words (first ∷ ws ++ end_word unlimited.now end ∷ []) }
    ensures grown { length line.new.items ≤ length line.old.items + 49 }
{
    match end {
        End::At(units) => push_ns(line, units),
        End::Unbounded => push_word(line, unlimited),
    }
}

/// The line of both ends, in units of 1e-9 ns, behind its first word of at most 48 bytes.
pub fn ends_line(first: &[u8], ends: &Ends) -> Line
    requires { length first.now ≤ 48 }
    ensures { result.items ≡ line_of (first.now ∷ end_word (codes "-inf") ends.now.least ∷ end_word (codes "+inf") ends.now.greatest ∷ []) }
{
    let mut line = first_word(first);
    push_end(&mut line, ends.least, b"-inf");
    push_end(&mut line, ends.greatest, b"+inf");
    line.push(b'\n');
    line
}

// The line of an interval.
fn interval_line(ends: &Ends) -> Line
    ensures { result.items ≡ line_of (codes "interval" ∷ end_word (codes "-inf") ends.now.least ∷ end_word (codes "+inf") ends.now.greatest ∷ []) }
{
    ends_line(b"interval", ends)
}

/// The line of the time of an event by a clock, by its ends in units of 1e-9 ns.
pub fn time_line(ends: &Ends) -> Line
    ensures { result.items ≡ line_of (codes "time" ∷ end_word (codes "-inf") ends.now.least ∷ end_word (codes "+inf") ends.now.greatest ∷ []) }
{
    ends_line(b"time", ends)
}

/// The word of an order.
pub fn order_word(order: Order) -> &'static [u8]
    ensures word { result.now ≡ order_word order }
    ensures short { length result.now ≤ 48 }
{
    match order {
        Order::Before => b"before",
        Order::After => b"after",
        Order::Same => b"same",
        Order::Undecided => b"open",
    }
}

// The line of an order.
fn order_line(order: Order) -> Line
    ensures { result.items ≡ line_of (codes "order" ∷ order_word order ∷ []) }
{
    let mut line = first_word(b"order");
    push_word(&mut line, order_word(order));
    line.push(b'\n');
    line
}

/// The line that answers what is asked of two events, by their greatest differences in both directions, in units of
/// 1e-9 ns.
pub fn line_for(asked: Asked, pair: Pair) -> Line
    requires { FitsPair pair }
    ensures { (p : ProblemLists) (first second : ℕ) → IsPairOf p (nodes.Event first) (nodes.Event second) pair → IsComparisonLine asked p first second result.items }
{
    let ends = ends_from(pair);
    match asked {
        Asked::Interval => interval_line(&ends),
        Asked::Order => order_line(order_of(&ends)),
    }
}
