// The two ends of an interval: what differs between them.
ghost use Rattle.std.specs.Prelude.{◌≡◌, ◌∷◌, [], true, false};
ghost use Rattle.atto.specs.NsText.{ns_text};
ghost use Rattle.line_format.specs.Words.{line_of};
ghost use Rattle.problem_model.specs.Numbers.{IsUpTo};
ghost use Rattle.problem_model.specs.Limits.{path_bits};
ghost use Rattle.attain.specs.Written.{next_node};
ghost use Rattle.attain.specs.Sides.{is_upper, part, unlimited, signed, IsAsFar};

use ports::fixed_line::{Line, limit_line, unlimited_line};
use row_pool::Cell;
use sync_graph::Arc;

/// Which end of an interval.
#[derive(Clone, Copy, Debug, PartialEq, Eq)]
pub enum Side {
    /// The greatest difference. Its row is one from a node.
    Upper,
    /// The least difference. Its row is one towards a node.
    Lower,
}

impl Side {
    // Whether it is the upper end.
    pub fn is_upper(self) -> bool
        ensures { result ≡ is_upper self }
    {
        match self {
            Side::Upper => true,
            Side::Lower => false,
        }
    }

    // The greatest or least difference that the distance in a cell is.
    pub fn difference(self, cell: &Cell) -> i128
        requires { IsUpTo path_bits cell.now.value }
        ensures { result ≡ signed self cell.now.value }
    {
        match self {
            Side::Upper => cell.value,
            Side::Lower => -cell.value,
        }
    }

    // Whether the first number is at least as far out as the second.
    pub fn is_as_far(self, a: i128, b: i128) -> bool
        ensures far { result ≡ true → IsAsFar self a b }
        ensures near { result ≡ false → IsAsFar self b a }
    {
        match self {
            Side::Upper => a >= b,
            Side::Lower => a <= b,
        }
    }

    // The node at which parents go on behind an arc.
    pub fn next_node(self, arc: &Arc) -> u32
        ensures { result ≡ next_node (is_upper self) arc.now }
    {
        match self {
            Side::Upper => arc.from,
            Side::Lower => arc.to,
        }
    }

    // The first line of the part where there is a limit.
    pub fn limit_line(self, value: i128) -> Line
        ensures { result.items ≡ line_of (part self ∷ ns_text value ∷ []) }
    {
        match self {
            Side::Upper => limit_line(b"upper", value),
            Side::Lower => limit_line(b"lower", value),
        }
    }

    // The first line of the part where there is none.
    pub fn unlimited_line(self) -> Line
        ensures { result.items ≡ line_of (part self ∷ unlimited self ∷ []) }
    {
        match self {
            Side::Upper => unlimited_line(b"upper", b"+inf"),
            Side::Lower => unlimited_line(b"lower", b"-inf"),
        }
    }
}
