//! The sums and differences by which arcs are judged and nodes are ordered, in units or any other whole number.

ghost use Rattle.std.specs.Prelude.{◌≡◌, ◌+ℤ◌, ◌-ℤ◌};
ghost use Rattle.problem_model.specs.Numbers.{IsUpTo};
ghost use Rattle.problem_model.specs.Limits.{term_bits};

/// How far the value at an arc's tail must rise for the arc to be obeyed: `to - weight - from`, at most 0 where it is.
/// All three are at most 2^124 in absolute value.
pub fn shortfall(from: i128, to: i128, weight: i128) -> i128
    requires from { IsUpTo term_bits from }
    requires to { IsUpTo term_bits to }
    requires weight { IsUpTo term_bits weight }
    ensures { result ≡ to -ℤ weight -ℤ from }
{
    to - weight - from
}

/// The distance less the potential of the node: the reduced cost of its path, if the path began at potential 0. Both
/// are at most 2^124 in absolute value.
pub fn reduced_distance(distance: i128, potential: i128) -> i128
    requires distance { IsUpTo term_bits distance }
    requires potential { IsUpTo term_bits potential }
    ensures { result ≡ distance -ℤ potential }
{
    distance - potential
}

/// The distance at the end of one more arc. Both are at most 2^124 in absolute value.
pub fn longer(distance: i128, weight: i128) -> i128
    requires distance { IsUpTo term_bits distance }
    requires weight { IsUpTo term_bits weight }
    ensures { result ≡ distance +ℤ weight }
{
    distance + weight
}
