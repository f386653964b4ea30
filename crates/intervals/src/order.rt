// The order of two real times.
ghost use Rattle.std.specs.Prelude.{IsTrue, ◌↔◌};
ghost use Rattle.intervals.specs.Orders.{IsAbove, IsBelow, IsZero, IsOrder};

use crate::ends::{End, Ends};

/// How the real times of two events lie, in every execution.
#[derive(Clone, Copy, Debug, PartialEq, Eq)]
pub enum Order {
    /// The first comes before the second.
    Before,
    /// The first comes after the second.
    After,
    /// Both come at the same time.
    Same,
    /// None of these is so in every execution.
    Undecided,
}

// Whether there is an end, above 0.
fn is_above(end: End) -> bool
    ensures { IsTrue result ↔ IsAbove end }
{
    match end {
        End::At(units) => units > 0,
        End::Unbounded => false,
    }
}

// Whether there is an end, below 0.
fn is_below(end: End) -> bool
    ensures { IsTrue result ↔ IsBelow end }
{
    match end {
        End::At(units) => units < 0,
        End::Unbounded => false,
    }
}

// Whether there is an end, at 0.
fn is_zero(end: End) -> bool
    ensures { IsTrue result ↔ IsZero end }
{
    match end {
        End::At(units) => units == 0,
        End::Unbounded => false,
    }
}

/// The order of events p and q, of the ends of `x_q - x_p`: p comes before q exactly where the least is above 0, after it
/// exactly where the greatest is below 0, at the same time exactly where both are 0. Else it is undecided. At ends that
/// cross, of which no interval has any, it is `Before` or `After`.
pub fn order_of(e: &Ends) -> Order
    ensures { IsOrder e.now result }
{
    if is_above(e.least) {
        Order::Before
    } else if is_below(e.greatest) {
        Order::After
    } else if is_zero(e.least) && is_zero(e.greatest) {
        Order::Same
    } else {
        Order::Undecided
    }
}
