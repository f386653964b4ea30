// What checking a certificate answers.
use problem_model::Bound;

/// A part of a certificate.
#[derive(Clone, Copy, Debug, PartialEq, Eq)]
pub enum Part {
    /// A cycle of bounds.
    Cycle,
    /// An execution by itself.
    Run,
    /// The upper end of an interval.
    Upper,
    /// The lower end of an interval.
    Lower,
}

/// Why a part does not show what it should. Steps count from 1; weights, sums and differences are in units of 1e-9 ns.
#[derive(Clone, Copy, Debug, PartialEq, Eq)]
pub enum Reason {
    /// A cycle of no steps.
    Empty,
    /// The step has another weight than its bound.
    Weight(u32),
    /// The step does not join: in a cycle to the step behind it, in a path to the one before it or to the second event.
    /// One more than the steps stands for a path that does not end at the first event.
    Join(u32),
    /// The sum of the steps' weights, which is not negative in a cycle, or not what the end of the interval asks for. It
    /// is below 2^119 in absolute value.
    Sum(i128),
    /// The first bound of the short list that the execution breaks, its weight, which is below 2^93 in absolute value,
    /// and what `x_to - x_from` is, at most 2^121.
    Broken {
        bound: Bound,
        weight: i128,
        difference: i128,
    },
    /// By the execution the second event is so much later than the first, which is not the end of the interval. It is at
    /// most 2^121 in absolute value.
    Difference(i128),
    /// The clock that should be inside a cut is not.
    Home,
    /// The clock that should be outside a cut is inside.
    Away,
    /// The first bound of the follows or the messages of the short list that leads from a clock inside to one outside.
    Leaves(Bound),
}

/// Whether a certificate shows what it should, or the first reason why not.
#[derive(Clone, Copy, Debug, PartialEq, Eq)]
pub enum Answer {
    /// It does.
    Yes,
    /// It does not: this is wrong with this part, and nothing that comes earlier.
    No { part: Part, reason: Reason },
}
