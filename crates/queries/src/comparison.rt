// What is asked of two events.

/// What is asked of the difference of two real times.
#[derive(Clone, Copy, Debug, PartialEq, Eq)]
pub enum Asked {
    /// Its least and its greatest value over all executions.
    Interval,
    /// Its sign in every execution.
    Order,
}

/// A question about two events, each by its node.
#[derive(Clone, Copy, Debug, PartialEq, Eq)]
pub struct Comparison {
    /// What is asked.
    pub asked: Asked,
    /// The event that the difference is taken from.
    pub first: u32,
    /// The event that it leads to.
    pub second: u32,
}
