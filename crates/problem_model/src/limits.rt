// How large a problem may be.

/// The most clocks of a problem.
pub const MOST_CLOCKS: usize = 65_536;

/// The most events of a problem: with its readings it then has at most 2^25 nodes, so that no sum of weights overflows.
pub const MOST_EVENTS: usize = 1 << 24;

/// The most messages of a problem.
pub const MOST_MESSAGES: usize = 1 << 24;

/// The most steps of a cycle or of a path, so that a sum of the weights of so many bounds is below 2^119 in absolute value.
pub const MOST_STEPS: usize = 1 << 26;
