// The kinds of bounds and of ends.

/// The two bounds over a span, or on a delay.
#[derive(Clone, Copy, Debug, PartialEq, Eq)]
pub enum Extreme {
    /// The greatest.
    Most,
    /// The least.
    Least,
}

/// The two bounds between an event and the reading of its stamp.
#[derive(Clone, Copy, Debug, PartialEq, Eq)]
pub enum StampBound {
    /// How long the event may come behind the reading.
    Late,
    /// How long the event may come before the reading.
    Early,
}

/// The two ends of an interval.
#[derive(Clone, Copy, Debug, PartialEq, Eq)]
pub enum Side {
    Upper,
    Lower,
}
