// Where dates begin.

/// The first event of a merge: its time and its date.
#[derive(Clone, Copy, Debug, PartialEq, Eq)]
pub struct Start {
    /// Its time in the earliest execution, in units of 1e-9 ns.
    pub time: i128,
    /// Its date, in units of 1e-9 ns.
    pub date: i128,
}
