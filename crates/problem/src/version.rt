// The versions of problem texts.

/// A version of problem texts, which their first line tells.
#[derive(Clone, Copy, Debug, PartialEq, Eq)]
pub enum Version {
    /// `problem 1`: no clock follows another.
    First,
    /// `problem 2`: there is a line for each follow, and at least one.
    Second,
    /// `problem 3`: each event has bounds of its own, and there is at least one; there is a line for each follow.
    Third,
}
