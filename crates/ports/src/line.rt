// Lines, and why none is given.
use arrayvec::ArrayVec;

/// The most bytes of a line that is given: what names and paths need, in memory of a fixed size.
pub const MOST_LINE: usize = 4_096;

/// The bytes of a line without its line feed.
pub type LineText = ArrayVec<u8, MOST_LINE>;

/// What a call of `LineReader::next_line` found.
#[derive(Clone, Copy, Debug, PartialEq, Eq)]
pub enum Line {
    /// A line of at most 4,096 bytes.
    Text,
    /// A line of more than 4,096 bytes. All of it is skipped, its line feed too.
    TooLong,
    /// Nothing is left.
    End,
}

/// Why no line was given.
#[derive(Clone, Copy, Debug, PartialEq, Eq, thiserror::Error)]
pub enum LineFault {
    /// The source has failed. Its count of faults rose, or stands at its last value.
    #[error("the source has failed")]
    Read,
    /// More than 2^30 bytes came.
    #[error("more than 2^30 bytes")]
    Limit,
}
