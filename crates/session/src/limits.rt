// How much a session takes.

/// How many bytes a piece has at most. It is held in memory whole, beside what is read of it.
pub(crate) const MOST_PIECE: u64 = 1 << 28;

/// How many bytes are accepted under a label at most, so that each place in a capture is a number of 32 bits.
pub(crate) const MOST_OF_LABEL: u64 = 1 << 30;
