// Why a piece is refused.
ghost use Rattle.std.specs.Prelude.{◌≡◌};
ghost use Rattle.event_log.specs.declared.errors.LogError.TheVariants.{Memory};

use std::alloc::{AllocError, AllocFailed};

/// Why a piece of an event log is refused, with the number of its first record that is no row. Records are counted from
/// 1, and an empty line is none. Of a record's causes the first in this order counts.
#[derive(Clone, Copy, Debug, PartialEq, Eq, thiserror::Error)]
pub enum LogError {
    /// The record has not four fields.
    #[error("row {0} has not four fields")]
    Fields(u32),
    /// The stamp is not 1 to 19 digits, or is 2^62 or more.
    #[error("row {0} has no stamp below 2^62")]
    Stamp(u32),
    /// The kind is no `send`, `receive` or `local`, the message of one of the first two is empty, or that of the third is
    /// not.
    #[error("row {0} has no kind, or no message where there is one to be, or one where there is none to be")]
    Kind(u32),
    /// The message has more than 64 bytes or one outside 33 to 126, or the text more than 200 or one outside 32 to 126.
    #[error("row {0} has a text that is too long, or a byte that may not stand there")]
    Text(u32),
    /// Memory ran out.
    #[error("out of memory")]
    Memory,
}

impl From<AllocError> for LogError {
    ghost from_gives = { λ _ e. e ≡ Memory };

    fn from(_: AllocError) -> LogError {
        LogError::Memory
    }
}

impl<T: Drop> From<AllocFailed<T>> for LogError {
    ghost from_gives = { λ _ e. e ≡ Memory };

    fn from(_: AllocFailed<T>) -> LogError {
        LogError::Memory
    }
}
