// Why a piece of a capture is refused.
ghost use Rattle.std.specs.Prelude.{◌≡◌};
ghost use Rattle.captures.specs.declared.errors.CaptureError.TheVariants.{Memory};

use std::alloc::{AllocError, AllocFailed};

/// Why a capture is refused.
#[derive(Clone, Copy, Debug, PartialEq, Eq, thiserror::Error)]
pub enum CaptureError {
    /// The first bytes begin no capture.
    #[error("no magic number of a capture")]
    Magic,
    /// The capture, or a section of it, is of a version that is not read.
    #[error("a version that is not read")]
    Version,
    /// At this place, in bytes from the start of a classic capture, a second file header begins: the 16 bytes of a record's
    /// head begin with the magic number and the version of the capture itself.
    #[error("a second file header at byte {0}")]
    Header(u32),
    /// The record or block at this place, in bytes from the start of the capture, says that more than 262,144 bytes were
    /// captured.
    #[error("a packet of more than 262144 bytes at byte {0}")]
    Length(u32),
    /// The block at this place, in bytes from the start of the capture, is malformed.
    #[error("a malformed block at byte {0}")]
    Block(u32),
    /// Memory ran out.
    #[error("out of memory")]
    Memory,
}

impl From<AllocError> for CaptureError {
    ghost from_gives = { λ _ e. e ≡ Memory };

    fn from(_: AllocError) -> CaptureError {
        CaptureError::Memory
    }
}

impl<T: Drop> From<AllocFailed<T>> for CaptureError {
    ghost from_gives = { λ _ e. e ≡ Memory };

    fn from(_: AllocFailed<T>) -> CaptureError {
        CaptureError::Memory
    }
}
