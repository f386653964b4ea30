// Why a piece of a capture is refused.
ghost use Rattle.std.specs.Prelude.{◌≡◌};
ghost use Rattle.pcap_stream.specs.declared.errors.PcapError.TheVariants.{Memory};

use std::alloc::{AllocError, AllocFailed};

/// Why a capture is refused.
#[derive(Clone, Copy, Debug, PartialEq, Eq, thiserror::Error)]
pub enum PcapError {
    /// The first four bytes are none of the four magic numbers, or no piece of one.
    #[error("no magic number of a classic pcap capture")]
    Magic,
    /// The version is another than 2.4.
    #[error("a version other than 2.4")]
    Version,
    /// At this place, in bytes from the start of the capture, the 16 bytes of a record's head begin with the magic
    /// number and the version of the capture itself: a second file header, as where two captures were put one behind
    /// the other.
    #[error("a second file header at byte {0}")]
    Header(u32),
    /// The record at this place, in bytes from the start of the capture, says that more than 262,144 bytes were captured,
    /// and is no second file header.
    #[error("a record of more than 262144 bytes at byte {0}")]
    Length(u32),
    /// Memory ran out.
    #[error("out of memory")]
    Memory,
}

impl From<AllocError> for PcapError {
    ghost from_gives = { λ _ e. e ≡ Memory };

    fn from(_: AllocError) -> PcapError {
        PcapError::Memory
    }
}

impl<T: Drop> From<AllocFailed<T>> for PcapError {
    ghost from_gives = { λ _ e. e ≡ Memory };

    fn from(_: AllocFailed<T>) -> PcapError {
        PcapError::Memory
    }
}
