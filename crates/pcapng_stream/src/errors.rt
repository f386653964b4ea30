// Why a piece of a capture in blocks is refused.
ghost use Rattle.std.specs.Prelude.{◌≡◌};
ghost use Rattle.pcapng_stream.specs.declared.errors.PcapngError.TheVariants.{Memory};

use std::alloc::{AllocError, AllocFailed};

/// Why a capture in blocks is refused.
#[derive(Clone, Copy, Debug, PartialEq, Eq, thiserror::Error)]
pub enum PcapngError {
    /// The first four bytes begin no section header.
    #[error("no section header of a pcapng capture")]
    Magic,
    /// The major version of a section header is another than 1.
    #[error("a version other than 1 of pcapng")]
    Version,
    /// The block at this place, in bytes from the start of the capture, says that more than 262,144 bytes were captured.
    #[error("a packet of more than 262144 bytes at byte {0}")]
    Length(u32),
    /// The block at this place, in bytes from the start of the capture, is malformed: its length is under 12, no multiple
    /// of four, or over 2^24 in a section header, an interface description or an enhanced packet, differs from that at its
    /// end, or is too small for its kind; it is a section header with another byte-order magic; it is an interface whose
    /// options are cut or have an offset of other than eight bytes, or the 65,537th of its section; or it is a packet of an
    /// interface that its section has not, whose bytes pass the block, or whose stamp is below 0 or is 2^62 ns or more.
    #[error("a malformed block at byte {0}")]
    Block(u32),
    /// Memory ran out.
    #[error("out of memory")]
    Memory,
}

impl From<AllocError> for PcapngError {
    ghost from_gives = { λ _ e. e ≡ Memory };

    fn from(_: AllocError) -> PcapngError {
        PcapngError::Memory
    }
}

impl<T: Drop> From<AllocFailed<T>> for PcapngError {
    ghost from_gives = { λ _ e. e ≡ Memory };

    fn from(_: AllocFailed<T>) -> PcapngError {
        PcapngError::Memory
    }
}
