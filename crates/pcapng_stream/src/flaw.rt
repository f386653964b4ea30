// What is wrong with a block.
ghost use Rattle.std.specs.Prelude.{◌≡◌};
ghost use Rattle.pcapng_stream.specs.Inside.{fault_at};

use crate::PcapngError;

/// What is wrong with a block.
#[derive(Clone, Copy, Debug, PartialEq, Eq)]
pub enum Flaw {
    /// Its lengths, its magic number, its options, its interface or its stamp cannot be.
    Malformed,
    /// A section header of another major version than 1.
    OtherVersion,
    /// More than 262,144 bytes of a packet.
    TooLong,
}

impl Flaw {
    /// Why a capture is refused where the block at this place has this flaw.
    pub(crate) fn at(self, place: u32) -> PcapngError
        ensures { result ≡ fault_at place self }
    {
        match self {
            Flaw::Malformed => PcapngError::Block(place),
            Flaw::OtherVersion => PcapngError::Version,
            Flaw::TooLong => PcapngError::Length(place),
        }
    }
}
