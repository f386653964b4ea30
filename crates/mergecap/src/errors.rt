// Why packets can't be arranged.
ghost use Rattle.std.specs.Prelude.{◌≡◌};
ghost use Rattle.mergecap.specs.declared.errors.ArrangeError.TheVariants.{Memory};

use std::alloc::AllocError;

/// Why packets can't stand in one capture. Of two causes the first in this order counts.
#[derive(Clone, Copy, Debug, PartialEq, Eq, thiserror::Error)]
pub enum ArrangeError {
    /// Two packets have different link types, and a classic capture has one for all.
    #[error("packets of two link types")]
    Links,
    /// A time has no record. It is 2^32 s or more, and a record has 32 bits for its seconds; or it is 2,712,812,621 s and
    /// 262,146 ns, rounded down to whole ns, at which the head of a record begins as a file header does.
    #[error("a time that no record of a capture can have")]
    Range,
    /// Memory ran out.
    #[error("out of memory")]
    Memory,
}

impl From<AllocError> for ArrangeError {
    ghost from_gives = { λ _ e. e ≡ Memory };

    fn from(_: AllocError) -> ArrangeError {
        ArrangeError::Memory
    }
}
