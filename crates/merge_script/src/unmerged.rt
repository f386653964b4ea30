// Why packets are not merged.
ghost use Rattle.std.specs.Prelude.{◌≡◌};
ghost use Rattle.merge_script.specs.declared.unmerged.Unmerged.TheVariants.{Memory};

use replies::RefusedText;
use std::alloc::AllocError;

/// Why the packets of a script are not merged.
#[derive(Debug, Drop)]
pub enum Unmerged {
    /// A line is refused, with this reply, which has no line feed here.
    Refused(RefusedText),
    /// Behind a line the packets have more than 2^30 bytes.
    Size,
    /// No execution obeys the bounds of what was added.
    Inconsistent,
    /// Two packets have different link types.
    Links,
    /// The time of a packet has no record: it is 2^32 s or more, or the one at which a record would begin as the header of
    /// the merged capture does (`mergecap::ArrangeError::Range`).
    Range,
    /// The script could not be read on.
    ReadFault,
    /// The script has more than 2^30 bytes.
    Limit,
    /// Memory ran out.
    Memory,
}

impl From<AllocError> for Unmerged {
    ghost from_gives = { λ _ why. why ≡ Memory };

    fn from(_: AllocError) -> Unmerged {
        Unmerged::Memory
    }
}
