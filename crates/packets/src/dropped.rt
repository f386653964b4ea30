// Packets that were dropped before they were captured.
ghost use Rattle.std.specs.Prelude.{◌≡◌};
ghost use Rattle.packets.specs.Dropped.{dropped_with, none_dropped};

/// How many packets a capture says were dropped before they came into it, since it began, by where they were dropped: the
/// sums over its interfaces. Each is at most 2^64 - 1, which also stands for more. A classic capture tells of none.
#[derive(Clone, Copy, Debug, PartialEq, Eq)]
pub struct Dropped {
    /// By the interfaces (isb_ifdrop).
    pub interface: u64,
    /// By the system (isb_osdrop).
    pub system: u64,
}

impl Dropped {
    /// None at all.
    pub fn none() -> Dropped
        ensures { result ≡ none_dropped }
    {
        Dropped {
            interface: 0,
            system: 0,
        }
    }

    /// These and those.
    pub fn with(self, more: Dropped) -> Dropped
        ensures { result ≡ dropped_with self more }
    {
        Dropped {
            interface: self.interface.saturating_add(more.interface),
            system: self.system.saturating_add(more.system),
        }
    }
}
