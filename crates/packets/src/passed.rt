// Packets that are passed over.
ghost use Rattle.std.specs.Prelude.{◌≡◌};
ghost use Rattle.packets.specs.Passed.{none_passed};

/// How many packets of a capture are passed over, by cause: records that Wireshark numbers as frames, and that are not
/// read. Those of pcapng (draft-ietf-opsawg-pcapng, PCAP Next Generation Capture File Format) are blocks that are
/// skipped. A classic capture has none of them.
#[derive(Clone, Copy, Debug, PartialEq, Eq)]
pub struct Passed {
    /// Simple packet blocks (type 3), which have no time.
    pub simple: u32,
    /// Obsolete packet blocks (type 2).
    pub obsolete: u32,
    /// Other records: entries of a systemd journal (type 9), sysdig events (types 0x204, 0x216, 0x221) and custom blocks
    /// (types 0xbad, 0x40000bad).
    pub other: u32,
}

impl Passed {
    /// None at all.
    pub fn none() -> Passed
        ensures { result ≡ none_passed }
    {
        Passed {
            simple: 0,
            obsolete: 0,
            other: 0,
        }
    }
}
