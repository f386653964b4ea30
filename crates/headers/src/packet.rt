// A packet of the internet protocol, of either version.
ghost use Rattle.std.specs.Prelude.{◌≡◌, ◌<◌, length, Some, None, IfOk, IfErr, OnOk};
ghost use Rattle.headers.specs.Bytes.{version};
ghost use Rattle.headers.specs.Checks.{first_reason};
ghost use Rattle.headers.specs.Frame.{carries};
ghost use Rattle.headers.specs.Inside.{IsRead};
ghost use Rattle.headers.specs.Packet.{packet_checks, parts_of};

use crate::link::{Carried, Version};
use crate::{Network, Reason, Wanted, ipv4, ipv6};

// Where a fragment stands.
#[derive(Clone, Copy)]
pub(crate) struct Place {
    // The identification of what it is a fragment of.
    pub(crate) id: u32,
    // Its place in that, by eight bytes.
    pub(crate) offset: u16,
}

// What follows a header.
#[derive(Clone, Copy)]
pub(crate) struct Inner<'a> {
    // The number of its protocol in IANA's list.
    pub(crate) protocol: u8,
    // How many bytes it has.
    pub(crate) length: u16,
    // Those of them that were captured.
    pub(crate) carried: &'a [u8],
    // Where it stands in what it is a fragment of, if it is one.
    pub(crate) cut: Option<Place>,
}

// A packet, of which the end may not have been captured.
#[derive(Clone, Copy)]
pub(crate) struct Packet<'a> {
    pub(crate) network: Network,
    // What stands behind the headers of the internet protocol.
    pub(crate) inner: Inner<'a>,
}

// The version that the first byte of a packet gives.
pub(crate) fn version_in(packet: &[u8]) -> u8
    requires { 0 < length packet.now }
    ensures { result ≡ version packet.now }
{
    packet[0] >> 4
}

// Reads the headers of a packet.
pub(crate) fn read_packet(carried: Carried<'_>, wanted: Wanted) -> Result<Packet<'_>, Reason>
    ensures lawful { OnOk result (first_reason (packet_checks (carries carried.entry) wanted) ≡ None) }
    ensures read { IfOk result (λ packet. IsRead (parts_of (carries carried.entry) wanted) packet) }
    ensures refused { IfErr result (λ reason. first_reason (packet_checks (carries carried.entry) wanted) ≡ Some reason) }
{
    match carried.version {
        Version::Four => ipv4::read_packet(carried.bytes, wanted.fragments),
        Version::Six => ipv6::read_packet(carried.bytes, wanted.fragments),
    }
}
