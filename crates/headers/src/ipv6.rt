// IPv6 packets (RFC 8200).
ghost use Rattle.std.specs.Prelude.{◌≡◌, ◌≤◌, length, Some, None, Ok, Err, IfOk, IfErr, OnOk};
ghost use Rattle.headers.specs.Checks.{first_reason};
ghost use Rattle.headers.specs.Inside.{IsRead, follows};
ghost use Rattle.headers.specs.Ipv6.{behind_header, behind_headers, ipv6_checks, ipv6_packet_of};

use crate::bytes::{address_at, behind, front, half_at};
use crate::extensions::walk;
use crate::packet::{Inner, Packet, version_in};
use crate::{Network, Reason};

// The version of these packets.
pub(crate) const VERSION: u8 = 6;

// The bytes of the header, which has no options.
const HEADER: usize = 40;

// The places of fields in the header.
const PAYLOAD_LENGTH: usize = 4;

const NEXT_HEADER: usize = 6;

const SOURCE: usize = 8;

const TARGET: usize = 24;

// What follows the header.
fn behind_header(packet: &[u8]) -> Inner<'_>
    requires { 40 ≤ length packet.now }
    ensures { follows result ≡ behind_header packet.now }
{
    let length = half_at(packet, PAYLOAD_LENGTH);
    Inner {
        protocol: packet[NEXT_HEADER],
        length,
        carried: front(behind(packet, HEADER), usize::from(length)),
        cut: None,
    }
}

// What stands behind all headers: behind extension headers too, where fragments are wanted.
fn behind_headers(packet: &[u8], fragments: bool) -> Result<Inner<'_>, Reason>
    requires { 40 ≤ length packet.now }
    ensures found { IfOk result (λ inner. behind_headers packet.now fragments ≡ Ok (follows inner)) }
    ensures refused { IfErr result (λ reason. behind_headers packet.now fragments ≡ Err reason) }
{
    let inner = behind_header(packet);
    if fragments { walk(&inner) } else { Ok(inner) }
}

// Reads the headers of a packet.
pub(crate) fn read_packet(bytes: &[u8], fragments: bool) -> Result<Packet<'_>, Reason>
    ensures lawful { OnOk result (first_reason (ipv6_checks bytes.now fragments) ≡ None) }
    ensures read { IfOk result (λ packet. IsRead (ipv6_packet_of bytes.now fragments) packet) }
    ensures refused { IfErr result (λ reason. first_reason (ipv6_checks bytes.now fragments) ≡ Some reason) }
{
    if bytes.len() < HEADER {
        return Err(Reason::Short);
    }
    if version_in(bytes) != VERSION {
        return Err(Reason::Header);
    }
    let inner = behind_headers(bytes, fragments)?;
    Ok(Packet {
        network: Network::V6 {
            source: address_at(bytes, SOURCE),
            target: address_at(bytes, TARGET),
        },
        inner,
    })
}
