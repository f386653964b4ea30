// The key of a frame.
ghost use Rattle.std.specs.Prelude.{◌≡◌, ◌≤◌, Some, None, IfOk, IfErr, OnOk};
ghost use Rattle.headers.specs.Checks.{first_reason};
ghost use Rattle.headers.specs.Decoding.{decoded};
ghost use Rattle.headers.specs.Inside.{IsRead};
ghost use Rattle.headers.specs.Layers.{PacketParts};
ghost use Rattle.headers.specs.Packet.{transport_checks, transport_part};

use crate::link::packet_in;
use crate::packet::{Packet, read_packet};
use crate::transport::transport_of;
use crate::{PacketKey, Reason, Transport, Wanted};

// What the header behind that of the internet protocol gives to the key.
fn read_transport(packet: &Packet<'_>, wanted: Wanted) -> Result<Transport, Reason>
    requires { wanted.payload_bytes ≤ 64 }
    ensures lawful { (parts : PacketParts) → IsRead parts packet.now → OnOk result (first_reason (transport_checks parts wanted) ≡ None) }
    ensures read { (parts : PacketParts) → IsRead parts packet.now → IfOk result (λ part. part ≡ transport_part parts wanted) }
    ensures refused { (parts : PacketParts) → IsRead parts packet.now → IfErr result (λ reason. first_reason (transport_checks parts wanted) ≡ Some reason) }
{
    transport_of(&packet.inner, wanted)
}

/// What a frame is known by, which was captured on a link of this type, or why it has no key. It takes no memory.
///
/// `link` is a link type of the pcap format: 1 for Ethernet II, where tags of IEEE 802.1Q may stand before the type, 101
/// for raw IP, 113 and 276 for what Linux captures on all interfaces at once, behind a cooked header of the first or of
/// the second version. `frame` is what was captured, which may be only the front of what was sent. `wanted` says what the
/// key has beside the fields that it always has. Bytes behind the end of the packet are not looked at.
///
/// A packet of IPv4 (RFC 791) or IPv6 (RFC 8200) has a key where TCP (RFC 9293) or UDP (RFC 768) stands right behind its
/// header. Where fragments are wanted, each of them has a key too, whatever its protocol is, and of IPv6 up to eight
/// extension headers may stand before what a packet carries. Of the reasons against a key the first in the order of the
/// headers is given.
pub fn decode(link: u16, frame: &[u8], wanted: Wanted) -> Result<PacketKey, Reason>
    requires { wanted.payload_bytes ≤ 64 }
    ensures { result ≡ decoded link frame.now wanted }
{
    let packet = read_packet(packet_in(link, frame)?, wanted)?;
    let transport = read_transport(&packet, wanted)?;
    Ok(PacketKey {
        network: packet.network,
        transport,
    })
}
