// The type of the link that a frame was captured on, as a file of the pcap format gives it.
ghost use Rattle.std.specs.Prelude.{◌≡◌, ◌+◌, ◌≤◌, Some, None, IfOk, IfErr, OnOk};
ghost use Rattle.headers.specs.Checks.{first_reason};
ghost use Rattle.headers.specs.Interfaces.{cooked_interface, interface_of};
ghost use Rattle.headers.specs.Frame.{carried_in, carries, cooked_carried, cooked_checks, ethernet_carried, ethernet_checks, link_checks, raw_carried, raw_checks, type_checks, typed_carried, version_checks};

use crate::bytes::{behind, half_at, word_at};
use crate::ethernet::typed_part;
use crate::packet::version_in;
use crate::{Reason, ipv4, ipv6};

// LINKTYPE_ETHERNET.
const ETHERNET: u16 = 1;

// LINKTYPE_RAW: the frame is a packet.
const RAW: u16 = 101;

// LINKTYPE_LINUX_SLL and LINKTYPE_LINUX_SLL2: what Linux captures on all interfaces at once.
const LINUX_SLL: u16 = 113;

const LINUX_SLL2: u16 = 276;

// Where the second cooked header has the index of an interface.
const INDEX: usize = 4;

// The types of what is carried, of which IEEE keeps the list.
const IPV4: u16 = 0x0800;

const IPV6: u16 = 0x86dd;

// The bytes of a type.
const TYPE: usize = 2;

// The version of the internet protocol.
#[derive(Clone, Copy)]
pub(crate) enum Version {
    Four,
    Six,
}

// What a frame carries: the bytes from the header of a packet on.
#[derive(Clone, Copy)]
pub(crate) struct Carried<'a> {
    pub(crate) version: Version,
    pub(crate) bytes: &'a [u8],
}

// A Linux cooked header: how many bytes it has, and at which of them the type of what follows stands.
#[derive(Clone, Copy)]
struct Cooked {
    header: usize,
    protocol: usize,
}

const FIRST: Cooked = Cooked {
    header: 16,
    protocol: 14,
};

const SECOND: Cooked = Cooked {
    header: 20,
    protocol: 0,
};

// A packet behind a type.
fn typed_packet(ether_type: u16, packet: &[u8]) -> Result<Carried<'_>, Reason>
    ensures lawful { OnOk result (first_reason (type_checks ether_type) ≡ None) }
    ensures found { IfOk result (λ carried. carries carried ≡ typed_carried ether_type packet.now) }
    ensures refused { IfErr result (λ reason. first_reason (type_checks ether_type) ≡ Some reason) }
{
    let version = match ether_type {
        IPV4 => Version::Four,
        IPV6 => Version::Six,
        _ => return Err(Reason::Other),
    };
    Ok(Carried {
        version,
        bytes: packet,
    })
}

// The packet in an Ethernet frame.
fn ethernet_packet(frame: &[u8]) -> Result<Carried<'_>, Reason>
    ensures lawful { OnOk result (first_reason (ethernet_checks frame.now) ≡ None) }
    ensures found { IfOk result (λ carried. carries carried ≡ ethernet_carried frame.now) }
    ensures refused { IfErr result (λ reason. first_reason (ethernet_checks frame.now) ≡ Some reason) }
{
    let typed = typed_part(frame)?;
    typed_packet(half_at(typed, 0), behind(typed, TYPE))
}

// A frame that is a packet.
fn raw_packet(frame: &[u8]) -> Result<Carried<'_>, Reason>
    ensures lawful { OnOk result (first_reason (raw_checks frame.now) ≡ None) }
    ensures found { IfOk result (λ carried. carries carried ≡ raw_carried frame.now) }
    ensures refused { IfErr result (λ reason. first_reason (raw_checks frame.now) ≡ Some reason) }
{
    if frame.is_empty() {
        return Err(Reason::Short);
    }
    let version = match version_in(frame) {
        ipv4::VERSION => Version::Four,
        ipv6::VERSION => Version::Six,
        _ => return Err(Reason::Other),
    };
    Ok(Carried {
        version,
        bytes: frame,
    })
}

// Bytes that begin as a packet of the version that their type says; of IPv6 they are asked later.
fn check_version(carried: Carried<'_>) -> Result<Carried<'_>, Reason>
    ensures lawful { OnOk result (first_reason (version_checks carried.entry.version carried.entry.bytes.now) ≡ None) }
    ensures same { IfOk result (λ same. carries same ≡ carries carried.entry) }
    ensures refused { IfErr result (λ reason. first_reason (version_checks carried.entry.version carried.entry.bytes.now) ≡ Some reason) }
{
    match carried.version {
        Version::Four => {
            if carried.bytes.is_empty() {
                return Err(Reason::Short);
            }
            if version_in(carried.bytes) != ipv4::VERSION {
                return Err(Reason::Other);
            }
            Ok(carried)
        }
        Version::Six => Ok(carried),
    }
}

// The packet behind a cooked header.
fn cooked_packet(cooked: Cooked, frame: &[u8]) -> Result<Carried<'_>, Reason>
    requires { cooked.protocol + 2 ≤ cooked.header }
    ensures lawful { OnOk result (first_reason (cooked_checks cooked.header cooked.protocol frame.now) ≡ None) }
    ensures found { IfOk result (λ carried. carries carried ≡ cooked_carried cooked.header cooked.protocol frame.now) }
    ensures refused { IfErr result (λ reason. first_reason (cooked_checks cooked.header cooked.protocol frame.now) ≡ Some reason) }
{
    if frame.len() < cooked.header {
        return Err(Reason::Short);
    }
    let ether_type = half_at(frame, cooked.protocol);
    check_version(typed_packet(ether_type, behind(frame, cooked.header))?)
}

// The packet in a frame on this link.
pub(crate) fn packet_in(link: u16, frame: &[u8]) -> Result<Carried<'_>, Reason>
    ensures lawful { OnOk result (first_reason (link_checks link frame.now) ≡ None) }
    ensures found { IfOk result (λ carried. carries carried ≡ carried_in link frame.now) }
    ensures refused { IfErr result (λ reason. first_reason (link_checks link frame.now) ≡ Some reason) }
{
    if link == ETHERNET {
        return ethernet_packet(frame);
    }
    if link == RAW {
        return raw_packet(frame);
    }
    if link == LINUX_SLL {
        return cooked_packet(FIRST, frame);
    }
    if link == LINUX_SLL2 {
        return cooked_packet(SECOND, frame);
    }
    Err(Reason::Link)
}

// The index of an interface in a second cooked header.
fn cooked_interface(frame: &[u8]) -> Option<u32>
    ensures { result ≡ cooked_interface frame.now }
{
    if frame.len() < INDEX + 4 {
        return None;
    }
    Some(word_at(frame, INDEX))
}

/// The interface that a frame was captured on: the index in a Linux cooked header of the second version
/// (LINKTYPE_LINUX_SLL2), where its first eight bytes are there; on each other link what the capture tells, if it does.
pub fn interface_of(link: u16, told: Option<u32>, frame: &[u8]) -> Option<u32>
    ensures { result ≡ interface_of link told frame.now }
{
    if link == LINUX_SLL2 {
        cooked_interface(frame)
    } else {
        told
    }
}
