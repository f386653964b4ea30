// Events of captures.
ghost use Rattle.std.specs.Prelude.{◌≡◌, map, option_map, IfOk};
ghost use Rattle.captures.specs.Feeding.{seen_packet, seen_packets};
ghost use Rattle.decl.specs.Declaration.{IsDeclaration, declaration_of, segment_of};
ghost use Rattle.traces.specs.Seen.{depth, ends_of, event_of_packet, is_elsewhere, key_of, mark_by, mark_of, mark_of_packet, mark_seen, no_key, seen_event, seen_events, seen_moment, wanted_of};

use crate::moments::moment_of;
use crate::{Content, Event, Key, Mark, MessageKey, Moment, NoKey, Side};
use captures::Packet;
use decl::{Decl, IpVersion, Label, Whereabouts};
use headers::{Network, PacketKey, Reason, Wanted, decode, interface_of};
use std::alloc::{AllocError, Global};

// Why an event has no key, whose packet has none.
fn no_key(reason: Reason) -> NoKey
    ensures { result ≡ no_key reason }
{
    match reason {
        Reason::Link => NoKey::Link,
        Reason::Other => NoKey::Other,
        Reason::Short => NoKey::Short,
        Reason::Header => NoKey::Header,
        Reason::Fragment => NoKey::Fragment,
        Reason::Length => NoKey::Length,
    }
}

// Where a packet comes from and where it goes, as seen from where the trace of this label was taken.
fn ends_of(decl: &Decl, label: &Label, network: Network) -> (Whereabouts, Whereabouts)
    ensures { result ≡ ends_of (declaration_of decl.now) label.now network }
{
    match network {
        Network::V4 { source, target, .. } => (
            decl.whereabouts(label, IpVersion::V4, u128::from(source)),
            decl.whereabouts(label, IpVersion::V4, u128::from(target)),
        ),
        Network::V6 { source, target } => (
            decl.whereabouts(label, IpVersion::V6, source),
            decl.whereabouts(label, IpVersion::V6, target),
        ),
    }
}

// How far out an address is.
fn depth(whereabouts: Whereabouts) -> u8
    ensures { result ≡ depth whereabouts }
{
    match whereabouts {
        Whereabouts::Near => 0,
        Whereabouts::Unsaid => 1,
        Whereabouts::Beyond => 2,
    }
}

// The mark of a packet of this key, by where it comes from and where it goes.
fn mark_by(key: Key, from: Whereabouts, to: Whereabouts) -> Mark
    ensures { mark_of result ≡ mark_by (key_of key) from to }
{
    if depth(from) < depth(to) {
        Mark::Keyed {
            key,
            side: Side::Send,
        }
    } else if depth(to) < depth(from) {
        Mark::Keyed {
            key,
            side: Side::Receive,
        }
    } else {
        Mark::Unkeyed(NoKey::Side)
    }
}

// The mark of a packet that was seen on this segment then, by what its headers say.
fn mark_of_packet(
    decl: &Decl,
    label: &Label,
    segment: u32,
    moment: Option<Moment>,
    decoded: Result<PacketKey, Reason>,
) -> Mark
    requires { segment ≡ segment_of (declaration_of decl.now) label.now }
    ensures { mark_of result ≡ mark_of_packet (declaration_of decl.now) label.now (option_map seen_moment moment) decoded }
{
    match decoded {
        Ok(packet) => {
            let (from, to) = ends_of(decl, label, packet.network);
            let content = Content::Packet(packet);
            let message = MessageKey { segment, content };
            mark_by(Key { message, moment }, from, to)
        }
        Err(reason) => Mark::Unkeyed(no_key(reason)),
    }
}

// Whether a packet of this interface is none of the interface whose packets have keys, where a label names one.
fn is_elsewhere(own: Option<u32>, interface: Option<u32>) -> bool
    ensures { result ≡ is_elsewhere own interface }
{
    match (own, interface) {
        (None, _) => false,
        (Some(_), None) => true,
        (Some(own), Some(interface)) => own != interface,
    }
}

// What belongs to the key of a packet.
fn wanted_of(decl: &Decl) -> Wanted
    ensures { result ≡ wanted_of (declaration_of decl.now) }
{
    Wanted {
        payload_bytes: decl.payload_bytes,
        tcp_options: decl.tcp_options,
        fragments: decl.fragments,
    }
}

// The mark of a packet in the trace of this label.
fn mark_seen(decl: &Decl, label: &Label, segment: u32, packet: &Packet) -> Mark
    requires lawful { IsDeclaration (declaration_of decl.now) }
    requires segment { segment ≡ segment_of (declaration_of decl.now) label.now }
    ensures { mark_of result ≡ mark_seen (declaration_of decl.now) label.now (seen_packet packet.now) }
{
    let interface = interface_of(packet.link, packet.interface, &packet.bytes);
    if is_elsewhere(label.interface, interface) {
        return Mark::Unkeyed(NoKey::Interface);
    }
    let decoded = decode(packet.link, &packet.bytes, wanted_of(decl));
    let moment = moment_of(decl, label.clock, packet.stamp);
    mark_of_packet(decl, label, segment, moment, decoded)
}

// The event of a packet in the trace of this label.
fn event_of_packet(decl: &Decl, label: &Label, segment: u32, packet: &Packet) -> Event
    requires lawful { IsDeclaration (declaration_of decl.now) }
    requires segment { segment ≡ segment_of (declaration_of decl.now) label.now }
    ensures { seen_event result ≡ event_of_packet (declaration_of decl.now) label.now (seen_packet packet.now) }
{
    Event {
        stamp: packet.stamp,
        mark: mark_seen(decl, label, segment, packet),
        text: None,
    }
}

/// The events of packets in the trace of this label, in their order; an error where memory runs out.
///
/// A packet that was captured on another interface than the label's has no key. Any other one is a send where it goes
/// outward, from an address that is near to any other, or to one that is beyond from any other; and a receive where it comes
/// inward (`Decl::whereabouts`). Of a payload at most 64 bytes are in the key. Where a window is declared, it happened at its
/// stamp less the offset of the clock.
pub fn packet_events(
    alloc: Global,
    decl: &Decl,
    label: &Label,
    packets: &[Packet],
) -> Result<Vec<Event>, AllocError>
    requires { IsDeclaration (declaration_of decl.now) }
    ensures { IfOk result (λ events. seen_events events.items ≡ map (event_of_packet (declaration_of decl.now) label.now) (seen_packets packets.now)) }
{
    let segment = decl.segment_of(label);
    let mut events = Vec::with_capacity(alloc, packets.len())?;
    for packet in packets {
        events.push(event_of_packet(decl, label, segment, packet))?;
    }
    Ok(events)
}
