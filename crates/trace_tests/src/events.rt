ghost use Rattle.std.specs.Prelude.{◌≤◌, ◌^◌, length};

use crate::fixtures::{declared, packet_of, plain_label};
use arrayvec::ArrayVec;
use decl::TraceKind;
use event_log::read_rows;
use headers::{Network, PacketKey, Transport, UserDatagram};
use std::alloc::Global;
use std::test::*;
use traces::{Content, Event, Key, Mark, Moment, NoKey, Side, packet_events, row_events};

const FIRST: u32 = 0x0a00_0001;

const SECOND: u32 = 0x0a00_0002;

// UDP from the first address and port 5000 to the second one and port 6000.
pub(crate) const OVER: [u8; 28] = [
    0x45, 0, 0, 28, 0, 7, 0, 0, 0x40, 17, 0, 0, 10, 0, 0, 1, 10, 0, 0, 2, 0x13, 0x88, 0x17, 0x70,
    0, 8, 0, 0,
];

// And back.
pub(crate) const BACK: [u8; 28] = [
    0x45, 0, 0, 28, 0, 8, 0, 0, 0x40, 17, 0, 0, 10, 0, 0, 2, 10, 0, 0, 1, 0x17, 0x70, 0x13, 0x88,
    0, 8, 0, 0,
];

// Each address is one of another host.
const APART: &str = "payload_bytes = 16\n\
    [hosts.a]\naddresses = ['10.0.0.1']\naddresses6 = ['fd00:0:0:0:0:0:0:1']\n\
    [hosts.b]\naddresses = ['10.0.0.2']\naddresses6 = ['fd00:0:0:0:0:0:0:2']";

// Both are of one host.
const TOGETHER: &str =
    "payload_bytes = 16\n[hosts.a]\naddresses = ['10.0.0.1', '10.0.0.2']\n[hosts.b]";

// Only the first one is declared.
const ALONE: &str = "payload_bytes = 16\n[hosts.a]\naddresses = ['10.0.0.1']\n[hosts.b]";

const WIDE_FIRST: u128 = 0xfd00_0000_0000_0000_0000_0000_0000_0001;

const WIDE_SECOND: u128 = 0xfd00_0000_0000_0000_0000_0000_0000_0002;

// UDP over IPv6 from the first address of IPv6 and port 5000 to the second one and port 6000.
pub(crate) const WIDE_OVER: [u8; 48] = [
    0x60, 0, 0, 0, 0, 8, 0x11, 0x40, //
    0xfd, 0, 0, 0, 0, 0, 0, 0, 0, 0, 0, 0, 0, 0, 0, 1, //
    0xfd, 0, 0, 0, 0, 0, 0, 0, 0, 0, 0, 0, 0, 0, 0, 2, //
    0x13, 0x88, 0x17, 0x70, 0, 8, 0, 0,
];

// Packets at a host, and the side of each; None where the host has both addresses, or neither.
const SIDES: [(&str, u32, &[u8], Option<Side>); 10] = [
    (APART, 0, &OVER, Some(Side::Send)),
    (APART, 1, &OVER, Some(Side::Receive)),
    (APART, 0, &BACK, Some(Side::Receive)),
    (APART, 1, &BACK, Some(Side::Send)),
    (APART, 2, &OVER, None),
    (TOGETHER, 0, &OVER, None),
    (TOGETHER, 1, &BACK, None),
    (ALONE, 0, &OVER, Some(Side::Send)),
    (ALONE, 0, &BACK, Some(Side::Receive)),
    (ALONE, 1, &OVER, None),
];

// Frames that have no key.
const REASONS: [(u16, &[u8], NoKey); 7] = [
    (105, &OVER, NoKey::Link),
    (113, &OVER, NoKey::Other),
    (101, &[0x60], NoKey::Short),
    (101, &[], NoKey::Short),
    (
        101,
        &[
            0x44, 0, 0, 20, 0, 7, 0, 0, 0x40, 17, 0, 0, 10, 0, 0, 1, 10, 0, 0, 2,
        ],
        NoKey::Header,
    ),
    (
        101,
        &[
            0x45, 0, 0, 28, 0, 9, 0x20, 0, 0x40, 17, 0, 0, 10, 0, 0, 1, 10, 0, 0, 2,
        ],
        NoKey::Fragment,
    ),
    (
        101,
        &[
            0x45, 0, 0, 19, 0, 7, 0, 0, 0x40, 17, 0, 0, 10, 0, 0, 1, 10, 0, 0, 2,
        ],
        NoKey::Length,
    ),
];

// The event of a packet that was captured at 100 ns, by the only clock of its host, which has the host's place.
fn event_of(alloc: Global, declaration: &str, host: u32, link: u16, frame: &[u8]) -> Option<Event> {
    let decl = declared(alloc, declaration)?;
    let packet = packet_of(alloc, link, None, frame)?;
    let packets = Vec::from_array(alloc, [packet]).ok()?;
    let label = plain_label(TraceKind::Capture, host, host)?;
    let mut events = packet_events(alloc, &decl, &label, &packets).ok()?;
    events.pop()
}

// The key of a datagram of UDP without a payload, between these ports.
fn datagram_key(network: Network, source_port: u16, target_port: u16) -> PacketKey {
    PacketKey {
        network,
        transport: Transport::Udp(UserDatagram {
            source_port,
            target_port,
            length: 8,
            payload: ArrayVec::new(),
        }),
    }
}

// The key of the packet over, or that of the packet back.
fn key_of(over: bool) -> PacketKey {
    let network = Network::V4 {
        source: if over { FIRST } else { SECOND },
        target: if over { SECOND } else { FIRST },
        id: if over { 7 } else { 8 },
    };
    if over {
        datagram_key(network, 5000, 6000)
    } else {
        datagram_key(network, 6000, 5000)
    }
}

// That of the packet of IPv6.
fn wide_key() -> PacketKey {
    let network = Network::V6 {
        source: WIDE_FIRST,
        target: WIDE_SECOND,
    };
    datagram_key(network, 5000, 6000)
}

// Whether a key is that of this packet, without a window.
fn is_packet(key: &Key, wanted: &PacketKey) -> bool {
    match &key.message.content {
        Content::Packet(packet) => packet == wanted && key.moment.is_none(),
        Content::Word(_) => false,
    }
}

fn has_mark(mark: &Mark, wanted: Option<Side>, over: bool) -> bool {
    match (mark, wanted) {
        (Mark::Keyed { key, side }, Some(wanted)) => {
            *side == wanted && is_packet(key, &key_of(over))
        }
        (Mark::Unkeyed(reason), None) => *reason == NoKey::Side,
        _ => false,
    }
}

fn has_side(alloc: Global, case: &(&str, u32, &[u8], Option<Side>)) -> bool {
    let (declaration, host, frame, wanted) = case;
    let over = *frame == OVER.as_slice();
    match event_of(alloc, declaration, *host, 101, frame) {
        Some(event) => {
            event.stamp.get() == 100 && event.text.is_none() && has_mark(&event.mark, *wanted, over)
        }
        None => false,
    }
}

// Whether the packet of IPv6 is marked as this end of a message, with its own key.
fn has_wide_mark(mark: &Mark, wanted: Side) -> bool {
    match mark {
        Mark::Keyed { key, side } => *side == wanted && is_packet(key, &wide_key()),
        Mark::Unkeyed(_) => false,
    }
}

// The same of its event at a host.
fn has_wide_side(alloc: Global, host: u32, wanted: Side) -> bool {
    match event_of(alloc, APART, host, 101, &WIDE_OVER) {
        Some(event) => has_wide_mark(&event.mark, wanted),
        None => false,
    }
}

fn has_reason(alloc: Global, link: u16, frame: &[u8], wanted: NoKey) -> bool {
    match event_of(alloc, APART, 0, link, frame) {
        Some(event) => match event.mark {
            Mark::Keyed { .. } => false,
            Mark::Unkeyed(reason) => reason == wanted,
        },
        None => false,
    }
}

#[test]
fn packets(rt: HostRuntime) {
    for (k, case) in SIDES.iter().enumerate() {
        assert!(rt; has_side(rt.alloc(), case), "case {k}");
    }
    for (link, frame, wanted) in &REASONS {
        assert!(rt; has_reason(rt.alloc(), *link, frame, *wanted), "{wanted:?}");
    }
}

#[test]
fn wide_packets(rt: HostRuntime) {
    assert!(rt; has_wide_side(rt.alloc(), 0, Side::Send));
    assert!(rt; has_wide_side(rt.alloc(), 1, Side::Receive));
    assert!(rt; !has_wide_side(rt.alloc(), 2, Side::Send));
}

// What the event of a row is to be: its stamp, its word with its side, and its text.
type Row = (u64, Option<(&'static str, Side)>, &'static str);

const ROWS: [Row; 3] = [
    (5, Some(("m", Side::Send)), ""),
    (7, Some(("n", Side::Receive)), "hello"),
    (9, None, "x"),
];

// Whether a key is this word, at this moment.
fn is_word(key: &Key, wanted: &str, moment: Option<Moment>) -> bool {
    match &key.message.content {
        Content::Packet(_) => false,
        Content::Word(word) => word.bytes() == wanted.as_bytes() && key.moment == moment,
    }
}

fn has_word(mark: &Mark, wanted: Option<(&str, Side)>, moment: Option<Moment>) -> bool {
    match (mark, wanted) {
        (Mark::Keyed { key, side }, Some((text, wanted))) => {
            *side == wanted && is_word(key, text, moment)
        }
        (Mark::Unkeyed(reason), None) => *reason == NoKey::Local,
        _ => false,
    }
}

fn is_row(event: &Event, wanted: &Row) -> bool {
    match &event.text {
        Some(text) => {
            event.stamp.get() == wanted.0
                && has_word(&event.mark, wanted.1, None)
                && text.bytes() == wanted.2.as_bytes()
        }
        None => false,
    }
}

// The events of a log whose rows are stamped by a clock.
fn rows_of(alloc: Global, declaration: &str, clock: u32, log: &[u8]) -> Option<Vec<Event>>
    requires { length log.now ≤ 2 ^ 28 }
{
    let decl = declared(alloc, declaration)?;
    let rows = read_rows(alloc, log).ok()?;
    let label = plain_label(TraceKind::Log, 0, clock)?;
    row_events(alloc, &decl, &label, rows).ok()
}

fn are_rows(alloc: Global, log: &[u8]) -> Option<bool>
    requires { length log.now ≤ 2 ^ 28 }
{
    let events = rows_of(alloc, ALONE, 0, log)?;
    Some(events.len() == ROWS.len() && events.iter().zip(&ROWS).all(|(e, w)| is_row(e, w)))
}

#[test]
fn rows(rt: HostRuntime) {
    let log = b"5,send,m,\n7,receive,n,hello\n9,local,,x\n";
    assert!(rt; are_rows(rt.alloc(), log) == Some(true));
}

// A window of 40 ns; the clock of a is 1000 ns ahead, that of b 30 ns behind, and that of c shows true time.
const TIMED: &str = "window = 40\n[hosts.a]\noffset = 1000\n[hosts.b]\noffset = -30\n[hosts.c]";

// Whether the event of a row at 5 ns of a clock happened at this time, within this window.
fn happened(alloc: Global, declaration: &str, clock: u32, time: i64, window: u64) -> bool {
    match rows_of(alloc, declaration, clock, b"5,send,m,\n") {
        Some(events) => match events.first() {
            Some(event) => {
                let moment = Moment { time, window };
                has_word(&event.mark, Some(("m", Side::Send)), Some(moment))
            }
            None => false,
        },
        None => false,
    }
}

// An offset is taken off, and not added.
#[test]
fn moments(rt: HostRuntime) {
    assert!(rt; happened(rt.alloc(), TIMED, 0, -995, 40));
    assert!(rt; happened(rt.alloc(), TIMED, 1, 35, 40));
    assert!(rt; happened(rt.alloc(), TIMED, 2, 5, 40));
    assert!(rt; !happened(rt.alloc(), TIMED, 0, 1005, 40));
}
