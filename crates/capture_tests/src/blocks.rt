// Sections, stamps, and blocks that are skipped.
use crate::fixtures::{BIG_SECTION, CAPTURE, is_packet, read_joined};
use captures::{CaptureError, Packet};
use std::alloc::Global;
use std::test::*;

// An interface of link type 113 and a packet of one byte at 5 us, both big-endian.
const BIG_INTERFACE: [u8; 20] = [
    0, 0, 0, 1, 0, 0, 0, 20, 0, 113, 0, 0, 0, 4, 0, 0, 0, 0, 0, 20,
];

const BIG_PACKET: [u8; 36] = [
    0, 0, 0, 6, 0, 0, 0, 36, 0, 0, 0, 0, 0, 0, 0, 0, 0, 0, 0, 5, 0, 0, 0, 1, 0, 0, 0, 1, //
    0xaa, 0, 0, 0, 0, 0, 0, 36,
];

// Blocks of 16 bytes, little-endian: an obsolete packet, a simple packet, names, statistics, and one of somebody's own.
const OTHERS: [[u8; 16]; 5] = [
    [2, 0, 0, 0, 16, 0, 0, 0, 1, 0, 0, 0, 16, 0, 0, 0],
    [3, 0, 0, 0, 16, 0, 0, 0, 1, 0, 0, 0, 16, 0, 0, 0],
    [4, 0, 0, 0, 16, 0, 0, 0, 0, 0, 0, 0, 16, 0, 0, 0],
    [5, 0, 0, 0, 16, 0, 0, 0, 0, 0, 0, 0, 16, 0, 0, 0],
    [1, 0, 0, 0x80, 16, 0, 0, 0, 6, 0, 0, 0, 16, 0, 0, 0],
];

// The byte that tells the resolution, the upper and the lower half of a time, and the stamp in ns.
const STAMPS: [(u8, u8, [u8; 4], u64); 9] = [
    (6, 0, [5, 0, 0, 0], 5000),
    (9, 0, [100, 0, 0, 0], 100),
    (9, 1, [7, 0, 0, 0], 4_294_967_303),
    (0, 1, [0, 0, 0, 0], 4_294_967_296_000_000_000),
    (0x8a, 0, [0, 4, 0, 0], 1_000_000_000),
    (0x8a, 0, [1, 0, 0, 0], 976_562),
    (12, 0, [0xff, 0xff, 0, 0], 65),
    (30, 0xff, [0xff, 0xff, 0xff, 0xff], 0),
    (0xff, 0xff, [0xff, 0xff, 0xff, 0xff], 0),
];

// The interface of the capture with this resolution.
fn interface(resolution: u8) -> [u8; 32] {
    [
        1, 0, 0, 0, 32, 0, 0, 0, 101, 0, 0, 0, 0, 0, 4, 0, //
        9, 0, 1, 0, resolution, 0, 0, 0, 0, 0, 0, 0, 32, 0, 0, 0,
    ]
}

// A packet of no byte at this time.
fn packet(high: u8, low: [u8; 4]) -> [u8; 32] {
    [
        6, 0, 0, 0, 32, 0, 0, 0, 0, 0, 0, 0, high, 0, 0, 0, low[0], low[1], low[2], low[3], //
        0, 0, 0, 0, 0, 0, 0, 0, 32, 0, 0, 0,
    ]
}

// The stamp of the only packet.
fn only_stamp(packets: &[Packet]) -> Option<u64> {
    match packets {
        [packet] => Some(packet.stamp.get()),
        _ => None,
    }
}

// The stamp of a packet with this time on an interface of this resolution.
fn stamp(
    alloc: Global,
    resolution: u8,
    high: u8,
    low: [u8; 4],
) -> Result<Option<u64>, CaptureError> {
    let mut packets = Vec::new(alloc);
    let interface = interface(resolution);
    let packet = packet(high, low);
    let pieces: [&[u8]; 3] = [&CAPTURE[..28], &interface, &packet];
    read_joined(alloc, &pieces, &mut packets)?;
    Ok(only_stamp(&packets))
}

fn has_stamp(alloc: Global, row: &(u8, u8, [u8; 4], u64)) -> bool {
    stamp(alloc, row.0, row.1, row.2) == Ok(Some(row.3))
}

// Whether these are a packet of the little-endian section and then one of the big-endian one.
fn are_of_sections(packets: &[Packet]) -> bool {
    match packets {
        [first, second] => {
            is_packet(first, 100, 101, &CAPTURE[88..116]) && is_packet(second, 5000, 113, &[0xaa])
        }
        _ => false,
    }
}

// Whether a section in the other order is read behind one.
fn reads_sections(alloc: Global) -> Result<bool, CaptureError> {
    let mut packets = Vec::new(alloc);
    let pieces: [&[u8]; 4] = [&CAPTURE[..120], &BIG_SECTION, &BIG_INTERFACE, &BIG_PACKET];
    let pending = read_joined(alloc, &pieces, &mut packets)?;
    Ok(pending == 0 && are_of_sections(&packets))
}

// Whether an interface is forgotten where its section ends.
fn forgets(alloc: Global) -> bool {
    let mut packets = Vec::new(alloc);
    let pieces: [&[u8]; 3] = [&CAPTURE[..60], &CAPTURE[..28], &CAPTURE[60..120]];
    read_joined(alloc, &pieces, &mut packets) == Err(CaptureError::Block(88))
}

// Whether a block of another kind is skipped, before the interface and behind it.
fn is_skipped(alloc: Global, block: &[u8; 16]) -> Result<bool, CaptureError> {
    let mut packets = Vec::new(alloc);
    let pieces: [&[u8]; 5] = [
        &CAPTURE[..28],
        block,
        &CAPTURE[28..60],
        block,
        &CAPTURE[60..120],
    ];
    let pending = read_joined(alloc, &pieces, &mut packets)?;
    Ok(pending == 0 && only_stamp(&packets) == Some(100))
}

#[test]
fn stamps(rt: HostRuntime) {
    for row in STAMPS.iter() {
        assert!(rt; has_stamp(rt.alloc(), row), "{}", row.3);
    }
}

#[test]
fn sections(rt: HostRuntime) {
    assert!(rt; reads_sections(rt.alloc()).unwrap_or(false));
    assert!(rt; forgets(rt.alloc()));
}

#[test]
fn other_blocks(rt: HostRuntime) {
    for block in OTHERS.iter() {
        assert!(rt;
            is_skipped(rt.alloc(), block).unwrap_or(false),
            "{}",
            block[0]
        );
    }
}
