// Interfaces with options: offsets of stamps, and options that are malformed.
use crate::fixtures::{BIG_SECTION, CAPTURE, read_joined};
use captures::{CaptureError, Packet};
use std::alloc::Global;
use std::test::*;

// The seconds that two interfaces add to their stamps.
const SHIFTED: [i64; 2] = [3, -2];

// One by which a stamp comes just below 2^62 ns, and one by which each is far above.
const LATE: [i64; 2] = [4_611_686_018, i64::MAX];

// One by which a stamp may come below 0, and one by which each is far below.
const EARLY: [i64; 2] = [-1_000_000_000, i64::MIN];

// Whether all is big-endian, the seconds that the two interfaces of a section add, the number of the one with the
// packet, the packet's time in us, and its stamp in ns or why the capture is refused.
const OFFSETS: [(bool, [i64; 2], u8, u64, Result<u64, CaptureError>); 11] = [
    (false, SHIFTED, 0, 5_000_001, Ok(8_000_001_000)),
    (false, SHIFTED, 1, 5_000_001, Ok(3_000_001_000)),
    (true, SHIFTED, 0, 5_000_001, Ok(8_000_001_000)),
    (true, SHIFTED, 1, 5_000_001, Ok(3_000_001_000)),
    (false, EARLY, 0, 1_000_000_000_000_007, Ok(7000)),
    (
        false,
        EARLY,
        0,
        999_999_999_999_999,
        Err(CaptureError::Block(92)),
    ),
    (true, EARLY, 1, u64::MAX, Err(CaptureError::Block(92))),
    (false, LATE, 0, 427_387, Ok(4_611_686_018_427_387_000)),
    (false, LATE, 0, 427_388, Err(CaptureError::Block(92))),
    (true, LATE, 0, 427_388, Err(CaptureError::Block(92))),
    (true, LATE, 1, 0, Err(CaptureError::Block(92))),
];

// Twelve bytes of options, and the stamp in ns of a packet at 100 or why the capture is refused: the options end before or
// behind the resolution of 10^-9 s, the value before it or behind it passes the end, the offset has four bytes, or the
// first resolution has no byte.
const OPTIONS: [([u8; 12], Result<u64, CaptureError>); 6] = [
    ([0, 0, 0, 0, 9, 0, 1, 0, 9, 0, 0, 0], Ok(100_000)),
    ([9, 0, 1, 0, 9, 0, 0, 0, 0, 0, 0, 0], Ok(100)),
    (
        [2, 0, 9, 0, 9, 0, 1, 0, 9, 0, 0, 0],
        Err(CaptureError::Block(28)),
    ),
    (
        [9, 0, 1, 0, 9, 0, 0, 0, 2, 0, 1, 0],
        Err(CaptureError::Block(28)),
    ),
    (
        [14, 0, 4, 0, 1, 0, 0, 0, 0, 0, 0, 0],
        Err(CaptureError::Block(28)),
    ),
    ([9, 0, 0, 0, 9, 0, 1, 0, 9, 0, 0, 0], Ok(100)),
];

// An interface of link type 101 that counts us and adds so many seconds.
fn shifted_interface(big: bool, seconds: i64) -> [u8; 32] {
    if big {
        let [a, b, c, d, e, f, g, h] = seconds.to_be_bytes();
        [
            0, 0, 0, 1, 0, 0, 0, 32, 0, 101, 0, 0, 0, 4, 0, 0, //
            0, 14, 0, 8, a, b, c, d, e, f, g, h, 0, 0, 0, 32,
        ]
    } else {
        let [a, b, c, d, e, f, g, h] = seconds.to_le_bytes();
        [
            1, 0, 0, 0, 32, 0, 0, 0, 101, 0, 0, 0, 0, 0, 4, 0, //
            14, 0, 8, 0, a, b, c, d, e, f, g, h, 32, 0, 0, 0,
        ]
    }
}

// A packet of no byte at this time.
fn packet(big: bool, interface: u8, time: u64) -> [u8; 32] {
    let [a, b, c, d, e, f, g, h] = time.to_be_bytes();
    if big {
        [
            0, 0, 0, 6, 0, 0, 0, 32, 0, 0, 0, interface, a, b, c, d, e, f, g, h, //
            0, 0, 0, 0, 0, 0, 0, 0, 0, 0, 0, 32,
        ]
    } else {
        [
            6, 0, 0, 0, 32, 0, 0, 0, interface, 0, 0, 0, d, c, b, a, h, g, f, e, //
            0, 0, 0, 0, 0, 0, 0, 0, 32, 0, 0, 0,
        ]
    }
}

// The stamp of the only packet, and 1 where there is another number of packets.
fn only_stamp(packets: &[Packet]) -> u64 {
    match packets {
        [packet] => packet.stamp.get(),
        _ => 1,
    }
}

// The stamp of the packet of these pieces.
fn stamp_in(alloc: Global, pieces: &[&[u8]]) -> Result<u64, CaptureError> {
    let mut packets = Vec::new(alloc);
    read_joined(alloc, pieces, &mut packets)?;
    Ok(only_stamp(&packets))
}

// The stamp of a packet on one of two interfaces that add so many seconds.
fn shifted_stamp(
    alloc: Global,
    big: bool,
    seconds: &[i64; 2],
    interface: u8,
    time: u64,
) -> Result<u64, CaptureError> {
    let first = shifted_interface(big, seconds[0]);
    let second = shifted_interface(big, seconds[1]);
    let packet = packet(big, interface, time);
    if big {
        let pieces: [&[u8]; 4] = [&BIG_SECTION, &first, &second, &packet];
        return stamp_in(alloc, &pieces);
    }
    let pieces: [&[u8]; 4] = [&CAPTURE[..28], &first, &second, &packet];
    stamp_in(alloc, &pieces)
}

// The stamp of the first packet of the capture on an interface with these options.
fn stamp_with(alloc: Global, options: &[u8; 12]) -> Result<u64, CaptureError> {
    let pieces: [&[u8]; 3] = [&CAPTURE[..44], options, &CAPTURE[56..120]];
    stamp_in(alloc, &pieces)
}

#[test]
fn offsets(rt: HostRuntime) {
    for row in OFFSETS.iter() {
        assert!(rt;
            shifted_stamp(rt.alloc(), row.0, &row.1, row.2, row.3) == row.4,
            "{}",
            row.3
        );
    }
}

#[test]
fn option_lists(rt: HostRuntime) {
    for (options, wanted) in OPTIONS.iter() {
        assert!(rt;
            stamp_with(rt.alloc(), options) == *wanted,
            "{}",
            options[0]
        );
    }
}
