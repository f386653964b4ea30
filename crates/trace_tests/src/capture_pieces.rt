ghost use Rattle.std.specs.Prelude.{◌≡◌, ◌≤◌, ◌+◌, ◌^◌, length, IfOk};

use captures::{CaptureError, CaptureStream, Packet};
use std::alloc::Global;
use std::test::*;

// Two records of 28 bytes under a header of little-endian nanoseconds and link type 101.
const CAPTURE: [u8; 112] = [
    0x4d, 0x3c, 0xb2, 0xa1, 2, 0, 4, 0, 0, 0, 0, 0, 0, 0, 0, 0, 0, 0, 4, 0, 101, 0, 0, 0, // header
    0, 0, 0, 0, 100, 0, 0, 0, 28, 0, 0, 0, 28, 0, 0, 0, // 100 ns
    0x45, 0, 0, 0x1c, 0, 7, 0, 0, 0x40, 0x11, 0, 0, 10, 0, 0, 1, 10, 0, 0, 2, 0x13, 0x88, 0x17,
    0x70, 0, 8, 0, 0, // 10.0.0.1:5000 to 10.0.0.2:6000
    0, 0, 0, 0, 180, 0, 0, 0, 28, 0, 0, 0, 28, 0, 0, 0, // 180 ns
    0x45, 0, 0, 0x1c, 0, 8, 0, 0, 0x40, 0x11, 0, 0, 10, 0, 0, 2, 10, 0, 0, 1, 0x17, 0x70, 0x13,
    0x88, 0, 8, 0, 0, // 10.0.0.2:6000 to 10.0.0.1:5000
];

// A header and the head of a record of 28 bytes, and the stamp of the record.
const STAMPS: [([u8; 40], u64); 3] = [
    (
        [
            0xa1, 0xb2, 0xc3, 0xd4, 0, 2, 0, 4, 0, 0, 0, 0, 0, 0, 0, 0, 0, 4, 0, 0, 0, 0, 0, 101, //
            0, 0, 0, 1, 0, 0, 0, 5, 0, 0, 0, 28, 0, 0, 0, 28, // 1 s and 5 us
        ],
        1_000_005_000,
    ),
    (
        [
            0x4d, 0x3c, 0xb2, 0xa1, 2, 0, 4, 0, 0, 0, 0, 0, 0, 0, 0, 0, 0, 0, 4, 0, 101, 0, 0, 0, //
            1, 0, 0, 0, 0x88, 0x13, 0, 0, 28, 0, 0, 0, 28, 0, 0, 0, // 1 s and 5000 ns
        ],
        1_000_005_000,
    ),
    (
        [
            0xd4, 0xc3, 0xb2, 0xa1, 2, 0, 4, 0, 0, 0, 0, 0, 0, 0, 0, 0, 0, 0, 4, 0, 101, 0, 9, 0, //
            1, 0, 0, 0, 0x60, 0xe3, 0x16, 0, 28, 0, 0, 0, 28, 0, 0, 0, // 1 s and 1500000 us
        ],
        2_500_000_000,
    ),
];

// Heads of records of 262,144 bytes, of one more, and of 2^32 - 1.
const LONGEST: [u8; 16] = [0, 0, 0, 0, 100, 0, 0, 0, 0, 0, 4, 0, 0, 0, 4, 0];

const TOO_LONG: [u8; 16] = [0, 0, 0, 0, 100, 0, 0, 0, 1, 0, 4, 0, 1, 0, 4, 0];

const ENDLESS: [u8; 16] = [
    0, 0, 0, 0, 100, 0, 0, 0, 255, 255, 255, 255, 255, 255, 255, 255,
];

// The capture after these two pieces.
fn feed_both(
    alloc: Global,
    first: &[u8],
    second: &[u8],
    packets: &mut Vec<Packet>,
) -> Result<CaptureStream, CaptureError>
    requires { length first.now + length second.now ≤ 2 ^ 30 }
{
    CaptureStream::new(alloc)
        .feed(first, packets)?
        .feed(second, packets)
}

// How many packets end within the first bytes of the capture, and how many bytes are then pending.
fn wanted_at(cut: u32) -> (usize, u32) {
    match cut {
        0..=23 => (0, cut),
        24..=67 => (0, cut - 24),
        68..=111 => (1, cut - 68),
        _ => (2, 0),
    }
}

fn is_packet(packet: &Packet, stamp: u64, bytes: &[u8]) -> bool {
    packet.stamp.get() == stamp && packet.link == 101 && packet.bytes.as_slice() == bytes
}

fn are_both(packets: &[Packet]) -> bool {
    match packets {
        [first, second] => {
            is_packet(first, 100, &CAPTURE[40..68]) && is_packet(second, 180, &CAPTURE[84..])
        }
        _ => false,
    }
}

// Whether the capture is read as it should be where it is cut here.
fn is_read_when_cut(alloc: Global, cut: u32) -> Result<bool, CaptureError>
    requires { cut ≤ 112 }
{
    let (first, second) = CAPTURE.split_at(cut as usize);
    let mut packets = Vec::new(alloc);
    let begun = CaptureStream::new(alloc).feed(first, &mut packets)?;
    if (packets.len(), begun.pending()) != wanted_at(cut) {
        return Ok(false);
    }
    packets.clear();
    let whole = feed_both(alloc, first, second, &mut packets)?;
    Ok(whole.pending() == 0 && are_both(&packets))
}

// Whether one packet with this stamp is read, and as many bytes.
fn has_stamp(alloc: Global, heads: &[u8], captured: &[u8], stamp: u64) -> Result<bool, CaptureError>
    requires { length heads.now + length captured.now ≤ 2 ^ 30 }
{
    let mut packets = Vec::new(alloc);
    let whole = feed_both(alloc, heads, captured, &mut packets)?;
    Ok(whole.pending() == 0 && packets.len() == 1 && is_packet(&packets[0], stamp, captured))
}

// Whether a capture refuses this piece so, and then takes the whole capture in its place.
fn refuses(alloc: Global, piece: &[u8], fault: CaptureError) -> bool
    requires { length piece.now ≤ 2 ^ 30 }
{
    let stream = CaptureStream::new(alloc);
    let mut packets = Vec::new(alloc);
    match stream.feed(piece, &mut packets) {
        Ok(_) => false,
        Err(e) => {
            e == fault && stream.feed(&CAPTURE, &mut packets).is_ok() && are_both(&packets)
        }
    }
}

#[test]
fn cut_anywhere(rt: HostRuntime) {
    for cut in 0..=112 {
        assert!(rt;
            is_read_when_cut(rt.alloc(), cut).unwrap_or(false),
            "at {cut}"
        );
    }
}

#[test]
fn stamps(rt: HostRuntime) {
    for (heads, stamp) in STAMPS.iter() {
        assert!(rt;
            has_stamp(rt.alloc(), heads, &CAPTURE[40..68], *stamp).unwrap_or(false),
            "{stamp}"
        );
    }
}

// The first bytes of the capture, and behind them the head of a record.
fn with_head(alloc: Global, place: usize, head: &[u8; 16]) -> Result<Vec<u8>, CaptureError>
    requires { place ≤ 112 }
    ensures { IfOk result (λ bytes. length bytes.items ≡ place + 16) }
{
    let mut bytes = Vec::from_slice(alloc, &CAPTURE[..place])?;
    bytes.extend_from_slice(head)?;
    Ok(bytes)
}

// Whether the record at this place is refused as soon as its head is there.
fn refuses_head(alloc: Global, place: usize, head: &[u8; 16]) -> Result<bool, CaptureError>
    requires { place ≤ 112 }
{
    let bytes = with_head(alloc, place, head)?;
    Ok(refuses(alloc, &bytes, CaptureError::Length(place as u32)))
}

// Whether a record of 262,144 bytes is read.
fn takes_longest(alloc: Global) -> Result<bool, CaptureError> {
    let heads = with_head(alloc, 24, &LONGEST)?;
    let zeros = vec![in alloc; 0u8; 262_144]?;
    has_stamp(alloc, &heads, &zeros, 100)
}

#[test]
fn longest_record(rt: HostRuntime) {
    assert!(rt; takes_longest(rt.alloc()).unwrap_or(false));
    for (place, head) in [(24, &TOO_LONG), (68, &TOO_LONG), (24, &ENDLESS)] {
        assert!(rt;
            refuses_head(rt.alloc(), place, head).unwrap_or(false),
            "at {place}"
        );
    }
}

#[test]
fn headers(rt: HostRuntime) {
    let minor = [0x4d, 0x3c, 0xb2, 0xa1, 2, 0, 3, 0];
    assert!(rt; refuses(rt.alloc(), b"\r\n", CaptureError::Magic));
    assert!(rt; refuses(rt.alloc(), &minor, CaptureError::Version));
}
