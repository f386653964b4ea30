// Captures that are refused.
use crate::fixtures::{CAPTURE, are_both, read_first};
use captures::{CaptureError, CaptureStream};
use std::alloc::Global;
use std::test::*;

// A place in the capture, another byte there, and why it is refused so.
const FAULTS: [(usize, u8, CaptureError); 14] = [
    (3, 0x0b, CaptureError::Magic),
    (0, 0x0b, CaptureError::Magic),
    (8, 0x4c, CaptureError::Block(0)),
    (4, 24, CaptureError::Block(0)),
    (12, 2, CaptureError::Version),
    (24, 32, CaptureError::Block(0)),
    (32, 13, CaptureError::Block(28)),
    (35, 2, CaptureError::Block(28)),
    (56, 28, CaptureError::Block(28)),
    (68, 1, CaptureError::Block(60)),
    (75, 0xff, CaptureError::Block(60)),
    (80, 29, CaptureError::Block(60)),
    (82, 4, CaptureError::Length(60)),
    (128, 1, CaptureError::Block(120)),
];

// The capture with another byte at this place.
fn altered(alloc: Global, place: usize, byte: u8) -> Result<Vec<u8>, CaptureError> {
    let mut bytes = Vec::from_slice(alloc, &CAPTURE)?;
    if place < bytes.len() {
        bytes[place] = byte;
    }
    Ok(bytes)
}

// Whether a new capture refuses this piece so, and then takes the whole capture in its place.
fn refuses(alloc: Global, piece: &[u8], fault: CaptureError) -> bool {
    if piece.len() > 1 << 20 {
        return false;
    }
    let stream = CaptureStream::new(alloc);
    let mut packets = Vec::new(alloc);
    match stream.feed(piece, &mut packets) {
        Ok(_) => false,
        Err(e) => {
            e == fault && stream.feed(&CAPTURE, &mut packets).is_ok() && are_both(&packets)
        }
    }
}

// Whether the capture is refused so with another byte at a place.
fn refuses_altered(alloc: Global, row: &(usize, u8, CaptureError)) -> bool {
    match altered(alloc, row.0, row.1) {
        Ok(bytes) => refuses(alloc, &bytes, row.2),
        Err(_) => false,
    }
}

// How many of these first bytes of a capture are pending.
fn pending(alloc: Global, bytes: &[u8]) -> Result<u32, CaptureError> {
    let mut packets = Vec::new(alloc);
    read_first(alloc, bytes, &mut packets)
}

#[test]
fn altered_captures(rt: HostRuntime) {
    for row in FAULTS.iter() {
        assert!(rt; refuses_altered(rt.alloc(), row), "at {}", row.0);
    }
}

#[test]
fn few_bytes(rt: HostRuntime) {
    assert!(rt; pending(rt.alloc(), b"\n\r") == Ok(2));
    assert!(rt; pending(rt.alloc(), &CAPTURE[..11]) == Ok(11));
}
