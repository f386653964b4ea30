// Classic captures that were put one behind the other: the second header is refused.
ghost use Rattle.std.specs.Prelude.{◌≤◌, length};

use captures::{CaptureError, CaptureStream};
use std::alloc::{AllocError, Global};
use std::test::*;

// How many bytes each of the captures has, and so the place of a second header behind it.
const SIZE: usize = 62;

// How many bytes are there once a second header can be told from a record.
const SECOND_HEAD: usize = 78;

// Two packets of three bytes, at 1 s and at 2 s, in either order and in either fraction of a second.
const CAPTURES: [[u8; 62]; 4] = [
    [
        0xa1, 0xb2, 0xc3, 0xd4, 0, 2, 0, 4, 0, 0, 0, 0, 0, 0, 0, 0, 0, 4, 0, 0, 0, 0, 0, 101, //
        0, 0, 0, 1, 0, 0, 0, 5, 0, 0, 0, 3, 0, 0, 0, 3, 10, 13, 13, // 1 s
        0, 0, 0, 2, 0, 0, 0, 5, 0, 0, 0, 3, 0, 0, 0, 3, 10, 13, 13, // 2 s
    ],
    [
        0xa1, 0xb2, 0x3c, 0x4d, 0, 2, 0, 4, 0, 0, 0, 0, 0, 0, 0, 0, 0, 4, 0, 0, 0, 0, 0, 101, //
        0, 0, 0, 1, 0, 0, 0, 5, 0, 0, 0, 3, 0, 0, 0, 3, 10, 13, 13, // 1 s
        0, 0, 0, 2, 0, 0, 0, 5, 0, 0, 0, 3, 0, 0, 0, 3, 10, 13, 13, // 2 s
    ],
    [
        0xd4, 0xc3, 0xb2, 0xa1, 2, 0, 4, 0, 0, 0, 0, 0, 0, 0, 0, 0, 0, 0, 4, 0, 101, 0, 0, 0, //
        1, 0, 0, 0, 5, 0, 0, 0, 3, 0, 0, 0, 3, 0, 0, 0, 10, 13, 13, // 1 s
        2, 0, 0, 0, 5, 0, 0, 0, 3, 0, 0, 0, 3, 0, 0, 0, 10, 13, 13, // 2 s
    ],
    [
        0x4d, 0x3c, 0xb2, 0xa1, 2, 0, 4, 0, 0, 0, 0, 0, 0, 0, 0, 0, 0, 0, 4, 0, 101, 0, 0, 0, //
        1, 0, 0, 0, 5, 0, 0, 0, 3, 0, 0, 0, 3, 0, 0, 0, 10, 13, 13, // 1 s
        2, 0, 0, 0, 5, 0, 0, 0, 3, 0, 0, 0, 3, 0, 0, 0, 10, 13, 13, // 2 s
    ],
];

// The capture twice in a row, with this byte wherever the time zone and the accuracy stand in the second header.
fn twice(alloc: Global, capture: &[u8; 62], byte: u8) -> Result<Vec<u8>, AllocError> {
    let mut bytes = Vec::new(alloc);
    bytes.extend_from_slice(capture)?;
    bytes.extend_from_slice(&capture[..8])?;
    bytes.extend_from_slice(&[byte; 8])?;
    bytes.extend_from_slice(&capture[16..])?;
    Ok(bytes)
}

// Whether a second header is the fault.
fn is_second_header(next: Result<CaptureStream, CaptureError>) -> bool {
    match next {
        Ok(_) => false,
        Err(e) => e == CaptureError::Header(62),
    }
}

// How many packets the first of two pieces gives before the second header is told.
fn packets_at(cut: usize) -> usize {
    match cut {
        43..=61 => 1,
        62..=77 => 2,
        _ => 0,
    }
}

// Whether the bytes, cut here, are refused as soon as the first 16 bytes of the second header are there, with no other
// packets.
fn is_refused_when_cut(alloc: Global, bytes: &[u8], cut: usize) -> bool
    requires cut { cut ≤ length bytes.now }
    requires short { length bytes.now ≤ 124 }
{
    let (first, second) = bytes.split_at(cut);
    let mut packets = Vec::new(alloc);
    let refused = match CaptureStream::new(alloc).feed(first, &mut packets) {
        Ok(begun) => cut < SECOND_HEAD && is_second_header(begun.feed(second, &mut packets)),
        Err(e) => cut >= SECOND_HEAD && e == CaptureError::Header(62),
    };
    refused && packets.len() == packets_at(cut)
}

#[test]
fn cut_anywhere(rt: HostRuntime) -> Result<(), Fail> {
    for capture in CAPTURES.iter() {
        for byte in [0, 0xff] {
            let bytes = twice(rt.alloc(), capture, byte)?;
            assert_eq!(rt; bytes.len(), 2 * SIZE);
            for cut in 0..=bytes.len() {
                assert!(rt; is_refused_when_cut(rt.alloc(), &bytes, cut), "at {cut}");
            }
        }
    }
    Ok(())
}
