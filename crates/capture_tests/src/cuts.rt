// Captures that are cut anywhere.
ghost use Rattle.std.specs.Prelude.{◌≤◌};

use crate::fixtures::{CAPTURE, are_both};
use captures::{CaptureError, CaptureStream, Packet};
use std::alloc::Global;
use std::test::*;

// A classic capture of one packet: little-endian, nanoseconds, link type 101, 100 ns, three bytes.
const CLASSIC: [u8; 43] = [
    0x4d, 0x3c, 0xb2, 0xa1, 2, 0, 4, 0, 0, 0, 0, 0, 0, 0, 0, 0, 0, 0, 4, 0, 101, 0, 0, 0, //
    0, 0, 0, 0, 100, 0, 0, 0, 3, 0, 0, 0, 3, 0, 0, 0, 10, 13, 13,
];

// The capture after these two pieces, and how many bytes were pending between them.
fn feed_both(
    alloc: Global,
    first: &[u8],
    second: &[u8],
    packets: &mut Vec<Packet>,
) -> Result<(u32, u32), CaptureError> {
    if first.len() > 1 << 20 || second.len() > 1 << 20 {
        return Err(CaptureError::Memory);
    }
    let begun = CaptureStream::new(alloc).feed(first, packets)?;
    let whole = begun.feed(second, packets)?;
    Ok((begun.pending(), whole.pending()))
}

// How many packets end within the first bytes of the capture, and how many bytes are then pending.
fn wanted_at(cut: u32) -> (usize, u32) {
    match cut {
        0..=27 => (0, cut),
        28..=59 => (0, cut - 28),
        60..=119 => (0, cut - 60),
        120..=179 => (1, cut - 120),
        _ => (2, 0),
    }
}

// How many packets the first bytes of the capture have.
fn packets_at(alloc: Global, cut: u32) -> Result<usize, CaptureError>
    requires { cut ≤ 180 }
{
    let mut packets = Vec::new(alloc);
    CaptureStream::new(alloc).feed(&CAPTURE[..cut as usize], &mut packets)?;
    Ok(packets.len())
}

// Whether the capture is read as it should be where it is cut here.
fn is_read_when_cut(alloc: Global, cut: u32) -> Result<bool, CaptureError>
    requires { cut ≤ 180 }
{
    let (first, second) = CAPTURE.split_at(cut as usize);
    let mut packets = Vec::new(alloc);
    let (between, at_end) = feed_both(alloc, first, second, &mut packets)?;
    Ok((packets_at(alloc, cut)?, between) == wanted_at(cut) && at_end == 0 && are_both(&packets))
}

// Whether the classic capture has its packet where it is cut here.
fn is_classic_when_cut(alloc: Global, cut: usize) -> Result<bool, CaptureError>
    requires { cut ≤ 43 }
{
    let (first, second) = CLASSIC.split_at(cut);
    let mut packets = Vec::new(alloc);
    let (_, at_end) = feed_both(alloc, first, second, &mut packets)?;
    Ok(at_end == 0 && packets.len() == 1 && packets[0].stamp.get() == 100)
}

#[test]
fn cut_anywhere(rt: HostRuntime) {
    for cut in 0..=180 {
        assert!(rt;
            is_read_when_cut(rt.alloc(), cut).unwrap_or(false),
            "at {cut}"
        );
    }
}

#[test]
fn classic_captures(rt: HostRuntime) {
    for cut in 0..=43 {
        assert!(rt;
            is_classic_when_cut(rt.alloc(), cut).unwrap_or(false),
            "at {cut}"
        );
    }
}
