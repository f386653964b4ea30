// Blocks of more than 2^24 bytes.
use crate::fixtures::{CAPTURE, are_both, read_joined};
use captures::{CaptureError, CaptureStream, Packet};
use std::alloc::Global;
use std::test::*;

// Four bytes more than a block may have that is read, and how that is written.
const LONG: usize = (1 << 24) + 4;

const LONG_BYTES: [u8; 4] = [4, 0, 0, 1];

// The type of blocks of somebody's own, and how a block of such a type and length is read behind the interface: how many of
// its first bytes are pending, or why the capture is refused.
const OWN: [u8; 4] = [0xad, 0x0b, 0, 0];

const BEGINNINGS: [([u8; 4], Result<u32, CaptureError>); 5] = [
    (OWN, Ok(8)),
    ([10, 0, 0, 0], Ok(8)),
    ([4, 0, 0, 0], Ok(8)),
    ([1, 0, 0, 0], Err(CaptureError::Block(60))),
    ([6, 0, 0, 0], Err(CaptureError::Block(60))),
];

// A block of 2 MiB that comes in pieces. A capture that ends with it behind a section header is cut in the head of the block
// and in its last four bytes, and so many bytes are then pending.
const CUT: usize = 1 << 21;

const CUT_BYTES: [u8; 4] = [0, 0, 0x20, 0];

const CUTS: [(usize, usize, u32); 5] = [
    (31, 38, 10),
    (39, 41, 13),
    (1000, 1 << 20, (1 << 20) - 28),
    (1 << 20, CUT + 25, (1 << 21) - 3),
    (CUT + 25, CUT + 27, (1 << 21) - 1),
];

// How many bytes are pending where a long block of this type begins.
fn pending(alloc: Global, kind: &[u8; 4]) -> Result<u32, CaptureError> {
    let mut packets = Vec::new(alloc);
    let pieces: [&[u8]; 3] = [&CAPTURE[..60], kind, &LONG_BYTES];
    read_joined(alloc, &pieces, &mut packets)
}

// A section header of a long block: its length stands before its magic number, which tells how it is read.
fn long_header(alloc: Global) -> Option<CaptureError> {
    let mut packets = Vec::new(alloc);
    let pieces: [&[u8]; 3] = [&CAPTURE[..4], &LONG_BYTES, &CAPTURE[8..28]];
    read_joined(alloc, &pieces, &mut packets).err()
}

// A block of somebody's own with so many bytes.
fn long_block(alloc: Global) -> Result<Vec<u8>, CaptureError> {
    let mut block = Vec::with_capacity(alloc, LONG)?;
    block.extend_from_slice(&OWN)?;
    block.extend_from_slice(&LONG_BYTES)?;
    block.resize(LONG - 4, 0xff)?;
    block.extend_from_slice(&LONG_BYTES)?;
    Ok(block)
}

// How many bytes are pending behind the second of three pieces, and at the end.
fn feed_three(
    alloc: Global,
    pieces: [&[u8]; 3],
    packets: &mut Vec<Packet>,
) -> Result<(u32, u32), CaptureError> {
    let [first, second, third] = pieces;
    if first.len() > 1 << 25 || second.len() > 1 << 25 || third.len() > 1 << 25 {
        return Err(CaptureError::Memory);
    }
    let begun = CaptureStream::new(alloc).feed(first, packets)?;
    let more = begun.feed(second, packets)?;
    let whole = more.feed(third, packets)?;
    Ok((more.pending(), whole.pending()))
}

// A section header and such a block, whose last length is written so.
fn cut_capture(alloc: Global, last: &[u8; 4]) -> Result<Vec<u8>, CaptureError> {
    let mut bytes = Vec::with_capacity(alloc, 28 + CUT)?;
    bytes.extend_from_slice(&CAPTURE[..28])?;
    bytes.extend_from_slice(&OWN)?;
    bytes.extend_from_slice(&CUT_BYTES)?;
    bytes.resize(28 + CUT - 4, 0xff)?;
    bytes.extend_from_slice(last)?;
    Ok(bytes)
}

// The same where these bytes are cut here and there.
fn read_cut(
    alloc: Global,
    bytes: &[u8],
    cuts: &(usize, usize, u32),
) -> Result<(u32, u32), CaptureError> {
    let (first, second, _) = *cuts;
    if first > second || second > bytes.len() {
        return Err(CaptureError::Memory);
    }
    let mut packets = Vec::new(alloc);
    let pieces = [&bytes[..first], &bytes[first..second], &bytes[second..]];
    feed_three(alloc, pieces, &mut packets)
}

// Whether the capture is read as it should be, wherever it is cut.
fn reads_cut(alloc: Global) -> Result<bool, CaptureError> {
    let bytes = cut_capture(alloc, &CUT_BYTES)?;
    for cuts in CUTS.iter() {
        if read_cut(alloc, &bytes, cuts)? != (cuts.2, 0) {
            return Ok(false);
        }
    }
    Ok(true)
}

// Whether it is refused where the last length is another, wherever it is cut.
fn refuses_cut(alloc: Global) -> Result<bool, CaptureError> {
    let bytes = cut_capture(alloc, &[0, 0, 0x21, 0])?;
    for cuts in CUTS.iter() {
        if read_cut(alloc, &bytes, cuts) != Err(CaptureError::Block(28)) {
            return Ok(false);
        }
    }
    Ok(true)
}

// Whether both packets are read where this block stands in front of them, in a piece of its own.
fn is_skipped(alloc: Global, block: &[u8]) -> Result<bool, CaptureError> {
    if block.len() > 1 << 25 {
        return Err(CaptureError::Memory);
    }
    let mut packets = Vec::new(alloc);
    let stream = CaptureStream::new(alloc)
        .feed(&CAPTURE[..60], &mut packets)?
        .feed(block, &mut packets)?
        .feed(&CAPTURE[60..], &mut packets)?;
    Ok(stream.pending() == 0 && are_both(&packets))
}

fn skips_long_block(alloc: Global) -> Result<bool, CaptureError> {
    let block = long_block(alloc)?;
    is_skipped(alloc, &block)
}

#[test]
fn beginnings(rt: HostRuntime) {
    for (kind, wanted) in BEGINNINGS.iter() {
        let pending = pending(rt.alloc(), kind);
        // The bytes before the block are read, so its own are pending.
        assert!(rt; pending == *wanted, "{}", kind[0]);
    }
    assert!(rt; long_header(rt.alloc()) == Some(CaptureError::Block(0)));
}

#[test]
fn long_blocks(rt: HostRuntime) {
    assert!(rt; skips_long_block(rt.alloc()).unwrap_or(false));
}

#[test]
fn cut_blocks(rt: HostRuntime) {
    assert!(rt; reads_cut(rt.alloc()).unwrap_or(false));
    assert!(rt; refuses_cut(rt.alloc()).unwrap_or(false));
}
