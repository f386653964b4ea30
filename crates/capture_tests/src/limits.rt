// Captures with more packets than are wanted.
use crate::fixtures::CAPTURE;
use captures::{CaptureError, CaptureStream, FirstPackets};
use std::alloc::Global;
use std::test::*;

// At most so many packets are kept: how many are then kept of the two of the capture, and whether there were more.
const LIMITS: [(u64, usize, bool); 4] = [(0, 0, true), (1, 1, true), (2, 2, false), (3, 2, false)];

// What is kept of a capture in two pieces, where at most so many packets are.
fn kept_of(
    alloc: Global,
    first: &[u8],
    second: &[u8],
    most: u64,
) -> Result<(usize, bool), CaptureError> {
    if first.len() > 1 << 20 || second.len() > 1 << 20 {
        return Err(CaptureError::Memory);
    }
    let mut packets = FirstPackets::new(alloc, most);
    CaptureStream::new(alloc)
        .feed_first(first, &mut packets)?
        .feed_first(second, &mut packets)?;
    Ok((packets.kept.len(), packets.more))
}

// The capture, of which the second packet names an interface that its section has not.
fn with_a_late_fault(alloc: Global) -> Result<Vec<u8>, CaptureError> {
    let mut bytes = Vec::from_slice(alloc, &CAPTURE)?;
    if bytes.len() > 128 {
        bytes[128] = 1;
    }
    Ok(bytes)
}

// Why a capture is refused where no packet is kept.
fn fault_behind_the_limit(alloc: Global) -> Option<CaptureError> {
    let bytes = with_a_late_fault(alloc).ok()?;
    kept_of(alloc, &bytes, &[], 0).err()
}

#[test]
fn few_packets(rt: HostRuntime) {
    for (most, kept, more) in LIMITS.iter() {
        let wanted = Ok((*kept, *more));
        let (first, second) = CAPTURE.split_at(130);
        assert!(rt;
            kept_of(rt.alloc(), &CAPTURE, &[], *most) == wanted,
            "{most}"
        );
        assert!(rt;
            kept_of(rt.alloc(), first, second, *most) == wanted,
            "{most}, cut"
        );
    }
    assert!(rt; fault_behind_the_limit(rt.alloc()) == Some(CaptureError::Block(120)));
}
