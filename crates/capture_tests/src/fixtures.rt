// Captures that several modules use.
use captures::{CaptureError, CaptureStream, Packet};
use std::alloc::Global;

// A section header, an interface of link type 101 that counts ns, and two packets of 28 bytes, all little-endian.
pub(crate) const CAPTURE: [u8; 180] = [
    0x0a, 0x0d, 0x0d, 0x0a, 28, 0, 0, 0, 0x4d, 0x3c, 0x2b, 0x1a, 1, 0, 0, 0, // version 1.0
    0xff, 0xff, 0xff, 0xff, 0xff, 0xff, 0xff, 0xff, 28, 0, 0, 0, //
    1, 0, 0, 0, 32, 0, 0, 0, 101, 0, 0, 0, 0, 0, 4, 0, // link type 101
    9, 0, 1, 0, 9, 0, 0, 0, 0, 0, 0, 0, 32, 0, 0, 0, // if_tsresol 9
    6, 0, 0, 0, 60, 0, 0, 0, 0, 0, 0, 0, 0, 0, 0, 0, 100, 0, 0, 0, 28, 0, 0, 0, 28, 0, 0, 0, // 100 ns
    0x45, 0, 0, 0x1c, 0, 7, 0, 0, 0x40, 0x11, 0, 0, 10, 0, 0, 1, 10, 0, 0, 2, 0x13, 0x88, 0x17,
    0x70, 0, 8, 0, 0, 60, 0, 0, 0, // 10.0.0.1:5000 to 10.0.0.2:6000
    6, 0, 0, 0, 60, 0, 0, 0, 0, 0, 0, 0, 0, 0, 0, 0, 180, 0, 0, 0, 28, 0, 0, 0, 28, 0, 0, 0, // 180 ns
    0x45, 0, 0, 0x1c, 0, 8, 0, 0, 0x40, 0x11, 0, 0, 10, 0, 0, 2, 10, 0, 0, 1, 0x17, 0x70, 0x13,
    0x88, 0, 8, 0, 0, 60, 0, 0, 0, // 10.0.0.2:6000 to 10.0.0.1:5000
];

// A big-endian section header.
pub(crate) const BIG_SECTION: [u8; 28] = [
    0x0a, 0x0d, 0x0d, 0x0a, 0, 0, 0, 28, 0x1a, 0x2b, 0x3c, 0x4d, 0, 1, 0, 0, //
    0xff, 0xff, 0xff, 0xff, 0xff, 0xff, 0xff, 0xff, 0, 0, 0, 28,
];

// The pieces of a capture, one after the other.
fn joined(alloc: Global, pieces: &[&[u8]]) -> Result<Vec<u8>, CaptureError> {
    let mut bytes = Vec::new(alloc);
    for piece in pieces {
        bytes.extend_from_slice(piece)?;
    }
    Ok(bytes)
}

// Reads these bytes as the first piece of a capture, and answers how many are pending.
pub(crate) fn read_first(
    alloc: Global,
    bytes: &[u8],
    packets: &mut Vec<Packet>,
) -> Result<u32, CaptureError> {
    if bytes.len() > 1 << 20 {
        return Err(CaptureError::Memory);
    }
    let stream = CaptureStream::new(alloc).feed(bytes, packets)?;
    Ok(stream.pending())
}

// Reads these pieces as one, and answers how many bytes are pending.
pub(crate) fn read_joined(
    alloc: Global,
    pieces: &[&[u8]],
    packets: &mut Vec<Packet>,
) -> Result<u32, CaptureError> {
    let bytes = joined(alloc, pieces)?;
    read_first(alloc, &bytes, packets)
}

pub(crate) fn is_packet(packet: &Packet, stamp: u64, link: u16, bytes: &[u8]) -> bool {
    packet.stamp.get() == stamp && packet.link == link && packet.bytes.as_slice() == bytes
}

// Whether these are the two packets of the capture.
pub(crate) fn are_both(packets: &[Packet]) -> bool {
    match packets {
        [first, second] => {
            is_packet(first, 100, 101, &CAPTURE[88..116])
                && is_packet(second, 180, 101, &CAPTURE[148..176])
        }
        _ => false,
    }
}
