// A capture in pcapng with packets that are passed over, in two pieces.
use crate::fixtures::{CAPTURE_B, replies_over};
use ports::MemFiles;
use session::Stop;
use shared_fixtures::{TWO_CAPTURES_DECLARATION, added};
use std::alloc::{AllocError, Global};
use std::test::*;

// A section of little-endian numbers, an interface of link type 101 that counts nanoseconds, at 100 ns a packet from
// 10.0.0.1:5000 to 10.0.0.2:6000, and a simple packet.
const FRONT: [u8; 140] = [
    0x0a, 0x0d, 0x0d, 0x0a, 28, 0, 0, 0, 0x4d, 0x3c, 0x2b, 0x1a, 1, 0, 0, 0, //
    255, 255, 255, 255, 255, 255, 255, 255, 28, 0, 0, 0, //
    1, 0, 0, 0, 32, 0, 0, 0, 101, 0, 0, 0, 0, 0, 4, 0, 9, 0, 1, 0, 9, 0, 0, 0, 0, 0, 0, 0, 32, 0,
    0, 0, //
    6, 0, 0, 0, 60, 0, 0, 0, 0, 0, 0, 0, 0, 0, 0, 0, 100, 0, 0, 0, 28, 0, 0, 0, 28, 0, 0, 0, //
    0x45, 0, 0, 0x1c, 0, 7, 0, 0, 0x40, 0x11, 0, 0, 10, 0, 0, 1, 10, 0, 0, 2, 0x13, 0x88, 0x17,
    0x70, 0, 8, 0, 0, 60, 0, 0, 0, //
    3, 0, 0, 0, 20, 0, 0, 0, 4, 0, 0, 0, 0x45, 0, 0, 4, 20, 0, 0, 0, //
];

// An obsolete packet at 150 ns, and at 180 ns a packet back.
const BACK: [u8; 96] = [
    2, 0, 0, 0, 36, 0, 0, 0, 0, 0, 0, 0, 0, 0, 0, 0, 150, 0, 0, 0, 4, 0, 0, 0, 4, 0, 0, 0, //
    0x45, 0, 0, 4, 36, 0, 0, 0, //
    6, 0, 0, 0, 60, 0, 0, 0, 0, 0, 0, 0, 0, 0, 0, 0, 180, 0, 0, 0, 28, 0, 0, 0, 28, 0, 0, 0, //
    0x45, 0, 0, 0x1c, 0, 8, 0, 0, 0x40, 0x11, 0, 0, 10, 0, 0, 2, 10, 0, 0, 1, 0x17, 0x70, 0x13,
    0x88, 0, 8, 0, 0, 60, 0, 0, 0, //
];

// The packets that are passed over are counted in all pieces of their label, and have no number.
const LINES: [(&str, &str); 6] = [
    ("add a front", added!(1, 0, 0, 0, passed 1)),
    ("add b b", added!(2, 1, 0, 0)),
    ("add a back", added!(1, 1, 0, 0, passed 2)),
    ("add a empty", added!(0, 0, 0, 0, passed 2)),
    ("interval a#1 a#2", "interval 80.000000000 80.000000000\n"),
    (
        "report",
        "{\"ambiguous\":[],\"consistent\":true,\"events\":4,\"messages\":2,\"nokey\":{\"fragment\":0,\"header\":0,\
        \"length\":0,\"link\":0,\"local\":0,\"other\":0,\"short\":0,\"side\":0},\
        \"passed\":{\"obsolete\":1,\"other\":0,\"simple\":1},\"unmatched\":0}\n",
    ),
];

fn put_all(files: &mut MemFiles) -> Result<(), AllocError> {
    files.put("front", &FRONT)?;
    files.put("back", &BACK)?;
    files.put("b", &CAPTURE_B)?;
    files.put("empty", &[])
}

// Whether a session over the two pieces gives the replies.
fn replies(alloc: Global) -> Result<bool, Stop> {
    let mut files = MemFiles::new(alloc, &[])?;
    put_all(&mut files)?;
    replies_over(alloc, TWO_CAPTURES_DECLARATION, &mut files, &LINES)
}

#[test]
fn passed_packets(rt: HostRuntime) {
    assert!(rt; replies(rt.alloc()) == Ok(true));
}
