// A session of the program over a capture with packets that are passed over.
use crate::runs::{Script, Wanted, answers};
use ports::{MemFiles, MemSink};
use problem_commands::Status;
use shared_fixtures::replies;
use std::alloc::{AllocError, Global};
use std::test::Fail;

const DECLARATION: &str =
    "[hosts.a]\naddresses = [\"10.0.0.1\"]\n[labels.a]\nhost = \"a\"\nkind = \"capture\"\n";

// A section of little-endian numbers, an interface of link type 101 that counts nanoseconds, at 100 ns a packet from
// 10.0.0.1:5000 to 10.0.0.2:6000, a simple packet, an obsolete packet at 150 ns, and at 180 ns a packet back.
const CAPTURE: [u8; 236] = [
    0x0a, 0x0d, 0x0d, 0x0a, 28, 0, 0, 0, 0x4d, 0x3c, 0x2b, 0x1a, 1, 0, 0, 0, //
    255, 255, 255, 255, 255, 255, 255, 255, 28, 0, 0, 0, //
    1, 0, 0, 0, 32, 0, 0, 0, 101, 0, 0, 0, 0, 0, 4, 0, 9, 0, 1, 0, 9, 0, 0, 0, 0, 0, 0, 0, 32, 0,
    0, 0, //
    6, 0, 0, 0, 60, 0, 0, 0, 0, 0, 0, 0, 0, 0, 0, 0, 100, 0, 0, 0, 28, 0, 0, 0, 28, 0, 0, 0, //
    0x45, 0, 0, 0x1c, 0, 7, 0, 0, 0x40, 0x11, 0, 0, 10, 0, 0, 1, 10, 0, 0, 2, 0x13, 0x88, 0x17,
    0x70, 0, 8, 0, 0, 60, 0, 0, 0, //
    3, 0, 0, 0, 20, 0, 0, 0, 4, 0, 0, 0, 0x45, 0, 0, 4, 20, 0, 0, 0, //
    2, 0, 0, 0, 36, 0, 0, 0, 0, 0, 0, 0, 0, 0, 0, 0, 150, 0, 0, 0, 4, 0, 0, 0, 4, 0, 0, 0, //
    0x45, 0, 0, 4, 36, 0, 0, 0, //
    6, 0, 0, 0, 60, 0, 0, 0, 0, 0, 0, 0, 0, 0, 0, 0, 180, 0, 0, 0, 28, 0, 0, 0, 28, 0, 0, 0, //
    0x45, 0, 0, 0x1c, 0, 8, 0, 0, 0x40, 0x11, 0, 0, 10, 0, 0, 2, 10, 0, 0, 1, 0x17, 0x70, 0x13,
    0x88, 0, 8, 0, 0, 60, 0, 0, 0, //
];

const PRINTED: &str = replies!(
    added(2, 0, 0, 0, passed 2),
    "{\"ambiguous\":[],\"consistent\":true,\"events\":2,\"messages\":0,\"nokey\":{\"fragment\":0,\"header\":0,\
    \"length\":0,\"link\":0,\"local\":0,\"other\":0,\"short\":0,\"side\":0},\
    \"passed\":{\"obsolete\":1,\"other\":0,\"simple\":1},\"unmatched\":2}\n"
);

fn put_all(files: &mut MemFiles) -> Result<(), AllocError> {
    files.put("d", DECLARATION.as_bytes())?;
    files.put("a.pcapng", &CAPTURE)
}

// Whether the program says how many packets it passes over.
fn tells(alloc: Global) -> Result<bool, AllocError> {
    let mut files = MemFiles::new(alloc, &[])?;
    put_all(&mut files)?;
    let mut out = MemSink::new(alloc, 900, 300, &[])?;
    let wanted = Wanted {
        words: &["session", "d"],
        status: Status::Done,
        printed: PRINTED,
    };
    let script = Script {
        text: b"add a a.pcapng\nreport\n",
        fails: &[],
    };
    answers(alloc, &wanted, &mut files, &script, &mut out)
}

#[test]
fn passed_packets_are_told(rt: HostRuntime) -> Result<(), Fail> {
    assert!(rt; tells(rt.alloc())?);
    Ok(())
}
