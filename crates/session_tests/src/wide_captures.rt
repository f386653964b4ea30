// Sessions over captures of IPv6: as raw IP, and behind the cooked headers of Linux.
use crate::fixtures::{ONE_EVENT, replies_over};
use ports::MemFiles;
use session::Stop;
use shared_fixtures::added;
use std::alloc::{AllocError, Global};
use std::test::*;

// Two hosts with an address of IPv6 and a capture each, and no links.
const DECLARATION: &str =
    "[hosts.a]\naddresses6 = [\"fd00:0:0:0:0:0:0:1\"]\n[hosts.b]\naddresses6 = [\"FD00:0000:0:0:0:0:0:2\"]\n\
    [labels.ca]\nhost = \"a\"\nkind = \"capture\"\n[labels.cb]\nhost = \"b\"\nkind = \"capture\"\n";

// UDP from port 5000 of the first host to port 6000 of the second.
const PACKET: [u8; 48] = [
    0x60, 0, 0, 0, 0, 8, 0x11, 0x40, //
    0xfd, 0, 0, 0, 0, 0, 0, 0, 0, 0, 0, 0, 0, 0, 0, 1, //
    0xfd, 0, 0, 0, 0, 0, 0, 0, 0, 0, 0, 0, 0, 0, 0, 2, //
    0x13, 0x88, 0x17, 0x70, 0, 8, 0, 0,
];

// A type of link, and what stands before the packet in each frame of it.
type Front = (u16, &'static [u8]);

const FRONTS: [Front; 4] = [
    (101, &[]),
    (1, &[2, 0, 0, 0, 0, 2, 2, 0, 0, 0, 0, 1, 0x86, 0xdd]),
    (113, &[0, 0, 0, 0, 0, 0, 0, 0, 0, 0, 0, 0, 0, 0, 0x86, 0xdd]),
    (
        276,
        &[
            0x86, 0xdd, 0, 0, 0, 0, 0, 0, 0, 0, 0, 0, 0, 0, 0, 0, 0, 0, 0, 0,
        ],
    ),
];

// The packet is a message, until it was sent once more: then nobody can tell which one was received.
const LINES: [(&str, &str); 4] = [
    ("add ca a.pcap", ONE_EVENT),
    ("add cb b.pcap", added!(1, 1, 0, 0)),
    ("add ca again.pcap", added!(1, 0, 1, 0)),
    (
        "report",
        "{\"ambiguous\":[{\"key\":\"udp [fd00:0000:0000:0000:0000:0000:0000:0001]:5000 \
        [fd00:0000:0000:0000:0000:0000:0000:0002]:6000 length 8 payload -\",\"receives\":[\"cb#1\"],\
        \"sends\":[\"ca#1\",\"ca#2\"]}],\"consistent\":true,\"events\":3,\"messages\":0,\"nokey\":{\"fragment\":0,\
        \"header\":0,\"length\":0,\"link\":0,\"local\":0,\"other\":0,\"short\":0,\"side\":0},\"unmatched\":0}\n",
    ),
];

// A header of little-endian nanoseconds, but for the type of the link.
const HEADER: [u8; 20] = [
    0x4d, 0x3c, 0xb2, 0xa1, 2, 0, 4, 0, 0, 0, 0, 0, 0, 0, 0, 0, 0, 0, 4, 0,
];

// A record of the packet at this time.
fn record_of(alloc: Global, front: &[u8], stamp: u32) -> Result<Vec<u8>, AllocError> {
    let mut bytes = Vec::from_slice(alloc, &[0, 0, 0, 0])?;
    let size = u32::try_from(front.len().wrapping_add(PACKET.len())).unwrap_or(0);
    bytes.extend_from_slice(&stamp.to_le_bytes())?;
    bytes.extend_from_slice(&size.to_le_bytes())?;
    bytes.extend_from_slice(&size.to_le_bytes())?;
    bytes.extend_from_slice(front)?;
    bytes.extend_from_slice(&PACKET)?;
    Ok(bytes)
}

// A capture of the packet at this time.
fn capture_of(alloc: Global, front: &Front, stamp: u32) -> Result<Vec<u8>, AllocError> {
    let mut bytes = Vec::from_slice(alloc, &HEADER)?;
    bytes.extend_from_slice(&u32::from(front.0).to_le_bytes())?;
    let record = record_of(alloc, front.1, stamp)?;
    bytes.extend_from_slice(&record)?;
    Ok(bytes)
}

// Whether a session over captures of the packet gives the replies.
fn replies(alloc: Global, front: &Front) -> Result<bool, Stop> {
    let mut files = MemFiles::new(alloc, &[])?;
    let first = capture_of(alloc, front, 100)?;
    files.put("a.pcap", &first)?;
    let second = capture_of(alloc, front, 250)?;
    files.put("b.pcap", &second)?;
    let again = record_of(alloc, front.1, 180)?;
    files.put("again.pcap", &again)?;
    replies_over(alloc, DECLARATION, &mut files, &LINES)
}

#[test]
fn wide_captures(rt: HostRuntime) {
    for front in &FRONTS {
        assert!(rt; replies(rt.alloc(), front) == Ok(true), "link {}", front.0);
    }
}
