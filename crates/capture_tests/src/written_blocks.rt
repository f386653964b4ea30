// Files of pcapng that are written block by block, and what they are read as.
use crate::fixtures::{CAPTURE, read_first};
use captures::Packet;
use pcapng_blocks::{InterfaceText, PacketText, write_interface, write_packet, write_section};
use ports::MemSink;
use std::alloc::Global;
use std::test::*;

// Texts whose options are filled up by none to three zeros: the comment of a section, a name and a description of its
// interfaces, and the comment of its packets.
const TEXTS: [[&str; 4]; 4] = [
    ["", "n", "de", "com"],
    ["c", "na", "des", ""],
    ["co", "nam", "", "c"],
    ["com", "", "d", "co"],
];

// A packet: its interface, its stamp in ns, how many bytes it had, and the first of them.
type Row<'a> = (u32, u64, u32, &'a [u8]);

const PACKETS: [Row<'static>; 4] = [
    (0, 100, 60, &[]),
    (1, 180, 28, &[0x45]),
    (1, 4_294_967_303, 2, &[0x45, 0]),
    (0, 4_611_686_018_427_387_903, 0, &[7, 8, 9]),
];

// The link types of the two interfaces.
const LINKS: [u16; 2] = [1, 101];

fn put_section(comment: &str, out: &mut MemSink) -> bool {
    let comment = comment.as_bytes();
    comment.len() <= 100 && write_section(comment, out).is_ok()
}

fn put_interface(link: u16, name: &str, description: &str, out: &mut MemSink) -> bool {
    let interface = InterfaceText {
        link,
        name: name.as_bytes(),
        description: description.as_bytes(),
    };
    name.len() <= 100 && description.len() <= 100 && write_interface(&interface, out).is_ok()
}

fn put_packet(row: Row<'_>, comment: &str, out: &mut MemSink) -> bool {
    let (interface, stamp, original, bytes) = row;
    let packet = PacketText {
        interface,
        stamp,
        original,
        bytes,
        comment: comment.as_bytes(),
    };
    bytes.len() <= 100 && comment.len() <= 100 && write_packet(&packet, out).is_ok()
}

// Whether the packets are written, each with this comment.
fn put_packets(comment: &str, out: &mut MemSink) -> bool {
    for row in &PACKETS {
        if !put_packet(*row, comment, out) {
            return false;
        }
    }
    true
}

// Whether a file with these texts is written.
fn put_file(texts: &[&str; 4], out: &mut MemSink) -> bool {
    let [comment, name, description, note] = *texts;
    put_section(comment, out)
        && put_interface(LINKS[0], name, description, out)
        && put_interface(LINKS[1], description, name, out)
        && put_packets(note, out)
}

fn is_packet(packet: &Packet, row: &Row<'_>) -> bool {
    let (interface, stamp, original, bytes) = *row;
    LINKS.get(interface as usize) == Some(&packet.link)
        && packet.stamp.get() == stamp
        && packet.original_length == original
        && packet.bytes.as_slice() == bytes
}

// Whether a file is read as the packets, and nothing is left of it.
fn is_read(alloc: Global, bytes: &[u8]) -> bool {
    let mut packets = Vec::new(alloc);
    read_first(alloc, bytes, &mut packets) == Ok(0)
        && packets.len() == PACKETS.len()
        && packets
            .iter()
            .zip(&PACKETS)
            .all(|(packet, row)| is_packet(packet, row))
}

fn is_written_and_read(alloc: Global, texts: &[&str; 4]) -> bool {
    let Ok(mut out) = MemSink::new(alloc, 1_000, 7, &[]) else {
        return false;
    };
    put_file(texts, &mut out) && is_read(alloc, out.bytes())
}

#[test]
fn files_are_written_and_read(rt: HostRuntime) {
    for texts in &TEXTS {
        assert!(rt; is_written_and_read(rt.alloc(), texts), "{}", texts[0]);
    }
}

// Whether the section header and the packets of a capture are written as they stand there.
fn stands_so(out: &mut MemSink) -> bool {
    put_section("", out)
        && put_packet((0, 100, 28, &CAPTURE[88..116]), "", out)
        && put_packet((0, 180, 28, &CAPTURE[148..176]), "", out)
        && out.bytes().len() == 148
        && out.bytes().starts_with(&CAPTURE[..28])
        && out.bytes().ends_with(&CAPTURE[60..])
}

#[test]
fn blocks_without_options(rt: HostRuntime) {
    let mut out = MemSink::new(rt.alloc(), 200, 200, &[]).expect(&rt, "memory");
    assert!(rt; stands_so(&mut out));
}
