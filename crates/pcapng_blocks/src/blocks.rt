// Blocks that are written.
ghost use Rattle.std.specs.Prelude.{◌≡◌, ◌+◌, ◌++◌, ◌<◌, ◌≤◌, ◌/◌, ◌%◌, ◌^◌, length, replicate};
ghost use Rattle.ports.specs.Content.{Writes};
ghost use Rattle.pcapng_blocks.specs.Bytes.{four_bytes, two_bytes, interface_bytes, interface_says, packet_bytes, packet_says, section_header, section_says};
ghost use Rattle.pcapng_blocks.specs.File.{IsInterface, IsPacket, IsText};
ghost use Rattle.pcapng_blocks.specs.Texts.{said_interface, said_packet};

use crate::options::{
    comment_length, option_length, padded, push_bytes, push_half, push_number, write_comment,
    write_filled, write_option,
};
use crate::{InterfaceText, PacketText};
use arrayvec::ArrayVec;
use ports::{Failed, Sink, write_whole};

// The types of blocks.
const SECTION_HEADER: u32 = 0x0a0d_0d0a;

const INTERFACE_DESCRIPTION: u32 = 1;

const ENHANCED_PACKET: u32 = 6;

// The magic number of a section, and its version, 1.0.
const MAGIC: u32 = 0x1a2b_3c4d;

const MAJOR: u16 = 1;

const MINOR: u16 = 0;

// The length of a section that is not told.
const UNTOLD: [u8; 8] = [0xff; 8];

// The codes of an interface's name (if_name) and of what there is to say of it (if_description).
const NAME: u16 = 2;

const DESCRIPTION: u16 = 3;

// The option that stamps count ns (if_tsresol 9), and what stands behind options (opt_endofopt).
const RESOLUTION_AND_END: [u8; 12] = [9, 0, 1, 0, 9, 0, 0, 0, 0, 0, 0, 0];

// The bytes of each kind of block before its options or its packet.
const SECTION_HEAD: usize = 24;

const INTERFACE_HEAD: usize = 16;

const PACKET_HEAD: usize = 28;

// How much one in the upper half of a stamp counts in the lower one.
const HALF_TIMES: u64 = 1 << 32;

// How many bytes the length of a block has, which stands at its end once more.
const SIZE_BYTES: u32 = 4;

// Writes the length of a block at its end.
fn write_size<O: Sink>(size: u32, out: &mut O) -> Result<(), Failed>
    ensures { Writes (four_bytes size) (O.told out.old) (O.told out.new) result }
{
    write_whole(out, &size.to_le_bytes())
}

// How long a section header is.
fn section_size(comment: &[u8]) -> u32
    requires { IsText comment.now }
    ensures { result ≡ 12 + length (section_says comment.now) }
{
    SECTION_HEAD as u32 + comment_length(comment) + SIZE_BYTES
}

// A section header up to its options.
fn section_head(size: u32) -> ArrayVec<u8, SECTION_HEAD>
    ensures { result.items ≡ four_bytes 0x0a0d0d0a ++ four_bytes size ++ four_bytes 0x1a2b3c4d ++ two_bytes 1 ++ two_bytes 0 ++ replicate 8 255 }
{
    let mut head = ArrayVec::new();
    push_number(&mut head, SECTION_HEADER);
    push_number(&mut head, size);
    push_number(&mut head, MAGIC);
    push_half(&mut head, MAJOR);
    push_half(&mut head, MINOR);
    push_bytes(&mut head, &UNTOLD);
    head
}

/// Writes a section header, which a file begins with. The comment has fewer than 65,536 bytes.
///
/// It takes no memory. `Failed` comes only where the sink's count of faults rose, or stands at its last value; a front of
/// the block is then written. So it is with the other blocks.
pub fn write_section<O: Sink>(comment: &[u8], out: &mut O) -> Result<(), Failed>
    requires { IsText comment.now }
    ensures { Writes (section_header comment.now) (O.told out.old) (O.told out.new) result }
{
    let size = section_size(comment);
    write_whole(out, section_head(size).as_slice())?;
    write_comment(comment, out)?;
    write_size(size, out)
}

// How long the description of an interface is.
fn interface_size(interface: &InterfaceText<'_>) -> u32
    requires { IsInterface (said_interface interface.now) }
    ensures { result ≡ 12 + length (interface_says (said_interface interface.now)) }
{
    let options = option_length(interface.name) + option_length(interface.description);
    INTERFACE_HEAD as u32 + options + RESOLUTION_AND_END.len() as u32 + SIZE_BYTES
}

// The description of an interface up to its options.
fn interface_head(link: u16, size: u32) -> ArrayVec<u8, INTERFACE_HEAD>
    ensures { result.items ≡ four_bytes 1 ++ four_bytes size ++ two_bytes link ++ two_bytes 0 ++ four_bytes 0 }
{
    let mut head = ArrayVec::new();
    push_number(&mut head, INTERFACE_DESCRIPTION);
    push_number(&mut head, size);
    push_half(&mut head, link);
    push_half(&mut head, 0);
    push_number(&mut head, 0);
    head
}

/// Writes the description of an interface: its name and what there is to say of it have fewer than 65,536 bytes each.
pub fn write_interface<O: Sink>(interface: &InterfaceText<'_>, out: &mut O) -> Result<(), Failed>
    requires { IsInterface (said_interface interface.now) }
    ensures { Writes (interface_bytes (said_interface interface.now)) (O.told out.old) (O.told out.new) result }
{
    let size = interface_size(interface);
    write_whole(out, interface_head(interface.link, size).as_slice())?;
    write_option(NAME, interface.name, out)?;
    write_option(DESCRIPTION, interface.description, out)?;
    write_whole(out, &RESOLUTION_AND_END)?;
    write_size(size, out)
}

// How long the block of a packet is.
fn packet_size(packet: &PacketText<'_>) -> u32
    requires { IsPacket (said_packet packet.now) }
    ensures { result ≡ 12 + length (packet_says (said_packet packet.now)) }
{
    PACKET_HEAD as u32 + padded(packet.bytes) + comment_length(packet.comment) + SIZE_BYTES
}

// The block of a packet up to its bytes.
fn packet_head(packet: &PacketText<'_>, size: u32) -> ArrayVec<u8, PACKET_HEAD>
    requires { IsPacket (said_packet packet.now) }
    ensures { let p = said_packet packet.now in result.items ≡ four_bytes 6 ++ four_bytes size ++ four_bytes p.interface ++ four_bytes (p.stamp / 2 ^ 32)
        ++ four_bytes (p.stamp % 2 ^ 32) ++ four_bytes (length p.bytes) ++ four_bytes p.original }
{
    let mut head = ArrayVec::new();
    push_number(&mut head, ENHANCED_PACKET);
    push_number(&mut head, size);
    push_number(&mut head, packet.interface);
    push_number(&mut head, (packet.stamp / HALF_TIMES) as u32);
    push_number(&mut head, (packet.stamp % HALF_TIMES) as u32);
    push_number(&mut head, packet.bytes.len() as u32);
    push_number(&mut head, packet.original);
    head
}

/// Writes the block of a packet of at most 262,144 bytes; its comment has fewer than 65,536.
pub fn write_packet<O: Sink>(packet: &PacketText<'_>, out: &mut O) -> Result<(), Failed>
    requires { IsPacket (said_packet packet.now) }
    ensures { Writes (packet_bytes (said_packet packet.now)) (O.told out.old) (O.told out.new) result }
{
    let size = packet_size(packet);
    write_whole(out, packet_head(packet, size).as_slice())?;
    write_filled(packet.bytes, out)?;
    write_comment(packet.comment, out)?;
    write_size(size, out)
}
