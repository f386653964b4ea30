// What stands before the packets of a capture, and before the bytes of each.
ghost use Rattle.std.specs.Prelude.{◌≡◌, ◌≤◌, ◌<◌, ◌+◌, ◌++◌, ◌↔◌, length, IsTrue};
ghost use Rattle.byteorder.specs.Endian.{little_bytes};
ghost use Rattle.mergecap.specs.MergedCapture.{header, header_nanos, link_type_of, record_of_packet, whole_nanos, IsWritable};
ghost use Rattle.mergecap.specs.Packets.{timed, all_timed};
ghost use Rattle.mergecap.specs.Reading.{HasLinkType};

use crate::Stored;
use arrayvec::ArrayVec;

// How many bytes the header of a capture has, and the head of a record.
const HEADER_BYTES: usize = 24;

const HEAD_BYTES: usize = 16;

// The magic number of little-endian captures with nanoseconds, as it is written.
const LITTLE_NANOS: u32 = 0xa1b2_3c4d;

// Version 2.4.
const MAJOR: u16 = 2;

const MINOR: u16 = 4;

// How many bytes of a packet are captured at most.
const MOST_CAPTURED: u32 = 262_144;

// The link type of a capture without packets: Ethernet.
const ETHERNET: u16 = 1;

const UNITS_A_NANO: u128 = 1_000_000_000;

const NANOS_A_SECOND: u128 = 1_000_000_000;

// The whole ns of the time whose seconds are the magic number, and whose ns are version 2.4 as one number of 32 bits.
const HEADER_NANOS: u128 = 0xa1b2_3c4d * NANOS_A_SECOND + 0x0004_0002;

// The link type of a packet, which has 16 bits.
fn link_type(stored: &Stored) -> u16
    ensures value { result ≡ (timed stored.now).packet.link }
    ensures small { result < 65536 }
{
    stored.packet.link
}

/// The link type of the first packet; that of Ethernet where there is none.
pub(crate) fn link_of(kept: &[Stored]) -> u16
    ensures value { result ≡ link_type_of (all_timed kept.now) }
    ensures small { HasLinkType (all_timed kept.now) }
{
    match kept.first() {
        Some(stored) => link_type(stored),
        None => ETHERNET,
    }
}

// Appends bytes within the room.
fn push_bytes<const ROOM: usize>(head: &mut ArrayVec<u8, ROOM>, bytes: &[u8])
    requires { length head.old.items + length bytes.now ≤ ROOM }
    ensures { head.new.items ≡ head.old.items ++ bytes.now }
{
    for byte in bytes {
        head.push(*byte);
    }
}

// Appends a number as four bytes, the least significant first.
fn push_number<const ROOM: usize>(head: &mut ArrayVec<u8, ROOM>, number: u32)
    requires { length head.old.items + 4 ≤ ROOM }
    ensures { head.new.items ≡ head.old.items ++ little_bytes 4 number }
{
    push_bytes(head, &number.to_le_bytes());
}

/// The header of a capture with this link type.
pub(crate) fn header(link: u16) -> ArrayVec<u8, HEADER_BYTES>
    ensures { result.items ≡ header link }
{
    let mut header = ArrayVec::new();
    push_number(&mut header, LITTLE_NANOS);
    push_bytes(&mut header, &MAJOR.to_le_bytes());
    push_bytes(&mut header, &MINOR.to_le_bytes());
    push_number(&mut header, 0);
    push_number(&mut header, 0);
    push_number(&mut header, MOST_CAPTURED);
    push_number(&mut header, u32::from(link));
    header
}

// The whole ns of a time in units of 1e-9 ns that is not below 0.
fn whole_nanos(units: i128) -> u128
    ensures { result ≡ whole_nanos units }
{
    units.unsigned_abs() / UNITS_A_NANO
}

/// Whether the head of a record at this time, which is not below 0, begins as the header does.
pub(crate) fn is_header_time(units: i128) -> bool
    ensures { IsTrue result ↔ (whole_nanos units ≡ header_nanos) }
{
    whole_nanos(units) == HEADER_NANOS
}

/// What stands before the bytes of a packet: its time in seconds and ns, rounded down to whole ns, and twice how many bytes
/// were captured.
pub(crate) fn record_head(stored: &Stored) -> ArrayVec<u8, HEAD_BYTES>
    requires { IsWritable (timed stored.now) }
    ensures { result.items ≡ (record_of_packet (timed stored.now)).head }
{
    let nanos = whole_nanos(stored.value);
    let captured = stored.packet.bytes.len() as u32;
    let mut head = ArrayVec::new();
    push_number(&mut head, (nanos / NANOS_A_SECOND) as u32);
    push_number(&mut head, (nanos % NANOS_A_SECOND) as u32);
    push_number(&mut head, captured);
    push_number(&mut head, captured);
    head
}
