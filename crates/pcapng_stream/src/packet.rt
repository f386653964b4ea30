// Packets in blocks.
ghost use Rattle.std.specs.Prelude.{◌≡◌, ◌≤◌, ◌<◌, ◌*◌, ◌^◌, true, false, nat_lt, length, pos, ◌+ℤ◌, ◌*ℤ◌, unsigned_abs, Some, None, IfSome, IfNone, IfOk, IfErr, OnOk, SomeIff};
ghost use Rattle.pcapng_stream.specs.Blocks.{interface_number, interface_for, time_of, nanos, stamp_on, is_stamp, packet_of};
ghost use Rattle.packets.specs.Packets.{seen_packet};
ghost use Rattle.pcapng_stream.specs.Flaws.{first_flaw, packet_checks};
ghost use Rattle.pcapng_stream.specs.Inside.{block_of, section_of, seen_captured};

use crate::block::WholeBlock;
use crate::bytes::{behind, front, padded};
use crate::flaw::Flaw;
use crate::section::{Interface, OpenSection};
use atto::Nano;
use packets::Packet;
use std::alloc::{AllocError, Global};

// The places of fields in a block with a packet.
const INTERFACE_PLACE: usize = 8;

const HIGH_PLACE: usize = 12;

const LOW_PLACE: usize = 16;

const CAPTURED_PLACE: usize = 20;

const ORIGINAL_PLACE: usize = 24;

// Where the captured bytes begin.
const PACKET_PLACE: usize = 28;

// The bytes of a block beside those that were captured.
const OTHER_BYTES: usize = 32;

// How many bytes of a packet may be captured.
const MOST_CAPTURED: u32 = 262_144;

const NANOS_A_SECOND: u128 = 1_000_000_000;

const TEN: u128 = 10;

// How much one in the upper half of a time counts in the lower one.
const HALF_TIMES: u64 = 1 << 32;

// From here on a resolution is a power of two.
const BINARY: u8 = 128;

// No time of 64 bits comes to a nanosecond where it counts 10^-n s for such an n.
const VANISHING: u8 = 29;

// A time of so many parts of a second in ns, rounded down.
fn nanos(resolution: u8, time: u64) -> u128
    ensures value { result ≡ nanos resolution time }
    ensures small { result ≤ time * 1000000000 }
{
    let billionths = u128::from(time) * NANOS_A_SECOND;
    if resolution >= BINARY {
        billionths >> (resolution % BINARY)
    } else if resolution < VANISHING {
        billionths / TEN.pow(u32::from(resolution))
    } else {
        0
    }
}

/// A packet as a block has it.
#[derive(Clone, Copy, Debug)]
pub struct Captured<'a> {
    pub stamp: Nano,
    pub link: u16,
    pub interface: u32,
    pub original_length: u32,
    pub bytes: &'a [u8],
}

impl Captured<'_> {
    /// The packet with bytes of its own.
    pub(crate) fn packet(&self, alloc: Global) -> Result<Packet, AllocError>
        ensures { IfOk result (λ packet. seen_packet packet ≡ seen_captured self.now) }
    {
        Ok(Packet {
            stamp: self.stamp,
            link: self.link,
            interface: Some(self.interface),
            original_length: self.original_length,
            bytes: Vec::from_slice(alloc, self.bytes)?,
        })
    }
}

// The time of a packet: its upper half comes first.
fn time_of(block: &WholeBlock<'_>) -> u64
    requires { 32 ≤ length block.now.bytes.now }
    ensures { result ≡ time_of (block_of block.now) }
{
    let high = block.order.word_at(block.bytes, HIGH_PLACE);
    let low = block.order.word_at(block.bytes, LOW_PLACE);
    u64::from(high) * HALF_TIMES + u64::from(low)
}

// So many ns and so many seconds, in ns.
fn with_seconds(nanos: u128, seconds: i64) -> i128
    requires { nanos < 2 ^ 94 }
    ensures { result ≡ pos nanos +ℤ seconds *ℤ pos 1000000000 }
{
    nanos as i128 + i128::from(seconds) * 1_000_000_000
}

// The stamp of so many ns, and `None` exactly where they are below 0, or from 2^62 on.
fn stamp_at(nanos: i128) -> Option<Nano>
    ensures { SomeIff result (is_stamp nanos ≡ true) (unsigned_abs nanos) }
{
    if nanos < 0 || nanos >= 1 << 62 {
        return None;
    }
    Nano::new(nanos as u64)
}

// The stamp of a packet on this interface, if it is one.
fn stamp_on(interface: &Interface, block: &WholeBlock<'_>) -> Option<Nano>
    requires { 32 ≤ length block.now.bytes.now }
    ensures { SomeIff result (is_stamp (stamp_on interface.now (block_of block.now)) ≡ true) (unsigned_abs (stamp_on interface.now (block_of block.now))) }
{
    let nanos = nanos(interface.resolution, time_of(block));
    stamp_at(with_seconds(nanos, interface.offset))
}

// The interface of a packet, and `None` where its section has no such one.
fn interface_for(section: &OpenSection, block: &WholeBlock<'_>) -> Option<Interface>
    requires { 32 ≤ length block.now.bytes.now }
    ensures some { IfSome result (λ found. (found ≡ interface_for (section_of section.now) (block_of block.now)) × (nat_lt (interface_number (block_of block.now)) (length section.now.interfaces.items) ≡ true)) }
    ensures none { IfNone result (nat_lt (interface_number (block_of block.now)) (length section.now.interfaces.items) ≡ false) }
{
    let number = block.order.word_at(block.bytes, INTERFACE_PLACE) as usize;
    if number < section.interfaces.len() {
        Some(section.interfaces[number])
    } else {
        None
    }
}

/// The packet in an enhanced packet block of this section, or its first flaw.
pub(crate) fn read_packet<'a>(
    section: &OpenSection,
    block: &WholeBlock<'a>,
) -> Result<Captured<'a>, Flaw>
    requires { 32 ≤ length block.now.bytes.now }
    ensures lawful { OnOk result (first_flaw (packet_checks (section_of section.now) (block_of block.now)) ≡ None) }
    ensures read { IfOk result (λ captured. seen_captured captured ≡ packet_of (section_of section.now) (block_of block.now)) }
    ensures refused { IfErr result (λ flaw. first_flaw (packet_checks (section_of section.now) (block_of block.now)) ≡ Some flaw) }
{
    let Some(interface) = interface_for(section, block) else {
        return Err(Flaw::Malformed);
    };
    let captured = block.order.word_at(block.bytes, CAPTURED_PLACE);
    if captured > MOST_CAPTURED {
        return Err(Flaw::TooLong);
    }
    if block.bytes.len() < OTHER_BYTES + padded(captured as usize) {
        return Err(Flaw::Malformed);
    }
    let Some(stamp) = stamp_on(&interface, block) else {
        return Err(Flaw::Malformed);
    };
    Ok(Captured {
        stamp,
        link: interface.link,
        interface: block.order.word_at(block.bytes, INTERFACE_PLACE),
        original_length: block.order.word_at(block.bytes, ORIGINAL_PLACE),
        bytes: front(behind(block.bytes, PACKET_PLACE), captured as usize),
    })
}
