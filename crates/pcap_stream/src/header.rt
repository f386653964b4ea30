// What the header of a capture says: 24 bytes, of which the magic number, the version and the link type count.
ghost use Rattle.std.specs.Prelude.{◌≡◌, ◌≤◌, ◌%◌, ◌↔◌, length, take, drop, IfOk, IfErr, IfSome, IfNone, IsTrue};
ghost use Rattle.packets.specs.Streams.{IsFrontOf};
ghost use Rattle.pcap_stream.specs.Capture.{version, number_in, BeginsAs, BeginsHeader, LacksMagic, IsFault};
ghost use Rattle.pcap_stream.specs.Inside.{FindsHeader};

use crate::PcapError;
use byteorder::{BigEndian, ByteOrder, LittleEndian};

/// How many bytes the header of a capture has.
pub(crate) const HEADER_BYTES: usize = 24;

// Where the link type stands in the header.
const LINK_PLACE: usize = 20;

// The magic numbers as they are written, in either order.
const BIG_MICROS: [u8; 4] = [0xa1, 0xb2, 0xc3, 0xd4];

const LITTLE_MICROS: [u8; 4] = [0xd4, 0xc3, 0xb2, 0xa1];

const BIG_NANOS: [u8; 4] = [0xa1, 0xb2, 0x3c, 0x4d];

const LITTLE_NANOS: [u8; 4] = [0x4d, 0x3c, 0xb2, 0xa1];

// Version 2.4, as two numbers of 16 bits.
const BIG_VERSION: [u8; 4] = [0, 2, 0, 4];

const LITTLE_VERSION: [u8; 4] = [2, 0, 4, 0];

/// The order of the bytes of a number.
#[derive(Clone, Copy, Debug, PartialEq, Eq)]
pub enum Order {
    /// The most significant byte first.
    Big,
    /// The least significant byte first.
    Little,
}

/// What the fraction of a second is counted in.
#[derive(Clone, Copy, Debug, PartialEq, Eq)]
pub enum Fraction {
    /// In microseconds.
    Micros,
    /// In nanoseconds.
    Nanos,
}

/// What the header of a capture says of its records.
#[derive(Clone, Copy, Debug, PartialEq, Eq)]
pub struct Header {
    /// The order of the bytes of each number.
    pub order: Order,
    /// What fractions of a second are counted in.
    pub fraction: Fraction,
    /// The link type of every packet.
    pub link: u16,
}

impl Order {
    /// The number in the first four bytes.
    pub(crate) fn number(self, bytes: &[u8]) -> u32
        requires { 4 ≤ length bytes.now }
        ensures { result ≡ number_in self 4 bytes.now }
    {
        match self {
            Order::Big => BigEndian::read_u32(bytes),
            Order::Little => LittleEndian::read_u32(bytes),
        }
    }
}

// The first four bytes, or all where there are fewer.
fn first_four(bytes: &[u8]) -> &[u8]
    ensures { result.now ≡ take 4 bytes.now }
{
    if bytes.len() < 4 { bytes } else { &bytes[..4] }
}

// What comes behind the first four bytes.
fn behind_four(bytes: &[u8]) -> &[u8]
    ensures { result.now ≡ drop 4 bytes.now }
{
    if bytes.len() < 4 { &[] } else { &bytes[4..] }
}

// Whether the first four bytes, as far as they are there, begin these.
fn begin(bytes: &[u8], whole: &[u8]) -> bool
    ensures { IsTrue result ↔ IsFrontOf (take 4 bytes.now) whole.now }
{
    whole.starts_with(first_four(bytes))
}

// Whether the first four bytes, as far as they are there, begin the magic number of this order and fraction.
fn has_magic(order: Order, fraction: Fraction, bytes: &[u8]) -> bool
    ensures { IsTrue result ↔ BeginsAs bytes.now order fraction }
{
    match (order, fraction) {
        (Order::Big, Fraction::Micros) => begin(bytes, &BIG_MICROS),
        (Order::Little, Fraction::Micros) => begin(bytes, &LITTLE_MICROS),
        (Order::Big, Fraction::Nanos) => begin(bytes, &BIG_NANOS),
        (Order::Little, Fraction::Nanos) => begin(bytes, &LITTLE_NANOS),
    }
}

// The first of the magic numbers that these bytes begin.
fn read_magic(bytes: &[u8]) -> Option<(Order, Fraction)>
    ensures some { IfSome result (λ found. BeginsAs bytes.now found.0 found.1) }
    ensures none { IfNone result (LacksMagic bytes.now) }
{
    if has_magic(Order::Big, Fraction::Micros, bytes) {
        Some((Order::Big, Fraction::Micros))
    } else if has_magic(Order::Little, Fraction::Micros, bytes) {
        Some((Order::Little, Fraction::Micros))
    } else if has_magic(Order::Big, Fraction::Nanos, bytes) {
        Some((Order::Big, Fraction::Nanos))
    } else if has_magic(Order::Little, Fraction::Nanos, bytes) {
        Some((Order::Little, Fraction::Nanos))
    } else {
        None
    }
}

// Whether the bytes behind the magic number begin version 2.4.
fn has_version(order: Order, bytes: &[u8]) -> bool
    ensures { IsTrue result ↔ IsFrontOf (take 4 (drop 4 bytes.now)) (version order) }
{
    let behind = behind_four(bytes);
    match order {
        Order::Big => begin(behind, &BIG_VERSION),
        Order::Little => begin(behind, &LITTLE_VERSION),
    }
}

impl Header {
    /// Whether these bytes begin as a capture with this header does, with its magic number and version.
    pub(crate) fn begins(self, bytes: &[u8]) -> bool
        requires { 8 ≤ length bytes.now }
        ensures { IsTrue result ↔ BeginsHeader self bytes.now }
    {
        has_magic(self.order, self.fraction, bytes) && has_version(self.order, bytes)
    }
}

/// The header that a capture begins with, or `None` where fewer than 24 bytes came and may still become one. `Magic` and
/// `Version` come as they do for the whole capture, as soon as a byte is wrong.
pub(crate) fn read_header(bytes: &[u8]) -> Result<Option<Header>, PcapError>
    ensures ok { IfOk result (λ found. FindsHeader bytes.now found) }
    ensures fault { IfErr result (λ e. IsFault bytes.now e) }
{
    let Some((order, fraction)) = read_magic(bytes) else {
        return Err(PcapError::Magic);
    };
    if !has_version(order, bytes) {
        return Err(PcapError::Version);
    }
    if bytes.len() < HEADER_BYTES {
        return Ok(None);
    }
    let link = (order.number(&bytes[LINK_PLACE..]) % 65536) as u16;
    Ok(Some(Header {
        order,
        fraction,
        link,
    }))
}
