// The order of the bytes of a number.
ghost use Rattle.std.specs.Prelude.{◌≡◌, ◌+◌, ◌≤◌, length};
ghost use Rattle.pcapng_stream.specs.Numbers.{double_at, half_at, word_at};

use crate::bytes::behind;
use byteorder::{BigEndian, ByteOrder, LittleEndian};

/// The order of the bytes of a number.
#[derive(Clone, Copy, Debug, PartialEq, Eq)]
pub enum Order {
    /// The most significant byte first.
    Big,
    /// The least significant byte first.
    Little,
}

impl Order {
    /// The number in the two bytes from a place on.
    pub(crate) fn half_at(self, bytes: &[u8], place: usize) -> u16
        requires { place + 2 ≤ length bytes.now }
        ensures { result ≡ half_at self place bytes.now }
    {
        match self {
            Order::Big => BigEndian::read_u16(behind(bytes, place)),
            Order::Little => LittleEndian::read_u16(behind(bytes, place)),
        }
    }

    /// The number in the four bytes from a place on.
    pub(crate) fn word_at(self, bytes: &[u8], place: usize) -> u32
        requires { place + 4 ≤ length bytes.now }
        ensures { result ≡ word_at self place bytes.now }
    {
        match self {
            Order::Big => BigEndian::read_u32(behind(bytes, place)),
            Order::Little => LittleEndian::read_u32(behind(bytes, place)),
        }
    }

    /// The number in the eight bytes from a place on.
    pub(crate) fn double_at(self, bytes: &[u8], place: usize) -> u64
        requires { place + 8 ≤ length bytes.now }
        ensures { result ≡ double_at self place bytes.now }
    {
        match self {
            Order::Big => BigEndian::read_u64(behind(bytes, place)),
            Order::Little => LittleEndian::read_u64(behind(bytes, place)),
        }
    }
}
