// Numbers in a header and parts of it.
ghost use Rattle.std.specs.Prelude.{◌≡◌, ◌+◌, ◌≤◌, length, take, drop};
ghost use Rattle.headers.specs.Bytes.{address_at, half_at, word_at};

use byteorder::{BigEndian, ByteOrder};

// The bytes from a place on.
pub(crate) fn behind(bytes: &[u8], place: usize) -> &[u8]
    requires { place ≤ length bytes.now }
    ensures { result.now ≡ drop place bytes.now }
{
    &bytes[place..]
}

// The first bytes, as many as there are of so many.
pub(crate) fn front(bytes: &[u8], most: usize) -> &[u8]
    ensures { result.now ≡ take most bytes.now }
{
    if most < bytes.len() {
        &bytes[..most]
    } else {
        bytes
    }
}

// The number in two bytes.
pub(crate) fn half_at(bytes: &[u8], place: usize) -> u16
    requires { place + 2 ≤ length bytes.now }
    ensures { result ≡ half_at place bytes.now }
{
    BigEndian::read_u16(behind(bytes, place))
}

// The number in four bytes.
pub(crate) fn word_at(bytes: &[u8], place: usize) -> u32
    requires { place + 4 ≤ length bytes.now }
    ensures { result ≡ word_at place bytes.now }
{
    BigEndian::read_u32(behind(bytes, place))
}

// The number in sixteen bytes.
pub(crate) fn address_at(bytes: &[u8], place: usize) -> u128
    requires { place + 16 ≤ length bytes.now }
    ensures { result ≡ address_at place bytes.now }
{
    BigEndian::read_u128(behind(bytes, place))
}
