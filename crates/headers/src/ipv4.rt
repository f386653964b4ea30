// IPv4 datagrams (RFC 791).
ghost use Rattle.std.specs.Prelude.{◌≡◌, ◌<◌, ◌≤◌, length, take, drop, Some, None, IfOk, IfErr, OnOk};
ghost use Rattle.headers.specs.Checks.{first_reason};
ghost use Rattle.headers.specs.Inside.{IsRead};
ghost use Rattle.headers.specs.Ipv4.{datagram_checks, datagram_of, header_length, is_fragment, place_of};

use crate::bytes::{behind, front, half_at, word_at};
use crate::packet::{Inner, Packet, Place, version_in};
use crate::{Network, Reason};

// The version of these datagrams.
pub(crate) const VERSION: u8 = 4;

// The least header: one without options.
const LEAST_HEADER: u16 = 20;

// The places of fields in a header.
const TOTAL_LENGTH: usize = 2;

const IDENTIFICATION: usize = 4;

const FRAGMENT: usize = 6;

const PROTOCOL: usize = 9;

const SOURCE: usize = 12;

const TARGET: usize = 16;

// In the field of a fragment, the bit that says that others follow.
const MORE_FRAGMENTS: u16 = 0x2000;

// The bits of the same field that give its place in the whole.
const OFFSET: u16 = 0x1fff;

// The bytes of the header.
fn header_length(datagram: &[u8]) -> u16
    requires { 0 < length datagram.now }
    ensures value { result ≡ header_length datagram.now }
    ensures small { result ≤ 60 }
{
    4 * u16::from(datagram[0] & 0x0f)
}

fn is_fragment(datagram: &[u8]) -> bool
    requires { 8 ≤ length datagram.now }
    ensures { result ≡ is_fragment datagram.now }
{
    let field = half_at(datagram, FRAGMENT);
    field & MORE_FRAGMENTS != 0 || field & OFFSET != 0
}

// Where it stands in what it is a fragment of, if it is one.
fn place_of(datagram: &[u8]) -> Option<Place>
    requires { 8 ≤ length datagram.now }
    ensures { result ≡ place_of datagram.now }
{
    if is_fragment(datagram) {
        Some(Place {
            id: u32::from(half_at(datagram, IDENTIFICATION)),
            offset: half_at(datagram, FRAGMENT) & OFFSET,
        })
    } else {
        None
    }
}

// Those bytes behind the header that were captured and are of the datagram.
fn carried(datagram: &[u8], header: u16, carried_length: u16) -> &[u8]
    requires { header ≤ length datagram.now }
    ensures { result.now ≡ take carried_length (drop header datagram.now) }
{
    front(
        behind(datagram, usize::from(header)),
        usize::from(carried_length),
    )
}

// Reads the header of a datagram, which may be a fragment where fragments are wanted.
pub(crate) fn read_packet(bytes: &[u8], fragments: bool) -> Result<Packet<'_>, Reason>
    ensures lawful { OnOk result (first_reason (datagram_checks bytes.now fragments) ≡ None) }
    ensures read { IfOk result (λ packet. IsRead (datagram_of bytes.now) packet) }
    ensures refused { IfErr result (λ reason. first_reason (datagram_checks bytes.now fragments) ≡ Some reason) }
{
    if bytes.len() < usize::from(LEAST_HEADER) {
        return Err(Reason::Short);
    }
    let header = header_length(bytes);
    if version_in(bytes) != VERSION || header < LEAST_HEADER {
        return Err(Reason::Header);
    }
    let total = half_at(bytes, TOTAL_LENGTH);
    if total < header {
        return Err(Reason::Length);
    }
    if bytes.len() < usize::from(header) {
        return Err(Reason::Short);
    }
    if is_fragment(bytes) && !fragments {
        return Err(Reason::Fragment);
    }
    Ok(Packet {
        network: Network::V4 {
            source: word_at(bytes, SOURCE),
            target: word_at(bytes, TARGET),
            id: half_at(bytes, IDENTIFICATION),
        },
        inner: Inner {
            protocol: bytes[PROTOCOL],
            length: total - header,
            carried: carried(bytes, header, total - header),
            cut: place_of(bytes),
        },
    })
}
