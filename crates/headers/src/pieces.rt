// Fragments.
ghost use Rattle.std.specs.Prelude.{◌≡◌, ◌≤◌, length, Some, None, IfOk, IfErr, OnOk};
ghost use Rattle.headers.specs.Checks.{first_reason};
ghost use Rattle.headers.specs.Inside.{follows};
ghost use Rattle.headers.specs.Pieces.{begins, front_size, least_front, piece_checks, piece_part, ports_in};
ghost use Rattle.headers.specs.declared.key.Transport.TheVariants.{Fragment};

use crate::bytes::{behind, front, half_at};
use crate::packet::{Inner, Place};
use crate::transport::{TCP, UDP, payload_of};
use crate::{Piece, Ports, Reason, Transport, tcp, udp};

// The places of both ports, in a header of TCP as of UDP.
const SOURCE_PORT: usize = 0;

const TARGET_PORT: usize = 2;

// Whether a fragment begins with the header of the protocol with this number.
fn begins(number: u8, offset: u16, protocol: u8) -> bool
    ensures { result ≡ begins number offset protocol }
{
    offset == 0 && protocol == number
}

// The least bytes of the header that it begins with: 0 for none.
fn least_front(offset: u16, protocol: u8) -> u16
    ensures { result ≡ least_front offset protocol }
{
    if begins(TCP, offset, protocol) {
        tcp::LEAST_HEADER
    } else if begins(UDP, offset, protocol) {
        udp::HEADER
    } else {
        0
    }
}

// The bytes of that header.
fn front_size(offset: u16, protocol: u8, carried: &[u8]) -> u16
    requires { least_front offset protocol ≤ length carried.now }
    ensures value { result ≡ front_size offset protocol carried.now }
    ensures small { result ≤ 60 }
{
    if begins(TCP, offset, protocol) {
        tcp::data_offset(carried)
    } else {
        least_front(offset, protocol)
    }
}

// The ports of that header.
fn ports_in(offset: u16, protocol: u8, carried: &[u8]) -> Option<Ports>
    requires { least_front offset protocol ≤ length carried.now }
    ensures { result ≡ ports_in offset protocol carried.now }
{
    if begins(TCP, offset, protocol) || begins(UDP, offset, protocol) {
        Some(Ports {
            source: half_at(carried, SOURCE_PORT),
            target: half_at(carried, TARGET_PORT),
        })
    } else {
        None
    }
}

// What the key has of a fragment.
pub(crate) fn read_piece(
    place: Place,
    inner: &Inner<'_>,
    payload_bytes: u8,
) -> Result<Transport, Reason>
    requires { payload_bytes ≤ 64 }
    ensures lawful { OnOk result (first_reason (piece_checks place (follows inner.now) payload_bytes) ≡ None) }
    ensures read { IfOk result (λ part. part ≡ Fragment (piece_part place (follows inner.now) payload_bytes)) }
    ensures refused { IfErr result (λ reason. first_reason (piece_checks place (follows inner.now) payload_bytes) ≡ Some reason) }
{
    let least = least_front(place.offset, inner.protocol);
    if inner.length < least {
        return Err(Reason::Length);
    }
    if inner.carried.len() < usize::from(least) {
        return Err(Reason::Short);
    }
    let size = front_size(place.offset, inner.protocol, inner.carried);
    if size < least {
        return Err(Reason::Header);
    }
    if inner.length < size {
        return Err(Reason::Length);
    }
    let taken = u16::from(payload_bytes).min(inner.length - size);
    if inner.carried.len() < usize::from(size + taken) {
        return Err(Reason::Short);
    }
    Ok(Transport::Fragment(Piece {
        protocol: inner.protocol,
        id: place.id,
        offset: place.offset,
        length: inner.length,
        ports: ports_in(place.offset, inner.protocol, inner.carried),
        payload: payload_of(front(behind(inner.carried, usize::from(size)), usize::from(taken))),
    }))
}
