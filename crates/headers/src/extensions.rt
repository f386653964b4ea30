// The extension headers of IPv6 (RFC 8200).
ghost use Rattle.std.specs.Prelude.{◌≡◌, ◌≤◌, length, Some, None, Ok, Err, IfOk, IfErr, OnOk};
ghost use Rattle.headers.specs.Checks.{first_reason};
ghost use Rattle.headers.specs.Extensions.{behind_extension, extension_checks, extension_size, goes_on, is_extension, piece_place, walked};
ghost use Rattle.headers.specs.Inside.{follows};

use crate::Reason;
use crate::bytes::{behind, half_at, word_at};
use crate::packet::{Inner, Place};

// So many are walked.
const MOST: u8 = 8;

// The numbers of these headers in IANA's list.
const HOP_BY_HOP: u8 = 0;

const ROUTING: u8 = 43;

const FRAGMENT: u8 = 44;

const DESTINATION: u8 = 60;

// The bytes of the least of them, and what their sizes are counted by.
const UNIT: u16 = 8;

// The places of fields in such a header, the last two in that of a fragment.
const NEXT_HEADER: usize = 0;

const SIZE: usize = 1;

const PLACE: usize = 2;

const IDENTIFICATION: usize = 4;

fn is_extension(number: u8) -> bool
    ensures { result ≡ is_extension number }
{
    number == HOP_BY_HOP || number == ROUTING || number == FRAGMENT || number == DESTINATION
}

// The bytes of the header that comes first.
fn extension_size(inner: &Inner<'_>) -> u16
    requires { 8 ≤ length inner.now.carried.now }
    ensures { result ≡ extension_size (follows inner.now) }
{
    if inner.protocol == FRAGMENT {
        UNIT
    } else {
        UNIT * (u16::from(inner.carried[SIZE]) + 1)
    }
}

// Where a fragment stands, by its header.
fn piece_place(header: &[u8]) -> Option<Place>
    requires { 8 ≤ length header.now }
    ensures { result ≡ piece_place header.now }
{
    let field = half_at(header, PLACE);
    if field % 2 != 0 || field / 8 != 0 {
        Some(Place {
            id: word_at(header, IDENTIFICATION),
            offset: field / 8,
        })
    } else {
        None
    }
}

// Where what follows the header that comes first stands, if it is a fragment.
fn place_behind(inner: &Inner<'_>) -> Option<Place>
    requires { 8 ≤ length inner.now.carried.now }
    ensures { result ≡ (behind_extension (follows inner.now)).cut }
{
    if inner.protocol == FRAGMENT {
        piece_place(inner.carried)
    } else {
        None
    }
}

// What follows the header that comes first.
fn behind_extension<'a>(inner: &Inner<'a>) -> Result<Inner<'a>, Reason>
    ensures lawful { OnOk result (first_reason (extension_checks (follows inner.now)) ≡ None) }
    ensures behind { IfOk result (λ next. follows next ≡ behind_extension (follows inner.now)) }
    ensures refused { IfErr result (λ reason. first_reason (extension_checks (follows inner.now)) ≡ Some reason) }
{
    if inner.length < UNIT {
        return Err(Reason::Length);
    }
    if inner.carried.len() < usize::from(UNIT) {
        return Err(Reason::Short);
    }
    let size = extension_size(inner);
    if inner.length < size {
        return Err(Reason::Length);
    }
    if inner.carried.len() < usize::from(size) {
        return Err(Reason::Short);
    }
    Ok(Inner {
        protocol: inner.carried[NEXT_HEADER],
        length: inner.length - size,
        carried: behind(inner.carried, usize::from(size)),
        cut: place_behind(inner),
    })
}

// Whether an extension header comes.
fn goes_on(inner: &Inner<'_>) -> bool
    ensures { result ≡ goes_on (follows inner.now) }
{
    inner.cut.is_none() && is_extension(inner.protocol)
}

// What stands behind all extension headers.
pub(crate) fn walk<'a>(first: &Inner<'a>) -> Result<Inner<'a>, Reason>
    ensures found { IfOk result (λ inner. walked 8 (follows first.now) ≡ Ok (follows inner)) }
    ensures refused { IfErr result (λ reason. walked 8 (follows first.now) ≡ Err reason) }
{
    let mut inner = *first;
    let mut left = MOST;
    while goes_on(&inner) {
        if left == 0 {
            return Err(Reason::Other);
        }
        inner = behind_extension(&inner)?;
        left -= 1;
    }
    Ok(inner)
}
