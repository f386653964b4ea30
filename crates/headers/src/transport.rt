// What stands behind the headers of the internet protocol, and what it gives to a key.
ghost use Rattle.std.specs.Prelude.{◌≡◌, ◌≤◌, length, Some, None, IfOk, IfErr, OnOk};
ghost use Rattle.headers.specs.Checks.{first_reason};
ghost use Rattle.headers.specs.Inside.{follows};
ghost use Rattle.headers.specs.Pieces.{inner_checks, inner_part};
ghost use Rattle.headers.specs.Transport.{carried_checks, carried_part};

use crate::packet::Inner;
use crate::pieces::read_piece;
use crate::{Reason, Transport, Wanted, tcp, udp};
use arrayvec::ArrayVec;

// The numbers of protocols in IANA's list.
pub(crate) const TCP: u8 = 6;

pub(crate) const UDP: u8 = 17;

// What a whole packet of this protocol gives to a key. `length` is how many bytes it carries; `carried` those of them that
// were captured.
fn read_whole(
    protocol: u8,
    length: u16,
    carried: &[u8],
    wanted: Wanted,
) -> Result<Transport, Reason>
    requires { wanted.payload_bytes ≤ 64 }
    ensures lawful { OnOk result (first_reason (carried_checks protocol length carried.now wanted) ≡ None) }
    ensures read { IfOk result (λ part. part ≡ carried_part protocol length carried.now wanted) }
    ensures refused { IfErr result (λ reason. first_reason (carried_checks protocol length carried.now wanted) ≡ Some reason) }
{
    match protocol {
        TCP => tcp::read_segment(length, carried, wanted),
        UDP => udp::read_datagram(length, carried, wanted.payload_bytes),
        _ => Err(Reason::Other),
    }
}

// What stands behind the headers of a packet gives to a key.
pub(crate) fn transport_of(inner: &Inner<'_>, wanted: Wanted) -> Result<Transport, Reason>
    requires { wanted.payload_bytes ≤ 64 }
    ensures lawful { OnOk result (first_reason (inner_checks (follows inner.now) wanted) ≡ None) }
    ensures read { IfOk result (λ part. part ≡ inner_part (follows inner.now) wanted) }
    ensures refused { IfErr result (λ reason. first_reason (inner_checks (follows inner.now) wanted) ≡ Some reason) }
{
    match inner.cut {
        Some(place) => read_piece(place, inner, wanted.payload_bytes),
        None => read_whole(inner.protocol, inner.length, inner.carried, wanted),
    }
}

// These bytes, of which a key has room for 64.
pub(crate) fn payload_of(bytes: &[u8]) -> ArrayVec<u8, 64>
    requires { length bytes.now ≤ 64 }
    ensures { result.items ≡ bytes.now }
{
    let mut payload = ArrayVec::new();
    payload.try_extend_from_slice(bytes).unwrap();
    payload
}
