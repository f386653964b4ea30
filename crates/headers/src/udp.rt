// UDP datagrams (RFC 768).
ghost use Rattle.std.specs.Prelude.{◌≡◌, ◌≤◌, Some, None, IfOk, IfErr, OnOk};
ghost use Rattle.headers.specs.Checks.{first_reason};
ghost use Rattle.headers.specs.declared.key.Transport.TheVariants.{Udp};
ghost use Rattle.headers.specs.Transport.{udp_checks, udp_part};

use crate::bytes::{behind, front, half_at};
use crate::transport::payload_of;
use crate::{Reason, Transport, UserDatagram};

// The bytes of a header.
pub(crate) const HEADER: u16 = 8;

// The places of fields in a header.
const SOURCE_PORT: usize = 0;

const TARGET_PORT: usize = 2;

const LENGTH: usize = 4;

// What the key has of a datagram for which there is so much room, and of which these bytes were captured.
pub(crate) fn read_datagram(
    room: u16,
    datagram: &[u8],
    payload_bytes: u8,
) -> Result<Transport, Reason>
    requires { payload_bytes ≤ 64 }
    ensures lawful { OnOk result (first_reason (udp_checks room datagram.now payload_bytes) ≡ None) }
    ensures read { IfOk result (λ part. part ≡ Udp (udp_part datagram.now payload_bytes)) }
    ensures refused { IfErr result (λ reason. first_reason (udp_checks room datagram.now payload_bytes) ≡ Some reason) }
{
    if room < HEADER {
        return Err(Reason::Length);
    }
    if datagram.len() < usize::from(HEADER) {
        return Err(Reason::Short);
    }
    let length = half_at(datagram, LENGTH);
    if length < HEADER || room < length {
        return Err(Reason::Length);
    }
    let taken = u16::from(payload_bytes).min(length - HEADER);
    if datagram.len() < usize::from(HEADER + taken) {
        return Err(Reason::Short);
    }
    Ok(Transport::Udp(UserDatagram {
        source_port: half_at(datagram, SOURCE_PORT),
        target_port: half_at(datagram, TARGET_PORT),
        length,
        payload: payload_of(front(behind(datagram, usize::from(HEADER)), usize::from(taken))),
    }))
}
