// TCP segments (RFC 9293).
ghost use Rattle.std.specs.Prelude.{◌≡◌, ◌<◌, ◌≤◌, length, Some, None, IfOk, IfErr, OnOk};
ghost use Rattle.headers.specs.Checks.{first_reason};
ghost use Rattle.headers.specs.declared.key.Transport.TheVariants.{Tcp};
ghost use Rattle.headers.specs.Transport.{data_offset, options_in, tcp_checks, tcp_part};

use crate::bytes::{behind, front, half_at, word_at};
use crate::options::chosen_options;
use crate::transport::payload_of;
use crate::{Reason, Segment, Transport, Wanted};

// The least header: one without options.
pub(crate) const LEAST_HEADER: u16 = 20;

// The places of fields in a header.
const SOURCE_PORT: usize = 0;

const TARGET_PORT: usize = 2;

const SEQUENCE: usize = 4;

const ACKNOWLEDGED: usize = 8;

const DATA_OFFSET: usize = 12;

const FLAGS: usize = 13;

// The bytes of the header.
pub(crate) fn data_offset(segment: &[u8]) -> u16
    requires { 12 < length segment.now }
    ensures value { result ≡ data_offset segment.now }
    ensures small { result ≤ 60 }
{
    4 * u16::from(segment[DATA_OFFSET] >> 4)
}

// The list of options, between the least header and the payload.
fn options_in(segment: &[u8], header: u16) -> &[u8]
    requires header { header ≡ data_offset segment.now }
    requires least { 20 ≤ header }
    requires captured { header ≤ length segment.now }
    ensures list { result.now ≡ options_in segment.now }
    ensures few { length result.now ≤ 40 }
{
    behind(
        front(segment, usize::from(header)),
        usize::from(LEAST_HEADER),
    )
}

// What the key has of a segment of this length, of which these bytes were captured.
pub(crate) fn read_segment(length: u16, segment: &[u8], wanted: Wanted) -> Result<Transport, Reason>
    requires { wanted.payload_bytes ≤ 64 }
    ensures lawful { OnOk result (first_reason (tcp_checks length segment.now wanted) ≡ None) }
    ensures read { IfOk result (λ part. part ≡ Tcp (tcp_part length segment.now wanted)) }
    ensures refused { IfErr result (λ reason. first_reason (tcp_checks length segment.now wanted) ≡ Some reason) }
{
    if length < LEAST_HEADER {
        return Err(Reason::Length);
    }
    if segment.len() < usize::from(LEAST_HEADER) {
        return Err(Reason::Short);
    }
    let header = data_offset(segment);
    if header < LEAST_HEADER {
        return Err(Reason::Header);
    }
    if length < header {
        return Err(Reason::Length);
    }
    let taken = u16::from(wanted.payload_bytes).min(length - header);
    if segment.len() < usize::from(header + taken) {
        return Err(Reason::Short);
    }
    let options = chosen_options(options_in(segment, header), wanted.tcp_options)?;
    Ok(Transport::Tcp(Segment {
        source_port: half_at(segment, SOURCE_PORT),
        target_port: half_at(segment, TARGET_PORT),
        sequence: word_at(segment, SEQUENCE),
        acknowledged: word_at(segment, ACKNOWLEDGED),
        flags: segment[FLAGS],
        length: length - header,
        payload: payload_of(front(behind(segment, usize::from(header)), usize::from(taken))),
        options,
    }))
}
