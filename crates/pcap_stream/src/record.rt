// Records: 16 bytes that say what was captured, and the bytes that were.
ghost use Rattle.std.specs.Prelude.{◌≡◌, ◌+◌, ◌*◌, ◌≤◌, ◌^◌, [], length, drop, IfOk, IfErr};
ghost use Rattle.pcap_stream.specs.Capture.{number_in, nanos};
ghost use Rattle.packets.specs.Packets.{Adds};
ghost use Rattle.pcap_stream.specs.Inside.{FindsRecord, IsRecordFault, EndsRecords, IsRecordsFault};

use crate::PcapError;
use crate::header::{Fraction, Header};
use atto::Nano;
use packets::{FirstPackets, Packet};
use std::alloc::Global;

// How many bytes stand before those that were captured.
const HEAD_BYTES: usize = 16;

// Where the head says the fraction of a second, how many bytes were captured, and how many there were.
const FRACTION_PLACE: usize = 4;

const CAPTURED_PLACE: usize = 8;

const ORIGINAL_PLACE: usize = 12;

// How many bytes of a packet may be captured.
const MOST_CAPTURED: u32 = 262_144;

const NANOS_A_SECOND: u64 = 1_000_000_000;

// The stamp that the head of a record says, below 2^62 whatever stands there.
fn stamp_of(header: Header, head: &[u8]) -> Nano
    requires { 8 ≤ length head.now }
    ensures { result ≡ number_in header.order 4 head.now * 1000000000 + nanos header.fraction (number_in header.order 4 (drop 4 head.now)) }
{
    let seconds = u64::from(header.order.number(head));
    let fraction = u64::from(header.order.number(&head[FRACTION_PLACE..]));
    let nanos = match header.fraction {
        Fraction::Micros => fraction * 1000,
        Fraction::Nanos => fraction,
    };
    Nano::new(seconds * NANOS_A_SECOND + nanos).unwrap()
}

// The packet of the record that begins these bytes, or `None` where they begin no whole record. `Header` of this place
// comes where the 16 bytes of its head begin a second file header, and `Length` where it is none and says that more than
// 262,144 bytes were captured.
fn read_record(
    alloc: Global,
    header: Header,
    place: u32,
    bytes: &[u8],
) -> Result<Option<Packet>, PcapError>
    ensures ok { IfOk result (λ found. FindsRecord header bytes.now found) }
    ensures fault { IfErr result (λ e. IsRecordFault header bytes.now place e) }
{
    if bytes.len() < HEAD_BYTES {
        return Ok(None);
    }
    if header.begins(bytes) {
        return Err(PcapError::Header(place));
    }
    let (head, behind) = bytes.split_at(HEAD_BYTES);
    let captured = header.order.number(&head[CAPTURED_PLACE..]);
    if captured > MOST_CAPTURED {
        return Err(PcapError::Length(place));
    }
    if behind.len() < captured as usize {
        return Ok(None);
    }
    let bytes = Vec::from_slice(alloc, &behind[..captured as usize])?;
    Ok(Some(Packet {
        stamp: stamp_of(header, head),
        link: header.link,
        interface: None,
        original_length: header.order.number(&head[ORIGINAL_PLACE..]),
        bytes,
    }))
}

/// Takes the packets of the whole records that begin these bytes, which stand at this place of a capture, and answers what
/// is left. `Header` has the place of a second file header behind them, and `Length` that of a record of more than 262,144
/// bytes.
pub(crate) fn read_records<'a>(
    alloc: Global,
    header: Header,
    place: u32,
    bytes: &'a [u8],
    packets: &mut FirstPackets,
) -> Result<&'a [u8], PcapError>
    requires { place + length bytes.now ≤ 2 ^ 30 }
    ensures ok { IfOk result (λ left. Adds (λ added. EndsRecords header bytes.now left.now [] added) packets.old packets.new) }
    ensures fault { IfErr result (λ e. IsRecordsFault header bytes.now place e) }
{
    let mut left = bytes;
    'records: while let Some(packet) = read_record(
        alloc,
        header,
        place + (bytes.len() - left.len()) as u32,
        left,
    )? {
        left = &left[HEAD_BYTES + packet.bytes.len()..];
        packets.push(packet)?;
    }
    Ok(left)
}
