// Captures that are written.
ghost use Rattle.std.specs.Prelude.{All};
ghost use Rattle.std.specs.List.{flat_map};
ghost use Rattle.ports.specs.Content.{Writes};
ghost use Rattle.pcap_stream.specs.Capture.{bytes_of};
ghost use Rattle.mergecap.specs.MergedCapture.{AreWritable, IsShort, IsWritable, merged_capture, record_of_packet};
ghost use Rattle.mergecap.specs.Packets.{timed, all_timed};
ghost use Rattle.mergecap.specs.Reading.{IsReadBack};

use crate::Stored;
use crate::heads::{header, link_of, record_head};
use crate::laws::merged_captures_are_read;
use ports::{Failed, Sink, write_whole};

// Writes the record of a packet.
fn write_record<O: Sink>(stored: &Stored, out: &mut O) -> Result<(), Failed>
    requires { IsWritable (timed stored.now) }
    ensures { Writes (bytes_of (record_of_packet (timed stored.now))) (O.told out.old) (O.told out.new) result }
{
    write_whole(out, record_head(stored).as_slice())?;
    write_whole(out, &stored.packet.bytes)
}

// Writes the records of packets, one after the other.
fn write_records<O: Sink>(kept: &[Stored], out: &mut O) -> Result<(), Failed>
    requires { All (λ (s : Stored). IsWritable (timed s)) kept.now }
    ensures { Writes (flat_map (λ (s : Stored). bytes_of (record_of_packet (timed s))) kept.now) (O.told out.old) (O.told out.new) result }
{
    for stored in kept {
        write_record(stored, out)?;
    }
    Ok(())
}

/// Writes these packets, in their order, as a classic capture: little-endian, version 2.4, with nanoseconds, and with their
/// link type, or that of Ethernet where there is none. A packet's stamp is its time, rounded down to whole ns; as its
/// original length stands how many bytes were captured.
///
/// All packets have one link type, each time has a record (`ArrangeError::Range`), and each packet has at most 262,144
/// bytes. It takes no memory. Read as a capture, the whole of it says these packets with these stamps, in their order,
/// and nothing is left. `Failed` comes only where the sink's count of faults rose, or stands at its last value; a front
/// of the capture is then written.
pub fn write_capture<O: Sink>(kept: &[Stored], out: &mut O) -> Result<(), Failed>
    requires writable { AreWritable (all_timed kept.now) }
    requires short { All IsShort (all_timed kept.now) }
    ensures written { Writes (merged_capture (all_timed kept.now)) (O.told out.old) (O.told out.new) result }
    ensures read_back { IsReadBack (all_timed kept.now) }
{
    // It tells how a merged capture is read.
    merged_captures_are_read();
    write_whole(out, header(link_of(kept)).as_slice())?;
    write_records(kept, out)
}
