// Merged packets that are written.
ghost use Rattle.std.specs.Prelude.{◌≡◌, ◌<◌, ◌≤◌, ◌≤ℤ◌, Some, pos, length, slice_get, map, All, AllPairs, Contains};
ghost use Rattle.std.specs.List.{flat_map};
ghost use Rattle.ports.specs.Content.{Writes};
ghost use Rattle.intervals.specs.declared.ends.Ends.{Ends};
ghost use Rattle.decl.specs.Declaration.{IsDeclaration, declaration_of};
ghost use Rattle.mergecap.specs.MergedCapture.{IsShort, Timed};
ghost use Rattle.mergecap.specs.Packets.{timed, all_timed, shift_of};
ghost use Rattle.pcapng_blocks.specs.Bytes.{interface_bytes, packet_bytes};
ghost use Rattle.pcapng_blocks.specs.File.{IsWritten, file_bytes};
ghost use Rattle.merged_blocks.specs.declared.taps.Tap.{Tap};
ghost use Rattle.merged_blocks.specs.Taps.{StandsBefore, number_of, tap_of};
ghost use Rattle.merged_blocks.specs.Descriptions.{interface_by, tap_interface};
ghost use Rattle.merged_blocks.specs.MergedFile.{AreDated, IsDated, dated_packet, dated_packets, most_taps};
ghost use Rattle.merged_blocks.specs.Ready.{AreReady, IsFileReadBack, file_of};

use crate::MergedPackets;
use crate::dates::stamp_of;
use crate::descriptions::{clock_as, clock_line};
use crate::laws::files_are_read_back;
use crate::remarks::remark_line;
use crate::taps::{Tap, number_of, tap_of};
use decl::{Decl, Label};
use intervals::Ends;
use mergecap::{Start, Stored};
use pcapng_blocks::{InterfaceText, PacketText, write_interface, write_packet, write_section};
use ports::{Failed, Sink};
use problem_model::{Clock, Name};
use traces::EventId;

// The host at a place.
fn host_at(hosts: &[Name], k: u32) -> &Name
    requires { k < length hosts.now }
    ensures { slice_get hosts.now k ≡ Some result.now }
{
    &hosts[k as usize]
}

// The clock at a place.
fn clock_at(clocks: &[Clock], k: u32) -> &Clock
    requires { k < length clocks.now }
    ensures { slice_get clocks.now k ≡ Some result.now }
{
    &clocks[k as usize]
}

// The label at a place.
fn label_at(labels: &[Label], k: u32) -> &Label
    requires { k < length labels.now }
    ensures { slice_get labels.now k ≡ Some result.now }
{
    &labels[k as usize]
}

// The tap at a place.
fn tap_at(taps: &[Tap], k: usize) -> Tap
    requires { k < length taps.now }
    ensures { slice_get taps.now k ≡ Some result }
{
    taps[k]
}

// Writes the interface of a label for a link type.
fn write_label<O: Sink>(decl: &Decl, label: &Label, link: u16, out: &mut O) -> Result<(), Failed>
    requires host { label.now.host < length decl.now.hosts.items }
    requires clock { label.now.clock < length decl.now.clocks.items }
    ensures { Writes (interface_bytes (interface_by (declaration_of decl.now) link (Some label.now))) (O.told out.old) (O.told out.new) result }
{
    let host = host_at(&decl.hosts, label.host);
    let clock = clock_as(label, clock_at(&decl.clocks, label.clock));
    let description = clock_line(host, &clock);
    let interface = InterfaceText {
        link,
        name: label.name.bytes(),
        description: description.as_slice(),
    };
    write_interface(&interface, out)
}

// Writes the interface of a tap.
fn write_tap<O: Sink>(decl: &Decl, tap: Tap, out: &mut O) -> Result<(), Failed>
    requires declared { IsDeclaration (declaration_of decl.now) }
    requires label { tap.place < length decl.now.labels.items }
    ensures { Writes (interface_bytes (tap_interface (declaration_of decl.now) tap)) (O.told out.old) (O.told out.new) result }
{
    let label = label_at(&decl.labels, tap.place);
    write_label(decl, label, tap.link, out)
}

// Writes the interfaces of taps, one after the other.
fn write_taps<O: Sink>(decl: &Decl, taps: &[Tap], out: &mut O) -> Result<(), Failed>
    requires declared { IsDeclaration (declaration_of decl.now) }
    requires labels { All (λ (tap : Tap). tap.place < length decl.now.labels.items) taps.now }
    ensures { Writes (flat_map interface_bytes (map (tap_interface (declaration_of decl.now)) taps.now)) (O.told out.old) (O.told out.new) result }
{
    for place in 0..taps.len() {
        write_tap(decl, tap_at(taps, place), out)?;
    }
    Ok(())
}

// The number of a packet's interface.
fn interface_of(taps: &[Tap], stored: &Stored) -> u32
    requires sorted { AllPairs StandsBefore taps.now }
    requires there { Contains taps.now (tap_of (timed stored.now)) }
    requires few { length taps.now ≤ most_taps }
    ensures is { result ≡ number_of taps.now (tap_of (timed stored.now)) }
{
    number_of(taps, tap_of(stored)) as u32
}

// The ends at a place.
fn ends_at(all: &[Ends], k: usize) -> &Ends
    requires { k < length all.now }
    ensures { slice_get all.now k ≡ Some result.now }
{
    &all[k]
}

// The packet at a place.
fn stored_at(kept: &[Stored], k: usize) -> &Stored
    requires { k < length kept.now }
    ensures { slice_get kept.now k ≡ Some result.now }
{
    &kept[k]
}

// Where dates begin, and the event that packets are told to be so long after.
#[derive(Clone, Copy)]
struct Begin {
    start: Start,
    since: EventId,
}

// Writes a packet under the interface of its tap, with its date as its stamp.
fn write_dated<O: Sink>(
    decl: &Decl,
    taps: &[Tap],
    begin: Begin,
    stored: &Stored,
    ends: &Ends,
    out: &mut O,
) -> Result<(), Failed>
    requires sorted { AllPairs StandsBefore taps.now }
    requires there { Contains taps.now (tap_of (timed stored.now)) }
    requires few { length taps.now ≤ most_taps }
    requires declared { IsDeclaration (declaration_of decl.now) }
    requires label { stored.now.place < length decl.now.labels.items }
    requires since { begin.since.label < length decl.now.labels.items }
    requires time { pos 0 ≤ℤ begin.start.time }
    requires dated { IsDated (shift_of begin.start) (timed stored.now) }
    requires short { IsShort (timed stored.now) }
    ensures { Writes (packet_bytes (dated_packet (declaration_of decl.now) taps.now (shift_of begin.start) begin.since (timed stored.now) ends.now)) (O.told out.old) (O.told out.new) result }
{
    let stamp = match stamp_of(stored, begin.start) {
        Some(stamp) => stamp,
        None => unreachable!(),
    };
    let remark = remark_line(decl, begin.since, stored, ends);
    let packet = PacketText {
        interface: interface_of(taps, stored),
        stamp,
        original: stored.packet.original_length,
        bytes: &stored.packet.bytes,
        comment: remark.as_slice(),
    };
    write_packet(&packet, out)
}

// Writes packets, one after the other.
fn write_packets<O: Sink>(
    decl: &Decl,
    taps: &[Tap],
    begin: Begin,
    kept: &[Stored],
    all: &[Ends],
    out: &mut O,
) -> Result<(), Failed>
    requires declared { IsDeclaration (declaration_of decl.now) }
    requires labels { All (λ (tap : Tap). tap.place < length decl.now.labels.items) taps.now }
    requires time { pos 0 ≤ℤ begin.start.time }
    requires dated { AreDated (all_timed kept.now) taps.now (shift_of begin.start) }
    requires short { All IsShort (all_timed kept.now) }
    requires ends { length all.now ≡ length kept.now }
    requires since { All (λ (e : Ends). begin.since.label < length decl.now.labels.items) all.now }
    ensures { Writes (flat_map packet_bytes (dated_packets (declaration_of decl.now) taps.now (shift_of begin.start) begin.since (all_timed kept.now) all.now)) (O.told out.old) (O.told out.new) result }
{
    for place in 0..kept.len() {
        let ends = ends_at(all, place);
        write_dated(decl, taps, begin, stored_at(kept, place), ends, out)?;
    }
    Ok(())
}

/// Writes these packets, in their order, as a file of pcapng, little-endian, version 1.0: one section, an interface for
/// each tap, and behind them a block for each packet.
///
/// An interface has the link type of its tap, the name of its label (if_name), and says of it (if_description) its host,
/// its clock, and by how much that clock's rate may be off, in parts per billion, and the stamps of its trace, in ns: by
/// the label's own bounds, and by those of the clock where it gives none. Its stamps count ns (if_tsresol 9), and it has
/// no limit on how much of a packet is captured. A packet's stamp is its date, rounded down to whole ns; it has both its
/// lengths, and a comment (opt_comment): `tracesync`, its event, `stamp`, and its stamp in ns of its own clock; `since`,
/// the one event, and the least and the greatest real time from that to it with `to` between them, in ns, with `-inf`
/// and `+inf` where there is no end, and `ns`.
///
/// The declaration is that of the labels, each packet has at most 262,144 bytes, a date and ends, the one event is under
/// a label, and the time of the first event is not below 0. It takes no memory. Where all dates are below 2^62 ns, the
/// whole of it is read as these packets with these stamps, in their order, and nothing is left. `Failed` comes only where
/// the sink's count of faults rose, or stands at its last value; a front of the file is then written.
pub fn write_merged<O: Sink>(decl: &Decl, merged: &MergedPackets, out: &mut O) -> Result<(), Failed>
    requires declared { IsDeclaration (declaration_of decl.now) }
    requires ready { AreReady (declaration_of decl.now) merged.now }
    ensures writes { Writes (file_bytes (file_of (declaration_of decl.now) merged.now)) (O.told out.old) (O.told out.new) result }
    ensures written { IsWritten (file_of (declaration_of decl.now) merged.now) }
    ensures read_back { IsFileReadBack (declaration_of decl.now) merged.now }
{
    // It tells that such a file can be written, and what it is read as.
    files_are_read_back();
    let dated = &merged.dated;
    let begin = Begin {
        start: dated.start,
        since: merged.since.event,
    };
    write_section(b"", out)?;
    write_taps(decl, &dated.taps, out)?;
    write_packets(
        decl,
        &dated.taps,
        begin,
        &dated.packets,
        &merged.since.ends,
        out,
    )
}
