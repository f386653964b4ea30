// What a block gives: a section, an interface, a packet or nothing.
ghost use Rattle.std.specs.Prelude.{◌≡◌, ◌≤◌, [], ◌∷◌, length, None, IfErr, OnOk};
ghost use Rattle.packets.specs.Packets.{Adds};
ghost use Rattle.pcapng_stream.specs.declared.block_kind.BlockKind.TheVariants.{SectionHeader, InterfaceDescription};
ghost use Rattle.pcapng_stream.specs.Blocks.{interface_of, kind_of, packet_of, section_by};
ghost use Rattle.pcapng_stream.specs.Flaws.{first_flaw, packet_checks, kind_checks, least_length, length_checks, flaw_in};
ghost use Rattle.pcapng_stream.specs.Inside.{IsTaken, IsFaultOf, block_of, section_of};

use crate::PcapngError;
use crate::block::WholeBlock;
use crate::block_kind::BlockKind;
use crate::bytes::{behind, front};
use crate::flaw::Flaw;
use crate::options::read_options;
use crate::packet::read_packet;
use crate::section::{Interface, OpenSection};
use crate::statistics::take_statistics;
use packets::{Dropped, FirstPackets};
use std::alloc::Global;

// The major version of a section header, and where it stands.
const MAJOR_VERSION: u16 = 1;

const MAJOR_PLACE: usize = 12;

// The places of fields of an interface.
const LINK_PLACE: usize = 8;

const OPTIONS_PLACE: usize = 16;

// The bytes of an interface beside its options.
const OTHER_BYTES: usize = 20;

// The resolution of an interface that tells none: microseconds.
const MICROSECONDS: u8 = 6;

// How many interfaces a section may have.
const MOST_INTERFACES: usize = 65536;

// Whether both lengths of a block agree, and are no less than its kind needs.
fn check_lengths(place: u32, block: &WholeBlock<'_>) -> Result<(), PcapngError>
    requires { 12 ≤ length block.now.bytes.now }
    ensures ok { OnOk result (first_flaw (length_checks (block_of block.now)) ≡ None) }
    ensures long { OnOk result (least_length (kind_of (block_of block.now)) ≤ length block.now.bytes.now) }
    ensures fault { IfErr result (λ e. IsFaultOf (first_flaw (length_checks (block_of block.now))) place e) }
{
    if block.last_length() as usize != block.bytes.len() {
        return Err(Flaw::Malformed.at(place));
    }
    if block.bytes.len() < block.kind().least_length() {
        return Err(Flaw::Malformed.at(place));
    }
    Ok(())
}

// Begins the section of a section header, which has no interface yet.
fn begin_section(
    place: u32,
    block: &WholeBlock<'_>,
    section: &mut OpenSection,
) -> Result<(), PcapngError>
    requires { 28 ≤ length block.now.bytes.now }
    ensures ok { OnOk result (first_flaw (kind_checks SectionHeader (section_of section.old) (block_of block.now)) ≡ None) }
    ensures taken { OnOk result (section_of section.new ≡ section_by SectionHeader (section_of section.old) (block_of block.now)) }
    ensures fault { IfErr result (λ e. IsFaultOf (first_flaw (kind_checks SectionHeader (section_of section.old) (block_of block.now))) place e) }
{
    if block.order.half_at(block.bytes, MAJOR_PLACE) != MAJOR_VERSION {
        return Err(Flaw::OtherVersion.at(place));
    }
    section.earlier = section.dropped();
    section.order = Some(block.order);
    section.interfaces.clear();
    Ok(())
}

// The interface that a block describes, and `None` where its options are malformed.
fn interface_of(block: &WholeBlock<'_>) -> Option<Interface>
    requires { 20 ≤ length block.now.bytes.now }
    ensures { result ≡ interface_of (block_of block.now) }
{
    let options = front(
        behind(block.bytes, OPTIONS_PLACE),
        block.bytes.len() - OTHER_BYTES,
    );
    let Some(said) = read_options(block.order, options) else {
        return None;
    };
    Some(Interface {
        link: block.order.half_at(block.bytes, LINK_PLACE),
        resolution: said.resolution.unwrap_or(MICROSECONDS),
        offset: said.offset.unwrap_or(0).cast_signed(),
        dropped: Dropped::none(),
    })
}

// Adds the interface that a block describes.
fn add_interface(
    place: u32,
    block: &WholeBlock<'_>,
    section: &mut OpenSection,
) -> Result<(), PcapngError>
    requires { 20 ≤ length block.now.bytes.now }
    ensures ok { OnOk result (first_flaw (kind_checks InterfaceDescription (section_of section.old) (block_of block.now)) ≡ None) }
    ensures taken { OnOk result (section_of section.new ≡ section_by InterfaceDescription (section_of section.old) (block_of block.now)) }
    ensures fault { IfErr result (λ e. IsFaultOf (first_flaw (kind_checks InterfaceDescription (section_of section.old) (block_of block.now))) place e) }
{
    let Some(interface) = interface_of(block) else {
        return Err(Flaw::Malformed.at(place));
    };
    if section.interfaces.len() >= MOST_INTERFACES {
        return Err(Flaw::Malformed.at(place));
    }
    section.interfaces.push(interface)?;
    Ok(())
}

// Adds the packet of a block. It takes memory for it.
fn add_packet(
    alloc: Global,
    place: u32,
    block: &WholeBlock<'_>,
    section: &OpenSection,
    packets: &mut FirstPackets,
) -> Result<(), PcapngError>
    requires { 32 ≤ length block.now.bytes.now }
    ensures ok { OnOk result (first_flaw (packet_checks (section_of section.now) (block_of block.now)) ≡ None) }
    ensures taken { OnOk result (Adds (λ added. added ≡ packet_of (section_of section.now) (block_of block.now) ∷ []) packets.old packets.new) }
    ensures fault { IfErr result (λ e. IsFaultOf (first_flaw (packet_checks (section_of section.now) (block_of block.now))) place e) }
{
    match read_packet(section, block) {
        Ok(captured) => packets.push(captured.packet(alloc)?)?,
        Err(flaw) => return Err(flaw.at(place)),
    }
    Ok(())
}

/// Takes a whole block, which stands at this place of a capture: a section header begins a section, an interface and a
/// packet are added, statistics tell how many packets were dropped, and any other block is skipped. An error comes with
/// its first flaw, or where memory runs out.
pub(crate) fn take_block(
    alloc: Global,
    place: u32,
    block: &WholeBlock<'_>,
    section: &mut OpenSection,
    packets: &mut FirstPackets,
) -> Result<(), PcapngError>
    requires { 12 ≤ length block.now.bytes.now }
    ensures ok { OnOk result (flaw_in (section_of section.old) (block_of block.now) ≡ None) }
    ensures taken { OnOk result (Adds (λ added. IsTaken (section_of section.old) (block_of block.now) (section_of section.new) [] added) packets.old packets.new) }
    ensures fault { IfErr result (λ e. IsFaultOf (flaw_in (section_of section.old) (block_of block.now)) place e) }
{
    check_lengths(place, block)?;
    match block.kind() {
        BlockKind::SectionHeader => begin_section(place, block, section),
        BlockKind::InterfaceDescription => add_interface(place, block, section),
        BlockKind::EnhancedPacket => add_packet(alloc, place, block, section, packets),
        BlockKind::InterfaceStatistics => {
            take_statistics(block, section);
            Ok(())
        }
        BlockKind::Other => Ok(()),
    }
}
