// The formats of captures. This file alone tells them apart.
ghost use Rattle.std.specs.Prelude.{◌≡◌, ◌≤◌, ◌<◌, ◌+◌, ◌^◌, [], length, IfOk, IfErr};
ghost use Rattle.packets.specs.Packets.{Adds};
ghost use Rattle.pcapng_stream.specs.Feeding.{waiting_blocks};
ghost use Rattle.captures.specs.Formats.{ClassicTail, PcapngTail, IsFault, IsKept, IsPcapng, classic_fault, dropped_of, kept_in, passed_of, pcapng_fault, taken, waiting_of};
ghost use Rattle.captures.specs.Kept.{Begins, GoesOn, IsRefused};

use crate::CaptureError;
use packets::{Dropped, FirstPackets, Passed};
use pcap_stream::{PcapError, PcapStream};
use pcapng_stream::{BlockStream, PcapngError};
use std::alloc::Global;

// The first byte of a capture in blocks.
const SECTION_BYTE: u8 = 0x0a;

/// A capture so far, by its first byte.
#[derive(Drop)]
pub(crate) enum Kind {
    /// No byte came yet.
    Unknown,
    /// A classic capture.
    Classic(PcapStream),
    /// A capture in blocks.
    Pcapng(BlockStream),
}

impl Kind {
    /// How many bytes came behind the last whole record or block, or of a header that is not whole.
    pub(crate) fn pending(&self) -> u32
        ensures { result ≡ waiting_of (kept_in self.now) }
    {
        match self {
            Kind::Unknown => 0,
            Kind::Classic(stream) => stream.pending(),
            Kind::Pcapng(stream) => stream.pending(),
        }
    }

    /// How many packets were passed over, by cause. Of a classic capture none are.
    pub(crate) fn passed(&self) -> Passed
        ensures { result ≡ passed_of (kept_in self.now) }
    {
        match self {
            Kind::Unknown => Passed::none(),
            Kind::Classic(_) => Passed::none(),
            Kind::Pcapng(stream) => stream.passed(),
        }
    }

    /// How many packets were dropped before they were captured. A classic capture tells of none.
    pub(crate) fn dropped(&self) -> Dropped
        ensures { result ≡ dropped_of (kept_in self.now) }
    {
        match self {
            Kind::Unknown => Dropped::none(),
            Kind::Classic(_) => Dropped::none(),
            Kind::Pcapng(stream) => stream.dropped(),
        }
    }
}

impl From<PcapError> for CaptureError {
    ghost from_gives = { λ fault e. e ≡ classic_fault fault };

    fn from(fault: PcapError) -> CaptureError {
        match fault {
            PcapError::Magic => CaptureError::Magic,
            PcapError::Version => CaptureError::Version,
            PcapError::Header(place) => CaptureError::Header(place),
            PcapError::Length(place) => CaptureError::Length(place),
            PcapError::Memory => CaptureError::Memory,
        }
    }
}

impl From<PcapngError> for CaptureError {
    ghost from_gives = { λ fault e. e ≡ pcapng_fault fault };

    fn from(fault: PcapngError) -> CaptureError {
        match fault {
            PcapngError::Magic => CaptureError::Magic,
            PcapngError::Version => CaptureError::Version,
            PcapngError::Length(place) => CaptureError::Length(place),
            PcapngError::Block(place) => CaptureError::Block(place),
            PcapngError::Memory => CaptureError::Memory,
        }
    }
}

// The next of a classic capture.
fn read_classic(
    stream: &PcapStream,
    piece: &[u8],
    packets: &mut FirstPackets,
) -> Result<Kind, CaptureError>
    requires early { stream.now.offset + length stream.now.rest + length piece.now ≤ 2 ^ 30 }
    requires begun { 0 < stream.now.offset + length stream.now.rest }
    ensures ok { IfOk result (λ next. Adds (λ added. GoesOn (ClassicTail stream.now) piece.now [] added next) packets.old packets.new) }
    ensures fault { IfErr result (λ e. IsRefused (ClassicTail stream.now) piece.now e) }
{
    Ok(Kind::Classic(stream.read(piece, packets)?))
}

// The next of a capture in blocks.
fn read_blocks(
    stream: &BlockStream,
    piece: &[u8],
    packets: &mut FirstPackets,
) -> Result<Kind, CaptureError>
    requires { stream.now.offset + waiting_blocks stream.now + length piece.now ≤ 2 ^ 30 }
    ensures ok { IfOk result (λ next. Adds (λ added. GoesOn (PcapngTail stream.now) piece.now [] added next) packets.old packets.new) }
    ensures fault { IfErr result (λ e. IsRefused (PcapngTail stream.now) piece.now e) }
{
    Ok(Kind::Pcapng(stream.read(piece, packets)?))
}

// The first piece of a classic capture.
fn begin_classic(
    alloc: Global,
    piece: &[u8],
    packets: &mut FirstPackets,
) -> Result<Kind, CaptureError>
    requires early { length piece.now ≤ 2 ^ 30 }
    requires begun { 0 < length piece.now }
    requires classic { IsPcapng piece.now → ⊥ }
    ensures ok { IfOk result (λ next. Adds (λ added. Begins piece.now [] added next) packets.old packets.new) }
    ensures fault { IfErr result (λ e. IsFault piece.now e) }
{
    Ok(Kind::Classic(PcapStream::new(alloc).read(piece, packets)?))
}

// The first piece of a capture in blocks.
fn begin_blocks(
    alloc: Global,
    piece: &[u8],
    packets: &mut FirstPackets,
) -> Result<Kind, CaptureError>
    requires early { length piece.now ≤ 2 ^ 30 }
    requires pcapng { IsPcapng piece.now }
    ensures ok { IfOk result (λ next. Adds (λ added. Begins piece.now [] added next) packets.old packets.new) }
    ensures fault { IfErr result (λ e. IsFault piece.now e) }
{
    Ok(Kind::Pcapng(BlockStream::new(alloc).read(piece, packets)?))
}

// The first piece of a capture, which may be empty: its first byte tells the kind.
fn begin(alloc: Global, piece: &[u8], packets: &mut FirstPackets) -> Result<Kind, CaptureError>
    requires { length piece.now ≤ 2 ^ 30 }
    ensures ok { IfOk result (λ next. Adds (λ added. Begins piece.now [] added next) packets.old packets.new) }
    ensures fault { IfErr result (λ e. IsFault piece.now e) }
{
    if piece.is_empty() {
        return Ok(Kind::Unknown);
    }
    if piece[0] == SECTION_BYTE {
        begin_blocks(alloc, piece, packets)
    } else {
        begin_classic(alloc, piece, packets)
    }
}

/// The next of a capture of this kind, and its packets.
pub(crate) fn read_kind(
    alloc: Global,
    kind: &Kind,
    piece: &[u8],
    packets: &mut FirstPackets,
) -> Result<Kind, CaptureError>
    requires early { taken (kept_in kind.now) + length piece.now ≤ 2 ^ 30 }
    requires kept { IsKept kind.now }
    ensures ok { IfOk result (λ next. Adds (λ added. GoesOn (kept_in kind.now) piece.now [] added next) packets.old packets.new) }
    ensures fault { IfErr result (λ e. IsRefused (kept_in kind.now) piece.now e) }
{
    match kind {
        Kind::Unknown => begin(alloc, piece, packets),
        Kind::Classic(stream) => read_classic(stream, piece, packets),
        Kind::Pcapng(stream) => read_blocks(stream, piece, packets),
    }
}
