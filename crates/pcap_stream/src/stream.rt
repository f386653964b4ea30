// Captures that come in pieces.
ghost use Rattle.std.specs.Prelude.{◌≡◌, ◌≤◌, ◌+◌, ◌^◌, ◌++◌, [], ℕ, List, length, IfOk, IfErr};
ghost use Rattle.pcap_stream.specs.declared.errors.PcapError.TheVariants as errors;
ghost use Rattle.pcap_stream.specs.Capture.{Capture, Record, IsFault};
ghost use Rattle.packets.specs.Packets.{Adds};
ghost use Rattle.pcap_stream.specs.Feeding.{StandsFor, IsNew, IsTail, Grows, tail_of};
ghost use Rattle.pcap_stream.specs.Inside.{IsAt, with_records};

use crate::PcapError;
use crate::header::{HEADER_BYTES, Header, read_header};
use crate::record::read_records;
use packets::FirstPackets;
use std::alloc::Global;
use std::marker::Model;

/// A capture so far: what its header says, and the bytes behind its last whole record, or of a header that is not whole.
///
/// It keeps no byte of a record that is whole. A piece may end anywhere.
#[derive(Drop)]
pub struct PcapStream {
    alloc: Global,
    header: Option<Header>,
    // How many bytes came before the rest.
    offset: u32,
    rest: Vec<u8>,
}

impl Model for PcapStream {
    ghost use Rattle.pcap_stream.specs.Feeding.{Tail, IsTail, tail_of};

    ghost Value = { Tail };

    ghost view = { λ s. tail_of s.header s.offset s.rest.items };

    ghost invariant = { λ s. IsTail (tail_of s.header s.offset s.rest.items) };
}

impl PcapStream {
    /// A capture of which nothing came yet. It takes no memory.
    pub fn new(alloc: Global) -> PcapStream
        ensures { IsNew result }
    {
        PcapStream {
            alloc,
            header: None,
            offset: 0,
            rest: Vec::new(alloc),
        }
    }

    /// How many bytes came behind the last whole record, or of a header that is not whole: below 262,160.
    pub fn pending(&self) -> u32
        ensures { result ≡ length self.now.rest }
    {
        self.rest.len() as u32
    }

    /// Reads the next piece of a capture of at most 2^30 bytes: answers what then stands of it, and adds the packets of the
    /// records that end within the piece.
    ///
    /// An error comes exactly where the capture with this piece is refused, with the first cause, or where memory runs
    /// out. Then some of the packets may have been added, and another piece may be read in place of this one.
    pub fn read(&self, piece: &[u8], packets: &mut FirstPackets) -> Result<PcapStream, PcapError>
        requires { self.now.offset + length self.now.rest + length piece.now ≤ 2 ^ 30 }
        ensures ok { IfOk result (λ next. Adds (λ completed. (s : List ℕ) (c : Capture) → StandsFor self.now s c → Grows next (s ++ piece.now) c [] completed) packets.old packets.new) }
        ensures fault { IfErr result (λ e. (s : List ℕ) (c : Capture) → StandsFor self.now s c → IsFault (s ++ piece.now) e) }
        ensures size { IfOk result (λ next. next.offset + length next.rest ≡ self.now.offset + length self.now.rest + length piece.now) }
    {
        if self.rest.is_empty() {
            return self.go_on(piece, packets);
        }
        let mut bytes = Vec::with_capacity(self.alloc, self.rest.len() + piece.len())?;
        bytes.extend_from_slice(&self.rest)?;
        bytes.extend_from_slice(piece)?;
        self.go_on(&bytes, packets)
    }

    // The next capture and its packets, where the rest and the piece are these bytes.
    fn go_on(&self, bytes: &[u8], packets: &mut FirstPackets) -> Result<PcapStream, PcapError>
        requires { self.now.offset + length bytes.now ≤ 2 ^ 30 }
        ensures ok { IfOk result (λ next. Adds (λ completed. (s piece : List ℕ) (c : Capture) → bytes.now ≡ self.now.rest ++ piece → StandsFor self.now s c
            → Grows next (s ++ piece) c [] completed) packets.old packets.new) }
        ensures fault { IfErr result (λ e. (s piece : List ℕ) (c : Capture) → bytes.now ≡ self.now.rest ++ piece → StandsFor self.now s c → IsFault (s ++ piece) e) }
        ensures size { IfOk result (λ next. next.offset + length next.rest ≡ self.now.offset + length bytes.now) }
    {
        if let Some(header) = self.header {
            return read_on(self.alloc, header, self.offset, bytes, packets);
        }
        match read_header(bytes)? {
            Some(header) => read_on(
                self.alloc,
                header,
                self.offset + HEADER_BYTES as u32,
                &bytes[HEADER_BYTES..],
                packets,
            ),
            None => keep(self.alloc, None, self.offset, bytes),
        }
    }
}

// What is kept of a capture. It takes memory for the rest.
fn keep(
    alloc: Global,
    header: Option<Header>,
    offset: u32,
    rest: &[u8],
) -> Result<PcapStream, PcapError>
    requires { IsTail (tail_of header offset rest.now) }
    ensures ok { IfOk result (λ next. next ≡ tail_of header offset rest.now) }
    ensures memory { IfErr result (λ e. e ≡ errors.Memory) }
{
    Ok(PcapStream {
        alloc,
        header,
        offset,
        rest: Vec::from_slice(alloc, rest)?,
    })
}

// The next capture and its packets, where these bytes stand behind a header and some records.
fn read_on(
    alloc: Global,
    header: Header,
    offset: u32,
    bytes: &[u8],
    packets: &mut FirstPackets,
) -> Result<PcapStream, PcapError>
    requires { offset + length bytes.now ≤ 2 ^ 30 }
    ensures ok { IfOk result (λ next. Adds (λ completed. (s : List ℕ) (records : List Record) → IsAt header s records offset bytes.now
        → Grows next s (with_records header records) [] completed) packets.old packets.new) }
    ensures fault { IfErr result (λ e. (s : List ℕ) (records : List Record) → IsAt header s records offset bytes.now → IsFault s e) }
    ensures size { IfOk result (λ next. next.offset + length next.rest ≡ offset + length bytes.now) }
{
    let rest = read_records(alloc, header, offset, bytes, packets)?;
    keep(
        alloc,
        Some(header),
        offset + (bytes.len() - rest.len()) as u32,
        rest,
    )
}
