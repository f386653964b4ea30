// Captures that come in pieces.
ghost use Rattle.std.specs.Prelude.{◌≡◌, ◌≢◌, ◌≤◌, ◌+◌, ◌^◌, ◌++◌, [], ℕ, List, length, IfOk, IfErr, OnErr};
ghost use Rattle.captures.specs.declared.errors.CaptureError.TheVariants as errors;
ghost use Rattle.captures.specs.Capture.{Capture, IsFault};
ghost use Rattle.captures.specs.Feeding.{StandsFor, IsNew, Grows, Adds, IsSame, taken, dropped_of, passed_of, seen_packets, waiting_of};

use crate::CaptureError;
use crate::kind::{Kind, read_kind};
use packets::{Dropped, FirstPackets, Packet, Passed};
use std::alloc::Global;
use std::marker::Model;

/// A capture so far: what is kept of it, so that the next piece can be read.
///
/// The first byte tells its format: 0a begins a capture in pcapng. It keeps no byte of a packet that was given, and of a
/// block that is skipped four at most, however long it is. A piece may end anywhere.
#[derive(Drop)]
pub struct CaptureStream {
    alloc: Global,
    kind: Kind,
}

impl Model for CaptureStream {
    ghost use Rattle.captures.specs.Feeding.{Tail};
    ghost use Rattle.captures.specs.Formats.{kept_in, IsKept};

    ghost Value = { Tail };

    ghost view = { λ s. kept_in s.kind };

    ghost invariant = { λ s. IsKept s.kind };
}

impl CaptureStream {
    /// A capture of which nothing came yet. It takes no memory.
    pub fn new(alloc: Global) -> CaptureStream
        ensures new { IsNew result }
        ensures empty { taken result ≡ 0 }
    {
        CaptureStream {
            alloc,
            kind: Kind::Unknown,
        }
    }

    /// How many bytes came that wait for more.
    pub fn pending(&self) -> u32
        ensures { result ≡ waiting_of self.now }
    {
        self.kind.pending()
    }

    /// How many packets were passed over, by cause: of a capture in pcapng those that have no time, or stand in blocks that
    /// are not read.
    pub fn passed(&self) -> Passed
        ensures { result ≡ passed_of self.now }
    {
        self.kind.passed()
    }

    /// How many packets were dropped before they were captured, as the statistics of a capture in pcapng say: of each
    /// interface of a section what was told last, in all.
    pub fn dropped(&self) -> Dropped
        ensures { result ≡ dropped_of self.now }
    {
        self.kind.dropped()
    }

    /// Reads the next piece of a capture of at most 2^30 bytes: answers what is then kept of it, and appends the packets
    /// that the piece completes.
    ///
    /// An error comes exactly where the capture with this piece is refused, with the first cause, or where memory runs
    /// out. Then `out` is as before, and another piece may be fed in place of this one.
    pub fn feed(&self, piece: &[u8], out: &mut Vec<Packet>) -> Result<CaptureStream, CaptureError>
        requires { taken self.now + length piece.now ≤ 2 ^ 30 }
        ensures ok { IfOk result (λ next. (s : List ℕ) (c : Capture) → StandsFor self.now s c → Grows next (s ++ piece.now) c (seen_packets out.old.items) (seen_packets out.new.items)) }
        ensures fault { IfErr result (λ e. e ≢ errors.Memory → (s : List ℕ) (c : Capture) → StandsFor self.now s c → IsFault (s ++ piece.now) e) }
        ensures size { IfOk result (λ next. taken next ≡ taken self.now + length piece.now) }
        ensures unchanged { OnErr result (out.new.items ≡ out.old.items) }
    {
        let mut first = FirstPackets::new(self.alloc, u64::MAX);
        let next = self.feed_first(piece, &mut first)?;
        out.append(&mut first.kept)?;
        Ok(next)
    }

    /// Reads the next piece as `feed` does, and adds its packets, of which the first are kept as far as there is room.
    ///
    /// An error comes exactly where the capture with this piece is refused, with the first cause, or where memory runs
    /// out. Then `out` is as before, and another piece may be fed in place of this one.
    pub fn feed_first(
        &self,
        piece: &[u8],
        out: &mut FirstPackets,
    ) -> Result<CaptureStream, CaptureError>
        requires { taken self.now + length piece.now ≤ 2 ^ 30 }
        ensures ok { IfOk result (λ next. Adds (λ completed. (s : List ℕ) (c : Capture) → StandsFor self.now s c → Grows next (s ++ piece.now) c [] completed) out.old out.new) }
        ensures fault { IfErr result (λ e. e ≢ errors.Memory → (s : List ℕ) (c : Capture) → StandsFor self.now s c → IsFault (s ++ piece.now) e) }
        ensures size { IfOk result (λ next. taken next ≡ taken self.now + length piece.now) }
        ensures unchanged { OnErr result (IsSame out.old out.new) }
    {
        let mut packets = out.behind(self.alloc);
        let next = self.read(piece, &mut packets)?;
        out.append(packets)?;
        Ok(next)
    }

    // The next capture and its packets.
    fn read(&self, piece: &[u8], packets: &mut FirstPackets) -> Result<CaptureStream, CaptureError>
        requires { taken self.now + length piece.now ≤ 2 ^ 30 }
        ensures ok { IfOk result (λ next. Adds (λ completed. (s : List ℕ) (c : Capture) → StandsFor self.now s c → Grows next (s ++ piece.now) c [] completed) packets.old packets.new) }
        ensures fault { IfErr result (λ e. (s : List ℕ) (c : Capture) → StandsFor self.now s c → IsFault (s ++ piece.now) e) }
        ensures size { IfOk result (λ next. taken next ≡ taken self.now + length piece.now) }
    {
        let kind = read_kind(self.alloc, &self.kind, piece, packets)?;
        Ok(CaptureStream {
            alloc: self.alloc,
            kind,
        })
    }
}
