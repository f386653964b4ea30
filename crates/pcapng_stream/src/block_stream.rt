// Captures in blocks that come in pieces.
ghost use Rattle.std.specs.Prelude.{◌≡◌, ◌≤◌, ◌<◌, ◌+◌, ◌^◌, ◌++◌, ℕ, List, [], length, Some, None, IfOk, IfErr};
ghost use Rattle.packets.specs.Packets.{Adds};
ghost use Rattle.pcapng_stream.specs.declared.errors.PcapngError.TheVariants.{Memory};
ghost use Rattle.packets.specs.Passed.{passed_count};
ghost use Rattle.pcapng_stream.specs.Blocks.{dropped_in};
ghost use Rattle.pcapng_stream.specs.Pcapng.{Blocks, IsFault};
ghost use Rattle.pcapng_stream.specs.Feeding.{StandsForBlocks, IsBlockTail, GrowsBlocks, new_tail, waiting_blocks};
ghost use Rattle.pcapng_stream.specs.Inside.{FindsNext, IsHereFault, EndsBlocks, IsBlocksFault, tail_of, section_of};

use crate::PcapngError;
use crate::block::find_block;
use crate::bytes::front;
use crate::content::take_block;
use crate::flaw::Flaw;
use crate::head::begins_section;
use crate::passed::count_block;
use crate::section::OpenSection;
use crate::skipped::{Skipped, held_of, held_with, skipped_in};
use packets::{Dropped, FirstPackets, Passed};
use std::alloc::Global;
use std::marker::Model;

// Reads and counts the whole block that begins these bytes, which stand at this place of a capture, and answers how many
// bytes it has. `None` comes where no whole block begins them.
fn read_block(
    alloc: Global,
    place: u32,
    bytes: &[u8],
    section: &mut OpenSection,
    passed: &mut Passed,
    packets: &mut FirstPackets,
) -> Result<Option<usize>, PcapngError>
    requires { passed_count passed.now ≤ 2 ^ 30 }
    ensures ok { IfOk result (λ found. Adds (λ added. FindsNext (section_of section.old) bytes.now found (section_of section.new) passed.old passed.new [] added) packets.old packets.new) }
    ensures fault { IfErr result (λ e. IsHereFault (section_of section.old) bytes.now place e) }
{
    let block = match find_block(section.order, bytes) {
        Ok(Some(block)) => block,
        Ok(None) => return Ok(None),
        Err(flaw) => return Err(flaw.at(place)),
    };
    take_block(alloc, place, &block, section, packets)?;
    *passed = count_block(*passed, block.order.word_at(block.bytes, 0));
    Ok(Some(block.bytes.len()))
}

// Reads the whole blocks that begin these bytes, which stand at this place of a capture, and answers what is left.
fn read_blocks<'a>(
    alloc: Global,
    place: u32,
    bytes: &'a [u8],
    section: &mut OpenSection,
    passed: &mut Passed,
    packets: &mut FirstPackets,
) -> Result<&'a [u8], PcapngError>
    requires early { place + length bytes.now ≤ 2 ^ 30 }
    requires few { passed_count passed.now ≤ place }
    ensures ok { IfOk result (λ left. Adds (λ added. EndsBlocks (section_of section.old) bytes.now left.now (section_of section.new) passed.old passed.new [] added) packets.old packets.new) }
    ensures fault { IfErr result (λ e. IsBlocksFault (section_of section.old) bytes.now place e) }
{
    let mut left = bytes;
    'walk: while let Some(size) = read_block(
        alloc,
        place + (bytes.len() - left.len()) as u32,
        left,
        section,
        passed,
        packets,
    )? {
        left = &left[size..];
    }
    Ok(left)
}

/// A capture in blocks so far: what its section says, how many packets were passed over or dropped, and the bytes behind its
/// last whole block.
///
/// It keeps no byte of a block that is whole, and of one that is skipped those of its last four alone. A piece may end
/// anywhere.
#[derive(Drop)]
pub struct BlockStream {
    alloc: Global,
    section: OpenSection,
    passed: Passed,
    // How many bytes came before the rest.
    offset: u32,
    // The block that is skipped and begins the rest, if one does.
    skipped: Option<Skipped>,
    // The bytes of the rest: of a skipped block those of its last four.
    held: Vec<u8>,
}

impl Model for BlockStream {
    ghost use Rattle.pcapng_stream.specs.Feeding.{BlockTail, IsBlockTail};
    ghost use Rattle.pcapng_stream.specs.Inside.{tail_of, section_of};

    ghost Value = { BlockTail };

    ghost view = { λ s. tail_of (section_of s.section) s.passed s.offset s.skipped s.held.items };

    ghost invariant = { λ s. IsBlockTail (tail_of (section_of s.section) s.passed s.offset s.skipped s.held.items) };
}

impl BlockStream {
    /// A capture of which nothing came yet. It takes no memory.
    pub fn new(alloc: Global) -> BlockStream
        ensures { result ≡ new_tail }
    {
        let section = OpenSection {
            order: None,
            interfaces: Vec::new(alloc),
            earlier: Dropped::none(),
        };
        BlockStream {
            alloc,
            section,
            passed: Passed::none(),
            offset: 0,
            skipped: None,
            held: Vec::new(alloc),
        }
    }

    /// How many bytes came behind the last whole block.
    pub fn pending(&self) -> u32
        ensures { result ≡ waiting_blocks self.now }
    {
        match self.skipped {
            Some(block) => block.came,
            None => self.held.len() as u32,
        }
    }

    /// How many packets were passed over.
    pub fn passed(&self) -> Passed
        ensures { result ≡ self.now.passed }
    {
        self.passed
    }

    /// How many packets the statistics of interfaces say were dropped: of each interface of a section what was told last,
    /// in all.
    pub fn dropped(&self) -> Dropped
        ensures { result ≡ dropped_in self.now.section }
    {
        self.section.dropped()
    }

    /// Reads the next piece of a capture of at most 2^30 bytes: answers what then stands of it, and adds the packets of the
    /// blocks that end within the piece.
    ///
    /// An error comes exactly where the capture with this piece is refused, with the first cause, or where memory runs
    /// out. Then some of the packets may have been added, and another piece may be read in place of this one.
    pub fn read(&self, piece: &[u8], packets: &mut FirstPackets) -> Result<BlockStream, PcapngError>
        requires { self.now.offset + waiting_blocks self.now + length piece.now ≤ 2 ^ 30 }
        ensures ok { IfOk result (λ next. Adds (λ completed. (s : List ℕ) (c : Blocks) → StandsForBlocks self.now s c → GrowsBlocks next (s ++ piece.now) c [] completed) packets.old packets.new) }
        ensures fault { IfErr result (λ e. (s : List ℕ) (c : Blocks) → StandsForBlocks self.now s c → IsFault (s ++ piece.now) e) }
        ensures size { IfOk result (λ next. next.offset + waiting_blocks next ≡ self.now.offset + waiting_blocks self.now + length piece.now) }
    {
        match self.skipped {
            Some(block) => self.go_through(block, piece, packets),
            None => self.join(piece, packets),
        }
    }

    // The next capture and its packets, where a block is skipped.
    fn go_through(
        &self,
        block: Skipped,
        piece: &[u8],
        packets: &mut FirstPackets,
    ) -> Result<BlockStream, PcapngError>
        requires early { self.now.offset + block.came + length piece.now ≤ 2 ^ 30 }
        requires skips { self.now.skipped ≡ Some block }
        requires cut { block.came < block.size }
        ensures ok { IfOk result (λ next. Adds (λ completed. (s : List ℕ) (c : Blocks) → StandsForBlocks self.now s c → GrowsBlocks next (s ++ piece.now) c [] completed) packets.old packets.new) }
        ensures fault { IfErr result (λ e. (s : List ℕ) (c : Blocks) → StandsForBlocks self.now s c → IsFault (s ++ piece.now) e) }
        ensures size { IfOk result (λ next. next.offset + waiting_blocks next ≡ self.now.offset + block.came + length piece.now) }
    {
        let missing = (block.size - block.came) as usize;
        if piece.len() < missing {
            return self.skip(block, piece);
        }
        let behind = self.end_skipped(block, front(piece, missing))?;
        behind.go_on(&piece[missing..], packets)
    }

    // The next capture and its packets, from the rest and the piece in one slice.
    fn join(&self, piece: &[u8], packets: &mut FirstPackets) -> Result<BlockStream, PcapngError>
        requires early { self.now.offset + length self.now.held + length piece.now ≤ 2 ^ 30 }
        requires none { self.now.skipped ≡ None }
        ensures ok { IfOk result (λ next. Adds (λ completed. (s : List ℕ) (c : Blocks) → StandsForBlocks self.now s c → GrowsBlocks next (s ++ piece.now) c [] completed) packets.old packets.new) }
        ensures fault { IfErr result (λ e. (s : List ℕ) (c : Blocks) → StandsForBlocks self.now s c → IsFault (s ++ piece.now) e) }
        ensures size { IfOk result (λ next. next.offset + waiting_blocks next ≡ self.now.offset + length self.now.held + length piece.now) }
    {
        if self.held.is_empty() {
            return self.go_on(piece, packets);
        }
        let mut bytes = Vec::with_capacity(self.alloc, self.held.len() + piece.len())?;
        bytes.extend_from_slice(&self.held)?;
        bytes.extend_from_slice(piece)?;
        self.go_on(&bytes, packets)
    }

    // The next capture, where this piece does not end the block that is skipped.
    fn skip(&self, block: Skipped, piece: &[u8]) -> Result<BlockStream, PcapngError>
        requires early { self.now.offset + block.came + length piece.now ≤ 2 ^ 30 }
        requires skips { self.now.skipped ≡ Some block }
        requires cut { block.came + length piece.now < block.size }
        ensures ok { IfOk result (λ next. (s : List ℕ) (c : Blocks) → StandsForBlocks self.now s c → GrowsBlocks next (s ++ piece.now) c [] []) }
        ensures size { IfOk result (λ next. next.offset + waiting_blocks next ≡ self.now.offset + block.came + length piece.now) }
        ensures fault { IfErr result (λ e. e ≡ Memory) }
    {
        let section = self.section.copied(self.alloc)?;
        let held = held_with(self.alloc, block, &self.held, piece)?;
        Ok(BlockStream {
            alloc: self.alloc,
            section,
            passed: self.passed,
            offset: self.offset,
            skipped: Some(block.with(piece.len())),
            held,
        })
    }

    // The capture behind the block that is skipped, which this piece ends.
    fn end_skipped(&self, block: Skipped, piece: &[u8]) -> Result<BlockStream, PcapngError>
        requires early { self.now.offset + block.came + length piece.now ≤ 2 ^ 30 }
        requires skips { self.now.skipped ≡ Some block }
        requires whole { block.came + length piece.now ≡ block.size }
        ensures ok { IfOk result (λ next. (s : List ℕ) (c : Blocks) → StandsForBlocks self.now s c → GrowsBlocks next (s ++ piece.now) c [] []) }
        ensures fault { IfErr result (λ e. (s more : List ℕ) (c : Blocks) → StandsForBlocks self.now s c → IsFault (s ++ (piece.now ++ more)) e) }
        ensures nothing { IfOk result (λ next. (next.skipped ≡ None) × (next.held ≡ [])) }
        ensures size { IfOk result (λ next. next.offset ≡ self.now.offset + block.size) }
    {
        let last = held_with(self.alloc, block, &self.held, piece)?;
        if block.order.word_at(&last, 0) != block.size {
            return Err(Flaw::Malformed.at(self.offset));
        }
        let section = self.section.copied(self.alloc)?;
        Ok(BlockStream {
            alloc: self.alloc,
            section,
            passed: count_block(self.passed, block.block_type),
            offset: self.offset + block.size,
            skipped: None,
            held: Vec::new(self.alloc),
        })
    }

    // The next capture and its packets, where the rest and the piece are these bytes.
    fn go_on(&self, bytes: &[u8], packets: &mut FirstPackets) -> Result<BlockStream, PcapngError>
        requires early { self.now.offset + length bytes.now ≤ 2 ^ 30 }
        requires none { self.now.skipped ≡ None }
        ensures ok { IfOk result (λ next. Adds (λ completed. (s piece : List ℕ) (c : Blocks) → bytes.now ≡ self.now.held ++ piece → StandsForBlocks self.now s c
            → GrowsBlocks next (s ++ piece) c [] completed) packets.old packets.new) }
        ensures fault { IfErr result (λ e. (s piece : List ℕ) (c : Blocks) → bytes.now ≡ self.now.held ++ piece → StandsForBlocks self.now s c → IsFault (s ++ piece) e) }
        ensures size { IfOk result (λ next. next.offset + waiting_blocks next ≡ self.now.offset + length bytes.now) }
    {
        if self.section.order.is_none() && !begins_section(bytes) {
            return Err(PcapngError::Magic);
        }
        let mut section = self.section.copied(self.alloc)?;
        let mut passed = self.passed;
        let rest = read_blocks(
            self.alloc,
            self.offset,
            bytes,
            &mut section,
            &mut passed,
            packets,
        )?;
        let skipped = skipped_in(section.order, rest);
        let held = Vec::from_slice(self.alloc, held_of(skipped, rest))?;
        Ok(BlockStream {
            alloc: self.alloc,
            section,
            passed,
            offset: self.offset + (bytes.len() - rest.len()) as u32,
            skipped,
            held,
        })
    }
}
