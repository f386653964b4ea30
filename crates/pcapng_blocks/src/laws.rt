// What a file that is written is read as.
ghost use Rattle.pcapng_blocks.specs.File.{Said};
ghost use Rattle.pcapng_blocks.specs.Reading.{AreReadable, IsReadAs};

/// A law, which does nothing when it runs: a file is read as its packets, each once, in their order, under their
/// interfaces, with their stamps and both their lengths, and nothing is left. No stamp is 2^62 ns or more.
pub fn files_are_read()
    ensures { (f : Said) → AreReadable f → IsReadAs f }
{}
