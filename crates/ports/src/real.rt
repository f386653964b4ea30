// The real streams of the host.
ghost use Rattle.std.specs.Prelude.{◌≡◌, None};

use crate::again::{read_again, write_again};
use crate::{Failed, Sink, Source};
use std::io::{Read, Write};

/// A writer of the host, as the standard output. What was written is not told. A write that a signal interrupted is
/// made again.
#[derive(Drop)]
pub struct StdSink<W: Write + Drop> {
    writer: W,
    faults: u64,
}

impl<W: Write + Drop> StdSink<W> {
    /// A sink over `writer`: no write has failed.
    pub fn new(writer: W) -> Self
        ensures { ⟦<StdSink<W> as Sink>⟧.told result ≡ record { written = None; faults = 0 } }
    {
        StdSink { writer, faults: 0 }
    }
}

impl<W: Write + Drop> Sink for StdSink<W> {
    ghost told = { λ s. record { written = None; faults = s.faults } };

    fn write(&mut self, piece: &[u8]) -> Result<usize, Failed> {
        match write_again(&mut self.writer, piece) {
            Ok(n) if n > 0 || piece.is_empty() => Ok(n),
            _ => {
                self.faults = self.faults.saturating_add(1);
                Err(Failed)
            }
        }
    }
}

/// A reader of the host, as the standard input. The bytes left are not told. A read that a signal interrupted is made again.
#[derive(Drop)]
pub struct StdSource<I: Read + Drop> {
    reader: I,
    faults: u64,
}

impl<I: Read + Drop> StdSource<I> {
    /// A source over `reader`: no read has failed.
    pub fn new(reader: I) -> Self
        ensures { ⟦<StdSource<I> as Source>⟧.told result ≡ record { left = None; faults = 0 } }
    {
        StdSource { reader, faults: 0 }
    }
}

impl<I: Read + Drop> Source for StdSource<I> {
    ghost told = { λ s. record { left = None; faults = s.faults } };

    fn read(&mut self, buf: &mut [u8]) -> Result<usize, Failed> {
        match read_again(&mut self.reader, buf) {
            Ok(n) => Ok(n),
            Err(_) => {
                self.faults = self.faults.saturating_add(1);
                Err(Failed)
            }
        }
    }
}
