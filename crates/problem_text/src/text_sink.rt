// A text that is held in memory.
ghost use Rattle.std.specs.Prelude.{◌≡◌, [], Some};

use ports::{Failed, Sink};
use std::alloc::{AllocError, Global};

// A sink that keeps what is written, and takes the memory for it as it grows. A write fails where there is none.
#[derive(Drop)]
pub(crate) struct TextSink {
    pub(crate) bytes: Vec<u8>,
    faults: u64,
}

impl TextSink {
    // A sink in which nothing is written. It takes no memory.
    pub(crate) fn new(alloc: Global) -> TextSink
        ensures { ⟦<TextSink as Sink>⟧.told result ≡ record { written = Some []; faults = 0 } }
    {
        TextSink {
            bytes: Vec::new(alloc),
            faults: 0,
        }
    }
}

impl Sink for TextSink {
    ghost told = { λ s. record { written = Some s.bytes.items; faults = s.faults } };

    fn write(&mut self, piece: &[u8]) -> Result<usize, Failed> {
        match self.bytes.extend_from_slice(piece) {
            Ok(()) => Ok(piece.len()),
            Err(AllocError) => {
                self.faults = self.faults.saturating_add(1);
                Err(Failed)
            }
        }
    }
}
