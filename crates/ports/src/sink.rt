// Where bytes go.
ghost use Rattle.ports.specs.Content.{SinkTold, WritesSome, Writes};

use crate::Failed;

/// What bytes are written to, one after another.
pub trait Sink {
    /// The bytes written, where they are told, and how many writes have failed. The count never falls.
    ghost told: { Self → SinkTold };

    /// Writes the first n bytes of `piece`, and answers n: at least 1 where `piece` has bytes. On
    /// `Failed` nothing is written. A device that takes no byte of a piece has failed.
    fn write(&mut self, piece: &[u8]) -> Result<usize, Failed>
        ensures { WritesSome piece.now (told self.old) (told self.new) result };
}

/// Writes all of `piece`, in as many calls as it takes. After `Failed`, which comes only where
/// the sink's count of faults rose, some front of it is written.
pub fn write_whole<O: Sink>(out: &mut O, piece: &[u8]) -> Result<(), Failed>
    ensures { Writes piece.now (O.told out.old) (O.told out.new) result }
{
    let mut done = 0;
    while done < piece.len() {
        done += out.write(&piece[done..])?;
    }
    Ok(())
}
