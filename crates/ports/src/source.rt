// Where bytes come from.
ghost use Rattle.ports.specs.Content.{SourceTold, TakesSome};

use crate::Failed;

/// What bytes are read from, one after another.
pub trait Source {
    /// The bytes left, where they are told, and how many reads have failed. The count never falls.
    ghost told: { Self → SourceTold };

    /// Reads at most `buf.len()` bytes into the front of `buf`, and answers how many. Where the
    /// bytes left are told, it gives the first of them and takes them off.
    ///
    /// `Ok(0)` for a buffer with room is the end of the bytes. On `Failed` nothing is taken off.
    fn read(&mut self, buf: &mut [u8]) -> Result<usize, Failed>
        ensures { TakesSome (told self.old) (told self.new) buf.old buf.new result };
}
