// Blocks of bytes: where a line feed is, what is kept of a line, and a read from a source.
ghost use Rattle.std.specs.Prelude.{◌≡◌, ◌≤◌, ◌<◌, ◌++◌, ◌==◌, ℕ, List, length, position, take};
ghost use Rattle.ports.specs.Content.{TakesSome};
ghost use Rattle.ports.specs.Block.{IsKeptFront};

use crate::{Failed, LineText, Source};

// The place of the first line feed.
pub fn feed_place(bytes: &[u8]) -> Option<usize>
    ensures { result ≡ position (λ b. b == 10) bytes.now }
{
    bytes.iter().position(|b| *b == b'\n')
}

// Appends a piece to what is kept of a line, and answers whether the line is too long.
pub fn keep(line: &mut LineText, long: bool, piece: &[u8]) -> bool
    ensures { (front : List ℕ) → IsKeptFront front line.old.items long → IsKeptFront (front ++ piece.now) line.new.items result }
{
    long || line.try_extend_from_slice(piece).is_err()
}

// Reads at most `want` bytes into the front of a block.
pub fn read_block<S: Source>(source: &mut S, block: &mut [u8], want: usize) -> Result<usize, Failed>
    requires some { 0 < want }
    requires fits { want ≤ length block.old }
    ensures { TakesSome (S.told source.old) (S.told source.new) (take want block.old) block.new result }
{
    source.read(&mut block[..want])
}
