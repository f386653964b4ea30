// Pieces that are gathered, so that one write takes many of them.
ghost use Rattle.std.specs.Prelude.{◌≡◌, ◌++◌, [], OnOk};
ghost use Rattle.ports.specs.Content.{Writes};
ghost use Rattle.problem_text.specs.Paged.{Puts};

use arrayvec::ArrayVec;
use ports::{Failed, Sink, write_whole};

/// How many bytes a page holds at most.
pub const PAGE_ROOM: usize = 4096;

/// Bytes that are held, to be written later. It takes no memory.
pub type Page = ArrayVec<u8, PAGE_ROOM>;

// Writes what is held, and then holds the piece, or writes it where it is longer than a page.
fn turn<O: Sink>(page: &mut Page, piece: &[u8], out: &mut O) -> Result<(), Failed>
    ensures { Puts piece.now page.old.items page.new.items (O.told out.old) (O.told out.new) result }
{
    write_whole(out, page.as_slice())?;
    page.clear();
    if page.try_extend_from_slice(piece).is_ok() {
        return Ok(());
    }
    write_whole(out, piece)
}

/// Puts a piece behind the bytes of a page. Where it does not fit, these are written first, and a piece that is longer than a
/// page is written as it is. After `Failed`, which comes only where the sink's count of faults rose, some front of all this
/// is written.
pub fn put<O: Sink>(page: &mut Page, piece: &[u8], out: &mut O) -> Result<(), Failed>
    ensures { Puts piece.now page.old.items page.new.items (O.told out.old) (O.told out.new) result }
{
    if page.try_extend_from_slice(piece).is_ok() {
        return Ok(());
    }
    turn(page, piece, out)
}
