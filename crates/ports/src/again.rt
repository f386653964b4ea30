// Calls of the host that are made again where a signal interrupted them.
ghost use Rattle.std.specs.Prelude.{◌≤◌, IfOk, length};

use std::io;
use std::io::{ErrorKind, Read, Write};

/// Reads as `reader` does. A read that was interrupted (`EINTR` of POSIX `read`), which moves nothing, is made again.
pub(crate) fn read_again<I: Read>(reader: &mut I, buf: &mut [u8]) -> io::Result<usize>
    ensures { IfOk result (λ n. n ≤ length buf.old) }
{
    for _ in 0..u64::MAX {
        match reader.read(buf) {
            Err(error) if error.kind() == ErrorKind::Interrupted => {}
            answer => return answer,
        }
    }
    Err(ErrorKind::Interrupted.into())
}

/// Writes as `writer` does. A write that was interrupted (`EINTR` of POSIX `write`), which moves nothing, is made again.
pub(crate) fn write_again<W: Write>(writer: &mut W, piece: &[u8]) -> io::Result<usize>
    ensures { IfOk result (λ n. n ≤ length piece.now) }
{
    for _ in 0..u64::MAX {
        match writer.write(piece) {
            Err(error) if error.kind() == ErrorKind::Interrupted => {}
            answer => return answer,
        }
    }
    Err(ErrorKind::Interrupted.into())
}
