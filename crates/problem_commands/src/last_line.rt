// How a run ends: its last line and its status.
ghost use Rattle.std.specs.Prelude.{◌≤◌, length};
ghost use Rattle.problem_commands.specs.Printing.{Closes, Prints};
ghost use Rattle.problem_commands.specs.Unread.{TellsUnread};

use crate::print::refusal_line;
use crate::status::Status;
use crate::texts::Unread;
use ports::{Failed, Sink, write_whole};

/// Prints the last line, and answers the status.
pub fn finish<O: Sink>(line: &[u8], status: Status, out: &mut O) -> Status
    ensures { Closes line.now status (O.told out.old) (O.told out.new) result }
{
    match write_whole(out, line) {
        Ok(()) => status,
        Err(Failed) => Status::WriteFault,
    }
}

/// Prints why a file gave no value, and answers the status.
pub fn stop<O: Sink>(unread: Unread, kind: &[u8], status: Status, out: &mut O) -> Status
    requires { length kind.now ≤ 48 }
    ensures { Prints (TellsUnread unread kind.now status) (O.told out.old) (O.told out.new) result }
{
    match unread {
        Unread::Refused(refusal) => finish(refusal_line(kind, refusal).as_slice(), status, out),
        Unread::Fault => finish(b"read fault\n", Status::ReadFault, out),
        Unread::Memory => Status::Memory,
    }
}
