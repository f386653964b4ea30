// A session over a script.
ghost use Rattle.ports.specs.Files.{Keeps};
ghost use Rattle.session.specs.Script.{devices};
ghost use Rattle.problem_commands.specs.Printing.{Prints};
ghost use Rattle.commands.specs.Sessions.{TellsUndeclared, ClosesScript, Conducted};

use crate::declaration::{Undeclared, decl_in};
use crate::lines::declaration_line;
use atto::Steps;
use ports::{Files, Sink, Source};
use problem_commands::Status;
use problem_commands::last_line::finish;
use session::{Ended, answer_script};
use std::alloc::Global;
use std::sync::ledger::Ledger;

/// Prints why there is no declaration, and answers the status.
pub fn refuse<O: Sink>(undeclared: Undeclared, out: &mut O) -> Status
    ensures { Prints (TellsUndeclared undeclared) (O.told out.old) (O.told out.new) result }
{
    match undeclared {
        Undeclared::Faulty(number, section, index) => finish(
            declaration_line(number, section, index).as_slice(),
            Status::BadDecl,
            out,
        ),
        Undeclared::Unread => finish(b"read fault\n", Status::ReadFault, out),
        Undeclared::Memory => Status::Memory,
    }
}

// Prints how the lines of the script ended, and answers the status.
fn close<O: Sink>(ended: Ended, out: &mut O) -> Status
    ensures { ClosesScript ended (O.told out.old) (O.told out.new) result }
{
    match ended {
        Ended::Done => Status::Done,
        Ended::ReadFault => finish(b"read fault\n", Status::ReadFault, out),
        Ended::Limit => finish(b"script limit\n", Status::ScriptLimit, out),
        Ended::WriteFault => Status::WriteFault,
        Ended::Memory => Status::Memory,
    }
}

/// Answers the lines of a script, in a session over the declaration in a file.
pub fn session<F: Files, I: Source, O: Sink, L: Ledger>(
    alloc: Global,
    files: &mut F,
    decl: &str,
    input: &mut I,
    out: &mut O,
    steps: &mut Steps<L>,
) -> Status
    ensures conducted { Conducted decl.now
        (devices (F.told files.old) (I.told input.old) (O.told out.old)) (devices (F.told files.new) (I.told input.new) (O.told out.new)) result }
    ensures keeps { Keeps (F.told files.old) (F.told files.new) }
{
    let decl = match decl_in(alloc, files, decl) {
        Ok(decl) => decl,
        Err(undeclared) => return refuse(undeclared, out),
    };
    close(answer_script(alloc, decl, files, input, out, steps), out)
}
