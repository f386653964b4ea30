// The packets of a script, merged into one capture.
ghost use Rattle.std.specs.Prelude.{◌≡◌, ◌⊎◌, ◌++◌, ◌∷◌, [], All};
ghost use Rattle.ports.specs.Content.{Writes};
ghost use Rattle.ports.specs.Files.{Keeps};
ghost use Rattle.mergecap.specs.MergedCapture.{AreWritable, IsShort, merged_capture};
ghost use Rattle.mergecap.specs.Packets.{all_timed};
ghost use Rattle.mergecap.specs.Reading.{IsReadBack};
ghost use Rattle.merge_script.specs.Turns.{reads};
ghost use Rattle.commands.specs.MergedCapture.{MergedAt, NotedAt, TellsUnmerged};
ghost use Rattle.problem_commands.specs.Printing.{Closes, IsOnlyText, Prints};
ghost use Rattle.problem_commands.specs.declared.status.Status.TheVariants as statuses;

use crate::declaration::{DeclFile, decl_in};
use crate::sessions::refuse;
use atto::Steps;
use merge_script::{Unmerged, merge_script};
use mergecap::{Stored, write_capture};
use ports::{Failed, Files, Sink, Source, write_whole};
use problem_commands::Status;
use problem_commands::last_line::finish;
use std::sync::ledger::Ledger;

// Writes a reply, which has no line feed, as a line.
fn write_reply<O: Sink>(reply: &[u8], out: &mut O) -> Result<(), Failed>
    ensures { Writes (reply.now ++ 10 ∷ []) (O.told out.old) (O.told out.new) result }
{
    write_whole(out, reply)?;
    write_whole(out, b"\n")
}

// Prints the reply to a line that is refused, and answers the status.
fn close_reply<O: Sink>(reply: &[u8], out: &mut O) -> Status
    ensures { Closes (reply.now ++ 10 ∷ []) statuses.NoMerge (O.told out.old) (O.told out.new) result }
{
    match write_reply(reply, out) {
        Ok(()) => Status::NoMerge,
        Err(Failed) => Status::WriteFault,
    }
}

/// Prints why packets are not merged, and answers the status.
pub fn tell<O: Sink>(why: Unmerged, out: &mut O) -> Status
    ensures { Prints (TellsUnmerged why) (O.told out.old) (O.told out.new) result }
{
    match why {
        Unmerged::Refused(text) => close_reply(text.as_slice(), out),
        Unmerged::Size => finish(b"size\n", Status::NoMerge, out),
        Unmerged::Inconsistent => finish(b"inconsistent\n", Status::NoMerge, out),
        Unmerged::Links => finish(b"links\n", Status::NoMerge, out),
        Unmerged::Range => finish(b"range\n", Status::NoMerge, out),
        Unmerged::ReadFault => finish(b"read fault\n", Status::ReadFault, out),
        Unmerged::Limit => finish(b"script limit\n", Status::ScriptLimit, out),
        Unmerged::Memory => Status::Memory,
    }
}

// Prints packets as a capture, and answers the status.
fn print<O: Sink>(ordered: &[Stored], out: &mut O) -> Status
    requires writable { AreWritable (all_timed ordered.now) }
    requires short { All IsShort (all_timed ordered.now) }
    ensures prints { Prints (IsOnlyText (merged_capture (all_timed ordered.now)) statuses.Done) (O.told out.old) (O.told out.new) result }
    ensures only { (result ≡ statuses.Done) ⊎ (result ≡ statuses.WriteFault) }
    ensures read_back { IsReadBack (all_timed ordered.now) }
{
    match write_capture(ordered, out) {
        Ok(()) => Status::Done,
        Err(Failed) => Status::WriteFault,
    }
}

/// Prints the packets of all captures that a script adds, in a session over the declaration in a file, as one capture.
/// What there is to tell of the captures beside it goes to `notes`.
pub fn mergecap<F: Files, I: Source, O: Sink, N: Sink, L: Ledger>(
    file: &DeclFile,
    files: &mut F,
    input: &mut I,
    out: &mut O,
    steps: &mut Steps<L>,
    notes: &mut N,
) -> Status
    ensures merged { Prints (MergedAt file.now.path.now (reads (F.told files.old) (I.told input.old)) (reads (F.told files.new) (I.told input.new))) (O.told out.old) (O.told out.new) result }
    ensures noted { NotedAt file.now.path.now (reads (F.told files.old) (I.told input.old)) (reads (F.told files.new) (I.told input.new)) (N.told notes.old) (N.told notes.new) result }
    ensures keeps { Keeps (F.told files.old) (F.told files.new) }
{
    let decl = match decl_in(file.alloc, files, file.path) {
        Ok(decl) => decl,
        Err(undeclared) => return refuse(undeclared, out),
    };
    match merge_script(file.alloc, decl, files, input, steps, notes) {
        Ok(ordered) => print(&ordered, out),
        Err(why) => tell(why, out),
    }
}
