// The packets of a script, merged into a file of pcapng with their dates.
ghost use Rattle.std.specs.Prelude.{◌≡◌, ◌⊎◌, Some, None, option_map};
ghost use Rattle.ports.specs.Files.{Keeps};
ghost use Rattle.decl.specs.Declaration.{IsDeclaration};
ghost use Rattle.pcapng_blocks.specs.File.{IsWritten, file_bytes};
ghost use Rattle.merged_blocks.specs.Ready.{AreReady, IsFileReadBack, file_of};
ghost use Rattle.replies.specs.Sessions.{start};
ghost use Rattle.session.specs.Stands.{IsReady, StandsFor};
ghost use Rattle.merge_script.specs.Notes.{AreNoted};
ghost use Rattle.merge_script.specs.Turns.{reads};
ghost use Rattle.commands.specs.DatedCapture.{DatedAt, DatedOver};
ghost use Rattle.commands.specs.MergedCapture.{NotedAt};
ghost use Rattle.problem_commands.specs.Printing.{IsOnlyText, Prints};
ghost use Rattle.problem_commands.specs.declared.status.Status.TheVariants as statuses;

use crate::declaration::{DeclFile, decl_in};
use crate::merged::tell;
use crate::sessions::refuse;
use atto::Steps;
use merge_script::date_script;
use merged_blocks::{MergedPackets, write_merged};
use ports::{Failed, Files, Sink, Source};
use problem_commands::Status;
use session::Session;
use std::alloc::Global;
use std::sync::ledger::Ledger;

// Prints packets as a file, under the labels of a session, and answers the status.
fn print<O: Sink>(session: &Session, merged: &MergedPackets, out: &mut O) -> Status
    requires declared { IsDeclaration session.now.declaration }
    requires ready { AreReady session.now.declaration merged.now }
    ensures prints { Prints (IsOnlyText (file_bytes (file_of session.now.declaration merged.now)) statuses.Done) (O.told out.old) (O.told out.new) result }
    ensures only { (result ≡ statuses.Done) ⊎ (result ≡ statuses.WriteFault) }
    ensures written { IsWritten (file_of session.now.declaration merged.now) }
    ensures read_back { IsFileReadBack session.now.declaration merged.now }
{
    match write_merged(session.decl(), merged, out) {
        Ok(()) => Status::Done,
        Err(Failed) => Status::WriteFault,
    }
}

// Prints the packets that a script adds to a session that begins with nothing.
fn date_in<F: Files, I: Source, O: Sink, N: Sink, L: Ledger>(
    alloc: Global,
    session: &mut Session,
    since: Option<&[u8]>,
    files: &mut F,
    input: &mut I,
    out: &mut O,
    steps: &mut Steps<L>,
    notes: &mut N,
) -> Status
    requires declared { IsDeclaration session.old.declaration }
    requires ready { IsReady session.old }
    requires begins { StandsFor session.old session.old.declaration (start session.old.declaration) }
    ensures dated { Prints (DatedOver session.old.declaration (option_map (λ event. event.now) since.entry) (reads (F.told files.old) (I.told input.old)) (reads (F.told files.new) (I.told input.new))) (O.told out.old) (O.told out.new) result }
    ensures noted { (((result ≡ statuses.Done) ⊎ (result ≡ statuses.WriteFault)) × AreNoted session.old.declaration (reads (F.told files.old) (I.told input.old)) (reads (F.told files.new) (I.told input.new)) (N.told notes.old) (N.told notes.new))
        ⊎ ((result ≡ statuses.Done → ⊥) × (N.told notes.new ≡ N.told notes.old)) }
    ensures keeps { Keeps (F.told files.old) (F.told files.new) }
{
    match date_script(alloc, session, since, files, input, steps, notes) {
        Ok(merged) => print(session, &merged, out),
        Err(why) => tell(why, out),
    }
}

// Prints the packets of all captures that a script adds, in a session over the declaration in a file, as a file of pcapng
// with their dates, and with how long each was after the event of a name, or where none is given after the first of all.
fn merge_from<F: Files, I: Source, O: Sink, N: Sink, L: Ledger>(
    file: &DeclFile,
    since: Option<&[u8]>,
    files: &mut F,
    input: &mut I,
    out: &mut O,
    steps: &mut Steps<L>,
    notes: &mut N,
) -> Status
    ensures dated { Prints (DatedAt file.now.path.now (option_map (λ event. event.now) since.entry) (reads (F.told files.old) (I.told input.old)) (reads (F.told files.new) (I.told input.new))) (O.told out.old) (O.told out.new) result }
    ensures noted { NotedAt file.now.path.now (reads (F.told files.old) (I.told input.old)) (reads (F.told files.new) (I.told input.new)) (N.told notes.old) (N.told notes.new) result }
    ensures keeps { Keeps (F.told files.old) (F.told files.new) }
{
    let decl = match decl_in(file.alloc, files, file.path) {
        Ok(decl) => decl,
        Err(undeclared) => return refuse(undeclared, out),
    };
    match Session::new(file.alloc, decl) {
        Ok(mut session) => date_in(
            file.alloc,
            &mut session,
            since,
            files,
            input,
            out,
            steps,
            notes,
        ),
        Err(_) => Status::Memory,
    }
}

/// Prints the packets of all captures that a script adds, in a session over the declaration in a file, as a file of pcapng
/// with their dates, and with how long each was after the first event of all. What there is to tell of the captures beside
/// it goes to `notes`.
pub fn mergecap_dated<F: Files, I: Source, O: Sink, N: Sink, L: Ledger>(
    file: &DeclFile,
    files: &mut F,
    input: &mut I,
    out: &mut O,
    steps: &mut Steps<L>,
    notes: &mut N,
) -> Status
    ensures dated { Prints (DatedAt file.now.path.now None (reads (F.told files.old) (I.told input.old)) (reads (F.told files.new) (I.told input.new))) (O.told out.old) (O.told out.new) result }
    ensures noted { NotedAt file.now.path.now (reads (F.told files.old) (I.told input.old)) (reads (F.told files.new) (I.told input.new)) (N.told notes.old) (N.told notes.new) result }
    ensures keeps { Keeps (F.told files.old) (F.told files.new) }
{
    merge_from(file, None, files, input, out, steps, notes)
}

/// The same with how long each was after the event of a name.
pub fn mergecap_since<F: Files, I: Source, O: Sink, N: Sink, L: Ledger>(
    file: &DeclFile,
    event: &str,
    files: &mut F,
    input: &mut I,
    out: &mut O,
    steps: &mut Steps<L>,
    notes: &mut N,
) -> Status
    ensures dated { Prints (DatedAt file.now.path.now (Some event.now) (reads (F.told files.old) (I.told input.old)) (reads (F.told files.new) (I.told input.new))) (O.told out.old) (O.told out.new) result }
    ensures noted { NotedAt file.now.path.now (reads (F.told files.old) (I.told input.old)) (reads (F.told files.new) (I.told input.new)) (N.told notes.old) (N.told notes.new) result }
    ensures keeps { Keeps (F.told files.old) (F.told files.new) }
{
    let since = Some(event.as_bytes());
    merge_from(file, since, files, input, out, steps, notes)
}
