// The packets of a script, merged.
ghost use Rattle.std.specs.Prelude.{◌≡◌, ◌≤◌, ◌≤ℤ◌, pos, All, IfOk, IfErr, OnOk, OnErr};
ghost use Rattle.ports.specs.Files.{Keeps};
ghost use Rattle.decl.specs.Declaration.{IsDeclaration, declaration_of};
ghost use Rattle.report.specs.Merging.{AreApart};
ghost use Rattle.mergecap.specs.MergedCapture.{AreWritable, IsArranged, IsShort, merge_keys};
ghost use Rattle.mergecap.specs.Packets.{all_timed};
ghost use Rattle.replies.specs.Sessions.{start};
ghost use Rattle.session.specs.Stands.{StandsFor, IsReady, seen_held};
ghost use Rattle.merge_script.specs.Turns.{AreKeptFor, reads};
ghost use Rattle.merge_script.specs.Merged.{IsMergeOf, LacksMerge, MergesTo, MergesNot, IsUnarranged, unarranged};
ghost use Rattle.merge_script.specs.Notes.{AreNoted, IsToldNote, notes_held};

use crate::Unmerged;
use crate::added_packets::{KeptPackets, gather};
use crate::notes::tell_notes;
use atto::Steps;
use decl::Decl;
use mergecap::{ArrangeError, Stored, arrange};
use ports::{Files, LineReader, Sink, Source};
use session::Session;
use std::alloc::Global;
use std::sync::ledger::Ledger;

// Why packets are not arranged.
fn unarranged(error: ArrangeError) -> Unmerged
    ensures { result ≡ unarranged error }
{
    match error {
        ArrangeError::Links => Unmerged::Links,
        ArrangeError::Range => Unmerged::Range,
        ArrangeError::Memory => Unmerged::Memory,
    }
}

// Arranges packets at their times.
fn arranged(alloc: Global, kept: Vec<Stored>) -> Result<Vec<Stored>, Unmerged>
    requires differ { AreApart (merge_keys (all_timed kept.items)) }
    requires times { All (λ (s : Stored). pos 0 ≤ℤ s.value) kept.items }
    ensures arranged { IfOk result (λ all. IsArranged (all_timed kept.items) (all_timed all.items)) }
    ensures writable { IfOk result (λ all. AreWritable (all_timed all.items)) }
    ensures err { IfErr result (IsUnarranged (all_timed kept.items)) }
{
    match arrange(alloc, kept) {
        Ok(ordered) => Ok(ordered),
        Err(error) => Err(unarranged(error)),
    }
}

// Merges all packets that a session was added.
fn merge(alloc: Global, session: &Session, kept: Vec<Stored>) -> Result<Vec<Stored>, Unmerged>
    requires ready { IsReady session.now }
    requires all { AreKeptFor session.now (all_timed kept.items) }
    ensures ok { IfOk result (λ ordered. IsMergeOf session.now.declaration (seen_held session.now.under) (all_timed kept.items) (all_timed ordered.items)) }
    ensures writable { IfOk result (λ ordered. AreWritable (all_timed ordered.items)) }
    ensures short { IfOk result (λ ordered. All IsShort (all_timed ordered.items)) }
    ensures err { IfErr result (LacksMerge session.now.declaration (seen_held session.now.under) (all_timed kept.items)) }
{
    if !session.consistent() {
        return Err(Unmerged::Inconsistent);
    }
    let mut kept = kept;
    session.settle(&mut kept);
    arranged(alloc, kept)
}

// Merges all packets that a session was added, and tells the notes on them where there is a merge.
fn merge_noted<N: Sink>(
    alloc: Global,
    session: &Session,
    kept: Vec<Stored>,
    notes: &mut N,
) -> Result<Vec<Stored>, Unmerged>
    requires ready { IsReady session.now }
    requires all { AreKeptFor session.now (all_timed kept.items) }
    ensures ok { IfOk result (λ ordered. IsMergeOf session.now.declaration (seen_held session.now.under) (all_timed kept.items) (all_timed ordered.items)) }
    ensures writable { IfOk result (λ ordered. AreWritable (all_timed ordered.items)) }
    ensures short { IfOk result (λ ordered. All IsShort (all_timed ordered.items)) }
    ensures err { IfErr result (LacksMerge session.now.declaration (seen_held session.now.under) (all_timed kept.items)) }
    ensures noted { OnOk result (IsToldNote (notes_held session.now.declaration.labels session.now.under) (N.told notes.old) (N.told notes.new)) }
    ensures quiet { OnErr result (N.told notes.new ≡ N.told notes.old) }
{
    match merge(alloc, session, kept) {
        Ok(ordered) => {
            tell_notes(session, notes);
            Ok(ordered)
        }
        Err(why) => Err(why),
    }
}

// Merges the packets that the lines of a script add to a session that begins with nothing.
fn merge_lines<F: Files, I: Source, N: Sink, L: Ledger>(
    alloc: Global,
    session: &mut Session,
    files: &mut F,
    input: &mut I,
    steps: &mut Steps<L>,
    notes: &mut N,
) -> Result<Vec<Stored>, Unmerged>
    requires ready { IsReady session.old }
    requires begins { StandsFor session.old session.old.declaration (start session.old.declaration) }
    ensures ok { IfOk result (λ ordered. MergesTo session.old.declaration (reads (F.told files.old) (I.told input.old)) (reads (F.told files.new) (I.told input.new)) (all_timed ordered.items)) }
    ensures writable { IfOk result (λ ordered. AreWritable (all_timed ordered.items)) }
    ensures short { IfOk result (λ ordered. All IsShort (all_timed ordered.items)) }
    ensures err { IfErr result (MergesNot session.old.declaration (reads (F.told files.old) (I.told input.old)) (reads (F.told files.new) (I.told input.new))) }
    ensures noted { OnOk result (AreNoted session.old.declaration (reads (F.told files.old) (I.told input.old)) (reads (F.told files.new) (I.told input.new)) (N.told notes.old) (N.told notes.new)) }
    ensures quiet { OnErr result (N.told notes.new ≡ N.told notes.old) }
    ensures keeps { Keeps (F.told files.old) (F.told files.new) }
    ensures no_fall { (I.told input.old).faults ≤ (I.told input.new).faults }
{
    let mut reader = LineReader::new();
    let mut kept = KeptPackets {
        packets: Vec::new(alloc),
        bytes: 0,
    };
    gather(session, &mut reader, files, input, &mut kept, steps)?;
    merge_noted(alloc, session, kept.packets, notes)
}

/// Merges the packets of all captures that the lines of a script add, one after another, in a session over this declaration
/// that begins with nothing: in the order of their events' times in the earliest execution, then of the places of their
/// labels, then of their numbers there. Each line is an `add`; a line without a line feed at the end of the script is a line
/// too. Logs take part in the problem, but have no packets.
///
/// Where there is a merge, it tells `notes` of each capture, in the order of the labels, what no packet of the merge
/// shows: a line `LABEL pending B` where B bytes stand behind its last whole record or block, and a line `LABEL passed
/// simple S obsolete O other X` where so many packets of pcapng (draft-ietf-opsawg-pcapng) were passed over. Elsewhere
/// it tells nothing. Where a write of them fails, a front of these lines is told, and the merge is answered all the
/// same.
///
/// `Refused` comes at the first line that is refused, or has over 4,096 bytes, with its reply; `Size` at the first line
/// behind which the packets have more than 2^30 bytes; `ReadFault` where the script could not be read on, and `Limit`
/// where it has more than 2^30 bytes, if the lines that are whole before that are accepted. Where all lines are
/// accepted, `Inconsistent` comes exactly where no execution exists, then `Links` exactly where two packets have
/// different link types, then `Range` exactly where a time has no record: it is 2^32 s or more, or the one at which a
/// record would begin as a file header does (see `mergecap::ArrangeError::Range`). `Memory` comes where memory runs
/// out.
pub fn merge_script<F: Files, I: Source, N: Sink, L: Ledger>(
    alloc: Global,
    decl: Decl,
    files: &mut F,
    input: &mut I,
    steps: &mut Steps<L>,
    notes: &mut N,
) -> Result<Vec<Stored>, Unmerged>
    requires { IsDeclaration (declaration_of decl) }
    ensures ok { IfOk result (λ ordered. MergesTo (declaration_of decl) (reads (F.told files.old) (I.told input.old)) (reads (F.told files.new) (I.told input.new)) (all_timed ordered.items)) }
    ensures writable { IfOk result (λ ordered. AreWritable (all_timed ordered.items)) }
    ensures short { IfOk result (λ ordered. All IsShort (all_timed ordered.items)) }
    ensures err { IfErr result (MergesNot (declaration_of decl) (reads (F.told files.old) (I.told input.old)) (reads (F.told files.new) (I.told input.new))) }
    ensures noted { OnOk result (AreNoted (declaration_of decl) (reads (F.told files.old) (I.told input.old)) (reads (F.told files.new) (I.told input.new)) (N.told notes.old) (N.told notes.new)) }
    ensures quiet { OnErr result (N.told notes.new ≡ N.told notes.old) }
    ensures keeps { Keeps (F.told files.old) (F.told files.new) }
    ensures no_fall { (I.told input.old).faults ≤ (I.told input.new).faults }
{
    match Session::new(alloc, decl) {
        Ok(mut session) => merge_lines(alloc, &mut session, files, input, steps, notes),
        Err(_) => Err(Unmerged::Memory),
    }
}
