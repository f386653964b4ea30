// The packets of a script, merged and dated.
ghost use Rattle.std.specs.Prelude.{◌≡◌, ◌≤◌, ◌≤ℤ◌, ℕ, List, [], Option, Some, true, pos, All, IfOk, IfErr, OnOk, OnErr, option_map};
ghost use Rattle.ports.specs.Files.{Keeps};
ghost use Rattle.report.specs.Merging.{AreApart};
ghost use Rattle.mergecap.specs.MergedCapture.{IsArranged, Timed, merge_keys};
ghost use Rattle.mergecap.specs.Packets.{all_timed, shift_of};
ghost use Rattle.merged_blocks.specs.MergedFile.{AreDated, HaveEnds};
ghost use Rattle.merged_blocks.specs.Ready.{AreDatedUnder, AreReady};
ghost use Rattle.queries.specs.Consistent.{IsConsistent};
ghost use Rattle.replies.specs.Reply.{IsPlacedAt};
ghost use Rattle.replies.specs.Sessions.{start};
ghost use Rattle.session.specs.Settled.{HasEventOf};
ghost use Rattle.session.specs.Since.{AreCountedFrom, AreEndsFrom};
ghost use Rattle.session.specs.Stands.{StandsFor, IsReady, problem_held, seen_held};
ghost use Rattle.merge_script.specs.declared.unmerged.Unmerged.TheVariants.{Memory};
ghost use Rattle.merge_script.specs.Turns.{AreKeptFor, reads};
ghost use Rattle.merge_script.specs.Dated.{DatesNot, IsCountedMergeOf, IsDatedMergeOf, IsOriginFor, IsUndated, KnowsEvent, LacksFile, MergesDated, undated};
ghost use Rattle.merge_script.specs.Notes.{AreNoted, IsToldNote, notes_held};

use crate::Unmerged;
use crate::added_packets::{KeptPackets, gather};
use crate::notes::tell_notes;
use atto::Steps;
use intervals::Ends;
use mergecap::{Start, Stored};
use merged_blocks::{DateError, DatedPackets, MergedPackets, Since, date};
use ports::{Files, LineReader, Sink, Source};
use replies::{Refusal, refused_text};
use session::Session;
use std::alloc::Global;
use std::sync::ledger::Ledger;
use traces::EventId;

// Why packets have no dates.
fn undated(error: DateError) -> Unmerged
    ensures { result ≡ undated error }
{
    match error {
        DateError::Range => Unmerged::Range,
        DateError::Memory => Unmerged::Memory,
    }
}

// Arranges packets at their times, with their dates.
fn dated(alloc: Global, kept: Vec<Stored>, start: Start) -> Result<DatedPackets, Unmerged>
    requires differ { AreApart (merge_keys (all_timed kept.items)) }
    requires values { All (λ (s : Stored). pos 0 ≤ℤ s.value) kept.items }
    requires time { pos 0 ≤ℤ start.time }
    ensures arranged { IfOk result (λ dated. IsArranged (all_timed kept.items) (all_timed dated.packets.items)) }
    ensures start { IfOk result (λ dated. dated.start ≡ start) }
    ensures dated { IfOk result (λ dated. AreDated (all_timed dated.packets.items) dated.taps.items (shift_of start)) }
    ensures err { IfErr result (IsUndated (all_timed kept.items) (shift_of start)) }
{
    match date(alloc, kept, start) {
        Ok(dated) => Ok(dated),
        Err(error) => Err(undated(error)),
    }
}

// The event of this name, from which times are counted.
fn named_origin(session: &Session, name: &[u8]) -> Result<Option<EventId>, Unmerged>
    requires ready { IsReady session.now }
    requires consistent { IsConsistent (problem_held session.now) true }
    ensures ok { IfOk result (IsOriginFor session.now.declaration (seen_held session.now.under) (Some name.now)) }
    ensures err { (all : List Timed) → IfErr result (LacksFile session.now.declaration (seen_held session.now.under) (Some name.now) all) }
{
    match session.named(name) {
        Some(event) => Ok(Some(event)),
        None => Err(Unmerged::Refused(refused_text(Refusal::UnknownEvent))),
    }
}

// The event that times are counted from: that of the name, or where none is given the first of all, if there is one.
fn origin(session: &Session, name: Option<&[u8]>) -> Result<Option<EventId>, Unmerged>
    requires ready { IsReady session.now }
    requires consistent { IsConsistent (problem_held session.now) true }
    ensures ok { IfOk result (IsOriginFor session.now.declaration (seen_held session.now.under) (option_map (λ event. event.now) name.entry)) }
    ensures err { (all : List Timed) → IfErr result (LacksFile session.now.declaration (seen_held session.now.under) (option_map (λ event. event.now) name.entry) all) }
{
    match name {
        Some(name) => named_origin(session, name),
        None => Ok(session.first()),
    }
}

// How long packets were after an event.
fn since_event<L: Ledger>(
    session: &mut Session,
    event: EventId,
    kept: &[Stored],
    steps: &mut Steps<L>,
) -> Result<Since, Unmerged>
    requires ready { IsReady session.old }
    requires consistent { IsConsistent (problem_held session.old) true }
    requires event { (place : ℕ) × IsPlacedAt (seen_held session.old.under) place event }
    requires there { All (HasEventOf (seen_held session.old.under)) (all_timed kept.now) }
    ensures event { IfOk result (λ since. since.event ≡ event) }
    ensures are { IfOk result (λ since. (place : ℕ) → IsPlacedAt (seen_held session.old.under) place event → AreEndsFrom session.old.declaration (seen_held session.old.under) place (all_timed kept.now) since.ends.items) }
    ensures ends { IfOk result (λ since. HaveEnds event (all_timed kept.now) since.ends.items) }
    ensures err { IfErr result (λ why. why ≡ Memory) }
    ensures declared { session.new.declaration ≡ session.old.declaration }
    ensures held { session.new.under ≡ session.old.under }
{
    match session.ends_since(event, kept, steps) {
        Ok(ends) => Ok(Since { event, ends }),
        Err(_) => Err(Unmerged::Memory),
    }
}

// No ends.
fn no_ends(alloc: Global) -> Vec<Ends>
    ensures { result.items ≡ [] }
{
    Vec::new(alloc)
}

// How long packets were after the event that times are counted from; where there is none, there are no packets.
fn since_origin<L: Ledger>(
    alloc: Global,
    session: &mut Session,
    origin: Option<EventId>,
    kept: &[Stored],
    steps: &mut Steps<L>,
) -> Result<Since, Unmerged>
    requires ready { IsReady session.old }
    requires consistent { IsConsistent (problem_held session.old) true }
    requires origin { (name : Option (List ℕ)) × IsOriginFor session.old.declaration (seen_held session.old.under) name origin }
    requires there { All (HasEventOf (seen_held session.old.under)) (all_timed kept.now) }
    ensures counted { IfOk result (λ since. (name : Option (List ℕ)) → IsOriginFor session.old.declaration (seen_held session.old.under) name origin → AreCountedFrom session.old.declaration (seen_held session.old.under) name (all_timed kept.now) since.event since.ends.items) }
    ensures ends { IfOk result (λ since. HaveEnds since.event (all_timed kept.now) since.ends.items) }
    ensures err { IfErr result (λ why. why ≡ Memory) }
    ensures declared { session.new.declaration ≡ session.old.declaration }
    ensures held { session.new.under ≡ session.old.under }
{
    match origin {
        Some(event) => since_event(session, event, kept, steps),
        None => Ok(Since {
            event: EventId {
                label: 0,
                number: 0,
            },
            ends: no_ends(alloc),
        }),
    }
}

// Merges all packets that a session was added, and dates them, where some execution obeys all bounds.
fn date_all(alloc: Global, session: &Session, kept: Vec<Stored>) -> Result<DatedPackets, Unmerged>
    requires ready { IsReady session.now }
    requires consistent { IsConsistent (problem_held session.now) true }
    requires all { AreKeptFor session.now (all_timed kept.items) }
    ensures ok { IfOk result (λ dated. IsDatedMergeOf session.now.declaration (seen_held session.now.under) (all_timed kept.items) (all_timed dated.packets.items) dated.taps.items (shift_of dated.start)) }
    ensures able { IfOk result (AreDatedUnder session.now.declaration) }
    ensures err { IfErr result (λ why. (name : Option (List ℕ)) → KnowsEvent (problem_held session.now) name → LacksFile session.now.declaration (seen_held session.now.under) name (all_timed kept.items) why) }
{
    let mut kept = kept;
    session.settle(&mut kept);
    dated(alloc, kept, session.start())
}

// Dated packets, with how long they were after the event that times are counted from.
fn with_since<L: Ledger>(
    alloc: Global,
    session: &mut Session,
    dated: DatedPackets,
    origin: Option<EventId>,
    steps: &mut Steps<L>,
) -> Result<MergedPackets, Unmerged>
    requires ready { IsReady session.old }
    requires consistent { IsConsistent (problem_held session.old) true }
    requires origin { (name : Option (List ℕ)) × IsOriginFor session.old.declaration (seen_held session.old.under) name origin }
    requires there { All (HasEventOf (seen_held session.old.under)) (all_timed dated.packets.items) }
    ensures dated { IfOk result (λ x. x.dated ≡ dated) }
    ensures counted { IfOk result (λ x. (name : Option (List ℕ)) → IsOriginFor session.old.declaration (seen_held session.old.under) name origin → AreCountedFrom session.old.declaration (seen_held session.old.under) name (all_timed dated.packets.items) x.since.event x.since.ends.items) }
    ensures ends { IfOk result (λ x. HaveEnds x.since.event (all_timed dated.packets.items) x.since.ends.items) }
    ensures err { IfErr result (λ why. why ≡ Memory) }
    ensures declared { session.new.declaration ≡ session.old.declaration }
    ensures held { session.new.under ≡ session.old.under }
{
    match since_origin(alloc, session, origin, &dated.packets, steps) {
        Ok(since) => Ok(MergedPackets { dated, since }),
        Err(why) => Err(why),
    }
}

// Merges all packets that a session was added, dates them, and tells how long they were after an event, where some execution
// obeys all bounds.
fn merge_since<L: Ledger>(
    alloc: Global,
    session: &mut Session,
    kept: Vec<Stored>,
    origin: Option<EventId>,
    steps: &mut Steps<L>,
) -> Result<MergedPackets, Unmerged>
    requires ready { IsReady session.old }
    requires consistent { IsConsistent (problem_held session.old) true }
    requires all { AreKeptFor session.old (all_timed kept.items) }
    requires origin { (name : Option (List ℕ)) × IsOriginFor session.old.declaration (seen_held session.old.under) name origin }
    ensures ok { IfOk result (λ x. (name : Option (List ℕ)) → IsOriginFor session.old.declaration (seen_held session.old.under) name origin
        → IsCountedMergeOf session.old.declaration (seen_held session.old.under) name (all_timed kept.items) (all_timed x.dated.packets.items) x.dated.taps.items (shift_of x.dated.start) x.since.event x.since.ends.items) }
    ensures able { IfOk result (AreReady session.old.declaration) }
    ensures err { IfErr result (λ why. (name : Option (List ℕ)) → IsOriginFor session.old.declaration (seen_held session.old.under) name origin → LacksFile session.old.declaration (seen_held session.old.under) name (all_timed kept.items) why) }
    ensures declared { session.new.declaration ≡ session.old.declaration }
    ensures held { session.new.under ≡ session.old.under }
{
    match date_all(alloc, session, kept) {
        Ok(dated) => with_since(alloc, session, dated, origin, steps),
        Err(why) => Err(why),
    }
}

// Merges all packets that a session was added, dates them, and tells how long they were after the event of a name, or where
// none is given after the first of all.
fn merge_dated<L: Ledger>(
    alloc: Global,
    session: &mut Session,
    kept: Vec<Stored>,
    name: Option<&[u8]>,
    steps: &mut Steps<L>,
) -> Result<MergedPackets, Unmerged>
    requires ready { IsReady session.old }
    requires all { AreKeptFor session.old (all_timed kept.items) }
    ensures ok { IfOk result (λ x. IsCountedMergeOf session.old.declaration (seen_held session.old.under) (option_map (λ event. event.now) name.entry) (all_timed kept.items) (all_timed x.dated.packets.items) x.dated.taps.items (shift_of x.dated.start) x.since.event x.since.ends.items) }
    ensures able { IfOk result (AreReady session.old.declaration) }
    ensures err { IfErr result (LacksFile session.old.declaration (seen_held session.old.under) (option_map (λ event. event.now) name.entry) (all_timed kept.items)) }
    ensures declared { session.new.declaration ≡ session.old.declaration }
    ensures held { session.new.under ≡ session.old.under }
{
    if !session.consistent() {
        return Err(Unmerged::Inconsistent);
    }
    match origin(session, name) {
        Ok(event) => merge_since(alloc, session, kept, event, steps),
        Err(why) => Err(why),
    }
}

// Merges and dates all packets that a session was added, and tells the notes on them where there is a merge.
fn merge_noted<N: Sink, L: Ledger>(
    alloc: Global,
    session: &mut Session,
    kept: Vec<Stored>,
    name: Option<&[u8]>,
    steps: &mut Steps<L>,
    notes: &mut N,
) -> Result<MergedPackets, Unmerged>
    requires ready { IsReady session.old }
    requires all { AreKeptFor session.old (all_timed kept.items) }
    ensures ok { IfOk result (λ x. IsCountedMergeOf session.old.declaration (seen_held session.old.under) (option_map (λ event. event.now) name.entry) (all_timed kept.items) (all_timed x.dated.packets.items) x.dated.taps.items (shift_of x.dated.start) x.since.event x.since.ends.items) }
    ensures able { IfOk result (AreReady session.old.declaration) }
    ensures err { IfErr result (LacksFile session.old.declaration (seen_held session.old.under) (option_map (λ event. event.now) name.entry) (all_timed kept.items)) }
    ensures declared { session.new.declaration ≡ session.old.declaration }
    ensures noted { OnOk result (IsToldNote (notes_held session.old.declaration.labels session.old.under) (N.told notes.old) (N.told notes.new)) }
    ensures quiet { OnErr result (N.told notes.new ≡ N.told notes.old) }
{
    match merge_dated(alloc, session, kept, name, steps) {
        Ok(merged) => {
            tell_notes(session, notes);
            Ok(merged)
        }
        Err(why) => Err(why),
    }
}

/// Merges the packets of all captures that the lines of a script add to a session that begins with nothing, and dates them:
/// the date of a packet is as much later than that of the first event of all, of the logs too, as its time is. The order
/// of packets, and the notes that are told, are those of `merge_script`. It tells how long each packet was after the
/// event of a name in any execution, or where none is given after that first event.
///
/// The date of the first event is the least end of its time by the source's clock, where a source is declared, its clock
/// has a reading, and there is such an end; else it is the event's own stamp.
///
/// `Refused`, `Size`, `ReadFault`, `Limit`, `Inconsistent` and `Memory` come as from `merge_script`; and where all lines are
/// accepted, some execution exists, and no event has the name, `Refused` comes with the reply for that. `Range` comes
/// exactly where all lines are accepted, some execution exists, an event has the name, and a date is below 0 or 2^64 ns or
/// more, or the packets have more than 65,536 pairs of a label and a link type, if memory suffices to tell that. `Links`
/// never comes.
pub fn date_script<F: Files, I: Source, N: Sink, L: Ledger>(
    alloc: Global,
    session: &mut Session,
    name: Option<&[u8]>,
    files: &mut F,
    input: &mut I,
    steps: &mut Steps<L>,
    notes: &mut N,
) -> Result<MergedPackets, Unmerged>
    requires ready { IsReady session.old }
    requires begins { StandsFor session.old session.old.declaration (start session.old.declaration) }
    ensures declared { OnOk result (session.new.declaration ≡ session.old.declaration) }
    ensures ok { IfOk result (λ x. MergesDated session.old.declaration (option_map (λ event. event.now) name.entry) (reads (F.told files.old) (I.told input.old)) (reads (F.told files.new) (I.told input.new))
        (all_timed x.dated.packets.items) x.dated.taps.items (shift_of x.dated.start) x.since.event x.since.ends.items) }
    ensures able { IfOk result (AreReady session.old.declaration) }
    ensures err { IfErr result (DatesNot session.old.declaration (option_map (λ event. event.now) name.entry) (reads (F.told files.old) (I.told input.old)) (reads (F.told files.new) (I.told input.new))) }
    ensures noted { OnOk result (AreNoted session.old.declaration (reads (F.told files.old) (I.told input.old)) (reads (F.told files.new) (I.told input.new)) (N.told notes.old) (N.told notes.new)) }
    ensures quiet { OnErr result (N.told notes.new ≡ N.told notes.old) }
    ensures keeps { Keeps (F.told files.old) (F.told files.new) }
    ensures no_fall { (I.told input.old).faults ≤ (I.told input.new).faults }
{
    let mut reader = LineReader::new();
    let mut kept = KeptPackets {
        packets: Vec::new(alloc),
        bytes: 0,
    };
    gather(session, &mut reader, files, input, &mut kept, steps)?;
    merge_noted(alloc, session, kept.packets, name, steps, notes)
}
