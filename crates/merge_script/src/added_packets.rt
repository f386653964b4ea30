// The packets that the lines of a script add.
ghost use Rattle.std.specs.Prelude.{◌≡◌, ◌<◌, ◌≤◌, [], false, true, drop, length, IfOk, IfErr, OnOk, MatchBool};
ghost use Rattle.ports.specs.Files.{Keeps};
ghost use Rattle.ports.specs.Reader.{fresh, room};
ghost use Rattle.mergecap.specs.Packets.{all_timed};
ghost use Rattle.replies.specs.Sessions.{start};
ghost use Rattle.session.specs.Stands.{StandsFor, IsReady};
ghost use Rattle.session.specs.Turns.{HasNoLine};
ghost use Rattle.merge_script.specs.Gathered.{bytes_in, most_bytes};
ghost use Rattle.merge_script.specs.Turns.{AreKeptFor, AddsLine, EndsOrLacks, EndsRunSo, GathersAll, GathersNone, TakesLine, reads};

use crate::Unmerged;
use crate::sizes::with_all;
use atto::Steps;
use mergecap::Stored;
use ports::{Files, Line, LineFault, LineReader, LineText, Source};
use replies::too_long_text;
use session::{AddAnswer, Session};
use std::sync::ledger::Ledger;

/// Packets that are kept, with how many bytes they have.
#[derive(Drop)]
pub(crate) struct KeptPackets {
    /// The packets, in the order in which they came.
    pub(crate) packets: Vec<Stored>,
    /// How many bytes they have in all.
    pub(crate) bytes: u64,
}

// The packets behind so many.
fn newest(kept: &[Stored], before: usize) -> &[Stored]
    requires { before ≤ length kept.now }
    ensures { result.now ≡ drop before kept.now }
{
    &kept[before..]
}

// Adds what a line says, and keeps its packets, which have few bytes in all.
fn add_line<F: Files, L: Ledger>(
    session: &mut Session,
    line: &[u8],
    files: &mut F,
    kept: &mut KeptPackets,
    steps: &mut Steps<L>,
) -> Result<(), Unmerged>
    requires short { length line.now ≤ 4096 }
    requires ready { IsReady session.old }
    requires some { AreKeptFor session.old (all_timed kept.old.packets.items) }
    requires bytes { (kept.old.bytes ≡ bytes_in (all_timed kept.old.packets.items)) × (kept.old.bytes ≤ most_bytes) }
    ensures ok { OnOk result ((x : AreKeptFor session.old (all_timed kept.old.packets.items))
        → AddsLine line.now (F.told files.old) (F.told files.new) session.old session.new (all_timed kept.old.packets.items) (all_timed kept.new.packets.items) x) }
    ensures err { IfErr result (EndsOrLacks line.now (F.told files.old) (F.told files.new) session.old (all_timed kept.old.packets.items)) }
    ensures bytes { OnOk result ((kept.new.bytes ≡ bytes_in (all_timed kept.new.packets.items)) × (kept.new.bytes ≤ most_bytes)) }
    ensures ready { OnOk result (IsReady session.new) }
    ensures keeps { Keeps (F.told files.old) (F.told files.new) }
{
    let before = kept.packets.len();
    match session.take_add(line, files, &mut kept.packets, steps)? {
        AddAnswer::Accepted => match with_all(kept.bytes, newest(&kept.packets, before)) {
            Some(all) => {
                kept.bytes = all;
                Ok(())
            }
            None => Err(Unmerged::Size),
        },
        AddAnswer::Refused(text) => Err(Unmerged::Refused(text)),
    }
}

// Reads a line and adds what it says. It answers whether there was one.
fn take_line<F: Files, I: Source, L: Ledger>(
    session: &mut Session,
    reader: &mut LineReader,
    files: &mut F,
    input: &mut I,
    kept: &mut KeptPackets,
    steps: &mut Steps<L>,
) -> Result<bool, Unmerged>
    requires going { reader.old.over ≡ false }
    requires ready { IsReady session.old }
    requires some { AreKeptFor session.old (all_timed kept.old.packets.items) }
    requires bytes { (kept.old.bytes ≡ bytes_in (all_timed kept.old.packets.items)) × (kept.old.bytes ≤ most_bytes) }
    ensures ok { IfOk result (λ more. MatchBool more
        (TakesLine session.old session.new reader.old reader.new (reads (F.told files.old) (I.told input.old)) (reads (F.told files.new) (I.told input.new)) (all_timed kept.old.packets.items) (all_timed kept.new.packets.items))
        (HasNoLine reader.old reader.new (reads (F.told files.old) (I.told input.old)) (reads (F.told files.new) (I.told input.new)))) }
    ensures same { IfOk result (λ more. more ≡ false → (session.new ≡ session.old) × (kept.new.packets.items ≡ kept.old.packets.items)) }
    ensures err { IfErr result (EndsRunSo session.old reader.old reader.new (reads (F.told files.old) (I.told input.old)) (reads (F.told files.new) (I.told input.new)) (all_timed kept.old.packets.items)) }
    ensures bytes { IfOk result (λ more. more ≡ true → (kept.new.bytes ≡ bytes_in (all_timed kept.new.packets.items)) × (kept.new.bytes ≤ most_bytes)) }
    ensures going { IfOk result (λ more. more ≡ true → reader.new.over ≡ false) }
    ensures ready { OnOk result (IsReady session.new) }
    ensures progress { IfOk result (λ more. more ≡ true → room reader.new < room reader.old) }
    ensures keeps { Keeps (F.told files.old) (F.told files.new) }
    ensures no_fall { (I.told input.old).faults ≤ (I.told input.new).faults }
{
    let mut line = LineText::new();
    match reader.next_line(input, &mut line) {
        Ok(Line::Text) => {
            add_line(session, line.as_slice(), files, kept, steps)?;
            Ok(true)
        }
        Ok(Line::TooLong) => Err(Unmerged::Refused(too_long_text())),
        Ok(Line::End) => Ok(false),
        Err(LineFault::Read) => Err(Unmerged::ReadFault),
        Err(LineFault::Limit) => Err(Unmerged::Limit),
    }
}

/// Adds what the lines of a script say, and keeps the packets. The session begins with nothing, and so do the packets.
pub(crate) fn gather<F: Files, I: Source, L: Ledger>(
    session: &mut Session,
    reader: &mut LineReader,
    files: &mut F,
    input: &mut I,
    kept: &mut KeptPackets,
    steps: &mut Steps<L>,
) -> Result<(), Unmerged>
    requires fresh { reader.old ≡ fresh }
    requires ready { IsReady session.old }
    requires begins { StandsFor session.old session.old.declaration (start session.old.declaration) }
    requires none { (kept.old.packets.items ≡ []) × (kept.old.bytes ≡ 0) }
    ensures ok { OnOk result (GathersAll session.old.declaration (reads (F.told files.old) (I.told input.old)) (reads (F.told files.new) (I.told input.new)) session.new (all_timed kept.new.packets.items)) }
    ensures err { IfErr result (GathersNone session.old.declaration (reads (F.told files.old) (I.told input.old)) (reads (F.told files.new) (I.told input.new))) }
    ensures ready { OnOk result (IsReady session.new) }
    ensures keeps { Keeps (F.told files.old) (F.told files.new) }
    ensures no_fall { (I.told input.old).faults ≤ (I.told input.new).faults }
{
    loop {
        match take_line(session, reader, files, input, kept, steps) {
            Ok(true) => {}
            Ok(false) => return Ok(()),
            Err(why) => return Err(why),
        }
    }
}
