// What there is to tell of the captures of a session beside their merge.
ghost use Rattle.std.specs.Prelude.{◌≡◌, ◌≤◌, ◌+◌, ◌∷◌, [], ◌++◌, ℕ, List, length, map};
ghost use Rattle.atto.specs.Decimal.{decimal_of};
ghost use Rattle.line_format.specs.Words.{words};
ghost use Rattle.ports.specs.Content.{Writes};
ghost use Rattle.ports.specs.Room.{HasRoomBehind};
ghost use Rattle.captures.specs.Feeding.{passed_of, waiting_of};
ghost use Rattle.session.specs.Stands.{under_of};
ghost use Rattle.merge_script.specs.Notes.{IsToldNote, capture_notes, is_nothing, notes_held, notes_kept, passed_line, passed_note, pending_line, pending_note};

use captures::{CaptureStream, Passed};
use decl::Label;
use ports::fixed_line::{Line, first_word, push_decimal, push_word};
use ports::{Failed, Sink, write_whole};
use problem_model::Name;
use session::Session;
use traces::{Accepted, Stream};

// The line of how many bytes stand behind the last whole record or block.
fn pending_line(label: &Name, pending: u32) -> Line
    ensures { result.items ≡ pending_line label.now pending }
{
    let mut line = first_word(label.bytes());
    push_word(&mut line, b"pending");
    push_decimal(&mut line, u64::from(pending));
    line.push(b'\n');
    line
}

// Appends a word and a count.
fn push_count(line: &mut Line, word: &[u8], count: u32)
    requires short { length word.now ≤ 48 }
    requires room { HasRoomBehind line.old.items 98 }
    ensures appended { (first : List ℕ) (ws : List (List ℕ)) → line.old.items ≡ words (first ∷ ws) → line.new.items ≡ words (first ∷ ws ++ word.now ∷ decimal_of count ∷ []) }
    ensures grown { length line.new.items ≤ length line.old.items + 98 }
{
    push_word(line, word);
    push_decimal(line, u64::from(count));
}

// The line of how many packets were passed over, by cause.
fn passed_line(label: &Name, passed: Passed) -> Line
    ensures { result.items ≡ passed_line label.now passed }
{
    let mut line = first_word(label.bytes());
    push_word(&mut line, b"passed");
    push_count(&mut line, b"simple", passed.simple);
    push_count(&mut line, b"obsolete", passed.obsolete);
    push_count(&mut line, b"other", passed.other);
    line.push(b'\n');
    line
}

// Writes how many bytes stand behind the last whole record or block, if some do.
fn write_pending<N: Sink>(label: &Name, pending: u32, notes: &mut N) -> Result<(), Failed>
    ensures { Writes (pending_note label.now pending) (N.told notes.old) (N.told notes.new) result }
{
    if pending == 0 {
        return Ok(());
    }
    write_whole(notes, pending_line(label, pending).as_slice())
}

// Whether no packet was passed over.
fn is_nothing(passed: Passed) -> bool
    ensures { result ≡ is_nothing passed }
{
    passed.simple == 0 && passed.obsolete == 0 && passed.other == 0
}

// Writes how many packets were passed over, if some were.
fn write_passed<N: Sink>(label: &Name, passed: Passed, notes: &mut N) -> Result<(), Failed>
    ensures { Writes (passed_note label.now passed) (N.told notes.old) (N.told notes.new) result }
{
    if is_nothing(passed) {
        return Ok(());
    }
    write_whole(notes, passed_line(label, passed).as_slice())
}

// Writes the notes on a capture.
fn write_on_capture<N: Sink>(
    label: &Name,
    capture: &CaptureStream,
    notes: &mut N,
) -> Result<(), Failed>
    ensures { Writes (capture_notes label.now (waiting_of capture.now) (passed_of capture.now)) (N.told notes.old) (N.told notes.new) result }
{
    write_pending(label, capture.pending(), notes)?;
    write_passed(label, capture.passed(), notes)
}

// Writes the notes on what was accepted under a label of this name.
fn write_on<N: Sink>(label: &Name, stream: &Stream, notes: &mut N) -> Result<(), Failed>
    ensures { Writes (notes_kept label.now stream.now) (N.told notes.old) (N.told notes.new) result }
{
    match stream {
        Stream::Log => Ok(()),
        Stream::Capture(capture) => write_on_capture(label, capture, notes),
    }
}

// Writes the notes on what was accepted under each of these labels.
fn write_all<N: Sink>(labels: &[Label], under: &[Accepted], notes: &mut N) -> Result<(), Failed>
    requires { length under.now ≡ length labels.now }
    ensures { Writes (notes_held labels.now (map under_of under.now)) (N.told notes.old) (N.told notes.new) result }
{
    for place in 0..labels.len() {
        write_on(&labels[place].name, &under[place].stream, notes)?;
    }
    Ok(())
}

/// Tells the notes on all that a session was added. Where a write fails, a front of them is told, and that is all.
pub(crate) fn tell_notes<N: Sink>(session: &Session, notes: &mut N)
    ensures { IsToldNote (notes_held session.now.declaration.labels session.now.under) (N.told notes.old) (N.told notes.new) }
{
    let _ = write_all(&session.decl().labels, session.under(), notes);
}
