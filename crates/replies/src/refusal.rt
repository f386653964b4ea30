// Refusals, and the lines that tell them.
ghost use Rattle.std.specs.Prelude.{◌≡◌, ◌≤◌, ◌+◌, ◌++◌, ◌∷◌, [], ℕ, List, length, codes};
ghost use Rattle.atto.specs.Decimal.{decimal_of};
ghost use Rattle.line_format.specs.Words.{words};
ghost use Rattle.ports.specs.Room.{HasRoomBehind};
ghost use Rattle.ports.specs.Content.{Writes};
ghost use Rattle.replies.specs.Refusals.{refusal_number, details, refusal_line, log_refusal, capture_refusal};

use captures::CaptureError;
use event_log::LogError;
use ports::fixed_line::{Line, first_word, push_decimal, push_word};
use ports::{Failed, Sink, write_whole};

/// Why a line changes nothing, in the order in which the causes are looked for.
#[derive(Clone, Copy, Debug)]
pub enum Refusal {
    /// The line spells no command, or has more than 4,096 bytes.
    NoCommand,
    /// No label has this name.
    UnknownLabel,
    /// The file is not there, or could not be read.
    UnreadFile,
    /// The piece has more bytes than one may have, or than the label has room for.
    TooManyBytes,
    /// The first bytes begin no capture.
    CaptureMagic,
    /// The capture is of a version that is not read.
    CaptureVersion,
    /// A second file header begins in the capture.
    CaptureHeader {
        /// Its place, in bytes from the start of the capture.
        place: u32,
    },
    /// A packet of the capture is too long.
    CaptureRecord {
        /// The place of its record or block, in bytes from the start of the capture.
        place: u32,
    },
    /// A block of the capture is malformed.
    CaptureBlock {
        /// The place of the block, in bytes from the start of the capture.
        place: u32,
    },
    /// A record of the log is no row.
    LogRow {
        /// The row, counted from 1.
        row: u32,
        /// What it lacks: 1 its fields, 2 its stamp, 3 its kind, 4 its text.
        lack: u32,
    },
    /// There would be too many events.
    TooManyEvents,
    /// No event has this name.
    UnknownEvent,
    /// There is no source, or its clock has no reading.
    NoSourceTime,
    /// Eight events are kept, and this is none of them.
    EightAreKept,
}

impl Refusal {
    /// The number that stands for it.
    pub(crate) fn number(self) -> u64
        ensures { result ≡ refusal_number self }
    {
        match self {
            Refusal::NoCommand => 20,
            Refusal::UnknownLabel => 21,
            Refusal::UnreadFile => 22,
            Refusal::TooManyBytes => 23,
            Refusal::CaptureMagic => 24,
            Refusal::CaptureVersion => 24,
            Refusal::CaptureHeader { .. } => 25,
            Refusal::CaptureRecord { .. } => 25,
            Refusal::CaptureBlock { .. } => 31,
            Refusal::LogRow { .. } => 26,
            Refusal::TooManyEvents => 27,
            Refusal::UnknownEvent => 28,
            Refusal::NoSourceTime => 29,
            Refusal::EightAreKept => 30,
        }
    }

    /// The line that tells it: its number, and the words that say where and why.
    pub(crate) fn line(self) -> Line
        ensures { result.items ≡ refusal_line self }
    {
        let mut line = first_word(b"refused");
        push_decimal(&mut line, self.number());
        push_details(&mut line, self);
        line.push(b'\n');
        line
    }
}

// Appends the words that say where and why.
fn push_details(line: &mut Line, refusal: Refusal)
    requires room { HasRoomBehind line.old.items 98 }
    ensures appended { (first : List ℕ) (ws : List (List ℕ)) → line.old.items ≡ words (first ∷ ws) → line.new.items ≡ words (first ∷ ws ++ details refusal) }
    ensures grown { length line.new.items ≤ length line.old.items + 98 }
{
    match refusal {
        Refusal::CaptureMagic => push_decimal(line, 1),
        Refusal::CaptureVersion => push_decimal(line, 2),
        Refusal::CaptureHeader { place } => push_header(line, place),
        Refusal::CaptureRecord { place } => push_decimal(line, u64::from(place)),
        Refusal::CaptureBlock { place } => push_decimal(line, u64::from(place)),
        Refusal::LogRow { row, lack } => push_both(line, u64::from(row), u64::from(lack)),
        _ => {}
    }
}

// Appends the place of a second file header, and the word for one.
fn push_header(line: &mut Line, place: u32)
    requires room { HasRoomBehind line.old.items 98 }
    ensures appended { (first : List ℕ) (ws : List (List ℕ)) → line.old.items ≡ words (first ∷ ws) → line.new.items ≡ words (first ∷ ws ++ decimal_of place ∷ codes "header" ∷ []) }
    ensures grown { length line.new.items ≤ length line.old.items + 98 }
{
    push_decimal(line, u64::from(place));
    push_word(line, b"header");
}

// Appends two decimals.
fn push_both(line: &mut Line, first: u64, second: u64)
    requires room { HasRoomBehind line.old.items 98 }
    ensures appended { (word : List ℕ) (ws : List (List ℕ)) → line.old.items ≡ words (word ∷ ws) → line.new.items ≡ words (word ∷ ws ++ decimal_of first ∷ decimal_of second ∷ []) }
    ensures grown { length line.new.items ≤ length line.old.items + 98 }
{
    push_decimal(line, first);
    push_decimal(line, second);
}

/// Writes the line of a refusal. `Failed` comes only where a write fails.
pub fn write_refusal<O: Sink>(refusal: Refusal, out: &mut O) -> Result<(), Failed>
    ensures { Writes (refusal_line refusal) (O.told out.old) (O.told out.new) result }
{
    write_whole(out, &refusal.line())
}

/// Why a piece of a log is refused; None for want of memory.
pub fn log_refusal(e: LogError) -> Option<Refusal>
    ensures { result ≡ log_refusal e }
{
    match e {
        LogError::Fields(row) => Some(Refusal::LogRow { row, lack: 1 }),
        LogError::Stamp(row) => Some(Refusal::LogRow { row, lack: 2 }),
        LogError::Kind(row) => Some(Refusal::LogRow { row, lack: 3 }),
        LogError::Text(row) => Some(Refusal::LogRow { row, lack: 4 }),
        LogError::Memory => None,
    }
}

/// Why a piece of a capture is refused; None for want of memory.
pub fn capture_refusal(e: CaptureError) -> Option<Refusal>
    ensures { result ≡ capture_refusal e }
{
    match e {
        CaptureError::Magic => Some(Refusal::CaptureMagic),
        CaptureError::Version => Some(Refusal::CaptureVersion),
        CaptureError::Header(place) => Some(Refusal::CaptureHeader { place }),
        CaptureError::Length(place) => Some(Refusal::CaptureRecord { place }),
        CaptureError::Block(place) => Some(Refusal::CaptureBlock { place }),
        CaptureError::Memory => None,
    }
}
