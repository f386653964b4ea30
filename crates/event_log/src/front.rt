// The front of a piece in which no record has more than five fields. A record with more is no row, and to keep it whole
// would take the memory of a place for each of them.
ghost use Rattle.std.specs.Prelude.{◌≡◌, ◌<◌, ◌≤◌, ◌+◌, ℕ, length, take, drop, All};
ghost use Rattle.csv.specs.Machine.{in_field, start_field, start_record, step};
ghost use Rattle.csv.specs.Reading.{default_config, is_bom, records, strip_bom};
ghost use Rattle.event_log.specs.Front.{IsFrontOfRecords, ended_after, state_of};
ghost use Rattle.event_log.specs.Log.{records_of};

// Where a reader of records stands behind a byte.
#[derive(Clone, Copy)]
enum Place {
    RecordStart,
    // Behind a carriage return that ended a record.
    AfterReturn,
    FieldStart,
    InField,
    InQuotes,
    // Behind a quote in quotes, which closes them unless another one follows.
    AfterQuote,
}

// How far a record is read: the place, and how many of its fields have ended.
#[derive(Clone, Copy)]
struct Progress {
    place: Place,
    ended: u32,
}

impl Progress {
    // With as many fields ended, at a place.
    fn at(self, place: Place) -> Progress
        ensures place { result.place ≡ place }
        ensures ended { result.ended ≡ self.ended }
    {
        Progress {
            place,
            ended: self.ended,
        }
    }

    // Behind a byte that stands in a field and opens no quotes.
    fn plain(self, c: u8) -> Progress
        requires { self.ended < 4 }
        ensures state { state_of result.place ≡ (in_field default_config c).0 }
        ensures ended { result.ended ≡ ended_after (in_field default_config c).1 self.ended }
    {
        let (place, ended) = match c {
            b',' => (Place::FieldStart, self.ended + 1),
            b'\r' => (Place::AfterReturn, 0),
            b'\n' => (Place::RecordStart, 0),
            _ => (Place::InField, self.ended),
        };
        Progress { place, ended }
    }

    // Behind the first byte of a field.
    fn field_start(self, c: u8) -> Progress
        requires { self.ended < 4 }
        ensures state { state_of result.place ≡ (start_field default_config c).0 }
        ensures ended { result.ended ≡ ended_after (start_field default_config c).1 self.ended }
    {
        if c == b'"' {
            self.at(Place::InQuotes)
        } else {
            self.plain(c)
        }
    }

    // Behind a byte between records.
    fn record_start(self, c: u8) -> Progress
        requires { self.ended < 4 }
        ensures state { state_of result.place ≡ (start_record default_config c).0 }
        ensures ended { result.ended ≡ ended_after (start_record default_config c).1 self.ended }
    {
        if c == b'\r' || c == b'\n' {
            self.at(Place::RecordStart)
        } else {
            self.field_start(c)
        }
    }

    // Behind one byte more.
    fn after(self, c: u8) -> Progress
        requires { self.ended < 4 }
        ensures state { state_of result.place ≡ (step default_config (state_of self.place) c).0 }
        ensures ended { result.ended ≡ ended_after (step default_config (state_of self.place) c).1 self.ended }
    {
        match self.place {
            Place::AfterReturn if c == b'\n' => self.at(Place::RecordStart),
            Place::RecordStart | Place::AfterReturn => self.record_start(c),
            Place::FieldStart => self.field_start(c),
            Place::InField => self.plain(c),
            Place::InQuotes if c == b'"' => self.at(Place::AfterQuote),
            Place::InQuotes => self.at(Place::InQuotes),
            Place::AfterQuote if c == b'"' => self.at(Place::InQuotes),
            Place::AfterQuote => self.plain(c),
        }
    }
}

// How many bytes of a text there are up to the end of the first fourth field behind which a fifth one begins; all, if
// there is none.
fn before_fifth(text: &[u8]) -> usize
    ensures within { result ≤ length text.now }
    ensures front { IsFrontOfRecords (records default_config text.now) (records default_config (take result text.now)) }
    ensures few { All (λ fields. length fields ≤ 5) (records default_config (take result text.now)) }
{
    let mut progress = Progress {
        place: Place::RecordStart,
        ended: 0,
    };
    'bytes: for i in 0..text.len() {
        progress = progress.after(text[i]);
        if progress.ended == 4 {
            return i + 1;
        }
    }
    text.len()
}

fn is_mark(a: u8, b: u8, c: u8) -> bool
    ensures { result ≡ is_bom a b c }
{
    a == 0xEF && b == 0xBB && c == 0xBF
}

// How many bytes a byte order mark takes in front of a piece.
fn mark_len(piece: &[u8]) -> usize
    ensures within { result ≤ length piece.now }
    ensures rest { drop result piece.now ≡ strip_bom piece.now }
    ensures front { (n : ℕ) → strip_bom (take (result + n) piece.now) ≡ take n (strip_bom piece.now) }
{
    if piece.len() >= 3 && is_mark(piece[0], piece[1], piece[2]) {
        3
    } else {
        0
    }
}

// A piece up to the first record of more than four fields, of which it has four and an empty one.
pub(crate) fn short_front(piece: &[u8]) -> &[u8]
    ensures short { length result.now ≤ length piece.now }
    ensures front { IsFrontOfRecords (records_of piece.now) (records_of result.now) }
    ensures few { All (λ fields. length fields ≤ 5) (records_of result.now) }
{
    let start = mark_len(piece);
    let len = before_fifth(&piece[start..]);
    &piece[..start + len]
}
