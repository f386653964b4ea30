// Events of event logs.
ghost use Rattle.std.specs.Prelude.{◌≡◌, map, option_map, IfOk};
ghost use Rattle.decl.specs.Declaration.{HasLawfulOwners, IsDeclaration, declaration_of, segment_of};
ghost use Rattle.traces.specs.Seen.{Word, key_of, mark_of, mark_of_row, seen_event, seen_events, seen_key, seen_moment, seen_row};

use crate::moments::moment_of;
use crate::{Content, Event, Key, Mark, MessageKey, Moment, NoKey, Side};
use decl::{Decl, Label};
use event_log::{Kind, Row, WordKey};
use std::alloc::{AllocError, Global};

// The key of a row with this word.
fn row_key(segment: u32, moment: Option<Moment>, word: WordKey) -> Key
    ensures { key_of result ≡ seen_key segment (option_map seen_moment moment) (Word word) }
{
    let content = Content::Word(word);
    let message = MessageKey { segment, content };
    Key { message, moment }
}

// The mark of a row of this kind with this key, which happened on this segment then.
fn mark_of_row(segment: u32, moment: Option<Moment>, kind: Kind, key: Option<WordKey>) -> Mark
    ensures { mark_of result ≡ mark_of_row segment (option_map seen_moment moment) kind key }
{
    match (kind, key) {
        (Kind::Send, Some(word)) => Mark::Keyed {
            key: row_key(segment, moment, word),
            side: Side::Send,
        },
        (Kind::Receive, Some(word)) => Mark::Keyed {
            key: row_key(segment, moment, word),
            side: Side::Receive,
        },
        _ => Mark::Unkeyed(NoKey::Local),
    }
}

// The event of a row of the trace of this label, whose segment has this number; it takes the row's text over.
fn event_of_row(decl: &Decl, label: &Label, segment: u32, row: Row) -> Event
    requires owners { HasLawfulOwners (declaration_of decl.now) }
    requires segment { segment ≡ segment_of (declaration_of decl.now) label.now }
    ensures { seen_event result ≡ seen_row (declaration_of decl.now) label.now row }
{
    let moment = moment_of(decl, label.clock, row.stamp);
    Event {
        stamp: row.stamp,
        mark: mark_of_row(segment, moment, row.kind, row.key),
        text: Some(row.text),
    }
}

/// The events of rows of the trace of this label, in their order; an error where memory runs out. The texts are moved, and
/// none is copied. Where a window is declared, a row happened at its stamp less the offset of
/// the clock.
pub fn row_events(
    alloc: Global,
    decl: &Decl,
    label: &Label,
    rows: Vec<Row>,
) -> Result<Vec<Event>, AllocError>
    requires { IsDeclaration (declaration_of decl.now) }
    ensures { IfOk result (λ events. seen_events events.items ≡ map (seen_row (declaration_of decl.now) label.now) rows.items) }
{
    let segment = decl.segment_of(label);
    let mut events = Vec::with_capacity(alloc, rows.len())?;
    for row in rows {
        events.push(event_of_row(decl, label, segment, row))?;
    }
    Ok(events)
}
