// Declarations, logs and texts that several modules use.
ghost use Rattle.std.specs.Prelude.{IfSome};
ghost use Rattle.decl.specs.Declaration.{IsDeclaration, declaration_of};

use decl::{Decl, read_decl};
use event_log::read_rows;
use std::alloc::Global;
use traces::{Accepted, Event, Stream, row_events};

// What a text declares.
pub(crate) fn declared(alloc: Global, text: &[u8]) -> Option<Decl>
    ensures { IfSome result (λ d. IsDeclaration (declaration_of d)) }
{
    read_decl(alloc, text).ok()
}

// The events of a log with this text, under the label at a place.
pub(crate) fn events_of_log(
    alloc: Global,
    decl: &Decl,
    place: usize,
    text: &[u8],
) -> Option<Vec<Event>>
    requires { IsDeclaration (declaration_of decl.now) }
{
    if text.len() > 1 << 28 {
        return None;
    }
    let label = decl.labels.get(place)?;
    let rows = read_rows(alloc, text).ok()?;
    row_events(alloc, decl, label, rows).ok()
}

// What is accepted of such a log.
pub(crate) fn log_of(alloc: Global, decl: &Decl, place: usize, text: &[u8]) -> Option<Accepted>
    requires { IsDeclaration (declaration_of decl.now) }
{
    let events = events_of_log(alloc, decl, place, text)?;
    Some(Accepted {
        events,
        size: text.len() as u64,
        stream: Stream::Log,
    })
}
