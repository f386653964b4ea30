// The lines of merged events.
ghost use Rattle.std.specs.Prelude.{◌≡◌, ◌<◌, ◌++◌, true, All, length};
ghost use Rattle.ports.specs.Content.{Writes};
ghost use Rattle.decl.specs.Declaration.{HasLawfulLabels, declaration_of};
ghost use Rattle.traces.specs.Seen.{seen_event};
ghost use Rattle.traces.specs.Traces.{name_of};
ghost use Rattle.traces.specs.Held.{placed_in};
ghost use Rattle.report.specs.Merging.{merge_line};
ghost use Rattle.traces.specs.Making.{AreEventsOf};
ghost use Rattle.replies.specs.Merged.{line_at};
ghost use Rattle.replies.specs.Writing.{AreValued, count_line, lines_merged, times_by};

use crate::keys::value_at;
use decl::Decl;
use earliest::Earliest;
use ports::fixed_line::{Line, first_word, push_decimal};
use ports::{Failed, Sink, write_whole};
use problem::Listing;
use report::write_merge_line;
use traces::{Event, PlacedEvent, name_of};

// What an event log says of an event; nothing of a packet.
fn text_of(event: &Event) -> &[u8]
    ensures { result.now ≡ (seen_event event.now).text }
{
    match &event.text {
        Some(text) => text.bytes(),
        None => &[],
    }
}

// Writes the line of an event whose real time is given in units of 1e-9 ns.
fn write_event<O: Sink>(
    decl: &Decl,
    event: &PlacedEvent,
    value: i128,
    out: &mut O,
) -> Result<(), Failed>
    requires labels { HasLawfulLabels (declaration_of decl.now) }
    requires label { event.now.id.label < length decl.now.labels.items }
    ensures { Writes (merge_line value (name_of (declaration_of decl.now) event.now.id) (seen_event event.now.event.now).text) (O.told out.old) (O.told out.new) result }
{
    let name = name_of(decl, event.id);
    write_merge_line(value, &name, text_of(event.event), out)
}

// Writes the line of the event at a place.
fn write_line_at<N: Listing, O: Sink>(
    decl: &Decl,
    names: &N,
    events: &[PlacedEvent],
    e: &Earliest,
    place: u32,
    out: &mut O,
) -> Result<(), Failed>
    requires labels { HasLawfulLabels (declaration_of decl.now) }
    requires events { AreEventsOf (declaration_of decl.now) (placed_in events.now) }
    requires solved { e.now.is_solved ≡ true }
    requires valued { AreValued (N.listed names.now) (length events.now) e.now.values }
    requires inside { place < length events.now }
    ensures { Writes (line_at (declaration_of decl.now) (times_by (N.listed names.now) e.now.values) (placed_in events.now) place) (O.told out.old) (O.told out.new) result }
{
    let event = &events[place as usize];
    let value = value_at(names, e, place);
    write_event(decl, event, value, out)
}

// Writes the lines of the events at these places.
fn write_lines<N: Listing, O: Sink>(
    decl: &Decl,
    names: &N,
    events: &[PlacedEvent],
    e: &Earliest,
    order: &[u32],
    out: &mut O,
) -> Result<(), Failed>
    requires labels { HasLawfulLabels (declaration_of decl.now) }
    requires events { AreEventsOf (declaration_of decl.now) (placed_in events.now) }
    requires solved { e.now.is_solved ≡ true }
    requires valued { AreValued (N.listed names.now) (length events.now) e.now.values }
    requires inside { All (λ place. place < length events.now) order.now }
    ensures { Writes (lines_merged (declaration_of decl.now) (times_by (N.listed names.now) e.now.values) (placed_in events.now) order.now) (O.told out.old) (O.told out.new) result }
{
    for place in order {
        write_line_at(decl, names, events, e, *place, out)?;
    }
    Ok(())
}

// The line of how many events there are.
fn count_line(count: u64) -> Line
    ensures { result.items ≡ count_line count }
{
    let mut line = first_word(b"merge");
    push_decimal(&mut line, count);
    line.push(b'\n');
    line
}

/// Writes how many events there are, and then the lines of the events at these places, with their real times by the values
/// of their nodes. It takes no memory. After `Failed`, which comes only where the sink's count of faults rose, or stands at
/// its last value, some front of them is written.
pub(crate) fn write_ordered<N: Listing, O: Sink>(
    decl: &Decl,
    names: &N,
    events: &[PlacedEvent],
    e: &Earliest,
    order: &[u32],
    out: &mut O,
) -> Result<(), Failed>
    requires labels { HasLawfulLabels (declaration_of decl.now) }
    requires events { AreEventsOf (declaration_of decl.now) (placed_in events.now) }
    requires solved { e.now.is_solved ≡ true }
    requires valued { AreValued (N.listed names.now) (length events.now) e.now.values }
    requires inside { All (λ place. place < length events.now) order.now }
    ensures { Writes (count_line (length events.now) ++ lines_merged (declaration_of decl.now) (times_by (N.listed names.now) e.now.values) (placed_in events.now) order.now) (O.told out.old) (O.told out.new) result }
{
    let line = count_line(events.len() as u64);
    write_whole(out, line.as_slice())?;
    write_lines(decl, names, events, e, order, out)
}
