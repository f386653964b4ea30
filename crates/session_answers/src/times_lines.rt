// The lines of the ends of all events.
ghost use Rattle.std.specs.Prelude.{◌≡◌, ℕ};
ghost use Rattle.problem_graph.specs.ListedStanding.{IsEventAt};
ghost use Rattle.ports.specs.Content.{Writes};
ghost use Rattle.session_answers.specs.Quantities.{HasEnds, ends_at};
ghost use Rattle.replies.specs.AllTimes.{ends_line};
ghost use Rattle.session_answers.specs.TimesTexts.{listed_lines, listed_times, times_head};

use crate::quantity::{Quantity, ends_at};
use intervals::Ends;
use ports::fixed_line::{Line, first_word, push_decimal};
use ports::{Failed, Sink, write_whole};
use problem::Listing;
use problem_model::Name;
use problem_text::{Page, put};
use queries::ends_line;

// The line of an event's ends.
fn event_line(name: &Name, ends: &Ends) -> Line
    ensures { result.items ≡ ends_line name.now ends.now }
{
    ends_line(name.bytes(), ends)
}

// The line of the number of events.
fn head_line(count: u32) -> Line
    ensures { result.items ≡ times_head count }
{
    let mut line = first_word(b"times");
    push_decimal(&mut line, u64::from(count));
    line.push(b'\n');
    line
}

// Writes the lines of the events, many in one write.
fn write_lines<N: Listing, O: Sink>(
    names: &N,
    quantity: &Quantity,
    out: &mut O,
) -> Result<(), Failed>
    requires { (place node : ℕ) → IsEventAt (N.listed names.now) place node → HasEnds quantity.now node }
    ensures { Writes (listed_lines (N.listed names.now) (ends_at quantity.now)) (O.told out.old) (O.told out.new) result }
{
    let mut page = Page::new();
    for place in 0..names.event_count() {
        let (event, node) = names.event_at(place);
        let line = event_line(&names.event_name(event), &ends_at(quantity, node));
        put(&mut page, line.as_slice(), out)?;
    }
    write_whole(out, page.as_slice())
}

/// Writes how many events there are, and the line of each with its ends. It takes no memory. After `Failed`, which comes
/// only where the sink's count of faults rose, some front of the text is written.
pub(crate) fn write_times<N: Listing, O: Sink>(
    names: &N,
    quantity: &Quantity,
    out: &mut O,
) -> Result<(), Failed>
    requires { (place node : ℕ) → IsEventAt (N.listed names.now) place node → HasEnds quantity.now node }
    ensures { Writes (listed_times (N.listed names.now) (ends_at quantity.now)) (O.told out.old) (O.told out.new) result }
{
    let head = head_line(names.event_count());
    write_whole(out, head.as_slice())?;
    write_lines(names, quantity, out)
}
