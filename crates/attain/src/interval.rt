// The certificate of the interval between two events, by the rows of the first one.
ghost use Rattle.std.specs.Prelude.{◌≡◌, ◌<◌, ◌∷◌, [], ℕ, length, codes, List};
ghost use Rattle.line_format.specs.Words.{line_of};
ghost use Rattle.ports.specs.Content.{Writes};
ghost use Rattle.problem.specs.Listing.{name_at};
ghost use Rattle.attain.specs.Ends.{AreEventNodes};
ghost use Rattle.attain.specs.Written.{ListsGraph};
ghost use Rattle.attain.specs.Intervals.{IsEventOn, AreLinesBy, IsTextBy};

use crate::node_rows::NodeRows;
use crate::part::write_end;
use crate::side::Side;
use cert::push_event;
use ports::fixed_line::{Line, first_word};
use ports::{Failed, Sink, write_whole};
use problem::Listing;

// The number of the event that is a node.
fn event_of<N: Listing>(names: &N, node: u32) -> u32
    requires { (event : ℕ) × IsEventOn (N.listed names.now) event node }
    ensures event { IsEventOn (N.listed names.now) result node }
    ensures named { result < length (N.listed names.now).event_names }
{
    for place in 0..names.event_count() {
        let (event, own) = names.event_at(place);
        if own == node {
            return event;
        }
    }
    // Some event is the node, so this is not reached.
    0
}

// The line that names two events.
fn ends_line<N: Listing>(names: &N, first: u32, second: u32) -> Line
    requires first { first < length (N.listed names.now).event_names }
    requires second { second < length (N.listed names.now).event_names }
    ensures { result.items ≡ line_of (codes "ends" ∷ name_at (N.listed names.now).event_names first ∷ name_at (N.listed names.now).event_names second ∷ []) }
{
    let mut line = first_word(b"ends");
    push_event(&mut line, names, first);
    push_event(&mut line, names, second);
    line.push(b'\n');
    line
}

// Writes the lines between the first line of the certificate and its end.
fn write_ends_lines<N: Listing, O: Sink>(
    names: &N,
    rows: &NodeRows,
    q: u32,
    out: &mut O,
) -> Result<(), Failed>
    requires listed { ListsGraph (N.listed names.now) rows.now.graph }
    requires events { AreEventNodes (N.listed names.now) rows.now.node q }
    ensures { (lines : List ℕ) × AreLinesBy (N.listed names.now) rows.now q lines × Writes lines (O.told out.old) (O.told out.new) result }
{
    // It tells that each end can be written.
    rows.exact();
    let line = ends_line(names, event_of(names, rows.node()), event_of(names, q));
    write_whole(out, line.as_slice())?;
    write_end(names, rows, Side::Upper, q, out)?;
    write_end(names, rows, Side::Lower, q, out)
}

// Writes the certificate of the interval from the node of the rows to node `q`.
pub fn write_interval<N: Listing, O: Sink>(
    names: &N,
    rows: &NodeRows,
    q: u32,
    out: &mut O,
) -> Result<(), Failed>
    requires listed { ListsGraph (N.listed names.now) rows.now.graph }
    requires events { AreEventNodes (N.listed names.now) rows.now.node q }
    ensures { (text : List ℕ) × IsTextBy (N.listed names.now) rows.now q text × Writes text (O.told out.old) (O.told out.new) result }
{
    // It tells that each end can be written.
    rows.exact();
    write_whole(out, b"certificate 1\n")?;
    write_ends_lines(names, rows, q, out)?;
    write_whole(out, b"end\n")
}
