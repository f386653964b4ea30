// One part of the certificate of an interval: an end, and what shows it.
ghost use Rattle.std.specs.Prelude.{◌<◌, ℕ, List, length};
ghost use Rattle.problem_model.specs.Executions.{at};
ghost use Rattle.ports.specs.Content.{Writes};
ghost use Rattle.attain.specs.Written.{NoLimit, written_end, AreClocksOf, ListsGraph};
ghost use Rattle.attain.specs.RowLists.{IsKnown, cells_for};
ghost use Rattle.attain.specs.Sides.{is_upper, part, unlimited};
ghost use Rattle.attain.specs.Intervals.{IsEndBy};

use crate::cut::write_cut;
use crate::lead::{lead_of, write_times};
use crate::node_rows::NodeRows;
use crate::path::write_path;
use crate::run::write_values;
use crate::side::Side;
use ports::{Failed, Sink, write_whole};
use problem::Listing;

// Writes the part of an end that is a limit: where it is, a path, and an execution that attains it.
fn write_limit<N: Listing, O: Sink>(
    names: &N,
    rows: &NodeRows,
    side: Side,
    q: u32,
    out: &mut O,
) -> Result<(), Failed>
    requires known { IsKnown side rows.now q }
    requires listed { ListsGraph (N.listed names.now) rows.now.graph }
    ensures { (text : List ℕ) × IsEndBy side (N.listed names.now) rows.now q text × Writes text (O.told out.old) (O.told out.new) result }
{
    // It tells that there is a path.
    rows.exact();
    let lead = lead_of(rows, side);
    let line = side.limit_line(rows.difference(side, q));
    write_whole(out, line.as_slice())?;
    write_path(names, rows, side, q, out)?;
    write_times(names, rows, side, lead, out)
}

// Writes the part of an end that is no limit: a cut, and the earliest execution.
fn write_no_limit<N: Listing, O: Sink>(
    names: &N,
    rows: &NodeRows,
    side: Side,
    out: &mut O,
) -> Result<(), Failed>
    requires listed { ListsGraph (N.listed names.now) rows.now.graph }
    ensures { (inside : List ℕ) × AreClocksOf (N.listed names.now) (cells_for side rows.now) (is_upper side) inside
        × Writes (written_end (N.listed names.now) (part side) (unlimited side) (NoLimit inside (at rows.now.values))) (O.told out.old) (O.told out.new) result }
{
    // It tells that each node has a value.
    rows.exact();
    let line = side.unlimited_line();
    write_whole(out, line.as_slice())?;
    write_cut(names, rows, side, out)?;
    write_values(names, rows.earliest(), out)
}

// Writes the part of an end of the interval from the node of the rows to node `q`.
pub fn write_end<N: Listing, O: Sink>(
    names: &N,
    rows: &NodeRows,
    side: Side,
    q: u32,
    out: &mut O,
) -> Result<(), Failed>
    requires node { q < length rows.now.graph.nodes }
    requires listed { ListsGraph (N.listed names.now) rows.now.graph }
    ensures { (text : List ℕ) × IsEndBy side (N.listed names.now) rows.now q text × Writes text (O.told out.old) (O.told out.new) result }
{
    if rows.is_known(side, q) {
        write_limit(names, rows, side, q, out)
    } else {
        write_no_limit(names, rows, side, out)
    }
}
