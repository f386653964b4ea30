// The cut where there is no limit: the clocks inside it.
ghost use Rattle.std.specs.Prelude.{◌≡◌, ◌<◌, ℕ, List, length, IfOk};
ghost use Rattle.std.specs.List.{flat_map};
ghost use Rattle.ports.specs.Content.{Writes};
ghost use Rattle.attain.specs.Written.{written_inside, AreClocksOf, ListsGraph};
ghost use Rattle.attain.specs.RowLists.{cells_for};
ghost use Rattle.attain.specs.Sides.{is_upper};
ghost use Rattle.attain.specs.Cuts.{is_another, is_first, clock_if, last_behind};

use crate::node_rows::NodeRows;
use crate::side::Side;
use cert::push_clock;
use ports::fixed_line::{Line, first_word};
use ports::{Failed, Sink, write_whole};
use problem::Listing;

// Whether the clock is another one than the last.
fn is_another(last: Option<u32>, clock: u32) -> bool
    ensures { result ≡ is_another last clock }
{
    match last {
        Some(last) => last != clock,
        None => true,
    }
}

// Whether the clock of a reading is inside and has not been written.
fn is_first(side: Side, known: bool, last: Option<u32>, clock: u32) -> bool
    ensures { result ≡ is_first (is_upper side) known last clock }
{
    if side.is_upper() != known {
        return false;
    }
    is_another(last, clock)
}

// The line of a clock inside the cut.
fn inside_line<N: Listing>(names: &N, clock: u32) -> Line
    requires { clock < length (N.listed names.now).clock_names }
    ensures { result.items ≡ written_inside (N.listed names.now) clock }
{
    let mut line = first_word(b"inside");
    push_clock(&mut line, names, clock);
    line.push(b'\n');
    line
}

// Writes the line of a clock if it is met first. Answers the clock that was written last.
fn write_first<N: Listing, O: Sink>(
    names: &N,
    first: bool,
    clock: u32,
    last: Option<u32>,
    out: &mut O,
) -> Result<Option<u32>, Failed>
    requires { clock < length (N.listed names.now).clock_names }
    ensures written { Writes (flat_map (written_inside (N.listed names.now)) (clock_if first clock)) (O.told out.old) (O.told out.new) result }
    ensures last { IfOk result (λ next. next ≡ last_behind first last clock) }
{
    if !first {
        return Ok(last);
    }
    let line = inside_line(names, clock);
    write_whole(out, line.as_slice())?;
    Ok(Some(clock))
}

// Writes the lines of the clocks inside the cut: those of readings that are known, or for the lower end of those that are
// not.
pub fn write_cut<N: Listing, O: Sink>(
    names: &N,
    rows: &NodeRows,
    side: Side,
    out: &mut O,
) -> Result<(), Failed>
    requires listed { ListsGraph (N.listed names.now) rows.now.graph }
    ensures { (inside : List ℕ) × AreClocksOf (N.listed names.now) (cells_for side rows.now) (is_upper side) inside
        × Writes (flat_map (written_inside (N.listed names.now)) inside) (O.told out.old) (O.told out.new) result }
{
    let mut last = None;
    for place in 0..names.reading_count() {
        let (clock, _, node) = names.reading_at(place);
        let first = is_first(side, rows.is_known(side, node), last, clock);
        last = write_first(names, first, clock, last, out)?;
    }
    Ok(())
}
