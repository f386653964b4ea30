// The path to a limit, along the parents of a row.
ghost use Rattle.std.specs.Prelude.{◌<◌, ℤ, List, length};
ghost use Rattle.std.specs.List.{flat_map};
ghost use Rattle.problem_model.specs.declared.items.Bound.{Bound};
ghost use Rattle.ports.specs.Content.{Writes};
ghost use Rattle.cert.specs.Listed.{listed_step};
ghost use Rattle.attain.specs.Written.{NamesParents, NamesArcs};
ghost use Rattle.attain.specs.RowLists.{IsKnown, cells_for};
ghost use Rattle.attain.specs.Sides.{is_upper};

use crate::cycle::write_arc;
use crate::node_rows::NodeRows;
use crate::side::Side;
use ports::{Failed, Sink};
use problem::Listing;

// Writes the lines of the steps along parents from node `q`, which is known, to the node of the rows.
pub fn write_path<N: Listing, O: Sink>(
    names: &N,
    rows: &NodeRows,
    side: Side,
    q: u32,
    out: &mut O,
) -> Result<(), Failed>
    requires known { IsKnown side rows.now q }
    requires named { NamesArcs (N.listed names.now) rows.now.graph }
    ensures { (steps : List (Bound × ℤ)) × NamesParents (is_upper side) rows.now.graph (cells_for side rows.now) rows.now.node q steps × (length steps < length rows.now.graph.nodes)
        × Writes (flat_map (listed_step (N.listed names.now)) steps) (O.told out.old) (O.told out.new) result }
{
    // It tells what the lists of the graph hold, and that parents lead to the node of the rows.
    rows.exact();
    let p = rows.node();
    let mut node = q;
    for _step in 0..rows.nodes() {
        if node == p {
            return Ok(());
        }
        let arc = rows.parent_arc(side, node);
        write_arc(names, &arc, out)?;
        node = side.next_node(&arc);
    }
    Ok(())
}
