// The execution at a limit: known nodes at their differences, the others at their earliest values and one lead more.
ghost use Rattle.std.specs.Prelude.{◌+◌, ◌≡◌, ◌<◌, length};
ghost use Rattle.problem_model.specs.Numbers.{IsUpTo};
ghost use Rattle.problem_model.specs.Rows.{attaining};
ghost use Rattle.problem_model.specs.Limits.{path_bits};
ghost use Rattle.ports.specs.Content.{Writes};
ghost use Rattle.cert.specs.Listed.{listed_values};
ghost use Rattle.attain.specs.Written.{ListsGraph};
ghost use Rattle.attain.specs.RowLists.{IsKnown, cells_for};
ghost use Rattle.attain.specs.Sides.{differences, lead, IsAsFar, IsLeadOf};

use crate::node_rows::NodeRows;
use crate::run::{node_at, node_count};
use crate::side::Side;
use cert::write_value;
use ports::{Failed, Sink};
use problem::Listing;

// By how much the difference of a known node exceeds its earliest value.
fn lead_at(rows: &NodeRows, side: Side, node: u32) -> i128
    requires { IsKnown side rows.now node }
    ensures lead { result ≡ lead side (cells_for side rows.now) rows.now.values node }
    ensures small { IsUpTo (path_bits + 2) result }
{
    // It tells that known nodes are nodes of the graph.
    rows.exact();
    rows.difference(side, node) - rows.value(node)
}

// Of a known node and another one, the one whose lead is as far out as that of the other, if the other is known.
fn farther(rows: &NodeRows, side: Side, first: u32, other: u32) -> u32
    requires first { IsKnown side rows.now first }
    requires other { other < length rows.now.graph.nodes }
    ensures known { IsKnown side rows.now result }
    ensures first { IsAsFar side (lead side (cells_for side rows.now) rows.now.values result) (lead side (cells_for side rows.now) rows.now.values first) }
    ensures other { IsKnown side rows.now other → IsAsFar side (lead side (cells_for side rows.now) rows.now.values result) (lead side (cells_for side rows.now) rows.now.values other) }
{
    if !rows.is_known(side, other) {
        return first;
    }
    if side.is_as_far(lead_at(rows, side, first), lead_at(rows, side, other)) {
        return first;
    }
    other
}

// The greatest lead of the known nodes, or the least for the lower end.
pub fn lead_of(rows: &NodeRows, side: Side) -> i128
    ensures lead { IsLeadOf side (length rows.now.graph.nodes) (cells_for side rows.now) rows.now.values result }
    ensures small { IsUpTo (path_bits + 2) result }
{
    // It tells that the node of the rows is known.
    rows.exact();
    let mut farthest = rows.node();
    for node in 0..rows.nodes() {
        farthest = farther(rows, side, farthest, node);
    }
    lead_at(rows, side, farthest)
}

// The real time of a node in the execution at the limit.
pub fn real_time(rows: &NodeRows, side: Side, lead: i128, node: u32) -> i128
    requires node { node < length rows.now.graph.nodes }
    requires small { IsUpTo (path_bits + 2) lead }
    ensures { result ≡ attaining (cells_for side rows.now).known (differences side (cells_for side rows.now)) rows.now.values lead node }
{
    if rows.is_known(side, node) {
        return rows.difference(side, node);
    }
    rows.value(node) + lead
}

// Writes the lines of the nodes, with their real times in the execution at the limit.
pub fn write_times<N: Listing, O: Sink>(
    names: &N,
    rows: &NodeRows,
    side: Side,
    lead: i128,
    out: &mut O,
) -> Result<(), Failed>
    requires listed { ListsGraph (N.listed names.now) rows.now.graph }
    requires small { IsUpTo (path_bits + 2) lead }
    ensures { Writes (listed_values (N.listed names.now) (attaining (cells_for side rows.now).known (differences side (cells_for side rows.now)) rows.now.values lead)) (O.told out.old) (O.told out.new) result }
{
    for place in 0..node_count(names) {
        let time = real_time(rows, side, lead, node_at(names, place));
        write_value(names, place, time, out)?;
    }
    Ok(())
}
