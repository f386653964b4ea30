// What has ends at each event, and rows that tell them.
ghost use Rattle.std.specs.Prelude.{◌≡◌, ◌<◌, ◌*◌, length, pos};
ghost use Rattle.row_pool.specs.Row.{cells_of};
ghost use Rattle.row_pool.specs.Reach.{reach_of};
ghost use Rattle.intervals.specs.Ends.{ends_of, shifted};
ghost use Rattle.session_answers.specs.Quantities.{HasEnds, TellsSince, TellsTime, ends_at, pair_by, source_pair};

use atto::Nano;
use intervals::{Ends, ends_from, source_time};
use row_pool::{Cell, Pair, Reach};
use solver::Solver;

/// What has a least and a greatest value at each event over all executions.
#[derive(Clone, Copy)]
pub(crate) enum Quantity<'a> {
    /// Its time by the source's clock.
    BySource {
        /// What keeps the rows of the source's reading.
        solver: &'a Solver,
        /// The stamp of this reading, in ns.
        stamp: Nano,
    },
    /// The real time from one event to it.
    Since {
        /// The row of the distances from the one event's node.
        from: &'a [Cell],
        /// The row of those towards it.
        to: &'a [Cell],
    },
}

// The greatest difference that a row tells of a node.
fn reach_in(row: &[Cell], node: u32) -> Reach
    requires { node < length row.now }
    ensures { result ≡ reach_of (cells_of row.now) node }
{
    row[node as usize].reach()
}

// The greatest differences that two rows tell of a node.
fn pair_in(from: &[Cell], to: &[Cell], node: u32) -> Pair
    requires from { node < length from.now }
    requires to { node < length to.now }
    ensures { result ≡ pair_by from.now to.now node }
{
    Pair {
        up: reach_in(from, node),
        down: reach_in(to, node),
    }
}

// The ends of the time at a node, by the source's reading of this stamp.
fn time_at(solver: &Solver, stamp: Nano, node: u32) -> Ends
    requires { TellsTime solver.now node }
    ensures { result ≡ shifted (pos (stamp * 1000000000)) (ends_of (source_pair solver.now node)) }
{
    match solver.source_pair(node) {
        Some(pair) => source_time(stamp, pair),
        None => unreachable!(),
    }
}

/// The ends of the real time to a node, by the rows of another.
pub(crate) fn since_at(from: &[Cell], to: &[Cell], node: u32) -> Ends
    requires { TellsSince from.now to.now node }
    ensures { result ≡ ends_of (pair_by from.now to.now node) }
{
    ends_from(pair_in(from, to, node))
}

/// The ends at a node, in units of 1e-9 ns.
pub(crate) fn ends_at(quantity: &Quantity, node: u32) -> Ends
    requires { HasEnds quantity.now node }
    ensures { result ≡ ends_at quantity.now node }
{
    match quantity {
        Quantity::BySource { solver, stamp } => time_at(solver, *stamp, node),
        Quantity::Since { from, to } => since_at(from, to, node),
    }
}
