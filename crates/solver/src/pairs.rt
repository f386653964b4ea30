// What is asked of a graph that has an execution.
ghost use Rattle.std.specs.Prelude.{◌≡◌, ◌<◌, ◌≤◌, [], true, length, None, Some, MatchOption, IfSome};
ghost use Rattle.problem_model.specs.Parents.{IsRow};
ghost use Rattle.problem_model.specs.Tables.{reversed_table};
ghost use Rattle.sync_graph.specs.Graph.{table_of};
ghost use Rattle.distances.specs.declared.side.Side.TheVariants.{From};
ghost use Rattle.earliest.specs.Values.{IsEarliestOf};
ghost use Rattle.distances.specs.Ends.{AreRowsAround};
ghost use Rattle.distances.specs.Searched.{nodes};
ghost use Rattle.row_pool.specs.Row.{cells_of};
ghost use Rattle.row_pool.specs.Pool.{free_rows};
ghost use Rattle.repair.specs.declared.slot.Slot as slots;
ghost use Rattle.repair.specs.Slots.{slot_of};
ghost use Rattle.repair.specs.Pairs.{IsPairIn};
ghost use Rattle.solver.specs.Changes.{LeavesAnswer};
ghost use Rattle.solver.specs.Current.{IsCurrent};

use crate::solver::Solver;
use atto::Steps;
use distances::{Scratch, Search, Side, Surroundings, find_near, find_reach};
use frontier::IdleQueue;
use row_pool::{Cell, Pair};
use std::sync::ledger::Ledger;

impl Solver {
    /// The greatest differences of two nodes p and q in both directions, in units of 1e-9 ns: `up` of `x_q - x_p`, `down`
    /// of `x_p - x_q`. Where one of them is kept they are read off its rows, without a step; else a free row is filled
    /// and given back. It takes no memory.
    pub fn pair<L: Ledger>(&mut self, p: u32, q: u32, steps: &mut Steps<L>) -> Pair
        requires current { IsCurrent self.old }
        requires solved { self.old.contradiction ≡ [] }
        requires p { p < length self.old.graph.nodes }
        requires q { q < length self.old.graph.nodes }
        requires free { 0 < free_rows self.old.pool }
        ensures pair { IsPairIn self.old.graph p q result }
        ensures leaves { LeavesAnswer self.old self.new }
        ensures steps { (slot_of self.old.kept p ≡ None → ⊥) → steps.new ≡ steps.old }
        ensures steps_turned { (slot_of self.old.kept q ≡ None → ⊥) → steps.new ≡ steps.old }
    {
        if let Some(pair) = self.kept.look(&self.pool, p, q) {
            return pair;
        }
        if let Some(pair) = self.kept.look(&self.pool, q, p) {
            return turned(pair);
        }
        self.new_pair(p, q, steps)
    }

    /// The greatest differences of the source's node and any node q in both directions, in units of 1e-9 ns, read off its
    /// rows. It is `None` where the source has no slot, and only there.
    pub fn source_pair(&self, q: u32) -> Option<Pair>
        requires current { IsCurrent self.now }
        requires solved { self.now.contradiction ≡ [] }
        requires q { q < length self.now.graph.nodes }
        ensures { MatchOption result (self.now.kept.source ≡ None) (λ pair. (slot : slots.Slot) × (self.now.kept.source ≡ Some slot) × IsPairIn self.now.graph slot.node q pair) }
    {
        self.kept.look_source(&self.pool, q)
    }

    /// The row from a kept node and the row towards it. It is `None` where the node is not kept, and only there.
    pub fn rows_of(&self, p: u32) -> Option<(&[Cell], &[Cell])>
        requires current { IsCurrent self.now }
        requires solved { self.now.contradiction ≡ [] }
        ensures rows { MatchOption result (slot_of self.now.kept p ≡ None) (λ rows. IsRow (length self.now.graph.nodes) (table_of self.now.graph) p (cells_of rows.0.now)
            × IsRow (length self.now.graph.nodes) (reversed_table (table_of self.now.graph)) p (cells_of rows.1.now)) }
        ensures cells { MatchOption result (slot_of self.now.kept p ≡ None) (λ rows. (length self.now.graph.nodes ≤ length rows.0.now) × (length self.now.graph.nodes ≤ length rows.1.now)) }
    {
        let (from, to) = self.kept.rows_of(p)?;
        Some((self.pool.row(from), self.pool.row(to)))
    }

    // The greatest differences of two nodes, of which none is kept.
    fn new_pair<L: Ledger>(&mut self, p: u32, q: u32, steps: &mut Steps<L>) -> Pair
        requires current { IsCurrent self.old }
        requires solved { self.old.contradiction ≡ [] }
        requires p { p < length self.old.graph.nodes }
        requires q { q < length self.old.graph.nodes }
        requires free { 0 < free_rows self.old.pool }
        ensures pair { IsPairIn self.old.graph p q result }
        ensures leaves { LeavesAnswer self.old self.new }
    {
        if let Some(pair) = self.near_pair(p, q, steps) {
            return pair;
        }
        self.far_pair(p, q, steps)
    }

    // The same by searches with the source's rows as a guide, if they tell it by few nodes.
    fn near_pair<L: Ledger>(&mut self, p: u32, q: u32, steps: &mut Steps<L>) -> Option<Pair>
        requires current { IsCurrent self.old }
        requires solved { self.old.contradiction ≡ [] }
        requires p { p < length self.old.graph.nodes }
        requires q { q < length self.old.graph.nodes }
        ensures pair { IfSome result (λ pair. IsPairIn self.old.graph p q pair) }
        ensures same { self.new ≡ self.old }
    {
        let (from, to) = self.kept.source_rows()?;
        let around = Surroundings {
            graph: &self.graph,
            earliest: &self.earliest,
            from: self.pool.row(from),
            to: self.pool.row(to),
        };
        let behind = &mut self.behind;
        let ahead = &mut self.ahead;
        pair_near(&around, p, q, behind, ahead, &mut self.queue, steps)
    }

    // The same by searches from the first node that end as soon as they know.
    fn far_pair<L: Ledger>(&mut self, p: u32, q: u32, steps: &mut Steps<L>) -> Pair
        requires current { IsCurrent self.old }
        requires solved { self.old.contradiction ≡ [] }
        requires p { p < length self.old.graph.nodes }
        requires q { q < length self.old.graph.nodes }
        requires free { 0 < free_rows self.old.pool }
        ensures pair { IsPairIn self.old.graph p q result }
        ensures leaves { LeavesAnswer self.old self.new }
    {
        let _width = self.pool.width();
        let Some(row) = self.pool.take() else {
            unreachable!()
        };
        let search = Search::new(&self.graph, &self.earliest, Side::From);
        let cells = self.pool.row_mut(&row);
        let pair = pair_by(&search, p, q, cells, &mut self.queue, steps);
        self.pool.give(row);
        pair
    }
}

// The greatest differences of two nodes by searches among what is known around them, if they tell both.
fn pair_near<L: Ledger>(
    around: &Surroundings,
    p: u32,
    q: u32,
    behind: &mut Scratch,
    ahead: &mut Scratch,
    queue: &mut IdleQueue,
    steps: &mut Steps<L>,
) -> Option<Pair>
    requires solved { around.now.earliest.now.is_solved ≡ true }
    requires earliest { IsEarliestOf around.now.graph.now around.now.earliest.now.values }
    requires rows { AreRowsAround around.now.graph.now around.now.from.now around.now.to.now }
    requires p { p < length around.now.graph.now.nodes }
    requires q { q < length around.now.graph.now.nodes }
    requires room { length around.now.graph.now.nodes ≤ queue.old }
    ensures pair { IfSome result (λ pair. IsPairIn around.now.graph.now p q pair) }
    ensures queue { queue.new ≡ queue.old }
{
    let onward = find_near(around, p, q, behind, ahead, queue, steps)?;
    let back = find_near(around, q, p, behind, ahead, queue, steps)?;
    Some(Pair {
        up: onward,
        down: back,
    })
}

// The greatest differences of two nodes, by a search from the first and one towards it, in this row, that end as soon as
// they know.
fn pair_by<L: Ledger>(
    search: &Search,
    p: u32,
    q: u32,
    row: &mut [Cell],
    queue: &mut IdleQueue,
    steps: &mut Steps<L>,
) -> Pair
    requires outward { search.now.side ≡ From }
    requires p { p < nodes search.now }
    requires q { q < nodes search.now }
    requires cells { nodes search.now ≤ length row.old }
    requires room { nodes search.now ≤ queue.old }
    ensures pair { IsPairIn search.now.graph p q result }
    ensures queue { queue.new ≡ queue.old }
{
    let back = search.turned();
    let up = find_reach(search, p, q, row, queue, steps);
    let down = find_reach(&back, p, q, row, queue, steps);
    Pair { up, down }
}

// The same differences, of the nodes the other way round.
fn turned(pair: Pair) -> Pair
    ensures up { result.up ≡ pair.down }
    ensures down { result.down ≡ pair.up }
{
    Pair {
        up: pair.down,
        down: pair.up,
    }
}
