// The marking of the nodes that a withdrawal affects: they wait in the frontier, and a list has them in the order in
// which they were found.
ghost use Rattle.std.specs.Prelude.{◌≡◌, ℕ, ◌+◌, ◌<◌, ◌≤◌, false, true, All, List, length, map};
ghost use Rattle.problem_model.specs.Executions as bounds;
ghost use Rattle.problem_model.specs.Executions.{at};
ghost use Rattle.problem_model.specs.Numbers.{IsUpTo};
ghost use Rattle.problem_model.specs.Sums.{sum_to};
ghost use Rattle.problem_model.specs.Limits.{most_nodes, path_bits};
ghost use Rattle.sync_graph.specs.Graph.{IsSound, unnamed, reaching};
ghost use Rattle.withdrawals.specs.Withdrawals.{IsExact, LeavesFrom};
ghost use Rattle.earliest.specs.Values.{AreSmall};
ghost use Rattle.earliest.specs.Withdrawn.{waits_at, found_at, arcs_before, IsMarkedBy, IsFallMarking};

use atto::Steps;
use frontier::Frontier;
use problem_model::numbers::shortfall;
use std::sync::ledger::Ledger;
use sync_graph::{Arc, Graph};

/// Whether the values meet an arc exactly.
pub fn is_exact(values: &[i128], a: &Arc) -> bool
    requires sound { IsSound (length values.now) a.now }
    requires small { All (IsUpTo (path_bits + 3)) values.now }
    ensures exact { result ≡ true → IsExact (at values.now) (unnamed a.now) }
    ensures other { result ≡ false → IsExact (at values.now) (unnamed a.now) → ⊥ }
{
    shortfall(values[a.from as usize], values[a.to as usize], a.weight) == 0
}

/// Marks the tail of an arc that the values meet exactly, where it is not marked. It is to fall to 0. How many are
/// found.
pub fn mark_tail(
    values: &[i128],
    found: &mut [u32],
    count: u32,
    a: &Arc,
    front: &mut Frontier,
) -> u32
    requires sound { IsSound (length values.now) a.now }
    requires small { All (IsUpTo (path_bits + 3)) values.now }
    requires room { length values.now ≤ length front.old }
    requires place { waits_at front.old a.now.from ≡ false → count < length found.old }
    requires few { length found.old ≤ most_nodes }
    ensures marked { IsMarkedBy values.now a.now front.old front.new found.old found.new count result }
{
    if let Some(_) = front.key(a.from) {
        return count;
    }
    if !is_exact(values, a) {
        return count;
    }
    front.put(a.from, values[a.from as usize]);
    found[count as usize] = a.from;
    count + 1
}

/// Marks the tails of all removed arcs that the values meet exactly. How many are found.
pub fn mark_removed(
    values: &[i128],
    found: &mut [u32],
    g: &Graph,
    removed: &[Arc],
    front: &mut Frontier,
) -> u32
    requires values { AreSmall g.now values.now }
    requires found { length found.old ≡ length g.now.nodes }
    requires sound { All (IsSound (length g.now.nodes)) removed.now }
    requires room { length g.now.nodes ≤ length front.old }
    requires empty { (k : ℕ) → waits_at front.old k ≡ false }
    ensures marking { IsFallMarking g.now (arcs_before g.now removed.now) (map unnamed removed.now) values.now front.new found.new result 0 }
    ensures gone { All (λ a. IsExact (at values.now) a → waits_at front.new a.from ≡ true) (map unnamed removed.now) }
    ensures places { LeavesFrom result found.old found.new }
    ensures room { length front.new ≡ length front.old }
{
    // It tells what the lists of the graph hold.
    g.exact();
    let mut count = 0;
    for i in 0..removed.len() {
        count = mark_tail(values, found, count, &removed[i], front);
    }
    count
}

/// How far the search for affected nodes has come.
#[derive(Clone, Copy)]
pub struct Progress {
    /// How many nodes are found.
    pub count: u32,
    /// Of how many of these the arcs that arrive are seen.
    pub done: u32,
}

/// Marks the tails of all arcs that arrive at the next node found and that the values meet exactly. How many are found.
pub fn mark_tails<L: Ledger>(
    values: &[i128],
    found: &mut [u32],
    so_far: Progress,
    g: &Graph,
    front: &mut Frontier,
    steps: &mut Steps<L>,
) -> u32
    requires values { AreSmall g.now values.now }
    requires next { so_far.done < so_far.count }
    requires first { (before : List bounds.Arc) × (gone : List bounds.Arc) × IsFallMarking g.now before gone values.now front.old found.old so_far.count so_far.done }
    ensures marking { (before gone : List bounds.Arc)
        → IsFallMarking g.now before gone values.now front.old found.old so_far.count so_far.done
        → IsFallMarking g.now before gone values.now front.new found.new result (so_far.done + 1) }
    ensures keeps { (k : ℕ) → waits_at front.old k ≡ true → waits_at front.new k ≡ true }
    ensures before { (i : ℕ) → i < so_far.count → found_at found.new i ≡ found_at found.old i }
    ensures places { LeavesFrom result found.old found.new }
    ensures more { so_far.count ≤ result }
    ensures room { length front.new ≡ length front.old }
    ensures steps { steps.new ≤ steps.old + reaching g.now (found_at found.old so_far.done) + 1 }
{
    // It tells what the lists of the graph hold.
    g.exact();
    let done = so_far.done;
    let node = found[done as usize];
    let mut count = so_far.count;
    let mut k = 0;
    while let Some(arc) = g.arriving(node, k, steps) {
        let a = g.arc(arc);
        count = mark_tail(values, found, count, &a, front);
        k += 1;
    }
    count
}

/// Marks all nodes from which arcs that the values meet exactly lead to a node that is marked. How many are found.
pub fn mark_all<L: Ledger>(
    values: &[i128],
    found: &mut [u32],
    first: u32,
    g: &Graph,
    front: &mut Frontier,
    steps: &mut Steps<L>,
) -> u32
    requires values { AreSmall g.now values.now }
    requires first { (before : List bounds.Arc) × (gone : List bounds.Arc) × IsFallMarking g.now before gone values.now front.old found.old first 0 }
    ensures marking { (before gone : List bounds.Arc)
        → IsFallMarking g.now before gone values.now front.old found.old first 0
        → IsFallMarking g.now before gone values.now front.new found.new result result }
    ensures keeps { (k : ℕ) → waits_at front.old k ≡ true → waits_at front.new k ≡ true }
    ensures places { LeavesFrom result found.old found.new }
    ensures more { first ≤ result }
    ensures room { length front.new ≡ length front.old }
    ensures steps { steps.new ≤ steps.old + sum_to result (λ i. reaching g.now (found_at found.new i) + 1) }
{
    // It tells what the lists of the graph hold.
    g.exact();
    let mut count = first;
    let mut done = 0;
    while done < count {
        let so_far = Progress { count, done };
        count = mark_tails(values, found, so_far, g, front, steps);
        done += 1;
    }
    count
}
