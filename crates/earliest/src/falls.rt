// The falls of marked nodes: each falls only as far as arcs to nodes that do not wait allow, the least fall first.
ghost use Rattle.std.specs.Prelude.{◌≡◌, ℕ, ◌+◌, ◌<◌, ◌≤◌, neg_ℤ, ◌≤ℤ◌, false, true, length, Some, None};
ghost use Rattle.problem_model.specs.Executions.{at, Obeys};
ghost use Rattle.problem_model.specs.Numbers.{IsUpTo};
ghost use Rattle.problem_model.specs.Sums.{sum_to};
ghost use Rattle.problem_model.specs.Limits.{path_bits};
ghost use Rattle.frontier.specs.Keys.{IsEmpty};
ghost use Rattle.sync_graph.specs.Graph.{table_of, reaching, departing};
ghost use Rattle.sync_graph.specs.Lists.{list_at};
ghost use Rattle.withdrawals.specs.Withdrawals.{flagged_sum};
ghost use Rattle.withdrawals.specs.Falls.{IsHolding, HoldsTail};
ghost use Rattle.earliest.specs.Values.{IsEarliestOf, AreSmall};
ghost use Rattle.earliest.specs.Withdrawn.{waits_at, fall_at, falls_of, found_at, AreLow, IsLoweredTo, IsPulledIn, IsFallingIn};

use crate::raises::{lift, raise_asked};
use atto::Steps;
use frontier::Frontier;
use std::sync::ledger::Ledger;
use sync_graph::Graph;

/// Lets a node that waits fall less far, where the negative of this raise is less than what it is to fall; whether it
/// does so now.
pub fn stop(front: &mut Frontier, node: u32, raise: i128) -> bool
    requires node { node < length front.old }
    requires raise { IsUpTo (path_bits + 7) raise }
    ensures lowered { result ≡ true → IsLoweredTo node (neg_ℤ raise) front.old front.new }
    ensures same { result ≡ false → front.new ≡ front.old }
    ensures enough { result ≡ false → waits_at front.old node ≡ true → fall_at front.old node ≤ℤ neg_ℤ raise }
{
    match front.key(node) {
        None => return false,
        Some(key) => {
            if key <= -raise {
                return false;
            }
            front.lower(node, -raise);
        }
    }
    true
}

/// Lets the tail of an arc fall no farther than the arc allows, where the tail waits and the head does not.
pub fn stop_tail(values: &[i128], g: &Graph, arc: u32, front: &mut Frontier)
    requires arc { arc < length g.now.arcs }
    requires values { AreSmall g.now values.now }
    requires room { length g.now.nodes ≤ length front.old }
    ensures held { HoldsTail (table_of g.now) arc (falls_of values.now front.old) (falls_of values.now front.new) }
    ensures nodes { (k : ℕ) → waits_at front.new k ≡ waits_at front.old k }
    ensures room { length front.new ≡ length front.old }
{
    // It tells what the lists of the graph hold.
    g.exact();
    let raise = raise_asked(values, g, arc);
    let a = g.arc(arc);
    if let Some(_) = front.key(a.to) {
        return;
    }
    stop(front, a.from, raise);
}

/// Lets a node fall no farther than the arcs that leave it allow.
pub fn pull<L: Ledger>(
    values: &[i128],
    g: &Graph,
    node: u32,
    front: &mut Frontier,
    steps: &mut Steps<L>,
)
    requires node { node < length g.now.nodes }
    requires values { AreSmall g.now values.now }
    requires room { length g.now.nodes ≤ length front.old }
    ensures holding { IsHolding (table_of g.now) (list_at g.now.leaving node) (departing g.now node) (falls_of values.now front.old) (falls_of values.now front.new) }
    ensures room { length front.new ≡ length front.old }
    ensures steps { steps.new ≤ steps.old + departing g.now node + 1 }
{
    // It tells what the lists of the graph hold.
    g.exact();
    let mut k = 0;
    while let Some(arc) = g.leaving(node, k, steps) {
        stop_tail(values, g, arc, front);
        k += 1;
    }
}

/// Lets the tails of all arcs that arrive at a node fall no farther than these arcs allow.
pub fn stop_tails<L: Ledger>(
    values: &[i128],
    g: &Graph,
    node: u32,
    front: &mut Frontier,
    steps: &mut Steps<L>,
)
    requires node { node < length g.now.nodes }
    requires values { AreSmall g.now values.now }
    requires room { length g.now.nodes ≤ length front.old }
    ensures holding { IsHolding (table_of g.now) (list_at g.now.arriving node) (reaching g.now node) (falls_of values.now front.old) (falls_of values.now front.new) }
    ensures room { length front.new ≡ length front.old }
    ensures steps { steps.new ≤ steps.old + reaching g.now node + 1 }
{
    // It tells what the lists of the graph hold.
    g.exact();
    let mut k = 0;
    while let Some(arc) = g.arriving(node, k, steps) {
        stop_tail(values, g, arc, front);
        k += 1;
    }
}

/// Lets each of the nodes found fall no farther than the arcs that leave it allow.
pub fn pull_all<L: Ledger>(
    values: &[i128],
    found: &[u32],
    count: u32,
    g: &Graph,
    front: &mut Frontier,
    steps: &mut Steps<L>,
)
    requires values { AreSmall g.now values.now }
    requires obeyed { (j : ℕ) → (table_of g.now).in_force j ≡ true → Obeys (at values.now) ((table_of g.now).arc j) }
    requires few { count ≤ length found.now }
    requires pulled { IsPulledIn g.now values.now front.old found.now count 0 }
    ensures pulled { IsPulledIn g.now values.now front.new found.now count count }
    ensures waits { (k : ℕ) → waits_at front.new k ≡ waits_at front.old k }
    ensures room { length front.new ≡ length front.old }
    ensures steps { steps.new ≤ steps.old + sum_to count (λ i. departing g.now (found_at found.now i) + 1) }
{
    // It tells what the lists of the graph hold.
    g.exact();
    for i in 0..count {
        let node = found[i as usize];
        pull(values, g, node, front, steps);
    }
}

/// Lets nodes fall, the least fall first, until none waits.
pub fn settle_falls<L: Ledger>(
    values: &mut [i128],
    g: &Graph,
    front: &mut Frontier,
    steps: &mut Steps<L>,
)
    requires low { AreLow (length g.now.nodes) values.old }
    requires obeyed { (j : ℕ) → (table_of g.now).in_force j ≡ true → Obeys (at values.old) ((table_of g.now).arc j) }
    requires first { IsFallingIn g.now values.old values.old front.old }
    ensures earliest { IsEarliestOf g.now values.new }
    ensures empty { IsEmpty front.new }
    ensures room { length front.new ≡ length front.old }
    ensures steps { steps.new ≤ steps.old + flagged_sum (length g.now.nodes) (λ k. reaching g.now k + 2) (waits_at front.old) + 1 }
{
    // It tells what the lists of the graph hold.
    g.exact();
    while let Some((node, key)) = front.pop(steps) {
        lift(values, node, key);
        stop_tails(values, g, node, front, steps);
    }
}
