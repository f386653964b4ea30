// The withdrawal of arcs.
ghost use Rattle.std.specs.Prelude.{◌≡◌, ◌≤◌, All, length};
ghost use Rattle.frontier.specs.Keys.{IsEmpty};
ghost use Rattle.sync_graph.specs.Graph.{IsSound};
ghost use Rattle.earliest.specs.Values.{IsEarliestOf};
ghost use Rattle.earliest.specs.Withdrawn.{IsEarliestWith, TakesFewToFall, ListsFewNodes, ChangesFewValues};

use crate::affected::{mark_all, mark_removed};
use crate::falls::{pull_all, settle_falls};
use atto::Steps;
use frontier::Frontier;
use std::sync::ledger::Ledger;
use sync_graph::{Arc, Graph};

/// Makes the earliest execution of the arcs in force and those removed one of the arcs in force alone. `found` is a list
/// to work in. No value but those of affected nodes is changed, and no more places of `found` than there are of these.
pub fn withdraw_arcs<L: Ledger>(
    values: &mut [i128],
    found: &mut [u32],
    g: &Graph,
    removed: &[Arc],
    front: &mut Frontier,
    steps: &mut Steps<L>,
)
    requires found { length found.old ≡ length values.old }
    requires sound { All (IsSound (length g.now.nodes)) removed.now }
    requires before { IsEarliestWith g.now removed.now values.old }
    requires empty { IsEmpty front.old }
    requires room { length g.now.nodes ≤ length front.old }
    ensures earliest { IsEarliestOf g.now values.new }
    ensures empty { IsEmpty front.new }
    ensures room { length front.new ≡ length front.old }
    ensures steps { TakesFewToFall g.now removed.now values.old steps.old steps.new }
    ensures places { ListsFewNodes g.now removed.now values.old found.old found.new }
    ensures others { ChangesFewValues g.now removed.now values.old values.new }
{
    // It tells what the lists of the graph hold.
    g.exact();
    let first = mark_removed(values, found, g, removed, front);
    let count = mark_all(values, found, first, g, front, steps);
    pull_all(values, found, count, g, front, steps);
    settle_falls(values, g, front, steps);
}
