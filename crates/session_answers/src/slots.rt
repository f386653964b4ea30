// Nodes and a source whose rows a solver keeps.
ghost use Rattle.std.specs.Prelude.{◌≡◌, ◌<◌, ◌≤◌, ◌+◌, ℕ, None, Some, length, IfSome, IfNone};
ghost use Rattle.problem_model.specs.Problem.{ProblemLists};
ghost use Rattle.row_pool.specs.Pool.{free_rows};
ghost use Rattle.repair.specs.Slots.{slot_of};
ghost use Rattle.solver.specs.Current.{IsCurrent};
ghost use Rattle.roster.specs.Roster.{listed};
ghost use Rattle.solver.specs.Solution.{IsSolutionBy};
ghost use Rattle.queries.specs.Asking.{IsListedReading};
ghost use Rattle.session_answers.specs.Ready.{KeepsSource};
ghost use Rattle.session_answers.specs.Keeping.{TakesFree, TakesForSource, HasNextSlot};

use atto::{Nano, Steps};
use roster::Roster;
use solver::Solver;
use std::sync::ledger::Ledger;

/// Keeps the rows of a node that has no slot, where fewer than eight have one, and answers the number of its slot.
pub(crate) fn keep_node<L: Ledger>(solver: &mut Solver, node: u32, steps: &mut Steps<L>) -> u32
    requires current { IsCurrent solver.old }
    requires node { node < length solver.old.graph.nodes }
    requires none { slot_of solver.old.kept node ≡ None }
    requires few { length solver.old.kept.slots < 8 }
    requires free { 2 ≤ free_rows solver.old.pool }
    ensures number { result ≡ length solver.old.kept.slots + 1 }
    ensures slot { HasNextSlot node solver.old solver.new }
    ensures takes { TakesFree 2 solver.old solver.new }
{
    match solver.keep(node, steps) {
        Ok(slot) => slot,
        Err(_) => unreachable!(),
    }
}

// The first reading of a clock, by its stamp, in ns, and its node; None exactly where it has none.
fn first_reading(roster: &Roster, clock: u32) -> Option<(Nano, u32)>
    requires { clock < length roster.now.declaration.clocks }
    ensures some { IfSome result (λ reading. IsListedReading (listed roster.now) clock reading.0 reading.1) }
    ensures none { IfNone result ((stamp node : ℕ) → IsListedReading (listed roster.now) clock stamp node → ⊥) }
{
    let stamp = roster.first_stamp(clock)?;
    let node = roster.reading_node(clock, stamp)?;
    Some((stamp, node))
}

// Keeps the rows of the first reading of a clock, and answers its stamp, in ns; None where the clock has no reading.
fn keep_reading<L: Ledger>(
    solver: &mut Solver,
    roster: &Roster,
    clock: u32,
    steps: &mut Steps<L>,
) -> Option<Nano>
    requires clock { clock < length roster.now.declaration.clocks }
    requires solution { (p : ProblemLists) × IsSolutionBy (listed roster.now) p solver.old }
    requires none { solver.old.kept.source ≡ None }
    requires free { 2 ≤ free_rows solver.old.pool }
    ensures source { (p : ProblemLists) → IsSolutionBy (listed roster.now) p solver.old → KeepsSource (listed roster.now) p (Some clock) result solver.new }
    ensures slots { solver.new.kept.slots ≡ solver.old.kept.slots }
    ensures takes { TakesForSource solver.old solver.new }
    ensures idle { solver.new.kept.source ≡ solver.old.kept.source → steps.new ≡ steps.old }
{
    match first_reading(roster, clock) {
        Some((stamp, node)) => {
            solver.keep_source(node, steps);
            Some(stamp)
        }
        None => None,
    }
}

/// Keeps the rows of a reading of the source's clock, and answers its stamp, in ns; None where there is no source, or
/// its clock has no reading.
pub(crate) fn keep_source<L: Ledger>(
    solver: &mut Solver,
    roster: &Roster,
    source: Option<u32>,
    steps: &mut Steps<L>,
) -> Option<Nano>
    requires clock { IfSome source (λ clock. clock < length roster.now.declaration.clocks) }
    requires solution { (p : ProblemLists) × IsSolutionBy (listed roster.now) p solver.old }
    requires none { solver.old.kept.source ≡ None }
    requires free { 2 ≤ free_rows solver.old.pool }
    ensures source { (p : ProblemLists) → IsSolutionBy (listed roster.now) p solver.old → KeepsSource (listed roster.now) p source result solver.new }
    ensures slots { solver.new.kept.slots ≡ solver.old.kept.slots }
    ensures takes { TakesForSource solver.old solver.new }
    ensures idle { solver.new.kept.source ≡ solver.old.kept.source → steps.new ≡ steps.old }
{
    match source {
        Some(clock) => keep_reading(solver, roster, clock, steps),
        None => None,
    }
}
