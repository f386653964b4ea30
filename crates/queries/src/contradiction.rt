// The certificate of a contradiction.
ghost use Rattle.std.specs.Prelude.{ℕ, List};
ghost use Rattle.problem_model.specs.Problem.{ProblemLists};
ghost use Rattle.ports.specs.Content.{Writes};
ghost use Rattle.queries.specs.Asking.{IsHeldContradiction};
ghost use Rattle.queries.specs.Replies.{IsContradictionText};

use crate::contradictions;
use attain::write_cycle;
use ports::{Failed, Sink};
use problem::Listing;
use sync_graph::Arc;

/// Writes the certificate of a contradiction that an engine holds of a listed problem: a closed chain of bounds whose
/// weights, in units of 1e-9 ns, have a negative sum. It takes no memory. After `Failed`, which comes only where the sink's
/// count of faults rose, or stands at its last value, some front of the certificate is written.
pub fn write_contradiction<N: Listing, O: Sink>(
    names: &N,
    cycle: &[Arc],
    out: &mut O,
) -> Result<(), Failed>
    requires { (p : ProblemLists) × IsHeldContradiction (N.listed names.now) p cycle.now }
    ensures { (p : ProblemLists) → IsHeldContradiction (N.listed names.now) p cycle.now
        → (text : List ℕ) × IsContradictionText p text × Writes text (O.told out.old) (O.told out.new) result }
{
    // It tells what a contradiction shows.
    contradictions();
    write_cycle(names, cycle, out)
}
