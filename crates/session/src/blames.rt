// By how much each candidate must be widened, so that it heals a contradiction by itself.
ghost use Rattle.std.specs.Prelude.{◌≡◌, List, IsErrOf};
ghost use Rattle.ports.specs.Content.{WritesSuch};
ghost use Rattle.problem_model.specs.Problem.{IsProblem};
ghost use Rattle.traces.specs.Seen.{Seen};
ghost use Rattle.traces.specs.Messages.{problem_of_seen};
ghost use Rattle.roster.specs.Roster.{HoldsEvents};
ghost use Rattle.roster.specs.Told.{TellsMessages, messages_by_number};
ghost use Rattle.widen.specs.Blame.{IsBlameText};
ghost use Rattle.queries.specs.declared.stop.Stop.TheVariants as stops;

use crate::lines::written;
use atto::Steps;
use ports::{Sink, write_whole};
use problem::Problem;
use problem_text::problem_of_roster;
use queries::Stop;
use roster::Roster;
use std::alloc::Global;
use std::sync::ledger::Ledger;
use widen::blame_text;

// Writes what is to blame in a problem.
fn write_text<O: Sink, L: Ledger>(
    alloc: Global,
    p: &Problem,
    out: &mut O,
    steps: &mut Steps<L>,
) -> Result<(), Stop>
    ensures writes { WritesSuch (IsBlameText p.now) stops.WriteFault (O.told out.old) (O.told out.new) result }
    ensures untouched { IsErrOf result stops.Memory → O.told out.new ≡ O.told out.old }
{
    let text = blame_text(alloc, p, steps)?;
    written(write_whole(out, &text))
}

/// Writes what is to blame in the problem of what a roster holds, which is solved anew for it. The problem and the
/// whole text are held in memory before anything is written.
pub(crate) fn write_blame<O: Sink, L: Ledger>(
    alloc: Global,
    roster: &Roster,
    out: &mut O,
    steps: &mut Steps<L>,
) -> Result<(), Stop>
    requires told { (seen : List (List Seen)) × HoldsEvents roster.now seen × TellsMessages roster.now (messages_by_number roster.now seen) }
    ensures writes { (seen : List (List Seen)) → HoldsEvents roster.now seen → TellsMessages roster.now (messages_by_number roster.now seen) → IsProblem (problem_of_seen roster.now.declaration seen)
        → WritesSuch (IsBlameText (problem_of_seen roster.now.declaration seen)) stops.WriteFault (O.told out.old) (O.told out.new) result }
    ensures untouched { IsErrOf result stops.Memory → O.told out.new ≡ O.told out.old }
{
    let p = problem_of_roster(alloc, roster)?;
    write_text(alloc, &p, out, steps)
}
