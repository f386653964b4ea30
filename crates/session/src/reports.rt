// The report on all events and on the packets that have none.
ghost use Rattle.std.specs.Prelude.{◌≡◌, ◌≤◌, length, map, IsErrOf};
ghost use Rattle.problem_model.specs.Limits.{most_events};
ghost use Rattle.ports.specs.Content.{WritesSuch};
ghost use Rattle.traces.specs.Traces.{event_count};
ghost use Rattle.traces.specs.Held.{missed_in, seen_in};
ghost use Rattle.traces.specs.Messages.{problem_of_seen};
ghost use Rattle.msg_match.specs.Ends.{AreEndsBy};
ghost use Rattle.problem.specs.Listing.{Listed};
ghost use Rattle.roster.specs.Roster.{id_of};
ghost use Rattle.solver.specs.Solution.{IsSolutionBy};
ghost use Rattle.queries.specs.declared.stop.Stop.TheVariants as stops;
ghost use Rattle.replies.specs.Reply.{IsReport};

use crate::lines::write_line;
use msg_match::Matcher;
use ports::Sink;
use queries::{Stop, is_consistent};
use report::{report_line, view_of};
use roster::Roster;
use solver::Solver;
use std::alloc::Global;
use traces::Accepted;

/// Writes the report on all events, of which the roster has the declaration and the names by number, and the matcher
/// the ends of messages, and the solver holds the answer; and on the packets that have none.
pub(crate) fn write_report<O: Sink>(
    alloc: Global,
    accepted: &[Accepted],
    roster: &Roster,
    matcher: &Matcher,
    solver: &Solver,
    out: &mut O,
) -> Result<(), Stop>
    requires labels { length accepted.now ≡ length roster.now.declaration.labels }
    requires few { event_count (seen_in accepted.now) ≤ most_events }
    requires ends { AreEndsBy (map id_of roster.now.came) matcher.now (seen_in accepted.now) }
    requires solution { (l : Listed) × IsSolutionBy l (problem_of_seen roster.now.declaration (seen_in accepted.now)) solver.now }
    ensures writes { WritesSuch (IsReport roster.now.declaration (seen_in accepted.now) (missed_in accepted.now)) stops.WriteFault (O.told out.old) (O.told out.new) result }
    ensures untouched { IsErrOf result stops.Memory → O.told out.new ≡ O.told out.old }
{
    let consistent = is_consistent(solver);
    let view = view_of(alloc, roster.decl(), accepted, roster, matcher, consistent)?;
    let line = report_line(alloc, &view)?;
    write_line(&line, out)
}
