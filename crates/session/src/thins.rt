// A smaller problem that says the same of some events.
ghost use Rattle.std.specs.Prelude.{◌≡◌, ℕ, List, IfOk, IfErr, IsErrOf};
ghost use Rattle.ports.specs.Content.{WritesSuch};
ghost use Rattle.problem_model.specs.Problem.{IsProblem};
ghost use Rattle.traces.specs.Seen.{Seen};
ghost use Rattle.traces.specs.Messages.{problem_of_seen};
ghost use Rattle.roster.specs.Roster.{HoldsEvents};
ghost use Rattle.roster.specs.Told.{TellsMessages, messages_by_number};
ghost use Rattle.thinning.specs.Named.{AreNamed, IsThinText, IsUnfound};
ghost use Rattle.queries.specs.declared.stop.Stop.TheVariants as stops;
ghost use Rattle.replies.specs.Commands.{names_seen};
ghost use Rattle.replies.specs.Reply.{OfEach};

use crate::lines::written;
use ports::Sink;
use problem::Problem;
use problem_text::problem_of_roster;
use queries::Stop;
use replies::{Names, Refusal, write_refusal};
use roster::Roster;
use std::alloc::Global;
use thinning::{Unfound, event_named, thin, write_thinned};

// The places of the events of these names.
fn places_of(alloc: Global, p: &Problem, events: &Names) -> Result<Vec<u32>, Unfound>
    ensures ok { IfOk result (λ places. AreNamed p.now (names_seen events.now) places.items) }
    ensures err { IfErr result (IsUnfound p.now (names_seen events.now)) }
{
    let mut places = Vec::new(alloc);
    let mut rest = *events;
    while let Some((name, more)) = rest.split_first() {
        match event_named(p, name) {
            Some(place) => places.push(place)?,
            None => return Err(Unfound::Unknown),
        }
        rest = more;
    }
    Ok(places)
}

// Writes what a problem is thinned to but for the events at these places.
fn write_kept<O: Sink>(alloc: Global, p: &Problem, asked: &[u32], out: &mut O) -> Result<(), Stop>
    requires { (names : List (List ℕ)) × AreNamed p.now names asked.now }
    ensures writes { (names : List (List ℕ)) → AreNamed p.now names asked.now
        → WritesSuch (OfEach p.now names (IsThinText p.now names)) stops.WriteFault (O.told out.old) (O.told out.new) result }
    ensures untouched { IsErrOf result stops.Memory → O.told out.new ≡ O.told out.old }
{
    let kept = thin(alloc, p, asked)?;
    written(write_thinned(p, &kept, out))
}

// Writes what a problem is thinned to but for the events of these names, or the refusal where there is no such event.
fn write_text<O: Sink>(alloc: Global, p: &Problem, events: &Names, out: &mut O) -> Result<(), Stop>
    ensures writes { WritesSuch (OfEach p.now (names_seen events.now) (IsThinText p.now (names_seen events.now))) stops.WriteFault (O.told out.old) (O.told out.new) result }
    ensures untouched { IsErrOf result stops.Memory → O.told out.new ≡ O.told out.old }
{
    match places_of(alloc, p, events) {
        Ok(asked) => write_kept(alloc, p, &asked, out),
        Err(Unfound::Unknown) => written(write_refusal(Refusal::UnknownEvent, out)),
        Err(Unfound::Memory) => Err(Stop::Memory),
    }
}

/// Writes what the problem of what a roster holds is thinned to but for the events of these names, or the refusal where
/// there is no such event. The problem is held in memory before anything is written.
pub(crate) fn write_thin<O: Sink>(
    alloc: Global,
    roster: &Roster,
    events: &Names,
    out: &mut O,
) -> Result<(), Stop>
    requires told { (seen : List (List Seen)) × HoldsEvents roster.now seen × TellsMessages roster.now (messages_by_number roster.now seen) }
    ensures writes { (seen : List (List Seen)) → HoldsEvents roster.now seen → TellsMessages roster.now (messages_by_number roster.now seen) → IsProblem (problem_of_seen roster.now.declaration seen)
        → WritesSuch (OfEach (problem_of_seen roster.now.declaration seen) (names_seen events.now) (IsThinText (problem_of_seen roster.now.declaration seen) (names_seen events.now))) stops.WriteFault (O.told out.old) (O.told out.new) result }
    ensures untouched { IsErrOf result stops.Memory → O.told out.new ≡ O.told out.old }
{
    let p = problem_of_roster(alloc, roster)?;
    write_text(alloc, &p, events, out)
}
