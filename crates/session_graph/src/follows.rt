// The nearest readings of a new reading on the clocks of its host before and after its own.
ghost use Rattle.std.specs.Prelude.{◌≡◌, ◌<◌, ◌+◌, ℕ, true, false, Option, Some, None, length, IfSome, IfNone};
ghost use Rattle.problem_model.specs.declared.items.Event.{Event};
ghost use Rattle.problem_model.specs.declared.items.Node.TheVariants as nodes;
ghost use Rattle.problem_model.specs.Problem.{ProblemLists};
ghost use Rattle.decl.specs.Declaration.{AreOfOneHost, follows_of};
ghost use Rattle.problem_graph.specs.Standing.{HasNode};
ghost use Rattle.roster.specs.Groups.{group_at};
ghost use Rattle.roster.specs.Readings.{HasStamp};
ghost use Rattle.roster.specs.Entering.{IsFirstNode, IsLastNode, IsReadingBefore, IsReadingAfter, IsEarlierEnd, IsLaterEnd, AreNearest};
ghost use Rattle.session_graph.specs.Links.{ShowsNodes};

use crate::nearest::{above, below, is_known};
use atto::Nano;
use roster::Roster;
use solver::Solver;

/// The nearest readings of one that is new: the stamps below and above it on its clock, in ns; and where there is none
/// below, the last reading of a clock before, where there is none above, the first one of a clock after, with the place
/// of the clock.
#[derive(Clone, Copy)]
pub(crate) struct Nearest {
    pub below: Option<Nano>,
    pub above: Option<Nano>,
    pub earlier: Option<(u32, Nano)>,
    pub later: Option<(u32, Nano)>,
}

// Whether the clock at a place and the next one are of one host.
fn leads_on(roster: &Roster, clock: u32) -> bool
    ensures one { result ≡ true → AreOfOneHost roster.now.declaration clock (clock + 1) }
    ensures not { result ≡ false → AreOfOneHost roster.now.declaration clock (clock + 1) → ⊥ }
{
    roster.decl().follow_from(clock).is_some()
}

// Whether the clock at a place and the one before it are of one host.
fn leads_back(roster: &Roster, clock: u32) -> bool
    ensures one { result ≡ true → (k : ℕ) × (clock ≡ k + 1) × AreOfOneHost roster.now.declaration k clock }
    ensures not { result ≡ false → (k : ℕ) → clock ≡ k + 1 → AreOfOneHost roster.now.declaration k clock → ⊥ }
{
    if clock == 0 {
        return false;
    }
    leads_on(roster, clock - 1)
}

// The first stamp of a clock's nodes.
fn first_of(roster: &Roster, solver: &Solver, clock: u32) -> Option<Nano>
    requires clock { clock < length roster.now.declaration.clocks }
    requires nodes { ShowsNodes roster.now solver.now.graph }
    ensures some { IfSome result (λ t. IsFirstNode solver.now.graph clock t) }
    ensures none { IfNone result ((t : ℕ) → HasNode solver.now.graph (nodes.Reading clock t) → ⊥) }
{
    let mut next = roster.first_stamp(clock);
    while let Some(t) = next {
        if is_known(solver, clock, t) {
            return Some(t);
        }
        let _range = t.get();
        next = roster.stamp_above(clock, t);
    }
    None
}

// The last stamp of a clock's nodes.
fn last_of(roster: &Roster, solver: &Solver, clock: u32) -> Option<Nano>
    requires clock { clock < length roster.now.declaration.clocks }
    requires nodes { ShowsNodes roster.now solver.now.graph }
    ensures some { IfSome result (λ t. IsLastNode solver.now.graph clock t) }
    ensures none { IfNone result ((t : ℕ) → HasNode solver.now.graph (nodes.Reading clock t) → ⊥) }
{
    let mut last = roster.last_stamp(clock);
    while let Some(s) = last {
        if is_known(solver, clock, s) {
            return Some(s);
        }
        last = roster.stamp_below(clock, s);
    }
    None
}

// The last reading of the nearest clock before this one that has a node.
fn before(roster: &Roster, solver: &Solver, place: u32) -> Option<(u32, Nano)>
    requires clock { place < length roster.now.declaration.clocks }
    requires nodes { ShowsNodes roster.now solver.now.graph }
    ensures { (p : ProblemLists) → p.follows ≡ follows_of roster.now.declaration → IsReadingBefore p solver.now.graph place result }
{
    // It tells that the roster is lawful.
    let _ = roster.decl();
    let mut clock = place;
    while leads_back(roster, clock) {
        clock -= 1;
        if let Some(stamp) = last_of(roster, solver, clock) {
            return Some((clock, stamp));
        }
    }
    None
}

// The first reading of the nearest clock after this one that has a node.
fn after(roster: &Roster, solver: &Solver, place: u32) -> Option<(u32, Nano)>
    requires clock { place < length roster.now.declaration.clocks }
    requires nodes { ShowsNodes roster.now solver.now.graph }
    ensures inside { IfSome result (λ e. e.0 < length roster.now.declaration.clocks) }
    ensures nearest { (p : ProblemLists) → p.follows ≡ follows_of roster.now.declaration → IsReadingAfter p solver.now.graph place result }
{
    // It tells that the roster is lawful.
    let _ = roster.decl();
    let mut clock = place;
    while leads_on(roster, clock) {
        clock += 1;
        if let Some(stamp) = first_of(roster, solver, clock) {
            return Some((clock, stamp));
        }
    }
    None
}

// The last reading of the nearest clock before that of a new reading, if there is none below it on its own clock.
fn earlier(
    roster: &Roster,
    solver: &Solver,
    place: u32,
    known: bool,
    below: &Option<Nano>,
) -> Option<(u32, Nano)>
    requires clock { place < length roster.now.declaration.clocks }
    requires nodes { ShowsNodes roster.now solver.now.graph }
    ensures known { known ≡ true → result ≡ None }
    ensures new { known ≡ false → (p : ProblemLists) → p.follows ≡ follows_of roster.now.declaration → IsEarlierEnd p solver.now.graph place below.now result }
{
    if known {
        return None;
    }
    match below {
        Some(_) => None,
        None => before(roster, solver, place),
    }
}

// The first reading of the nearest clock after that of a new reading, if there is none above it on its own clock.
fn later(
    roster: &Roster,
    solver: &Solver,
    place: u32,
    known: bool,
    above: &Option<Nano>,
) -> Option<(u32, Nano)>
    requires clock { place < length roster.now.declaration.clocks }
    requires nodes { ShowsNodes roster.now solver.now.graph }
    ensures inside { IfSome result (λ e. e.0 < length roster.now.declaration.clocks) }
    ensures known { known ≡ true → result ≡ None }
    ensures new { known ≡ false → (p : ProblemLists) → p.follows ≡ follows_of roster.now.declaration → IsLaterEnd p solver.now.graph place above.now result }
{
    if known {
        return None;
    }
    match above {
        Some(_) => None,
        None => after(roster, solver, place),
    }
}

/// The nearest readings of one that its clock has shown, or none where it is a node. The hint, in ns, may be the stamp
/// above it.
pub(crate) fn nearest_of(
    roster: &Roster,
    solver: &Solver,
    place: u32,
    stamp: Nano,
    known: bool,
    hint: u64,
) -> Nearest
    requires clock { place < length roster.now.declaration.clocks }
    requires shown { HasStamp (group_at roster.now.readings place) stamp }
    requires nodes { ShowsNodes roster.now solver.now.graph }
    requires known { known ≡ true → HasNode solver.now.graph (nodes.Reading place stamp) }
    requires new { known ≡ false → HasNode solver.now.graph (nodes.Reading place stamp) → ⊥ }
    ensures inside { IfSome result.later (λ e. e.0 < length roster.now.declaration.clocks) }
    ensures nearest { (p : ProblemLists) (e : Event) → p.follows ≡ follows_of roster.now.declaration → e.clock ≡ place → e.stamp ≡ stamp
        → AreNearest p solver.now.graph e result.below result.above result.earlier result.later }
{
    let below = below(roster, solver, place, stamp, known);
    let above = above(roster, solver, place, stamp, known, hint);
    let earlier = earlier(roster, solver, place, known, &below);
    let later = later(roster, solver, place, known, &above);
    Nearest {
        below,
        above,
        earlier,
        later,
    }
}
