// Marks of the events that stay whatever messages are left out.
ghost use Rattle.std.specs.Prelude.{◌≡◌, ◌<◌, All, IfOk, IfSome, length};
ghost use Rattle.thinning.specs.Edges.{AreEdgesWithin, AreEdgesOfClocks, HasEdgesMarked};
ghost use Rattle.thinning.specs.Staying.{IsMarkedAlso, AreAsked, AreKeptMarks};
ghost use Rattle.thinning.specs.Thinned.{IsMarked};

use crate::edges::{ClockEdges, clock_edges};
use problem::{Follow, Problem};
use std::alloc::{AllocError, Global};

// Makes the mark at a place true.
pub(crate) fn mark(marks: &mut [bool], place: u32)
    requires { place < length marks.old }
    ensures { IsMarkedAlso place marks.old marks.new }
{
    marks[place as usize] = true;
}

// Makes the mark of each place true.
fn mark_places(marks: &mut [bool], places: &[u32])
    requires { All (λ k. k < length marks.old) places.now }
    ensures { All (IsMarked marks.new) places.now }
{
    for place in places {
        mark(marks, *place);
    }
}

// Marks the event with the last reading of a clock, where it has one.
fn mark_last(marks: &mut [bool], edges: Option<ClockEdges>)
    requires { IfSome edges (λ e. e.last < length marks.old) }
    ensures kept { AreKeptMarks marks.old marks.new }
    ensures last { IfSome edges (λ e. IsMarked marks.new e.last) }
{
    if let Some(edges) = edges {
        mark(marks, edges.last);
    }
}

// Marks the event with the first reading of a clock, where it has one.
fn mark_first(marks: &mut [bool], edges: Option<ClockEdges>)
    requires { IfSome edges (λ e. e.first < length marks.old) }
    ensures kept { AreKeptMarks marks.old marks.new }
    ensures first { IfSome edges (λ e. IsMarked marks.new e.first) }
{
    if let Some(edges) = edges {
        mark(marks, edges.first);
    }
}

// Marks the last reading of the earlier clock of a follow and the first one of its later clock.
fn mark_follow(marks: &mut [bool], follow: &Follow, edges: &[Option<ClockEdges>])
    requires inside { AreEdgesWithin edges.now (length marks.old) }
    requires follow { (follow.now.earlier < length edges.now) × (follow.now.later < length edges.now) }
    ensures kept { AreKeptMarks marks.old marks.new }
    ensures edges { HasEdgesMarked marks.new edges.now follow.now }
{
    mark_last(marks, edges[follow.earlier as usize]);
    mark_first(marks, edges[follow.later as usize]);
}

// Does so for each follow.
fn mark_edges(marks: &mut [bool], follows: &[Follow], edges: &[Option<ClockEdges>])
    requires inside { AreEdgesWithin edges.now (length marks.old) }
    requires follows { All (λ f. (f.earlier < length edges.now) × (f.later < length edges.now)) follows.now }
    ensures kept { AreKeptMarks marks.old marks.new }
    ensures edges { All (HasEdgesMarked marks.new edges.now) follows.now }
{
    for follow in follows {
        mark_follow(marks, follow, edges);
    }
}

// Marks what is asked about and the readings that follows need.
fn mark_asked(marks: &mut [bool], p: &Problem, asked: &[u32], edges: &[Option<ClockEdges>])
    requires each { length marks.old ≡ length p.now.events }
    requires asked { All (λ k. k < length p.now.events) asked.now }
    requires clocks { length edges.now ≡ length p.now.clocks }
    requires edges { AreEdgesOfClocks p.now.events (length p.now.events) edges.now }
    ensures { AreAsked p.now asked.now marks.new }
{
    mark_places(marks, asked);
    mark_edges(marks, p.follows(), edges);
}

// Marks of events: those at the places that are asked about, and of each follow one with the last reading of the
// earlier clock and one with the first reading of the later clock, where they have any. It takes one pass over the
// events.
pub(crate) fn asked_marks(
    alloc: Global,
    p: &Problem,
    asked: &[u32],
) -> Result<Vec<bool>, AllocError>
    requires { All (λ k. k < length p.now.events) asked.now }
    ensures { IfOk result (λ marks. AreAsked p.now asked.now marks.items) }
{
    let edges = clock_edges(alloc, p.clocks().len(), p.events())?;
    let mut marks = vec![in alloc; false; p.events().len()]?;
    mark_asked(&mut marks, p, asked, &edges);
    Ok(marks)
}
