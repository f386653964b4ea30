// What was accepted under the labels.
ghost use Rattle.std.specs.Prelude.{◌≡◌, ◌<◌, ◌≤◌, ◌+◌, ◌-◌, ◌++◌, ◌&&◌, length, map, nat_le, OnOk, OnErr, IfOk};
ghost use Rattle.problem_model.specs.Limits.{most_events};
ghost use Rattle.captures.specs.Capture.{passed_count};
ghost use Rattle.traces.specs.Seen.{seen_events};
ghost use Rattle.replies.specs.Reply.{most_of_label, most_piece};
ghost use Rattle.session.specs.Stands.{aside_in, under_of, waiting, kind_by_stream};
ghost use Rattle.session.specs.Inside.{AreEmpty, IsNewStream, HasPlace, IsGrownAt};

use crate::limits::{MOST_OF_LABEL, MOST_PIECE};
use captures::{CaptureStream, Passed};
use decl::{Label, TraceKind};
use problem_model::MOST_EVENTS;
use replies::Aside;
use std::alloc::{AllocError, Global};
use traces::{Accepted, Event, Stream};

// What is kept under a label of this kind of which nothing came yet.
fn new_stream(alloc: Global, kind: TraceKind) -> Stream
    ensures new { IsNewStream result }
    ensures kind { kind_by_stream result ≡ kind }
{
    match kind {
        TraceKind::Capture => Stream::Capture(CaptureStream::new(alloc)),
        TraceKind::Log => Stream::Log,
    }
}

/// Nothing yet, under each label.
pub(crate) fn nothing_under(alloc: Global, labels: &[Label]) -> Result<Vec<Accepted>, AllocError>
    ensures { IfOk result (λ accepted. AreEmpty (map under_of accepted.items) labels.now) }
{
    let mut accepted = Vec::new(alloc);
    for label in labels {
        accepted.push(Accepted {
            events: Vec::new(alloc),
            size: 0,
            stream: new_stream(alloc, label.kind),
        })?;
    }
    Ok(accepted)
}

// How many bytes wait for more.
fn waiting(stream: &Stream) -> u64
    ensures { result ≡ waiting stream.now }
{
    match stream {
        Stream::Log => 0,
        Stream::Capture(stream) => u64::from(stream.pending()),
    }
}

// How many packets these are in all.
fn count_of(passed: Passed) -> u64
    ensures { result ≡ passed_count passed }
{
    u64::from(passed.simple) + u64::from(passed.obsolete) + u64::from(passed.other)
}

/// What under a label gives no events, by what is kept of its bytes.
pub(crate) fn aside_in(stream: &Stream) -> Aside
    ensures { result ≡ aside_in stream.now }
{
    Aside {
        pending: waiting(stream),
        passed: count_of(stream.passed()),
    }
}

/// Whether a piece is not too long by itself, and with the bytes that its label has.
pub(crate) fn has_place(old: u64, size: u64) -> bool
    ensures { result ≡ (nat_le size most_piece && nat_le (old + size) most_of_label) }
{
    size <= MOST_PIECE && old <= MOST_OF_LABEL && old + size <= MOST_OF_LABEL
}

/// How many events more there may be where there are so many.
pub(crate) fn room_left(count: u32) -> u64
    requires { count ≤ most_events }
    ensures { result ≡ most_events - count }
{
    MOST_EVENTS as u64 - u64::from(count)
}

// Appends events to those of a label; for want of memory all stays.
fn append(held: &mut Vec<Event>, mut events: Vec<Event>) -> Result<(), AllocError>
    ensures grown { OnOk result (seen_events held.new.items ≡ seen_events held.old.items ++ seen_events events.items) }
    ensures stays { OnErr result (seen_events held.new.items ≡ seen_events held.old.items) }
{
    held.append(&mut events)
}

/// Appends events to those of the label at a place, which came in so many bytes, and notes what is then kept of its
/// bytes; for want of memory all stays.
pub(crate) fn extend(
    accepted: &mut [Accepted],
    k: usize,
    events: Vec<Event>,
    size: u64,
    stream: Stream,
) -> Result<(), AllocError>
    requires inside { k < length accepted.old }
    requires place { HasPlace (map under_of accepted.old) k size }
    ensures grown { OnOk result (IsGrownAt (map under_of accepted.old) (map under_of accepted.new) k (seen_events events.items) size stream) }
    ensures stays { OnErr result (map under_of accepted.new ≡ map under_of accepted.old) }
    ensures len { length accepted.new ≡ length accepted.old }
{
    let under = &mut accepted[k];
    append(&mut under.events, events)?;
    under.size += size;
    under.stream = stream;
    Ok(())
}
