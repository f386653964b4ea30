// The lines of steps and of executions, written one by one.
ghost use Rattle.std.specs.Prelude.{◌≡◌, ◌≤◌, ◌<◌, ◌+◌, ◌++◌, ◌∷◌, [], ℕ, List, length, codes};
ghost use Rattle.line_format.specs.Words.{words};
ghost use Rattle.ports.specs.Content.{Writes};
ghost use Rattle.cert.specs.Listed.{name_at, listed_bound, listed_step, listed_words, words_at, timed_line, HasNames};
ghost use Rattle.ports.specs.Room.{HasRoomBehind};
ghost use Rattle.problem_model.specs.BoundText.{span_words, stamp_words, follow_words, delay_words};

use atto::Nano;
use ports::fixed_line::{Line, first_word, push_decimal, push_ns, push_word};
use ports::{Failed, Sink, write_whole};
use problem::Listing;
use problem_model::Bound;

/// Appends the name of an event behind a space.
pub fn push_event<N: Listing>(line: &mut Line, names: &N, event: u32)
    requires named { event < length (N.listed names.now).event_names }
    requires room { HasRoomBehind line.old.items 49 }
    ensures appended { (first : List ℕ) (ws : List (List ℕ)) → line.old.items ≡ words (first ∷ ws) → line.new.items ≡ words (first ∷ ws ++ name_at (N.listed names.now).event_names event ∷ []) }
    ensures grown { length line.new.items ≤ length line.old.items + 49 }
{
    let name = names.event_name(event);
    push_word(line, name.bytes());
}

/// Appends the name of a clock behind a space.
pub fn push_clock<N: Listing>(line: &mut Line, names: &N, clock: u32)
    requires named { clock < length (N.listed names.now).clock_names }
    requires room { HasRoomBehind line.old.items 49 }
    ensures appended { (first : List ℕ) (ws : List (List ℕ)) → line.old.items ≡ words (first ∷ ws) → line.new.items ≡ words (first ∷ ws ++ name_at (N.listed names.now).clock_names clock ∷ []) }
    ensures grown { length line.new.items ≤ length line.old.items + 49 }
{
    let name = names.clock_name(clock);
    push_word(line, name.bytes());
}

// Appends the words of a bound over a span.
fn push_span<N: Listing>(line: &mut Line, names: &N, kind: &[u8], clock: u32, s: Nano, t: Nano)
    requires kind { length kind.now ≤ 48 }
    requires named { clock < length (N.listed names.now).clock_names }
    requires room { HasRoomBehind line.old.items 245 }
    ensures appended { (first : List ℕ) (ws : List (List ℕ)) → line.old.items ≡ words (first ∷ ws) → line.new.items ≡ words (first ∷ ws ++ span_words kind.now (name_at (N.listed names.now).clock_names clock) s t) }
    ensures grown { length line.new.items ≤ length line.old.items + 245 }
{
    push_word(line, kind);
    push_clock(line, names, clock);
    push_decimal(line, s.get());
    push_decimal(line, t.get());
}

// Appends the words of a bound on the stamp of an event.
fn push_stamp<N: Listing>(line: &mut Line, names: &N, kind: &[u8], event: u32)
    requires kind { length kind.now ≤ 48 }
    requires named { event < length (N.listed names.now).event_names }
    requires room { HasRoomBehind line.old.items 245 }
    ensures appended { (first : List ℕ) (ws : List (List ℕ)) → line.old.items ≡ words (first ∷ ws) → line.new.items ≡ words (first ∷ ws ++ stamp_words kind.now (name_at (N.listed names.now).event_names event)) }
    ensures grown { length line.new.items ≤ length line.old.items + 245 }
{
    push_word(line, kind);
    push_event(line, names, event);
}

// Appends the words of a bound on the delay of a message.
fn push_delay<N: Listing>(line: &mut Line, names: &N, kind: &[u8], send: u32, receive: u32)
    requires kind { length kind.now ≤ 48 }
    requires send { send < length (N.listed names.now).event_names }
    requires receive { receive < length (N.listed names.now).event_names }
    requires room { HasRoomBehind line.old.items 245 }
    ensures appended { (first : List ℕ) (ws : List (List ℕ)) → line.old.items ≡ words (first ∷ ws) → line.new.items ≡ words (first ∷ ws ++ delay_words kind.now (name_at (N.listed names.now).event_names send) (name_at (N.listed names.now).event_names receive)) }
    ensures grown { length line.new.items ≤ length line.old.items + 245 }
{
    push_word(line, kind);
    push_event(line, names, send);
    push_event(line, names, receive);
}

// Appends the words of a bound between clocks that follow each other.
fn push_follow<N: Listing>(line: &mut Line, names: &N, earlier: u32, s: Nano, later: u32, t: Nano)
    requires earlier { earlier < length (N.listed names.now).clock_names }
    requires later { later < length (N.listed names.now).clock_names }
    requires room { HasRoomBehind line.old.items 245 }
    ensures appended { (first : List ℕ) (ws : List (List ℕ)) → line.old.items ≡ words (first ∷ ws) → line.new.items ≡ words (first ∷ ws ++ follow_words (name_at (N.listed names.now).clock_names earlier) s (name_at (N.listed names.now).clock_names later) t) }
    ensures grown { length line.new.items ≤ length line.old.items + 245 }
{
    push_word(line, b"follow");
    push_clock(line, names, earlier);
    push_decimal(line, s.get());
    push_clock(line, names, later);
    push_decimal(line, t.get());
}

/// Appends the words that name a bound, each behind a space. Its clocks or events have names.
pub fn push_bound<N: Listing>(line: &mut Line, names: &N, bound: &Bound)
    requires named { HasNames (N.listed names.now) bound.now }
    requires room { HasRoomBehind line.old.items 245 }
    ensures appended { (first : List ℕ) (ws : List (List ℕ)) → line.old.items ≡ words (first ∷ ws) → line.new.items ≡ words (first ∷ ws ++ listed_bound (N.listed names.now) bound.now) }
    ensures grown { length line.new.items ≤ length line.old.items + 245 }
{
    match *bound {
        Bound::SpanMost { clock, s, t } => push_span(line, names, b"span-most", clock, s, t),
        Bound::SpanLeast { clock, s, t } => push_span(line, names, b"span-least", clock, s, t),
        Bound::Late(event) => push_stamp(line, names, b"late", event),
        Bound::Early(event) => push_stamp(line, names, b"early", event),
        Bound::Follow {
            earlier,
            s,
            later,
            t,
        } => push_follow(line, names, earlier, s, later, t),
        Bound::DelayMost { send, receive } => push_delay(line, names, b"delay-most", send, receive),
        Bound::DelayLeast { send, receive } => push_delay(
            line,
            names,
            b"delay-least",
            send,
            receive,
        ),
    }
}

// The line of a step.
fn step_line<N: Listing>(names: &N, bound: &Bound, weight: i128) -> Line
    requires { HasNames (N.listed names.now) bound.now }
    ensures { result.items ≡ listed_step (N.listed names.now) (bound.now, weight) }
{
    let mut line = first_word(b"step");
    push_bound(&mut line, names, bound);
    push_ns(&mut line, weight);
    line.push(b'\n');
    line
}

/// Writes the line of a step: `step`, the words of the bound, and the weight, which is given in units of 1e-9 ns, as ns
/// text. It takes no memory. After `Failed`, which comes only where the sink's count of faults rose, some front of the
/// line is written.
pub fn write_step<N: Listing, O: Sink>(
    names: &N,
    bound: &Bound,
    weight: i128,
    out: &mut O,
) -> Result<(), Failed>
    requires { HasNames (N.listed names.now) bound.now }
    ensures { Writes (listed_step (N.listed names.now) (bound.now, weight)) (O.told out.old) (O.told out.new) result }
{
    let line = step_line(names, bound, weight);
    write_whole(out, line.as_slice())
}

// The line of the event at a place.
fn event_line<N: Listing>(names: &N, place: u32, value: i128) -> Line
    requires { place < length (N.listed names.now).events }
    ensures { result.items ≡ timed_line (words_at (N.listed names.now) place, value) }
{
    let (event, _) = names.event_at(place);
    let mut line = first_word(b"event");
    push_event(&mut line, names, event);
    push_ns(&mut line, value);
    line.push(b'\n');
    line
}

// The line of the reading at a place among the readings.
fn reading_line<N: Listing>(names: &N, place: u32, value: i128) -> Line
    requires { place < length (N.listed names.now).readings }
    ensures { result.items ≡ timed_line (words_at (N.listed names.now) (length (N.listed names.now).events + place), value) }
{
    let (clock, stamp, _) = names.reading_at(place);
    let mut line = first_word(b"reading");
    push_clock(&mut line, names, clock);
    push_decimal(&mut line, stamp.get());
    push_ns(&mut line, value);
    line.push(b'\n');
    line
}

// The line of the node at a place.
fn value_line<N: Listing>(names: &N, place: u32, value: i128) -> Line
    requires { place < length (listed_words (N.listed names.now)) }
    ensures { result.items ≡ timed_line (words_at (N.listed names.now) place, value) }
{
    let events = names.event_count();
    if place < events {
        event_line(names, place, value)
    } else {
        reading_line(names, place - events, value)
    }
}

/// Writes the line of the node at a place with its real time in units of 1e-9 ns, as ns text. Places count from 0, over
/// the events in their order and then the readings in theirs. It takes no memory. After `Failed`, which comes only where
/// the sink's count of faults rose, some front of the line is written.
pub fn write_value<N: Listing, O: Sink>(
    names: &N,
    place: u32,
    value: i128,
    out: &mut O,
) -> Result<(), Failed>
    requires { place < length (listed_words (N.listed names.now)) }
    ensures { Writes (timed_line (words_at (N.listed names.now) place, value)) (O.told out.old) (O.told out.new) result }
{
    let line = value_line(names, place, value);
    write_whole(out, line.as_slice())
}
