// The text of the problem that is kept.
ghost use Rattle.std.specs.Prelude.{◌≡◌, ◌⊎◌, ◌<◌, ◌∷◌, [], ℕ, Contains, codes, length, if◌then◌else◌};
ghost use Rattle.std.specs.List.{flat_map};
ghost use Rattle.atto.specs.Decimal.{decimal_of};
ghost use Rattle.ports.specs.Content.{Writes};
ghost use Rattle.problem_model.specs.declared.items.Message.{Message};
ghost use Rattle.problem_model.specs.ProblemText.{clock_line, event_line, follow_line, have_bounds, head_words, message_line, problem_text};
ghost use Rattle.problem_text.specs.Paged.{Puts};
ghost use Rattle.thinning.specs.Thinning.{IsMessageEnd};
ghost use Rattle.thinning.specs.Thinned.{IsMarked, marked, thinned_by};
ghost use Rattle.thinning.specs.Kept.{thinned_lists, FitsTo};

use crate::small::Thinned;
use ports::fixed_line::Line;
use ports::{Failed, Sink, write_whole};
use problem::{Event, Follow, Message, Problem};
use problem_text::{
    Page, event_line, message_line, put, write_clock, write_end, write_follow, write_head,
};

// The line of an event.
fn line_of_event(p: &Problem, event: &Event) -> Line
    requires { event.now.clock < length p.now.clocks }
    ensures { result.items ≡ event_line p.now.clocks event.now }
{
    let clocks = p.clocks();
    let clock = &clocks[event.clock as usize];
    event_line(&event.name, &clock.name, event.stamp, event.bounds)
}

// The line of a message.
fn line_of_message(p: &Problem, message: &Message) -> Line
    requires send { message.now.send < length p.now.events }
    requires receive { message.now.receive < length p.now.events }
    ensures { result.items ≡ message_line p.now.events message.now }
{
    let events = p.events();
    let send = &events[message.send as usize];
    let receive = &events[message.receive as usize];
    message_line(&send.name, &receive.name, message.least, message.most)
}

// Whether an event that stays has bounds of its own.
fn has_own_bounds(events: &[Event], stays: &[bool]) -> bool
    requires { length stays.now ≡ length events.now }
    ensures { result ≡ have_bounds (marked events.now stays.now) }
{
    for place in 0..events.len() {
        if stays[place] && events[place].bounds.is_some() {
            return true;
        }
    }
    false
}

// The version of the text: 3 where events that stay have bounds of their own, 2 elsewhere where one clock follows
// another, and else 1.
fn version_of(p: &Problem, stays: &[bool]) -> u32
    requires { length stays.now ≡ length p.now.events }
    ensures known { (result ≡ 1) ⊎ (result ≡ 2) ⊎ (result ≡ 3) }
    ensures head { head_words p.now.follows (marked p.now.events stays.now) ≡ codes "problem" ∷ decimal_of result ∷ [] }
{
    if has_own_bounds(p.events(), stays) {
        3
    } else if p.follows().is_empty() {
        1
    } else {
        2
    }
}

// Writes the lines of the clocks.
fn write_clocks<O: Sink>(p: &Problem, out: &mut O) -> Result<(), Failed>
    ensures { Writes (flat_map clock_line p.now.clocks) (O.told out.old) (O.told out.new) result }
{
    for clock in p.clocks() {
        write_clock(clock, out)?;
    }
    Ok(())
}

// Writes the line of a follow.
fn write_one_follow<O: Sink>(p: &Problem, follow: &Follow, out: &mut O) -> Result<(), Failed>
    requires earlier { follow.now.earlier < length p.now.clocks }
    requires later { follow.now.later < length p.now.clocks }
    ensures { Writes (follow_line p.now.clocks follow.now) (O.told out.old) (O.told out.new) result }
{
    let clocks = p.clocks();
    let earlier = &clocks[follow.earlier as usize];
    let later = &clocks[follow.later as usize];
    write_follow(&earlier.name, &later.name, follow.gap, out)
}

// Writes the lines of the follows.
fn write_follows<O: Sink>(p: &Problem, out: &mut O) -> Result<(), Failed>
    ensures { Writes (flat_map (follow_line p.now.clocks) p.now.follows) (O.told out.old) (O.told out.new) result }
{
    for follow in p.follows() {
        write_one_follow(p, follow, out)?;
    }
    Ok(())
}

// Puts the line of an event, if it stays.
fn put_event<O: Sink>(
    page: &mut Page,
    p: &Problem,
    event: &Event,
    stays: bool,
    out: &mut O,
) -> Result<(), Failed>
    requires { event.now.clock < length p.now.clocks }
    ensures { Puts (if stays then event_line p.now.clocks event.now else []) page.old.items page.new.items (O.told out.old) (O.told out.new) result }
{
    if stays {
        put(page, line_of_event(p, event).as_slice(), out)
    } else {
        Ok(())
    }
}

// Puts the line of a message, if it is kept.
fn put_message<O: Sink>(
    page: &mut Page,
    p: &Problem,
    message: &Message,
    keeps: bool,
    out: &mut O,
) -> Result<(), Failed>
    requires send { message.now.send < length p.now.events }
    requires receive { message.now.receive < length p.now.events }
    ensures { Puts (if keeps then message_line p.now.events message.now else []) page.old.items page.new.items (O.told out.old) (O.told out.new) result }
{
    if keeps {
        put(page, line_of_message(p, message).as_slice(), out)
    } else {
        Ok(())
    }
}

// Writes the lines of the events that stay, many in one write.
fn write_events<O: Sink>(p: &Problem, stays: &[bool], out: &mut O) -> Result<(), Failed>
    requires { length stays.now ≡ length p.now.events }
    ensures { Writes (flat_map (event_line p.now.clocks) (marked p.now.events stays.now)) (O.told out.old) (O.told out.new) result }
{
    let events = p.events();
    let mut page = Page::new();
    for place in 0..events.len() {
        put_event(&mut page, p, &events[place], stays[place], out)?;
    }
    write_whole(out, page.as_slice())
}

// Writes the lines of the messages that are kept, many in one write.
fn write_messages<O: Sink>(p: &Problem, keeps: &[bool], out: &mut O) -> Result<(), Failed>
    requires { length keeps.now ≡ length p.now.messages }
    ensures { Writes (flat_map (message_line p.now.events) (marked p.now.messages keeps.now)) (O.told out.old) (O.told out.new) result }
{
    let messages = p.messages();
    let mut page = Page::new();
    for place in 0..messages.len() {
        put_message(&mut page, p, &messages[place], keeps[place], out)?;
    }
    write_whole(out, page.as_slice())
}

// Writes the text of the events that stay and the messages that are kept.
fn write_parts<O: Sink>(
    p: &Problem,
    stays: &[bool],
    keeps: &[bool],
    out: &mut O,
) -> Result<(), Failed>
    requires stays { length stays.now ≡ length p.now.events }
    requires keeps { length keeps.now ≡ length p.now.messages }
    requires ends { (m : Message) (e : ℕ) → Contains (marked p.now.messages keeps.now) m → IsMessageEnd e m → IsMarked stays.now e }
    ensures { Writes (problem_text (thinned_by p.now stays.now keeps.now)) (O.told out.old) (O.told out.new) result }
{
    // It tells that the problem is lawful.
    let _ = p.events();
    write_head(version_of(p, stays), out)?;
    write_clocks(p, out)?;
    write_follows(p, out)?;
    write_events(p, stays, out)?;
    write_messages(p, keeps, out)?;
    write_end(out)
}

/// Writes the text of what is kept of a problem, which is the text of a problem by itself: the clocks, the follows, the
/// events that stay and the messages that are kept, in the order in which the whole has them. The marks are those of
/// this problem. It takes no memory. After `Failed`, which comes only where the sink's count of faults rose, some front
/// of the text is written.
pub fn write_thinned<O: Sink>(p: &Problem, t: &Thinned, out: &mut O) -> Result<(), Failed>
    requires { FitsTo p.now t.now }
    ensures { Writes (problem_text (thinned_lists p.now t.now)) (O.told out.old) (O.told out.new) result }
{
    write_parts(p, &t.stays, &t.keeps, out)
}
