// What of a problem is widened.
ghost use Rattle.std.specs.Prelude.{◌≡◌, ◌<◌, ◌≤◌, ◌+◌, ◌-◌, ◌^◌, min, length};
ghost use Rattle.problem_model.specs.Bounds.{ClockAt};
ghost use Rattle.cert_check.specs.Widened.{is_on, joins, has_clock, least_left, added_to, gap_left, wider_rate, with_wider_rate, with_wider_stamps, widened_clock, wider_bounds, widened_own, widened_event, widened};

use atto::{Nano, Rate};
use problem::Problem;
use problem_model::{Clock, Event, Message, StampBounds};

/// Clocks of a problem.
#[derive(Clone, Copy, Debug, PartialEq, Eq)]
pub enum Clocks {
    /// All of them.
    All,
    /// The one at this place, from 0 on.
    One(u32),
}

/// Messages of a problem, by the clocks of their events.
#[derive(Clone, Copy, Debug, PartialEq, Eq)]
pub enum Links {
    /// All of them.
    All,
    /// Those from an event of the clock at the place `from` to one of the clock at the place `to`.
    Between { from: u32, to: u32 },
}

/// The numbers of a problem that a widening changes, each by the same.
#[derive(Clone, Copy, Debug, PartialEq, Eq)]
pub enum What {
    /// Greatest delays of messages are so many ns greater, where there are any.
    Delays(Links),
    /// Least delays of messages are so many ns less, and not below 0.
    Least(Links),
    /// How early and how late an event may come is so many ns more, below 2^62.
    Stamps(Clocks),
    /// Rates may be off by so many parts per billion more in either direction, as far as a `Rate` may.
    Rates(Clocks),
    /// Gaps between clocks that follow each other are so many ns less, and not below 0.
    Gaps,
}

/// The widening of a problem that is not widened.
pub fn no_extra() -> Nano
    ensures { result ≡ 0 }
{
    match Nano::new(0) {
        Some(none) => none,
        None => unreachable!(),
    }
}

// The lesser of a number that is so much greater and of the greatest one that may be.
fn at_most(number: u64, extra: u64, greatest: u64) -> u64
    requires { number ≤ greatest }
    ensures value { result ≡ min (number + extra) greatest }
    ensures fits { result ≤ greatest }
{
    number.saturating_add(extra).min(greatest)
}

// A rate that may be off by so many parts per billion more, as far as a rate may.
fn wider_rate(rate: Rate, extra: Nano) -> Rate
    ensures { result ≡ wider_rate extra rate }
{
    let short = at_most(u64::from(rate.short()), extra.get(), 999_999_999);
    let long = at_most(u64::from(rate.long()), extra.get(), 1_000_000_000);
    match Rate::new(short as u32, long as u32) {
        Some(wider) => wider,
        None => unreachable!(),
    }
}

// So many ns more, below 2^62.
fn longer(time: Nano, extra: Nano) -> Nano
    ensures { result ≡ min (time + extra) (2 ^ 62 - 1) }
{
    match Nano::new(at_most(time.get(), extra.get(), (1 << 62) - 1)) {
        Some(longer) => longer,
        None => unreachable!(),
    }
}

// The clock with such a rate.
fn with_wider_rate(clock: &Clock, extra: Nano) -> Clock
    ensures { result ≡ with_wider_rate extra clock.now }
{
    Clock {
        name: clock.name,
        rate: wider_rate(clock.rate, extra),
        early: clock.early,
        late: clock.late,
    }
}

// The clock whose events may come so many ns earlier and later.
fn with_wider_stamps(clock: &Clock, extra: Nano) -> Clock
    ensures { result ≡ with_wider_stamps extra clock.now }
{
    Clock {
        name: clock.name,
        rate: clock.rate,
        early: longer(clock.early, extra),
        late: longer(clock.late, extra),
    }
}

// Whether the clock at a place is one of these.
fn has_clock(which: Clocks, place: u32) -> bool
    ensures { result ≡ has_clock which place }
{
    match which {
        Clocks::All => true,
        Clocks::One(one) => place == one,
    }
}

// The clock at a place, widened by so much.
fn widened_clock(what: What, extra: Nano, place: u32, clock: &Clock) -> Clock
    ensures { result ≡ widened_clock what extra place clock.now }
{
    match what {
        What::Delays(_) => *clock,
        What::Least(_) => *clock,
        What::Stamps(which) => {
            if has_clock(which, place) {
                with_wider_stamps(clock, extra)
            } else {
                *clock
            }
        }
        What::Rates(which) => {
            if has_clock(which, place) {
                with_wider_rate(clock, extra)
            } else {
                *clock
            }
        }
        What::Gaps => *clock,
    }
}

// An event's own bounds, so many ns greater.
fn wider_bounds(own: Option<StampBounds>, extra: Nano) -> Option<StampBounds>
    ensures { result ≡ wider_bounds extra own }
{
    match own {
        None => None,
        Some(own) => Some(StampBounds {
            early: longer(own.early, extra),
            late: longer(own.late, extra),
        }),
    }
}

// The own bounds of an event, widened by so much.
fn widened_own(what: What, extra: Nano, event: &Event) -> Option<StampBounds>
    ensures { result ≡ widened_own what extra event.now }
{
    match what {
        What::Delays(_) => event.bounds,
        What::Least(_) => event.bounds,
        What::Stamps(which) => {
            if has_clock(which, event.clock) {
                wider_bounds(event.bounds, extra)
            } else {
                event.bounds
            }
        }
        What::Rates(_) => event.bounds,
        What::Gaps => event.bounds,
    }
}

/// The event, widened by so much.
pub fn widened_event(what: What, extra: Nano, event: &Event) -> Event
    ensures { result ≡ widened_event what extra event.now }
{
    let bounds: Option<StampBounds> = widened_own(what, extra, event);
    Event {
        name: event.name,
        clock: event.clock,
        stamp: event.stamp,
        bounds,
    }
}

/// The clock at a place of a problem that is widened.
pub fn clock_in(p: &Problem, what: What, extra: Nano, place: u32) -> Clock
    requires { place < length p.now.clocks }
    ensures { ClockAt (widened what p.now extra) place result }
{
    widened_clock(what, extra, place, &p.clocks()[place as usize])
}

// Whether an event has its stamp from a clock.
fn is_on(p: &Problem, event: u32, clock: u32) -> bool
    requires { event < length p.now.events }
    ensures { result ≡ is_on p.now.events event clock }
{
    p.events()[event as usize].clock == clock
}

// Whether a message is one of these.
fn joins(p: &Problem, which: Links, message: &Message) -> bool
    requires send { message.now.send < length p.now.events }
    requires receive { message.now.receive < length p.now.events }
    ensures { result ≡ joins which p.now.events message.now }
{
    match which {
        Links::All => true,
        Links::Between { from, to } => is_on(p, message.send, from)
            && is_on(p, message.receive, to),
    }
}

/// By how many ns the greatest delay of a message is greater in a problem that is widened.
pub fn added_to(p: &Problem, what: What, extra: Nano, message: &Message) -> Nano
    requires send { message.now.send < length p.now.events }
    requires receive { message.now.receive < length p.now.events }
    ensures { result ≡ added_to what p.now.events extra message.now }
{
    match what {
        What::Delays(which) => {
            if joins(p, which, message) {
                extra
            } else {
                no_extra()
            }
        }
        What::Least(_) => no_extra(),
        What::Stamps(_) => no_extra(),
        What::Rates(_) => no_extra(),
        What::Gaps => no_extra(),
    }
}

// So many ns less, and not below 0.
fn shorter(time: Nano, extra: Nano) -> Nano
    ensures { result ≡ time - extra }
{
    match Nano::new(time.get().saturating_sub(extra.get())) {
        Some(shorter) => shorter,
        None => unreachable!(),
    }
}

/// The least delay of a message in a problem that is widened.
pub fn least_left(p: &Problem, what: What, extra: Nano, message: &Message) -> Nano
    requires send { message.now.send < length p.now.events }
    requires receive { message.now.receive < length p.now.events }
    ensures { result ≡ least_left what p.now.events extra message.now }
{
    match what {
        What::Least(which) => {
            if joins(p, which, message) {
                shorter(message.least, extra)
            } else {
                message.least
            }
        }
        What::Delays(_) => message.least,
        What::Stamps(_) => message.least,
        What::Rates(_) => message.least,
        What::Gaps => message.least,
    }
}

/// The gap of a follow in a problem that is widened.
pub fn gap_left(what: What, extra: Nano, gap: Nano) -> Nano
    ensures { result ≡ gap_left what extra gap }
{
    match what {
        What::Gaps => shorter(gap, extra),
        What::Delays(_) => gap,
        What::Least(_) => gap,
        What::Stamps(_) => gap,
        What::Rates(_) => gap,
    }
}
