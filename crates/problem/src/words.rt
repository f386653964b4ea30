// Lines by their words.
ghost use Rattle.std.specs.Prelude.{◌≡◌, ℕ, IfSome, IfNone, SomeIff, Option};
ghost use Rattle.problem.specs.Written.{Spells, SpellsNone, ClockParts, ClockSays, NoClock, FollowParts, FollowSays, NoFollow, EventParts, EventSays, NoEvent, OwnParts, OwnSays, NoOwn, SpellsMost, MessageParts, MessageSays, NoMessage};
ghost use Rattle.problem_model.specs.Name.{IsClockName, IsEventName};
ghost use Rattle.atto.specs.Decimal.{decimal_of};
ghost use Rattle.problem_model.specs.ProblemText.{most_word};

use atto::{NumFault, read_decimal};
use line_format::{five_words, four_words, three_words};
use problem_model::Name;

/// What a clock's line says; a number of 2^64 or more is None.
#[derive(Clone, Copy)]
pub struct ClockWords {
    pub name: Name,
    pub short: Option<u64>,
    pub long: Option<u64>,
    pub early: Option<u64>,
    pub late: Option<u64>,
}

/// What a follow's line says; a gap of 2^64 or more is None.
#[derive(Clone, Copy)]
pub struct FollowWords {
    pub earlier: Name,
    pub later: Name,
    pub gap: Option<u64>,
}

/// What an event's line says.
#[derive(Clone, Copy)]
pub struct EventWords {
    pub name: Name,
    pub clock: Name,
    pub stamp: Option<u64>,
}

/// What the line of an event with bounds of its own says; a number of 2^64 or more is None.
#[derive(Clone, Copy)]
pub struct OwnWords {
    pub name: Name,
    pub clock: Name,
    pub stamp: Option<u64>,
    pub early: Option<u64>,
    pub late: Option<u64>,
}

/// What a message's line says; its most is None for `none`.
#[derive(Clone, Copy)]
pub struct MessageWords {
    pub send: Name,
    pub receive: Name,
    pub least: Option<u64>,
    pub most: Option<Option<u64>>,
}

// The number that a word spells.
fn number_of(text: &[u8]) -> Option<Option<u64>>
    ensures some { IfSome result (λ n. Spells text.now n) }
    ensures none { IfNone result (SpellsNone text.now) }
{
    match read_decimal(text) {
        Ok(n) => Some(Some(n)),
        Err(NumFault::Range) => Some(None),
        Err(NumFault::Spelling) => None,
    }
}

// The clock name that a word is.
fn clock_name(text: &[u8]) -> Option<Name>
    ensures { SomeIff result (IsClockName text.now) text.now }
{
    let name = Name::new(text)?;
    if name.is_short() { Some(name) } else { None }
}

// What the words of a clock's line say, behind its first.
fn clock_of(name: &[u8], short: &[u8], long: &[u8], early: &[u8], late: &[u8]) -> Option<ClockWords>
    ensures some { IfSome result (λ w. ClockParts name.now short.now long.now early.now late.now w) }
    ensures none { IfNone result ((s : ℕ) (l : ℕ) (e : ℕ) (t : ℕ) → IsClockName name.now → short.now ≡ decimal_of s → long.now ≡ decimal_of l → early.now ≡ decimal_of e → late.now ≡ decimal_of t → ⊥) }
{
    Some(ClockWords {
        name: clock_name(name)?,
        short: number_of(short)?,
        long: number_of(long)?,
        early: number_of(early)?,
        late: number_of(late)?,
    })
}

/// What a clock's line says behind its first word.
pub fn clock_words(rest: &[u8]) -> Option<ClockWords>
    ensures some { IfSome result (λ w. ClockSays rest.now w) }
    ensures none { IfNone result (NoClock rest.now) }
{
    match five_words(rest) {
        Some((name, short, long, early, late)) => clock_of(name, short, long, early, late),
        None => None,
    }
}

// What the words of a follow's line say, behind its first.
fn follow_of(earlier: &[u8], later: &[u8], gap: &[u8]) -> Option<FollowWords>
    ensures some { IfSome result (λ w. FollowParts earlier.now later.now gap.now w) }
    ensures none { IfNone result ((g : ℕ) → IsClockName earlier.now → IsClockName later.now → gap.now ≡ decimal_of g → ⊥) }
{
    Some(FollowWords {
        earlier: clock_name(earlier)?,
        later: clock_name(later)?,
        gap: number_of(gap)?,
    })
}

/// What a follow's line says behind its first word.
pub fn follow_words(rest: &[u8]) -> Option<FollowWords>
    ensures some { IfSome result (λ w. FollowSays rest.now w) }
    ensures none { IfNone result (NoFollow rest.now) }
{
    match three_words(rest) {
        Some((earlier, later, gap)) => follow_of(earlier, later, gap),
        None => None,
    }
}

// What the words of an event's line say, behind its first.
fn event_of(name: &[u8], clock: &[u8], stamp: &[u8]) -> Option<EventWords>
    ensures some { IfSome result (λ w. EventParts name.now clock.now stamp.now w) }
    ensures none { IfNone result ((s : ℕ) → IsEventName name.now → IsClockName clock.now → stamp.now ≡ decimal_of s → ⊥) }
{
    Some(EventWords {
        name: Name::new(name)?,
        clock: clock_name(clock)?,
        stamp: number_of(stamp)?,
    })
}

/// What an event's line says behind its first word.
pub fn event_words(rest: &[u8]) -> Option<EventWords>
    ensures some { IfSome result (λ w. EventSays rest.now w) }
    ensures none { IfNone result (NoEvent rest.now) }
{
    match three_words(rest) {
        Some((name, clock, stamp)) => event_of(name, clock, stamp),
        None => None,
    }
}

// What the words of such a line say, behind its first, where the event has bounds of its own.
fn own_of(name: &[u8], clock: &[u8], stamp: &[u8], early: &[u8], late: &[u8]) -> Option<OwnWords>
    ensures some { IfSome result (λ w. OwnParts name.now clock.now stamp.now early.now late.now w) }
    ensures none { IfNone result ((s : ℕ) (e : ℕ) (t : ℕ) → IsEventName name.now → IsClockName clock.now → stamp.now ≡ decimal_of s → early.now ≡ decimal_of e → late.now ≡ decimal_of t → ⊥) }
{
    Some(OwnWords {
        name: Name::new(name)?,
        clock: clock_name(clock)?,
        stamp: number_of(stamp)?,
        early: number_of(early)?,
        late: number_of(late)?,
    })
}

/// What the line of an event with bounds of its own says behind its first word.
pub fn own_words(rest: &[u8]) -> Option<OwnWords>
    ensures some { IfSome result (λ w. OwnSays rest.now w) }
    ensures none { IfNone result (NoOwn rest.now) }
{
    match five_words(rest) {
        Some((name, clock, stamp, early, late)) => own_of(name, clock, stamp, early, late),
        None => None,
    }
}

// The bound that a word spells.
fn most_of(text: &[u8]) -> Option<Option<Option<u64>>>
    ensures some { IfSome result (λ n. SpellsMost text.now n) }
    ensures none { IfNone result ((m : Option ℕ) → text.now ≡ most_word m → ⊥) }
{
    if text == b"none".as_slice() {
        return Some(None);
    }
    match number_of(text) {
        Some(n) => Some(Some(n)),
        None => None,
    }
}

// What the words of a message's line say, behind its first.
fn message_of(send: &[u8], receive: &[u8], least: &[u8], most: &[u8]) -> Option<MessageWords>
    ensures some { IfSome result (λ w. MessageParts send.now receive.now least.now most.now w) }
    ensures none { IfNone result ((l : ℕ) (m : Option ℕ) → IsEventName send.now → IsEventName receive.now → least.now ≡ decimal_of l → most.now ≡ most_word m → ⊥) }
{
    Some(MessageWords {
        send: Name::new(send)?,
        receive: Name::new(receive)?,
        least: number_of(least)?,
        most: most_of(most)?,
    })
}

/// What a message's line says behind its first word.
pub fn message_words(rest: &[u8]) -> Option<MessageWords>
    ensures some { IfSome result (λ w. MessageSays rest.now w) }
    ensures none { IfNone result (NoMessage rest.now) }
{
    match four_words(rest) {
        Some((send, receive, least, most)) => message_of(send, receive, least, most),
        None => None,
    }
}
