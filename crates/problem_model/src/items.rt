// The parts of a problem.
use crate::Name;
use atto::{Nano, Rate};

/// A clock, with the bounds on its drift and on the error of its stamps. Its rate may be off by `rate.short()` parts per
/// billion in the one direction and by `rate.long()` in the other; the real time of an event may lie `early` ns before
/// that of the reading on its stamp, or `late` ns after it.
#[derive(Clone, Copy, Debug, PartialEq, Eq)]
pub struct Clock {
    /// A clock name: at most 32 bytes, without `#`.
    pub name: Name,
    /// In parts per billion.
    pub rate: Rate,
    /// In ns, below 2^62.
    pub early: Nano,
    /// In ns, below 2^62.
    pub late: Nano,
}

/// How far the real time of an event may lie from that of the reading on its stamp.
#[derive(Clone, Copy, Debug, PartialEq, Eq)]
pub struct StampBounds {
    /// How far before it, in ns below 2^62.
    pub early: Nano,
    /// How far behind it, in ns below 2^62.
    pub late: Nano,
}

/// An event with the stamp that a clock gave it.
#[derive(Clone, Copy, Debug, PartialEq, Eq)]
pub struct Event {
    pub name: Name,
    /// The place of its clock, from 0 on.
    pub clock: u32,
    /// In ns of the clock, below 2^62.
    pub stamp: Nano,
    /// Its own bounds; None where those of its clock count.
    pub bounds: Option<StampBounds>,
}

/// A message from one event to another, with the bounds on its delay in ns of real time.
#[derive(Clone, Copy, Debug, PartialEq, Eq)]
pub struct Message {
    /// The place of the event that sends it, from 0 on.
    pub send: u32,
    /// The place of the event that receives it, from 0 on.
    pub receive: u32,
    /// The least delay.
    pub least: Nano,
    /// The greatest delay; None where there is no such bound.
    pub most: Option<Nano>,
}

/// Two clocks that follow each other: every reading of the earlier one, and of the clocks before it in its chain, comes
/// before every reading of the later one, or at the same real time where the gap is 0.
#[derive(Clone, Copy, Debug, PartialEq, Eq)]
pub struct Follow {
    /// The place of the earlier clock, from 0 on.
    pub earlier: u32,
    /// The place of the later clock; it stands behind the earlier one.
    pub later: u32,
    /// The least real time in ns from a reading of the earlier clock, or of one before it in its chain, to one of the later.
    pub gap: Nano,
}

/// What has a real time.
#[derive(Clone, Copy, Debug, PartialEq, Eq)]
pub enum Node {
    /// The event at this place.
    Event(u32),
    /// The moment at which the clock at this place shows this stamp.
    Reading(u32, Nano),
}

/// The name of a declared bound on the real time from one node to another. Clocks and events go by their places.
#[derive(Clone, Copy, Debug, PartialEq, Eq)]
pub enum Bound {
    /// The greatest real time from the reading `s` of a clock to its reading `t`.
    SpanMost {
        clock: u32,
        s: Nano,
        t: Nano,
    },
    /// The least real time from the reading `s` of a clock to its reading `t`.
    SpanLeast {
        clock: u32,
        s: Nano,
        t: Nano,
    },
    /// How long an event may come behind the reading of its stamp.
    Late(u32),
    /// How long an event may come before the reading of its stamp.
    Early(u32),
    /// The least real time from the reading `s` of a clock to the reading `t` of a clock that comes after it.
    Follow {
        earlier: u32,
        s: Nano,
        later: u32,
        t: Nano,
    },
    /// The greatest delay of a message.
    DelayMost {
        send: u32,
        receive: u32,
    },
    /// The least delay of a message.
    DelayLeast {
        send: u32,
        receive: u32,
    },
}
