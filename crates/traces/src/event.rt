// Events of all traces.
use atto::Nano;
use event_log::{LogText, WordKey};
use headers::PacketKey;

/// An end of a message.
#[derive(Clone, Copy, Debug, PartialEq, Eq)]
pub enum Side {
    /// Where it was sent.
    Send,
    /// Where it was received.
    Receive,
}

/// What stands in a message at both of its ends. Those of different kinds are never equal.
#[derive(Debug, PartialEq, Eq, PartialOrd, Ord, Drop)]
pub enum Content {
    /// A packet, by its headers and the beginning of its payload.
    Packet(PacketKey),
    /// A message of event logs, by its word.
    Word(WordKey),
}

/// What a message is known by at both of its ends.
#[derive(Debug, PartialEq, Eq, PartialOrd, Ord, Drop)]
pub struct MessageKey {
    /// The segment that its ends were seen on, by the place of the first label of it.
    pub segment: u32,
    /// What stands in it.
    pub content: Content,
}

/// When an event happened, where a window is declared.
#[derive(Clone, Copy, Debug, PartialEq, Eq, PartialOrd, Ord)]
pub struct Moment {
    /// The event's stamp less the offset of its clock, in ns: above -2^62 and below 2^63.
    pub time: i64,
    /// How far apart neighbouring events of one key lie at most so that they belong together, in ns below 2^62.
    pub window: u64,
}

/// What tells whether two events may be the ends of one message.
#[derive(Debug, PartialEq, Eq, PartialOrd, Ord, Drop)]
pub struct Key {
    /// What the message is known by.
    pub message: MessageKey,
    /// When the event happened; None where no window is declared.
    pub moment: Option<Moment>,
}

/// Why an event is the end of no message.
#[derive(Clone, Copy, Debug, PartialEq, Eq)]
pub enum NoKey {
    /// The packet's link type is neither Ethernet nor raw IP nor a Linux cooked one.
    Link,
    /// The packet is none of TCP or UDP right behind a header of IPv4 or IPv6, or, where fragments have keys, behind at most
    /// eight extension headers.
    Other,
    /// Too little of the packet was captured.
    Short,
    /// A header of the packet can't be one.
    Header,
    /// The packet is a fragment of IPv4, and fragments have no keys.
    Fragment,
    /// A length in the packet does not fit the others.
    Length,
    /// The packet neither goes outward nor comes inward at its label.
    Side,
    /// The packet was captured on another interface than that of its label, or its capture does not say on which.
    Interface,
    /// The row of an event log says that no other host took part.
    Local,
}

/// Which end of which message an event is, if of any.
#[derive(Debug, Drop)]
pub enum Mark {
    /// The end of a message.
    Keyed {
        /// What the message is known by, and when its end happened.
        key: Key,
        /// Which end it is.
        side: Side,
    },
    /// The end of none.
    Unkeyed(NoKey),
}

/// An event of a trace.
#[derive(Debug, Drop)]
pub struct Event {
    /// When it happened, in ns of the clock that stamped it, below 2^62.
    pub stamp: Nano,
    /// Which end of which message it is.
    pub mark: Mark,
    /// What an event log says of it; None for a packet.
    pub text: Option<LogText>,
}
