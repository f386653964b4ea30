// The events of a session.
use atto::Nano;

/// An event by its number, which counts all events as they came, from 0 on.
#[derive(Clone, Copy, Debug)]
pub struct Came {
    /// When it happened, in ns of its label's clock, below 2^62.
    pub stamp: Nano,
    /// The place of its label, from 0 on.
    pub label: u32,
    /// Its number under that label, from 1 on.
    pub number: u32,
    /// Its node in the graph; 0 until it is told.
    pub node: u32,
    /// The message that it sends, if any.
    pub partner: Option<Partner>,
}

/// A message, as the event that sends it sees it.
#[derive(Clone, Copy, Debug)]
pub struct Partner {
    /// The number of the event that receives it.
    pub event: u32,
    /// The number of the arc of its least delay in the graph. That of its greatest delay, where there is one, has the number
    /// before it.
    pub arc: u32,
}
