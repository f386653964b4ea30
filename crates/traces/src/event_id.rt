// The events of all labels, by their names.
use crate::Event;

/// An event: the place of its label, from 0 on, and its number there, from 1 on.
#[derive(Clone, Copy, Debug, PartialEq, Eq)]
pub struct EventId {
    pub label: u32,
    pub number: u32,
}

/// A message, by the event that sends it and the one that receives it.
#[derive(Clone, Copy, Debug, PartialEq, Eq)]
pub struct Couple {
    pub send: EventId,
    pub receive: EventId,
}

/// An event with its name.
#[derive(Clone, Copy)]
pub struct PlacedEvent<'a> {
    pub id: EventId,
    pub event: &'a Event,
}
