// Messages, and how they change.
ghost use Rattle.std.specs.Prelude.{◌≡◌, ◌<◌, ◌+◌, ◌^◌};
ghost use Rattle.msg_match.specs.Sums.{plus};

/// A message, by the numbers of the event that sends it and the one that receives it.
#[derive(Clone, Copy, Debug, PartialEq, Eq, PartialOrd, Ord)]
pub struct Couple {
    pub send: u32,
    pub receive: u32,
}

/// What events that are added do to the messages.
#[derive(Debug, Drop)]
pub struct Change {
    /// The messages that were none before, each once.
    pub added: Vec<Couple>,
    /// The messages before that are none any more, each once.
    pub withdrawn: Vec<Couple>,
}

/// How many messages there are, and how many events that are unmatched or have ambiguous keys. Each is at most 2^25.
#[derive(Clone, Copy, Debug, PartialEq, Eq)]
pub struct Tallies {
    /// Messages, each counted once.
    pub messages: u32,
    /// Events that are in no message and whose keys are not ambiguous.
    pub unmatched: u32,
    /// Events whose keys are ambiguous.
    pub ambiguous: u32,
}

impl Tallies {
    /// No messages and no events.
    pub(crate) fn none() -> Tallies
        ensures { result ≡ record { messages = 0; unmatched = 0; ambiguous = 0 } }
    {
        Tallies {
            messages: 0,
            unmatched: 0,
            ambiguous: 0,
        }
    }

    // Both together.
    pub(crate) fn plus(self, other: Tallies) -> Tallies
        requires messages { self.messages + other.messages < 2 ^ 32 }
        requires unmatched { self.unmatched + other.unmatched < 2 ^ 32 }
        requires ambiguous { self.ambiguous + other.ambiguous < 2 ^ 32 }
        ensures { result ≡ plus self other }
    {
        Tallies {
            messages: self.messages + other.messages,
            unmatched: self.unmatched + other.unmatched,
            ambiguous: self.ambiguous + other.ambiguous,
        }
    }
}
