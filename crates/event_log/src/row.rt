// A row of an event log.
use crate::{LogText, WordKey};
use atto::Nano;

/// What happened at the host.
#[derive(Clone, Copy, Debug, PartialEq, Eq)]
pub enum Kind {
    /// It sent a message.
    Send,
    /// It received a message.
    Receive,
    /// Something that no other host took part in.
    Local,
}

/// A row of an event log.
///
/// The key stands in the row itself; a text that is not empty has memory of its own.
#[derive(Debug, Drop)]
pub struct Row {
    /// When it happened, in ns of the clock that stamped it, below 2^62.
    pub stamp: Nano,
    /// What happened.
    pub kind: Kind,
    /// What the message is known by at both of its ends; None exactly for a local row.
    pub key: Option<WordKey>,
    /// What else the log says of it.
    pub text: LogText,
}
