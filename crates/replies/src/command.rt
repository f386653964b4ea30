// The command of a line.
ghost use Rattle.std.specs.Prelude.{◌≡◌, ◌∷◌, [], codes, option_map};
ghost use Rattle.replies.specs.Commands as commands;
ghost use Rattle.replies.specs.Commands.{IsWord, Asks, HasWords, command_seen, names_seen, spaced};

use crate::names::{Names, is_word};
use line_format::cut;
use queries::Asked;

/// What is asked of all that was added. Each word is 1 byte or more from 33 to 126.
#[derive(Clone, Copy, Debug)]
pub enum Question<'a> {
    /// What is asked of two events.
    Compare {
        /// What is asked.
        asked: Asked,
        /// The name of the event that the difference of the two real times is taken from.
        first: &'a [u8],
        /// The name of the event that it leads to.
        second: &'a [u8],
    },
    /// The time of an event by the source's clock.
    Time {
        /// The name of the event.
        event: &'a [u8],
    },
    /// The times of all events by the source's clock; or the real time from one event to each.
    Times {
        /// The name of the event that the real time is measured from; None where times by the source's clock are asked for.
        since: Option<&'a [u8]>,
    },
    /// All events in one order.
    Merge,
    /// The certificate of the interval of the real time from one event to another.
    Prove {
        /// The name of the event that it is measured from.
        first: &'a [u8],
        /// The name of the event that it leads to.
        second: &'a [u8],
    },
    /// The problem of all that was added.
    Problem,
    /// What there is to say of all events.
    Report,
    /// By how much each declared bound, or group of bounds, has to be wider so that it alone heals a contradiction, as
    /// `tracesync blame` says it of the problem.
    Blame,
    /// A smaller problem that says the same of some events, as `tracesync thin` prints it of the problem.
    Thin {
        /// The names of the events; there may be none, and one may stand there more than once.
        events: Names<'a>,
    },
}

/// What a line asks for. Each word is 1 byte or more from 33 to 126.
#[derive(Clone, Copy, Debug)]
pub enum Command<'a> {
    /// Adds the file at a path to a label.
    Add {
        /// The name of the label.
        label: &'a [u8],
        /// Where the file is.
        path: &'a str,
    },
    /// Keeps the rows of an event from now on.
    Keep {
        /// The name of the event.
        event: &'a [u8],
    },
    /// Asks about all that was added.
    Ask(Question<'a>),
}

// The text of a word.
fn text_of(word: &[u8]) -> &str
    requires { IsWord word.now }
    ensures { result.now ≡ word.now }
{
    match std::str::from_utf8(word) {
        Ok(text) => text,
        Err(_) => unreachable!(),
    }
}

// The command of three words, of which the last one is what stands behind the second space.
fn command_of<'a>(name: &[u8], first: &'a [u8], second: &'a [u8]) -> Option<Command<'a>>
    requires { name.now ≡ codes "thin" → ⊥ }
    ensures { HasWords (name.now ∷ first.now ∷ second.now ∷ []) (option_map command_seen result) }
{
    if !is_word(first) || !is_word(second) {
        return None;
    }
    if name == b"add".as_slice() {
        let path = text_of(second);
        Some(Command::Add { label: first, path })
    } else if name == b"interval".as_slice() {
        let asked = Asked::Interval;
        Some(Command::Ask(Question::Compare {
            asked,
            first,
            second,
        }))
    } else if name == b"order".as_slice() {
        let asked = Asked::Order;
        Some(Command::Ask(Question::Compare {
            asked,
            first,
            second,
        }))
    } else if name == b"prove".as_slice() {
        Some(Command::Ask(Question::Prove { first, second }))
    } else {
        None
    }
}

// The command of two words.
fn command_of_two<'a>(name: &[u8], event: &'a [u8]) -> Option<Command<'a>>
    requires { name.now ≡ codes "thin" → ⊥ }
    ensures { HasWords (name.now ∷ event.now ∷ []) (option_map command_seen result) }
{
    if !is_word(event) {
        return None;
    }
    if name == b"time".as_slice() {
        Some(Command::Ask(Question::Time { event }))
    } else if name == b"times".as_slice() {
        Some(Command::Ask(Question::Times { since: Some(event) }))
    } else if name == b"keep".as_slice() {
        Some(Command::Keep { event })
    } else {
        None
    }
}

// The command of one word.
fn command_of_one(name: &[u8]) -> Option<Command<'_>>
    ensures { HasWords (name.now ∷ []) (option_map command_seen result) }
{
    if name == b"times".as_slice() {
        Some(Command::Ask(Question::Times { since: None }))
    } else if name == b"merge".as_slice() {
        Some(Command::Ask(Question::Merge))
    } else if name == b"problem".as_slice() {
        Some(Command::Ask(Question::Problem))
    } else if name == b"report".as_slice() {
        Some(Command::Ask(Question::Report))
    } else if name == b"blame".as_slice() {
        Some(Command::Ask(Question::Blame))
    } else if name == b"thin".as_slice() {
        Some(thin(Names::none()))
    } else {
        None
    }
}

// The question for a smaller problem with events of these names.
fn thin(events: Names<'_>) -> Command<'_>
    ensures { command_seen result ≡ commands.Ask (commands.Thin (names_seen events.entry)) }
{
    Command::Ask(Question::Thin { events })
}

// The command of the word `thin` and the names behind it.
fn thin_behind(text: &[u8]) -> Option<Command<'_>>
    ensures { HasWords (codes "thin" ∷ spaced text.now) (option_map command_seen result) }
{
    match Names::of_text(text) {
        Some(events) => Some(thin(events)),
        None => None,
    }
}

// The command of another word and what stands behind it.
fn command_behind<'a>(name: &[u8], text: &'a [u8]) -> Option<Command<'a>>
    requires { name.now ≡ codes "thin" → ⊥ }
    ensures { HasWords (name.now ∷ spaced text.now) (option_map command_seen result) }
{
    match cut(b' ', text) {
        Some((first, second)) => command_of(name, first, second),
        None => command_of_two(name, text),
    }
}

/// The command that a line spells: its words are separated by single spaces, and no other byte stands before, between or
/// behind them. None where it spells no command.
pub fn read_command(line: &[u8]) -> Option<Command<'_>>
    ensures { Asks line.now (option_map command_seen result) }
{
    match cut(b' ', line) {
        Some((name, text)) => {
            if name == b"thin".as_slice() {
                thin_behind(text)
            } else {
                command_behind(name, text)
            }
        }
        None => command_of_one(line),
    }
}
