// Why nothing was added, and why a text is refused.
ghost use Rattle.std.specs.Prelude.{◌≡◌};
ghost use Rattle.problem.specs.declared.errors.PushError.TheVariants.{Memory};
ghost use Rattle.problem.specs.declared.errors.ProblemError.TheVariants as problems;
ghost use Rattle.problem.specs.Faults.{line_error, text_fault};

use line_format::{FaultKind, LineError};
use std::alloc::{AllocError, AllocFailed};

/// Why nothing was added to a problem, in the order in which the causes are looked for.
#[derive(Clone, Copy, Debug, PartialEq, Eq, thiserror::Error)]
pub enum PushError {
    /// A name, a pair of clocks or of events, or a place that may not stand there; or an event with bounds of its own where
    /// others have none, or without where others have some.
    #[error("a name that may not stand there")]
    Name,
    /// There are as many of its kind as there may be.
    #[error("one too many")]
    Limit,
    /// Memory ran out.
    #[error("out of memory")]
    Memory,
}

impl From<AllocError> for PushError {
    ghost from_gives = { λ _ e. e ≡ Memory };

    fn from(_: AllocError) -> PushError {
        PushError::Memory
    }
}

impl<T: Drop> From<AllocFailed<T>> for PushError {
    ghost from_gives = { λ _ e. e ≡ Memory };

    fn from(_: AllocFailed<T>) -> PushError {
        PushError::Memory
    }
}

impl From<PushError> for LineError {
    ghost from_gives = { λ e fault. fault ≡ line_error e };

    fn from(e: PushError) -> LineError {
        match e {
            PushError::Name => LineError::Fault(FaultKind::Name),
            PushError::Limit => LineError::Fault(FaultKind::Limit),
            PushError::Memory => LineError::Memory,
        }
    }
}

/// Why a text is that of no problem, with the number of its first faulty line, counted from 1. Of a line's causes the
/// first in this order counts.
#[derive(Clone, Copy, Debug, PartialEq, Eq, thiserror::Error)]
pub enum ProblemError {
    /// The line has no form that its place allows, as one that is neither a clock's nor a follow's before the first follow
    /// of version 2, or an event's without bounds in version 3; a word in it is misspelled; the text ends before its end line, or it goes on behind it.
    #[error("line {0} is none of the forms that may stand there")]
    Syntax(u64),
    /// A name stands before or is unknown; two names are of one event or of a message that stands before; or a follow's
    /// clocks are not in their order, or the one is the earlier or the other the later clock of a follow before.
    #[error("line {0} has a name that may not stand there")]
    Name(u64),
    /// A short above 999,999,999, a long above 1,000,000,000, or another number of 2^62 or more.
    #[error("line {0} has a number out of its range")]
    Range(u64),
    /// There are 65,536 clocks, or 2^24 events or messages, before it already.
    #[error("line {0} is one too many of its kind")]
    Limit(u64),
    /// The text has more than 2^34 bytes.
    #[error("the text is too long")]
    Long,
    /// Memory ran out.
    #[error("out of memory")]
    Memory,
}

impl From<AllocError> for ProblemError {
    ghost from_gives = { λ _ e. e ≡ problems.Memory };

    fn from(_: AllocError) -> ProblemError {
        ProblemError::Memory
    }
}

/// The error of a text whose line of this number is refused.
pub fn fault_at(fault: LineError, line: u64) -> ProblemError
    ensures { result ≡ text_fault fault line }
{
    match fault {
        LineError::Memory => ProblemError::Memory,
        LineError::Fault(FaultKind::Syntax) => ProblemError::Syntax(line),
        LineError::Fault(FaultKind::Name) => ProblemError::Name(line),
        LineError::Fault(FaultKind::Range) => ProblemError::Range(line),
        LineError::Fault(FaultKind::Limit) => ProblemError::Limit(line),
    }
}
