// Why a line is refused.
ghost use Rattle.std.specs.Prelude.{◌≡◌};
ghost use Rattle.line_format.specs.declared.fault.LineError.TheVariants.{Memory};

use std::alloc::{AllocError, AllocFailed};

/// What is wrong with a line, in the order in which the causes are looked for.
#[derive(Clone, Copy, Debug, PartialEq, Eq)]
pub enum FaultKind {
    /// It has no form that its place allows.
    Syntax,
    /// A name is not one that may stand there.
    Name,
    /// A number is out of its range.
    Range,
    /// There would be one too many of its kind.
    Limit,
}

/// Why a line was not taken.
#[derive(Clone, Copy, Debug, PartialEq, Eq)]
pub enum LineError {
    /// Memory ran out; nothing is said of the line.
    Memory,
    /// The line is faulty.
    Fault(FaultKind),
}

/// What a line was that was taken.
#[derive(Clone, Copy, Debug, PartialEq, Eq)]
pub enum Taken {
    /// A line before the end.
    Line,
    /// The end line.
    End,
}

impl From<AllocError> for LineError {
    ghost from_gives = { λ _ e. e ≡ Memory };

    fn from(_: AllocError) -> LineError {
        LineError::Memory
    }
}

impl<T: Drop> From<AllocFailed<T>> for LineError {
    ghost from_gives = { λ _ e. e ≡ Memory };

    fn from(_: AllocFailed<T>) -> LineError {
        LineError::Memory
    }
}
