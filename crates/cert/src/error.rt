// Why a text is no execution or certificate of a problem.
ghost use Rattle.std.specs.Prelude.{◌≡◌};
ghost use Rattle.cert.specs.ReadsExecution.{error_at};

use line_format::{FaultKind, LineError};

/// Why a text is refused, with the number of its first faulty line, from 1 on.
#[derive(Clone, Copy, Debug, PartialEq, Eq, thiserror::Error)]
pub enum CertError {
    /// It has another form than its place asks for, or a name or number in it is misspelled.
    #[error("line {0} is none of the forms that may stand there")]
    Syntax(u64),
    /// A name, or a clock and stamp, is not the one that stands there, or not the problem's.
    #[error("line {0} names what does not stand there")]
    Name(u64),
    /// A number is out of its range.
    #[error("line {0} has a number out of its range")]
    Range(u64),
    /// There is one step too many in a list. An execution is never refused so.
    #[error("line {0} is one too many of its kind")]
    Limit(u64),
    /// The text has more than 2^34 bytes.
    #[error("the text is too long")]
    Long,
    /// Memory ran out.
    #[error("memory ran out")]
    Memory,
}

/// The error of a text by that of a line.
pub fn error_at(fault: LineError, line: u64) -> CertError
    ensures { result ≡ error_at fault line }
{
    match fault {
        LineError::Memory => CertError::Memory,
        LineError::Fault(FaultKind::Syntax) => CertError::Syntax(line),
        LineError::Fault(FaultKind::Name) => CertError::Name(line),
        LineError::Fault(FaultKind::Range) => CertError::Range(line),
        LineError::Fault(FaultKind::Limit) => CertError::Limit(line),
    }
}
