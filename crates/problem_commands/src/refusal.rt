// Why a text is refused.
ghost use Rattle.std.specs.Prelude.{◌≡◌};
ghost use Rattle.problem_commands.specs.Refusal.{printed_cause, printed_line};

use line_format::FaultKind;

/// Why a text is refused: the first fault and its line, or that it is longer than 2^34 bytes.
#[derive(Clone, Copy, Debug)]
pub enum Refusal {
    /// The first faulty line, counted from 1, and what is wrong with it.
    Faulty(FaultKind, u64),
    /// The text has more than 2^34 bytes.
    Long,
}

impl Refusal {
    /// The number of the cause: syntax, name, range, limit, length.
    pub fn number(self) -> u8
        ensures { result ≡ printed_cause self }
    {
        match self {
            Refusal::Faulty(FaultKind::Syntax, _) => 1,
            Refusal::Faulty(FaultKind::Name, _) => 2,
            Refusal::Faulty(FaultKind::Range, _) => 3,
            Refusal::Faulty(FaultKind::Limit, _) => 4,
            Refusal::Long => 5,
        }
    }

    /// The line of the fault, from 1 on; 0 for a text that is too long.
    pub fn place(self) -> u64
        ensures { result ≡ printed_line self }
    {
        match self {
            Refusal::Faulty(_, line) => line,
            Refusal::Long => 0,
        }
    }
}
