// How a run of the program ended.
ghost use Rattle.std.specs.Prelude.{◌≡◌};
ghost use Rattle.problem_commands.specs.Codes.{code_of};

/// How a run ended.
#[derive(Clone, Copy, Debug)]
pub enum Status {
    /// The command was answered.
    Done,
    /// The answer is no: a bound is broken, or a certificate does not hold.
    No,
    /// The words are no command.
    Usage,
    /// The declaration is refused.
    BadDecl,
    /// The problem text is refused.
    BadProblem,
    /// The execution text is refused.
    BadExec,
    /// The certificate text is refused.
    BadCert,
    /// A named file is not there, or a read of it or of the script failed.
    ReadFault,
    /// A write failed.
    WriteFault,
    /// Memory ran out, also for the words.
    Memory,
    /// The script is too long.
    ScriptLimit,
    /// The problem has no event, or no clock, of a name in the words.
    UnknownName,
    /// The packets of a script are not merged: a line is refused, or they are too many, or no execution exists, or
    /// their link types differ, or a time is too late.
    NoMerge,
}

impl Status {
    /// The exit status of the program.
    pub fn code(&self) -> u8
        ensures { result ≡ code_of self.now }
    {
        match self {
            Status::Done => 0,
            Status::No => 1,
            Status::Usage => 2,
            Status::BadDecl => 3,
            Status::BadProblem => 4,
            Status::BadExec => 5,
            Status::BadCert => 6,
            Status::ReadFault => 7,
            Status::WriteFault => 8,
            Status::Memory => 9,
            Status::ScriptLimit => 10,
            Status::UnknownName => 11,
            Status::NoMerge => 12,
        }
    }
}
