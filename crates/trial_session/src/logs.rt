// The files of a trial.
ghost use Rattle.std.specs.Prelude.{◌≡◌, ◌≤◌, [], IfOk, IfErr, length};
ghost use Rattle.ports.specs.Files.{HasBytes, ReadsAt, IsFailOf, RaisesNoFault, Keeps};
ghost use Rattle.trial_session.specs.Logs.{logs_told};

use ports::{FileFail, Files, MemFiles};
use std::marker::Model;

/// Files in memory of which no read fails. They are seen as those that were put, in order, and how many reads found no
/// file at their path.
#[derive(Drop)]
pub(crate) struct Logs {
    files: MemFiles,
}

impl Model for Logs {
    ghost use Rattle.std.specs.Prelude.{◌≡◌, []};
    ghost use Rattle.trial_session.specs.Logs.{LogsState};

    ghost Value = { LogsState };

    ghost view = { λ l. record { puts = l.files.puts; absences = l.files.absences } };

    ghost invariant = { λ l. l.files.calls.failing ≡ [] };
}

impl Logs {
    /// These files, of which no call is to fail.
    pub(crate) fn new(files: MemFiles) -> Logs
        requires { files.calls.failing ≡ [] }
        ensures { result ≡ record { puts = files.puts; absences = files.absences } }
    {
        Logs { files }
    }
}

impl Files for Logs {
    ghost told = { logs_told };

    fn read_at(&mut self, path: &str, at: u64, buf: &mut [u8]) -> Result<usize, FileFail>
        // As all files.
        ensures count { IfOk result (λ n. n ≤ length buf.old) }
        ensures read { IfOk result (λ n. HasBytes (logs_told self.old).content path.now (ReadsAt at n buf.new)) }
        ensures cause { IfErr result (IsFailOf path.now (logs_told self.old) (logs_told self.new)) }
        ensures no_fault { RaisesNoFault path.now (logs_told self.old) (logs_told self.new) }
        ensures keeps { Keeps (logs_told self.old) (logs_told self.new) }
    {
        self.files.read_at(path, at, buf)
    }
}
