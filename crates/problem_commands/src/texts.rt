// The texts in the files that the words name.
ghost use Rattle.std.specs.Prelude.{◌≡◌, ◌≤◌, length, IfOk, IfErr};
ghost use Rattle.line_format.specs.Format.{most_text_bytes};
ghost use Rattle.ports.specs.Files.{HasBytes, Keeps};
ghost use Rattle.problem_model.specs.Bounds.{Times};
ghost use Rattle.problem_model.specs.Nodes.{Lists};
ghost use Rattle.cert.specs.CertificateText.{HasOneEach};
ghost use Rattle.cert.specs.declared.certificate.Cert.{Cert};
ghost use Rattle.cert_check.specs.CheckedText.{IsCheckOf};
ghost use Rattle.problem_commands.specs.Texts.{SpellsProblem, SpellsExecution, SpellsCert, RefusesProblem, RefusesExecution, RefusesCert};
ghost use Rattle.problem_commands.specs.Unread.{IsUnread, IsRefusedFor, IsLong, unread_problem, unread_cert};

use crate::refusal::Refusal;
use cert::{CertError, Execution, read_execution};
use cert_check::{Answer, check_text};
use line_format::{FaultKind, MOST_BYTES};
use ports::{FileFault, Files, read_file};
use problem::{Problem, ProblemError, read_problem};
use std::alloc::Global;

/// The greatest number of bytes of a text.
const MOST: u64 = MOST_BYTES as u64;

/// Why a file gave no value.
#[derive(Clone, Copy, Debug)]
pub enum Unread {
    /// Its text is refused.
    Refused(Refusal),
    /// It is not there, or a read failed.
    Fault,
    /// Memory ran out.
    Memory,
}

fn unread_problem(error: ProblemError) -> Unread
    ensures { result ≡ unread_problem error }
{
    match error {
        ProblemError::Syntax(line) => Unread::Refused(Refusal::Faulty(FaultKind::Syntax, line)),
        ProblemError::Name(line) => Unread::Refused(Refusal::Faulty(FaultKind::Name, line)),
        ProblemError::Range(line) => Unread::Refused(Refusal::Faulty(FaultKind::Range, line)),
        ProblemError::Limit(line) => Unread::Refused(Refusal::Faulty(FaultKind::Limit, line)),
        ProblemError::Long => Unread::Refused(Refusal::Long),
        ProblemError::Memory => Unread::Memory,
    }
}

/// Why a file gave no value, by the error of reading its text as an execution, a certificate or a widening.
pub fn unread_cert(error: CertError) -> Unread
    ensures { result ≡ unread_cert error }
{
    match error {
        CertError::Syntax(line) => Unread::Refused(Refusal::Faulty(FaultKind::Syntax, line)),
        CertError::Name(line) => Unread::Refused(Refusal::Faulty(FaultKind::Name, line)),
        CertError::Range(line) => Unread::Refused(Refusal::Faulty(FaultKind::Range, line)),
        CertError::Limit(line) => Unread::Refused(Refusal::Faulty(FaultKind::Limit, line)),
        CertError::Long => Unread::Refused(Refusal::Long),
        CertError::Memory => Unread::Memory,
    }
}

/// The whole text of a file, unless it is too long.
pub fn text_in<F: Files>(alloc: Global, files: &mut F, path: &str) -> Result<Vec<u8>, Unread>
    ensures ok { IfOk result (λ text. HasBytes (F.told files.old).content path.now (λ all. (length all ≤ most_text_bytes) × (text.items ≡ all))) }
    ensures err { IfErr result (IsUnread IsLong path.now (F.told files.old) (F.told files.new)) }
    ensures keeps { Keeps (F.told files.old) (F.told files.new) }
{
    match read_file(alloc, files, path, MOST) {
        Ok(file) => {
            if file.more {
                Err(Unread::Refused(Refusal::Long))
            } else {
                Ok(file.bytes)
            }
        }
        Err(FileFault::Memory) => Err(Unread::Memory),
        Err(_) => Err(Unread::Fault),
    }
}

// The problem of a text.
fn problem_of(alloc: Global, text: &[u8]) -> Result<Problem, Unread>
    ensures ok { IfOk result (λ p. SpellsProblem p text.now) }
    ensures err { IfErr result (IsRefusedFor RefusesProblem text.now) }
{
    match read_problem(alloc, text) {
        Ok(p) => Ok(p),
        Err(error) => Err(unread_problem(error)),
    }
}

// The execution of a problem that a text spells.
fn execution_of(alloc: Global, p: &Problem, text: &[u8]) -> Result<Execution, Unread>
    ensures one_each { IfOk result (λ e. HasOneEach p.now e) }
    ensures ok { IfOk result (λ e. (x : Times) → Lists p.now x e → SpellsExecution p.now x text.now) }
    ensures err { IfErr result (IsRefusedFor (RefusesExecution p.now) text.now) }
{
    // It tells what the readings of the problem are.
    let _readings = p.readings();
    match read_execution(alloc, p, text) {
        Ok(e) => Ok(e),
        Err(error) => Err(unread_cert(error)),
    }
}

// What checking the certificate answers that a text spells.
fn answer_of(alloc: Global, p: &Problem, text: &[u8]) -> Result<Answer, Unread>
    ensures ok { IfOk result (λ answer. (c : Cert) × SpellsCert p.now c text.now × IsCheckOf p.now c answer) }
    ensures err { IfErr result (IsRefusedFor (RefusesCert p.now) text.now) }
{
    // It tells what the readings of the problem are.
    let _readings = p.readings();
    match check_text(alloc, p, text) {
        Ok(answer) => Ok(answer),
        Err(error) => Err(unread_cert(error)),
    }
}

/// The problem in a file, or why there is none.
pub fn problem_in<F: Files>(alloc: Global, files: &mut F, path: &str) -> Result<Problem, Unread>
    ensures ok { IfOk result (λ p. HasBytes (F.told files.old).content path.now (SpellsProblem p)) }
    ensures err { IfErr result (IsUnread RefusesProblem path.now (F.told files.old) (F.told files.new)) }
    ensures keeps { Keeps (F.told files.old) (F.told files.new) }
{
    match text_in(alloc, files, path) {
        Ok(text) => problem_of(alloc, &text),
        Err(unread) => Err(unread),
    }
}

/// The execution of a problem in a file, or why there is none.
pub fn execution_in<F: Files>(
    alloc: Global,
    files: &mut F,
    path: &str,
    p: &Problem,
) -> Result<Execution, Unread>
    ensures one_each { IfOk result (λ e. HasOneEach p.now e) }
    ensures ok { IfOk result (λ e. (x : Times) → Lists p.now x e → HasBytes (F.told files.old).content path.now (SpellsExecution p.now x)) }
    ensures err { IfErr result (IsUnread (RefusesExecution p.now) path.now (F.told files.old) (F.told files.new)) }
    ensures keeps { Keeps (F.told files.old) (F.told files.new) }
{
    // It tells what the readings of the problem are.
    let _readings = p.readings();
    match text_in(alloc, files, path) {
        Ok(text) => execution_of(alloc, p, &text),
        Err(unread) => Err(unread),
    }
}

/// What checking the certificate in a file answers, or why there is none.
pub fn answer_in<F: Files>(
    alloc: Global,
    files: &mut F,
    path: &str,
    p: &Problem,
) -> Result<Answer, Unread>
    ensures ok { IfOk result (λ answer. (c : Cert) × HasBytes (F.told files.old).content path.now (SpellsCert p.now c) × IsCheckOf p.now c answer) }
    ensures err { IfErr result (IsUnread (RefusesCert p.now) path.now (F.told files.old) (F.told files.new)) }
    ensures keeps { Keeps (F.told files.old) (F.told files.new) }
{
    // It tells what the readings of the problem are.
    let _readings = p.readings();
    match text_in(alloc, files, path) {
        Ok(text) => answer_of(alloc, p, &text),
        Err(unread) => Err(unread),
    }
}
