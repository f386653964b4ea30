// The workload of a trial.
ghost use Rattle.std.specs.Prelude.{◌≡◌, ◌+◌, ◌-◌, ◌<◌, ◌≤◌, ◌++◌, [], List, map, IfOk, OnOk, string_bytes};
ghost use Rattle.std.specs.List.{flat_map, range_with_len};
ghost use Rattle.ports.specs.Memory.{PutFile, no_calls};
ghost use Rattle.trial.specs.Rounds.{hosts, message};
ghost use Rattle.trial.specs.Declaration.{declaration_text};
ghost use Rattle.trial.specs.Workload.{file_of, batch_files, add_line, batch_lines, files_of, script_of, HasFiles};

use crate::declaration::declare;
use crate::pieces::piece;
use crate::rounds::{Course, HOSTS, Message};
use crate::script::{push_asks, push_keeps};
use ports::MemFiles;
use std::alloc::{AllocError, Global};
use std::fmt::Write;

/// How many batches there are.
const BATCHES: u32 = 20;
/// How many messages a batch has.
const BATCH: u32 = 100;

/// What a session is given in a trial.
#[derive(Drop)]
pub struct Trial {
    /// The text of the declaration.
    pub declaration: Vec<u8>,
    /// The pieces of the logs, of which the script names each once.
    pub files: MemFiles,
    /// The lines of the script.
    pub script: Vec<u8>,
}

/// The workload of the trial with this number. An `Err` comes only if memory does not suffice.
///
/// It has 4,000 events of eight hosts, and 2,000 messages. The same number gives the same bytes.
pub fn generate(alloc: Global, seed: u32) -> Result<Trial, AllocError>
    ensures declaration { IfOk result (λ t. t.declaration.items ≡ declaration_text) }
    ensures script { IfOk result (λ t. t.script.items ≡ script_of seed) }
    ensures files { IfOk result (λ t. HasFiles t.files.puts (files_of seed)) }
    ensures unread { IfOk result (λ t. (t.files.calls ≡ no_calls []) × (t.files.absences ≡ 0)) }
{
    let declaration = declare(alloc)?.into_bytes();
    let mut files = MemFiles::new(alloc, &[])?;
    let mut script = String::new(alloc);
    push_batches(alloc, seed, &mut files, &mut script)?;
    Ok(Trial {
        declaration,
        files,
        script: script.into_bytes(),
    })
}

// All batches.
fn push_batches(
    alloc: Global,
    seed: u32,
    files: &mut MemFiles,
    script: &mut String,
) -> Result<(), AllocError>
    ensures files { (before : List PutFile) → HasFiles files.old.puts before → OnOk result (HasFiles files.new.puts (before ++ files_of seed)) }
    ensures script { OnOk result (string_bytes script.new ≡ string_bytes script.old ++ script_of seed) }
    ensures unread { OnOk result ((files.new.calls ≡ files.old.calls) × (files.new.absences ≡ files.old.absences)) }
{
    let mut course = Course::begin(seed);
    for batch in 1..BATCHES + 1 {
        let messages = next_batch(alloc, &mut course)?;
        push_batch(alloc, batch, &messages, files, script)?;
    }
    Ok(())
}

// The messages of the next batch.
fn next_batch(alloc: Global, course: &mut Course) -> Result<Vec<Message>, AllocError>
    requires { course.old.rounds + 100 ≤ 2000 }
    ensures messages { IfOk result (λ messages. messages.items ≡ map (message course.old.seed) (range_with_len (course.old.rounds + 1) 100)) }
    ensures course { OnOk result (course.new ≡ record { seed = course.old.seed; rounds = course.old.rounds + 100 }) }
{
    let mut messages = Vec::new(alloc);
    for _ in 0..BATCH {
        messages.push(course.next_message())?;
    }
    Ok(messages)
}

// The files and the lines of a batch.
fn push_batch(
    alloc: Global,
    batch: u32,
    messages: &[Message],
    files: &mut MemFiles,
    script: &mut String,
) -> Result<(), AllocError>
    ensures files { (before : List PutFile) → HasFiles files.old.puts before → OnOk result (HasFiles files.new.puts (before ++ batch_files batch messages.now)) }
    ensures script { OnOk result (string_bytes script.new ≡ string_bytes script.old ++ batch_lines batch messages.now) }
    ensures unread { OnOk result ((files.new.calls ≡ files.old.calls) × (files.new.absences ≡ files.old.absences)) }
{
    push_pieces(alloc, batch, messages, files, script)?;
    push_keeps(script, batch)?;
    push_asks(script)
}

// The files of a batch, and the lines that add them.
fn push_pieces(
    alloc: Global,
    batch: u32,
    messages: &[Message],
    files: &mut MemFiles,
    script: &mut String,
) -> Result<(), AllocError>
    ensures files { (before : List PutFile) → HasFiles files.old.puts before → OnOk result (HasFiles files.new.puts (before ++ batch_files batch messages.now)) }
    ensures script { OnOk result (string_bytes script.new ≡ string_bytes script.old ++ flat_map (λ host. add_line host batch messages.now) hosts) }
    ensures unread { OnOk result ((files.new.calls ≡ files.old.calls) × (files.new.absences ≡ files.old.absences)) }
{
    for host in 0..HOSTS {
        push_piece(alloc, host, batch, messages, files, script)?;
    }
    Ok(())
}

// The file of a host and the line that adds it, if the host got rows.
fn push_piece(
    alloc: Global,
    host: u32,
    batch: u32,
    messages: &[Message],
    files: &mut MemFiles,
    script: &mut String,
) -> Result<(), AllocError>
    ensures files { (before : List PutFile) → HasFiles files.old.puts before → OnOk result (HasFiles files.new.puts (before ++ file_of host batch messages.now)) }
    ensures script { OnOk result (string_bytes script.new ≡ string_bytes script.old ++ add_line host batch messages.now) }
    ensures unread { OnOk result ((files.new.calls ≡ files.old.calls) × (files.new.absences ≡ files.old.absences)) }
{
    let rows = piece(alloc, host, messages)?;
    if rows.is_empty() {
        return Ok(());
    }
    let path = format!(in alloc; "h{host}.{batch}")?;
    files.put(&path, rows.as_bytes())?;
    write!(script, "add h{host} {path}\n")
}
