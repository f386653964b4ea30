// Files with texts.
ghost use Rattle.std.specs.Prelude.{◌≡◌, ◌++◌, ℕ, List, IfOk, OnOk, map};
ghost use Rattle.ports.specs.Memory.{bytes_of, no_calls};
ghost use Rattle.shared_fixtures.specs.FilesOf.{text_put};

use ports::MemFiles;
use std::alloc::{AllocError, Global};

// Puts each text at its path.
fn put_texts(files: &mut MemFiles, texts: &[(&str, &str)]) -> Result<(), AllocError>
    ensures held { OnOk result ((path : List ℕ) → bytes_of files.new.puts path ≡ bytes_of (files.old.puts ++ map (λ pair. text_put pair.0.now pair.1.now) texts.now) path) }
    ensures unread { (files.new.calls ≡ files.old.calls) × (files.new.absences ≡ files.old.absences) }
{
    for (path, text) in texts {
        files.put(path, text.as_bytes())?;
    }
    Ok(())
}

/// Files in memory with these texts, each behind its path; of two with the same path the later one counts. Of the reads
/// those fail that are listed by number, the first being 1.
pub fn files_of(
    alloc: Global,
    texts: &[(&str, &str)],
    fails: &[u32],
) -> Result<MemFiles, AllocError>
    ensures held { IfOk result (λ files. (path : List ℕ) → bytes_of files.puts path ≡ bytes_of (map (λ pair. text_put pair.0.now pair.1.now) texts.now) path) }
    ensures unread { IfOk result (λ files. (files.calls ≡ no_calls fails.now) × (files.absences ≡ 0)) }
{
    let mut files = MemFiles::new(alloc, fails)?;
    put_texts(&mut files, texts)?;
    Ok(files)
}
