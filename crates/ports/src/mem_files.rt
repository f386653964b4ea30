// Files in memory.
ghost use Rattle.std.specs.Prelude.{◌≡◌, ◌≢◌, ◌↔◌, ◌≤◌, ◌<◌, ◌-◌, ℕ, List, [], Some, None, Ok, Err, IfOk, IfErr, IfSome, OnOk, OnErr, length, min, drop, map};
ghost use Rattle.std.specs.Option.{option_copied};
ghost use Rattle.ports.specs.Files.{HasBytes, ReadsAt, IsFailOf, RaisesNoFault, Keeps};
ghost use Rattle.ports.specs.Memory.{CallFails, no_calls, next_call, bytes_of, after_fail, told_of};
ghost use Rattle.ports.specs.Put.{put_of};

use crate::calls::Calls;
use crate::{FileFail, Files};
use std::alloc::{AllocError, Global};
use std::marker::Model;

#[derive(Drop)]
struct MemFile {
    path: Vec<u8>,
    bytes: Vec<u8>,
}

/// Files in memory, for tests, which fail at chosen calls. They are seen as the files that were
/// put, in order, the calls, and how many of these answered `Absent`.
#[derive(Drop)]
pub struct MemFiles {
    alloc: Global,
    files: Vec<MemFile>,
    calls: Calls,
    absences: u64,
}

impl Model for MemFiles {
    ghost use Rattle.std.specs.Prelude.{map};
    ghost use Rattle.ports.specs.Memory.{FilesState};

    ghost Value = { FilesState };

    ghost use Rattle.ports.specs.Put.{put_of};

    ghost view = { λ m. record { puts = map put_of m.files.items; calls = m.calls; absences = m.absences } };
}

impl MemFiles {
    /// No files yet. Of the reads at paths that were put, exactly those that `fails` lists by number will
    /// fail; all reads are counted, the first being 1.
    pub fn new(alloc: Global, fails: &[u32]) -> Result<MemFiles, AllocError>
        ensures { IfOk result (λ m. m ≡ record { puts = []; calls = no_calls fails.now; absences = 0 }) }
    {
        Ok(MemFiles {
            alloc,
            files: Vec::new(alloc),
            calls: Calls::new(alloc, fails)?,
            absences: 0,
        })
    }

    /// Puts a file at a path. Bytes that were put there before give way to these. Without memory
    /// all stays as it was.
    pub fn put(&mut self, path: &str, bytes: &[u8]) -> Result<(), AllocError>
        ensures there { OnOk result (bytes_of self.new.puts path.now ≡ Some bytes.now) }
        ensures others { OnOk result ((p : List ℕ) → (p ≡ path.now → ⊥) → bytes_of self.new.puts p ≡ bytes_of self.old.puts p) }
        ensures counts { (self.new.calls ≡ self.old.calls) × (self.new.absences ≡ self.old.absences) }
        ensures err { OnErr result (self.new ≡ self.old) }
    {
        let file = MemFile {
            path: Vec::from_slice(self.alloc, path.as_bytes())?,
            bytes: Vec::from_slice(self.alloc, bytes)?,
        };
        self.files.push(file)?;
        Ok(())
    }
}

// The bytes that were put last at a path.
fn bytes_at<'a>(files: &'a [MemFile], path: &[u8]) -> Option<&'a [u8]>
    ensures { option_copied result ≡ bytes_of (map put_of files.now) path.now }
{
    let mut earlier = files;
    while let Some((last, rest)) = earlier.split_last() {
        if last.path.as_slice() == path {
            return Some(last.bytes.as_slice());
        }
        earlier = rest;
    }
    None
}

impl Files for MemFiles {
    ghost told = { told_of };

    fn read_at(&mut self, path: &str, at: u64, buf: &mut [u8]) -> Result<usize, FileFail>
        // As all files.
        ensures count { IfOk result (λ n. n ≤ length buf.old) }
        ensures read { IfOk result (λ n. HasBytes (told_of self.old).content path.now (ReadsAt at n buf.new)) }
        ensures cause { IfErr result (IsFailOf path.now (told_of self.old) (told_of self.new)) }
        ensures no_fault { RaisesNoFault path.now (told_of self.old) (told_of self.new) }
        ensures keeps { Keeps (told_of self.old) (told_of self.new) }

        // A path that was not put is absent. At all others they fail at the chosen calls alone, and else give what is there.
        ensures absent { (result ≡ Err FileFail.Absent) ↔ (bytes_of self.old.puts path.now ≡ None) }
        ensures failed { (result ≡ Err FileFail.Failed) ↔ (CallFails self.old.calls × (bytes_of self.old.puts path.now ≢ None)) }
        ensures given { IfOk result (λ n. IfSome (bytes_of self.old.puts path.now) (λ bytes. n ≡ min (length bytes - at) (length buf.old))) }
        ensures behind { IfOk result (λ n. drop n buf.new ≡ drop n buf.old) }
        ensures ok { OnOk result (self.new ≡ record { puts = self.old.puts; calls = next_call self.old.calls; absences = self.old.absences }) }
        ensures err { IfErr result (λ f. self.new ≡ after_fail self.old f) }
        ensures untouched { OnErr result (buf.new ≡ buf.old) }
    {
        let Some(bytes) = bytes_at(&self.files, path.as_bytes()) else {
            self.calls.pass();
            self.absences = self.absences.saturating_add(1);
            return Err(FileFail::Absent);
        };
        self.calls.next()?;
        Ok(copy_from(bytes, at, buf))
    }
}

// Copies what stands from a place on into the front of a buffer.
fn copy_from(bytes: &[u8], at: u64, buf: &mut [u8]) -> usize
    ensures given { result ≡ min (length bytes.now - at) (length buf.old) }
    ensures copied { ReadsAt at result buf.new bytes.now }
    ensures behind { drop result buf.new ≡ drop result buf.old }
{
    if at >= bytes.len() as u64 {
        return 0;
    }
    let rest = &bytes[at as usize..];
    let n = rest.len().min(buf.len());
    buf[..n].copy_from_slice(&rest[..n]);
    n
}
