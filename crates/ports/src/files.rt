// Files that are read by their paths.
ghost use Rattle.std.specs.Prelude.{◌≡◌, ◌≤◌, ◌<◌, ◌+◌, length, IsTrue, IfOk, OnOk, IfErr, vec_len};
ghost use Rattle.ports.specs.Files.{FilesTold, HasBytes, ReadsAt, IsFailOf, IsFront, IsFileFault, RaisesNoFault, Keeps, ReadSoFar, fault_of};
ghost use Rattle.ports.specs.declared.files.FileFault.TheVariants.{Memory};

use crate::Failed;
use std::alloc::{AllocError, Global};

/// Why a read of a file failed.
#[derive(Clone, Copy, Debug, PartialEq, Eq, thiserror::Error)]
pub enum FileFail {
    /// No file is at the path. The count of absences rose, or stands at its last value.
    #[error("no such file")]
    Absent,
    /// The device has failed. The count of faults rose, or stands at its last value.
    #[error("the device has failed")]
    Failed,
}

impl From<Failed> for FileFail {
    ghost use Rattle.ports.specs.declared.files.FileFail.TheVariants.{Failed};

    ghost from_gives = { λ _ e. e ≡ Failed };

    fn from(_: Failed) -> Self {
        FileFail::Failed
    }
}

/// Files that are read by their paths, at any place. A read changes no file.
pub trait Files {
    /// The bytes at each path that is there, where they are told; how many reads have failed; and how many found no
    /// file at their path. The counts never fall.
    ghost told: { Self → FilesTold };

    /// Reads at most `buf.len()` bytes of the file from place `at` on, counted from 0, into the
    /// front of `buf`, and answers how many. At the end of the file, and behind it, a buffer
    /// with room gets `Ok(0)`.
    ///
    /// `Absent` raises the count of absences and, where the files are told, says that none is at the
    /// path; such a path never gives `Ok`. `Failed` raises the count of faults, and never at a path
    /// that the files tell to be missing. A count at its last value stays there.
    fn read_at(&mut self, path: &str, at: u64, buf: &mut [u8]) -> Result<usize, FileFail>
        ensures count { IfOk result (λ n. n ≤ length buf.old) }
        ensures read { IfOk result (λ n. HasBytes (told self.old).content path.now (ReadsAt at n buf.new)) }
        ensures cause { IfErr result (IsFailOf path.now (told self.old) (told self.new)) }
        ensures no_fault { RaisesNoFault path.now (told self.old) (told self.new) }
        ensures keeps { Keeps (told self.old) (told self.new) };
}

/// The front of a file, and whether the file has a byte behind it.
#[derive(Drop)]
pub struct FileBytes {
    /// The bytes from the file's first one on.
    pub bytes: Vec<u8>,
    /// Whether the file goes on behind them.
    pub more: bool,
}

/// Why a file was not read.
#[derive(Clone, Copy, Debug, PartialEq, Eq, thiserror::Error)]
pub enum FileFault {
    /// No file is at the path. The count of absences rose, or stands at its last value.
    #[error("no such file")]
    Absent,
    /// The device has failed. The count of faults rose, or stands at its last value.
    #[error("the device has failed")]
    Read,
    /// There is no memory for the bytes.
    #[error("out of memory")]
    Memory,
}

impl From<FileFail> for FileFault {
    ghost from_gives = { λ f e. e ≡ fault_of f };

    fn from(f: FileFail) -> Self {
        match f {
            FileFail::Absent => FileFault::Absent,
            FileFail::Failed => FileFault::Read,
        }
    }
}

impl From<AllocError> for FileFault {
    ghost from_gives = { λ _ e. e ≡ Memory };

    fn from(_: AllocError) -> Self {
        FileFault::Memory
    }
}

// How many bytes are asked for at a time.
const PIECE: usize = 65_536;

// Reads a piece that follows what is read so far, and answers how many bytes it has.
fn read_more<F: Files>(
    files: &mut F,
    path: &str,
    bytes: &mut Vec<u8>,
    most: u64,
    piece: &mut [u8],
) -> Result<usize, FileFault>
    requires room { vec_len bytes.old < most }
    requires some { 0 < length piece.old }
    requires front { ReadSoFar (F.told files.old).content path.now bytes.old.items }
    ensures front { ReadSoFar (F.told files.old).content path.now bytes.new.items }
    ensures len { IfOk result (λ n. vec_len bytes.new ≡ vec_len bytes.old + n) }
    ensures within { vec_len bytes.new ≤ most }
    ensures end { IfOk result (λ n. n ≡ 0 → HasBytes (F.told files.old).content path.now (λ all. length all ≤ vec_len bytes.old)) }
    ensures there { OnOk result (HasBytes (F.told files.old).content path.now (λ all. Unit {0})) }
    ensures cause { IfErr result (IsFileFault path.now (F.told files.old) (F.told files.new)) }
    ensures no_fault { RaisesNoFault path.now (F.told files.old) (F.told files.new) }
    ensures keeps { Keeps (F.told files.old) (F.told files.new) }
{
    let left = most - bytes.len() as u64;
    let want = left.min(piece.len() as u64) as usize;
    let n = files.read_at(path, bytes.len() as u64, &mut piece[..want])?;
    bytes.extend_from_slice(&piece[..n])?;
    Ok(n)
}

// Reads the first `most` bytes of a file by way of a piece, and whether there is one behind them.
fn read_pieces<F: Files>(
    alloc: Global,
    files: &mut F,
    path: &str,
    most: u64,
    piece: &mut [u8],
) -> Result<FileBytes, FileFault>
    requires some { 0 < length piece.old }
    ensures read { IfOk result (λ f. HasBytes (F.told files.old).content path.now (IsFront most f.bytes.items f.more)) }
    ensures within { IfOk result (λ f. length f.bytes.items ≤ most) }
    ensures full { IfOk result (λ f. IsTrue f.more → length f.bytes.items ≡ most) }
    ensures cause { IfErr result (IsFileFault path.now (F.told files.old) (F.told files.new)) }
    ensures no_fault { RaisesNoFault path.now (F.told files.old) (F.told files.new) }
    ensures keeps { Keeps (F.told files.old) (F.told files.new) }
{
    let mut bytes = Vec::new(alloc);
    while (bytes.len() as u64) < most {
        if read_more(files, path, &mut bytes, most, piece)? == 0 {
            return Ok(FileBytes { bytes, more: false });
        }
    }
    let mut next = [0; 1];
    let n = files.read_at(path, most, &mut next)?;
    Ok(FileBytes { bytes, more: n > 0 })
}

/// Reads the first `most` bytes of a file, or all of it where it has no more, and whether it has
/// a byte behind them. Each read asks for 65,536 bytes at most, and each but the one that finds the
/// end takes at least one.
///
/// `Absent` raises the count of absences and, where the files are told, says that none is at the
/// path; such a path never gives `Ok`. `Read` raises the count of faults, and never at a path that
/// the files tell to be missing. `Memory` is answered for want of memory.
pub fn read_file<F: Files>(
    alloc: Global,
    files: &mut F,
    path: &str,
    most: u64,
) -> Result<FileBytes, FileFault>
    ensures read { IfOk result (λ f. HasBytes (F.told files.old).content path.now (IsFront most f.bytes.items f.more)) }
    ensures within { IfOk result (λ f. length f.bytes.items ≤ most) }
    ensures full { IfOk result (λ f. IsTrue f.more → length f.bytes.items ≡ most) }
    ensures cause { IfErr result (IsFileFault path.now (F.told files.old) (F.told files.new)) }
    ensures no_fault { RaisesNoFault path.now (F.told files.old) (F.told files.new) }
    ensures keeps { Keeps (F.told files.old) (F.told files.new) }
{
    let mut piece = vec![in alloc; 0; PIECE]?;
    read_pieces(alloc, files, path, most, &mut piece)
}
