// The real files of the host.
ghost use Rattle.std.specs.Prelude.{◌≡◌, ◌≤◌, None, IfOk, length};

use crate::again::read_again;
use crate::{FileFail, Files};
use std::alloc::Global;
use std::fs::File;
use std::io;
use std::io::{ErrorKind, Read, Seek, SeekFrom};

// A file that is open, and the place of its next byte.
#[derive(Drop)]
struct Reading<F: Read + Seek + Drop> {
    // None where there was no memory for it.
    path: Option<String>,
    file: F,
    next: u64,
}

impl<F: Read + Seek + Drop> Reading<F> {
    // Whether it is the file at this path.
    fn is_of(&self, path: &str) -> bool {
        match &self.path {
            Some(own) => own.as_str() == path,
            None => false,
        }
    }

    // Reads from a place on. A file whose next byte is asked for is not sought in, so a pipe may be read.
    fn read_from(&mut self, at: u64, buf: &mut [u8]) -> io::Result<usize>
        ensures { IfOk result (λ n. n ≤ length buf.old) }
    {
        if at != self.next {
            self.file.seek(SeekFrom::Start(at))?;
        }
        let n = read_again(&mut self.file, buf)?;
        self.next = at.saturating_add(n as u64);
        Ok(n)
    }
}

/// The files of the host. Their bytes are not told.
///
/// A file is opened where its first byte is read, and is held open for reads behind it until another file is read or a read
/// finds its end or fails. So a file that is replaced meanwhile gives the bytes of one of both alone, and what can be
/// read only once, as a pipe, is read as it comes.
#[derive(Drop)]
pub struct DiskFiles<R: std::rt::Files + Drop> {
    alloc: Global,
    host: R,
    reading: Option<Reading<R::File>>,
    faults: u64,
    absences: u64,
}

impl<R: std::rt::Files + Drop> DiskFiles<R> {
    /// The files that `host` reaches: no read has failed, and none was absent. It takes no memory.
    pub fn new(alloc: Global, host: R) -> Self
        ensures { ⟦<DiskFiles<R> as Files>⟧.told result ≡ record { content = None; faults = 0; absences = 0 } }
    {
        DiskFiles {
            alloc,
            host,
            reading: None,
            faults: 0,
            absences: 0,
        }
    }

    // The file at a path: as it is open, for a place behind its first byte, or else opened anew.
    fn opened(&mut self, path: &str, at: u64) -> io::Result<Reading<R::File>>
        ensures faults { self.new.faults ≡ self.old.faults }
        ensures absences { self.new.absences ≡ self.old.absences }
    {
        if let Some(reading) = self.reading.take() {
            if at > 0 && reading.is_of(path) {
                return Ok(reading);
            }
        }
        let file = File::open(&self.host, path)?;
        let path = String::from_str(self.alloc, path).ok();
        Ok(Reading {
            path,
            file,
            next: 0,
        })
    }
}

impl<R: std::rt::Files + Drop> Files for DiskFiles<R> {
    ghost told = { λ d. record { content = None; faults = d.faults; absences = d.absences } };

    /// `Absent` is answered where the host cannot open the file because there is none (`ENOENT` of
    /// POSIX `open`). A folder, a path below a file, a file that may not be read, and a place from
    /// 2^63 on are faults; so is a place other than the next one in what is read once.
    fn read_at(&mut self, path: &str, at: u64, buf: &mut [u8]) -> Result<usize, FileFail> {
        let mut reading = match self.opened(path, at) {
            Ok(reading) => reading,
            Err(error) if error.kind() == ErrorKind::NotFound => {
                self.absences = self.absences.saturating_add(1);
                return Err(FileFail::Absent);
            }
            Err(_) => {
                self.faults = self.faults.saturating_add(1);
                return Err(FileFail::Failed);
            }
        };
        match reading.read_from(at, buf) {
            Ok(n) => {
                if n > 0 {
                    self.reading = Some(reading);
                }
                Ok(n)
            }
            Err(_) => {
                self.faults = self.faults.saturating_add(1);
                Err(FileFail::Failed)
            }
        }
    }
}
