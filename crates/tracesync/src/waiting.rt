// Standard streams that are waited for.
use std::fs::OpenOptions;
use std::io;
use std::io::{ErrorKind, Read, Write};
use std::rt::Files;

/// A standard stream that is waited for, also where it was set not to wait (`O_NONBLOCK`).
///
/// Where a call would have to wait, the stream is opened anew at its path, without that setting, and used so from then
/// on. What cannot be opened there, as a socket, answers as it did. A file of the disk never has to be waited for, so
/// no place in one is lost.
#[derive(Drop)]
pub struct Waiting<S: Drop, R: Files + Drop> {
    stream: S,
    host: R,
    path: &'static str,
    anew: Option<R::File>,
}

impl<S: Drop, R: Files + Drop> Waiting<S, R> {
    /// The stream, as it is open, and where the host has it as a file.
    pub fn new(stream: S, host: R, path: &'static str) -> Self {
        Waiting {
            stream,
            host,
            path,
            anew: None,
        }
    }

    // Opens the stream anew. To open a FIFO waits for its other end, which may be gone by now, so both are held
    // meanwhile.
    fn open(&self, how: &OpenOptions) -> io::Result<R::File> {
        let _both_ends = OpenOptions::new()
            .read(true)
            .write(true)
            .open(&self.host, self.path);
        how.open(&self.host, self.path)
    }
}

impl<S: Read + Drop, R: Files + Drop> Read for Waiting<S, R> {
    fn read(&mut self, buf: &mut [u8]) -> io::Result<usize> {
        if self.anew.is_none() {
            match self.stream.read(buf) {
                Err(error) if error.kind() == ErrorKind::WouldBlock => {
                    self.anew = self.open(OpenOptions::new().read(true)).ok();
                }
                answer => return answer,
            }
        }
        match &mut self.anew {
            Some(file) => file.read(buf),
            None => Err(ErrorKind::WouldBlock.into()),
        }
    }
}

impl<S: Write + Drop, R: Files + Drop> Write for Waiting<S, R> {
    fn write(&mut self, piece: &[u8]) -> io::Result<usize> {
        if self.anew.is_none() {
            match self.stream.write(piece) {
                Err(error) if error.kind() == ErrorKind::WouldBlock => {
                    self.anew = self.open(OpenOptions::new().write(true)).ok();
                }
                answer => return answer,
            }
        }
        match &mut self.anew {
            Some(file) => file.write(piece),
            None => Err(ErrorKind::WouldBlock.into()),
        }
    }

    fn flush(&mut self) -> io::Result<()> {
        self.stream.flush()
    }
}
