use crate::fixtures::text_of;
use ports::{
    DiskFiles, Failed, FileFault, Files, MemSink, MemSource, Sink, Source, StdSink, StdSource,
    Words, read_file, write_whole,
};
use shared_fixtures::files_of;
use std::alloc::Global;
use std::fs::File;
use std::io::Write;
use std::test::Fail;
use std::{fs, io};

// Whether a read gives these bytes, or fails where none are wanted.
fn reads<S: Source>(source: &mut S, want: Option<&str>) -> bool {
    let mut buf = [0; 16];
    match (source.read(&mut buf), want) {
        (Ok(n), Some(text)) => &buf[..n] == text.as_bytes(),
        (Err(Failed), None) => true,
        _ => false,
    }
}

// Whether a file is read so far, with or without more behind it.
fn reads_front<F: Files>(
    alloc: Global,
    files: &mut F,
    path: &str,
    front: &[u8],
    more: bool,
) -> bool {
    match read_file(alloc, files, path, front.len() as u64 + u64::from(!more)) {
        Ok(read) => read.bytes.as_slice() == front && read.more == more,
        Err(_) => false,
    }
}

// Whether reading a file fails so.
fn fails_by<F: Files>(alloc: Global, files: &mut F, path: &str, want: FileFault) -> bool {
    match read_file(alloc, files, path, 9) {
        Ok(_) => false,
        Err(fault) => fault == want,
    }
}

// Two files, of which one was put anew.
const FILES: [(&str, &str); 3] = [("a", "first"), ("b", ""), ("a", "second")];

// Whether there is memory for a source, for a sink, and for words.
fn source_is_made(alloc: Global) -> bool {
    MemSource::new(alloc, b"bytes", 1, &[]).is_ok()
}

fn sink_is_made(alloc: Global) -> bool {
    MemSink::new(alloc, 1 << 16, 1, &[]).is_ok()
}

fn words_are_made(alloc: Global) -> bool {
    let mut words = Words::new(alloc);
    words.push("solve").is_ok()
}

// Each call that takes memory, where there is enough.
#[test]
fn memory_is_taken(rt: HostRuntime) {
    let alloc = rt.alloc();
    assert!(rt; source_is_made(alloc) && sink_is_made(alloc) && words_are_made(alloc));
}

// Each front of a file, and the whole of it. What is put again stands in place of what was.
#[test]
fn files_are_read(rt: HostRuntime) -> Result<(), Fail> {
    let alloc = rt.alloc();
    let mut files = files_of(alloc, &FILES, &[])?;
    for (path, front, more) in [
        ("a", "second", false),
        ("a", "secon", true),
        ("a", "", true),
        ("b", "", false),
    ] {
        assert!(rt; reads_front(alloc, &mut files, path, front.as_bytes(), more));
    }
    Ok(())
}

// The second read fails, and the one after it goes on where the first one ended.
#[test]
fn a_source_fails_in_mid_stream(rt: HostRuntime) -> Result<(), Fail> {
    let mut source = MemSource::new(rt.alloc(), b"abcde", 2, &[2])?;
    for want in [Some("ab"), None, Some("cd"), Some("e"), Some(""), Some("")] {
        assert!(rt; reads(&mut source, want));
    }
    Ok(())
}

// The second write fails, the next ones go on, and the last one has no room.
#[test]
fn a_sink_fails_in_mid_stream(rt: HostRuntime) -> Result<(), Fail> {
    let mut sink = MemSink::new(rt.alloc(), 5, 2, &[2])?;
    for (piece, is_written, held) in [
        ("abc", false, "ab"),
        ("cde", true, "abcde"),
        ("", true, "abcde"),
        ("f", false, "abcde"),
    ] {
        assert_eq!(rt;
            write_whole(&mut sink, piece.as_bytes()).is_ok(),
            is_written
        );
        assert!(rt; sink.bytes() == held.as_bytes());
    }
    Ok(())
}

// The second read of a file fails; the whole file is read afterwards. A missing one is absent.
#[test]
fn files_fail_in_mid_stream(rt: HostRuntime) -> Result<(), Fail> {
    let alloc = rt.alloc();
    let mut files = files_of(alloc, &FILES, &[2])?;
    assert!(rt; fails_by(alloc, &mut files, "a", FileFault::Read));
    assert!(rt; reads_front(alloc, &mut files, "a", b"second", false));
    assert!(rt; fails_by(alloc, &mut files, "A", FileFault::Absent));
    assert!(rt; reads_front(alloc, &mut files, "a", b"second", false));
    Ok(())
}

// Real files: whole and cut, one that is absent, a path below a file, and a folder.
#[test]
fn disk_files_are_read(rt: HostRuntime) -> Result<(), Fail> {
    let alloc = rt.alloc();
    fs::write(&rt, "ports_disk_test", "some bytes")?;
    let mut files = DiskFiles::new(alloc, &rt);
    assert!(rt; reads_front(alloc, &mut files, "ports_disk_test", b"some bytes", false));
    assert!(rt; reads_front(alloc, &mut files, "ports_disk_test", b"s", true));
    for (path, want) in [
        ("ports_no_such_file", FileFault::Absent),
        ("ports_disk_test/below", FileFault::Read),
        (".", FileFault::Read),
    ] {
        assert!(rt; fails_by(alloc, &mut files, path, want));
    }
    fs::remove_file(&rt, "ports_disk_test")?;
    Ok(())
}

// A real file that takes three reads: each piece comes from its place, also where the front ends in the second.
#[test]
fn long_disk_files_are_read_in_order(rt: HostRuntime) -> Result<(), Fail> {
    let alloc = rt.alloc();
    let front = text_of(alloc, 70_001)?;
    let whole = text_of(alloc, 140_000)?;
    fs::write(&rt, "ports_long_test", whole.as_slice())?;
    let mut files = DiskFiles::new(alloc, &rt);
    assert!(rt; reads_front(alloc, &mut files, "ports_long_test", &whole, false));
    assert!(rt; reads_front(alloc, &mut files, "ports_long_test", &front, true));
    fs::remove_file(&rt, "ports_long_test")?;
    Ok(())
}

// Whether a read of a place fills a buffer of 8 bytes with this byte alone.
fn gives_at<F: Files>(files: &mut F, path: &str, at: u64, byte: u8) -> bool {
    let mut buf = [0; 8];
    match files.read_at(path, at, &mut buf) {
        Ok(n) => n == 8 && buf.iter().all(|b| *b == byte),
        Err(_) => false,
    }
}

// A real file that is replaced while it is read: what is read on is the old one, also behind a place that was not asked for;
// from its first byte on, and behind another file, it is the new one.
#[test]
fn a_disk_file_that_is_replaced_is_no_mixture(rt: HostRuntime) -> Result<(), Fail> {
    fs::write(&rt, "ports_old_test", "oooooooooooooooooooooooooooooooo")?;
    fs::write(&rt, "ports_new_test", "nnnnnnnnnnnnnnnnnnnnnnnnnnnnnnnn")?;
    let mut files = DiskFiles::new(rt.alloc(), &rt);
    assert!(rt; gives_at(&mut files, "ports_old_test", 0, b'o'));
    fs::rename(&rt, "ports_new_test", "ports_old_test")?;
    for (place, byte) in [(8, b'o'), (24, b'o'), (16, b'o'), (0, b'n'), (8, b'n')] {
        assert!(rt; gives_at(&mut files, "ports_old_test", place, byte));
    }
    fs::write(&rt, "ports_new_test", "mmmmmmmmmmmmmmmmmmmmmmmmmmmmmmmm")?;
    for (path, place, byte) in [("ports_new_test", 8, b'm'), ("ports_old_test", 8, b'n')] {
        assert!(rt; gives_at(&mut files, path, place, byte));
    }
    fs::remove_file(&rt, "ports_old_test")?;
    fs::remove_file(&rt, "ports_new_test")?;
    Ok(())
}

// A real stream, a file here, is read to its end. A file that is open for writing alone
// gives no byte.
#[test]
fn std_source_reads(rt: HostRuntime) -> Result<(), Fail> {
    fs::write(&rt, "ports_source_test", "some bytes")?;
    let mut source = StdSource::new(File::open(&rt, "ports_source_test")?);
    assert!(rt; reads(&mut source, Some("some bytes")));
    assert!(rt; reads(&mut source, Some("")));
    let mut failing = StdSource::new(File::create(&rt, "ports_source_test")?);
    assert!(rt; reads(&mut failing, None));
    fs::remove_file(&rt, "ports_source_test")?;
    Ok(())
}

// What a real stream takes, a file here, stands in it. One that is open for reading alone takes
// no byte.
#[test]
fn std_sink_writes(rt: HostRuntime) -> Result<(), Fail> {
    let mut sink = StdSink::new(File::create(&rt, "ports_sink_test")?);
    write_whole(&mut sink, b"some ")?;
    write_whole(&mut sink, b"bytes")?;
    let mut written = StdSource::new(File::open(&rt, "ports_sink_test")?);
    assert!(rt; reads(&mut written, Some("some bytes")));
    let mut failing = StdSink::new(File::open(&rt, "ports_sink_test")?);
    assert!(rt; failing.write(b"more") == Err(Failed));
    fs::remove_file(&rt, "ports_sink_test")?;
    Ok(())
}

// A writer that takes at most so many bytes of a piece.
#[derive(Drop)]
struct Slow {
    file: File,
    most: usize,
}

impl Write for Slow {
    fn write(&mut self, buf: &[u8]) -> io::Result<usize> {
        let size = buf.len().min(self.most);
        self.file.write(&buf[..size])
    }

    fn flush(&mut self) -> io::Result<()> {
        self.file.flush()
    }
}

// A real stream that takes three bytes at a time gets the others in further calls. One that takes no byte has failed.
#[test]
fn std_sink_writes_on(rt: HostRuntime) -> Result<(), Fail> {
    let mut sink = StdSink::new(Slow {
        file: File::create(&rt, "ports_slow_test")?,
        most: 3,
    });
    write_whole(&mut sink, b"some bytes")?;
    let mut written = StdSource::new(File::open(&rt, "ports_slow_test")?);
    assert!(rt; reads(&mut written, Some("some bytes")));
    let mut failing = StdSink::new(Slow {
        file: File::create(&rt, "ports_slow_test")?,
        most: 0,
    });
    assert!(rt; failing.write(b"more") == Err(Failed));
    fs::remove_file(&rt, "ports_slow_test")?;
    Ok(())
}
