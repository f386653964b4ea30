ghost use Rattle.std.specs.Prelude.{◌<◌};

use ports::{Line, LineFault, LineReader, LineText, MemSource};
use std::alloc::{AllocError, Global};
use std::test::Fail;

// What a reader answers until it answers no more: each line with a slash behind it, `?` for one that is too long, and
// `.` for the end, `!` for a failed source, `#` for too many bytes.
fn transcript(alloc: Global, bytes: &[u8], most: u32, fails: &[u32]) -> Result<Vec<u8>, AllocError>
    requires { 0 < most }
{
    let mut source = MemSource::new(alloc, bytes, most, fails)?;
    let mut reader = LineReader::new();
    let mut line = LineText::new();
    let mut said = Vec::new(alloc);
    'lines: loop {
        let last = match reader.next_line(&mut source, &mut line) {
            Ok(Line::Text) => {
                said.extend_from_slice(&line)?;
                said.push(b'/')?;
                continue;
            }
            Ok(Line::TooLong) => {
                said.extend_from_slice(b"?/")?;
                continue;
            }
            Ok(Line::End) => b'.',
            Err(LineFault::Read) => b'!',
            Err(LineFault::Limit) => b'#',
        };
        said.push(last)?;
        return Ok(said);
    }
}

// Whether a reader answers so, where there is memory.
fn reads(alloc: Global, bytes: &[u8], most: u32, fails: &[u32], want: &[u8]) -> bool
    requires { 0 < most }
{
    match transcript(alloc, bytes, most, fails) {
        Ok(said) => said.as_slice() == want,
        Err(_) => false,
    }
}

// Whether a reader answers so in pieces of each size.
fn reads_in_pieces(alloc: Global, bytes: &[u8], want: &[u8]) -> bool {
    [1, 2, 3, 7, 5000]
        .iter()
        .all(|most| reads(alloc, bytes, *most, &[], want))
}

#[test]
fn lines_are_read_in_pieces(rt: HostRuntime) -> Result<(), Fail> {
    for (text, want) in [
        ("", "."),
        ("\n", "/."),
        ("a", "a/."),
        ("a\n", "a/."),
        ("\n\nab\r\n\r", "//ab\r/\r/."),
        ("add one\ninterval a b\nend", "add one/interval a b/end/."),
    ] {
        assert!(rt; reads_in_pieces(rt.alloc(), text.as_bytes(), want.as_bytes()));
    }
    Ok(())
}

// Lines of 4,096 and of 4,097 bytes, with a line feed and without, in front of a short one or of nothing.
fn long_lines_are_read(alloc: Global) -> Result<bool, AllocError> {
    let mut text = vec![in alloc; b'x'; 4096]?;
    let mut fits = text.clone()?;
    fits.extend_from_slice(b"/.")?;
    let short = reads_in_pieces(alloc, &text, &fits);
    text.push(b'x')?;
    let long = reads_in_pieces(alloc, &text, b"?/.");
    text.extend_from_slice(b"\nb")?;
    let next = reads_in_pieces(alloc, &text, b"?/b/.");
    Ok(short && long && next)
}

#[test]
fn long_lines_are_skipped(rt: HostRuntime) -> Result<(), Fail> {
    assert!(rt; long_lines_are_read(rt.alloc()) == Ok(true));
    Ok(())
}

// The first call that fails, and what was given before it. Lines that were read ahead are, and behind a last line with no
// line feed no call is made.
#[test]
fn failing_calls_are_faults(rt: HostRuntime) -> Result<(), Fail> {
    for (most, fails, want) in [
        (2, 1, "!"),
        (2, 2, "!"),
        (2, 3, "ab/!"),
        (2, 4, "ab/cd/!"),
        (2, 5, "ab/cd/!"),
        (2, 6, "ab/cd/ef/."),
        (1, 4, "ab/!"),
        (5000, 2, "ab/cd/!"),
        (5000, 3, "ab/cd/ef/."),
    ] {
        assert!(rt; reads(rt.alloc(), b"ab\ncd\nef", most, &[fails], want.as_bytes()));
    }
    Ok(())
}
