// Options of blocks, and the zeros that fill bytes up.
ghost use Rattle.std.specs.Prelude.{◌≡◌, ◌<◌, ◌≤◌, ◌+◌, ◌-◌, ◌++◌, ℕ, length, take};
ghost use Rattle.byteorder.specs.Endian.{little_bytes};
ghost use Rattle.ports.specs.Content.{Writes};
ghost use Rattle.pcapng_stream.specs.Numbers.{padded};
ghost use Rattle.pcapng_blocks.specs.Bytes.{comment_options, filled, filler, option_bytes, two_bytes};
ghost use Rattle.pcapng_blocks.specs.File.{IsText};

use arrayvec::ArrayVec;
use ports::{Failed, Sink, write_whole};

// The code of a comment (opt_comment).
const COMMENT: u16 = 1;

// What stands behind options (opt_endofopt).
const END: [u8; 4] = [0; 4];

// How many bytes the head of an option has: its code, and how many bytes its value has.
const HEAD_BYTES: usize = 4;

const ZEROS: [u8; 3] = [0; 3];

/// Appends bytes within the room.
pub(crate) fn push_bytes<const ROOM: usize>(head: &mut ArrayVec<u8, ROOM>, bytes: &[u8])
    requires { length head.old.items + length bytes.now ≤ ROOM }
    ensures { head.new.items ≡ head.old.items ++ bytes.now }
{
    for byte in bytes {
        head.push(*byte);
    }
}

/// Appends a number as four bytes, the least significant first.
pub(crate) fn push_number<const ROOM: usize>(head: &mut ArrayVec<u8, ROOM>, number: u32)
    requires { length head.old.items + 4 ≤ ROOM }
    ensures { head.new.items ≡ head.old.items ++ little_bytes 4 number }
{
    push_bytes(head, &number.to_le_bytes());
}

/// Appends a number as two bytes, the least significant first.
pub(crate) fn push_half<const ROOM: usize>(head: &mut ArrayVec<u8, ROOM>, number: u16)
    requires { length head.old.items + 2 ≤ ROOM }
    ensures { head.new.items ≡ head.old.items ++ little_bytes 2 number }
{
    push_bytes(head, &number.to_le_bytes());
}

// How many zeros fill so many bytes up to a multiple of four.
fn missing(length: usize) -> usize
    ensures is { result ≡ padded length - length }
    ensures few { result ≤ 3 }
{
    (4 - length % 4) % 4
}

/// How many bytes these are, filled up to a multiple of four.
pub(crate) fn padded(bytes: &[u8]) -> u32
    requires { length bytes.now ≤ 262144 }
    ensures { result ≡ length (filled bytes.now) }
{
    let length = bytes.len();
    (length + missing(length)) as u32
}

// The first of some bytes.
fn front(bytes: &[u8], count: usize) -> &[u8]
    requires { count ≤ length bytes.now }
    ensures { result.now ≡ take count bytes.now }
{
    &bytes[..count]
}

// Writes the zeros that fill so many bytes up.
fn write_filler<O: Sink>(length: usize, out: &mut O) -> Result<(), Failed>
    ensures { Writes (filler length) (O.told out.old) (O.told out.new) result }
{
    write_whole(out, front(&ZEROS, missing(length)))
}

/// Writes bytes, and the zeros that fill them up.
pub(crate) fn write_filled<O: Sink>(bytes: &[u8], out: &mut O) -> Result<(), Failed>
    ensures { Writes (filled bytes.now) (O.told out.old) (O.told out.new) result }
{
    write_whole(out, bytes)?;
    write_filler(bytes.len(), out)
}

/// How many bytes an option has.
pub(crate) fn option_length(value: &[u8]) -> u32
    requires { IsText value.now }
    ensures is { (code : ℕ) → result ≡ length (option_bytes code value.now) }
    ensures few { result ≤ 65540 }
{
    HEAD_BYTES as u32 + padded(value)
}

// How many bytes a text has.
fn text_length(text: &[u8]) -> u16
    requires { IsText text.now }
    ensures { result ≡ length text.now }
{
    text.len() as u16
}

// The head of an option.
fn option_head(code: u16, length: u16) -> ArrayVec<u8, HEAD_BYTES>
    ensures { result.items ≡ two_bytes code ++ two_bytes length }
{
    let mut head = ArrayVec::new();
    push_half(&mut head, code);
    push_half(&mut head, length);
    head
}

/// Writes an option.
pub(crate) fn write_option<O: Sink>(code: u16, value: &[u8], out: &mut O) -> Result<(), Failed>
    requires { IsText value.now }
    ensures { Writes (option_bytes code value.now) (O.told out.old) (O.told out.new) result }
{
    let head = option_head(code, text_length(value));
    write_whole(out, head.as_slice())?;
    write_filled(value, out)
}

/// How many bytes the options of a comment have.
pub(crate) fn comment_length(comment: &[u8]) -> u32
    requires { IsText comment.now }
    ensures is { result ≡ length (comment_options comment.now) }
    ensures few { result ≤ 65544 }
{
    if comment.is_empty() {
        return 0;
    }
    option_length(comment) + END.len() as u32
}

/// Writes a comment as the one option; nothing where it has no byte.
pub(crate) fn write_comment<O: Sink>(comment: &[u8], out: &mut O) -> Result<(), Failed>
    requires { IsText comment.now }
    ensures { Writes (comment_options comment.now) (O.told out.old) (O.told out.new) result }
{
    if comment.is_empty() {
        return Ok(());
    }
    write_option(COMMENT, comment, out)?;
    write_whole(out, &END)
}
