// Texts, and how they are written.
use ports::{Gathering, MemSink, Sink};
use std::alloc::{AllocError, Global};

// A text of so many bytes, which repeat after 251.
pub(crate) fn text_of(alloc: Global, size: u32) -> Result<Vec<u8>, AllocError> {
    let mut text = Vec::new(alloc);
    push_unequal(size, &mut text)?;
    Ok(text)
}

fn push_unequal(size: u32, text: &mut Vec<u8>) -> Result<(), AllocError> {
    for k in 0..size {
        text.push((k % 251) as u8)?;
    }
    Ok(())
}

// Writes a text in pieces of so many bytes, and a piece anew from where a call failed. Says how many calls failed.
pub(crate) fn write_pieces(out: &mut Gathering<MemSink>, text: &[u8], size: usize) -> u64 {
    let mut failed = 0u64;
    let mut left = text;
    for _ in 0..1_000_000 {
        if left.is_empty() {
            break;
        }
        let piece = &left[..size.min(left.len())];
        match out.write(piece) {
            Ok(n) => left = &left[n.min(left.len())..],
            Err(_) => failed = failed.saturating_add(1),
        }
    }
    failed
}

// Whether a text of so many bytes, in pieces of this size, stands below byte for byte, and no call failed.
pub(crate) fn comes_out(alloc: Global, below: MemSink, size: u32, piece: usize) -> bool {
    match text_of(alloc, size) {
        Ok(text) => passes(Gathering::new(alloc, below), &text, piece),
        Err(AllocError) => false,
    }
}

fn passes(mut out: Gathering<MemSink>, text: &[u8], piece: usize) -> bool {
    let failed = write_pieces(&mut out, text, piece);
    let (below, passed) = out.finish();
    failed == 0 && passed.is_ok() && below.bytes() == text
}
