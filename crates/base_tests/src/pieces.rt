use crate::fixtures::comes_out;
use ports::{Gathering, MemSink, write_whole};
use std::alloc::Global;
use std::test::Fail;

// Whether a text comes out over a sink with room enough that fails at its second call.
fn takes_one_call(alloc: Global, size: u32, piece: usize) -> bool {
    match MemSink::new(alloc, 1 << 18, 1 << 18, &[2]) {
        Ok(below) => comes_out(alloc, below, size, piece),
        Err(_) => false,
    }
}

// The same over a sink that takes so many bytes in a call, and fails at none.
fn comes_out_of(alloc: Global, most: u32, size: u32, piece: usize) -> bool {
    match MemSink::new(alloc, 1 << 18, most.max(1), &[]) {
        Ok(below) => comes_out(alloc, below, size, piece),
        Err(_) => false,
    }
}

// How many rows of a table of the most in a call, a text and its pieces, all in bytes, come out.
fn count_of(alloc: Global, table: &[(u32, u32, usize)]) -> usize {
    table
        .iter()
        .filter(|row| comes_out_of(alloc, row.0, row.1, row.2))
        .count()
}

// Whether two words that are written stand below in their order.
fn two_words_come_out(mut out: Gathering<MemSink>) -> bool {
    let is_written = write_whole(&mut out, b"some ").is_ok()
        && write_whole(&mut out, b"bytes").is_ok();
    let (below, passed) = out.finish();
    is_written && passed.is_ok() && below.bytes() == b"some bytes".as_slice()
}

// Pieces of one byte, of the room, of one more and of far more, behind none and behind others.
#[test]
fn pieces_come_out_whole(rt: HostRuntime) {
    let table = [
        (1 << 18, 0, 1),
        (1 << 18, 1, 1),
        (1 << 18, 140_000, 1),
        (1 << 18, 65_535, 65_535),
        (1 << 18, 65_536, 65_536),
        (1 << 18, 65_537, 65_537),
        (1 << 18, 200_000, 65_536),
        (1 << 18, 200_000, 65_537),
        (1 << 18, 200_000, 200_000),
        (1 << 18, 200_000, 40_000),
    ];
    assert_eq!(rt; count_of(rt.alloc(), &table), table.len());
}

// A sink below that takes few bytes in a call, down to one.
#[test]
fn few_bytes_in_a_call_come_out_whole(rt: HostRuntime) {
    let table = [
        (1, 300, 7),
        (1, 66_000, 1000),
        (7, 70_000, 65_537),
        (1000, 200_000, 65_536),
        (65_535, 200_000, 65_536),
        (65_537, 200_000, 65_537),
        (20_000, 200_000, 30_000),
    ];
    assert_eq!(rt; count_of(rt.alloc(), &table), table.len());
}

// Up to 64 KiB go out in one call, however many pieces they are; one byte more in two.
#[test]
fn what_fits_goes_out_in_one_call(rt: HostRuntime) {
    let alloc = rt.alloc();
    assert!(rt;
        takes_one_call(alloc, 65_536, 1)
            && takes_one_call(alloc, 65_536, 100)
            && !takes_one_call(alloc, 65_537, 1)
    );
}

// Two words over a sink in memory, which are all that takes memory beside the room: so where that alone cannot be had, each
// is passed on as it comes.
#[test]
fn words_come_out_with_room_or_without(rt: HostRuntime) -> Result<(), Fail> {
    let below = MemSink::new(rt.alloc(), 16, 16, &[])?;
    assert!(rt; two_words_come_out(Gathering::new(rt.alloc(), below)));
    Ok(())
}
