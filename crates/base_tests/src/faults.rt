use crate::fixtures::{text_of, write_pieces};
use ports::{Failed, Gathering, MemSink};
use std::alloc::Global;

// A sink that takes 20,000 bytes in a call and fails at the call of this number.
fn failing_at(alloc: Global, call: u32) -> Option<Gathering<MemSink>> {
    match MemSink::new(alloc, 1 << 18, 20_000, &[call]) {
        Ok(below) => Some(Gathering::new(alloc, below)),
        Err(_) => None,
    }
}

// Whether the one call that failed was behind a write, and all bytes stand below after the ones that followed.
fn is_made_good(mut out: Gathering<MemSink>, text: &[u8]) -> bool {
    let failed = write_pieces(&mut out, text, 30_000);
    let (below, passed) = out.finish();
    failed == 1 && passed.is_ok() && below.bytes() == text
}

// Whether the one call that failed was at the end, and a front of the bytes stands below, so many.
fn is_cut(mut out: Gathering<MemSink>, text: &[u8], size: usize) -> bool {
    let failed = write_pieces(&mut out, text, 30_000);
    let (below, passed) = out.finish();
    failed == 0
        && passed == Err(Failed)
        && text.starts_with(below.bytes())
        && below.bytes().len() == size
}

// What a text of 200,000 bytes comes to where the call of this number fails: whether it is made good later.
fn made_good_at(alloc: Global, text: &[u8], call: u32) -> bool {
    match failing_at(alloc, call) {
        Some(out) => is_made_good(out, text),
        None => false,
    }
}

// Whether it is cut at the end, behind what the calls before took.
fn cut_at(alloc: Global, text: &[u8], call: u32) -> bool {
    match failing_at(alloc, call) {
        Some(out) => is_cut(out, text, (call as usize).saturating_sub(1) * 20_000),
        None => false,
    }
}

// Of so many calls, from one on, how many are made good where they fail.
fn count_made_good(alloc: Global, calls: u32) -> u32 {
    let mut count = 0u32;
    if let Ok(text) = text_of(alloc, 200_000) {
        for call in 1..calls {
            if made_good_at(alloc, &text, call) {
                count = count.saturating_add(1);
            }
        }
    }
    count
}

// Of the calls up to this one, how many cut the text at the end where they fail.
fn count_cut(alloc: Global, calls: u32) -> u32 {
    let mut count = 0u32;
    if let Ok(text) = text_of(alloc, 200_000) {
        for call in 1..calls {
            if cut_at(alloc, &text, call) {
                count = count.saturating_add(1);
            }
        }
    }
    count
}

// The text takes ten calls below, seven of which are made while it is written.
#[test]
fn a_failed_call_is_made_good_by_later_ones(rt: HostRuntime) {
    assert_eq!(rt; count_made_good(rt.alloc(), 12), 7);
}

#[test]
fn a_failed_call_at_the_end_leaves_a_front(rt: HostRuntime) {
    assert_eq!(rt; count_cut(rt.alloc(), 12), 3);
}
