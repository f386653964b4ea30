// Packets that are passed over.
ghost use Rattle.std.specs.Prelude.{◌≤◌};

use crate::fixtures::{BIG_SECTION, CAPTURE};
use captures::{CaptureError, CaptureStream, Passed};
use std::alloc::Global;
use std::test::*;

const NONE: Passed = Passed {
    simple: 0,
    obsolete: 0,
    other: 0,
};

const SIMPLE: Passed = Passed { simple: 1, ..NONE };

const OBSOLETE: Passed = Passed {
    obsolete: 1,
    ..NONE
};

const OTHER: Passed = Passed { other: 1, ..NONE };

// The type of a block, little-endian, and what it counts as: packets, an entry of a journal, events of sysdig, custom
// blocks, and then events of sysdig with flags, names, statistics, secrets, and blocks of somebody's own.
const TYPES: [([u8; 4], Passed); 14] = [
    ([3, 0, 0, 0], SIMPLE),
    ([2, 0, 0, 0], OBSOLETE),
    ([9, 0, 0, 0], OTHER),
    ([4, 2, 0, 0], OTHER),
    ([0x16, 2, 0, 0], OTHER),
    ([0x21, 2, 0, 0], OTHER),
    ([0xad, 0x0b, 0, 0], OTHER),
    ([0xad, 0x0b, 0, 0x40], OTHER),
    ([8, 2, 0, 0], NONE),
    ([4, 0, 0, 0], NONE),
    ([5, 0, 0, 0], NONE),
    ([10, 0, 0, 0], NONE),
    ([3, 0, 0, 0x80], NONE),
    ([0, 0, 0, 3], NONE),
];

// A simple packet of no byte, big-endian.
const BIG_SIMPLE: [u8; 16] = [0, 0, 0, 3, 0, 0, 0, 16, 0, 0, 0, 0, 0, 0, 0, 16];

// A block of this type without contents, little-endian.
fn block(kind: [u8; 4]) -> [u8; 12] {
    [kind[0], kind[1], kind[2], kind[3], 12, 0, 0, 0, 12, 0, 0, 0]
}

// What is passed over in two pieces, behind the first one and at the end.
fn passed(alloc: Global, first: &[u8], second: &[u8]) -> Result<(Passed, Passed), CaptureError> {
    if first.len() > 1 << 20 || second.len() > 1 << 20 {
        return Err(CaptureError::Memory);
    }
    let mut packets = Vec::new(alloc);
    let begun = CaptureStream::new(alloc).feed(first, &mut packets)?;
    let whole = begun.feed(second, &mut packets)?;
    Ok((begun.passed(), whole.passed()))
}

// Whether a block of this type counts so behind a section header.
fn counts_as(alloc: Global, kind: [u8; 4], wanted: Passed) -> bool {
    let block = block(kind);
    passed(alloc, &CAPTURE[..28], &block) == Ok((NONE, wanted))
}

// Whether a simple packet of a big-endian section is counted once, where it is cut here, as soon as it is whole.
fn is_counted_when_cut(alloc: Global, cut: usize) -> bool
    requires { cut ≤ 16 }
{
    let (first, second) = BIG_SIMPLE.split_at(cut);
    let between = if cut == 16 { SIMPLE } else { NONE };
    passed_behind(alloc, first, second) == Ok((between, SIMPLE))
}

// The same of two pieces behind a big-endian section header.
fn passed_behind(
    alloc: Global,
    first: &[u8],
    second: &[u8],
) -> Result<(Passed, Passed), CaptureError> {
    let mut begun = Vec::new(alloc);
    begun.extend_from_slice(&BIG_SECTION)?;
    begun.extend_from_slice(first)?;
    passed(alloc, &begun, second)
}

#[test]
fn kinds(rt: HostRuntime) {
    for (kind, wanted) in TYPES.iter() {
        assert!(rt; counts_as(rt.alloc(), *kind, *wanted), "{}", kind[0]);
    }
}

#[test]
fn cuts(rt: HostRuntime) {
    for cut in 0..=16 {
        assert!(rt; is_counted_when_cut(rt.alloc(), cut), "at {cut}");
    }
}

// A capture without such blocks, and a classic one.
#[test]
fn none_passed(rt: HostRuntime) {
    assert!(rt; passed(rt.alloc(), &CAPTURE[..60], &CAPTURE[60..]) == Ok((NONE, NONE)));
    assert!(rt; passed(rt.alloc(), &[0x4d, 0x3c], &[0xb2]) == Ok((NONE, NONE)));
}
