// Packets that a capture says were dropped: the statistics of its interfaces.
ghost use Rattle.std.specs.Prelude.{◌≤◌, ◌<◌};

use crate::fixtures::{BIG_SECTION, CAPTURE};
use captures::{CaptureError, CaptureStream, Dropped};
use std::alloc::Global;
use std::test::*;

const NONE: Dropped = Dropped {
    interface: 0,
    system: 0,
};

// Statistics of the first interface: 3 dropped by it (isb_ifdrop), and 2 by the system (isb_osdrop).
const STATISTICS: [u8; 52] = [
    5, 0, 0, 0, 52, 0, 0, 0, 0, 0, 0, 0, 0, 6, 0, 0, 100, 0, 0, 0, // at some time
    5, 0, 8, 0, 3, 0, 0, 0, 0, 0, 0, 0, //
    7, 0, 8, 0, 2, 0, 0, 0, 0, 0, 0, 0, 0, 0, 0, 0, 52, 0, 0, 0,
];

// The same in a big-endian section, behind an interface of link type 101.
const BIG_INTERFACE: [u8; 20] = [
    0, 0, 0, 1, 0, 0, 0, 20, 0, 101, 0, 0, 0, 4, 0, 0, 0, 0, 0, 20,
];

const BIG_STATISTICS: [u8; 52] = [
    0, 0, 0, 5, 0, 0, 0, 52, 0, 0, 0, 0, 0, 0, 6, 0, 0, 0, 0, 100, //
    0, 5, 0, 8, 0, 0, 0, 0, 0, 0, 0, 3, //
    0, 7, 0, 8, 0, 0, 0, 0, 0, 0, 0, 2, 0, 0, 0, 0, 0, 0, 0, 52,
];

// Statistics that tell of 2^64 - 2 packets, and some whose number is not known.
const MANY: [u8; 40] = [
    5, 0, 0, 0, 40, 0, 0, 0, 0, 0, 0, 0, 0, 6, 0, 0, 100, 0, 0, 0, //
    5, 0, 8, 0, 0xfe, 0xff, 0xff, 0xff, 0xff, 0xff, 0xff, 0xff, 0, 0, 0, 0, 40, 0, 0, 0,
];

const UNKNOWN: [u8; 40] = [
    5, 0, 0, 0, 40, 0, 0, 0, 0, 0, 0, 0, 0, 6, 0, 0, 100, 0, 0, 0, //
    5, 0, 8, 0, 0xff, 0xff, 0xff, 0xff, 0xff, 0xff, 0xff, 0xff, 0, 0, 0, 0, 40, 0, 0, 0,
];

// A byte of the statistics, what it is changed to, and what is then told: another number of drops; the second interface,
// which is not there; other codes; an option of seven bytes, one of nine, and one that passes the options' end.
const CHANGES: [(usize, u8, Dropped); 9] = [
    (24, 3, TOLD),
    (24, 0, BY_SYSTEM),
    (31, 1, LATER),
    (8, 1, NONE),
    (20, 4, BY_SYSTEM),
    (32, 6, BY_INTERFACE),
    (22, 7, BY_SYSTEM),
    (34, 9, BY_INTERFACE),
    (34, 13, NONE),
];

const TOLD: Dropped = Dropped {
    interface: 3,
    system: 2,
};

// 2^56 more.
const LATER: Dropped = Dropped {
    interface: 72_057_594_037_927_939,
    system: 2,
};

const BY_INTERFACE: Dropped = Dropped {
    interface: 3,
    system: 0,
};

const BY_SYSTEM: Dropped = Dropped {
    interface: 0,
    system: 2,
};

// What is told in two pieces, behind the first one and at the end.
fn dropped(alloc: Global, first: &[u8], second: &[u8]) -> Result<(Dropped, Dropped), CaptureError> {
    if first.len() > 1 << 20 || second.len() > 1 << 20 {
        return Err(CaptureError::Memory);
    }
    let mut packets = Vec::new(alloc);
    let begun = CaptureStream::new(alloc).feed(first, &mut packets)?;
    let whole = begun.feed(second, &mut packets)?;
    Ok((begun.dropped(), whole.dropped()))
}

// The statistics with one byte changed.
fn changed(place: usize, byte: u8) -> [u8; 52]
    requires { place < 52 }
{
    let mut block = STATISTICS;
    block[place] = byte;
    block
}

// The same of pieces behind a section header and an interface.
fn dropped_behind(
    alloc: Global,
    begin: &[&[u8]],
    first: &[u8],
    second: &[u8],
) -> Result<(Dropped, Dropped), CaptureError> {
    let mut begun = Vec::new(alloc);
    for bytes in begin {
        begun.extend_from_slice(bytes)?;
    }
    begun.extend_from_slice(first)?;
    dropped(alloc, &begun, second)
}

// Whether statistics with this change tell so.
fn tells(alloc: Global, place: usize, byte: u8, wanted: Dropped) -> bool {
    if place >= 52 {
        return false;
    }
    dropped(alloc, &CAPTURE[..60], &changed(place, byte)) == Ok((NONE, wanted))
}

// Whether statistics of a big-endian section that are cut here tell as soon as they are whole.
fn is_told_when_cut(alloc: Global, cut: usize) -> bool
    requires { cut ≤ 52 }
{
    let (first, second) = BIG_STATISTICS.split_at(cut);
    let between = if cut == 52 { TOLD } else { NONE };
    dropped_behind(alloc, &[&BIG_SECTION, &BIG_INTERFACE], first, second) == Ok((between, TOLD))
}

#[test]
fn options(rt: HostRuntime) {
    for (place, byte, wanted) in CHANGES.iter() {
        assert!(rt;
            tells(rt.alloc(), *place, *byte, *wanted),
            "{} at {}",
            byte,
            place
        );
    }
}

#[test]
fn cuts(rt: HostRuntime) {
    for cut in 0..=52 {
        assert!(rt; is_told_when_cut(rt.alloc(), cut), "at {cut}");
    }
}

// What is told later of an interface stands for what was told before, whether it is more or less.
#[test]
fn last_statistics(rt: HostRuntime) {
    let fewer = changed(24, 1);
    let told = dropped_behind(rt.alloc(), &[&CAPTURE[..60]], &STATISTICS, &fewer);
    assert!(rt;
        told == Ok((
            TOLD,
            Dropped {
                interface: 1,
                system: 2
            }
        ))
    );
    let told = dropped_behind(rt.alloc(), &[&CAPTURE[..60]], &fewer, &STATISTICS);
    assert!(rt;
        told == Ok((
            Dropped {
                interface: 1,
                system: 2
            },
            TOLD
        ))
    );
}

// Counts of two sections are added, and 2^64 - 1 stands for more.
#[test]
fn sections(rt: HostRuntime) {
    let told = dropped_behind(
        rt.alloc(),
        &[&CAPTURE[..60], &STATISTICS, &BIG_SECTION, &BIG_INTERFACE],
        &BIG_STATISTICS,
        &[],
    );
    let both = Dropped {
        interface: 6,
        system: 4,
    };
    assert!(rt; told == Ok((both, both)));
    let told = dropped_behind(
        rt.alloc(),
        &[&CAPTURE[..60], &MANY, &BIG_SECTION, &BIG_INTERFACE],
        &BIG_STATISTICS,
        &[],
    );
    let most = Dropped {
        interface: u64::MAX,
        system: 2,
    };
    assert!(rt; told == Ok((most, most)));
}

// A number that is not known changes nothing.
#[test]
fn unknown_number(rt: HostRuntime) {
    let told = dropped_behind(rt.alloc(), &[&CAPTURE[..60]], &STATISTICS, &UNKNOWN);
    assert!(rt; told == Ok((TOLD, TOLD)));
}

// A capture without statistics, and a classic one.
#[test]
fn none_dropped(rt: HostRuntime) {
    assert!(rt; dropped(rt.alloc(), &CAPTURE[..60], &CAPTURE[60..]) == Ok((NONE, NONE)));
    assert!(rt; dropped(rt.alloc(), &[0x4d, 0x3c], &[0xb2]) == Ok((NONE, NONE)));
}
