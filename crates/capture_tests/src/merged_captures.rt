// Merged captures, byte for byte.
use crate::merge_fixtures::{Frame, Wanted, are_merged_so, is_read_so};
use mergecap::ArrangeError;
use ports::Failed;
use std::test::*;

// Datagrams of UDP from 10.0.0.1:5000 to 10.0.0.2:6000, and back.
const THERE: [u8; 28] = [
    0x45, 0, 0, 0x1c, 0, 7, 0, 0, 0x40, 0x11, 0, 0, 10, 0, 0, 1, 10, 0, 0, 2, 0x13, 0x88, 0x17,
    0x70, 0, 8, 0, 0,
];

const BACK: [u8; 28] = [
    0x45, 0, 0, 0x1c, 0, 8, 0, 0, 0x40, 0x11, 0, 0, 10, 0, 0, 2, 10, 0, 0, 1, 0x17, 0x70, 0x13,
    0x88, 0, 8, 0, 0,
];

const NANO: u64 = 1_000_000_000;

// The first host sends at 0 ns and receives at 80 ns; the second one receives at 10 ns and sends at 60 ns.
const TWO_HOSTS: [Frame; 4] = [
    Frame {
        place: 0,
        seconds: 0,
        units: 0,
        link: 101,
        bytes: &THERE,
    },
    Frame {
        place: 0,
        seconds: 0,
        units: 80 * NANO,
        link: 101,
        bytes: &BACK,
    },
    Frame {
        place: 1,
        seconds: 0,
        units: 10 * NANO,
        link: 101,
        bytes: &THERE,
    },
    Frame {
        place: 1,
        seconds: 0,
        units: 60 * NANO,
        link: 101,
        bytes: &BACK,
    },
];

const TWO_HOSTS_MERGED: [u8; 200] = [
    0x4d, 0x3c, 0xb2, 0xa1, 2, 0, 4, 0, 0, 0, 0, 0, 0, 0, 0, 0, 0, 0, 4, 0, 101, 0, 0, 0, //
    0, 0, 0, 0, 0, 0, 0, 0, 28, 0, 0, 0, 28, 0, 0, 0, // 0 ns
    0x45, 0, 0, 0x1c, 0, 7, 0, 0, 0x40, 0x11, 0, 0, 10, 0, 0, 1, 10, 0, 0, 2, 0x13, 0x88, 0x17,
    0x70, 0, 8, 0, 0, //
    0, 0, 0, 0, 10, 0, 0, 0, 28, 0, 0, 0, 28, 0, 0, 0, // 10 ns
    0x45, 0, 0, 0x1c, 0, 7, 0, 0, 0x40, 0x11, 0, 0, 10, 0, 0, 1, 10, 0, 0, 2, 0x13, 0x88, 0x17,
    0x70, 0, 8, 0, 0, //
    0, 0, 0, 0, 60, 0, 0, 0, 28, 0, 0, 0, 28, 0, 0, 0, // 60 ns
    0x45, 0, 0, 0x1c, 0, 8, 0, 0, 0x40, 0x11, 0, 0, 10, 0, 0, 2, 10, 0, 0, 1, 0x17, 0x70, 0x13,
    0x88, 0, 8, 0, 0, //
    0, 0, 0, 0, 80, 0, 0, 0, 28, 0, 0, 0, 28, 0, 0, 0, // 80 ns
    0x45, 0, 0, 0x1c, 0, 8, 0, 0, 0x40, 0x11, 0, 0, 10, 0, 0, 2, 10, 0, 0, 1, 0x17, 0x70, 0x13,
    0x88, 0, 8, 0, 0,
];

const TWO_HOSTS_READ: [Wanted; 4] = [
    Wanted {
        stamp: 0,
        bytes: &THERE,
    },
    Wanted {
        stamp: 10,
        bytes: &THERE,
    },
    Wanted {
        stamp: 60,
        bytes: &BACK,
    },
    Wanted {
        stamp: 80,
        bytes: &BACK,
    },
];

// The last time that there is; three packets almost 8 ns behind the start, the first of them of the second label; a packet
// of no byte.
const TIES: [Frame; 5] = [
    Frame {
        place: 0,
        seconds: 4_294_967_295,
        units: 999_999_999_999_999_999,
        link: 276,
        bytes: &[1],
    },
    Frame {
        place: 1,
        seconds: 0,
        units: 7_999_999_999,
        link: 276,
        bytes: &[2],
    },
    Frame {
        place: 0,
        seconds: 0,
        units: 7_999_999_999,
        link: 276,
        bytes: &[3],
    },
    Frame {
        place: 0,
        seconds: 0,
        units: 7_999_999_999,
        link: 276,
        bytes: &[4],
    },
    Frame {
        place: 1,
        seconds: 0,
        units: 7 * NANO,
        link: 276,
        bytes: &[],
    },
];

const TIES_MERGED: [u8; 108] = [
    0x4d, 0x3c, 0xb2, 0xa1, 2, 0, 4, 0, 0, 0, 0, 0, 0, 0, 0, 0, 0, 0, 4, 0, 20, 1, 0, 0, //
    0, 0, 0, 0, 7, 0, 0, 0, 0, 0, 0, 0, 0, 0, 0, 0, //
    0, 0, 0, 0, 7, 0, 0, 0, 1, 0, 0, 0, 1, 0, 0, 0, 3, //
    0, 0, 0, 0, 7, 0, 0, 0, 1, 0, 0, 0, 1, 0, 0, 0, 4, //
    0, 0, 0, 0, 7, 0, 0, 0, 1, 0, 0, 0, 1, 0, 0, 0, 2, //
    0xff, 0xff, 0xff, 0xff, 0xff, 0xc9, 0x9a, 0x3b, 1, 0, 0, 0, 1, 0, 0, 0, 1,
];

const NO_PACKET: [u8; 24] = [
    0x4d, 0x3c, 0xb2, 0xa1, 2, 0, 4, 0, 0, 0, 0, 0, 0, 0, 0, 0, 0, 0, 4, 0, 1, 0, 0, 0,
];

// Two link types, and a time that is too late besides.
const TWO_LINKS: [Frame; 2] = [
    Frame {
        place: 0,
        seconds: 4_294_967_295,
        units: 1_000_000_000_000_000_000,
        link: 101,
        bytes: &THERE,
    },
    Frame {
        place: 1,
        seconds: 0,
        units: 0,
        link: 1,
        bytes: &BACK,
    },
];

// The time at which a record would begin as the header does, and almost a ns later.
const AS_HEADER: [Frame; 2] = [
    Frame {
        place: 0,
        seconds: 2_712_812_621,
        units: 262_146 * NANO,
        link: 101,
        bytes: &[],
    },
    Frame {
        place: 0,
        seconds: 2_712_812_621,
        units: 262_147 * NANO - 1,
        link: 101,
        bytes: &[],
    },
];

// Just before that time, and a ns behind it.
const BESIDE_HEADER: [Frame; 2] = [
    Frame {
        place: 0,
        seconds: 2_712_812_621,
        units: 262_146 * NANO - 1,
        link: 101,
        bytes: &[],
    },
    Frame {
        place: 0,
        seconds: 2_712_812_621,
        units: 262_147 * NANO,
        link: 101,
        bytes: &[],
    },
];

const BESIDE_HEADER_MERGED: [u8; 56] = [
    0x4d, 0x3c, 0xb2, 0xa1, 2, 0, 4, 0, 0, 0, 0, 0, 0, 0, 0, 0, 0, 0, 4, 0, 101, 0, 0, 0, //
    0x4d, 0x3c, 0xb2, 0xa1, 1, 0, 4, 0, 0, 0, 0, 0, 0, 0, 0, 0, //
    0x4d, 0x3c, 0xb2, 0xa1, 3, 0, 4, 0, 0, 0, 0, 0, 0, 0, 0, 0,
];

#[test]
fn two_hosts(rt: HostRuntime) {
    let alloc = rt.alloc();
    assert!(rt; are_merged_so(alloc, &TWO_HOSTS, &[], Ok(Ok(())), &TWO_HOSTS_MERGED) == Some(true));
}

#[test]
fn two_hosts_read_again(rt: HostRuntime) {
    assert!(rt; is_read_so(rt.alloc(), &TWO_HOSTS_MERGED, &TWO_HOSTS_READ) == Some(true));
}

#[test]
fn equal_times_and_the_last_one(rt: HostRuntime) {
    assert!(rt; are_merged_so(rt.alloc(), &TIES, &[], Ok(Ok(())), &TIES_MERGED) == Some(true));
}

#[test]
fn no_packet(rt: HostRuntime) {
    assert!(rt; are_merged_so(rt.alloc(), &[], &[], Ok(Ok(())), &NO_PACKET) == Some(true));
}

#[test]
fn refused(rt: HostRuntime) {
    for (count, error) in [(2, ArrangeError::Links), (1, ArrangeError::Range)] {
        assert!(rt;
            are_merged_so(rt.alloc(), &TWO_LINKS[..count], &[], Err(error), &[]) == Some(true)
        );
    }
}

#[test]
fn a_record_as_a_header(rt: HostRuntime) {
    let range = Err(ArrangeError::Range);
    let alloc = rt.alloc();
    assert!(rt; are_merged_so(alloc, &AS_HEADER[..1], &[], range, &[]) == Some(true));
    assert!(rt; are_merged_so(alloc, &AS_HEADER[1..], &[], range, &[]) == Some(true));
    assert!(rt;
        are_merged_so(
            alloc,
            &BESIDE_HEADER,
            &[],
            Ok(Ok(())),
            &BESIDE_HEADER_MERGED
        ) == Some(true)
    );
}

#[test]
fn failed_writes(rt: HostRuntime) {
    for (call, written) in [(1, 0), (3, 14), (8, 40)] {
        assert!(rt;
            are_merged_so(
                rt.alloc(),
                &TWO_HOSTS,
                &[call],
                Ok(Err(Failed)),
                &TWO_HOSTS_MERGED[..written]
            ) == Some(true)
        );
    }
}
