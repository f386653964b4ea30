// What labels say of the place where their traces were taken: the interface, the segment, and which addresses are on
// which side.
ghost use Rattle.std.specs.Prelude.{◌≤◌, length};
ghost use Rattle.decl.specs.Limits.{most_entries};

use crate::declarations::is_refused;
use crate::fixtures::label_text;
use atto::{NsText, write_decimal};
use decl::{Decl, IpVersion, Label, Section, Whereabouts, read_decl};
use problem_model::Name;
use std::alloc::{AllocError, Global};
use std::test::*;

// How labels go on that are refused, with the number of their first fault and the label that has it.
const FAULTS: [(&str, u32, u32); 46] = [
    ("kind = 'capture'\nsegments = 'x'\nsegment = 1", 2, 1),
    ("kind = 'capture'\nbeyond = 1\nbeyond4 = []", 2, 1),
    ("segment = 'x'\ninterface = '1'", 2, 1),
    ("kind = 'capture'\nsegment = 1\ninterface = -1", 3, 1),
    ("kind = 'capture'\nsegment = ['x']", 3, 1),
    ("kind = 'capture'\ninterface = '1'", 3, 1),
    ("kind = 'capture'\ninterface = 1.0\nsegment = 'a b'", 3, 1),
    ("kind = 'capture'\naddresses = '10.0.0.1'", 3, 1),
    ("kind = 'capture'\naddresses6 = ['x', 1]", 3, 1),
    ("kind = 'capture'\nbeyond = [1]", 3, 1),
    ("kind = 'log'\nbeyond6 = {}", 3, 1),
    ("kind = 'capture'\nsegment = 'a b'\nbeyond6 = [[]]", 3, 1),
    (
        "kind = 'capture'\nsegment = 'a b'\ninterface = -1\nbeyond = ['x']",
        4,
        1,
    ),
    ("kind = 'capture'\nsegment = ''", 4, 1),
    ("kind = 'capture'\nsegment = 'a#1'", 4, 1),
    (
        "kind = 'capture'\nsegment = 'a123456789b123456789c123456789d12'",
        4,
        1,
    ),
    ("kind = 'log'\nsegment = 'a b'\ninterface = 1", 4, 1),
    ("kind = 'log'\nclock = 'x'\nbeyond = ['x']", 4, 1),
    ("kind = 'log'\ninterface = -1", 2, 1),
    ("kind = 'log'\ninterface = 0", 2, 1),
    ("kind = 'log'\naddresses = []", 2, 1),
    ("kind = 'log'\naddresses6 = ['x']", 2, 1),
    ("kind = 'log'\nbeyond = ['10.0.0.1']", 2, 1),
    ("kind = 'log'\nsegment = 'x'\nbeyond6 = []", 2, 1),
    ("kind = 'capture'\ninterface = -1\naddresses = ['x']", 5, 1),
    (
        "kind = 'capture'\ninterface = 4294967296\nbeyond6 = ['x']",
        5,
        1,
    ),
    ("kind = 'capture'\ninterface = 9223372036854775807", 5, 1),
    // One side's subnets are all before the other's.
    (
        "kind = 'capture'\nbeyond = ['10.0.0.1']\naddresses = ['10.0.0.1', 'x']",
        6,
        1,
    ),
    (
        "kind = 'capture'\naddresses = ['10.0.0.1']\nbeyond = ['x', '10.0.0.1']",
        6,
        1,
    ),
    (
        "kind = 'capture'\naddresses = ['10.0.0.1']\nbeyond = ['10.0.0.2', '10.0.0.2', '10.0.0.1']",
        6,
        1,
    ),
    (
        "kind = 'capture'\naddresses = ['10.0.0.1']\nbeyond = ['10.0.0.1']\naddresses6 = ['x']",
        6,
        1,
    ),
    // Twice on a side, and on both.
    (
        "kind = 'capture'\nbeyond = ['10.0.0.0/8', '10.0.0.0/8']",
        6,
        1,
    ),
    (
        "kind = 'capture'\naddresses = ['10.0.0.1', '10.0.0.1/32']",
        6,
        1,
    ),
    (
        "kind = 'capture'\nbeyond6 = ['fd00:0:0:0:0:0:0:0/8', 'FD00:0000:0:0:0:0:0:0/8']",
        6,
        1,
    ),
    (
        "kind = 'capture'\naddresses6 = ['0:0:0:0:0:0:0:1', '0:0:0:0:0:0:0:1/128']",
        6,
        1,
    ),
    (
        "kind = 'capture'\naddresses = ['10.0.0.0/8']\nbeyond = ['10.0.0.0/8', 'x']",
        9,
        1,
    ),
    (
        "kind = 'capture'\naddresses = ['10.0.0.0', '10.0.0.1']\nbeyond = ['10.0.0.1/32']",
        9,
        1,
    ),
    (
        "kind = 'capture'\naddresses = ['0.0.0.0/0']\nbeyond = ['0.0.0.0/0']",
        9,
        1,
    ),
    (
        "kind = 'capture'\naddresses = ['10.0.0.1']\nbeyond = ['10.0.0.1']\nbeyond6 = ['x']",
        9,
        1,
    ),
    (
        "kind = 'capture'\naddresses6 = ['fd00:0:0:0:0:0:0:0/16']\nbeyond6 = ['fd00:0:0:0:0:0:0:0/16']",
        9,
        1,
    ),
    (
        "kind = 'capture'\naddresses6 = ['0:0:0:0:0:0:0:0/0']\nbeyond6 = ['0:0:0:0:0:0:0:0/0']",
        9,
        1,
    ),
    // A label's faults are before those of labels and links behind it.
    (
        "kind = 'capture'\nbeyond = ['x']\n[labels.m]\nhost = 1\n[[links]]\nfrom = 1",
        6,
        1,
    ),
    (
        "kind = 'capture'\naddresses = ['10.0.0.1']\nbeyond = ['10.0.0.1']\n[labels.m]\nx = 1",
        9,
        1,
    ),
    (
        "kind = 'log'\nclock = 'a'\nsegment = 'x y'\n[labels.m]\nx = 1",
        4,
        1,
    ),
    (
        "kind = 'capture'\nbeyond = ['x']\n[labels.k]\nhost = 'a'\nkind = 'capture'\nbeyond = ['10.0.0.1']",
        6,
        2,
    ),
    (
        "kind = 'capture'\naddresses = ['10.0.0.1']\n[labels.m]\nhost = 'b'\nkind = 'capture'\n\
        addresses6 = ['1:0:0:0:0:0:0:1']\nbeyond = ['10.0.0.1']\nbeyond6 = ['1:0:0:0:0:0:0:1/128']",
        9,
        2,
    ),
];

pub(crate) fn is_refused_with(
    alloc: Global,
    rest: &str,
    number: u32,
    index: u32,
) -> Result<bool, AllocError> {
    let text = label_text(alloc, rest)?;
    Ok(is_refused(alloc, &text, number, Section::Labels, index))
}

#[test]
fn faults_of_vantages(rt: HostRuntime) {
    for (rest, number, index) in &FAULTS {
        assert!(rt;
            is_refused_with(rt.alloc(), rest, *number, *index) == Ok(true),
            "{rest}"
        );
    }
}

// Subnets that are misspelled, by the key under which they stand.
const MISSPELLED: [(&str, &str); 37] = [
    ("beyond", ""),
    ("beyond", "/8"),
    ("beyond", "10.0.0.0/"),
    ("beyond", "10.0.0.0/33"),
    ("beyond", "10.0.0.0/-1"),
    ("beyond", "10.0.0.0/-"),
    ("beyond", "10.0.0.0/+8"),
    ("beyond", "10.0.0.0/08"),
    ("beyond", "10.0.0.0/032"),
    ("beyond", "10.0.0.0/0x8"),
    ("beyond", "10.0.0.0/ 8"),
    ("beyond", "10.0.0.0 /8"),
    ("beyond", "10.0.0.0/8 "),
    ("beyond", "10.0.0.0/24/24"),
    ("beyond", "10.0.0.0//24"),
    ("beyond", "10.0.0.0/255.0.0.0"),
    // 8 more than 2^32, than 2^64, and than 2^128.
    ("beyond", "10.0.0.0/4294967304"),
    ("beyond", "10.0.0.0/18446744073709551624"),
    ("beyond", "10.0.0.0/340282366920938463463374607431768211464"),
    ("beyond", "10.0.0.00/32"),
    ("beyond", "10.0.0/8"),
    ("beyond", "10/8"),
    ("beyond", "256.0.0.0/8"),
    // Bits behind the prefix.
    ("beyond", "10.0.0.1/24"),
    ("beyond", "10.0.0.1/31"),
    ("addresses", "10.0.0.128/24"),
    ("addresses", "10.0.0.64/25"),
    ("addresses", "128.0.0.0/0"),
    ("addresses", "0.0.0.1/0"),
    ("addresses6", "fd00:0:0:0:0:0:0:0/129"),
    ("addresses6", "fd00:0:0:0:0:0:0:1/127"),
    ("addresses6", "8000:0:0:0:0:0:0:0/0"),
    ("addresses6", "fd00:0:0:0:0:0:0:0/7"),
    ("beyond6", "fd00::/8"),
    ("beyond6", "0:0:0:0:0:0:0:1/0"),
    // The other version.
    ("beyond6", "10.0.0.0/8"),
    ("beyond", "fd00:0:0:0:0:0:0:0/8"),
];

// Whether a label is refused where a subnet stands so under its key.
fn is_misspelled(alloc: Global, key: &str, subnet: &str) -> Result<bool, AllocError> {
    let mut text = label_text(alloc, "kind = 'capture'\n")?;
    text.extend_from_slice(key.as_bytes())?;
    text.extend_from_slice(b" = ['")?;
    text.extend_from_slice(subnet.as_bytes())?;
    text.extend_from_slice(b"']\n")?;
    Ok(is_refused(alloc, &text, 6, Section::Labels, 1))
}

#[test]
fn misspelled_subnets(rt: HostRuntime) {
    for (key, subnet) in &MISSPELLED {
        assert!(rt;
            is_misspelled(rt.alloc(), key, subnet) == Ok(true),
            "{key} {subnet}"
        );
    }
}

// Where an address of this version is.
type Place = (IpVersion, u128, Whereabouts);

// How a label goes on, or more labels do; the place of the one that is looked at, what it has, and where addresses are.
struct Case {
    rest: &'static str,
    place: usize,
    interface: Option<u32>,
    segment: Option<&'static str>,
    // The number of the segment.
    number: u32,
    places: &'static [Place],
}

const FOUR: IpVersion = IpVersion::V4;

const SIX: IpVersion = IpVersion::V6;

const NEAR: Whereabouts = Whereabouts::Near;

const UNSAID: Whereabouts = Whereabouts::Unsaid;

const BEYOND: Whereabouts = Whereabouts::Beyond;

// The addresses of the host, of another host, and of nobody, where the label gives none of its own.
const BY_THE_HOST: &[Place] = &[
    (FOUR, 0x0a00_0001, NEAR),
    (FOUR, 0x0a00_0002, UNSAID),
    (FOUR, 0x0a00_0003, UNSAID),
    (SIX, 0xfd00_0000_0000_0000_0000_0000_0000_0001, NEAR),
    (SIX, 0xfd00_0000_0000_0000_0000_0000_0000_0002, UNSAID),
    (SIX, 0x0a00_0001, UNSAID),
];

const CASES: [Case; 18] = [
    Case {
        rest: "kind = 'capture'",
        place: 0,
        interface: None,
        segment: None,
        number: 0,
        places: BY_THE_HOST,
    },
    // Empty arrays are as none.
    Case {
        rest: "kind = 'capture'\ninterface = 0\naddresses = []\naddresses6 = []\nbeyond = []\nbeyond6 = []",
        place: 0,
        interface: Some(0),
        segment: None,
        number: 0,
        places: BY_THE_HOST,
    },
    Case {
        rest: "kind = 'log'\nsegment = 'lan.2_-A'",
        place: 0,
        interface: None,
        segment: Some("lan.2_-A"),
        number: 0,
        places: BY_THE_HOST,
    },
    // A segment may be named like a host, a clock or a label; its number is the place of the first label of it.
    Case {
        rest: "kind = 'capture'\nsegment = 'a'\n[labels.k]\nhost = 'a'\nkind = 'log'\nsegment = 'k'\n\
            [labels.m]\nhost = 'b'\nkind = 'capture'\nsegment = 'a'\ninterface = 4294967295",
        place: 2,
        interface: Some(4_294_967_295),
        segment: Some("a"),
        number: 1,
        places: &[(FOUR, 0x0a00_0001, UNSAID), (FOUR, 0x0a00_0002, NEAR)],
    },
    Case {
        rest: "kind = 'capture'\n[labels.k]\nhost = 'a'\nkind = 'log'\nsegment = 'k'\n\
            [labels.m]\nhost = 'b'\nkind = 'log'",
        place: 2,
        interface: None,
        segment: None,
        number: 1,
        places: &[],
    },
    // The host's own addresses are near beside what is beyond.
    Case {
        rest: "kind = 'capture'\nbeyond = ['192.168.1.0/24']",
        place: 0,
        interface: None,
        segment: None,
        number: 0,
        places: &[
            (FOUR, 0xc0a8_00ff, UNSAID),
            (FOUR, 0xc0a8_0100, BEYOND),
            (FOUR, 0xc0a8_01ff, BEYOND),
            (FOUR, 0xc0a8_0200, UNSAID),
            (FOUR, 0x0a00_0001, NEAR),
            (FOUR, 0x0a00_0002, UNSAID),
            (SIX, 0xc0a8_0100, UNSAID),
            (SIX, 0xfd00_0000_0000_0000_0000_0000_0000_0001, NEAR),
        ],
    },
    // Each by itself, so narrower than a subnet of several.
    Case {
        rest: "kind = 'capture'\nbeyond6 = ['fd00:0:0:0:0:0:0:0/64']",
        place: 0,
        interface: None,
        segment: None,
        number: 0,
        places: &[
            (FOUR, 0x0a00_0001, NEAR),
            (FOUR, 0x0a00_0002, UNSAID),
            (SIX, 0xfcff_ffff_ffff_ffff_ffff_ffff_ffff_ffff, UNSAID),
            (SIX, 0xfd00_0000_0000_0000_0000_0000_0000_0000, BEYOND),
            (SIX, 0xfd00_0000_0000_0000_0000_0000_0000_0001, NEAR),
            (SIX, 0xfd00_0000_0000_0000_0000_0000_0000_0002, BEYOND),
            (SIX, 0xfd00_0000_0000_0000_ffff_ffff_ffff_ffff, BEYOND),
            (SIX, 0xfd00_0000_0000_0001_0000_0000_0000_0000, UNSAID),
        ],
    },
    Case {
        rest: "kind = 'capture'\nbeyond = ['0.0.0.0/0']\nbeyond6 = ['fd00:0:0:0:0:0:0:0/127']\naddresses6 = []",
        place: 0,
        interface: None,
        segment: None,
        number: 0,
        places: &[
            (FOUR, 0x0a00_0000, BEYOND),
            (FOUR, 0x0a00_0001, NEAR),
            (FOUR, 0x0a00_0002, BEYOND),
            (SIX, 0xfd00_0000_0000_0000_0000_0000_0000_0000, BEYOND),
            (SIX, 0xfd00_0000_0000_0000_0000_0000_0000_0001, NEAR),
        ],
    },
    // A subnet of one address goes before the host's.
    Case {
        rest: "kind = 'capture'\nbeyond = ['10.0.0.1']\nbeyond6 = ['fd00:0:0:0:0:0:0:1/128']",
        place: 0,
        interface: None,
        segment: None,
        number: 0,
        places: &[
            (FOUR, 0x0a00_0001, BEYOND),
            (SIX, 0xfd00_0000_0000_0000_0000_0000_0000_0001, BEYOND),
        ],
    },
    // Near ones of one version take the host's own away of that version alone.
    Case {
        rest: "kind = 'capture'\nbeyond = ['10.0.0.0/8']\naddresses6 = ['fd00:0:0:0:0:0:0:3']\nbeyond6 = ['fd00:0:0:0:0:0:0:0/126']",
        place: 0,
        interface: None,
        segment: None,
        number: 0,
        places: &[
            (FOUR, 0x0a00_0001, NEAR),
            (FOUR, 0x0a00_0002, BEYOND),
            (SIX, 0xfd00_0000_0000_0000_0000_0000_0000_0001, BEYOND),
            (SIX, 0xfd00_0000_0000_0000_0000_0000_0000_0003, NEAR),
        ],
    },
    // The label's addresses are in place of its host's, and another host's may be among them.
    Case {
        rest: "kind = 'capture'\naddresses = ['10.0.0.2']",
        place: 0,
        interface: None,
        segment: None,
        number: 0,
        places: &[
            (FOUR, 0x0a00_0001, UNSAID),
            (FOUR, 0x0a00_0002, NEAR),
            (FOUR, 0x0a00_0003, UNSAID),
            (SIX, 0xfd00_0000_0000_0000_0000_0000_0000_0001, NEAR),
        ],
    },
    // The narrowest subnet decides, wherever it stands.
    Case {
        rest: "kind = 'capture'\naddresses = ['10.0.0.0/8', '10.0.1.0/24']\nbeyond = ['10.0.1.7', '10.0.0.0/16', '10.0.1.128/25']",
        place: 0,
        interface: None,
        segment: None,
        number: 0,
        places: &[
            (FOUR, 0x0a00_0107, BEYOND),
            (FOUR, 0x0a00_0106, NEAR),
            (FOUR, 0x0a00_0108, NEAR),
            (FOUR, 0x0a00_017f, NEAR),
            (FOUR, 0x0a00_0180, BEYOND),
            (FOUR, 0x0a00_0200, BEYOND),
            (FOUR, 0x0a01_0000, NEAR),
            (FOUR, 0x0aff_ffff, NEAR),
            (FOUR, 0x0b00_0000, UNSAID),
            (FOUR, 0x09ff_ffff, UNSAID),
        ],
    },
    // All addresses but one.
    Case {
        rest: "kind = 'capture'\nbeyond = ['0.0.0.0/0']\naddresses = ['10.0.0.3']",
        place: 0,
        interface: None,
        segment: None,
        number: 0,
        places: &[
            (FOUR, 0, BEYOND),
            (FOUR, 0xffff_ffff, BEYOND),
            (FOUR, 0x0a00_0001, BEYOND),
            (FOUR, 0x0a00_0003, NEAR),
            (SIX, 0x0a00_0003, UNSAID),
        ],
    },
    Case {
        rest: "kind = 'capture'\naddresses6 = ['0:0:0:0:0:0:0:0/0']\nbeyond6 = ['2001:db8:0:0:0:0:0:0/32']",
        place: 0,
        interface: None,
        segment: None,
        number: 0,
        places: &[
            (SIX, 0, NEAR),
            (SIX, 0xffff_ffff_ffff_ffff_ffff_ffff_ffff_ffff, NEAR),
            (SIX, 0x2001_0db7_ffff_ffff_ffff_ffff_ffff_ffff, NEAR),
            (SIX, 0x2001_0db8_0000_0000_0000_0000_0000_0000, BEYOND),
            (SIX, 0x2001_0db8_ffff_ffff_ffff_ffff_ffff_ffff, BEYOND),
            (SIX, 0x2001_0db9_0000_0000_0000_0000_0000_0000, NEAR),
            (FOUR, 0x0a00_0001, NEAR),
            (FOUR, 0x0a00_0003, UNSAID),
        ],
    },
    // Prefixes that end within an octet, or within a group.
    Case {
        rest: "kind = 'capture'\nbeyond = ['10.0.0.128/25', '172.16.0.0/12', '255.255.255.254/31']",
        place: 0,
        interface: None,
        segment: None,
        number: 0,
        places: &[
            (FOUR, 0x0a00_007f, UNSAID),
            (FOUR, 0x0a00_0080, BEYOND),
            (FOUR, 0x0a00_00ff, BEYOND),
            (FOUR, 0x0a00_0100, UNSAID),
            (FOUR, 0xac0f_ffff, UNSAID),
            (FOUR, 0xac10_0000, BEYOND),
            (FOUR, 0xac1f_ffff, BEYOND),
            (FOUR, 0xac20_0000, UNSAID),
            (FOUR, 0xffff_fffd, UNSAID),
            (FOUR, 0xffff_fffe, BEYOND),
            (FOUR, 0xffff_ffff, BEYOND),
        ],
    },
    Case {
        rest: "kind = 'capture'\naddresses6 = ['fd00:0:0:0:0:0:0:8/125', 'fc00:0:0:0:0:0:0:0/7']\nbeyond6 = ['Fd00:0:0:0:0:0:0:000a/128']",
        place: 0,
        interface: None,
        segment: None,
        number: 0,
        places: &[
            (SIX, 0xfd00_0000_0000_0000_0000_0000_0000_0009, NEAR),
            (SIX, 0xfd00_0000_0000_0000_0000_0000_0000_000a, BEYOND),
            (SIX, 0xfdff_ffff_ffff_ffff_ffff_ffff_ffff_ffff, NEAR),
            (SIX, 0xfc00_0000_0000_0000_0000_0000_0000_0000, NEAR),
            (SIX, 0xfbff_ffff_ffff_ffff_ffff_ffff_ffff_ffff, UNSAID),
            (SIX, 0xfe00_0000_0000_0000_0000_0000_0000_0000, UNSAID),
        ],
    },
    // Subnets of another label are not its own, though they are the same.
    Case {
        rest: "kind = 'capture'\naddresses = ['10.0.0.2', '10.0.0.4']\nbeyond = ['10.0.0.1']\n\
            [labels.m]\nhost = 'b'\nkind = 'capture'\nbeyond = ['10.0.0.2']\naddresses6 = ['fd00:0:0:0:0:0:0:3']\n\
            [labels.n]\nhost = 'b'\nkind = 'capture'\nbeyond = ['10.0.0.4']",
        place: 1,
        interface: None,
        segment: None,
        number: 0,
        places: &[
            (FOUR, 0x0a00_0001, UNSAID),
            (FOUR, 0x0a00_0002, BEYOND),
            (FOUR, 0x0a00_0004, UNSAID),
            (SIX, 0xfd00_0000_0000_0000_0000_0000_0000_0002, UNSAID),
            (SIX, 0xfd00_0000_0000_0000_0000_0000_0000_0003, NEAR),
        ],
    },
    Case {
        rest: "kind = 'capture'\naddresses = ['10.0.0.2']\n[labels.m]\nhost = 'b'\nkind = 'capture'\n\
            [labels.n]\nhost = 'a'\nkind = 'capture'\nbeyond = ['10.0.0.1']",
        place: 1,
        interface: None,
        segment: None,
        number: 0,
        places: &[
            (FOUR, 0x0a00_0001, UNSAID),
            (FOUR, 0x0a00_0002, NEAR),
            (SIX, 0xfd00_0000_0000_0000_0000_0000_0000_0002, NEAR),
        ],
    },
];

fn is_named(segment: Option<Name>, wanted: Option<&str>) -> bool {
    match (segment, wanted) {
        (Some(segment), Some(wanted)) => segment.bytes() == wanted.as_bytes(),
        (None, None) => true,
        _ => false,
    }
}

fn are_places(decl: &Decl, label: &Label, wanted: &[Place]) -> bool {
    wanted.iter().all(|(version, address, place)| decl.whereabouts(label, *version, *address)
        == *place)
}

fn is_label(decl: &Decl, label: &Label, case: &Case) -> bool
    requires { length decl.now.labels.items ≤ most_entries }
{
    label.interface == case.interface
        && is_named(label.segment, case.segment)
        && decl.segment_of(label) == case.number
        && are_places(decl, label, case.places)
}

fn holds(alloc: Global, case: &Case) -> Option<bool> {
    let text = label_text(alloc, case.rest).ok()?;
    let decl = read_decl(alloc, &text).ok()?;
    let label = decl.labels.get(case.place)?;
    Some(is_label(&decl, label, case))
}

#[test]
fn vantages(rt: HostRuntime) {
    for (k, case) in CASES.iter().enumerate() {
        assert!(rt; holds(rt.alloc(), case) == Some(true), "case {k}");
    }
}

// Adds a number in decimal behind a text.
fn push_number(before: &[u8], number: u64, text: &mut Vec<u8>) -> Result<(), AllocError> {
    let mut digits = NsText::new();
    write_decimal(number, &mut digits);
    text.extend_from_slice(before)?;
    text.extend_from_slice(digits.as_slice())
}

// Adds an array of so many addresses of IPv4, of which each has this number in its second octet.
fn push_narrow(key: &[u8], side: u64, count: u64, text: &mut Vec<u8>) -> Result<(), AllocError> {
    text.extend_from_slice(key)?;
    for number in 0..count {
        push_number(b"'10.", side, text)?;
        push_number(b".", number / 256, text)?;
        push_number(b".", number % 256, text)?;
        text.extend_from_slice(b"',")?;
    }
    text.extend_from_slice(b"]\n")
}

// The same of IPv6, in the first group.
fn push_wide(key: &[u8], side: u64, count: u64, text: &mut Vec<u8>) -> Result<(), AllocError> {
    text.extend_from_slice(key)?;
    for number in 0..count {
        push_number(b"'", side, text)?;
        push_number(b":0:0:0:0:0:0:", number, text)?;
        text.extend_from_slice(b"',")?;
    }
    text.extend_from_slice(b"]\n")
}

// Adds what a capture's label says of so many addresses under each key.
fn push_subnets(counts: &[u64; 4], text: &mut Vec<u8>) -> Result<(), AllocError> {
    text.extend_from_slice(b"kind = 'capture'\n")?;
    push_wide(b"beyond6 = [", 1, counts[3], text)?;
    push_narrow(b"beyond = [", 1, counts[2], text)?;
    push_wide(b"addresses6 = [", 2, counts[1], text)?;
    push_narrow(b"addresses = [", 2, counts[0], text)
}

// A declaration of two labels that both say of so many addresses.
fn crowded(alloc: Global, counts: &[u64; 4]) -> Result<Vec<u8>, AllocError> {
    let mut text = label_text(alloc, "")?;
    push_subnets(counts, &mut text)?;
    text.extend_from_slice(b"[labels.m]\nhost = 'b'\n")?;
    push_subnets(counts, &mut text)?;
    Ok(text)
}

fn is_crowded(label: &Label, first_subnet: u32) -> bool {
    label.first_subnet == first_subnet && label.subnet_count == 256
}

// Whether each of the two labels has 256 subnets then.
fn has_most(alloc: Global, counts: &[u64; 4]) -> Result<bool, AllocError> {
    let text = crowded(alloc, counts)?;
    Ok(match read_decl(alloc, &text) {
        Ok(decl) => {
            decl.subnets.len() == 512
                && decl.labels.len() == 2
                && is_crowded(&decl.labels[0], 0)
                && is_crowded(&decl.labels[1], 256)
        }
        Err(_) => false,
    })
}

// Whether the first label has too many.
fn has_too_many(alloc: Global, counts: &[u64; 4]) -> Result<bool, AllocError> {
    let text = crowded(alloc, counts)?;
    Ok(is_refused(alloc, &text, 5, Section::Labels, 1))
}

#[test]
fn many_subnets(rt: HostRuntime) -> Result<(), Fail> {
    for counts in &[[256, 0, 0, 0], [64, 64, 64, 64], [0, 1, 0, 255]] {
        assert!(rt; has_most(rt.alloc(), counts)?, "{}", counts[0]);
    }
    for counts in &[[257, 0, 0, 0], [64, 64, 65, 64], [0, 0, 1, 256]] {
        assert!(rt; has_too_many(rt.alloc(), counts)?, "{}", counts[0]);
    }
    Ok(())
}
