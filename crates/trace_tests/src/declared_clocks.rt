// Hosts with several clocks: what is declared of them, and the faults in their tables.
use crate::declarations::{NOTHING, Wanted, is_refused, says};
use atto::{NsText, write_decimal};
use decl::{Decl, Section, TraceKind, read_decl};
use std::alloc::{AllocError, Global};
use std::test::*;

// Three clocks of the host that comes first by its name, none of which has that name. Numbers that a clock does not have are
// its host's. The source is a clock by its own name.
const STEPPED: &str =
    "source = \"a2\"\n[hosts.b]\nlate = 3\n[hosts.a]\nshort = 4\nlong = 5\nearly = 6\nlate = 7\noffset = -9\naddresses = [\"10.0.0.1\"]\n\
    clocks = [{ name = \"z\" }, { name = \"a2\", short = 0, long = 0, early = 1, late = 2, gap = 4611686018427387903, offset = 4 },\n\
    { gap = 8, long = 9, name = \"A\" }]\n\
    [labels.x]\nhost = \"a\"\nkind = \"log\"\n[labels.w]\nhost = \"b\"\nkind = \"log\"\n\
    [labels.y]\nclock = \"A\"\nhost = \"a\"\nkind = \"capture\"\n[labels.z]\nhost = \"b\"\nclock = \"b\"\nkind = \"log\"\n";

const STEPPED_SAYS: Wanted = Wanted {
    hosts: &["a", "b"],
    clocks: &[
        ("z", 4, 5, 6, 7),
        ("a2", 0, 0, 1, 2),
        ("A", 4, 9, 6, 7),
        ("b", 0, 0, 0, 3),
    ],
    owners: &[
        (0, 0, -9),
        (0, 4_611_686_018_427_387_903, 4),
        (0, 8, -9),
        (1, 0, 0),
    ],
    addresses: &[(0x0a00_0001, 0)],
    labels: &[
        ("w", 1, 3, TraceKind::Log),
        ("x", 0, 0, TraceKind::Log),
        ("y", 0, 2, TraceKind::Capture),
        ("z", 1, 3, TraceKind::Log),
    ],
    links: &[],
    payload_bytes: 0,
    tcp_options: false,
    fragments: false,
    window: None,
    source: Some(1),
};

// An empty array is that of a host without tables.
const EMPTY: &str =
    "[hosts.a]\nlong = 2\nclocks = []\n[labels.l]\nhost = 'a'\nkind = 'log'\nclock = 'a'\n";

const EMPTY_SAYS: Wanted = Wanted {
    hosts: &["a"],
    clocks: &[("a", 0, 2, 0, 0)],
    owners: &[(0, 0, 0)],
    labels: &[("l", 0, 0, TraceKind::Log)],
    ..NOTHING
};

// Hosts with tables do not claim their own names: each may be the other one's clock.
const SWAPPED: &str =
    "[[hosts.b.clocks]]\nname = 'a'\n[[hosts.a.clocks]]\nname = 'b'\n[[hosts.a.clocks]]\nname = 'c'\n\
    [labels.a]\nhost = 'b'\nkind = 'log'\nclock = 'a'\n";

const SWAPPED_SAYS: Wanted = Wanted {
    hosts: &["a", "b"],
    clocks: &[("b", 0, 0, 0, 0), ("c", 0, 0, 0, 0), ("a", 0, 0, 0, 0)],
    owners: &[(0, 0, 0), (0, 0, 0), (1, 0, 0)],
    labels: &[("a", 1, 2, TraceKind::Log)],
    ..NOTHING
};

// A clock has its host's name, but is not its first one, and the first one has a gap, which does nothing.
const SECOND: &str =
    "source = 'a'\n[hosts.a]\nshort = 1\nclocks = [{ name = 'b', gap = 5 }, { name = 'a', short = 0 }]\n\
    [labels.l]\nhost = 'a'\nkind = 'log'\n";

const SECOND_SAYS: Wanted = Wanted {
    hosts: &["a"],
    clocks: &[("b", 1, 0, 0, 0), ("a", 0, 0, 0, 0)],
    owners: &[(0, 5, 0), (0, 0, 0)],
    labels: &[("l", 0, 0, TraceKind::Log)],
    source: Some(1),
    ..NOTHING
};

#[test]
fn lawful_clocks(rt: HostRuntime) {
    let cases = [
        (STEPPED, STEPPED_SAYS),
        (EMPTY, EMPTY_SAYS),
        (SWAPPED, SWAPPED_SAYS),
        (SECOND, SECOND_SAYS),
    ];
    for (text, wanted) in &cases {
        assert!(rt; says(rt.alloc(), text, wanted), "{text}");
    }
}

// The gap of the follow from each clock to the next one, where there is one.
const FOLLOWS: [Option<u64>; 5] = [Some(4_611_686_018_427_387_903), Some(8), None, None, None];

// Whether the clock at this place follows on to the next one with this gap.
fn follows(decl: &Decl, earlier: u32, gap: Option<u64>) -> bool {
    if decl.owners.len() > 65_536 {
        return false;
    }
    match decl.follow_from(earlier) {
        Some(one) => {
            one.earlier == earlier
                && u64::from(one.later) == u64::from(earlier) + 1
                && gap == Some(one.gap.get())
        }
        None => gap.is_none(),
    }
}

fn has_follows(alloc: Global) -> bool {
    match read_decl(alloc, STEPPED.as_bytes()) {
        Ok(decl) => FOLLOWS
            .iter()
            .enumerate()
            .all(|(place, gap)| follows(&decl, place as u32, *gap)),
        Err(_) => false,
    }
}

#[test]
fn neighbours_follow(rt: HostRuntime) {
    assert!(rt; has_follows(rt.alloc()));
}

// Declarations with their first faults, which are those of hosts if it is not said otherwise.
const HOSTS: [(&str, u32, u32); 49] = [
    // a host itself, before its clocks
    ("[hosts.a]\nclock = []", 2, 1),
    ("[hosts.a]\nclocks = 'x'\nspeed = 1", 2, 1),
    ("[hosts.a]\nclocks = 1", 3, 1),
    ("[hosts.a]\nclocks = 'x'", 3, 1),
    ("[hosts.a]\nclocks = { name = 'c' }", 3, 1),
    ("[hosts.a.clocks.c]", 3, 1),
    ("[hosts.a]\nclocks = [1]\nlate = '1'", 3, 1),
    ("[hosts.'a b']\nclocks = [1]", 4, 1),
    ("[hosts.'a b']\nclocks = [{ name = 'a' }]", 4, 1),
    ("[hosts.a]\nlong = -1\nclocks = [1]", 5, 1),
    // what it says of all its clocks counts, even where each of them says otherwise
    (
        "[hosts.a]\nlong = 1000000001\nclocks = [{ name = 'c', long = 1 }]",
        5,
        1,
    ),
    ("[hosts.a]\naddresses = ['x']\nclocks = [1]", 6, 1),
    (
        "[hosts.a]\naddresses = ['10.0.0.1']\n[hosts.b]\naddresses = ['10.0.0.1']\nclocks = [{}]",
        6,
        2,
    ),
    // a clock: a table, its keys, shapes, name and numbers
    ("[hosts.a]\nclocks = [1]", 3, 1),
    ("[hosts.a]\nclocks = ['c']", 3, 1),
    ("[hosts.a]\nclocks = [[]]", 3, 1),
    ("[hosts.a]\nclocks = [{}]", 2, 1),
    ("[hosts.a]\nclocks = [{ gap = 'x' }]", 2, 1),
    ("[hosts.a]\nclocks = [{ name = 1, speed = 1 }]", 2, 1),
    ("[hosts.a]\nclocks = [{ name = 'c', addresses = [] }]", 2, 1),
    ("[hosts.a]\nclocks = [{ name = 1 }]", 3, 1),
    ("[hosts.a]\nclocks = [{ name = 'c d', gap = 1.5 }]", 3, 1),
    ("[hosts.a]\nclocks = [{ name = 'c d', gap = -1 }]", 4, 1),
    ("[hosts.a]\nclocks = [{ name = '' }]", 4, 1),
    ("[hosts.a]\nclocks = [{ name = 'c#1' }]", 4, 1),
    (
        "[hosts.a]\nclocks = [{ name = 'a123456789b123456789c123456789d1' }, { name = 'a123456789b123456789c123456789d12' }]",
        4,
        1,
    ),
    (
        "[hosts.a]\nclocks = [{ name = 'c' }, { name = 'c', gap = -1 }]",
        4,
        1,
    ),
    (
        "[hosts.a]\nclocks = [{ name = 'c' }]\n[hosts.b]\nclocks = [{ name = 'd' }, { name = 'c' }]",
        4,
        2,
    ),
    ("[hosts.a]\n[hosts.b]\nclocks = [{ name = 'a' }]", 4, 2),
    (
        "[hosts.a]\nclocks = [{ name = 'c', short = 1000000000 }]",
        5,
        1,
    ),
    ("[hosts.a]\nclocks = [{ name = 'c', short = -1 }]", 5, 1),
    (
        "[hosts.a]\nclocks = [{ name = 'c', long = 1000000001 }]",
        5,
        1,
    ),
    (
        "[hosts.a]\nclocks = [{ name = 'c', early = 4611686018427387904 }]",
        5,
        1,
    ),
    ("[hosts.a]\nclocks = [{ name = 'c', late = -1 }]", 5, 1),
    // the first clock's gap does nothing, but is a number like others
    ("[hosts.a]\nclocks = [{ name = 'c', gap = -1 }]", 5, 1),
    (
        "[hosts.a]\nclocks = [{ name = 'c' }, { name = 'd', gap = 4611686018427387904 }]",
        5,
        1,
    ),
    // an offset is a clock's own, or else the host's, which is to be in its range even where no clock takes it
    (
        "[hosts.a]\nclocks = [{ name = 'c', offset = 4611686018427387904 }]",
        5,
        1,
    ),
    (
        "[hosts.a]\nclocks = [{ name = 'c', offset = -4611686018427387904 }, 1]",
        5,
        1,
    ),
    (
        "[hosts.a]\noffset = 4611686018427387904\nclocks = [{ name = 'c', offset = 1 }, 1]",
        5,
        1,
    ),
    (
        "[hosts.a]\nclocks = [{ name = 'c d', offset = true }]",
        3,
        1,
    ),
    // one clock after another, and then the next host
    ("[hosts.a]\nclocks = [{ name = 'c', gap = -1 }, 1]", 5, 1),
    (
        "[hosts.a]\nclocks = [{ name = 'c' }, {}, { name = 'c' }]",
        2,
        1,
    ),
    (
        "[hosts.a]\nclocks = [{ name = 'c', gap = -1 }]\n[hosts.b]\nspeed = 1",
        5,
        1,
    ),
    ("[hosts.a]\nclocks = []\n[hosts.b]\nclocks = [{}]", 2, 2),
    ("[hosts.b]\nclocks = [{}]\n[hosts.a]\nlate = -1", 5, 1),
    ("[labels.l]\nhost = 'x'\n[hosts.a]\nclocks = [{}]", 2, 1),
    // the clock of a host without tables, whose name is taken
    ("[hosts.a]\nclocks = [{ name = 'b' }]\n[hosts.b]", 4, 2),
    (
        "[hosts.a]\nclocks = [{ name = 'b' }]\n[hosts.b]\nclocks = []",
        4,
        2,
    ),
    (
        "[hosts.a]\nclocks = [{ name = 'b' }]\n[hosts.b]\naddresses = ['x']",
        6,
        2,
    ),
];

#[test]
fn faults_of_clocks(rt: HostRuntime) {
    for (text, number, index) in &HOSTS {
        assert!(rt;
            is_refused(rt.alloc(), text.as_bytes(), *number, Section::Hosts, *index),
            "{text}"
        );
    }
}

// Faults behind those of hosts: of labels that name a clock, and of the source.
const OTHERS: [(&str, u32, Section, u32); 14] = [
    ("[labels.l]\nclock = 1\nkind = 'log'", 2, Section::Labels, 1),
    (
        "[hosts.a]\n[labels.l]\nhost = 'a'\nkind = 'log'\nclocks = 'a'",
        2,
        Section::Labels,
        1,
    ),
    (
        "[labels.l]\nhost = 'x'\nkind = 'log'\nclock = 1",
        3,
        Section::Labels,
        1,
    ),
    (
        "[hosts.a]\n[labels.l]\nhost = 'x'\nkind = 'log'\nclock = 'a'",
        4,
        Section::Labels,
        1,
    ),
    (
        "[hosts.a]\n[hosts.b]\n[labels.l]\nhost = 'a'\nkind = 'log'\nclock = 'b'",
        4,
        Section::Labels,
        1,
    ),
    (
        "[hosts.a]\nclocks = [{ name = 'c' }]\n[labels.k]\nhost = 'a'\nkind = 'log'\n\
        [labels.l]\nhost = 'a'\nkind = 'log'\nclock = 'a'",
        4,
        Section::Labels,
        2,
    ),
    (
        "[hosts.a]\n[labels.l]\nhost = 'a'\nkind = 'log'\nclock = ''",
        4,
        Section::Labels,
        1,
    ),
    (
        "[hosts.a]\n[labels.l]\nhost = 'a'\nkind = 'log'\nclock = 'c d'",
        4,
        Section::Labels,
        1,
    ),
    (
        "[hosts.a]\n[labels.l]\nhost = 'a'\nkind = 'pcap'\nclock = 'a'",
        4,
        Section::Labels,
        1,
    ),
    (
        "links = [1]\n[hosts.a]\n[labels.l]\nhost = 'a'\nkind = 'log'\nclock = 'x'",
        4,
        Section::Labels,
        1,
    ),
    // a host's name is no clock's where the host has tables, and the clock's own numbers count
    (
        "source = 'a'\n[hosts.a]\nclocks = [{ name = 'c' }]",
        7,
        Section::Top,
        0,
    ),
    (
        "source = 'd'\n[hosts.a]\nclocks = [{ name = 'c' }, { name = 'd', long = 1 }]",
        7,
        Section::Top,
        0,
    ),
    (
        "source = 'c'\n[hosts.a]\nshort = 1\nclocks = [{ name = 'c' }, { name = 'd', short = 0 }]",
        7,
        Section::Top,
        0,
    ),
    (
        "source = 'x'\n[hosts.a]\nclocks = [{ name = 'c' }]\n[labels.l]\nhost = 'a'\nkind = 'log'\nclock = 'x'",
        4,
        Section::Labels,
        1,
    ),
];

#[test]
fn faults_behind_clocks(rt: HostRuntime) {
    for (text, number, section, index) in &OTHERS {
        assert!(rt;
            is_refused(rt.alloc(), text.as_bytes(), *number, *section, *index),
            "{text}"
        );
    }
}

// Adds a host a with so many clocks: c0, c1, and so on.
fn push_host(count: u64, text: &mut Vec<u8>) -> Result<(), AllocError> {
    text.extend_from_slice(b"[hosts.a]\nclocks = [")?;
    for number in 0..count {
        let mut digits = NsText::new();
        write_decimal(number, &mut digits);
        text.extend_from_slice(b"{name='c")?;
        text.extend_from_slice(digits.as_slice())?;
        text.extend_from_slice(b"'},")?;
    }
    text.extend_from_slice(b"]\n")
}

// Whether a declaration of so many clocks of host a, and of what is said behind it, is refused so.
fn is_refused_behind(
    alloc: Global,
    count: u64,
    behind: &str,
    number: u32,
    index: u32,
) -> Result<bool, AllocError> {
    let mut text = Vec::new(alloc);
    push_host(count, &mut text)?;
    text.extend_from_slice(behind.as_bytes())?;
    Ok(is_refused(alloc, &text, number, Section::Hosts, index))
}

// One more than there may be, of a table and of a host itself; its name is looked at before.
#[test]
fn one_clock_too_many(rt: HostRuntime) -> Result<(), Fail> {
    assert!(rt; is_refused_behind(rt.alloc(), 65_537, "", 5, 1)?);
    Ok(())
}

#[test]
fn one_host_too_many_for_clocks(rt: HostRuntime) -> Result<(), Fail> {
    assert!(rt; is_refused_behind(rt.alloc(), 65_536, "[hosts.b]\n", 5, 2)?);
    Ok(())
}

#[test]
fn a_name_before_one_clock_too_many(rt: HostRuntime) -> Result<(), Fail> {
    assert!(rt; is_refused_behind(rt.alloc(), 65_536, "[hosts.c0]\n", 4, 2)?);
    Ok(())
}

// Whether a declaration of so many clocks of host a is lawful.
fn is_lawful_with(alloc: Global, count: u64) -> Result<bool, AllocError> {
    let mut text = Vec::new(alloc);
    push_host(count, &mut text)?;
    Ok(match read_decl(alloc, &text) {
        Ok(decl) => decl.hosts.len() == 1 && decl.clocks.len() as u64 == count,
        Err(_) => false,
    })
}

#[test]
fn as_many_clocks_as_may_be(rt: HostRuntime) -> Result<(), Fail> {
    assert!(rt; is_lawful_with(rt.alloc(), 65_536)?);
    Ok(())
}
