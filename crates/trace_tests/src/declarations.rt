ghost use Rattle.decl.specs.Declaration.{HasLawfulLabels, IsDeclaration, declaration_of};

use decl::{Decl, DeclError, IpVersion, Section, TraceKind, read_decl};
use std::alloc::Global;
use std::test::*;

// What a declaration is to say: the names of hosts; each clock's name, short, long, early and late; each clock's host,
// gap and offset; addresses with their hosts; each label's name, host, clock and kind; links; the bytes of a payload;
// the window; the source.
#[derive(Clone, Copy)]
pub(crate) struct Wanted {
    pub(crate) hosts: &'static [&'static str],
    pub(crate) clocks: &'static [(&'static str, u32, u32, u64, u64)],
    pub(crate) owners: &'static [(u32, u64, i64)],
    pub(crate) addresses: &'static [(u32, u32)],
    pub(crate) labels: &'static [(&'static str, u32, u32, TraceKind)],
    pub(crate) links: &'static [(u32, u32, u64, Option<u64>)],
    pub(crate) payload_bytes: u8,
    pub(crate) tcp_options: bool,
    pub(crate) fragments: bool,
    pub(crate) window: Option<u64>,
    pub(crate) source: Option<u32>,
}

pub(crate) const NOTHING: Wanted = Wanted {
    hosts: &[],
    clocks: &[],
    owners: &[],
    addresses: &[],
    labels: &[],
    links: &[],
    payload_bytes: 0,
    tcp_options: false,
    fragments: false,
    window: None,
    source: None,
};

fn are_clocks(decl: &Decl, wanted: &Wanted) -> bool {
    decl.clocks.len() == wanted.clocks.len()
        && decl.clocks.iter().zip(wanted.clocks).all(|(clock, one)| {
            clock.name.bytes() == one.0.as_bytes()
                && clock.rate.short() == one.1
                && clock.rate.long() == one.2
                && clock.early.get() == one.3
                && clock.late.get() == one.4
        })
}

fn are_hosts(decl: &Decl, wanted: &Wanted) -> bool {
    decl.hosts.len() == wanted.hosts.len()
        && decl
            .hosts
            .iter()
            .zip(wanted.hosts)
            .all(|(host, one)| host.bytes() == one.as_bytes())
}

fn are_owners(decl: &Decl, wanted: &Wanted) -> bool {
    decl.owners.len() == wanted.owners.len()
        && decl.owners.iter().zip(wanted.owners).all(|(owner, one)| owner.host == one.0
            && owner.gap.get() == one.1
            && owner.offset == one.2)
}

fn are_addresses(decl: &Decl, wanted: &Wanted) -> bool {
    decl.addresses.list().len() == wanted.addresses.len()
        && decl.addresses.list().iter().zip(wanted.addresses).all(|(address, one)| {
            address.address == u128::from(one.0)
                && address.host == one.1
                && decl.host_of(IpVersion::V4, address.address) == Some(one.1)
        })
}

fn are_labels(decl: &Decl, wanted: &Wanted) -> bool {
    decl.labels.len() == wanted.labels.len()
        && decl.labels.iter().zip(wanted.labels).all(|(label, one)| {
            label.name.bytes() == one.0.as_bytes()
                && label.host == one.1
                && label.clock == one.2
                && label.kind == one.3
        })
}

// Whether each label is found by its name, and none by a name that none has.
fn finds_labels(decl: &Decl, wanted: &Wanted) -> bool
    requires { HasLawfulLabels (declaration_of decl.now) }
{
    for (place, one) in wanted.labels.iter().enumerate() {
        if decl.label_at(one.0.as_bytes()) != Some(place) {
            return false;
        }
    }
    decl.label_at(b"?").is_none()
}

fn is_same(wanted: Option<u64>, found: Option<u64>) -> bool {
    wanted == found
}

fn are_links(decl: &Decl, wanted: &Wanted) -> bool {
    decl.links.list().len() == wanted.links.len()
        && decl.links.list().iter().zip(wanted.links).all(|(link, one)| {
            let (least, most) = decl.link_of(one.0, one.1);
            link.from == one.0
                && link.to == one.1
                && link.least.get() == one.2
                && is_same(one.3, link.most.map(|most| most.get()))
                && least.get() == one.2
                && is_same(one.3, most.map(|most| most.get()))
        })
}

// Whether a declaration says all that is wanted.
fn says_all(decl: &Decl, wanted: &Wanted) -> bool
    requires { IsDeclaration (declaration_of decl.now) }
{
    are_hosts(decl, wanted)
        && are_clocks(decl, wanted)
        && are_owners(decl, wanted)
        && are_addresses(decl, wanted)
        && are_labels(decl, wanted)
        && finds_labels(decl, wanted)
        && are_links(decl, wanted)
        && decl.payload_bytes == wanted.payload_bytes
        && decl.tcp_options == wanted.tcp_options
        && decl.fragments == wanted.fragments
        && is_same(wanted.window, decl.window.map(|window| window.get()))
        && decl.source == wanted.source
}

pub(crate) fn says(alloc: Global, text: &str, wanted: &Wanted) -> bool {
    match read_decl(alloc, text.as_bytes()) {
        Ok(decl) => says_all(&decl, wanted),
        Err(_) => false,
    }
}

pub(crate) fn is_refused(
    alloc: Global,
    bytes: &[u8],
    number: u32,
    section: Section,
    index: u32,
) -> bool {
    match read_decl(alloc, bytes) {
        Ok(_) => false,
        Err(e) => {
            e == DeclError::Fault {
                number,
                section,
                index,
            }
        }
    }
}

const WHOLE: &str =
    "payload_bytes = 16\nsource = \"b\"\ntcp_options = true\nwindow = 4611686018427387903\n\n[hosts.c]\noffset = 4611686018427387903\naddresses = []\n\n[hosts.b]\n\
    addresses = [\"10.0.0.2\", \"0.0.0.0\"]\nlate = 7\n\n[hosts.a-1]\nshort = 999999999\nlong = 1000000000\n\
    early = 4611686018427387903\naddresses = [\"255.255.255.255\"]\n\n[labels.x]\nhost = \"c\"\nkind = \"log\"\n\n\
    [labels.B]\nhost = \"b\"\nkind = \"capture\"\n\n[[links]]\nfrom = \"b\"\nto = \"a-1\"\nleast = 5\nmost = 9\n\n\
    [[links]]\nfrom = \"a-1\"\nto = \"b\"\n\n[[links]]\nfrom = \"c\"\nto = \"c\"\nleast = 4611686018427387903\n\
    most = 0\n";

const WHOLE_SAYS: Wanted = Wanted {
    hosts: &["a-1", "b", "c"],
    clocks: &[
        (
            "a-1",
            999_999_999,
            1_000_000_000,
            4_611_686_018_427_387_903,
            0,
        ),
        ("b", 0, 0, 0, 7),
        ("c", 0, 0, 0, 0),
    ],
    owners: &[(0, 0, 0), (1, 0, 0), (2, 0, 4_611_686_018_427_387_903)],
    addresses: &[(0xffff_ffff, 0), (0x0a00_0002, 1), (0, 1)],
    labels: &[("B", 1, 1, TraceKind::Capture), ("x", 2, 2, TraceKind::Log)],
    links: &[
        (1, 0, 5, Some(9)),
        (0, 1, 0, None),
        (2, 2, 4_611_686_018_427_387_903, Some(0)),
    ],
    payload_bytes: 16,
    tcp_options: true,
    fragments: false,
    window: Some(4_611_686_018_427_387_903),
    source: Some(1),
};

const SHORT: &str =
    "\u{feff}payload_bytes = 0x40\r\ntcp_options = false\r\nfragments = true\r\nwindow = 0\r\nhosts = { Z = { offset = -1 }, a = { addresses = ['1.2.3.4'] } } # two\r\nlinks = []\r\n\
    labels.l = { kind = 'log', host = 'Z' }\r\n";

const SHORT_SAYS: Wanted = Wanted {
    hosts: &["Z", "a"],
    clocks: &[("Z", 0, 0, 0, 0), ("a", 0, 0, 0, 0)],
    owners: &[(0, 0, -1), (1, 0, 0)],
    addresses: &[(0x0102_0304, 1)],
    labels: &[("l", 0, 0, TraceKind::Log)],
    links: &[],
    payload_bytes: 64,
    tcp_options: false,
    fragments: true,
    window: Some(0),
    source: None,
};

#[test]
fn lawful(rt: HostRuntime) {
    let cases = [
        ("", NOTHING),
        ("\u{feff}# nothing\n", NOTHING),
        (WHOLE, WHOLE_SAYS),
        (SHORT, SHORT_SAYS),
    ];
    for (text, wanted) in &cases {
        assert!(rt; says(rt.alloc(), text, wanted), "{text}");
    }
}

// Declarations with their first faults.
const FAULTS: [(&str, u32, Section, u32); 87] = [
    ("hosts = ", 1, Section::Top, 0),
    ("x = 1\nx = 2", 1, Section::Top, 0),
    ("\u{feff}\u{feff}", 1, Section::Top, 0),
    ("payload_bytes = 9223372036854775808", 1, Section::Top, 0),
    ("payload_bytes = 65\nx = 1", 2, Section::Top, 0),
    ("hosts = 1\nx = 1", 2, Section::Top, 0),
    ("hosts = []\npayload_bytes = 65", 3, Section::Top, 0),
    ("labels = 1\n[hosts]\na = 1", 3, Section::Top, 0),
    ("links = {}", 3, Section::Top, 0),
    ("payload_bytes = 1.0", 3, Section::Top, 0),
    ("tcp_options = 1", 3, Section::Top, 0),
    ("fragments = [true]", 3, Section::Top, 0),
    (
        "tcp_options = 'true'\npayload_bytes = 65",
        3,
        Section::Top,
        0,
    ),
    ("payload_bytes = '1'", 3, Section::Top, 0),
    ("source = 1\npayload_bytes = 65", 3, Section::Top, 0),
    ("payload_bytes = 65\n[hosts]\na = 1", 5, Section::Top, 0),
    ("payload_bytes = -1", 5, Section::Top, 0),
    ("window = 1.5\npayload_bytes = 65", 3, Section::Top, 0),
    ("window = -1", 5, Section::Top, 0),
    (
        "window = 4611686018427387904\nhosts = { a = 1 }",
        5,
        Section::Top,
        0,
    ),
    ("offset = 1", 2, Section::Top, 0),
    ("[hosts.a]\nwindow = 1", 2, Section::Hosts, 1),
    ("[hosts.a]\noffset = '1'\nlong = -1", 3, Section::Hosts, 1),
    (
        "[hosts.a]\noffset = 4611686018427387904\naddresses = ['x']",
        5,
        Section::Hosts,
        1,
    ),
    (
        "[hosts.a]\n[hosts.b]\noffset = -4611686018427387904",
        5,
        Section::Hosts,
        2,
    ),
    (
        "[hosts.a]\noffset = -9223372036854775808",
        5,
        Section::Hosts,
        1,
    ),
    ("hosts = { a = 1, b = { x = 1 } }", 3, Section::Hosts, 1),
    ("[hosts.a]\nshort = 'x'\nspeed = 1", 2, Section::Hosts, 1),
    ("[hosts.a]\nshort = 1.5\nlong = -1", 3, Section::Hosts, 1),
    ("[hosts.a]\naddresses = ['x', 1]", 3, Section::Hosts, 1),
    ("[hosts.a]\naddresses = '10.0.0.1'", 3, Section::Hosts, 1),
    ("[hosts.'a b']\nshort = -1", 4, Section::Hosts, 1),
    ("[hosts.'']", 4, Section::Hosts, 1),
    ("[hosts.'a#1']", 4, Section::Hosts, 1),
    (
        "[hosts.a123456789b123456789c123456789d1]\n[hosts.a123456789b123456789c123456789d12]",
        4,
        Section::Hosts,
        2,
    ),
    (
        "[hosts.a]\n[hosts.b]\nshort = 1000000000\naddresses = ['x']",
        5,
        Section::Hosts,
        2,
    ),
    ("[hosts.a]\nshort = -1", 5, Section::Hosts, 1),
    ("[hosts.a]\nlong = 1000000001", 5, Section::Hosts, 1),
    (
        "[hosts.a]\nearly = 4611686018427387904",
        5,
        Section::Hosts,
        1,
    ),
    ("[hosts.a]\nlate = -1", 5, Section::Hosts, 1),
    ("[hosts.a]\naddresses = ['10.0.0.01']", 6, Section::Hosts, 1),
    (
        "[hosts.a]\naddresses = ['10.0.0.256']",
        6,
        Section::Hosts,
        1,
    ),
    ("[hosts.a]\naddresses = ['10.0.0']", 6, Section::Hosts, 1),
    ("[hosts.a]\naddresses = ['1.2.3.4.5']", 6, Section::Hosts, 1),
    ("[hosts.a]\naddresses = ['1.2.3.4 ']", 6, Section::Hosts, 1),
    ("[hosts.a]\naddresses = ['']", 6, Section::Hosts, 1),
    (
        "[hosts.a]\naddresses = ['10.0.0.1', '10.0.0.1']",
        6,
        Section::Hosts,
        1,
    ),
    (
        "[hosts.a]\naddresses = ['10.0.0.1']\n[hosts.b]\naddresses = ['10.0.0.1']",
        6,
        Section::Hosts,
        2,
    ),
    ("[hosts.a]\naddresses6 = ['::1']", 6, Section::Hosts, 1),
    (
        "[hosts.a]\naddresses6 = ['fd00:0:0:0:0:0::2']",
        6,
        Section::Hosts,
        1,
    ),
    (
        "[hosts.a]\naddresses6 = ['0:0:0:0:0:0:10.0.0.1']",
        6,
        Section::Hosts,
        1,
    ),
    (
        "[hosts.a]\naddresses6 = ['fd00:0:0:0:0:0:1']",
        6,
        Section::Hosts,
        1,
    ),
    (
        "[hosts.a]\naddresses6 = ['fd00:0:0:0:0:0:0:00001']",
        6,
        Section::Hosts,
        1,
    ),
    (
        "[hosts.a]\naddresses6 = ['fd00:0:0:0:0:0:0:1', 'FD00:0000:0:0:0:0:0:1']",
        6,
        Section::Hosts,
        1,
    ),
    (
        "[hosts.a]\naddresses6 = ['0:0:0:0:0:0:a00:1']\n[hosts.b]\naddresses6 = ['0:0:0:0:0:0:a00:1']",
        6,
        Section::Hosts,
        2,
    ),
    ("[hosts.a]\naddresses6 = ['x', 1]", 3, Section::Hosts, 1),
    ("[hosts.a]\naddresses6 = 'x'", 3, Section::Hosts, 1),
    (
        "[hosts.b]\nx = 1\n[hosts.a]\nlong = -1",
        5,
        Section::Hosts,
        1,
    ),
    ("[hosts.a]\n[hosts.B]\nlong = -1", 5, Section::Hosts, 1),
    (
        "[labels.a]\nhost = 'x'\n[hosts.a]\naddresses = ['x']",
        6,
        Section::Hosts,
        1,
    ),
    ("labels = { a = [] }", 3, Section::Labels, 1),
    ("[labels.a]\nhost = 'x'", 2, Section::Labels, 1),
    ("[labels.a]\nkind = 1", 2, Section::Labels, 1),
    (
        "[labels.a]\nhost = 1\nkind = 'log'\nport = 1",
        2,
        Section::Labels,
        1,
    ),
    (
        "[labels.'a b']\nhost = 'a'\nkind = 1",
        3,
        Section::Labels,
        1,
    ),
    (
        "[labels.a]\nhost = 'x'\nkind = 'log'",
        4,
        Section::Labels,
        1,
    ),
    (
        "[hosts.a]\n[labels.a]\nhost = 'a'\nkind = 'pcap'",
        4,
        Section::Labels,
        1,
    ),
    (
        "[hosts.a]\n[labels.a]\nhost = 'a'\nkind = 'log'\n[labels.'b c']\nhost = 'a'\nkind = 'log'",
        4,
        Section::Labels,
        2,
    ),
    (
        "links = [1]\n[labels.a]\nhost = ''\nkind = ''",
        4,
        Section::Labels,
        1,
    ),
    ("links = [1, 2]", 3, Section::Links, 1),
    ("[[links]]\nfrom = 1", 2, Section::Links, 1),
    ("[[links]]\nto = 'x'\nleast = -1", 2, Section::Links, 1),
    (
        "[[links]]\nfrom = 'x'\nto = 1\nroute = 1",
        2,
        Section::Links,
        1,
    ),
    (
        "[[links]]\nfrom = 'x'\nto = 'x'\nleast = '1'",
        3,
        Section::Links,
        1,
    ),
    (
        "[[links]]\nfrom = 'x'\nto = 'x'\nmost = -1",
        4,
        Section::Links,
        1,
    ),
    (
        "links = [{ from = 'a', to = 'a' }, { from = 'a', to = 'x' }]\nhosts.a = {}",
        4,
        Section::Links,
        2,
    ),
    (
        "links = [{ from = 'a', to = 'b' }, { from = 'b', to = 'a' }, { from = 'a', to = 'b', least = -1 }]\nhosts.a = {}\nhosts.b = {}",
        4,
        Section::Links,
        3,
    ),
    (
        "links = [{ from = 'a', to = 'a', least = -1 }, 2]\nhosts.a = {}",
        5,
        Section::Links,
        1,
    ),
    (
        "links = [{ from = 'a', to = 'a', most = 4611686018427387904 }]\nhosts.a = {}",
        5,
        Section::Links,
        1,
    ),
    (
        "links = [{ from = 'a', to = 'a', least = 4611686018427387904 }]\nhosts.a = {}",
        5,
        Section::Links,
        1,
    ),
    ("source = 'a'\nlinks = [1]", 3, Section::Links, 1),
    ("source = 'a'", 7, Section::Top, 0),
    ("source = ''\n[hosts.a]", 7, Section::Top, 0),
    ("source = 'a'\n[hosts.a]\nshort = 1", 7, Section::Top, 0),
    ("source = 'a'\n[hosts.a]\nlong = 1", 7, Section::Top, 0),
    (
        "source = 'a'\n[hosts.a]\nlong = 1\n[hosts.b]\nlong = -1",
        5,
        Section::Hosts,
        2,
    ),
    (
        "[hosts.a]\naddresses = ['10.0.0.1']\n[hosts.b]\naddresses = ['10.0.0.2', '10.0.0.1']\nshort = 1.0",
        3,
        Section::Hosts,
        2,
    ),
];

#[test]
fn first_faults(rt: HostRuntime) {
    for (text, number, section, index) in &FAULTS {
        assert!(rt;
            is_refused(rt.alloc(), text.as_bytes(), *number, *section, *index),
            "{text}"
        );
    }
}

#[test]
fn bytes_alone(rt: HostRuntime) -> Result<(), Fail> {
    assert!(rt; is_refused(rt.alloc(), b"# \xff", 1, Section::Top, 0));
    let mut bytes = Vec::new(rt.alloc());
    bytes.resize((1 << 24) + 1, b' ')?;
    assert!(rt; is_refused(rt.alloc(), &bytes, 8, Section::Top, 0));
    Ok(())
}

#[test]
fn undeclared(rt: HostRuntime) -> Result<(), Fail> {
    let decl = read_decl(rt.alloc(), WHOLE.as_bytes()).map_err(|_| "refused")?;
    assert!(rt; decl.host_of(IpVersion::V4, 0x0a00_0003).is_none());
    let (least, most) = decl.link_of(0, 0);
    assert!(rt; least.get() == 0 && most.is_none());
    Ok(())
}

#[test]
fn faults_are_told(rt: HostRuntime) -> Result<(), Fail> {
    let fault = DeclError::Fault {
        number: 6,
        section: Section::Hosts,
        index: 2,
    };
    assert!(rt; format!(in rt.alloc(); "{fault}")?.as_str() == "6 hosts 2");
    Ok(())
}

// Addresses of IPv6 of two hosts, of which one is spelled in another way than its number; the second host has an address of
// IPv4 of the same number.
const WIDE: &str =
    "[hosts.b]\naddresses6 = ['fd00:0:0:0:0:0:0:0002', '0:0:0:0:0:0:a00:1']\naddresses = ['10.0.0.1']\n\
    [hosts.a]\naddresses6 = ['Fd00:0:0:0:0:0:0:1']";

const WIDE_WANTED: [(u128, u32); 3] = [
    (0xfd00_0000_0000_0000_0000_0000_0000_0001, 0),
    (0xfd00_0000_0000_0000_0000_0000_0000_0002, 1),
    (0x0a00_0001, 1),
];

fn says_wide(alloc: Global) -> bool {
    match read_decl(alloc, WIDE.as_bytes()) {
        Ok(decl) => {
            decl.addresses6.list().len() == WIDE_WANTED.len()
                && decl.addresses6.list().iter().zip(&WIDE_WANTED).all(|(address, one)| {
                    address.address == one.0
                        && address.host == one.1
                        && decl.host_of(IpVersion::V6, one.0) == Some(one.1)
                })
                && decl.host_of(IpVersion::V6, 1).is_none()
                && decl.host_of(IpVersion::V4, 0x0a00_0001) == Some(1)
        }
        Err(_) => false,
    }
}

#[test]
fn wide_addresses(rt: HostRuntime) {
    assert!(rt; says_wide(rt.alloc()));
}
