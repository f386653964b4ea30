// Sessions over traces of several segments: of hosts on both sides of a box that passes packets on, and of logs.
use crate::fixtures::{NO_EVENT, ONE_EVENT, TWO_EVENTS, TWO_MESSAGES, replies_over};
use ports::MemFiles;
use session::Stop;
use shared_fixtures::{added, files_of};
use std::alloc::{AllocError, Global};
use std::test::*;

// A host on each side of a box, which has an address on each, links over both sides, and what stands between.
macro_rules! beside_a_box {
    ($labels:literal) => {
        concat!(
            "[hosts.a]\naddresses = [\"10.3.1.2\"]\n[hosts.f]\naddresses = [\"10.3.2.2\"]\n\
            [hosts.n]\naddresses = [\"10.3.1.1\", \"10.3.2.1\"]\n",
            $labels,
            "[[links]]\nfrom = \"a\"\nto = \"n\"\nleast = 10\nmost = 20\n\
            [[links]]\nfrom = \"n\"\nto = \"a\"\nleast = 10\nmost = 20\n\
            [[links]]\nfrom = \"n\"\nto = \"f\"\nleast = 5\nmost = 8\n\
            [[links]]\nfrom = \"f\"\nto = \"n\"\nleast = 5\nmost = 8\n"
        )
    };
}

// The box puts its own address in the place of the first host's.
const TRANSLATED: &str = beside_a_box!(
    "[labels.a]\nhost = \"a\"\nkind = \"capture\"\nsegment = \"lan\"\n\
    [labels.n_lan]\nhost = \"n\"\nkind = \"capture\"\nsegment = \"lan\"\nbeyond = [\"10.3.1.0/24\"]\n\
    [labels.n_wan]\nhost = \"n\"\nkind = \"capture\"\nsegment = \"wan\"\n\
    [labels.f]\nhost = \"f\"\nkind = \"capture\"\nsegment = \"wan\"\n"
);

// It passes packets on as they are.
const ROUTED: &str = beside_a_box!(
    "[labels.a]\nhost = \"a\"\nkind = \"capture\"\nsegment = \"lan\"\n\
    [labels.n_lan]\nhost = \"n\"\nkind = \"capture\"\nsegment = \"lan\"\nbeyond = [\"10.3.1.0/24\"]\n\
    [labels.n_wan]\nhost = \"n\"\nkind = \"capture\"\nbeyond = [\"10.3.2.0/24\"]\n\
    [labels.f]\nhost = \"f\"\nkind = \"capture\"\n"
);

// The same where no segments are told.
const UNTOLD: &str = beside_a_box!(
    "[labels.a]\nhost = \"a\"\nkind = \"capture\"\n\
    [labels.n_lan]\nhost = \"n\"\nkind = \"capture\"\nbeyond = [\"10.3.1.0/24\"]\n\
    [labels.n_wan]\nhost = \"n\"\nkind = \"capture\"\nbeyond = [\"10.3.2.0/24\"]\n\
    [labels.f]\nhost = \"f\"\nkind = \"capture\"\n"
);

// The same over one capture of all interfaces of the box.
const AT_ONCE: &str = beside_a_box!(
    "[labels.a]\nhost = \"a\"\nkind = \"capture\"\nsegment = \"lan\"\n\
    [labels.n_lan]\nhost = \"n\"\nkind = \"capture\"\nsegment = \"lan\"\ninterface = 2\nbeyond = [\"10.3.1.0/24\"]\n\
    [labels.n_wan]\nhost = \"n\"\nkind = \"capture\"\nsegment = \"wan\"\ninterface = 3\nbeyond = [\"10.3.2.0/24\"]\n\
    [labels.f]\nhost = \"f\"\nkind = \"capture\"\nsegment = \"wan\"\n"
);

// Logs of two hosts on two segments; the clock of the second host is some 1,000 ns ahead.
const LOGS: &str =
    "[hosts.a]\n[hosts.b]\n[labels.ax]\nhost = \"a\"\nkind = \"log\"\nsegment = \"x\"\n\
    [labels.ay]\nhost = \"a\"\nkind = \"log\"\nsegment = \"y\"\n\
    [labels.bx]\nhost = \"b\"\nkind = \"log\"\nsegment = \"x\"\n\
    [labels.by]\nhost = \"b\"\nkind = \"log\"\nsegment = \"y\"\n\
    [[links]]\nfrom = \"a\"\nto = \"b\"\nleast = 10\nmost = 20\n";

// The same with a window.
const TIMED_LOGS: &str = "window = 20\n[hosts.a]\n[hosts.b]\noffset = 1000\n\
    [labels.ax]\nhost = \"a\"\nkind = \"log\"\nsegment = \"x\"\n\
    [labels.ay]\nhost = \"a\"\nkind = \"log\"\nsegment = \"y\"\n\
    [labels.bx]\nhost = \"b\"\nkind = \"log\"\nsegment = \"x\"\n\
    [labels.by]\nhost = \"b\"\nkind = \"log\"\nsegment = \"y\"\n\
    [[links]]\nfrom = \"a\"\nto = \"b\"\nleast = 10\nmost = 20\n";

// UDP from 10.3.1.2:5000 to 10.3.2.2:6000, and back.
const OVER: [u8; 28] = [
    0x45, 0, 0, 28, 0, 7, 0, 0, 64, 17, 0, 0, 10, 3, 1, 2, 10, 3, 2, 2, 0x13, 0x88, 0x17, 0x70, 0,
    8, 0, 0,
];

const BACK: [u8; 28] = [
    0x45, 0, 0, 28, 0, 8, 0, 0, 64, 17, 0, 0, 10, 3, 2, 2, 10, 3, 1, 2, 0x17, 0x70, 0x13, 0x88, 0,
    8, 0, 0,
];

// The same behind the box that translates: from its port 40000, and back to that.
const OVER_BEHIND: [u8; 28] = [
    0x45, 0, 0, 28, 0, 7, 0, 0, 64, 17, 0, 0, 10, 3, 2, 1, 10, 3, 2, 2, 0x9c, 0x40, 0x17, 0x70, 0,
    8, 0, 0,
];

const BACK_BEHIND: [u8; 28] = [
    0x45, 0, 0, 28, 0, 8, 0, 0, 64, 17, 0, 0, 10, 3, 2, 2, 10, 3, 2, 1, 0x17, 0x70, 0x9c, 0x40, 0,
    8, 0, 0,
];

// Second cooked headers of the interfaces with the indices 2 and 3.
const ON_LAN: [u8; 20] = [8, 0, 0, 0, 0, 0, 0, 2, 0, 1, 0, 6, 2, 0, 0, 0, 0, 2, 0, 0];

const ON_WAN: [u8; 20] = [8, 0, 0, 0, 0, 0, 0, 3, 0, 1, 0, 6, 2, 0, 0, 0, 0, 3, 0, 0];

// A packet by when it was captured and what stands before it in its frame.
type Captured = (u32, &'static [u8], &'static [u8; 28]);

// Captures by their paths and types of link.
const CAPTURES: [(&str, u16, &[Captured]); 7] = [
    ("a", 101, &[(100, &[], &OVER), (195, &[], &BACK)]),
    ("n-lan", 101, &[(1000, &[], &OVER), (1060, &[], &BACK)]),
    ("n-wan", 101, &[(1010, &[], &OVER), (1050, &[], &BACK)]),
    ("f", 101, &[(5000, &[], &OVER), (5027, &[], &BACK)]),
    (
        "n-wan-behind",
        101,
        &[(1010, &[], &OVER_BEHIND), (1050, &[], &BACK_BEHIND)],
    ),
    (
        "f-behind",
        101,
        &[(5000, &[], &OVER_BEHIND), (5027, &[], &BACK_BEHIND)],
    ),
    (
        "n-any",
        276,
        &[
            (1000, &ON_LAN, &OVER),
            (1010, &ON_WAN, &OVER),
            (1050, &ON_WAN, &BACK),
            (1060, &ON_LAN, &BACK),
        ],
    ),
];

// Logs by their paths.
const TEXTS: [(&str, &str); 9] = [
    ("ax.csv", "100,send,m,\n"),
    ("ay.csv", "300,send,m,\n"),
    ("bx.csv", "1115,receive,m,\n"),
    ("by.csv", "1320,receive,m,\n"),
    ("again.csv", "1400,receive,m,\n"),
    ("two-ax.csv", "100,send,m,\n150,send,m,\n"),
    ("two-bx.csv", "1115,receive,m,\n1165,receive,m,\n"),
    ("between.csv", "132,send,m,\n"),
    ("between-by.csv", "1150,receive,m,\n"),
];

// The report where each packet is one message on each side of the box.
const JOINED_REPORT: &str =
    "{\"ambiguous\":[],\"consistent\":true,\"events\":8,\"messages\":4,\"nokey\":{\"fragment\":0,\"header\":0,\
    \"length\":0,\"link\":0,\"local\":0,\"other\":0,\"short\":0,\"side\":0},\"unmatched\":0}\n";

// The same where the box's capture came under both of its labels.
const AT_ONCE_REPORT: &str =
    "{\"ambiguous\":[],\"consistent\":true,\"events\":12,\"messages\":4,\"nokey\":{\"fragment\":0,\"header\":0,\
    \"interface\":4,\"length\":0,\"link\":0,\"local\":0,\"other\":0,\"short\":0,\"side\":0},\"unmatched\":0}\n";

// The report where each packet was sent twice and received twice.
const UNTOLD_REPORT: &str =
    "{\"ambiguous\":[{\"key\":\"udp 10.3.1.2:5000 10.3.2.2:6000 id 7 length 8 payload -\",\
    \"receives\":[\"f#1\",\"n_lan#1\"],\"sends\":[\"a#1\",\"n_wan#1\"]},\
    {\"key\":\"udp 10.3.2.2:6000 10.3.1.2:5000 id 8 length 8 payload -\",\
    \"receives\":[\"a#2\",\"n_wan#2\"],\"sends\":[\"f#2\",\"n_lan#2\"]}],\
    \"consistent\":true,\"events\":8,\"messages\":0,\"nokey\":{\"fragment\":0,\"header\":0,\
    \"length\":0,\"link\":0,\"local\":0,\"other\":0,\"short\":0,\"side\":0},\"unmatched\":0}\n";

// The report where a word was received twice on one of two segments.
const LOGS_REPORT: &str =
    "{\"ambiguous\":[{\"key\":\"log m\",\"receives\":[\"bx#1\",\"bx#2\"],\"sends\":[\"ax#1\"]}],\
    \"consistent\":true,\"events\":5,\"messages\":1,\"nokey\":{\"fragment\":0,\"header\":0,\
    \"length\":0,\"link\":0,\"local\":0,\"other\":0,\"short\":0,\"side\":0},\"unmatched\":0}\n";

// A session over a declaration: lines with their replies.
struct Case {
    declaration: &'static str,
    lines: &'static [(&'static str, &'static str)],
}

const CASES: [Case; 6] = [
    // The clock of the box ties the hosts: 15 to 20 ns to the box, 10 ns there, and 5 to 8 ns from it.
    Case {
        declaration: TRANSLATED,
        lines: &[
            ("add a a", TWO_EVENTS),
            ("add n_lan n-lan", TWO_MESSAGES),
            ("add f f-behind", TWO_EVENTS),
            ("interval a#1 f#1", "interval -inf +inf\n"),
            ("add n_wan n-wan-behind", TWO_MESSAGES),
            (
                "interval a#1 n_lan#1",
                "interval 15.000000000 20.000000000\n",
            ),
            ("interval a#1 f#1", "interval 30.000000000 38.000000000\n"),
            ("order f#2 a#2", "order before\n"),
            ("report", JOINED_REPORT),
        ],
    },
    Case {
        declaration: ROUTED,
        lines: &[
            ("add n_wan n-wan", TWO_EVENTS),
            ("add n_lan n-lan", TWO_EVENTS),
            ("add a a", TWO_MESSAGES),
            ("add f f", TWO_MESSAGES),
            ("interval a#1 f#1", "interval 30.000000000 38.000000000\n"),
            ("report", JOINED_REPORT),
        ],
    },
    Case {
        declaration: UNTOLD,
        lines: &[
            ("add a a", TWO_EVENTS),
            ("add n_lan n-lan", TWO_MESSAGES),
            ("add n_wan n-wan", added!(2, 0, 2, 0)),
            ("add f f", TWO_EVENTS),
            ("interval a#1 f#1", "interval -inf +inf\n"),
            ("report", UNTOLD_REPORT),
        ],
    },
    // Packets of the other side are events too, and have no key.
    Case {
        declaration: AT_ONCE,
        lines: &[
            ("add a a", TWO_EVENTS),
            ("add n_lan n-any", added!(4, 2, 0, 0)),
            ("add n_wan n-any", added!(4, 0, 0, 0)),
            ("add f f", TWO_MESSAGES),
            (
                "interval n_lan#1 n_wan#2",
                "interval 10.000000000 10.000000000\n",
            ),
            ("interval a#1 f#1", "interval 30.000000000 38.000000000\n"),
            ("report", AT_ONCE_REPORT),
        ],
    },
    // One word on two segments is two messages, whatever comes of the other one.
    Case {
        declaration: LOGS,
        lines: &[
            ("add ax ax.csv", ONE_EVENT),
            ("add ay ay.csv", ONE_EVENT),
            ("add bx bx.csv", added!(1, 1, 0, 0)),
            ("add by by.csv", added!(1, 1, 0, 0)),
            ("interval ax#1 bx#1", "interval 10.000000000 15.000000000\n"),
            ("interval ay#1 by#1", "interval 15.000000000 20.000000000\n"),
            ("add bx again.csv", added!(1, 0, 1, 0)),
            ("interval ax#1 bx#1", "interval 5.000000000 15.000000000\n"),
            ("report", LOGS_REPORT),
        ],
    },
    // An event of another segment joins no groups, though it happened between them.
    Case {
        declaration: TIMED_LOGS,
        lines: &[
            ("add ax two-ax.csv", TWO_EVENTS),
            ("add bx two-bx.csv", TWO_MESSAGES),
            ("add ay between.csv", ONE_EVENT),
            ("add by between-by.csv", added!(1, 1, 0, 0)),
            ("add ax empty.csv", NO_EVENT),
            ("add ax between.csv", added!(1, 0, 2, 0)),
            ("interval ay#1 by#1", "interval 10.000000000 20.000000000\n"),
        ],
    },
];

// A header of little-endian nanoseconds, but for the type of the link.
const HEADER: [u8; 20] = [
    0x4d, 0x3c, 0xb2, 0xa1, 2, 0, 4, 0, 0, 0, 0, 0, 0, 0, 0, 0, 0, 0, 4, 0,
];

// Appends the record of a packet.
fn push_record(captured: &Captured, bytes: &mut Vec<u8>) -> Result<(), AllocError> {
    let (stamp, front, packet) = captured;
    let size = u32::try_from(front.len().wrapping_add(packet.len())).unwrap_or(0);
    bytes.extend_from_slice(&[0, 0, 0, 0])?;
    bytes.extend_from_slice(&stamp.to_le_bytes())?;
    bytes.extend_from_slice(&size.to_le_bytes())?;
    bytes.extend_from_slice(&size.to_le_bytes())?;
    bytes.extend_from_slice(front)?;
    bytes.extend_from_slice(*packet)
}

// A capture of these packets.
fn capture_of(alloc: Global, link: u16, packets: &[Captured]) -> Result<Vec<u8>, AllocError> {
    let mut bytes = Vec::from_slice(alloc, &HEADER)?;
    bytes.extend_from_slice(&u32::from(link).to_le_bytes())?;
    for captured in packets {
        push_record(captured, &mut bytes)?;
    }
    Ok(bytes)
}

fn put_captures(alloc: Global, files: &mut MemFiles) -> Result<(), AllocError> {
    for (path, link, packets) in &CAPTURES {
        let capture = capture_of(alloc, *link, packets)?;
        files.put(path, &capture)?;
    }
    files.put("empty.csv", &[])
}

// Whether a session gives these replies.
fn replies(alloc: Global, case: &Case) -> Result<bool, Stop> {
    let mut files = files_of(alloc, &TEXTS, &[])?;
    put_captures(alloc, &mut files)?;
    replies_over(alloc, case.declaration, &mut files, case.lines)
}

#[test]
fn segments(rt: HostRuntime) {
    for (k, case) in CASES.iter().enumerate() {
        assert!(rt; replies(rt.alloc(), case) == Ok(true), "case {k}");
    }
}
