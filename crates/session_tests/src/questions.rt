// Sessions over logs and captures, with the replies to all that is asked of them.
use crate::fixtures::{MERGED, ONE_EVENT, TWO_EVENTS, TWO_MESSAGES, replies_over};
use ports::MemFiles;
use session::Stop;
use shared_fixtures::{
    APART_PROOF, CYCLE, EMPTY_REPORT, TWO_LOGS_DECLARATION, TWO_LOGS_PROOF, added, files_of,
};
use std::alloc::{AllocError, Global};
use std::test::*;

// A source and another host with a log each, and a link from the one to the other.
const SOURCE_DECLARATION: &str =
    "source = \"r\"\n[hosts.b]\n[hosts.r]\n[labels.b]\nhost = \"b\"\nkind = \"log\"\n[labels.r]\nhost = \"r\"\nkind = \"log\"\n\
    [[links]]\nfrom = \"r\"\nto = \"b\"\nleast = 10\nmost = 20\n";

// A source whose stamps may be 5 ns early or 7 ns late.
const INEXACT_SOURCE_DECLARATION: &str =
    "source = \"r\"\n[hosts.r]\nearly = 7\nlate = 5\n[labels.r]\nhost = \"r\"\nkind = \"log\"\n";

// Two hosts with an address and a capture each, and no links.
const UNLINKED_CAPTURES_DECLARATION: &str =
    "payload_bytes = 0\n[hosts.a]\naddresses = [\"10.0.0.1\"]\n[hosts.b]\naddresses = [\"10.0.0.2\"]\n\
    [labels.ca]\nhost = \"a\"\nkind = \"capture\"\n[labels.cb]\nhost = \"b\"\nkind = \"capture\"\n";

// What is to blame where the two logs contradict each other: the way there and back takes 90 ns at most, 50 of them by
// the clock of b, and 95 by the clock of a. No least delay heals that, whichever link it is of.
const TWO_LOGS_BLAME: &str =
    "blame delays 3 ns\nblame least none\nblame stamps 2 ns\nblame rates 34482759 ppb\nblame stamps a 3 ns\n\
    blame rates a 52631579 ppb\nblame stamps b 3 ns\nblame rates b 100000000 ppb\nblame delays a b 5 ns\n\
    blame least a b none\nblame delays b a 5 ns\nblame least b a none\nend\n";

// The logs, by their paths.
const LOGS: [(&str, &str); 11] = [
    ("a.csv", "100,send,m1,\n180,receive,m2,\n"),
    ("late.csv", "100,send,m1,\n190,receive,m2,\n"),
    ("later.csv", "100,send,m1,\n195,receive,m2,\n"),
    ("b.csv", "250,receive,m1,\n300,send,m2,\n"),
    ("again.csv", "200,send,m1,\n"),
    ("note.csv", "140,local,,note\n"),
    ("zero.csv", "0,local,,\n"),
    ("b250.csv", "250,receive,m1,\n"),
    ("r1000.csv", "1000,send,m1,\n"),
    ("ties.csv", "7,local,,second\n7,local,,first one\n"),
    (
        "odd.csv",
        "1,send,\"a\"\"b\\\",\n2,send,\"a\"\"b\\\",\n3,receive,\"a\"\"b\\\",\n",
    ),
];

// A header of little-endian nanoseconds and link type Ethernet.
const HEADER: [u8; 24] = [
    0x4d, 0x3c, 0xb2, 0xa1, 2, 0, 4, 0, 0, 0, 0, 0, 0, 0, 0, 0, 0, 0, 4, 0, 1, 0, 0, 0,
];

// Both addresses of Ethernet.
const ADDRESSES: [u8; 12] = [2, 0, 0, 0, 0, 2, 2, 0, 0, 0, 0, 1];

// What follows them in each frame: UDP from 10.0.0.1:5000 to 10.0.0.2:6000, behind a tag of a VLAN and without one.
const TAGGED: [u8; 34] = [
    0x81, 0, 0, 0x64, 8, 0, //
    0x45, 0, 0, 0x1c, 0, 7, 0, 0, 0x40, 0x11, 0, 0, 10, 0, 0, 1, 10, 0, 0, 2, 0x13, 0x88, 0x17,
    0x70, 0, 8, 0, 0, //
];

const PLAIN: [u8; 30] = [
    8, 0, //
    0x45, 0, 0, 0x1c, 0, 7, 0, 0, 0x40, 0x11, 0, 0, 10, 0, 0, 1, 10, 0, 0, 2, 0x13, 0x88, 0x17,
    0x70, 0, 8, 0, 0, //
];

// The same with identification 0, and a fragment.
const REPEATED: [u8; 30] = [
    8, 0, //
    0x45, 0, 0, 0x1c, 0, 0, 0, 0, 0x40, 0x11, 0, 0, 10, 0, 0, 1, 10, 0, 0, 2, 0x13, 0x88, 0x17,
    0x70, 0, 8, 0, 0, //
];

const FRAGMENT: [u8; 30] = [
    8, 0, //
    0x45, 0, 0, 0x1c, 0, 9, 0x20, 0, 0x40, 0x11, 0, 0, 10, 0, 0, 1, 10, 0, 0, 2, 0x13, 0x88, 0x17,
    0x70, 0, 8, 0, 0, //
];

// ARP.
const ARP: [u8; 30] = [
    8, 6, 0, 0, 0, 0, 0, 0, 0, 0, 0, 0, 0, 0, 0, 0, 0, 0, 0, 0, 0, 0, 0, 0, 0, 0, 0, 0, 0, 0,
];

// A segment of TCP that was lost, and the same once more.
const LOST: [u8; 52] = [
    8, 0, //
    0x45, 0, 0, 0x32, 0, 0x64, 0, 0, 0x40, 6, 0, 0, 10, 0, 0, 1, 10, 0, 0, 2, //
    0x13, 0x88, 0, 0x50, 0, 0, 0, 1, 0, 0, 0, 1, 0x50, 0x18, 0x20, 0, 0, 0, 0, 0, //
    0x30, 0x31, 0x32, 0x33, 0x34, 0x35, 0x36, 0x37, 0x38, 0x39, //
];

const SENT_AGAIN: [u8; 52] = [
    8, 0, //
    0x45, 0, 0, 0x32, 0, 0x65, 0, 0, 0x40, 6, 0, 0, 10, 0, 0, 1, 10, 0, 0, 2, //
    0x13, 0x88, 0, 0x50, 0, 0, 0, 1, 0, 0, 0, 1, 0x50, 0x18, 0x20, 0, 0, 0, 0, 0, //
    0x30, 0x31, 0x32, 0x33, 0x34, 0x35, 0x36, 0x37, 0x38, 0x39, //
];

// The frames that each host captured, by their ends.
const FRAMES_A: [&[u8]; 7] = [
    &TAGGED,
    &ARP,
    &REPEATED,
    &REPEATED,
    &FRAGMENT,
    &LOST,
    &SENT_AGAIN,
];

const FRAMES_B: [&[u8]; 4] = [&PLAIN, &REPEATED, &REPEATED, &SENT_AGAIN];

// A session over a declaration: lines with their replies.
struct Case {
    declaration: &'static str,
    lines: &'static [(&'static str, &'static str)],
}

const CASES: [Case; 10] = [
    Case {
        declaration: TWO_LOGS_DECLARATION,
        lines: &[
            ("report", EMPTY_REPORT),
            ("add a a.csv", TWO_EVENTS),
            (
                "report",
                "{\"ambiguous\":[],\"consistent\":true,\"events\":2,\"messages\":0,\"nokey\":{\"fragment\":0,\
                \"header\":0,\"length\":0,\"link\":0,\"local\":0,\"other\":0,\"short\":0,\"side\":0},\
                \"unmatched\":2}\n",
            ),
            ("add b b.csv", TWO_MESSAGES),
            ("merge", MERGED),
            ("prove a#1 b#1", TWO_LOGS_PROOF),
            ("prove a#1 b#3", "refused 28\n"),
            ("blame", "blame none\n"),
            ("time a#1", "refused 29\n"),
            ("time c#1", "refused 28\n"),
            ("times", "refused 29\n"),
            ("times c#1", "refused 28\n"),
            (
                "times a#1",
                "times 4\na#1 0.000000000 0.000000000\na#2 80.000000000 80.000000000\nb#1 10.000000000 20.000000000\n\
                b#2 60.000000000 70.000000000\n",
            ),
            ("add a note.csv", ONE_EVENT),
            ("interval a#1 b#1", "interval 10.000000000 20.000000000\n"),
            ("interval a#1 a#3", "interval 40.000000000 40.000000000\n"),
            (
                "merge",
                "merge 5\n0.000000000 a#1\n10.000000000 b#1\n40.000000000 a#3 note\n60.000000000 b#2\n80.000000000 a#2\n",
            ),
            ("merge a", "refused 20\n"),
            ("time", "refused 20\n"),
            (" times", "refused 20\n"),
            ("times ", "refused 20\n"),
            ("times a#1 b#1", "refused 20\n"),
            ("report ", "refused 20\n"),
            ("blame a", "refused 20\n"),
            ("prove a#1", "refused 20\n"),
        ],
    },
    // A second send of a key: nobody can tell which one was received.
    Case {
        declaration: TWO_LOGS_DECLARATION,
        lines: &[
            ("add a late.csv", TWO_EVENTS),
            ("add b b.csv", TWO_MESSAGES),
            ("interval a#1 b#1", "interval 20.000000000 20.000000000\n"),
            ("add a again.csv", added!(1, 0, 1, 0)),
            ("interval a#1 b#1", "interval 20.000000000 30.000000000\n"),
            (
                "report",
                "{\"ambiguous\":[{\"key\":\"log m1\",\"receives\":[\"b#1\"],\"sends\":[\"a#1\",\"a#3\"]}],\
                \"consistent\":true,\"events\":5,\"messages\":1,\"nokey\":{\"fragment\":0,\"header\":0,\"length\":0,\
                \"link\":0,\"local\":0,\"other\":0,\"short\":0,\"side\":0},\"unmatched\":0}\n",
            ),
        ],
    },
    // No execution: the contradiction in place of an answer, behind the refusals.
    Case {
        declaration: TWO_LOGS_DECLARATION,
        lines: &[
            ("add a later.csv", TWO_EVENTS),
            ("add b b.csv", added!(2, 2, 0, 0, inconsistent)),
            ("merge", CYCLE),
            ("prove a#1 b#1", CYCLE),
            ("prove a#1 b#9", "refused 28\n"),
            ("interval a#1 b#1", CYCLE),
            ("blame", TWO_LOGS_BLAME),
            ("interval a#1 b#1", CYCLE),
            ("time a#1", "refused 29\n"),
            ("times", "refused 29\n"),
            ("times a#1", CYCLE),
            ("times a#9", "refused 28\n"),
            (
                "report",
                "{\"ambiguous\":[],\"consistent\":false,\"events\":4,\"messages\":2,\"nokey\":{\"fragment\":0,\
                \"header\":0,\"length\":0,\"link\":0,\"local\":0,\"other\":0,\"short\":0,\"side\":0},\
                \"unmatched\":0}\n",
            ),
        ],
    },
    // Nothing ties the two clocks.
    Case {
        declaration: TWO_LOGS_DECLARATION,
        lines: &[
            ("add a zero.csv", ONE_EVENT),
            ("add b zero.csv", ONE_EVENT),
            ("interval a#1 b#1", "interval -inf +inf\n"),
            ("order a#1 b#1", "order open\n"),
            ("prove a#1 b#1", APART_PROOF),
            (
                "report",
                "{\"ambiguous\":[],\"consistent\":true,\"events\":2,\"messages\":0,\"nokey\":{\"fragment\":0,\
                \"header\":0,\"length\":0,\"link\":0,\"local\":2,\"other\":0,\"short\":0,\"side\":0},\
                \"unmatched\":0}\n",
            ),
        ],
    },
    // Nothing is declared.
    Case {
        declaration: "",
        lines: &[
            ("merge", "merge 0\n"),
            ("times", "refused 29\n"),
            ("problem", "problem 1\nend\n"),
            ("report", EMPTY_REPORT),
            ("blame", "blame none\n"),
        ],
    },
    // Times by the source's clock, once it has a reading.
    Case {
        declaration: SOURCE_DECLARATION,
        lines: &[
            ("add b b250.csv", ONE_EVENT),
            ("time b#1", "refused 29\n"),
            ("time z#1", "refused 28\n"),
            ("times", "refused 29\n"),
            ("add r r1000.csv", added!(1, 1, 0, 0)),
            ("time b#1", "time 1010.000000000 1020.000000000\n"),
            ("time r#1", "time 1000.000000000 1000.000000000\n"),
            (
                "times",
                "times 2\nb#1 1010.000000000 1020.000000000\nr#1 1000.000000000 1000.000000000\n",
            ),
            (
                "times b#1",
                "times 2\nb#1 0.000000000 0.000000000\nr#1 -20.000000000 -10.000000000\n",
            ),
        ],
    },
    // A source and a host that nothing ties to it.
    Case {
        declaration: SOURCE_DECLARATION,
        lines: &[
            ("add b zero.csv", ONE_EVENT),
            ("add r zero.csv", ONE_EVENT),
            ("time b#1", "time -inf +inf\n"),
            (
                "times",
                "times 2\nb#1 -inf +inf\nr#1 0.000000000 0.000000000\n",
            ),
            (
                "times b#1",
                "times 2\nb#1 0.000000000 0.000000000\nr#1 -inf +inf\n",
            ),
        ],
    },
    // The time of an event is not the stamp alone.
    Case {
        declaration: INEXACT_SOURCE_DECLARATION,
        lines: &[
            ("add r r1000.csv", ONE_EVENT),
            ("time r#1", "time 993.000000000 1005.000000000\n"),
            ("times", "times 1\nr#1 993.000000000 1005.000000000\n"),
        ],
    },
    // At one time by label and number, and a key with a quotation mark and a backslash in it.
    Case {
        declaration: TWO_LOGS_DECLARATION,
        lines: &[
            ("add b ties.csv", TWO_EVENTS),
            ("add a zero.csv", ONE_EVENT),
            (
                "merge",
                "merge 3\n0.000000000 a#1\n0.000000000 b#1 second\n0.000000000 b#2 first one\n",
            ),
            ("add b odd.csv", added!(3, 0, 0, 0)),
            (
                "report",
                "{\"ambiguous\":[{\"key\":\"log a\\\"b\\\\\",\"receives\":[\"b#5\"],\"sends\":[\"b#3\",\"b#4\"]}],\
                \"consistent\":true,\"events\":6,\"messages\":0,\"nokey\":{\"fragment\":0,\"header\":0,\"length\":0,\
                \"link\":0,\"local\":3,\"other\":0,\"short\":0,\"side\":0},\"unmatched\":0}\n",
            ),
        ],
    },
    // Captures of a network as it is.
    Case {
        declaration: UNLINKED_CAPTURES_DECLARATION,
        lines: &[
            ("add ca a.pcap", added!(7, 0, 0, 0)),
            ("add cb b.pcap", added!(4, 2, 0, 0)),
            (
                "report",
                "{\"ambiguous\":[{\"key\":\"udp 10.0.0.1:5000 10.0.0.2:6000 id 0 length 8 payload -\",\
                \"receives\":[\"cb#2\",\"cb#3\"],\"sends\":[\"ca#3\",\"ca#4\"]}],\"consistent\":true,\"events\":11,\
                \"messages\":2,\"nokey\":{\"fragment\":1,\"header\":0,\"length\":0,\"link\":0,\"local\":0,\"other\":1,\
                \"short\":0,\"side\":0},\"unmatched\":1}\n",
            ),
            (
                "problem",
                "problem 1\nclock a 0 0 0 0\nclock b 0 0 0 0\nevent ca#1 a 1000\nevent ca#2 a 2000\nevent ca#3 a 3000\n\
                event ca#4 a 4000\nevent ca#5 a 5000\nevent ca#6 a 6000\nevent ca#7 a 7000\nevent cb#1 b 1000\n\
                event cb#2 b 2000\nevent cb#3 b 3000\nevent cb#4 b 4000\nmessage ca#1 cb#1 0 none\n\
                message ca#7 cb#4 0 none\nend\n",
            ),
        ],
    },
];

// Appends a record of a frame.
fn push_frame(bytes: &mut Vec<u8>, stamp: u32, frame: &[u8]) -> Result<(), AllocError> {
    let size = u32::try_from(ADDRESSES.len().wrapping_add(frame.len())).unwrap_or(0);
    bytes.extend_from_slice(&[0, 0, 0, 0])?;
    bytes.extend_from_slice(&stamp.to_le_bytes())?;
    bytes.extend_from_slice(&size.to_le_bytes())?;
    bytes.extend_from_slice(&size.to_le_bytes())?;
    bytes.extend_from_slice(&ADDRESSES)?;
    bytes.extend_from_slice(frame)
}

// A capture of these frames. The k-th has the stamp of k times 1,000 ns.
fn capture_of(alloc: Global, frames: &[&[u8]]) -> Result<Vec<u8>, AllocError> {
    let mut bytes = Vec::from_slice(alloc, &HEADER)?;
    let mut stamp: u32 = 0;
    for frame in frames {
        stamp = stamp.wrapping_add(1000);
        push_frame(&mut bytes, stamp, frame)?;
    }
    Ok(bytes)
}

fn put_capture(
    alloc: Global,
    files: &mut MemFiles,
    path: &str,
    frames: &[&[u8]],
) -> Result<(), AllocError> {
    let bytes = capture_of(alloc, frames)?;
    files.put(path, &bytes)
}

fn put_files(alloc: Global) -> Result<MemFiles, AllocError> {
    let mut files = files_of(alloc, &LOGS, &[])?;
    put_capture(alloc, &mut files, "a.pcap", &FRAMES_A)?;
    put_capture(alloc, &mut files, "b.pcap", &FRAMES_B)?;
    Ok(files)
}

// Whether a session gives these replies.
fn replies(alloc: Global, case: &Case) -> Result<bool, Stop> {
    let mut files = put_files(alloc)?;
    replies_over(alloc, case.declaration, &mut files, case.lines)
}

#[test]
fn questions(rt: HostRuntime) {
    for (k, case) in CASES.iter().enumerate() {
        assert!(rt; replies(rt.alloc(), case) == Ok(true), "case {k}");
    }
}
