// Captures that are merged into a file of pcapng, with their dates.
use crate::merged_captures::{BACK, Captures, HELD_UP, LAWFUL, OTHER_LINK, THERE, files_of};
use crate::runs::{Script, run_noted};
use ports::{MemFiles, MemSink};
use problem_commands::Status;
use shared_fixtures::TWO_CAPTURES_DECLARATION;
use std::alloc::{AllocError, Global};
use std::test::Fail;

// The same with the second host's clock as the source.
const WITH_A_SOURCE: &str =
    "source = \"b\"\n[hosts.a]\naddresses = [\"10.0.0.1\"]\n[hosts.b]\naddresses = [\"10.0.0.2\"]\n[labels.a]\nhost = \"a\"\n\
    kind = \"capture\"\n[labels.b]\nhost = \"b\"\nkind = \"capture\"\n[[links]]\nfrom = \"a\"\nto = \"b\"\n\
    least = 10\nmost = 20\n[[links]]\nfrom = \"b\"\nto = \"a\"\nleast = 10\nmost = 20\n";

// The first event on the source's clock is 2 s before the clock began.
const BEFORE_ALL: &str =
    "source = \"b\"\n[hosts.a]\naddresses = [\"10.0.0.1\"]\n[hosts.b]\naddresses = [\"10.0.0.2\"]\n[labels.a]\nhost = \"a\"\n\
    kind = \"capture\"\n[labels.b]\nhost = \"b\"\nkind = \"capture\"\n[[links]]\nfrom = \"a\"\nto = \"b\"\n\
    least = 2000000000\nmost = 2000000000\n";

// The first host's clock may be off by more than its label says of the capture's stamps.
const WITH_EXACT_STAMPS: &str =
    "[hosts.a]\naddresses = [\"10.0.0.1\"]\nearly = 4\nlate = 9\n[hosts.b]\naddresses = [\"10.0.0.2\"]\n\
    [labels.a]\nhost = \"a\"\nkind = \"capture\"\nearly = 0\nlate = 0\n[labels.b]\nhost = \"b\"\nkind = \"capture\"\n\
    [[links]]\nfrom = \"a\"\nto = \"b\"\nleast = 10\nmost = 20\n\
    [[links]]\nfrom = \"b\"\nto = \"a\"\nleast = 10\nmost = 20\n";

// What there is to say of a label: host and clock of its name without an error.
const SAID_OF_A: &[u8; 53] = b"a clock a short 0 ppb long 0 ppb early 0 ns late 0 ns";

const SAID_OF_B: &[u8; 53] = b"b clock b short 0 ppb long 0 ppb early 0 ns late 0 ns";

// What is said of a packet: its comment with the head of that option, zeros behind it up to a multiple of four bytes, and the
// end of the options; and how many bytes the block of a packet of 28 bytes then has.
#[derive(Clone, Copy)]
struct Remark {
    option: &'static [u8],
    size: u8,
}

// Its event, the stamp of its own clock, and how long after the first event it was.
const FIRST_OF_A: Remark = Remark {
    option: b"\x01\0\x3f\0tracesync a#1 stamp 100 since a#1 0.000000000 to 0.000000000 ns\0\0\0\0\0",
    size: 132,
};

const SECOND_OF_A: Remark = Remark {
    option: b"\x01\0\x41\0tracesync a#2 stamp 180 since a#1 80.000000000 to 80.000000000 ns\0\0\0\0\0\0\0",
    size: 136,
};

const FIRST_OF_B: Remark = Remark {
    option: b"\x01\0\x41\0tracesync b#1 stamp 250 since a#1 10.000000000 to 20.000000000 ns\0\0\0\0\0\0\0",
    size: 136,
};

const SECOND_OF_B: Remark = Remark {
    option: b"\x01\0\x41\0tracesync b#2 stamp 300 since a#1 60.000000000 to 70.000000000 ns\0\0\0\0\0\0\0",
    size: 136,
};

// Where no message bounds anything between the hosts.
const FIRST_UNBOUND: Remark = Remark {
    option: b"\x01\0\x31\0tracesync b#1 stamp 250 since a#1 -inf to +inf ns\0\0\0\0\0\0\0",
    size: 120,
};

const SECOND_UNBOUND: Remark = Remark {
    option: b"\x01\0\x31\0tracesync b#2 stamp 300 since a#1 -inf to +inf ns\0\0\0\0\0\0\0",
    size: 120,
};

// The same since the first event of the second host.
const FIRST_OF_A_SINCE_B: Remark = Remark {
    option: b"\x01\0\x43\0tracesync a#1 stamp 100 since b#1 -20.000000000 to -10.000000000 ns\0\0\0\0\0",
    size: 136,
};

const FIRST_OF_B_SINCE_B: Remark = Remark {
    option: b"\x01\0\x3f\0tracesync b#1 stamp 250 since b#1 0.000000000 to 0.000000000 ns\0\0\0\0\0",
    size: 132,
};

const SECOND_OF_B_SINCE_B: Remark = Remark {
    option: b"\x01\0\x41\0tracesync b#2 stamp 300 since b#1 50.000000000 to 50.000000000 ns\0\0\0\0\0\0\0",
    size: 136,
};

const SECOND_OF_A_SINCE_B: Remark = Remark {
    option: b"\x01\0\x41\0tracesync a#2 stamp 180 since b#1 60.000000000 to 70.000000000 ns\0\0\0\0\0\0\0",
    size: 136,
};

// All four, in the order of their times.
const SINCE_A: [Remark; 4] = [FIRST_OF_A, FIRST_OF_B, SECOND_OF_B, SECOND_OF_A];

const NOT_BOUND: [Remark; 4] = [FIRST_OF_A, FIRST_UNBOUND, SECOND_UNBOUND, SECOND_OF_A];

const SINCE_B: [Remark; 4] = [
    FIRST_OF_A_SINCE_B,
    FIRST_OF_B_SINCE_B,
    SECOND_OF_B_SINCE_B,
    SECOND_OF_A_SINCE_B,
];

fn push_section(bytes: &mut Vec<u8>) -> Result<(), AllocError> {
    bytes.extend_from_slice(&[
        0x0a, 0x0d, 0x0d, 0x0a, 28, 0, 0, 0, 0x4d, 0x3c, 0x2b, 0x1a, 1, 0, 0, 0, 0xff, 0xff, 0xff,
        0xff, 0xff, 0xff, 0xff, 0xff, 28, 0, 0, 0,
    ])
}

// The interface of a label with a name of one byte.
fn push_interface(
    name: u8,
    link: u8,
    said: &[u8; 53],
    bytes: &mut Vec<u8>,
) -> Result<(), AllocError> {
    bytes.extend_from_slice(&[1, 0, 0, 0, 100, 0, 0, 0, link, 0, 0, 0, 0, 0, 0, 0])?;
    bytes.extend_from_slice(&[2, 0, 1, 0, name, 0, 0, 0, 3, 0, 53, 0])?;
    bytes.extend_from_slice(said)?;
    bytes.extend_from_slice(&[0, 0, 0, 9, 0, 1, 0, 9, 0, 0, 0, 0, 0, 0, 0, 100, 0, 0, 0])
}

// A packet in a block of so many bytes: its interface, its date below 2^16 ns, how long it was, and its bytes.
fn push_front(
    size: u8,
    interface: u8,
    date: [u8; 2],
    length: u8,
    packet: &[u8; 28],
    bytes: &mut Vec<u8>,
) -> Result<(), AllocError> {
    let [low, high] = date;
    bytes.extend_from_slice(&[6, 0, 0, 0, size, 0, 0, 0, interface, 0, 0, 0, 0, 0, 0, 0])?;
    bytes.extend_from_slice(&[low, high, 0, 0, 28, 0, 0, 0, length, 0, 0, 0])?;
    bytes.extend_from_slice(packet)
}

// A packet of which nothing is said.
fn push_plain_packet(
    interface: u8,
    date: [u8; 2],
    length: u8,
    packet: &[u8; 28],
    bytes: &mut Vec<u8>,
) -> Result<(), AllocError> {
    push_front(60, interface, date, length, packet, bytes)?;
    bytes.extend_from_slice(&[60, 0, 0, 0])
}

// What is said of a packet, and the end of its block.
fn push_comment(said: &Remark, bytes: &mut Vec<u8>) -> Result<(), AllocError> {
    bytes.extend_from_slice(said.option)?;
    bytes.extend_from_slice(&[said.size, 0, 0, 0])
}

// A packet that was captured whole, and what is said of it.
fn push_packet(
    interface: u8,
    date: [u8; 2],
    packet: &[u8; 28],
    said: &Remark,
    bytes: &mut Vec<u8>,
) -> Result<(), AllocError> {
    push_front(said.size, interface, date, 28, packet, bytes)?;
    push_comment(said, bytes)
}

// The four packets at these dates, those of the second host with this link type, and what is said of them.
fn push_file(
    link: u8,
    dates: &[[u8; 2]; 4],
    said: &[Remark; 4],
    bytes: &mut Vec<u8>,
) -> Result<(), AllocError> {
    let [first, second, third, fourth] = dates;
    push_section(bytes)?;
    push_interface(b'a', 101, SAID_OF_A, bytes)?;
    push_interface(b'b', link, SAID_OF_B, bytes)?;
    push_packet(0, *first, &THERE, &said[0], bytes)?;
    push_packet(1, *second, &THERE, &said[1], bytes)?;
    push_packet(1, *third, &BACK, &said[2], bytes)?;
    push_packet(0, *fourth, &BACK, &said[3], bytes)
}

// The words of a merge into a file of pcapng.
const MERGE: [&str; 3] = ["mergecap", "decl", "pcapng"];

// Whether a merge over these files ends so.
fn ends_over(
    alloc: Global,
    words: &[&str],
    files: &mut MemFiles,
    script: &str,
    status: Status,
    printed: &[u8],
) -> Result<bool, AllocError> {
    let script = Script {
        text: script.as_bytes(),
        fails: &[],
    };
    let mut out = MemSink::new(alloc, 900, 7, &[])?;
    let mut notes = MemSink::new(alloc, 100, 7, &[])?;
    let found = run_noted(alloc, words, files, &script, &mut out, &mut notes)?;
    Ok(found.code() == status.code() && out.bytes() == printed && notes.bytes().is_empty())
}

// Whether a merge of these captures ends so.
fn ends_so(
    alloc: Global,
    decl: &str,
    captures: &Captures,
    script: &str,
    status: Status,
    printed: &[u8],
) -> Result<bool, AllocError> {
    let mut files = files_of(alloc, decl, captures)?;
    ends_over(alloc, &MERGE, &mut files, script, status, printed)
}

// Whether both captures are merged so over this declaration.
fn merges(
    alloc: Global,
    decl: &str,
    captures: &Captures,
    link: u8,
    dates: &[[u8; 2]; 4],
    said: &[Remark; 4],
) -> Result<bool, AllocError> {
    let mut file = Vec::new(alloc);
    push_file(link, dates, said, &mut file)?;
    ends_so(
        alloc,
        decl,
        captures,
        "add b b\nadd a a\n",
        Status::Done,
        &file,
    )
}

// The dates begin with the stamp of the first event, 100 ns.
const BY_STAMP: [[u8; 2]; 4] = [[100, 0], [110, 0], [160, 0], [180, 0]];

// By the second host's clock the first event is at 230 ns at least.
const BY_SOURCE: [[u8; 2]; 4] = [[230, 0], [240, 0], [34, 1], [54, 1]];

#[test]
fn captures_are_dated(rt: HostRuntime) -> Result<(), Fail> {
    let alloc = rt.alloc();
    assert!(rt;
        merges(
            alloc,
            TWO_CAPTURES_DECLARATION,
            &LAWFUL,
            101,
            &BY_STAMP,
            &SINCE_A
        )?
    );
    assert!(rt; merges(alloc, WITH_A_SOURCE, &LAWFUL, 101, &BY_SOURCE, &SINCE_A)?);
    assert!(rt; merges(alloc, WITH_EXACT_STAMPS, &LAWFUL, 101, &BY_STAMP, &SINCE_A)?);
    Ok(())
}

// Frames of Ethernet that have no key bound nothing between the hosts.
const UNBOUND: [[u8; 2]; 4] = [[100, 0], [100, 0], [150, 0], [180, 0]];

#[test]
fn link_types_may_differ(rt: HostRuntime) -> Result<(), Fail> {
    let alloc = rt.alloc();
    assert!(rt;
        merges(
            alloc,
            TWO_CAPTURES_DECLARATION,
            &OTHER_LINK,
            1,
            &UNBOUND,
            &NOT_BOUND
        )?
    );
    Ok(())
}

// A capture in pcapng with an interface of link type 101 and one of Ethernet, which count ns, and a packet of each: the
// first was longer than what was captured.
fn put_two_links(alloc: Global, files: &mut MemFiles) -> Result<(), AllocError> {
    let mut bytes = Vec::new(alloc);
    push_section(&mut bytes)?;
    push_plain_interface(101, &mut bytes)?;
    push_plain_interface(1, &mut bytes)?;
    push_plain_packet(0, [100, 0], 40, &THERE, &mut bytes)?;
    push_plain_packet(1, [180, 0], 28, &BACK, &mut bytes)?;
    files.put("a", &bytes)
}

// An interface of this link type, of which nothing is said but that it counts ns.
fn push_plain_interface(link: u8, bytes: &mut Vec<u8>) -> Result<(), AllocError> {
    bytes.extend_from_slice(&[1, 0, 0, 0, 32, 0, 0, 0, link, 0, 0, 0, 0, 0, 0, 0])?;
    bytes.extend_from_slice(&[9, 0, 1, 0, 9, 0, 0, 0, 0, 0, 0, 0, 32, 0, 0, 0])
}

// Whether such a capture has an interface for each of its link types, by link type.
fn has_both_links(alloc: Global) -> Result<bool, AllocError> {
    let mut files = files_of(alloc, TWO_CAPTURES_DECLARATION, &LAWFUL)?;
    put_two_links(alloc, &mut files)?;
    let mut file = Vec::new(alloc);
    push_section(&mut file)?;
    push_interface(b'a', 1, SAID_OF_A, &mut file)?;
    push_interface(b'a', 101, SAID_OF_A, &mut file)?;
    push_front(FIRST_OF_A.size, 1, [100, 0], 40, &THERE, &mut file)?;
    push_comment(&FIRST_OF_A, &mut file)?;
    push_packet(0, [180, 0], &BACK, &SECOND_OF_A, &mut file)?;
    ends_over(alloc, &MERGE, &mut files, "add a a\n", Status::Done, &file)
}

#[test]
fn a_label_has_an_interface_for_each_link_type(rt: HostRuntime) -> Result<(), Fail> {
    assert!(rt; has_both_links(rt.alloc())?);
    Ok(())
}

#[test]
fn a_file_without_packets_is_a_section(rt: HostRuntime) -> Result<(), Fail> {
    let alloc = rt.alloc();
    let mut file = Vec::new(alloc);
    push_section(&mut file)?;
    assert!(rt;
        ends_so(
            alloc,
            TWO_CAPTURES_DECLARATION,
            &LAWFUL,
            "",
            Status::Done,
            &file
        )?
    );
    Ok(())
}

// Whether a merge of both captures since the event of a name ends so.
fn ends_since(
    alloc: Global,
    event: &str,
    status: Status,
    printed: &[u8],
) -> Result<bool, AllocError> {
    let mut files = files_of(alloc, TWO_CAPTURES_DECLARATION, &LAWFUL)?;
    let words = ["mergecap", "decl", "pcapng", event];
    ends_over(
        alloc,
        &words,
        &mut files,
        "add b b\nadd a a\n",
        status,
        printed,
    )
}

// Whether both captures are merged with how long each packet was after the first event of the second host.
fn merges_since_b(alloc: Global) -> Result<bool, AllocError> {
    let mut file = Vec::new(alloc);
    push_file(101, &BY_STAMP, &SINCE_B, &mut file)?;
    ends_since(alloc, "b#1", Status::Done, &file)
}

#[test]
fn an_event_is_named(rt: HostRuntime) -> Result<(), Fail> {
    let alloc = rt.alloc();
    assert!(rt; merges_since_b(alloc)?);
    assert!(rt; ends_since(alloc, "b#3", Status::NoMerge, b"refused 28\n")?);
    Ok(())
}

#[test]
fn what_has_no_file(rt: HostRuntime) -> Result<(), Fail> {
    let alloc = rt.alloc();
    let both = "add a a\nadd b b\n";
    assert!(rt;
        ends_so(
            alloc,
            BEFORE_ALL,
            &LAWFUL,
            "add a first\nadd b b\n",
            Status::NoMerge,
            b"range\n"
        )?
    );
    assert!(rt;
        ends_so(
            alloc,
            TWO_CAPTURES_DECLARATION,
            &HELD_UP,
            both,
            Status::NoMerge,
            b"inconsistent\n"
        )?
    );
    assert!(rt;
        ends_so(
            alloc,
            TWO_CAPTURES_DECLARATION,
            &LAWFUL,
            "merge\n",
            Status::NoMerge,
            b"refused 20\n"
        )?
    );
    Ok(())
}
