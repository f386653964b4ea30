// Captures that are merged into one, and why some are not.
use crate::runs::{Script, run_noted};
use ports::{MemFiles, MemSink};
use problem_commands::Status;
use shared_fixtures::TWO_CAPTURES_DECLARATION;
use std::alloc::{AllocError, Global};
use std::test::Fail;

// The same beside a log of the first host.
const WITH_A_LOG: &str =
    "[hosts.a]\naddresses = [\"10.0.0.1\"]\n[hosts.b]\naddresses = [\"10.0.0.2\"]\n\
    [labels.a]\nhost = \"a\"\nkind = \"capture\"\n[labels.b]\nhost = \"b\"\nkind = \"capture\"\n[labels.log]\nhost = \"a\"\nkind = \"log\"\n\
    [[links]]\nfrom = \"a\"\nto = \"b\"\nleast = 10\nmost = 20\n[[links]]\nfrom = \"b\"\nto = \"a\"\nleast = 10\nmost = 20\n";

// A second at least from the first host to the second one.
const SLOW: &str = "[hosts.a]\naddresses = [\"10.0.0.1\"]\n[hosts.b]\naddresses = [\"10.0.0.2\"]\n\
    [labels.a]\nhost = \"a\"\nkind = \"capture\"\n[labels.b]\nhost = \"b\"\nkind = \"capture\"\n\
    [[links]]\nfrom = \"a\"\nto = \"b\"\nleast = 1000000000\n";

// Datagrams of UDP from 10.0.0.1:5000 to 10.0.0.2:6000, and back.
pub(crate) const THERE: [u8; 28] = [
    0x45, 0, 0, 0x1c, 0, 7, 0, 0, 0x40, 0x11, 0, 0, 10, 0, 0, 1, 10, 0, 0, 2, 0x13, 0x88, 0x17,
    0x70, 0, 8, 0, 0,
];

pub(crate) const BACK: [u8; 28] = [
    0x45, 0, 0, 0x1c, 0, 8, 0, 0, 0x40, 0x11, 0, 0, 10, 0, 0, 2, 10, 0, 0, 1, 0x17, 0x70, 0x13,
    0x88, 0, 8, 0, 0,
];

// The time of a packet in seconds and ns, each as four bytes, the least one first.
pub(crate) type Stamp = [u8; 8];

const AT_100: Stamp = [0, 0, 0, 0, 100, 0, 0, 0];

const AT_180: Stamp = [0, 0, 0, 0, 180, 0, 0, 0];

const AT_195: Stamp = [0, 0, 0, 0, 195, 0, 0, 0];

const AT_250: Stamp = [0, 0, 0, 0, 250, 0, 0, 0];

const AT_300: Stamp = [0, 0, 0, 0, 44, 1, 0, 0];

const LATEST: Stamp = [0xff, 0xff, 0xff, 0xff, 250, 0, 0, 0];

// The captures of the two hosts, and what is merged of them.
#[derive(Clone, Copy)]
pub(crate) struct Captures {
    a: [Stamp; 2],
    b: [Stamp; 2],
    b_link: u8,
}

pub(crate) const LAWFUL: Captures = Captures {
    a: [AT_100, AT_180],
    b: [AT_250, AT_300],
    b_link: 101,
};

pub(crate) const HELD_UP: Captures = Captures {
    a: [AT_100, AT_195],
    b: [AT_250, AT_300],
    b_link: 101,
};

pub(crate) const OTHER_LINK: Captures = Captures {
    a: [AT_100, AT_180],
    b: [AT_250, AT_300],
    b_link: 1,
};

const LATE: Captures = Captures {
    a: [AT_100, AT_180],
    b: [AT_250, LATEST],
    b_link: 101,
};

fn push_header(link: u8, bytes: &mut Vec<u8>) -> Result<(), AllocError> {
    bytes.extend_from_slice(&[
        0x4d, 0x3c, 0xb2, 0xa1, 2, 0, 4, 0, 0, 0, 0, 0, 0, 0, 0, 0, 0, 0, 4, 0, link, 0, 0, 0,
    ])
}

fn push_record(stamp: &Stamp, packet: &[u8; 28], bytes: &mut Vec<u8>) -> Result<(), AllocError> {
    bytes.extend_from_slice(stamp)?;
    bytes.extend_from_slice(&[28, 0, 0, 0, 28, 0, 0, 0])?;
    bytes.extend_from_slice(packet)
}

// A packet there and one back, at these times.
fn put_capture(
    alloc: Global,
    path: &str,
    link: u8,
    stamps: &[Stamp; 2],
    files: &mut MemFiles,
) -> Result<(), AllocError> {
    let [there, back] = stamps;
    let mut bytes = Vec::new(alloc);
    push_header(link, &mut bytes)?;
    push_record(there, &THERE, &mut bytes)?;
    push_record(back, &BACK, &mut bytes)?;
    files.put(path, &bytes)
}

// The first packet of the first host alone.
fn put_first(alloc: Global, path: &str, files: &mut MemFiles) -> Result<(), AllocError> {
    let mut bytes = Vec::new(alloc);
    push_header(101, &mut bytes)?;
    push_record(&AT_100, &THERE, &mut bytes)?;
    files.put(path, &bytes)
}

// The declaration, both captures, the first packet, a log and a file that is no capture.
pub(crate) fn files_of(
    alloc: Global,
    decl: &str,
    captures: &Captures,
) -> Result<MemFiles, AllocError> {
    let mut files = MemFiles::new(alloc, &[])?;
    files.put("decl", decl.as_bytes())?;
    put_capture(alloc, "a", 101, &captures.a, &mut files)?;
    put_capture(alloc, "b", captures.b_link, &captures.b, &mut files)?;
    put_first(alloc, "first", &mut files)?;
    files.put("log", b"150,local,,note\n")?;
    files.put("none", b"no capture")?;
    Ok(files)
}

// The four packets at their times in the earliest execution.
fn push_merged(bytes: &mut Vec<u8>) -> Result<(), AllocError> {
    push_header(101, bytes)?;
    push_record(&[0, 0, 0, 0, 0, 0, 0, 0], &THERE, bytes)?;
    push_record(&[0, 0, 0, 0, 10, 0, 0, 0], &THERE, bytes)?;
    push_record(&[0, 0, 0, 0, 60, 0, 0, 0], &BACK, bytes)?;
    push_record(&[0, 0, 0, 0, 80, 0, 0, 0], &BACK, bytes)
}

// Whether a merge over these files ends so, whatever is noted.
fn ends_noted(
    alloc: Global,
    files: &mut MemFiles,
    script: &Script<'_>,
    status: Status,
    printed: &[u8],
    notes: &mut MemSink,
) -> Result<bool, AllocError> {
    let mut out = MemSink::new(alloc, 600, 7, &[])?;
    let found = run_noted(alloc, &["mergecap", "decl"], files, script, &mut out, notes)?;
    Ok(found.code() == status.code() && out.bytes() == printed)
}

// Whether a merge over these files ends so, and nothing is noted.
fn ends_so(
    alloc: Global,
    files: &mut MemFiles,
    script: &Script<'_>,
    status: Status,
    printed: &[u8],
) -> Result<bool, AllocError> {
    let mut notes = MemSink::new(alloc, 100, 7, &[])?;
    let is_so = ends_noted(alloc, files, script, status, printed, &mut notes)?;
    Ok(is_so && notes.bytes().is_empty())
}

// Whether the two captures are merged over this declaration by this script.
fn merges(alloc: Global, decl: &str, script: &str) -> Result<bool, AllocError> {
    let mut files = files_of(alloc, decl, &LAWFUL)?;
    let mut merged = Vec::new(alloc);
    push_merged(&mut merged)?;
    let script = Script {
        text: script.as_bytes(),
        fails: &[],
    };
    ends_so(alloc, &mut files, &script, Status::Done, &merged)
}

// Whether a header alone is printed over this declaration by this script.
fn merges_none(alloc: Global, decl: &str, script: &str) -> Result<bool, AllocError> {
    let mut files = files_of(alloc, decl, &LAWFUL)?;
    let mut merged = Vec::new(alloc);
    push_header(1, &mut merged)?;
    let script = Script {
        text: script.as_bytes(),
        fails: &[],
    };
    ends_so(alloc, &mut files, &script, Status::Done, &merged)
}

#[test]
fn captures_are_merged(rt: HostRuntime) -> Result<(), Fail> {
    let alloc = rt.alloc();
    assert!(rt; merges(alloc, TWO_CAPTURES_DECLARATION, "add a a\nadd b b\n")?);
    assert!(rt; merges(alloc, TWO_CAPTURES_DECLARATION, "add b b\nadd a a")?);
    assert!(rt; merges_none(alloc, TWO_CAPTURES_DECLARATION, "")?);
    Ok(())
}

#[test]
fn logs_have_no_packets(rt: HostRuntime) -> Result<(), Fail> {
    let alloc = rt.alloc();
    assert!(rt; merges(alloc, WITH_A_LOG, "add a a\nadd log log\nadd b b\n")?);
    assert!(rt; merges_none(alloc, WITH_A_LOG, "add log log\n")?);
    Ok(())
}

// The section and the interface of a capture in pcapng: link type 101, and stamps in ns.
const SECTION: [u8; 60] = [
    0x0a, 0x0d, 0x0d, 0x0a, 28, 0, 0, 0, 0x4d, 0x3c, 0x2b, 0x1a, 1, 0, 0, 0, 0xff, 0xff, 0xff,
    0xff, 0xff, 0xff, 0xff, 0xff, 28, 0, 0, 0, 1, 0, 0, 0, 32, 0, 0, 0, 101, 0, 0, 0, 0, 0, 4, 0,
    9, 0, 1, 0, 9, 0, 0, 0, 0, 0, 0, 0, 32, 0, 0, 0,
];

// A simple packet, which has no time.
const SIMPLE: [u8; 20] = [3, 0, 0, 0, 20, 0, 0, 0, 4, 0, 0, 0, 0, 0, 0, 0, 20, 0, 0, 0];

// Appends an enhanced packet.
fn push_enhanced(stamp: &Stamp, packet: &[u8; 28], bytes: &mut Vec<u8>) -> Result<(), AllocError> {
    bytes.extend_from_slice(&[6, 0, 0, 0, 60, 0, 0, 0, 0, 0, 0, 0])?;
    bytes.extend_from_slice(stamp)?;
    bytes.extend_from_slice(&[28, 0, 0, 0, 28, 0, 0, 0])?;
    bytes.extend_from_slice(packet)?;
    bytes.extend_from_slice(&[60, 0, 0, 0])
}

// The capture of the first host, with the first 5 bytes of a record behind it.
fn put_cut(alloc: Global, files: &mut MemFiles) -> Result<(), AllocError> {
    let mut bytes = Vec::new(alloc);
    push_header(101, &mut bytes)?;
    push_record(&AT_100, &THERE, &mut bytes)?;
    push_record(&AT_180, &BACK, &mut bytes)?;
    bytes.extend_from_slice(&AT_195[..5])?;
    files.put("a", &bytes)
}

// The capture of the second host in pcapng, with a simple packet inside and the first 3 bytes of another one behind it.
fn put_passed(alloc: Global, files: &mut MemFiles) -> Result<(), AllocError> {
    let mut bytes = Vec::new(alloc);
    bytes.extend_from_slice(&SECTION)?;
    push_enhanced(&AT_250, &THERE, &mut bytes)?;
    bytes.extend_from_slice(&SIMPLE)?;
    push_enhanced(&AT_300, &BACK, &mut bytes)?;
    bytes.extend_from_slice(&SIMPLE[..3])?;
    files.put("b", &bytes)
}

// The declaration and both captures.
fn files_to_note(alloc: Global) -> Result<MemFiles, AllocError> {
    let mut files = MemFiles::new(alloc, &[])?;
    files.put("decl", TWO_CAPTURES_DECLARATION.as_bytes())?;
    put_cut(alloc, &mut files)?;
    put_passed(alloc, &mut files)?;
    Ok(files)
}

// Whether both captures are merged by this script. Notes are written in pieces of 7 bytes.
fn merges_noted(alloc: Global, script: &str, notes: &mut MemSink) -> Result<bool, AllocError> {
    let mut files = files_to_note(alloc)?;
    let mut merged = Vec::new(alloc);
    push_merged(&mut merged)?;
    let script = Script {
        text: script.as_bytes(),
        fails: &[],
    };
    ends_noted(alloc, &mut files, &script, Status::Done, &merged, notes)
}

// Whether they are, and these are the notes where their writes with these numbers fail.
fn notes_are(alloc: Global, script: &str, fails: &[u32], wanted: &str) -> Result<bool, AllocError> {
    let mut notes = MemSink::new(alloc, 100, 7, fails)?;
    let is_merged = merges_noted(alloc, script, &mut notes)?;
    Ok(is_merged && notes.bytes() == wanted.as_bytes())
}

const NOTES: &str = "a pending 5\nb pending 3\nb passed simple 1 obsolete 0 other 0\n";

#[test]
fn captures_are_noted(rt: HostRuntime) -> Result<(), Fail> {
    let alloc = rt.alloc();
    assert!(rt; notes_are(alloc, "add a a\nadd b b\n", &[], NOTES)?);
    assert!(rt; notes_are(alloc, "add b b\nadd a a\n", &[], NOTES)?);
    Ok(())
}

#[test]
fn notes_that_fail_change_nothing_else(rt: HostRuntime) -> Result<(), Fail> {
    let alloc = rt.alloc();
    assert!(rt; notes_are(alloc, "add a a\nadd b b\n", &[1], "")?);
    assert!(rt; notes_are(alloc, "add a a\nadd b b\n", &[2], "a pendi")?);
    assert!(rt; notes_are(alloc, "add a a\nadd b b\n", &[3], "a pending 5\n")?);
    Ok(())
}

// A merge that is none: over which declaration and captures, by which script, of which some reads fail.
#[derive(Drop)]
struct Case {
    decl: &'static str,
    captures: Captures,
    script: &'static str,
    fails: &'static [u32],
    status: Status,
    printed: &'static str,
}

const UNMERGED: [Case; 11] = [
    Case {
        decl: TWO_CAPTURES_DECLARATION,
        captures: LAWFUL,
        script: "merge\n",
        fails: &[],
        status: Status::NoMerge,
        printed: "refused 20\n",
    },
    Case {
        decl: TWO_CAPTURES_DECLARATION,
        captures: LAWFUL,
        script: "add a a\n\nadd b b\n",
        fails: &[],
        status: Status::NoMerge,
        printed: "refused 20\n",
    },
    Case {
        decl: TWO_CAPTURES_DECLARATION,
        captures: LAWFUL,
        script: "add a a\nadd c b\nadd b nofile\n",
        fails: &[],
        status: Status::NoMerge,
        printed: "refused 21\n",
    },
    Case {
        decl: TWO_CAPTURES_DECLARATION,
        captures: LAWFUL,
        script: "add a a\nadd b nofile\nadd b b\n",
        fails: &[],
        status: Status::NoMerge,
        printed: "refused 22\n",
    },
    Case {
        decl: TWO_CAPTURES_DECLARATION,
        captures: LAWFUL,
        script: "add a none\n",
        fails: &[],
        status: Status::NoMerge,
        printed: "refused 24 1\n",
    },
    Case {
        decl: TWO_CAPTURES_DECLARATION,
        captures: HELD_UP,
        script: "add a a\nadd b b\n",
        fails: &[],
        status: Status::NoMerge,
        printed: "inconsistent\n",
    },
    Case {
        decl: TWO_CAPTURES_DECLARATION,
        captures: OTHER_LINK,
        script: "add a a\nadd b b\n",
        fails: &[],
        status: Status::NoMerge,
        printed: "links\n",
    },
    Case {
        decl: SLOW,
        captures: LATE,
        script: "add a first\nadd b b\n",
        fails: &[],
        status: Status::NoMerge,
        printed: "range\n",
    },
    Case {
        decl: TWO_CAPTURES_DECLARATION,
        captures: LAWFUL,
        script: "add a a\nadd b b\n",
        fails: &[2],
        status: Status::ReadFault,
        printed: "read fault\n",
    },
    Case {
        decl: TWO_CAPTURES_DECLARATION,
        captures: LAWFUL,
        script: "merge\nadd b b\n",
        fails: &[2],
        status: Status::NoMerge,
        printed: "refused 20\n",
    },
    Case {
        decl: "hosts = ",
        captures: LAWFUL,
        script: "merge\n",
        fails: &[],
        status: Status::BadDecl,
        printed: "declaration 1 top 0\n",
    },
];

// Whether a merge ends as its case says.
fn is_refused(alloc: Global, case: &Case) -> Result<bool, AllocError> {
    let mut files = files_of(alloc, case.decl, &case.captures)?;
    let script = Script {
        text: case.script.as_bytes(),
        fails: case.fails,
    };
    ends_so(
        alloc,
        &mut files,
        &script,
        case.status,
        case.printed.as_bytes(),
    )
}

// How many cases, from the first on, come out as they say.
fn cases_refused(alloc: Global, cases: &[Case]) -> Result<usize, AllocError> {
    for (place, case) in cases.iter().enumerate() {
        if !is_refused(alloc, case)? {
            return Ok(place);
        }
    }
    Ok(cases.len())
}

#[test]
fn what_is_not_merged(rt: HostRuntime) -> Result<(), Fail> {
    let right = cases_refused(rt.alloc(), &UNMERGED)?;
    assert!(rt; right == UNMERGED.len(), "at case {right}");
    Ok(())
}
