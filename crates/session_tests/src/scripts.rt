ghost use Rattle.std.specs.Prelude.{◌≡◌, ◌<◌};
ghost use Rattle.decl.specs.Declaration.{IsDeclaration, declaration_of};

use atto::Steps;
use decl::{Decl, read_decl};
use ports::{MemFiles, MemSink, MemSource};
use session::{Ended, answer_script};
use shared_fixtures::{TWO_LOGS_DECLARATION, replies};
use std::alloc::{AllocError, Global};
use std::marker::Brand;
use std::sync::ledger::{Blank, Ledger};
use std::test::Fail;

// A script, which calls fail, and how the session ends with which replies.
#[derive(Clone, Copy)]
struct Case<'a> {
    script: &'a [u8],
    read_fails: &'a [u32],
    file_fails: &'a [u32],
    write_fails: &'a [u32],
    ended: Ended,
    replies: &'a str,
}

// How a session over the script ends, its steps counted from none on.
fn ended_counted<L: Ledger>(
    alloc: Global,
    decl: Decl,
    files: &mut MemFiles,
    input: &mut MemSource,
    out: &mut MemSink,
    blank: Blank,
) -> Ended
    requires decl { IsDeclaration (declaration_of decl) }
    requires blank { (blank.name ≡ L.name) × (blank.parts ≡ L.parts) × (0 < L.parts) }
{
    let mut steps = Steps::<L>::open(blank);
    answer_script(alloc, decl, files, input, out, &mut steps)
}

// How a session over the script ends.
fn ended(alloc: Global, files: &mut MemFiles, input: &mut MemSource, out: &mut MemSink) -> Ended {
    match read_decl(alloc, TWO_LOGS_DECLARATION.as_bytes()) {
        Ok(decl) => ended_counted::<Brand>(alloc, decl, files, input, out, Blank::new(1)),
        Err(_) => Ended::Memory,
    }
}

// The two logs.
fn logs(alloc: Global, fails: &[u32]) -> Result<MemFiles, AllocError> {
    let mut files = MemFiles::new(alloc, fails)?;
    files.put("a.csv", b"100,send,m1,\n180,receive,m2,\n")?;
    files.put("b.csv", b"250,receive,m1,\n300,send,m2,\n")?;
    Ok(files)
}

// Whether a session ends as the case says.
fn is_so(
    alloc: Global,
    case: &Case<'_>,
    files: &mut MemFiles,
    input: &mut MemSource,
    out: &mut MemSink,
) -> bool {
    let how = ended(alloc, files, input, out);
    how == case.ended && out.bytes() == case.replies.as_bytes()
}

// The same where the script comes in pieces of at most so many bytes.
fn is_so_in_pieces(
    alloc: Global,
    case: &Case<'_>,
    most: u32,
    files: &mut MemFiles,
    out: &mut MemSink,
) -> Result<bool, AllocError> {
    let mut input = MemSource::new(alloc, case.script, most.max(1), case.read_fails)?;
    Ok(is_so(alloc, case, files, &mut input, out))
}

// The same over these files.
fn is_so_over(
    alloc: Global,
    case: &Case<'_>,
    most: u32,
    files: &mut MemFiles,
) -> Result<bool, AllocError> {
    let mut out = MemSink::new(alloc, 600, 200, case.write_fails)?;
    is_so_in_pieces(alloc, case, most, files, &mut out)
}

// The same over the two logs.
fn ends_so(alloc: Global, case: &Case<'_>, most: u32) -> Result<bool, AllocError> {
    let mut files = logs(alloc, case.file_fails)?;
    is_so_over(alloc, case, most, &mut files)
}

const NO_FAULTS: [Case<'static>; 6] = [
    // No script, and one empty line.
    Case {
        script: b"",
        read_fails: &[],
        file_fails: &[],
        write_fails: &[],
        ended: Ended::Done,
        replies: "",
    },
    Case {
        script: b"\n",
        read_fails: &[],
        file_fails: &[],
        write_fails: &[],
        ended: Ended::Done,
        replies: "refused 20\n",
    },
    // A last line without a line feed, and a carriage return, which is part of its line.
    Case {
        script: b"order a#1 b#1\norder a#1 b#1\r\norder a#1 b#1",
        read_fails: &[],
        file_fails: &[],
        write_fails: &[],
        ended: Ended::Done,
        replies: "refused 28\nrefused 20\nrefused 28\n",
    },
    Case {
        script: b"add a a.csv\nadd b b.csv\ninterval a#1 b#1\norder a#1 b#1\nproblem\n",
        read_fails: &[],
        file_fails: &[],
        write_fails: &[],
        ended: Ended::Done,
        replies: replies!(
            added(2, 0, 0, 0),
            added(2, 2, 0, 0),
            "interval 10.000000000 20.000000000\norder before\nproblem 1\nclock a 0 0 0 0\nclock b 0 0 0 0\n\
            event a#1 a 100\nevent a#2 a 180\nevent b#1 b 250\nevent b#2 b 300\nmessage a#1 b#1 10 20\n\
            message b#2 a#2 10 20\nend\n"
        ),
    },
    // A file that is not there, and one whose first read fails.
    Case {
        script: b"add a nofile\nadd b b.csv\nproblem",
        read_fails: &[],
        file_fails: &[],
        write_fails: &[],
        ended: Ended::Done,
        replies: replies!(
            "refused 22\n",
            added(2, 0, 0, 0),
            "problem 1\nclock a 0 0 0 0\nclock b 0 0 0 0\nevent b#1 b 250\nevent b#2 b 300\nend\n"
        ),
    },
    Case {
        script: b"add a a.csv\nadd a a.csv\nadd b b.csv\norder b#2 a#2\n",
        read_fails: &[],
        file_fails: &[1],
        write_fails: &[],
        ended: Ended::Done,
        replies: replies!(
            "refused 22\n",
            added(2, 0, 0, 0),
            added(2, 2, 0, 0),
            "order before\n"
        ),
    },
];

#[test]
fn scripts_are_answered(rt: HostRuntime) -> Result<(), Fail> {
    for case in &NO_FAULTS {
        for most in [1, 7, 5_000] {
            assert!(rt; ends_so(rt.alloc(), case, most)?);
        }
    }
    Ok(())
}

// The script's 28 bytes come in pieces of 7, and each of the calls fails once. The first line ends with the second piece.
const FAULTS: [Case<'static>; 7] = [
    Case {
        script: b"order a#1 b#1\norder a#1 b#1\n",
        read_fails: &[1],
        file_fails: &[],
        write_fails: &[],
        ended: Ended::ReadFault,
        replies: "",
    },
    Case {
        script: b"order a#1 b#1\norder a#1 b#1\n",
        read_fails: &[2],
        file_fails: &[],
        write_fails: &[],
        ended: Ended::ReadFault,
        replies: "",
    },
    Case {
        script: b"order a#1 b#1\norder a#1 b#1\n",
        read_fails: &[3],
        file_fails: &[],
        write_fails: &[],
        ended: Ended::ReadFault,
        replies: "refused 28\n",
    },
    Case {
        script: b"order a#1 b#1\norder a#1 b#1\n",
        read_fails: &[4],
        file_fails: &[],
        write_fails: &[],
        ended: Ended::ReadFault,
        replies: "refused 28\n",
    },
    Case {
        script: b"order a#1 b#1\norder a#1 b#1\n",
        read_fails: &[5],
        file_fails: &[],
        write_fails: &[],
        ended: Ended::ReadFault,
        replies: "refused 28\nrefused 28\n",
    },
    // No sixth call is made.
    Case {
        script: b"order a#1 b#1\norder a#1 b#1\n",
        read_fails: &[6],
        file_fails: &[],
        write_fails: &[],
        ended: Ended::Done,
        replies: "refused 28\nrefused 28\n",
    },
    // A reply that is not written is the last one.
    Case {
        script: b"order a#1 b#1\norder a#1 b#1\norder a#1 b#1\n",
        read_fails: &[],
        file_fails: &[],
        write_fails: &[2],
        ended: Ended::WriteFault,
        replies: "refused 28\n",
    },
];

#[test]
fn faults_end_a_script(rt: HostRuntime) -> Result<(), Fail> {
    for case in &FAULTS {
        assert!(rt; ends_so(rt.alloc(), case, 7)?);
    }
    Ok(())
}

// Adds bytes of a path, so many.
fn push_path(size: u32, script: &mut Vec<u8>) -> Result<(), AllocError> {
    for _ in 0..size {
        script.push(b'x')?;
    }
    Ok(())
}

// Whether a line with a path of so many bytes gets these replies, the second of them for the line behind it.
fn replies_so(alloc: Global, size: u32, replies: &str) -> Result<bool, AllocError> {
    let mut script = Vec::from_slice(alloc, b"add a ")?;
    push_path(size, &mut script)?;
    script.extend_from_slice(b"\norder a#1 b#1\n")?;
    let case = Case {
        script: &script,
        read_fails: &[],
        file_fails: &[],
        write_fails: &[],
        ended: Ended::Done,
        replies,
    };
    ends_so(alloc, &case, 5_000)
}

// A line of 4,096 bytes, six of them in front of its path, names a path that is not there; one of more is refused unread.
#[test]
fn long_lines_are_refused(rt: HostRuntime) -> Result<(), Fail> {
    for (size, replies) in [
        (4_090, "refused 22\nrefused 28\n"),
        (4_091, "refused 20\nrefused 28\n"),
        (9_000, "refused 20\nrefused 28\n"),
    ] {
        assert!(rt; replies_so(rt.alloc(), size, replies)?);
    }
    Ok(())
}
