use crate::fixtures::USAGE;
use crate::runs::{Script, Wanted, answers, prints, run_over};
use ports::{MemFiles, MemSink};
use problem_commands::Status;
use shared_fixtures::{TWO_CLOCKS_DECLARATION, TWO_LOGS_DECLARATION, replies};
use std::alloc::{AllocError, Global};
use std::test::Fail;

// The declaration of two logs, where a label is at no host, two hosts have one address, and the source drifts.
const NO_HOST: &str =
    "[hosts.a]\n[hosts.b]\n[labels.a]\nhost = \"x\"\nkind = \"log\"\n[labels.b]\nhost = \"b\"\nkind = \"log\"\n\
    [[links]]\nfrom = \"a\"\nto = \"b\"\nleast = 10\nmost = 20\n[[links]]\nfrom = \"b\"\nto = \"a\"\nleast = 10\n\
    most = 20\n";

const ONE_ADDRESS: &str =
    "[hosts.a]\naddresses = [\"10.0.0.1\"]\n[hosts.b]\naddresses = [\"10.0.0.1\"]\n[labels.a]\nhost = \"a\"\n\
    kind = \"log\"\n[labels.b]\nhost = \"b\"\nkind = \"log\"\n";

const DRIFTING_SOURCE: &str =
    "source = \"a\"\n[hosts.a]\nshort = 1\n[hosts.b]\n[labels.a]\nhost = \"a\"\nkind = \"log\"\n[labels.b]\nhost = \"b\"\nkind = \"log\"\n";

const OTHER_HOSTS_CLOCK: &str =
    "[hosts.a]\nclocks = [{ name = \"a1\" }, { name = \"a2\", gap = 5 }]\n[hosts.b]\n\
    [labels.a]\nhost = \"a\"\nkind = \"log\"\nclock = \"a1\"\n[labels.b]\nhost = \"b\"\nkind = \"log\"\n\
    [labels.r]\nhost = \"a\"\nkind = \"log\"\nclock = \"b\"\n\
    [[links]]\nfrom = \"a\"\nto = \"b\"\nleast = 10\nmost = 20\n";

const OTHER_HOSTS_NAME: &str =
    "[hosts.a]\nclocks = [{ name = \"a1\" }, { name = \"b\", gap = 5 }]\n[hosts.b]\n\
    [labels.a]\nhost = \"a\"\nkind = \"log\"\nclock = \"a1\"\n[labels.b]\nhost = \"b\"\nkind = \"log\"\n\
    [labels.r]\nhost = \"a\"\nkind = \"log\"\nclock = \"a2\"\n\
    [[links]]\nfrom = \"a\"\nto = \"b\"\nleast = 10\nmost = 20\n";

// Two logs where a window of 149 ns is declared.
const WINDOW: &str =
    "window = 149\n[hosts.a]\n[hosts.b]\n[labels.a]\nhost = \"a\"\nkind = \"log\"\n[labels.b]\nhost = \"b\"\nkind = \"log\"\n";

const SAME_LINK: &str =
    "[hosts.a]\n[[links]]\nfrom = \"a\"\nto = \"a\"\n[[links]]\nfrom = \"a\"\nto = \"a\"\n";

// A run over a declaration and a script: which log `a.csv` is, which calls fail, how it ends, and what it prints.
struct Case {
    decl: &'static str,
    log: &'static str,
    file_fails: &'static [u32],
    script: &'static str,
    read_fails: &'static [u32],
    write_fails: &'static [u32],
    status: Status,
    printed: &'static str,
}

const ON_TIME: &str = "100,send,m1,\n180,receive,m2,\n";

const LATE: &str = "100,send,m1,\n190,receive,m2,\n";

const TOO_LATE: &str = "100,send,m1,\n195,receive,m2,\n";

const ONE_SEND: &str = "100,send,m1,\n";

// The files of a run over a declaration, and which log `a.csv` is. Reads with these numbers fail.
fn files_of(alloc: Global, decl: &str, log: &str, fails: &[u32]) -> Result<MemFiles, AllocError> {
    let mut files = MemFiles::new(alloc, fails)?;
    files.put("d", decl.as_bytes())?;
    files.put("a.csv", log.as_bytes())?;
    files.put("b.csv", b"250,receive,m1,\n300,send,m2,\n")?;
    files.put("c.csv", b"250,receive,m1,\n255,receive,m2,\n")?;
    files.put("d.csv", b"310,send,m2,\n")?;
    files.put("r.csv", b"0,send,m2,\n")?;
    Ok(files)
}

// Whether a run over these files ends as the case says.
fn answers_so(alloc: Global, case: &Case, files: &mut MemFiles) -> Result<bool, AllocError> {
    let wanted = Wanted {
        words: &["session", "d"],
        status: case.status,
        printed: case.printed,
    };
    let script = Script {
        text: case.script.as_bytes(),
        fails: case.read_fails,
    };
    let mut out = MemSink::new(alloc, 900, 300, case.write_fails)?;
    answers(alloc, &wanted, files, &script, &mut out)
}

// Whether a run ends as the case says.
fn ends_so(alloc: Global, case: &Case) -> Result<bool, AllocError> {
    let mut files = files_of(alloc, case.decl, case.log, case.file_fails)?;
    answers_so(alloc, case, &mut files)
}

const SESSIONS: [Case; 11] = [
    // The ends of one message are 150 ns apart, and of the other one 120 ns.
    Case {
        decl: WINDOW,
        log: ON_TIME,
        file_fails: &[],
        script: "add a a.csv\nadd b b.csv\nadd b d.csv\n",
        read_fails: &[],
        write_fails: &[],
        status: Status::Done,
        printed: replies!(added(2, 0, 0, 0), added(2, 1, 0, 0), added(1, 0, 1, 0)),
    },
    Case {
        decl: TWO_LOGS_DECLARATION,
        log: ON_TIME,
        file_fails: &[],
        script: "add a a.csv\nadd b b.csv\ninterval a#1 b#1\norder a#1 b#1\nmerge\nproblem\n",
        read_fails: &[],
        write_fails: &[],
        status: Status::Done,
        printed: replies!(
            added(2, 0, 0, 0),
            added(2, 2, 0, 0),
            "interval 10.000000000 20.000000000\norder before\nmerge 4\n0.000000000 a#1\n10.000000000 b#1\n\
            60.000000000 b#2\n80.000000000 a#2\nproblem 1\nclock a 0 0 0 0\nclock b 0 0 0 0\nevent a#1 a 100\n\
            event a#2 a 180\nevent b#1 b 250\nevent b#2 b 300\nmessage a#1 b#1 10 20\nmessage b#2 a#2 10 20\nend\n"
        ),
    },
    Case {
        decl: TWO_LOGS_DECLARATION,
        log: LATE,
        file_fails: &[],
        script: "add a a.csv\nadd b b.csv\ninterval a#1 b#1\n",
        read_fails: &[],
        write_fails: &[],
        status: Status::Done,
        printed: replies!(
            added(2, 0, 0, 0),
            added(2, 2, 0, 0),
            "interval 20.000000000 20.000000000\n"
        ),
    },
    // A host whose second clock begins at least 5 ns behind what its first one showed last.
    Case {
        decl: TWO_CLOCKS_DECLARATION,
        log: ONE_SEND,
        file_fails: &[],
        script: "add a a.csv\nadd r r.csv\nadd b c.csv\ninterval a#1 r#1\norder a#1 r#1\nproblem\n",
        read_fails: &[],
        write_fails: &[],
        status: Status::Done,
        printed: replies!(
            added(1, 0, 0, 0),
            added(1, 0, 0, 0),
            added(2, 2, 0, 0),
            "interval 5.000000000 15.000000000\norder before\nproblem 2\nclock a1 0 0 0 0\nclock a2 0 0 0 0\n\
            clock b 0 0 0 0\nfollow a1 a2 5\nevent a#1 a1 100\nevent b#1 b 250\nevent b#2 b 255\nevent r#1 a2 0\n\
            message a#1 b#1 10 20\nmessage r#1 b#2 10 20\nend\n"
        ),
    },
    // A contradiction, and the message that made it withdrawn by a second send of its key.
    Case {
        decl: TWO_LOGS_DECLARATION,
        log: TOO_LATE,
        file_fails: &[],
        script: "add a a.csv\nadd b b.csv\ninterval a#1 b#1\nadd b d.csv\ninterval a#1 b#1\n",
        read_fails: &[],
        write_fails: &[],
        status: Status::Done,
        printed: replies!(
            added(2, 0, 0, 0),
            added(2, 2, 0, 0, inconsistent),
            "certificate 1\ncycle\nstep early a#2 0.000000000\nstep span-least a 100 195 -95.000000000\n\
            step late a#1 0.000000000\nstep delay-most a#1 b#1 20.000000000\nstep early b#1 0.000000000\n\
            step span-most b 250 300 50.000000000\nstep late b#2 0.000000000\nstep delay-most b#2 a#2 20.000000000\n\
            end\n",
            added(1, 0, 1, 0),
            "interval 10.000000000 20.000000000\n"
        ),
    },
    // The first read of a log fails; the third is the first behind those of the declaration.
    Case {
        decl: TWO_LOGS_DECLARATION,
        log: ON_TIME,
        file_fails: &[3],
        script: "add a a.csv\nadd a a.csv\nadd b b.csv\nadd a nofile\ninterval a#1 b#1\n",
        read_fails: &[],
        write_fails: &[],
        status: Status::Done,
        printed: replies!(
            "refused 22\n",
            added(2, 0, 0, 0),
            added(2, 2, 0, 0),
            "refused 22\ninterval 10.000000000 20.000000000\n"
        ),
    },
    Case {
        decl: TWO_LOGS_DECLARATION,
        log: ON_TIME,
        file_fails: &[],
        script: "add a a.csv\nadd b b.csv\ninterval a#1\n\nadd x a.csv\ninterval a#1 a#01\nproblem 1\ntime a#1\n",
        read_fails: &[],
        write_fails: &[],
        status: Status::Done,
        printed: replies!(
            added(2, 0, 0, 0),
            added(2, 2, 0, 0),
            "refused 20\nrefused 20\nrefused 21\nrefused 28\nrefused 20\nrefused 29\n"
        ),
    },
    // Misspelled commands, and names of events that no label can have.
    Case {
        decl: TWO_LOGS_DECLARATION,
        log: ON_TIME,
        file_fails: &[],
        script: "add a a.csv\nadd b b.csv\nadd a\nADD a a.csv\ninterval a#1  b#1\ninterval a#0 b#1\n\
        interval a#18446744073709551616 b#1\n",
        read_fails: &[],
        write_fails: &[],
        status: Status::Done,
        printed: replies!(
            added(2, 0, 0, 0),
            added(2, 2, 0, 0),
            "refused 20\nrefused 20\nrefused 20\nrefused 28\nrefused 28\n"
        ),
    },
    // The script fails behind its first line, which has 14 bytes.
    Case {
        decl: TWO_LOGS_DECLARATION,
        log: ON_TIME,
        file_fails: &[],
        script: "order a#1 b#1\norder a#1 b#1\n",
        read_fails: &[2],
        write_fails: &[],
        status: Status::ReadFault,
        printed: "refused 28\nread fault\n",
    },
    Case {
        decl: TWO_LOGS_DECLARATION,
        log: ON_TIME,
        file_fails: &[],
        script: "add a a.csv\nadd b b.csv\n",
        read_fails: &[],
        write_fails: &[1],
        status: Status::WriteFault,
        printed: "",
    },
    // The last line is not written.
    Case {
        decl: TWO_LOGS_DECLARATION,
        log: ON_TIME,
        file_fails: &[],
        script: "order a#1 b#1\norder a#1 b#1\n",
        read_fails: &[2],
        write_fails: &[2],
        status: Status::WriteFault,
        printed: "refused 28\n",
    },
];

#[test]
fn scripts_are_answered(rt: HostRuntime) -> Result<(), Fail> {
    for case in &SESSIONS {
        assert!(rt; ends_so(rt.alloc(), case)?);
    }
    Ok(())
}

// Declarations that are refused, or not read. Of the script nothing is answered.
const REFUSED: [Case; 9] = [
    Case {
        decl: NO_HOST,
        log: ON_TIME,
        file_fails: &[],
        script: "problem\n",
        read_fails: &[],
        write_fails: &[],
        status: Status::BadDecl,
        printed: "declaration 4 labels 1\n",
    },
    Case {
        decl: ONE_ADDRESS,
        log: ON_TIME,
        file_fails: &[],
        script: "problem\n",
        read_fails: &[],
        write_fails: &[],
        status: Status::BadDecl,
        printed: "declaration 6 hosts 2\n",
    },
    Case {
        decl: DRIFTING_SOURCE,
        log: ON_TIME,
        file_fails: &[],
        script: "problem\n",
        read_fails: &[],
        write_fails: &[],
        status: Status::BadDecl,
        printed: "declaration 7 top 0\n",
    },
    Case {
        decl: SAME_LINK,
        log: ON_TIME,
        file_fails: &[],
        script: "problem\n",
        read_fails: &[],
        write_fails: &[],
        status: Status::BadDecl,
        printed: "declaration 4 links 2\n",
    },
    Case {
        decl: OTHER_HOSTS_CLOCK,
        log: ON_TIME,
        file_fails: &[],
        script: "problem\n",
        read_fails: &[],
        write_fails: &[],
        status: Status::BadDecl,
        printed: "declaration 4 labels 3\n",
    },
    Case {
        decl: OTHER_HOSTS_NAME,
        log: ON_TIME,
        file_fails: &[],
        script: "problem\n",
        read_fails: &[],
        write_fails: &[],
        status: Status::BadDecl,
        printed: "declaration 4 hosts 2\n",
    },
    Case {
        decl: "hosts = ",
        log: ON_TIME,
        file_fails: &[],
        script: "problem\n",
        read_fails: &[],
        write_fails: &[],
        status: Status::BadDecl,
        printed: "declaration 1 top 0\n",
    },
    Case {
        decl: TWO_LOGS_DECLARATION,
        log: ON_TIME,
        file_fails: &[1],
        script: "problem\n",
        read_fails: &[],
        write_fails: &[],
        status: Status::ReadFault,
        printed: "read fault\n",
    },
    Case {
        decl: "hosts = ",
        log: ON_TIME,
        file_fails: &[],
        script: "problem\n",
        read_fails: &[],
        write_fails: &[1],
        status: Status::WriteFault,
        printed: "",
    },
];

#[test]
fn declarations_are_refused(rt: HostRuntime) -> Result<(), Fail> {
    for case in &REFUSED {
        assert!(rt; ends_so(rt.alloc(), case)?);
    }
    Ok(())
}

// Puts a declaration of so many empty lines.
fn put_lines(alloc: Global, size: usize, files: &mut MemFiles) -> Result<(), AllocError> {
    let decl = vec![in alloc; b'\n'; size]?;
    files.put("d", &decl)
}

// Whether a run over these files and a script of one line comes to what is wanted.
fn shows_so(alloc: Global, wanted: &Wanted<'_>, files: &mut MemFiles) -> Result<bool, AllocError> {
    let mut out = MemSink::new(alloc, 900, 300, &[])?;
    let script = Script {
        text: b"problem\n",
        fails: &[],
    };
    answers(alloc, wanted, files, &script, &mut out)
}

// The same over a declaration of so many bytes.
fn runs_so(alloc: Global, wanted: &Wanted<'_>, size: usize) -> Result<bool, AllocError> {
    let mut files = MemFiles::new(alloc, &[])?;
    put_lines(alloc, size, &mut files)?;
    shows_so(alloc, wanted, &mut files)
}

// A declaration of 2^24 bytes is read, and one of more is refused; a path that is not there; too few words and too
// many.
#[test]
fn words_of_sessions(rt: HostRuntime) -> Result<(), Fail> {
    for (words, size, status, printed) in [
        (
            &["session", "d"] as &[&str],
            16_777_216,
            Status::Done,
            "problem 1\nend\n",
        ),
        (
            &["session", "d"],
            16_777_217,
            Status::BadDecl,
            "declaration 8 top 0\n",
        ),
        (&["session", "e"], 0, Status::ReadFault, "read fault\n"),
        (&["session"], 0, Status::Usage, USAGE),
        (&["session", "d", "d"], 0, Status::Usage, USAGE),
    ] {
        let wanted = Wanted {
            words,
            status,
            printed,
        };
        assert!(rt; runs_so(rt.alloc(), &wanted, size)?);
    }
    Ok(())
}

// What is to be proved: a declaration, which log `a.csv` is, the additions, and two scripts that have a last line
// behind them.
struct Proof {
    decl: &'static str,
    log: &'static str,
    added: &'static [u8],
    shown: &'static [u8],
    proved: &'static [u8],
}

// Two additions.
const ADDED: &[u8] = b"add a a.csv\nadd b b.csv\n";

const SHOWN: &[u8] = b"add a a.csv\nadd b b.csv\nproblem";

// Three additions, to a host that has two clocks and another one.
const CLOCKS_ADDED: &[u8] = b"add a a.csv\nadd r r.csv\nadd b c.csv\n";

const CLOCKS_SHOWN: &[u8] = b"add a a.csv\nadd r r.csv\nadd b c.csv\nproblem";

const PROOFS: [Proof; 9] = [
    Proof {
        decl: TWO_LOGS_DECLARATION,
        log: ON_TIME,
        added: ADDED,
        shown: SHOWN,
        proved: b"add a a.csv\nadd b b.csv\nprove a#1 b#1",
    },
    Proof {
        decl: TWO_LOGS_DECLARATION,
        log: ON_TIME,
        added: ADDED,
        shown: SHOWN,
        proved: b"add a a.csv\nadd b b.csv\nprove b#2 a#1",
    },
    Proof {
        decl: TWO_LOGS_DECLARATION,
        log: ON_TIME,
        added: ADDED,
        shown: SHOWN,
        proved: b"add a a.csv\nadd b b.csv\nprove a#2 a#2",
    },
    Proof {
        decl: TWO_LOGS_DECLARATION,
        log: LATE,
        added: ADDED,
        shown: SHOWN,
        proved: b"add a a.csv\nadd b b.csv\nprove b#1 a#2",
    },
    Proof {
        decl: TWO_LOGS_DECLARATION,
        log: TOO_LATE,
        added: ADDED,
        shown: SHOWN,
        proved: b"add a a.csv\nadd b b.csv\nprove a#1 b#1",
    },
    Proof {
        decl: TWO_LOGS_DECLARATION,
        log: "0,local,,\n",
        added: ADDED,
        shown: SHOWN,
        proved: b"add a a.csv\nadd b b.csv\nprove a#1 b#1",
    },
    Proof {
        decl: TWO_CLOCKS_DECLARATION,
        log: ONE_SEND,
        added: CLOCKS_ADDED,
        shown: CLOCKS_SHOWN,
        proved: b"add a a.csv\nadd r r.csv\nadd b c.csv\nprove a#1 r#1",
    },
    // Nothing leaves the earlier clock.
    Proof {
        decl: TWO_CLOCKS_DECLARATION,
        log: "100,local,,\n",
        added: CLOCKS_ADDED,
        shown: CLOCKS_SHOWN,
        proved: b"add a a.csv\nadd r r.csv\nadd b c.csv\nprove a#1 b#2",
    },
    // A message from the later clock to the earlier one, which can't be.
    Proof {
        decl: TWO_CLOCKS_DECLARATION,
        log: "100,receive,m2,\n",
        added: b"add a a.csv\nadd r r.csv\n",
        shown: b"add a a.csv\nadd r r.csv\nproblem",
        proved: b"add a a.csv\nadd r r.csv\nprove a#1 r#1",
    },
];

// Runs a session over the logs of a proof, with this script.
fn run_session(
    alloc: Global,
    proof: &Proof,
    script: &[u8],
    out: &mut MemSink,
) -> Result<(), AllocError> {
    let mut files = files_of(alloc, proof.decl, proof.log, &[])?;
    let script = Script {
        text: script,
        fails: &[],
    };
    run_over(alloc, &["session", "d"], &mut files, &script, out)?;
    Ok(())
}

// How many bytes such a session prints for its additions.
fn length_of_additions(alloc: Global, proof: &Proof) -> Result<usize, AllocError> {
    let mut out = MemSink::new(alloc, 900, 300, &[])?;
    run_session(alloc, proof, proof.added, &mut out)?;
    Ok(out.bytes().len())
}

// Whether `verify` accepts this certificate of this problem.
fn is_accepted(alloc: Global, problem: &[u8], certificate: &[u8]) -> Result<bool, AllocError> {
    let mut files = MemFiles::new(alloc, &[])?;
    files.put("p", problem)?;
    files.put("c", certificate)?;
    let wanted = Wanted {
        words: &["verify", "p", "c"],
        status: Status::Done,
        printed: "yes\n",
    };
    prints(alloc, &wanted, &mut files, &[])
}

// Whether what stands behind so many bytes is accepted as a certificate of this problem.
fn is_accepted_behind(
    alloc: Global,
    problem: &[u8],
    all: &[u8],
    begins: usize,
) -> Result<bool, AllocError> {
    match all.get(begins..) {
        Some(certificate) => is_accepted(alloc, problem, certificate),
        None => Ok(false),
    }
}

// Whether what `prove` replies, behind so many bytes, is accepted as a certificate of this problem.
fn proves(alloc: Global, proof: &Proof, begins: usize, problem: &[u8]) -> Result<bool, AllocError> {
    let mut out = MemSink::new(alloc, 2_000, 300, &[])?;
    run_session(alloc, proof, proof.proved, &mut out)?;
    is_accepted_behind(alloc, problem, out.bytes(), begins)
}

// The same, where the problem stands behind so many bytes.
fn proves_behind(
    alloc: Global,
    proof: &Proof,
    begins: usize,
    all: &[u8],
) -> Result<bool, AllocError> {
    match all.get(begins..) {
        Some(problem) => proves(alloc, proof, begins, problem),
        None => Ok(false),
    }
}

// Whether what `prove` replies is accepted as a certificate of what `problem` replies.
fn proof_holds(alloc: Global, proof: &Proof) -> Result<bool, AllocError> {
    let begins = length_of_additions(alloc, proof)?;
    let mut out = MemSink::new(alloc, 2_000, 300, &[])?;
    run_session(alloc, proof, proof.shown, &mut out)?;
    proves_behind(alloc, proof, begins, out.bytes())
}

#[test]
fn proofs_hold(rt: HostRuntime) -> Result<(), Fail> {
    for proof in &PROOFS {
        assert!(rt; proof_holds(rt.alloc(), proof)?);
    }
    Ok(())
}
