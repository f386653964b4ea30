// Logs of two hosts, merged.
ghost use Rattle.std.specs.Prelude.{◌≡◌, ◌<◌};
ghost use Rattle.decl.specs.Declaration.{IsDeclaration, declaration_of};

use crate::fixtures::{declared, log_of};
use atto::Steps;
use decl::Decl;
use ports::MemSink;
use problem_model::MOST_EVENTS;
use problem_solver::solve;
use queries::Stop;
use reference_traces::{messages_in, problem_of};
use replies::write_merge;
use shared_fixtures::{CYCLE, TWO_LOGS_DECLARATION};
use std::alloc::{AllocError, Global};
use std::marker::Brand;
use std::sync::ledger::{Blank, Ledger};
use std::test::*;
use traces::{Accepted, event_count};

// The logs, and what is written of them.
struct Case {
    logs: [&'static str; 2],
    merged: &'static str,
}

const CASES: [Case; 6] = [
    // A message over, and one back 50 ns later.
    Case {
        logs: [
            "100,send,m,\n140,local,,note\n180,receive,n,\n",
            "250,receive,m,\n300,send,n,\n",
        ],
        merged: "merge 5\n0.000000000 a#1\n10.000000000 b#1\n40.000000000 a#2 note\n60.000000000 b#2\n80.000000000 a#3\n",
    },
    // The second label's event comes first, and a text has a space.
    Case {
        logs: ["7,receive,m,\n", "9,send,m,x y\n"],
        merged: "merge 2\n0.000000000 b#1 x y\n10.000000000 a#1\n",
    },
    // Equal times: by label, then by number.
    Case {
        logs: [
            "5,local,,one\n5,local,,two\n",
            "3,local,,three\n3,local,,\n",
        ],
        merged: "merge 4\n0.000000000 a#1 one\n0.000000000 a#2 two\n0.000000000 b#1 three\n0.000000000 b#2\n",
    },
    // A log need not be in the order of its stamps.
    Case {
        logs: ["8,local,,late\n5,local,,early\n", ""],
        merged: "merge 2\n0.000000000 a#2 early\n3.000000000 a#1 late\n",
    },
    Case {
        logs: ["", ""],
        merged: "merge 0\n",
    },
    // The first host waits longer than the messages allow.
    Case {
        logs: [
            "100,send,m,\n195,receive,n,\n",
            "250,receive,m,\n300,send,n,\n",
        ],
        merged: CYCLE,
    },
];

fn logs_of(alloc: Global, decl: &Decl, texts: &[&str; 2]) -> Option<Vec<Accepted>>
    requires { IsDeclaration (declaration_of decl.now) }
{
    let first = log_of(alloc, decl, 0, texts[0].as_bytes())?;
    let second = log_of(alloc, decl, 1, texts[1].as_bytes())?;
    Vec::from_array(alloc, [first, second]).ok()
}

// Merges what the labels have, with the steps counted by this ledger.
fn merge<L: Ledger>(
    alloc: Global,
    decl: &Decl,
    logs: &[Accepted],
    out: &mut MemSink,
    blank: Blank,
) -> Result<Result<(), Stop>, AllocError>
    requires blank { (blank.name ≡ L.name) × (blank.parts ≡ L.parts) × (0 < L.parts) }
    requires declared { IsDeclaration (declaration_of decl.now) }
{
    if logs.len() > 65536
        || logs.len() != decl.labels.len()
        || event_count(logs) > MOST_EVENTS as u64
    {
        return Err(AllocError);
    }
    let messages = messages_in(alloc, logs)?;
    let p = problem_of(alloc, decl, logs, &messages)?;
    let mut steps = Steps::<L>::open(blank);
    let solver = solve(alloc, &p, 0, &mut steps)?;
    Ok(write_merge(alloc, decl, logs, &p, &solver, out))
}

// Whether logs are answered so over a sink where these writes fail, and written so far.
fn merged_so(
    alloc: Global,
    texts: &[&str; 2],
    fails: &[u32],
    answer: Result<(), Stop>,
    written: &str,
) -> Option<bool> {
    let decl = declared(alloc, TWO_LOGS_DECLARATION.as_bytes())?;
    let logs = logs_of(alloc, &decl, texts)?;
    let mut out = MemSink::new(alloc, 600, 7, fails).ok()?;
    let given = merge::<Brand>(alloc, &decl, &logs, &mut out, Blank::new(1)).ok()?;
    Some(given == answer && out.bytes() == written.as_bytes())
}

#[test]
fn merges(rt: HostRuntime) {
    let alloc = rt.alloc();
    for case in &CASES {
        assert!(rt; merged_so(alloc, &case.logs, &[], Ok(()), case.merged) == Some(true));
    }
}

#[test]
fn writes_that_fail(rt: HostRuntime) {
    let alloc = rt.alloc();
    let stop = Err(Stop::WriteFault);
    for (case, call, written) in [
        (0, 1, ""),
        (0, 3, "merge 5\n"),
        (0, 4, "merge 5\n0.00000"),
        (4, 2, "merge 0"),
        (5, 2, "certifi"),
    ] {
        assert!(rt; merged_so(alloc, &CASES[case].logs, &[call], stop, written) == Some(true));
    }
}
