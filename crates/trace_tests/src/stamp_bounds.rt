// The bounds of the stamps of a label's own trace.
use crate::vantages::is_refused_with;
use decl::{Decl, Label, read_decl};
use problem_model::StampBounds;
use std::alloc::Global;
use std::test::*;

// How labels go on that are refused, with the number of their first fault and the label that has it.
const FAULTS: [(&str, u32, u32); 15] = [
    ("kind = 'log'\nearly = 4611686018427387904", 5, 1),
    ("kind = 'log'\nlate = 4611686018427387904", 5, 1),
    ("kind = 'capture'\nearly = 9223372036854775807", 5, 1),
    ("kind = 'capture'\nlate = -1", 5, 1),
    ("kind = 'log'\nearly = 0\nlate = -1", 5, 1),
    ("kind = 'log'\nearly = '1'", 3, 1),
    ("kind = 'capture'\nlate = 1.0", 3, 1),
    ("kind = 'capture'\nearly = -1\nlate = true", 3, 1),
    ("kind = 'log'\nlate = [1]\ninterface = 1", 3, 1),
    // Keys and names are before numbers, and these before subnets.
    ("kind = 'log'\nlates = 1\nlate = '1'", 2, 1),
    ("kind = 'log'\nlate = -1\ninterface = 1", 2, 1),
    ("kind = 'log'\nlate = -1\nclock = 'x'", 4, 1),
    ("kind = 'capture'\nlate = -1\nbeyond = ['x']", 5, 1),
    (
        "kind = 'log'\nlate = 1\n[labels.m]\nhost = 'b'\nkind = 'log'\nearly = -1",
        5,
        2,
    ),
    (
        "kind = 'log'\nearly = -1\n[labels.m]\nhost = 'x'\nkind = 'log'",
        5,
        1,
    ),
];

#[test]
fn faults_of_bounds(rt: HostRuntime) {
    for (rest, number, index) in &FAULTS {
        assert!(rt;
            is_refused_with(rt.alloc(), rest, *number, *index) == Ok(true),
            "{rest}"
        );
    }
}

// The labels of a declaration: the early and the late that each gives, in ns, and those of its trace's stamps.
type Said = (Option<u64>, Option<u64>, u64, u64);

// A declaration, whether events have bounds of their own, and its labels.
struct Case {
    text: &'static str,
    own: bool,
    labels: &'static [Said],
}

// A host with a clock, and one with two.
macro_rules! hosts {
    ($labels:literal) => {
        concat!(
            "[hosts.a]\nearly = 3\nlate = 7\n[hosts.b]\nclocks = [{ name = 'b1', late = 5 }, { name = 'b2', early = 1 }]\n",
            $labels
        )
    };
}

const CASES: [Case; 5] = [
    Case {
        text: hosts!(
            "[labels.l]\nhost = 'a'\nkind = 'log'\n[labels.m]\nhost = 'b'\nkind = 'capture'\nclock = 'b2'"
        ),
        own: false,
        labels: &[(None, None, 3, 7), (None, None, 1, 0)],
    },
    // A log and a capture by one clock, and what another label's trace has of its clock.
    Case {
        text: hosts!(
            "[labels.l]\nhost = 'a'\nkind = 'log'\nlate = 1000000\n[labels.m]\nhost = 'a'\nkind = 'capture'\nlate = 1000\n\
            early = 2\n[labels.n]\nhost = 'b'\nkind = 'log'"
        ),
        own: true,
        labels: &[
            (None, Some(1_000_000), 3, 1_000_000),
            (Some(2), Some(1000), 2, 1000),
            (None, None, 0, 5),
        ],
    },
    // The least and the greatest numbers; one that is the clock's is given too.
    Case {
        text: hosts!(
            "[labels.l]\nhost = 'a'\nkind = 'capture'\nearly = 0\n[labels.m]\nhost = 'a'\nkind = 'log'"
        ),
        own: true,
        labels: &[(Some(0), None, 0, 7), (None, None, 3, 7)],
    },
    Case {
        text: hosts!(
            "[labels.l]\nhost = 'a'\nkind = 'capture'\n[labels.m]\nhost = 'b'\nkind = 'log'\nclock = 'b2'\n\
            early = 4611686018427387903\nlate = 4611686018427387903"
        ),
        own: true,
        labels: &[
            (None, None, 3, 7),
            (
                Some(4_611_686_018_427_387_903),
                Some(4_611_686_018_427_387_903),
                4_611_686_018_427_387_903,
                4_611_686_018_427_387_903,
            ),
        ],
    },
    Case {
        text: hosts!("[labels.l]\nhost = 'a'\nkind = 'log'\nlate = 7"),
        own: true,
        labels: &[(None, Some(7), 3, 7)],
    },
];

fn gives(label: &Label, said: &Said) -> bool {
    label.early.map(|early| early.get()) == said.0 && label.late.map(|late| late.get()) == said.1
}

fn are_bounds(bounds: Option<StampBounds>, early: u64, late: u64) -> bool {
    match bounds {
        Some(bounds) => bounds.early.get() == early && bounds.late.get() == late,
        None => false,
    }
}

fn are_own(bounds: Option<StampBounds>, own: bool, said: &Said) -> bool {
    if own {
        are_bounds(bounds, said.2, said.3)
    } else {
        bounds.is_none()
    }
}

fn is_label(decl: &Decl, label: &Label, own: bool, said: &Said) -> bool {
    gives(label, said)
        && are_bounds(decl.bounds_at(label), said.2, said.3)
        && are_own(decl.own_bounds(label), own, said)
}

fn says(decl: &Decl, case: &Case) -> bool {
    decl.has_own_bounds() == case.own
        && decl.labels.len() == case.labels.len()
        && decl
            .labels
            .iter()
            .zip(case.labels)
            .all(|(label, said)| is_label(decl, label, case.own, said))
}

fn holds(alloc: Global, case: &Case) -> bool {
    match read_decl(alloc, case.text.as_bytes()) {
        Ok(decl) => says(&decl, case),
        Err(_) => false,
    }
}

#[test]
fn bounds_of_labels(rt: HostRuntime) {
    for (k, case) in CASES.iter().enumerate() {
        assert!(rt; holds(rt.alloc(), case), "case {k}");
    }
}
