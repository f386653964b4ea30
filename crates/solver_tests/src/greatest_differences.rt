// Greatest differences of problems that are read.
ghost use Rattle.std.specs.Prelude.{◌≡◌, ◌<◌, ◌≤◌, [], true, length};
ghost use Rattle.row_pool.specs.Pool.{free_rows};
ghost use Rattle.solver.specs.Changes.{KeepsAnswer};
ghost use Rattle.solver.specs.Current.{IsCurrent};

use crate::fixtures::{ALONE_PROBLEM, is_solved, solve_alone};
use atto::Steps;
use problem::{Problem, read_problem};
use problem_model::{Event, Node};
use row_pool::{Cell, Pair, Reach};
use shared_fixtures::{APART_PROBLEM, TWO_LOGS_PROBLEM};
use solver::Solver;
use std::alloc::{AllocError, Global};
use std::marker::Brand;
use std::sync::ledger::{Blank, Ledger};
use std::test::*;

// The event `q` is at least 10 ns and at most 25 ns behind `p`, and its clock reads it 1 ns early to 2 ns late.
const TOLERANT: &str =
    "problem 1\nclock a 0 0 0 0\nclock b 0 0 1 2\nevent p a 3000\nevent q b 5000\nmessage p q 10 25\nend\n";

// A problem, the places of two of its events, and the greatest differences: of these events, and of the first one's
// reading and the second one.
struct Case {
    problem: &'static str,
    first: u32,
    second: u32,
    events: Pair,
    reading: Pair,
}

const NEVER: Pair = Pair {
    up: Reach::Never,
    down: Reach::Never,
};

const CASES: [Case; 5] = [
    Case {
        problem: TWO_LOGS_PROBLEM,
        first: 0,
        second: 2,
        events: Pair {
            up: Reach::At(20_000_000_000),
            down: Reach::At(-10_000_000_000),
        },
        reading: Pair {
            up: Reach::At(20_000_000_000),
            down: Reach::At(-10_000_000_000),
        },
    },
    Case {
        problem: APART_PROBLEM,
        first: 0,
        second: 1,
        events: NEVER,
        reading: NEVER,
    },
    Case {
        problem: ALONE_PROBLEM,
        first: 0,
        second: 0,
        events: Pair {
            up: Reach::At(0),
            down: Reach::At(0),
        },
        reading: Pair {
            up: Reach::At(3_000_000_000),
            down: Reach::At(2_000_000_000),
        },
    },
    Case {
        problem: TOLERANT,
        first: 0,
        second: 1,
        events: Pair {
            up: Reach::At(25_000_000_000),
            down: Reach::At(-10_000_000_000),
        },
        reading: Pair {
            up: Reach::At(25_000_000_000),
            down: Reach::At(-10_000_000_000),
        },
    },
    Case {
        problem: TOLERANT,
        first: 1,
        second: 0,
        events: Pair {
            up: Reach::At(-10_000_000_000),
            down: Reach::At(25_000_000_000),
        },
        reading: Pair {
            up: Reach::At(-8_000_000_000),
            down: Reach::At(26_000_000_000),
        },
    },
];

// Whether the rows of an event tell these greatest differences of it and a node.
fn tell(from: &[Cell], to: &[Cell], node: u32, want: Pair) -> bool {
    match (from.get(node as usize), to.get(node as usize)) {
        (Some(from), Some(to)) => {
            want == Pair {
                up: from.reach(),
                down: to.reach(),
            }
        }
        _ => false,
    }
}

// Whether the greatest differences of two nodes are so.
fn pair_so<L: Ledger>(
    s: &mut Solver,
    first: u32,
    second: u32,
    want: Pair,
    steps: &mut Steps<L>,
) -> bool
    requires current { IsCurrent s.old }
    requires solved { s.old.contradiction ≡ [] }
    requires first { first < length s.old.graph.nodes }
    requires second { second < length s.old.graph.nodes }
    requires free { 2 ≤ free_rows s.old.pool }
    ensures current { IsCurrent s.new }
    ensures answer { KeepsAnswer s.old s.new }
    ensures free { free_rows s.new.pool ≡ free_rows s.old.pool }
{
    s.pair(first, second, steps) == want
}

// Whether the rows that are lent for a node tell the greatest differences of it and another one.
fn rows_so<L: Ledger>(
    s: &mut Solver,
    first: u32,
    second: u32,
    want: Pair,
    steps: &mut Steps<L>,
) -> bool
    requires current { IsCurrent s.old }
    requires solved { s.old.contradiction ≡ [] }
    requires first { first < length s.old.graph.nodes }
    requires free { 2 ≤ free_rows s.old.pool }
    ensures current { IsCurrent s.new }
    ensures answer { KeepsAnswer s.old s.new }
    ensures free { free_rows s.new.pool ≡ free_rows s.old.pool }
{
    let lent = s.lend(first, steps);
    let (from, to) = s.lent(&lent);
    let so = tell(from, to, second, want);
    s.give_back(lent);
    so
}

// Whether all greatest differences of a case are so, by the number of the first event's reading and with their steps
// counted by this ledger.
fn tells<L: Ledger>(s: &mut Solver, case: &Case, reading: u32, blank: Blank) -> bool
    requires blank { (blank.name ≡ L.name) × (blank.parts ≡ L.parts) × (0 < L.parts) }
    requires current { IsCurrent s.old }
    requires solved { s.old.contradiction ≡ [] }
    requires first { case.now.first < length s.old.graph.nodes }
    requires second { case.now.second < length s.old.graph.nodes }
    requires reading { reading < length s.old.graph.nodes }
    requires free { 2 ≤ free_rows s.old.pool }
{
    let mut steps = Steps::<L>::open(blank);
    let events = pair_so(s, case.first, case.second, case.events, &mut steps);
    let read = pair_so(s, reading, case.second, case.reading, &mut steps);
    let rows = rows_so(s, case.first, case.second, case.events, &mut steps);
    events && read && rows
}

// Whether there is a node of this number.
fn has_node(s: &Solver, node: u32) -> bool
    ensures { result ≡ true → node < length s.now.graph.nodes }
{
    node < s.graph().nodes()
}

// Whether there is an execution, and the greatest differences are so, by the number of the first event's reading.
fn holds(s: &mut Solver, case: &Case, reading: u32) -> bool
    requires current { IsCurrent s.old }
    requires free { 2 ≤ free_rows s.old.pool }
{
    if !is_solved(s) {
        return false;
    }
    if !has_node(s, case.first) || !has_node(s, case.second) || !has_node(s, reading) {
        return false;
    }
    tells::<Brand>(s, case, reading, Blank::new(1))
}

// The number of an event's reading.
fn reading_of(s: &Solver, event: &Event) -> Option<u32> {
    s.graph().node_of(Node::Reading(event.clock, event.stamp))
}

// Whether there is an execution, and the greatest differences are so, of events of the problem.
fn is_told(s: &mut Solver, p: &Problem, case: &Case) -> Option<bool>
    requires current { IsCurrent s.old }
    requires free { 2 ≤ free_rows s.old.pool }
{
    let reading = reading_of(s, p.events().get(case.first as usize)?)?;
    Some(holds(s, case, reading))
}

// Whether the problem has an execution, and the greatest differences are so.
fn solves(alloc: Global, p: &Problem, case: &Case) -> Result<Option<bool>, AllocError> {
    let mut s = solve_alone(alloc, p)?;
    Ok(is_told(&mut s, p, case))
}

// The same of a case by its text.
fn is_so(alloc: Global, case: &Case) -> Option<bool> {
    let p = read_problem(alloc, case.problem.as_bytes()).ok()?;
    solves(alloc, &p, case).ok()?
}

#[test]
fn greatest_differences(rt: HostRuntime) {
    for case in &CASES {
        assert!(rt; is_so(rt.alloc(), case) == Some(true));
    }
}
