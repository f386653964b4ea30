// Certificates of intervals, each as a whole text.
ghost use Rattle.std.specs.Prelude.{◌≡◌, ◌<◌, ◌≤◌, [], length};
ghost use Rattle.attain.specs.Ends.{AreRowsAt};
ghost use Rattle.row_pool.specs.Pool.{free_rows};
ghost use Rattle.solver.specs.Solution.{IsSolution};

use crate::fixtures::{ALONE_PROBLEM, is_solved, solve_alone};
use attain::{NodeRows, write_ends};
use atto::Steps;
use ports::MemSink;
use problem::{Problem, read_problem};
use queries::executions;
use row_pool::Cell;
use shared_fixtures::{APART_PROBLEM, ONE_WAY_PROBLEM, TWO_LOGS_PROBLEM};
use solver::Solver;
use std::alloc::Global;
use std::marker::Brand;
use std::sync::ledger::{Blank, Ledger};
use std::test::*;

// Clocks that drift. The event `c1` comes behind others without a limit, `d1` before others without one.
const DRIFT: &str =
    "problem 1\nclock a 100 200 0 0\nclock b 300 400 1 2\nclock c 0 0 0 0\nclock d 0 0 0 0\nevent a1 a 1000\n\
    event p a 3000000\nevent q b 5000\nevent c1 c 70\nevent d1 d 90\nmessage p q 10 25\nmessage a1 c1 5 none\n\
    message d1 p 7 none\nend\n";

// Events with bounds of their own: by those of their clock they are 3 to 17 ns apart.
const BOUNDED: &str = "problem 3\nclock c 0 0 0 7\nevent p c 0 0 2\nevent q c 10 0 0\nend\n";

// A problem, the places of two of its events, and the certificate of the interval between them.
struct Case {
    problem: &'static str,
    first: u32,
    second: u32,
    printed: &'static str,
}

const CASES: [Case; 7] = [
    Case {
        problem: ONE_WAY_PROBLEM,
        first: 0,
        second: 1,
        printed: "certificate 1\nends p q\nupper +inf\ninside c\nevent p 0.000000000\nevent q 1.000000000\n\
        reading c 5 0.000000000\nreading d 3 1.000000000\nlower 1.000000000\nstep delay-least p q -1.000000000\n\
        event p 0.000000000\nevent q 1.000000000\nreading c 5 0.000000000\nreading d 3 1.000000000\nend\n",
    },
    Case {
        problem: TWO_LOGS_PROBLEM,
        first: 0,
        second: 2,
        printed: "certificate 1\nends a#1 b#1\nupper 20.000000000\nstep delay-most a#1 b#1 20.000000000\nevent a#1 0.000000000\n\
        event a#2 80.000000000\nevent b#1 20.000000000\nevent b#2 70.000000000\nreading a 100 0.000000000\n\
        reading a 180 80.000000000\nreading b 250 20.000000000\nreading b 300 70.000000000\nlower 10.000000000\n\
        step delay-least a#1 b#1 -10.000000000\nevent a#1 0.000000000\nevent a#2 80.000000000\nevent b#1 10.000000000\n\
        event b#2 60.000000000\nreading a 100 0.000000000\nreading a 180 80.000000000\nreading b 250 10.000000000\n\
        reading b 300 60.000000000\nend\n",
    },
    Case {
        problem: APART_PROBLEM,
        first: 0,
        second: 1,
        printed: "certificate 1\nends a#1 b#1\nupper +inf\ninside a\nevent a#1 0.000000000\nevent b#1 0.000000000\n\
        reading a 0 0.000000000\nreading b 0 0.000000000\nlower -inf\ninside b\nevent a#1 0.000000000\n\
        event b#1 0.000000000\nreading a 0 0.000000000\nreading b 0 0.000000000\nend\n",
    },
    Case {
        problem: ALONE_PROBLEM,
        first: 0,
        second: 0,
        printed: "certificate 1\nends p p\nupper 0.000000000\nevent p 0.000000000\nreading a 7 2.000000000\nlower 0.000000000\n\
        event p 0.000000000\nreading a 7 -3.000000000\nend\n",
    },
    Case {
        problem: DRIFT,
        first: 1,
        second: 2,
        printed: "certificate 1\nends p q\nupper 25.000000000\nstep delay-most p q 25.000000000\nevent a1 -2998999.700100000\n\
        event p 0.000000000\nevent q 25.000000000\nevent c1 -2.000000000\nevent d1 -7.000000000\n\
        reading a 1000 -2998999.700100000\nreading a 3000000 0.000000000\nreading b 5000 26.000000000\n\
        reading c 70 -2.000000000\nreading d 90 -7.000000000\nlower 10.000000000\nstep delay-least p q -10.000000000\n\
        event a1 -2999000.599800000\nevent p 0.000000000\nevent q 10.000000000\nevent c1 -2998995.599800000\n\
        event d1 -2999000.599800000\nreading a 1000 -2999000.599800000\nreading a 3000000 0.000000000\n\
        reading b 5000 8.000000000\nreading c 70 -2998995.599800000\nreading d 90 -2999000.599800000\nend\n",
    },
    Case {
        problem: DRIFT,
        first: 0,
        second: 2,
        printed: "certificate 1\nends a1 q\nupper 2999025.599800000\nstep delay-most p q 25.000000000\nstep late p 0.000000000\n\
        step span-most a 1000 3000000 2999000.599800000\nstep early a1 0.000000000\nevent a1 0.000000000\n\
        event p 2999000.599800000\nevent q 2999025.599800000\nevent c1 2998998.599800000\nevent d1 2998993.599800000\n\
        reading a 1000 0.000000000\nreading a 3000000 2999000.599800000\nreading b 5000 2999026.599800000\n\
        reading c 70 2998998.599800000\nreading d 90 2998993.599800000\nlower 2999009.700100000\n\
        step delay-least p q -10.000000000\nstep early p 0.000000000\n\
        step span-least a 1000 3000000 -2998999.700100000\nstep late a1 0.000000000\nevent a1 0.000000000\n\
        event p 2998999.700100000\nevent q 2999009.700100000\nevent c1 5.000000000\nevent d1 0.000000000\n\
        reading a 1000 0.000000000\nreading a 3000000 2998999.700100000\nreading b 5000 2999007.700100000\n\
        reading c 70 5.000000000\nreading d 90 0.000000000\nend\n",
    },
    Case {
        problem: BOUNDED,
        first: 0,
        second: 1,
        printed: "certificate 1\nends p q\nupper 10.000000000\nstep late q 0.000000000\nstep span-most c 0 10 10.000000000\n\
        step early p 0.000000000\nevent p 0.000000000\nevent q 10.000000000\nreading c 0 0.000000000\n\
        reading c 10 10.000000000\nlower 8.000000000\nstep early q 0.000000000\nstep span-least c 0 10 -10.000000000\n\
        step late p 2.000000000\nevent p 0.000000000\nevent q 8.000000000\nreading c 0 -2.000000000\n\
        reading c 10 8.000000000\nend\n",
    },
];

// Writes the certificate of a case by the rows of the first event.
fn write_by(p: &Problem, s: &Solver, from: &[Cell], to: &[Cell], case: &Case, out: &mut MemSink)
    requires solution { IsSolution p.now s.now }
    requires solved { s.now.contradiction ≡ [] }
    requires rows { AreRowsAt s.now.graph case.now.first from.now to.now }
    requires first { case.now.first < length p.now.events }
    requires second { case.now.second < length p.now.events }
{
    let _ = p.events();
    let _ = p.readings();
    executions();
    let rows = NodeRows::new(s.graph(), s.earliest(), case.first, from, to);
    let _failed = write_ends(p, &rows, case.second, out);
}

// Writes the certificate of a case, by rows that are lent for it, with their steps counted by this ledger.
fn certify<L: Ledger>(p: &Problem, s: &mut Solver, case: &Case, out: &mut MemSink, blank: Blank)
    requires blank { (blank.name ≡ L.name) × (blank.parts ≡ L.parts) × (0 < L.parts) }
    requires solution { IsSolution p.now s.old }
    requires solved { s.old.contradiction ≡ [] }
    requires free { 2 ≤ free_rows s.old.pool }
    requires first { case.now.first < length p.now.events }
    requires second { case.now.second < length p.now.events }
{
    let _ = p.events();
    let _ = p.readings();
    let mut steps = Steps::<L>::open(blank);
    let lent = s.lend(case.first, &mut steps);
    let (from, to) = s.lent(&lent);
    write_by(p, s, from, to, case, out);
    s.give_back(lent);
}

// Whether the certificate of a case is written so.
fn writes(alloc: Global, p: &Problem, s: &mut Solver, case: &Case) -> Option<bool>
    requires solution { IsSolution p.now s.old }
    requires solved { s.old.contradiction ≡ [] }
    requires free { 2 ≤ free_rows s.old.pool }
    requires first { case.now.first < length p.now.events }
    requires second { case.now.second < length p.now.events }
{
    let mut out = MemSink::new(alloc, 2000, 64, &[]).ok()?;
    certify::<Brand>(p, s, case, &mut out, Blank::new(1));
    Some(out.bytes() == case.printed.as_bytes())
}

// Whether there is an execution, and the certificate is written so.
fn holds(alloc: Global, p: &Problem, s: &mut Solver, case: &Case) -> Option<bool>
    requires solution { IsSolution p.now s.old }
    requires free { 2 ≤ free_rows s.old.pool }
    requires first { case.now.first < length p.now.events }
    requires second { case.now.second < length p.now.events }
{
    if !is_solved(s) {
        return Some(false);
    }
    writes(alloc, p, s, case)
}

// The same of the problem.
fn solves(alloc: Global, p: &Problem, case: &Case) -> Option<bool>
    requires first { case.now.first < length p.now.events }
    requires second { case.now.second < length p.now.events }
{
    let mut s = solve_alone(alloc, p).ok()?;
    holds(alloc, p, &mut s, case)
}

// The same of a case by its text.
fn is_so(alloc: Global, case: &Case) -> Option<bool> {
    let p = read_problem(alloc, case.problem.as_bytes()).ok()?;
    let events = p.events().len() as u32;
    if case.first >= events || case.second >= events {
        return Some(false);
    }
    solves(alloc, &p, case)
}

#[test]
fn certificates_of_intervals(rt: HostRuntime) {
    for case in &CASES {
        assert!(rt; is_so(rt.alloc(), case) == Some(true));
    }
}
