ghost use Rattle.std.specs.Prelude.{◌≡◌, ◌<◌, ◌≤◌, None, IfSome};
ghost use Rattle.problem.specs.Listing.{listing_of};
ghost use Rattle.problem_graph.specs.ListedStanding.{IsEventAt};
ghost use Rattle.row_pool.specs.Pool.{free_rows};
ghost use Rattle.solver.specs.Solution.{IsSolution};
ghost use Rattle.queries.specs.Asking.{IsListedReading};

use atto::{Nano, Steps};
use ports::{Failed, MemSink};
use problem::{Listing, Problem, read_problem};
use problem_solver::solve;
use queries::{Comparison, is_consistent, write_comparison, write_proof, write_time};
use shared_fixtures::{
    APART_PROBLEM, APART_PROOF, CONTRADICTING_PROBLEM, CYCLE, ONE_WAY_PROBLEM, OPEN_PROBLEM,
    TWO_LOGS_PROBLEM, TWO_LOGS_PROOF,
};
use solver::Solver;
use std::alloc::Global;
use std::marker::Brand;
use std::sync::ledger::{Blank, Ledger};
use std::test::*;

// Two events at one reading.
const TOGETHER: &str = "problem 1\nclock c 0 0 0 0\nevent p c 5\nevent q c 5\nend\n";

// A source, whose clock r keeps time, and a host. Event r#1, stamped 1000, sends to b#1, which sends back to r#2. Their
// places are 1, 2 and 0.
const SOURCE: &str =
    "problem 1\nclock r 0 0 0 0\nclock b 0 0 0 0\nevent r#2 r 1500\nevent r#1 r 1000\nevent b#1 b 250\n\
    message r#1 b#1 10 20\nmessage b#1 r#2 0 none\nend\n";

// The same without the way back, and the source may stamp 2 ns early or 3 ns late.
const STRAYING: &str =
    "problem 1\nclock r 0 0 2 3\nclock b 0 0 0 0\nevent r#1 r 1000\nevent b#1 b 250\nmessage r#1 b#1 10 20\nend\n";

// What may be asked of two events.
#[derive(Clone, Copy)]
enum Question {
    Interval,
    Order,
    Proof,
}

// A question on two events of a problem, which writes fail, how it is answered, and what is written by then.
#[derive(Clone, Copy)]
struct Asked<'a> {
    problem: &'a str,
    from: u32,
    to: u32,
    question: Question,
    fails: &'a [u32],
    answer: Result<(), Failed>,
    written: &'a str,
}

// What is to be written of two events.
struct Case {
    problem: &'static str,
    from: u32,
    to: u32,
    interval: &'static str,
    order: &'static str,
}

const CASES: [Case; 9] = [
    Case {
        problem: TWO_LOGS_PROBLEM,
        from: 0,
        to: 2,
        interval: "interval 10.000000000 20.000000000\n",
        order: "order before\n",
    },
    Case {
        problem: TWO_LOGS_PROBLEM,
        from: 2,
        to: 0,
        interval: "interval -20.000000000 -10.000000000\n",
        order: "order after\n",
    },
    Case {
        problem: TWO_LOGS_PROBLEM,
        from: 3,
        to: 3,
        interval: "interval 0.000000000 0.000000000\n",
        order: "order same\n",
    },
    Case {
        problem: TOGETHER,
        from: 0,
        to: 1,
        interval: "interval 0.000000000 0.000000000\n",
        order: "order same\n",
    },
    Case {
        problem: APART_PROBLEM,
        from: 0,
        to: 1,
        interval: "interval -inf +inf\n",
        order: "order open\n",
    },
    Case {
        problem: OPEN_PROBLEM,
        from: 0,
        to: 1,
        interval: "interval 0.000000000 +inf\n",
        order: "order open\n",
    },
    Case {
        problem: ONE_WAY_PROBLEM,
        from: 0,
        to: 1,
        interval: "interval 1.000000000 +inf\n",
        order: "order before\n",
    },
    Case {
        problem: ONE_WAY_PROBLEM,
        from: 1,
        to: 0,
        interval: "interval -inf -1.000000000\n",
        order: "order after\n",
    },
    Case {
        problem: CONTRADICTING_PROBLEM,
        from: 0,
        to: 3,
        interval: CYCLE,
        order: CYCLE,
    },
];

// What is to be written of an event by a clock, or so far where these writes fail.
struct Timed {
    problem: &'static str,
    clock: u32,
    event: u32,
    fails: &'static [u32],
    answer: Result<(), Failed>,
    written: &'static str,
}

const TIMES: [Timed; 10] = [
    Timed {
        problem: SOURCE,
        clock: 0,
        event: 2,
        fails: &[],
        answer: Ok(()),
        written: "time 1010.000000000 1020.000000000\n",
    },
    Timed {
        problem: SOURCE,
        clock: 0,
        event: 1,
        fails: &[],
        answer: Ok(()),
        written: "time 1000.000000000 1000.000000000\n",
    },
    Timed {
        problem: SOURCE,
        clock: 0,
        event: 0,
        fails: &[],
        answer: Ok(()),
        written: "time 1500.000000000 1500.000000000\n",
    },
    Timed {
        problem: STRAYING,
        clock: 0,
        event: 0,
        fails: &[],
        answer: Ok(()),
        written: "time 998.000000000 1003.000000000\n",
    },
    Timed {
        problem: STRAYING,
        clock: 0,
        event: 1,
        fails: &[],
        answer: Ok(()),
        written: "time 1008.000000000 1023.000000000\n",
    },
    Timed {
        problem: APART_PROBLEM,
        clock: 0,
        event: 1,
        fails: &[],
        answer: Ok(()),
        written: "time -inf +inf\n",
    },
    Timed {
        problem: OPEN_PROBLEM,
        clock: 0,
        event: 1,
        fails: &[],
        answer: Ok(()),
        written: "time 5.000000000 +inf\n",
    },
    Timed {
        problem: CONTRADICTING_PROBLEM,
        clock: 0,
        event: 3,
        fails: &[],
        answer: Ok(()),
        written: CYCLE,
    },
    Timed {
        problem: SOURCE,
        clock: 0,
        event: 2,
        fails: &[3],
        answer: Err(Failed),
        written: "time 1010.0000",
    },
    Timed {
        problem: CONTRADICTING_PROBLEM,
        clock: 0,
        event: 3,
        fails: &[4],
        answer: Err(Failed),
        written: "certificate 1\ncycle\n",
    },
];

// Proofs of intervals, and what is written of them where a write fails.
const PROOFS: [Asked<'static>; 5] = [
    Asked {
        problem: TWO_LOGS_PROBLEM,
        from: 0,
        to: 2,
        question: Question::Proof,
        fails: &[],
        answer: Ok(()),
        written: TWO_LOGS_PROOF,
    },
    Asked {
        problem: APART_PROBLEM,
        from: 0,
        to: 1,
        question: Question::Proof,
        fails: &[],
        answer: Ok(()),
        written: APART_PROOF,
    },
    Asked {
        problem: CONTRADICTING_PROBLEM,
        from: 0,
        to: 3,
        question: Question::Proof,
        fails: &[],
        answer: Ok(()),
        written: CYCLE,
    },
    Asked {
        problem: TWO_LOGS_PROBLEM,
        from: 0,
        to: 2,
        question: Question::Proof,
        fails: &[4],
        answer: Err(Failed),
        written: "certificate 1\nends a#",
    },
    Asked {
        problem: CONTRADICTING_PROBLEM,
        from: 0,
        to: 3,
        question: Question::Proof,
        fails: &[1],
        answer: Err(Failed),
        written: "",
    },
];

// Whether the answer is this one, and this is written so far.
fn is_so(
    out: &MemSink,
    given: Result<(), Failed>,
    answer: Result<(), Failed>,
    written: &str,
) -> bool {
    given == answer && out.bytes() == written.as_bytes()
}

// The node of the event at a place.
fn node_of(p: &Problem, place: u32) -> Option<u32>
    ensures { IfSome result (λ node. IsEventAt (listing_of p.now) place node) }
{
    if place < p.event_count() {
        let (_, node) = p.event_at(place);
        return Some(node);
    }
    None
}

// Writes what is asked of two events.
fn ask<L: Ledger>(
    p: &Problem,
    solver: &mut Solver,
    asked: &Asked<'_>,
    out: &mut MemSink,
    steps: &mut Steps<L>,
) -> Option<Result<(), Failed>>
    requires solution { IsSolution p.now solver.old }
    requires free { 2 ≤ free_rows solver.old.pool }
{
    let first = node_of(p, asked.from)?;
    let second = node_of(p, asked.to)?;
    Some(match asked.question {
        Question::Interval => {
            let asked = queries::Asked::Interval;
            write_comparison(
                p,
                solver,
                Comparison {
                    asked,
                    first,
                    second,
                },
                out,
                steps,
            )
        }
        Question::Order => {
            let asked = queries::Asked::Order;
            write_comparison(
                p,
                solver,
                Comparison {
                    asked,
                    first,
                    second,
                },
                out,
                steps,
            )
        }
        Question::Proof => write_proof(p, solver, first, second, out, steps),
    })
}

// Whether a question on two events is answered so.
fn is_answered<L: Ledger>(
    alloc: Global,
    p: &Problem,
    solver: &mut Solver,
    asked: &Asked<'_>,
    steps: &mut Steps<L>,
) -> Option<bool>
    requires solution { IsSolution p.now solver.old }
    requires free { 2 ≤ free_rows solver.old.pool }
{
    let mut out = MemSink::new(alloc, 2000, 7, asked.fails).ok()?;
    let given = ask(p, solver, asked, &mut out, steps)?;
    Some(is_so(&out, given, asked.answer, asked.written))
}

// The same of a problem that is solved for it.
fn pair_is<L: Ledger>(alloc: Global, p: &Problem, asked: &Asked<'_>, blank: Blank) -> Option<bool>
    requires blank { (blank.name ≡ L.name) × (blank.parts ≡ L.parts) × (0 < L.parts) }
{
    let mut steps = Steps::<L>::open(blank);
    let mut solver = solve(alloc, p, 2, &mut steps).ok()?;
    is_answered(alloc, p, &mut solver, asked, &mut steps)
}

// The same of a problem by its text.
fn pair_so(alloc: Global, asked: &Asked<'_>) -> Option<bool> {
    let p = read_problem(alloc, asked.problem.as_bytes()).ok()?;
    pair_is::<Brand>(alloc, &p, asked, Blank::new(1))
}

// The first reading of a clock, by its stamp and its node.
fn first_reading(p: &Problem, clock: u32) -> Option<(Nano, u32)>
    ensures { IfSome result (λ reading. IsListedReading (listing_of p.now) clock reading.0 reading.1) }
{
    for place in 0..p.reading_count() {
        let (on, stamp, node) = p.reading_at(place);
        if on == clock {
            return Some((stamp, node));
        }
    }
    None
}

// Writes the time of an event by a clock, of which a reading is kept as the source's.
fn ask_time<L: Ledger>(
    p: &Problem,
    solver: &mut Solver,
    case: &Timed,
    out: &mut MemSink,
    steps: &mut Steps<L>,
) -> Option<Result<(), Failed>>
    requires solution { IsSolution p.now solver.old }
    requires none { solver.old.kept.source ≡ None }
    requires free { 2 ≤ free_rows solver.old.pool }
{
    let reading = first_reading(p, case.clock)?;
    let event = node_of(p, case.event)?;
    solver.keep_source(reading.1, steps);
    Some(write_time(p, solver, reading.0, event, out))
}

// Whether the time of an event is answered so.
fn is_timed<L: Ledger>(
    alloc: Global,
    p: &Problem,
    solver: &mut Solver,
    case: &Timed,
    steps: &mut Steps<L>,
) -> Option<bool>
    requires solution { IsSolution p.now solver.old }
    requires none { solver.old.kept.source ≡ None }
    requires free { 2 ≤ free_rows solver.old.pool }
{
    let mut out = MemSink::new(alloc, 600, 7, case.fails).ok()?;
    let given = ask_time(p, solver, case, &mut out, steps)?;
    Some(is_so(&out, given, case.answer, case.written))
}

// The same of a problem that is solved for it.
fn time_is<L: Ledger>(alloc: Global, p: &Problem, case: &Timed, blank: Blank) -> Option<bool>
    requires blank { (blank.name ≡ L.name) × (blank.parts ≡ L.parts) × (0 < L.parts) }
{
    let mut steps = Steps::<L>::open(blank);
    let mut solver = solve(alloc, p, 2, &mut steps).ok()?;
    is_timed(alloc, p, &mut solver, case, &mut steps)
}

// The same of a case by its text.
fn time_so(alloc: Global, case: &Timed) -> Option<bool> {
    let p = read_problem(alloc, case.problem.as_bytes()).ok()?;
    time_is::<Brand>(alloc, &p, case, Blank::new(1))
}

// Whether a problem has an execution.
fn consistent_is<L: Ledger>(alloc: Global, p: &Problem, blank: Blank) -> Option<bool>
    requires blank { (blank.name ≡ L.name) × (blank.parts ≡ L.parts) × (0 < L.parts) }
{
    let mut steps = Steps::<L>::open(blank);
    let solver = solve(alloc, p, 0, &mut steps).ok()?;
    Some(is_consistent(&solver))
}

// The same of a problem by its text.
fn consistent(alloc: Global, problem: &str) -> Option<bool> {
    let p = read_problem(alloc, problem.as_bytes()).ok()?;
    consistent_is::<Brand>(alloc, &p, Blank::new(1))
}

// A question of a case, over a sink where each write succeeds.
fn whole(case: &Case, question: Question, written: &'static str) -> Asked<'static> {
    Asked {
        problem: case.problem,
        from: case.from,
        to: case.to,
        question,
        fails: &[],
        answer: Ok(()),
        written,
    }
}

#[test]
fn intervals_and_orders(rt: HostRuntime) {
    let alloc = rt.alloc();
    for case in &CASES {
        assert!(rt; pair_so(alloc, &whole(case, Question::Interval, case.interval)) == Some(true));
        assert!(rt; pair_so(alloc, &whole(case, Question::Order, case.order)) == Some(true));
    }
}

const FAILING: [Asked<'static>; 4] = [
    Asked {
        problem: TWO_LOGS_PROBLEM,
        from: 0,
        to: 2,
        question: Question::Interval,
        fails: &[3],
        answer: Err(Failed),
        written: "interval 10.00",
    },
    Asked {
        problem: CONTRADICTING_PROBLEM,
        from: 0,
        to: 3,
        question: Question::Interval,
        fails: &[1],
        answer: Err(Failed),
        written: "",
    },
    Asked {
        problem: TWO_LOGS_PROBLEM,
        from: 0,
        to: 2,
        question: Question::Order,
        fails: &[2],
        answer: Err(Failed),
        written: "order b",
    },
    Asked {
        problem: CONTRADICTING_PROBLEM,
        from: 0,
        to: 3,
        question: Question::Order,
        fails: &[4],
        answer: Err(Failed),
        written: "certificate 1\ncycle\n",
    },
];

#[test]
fn writes_that_fail(rt: HostRuntime) {
    for failing in &FAILING {
        assert!(rt; pair_so(rt.alloc(), failing) == Some(true));
    }
}

#[test]
fn consistency(rt: HostRuntime) {
    for (problem, wanted) in [
        (TWO_LOGS_PROBLEM, true),
        (APART_PROBLEM, true),
        (CONTRADICTING_PROBLEM, false),
        ("problem 1\nend\n", true),
    ] {
        assert!(rt; consistent(rt.alloc(), problem) == Some(wanted));
    }
}

#[test]
fn times_by_a_clock(rt: HostRuntime) {
    for case in &TIMES {
        assert!(rt; time_so(rt.alloc(), case) == Some(true));
    }
}

#[test]
fn proofs_of_intervals(rt: HostRuntime) {
    for case in &PROOFS {
        assert!(rt; pair_so(rt.alloc(), case) == Some(true));
    }
}
