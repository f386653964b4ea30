// Worked executions and their faults, and worked lines of certificates.
ghost use Rattle.std.specs.Prelude.{IsTrue};
ghost use Rattle.problem.specs.Listing.{listing_of};
ghost use Rattle.cert.specs.Listed.{HasNames};

use atto::Nano;
use cert::{CertError, Execution, read_execution, write_step, write_value};
use ports::MemSink;
use problem::{Listing, Problem, read_problem};
use problem_model::Bound;
use shared_fixtures::{TWO_LOGS_PROBLEM, text_with};
use std::alloc::Global;
use std::test::*;

// An execution of the two logs, line by line.
const LINES: [&str; 10] = [
    "execution 1\n",
    "event a#1 0.000000000\n",
    "event a#2 80.000000000\n",
    "event b#1 10.000000000\n",
    "event b#2 60.000000000\n",
    "reading a 100 0.000000000\n",
    "reading a 180 80.000000000\n",
    "reading b 250 10.000000000\n",
    "reading b 300 60.000000000\n",
    "end\n",
];

// What a text reads as.
fn read_text(alloc: Global, text: &[u8]) -> Result<Execution, CertError> {
    match read_problem(alloc, TWO_LOGS_PROBLEM.as_bytes()) {
        Ok(p) => read_execution(alloc, &p, text),
        Err(_) => Err(CertError::Memory),
    }
}

// What the lines read as, with another text in the place of one.
fn read_with(alloc: Global, place: usize, text: &str) -> Result<Execution, CertError> {
    match text_with(alloc, &LINES, place, text) {
        Ok(bytes) => read_text(alloc, &bytes),
        Err(_) => Err(CertError::Memory),
    }
}

// Why the lines are refused, with another text in the place of one.
fn fault_with(alloc: Global, place: usize, text: &str) -> Option<CertError> {
    read_with(alloc, place, text).err()
}

#[test]
fn an_execution_is_read(rt: HostRuntime) {
    let execution = read_with(rt.alloc(), 3, "event a#2 -80.000000001\n").expect(
        &rt,
        "an execution",
    );
    assert_eq!(rt; execution.len(), 8);
    let times = [0, -80_000_000_001, 10_000_000_000, 60_000_000_000];
    for (k, want) in times.iter().enumerate() {
        assert_eq!(rt; execution.value(k as u32).get(), *want, "at {k}");
    }
    assert_eq!(rt; execution.value(7).get(), 60_000_000_000);
}

#[test]
fn first_faults(rt: HostRuntime) {
    let cases = [
        (1, "", CertError::Syntax(1)),
        (1, "execution 2\n", CertError::Syntax(1)),
        (1, "execution 1\n\n", CertError::Syntax(2)),
        (2, "event  a#1 0.000000000\n", CertError::Syntax(2)),
        (2, "event a#1 0.000000000 \n", CertError::Syntax(2)),
        (2, "event a#1 -0.000000000\n", CertError::Syntax(2)),
        (2, "event a/1 0.000000000\n", CertError::Syntax(2)),
        (2, "event a#2 0.0\n", CertError::Syntax(2)),
        (
            2,
            "event a#2 1329227995784915872903807060.280344577\n",
            CertError::Name(2),
        ),
        (2, "event a#2 0.000000000\n", CertError::Name(2)),
        (
            2,
            "event a#1 1329227995784915872903807060.280344577\n",
            CertError::Range(2),
        ),
        (2, "reading a 100 0.000000000\n", CertError::Syntax(2)),
        (2, "end\n", CertError::Syntax(2)),
        (6, "event a#1 0.000000000\n", CertError::Syntax(6)),
        (6, "reading b 100 0.000000000\n", CertError::Name(6)),
        (6, "reading a 101 0.000000000\n", CertError::Name(6)),
        (
            6,
            "reading a 99999999999999999999 1.000000000\n",
            CertError::Name(6),
        ),
        (6, "reading a 0100 0.000000000\n", CertError::Syntax(6)),
        (9, "", CertError::Syntax(9)),
        (
            9,
            "reading b 300 -9999999999999999999999999999.000000000\n",
            CertError::Range(9),
        ),
        (10, "", CertError::Syntax(10)),
        (10, "end", CertError::Syntax(10)),
        (10, "end\n\n", CertError::Syntax(11)),
    ];
    for (place, text, want) in cases {
        assert!(rt;
            fault_with(rt.alloc(), place, text) == Some(want),
            "at {place}: {text}"
        );
    }
}

// Whether the clock or the events of a bound are those of a problem.
fn is_named(p: &Problem, bound: &Bound) -> bool
    ensures { IsTrue result → HasNames (listing_of p.now) bound.now }
{
    let clocks = p.clocks();
    let events = p.events();
    match *bound {
        Bound::SpanMost { clock, .. } => (clock as usize) < clocks.len(),
        Bound::SpanLeast { clock, .. } => (clock as usize) < clocks.len(),
        Bound::Late(event) => (event as usize) < events.len(),
        Bound::Early(event) => (event as usize) < events.len(),
        Bound::Follow { earlier, later, .. } => (earlier.max(later) as usize) < clocks.len(),
        Bound::DelayMost { send, receive } => (send.max(receive) as usize) < events.len(),
        Bound::DelayLeast { send, receive } => (send.max(receive) as usize) < events.len(),
    }
}

// Whether this is written of a step into a sink.
fn writes_step(p: &Problem, bound: &Bound, weight: i128, want: &str, out: &mut MemSink) -> bool
    requires { HasNames (listing_of p.now) bound.now }
{
    write_step(p, bound, weight, out).is_ok() && out.bytes() == want.as_bytes()
}

// Whether this is written of a step.
fn step_is(alloc: Global, p: &Problem, bound: &Bound, weight: i128, want: &str) -> bool {
    if !is_named(p, bound) {
        return false;
    }
    match MemSink::new(alloc, 256, 7, &[]) {
        Ok(mut out) => writes_step(p, bound, weight, want, &mut out),
        Err(_) => false,
    }
}

// Whether this is written of a node into a sink.
fn writes_value(p: &Problem, place: u32, value: i128, want: &str, out: &mut MemSink) -> bool {
    if u64::from(place) >= u64::from(p.event_count()) + u64::from(p.reading_count()) {
        return false;
    }
    write_value(p, place, value, out).is_ok() && out.bytes() == want.as_bytes()
}

// Whether this is written of a node.
fn value_is(alloc: Global, p: &Problem, place: u32, value: i128, want: &str) -> bool {
    match MemSink::new(alloc, 256, 7, &[]) {
        Ok(mut out) => writes_value(p, place, value, want, &mut out),
        Err(_) => false,
    }
}

#[test]
fn lines_are_written(rt: HostRuntime) {
    let p = read_problem(rt.alloc(), TWO_LOGS_PROBLEM.as_bytes()).expect(&rt, "a problem");
    let s = Nano::new(100).expect(&rt, "a stamp");
    let t = Nano::new(180).expect(&rt, "a stamp");
    let steps = [
        (
            Bound::SpanMost { clock: 0, s, t },
            80_000_000_000,
            "step span-most a 100 180 80.000000000\n",
        ),
        (
            Bound::SpanLeast { clock: 1, s, t },
            -79_999_999_999,
            "step span-least b 100 180 -79.999999999\n",
        ),
        (Bound::Late(1), 0, "step late a#2 0.000000000\n"),
        (Bound::Early(2), 7, "step early b#1 0.000000007\n"),
        (
            Bound::DelayMost {
                send: 0,
                receive: 2,
            },
            20_000_000_000,
            "step delay-most a#1 b#1 20.000000000\n",
        ),
        (
            Bound::DelayLeast {
                send: 3,
                receive: 1,
            },
            -10_000_000_000,
            "step delay-least b#2 a#2 -10.000000000\n",
        ),
    ];
    for (bound, weight, want) in &steps {
        assert!(rt; step_is(rt.alloc(), &p, bound, *weight, want), "{want}");
    }
    assert!(rt; value_is(rt.alloc(), &p, 0, -1, "event a#1 -0.000000001\n"));
    assert!(rt;
        value_is(
            rt.alloc(),
            &p,
            3,
            60_000_000_000,
            "event b#2 60.000000000\n"
        )
    );
    assert!(rt; value_is(rt.alloc(), &p, 4, 0, "reading a 100 0.000000000\n"));
    assert!(rt; value_is(rt.alloc(), &p, 7, 1, "reading b 300 0.000000001\n"));
    assert!(rt; !value_is(rt.alloc(), &p, 8, 1, ""));
}
