// The least widenings of small problems: their texts, and that these are judged yes.
ghost use Rattle.std.specs.Prelude.{◌≡◌, ◌<◌, IfOk};
ghost use Rattle.widen.specs.Widening.{IsWideningOf};

use atto::Steps;
use cert_check::{Answer, Links, What};
use ports::MemSink;
use problem::{Problem, read_problem};
use shared_fixtures::{CONTRADICTING_PROBLEM, HOPELESS_PROBLEM, TWO_LOGS_PROBLEM};
use std::alloc::{AllocError, Global};
use std::marker::Brand;
use std::sync::ledger::{Blank, Ledger};
use std::test::*;
use widen::{Widening, judge_text, least_widening, write_widening};

// Problems, and how the text of the least widening begins: up to its cycle, which may begin at any of its steps.
const FOUND: [(&str, &str); 8] = [
    // Both messages and the 50 ns between them take 95 ns by the first clock, so with 20 ns at most each lacks 2.5 ns.
    (
        CONTRADICTING_PROBLEM,
        "widening 1\nleast 3\nevent a#1 0.000000000\nevent a#2 95.000000000\nevent b#1 22.000000000\nevent b#2 72.000000000\n\
        reading a 100 0.000000000\nreading a 195 95.000000000\nreading b 250 22.000000000\nreading b 300 72.000000000\ncycle\n",
    ),
    // The same with 80 ns by the first clock.
    (
        TWO_LOGS_PROBLEM,
        "widening 1\nleast 0\nevent a#1 0.000000000\nevent a#2 80.000000000\nevent b#1 10.000000000\nevent b#2 60.000000000\n\
        reading a 100 0.000000000\nreading a 180 80.000000000\nreading b 250 10.000000000\nreading b 300 60.000000000\nend\n",
    ),
    // A message takes 20 ns at least between events that are 10 ns apart.
    (HOPELESS_PROBLEM, "widening 1\nleast none\ncycle\n"),
    // With each message b loses 10 ns more, so that the last one seems to take 80 ns where the first takes 10.
    (
        "problem 1\nclock a 0 0 0 0\nclock b 0 0 0 0\nevent a#1 a 0\nevent a#2 a 1000\nevent a#3 a 2000\nevent a#4 a 3000\n\
        event a#5 a 4000\nevent a#6 a 5000\nevent a#7 a 6000\nevent a#8 a 7000\nevent b#1 b 10\nevent b#2 b 1020\n\
        event b#3 b 2030\nevent b#4 b 3040\nevent b#5 b 4050\nevent b#6 b 5060\nevent b#7 b 6070\nevent b#8 b 7080\n\
        message a#1 b#1 10 20\nmessage a#2 b#2 10 20\nmessage a#3 b#3 10 20\nmessage a#4 b#4 10 20\n\
        message a#5 b#5 10 20\nmessage a#6 b#6 10 20\nmessage a#7 b#7 10 20\nmessage a#8 b#8 10 20\nend\n",
        "widening 1\nleast 60\nevent a#1 0.000000000\nevent a#2 1000.000000000\n",
    ),
    // Only one of the two messages has a greatest delay, and each ns of it counts once.
    (
        "problem 1\nclock a 0 0 0 0\nclock b 0 0 0 0\nevent a#1 a 0\nevent a#2 a 100\nevent b#1 b 0\nevent b#2 b 30\n\
        message a#1 b#1 0 20\nmessage b#2 a#2 7 none\nmessage a#2 b#2 0 none\nend\n",
        "widening 1\nleast none\ncycle\n",
    ),
    // The greatest delay is 2^62 - 1 ns, and the message takes 5 ns more.
    (
        "problem 1\nclock c 0 0 0 0\nclock d 0 0 0 0\nevent p c 0\nevent q c 4611686018427387903\nevent r d 0\n\
        message q r 5 none\nmessage p r 0 4611686018427387903\nend\n",
        "widening 1\nleast 5\nevent p 0.000000000\nevent q 4611686018427387903.000000000\nevent r 4611686018427387908.000000000\n",
    ),
    // The greatest widening is the least, and one more would be too much.
    (
        "problem 1\nclock c 0 0 0 0\nclock d 0 0 0 0\nevent p c 0\nevent q c 4611686018427387903\nevent r d 0\n\
        message q r 0 none\nmessage p r 0 0\nend\n",
        "widening 1\nleast 4611686018427387903\nevent p 0.000000000\n",
    ),
    (
        "problem 1\nclock c 0 0 0 0\nclock d 0 0 0 0\nevent p c 0\nevent q c 4611686018427387903\nevent r d 0\n\
        message q r 1 none\nmessage p r 0 0\nend\n",
        "widening 1\nleast none\ncycle\n",
    ),
];

// The least widening of a problem, with its steps counted by this ledger.
fn found_counted<L: Ledger>(
    alloc: Global,
    p: &Problem,
    blank: Blank,
) -> Result<Widening, AllocError>
    requires { (blank.name ≡ L.name) × (blank.parts ≡ L.parts) × (0 < L.parts) }
    ensures { IfOk result (λ w. IsWideningOf p.now w) }
{
    let mut steps = Steps::<L>::open(blank);
    least_widening(alloc, p, What::Delays(Links::All), &mut steps)
}

// The least widening of a problem.
fn found(alloc: Global, p: &Problem) -> Result<Widening, AllocError>
    ensures { IfOk result (λ w. IsWideningOf p.now w) }
{
    found_counted::<Brand>(alloc, p, Blank::new(1))
}

// Whether the text of a widening begins so, and is judged yes.
fn begins(alloc: Global, p: &Problem, w: &Widening, head: &str) -> bool
    requires { IsWideningOf p.now w.now }
{
    let Ok(mut out) = MemSink::new(alloc, 4096, 512, &[]) else {
        return false;
    };
    write_widening(p, What::Delays(Links::All), w, &mut out).is_ok()
        && out.bytes().starts_with(head.as_bytes())
        && judge_text(alloc, p, out.bytes()) == Ok(Answer::Yes)
}

// Whether that of the least widening of a problem does.
fn is_found(alloc: Global, problem: &str, head: &str) -> bool {
    let Ok(p) = read_problem(alloc, problem.as_bytes()) else {
        return false;
    };
    match found(alloc, &p) {
        Ok(w) => begins(alloc, &p, &w, head),
        Err(_) => false,
    }
}

#[test]
fn least_widenings_are_found(rt: HostRuntime) {
    for (problem, head) in &FOUND {
        assert!(rt; is_found(rt.alloc(), problem, head), "{problem}");
    }
}
