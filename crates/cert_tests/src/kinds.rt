// The least widenings of other numbers than greatest delays, and of those of one clock or link.
ghost use Rattle.std.specs.Prelude.{◌≡◌, ◌<◌, length, IfOk, IsTrue};
ghost use Rattle.widen.specs.Named.{NamesWhat};
ghost use Rattle.widen.specs.Widening.{IsWideningOf};

use crate::bounded_events::CONTRADICTED as BOUNDED;
use crate::widenings::{FOLLOWED, FOLLOWED_NEVER};
use atto::Steps;
use cert_check::{Answer, Clocks, Links, What};
use ports::MemSink;
use problem::{Problem, read_problem};
use shared_fixtures::{CONTRADICTING_PROBLEM, HOPELESS_PROBLEM};
use std::alloc::{AllocError, Global};
use std::marker::Brand;
use std::sync::ledger::{Blank, Ledger};
use std::test::*;
use widen::{Widening, judge_text, least_widening, write_widening};

// Both messages and the 50 ns between them take 95 ns by the clock a, and 90 ns at most by what is declared.
const LACKS_5: &str = CONTRADICTING_PROBLEM;

// A message takes 20 ns at least between events that are 10 ns apart.
const APART: &str = HOPELESS_PROBLEM;

// It seems to arrive 10 ns before it is sent.
const BEFORE: &str =
    "problem 1\nclock c 0 0 0 0\nevent p c 10\nevent q c 0\nmessage p q 20 none\nend\n";

// A message goes back from the last of three clocks to the first. Both gaps are less by the same, and none is below 0.
const FOLLOWED_TWICE: &str =
    "problem 2\nclock a 0 0 0 0\nclock b 0 0 0 0\nclock c 0 0 0 0\nfollow a b 5\nfollow b c 12\n\
    event p a 0\nevent q b 0\nevent r c 0\nmessage r p 0 none\nend\n";

// What is widened of which problem, and by how much at least.
const FOUND: [(&str, What, Option<u64>); 28] = [
    (LACKS_5, What::Delays(Links::All), Some(3)),
    (
        LACKS_5,
        What::Delays(Links::Between { from: 0, to: 1 }),
        Some(5),
    ),
    (
        LACKS_5,
        What::Delays(Links::Between { from: 1, to: 0 }),
        Some(5),
    ),
    (
        LACKS_5,
        What::Delays(Links::Between { from: 0, to: 0 }),
        None,
    ),
    (LACKS_5, What::Least(Links::All), None),
    // Four stamps count 4 e.
    (LACKS_5, What::Stamps(Clocks::All), Some(2)),
    (LACKS_5, What::Stamps(Clocks::One(0)), Some(3)),
    (LACKS_5, What::Stamps(Clocks::One(1)), Some(3)),
    // A span of 95 ns and one of 50 count 145 e parts per billion: 5,000,000,000 in 145 are 34,482,758.6.
    (LACKS_5, What::Rates(Clocks::All), Some(34_482_759)),
    (LACKS_5, What::Rates(Clocks::One(0)), Some(52_631_579)),
    (LACKS_5, What::Rates(Clocks::One(1)), Some(100_000_000)),
    (APART, What::Delays(Links::All), None),
    (APART, What::Least(Links::All), Some(10)),
    (
        APART,
        What::Least(Links::Between { from: 0, to: 0 }),
        Some(10),
    ),
    (APART, What::Stamps(Clocks::One(0)), Some(5)),
    // The clock runs half as fast as real time, which is as slow as a rate allows.
    (APART, What::Rates(Clocks::One(0)), Some(1_000_000_000)),
    // A least delay is not below 0, and a span never the other way round.
    (BEFORE, What::Least(Links::All), None),
    (BEFORE, What::Rates(Clocks::All), None),
    (FOLLOWED, What::Gaps, Some(7)),
    (FOLLOWED, What::Least(Links::All), None),
    (FOLLOWED, What::Stamps(Clocks::One(0)), Some(7)),
    (FOLLOWED_NEVER, What::Gaps, None),
    (FOLLOWED_TWICE, What::Gaps, Some(12)),
    (LACKS_5, What::Gaps, None),
    // Events have bounds of their own, which are the narrower ones.
    (BOUNDED, What::Stamps(Clocks::All), Some(4)),
    (BOUNDED, What::Stamps(Clocks::One(0)), Some(4)),
    (BOUNDED, What::Stamps(Clocks::One(1)), None),
    (BOUNDED, What::Least(Links::All), Some(7)),
];

// The least widening of a problem, with its steps counted by this ledger.
fn found_counted<L: Ledger>(
    alloc: Global,
    p: &Problem,
    what: What,
    blank: Blank,
) -> Result<Widening, AllocError>
    requires { (blank.name ≡ L.name) × (blank.parts ≡ L.parts) × (0 < L.parts) }
    ensures { IfOk result (λ w. IsWideningOf p.now w) }
{
    let mut steps = Steps::<L>::open(blank);
    least_widening(alloc, p, what, &mut steps)
}

// By how much it is widened.
fn extra_of(w: &Widening) -> Option<u64> {
    match w {
        Widening::Least { extra, .. } => Some(extra.get()),
        Widening::Never(_) => None,
    }
}

// Whether the problem has a clock at this place.
fn has_place(p: &Problem, place: u32) -> bool
    ensures { IsTrue result → place < length p.now.clocks }
{
    (place as usize) < p.clocks().len()
}

// Whether the clocks that are meant are ones of the problem.
fn has_what(p: &Problem, what: What) -> bool
    ensures { IsTrue result → NamesWhat p.now what }
{
    match what {
        What::Delays(Links::All) | What::Least(Links::All) => true,
        What::Delays(Links::Between { from, to }) => has_place(p, from) && has_place(p, to),
        What::Least(Links::Between { from, to }) => has_place(p, from) && has_place(p, to),
        What::Stamps(Clocks::All) | What::Rates(Clocks::All) => true,
        What::Stamps(Clocks::One(place)) => has_place(p, place),
        What::Rates(Clocks::One(place)) => has_place(p, place),
        What::Gaps => true,
    }
}

// Whether the text of a widening is judged yes.
fn is_true(alloc: Global, p: &Problem, what: What, w: &Widening) -> bool
    requires named { NamesWhat p.now what }
    requires is { IsWideningOf p.now w.now }
{
    let Ok(mut out) = MemSink::new(alloc, 4096, 512, &[]) else {
        return false;
    };
    write_widening(p, what, w, &mut out).is_ok()
        && judge_text(alloc, p, out.bytes()) == Ok(Answer::Yes)
}

// Whether so much is the least widening of a problem, and its text is judged yes.
fn is_found(alloc: Global, problem: &str, what: What, wanted: Option<u64>) -> bool {
    let Ok(p) = read_problem(alloc, problem.as_bytes()) else {
        return false;
    };
    if !has_what(&p, what) {
        return false;
    }
    match found_counted::<Brand>(alloc, &p, what, Blank::new(1)) {
        Ok(w) => extra_of(&w) == wanted && is_true(alloc, &p, what, &w),
        Err(_) => false,
    }
}

#[test]
fn least_widenings_of_each_kind_are_found(rt: HostRuntime) {
    for (problem, what, wanted) in &FOUND {
        assert!(rt; is_found(rt.alloc(), problem, *what, *wanted), "{problem}");
    }
}
