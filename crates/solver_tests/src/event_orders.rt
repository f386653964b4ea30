// When the events of a problem come, by their ranks.
ghost use Rattle.std.specs.Prelude.{◌≡◌, ◌<◌};

use atto::Steps;
use problem::{Problem, read_problem};
use problem_solver::event_ranks;
use std::alloc::Global;
use std::marker::Brand;
use std::sync::ledger::{Blank, Ledger};
use std::test::*;

// Clocks that no message joins: by stamps, and where these are equal by place.
const UNJOINED_PROBLEM: &str =
    "problem 1\nclock a 0 0 0 0\nclock b 0 0 0 0\nevent a#1 a 30\nevent a#2 a 10\nevent b#1 b 20\nevent b#2 b 10\nend\n";

// A clock that is 1010 ns ahead of the one that sends to it.
const AHEAD_PROBLEM: &str =
    "problem 1\nclock a 0 0 0 0\nclock b 0 0 0 0\nevent a#1 a 0\nevent a#2 a 50\nevent b#1 b 1010\nevent b#2 b 1030\n\
    event b#3 b 1070\nmessage a#1 b#1 0 none\nend\n";

// The same, but the later clock sends.
const BEHIND_PROBLEM: &str =
    "problem 1\nclock a 0 0 0 0\nclock b 0 0 0 0\nevent b#1 b 1000\nevent b#2 b 1040\nevent a#1 a 10\nevent a#2 a 30\n\
    event a#3 a 60\nmessage b#1 a#1 0 none\nend\n";

// Two pairs of clocks, with no message between the pairs.
const PAIRS_PROBLEM: &str =
    "problem 1\nclock a 0 0 0 0\nclock b 0 0 0 0\nclock c 0 0 0 0\nclock d 0 0 0 0\nevent a#1 a 5\nevent b#1 b 106\n\
    event b#2 b 109\nevent c#1 c 4\nevent d#1 d 505\nevent d#2 d 508\nmessage a#1 b#1 0 none\nmessage c#1 d#1 0 none\nend\n";

// The third clock is reached over the second one.
const CHAIN_PROBLEM: &str =
    "problem 1\nclock a 0 0 0 0\nclock b 0 0 0 0\nclock c 0 0 0 0\nevent c#1 c 700\nevent c#2 c 690\nevent b#1 b 300\n\
    event b#2 b 310\nevent a#1 a 0\nevent a#2 a 15\nevent a#3 a 25\nmessage a#1 b#1 0 none\nmessage b#2 c#1 0 none\nend\n";

// The later clock runs at half the rate and sends: its offset follows.
const SLOW_SENDER_PROBLEM: &str =
    "problem 1\nclock a 0 0 0 0\nclock b 0 0 0 0\nevent b#1 b 0\nevent b#2 b 5\nevent b#3 b 100\nevent a#1 a 10\n\
    event a#2 a 20\nevent a#3 a 210\nmessage b#1 a#1 0 none\nmessage b#3 a#3 0 none\nend\n";

// The same, but it receives, and a clock that no message joins stands beside.
const SLOW_RECEIVER_PROBLEM: &str =
    "problem 1\nclock a 0 0 0 0\nclock b 0 0 0 0\nclock c 0 0 0 0\nevent b#1 b 0\nevent b#2 b 5\nevent b#3 b 100\n\
    event a#1 a 10\nevent a#2 a 20\nevent a#3 a 210\nevent c#1 c 25\nmessage a#1 b#1 0 none\n\
    message a#3 b#3 0 none\nend\n";

// The second clock is reached behind the third one, and follows it.
const REACHED_LATER_PROBLEM: &str =
    "problem 1\nclock a 0 0 0 0\nclock b 0 0 0 0\nclock c 0 0 0 0\nevent a#1 a 0\nevent c#1 c 10\nevent b#1 b 0\n\
    event c#2 c 20\nevent b#2 b 200\nevent c#3 c 120\nevent c#4 c 130\nevent b#3 b 220\nevent a#2 a 215\n\
    message a#1 c#1 0 none\nmessage b#1 c#2 0 none\nmessage b#2 c#3 0 none\nend\n";

// A message from a clock to itself moves no offset.
const AT_HOME_PROBLEM: &str =
    "problem 1\nclock a 0 0 0 0\nclock b 0 0 0 0\nevent a#1 a 0\nevent b#1 b 50\nevent a#2 a 100\n\
    message a#1 a#2 0 none\nend\n";

// A receive waits for its send and for the event before it.
const WAITING_PROBLEM: &str =
    "problem 1\nclock a 0 0 0 0\nclock b 0 0 0 0\nclock c 0 0 0 0\nevent a#1 a 0\nevent b#1 b 1\nevent c#1 c 50\n\
    event c#2 c 51\nevent c#3 c 52\nmessage a#1 c#2 0 none\nmessage b#1 c#1 0 none\nmessage b#1 c#3 0 none\nend\n";

// Each clock begins with a receive of what the other one sends later: the earliest event comes first.
const RING_PROBLEM: &str =
    "problem 1\nclock a 0 0 0 0\nclock b 0 0 0 0\nevent a#1 a 10\nevent a#2 a 20\nevent b#1 b 10\nevent b#2 b 20\n\
    event b#3 b 30\nmessage a#2 b#1 0 none\nmessage b#2 a#1 0 none\nend\n";

// The last clock of a chain comes behind the first one, though its stamps are lower; the one between them has no event.
const FOLLOWING_PROBLEM: &str =
    "problem 2\nclock a 0 0 0 0\nclock b 0 0 0 0\nclock c 0 0 0 0\nclock d 0 0 0 0\nfollow a b 0\nfollow b c 0\n\
    event d#1 d 15\nevent a#1 a 10\nevent a#2 a 20\nevent c#1 c 1\nevent c#2 c 2\nend\n";

// Problems, and the rank of each of their events.
const RANKS: [(&str, &[u32]); 12] = [
    (UNJOINED_PROBLEM, &[3, 0, 2, 1]),
    (AHEAD_PROBLEM, &[0, 3, 1, 2, 4]),
    (BEHIND_PROBLEM, &[0, 3, 1, 2, 4]),
    (PAIRS_PROBLEM, &[2, 3, 5, 0, 1, 4]),
    (CHAIN_PROBLEM, &[4, 0, 2, 3, 1, 5, 6]),
    (SLOW_SENDER_PROBLEM, &[0, 2, 4, 1, 3, 5]),
    (SLOW_RECEIVER_PROBLEM, &[1, 2, 6, 0, 3, 5, 4]),
    (REACHED_LATER_PROBLEM, &[0, 1, 2, 3, 4, 5, 6, 7, 8]),
    (AT_HOME_PROBLEM, &[0, 1, 2]),
    (WAITING_PROBLEM, &[0, 1, 2, 3, 4]),
    (RING_PROBLEM, &[0, 1, 2, 3, 4]),
    (FOLLOWING_PROBLEM, &[1, 0, 2, 3, 4]),
];

// Whether the events of a problem have these ranks.
fn are_ranked<L: Ledger>(alloc: Global, p: &Problem, want: &[u32], blank: Blank) -> Option<bool>
    requires { (blank.name ≡ L.name) × (blank.parts ≡ L.parts) × (0 < L.parts) }
{
    let mut steps = Steps::<L>::open(blank);
    let ranks = event_ranks(alloc, p, &mut steps).ok()?;
    Some(ranks.as_slice() == want)
}

// The same of a problem by its text.
fn have_ranks(alloc: Global, text: &str, want: &[u32]) -> Option<bool> {
    let p = read_problem(alloc, text.as_bytes()).ok()?;
    are_ranked::<Brand>(alloc, &p, want, Blank::new(1))
}

#[test]
fn events_come_upward_and_behind_their_sends(rt: HostRuntime) {
    for (text, want) in &RANKS {
        assert!(rt; have_ranks(rt.alloc(), text, want) == Some(true), "{text}");
    }
}
