// The order in which the arcs of a problem's graph are brought in.
use crate::fixtures::{CIRCLE_PROBLEM, solve_alone};
use atto::Nano;
use problem::read_problem;
use problem_model::Bound;
use shared_fixtures::LATE_LOGS_PROBLEM;
use std::alloc::Global;
use std::test::*;
use sync_graph::Graph;

// The same as LATE_LOGS_PROBLEM, but the events of b stand first, and those of a in the other order.
const TURNED_PROBLEM: &str =
    "problem 1\nclock b 0 0 3 7\nclock a 0 0 0 0\nevent b#1 b 250\nevent b#2 b 300\nevent a#2 a 180\nevent a#1 a 100\n\
    message b#2 a#2 10 20\nmessage a#1 b#1 10 20\nend\n";

// Host a sends alone, and host b reads its clock twice between two receives.
const ONE_WAY_PROBLEM: &str =
    "problem 1\nclock a 0 0 0 0\nclock b 0 0 0 0\nevent a#1 a 0\nevent a#2 a 1000\nevent b#1 b 10\nevent b#2 b 20\n\
    event b#3 b 30\nevent b#4 b 1010\nmessage a#1 b#1 10 20\nmessage a#2 b#4 10 20\nend\n";

// Clock d comes 7 ns after m, which has no reading and comes 5 ns after c; the clock of d may be 2 ns early and 3 ns late.
// Events p, q, r and s are the nodes 0 to 3; the readings 4 and 10 of c are the nodes 4 and 5, and 3 and 8 of d are 6 and 7.
const STEPPED_CLOCK_PROBLEM: &str =
    "problem 2\nclock c 0 0 0 0\nclock m 0 0 0 0\nclock d 0 0 2 3\nfollow c m 5\nfollow m d 7\n\
    event p c 10\nevent q d 3\nevent r c 4\nevent s d 8\nmessage p q 1 20\nend\n";

// An arc between two nodes, and its weight in ns.
type Link = (u32, u32, i128);

// Problems, and their arcs in the order in which they are brought in: two for each span, two for each event and its
// reading, one for each follow and two for each message. All come with their later end, so the pairs of the events come
// in the order of these: each send before its receive, and a clock upward.
const ORDERS: [(&str, &[Link]); 5] = [
    (
        LATE_LOGS_PROBLEM,
        &[
            (4, 0, 0),
            (0, 4, 0),
            (6, 2, 7),
            (2, 6, 3),
            (0, 2, 20),
            (2, 0, -10),
            (6, 7, 50),
            (7, 6, -50),
            (7, 3, 7),
            (3, 7, 3),
            (4, 5, 80),
            (5, 4, -80),
            (5, 1, 0),
            (1, 5, 0),
            (3, 1, 20),
            (1, 3, -10),
        ],
    ),
    (
        TURNED_PROBLEM,
        &[
            (6, 3, 0),
            (3, 6, 0),
            (4, 0, 7),
            (0, 4, 3),
            (3, 0, 20),
            (0, 3, -10),
            (4, 5, 50),
            (5, 4, -50),
            (5, 1, 7),
            (1, 5, 3),
            (6, 7, 80),
            (7, 6, -80),
            (7, 2, 0),
            (2, 7, 0),
            (1, 2, 20),
            (2, 1, -10),
        ],
    ),
    (
        CIRCLE_PROBLEM,
        &[
            (4, 0, 0),
            (0, 4, 0),
            (4, 5, 80),
            (5, 4, -80),
            (5, 1, 0),
            (1, 5, 0),
            (6, 2, 7),
            (2, 6, 3),
            (1, 2, 20),
            (2, 1, -10),
            (6, 7, 50),
            (7, 6, -50),
            (7, 3, 7),
            (3, 7, 3),
            (3, 0, 20),
            (0, 3, -10),
        ],
    ),
    (
        ONE_WAY_PROBLEM,
        &[
            (6, 0, 0),
            (0, 6, 0),
            (8, 2, 0),
            (2, 8, 0),
            (0, 2, 20),
            (2, 0, -10),
            (8, 9, 10),
            (9, 8, -10),
            (9, 3, 0),
            (3, 9, 0),
            (9, 10, 10),
            (10, 9, -10),
            (10, 4, 0),
            (4, 10, 0),
            (6, 7, 1000),
            (7, 6, -1000),
            (7, 1, 0),
            (1, 7, 0),
            (10, 11, 980),
            (11, 10, -980),
            (11, 5, 0),
            (5, 11, 0),
            (1, 5, 20),
            (5, 1, -10),
        ],
    ),
    (
        STEPPED_CLOCK_PROBLEM,
        &[
            (4, 2, 0),
            (2, 4, 0),
            (4, 5, 6),
            (5, 4, -6),
            (5, 0, 0),
            (0, 5, 0),
            (6, 5, -7),
            (6, 1, 3),
            (1, 6, 2),
            (0, 1, 20),
            (1, 0, -1),
            (6, 7, 5),
            (7, 6, -5),
            (7, 3, 3),
            (3, 7, 2),
        ],
    ),
];

// Whether these are the arcs of a graph. Their weights are at most 1000 ns.
fn has_arcs(g: &Graph, links: &[Link]) -> bool {
    if g.arcs() as usize != links.len() {
        return false;
    }
    for (k, (from, to, weight)) in links.iter().enumerate() {
        if *weight > 1000 || *weight < -1000 {
            return false;
        }
        let a = g.arc(k as u32);
        if a.from != *from || a.to != *to || a.weight != *weight * 1_000_000_000 {
            return false;
        }
    }
    true
}

// Whether the arcs of a problem are brought in in this order.
fn has_order(alloc: Global, text: &str, want: &[Link]) -> Option<bool> {
    let p = read_problem(alloc, text.as_bytes()).ok()?;
    let s = solve_alone(alloc, &p).ok()?;
    Some(has_arcs(s.graph(), want))
}

#[test]
fn arcs_come_with_their_later_end(rt: HostRuntime) {
    for (text, want) in &ORDERS {
        assert!(rt; has_order(rt.alloc(), text, want) == Some(true), "{text}");
    }
}

// Whether the seventh arc is the follow from the last reading before to the first one behind.
fn has_follow(alloc: Global) -> Option<bool> {
    let p = read_problem(alloc, STEPPED_CLOCK_PROBLEM.as_bytes()).ok()?;
    let s = solve_alone(alloc, &p).ok()?;
    let follow = Bound::Follow {
        earlier: 0,
        s: Nano::new(10)?,
        later: 2,
        t: Nano::new(3)?,
    };
    let g = s.graph();
    Some(g.arcs() == 15 && g.arc(6).name == follow)
}

#[test]
fn clocks_that_follow_are_joined_at_their_ends(rt: HostRuntime) {
    assert!(rt; has_follow(rt.alloc()) == Some(true));
}
