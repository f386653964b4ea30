// The ends of clocks, and the readings next to a stamp.
use atto::Nano;
use problem_model::Node;
use std::test::*;
use sync_graph::Graph;

// A reading's clock, its stamp and its node, and the ends of clock 1 once it is there.
type Reading = (u32, u64, u32, (u32, u32));

// Readings that come in no order.
const READINGS: [Reading; 7] = [
    (1, 9, 0, (0, 0)),
    (2, 1, 1, (0, 0)),
    (0, 90, 2, (0, 0)),
    (1, 4, 3, (3, 0)),
    (1, 7, 4, (3, 0)),
    (1, 0, 5, (5, 0)),
    (1, 1 << 61, 6, (5, 6)),
];

// Appends a reading that is not there, and answers its node.
fn push_reading(g: &mut Graph, clock: u32, stamp: u64) -> Option<u32> {
    let reading = Node::Reading(clock, Nano::new(stamp)?);
    if g.nodes() >= 8 || g.node_of(reading).is_some() {
        return None;
    }
    g.push_node(reading).ok()
}

// Whether these readings are their nodes, and clock 1 has its ends after each.
fn ends_move(g: &mut Graph, readings: &[Reading]) -> bool {
    for (clock, stamp, number, ends) in readings {
        if push_reading(g, *clock, *stamp) != Some(*number) || g.ends_of(1) != Some(*ends) {
            return false;
        }
    }
    true
}

// Whether the readings of clocks next to the stamp 7 are these.
fn has_neighbours(g: &Graph) -> bool {
    let Some(stamp) = Nano::new(7) else {
        return false;
    };
    g.neighbours(0, stamp) == (None, Some(2))
        && g.neighbours(1, stamp) == (Some(3), Some(0))
        && g.neighbours(2, stamp) == (Some(1), None)
}

// Whether a graph without nodes has no ends, and each clock has its ends once all readings are there.
fn ends_are_right(g: &mut Graph) -> bool {
    g.ends_of(1) == None
        && ends_move(g, &READINGS)
        && g.ends_of(0) == Some((2, 2))
        && g.ends_of(2) == Some((1, 1))
        && g.ends_of(3) == None
        && has_neighbours(g)
}

#[test]
fn ends_are_those_of_all_readings(rt: HostRuntime) {
    let mut g = Graph::new(rt.alloc());
    assert!(rt; ends_are_right(&mut g));
}
