// Sessions that keep events, with the replies to all that is asked of them.
use crate::fixtures::{TWO_EVENTS, TWO_MESSAGES, replies_over};
use session::Stop;
use shared_fixtures::{TWO_LOGS_DECLARATION, added, files_of};
use std::alloc::Global;
use std::test::*;

// The replies to an addition of one event that takes a message back, and of two that contradict what was declared.
const TAKEN_BACK: &str = added!(1, 0, 1, 0);

const CONTRADICTED: &str = added!(2, 2, 0, 0, inconsistent);

const LOGS: [(&str, &str); 7] = [
    ("a.csv", "100,send,m1,\n180,receive,m2,\n"),
    ("late.csv", "100,send,m1,\n190,receive,m2,\n"),
    ("later.csv", "100,send,m1,\n195,receive,m2,\n"),
    ("b.csv", "250,receive,m1,\n300,send,m2,\n"),
    ("again.csv", "200,send,m1,\n"),
    ("reply.csv", "310,send,m2,\n"),
    (
        "nine.csv",
        "10,local,,\n20,local,,\n30,local,,\n40,local,,\n50,local,,\n60,local,,\n70,local,,\n80,local,,\n90,local,,\n",
    ),
];

// Lines with their replies.
type Lines = &'static [(&'static str, &'static str)];

// Nine events, of which eight can be kept.
const NINE: Lines = &[
    ("keep a#1", "refused 28\n"),
    ("keep", "refused 20\n"),
    ("add a nine.csv", added!(9, 0, 0, 0)),
    ("keep a#1", "kept 1\n"),
    ("keep a#2", "kept 2\n"),
    ("keep a#3", "kept 3\n"),
    ("keep a#4", "kept 4\n"),
    ("keep a#5", "kept 5\n"),
    ("keep a#6", "kept 6\n"),
    ("keep a#7", "kept 7\n"),
    ("keep a#8", "kept 8\n"),
    ("keep a#9", "refused 30\n"),
    ("keep a#10", "refused 28\n"),
    ("keep a#1", "kept 1\n"),
    ("keep a#8", "kept 8\n"),
    ("interval a#8 a#9", "interval 10.000000000 10.000000000\n"),
    ("interval a#9 a#1", "interval -80.000000000 -80.000000000\n"),
];

// A kept event, a message that a second send takes back, and events of the label before the other one's.
const SECOND_SEND: Lines = &[
    ("add b b.csv", TWO_EVENTS),
    ("keep b#1", "kept 1\n"),
    ("add a late.csv", TWO_MESSAGES),
    ("keep a#1", "kept 2\n"),
    ("interval a#1 b#1", "interval 20.000000000 20.000000000\n"),
    ("interval b#2 b#1", "interval -50.000000000 -50.000000000\n"),
    ("add a again.csv", TAKEN_BACK),
    ("interval a#1 b#1", "interval 20.000000000 30.000000000\n"),
    ("interval a#1 a#3", "interval 100.000000000 100.000000000\n"),
    ("order b#1 a#1", "order after\n"),
    ("keep a#1", "kept 2\n"),
    ("keep b#1", "kept 1\n"),
    ("keep a#3", "kept 3\n"),
];

// A contradiction, in which an event is kept, and a second send that takes it back.
const CONTRADICTION: Lines = &[
    ("add b b.csv", TWO_EVENTS),
    ("add a later.csv", CONTRADICTED),
    ("keep a#1", "kept 1\n"),
    ("keep c#1", "refused 28\n"),
    ("add b reply.csv", TAKEN_BACK),
    ("interval a#1 b#1", "interval 10.000000000 20.000000000\n"),
    ("keep a#1", "kept 1\n"),
    ("add a missing.csv", "refused 22\n"),
    ("interval b#1 a#1", "interval -20.000000000 -10.000000000\n"),
    ("add a again.csv", TAKEN_BACK),
    ("interval a#1 b#1", "interval -inf +inf\n"),
    ("interval a#1 a#3", "interval 100.000000000 100.000000000\n"),
];

// Whether a session gives these replies.
fn replies(alloc: Global, lines: &[(&str, &str)]) -> Result<bool, Stop> {
    let mut files = files_of(alloc, &LOGS, &[])?;
    replies_over(alloc, TWO_LOGS_DECLARATION, &mut files, lines)
}

#[test]
fn eight_are_kept(rt: HostRuntime) {
    assert!(rt; replies(rt.alloc(), NINE) == Ok(true));
}

#[test]
fn kept_events_follow_additions(rt: HostRuntime) {
    assert!(rt; replies(rt.alloc(), SECOND_SEND) == Ok(true));
}

#[test]
fn kept_events_outlast_a_contradiction(rt: HostRuntime) {
    assert!(rt; replies(rt.alloc(), CONTRADICTION) == Ok(true));
}
