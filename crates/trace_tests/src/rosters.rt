// Rosters to which pieces of logs come, of labels p, q and r: what they list, and the events that they find by name.
use crate::fixtures::{log_of, three_logs};
use problem::Listing;
use problem_model::MOST_EVENTS;
use roster::Roster;
use std::alloc::Global;
use std::test::*;
use traces::Accepted;

// What is listed: the names of events by place, and clocks and stamps of readings by place.
#[derive(Drop)]
struct Wanted {
    events: &'static [(&'static str, u32)],
    readings: &'static [(u32, u64)],
}

// Pieces by label, and what is then listed; with the name of each event stands its number.
const CASES: [(&[(u32, &str)], Wanted); 3] = [
    (
        &[(1, "\n")],
        Wanted {
            events: &[],
            readings: &[],
        },
    ),
    (
        &[
            (2, "30,local,,\n10,local,,\n"),
            (0, "20,local,,\n"),
            (1, "5,local,,\n"),
            (2, "10,local,,\n25,local,,\n"),
        ],
        Wanted {
            events: &[
                ("p#1", 2),
                ("q#1", 3),
                ("r#1", 0),
                ("r#2", 1),
                ("r#3", 4),
                ("r#4", 5),
            ],
            readings: &[(0, 5), (1, 10), (1, 20), (1, 25), (1, 30)],
        },
    ),
    (
        &[
            (0, "4611686018427387903,local,,\n0,local,,\n"),
            (0, "0,local,,\n7,local,,\n7,local,,\n"),
        ],
        Wanted {
            events: &[("p#1", 0), ("p#2", 1), ("p#3", 2), ("p#4", 3), ("p#5", 4)],
            readings: &[(1, 0), (1, 7), (1, 4611686018427387903)],
        },
    ),
];

// Names that no event of the second case has.
const UNKNOWN: [&str; 8] = [
    "p#0",
    "p#2",
    "q#01",
    "q#",
    "q",
    "#1",
    "s#1",
    "r#18446744073709551617",
];

// What is accepted of a log under a label of a roster.
fn log_under(alloc: Global, roster: &Roster, label: u32, text: &str) -> Option<Accepted> {
    let decl = roster.decl();
    let label = decl.labels.get(label as usize)?;
    log_of(alloc, decl, label, text).ok()
}

fn push_log(alloc: Global, roster: &mut Roster, label: u32, text: &str) -> Option<u32> {
    let log = log_under(alloc, roster, label, text)?;
    if label as usize >= roster.decl().labels.len()
        || log.events.len() > MOST_EVENTS - roster.len() as usize
    {
        return None;
    }
    roster.push(label, &log.events).ok()
}

fn pushed(alloc: Global, roster: &mut Roster, pieces: &[(u32, &str)]) -> bool {
    pieces.iter().all(|(label, text)| push_log(alloc, roster, *label, text).is_some())
}

// Whether the event at a place has this name and this number, and is found by its name.
fn lists_event(roster: &Roster, place: u32, wanted: &(&str, u32)) -> bool {
    if place >= roster.event_count() {
        return false;
    }
    let number = roster.event_at(place).0;
    number == wanted.1
        && roster.event_name(number).bytes() == wanted.0.as_bytes()
        && roster.find(wanted.0.as_bytes()) == Some(number)
}

// Whether the reading at a place is this one.
fn lists_reading(roster: &Roster, place: u32, wanted: &(u32, u64)) -> bool {
    if place >= roster.reading_count() {
        return false;
    }
    let reading = roster.reading_at(place);
    reading.0 == wanted.0 && reading.1.get() == wanted.1
}

fn lists(roster: &Roster, wanted: &Wanted) -> bool {
    let mut events = wanted.events.iter().enumerate();
    let mut readings = wanted.readings.iter().enumerate();
    roster.event_count() as usize == wanted.events.len()
        && roster.reading_count() as usize == wanted.readings.len()
        && events.all(|(k, event)| lists_event(roster, k as u32, event))
        && readings.all(|(k, reading)| lists_reading(roster, k as u32, reading))
}

fn becomes(alloc: Global, pieces: &[(u32, &str)], wanted: &Wanted) -> bool {
    let Some(decl) = three_logs(alloc) else {
        return false;
    };
    match Roster::new(alloc, decl) {
        Ok(mut roster) => pushed(alloc, &mut roster, pieces) && lists(&roster, wanted),
        Err(_) => false,
    }
}

// Whether none of these names is found behind the pieces.
fn finds_none(alloc: Global, pieces: &[(u32, &str)], names: &[&str]) -> bool {
    let Some(decl) = three_logs(alloc) else {
        return false;
    };
    match Roster::new(alloc, decl) {
        Ok(mut roster) => {
            pushed(alloc, &mut roster, pieces)
                && names
                    .iter()
                    .all(|name| roster.find(name.as_bytes()).is_none())
        }
        Err(_) => false,
    }
}

#[test]
fn rosters(rt: HostRuntime) {
    for (pieces, wanted) in &CASES {
        assert!(rt; becomes(rt.alloc(), pieces, wanted));
    }
}

#[test]
fn unknown_names(rt: HostRuntime) {
    assert!(rt; finds_none(rt.alloc(), CASES[1].0, &UNKNOWN));
}
