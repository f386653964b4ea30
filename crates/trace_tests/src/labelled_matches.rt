// Events that are added label by label, by the numbers of a roster: what the index says of each addition and of all,
// and what the plain filters say.
ghost use Rattle.std.specs.Prelude.{OnOk};
ghost use Rattle.traces.specs.Held.{seen_in};
ghost use Rattle.reference_traces.specs.Added.{AreAllAdded};

use crate::fixtures::{RECEIVE, SEND, are_messages, by_filters, key_with, lost, three_logs};
use atto::Nano;
use msg_match::{Change, Changed, Group, Matcher, Tallies, counts};
use reference_traces::Additions;
use roster::Roster;
use std::alloc::{AllocError, Global};
use std::test::*;
use traces::{Couple, Event, EventId, Mark, NoKey, Side};

// An ambiguous key, and its sends and receives by label and number.
type Unclear = (&'static str, &'static [[u32; 2]], &'static [[u32; 2]]);

// Events that are added to a label, and what is to follow.
struct Step {
    label: u32,
    // Side and key of each; a key with a `/` in front is that of a packet whose payload is the rest, behind an `@`
    // stands its time in ns, where the window is 10 ns, in front of a `|` the number of its segment, and one without a
    // letter is none.
    ends: &'static [(Side, &'static str)],
    added: u32,
    withdrawn: u32,
    // All messages from then on: label and number of the send, and of the receive.
    messages: &'static [[u32; 4]],
    // How many events are then in no message, and not ambiguous.
    unmatched: u32,
    // All ambiguous keys from then on.
    unclear: &'static [Unclear],
}

// Over and back between labels, with local rows between; a second send withdraws, and a third changes nothing.
const OVER_AND_BACK: [Step; 6] = [
    Step {
        label: 1,
        ends: &[(RECEIVE, "m"), (SEND, ""), (SEND, "n")],
        added: 0,
        withdrawn: 0,
        messages: &[],
        unmatched: 2,
        unclear: &[],
    },
    Step {
        label: 0,
        ends: &[(SEND, ""), (SEND, "m"), (RECEIVE, "n")],
        added: 2,
        withdrawn: 0,
        messages: &[[0, 2, 1, 1], [1, 3, 0, 3]],
        unmatched: 0,
        unclear: &[],
    },
    Step {
        label: 2,
        ends: &[],
        added: 0,
        withdrawn: 0,
        messages: &[[0, 2, 1, 1], [1, 3, 0, 3]],
        unmatched: 0,
        unclear: &[],
    },
    Step {
        label: 0,
        ends: &[(SEND, "k"), (SEND, "n")],
        added: 0,
        withdrawn: 1,
        messages: &[[0, 2, 1, 1]],
        unmatched: 1,
        unclear: &[("n", &[[0, 5], [1, 3]], &[[0, 3]])],
    },
    Step {
        label: 2,
        ends: &[(SEND, "n"), (RECEIVE, "k")],
        added: 1,
        withdrawn: 0,
        messages: &[[0, 2, 1, 1], [0, 4, 2, 2]],
        unmatched: 0,
        unclear: &[("n", &[[0, 5], [1, 3], [2, 1]], &[[0, 3]])],
    },
    Step {
        label: 0,
        ends: &[(RECEIVE, "")],
        added: 0,
        withdrawn: 0,
        messages: &[[0, 2, 1, 1], [0, 4, 2, 2]],
        unmatched: 0,
        unclear: &[("n", &[[0, 5], [1, 3], [2, 1]], &[[0, 3]])],
    },
];

// One addition brings messages and takes others; a message that comes and goes within one is not counted.
const AT_ONCE: [Step; 4] = [
    Step {
        label: 2,
        ends: &[(SEND, "a"), (SEND, "b"), (SEND, "c"), (RECEIVE, "a")],
        added: 1,
        withdrawn: 0,
        messages: &[[2, 1, 2, 4]],
        unmatched: 2,
        unclear: &[],
    },
    Step {
        label: 1,
        ends: &[(RECEIVE, "c"), (RECEIVE, "a"), (RECEIVE, "b")],
        added: 2,
        withdrawn: 1,
        messages: &[[2, 2, 1, 3], [2, 3, 1, 1]],
        unmatched: 0,
        unclear: &[("a", &[[2, 1]], &[[1, 2], [2, 4]])],
    },
    Step {
        label: 1,
        ends: &[(SEND, "d"), (RECEIVE, "d"), (RECEIVE, "d")],
        added: 0,
        withdrawn: 0,
        messages: &[[2, 2, 1, 3], [2, 3, 1, 1]],
        unmatched: 0,
        unclear: &[
            ("a", &[[2, 1]], &[[1, 2], [2, 4]]),
            ("d", &[[1, 4]], &[[1, 5], [1, 6]]),
        ],
    },
    Step {
        label: 0,
        ends: &[
            (SEND, "c"),
            (RECEIVE, "b"),
            (SEND, "e"),
            (RECEIVE, "e"),
            (SEND, "a"),
        ],
        added: 1,
        withdrawn: 2,
        messages: &[[0, 3, 0, 4]],
        unmatched: 0,
        unclear: &[
            ("c", &[[0, 1], [2, 3]], &[[1, 1]]),
            ("b", &[[2, 2]], &[[0, 2], [1, 3]]),
            ("a", &[[0, 5], [2, 1]], &[[1, 2], [2, 4]]),
            ("d", &[[1, 4]], &[[1, 5], [1, 6]]),
        ],
    },
];

// Packets and words, which are never one; keys that begin alike; the order is that of the sends, and not of the additions.
const APART: [Step; 4] = [
    Step {
        label: 2,
        ends: &[(SEND, "/a"), (RECEIVE, "a"), (SEND, "ab")],
        added: 0,
        withdrawn: 0,
        messages: &[],
        unmatched: 3,
        unclear: &[],
    },
    Step {
        label: 1,
        ends: &[(RECEIVE, "ab"), (RECEIVE, "/b"), (SEND, "A")],
        added: 1,
        withdrawn: 0,
        messages: &[[2, 3, 1, 1]],
        unmatched: 4,
        unclear: &[],
    },
    Step {
        label: 0,
        ends: &[(SEND, "/b"), (RECEIVE, "/a"), (SEND, "a")],
        added: 3,
        withdrawn: 0,
        messages: &[[0, 1, 1, 2], [0, 3, 2, 2], [2, 1, 0, 2], [2, 3, 1, 1]],
        unmatched: 1,
        unclear: &[],
    },
    Step {
        label: 2,
        ends: &[(RECEIVE, "/a"), (RECEIVE, "A")],
        added: 1,
        withdrawn: 1,
        messages: &[[0, 1, 1, 2], [0, 3, 2, 2], [1, 3, 2, 5], [2, 3, 1, 1]],
        unmatched: 0,
        unclear: &[("/a", &[[2, 1]], &[[0, 2], [2, 4]])],
    },
];

// Three events in a row: the first and the last lie too far apart, until the one between joins them; then they are of no
// message. A fourth one, far behind, is of another group of the key.
const IN_A_ROW: [Step; 4] = [
    Step {
        label: 1,
        ends: &[(SEND, "m@0"), (RECEIVE, "m@20")],
        added: 0,
        withdrawn: 0,
        messages: &[],
        unmatched: 2,
        unclear: &[],
    },
    Step {
        label: 0,
        ends: &[(RECEIVE, "m@10")],
        added: 0,
        withdrawn: 0,
        messages: &[],
        unmatched: 0,
        unclear: &[("m@0", &[[1, 1]], &[[0, 1], [1, 2]])],
    },
    Step {
        label: 2,
        ends: &[(RECEIVE, "m@31"), (SEND, "m@32")],
        added: 1,
        withdrawn: 0,
        messages: &[[2, 2, 2, 1]],
        unmatched: 0,
        unclear: &[("m@0", &[[1, 1]], &[[0, 1], [1, 2]])],
    },
    // Where no time is told, the key is another one.
    Step {
        label: 0,
        ends: &[(RECEIVE, "m")],
        added: 0,
        withdrawn: 0,
        messages: &[[2, 2, 2, 1]],
        unmatched: 1,
        unclear: &[("m@0", &[[1, 1]], &[[0, 1], [1, 2]])],
    },
];

// Two groups of one key: one of three events, which is ambiguous, and one that is a message. An event may have happened
// before those that came earlier, and the group then has another beginning.
const TWO_GROUPS: [Step; 2] = [
    Step {
        label: 1,
        ends: &[
            (SEND, "m@-30"),
            (RECEIVE, "m@-38"),
            (SEND, "m@-20"),
            (SEND, "m@5"),
            (RECEIVE, "m@6"),
            (RECEIVE, "n@-15"),
        ],
        added: 1,
        withdrawn: 0,
        messages: &[[1, 4, 1, 5]],
        unmatched: 1,
        unclear: &[("m@-38", &[[1, 1], [1, 3]], &[[1, 2]])],
    },
    Step {
        label: 0,
        ends: &[(SEND, "n@-25"), (SEND, "n@-26")],
        added: 0,
        withdrawn: 0,
        messages: &[[1, 4, 1, 5]],
        unmatched: 0,
        unclear: &[
            ("m@-38", &[[1, 1], [1, 3]], &[[1, 2]]),
            ("n@-26", &[[0, 1], [0, 2]], &[[1, 6]]),
        ],
    },
];

// An event that joins two groups withdraws both of their messages; one that lies just the window behind another is of
// its group.
const WITHDRAWN: [Step; 3] = [
    Step {
        label: 2,
        ends: &[
            (SEND, "m@0"),
            (RECEIVE, "m@10"),
            (RECEIVE, "m@26"),
            (SEND, "m@36"),
        ],
        added: 2,
        withdrawn: 0,
        messages: &[[2, 1, 2, 2], [2, 4, 2, 3]],
        unmatched: 0,
        unclear: &[],
    },
    Step {
        label: 0,
        ends: &[(SEND, "m@18"), (RECEIVE, "m@47")],
        added: 0,
        withdrawn: 2,
        messages: &[],
        unmatched: 1,
        unclear: &[("m@0", &[[0, 1], [2, 1], [2, 4]], &[[2, 2], [2, 3]])],
    },
    Step {
        label: 1,
        ends: &[(SEND, "m@57")],
        added: 1,
        withdrawn: 0,
        messages: &[[1, 1, 0, 2]],
        unmatched: 0,
        unclear: &[("m@0", &[[0, 1], [2, 1], [2, 4]], &[[2, 2], [2, 3]])],
    },
];

// One word and one packet on several segments; those of the first segment are told without its number.
const ON_SEGMENTS: [Step; 3] = [
    Step {
        label: 0,
        ends: &[(SEND, "1|m"), (SEND, "2|m"), (RECEIVE, "m"), (SEND, "1|/p")],
        added: 0,
        withdrawn: 0,
        messages: &[],
        unmatched: 4,
        unclear: &[],
    },
    Step {
        label: 1,
        ends: &[(RECEIVE, "2|m"), (RECEIVE, "1|m"), (RECEIVE, "2|/p")],
        added: 2,
        withdrawn: 0,
        messages: &[[0, 1, 1, 2], [0, 2, 1, 1]],
        unmatched: 3,
        unclear: &[],
    },
    Step {
        label: 2,
        ends: &[(SEND, "2|m"), (RECEIVE, "1|/p"), (SEND, "m")],
        added: 2,
        withdrawn: 1,
        messages: &[[0, 1, 1, 2], [0, 4, 2, 2], [2, 3, 0, 3]],
        unmatched: 1,
        unclear: &[("2|m", &[[0, 2], [2, 1]], &[[1, 1]])],
    },
];

// The same with times: events of another segment join no groups.
const ON_SEGMENTS_IN_TIME: [Step; 3] = [
    Step {
        label: 0,
        ends: &[(SEND, "1|m@0"), (SEND, "2|m@5")],
        added: 0,
        withdrawn: 0,
        messages: &[],
        unmatched: 2,
        unclear: &[],
    },
    Step {
        label: 1,
        ends: &[(RECEIVE, "2|m@10"), (RECEIVE, "1|m@11")],
        added: 1,
        withdrawn: 0,
        messages: &[[0, 2, 1, 1]],
        unmatched: 2,
        unclear: &[],
    },
    Step {
        label: 2,
        ends: &[(SEND, "2|m@20"), (RECEIVE, "1|m@5")],
        added: 0,
        withdrawn: 1,
        messages: &[],
        unmatched: 0,
        unclear: &[
            ("2|m@5", &[[0, 2], [2, 1]], &[[1, 1]]),
            ("1|m@0", &[[0, 1]], &[[1, 2], [2, 2]]),
        ],
    },
];

fn mark(side: Side, text: &str) -> Option<Mark> {
    if text.is_empty() {
        return Some(Mark::Unkeyed(NoKey::Local));
    }
    let key = key_with(text)?;
    Some(Mark::Keyed { key, side })
}

fn events_with(alloc: Global, ends: &[(Side, &str)]) -> Result<Vec<Event>, AllocError> {
    let mut events = Vec::new(alloc);
    for (side, text) in ends {
        let event = Event {
            stamp: Nano::new(5).ok_or(AllocError)?,
            mark: mark(*side, text).ok_or(AllocError)?,
            text: None,
        };
        events.push(event)?;
    }
    Ok(events)
}

// How an addition changes the messages: how many come and go, and which, by the names of their ends.
#[derive(Drop)]
struct Changes {
    counts: Changed,
    added: Vec<Couple>,
    withdrawn: Vec<Couple>,
}

// The name of the event of a number.
fn name_at(roster: &Roster, number: u32) -> Option<EventId> {
    if number >= roster.len() {
        return None;
    }
    let event = roster.event(number);
    Some(EventId {
        label: event.label,
        number: event.number,
    })
}

fn named(
    alloc: Global,
    roster: &Roster,
    messages: &[msg_match::Couple],
) -> Result<Vec<Couple>, AllocError> {
    let mut named = Vec::new(alloc);
    for message in messages {
        named.push(Couple {
            send: name_at(roster, message.send).ok_or(AllocError)?,
            receive: name_at(roster, message.receive).ok_or(AllocError)?,
        })?;
    }
    Ok(named)
}

fn changes_of(alloc: Global, roster: &Roster, change: &Change) -> Result<Changes, AllocError> {
    Ok(Changes {
        counts: counts(change),
        added: named(alloc, roster, &change.added)?,
        withdrawn: named(alloc, roster, &change.withdrawn)?,
    })
}

// The messages after an addition, by those before it.
fn follow(messages: &mut Vec<Couple>, changes: &Changes) -> Result<(), AllocError> {
    messages.retain(|message| !changes.withdrawn.contains(message));
    for message in &changes.added {
        messages.push(*message)?;
    }
    Ok(())
}

// Whether two lists have the same messages, each once.
fn are_same(found: &[Couple], wanted: &[Couple]) -> bool {
    found.len() == wanted.len() && wanted.iter().all(|message| found.contains(message))
}

// Whether the events of these numbers are those of these labels and numbers, in any order.
fn are_events(roster: &Roster, found: &[u32], wanted: &[[u32; 2]]) -> bool {
    found.len() == wanted.len()
        && wanted.iter().all(|w| {
            let id = EventId {
                label: w[0],
                number: w[1],
            };
            found
                .iter()
                .any(|number| name_at(roster, *number) == Some(id))
        })
}

fn is_unclear(roster: &Roster, found: &Group, wanted: &Unclear) -> bool {
    let (key, sends, receives) = *wanted;
    match key_with(key) {
        Some(key) => {
            found.key == key
                && are_events(roster, &found.sends, sends)
                && are_events(roster, &found.receives, receives)
        }
        None => false,
    }
}

// Whether one of the ambiguous keys is this one.
fn has_unclear(roster: &Roster, matcher: &Matcher, wanted: &Unclear) -> bool {
    for k in 0..matcher.groups() {
        if let Some(found) = matcher.group(k) {
            if is_unclear(roster, found, wanted) {
                return true;
            }
        }
    }
    false
}

// Whether the ambiguous keys are these, in any order.
fn are_unclear(roster: &Roster, matcher: &Matcher, wanted: &[Unclear]) -> bool {
    matcher.groups() as usize == wanted.len()
        && wanted.iter().all(|w| has_unclear(roster, matcher, w))
}

// How many events have these keys, up to some thousands.
fn unclear_events(keys: &[Unclear]) -> usize {
    let mut events: usize = 0;
    for (_, sends, receives) in keys {
        events = events.saturating_add(sends.len());
        events = events.saturating_add(receives.len());
    }
    events
}

// Whether there are so many messages, unmatched events, and events with ambiguous keys.
fn are_tallied(tallies: Tallies, step: &Step) -> bool {
    tallies.messages as usize == step.messages.len()
        && tallies.unmatched == step.unmatched
        && tallies.ambiguous as usize == unclear_events(step.unclear)
}

// Whether each message of the first list is in the second one, and none is in the third.
fn stand_only_in(found: &[Couple], these: &[Couple], those: &[Couple]) -> bool {
    for message in found {
        if !these.contains(message) || those.contains(message) {
            return false;
        }
    }
    true
}

// Whether the counts of an addition are these.
fn are_counted(counts: Changed, step: &Step) -> bool {
    counts.messages == u64::from(step.added) && counts.withdrawn == u64::from(step.withdrawn)
}

// Whether an addition changed the messages as is wanted, by the filters and by the index.
fn is_right(changes: &Changes, step: &Step, before: &[Couple], after: &[Couple]) -> bool {
    are_counted(changes.counts, step)
        && stand_only_in(&changes.added, after, before)
        && stand_only_in(&changes.withdrawn, before, after)
        && lost(after, before) == Some(step.added)
        && lost(before, after) == Some(step.withdrawn)
        && are_messages(after, step.messages)
}

fn step_holds(
    alloc: Global,
    kept: &mut Additions,
    sum: &mut Vec<Couple>,
    step: &Step,
) -> Result<bool, AllocError>
    requires { AreAllAdded kept.old.roster kept.old.matcher (seen_in kept.old.labels.items) }
    ensures { OnOk result (AreAllAdded kept.new.roster kept.new.matcher (seen_in kept.new.labels.items)) }
{
    let before = by_filters(alloc, &kept.labels)?;
    let events = events_with(alloc, step.ends)?;
    let change = kept.add(step.label, events)?;
    let changes = changes_of(alloc, &kept.roster, &change)?;
    let after = by_filters(alloc, &kept.labels)?;
    follow(sum, &changes)?;
    Ok(
        is_right(&changes, step, &before, &after)
            && are_same(sum, &after)
            && are_tallied(kept.matcher.tallies(), step)
            && are_unclear(&kept.roster, &kept.matcher, step.unclear),
    )
}

fn replay(alloc: Global, steps: &[Step]) -> Result<bool, AllocError> {
    let decl = three_logs(alloc).ok_or(AllocError)?;
    let mut kept = Additions::new(alloc, decl)?;
    let mut sum = Vec::new(alloc);
    for step in steps {
        if !step_holds(alloc, &mut kept, &mut sum, step)? {
            return Ok(false);
        }
    }
    Ok(true)
}

#[test]
fn additions(rt: HostRuntime) {
    assert!(rt;
        replay(rt.alloc(), &OVER_AND_BACK) == Ok(true),
        "over and back"
    );
    assert!(rt; replay(rt.alloc(), &AT_ONCE) == Ok(true), "at once");
    assert!(rt; replay(rt.alloc(), &APART) == Ok(true), "apart");
    assert!(rt; replay(rt.alloc(), &ON_SEGMENTS) == Ok(true), "on segments");
}

#[test]
fn additions_in_time(rt: HostRuntime) {
    assert!(rt; replay(rt.alloc(), &IN_A_ROW) == Ok(true), "in a row");
    assert!(rt; replay(rt.alloc(), &TWO_GROUPS) == Ok(true), "two groups");
    assert!(rt; replay(rt.alloc(), &WITHDRAWN) == Ok(true), "withdrawn");
    assert!(rt;
        replay(rt.alloc(), &ON_SEGMENTS_IN_TIME) == Ok(true),
        "on segments in time"
    );
}
