ghost use Rattle.std.specs.Prelude.{◌≡◌, ◌≤◌, ◌+◌, length, IfOk, OnOk, IfSome};
ghost use Rattle.problem_model.specs.Limits.{most_items};
ghost use Rattle.trace_tests.specs.Numbered.{AreNumberedFrom};
ghost use Rattle.msg_match.specs.Held.{seen_items};

use crate::fixtures::{RECEIVE, SEND, key_with};
use msg_match::{Change, Couple, Group, Item, Matcher, Tallies};
use std::alloc::{AllocError, Global};
use std::test::*;
use traces::Side;

// What one call adds, and what it is to answer. Events are numbered from 0 on, through all calls of a case.
struct Step {
    // Side and key of each event; a key with a `/` in front is that of a packet whose payload is the rest, and behind an `@`
    // stands its time in ns, where the window is 10 ns.
    events: &'static [(Side, &'static str)],
    added: &'static [(u32, u32)],
    withdrawn: &'static [(u32, u32)],
    // Messages, unmatched events, events with ambiguous keys.
    tallies: (u32, u32, u32),
}

// A send and its receive, the receive first, and a second send that withdraws the message; a third is no change.
const ONE_KEY: [Step; 4] = [
    Step {
        events: &[(RECEIVE, "a")],
        added: &[],
        withdrawn: &[],
        tallies: (0, 1, 0),
    },
    Step {
        events: &[(SEND, "a")],
        added: &[(1, 0)],
        withdrawn: &[],
        tallies: (1, 0, 0),
    },
    Step {
        events: &[(SEND, "a")],
        added: &[],
        withdrawn: &[(1, 0)],
        tallies: (0, 0, 3),
    },
    Step {
        events: &[(SEND, "a")],
        added: &[],
        withdrawn: &[],
        tallies: (0, 0, 4),
    },
];

// A message that comes and goes in one call is in neither list; one that goes is once in its list.
const AT_ONCE: [Step; 4] = [
    Step {
        events: &[(SEND, "a"), (RECEIVE, "a"), (SEND, "a")],
        added: &[],
        withdrawn: &[],
        tallies: (0, 0, 3),
    },
    Step {
        events: &[],
        added: &[],
        withdrawn: &[],
        tallies: (0, 0, 3),
    },
    Step {
        events: &[(RECEIVE, "b"), (SEND, "b")],
        added: &[(4, 3)],
        withdrawn: &[],
        tallies: (1, 0, 3),
    },
    Step {
        events: &[(SEND, "b"), (RECEIVE, "b"), (SEND, "b")],
        added: &[],
        withdrawn: &[(4, 3)],
        tallies: (0, 0, 8),
    },
];

// Keys of packets and of words with the same text are two; so are keys that begin alike.
const APART: [Step; 2] = [
    Step {
        events: &[(SEND, "a"), (RECEIVE, "/a"), (SEND, "ab"), (RECEIVE, "A")],
        added: &[],
        withdrawn: &[],
        tallies: (0, 4, 0),
    },
    Step {
        events: &[(SEND, "/a"), (RECEIVE, "ab"), (RECEIVE, "/b")],
        added: &[(4, 1), (2, 5)],
        withdrawn: &[],
        tallies: (2, 3, 0),
    },
];

// Three keys in turn: two become ambiguous, the one with two of each side first.
const THREE_KEYS: [Step; 3] = [
    Step {
        events: &[(SEND, "x"), (SEND, "y"), (SEND, "z"), (RECEIVE, "z")],
        added: &[(2, 3)],
        withdrawn: &[],
        tallies: (1, 2, 0),
    },
    Step {
        events: &[(RECEIVE, "z"), (RECEIVE, "x"), (SEND, "x"), (RECEIVE, "y")],
        added: &[(1, 7)],
        withdrawn: &[(2, 3)],
        tallies: (1, 0, 6),
    },
    Step {
        events: &[(RECEIVE, "x"), (SEND, "w")],
        added: &[],
        withdrawn: &[],
        tallies: (1, 1, 7),
    },
];

// Two groups of one key, each with a message; then an event that joins them, which withdraws both. Events of another
// key stay apart where their clocks disagree by more than the window.
const IN_TIME: [Step; 3] = [
    Step {
        events: &[
            (RECEIVE, "m@10"),
            (SEND, "m@21"),
            (SEND, "m@0"),
            (RECEIVE, "m@25"),
        ],
        added: &[(2, 0), (1, 3)],
        withdrawn: &[],
        tallies: (2, 0, 0),
    },
    Step {
        events: &[(SEND, "k@-5"), (RECEIVE, "k@6"), (SEND, "k")],
        added: &[],
        withdrawn: &[],
        tallies: (2, 3, 0),
    },
    Step {
        events: &[(RECEIVE, "m@15"), (RECEIVE, "k@5")],
        added: &[],
        withdrawn: &[(2, 0), (1, 3)],
        tallies: (0, 1, 8),
    },
];

// The event of this number, with this side and the key of a text.
fn item(event: u32, side: Side, text: &str) -> Option<Item>
    ensures { IfSome result (λ item. item.event ≡ event) }
{
    let key = key_with(text)?;
    Some(Item { event, side, key })
}

// The events of a step, numbered from this number on.
fn items(alloc: Global, first: u32, events: &[(Side, &str)]) -> Result<Vec<Item>, AllocError>
    requires { first + length events.now ≤ most_items }
    ensures count { IfOk result (λ items. length items.items ≡ length events.now) }
    ensures numbered { IfOk result (λ items. AreNumberedFrom first (seen_items items.items)) }
{
    let mut items = Vec::new(alloc);
    for (place, (side, text)) in events.iter().enumerate() {
        let event = first + place as u32;
        items.push(item(event, *side, text).ok_or(AllocError)?)?;
    }
    Ok(items)
}

// Adds the events of a step to those before, which are numbered from 0 on.
fn add_step(
    alloc: Global,
    matcher: &mut Matcher,
    first: u32,
    events: &[(Side, &str)],
) -> Result<Change, AllocError>
    requires few { first + length events.now ≤ most_items }
    requires count { length matcher.old ≡ first }
    requires numbered { AreNumberedFrom 0 matcher.old }
    ensures count { OnOk result (length matcher.new ≡ first + length events.now) }
    ensures numbered { OnOk result (AreNumberedFrom 0 matcher.new) }
{
    let items = items(alloc, first, events)?;
    matcher.add(&items)
}

fn are_wanted(found: &[Couple], wanted: &[(u32, u32)]) -> bool {
    found.len() == wanted.len()
        && wanted.iter().all(|(send, receive)| found
            .iter()
            .any(|m| m.send == *send && m.receive == *receive))
}

fn is_wanted(change: &Change, tallies: Tallies, step: &Step) -> bool {
    let (messages, unmatched, ambiguous) = step.tallies;
    let wanted = Tallies {
        messages,
        unmatched,
        ambiguous,
    };
    are_wanted(&change.added, step.added)
        && are_wanted(&change.withdrawn, step.withdrawn)
        && tallies == wanted
}

// All events of a case; None where an answer is not the wanted one.
fn replay(alloc: Global, steps: &[Step]) -> Result<Option<Matcher>, AllocError> {
    let mut matcher = Matcher::new(alloc);
    let mut first: u32 = 0;
    for step in steps {
        if first > 100 || step.events.len() > 100 {
            return Ok(None);
        }
        let change = add_step(alloc, &mut matcher, first, step.events)?;
        first += step.events.len() as u32;
        if !is_wanted(&change, matcher.tallies(), step) {
            return Ok(None);
        }
    }
    Ok(Some(matcher))
}

fn holds(alloc: Global, steps: &[Step]) -> bool {
    matches!(replay(alloc, steps), Ok(Some(_)))
}

fn is_group(found: Option<&Group>, text: &str, sends: &[u32], receives: &[u32]) -> bool {
    match (found, key_with(text)) {
        (Some(group), Some(key)) => {
            group.key == key
                && group.sends.as_slice() == sends
                && group.receives.as_slice() == receives
        }
        _ => false,
    }
}

fn has_groups(alloc: Global) -> bool {
    let Ok(Some(matcher)) = replay(alloc, &THREE_KEYS) else {
        return false;
    };
    matcher.groups() == 2
        && is_group(matcher.group(0), "x", &[0, 6], &[5, 8])
        && is_group(matcher.group(1), "z", &[2], &[3, 4])
        && matcher.group(2).is_none()
}

#[test]
fn changes(rt: HostRuntime) {
    assert!(rt; holds(rt.alloc(), &ONE_KEY), "one key");
    assert!(rt; holds(rt.alloc(), &AT_ONCE), "at once");
    assert!(rt; holds(rt.alloc(), &APART), "apart");
    assert!(rt; holds(rt.alloc(), &THREE_KEYS), "three keys");
    assert!(rt; holds(rt.alloc(), &IN_TIME), "in time");
}

#[test]
fn ambiguous_keys(rt: HostRuntime) {
    assert!(rt; has_groups(rt.alloc()));
}
