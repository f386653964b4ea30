use crate::fixtures::{
    accepted, are_messages, by_filters, declared, logs_of, lost, packet_key, three_logs,
};
use atto::Nano;
use event_log::{LogError, WordKey};
use problem_model::MOST_EVENTS;
use reference_traces::messages;
use std::alloc::{AllocError, Global};
use std::test::*;
use traces::{Accepted, Content, Couple, Event, Key, Mark, MessageKey, Side, event_count, events};

// The logs of three labels before, and after more was accepted.
struct Case {
    before: [&'static str; 3],
    after: [&'static str; 3],
    // The messages after: label and number of the send, and of the receive.
    messages: &'static [[u32; 4]],
    withdrawn: u32,
    added: u32,
}

const CASES: [Case; 9] = [
    // Over and back; local rows have numbers and no message.
    Case {
        before: ["", "", ""],
        after: [
            "1,send,m,\n2,local,,x\n3,receive,n,\n",
            "9,receive,m,\n8,send,n,\n",
            "",
        ],
        messages: &[[0, 1, 1, 1], [1, 2, 0, 3]],
        withdrawn: 0,
        added: 2,
    },
    // Round three labels, in the order of the sends.
    Case {
        before: ["1,receive,c,\n2,send,a,\n", "", ""],
        after: [
            "1,receive,c,\n2,send,a,\n",
            "1,send,b,\n2,receive,a,\n",
            "1,receive,b,\n2,send,c,\n",
        ],
        messages: &[[0, 2, 1, 2], [1, 1, 2, 1], [2, 2, 0, 1]],
        withdrawn: 0,
        added: 3,
    },
    // A second send withdraws, whether it is of another label or of the same.
    Case {
        before: ["1,send,m,\n", "2,receive,m,\n", ""],
        after: ["1,send,m,\n", "2,receive,m,\n", "3,send,m,\n"],
        messages: &[],
        withdrawn: 1,
        added: 0,
    },
    Case {
        before: ["1,send,m,\n2,send,n,\n", "2,receive,m,\n3,receive,n,\n", ""],
        after: [
            "1,send,m,\n2,send,n,\n3,send,m,\n",
            "2,receive,m,\n3,receive,n,\n",
            "",
        ],
        messages: &[[0, 2, 1, 2]],
        withdrawn: 1,
        added: 0,
    },
    // So does a second receive, and another message comes.
    Case {
        before: ["1,send,m,\n2,send,k,\n", "2,receive,m,\n", ""],
        after: [
            "1,send,m,\n2,send,k,\n",
            "2,receive,m,\n",
            "3,receive,m,\n4,receive,k,\n",
        ],
        messages: &[[0, 2, 2, 2]],
        withdrawn: 1,
        added: 1,
    },
    // Both ends in one log, the receive first.
    Case {
        before: ["", "", ""],
        after: ["", "5,receive,m,\n6,send,m,\n", ""],
        messages: &[[1, 2, 1, 1]],
        withdrawn: 0,
        added: 1,
    },
    // Two of one end, or one end alone, are no message.
    Case {
        before: ["1,send,m,\n", "1,send,m,\n", ""],
        after: [
            "1,send,m,\n2,send,k,\n",
            "1,send,m,\n2,receive,r,\n",
            "1,local,,m\n",
        ],
        messages: &[],
        withdrawn: 0,
        added: 0,
    },
    // Keys are compared byte by byte.
    Case {
        before: ["", "", ""],
        after: [
            "1,send,m,\n2,send,M,\n3,send,mm,\n",
            "1,receive,mm,\n2,receive,m,\n",
            "1,receive,n,\n2,receive,mmm,\n",
        ],
        messages: &[[0, 1, 1, 2], [0, 3, 1, 1]],
        withdrawn: 0,
        added: 2,
    },
    // Rows that come change no message of other keys, though events behind them have other places.
    Case {
        before: ["1,send,a,\n", "1,receive,a,\n2,send,b,\n", "1,receive,b,\n"],
        after: [
            "1,send,a,\n2,local,,\n3,local,,\n",
            "1,receive,a,\n2,send,b,\n",
            "1,receive,b,\n",
        ],
        messages: &[[0, 1, 1, 1], [1, 2, 2, 1]],
        withdrawn: 0,
        added: 0,
    },
];

fn read_logs(alloc: Global, texts: &[&str; 3]) -> Result<Vec<Accepted>, LogError> {
    let decl = three_logs(alloc).ok_or(LogError::Memory)?;
    logs_of(alloc, &decl, texts)
}

// The messages of all labels, by way of their events.
fn pairs(alloc: Global, labels: &[Accepted]) -> Result<Vec<Couple>, AllocError> {
    if labels.len() > 65536 || event_count(labels) > MOST_EVENTS as u64 {
        return Err(AllocError);
    }
    let events = events(alloc, labels)?;
    messages(alloc, &events)
}

fn holds(alloc: Global, case: &Case) -> Result<bool, LogError> {
    let before = pairs(alloc, &read_logs(alloc, &case.before)?)?;
    let after = by_filters(alloc, &read_logs(alloc, &case.after)?)?;
    Ok(
        are_messages(&after, case.messages)
            && lost(&before, &after) == Some(case.withdrawn)
            && lost(&after, &before) == Some(case.added),
    )
}

#[test]
fn messages_of_logs(rt: HostRuntime) {
    for (k, case) in CASES.iter().enumerate() {
        assert!(rt; holds(rt.alloc(), case) == Ok(true), "case {k}");
    }
}

// The same labels, with a window of 10 ns. The clock of a, where q is, is 100 ns ahead.
const TIMED: &str =
    "window = 10\n[hosts.a]\noffset = 100\n[hosts.b]\n[labels.p]\nhost = \"b\"\nkind = \"log\"\n\
    [labels.q]\nhost = \"a\"\nkind = \"log\"\n[labels.r]\nhost = \"b\"\nkind = \"log\"\n";

// Logs under it, and their messages.
const TIMED_CASES: [([&str; 3], &[[u32; 4]]); 6] = [
    // The offset is taken off, and not added.
    (["8,receive,m,\n", "105,send,m,\n", ""], &[[1, 1, 0, 1]]),
    (["208,receive,m,\n", "105,send,m,\n", ""], &[]),
    // Clocks that disagree by the window at most, and by more than it.
    (["", "105,send,m,\n", "15,receive,m,\n"], &[[1, 1, 2, 1]]),
    (["", "105,send,m,\n", "16,receive,m,\n"], &[]),
    // Two groups of one key.
    (
        [
            "8,receive,m,\n40,receive,m,\n",
            "105,send,m,\n139,send,m,\n",
            "",
        ],
        &[[1, 1, 0, 1], [1, 2, 0, 2]],
    ),
    // Three in a row, of which the first and the last are further apart.
    (["15,receive,m,\n", "105,send,m,\n", "25,receive,m,\n"], &[]),
];

fn timed_holds(alloc: Global, texts: &[&str; 3], wanted: &[[u32; 4]]) -> Option<bool> {
    let decl = declared(alloc, TIMED)?;
    let logs = logs_of(alloc, &decl, texts).ok()?;
    let found = by_filters(alloc, &logs).ok()?;
    Some(are_messages(&found, wanted))
}

#[test]
fn messages_in_time(rt: HostRuntime) {
    for (k, (texts, wanted)) in TIMED_CASES.iter().enumerate() {
        assert!(rt;
            timed_holds(rt.alloc(), texts, wanted) == Some(true),
            "case {k}"
        );
    }
}

// What an event is known by: the identification of a packet with the payload "m", or a word.
#[derive(Clone, Copy)]
enum Known {
    Packet(u16),
    Word(&'static str),
}

// The events of two labels, and their messages.
struct Mixed {
    labels: [&'static [(Known, Side)]; 2],
    messages: &'static [[u32; 4]],
}

const MIXED: [Mixed; 4] = [
    // Over and back.
    Mixed {
        labels: [
            &[
                (Known::Packet(7), Side::Send),
                (Known::Packet(8), Side::Receive),
            ],
            &[
                (Known::Packet(8), Side::Send),
                (Known::Packet(7), Side::Receive),
            ],
        ],
        messages: &[[0, 1, 1, 2], [1, 1, 0, 2]],
    },
    // A packet beside a word: each has a message of its own.
    Mixed {
        labels: [
            &[
                (Known::Packet(7), Side::Send),
                (Known::Word("m"), Side::Send),
            ],
            &[
                (Known::Word("m"), Side::Receive),
                (Known::Packet(7), Side::Receive),
            ],
        ],
        messages: &[[0, 1, 1, 2], [0, 2, 1, 1]],
    },
    // They are never joined, though the word is the payload.
    Mixed {
        labels: [
            &[
                (Known::Packet(7), Side::Send),
                (Known::Word("m"), Side::Receive),
            ],
            &[],
        ],
        messages: &[],
    },
    // Another packet is none, and neither is one that was sent twice.
    Mixed {
        labels: [
            &[
                (Known::Packet(7), Side::Send),
                (Known::Packet(9), Side::Send),
            ],
            &[
                (Known::Packet(8), Side::Receive),
                (Known::Packet(9), Side::Receive),
                (Known::Packet(9), Side::Send),
            ],
        ],
        messages: &[],
    },
];

fn content_of(known: Known) -> Option<Content> {
    match known {
        Known::Packet(id) => Some(Content::Packet(packet_key(id, b"m")?)),
        Known::Word(text) => Some(Content::Word(WordKey::new(text.as_bytes())?)),
    }
}

fn key_of(known: Known) -> Option<Key> {
    let content = content_of(known)?;
    Some(Key {
        message: MessageKey {
            segment: 0,
            content,
        },
        moment: None,
    })
}

fn label_of(alloc: Global, ends: &[(Known, Side)]) -> Option<Accepted> {
    let mut events = Vec::new(alloc);
    for (known, side) in ends {
        let key = key_of(*known)?;
        let event = Event {
            stamp: Nano::new(5)?,
            mark: Mark::Keyed { key, side: *side },
            text: None,
        };
        events.push(event).ok()?;
    }
    Some(accepted(events, 0))
}

fn mixed_holds(alloc: Global, case: &Mixed) -> Option<bool> {
    let first = label_of(alloc, case.labels[0])?;
    let second = label_of(alloc, case.labels[1])?;
    let labels = Vec::from_array(alloc, [first, second]).ok()?;
    let found = pairs(alloc, &labels).ok()?;
    Some(are_messages(&found, case.messages))
}

#[test]
fn messages_of_packets(rt: HostRuntime) {
    for (k, case) in MIXED.iter().enumerate() {
        assert!(rt; mixed_holds(rt.alloc(), case) == Some(true), "case {k}");
    }
}
