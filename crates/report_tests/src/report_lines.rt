// Reports, byte for byte: the lines were made by another JSON writer (Python's json), with sorted keys. And orders and
// lines of events that are merged, by hand.
ghost use Rattle.std.specs.Prelude.{◌≡◌, ◌<◌, All, IfOk, IsTrue};
ghost use Rattle.std.specs.Str.{IsAscii};
ghost use Rattle.report.specs.Merging.{AreApart};
ghost use Rattle.report.specs.Report.{HasAsciiKey};

use captures::Dropped;
use ports::MemSink;
use problem_model::Name;
use report::{
    LabelDrops, MergeKey, NamedGroup, NoKeys, PassedSums, View, merge_order, report_line,
    write_merge_line,
};
use shared_fixtures::EMPTY_REPORT;
use std::alloc::{AllocError, Global};
use std::test::*;

#[derive(Clone, Copy)]
struct Group {
    key: &'static str,
    sends: &'static [&'static str],
    receives: &'static [&'static str],
}

// A label with packets that were dropped.
#[derive(Clone, Copy)]
struct Drops {
    label: &'static str,
    dropped: Dropped,
}

// What is reported, and its line.
#[derive(Clone, Copy)]
struct Case {
    alone: Option<u32>,
    events: u32,
    messages: u32,
    unmatched: u32,
    consistent: bool,
    nokeys: NoKeys,
    passed: PassedSums,
    dropped: &'static [Drops],
    groups: &'static [Group],
    line: &'static str,
}

const NO_EVENT: NoKeys = NoKeys {
    link: 0,
    other: 0,
    short: 0,
    header: 0,
    fragment: 0,
    length: 0,
    side: 0,
    local: 0,
    interface: 0,
};

const NONE_PASSED: PassedSums = PassedSums {
    simple: 0,
    obsolete: 0,
    other: 0,
};

const NOTHING: Case = Case {
    alone: None,
    events: 0,
    messages: 0,
    unmatched: 0,
    consistent: true,
    nokeys: NO_EVENT,
    passed: NONE_PASSED,
    dropped: &[],
    groups: &[],
    line: EMPTY_REPORT,
};

const SECOND_SEND: Case = Case {
    alone: Some(0),
    events: 5,
    messages: 1,
    unmatched: 0,
    consistent: true,
    nokeys: NO_EVENT,
    passed: NONE_PASSED,
    dropped: &[Drops {
        label: "b",
        dropped: Dropped {
            interface: 0,
            system: 18446744073709551615,
        },
    }],
    groups: &[Group {
        key: "log m1",
        sends: &["a#1", "a#3"],
        receives: &["b#1"],
    }],
    line: "{\"alone\":0,\"ambiguous\":[{\"key\":\"log m1\",\"receives\":[\"b#1\"],\"sends\":[\"a#1\",\"a#3\"]}],\"consistent\":true,\
    \"dropped\":[{\"interface\":0,\"label\":\"b\",\"system\":18446744073709551615}],\
    \"events\":5,\"messages\":1,\"nokey\":{\"fragment\":0,\"header\":0,\"length\":0,\"link\":0,\"local\":0,\"other\":0,\
    \"short\":0,\"side\":0},\"unmatched\":0}\n",
};

const CAPTURE: Case = Case {
    alone: None,
    events: 11,
    messages: 2,
    unmatched: 1,
    consistent: true,
    nokeys: NoKeys {
        link: 0,
        other: 1,
        short: 0,
        header: 0,
        fragment: 1,
        length: 0,
        side: 0,
        local: 0,
        interface: 0,
    },
    passed: PassedSums {
        simple: 0,
        obsolete: 1,
        other: 0,
    },
    dropped: &[
        Drops {
            label: "ca",
            dropped: Dropped {
                interface: 5,
                system: 2,
            },
        },
        Drops {
            label: "cb",
            dropped: Dropped {
                interface: 1,
                system: 0,
            },
        },
    ],
    groups: &[Group {
        key: "udp 10.0.0.1:5000 10.0.0.2:6000 id 0 length 8 payload -",
        sends: &["ca#3", "ca#4"],
        receives: &["cb#2", "cb#3"],
    }],
    line: "{\"ambiguous\":[{\"key\":\"udp 10.0.0.1:5000 10.0.0.2:6000 id 0 length 8 payload -\",\"receives\":[\"cb#2\",\
    \"cb#3\"],\"sends\":[\"ca#3\",\"ca#4\"]}],\"consistent\":true,\
    \"dropped\":[{\"interface\":5,\"label\":\"ca\",\"system\":2},{\"interface\":1,\"label\":\"cb\",\"system\":0}],\
    \"events\":11,\"messages\":2,\
    \"nokey\":{\"fragment\":1,\"header\":0,\"length\":0,\"link\":0,\"local\":0,\"other\":1,\"short\":0,\"side\":0},\
    \"passed\":{\"obsolete\":1,\"other\":0,\"simple\":0},\"unmatched\":1}\n",
};

const ESCAPES: Case = Case {
    alone: Some(4294967295),
    events: 4294967295,
    messages: 10,
    unmatched: 200,
    consistent: false,
    nokeys: NoKeys {
        link: 1,
        other: 20,
        short: 300,
        header: 4000,
        fragment: 50000,
        length: 600000,
        side: 7000000,
        local: 4294967295,
        interface: 80000000,
    },
    passed: PassedSums {
        simple: 18446744073709551615,
        obsolete: 4294967296,
        other: 70,
    },
    dropped: &[],
    groups: &[Group {
        key: "log \"q\\/'~",
        sends: &["z.log_1-x#1"],
        receives: &["z.log_1-x#2", "z.log_1-x#1000000"],
    }],
    line: "{\"alone\":4294967295,\"ambiguous\":[{\"key\":\"log \\\"q\\\\/'~\",\"receives\":[\"z.log_1-x#2\",\"z.log_1-x#1000000\"],\
    \"sends\":[\"z.log_1-x#1\"]}],\"consistent\":false,\"events\":4294967295,\"messages\":10,\
    \"nokey\":{\"fragment\":50000,\"header\":4000,\"interface\":80000000,\"length\":600000,\"link\":1,\"local\":4294967295,\"other\":20,\
    \"short\":300,\"side\":7000000},\"passed\":{\"obsolete\":4294967296,\"other\":70,\
    \"simple\":18446744073709551615},\"unmatched\":200}\n",
};

const GROUPS: Case = Case {
    alone: None,
    events: 24,
    messages: 3,
    unmatched: 2,
    consistent: true,
    nokeys: NoKeys {
        link: 0,
        other: 0,
        short: 0,
        header: 0,
        fragment: 0,
        length: 0,
        side: 0,
        local: 4,
        interface: 0,
    },
    passed: NONE_PASSED,
    dropped: &[],
    groups: &[
        Group {
            key: "log b",
            sends: &["q#1"],
            receives: &["r#1", "r#2"],
        },
        Group {
            key: "log a",
            sends: &["q#2", "q#10", "q#3"],
            receives: &["p#1"],
        },
        Group {
            key: "log \"",
            sends: &["q#4", "q#5"],
            receives: &["r#3"],
        },
        Group {
            key: "log C",
            sends: &["r#9"],
            receives: &["r#4", "r#5"],
        },
    ],
    line: "{\"ambiguous\":[{\"key\":\"log b\",\"receives\":[\"r#1\",\"r#2\"],\"sends\":[\"q#1\"]},{\"key\":\"log a\",\
    \"receives\":[\"p#1\"],\"sends\":[\"q#2\",\"q#10\",\"q#3\"]},{\"key\":\"log \\\"\",\"receives\":[\"r#3\"],\
    \"sends\":[\"q#4\",\"q#5\"]},{\"key\":\"log C\",\"receives\":[\"r#4\",\"r#5\"],\"sends\":[\"r#9\"]}],\
    \"consistent\":true,\"events\":24,\"messages\":3,\"nokey\":{\"fragment\":0,\"header\":0,\"length\":0,\"link\":0,\
    \"local\":4,\"other\":0,\"short\":0,\"side\":0},\"unmatched\":2}\n",
};

const CASES: [Case; 5] = [NOTHING, SECOND_SEND, CAPTURE, ESCAPES, GROUPS];

fn names_of(alloc: Global, texts: &[&str]) -> Result<Vec<Name>, AllocError> {
    let mut names = Vec::new(alloc);
    for text in texts {
        names.push(Name::new(text.as_bytes()).ok_or(AllocError)?)?;
    }
    Ok(names)
}

fn key_of(alloc: Global, text: &str) -> Result<Vec<u8>, AllocError>
    ensures { IfOk result (λ bytes. IsAscii bytes.items) }
{
    if !text.is_ascii() {
        return Err(AllocError);
    }
    text.as_bytes().to_vec(alloc)
}

fn group_of(alloc: Global, group: &Group) -> Result<NamedGroup, AllocError>
    ensures { IfOk result HasAsciiKey }
{
    let key = key_of(alloc, group.key)?;
    let sends = names_of(alloc, group.sends)?;
    let receives = names_of(alloc, group.receives)?;
    Ok(NamedGroup {
        key,
        sends,
        receives,
    })
}

fn groups_of(alloc: Global, groups: &[Group]) -> Result<Vec<NamedGroup>, AllocError>
    ensures { IfOk result (λ gs. All HasAsciiKey gs.items) }
{
    let mut named = Vec::new(alloc);
    for one in groups {
        named.push(group_of(alloc, one)?)?;
    }
    Ok(named)
}

fn drops_of(alloc: Global, labels: &[Drops]) -> Result<Vec<LabelDrops>, AllocError> {
    let mut drops = Vec::new(alloc);
    for one in labels {
        drops.push(LabelDrops {
            label: Name::new(one.label.as_bytes()).ok_or(AllocError)?,
            dropped: one.dropped,
        })?;
    }
    Ok(drops)
}

fn line_of(alloc: Global, case: &Case) -> Result<Vec<u8>, AllocError> {
    let view = View {
        alone: case.alone,
        events: case.events,
        messages: case.messages,
        unmatched: case.unmatched,
        consistent: case.consistent,
        nokeys: case.nokeys,
        passed: case.passed,
        dropped: drops_of(alloc, case.dropped)?,
        groups: groups_of(alloc, case.groups)?,
    };
    report_line(alloc, &view)
}

#[test]
fn lines(rt: HostRuntime) -> Result<(), Fail> {
    for case in &CASES {
        let written = line_of(rt.alloc(), case)?;
        assert!(rt; written.as_slice() == case.line.as_bytes(), "{}", case.line);
    }
    Ok(())
}

// An event that is merged, and its line.
#[derive(Clone, Copy)]
struct Merged {
    value: i128,
    name: &'static str,
    text: &'static str,
    line: &'static str,
}

// The line has 25 bytes.
const PING: Merged = Merged {
    value: 1_500_000_000,
    name: "a#2",
    text: "ping out",
    line: "1.500000000 a#2 ping out\n",
};

// Zero, values below it and the least and the greatest one, names of one and of 48 bytes, and texts with spaces alone and
// longer than any line without one.
const MERGED: [Merged; 7] = [
    PING,
    Merged {
        value: 0,
        name: "a#1",
        text: "",
        line: "0.000000000 a#1\n",
    },
    Merged {
        value: -1,
        name: "b.log-2_x#10",
        text: "x",
        line: "-0.000000001 b.log-2_x#10 x\n",
    },
    Merged {
        value: -2_000_000_000_000_000_000,
        name: "n",
        text: " ",
        line: "-2000000000.000000000 n  \n",
    },
    Merged {
        value: i128::MIN,
        name: "a23456789b23456789c23456789d23456789e23456789#12",
        text: "",
        line: "-170141183460469231731687303715.884105728 a23456789b23456789c23456789d23456789e23456789#12\n",
    },
    Merged {
        value: i128::MAX,
        name: "a23456789b23456789c23456789d23456789e23456789#12",
        text: "q,\"r\" \ts",
        line: "170141183460469231731687303715.884105727 a23456789b23456789c23456789d23456789e23456789#12 q,\"r\" \ts\n",
    },
    Merged {
        value: 1,
        name: "a#3",
        text: LONG,
        line: LONG_LINE,
    },
];

// 300 bytes.
const LONG: &str = "0123456789abcdefghijklmnopqrstuvwxyzABCDEFGHIJKLMNOPQRSTUVWX\
    0123456789abcdefghijklmnopqrstuvwxyzABCDEFGHIJKLMNOPQRSTUVWX\
    0123456789abcdefghijklmnopqrstuvwxyzABCDEFGHIJKLMNOPQRSTUVWX\
    0123456789abcdefghijklmnopqrstuvwxyzABCDEFGHIJKLMNOPQRSTUVWX\
    0123456789abcdefghijklmnopqrstuvwxyzABCDEFGHIJKLMNOPQRSTUVWX";

const LONG_LINE: &str = "0.000000001 a#3 \
    0123456789abcdefghijklmnopqrstuvwxyzABCDEFGHIJKLMNOPQRSTUVWX\
    0123456789abcdefghijklmnopqrstuvwxyzABCDEFGHIJKLMNOPQRSTUVWX\
    0123456789abcdefghijklmnopqrstuvwxyzABCDEFGHIJKLMNOPQRSTUVWX\
    0123456789abcdefghijklmnopqrstuvwxyzABCDEFGHIJKLMNOPQRSTUVWX\
    0123456789abcdefghijklmnopqrstuvwxyzABCDEFGHIJKLMNOPQRSTUVWX\n";

// A sink with room for each of these lines that takes at most so many bytes in a call.
fn sink(alloc: Global, most: u32, fails: &[u32]) -> Option<MemSink>
    requires { 0 < most }
{
    MemSink::new(alloc, 500, most, fails).ok()
}

// Whether the line of an event is written in calls of at most so many bytes.
fn is_merged_line(alloc: Global, event: &Merged, most: u32) -> bool
    requires { 0 < most }
{
    match (Name::new(event.name.as_bytes()), sink(alloc, most, &[])) {
        (Some(name), Some(mut out)) => {
            write_merge_line(event.value, &name, event.text.as_bytes(), &mut out).is_ok()
                && out.bytes() == event.line.as_bytes()
        }
        _ => false,
    }
}

// Whether a sink that takes a byte in a call, and fails behind so many, holds just as many of the line.
fn holds_a_front(alloc: Global, event: &Merged, before: u32) -> bool {
    match (
        Name::new(event.name.as_bytes()),
        sink(alloc, 1, &[before.saturating_add(1)]),
    ) {
        (Some(name), Some(mut out)) => {
            write_merge_line(event.value, &name, event.text.as_bytes(), &mut out).is_err()
                && out.bytes().len() == before as usize
                && event.line.as_bytes().starts_with(out.bytes())
        }
        _ => false,
    }
}

// Whether that is so at each call that is made for the line.
fn holds_fronts(alloc: Global, event: &Merged, calls: u32) -> bool {
    for before in 0..calls {
        if !holds_a_front(alloc, event, before) {
            return false;
        }
    }
    true
}

// The value, the place and the number of each key, and the positions in their order.
#[derive(Clone, Copy)]
struct Order {
    keys: &'static [(i128, u32, u32)],
    positions: &'static [u32],
}

// No key; one; values that fall; equal values, by place and then by number; values that decide against place and number,
// with the least and the greatest one; and more keys than a sort by insertion takes.
const ORDERS: [Order; 6] = [
    Order {
        keys: &[],
        positions: &[],
    },
    Order {
        keys: &[(5, 3, 1)],
        positions: &[0],
    },
    Order {
        keys: &[(3, 0, 1), (2, 0, 2), (1, 0, 3)],
        positions: &[2, 1, 0],
    },
    Order {
        keys: &[(7, 1, 1), (7, 0, 2), (7, 0, 1), (7, 1, 0), (7, 0, 10)],
        positions: &[2, 1, 4, 3, 0],
    },
    Order {
        keys: &[
            (0, 0, 1),
            (-1, 1, 1),
            (i128::MIN, 4294967295, 4294967295),
            (i128::MAX, 0, 0),
            (1, 0, 2),
            (-1, 0, 9),
        ],
        positions: &[2, 5, 1, 0, 4, 3],
    },
    Order {
        keys: &[
            (0, 0, 23),
            (1, 0, 22),
            (0, 0, 21),
            (1, 0, 20),
            (0, 0, 19),
            (1, 0, 18),
            (0, 0, 17),
            (1, 0, 16),
            (0, 0, 15),
            (1, 0, 14),
            (0, 0, 13),
            (1, 0, 12),
            (0, 0, 11),
            (1, 0, 10),
            (0, 0, 9),
            (1, 0, 8),
            (0, 0, 7),
            (1, 0, 6),
            (0, 0, 5),
            (1, 0, 4),
            (0, 0, 3),
            (1, 0, 2),
            (0, 0, 1),
            (1, 0, 0),
        ],
        positions: &[
            22, 20, 18, 16, 14, 12, 10, 8, 6, 4, 2, 0, 23, 21, 19, 17, 15, 13, 11, 9, 7, 5, 3, 1,
        ],
    },
];

// Whether a key has another place or another number than each of these.
fn is_new(keys: &[MergeKey], key: &MergeKey) -> bool
    ensures { IsTrue result → All (λ k. (k.place ≡ key.now.place) → (k.n ≡ key.now.n) → ⊥) keys.now }
{
    for other in keys {
        if other.place == key.place && other.n == key.n {
            return false;
        }
    }
    true
}

fn keys_of(alloc: Global, rows: &[(i128, u32, u32)]) -> Result<Vec<MergeKey>, AllocError>
    ensures { IfOk result (λ keys. AreApart keys.items) }
{
    let mut keys = Vec::new(alloc);
    for (value, place, n) in rows {
        let key = MergeKey {
            value: *value,
            place: *place,
            n: *n,
        };
        if !is_new(&keys, &key) {
            return Err(AllocError);
        }
        keys.push(key)?;
    }
    Ok(keys)
}

fn order_of(alloc: Global, rows: &[(i128, u32, u32)]) -> Result<Vec<u32>, AllocError> {
    let keys = keys_of(alloc, rows)?;
    if keys.len() > 100 {
        return Err(AllocError);
    }
    merge_order(alloc, &keys)
}

// Whether these keys are put into this order.
fn is_merged(alloc: Global, order: &Order) -> bool {
    match order_of(alloc, order.keys) {
        Ok(positions) => positions.as_slice() == order.positions,
        Err(_) => false,
    }
}

#[test]
fn merged_lines(rt: HostRuntime) {
    for event in &MERGED {
        assert!(rt; is_merged_line(rt.alloc(), event, 1), "{}", event.line);
        assert!(rt; is_merged_line(rt.alloc(), event, 500), "{}", event.line);
    }
}

#[test]
fn a_failed_write_leaves_a_front(rt: HostRuntime) {
    assert!(rt; holds_fronts(rt.alloc(), &PING, 25));
}

#[test]
fn merge_orders(rt: HostRuntime) {
    for order in &ORDERS {
        assert!(rt; is_merged(rt.alloc(), order), "{}", order.keys.len());
    }
}
