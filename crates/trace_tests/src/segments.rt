// Messages of several segments: each joins two events of one.
ghost use Rattle.decl.specs.Declaration.{IsDeclaration, declaration_of};

use crate::events::{BACK, OVER};
use crate::fixtures::{accepted, are_messages, by_filters, declared_by, logs_of, packet_of};
use captures::Packet;
use decl::{Decl, Label};
use std::alloc::{AllocError, Global};
use std::test::*;
use traces::{Accepted, packet_events};

// The heads of three labels of logs at two hosts.
const LOG_HEADS: [&str; 3] = [
    "[hosts.a]\noffset = 100\n[hosts.b]\n[labels.p]\nhost = 'b'\nkind = 'log'\n",
    "[labels.q]\nhost = 'a'\nkind = 'log'\n",
    "[labels.r]\nhost = 'b'\nkind = 'log'\n",
];

// The declaration's window and what its labels say; their logs; and the messages by label and number of the send, and of the
// receive.
struct Case {
    window: &'static str,
    labels: [&'static str; 3],
    logs: [&'static str; 3],
    messages: &'static [[u32; 4]],
}

const X: &str = "segment = 'x'\n";

const Y: &str = "segment = 'y'\n";

// Two sends of a word and one receive.
const TWO_SENDS: [&str; 3] = ["1,send,m,\n", "2,receive,m,\n", "3,send,m,\n"];

// Both ends of a word in each of two logs, and in the third one as well, the receive first.
const BOTH_ENDS: [&str; 3] = [
    "1,send,m,\n2,receive,m,\n",
    "5,send,m,\n7,receive,m,\n",
    "9,receive,m,\n8,send,m,\n",
];

// By the clock of b two messages, and 10 ns behind the first of them and 9 ns before the other one an end of the same word.
const BETWEEN: [&str; 3] = [
    "8,receive,m,\n30,receive,m,\n",
    "105,send,m,\n127,send,m,\n",
    "18,send,m,\n",
];

const CASES: [Case; 13] = [
    // Labels that name no segment are of one, and those that all name the same one too.
    Case {
        window: "",
        labels: ["", "", ""],
        logs: TWO_SENDS,
        messages: &[],
    },
    Case {
        window: "",
        labels: [X, X, X],
        logs: TWO_SENDS,
        messages: &[],
    },
    Case {
        window: "",
        labels: [X, X, ""],
        logs: TWO_SENDS,
        messages: &[[0, 1, 1, 1]],
    },
    Case {
        window: "",
        labels: ["", "", X],
        logs: TWO_SENDS,
        messages: &[[0, 1, 1, 1]],
    },
    Case {
        window: "",
        labels: [X, "", ""],
        logs: TWO_SENDS,
        messages: &[[2, 1, 1, 1]],
    },
    Case {
        window: "",
        labels: ["", X, ""],
        logs: TWO_SENDS,
        messages: &[],
    },
    // Names are compared whole, and byte by byte.
    Case {
        window: "",
        labels: ["segment = 'X'\n", X, "segment = 'xx'\n"],
        logs: TWO_SENDS,
        messages: &[],
    },
    Case {
        window: "",
        labels: ["segment = 'X'\n", X, X],
        logs: TWO_SENDS,
        messages: &[[2, 1, 1, 1]],
    },
    Case {
        window: "",
        labels: [X, "", Y],
        logs: BOTH_ENDS,
        messages: &[[0, 1, 0, 2], [1, 1, 1, 2], [2, 2, 2, 1]],
    },
    // Another word of another segment.
    Case {
        window: "",
        labels: [X, X, Y],
        logs: [
            "1,send,m,\n2,receive,n,\n3,send,k,\n",
            "1,receive,m,\n2,send,n,\n",
            "1,receive,m,\n2,send,n,\n3,receive,k,\n",
        ],
        messages: &[[0, 1, 1, 1], [1, 2, 0, 2]],
    },
    // Where a window is declared, an event of another segment joins no groups.
    Case {
        window: "window = 10\n",
        labels: [X, X, Y],
        logs: BETWEEN,
        messages: &[[1, 1, 0, 1], [1, 2, 0, 2]],
    },
    Case {
        window: "window = 10\n",
        labels: [X, X, X],
        logs: BETWEEN,
        messages: &[],
    },
    Case {
        window: "window = 10\n",
        labels: ["", Y, Y],
        logs: BETWEEN,
        messages: &[],
    },
];

// The declaration of such labels.
fn text_of(alloc: Global, case: &Case) -> Result<Vec<u8>, AllocError> {
    let mut text = Vec::from_slice(alloc, case.window.as_bytes())?;
    for (head, label) in LOG_HEADS.iter().zip(&case.labels) {
        text.extend_from_slice(head.as_bytes())?;
        text.extend_from_slice(label.as_bytes())?;
    }
    Ok(text)
}

fn holds(alloc: Global, case: &Case) -> Option<bool> {
    let text = text_of(alloc, case).ok()?;
    let decl = declared_by(alloc, &text)?;
    let logs = logs_of(alloc, &decl, &case.logs).ok()?;
    let found = by_filters(alloc, &logs).ok()?;
    Some(are_messages(&found, case.messages))
}

#[test]
fn logs_on_segments(rt: HostRuntime) {
    for (k, case) in CASES.iter().enumerate() {
        assert!(rt; holds(rt.alloc(), case) == Some(true), "case {k}");
    }
}

// The heads of the labels of captures at a host, at another one, and on both sides of a router between them.
const CAPTURE_HEADS: [&str; 4] = [
    "[hosts.a]\naddresses = ['10.0.0.1']\n[hosts.f]\naddresses = ['10.0.0.2']\n[hosts.n]\n\
    [labels.a]\nhost = 'a'\nkind = 'capture'\n",
    "[labels.f]\nhost = 'f'\nkind = 'capture'\n",
    "[labels.n_lan]\nhost = 'n'\nkind = 'capture'\nbeyond = ['10.0.0.1']\n",
    "[labels.n_wan]\nhost = 'n'\nkind = 'capture'\nbeyond = ['10.0.0.2']\n",
];

// A packet by its interface and its frame.
type Frame = (Option<u32>, &'static [u8]);

// What these labels say, their packets, and the messages.
struct Routed {
    labels: [&'static str; 4],
    packets: [&'static [Frame]; 4],
    messages: &'static [[u32; 4]],
}

const LAN: &str = "segment = 'lan'\n";

const WAN: &str = "segment = 'wan'\n";

// A packet over and one back, as each of the four captures has them.
const ONCE: &[Frame] = &[(None, &OVER), (None, &BACK)];

// The same in one capture of both sides of the router.
const TWICE: &[Frame] = &[
    (Some(0), &OVER),
    (Some(1), &OVER),
    (Some(1), &BACK),
    (Some(0), &BACK),
];

const ROUTED: [Routed; 6] = [
    Routed {
        labels: [LAN, WAN, LAN, WAN],
        packets: [ONCE, ONCE, ONCE, ONCE],
        messages: &[[0, 1, 2, 1], [1, 2, 3, 2], [2, 2, 0, 2], [3, 1, 1, 1]],
    },
    // One side needs no name.
    Routed {
        labels: ["", WAN, "", WAN],
        packets: [ONCE, ONCE, ONCE, ONCE],
        messages: &[[0, 1, 2, 1], [1, 2, 3, 2], [2, 2, 0, 2], [3, 1, 1, 1]],
    },
    // Without segments each packet is sent twice and received twice.
    Routed {
        labels: ["", "", "", ""],
        packets: [ONCE, ONCE, ONCE, ONCE],
        messages: &[],
    },
    // A segment is no path: where one side of the router is not captured, its packets join nothing.
    Routed {
        labels: [LAN, WAN, LAN, WAN],
        packets: [ONCE, ONCE, ONCE, &[]],
        messages: &[[0, 1, 2, 1], [2, 2, 0, 2]],
    },
    // One capture under two labels, each of which has an interface.
    Routed {
        labels: [
            LAN,
            WAN,
            "segment = 'lan'\ninterface = 0\n",
            "segment = 'wan'\ninterface = 1\n",
        ],
        packets: [ONCE, ONCE, TWICE, TWICE],
        messages: &[[0, 1, 2, 1], [1, 2, 3, 3], [2, 4, 0, 2], [3, 2, 1, 1]],
    },
    // Where they have the other one, packets that went out by one side are taken to have gone out by the other one.
    Routed {
        labels: [LAN, WAN, LAN, WAN],
        packets: [ONCE, ONCE, TWICE, TWICE],
        messages: &[],
    },
];

fn routed_text(alloc: Global, labels: &[&str; 4]) -> Result<Vec<u8>, AllocError> {
    let mut text = Vec::new(alloc);
    for (head, label) in CAPTURE_HEADS.iter().zip(labels) {
        text.extend_from_slice(head.as_bytes())?;
        text.extend_from_slice(label.as_bytes())?;
    }
    Ok(text)
}

fn packets_of(alloc: Global, frames: &[Frame]) -> Option<Vec<Packet>> {
    let mut packets = Vec::new(alloc);
    for (interface, frame) in frames {
        packets
            .push(packet_of(alloc, 101, *interface, frame)?)
            .ok()?;
    }
    Some(packets)
}

// What is accepted of a capture of these packets.
fn capture_of(alloc: Global, decl: &Decl, label: &Label, frames: &[Frame]) -> Option<Accepted>
    requires { IsDeclaration (declaration_of decl.now) }
{
    let packets = packets_of(alloc, frames)?;
    let events = packet_events(alloc, decl, label, &packets).ok()?;
    Some(accepted(events, 0))
}

fn captures_of(alloc: Global, decl: &Decl, packets: &[&[Frame]; 4]) -> Option<Vec<Accepted>>
    requires { IsDeclaration (declaration_of decl.now) }
{
    let mut captures = Vec::new(alloc);
    for (label, frames) in decl.labels.iter().zip(packets) {
        captures.push(capture_of(alloc, decl, label, frames)?).ok()?;
    }
    Some(captures)
}

fn is_routed(alloc: Global, case: &Routed) -> Option<bool> {
    let text = routed_text(alloc, &case.labels).ok()?;
    let decl = declared_by(alloc, &text)?;
    let captures = captures_of(alloc, &decl, &case.packets)?;
    let found = by_filters(alloc, &captures).ok()?;
    Some(are_messages(&found, case.messages))
}

#[test]
fn captures_on_both_sides(rt: HostRuntime) {
    for (k, case) in ROUTED.iter().enumerate() {
        assert!(rt; is_routed(rt.alloc(), case) == Some(true), "case {k}");
    }
}
