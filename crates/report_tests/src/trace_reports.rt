// Reports on small traces, byte for byte. The lines were made by another JSON writer (Python's json), with sorted keys.
ghost use Rattle.std.specs.Prelude.{IfOk};
ghost use Rattle.decl.specs.Declaration.{IsDeclaration, declaration_of};
ghost use Rattle.traces.specs.Held.{seen_in};
ghost use Rattle.reference_traces.specs.Added.{AreAllAdded};

use crate::fixtures::{declared, events_of_log};
use arrayvec::ArrayVec;
use atto::Nano;
use captures::Packet;
use decl::Decl;
use event_log::WordKey;
use headers::{Network, PacketKey, Segment, Transport, UserDatagram};
use problem_model::MOST_EVENTS;
use reference_traces::Additions;
use report::{key_text, report_line, view_of};
use shared_fixtures::EMPTY_REPORT;
use std::alloc::{AllocError, Global};
use std::test::*;
use traces::{Content, Event, MessageKey, event_count, packet_events};

// Captures at the hosts a and b, a log at a and two at b.
const DECLARATION: &[u8] =
    b"payload_bytes = 16\n[hosts.a]\naddresses = ['10.1.2.3']\n[hosts.b]\naddresses = ['192.168.3.254']\n[labels]\n\
    ca = { host = 'a', kind = 'capture' }\ncb = { host = 'b', kind = 'capture' }\nla = { host = 'a', kind = 'log' }\n\
    lb = { host = 'b', kind = 'log' }\nlc = { host = 'b', kind = 'log' }\n";

// UDP from a to b, without a payload.
const OVER: [u8; 28] = [
    69, 0, 0, 28, 0, 7, 0, 0, 64, 17, 0, 0, 10, 1, 2, 3, 192, 168, 3, 254, 19, 136, 23, 112, 0, 8,
    0, 0,
];

// UDP from b to a, with the payload `m`.
const BACK: [u8; 29] = [
    69, 0, 0, 29, 0, 8, 0, 0, 64, 17, 0, 0, 192, 168, 3, 254, 10, 1, 2, 3, 23, 112, 19, 136, 0, 9,
    0, 0, 109,
];

// TCP from a to b, with three bytes.
const SEGMENT: [u8; 43] = [
    69, 0, 0, 43, 1, 44, 0, 0, 64, 6, 0, 0, 10, 1, 2, 3, 192, 168, 3, 254, 19, 136, 1, 187, 255,
    255, 255, 254, 0, 0, 0, 1, 80, 24, 0, 0, 0, 0, 0, 0, 15, 160, 255,
];

// UDP between addresses of nobody.
const STRANGE: [u8; 28] = [
    69, 0, 0, 28, 0, 7, 0, 0, 64, 17, 0, 0, 10, 1, 2, 4, 10, 1, 2, 4, 0, 1, 0, 2, 0, 8, 0, 0,
];

// A header that is too short.
const HEADER: [u8; 20] = [
    68, 0, 0, 20, 0, 7, 0, 0, 64, 17, 0, 0, 10, 1, 2, 3, 192, 168, 3, 254,
];

// A fragment.
const FRAGMENT: [u8; 20] = [
    69, 0, 0, 28, 0, 9, 32, 0, 64, 17, 0, 0, 10, 1, 2, 3, 192, 168, 3, 254,
];

// A datagram that is shorter than its header.
const LENGTH: [u8; 20] = [
    69, 0, 0, 19, 0, 7, 0, 0, 64, 17, 0, 0, 10, 1, 2, 3, 192, 168, 3, 254,
];

// A frame by its link type and its bytes.
type Frame = (u16, &'static [u8]);

// The frames captured at each host, the three logs, how many events are added to which label, turn by turn, and the line of
// the report.
#[derive(Clone, Copy)]
struct Case {
    frames: [&'static [Frame]; 2],
    logs: [&'static [u8]; 3],
    turns: &'static [(u32, u32)],
    consistent: bool,
    line: &'static str,
}

const NOTHING: Case = Case {
    frames: [&[], &[]],
    logs: [b"", b"", b""],
    turns: &[],
    consistent: true,
    line: EMPTY_REPORT,
};

// A second send of a word: its key is ambiguous, and the other word has a message.
const SECOND_SEND: Case = Case {
    frames: [&[], &[]],
    logs: [
        b"1,send,m1,\n2,send,m2,\n3,send,m1,\n",
        b"5,receive,m1,\n6,receive,m2,\n",
        b"",
    ],
    turns: &[(3, 1), (2, 1), (3, 1), (2, 2)],
    consistent: true,
    line: "{\"ambiguous\":[{\"key\":\"log m1\",\"receives\":[\"lb#1\"],\"sends\":[\"la#1\",\"la#3\"]}],\"consistent\":true,\
    \"events\":5,\"messages\":1,\"nokey\":{\"fragment\":0,\"header\":0,\"length\":0,\"link\":0,\"local\":0,\"other\":0,\
    \"short\":0,\"side\":0},\"unmatched\":0}\n",
};

// Ends without a partner, also two sends of one word, and rows that are local.
const ALONE: Case = Case {
    frames: [&[], &[]],
    logs: [
        b"1,send,a,\n2,local,,x\n3,local,,\n",
        b"1,receive,b,\n2,send,c,\n2,send,c,\n3,local,,\n",
        b"",
    ],
    turns: &[(3, 4), (2, 3)],
    consistent: false,
    line: "{\"ambiguous\":[],\"consistent\":false,\"events\":7,\"messages\":0,\"nokey\":{\"fragment\":0,\"header\":0,\
    \"length\":0,\"link\":0,\"local\":3,\"other\":0,\"short\":0,\"side\":0},\"unmatched\":4}\n",
};

// Two keys: the one that comes first is last by its text, and last by its last event.
const ORDER: Case = Case {
    frames: [&[], &[]],
    logs: [
        b"1,send,z,\n2,send,a,\n3,send,z,\n4,send,a,\n",
        b"1,receive,a,\n2,receive,z,\n",
        b"",
    ],
    turns: &[(3, 2), (2, 4)],
    consistent: true,
    line: "{\"ambiguous\":[{\"key\":\"log z\",\"receives\":[\"lb#2\"],\"sends\":[\"la#1\",\"la#3\"]},{\"key\":\"log a\",\
    \"receives\":[\"lb#1\"],\"sends\":[\"la#2\",\"la#4\"]}],\"consistent\":true,\"events\":6,\"messages\":0,\
    \"nokey\":{\"fragment\":0,\"header\":0,\"length\":0,\"link\":0,\"local\":0,\"other\":0,\"short\":0,\"side\":0},\
    \"unmatched\":0}\n",
};

// Keys with events of both labels, which are added in turn: the first event of the key that came first is added in the
// last turn.
const IN_TURN: Case = Case {
    frames: [&[], &[]],
    logs: [
        b"1,send,q,\n2,receive,p,\n3,send,p,\n",
        b"1,send,p,\n2,receive,q,\n3,send,q,\n4,receive,p,\n5,send,p,\n",
        b"",
    ],
    turns: &[(3, 3), (2, 1), (3, 2), (2, 2)],
    consistent: true,
    line: "{\"ambiguous\":[{\"key\":\"log q\",\"receives\":[\"lb#2\"],\"sends\":[\"la#1\",\"lb#3\"]},{\"key\":\"log p\",\
    \"receives\":[\"la#2\",\"lb#4\"],\"sends\":[\"la#3\",\"lb#1\",\"lb#5\"]}],\"consistent\":true,\"events\":8,\"messages\":0,\
    \"nokey\":{\"fragment\":0,\"header\":0,\"length\":0,\"link\":0,\"local\":0,\"other\":0,\"short\":0,\"side\":0},\
    \"unmatched\":0}\n",
};

// Over and back between three labels: the sends of a key stand by label, and came otherwise.
const OVER_AND_BACK: Case = Case {
    frames: [&[], &[]],
    logs: [
        b"1,local,,\n2,send,m,\n3,receive,n,\n4,send,k,\n5,send,n,\n6,local,,\n",
        b"1,receive,m,\n2,local,,\n3,send,n,\n",
        b"1,send,n,\n2,receive,k,\n",
    ],
    turns: &[(3, 3), (2, 3), (4, 0), (2, 2), (4, 2), (2, 1)],
    consistent: true,
    line: "{\"ambiguous\":[{\"key\":\"log n\",\"receives\":[\"la#3\"],\"sends\":[\"la#5\",\"lb#3\",\"lc#1\"]}],\
    \"consistent\":true,\"events\":11,\"messages\":2,\"nokey\":{\"fragment\":0,\"header\":0,\"length\":0,\
    \"link\":0,\"local\":3,\"other\":0,\"short\":0,\"side\":0},\"unmatched\":0}\n",
};

// Four keys that came in the order of their letters: the last label to come has the first events of three of them.
const FOUR_KEYS: Case = Case {
    frames: [&[], &[]],
    logs: [
        b"1,send,c,\n2,receive,b,\n3,send,e,\n4,receive,e,\n5,send,a,\n",
        b"1,receive,c,\n2,receive,a,\n3,receive,b,\n4,send,d,\n5,receive,d,\n6,receive,d,\n",
        b"1,send,a,\n2,send,b,\n3,send,c,\n4,receive,a,\n",
    ],
    turns: &[(4, 4), (3, 3), (3, 3), (2, 5)],
    consistent: true,
    line: "{\"ambiguous\":[{\"key\":\"log c\",\"receives\":[\"lb#1\"],\"sends\":[\"la#1\",\"lc#3\"]},{\"key\":\"log b\",\
    \"receives\":[\"la#2\",\"lb#3\"],\"sends\":[\"lc#2\"]},{\"key\":\"log a\",\"receives\":[\"lb#2\",\"lc#4\"],\
    \"sends\":[\"la#5\",\"lc#1\"]},{\"key\":\"log d\",\"receives\":[\"lb#5\",\"lb#6\"],\"sends\":[\"lb#4\"]}],\
    \"consistent\":true,\"events\":15,\"messages\":1,\"nokey\":{\"fragment\":0,\"header\":0,\"length\":0,\
    \"link\":0,\"local\":0,\"other\":0,\"short\":0,\"side\":0},\"unmatched\":0}\n",
};

// Packets with keys, and some of each kind without; a word is not the payload that is spelled like it.
const PACKETS: Case = Case {
    frames: [
        &[
            (101, &OVER),
            (101, &SEGMENT),
            (101, &OVER),
            (101, &BACK),
            (105, &OVER),
            (101, &[0x50]),
            (101, &[0x50]),
            (101, &[]),
            (101, &[]),
            (101, &[]),
            (101, &HEADER),
            (101, &FRAGMENT),
            (101, &LENGTH),
            (101, &STRANGE),
        ],
        &[(101, &SEGMENT), (101, &OVER), (101, &BACK), (101, &SEGMENT)],
    ],
    logs: [b"1,send,m,\n", b"1,local,,\n", b""],
    turns: &[(1, 3), (0, 10), (3, 1), (1, 1), (2, 1), (0, 4)],
    consistent: true,
    line: "{\"ambiguous\":[{\"key\":\"udp 10.1.2.3:5000 192.168.3.254:6000 id 7 length 8 payload -\",\"receives\":[\"cb#2\"],\
    \"sends\":[\"ca#1\",\"ca#3\"]},\
    {\"key\":\"tcp 10.1.2.3:5000 192.168.3.254:443 id 300 seq 4294967294 ack 1 flags 24 length 3 payload 0fa0ff\",\
    \"receives\":[\"cb#1\",\"cb#4\"],\"sends\":[\"ca#2\"]}],\"consistent\":true,\"events\":20,\"messages\":1,\
    \"nokey\":{\"fragment\":1,\"header\":1,\"length\":1,\"link\":1,\"local\":1,\"other\":2,\"short\":3,\"side\":1},\
    \"unmatched\":1}\n",
};

// The same traces where a window of 10 ns is declared, and the clock of a is 5 ns ahead.
const WINDOW_DECLARATION: &[u8] =
    b"payload_bytes = 16\nwindow = 10\n[hosts.a]\naddresses = ['10.1.2.3']\noffset = 5\n[hosts.b]\n\
    addresses = ['192.168.3.254']\n[labels]\nca = { host = 'a', kind = 'capture' }\n\
    cb = { host = 'b', kind = 'capture' }\nla = { host = 'a', kind = 'log' }\nlb = { host = 'b', kind = 'log' }\n\
    lc = { host = 'b', kind = 'log' }\n";

// Three groups of one word, from 95 ns on, from 205 on and at 295: the first one is ambiguous, the second one is a message
// from 215 to 205, 10 ns apart, and the third one has a send alone. They come in turns.
const GROUPS: Case = Case {
    frames: [&[], &[]],
    logs: [
        b"100,send,m,\n105,send,m,\n220,send,m,\n300,send,m,\n",
        b"104,receive,m,\n205,receive,m,\n",
        b"",
    ],
    turns: &[(3, 1), (2, 3), (3, 1), (2, 1)],
    consistent: true,
    line: "{\"alone\":0,\"ambiguous\":[{\"key\":\"log m\",\"receives\":[\"lb#1\"],\"sends\":[\"la#1\",\"la#2\"]}],\
    \"consistent\":true,\"events\":6,\"messages\":1,\"nokey\":{\"fragment\":0,\"header\":0,\"length\":0,\"link\":0,\"local\":0,\"other\":0,\
    \"short\":0,\"side\":0},\"unmatched\":1}\n",
};

// Two ambiguous groups of one word, and ends of another one that lie further apart than the window: it stands alone.
const APART: Case = Case {
    frames: [&[], &[]],
    logs: [
        b"5,send,m,\n6,send,m,\n50,send,n,\n105,send,m,\n",
        b"10,receive,m,\n56,receive,n,\n100,receive,m,\n101,receive,m,\n",
        b"",
    ],
    turns: &[(3, 4), (2, 4)],
    consistent: true,
    line: "{\"alone\":1,\"ambiguous\":[{\"key\":\"log m\",\"receives\":[\"lb#1\"],\"sends\":[\"la#1\",\"la#2\"]},{\"key\":\"log m\",\
    \"receives\":[\"lb#3\",\"lb#4\"],\"sends\":[\"la#4\"]}],\"consistent\":true,\"events\":8,\"messages\":0,\
    \"nokey\":{\"fragment\":0,\"header\":0,\"length\":0,\"link\":0,\"local\":0,\"other\":0,\"short\":0,\"side\":0},\
    \"unmatched\":2}\n",
};

// The ends of each message lie 11 ns apart, from 95 to 106, from 195 to 206 and from 395 to 406, so none meet: the words m,
// in four groups, and n stand alone. The word q is never received.
const TOO_FAR: Case = Case {
    frames: [&[], &[]],
    logs: [
        b"100,send,m,\n200,send,n,\n300,send,q,\n400,send,m,\n",
        b"106,receive,m,\n206,receive,n,\n406,receive,m,\n",
        b"",
    ],
    turns: &[(2, 3), (3, 2), (2, 1), (3, 1)],
    consistent: true,
    line: "{\"alone\":2,\"ambiguous\":[],\"consistent\":true,\"events\":7,\"messages\":0,\
    \"nokey\":{\"fragment\":0,\"header\":0,\"length\":0,\"link\":0,\"local\":0,\"other\":0,\"short\":0,\"side\":0},\
    \"unmatched\":7}\n",
};

// The same where they lie 10 ns apart, but for the last ends of m: of its other two groups one has both ends.
const NEAR: Case = Case {
    frames: [&[], &[]],
    logs: [
        b"100,send,m,\n200,send,n,\n300,send,q,\n400,send,m,\n",
        b"105,receive,m,\n205,receive,n,\n406,receive,m,\n",
        b"",
    ],
    turns: &[(3, 3), (2, 4)],
    consistent: true,
    line: "{\"alone\":0,\"ambiguous\":[],\"consistent\":true,\"events\":7,\"messages\":2,\
    \"nokey\":{\"fragment\":0,\"header\":0,\"length\":0,\"link\":0,\"local\":0,\"other\":0,\"short\":0,\"side\":0},\
    \"unmatched\":3}\n",
};

// No events where a window is declared.
const NONE_ALONE: Case = Case {
    frames: [&[], &[]],
    logs: [b"", b"", b""],
    turns: &[],
    consistent: true,
    line: "{\"alone\":0,\"ambiguous\":[],\"consistent\":true,\"events\":0,\"messages\":0,\
    \"nokey\":{\"fragment\":0,\"header\":0,\"length\":0,\"link\":0,\"local\":0,\"other\":0,\"short\":0,\"side\":0},\
    \"unmatched\":0}\n",
};

const WINDOW_CASES: [Case; 5] = [NONE_ALONE, GROUPS, APART, TOO_FAR, NEAR];

const CASES: [Case; 8] = [
    NOTHING,
    SECOND_SEND,
    ALONE,
    ORDER,
    IN_TURN,
    OVER_AND_BACK,
    FOUR_KEYS,
    PACKETS,
];

fn packets_of(alloc: Global, frames: &[Frame]) -> Option<Vec<Packet>> {
    let mut packets = Vec::new(alloc);
    for (link, frame) in frames {
        let stamp = Nano::new(100)?;
        let bytes = Vec::from_slice(alloc, frame).ok()?;
        let link = *link;
        let original_length = 60;
        let packet = Packet {
            stamp,
            link,
            interface: None,
            original_length,
            bytes,
        };
        packets.push(packet).ok()?;
    }
    Some(packets)
}

// The events of frames that were captured under the label at a place.
fn captured(alloc: Global, decl: &Decl, place: usize, frames: &[Frame]) -> Option<Vec<Event>>
    requires { IsDeclaration (declaration_of decl.now) }
{
    let label = decl.labels.get(place)?;
    let packets = packets_of(alloc, frames)?;
    packet_events(alloc, decl, label, &packets).ok()
}

// The events of each label, from the last to the first.
fn events_backward(alloc: Global, decl: &Decl, case: &Case) -> Option<Vec<Vec<Event>>>
    requires { IsDeclaration (declaration_of decl.now) }
{
    let at_a = captured(alloc, decl, 0, case.frames[0])?;
    let at_b = captured(alloc, decl, 1, case.frames[1])?;
    let of_a = events_of_log(alloc, decl, 2, case.logs[0])?;
    let of_b = events_of_log(alloc, decl, 3, case.logs[1])?;
    let of_c = events_of_log(alloc, decl, 4, case.logs[2])?;
    let mut labels = Vec::from_array(alloc, [at_a, at_b, of_a, of_b, of_c]).ok()?;
    for events in &mut labels {
        events.reverse();
    }
    Some(labels)
}

// The next events of those that are left.
fn next_events(alloc: Global, left: &mut Vec<Event>, count: u32) -> Result<Vec<Event>, AllocError> {
    let mut next = Vec::new(alloc);
    for _ in 0..count {
        match left.pop() {
            Some(event) => next.push(event)?,
            None => return Err(AllocError),
        }
    }
    Ok(next)
}

// Events added turn by turn: to which label, and how many of those that are left for it.
fn added_in_turn(
    alloc: Global,
    decl: Decl,
    left: &mut [Vec<Event>],
    turns: &[(u32, u32)],
) -> Result<Additions, AllocError>
    requires { IsDeclaration (declaration_of decl) }
    ensures { IfOk result (λ kept. AreAllAdded kept.roster kept.matcher (seen_in kept.labels.items)) }
{
    let mut kept = Additions::new(alloc, decl)?;
    for (label, count) in turns {
        if *label as usize >= left.len() {
            return Err(AllocError);
        }
        let events = next_events(alloc, &mut left[*label as usize], *count)?;
        let _change = kept.add(*label, events)?;
    }
    Ok(kept)
}

// The line of the report on what came.
fn report_on(alloc: Global, kept: &Additions, consistent: bool) -> Option<Vec<u8>>
    requires { AreAllAdded kept.now.roster kept.now.matcher (seen_in kept.now.labels.items) }
{
    let decl = kept.roster.decl();
    if kept.labels.len() != decl.labels.len() || event_count(&kept.labels) > MOST_EVENTS as u64 {
        return None;
    }
    let view = view_of(
        alloc,
        decl,
        &kept.labels,
        &kept.roster,
        &kept.matcher,
        consistent,
    )
    .ok()?;
    report_line(alloc, &view).ok()
}

fn line_of(alloc: Global, declaration: &[u8], case: &Case) -> Option<Vec<u8>> {
    let decl = declared(alloc, declaration)?;
    let mut left = events_backward(alloc, &decl, case)?;
    let kept = added_in_turn(alloc, decl, &mut left, case.turns).ok()?;
    report_on(alloc, &kept, case.consistent)
}

fn has_line(alloc: Global, declaration: &[u8], case: &Case) -> bool {
    match line_of(alloc, declaration, case) {
        Some(line) => line.as_slice() == case.line.as_bytes(),
        None => false,
    }
}

#[test]
fn reports(rt: HostRuntime) {
    for case in &CASES {
        assert!(rt; has_line(rt.alloc(), DECLARATION, case), "{}", case.line);
    }
    for case in &WINDOW_CASES {
        assert!(rt;
            has_line(rt.alloc(), WINDOW_DECLARATION, case),
            "{}",
            case.line
        );
    }
}

// Packets by protocol, addresses and payload, and their texts.
const TOLD: [(u8, u32, u32, &[u8], &str); 4] = [
    (
        17,
        0,
        0xffff_ffff,
        b"",
        "udp 0.0.0.0:0 255.255.255.255:65535 id 65535 length 40 payload -",
    ),
    (
        17,
        0x0114_ff00,
        0xff00_0a63,
        b"\x00\xff\x9a",
        "udp 1.20.255.0:0 255.0.10.99:65535 id 65535 length 40 payload 00ff9a",
    ),
    (
        6,
        0xffff_ffff,
        0x7f00_0001,
        b"",
        "tcp 255.255.255.255:0 127.0.0.1:65535 id 65535 seq 4294967295 ack 0 flags 255 length 40 payload -",
    ),
    (
        6,
        0x0a00_0001,
        0x0a00_0002,
        b"GET \x0f\xf0",
        "tcp 10.0.0.1:0 10.0.0.2:65535 id 65535 seq 4294967295 ack 0 flags 255 length 40 payload 474554200ff0",
    ),
];

// The same of IPv6: the first bits of an address in its first digits, and zeros where they are.
const WIDE_TOLD: [(u8, u128, u128, &[u8], &str); 2] = [
    (
        17,
        0xfd00_0000_0000_0000_0000_0000_0000_0001,
        0,
        b"",
        "udp [fd00:0000:0000:0000:0000:0000:0000:0001]:0 [0000:0000:0000:0000:0000:0000:0000:0000]:65535 length 40 payload -",
    ),
    (
        6,
        0x0123_4567_89ab_cdef_1032_5476_98ba_dcfe,
        0xffff_ffff_ffff_ffff_ffff_ffff_ffff_ffff,
        b"\x00\xff",
        "tcp [0123:4567:89ab:cdef:1032:5476:98ba:dcfe]:0 [ffff:ffff:ffff:ffff:ffff:ffff:ffff:ffff]:65535 \
        seq 4294967295 ack 0 flags 255 length 40 payload 00ff",
    ),
];

// Options of a segment, and the text of its key.
const TIMESTAMPS: &[u8] = b"\x08\x0a\x0d\x6d\x4d\x09\xc9\x04\x00\x11";

const TIMESTAMPS_TOLD: &str =
    "tcp 10.0.0.1:0 10.0.0.2:65535 id 1 seq 4294967295 ack 0 flags 255 length 40 payload - options 080a0d6d4d09c9040011";

// The key of a message with this content.
fn message_with(content: Content) -> MessageKey {
    MessageKey {
        segment: 0,
        content,
    }
}

// A key with these headers: of TCP with these options where the protocol is 6, and else of UDP.
fn packet_key(protocol: u8, network: Network, bytes: &[u8], told: &[u8]) -> MessageKey {
    let mut payload = ArrayVec::new();
    let _fits = payload.try_extend_from_slice(bytes);
    let mut options = ArrayVec::new();
    let _fits = options.try_extend_from_slice(told);
    let transport = if protocol == 6 {
        Transport::Tcp(Segment {
            source_port: 0,
            target_port: 65535,
            sequence: 0xffff_ffff,
            acknowledged: 0,
            flags: 255,
            length: 40,
            payload,
            options,
        })
    } else {
        Transport::Udp(UserDatagram {
            source_port: 0,
            target_port: 65535,
            length: 40,
            payload,
        })
    };
    message_with(Content::Packet(PacketKey { network, transport }))
}

fn has_text(alloc: Global, key: &MessageKey, wanted: &str) -> bool {
    match key_text(alloc, key) {
        Ok(text) => text.as_slice() == wanted.as_bytes(),
        Err(_) => false,
    }
}

fn is_word_told(alloc: Global, word: &str, wanted: &str) -> bool {
    match WordKey::new(word.as_bytes()) {
        Some(word) => has_text(alloc, &message_with(Content::Word(word)), wanted),
        None => false,
    }
}

#[test]
fn keys(rt: HostRuntime) {
    for (protocol, source, target, payload, wanted) in &TOLD {
        let network = Network::V4 {
            source: *source,
            target: *target,
            id: 65535,
        };
        let key = packet_key(*protocol, network, payload, b"");
        assert!(rt; has_text(rt.alloc(), &key, wanted), "{wanted}");
    }
    for (protocol, source, target, payload, wanted) in &WIDE_TOLD {
        let network = Network::V6 {
            source: *source,
            target: *target,
        };
        let key = packet_key(*protocol, network, payload, b"");
        assert!(rt; has_text(rt.alloc(), &key, wanted), "{wanted}");
    }
    let network = Network::V4 {
        source: 0x0a00_0001,
        target: 0x0a00_0002,
        id: 1,
    };
    let key = packet_key(6, network, b"", TIMESTAMPS);
    assert!(rt; has_text(rt.alloc(), &key, TIMESTAMPS_TOLD));
    assert!(rt; is_word_told(rt.alloc(), "m1", "log m1"));
    assert!(rt; is_word_told(rt.alloc(), "!udp\"\\~", "log !udp\"\\~"));
}
