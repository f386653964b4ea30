// Which end of a message a packet is by what its label says: the addresses on either side, and the interface whose packets
// have keys.
use crate::events::{BACK, OVER, WIDE_OVER};
use crate::fixtures::{declared_by, label_text, packet_of};
use std::alloc::Global;
use std::test::*;
use traces::{Event, Mark, NoKey, Side, packet_events};

// What the label of a capture at the host a says, a packet, and which end of a message it is; None where it has no side.
const SIDES: [(&str, &[u8], Option<Side>); 37] = [
    // Near and unsaid, by the host's addresses.
    ("", &OVER, Some(Side::Send)),
    ("", &BACK, Some(Side::Receive)),
    ("addresses = []\nbeyond = []", &OVER, Some(Side::Send)),
    // By those of the label in their place.
    ("addresses = ['10.0.0.1']", &OVER, Some(Side::Send)),
    ("addresses = ['10.0.0.2']", &OVER, Some(Side::Receive)),
    ("addresses = ['10.0.0.2']", &BACK, Some(Side::Send)),
    // Unsaid and beyond.
    (
        "addresses = ['10.0.0.3']\nbeyond = ['10.0.0.2']",
        &OVER,
        Some(Side::Send),
    ),
    (
        "addresses = ['10.0.0.3']\nbeyond = ['10.0.0.2']",
        &BACK,
        Some(Side::Receive),
    ),
    // The host's own addresses are near, but for those that are told to be beyond.
    ("beyond = ['10.0.0.2']", &OVER, Some(Side::Send)),
    ("beyond = ['10.0.0.2']", &BACK, Some(Side::Receive)),
    ("beyond = ['10.0.0.1']", &OVER, Some(Side::Receive)),
    ("beyond = ['10.0.0.1/32']", &BACK, Some(Side::Send)),
    // Near and beyond.
    (
        "addresses = ['10.0.0.1']\nbeyond = ['10.0.0.2']",
        &OVER,
        Some(Side::Send),
    ),
    (
        "addresses = ['10.0.0.1']\nbeyond = ['10.0.0.2']",
        &BACK,
        Some(Side::Receive),
    ),
    (
        "addresses = ['10.0.0.2']\nbeyond = ['10.0.0.1']",
        &OVER,
        Some(Side::Receive),
    ),
    // Both on one side.
    ("addresses = ['10.0.0.0/24']", &OVER, None),
    ("addresses = ['10.0.0.1', '10.0.0.2']", &BACK, None),
    (
        "addresses = ['10.0.0.3']\nbeyond = ['10.0.0.0/24']",
        &OVER,
        None,
    ),
    ("beyond = ['10.0.0.2', '10.0.0.1']", &BACK, None),
    ("addresses = ['192.168.1.0/24']", &BACK, None),
    // The narrowest subnet decides, and the host's own addresses are one each.
    ("beyond = ['10.0.0.0/24']", &OVER, Some(Side::Send)),
    ("beyond = ['0.0.0.0/0']", &BACK, Some(Side::Receive)),
    ("beyond = ['192.168.1.0/24']", &OVER, Some(Side::Send)),
    (
        "addresses = ['10.0.0.0/30']\nbeyond = ['10.0.0.2/31']",
        &OVER,
        Some(Side::Send),
    ),
    (
        "addresses = ['10.0.0.2']\nbeyond = ['10.0.0.0/24']",
        &OVER,
        Some(Side::Receive),
    ),
    (
        "addresses = ['10.0.0.0/8']\nbeyond = ['10.0.0.0/24']",
        &OVER,
        None,
    ),
    (
        "addresses = ['10.0.0.2']\nbeyond = ['0.0.0.0/0']",
        &BACK,
        Some(Side::Send),
    ),
    // What is said of one version says nothing of the other.
    ("", &WIDE_OVER, Some(Side::Send)),
    (
        "beyond = ['10.0.0.1']\naddresses = ['10.0.0.2']",
        &WIDE_OVER,
        Some(Side::Send),
    ),
    ("beyond6 = ['fd00:0:0:0:0:0:0:1']", &OVER, Some(Side::Send)),
    (
        "beyond6 = ['fd00:0:0:0:0:0:0:1']",
        &WIDE_OVER,
        Some(Side::Receive),
    ),
    (
        "beyond6 = ['fd00:0:0:0:0:0:0:2/127']",
        &WIDE_OVER,
        Some(Side::Send),
    ),
    (
        "addresses6 = ['fd00:0:0:0:0:0:0:2']\nbeyond6 = ['0:0:0:0:0:0:0:0/0']",
        &WIDE_OVER,
        Some(Side::Receive),
    ),
    ("addresses6 = ['fd00:0:0:0:0:0:0:0/126']", &WIDE_OVER, None),
    (
        "beyond6 = ['fd00:0:0:0:0:0:0:0/8']",
        &WIDE_OVER,
        Some(Side::Send),
    ),
    (
        "addresses6 = ['fd00:0:0:0:0:0:0:3']\nbeyond6 = ['fd00:0:0:0:0:0:0:0/8']",
        &WIDE_OVER,
        None,
    ),
    ("addresses6 = ['fe80:0:0:0:0:0:0:0/10']", &WIDE_OVER, None),
];

// The packet over behind a second cooked header, which has the index 3 of an interface.
const COOKED: [u8; 48] = [
    8, 0, 0, 0, 0, 0, 0, 3, 0, 1, 0, 6, 2, 0, 0, 0, 0, 1, 0, 0, //
    0x45, 0, 0, 28, 0, 7, 0, 0, 0x40, 17, 0, 0, 10, 0, 0, 1, 10, 0, 0, 2, 0x13, 0x88, 0x17, 0x70,
    0, 8, 0, 0,
];

// The first eight bytes of one with the greatest index.
const CUT: [u8; 8] = [8, 0, 0, 0, 255, 255, 255, 255];

// What such a label says, a packet by its link type, the interface that its capture tells and its frame, and which end of
// a message it is, or why of none.
type Seen = (
    &'static str,
    u16,
    Option<u32>,
    &'static [u8],
    Result<Side, NoKey>,
);

const INTERFACES: [Seen; 20] = [
    // Those of all have keys.
    ("", 101, Some(4), &OVER, Ok(Side::Send)),
    ("", 276, Some(4), &COOKED, Ok(Side::Send)),
    // What the capture tells.
    ("interface = 3", 101, Some(3), &OVER, Ok(Side::Send)),
    ("interface = 3", 101, Some(4), &OVER, Err(NoKey::Interface)),
    ("interface = 3", 101, None, &OVER, Err(NoKey::Interface)),
    ("interface = 0", 101, Some(0), &BACK, Ok(Side::Receive)),
    ("interface = 0", 101, None, &BACK, Err(NoKey::Interface)),
    ("interface = 0", 101, Some(1), &BACK, Err(NoKey::Interface)),
    (
        "interface = 4294967295",
        101,
        Some(4_294_967_295),
        &WIDE_OVER,
        Ok(Side::Send),
    ),
    // The index in a second cooked header, whatever the capture tells.
    ("interface = 3", 276, None, &COOKED, Ok(Side::Send)),
    ("interface = 3", 276, Some(4), &COOKED, Ok(Side::Send)),
    (
        "interface = 4",
        276,
        Some(4),
        &COOKED,
        Err(NoKey::Interface),
    ),
    (
        "interface = 50331648",
        276,
        None,
        &COOKED,
        Err(NoKey::Interface),
    ),
    ("interface = 4294967295", 276, None, &CUT, Err(NoKey::Short)),
    // A first cooked header has none.
    ("interface = 3", 113, None, &COOKED, Err(NoKey::Interface)),
    // This is asked before any other reason.
    (
        "interface = 1",
        276,
        Some(1),
        &[8, 0, 0, 0, 0, 0, 0],
        Err(NoKey::Interface),
    ),
    ("interface = 1", 101, Some(2), &[], Err(NoKey::Interface)),
    ("interface = 1", 105, Some(2), &OVER, Err(NoKey::Interface)),
    ("interface = 1", 105, Some(1), &OVER, Err(NoKey::Link)),
    (
        "interface = 1\nbeyond = ['10.0.0.0/24']",
        101,
        Some(2),
        &OVER,
        Err(NoKey::Interface),
    ),
];

// The event of a packet under the first label of a declaration.
fn event_of(
    alloc: Global,
    label: &str,
    link: u16,
    told: Option<u32>,
    frame: &[u8],
) -> Option<Event> {
    let mut text = label_text(alloc, "kind = 'capture'\n").ok()?;
    text.extend_from_slice(label.as_bytes()).ok()?;
    let decl = declared_by(alloc, &text)?;
    let label = decl.labels.first()?;
    let packet = packet_of(alloc, link, told, frame)?;
    let packets = Vec::from_array(alloc, [packet]).ok()?;
    let mut events = packet_events(alloc, &decl, label, &packets).ok()?;
    events.pop()
}

fn has_mark(mark: &Mark, wanted: Result<Side, NoKey>) -> bool {
    match (mark, wanted) {
        (Mark::Keyed { side, .. }, Ok(wanted)) => *side == wanted,
        (Mark::Unkeyed(reason), Err(wanted)) => *reason == wanted,
        _ => false,
    }
}

fn is_marked(
    alloc: Global,
    label: &str,
    link: u16,
    told: Option<u32>,
    frame: &[u8],
    wanted: Result<Side, NoKey>,
) -> bool {
    match event_of(alloc, label, link, told, frame) {
        Some(event) => has_mark(&event.mark, wanted),
        None => false,
    }
}

#[test]
fn sides(rt: HostRuntime) {
    for (label, frame, side) in &SIDES {
        let wanted = side.ok_or(NoKey::Side);
        assert!(rt;
            is_marked(rt.alloc(), label, 101, None, frame, wanted),
            "{label}"
        );
    }
}

#[test]
fn interfaces(rt: HostRuntime) {
    for (k, (label, link, told, frame, wanted)) in INTERFACES.iter().enumerate() {
        assert!(rt;
            is_marked(rt.alloc(), label, *link, *told, frame, *wanted),
            "case {k}"
        );
    }
}
