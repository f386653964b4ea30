// Packets that are stored, merged and read again.
ghost use Rattle.std.specs.Prelude.{◌≤◌, ◌<◌, ◌≤ℤ◌, pos, length, IfSome, OnOk};
ghost use Rattle.capture_tests.specs.Ready.{AreReady};

use atto::Nano;
use captures::{CaptureStream, Packet};
use mergecap::{ArrangeError, Stored, arrange, write_capture};
use ports::{Failed, MemSink};
use std::alloc::{AllocError, Global};

// A packet of a label, with its time in seconds and units of 1e-9 ns.
pub(crate) struct Frame {
    pub(crate) place: u32,
    pub(crate) seconds: u32,
    pub(crate) units: u64,
    pub(crate) link: u16,
    pub(crate) bytes: &'static [u8],
}

// Units of 1e-9 ns in a second.
const UNITS_A_SECOND: i128 = 1_000_000_000_000_000_000;

fn value_of(frame: &Frame) -> i128
    ensures { pos 0 ≤ℤ result }
{
    i128::from(frame.seconds) * UNITS_A_SECOND + i128::from(frame.units)
}

// Stores the packet of a frame. Its number is how many are then stored.
fn store(alloc: Global, kept: &mut Vec<Stored>, frame: &Frame) -> Result<(), AllocError>
    requires ready { AreReady kept.old.items }
    requires few { length kept.old.items < 100 }
    requires short { length frame.now.bytes.now ≤ 100 }
    ensures { OnOk result (AreReady kept.new.items) }
{
    let bytes = Vec::from_slice(alloc, frame.bytes)?;
    let packet = Packet {
        stamp: Nano::new(100).unwrap(),
        link: frame.link,
        interface: None,
        original_length: 28,
        bytes,
    };
    let stored = Stored {
        place: frame.place,
        n: kept.len() as u32 + 1,
        value: value_of(frame),
        packet,
    };
    kept.push(stored)?;
    Ok(())
}

// The packets of frames, in their order: at most 100, each of at most 100 bytes.
fn stored(alloc: Global, frames: &[Frame]) -> Option<Vec<Stored>>
    ensures { IfSome result (λ kept. AreReady kept.items) }
{
    let mut kept = Vec::new(alloc);
    for frame in frames {
        if kept.len() >= 100 || frame.bytes.len() > 100 {
            return None;
        }
        store(alloc, &mut kept, frame).ok()?;
    }
    Some(kept)
}

// Arranges packets and writes them.
fn merge(
    alloc: Global,
    kept: Vec<Stored>,
    out: &mut MemSink,
) -> Result<Result<(), Failed>, ArrangeError>
    requires { AreReady kept.items }
{
    let arranged = arrange(alloc, kept)?;
    Ok(write_capture(&arranged, out))
}

// Whether frames are answered so over a sink where these writes fail, and written so far.
pub(crate) fn are_merged_so(
    alloc: Global,
    frames: &[Frame],
    fails: &[u32],
    answer: Result<Result<(), Failed>, ArrangeError>,
    written: &[u8],
) -> Option<bool> {
    let kept = stored(alloc, frames)?;
    let mut out = MemSink::new(alloc, 600, 7, fails).ok()?;
    let given = merge(alloc, kept, &mut out);
    Some(given == answer && out.bytes() == written)
}

// A packet as it is read: its stamp in ns, and its bytes.
pub(crate) struct Wanted {
    pub(crate) stamp: u64,
    pub(crate) bytes: &'static [u8],
}

// Whether these are the packets that are wanted, all of link type 101.
fn are_packets(packets: &[Packet], wanted: &[Wanted]) -> bool {
    packets.len() == wanted.len()
        && packets.iter().zip(wanted).all(|(packet, want)| {
            packet.stamp.get() == want.stamp
                && packet.link == 101
                && packet.bytes.as_slice() == want.bytes
        })
}

// Whether a capture is read as these packets, and nothing is left of it.
pub(crate) fn is_read_so(alloc: Global, capture: &[u8], wanted: &[Wanted]) -> Option<bool> {
    if capture.len() > 1 << 20 {
        return None;
    }
    let mut packets = Vec::new(alloc);
    let stream = CaptureStream::new(alloc).feed(capture, &mut packets).ok()?;
    Some(stream.pending() == 0 && are_packets(&packets, wanted))
}
