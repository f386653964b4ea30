// Where packets were captured.
ghost use Rattle.std.specs.Prelude.{◌≡◌, ◌<◌, List, map, AllPairs, Contains, IfOk};
ghost use Rattle.mergecap.specs.Packets.{timed, all_timed};
ghost use Rattle.merged_blocks.specs.Taps.{AreTapsOf, StandsBefore, number_of, tap_of};

use mergecap::Stored;
use std::alloc::{AllocError, Global};

/// A label, and a link type that packets have there.
#[derive(Clone, Copy, Debug, PartialEq, Eq, PartialOrd, Ord)]
pub struct Tap {
    /// The place of the label, from 0 on.
    pub place: u32,
    /// The link type.
    pub link: u16,
}

// The link type of a packet, which has 16 bits.
fn link_type(stored: &Stored) -> u16
    ensures is { result ≡ (timed stored.now).packet.link }
    ensures small { result < 65536 }
{
    stored.packet.link
}

/// The tap of a packet.
pub(crate) fn tap_of(stored: &Stored) -> Tap
    ensures is { result ≡ tap_of (timed stored.now) }
    ensures link { result.link < 65536 }
{
    Tap {
        place: stored.place,
        link: link_type(stored),
    }
}

// The tap of each packet, in their order.
fn each_tap(alloc: Global, kept: &[Stored]) -> Result<Vec<Tap>, AllocError>
    ensures { IfOk result (λ taps. taps.items ≡ map (λ (s : Stored). tap_of (timed s)) kept.now) }
{
    let mut taps = Vec::new(alloc);
    taps.reserve(kept.len())?;
    for stored in kept {
        taps.push(tap_of(stored))?;
    }
    Ok(taps)
}

/// The taps of packets, each once, by label and then by link type; an error where memory runs out.
pub(crate) fn taps_of(alloc: Global, kept: &[Stored]) -> Result<Vec<Tap>, AllocError>
    ensures { IfOk result (λ taps. AreTapsOf (all_timed kept.now) taps.items) }
{
    let mut taps = each_tap(alloc, kept)?;
    taps.sort_unstable();
    taps.dedup();
    Ok(taps)
}

/// The number of a tap among these, from 0 on.
pub(crate) fn number_of(taps: &[Tap], tap: Tap) -> usize
    requires sorted { AllPairs StandsBefore taps.now }
    requires there { Contains taps.now tap }
    ensures { result ≡ number_of taps.now tap }
{
    match taps.binary_search(&tap) {
        Ok(place) => place,
        Err(_) => unreachable!(),
    }
}
