// Merged packets with their dates.
ghost use Rattle.std.specs.Prelude.{◌≡◌, ◌<◌, ◌^◌, ◌+ℤ◌, ◌-ℤ◌, ◌≤ℤ◌, ◌<ℤ◌, ◌⊎◌, pos, All, Any, MatchBool, IfSome, IfNone, IfOk, IfErr};
ghost use Rattle.report.specs.Merging.{AreApart};
ghost use Rattle.mergecap.specs.MergedCapture.{IsArranged, merge_keys, whole_nanos};
ghost use Rattle.mergecap.specs.Packets.{timed, all_timed, shift_of};
ghost use Rattle.merged_blocks.specs.MergedFile.{AreDated, FitsFields, HasNoStamp, HasStamp, IsDateFault, IsDated, date_limit, date_of};
ghost use Rattle.merged_blocks.specs.declared.dates.DateError.TheVariants.{Memory};

use crate::taps::{Tap, tap_of, taps_of};
use mergecap::{Start, Stored, sort};
use std::alloc::{AllocError, Global};

// 2^64 ns in units of 1e-9 ns.
const DATE_LIMIT: i128 = (1 << 64) * 1_000_000_000;

const UNITS_A_NANO: u128 = 1_000_000_000;

// How many interfaces of a section readers take.
const MOST_TAPS: usize = 65_536;

/// Packets in the order of their times, with what their dates begin from, and where they were captured.
#[derive(Debug, Drop)]
pub struct DatedPackets {
    /// The packets, by their times, then by the places of their labels, then by their numbers there.
    pub packets: Vec<Stored>,
    /// Their taps, each once, by label and then by link type.
    pub taps: Vec<Tap>,
    /// The time and the date of the first event.
    pub start: Start,
}

/// Why merged packets have no file.
#[derive(Clone, Copy, Debug, PartialEq, Eq, thiserror::Error)]
pub enum DateError {
    /// A date is below 0, or it is 2^64 ns or more; or the packets have more than 65,536 taps.
    #[error("a date or a number of interfaces that no file can have")]
    Range,
    /// Memory ran out.
    #[error("out of memory")]
    Memory,
}

impl From<AllocError> for DateError {
    ghost from_gives = { λ _ e. e ≡ Memory };

    fn from(_: AllocError) -> DateError {
        DateError::Memory
    }
}

// How much later a time is than that of the first event.
fn passed(value: i128, time: i128) -> i128
    requires value { pos 0 ≤ℤ value }
    requires time { pos 0 ≤ℤ time }
    ensures { result ≡ value -ℤ time }
{
    value - time
}

// The date at a time, both in units of 1e-9 ns; None only where it has more than 128 bits.
fn date_at(value: i128, start: Start) -> Option<i128>
    requires value { pos 0 ≤ℤ value }
    requires time { pos 0 ≤ℤ start.time }
    ensures some { IfSome result (λ date. date ≡ value +ℤ shift_of start) }
    ensures none { IfNone result (((value +ℤ shift_of start) <ℤ pos 0) ⊎ (date_limit ≤ℤ (value +ℤ shift_of start))) }
{
    start.date.checked_add(passed(value, start.time))
}

// The whole ns of a date that a stamp can say; None where none can.
fn whole_stamp(date: i128) -> Option<u64>
    ensures some { IfSome result (λ stamp. (pos 0 ≤ℤ date) × (date <ℤ date_limit) × (stamp ≡ whole_nanos date)) }
    ensures none { IfNone result ((date <ℤ pos 0) ⊎ (date_limit ≤ℤ date)) }
{
    if date < 0 || date >= DATE_LIMIT {
        return None;
    }
    Some((date.unsigned_abs() / UNITS_A_NANO) as u64)
}

/// The stamp of a packet, its date in whole ns, rounded down; None where no stamp can say it.
pub(crate) fn stamp_of(stored: &Stored, start: Start) -> Option<u64>
    requires value { pos 0 ≤ℤ stored.now.value }
    requires time { pos 0 ≤ℤ start.time }
    ensures some { IfSome result (λ stamp. HasStamp (shift_of start) (timed stored.now) × (stamp ≡ whole_nanos (date_of (shift_of start) (timed stored.now)))) }
    ensures none { IfNone result (HasNoStamp (shift_of start) (timed stored.now)) }
{
    whole_stamp(date_at(stored.value, start)?)
}

// How long a packet was.
fn original_length(stored: &Stored) -> u32
    ensures is { result ≡ (timed stored.now).packet.original_length }
    ensures small { result < 2 ^ 32 }
{
    stored.packet.original_length
}

// The number of a packet under its label.
fn number(stored: &Stored) -> u32
    ensures is { result ≡ (timed stored.now).key.n }
    ensures small { result < 2 ^ 32 }
{
    stored.n
}

// The stamp of a packet in ns of its own clock.
fn own_stamp(stored: &Stored) -> u64
    ensures is { result ≡ (timed stored.now).packet.stamp }
    ensures small { result < 2 ^ 62 }
{
    stored.packet.stamp.get()
}

// Whether a stamp can say the date of a packet.
fn has_stamp(stored: &Stored, start: Start) -> bool
    requires value { pos 0 ≤ℤ stored.now.value }
    requires time { pos 0 ≤ℤ start.time }
    ensures stamp { MatchBool result (HasStamp (shift_of start) (timed stored.now)) (HasNoStamp (shift_of start) (timed stored.now)) }
    ensures fields { FitsFields (timed stored.now) }
{
    // They tell how many bits the fields of a packet have.
    let _ = tap_of(stored);
    let _ = original_length(stored);
    let _ = number(stored);
    let _ = own_stamp(stored);
    stamp_of(stored, start).is_some()
}

// Whether stamps can say the dates of all packets.
fn have_stamps(kept: &[Stored], start: Start) -> bool
    requires values { All (λ (s : Stored). pos 0 ≤ℤ s.value) kept.now }
    requires time { pos 0 ≤ℤ start.time }
    ensures { MatchBool result (All (IsDated (shift_of start)) (all_timed kept.now)) (Any (HasNoStamp (shift_of start)) (all_timed kept.now)) }
{
    for stored in kept {
        if !has_stamp(stored, start) {
            return false;
        }
    }
    true
}

/// The packets in the order of their times, then of the places of their labels, then of their numbers there, with their
/// taps; their dates are the times and so much more as that of the first event is. No packet is copied.
///
/// No two have the same place and the same number, and no time is below 0, that of the first event too. `Range` comes
/// exactly where a date is below 0, or 2^64 ns or more, or where the packets have more than 65,536 taps, if memory
/// suffices to tell that; `Memory` comes where memory runs out. With an error the packets are dropped.
pub fn date(alloc: Global, kept: Vec<Stored>, start: Start) -> Result<DatedPackets, DateError>
    requires differ { AreApart (merge_keys (all_timed kept.items)) }
    requires values { All (λ (s : Stored). pos 0 ≤ℤ s.value) kept.items }
    requires time { pos 0 ≤ℤ start.time }
    ensures arranged { IfOk result (λ dated. IsArranged (all_timed kept.items) (all_timed dated.packets.items)) }
    ensures start { IfOk result (λ dated. dated.start ≡ start) }
    ensures dated { IfOk result (λ dated. AreDated (all_timed dated.packets.items) dated.taps.items (shift_of start)) }
    ensures fault { IfErr result (IsDateFault (all_timed kept.items) (shift_of start)) }
{
    if !have_stamps(&kept, start) {
        return Err(DateError::Range);
    }
    let taps = taps_of(alloc, &kept)?;
    if taps.len() > MOST_TAPS {
        return Err(DateError::Range);
    }
    let mut packets = kept;
    sort(alloc, &mut packets)?;
    Ok(DatedPackets {
        packets,
        taps,
        start,
    })
}
