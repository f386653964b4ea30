// Packets in the order of their times.
ghost use Rattle.std.specs.Prelude.{◌≡◌, ◌≢◌, ◌≤ℤ◌, ◌<ℤ◌, ◌↔◌, pos, All, IsTrue, MatchBool, IfOk, IfErr, OnOk};
ghost use Rattle.report.specs.Merging.{AreApart};
ghost use Rattle.mergecap.specs.MergedCapture.{AreWritable, HasOneLink, HasTwoLinks, IsArranged, IsFault, header_nanos, merge_keys, time_limit, whole_nanos};
ghost use Rattle.mergecap.specs.Packets.{timed, all_timed};

use crate::heads::{is_header_time, link_of};
use crate::{ArrangeError, Stored};
use report::MergeKey;
use std::alloc::{AllocError, Global};

// From this time on, 2^32 s in units of 1e-9 ns, 32 bits do not hold the seconds.
const TIME_LIMIT: i128 = (1 << 32) * 1_000_000_000_000_000_000;

// Whether all packets have this link type.
fn all_have_link(kept: &[Stored], link: u16) -> bool
    ensures { IsTrue result ↔ All (λ (s : Stored). s.packet.link ≡ link) kept.now }
{
    kept.iter().all(|stored| stored.packet.link == link)
}

// Whether any two packets have the same link type.
fn have_one_link(kept: &[Stored]) -> bool
    ensures { MatchBool result (HasOneLink (all_timed kept.now)) (HasTwoLinks (all_timed kept.now)) }
{
    all_have_link(kept, link_of(kept))
}

// Whether a time that is not below 0 has a record: it is below 2^32 s, and a record at it does not begin as a header does.
fn has_record(value: i128) -> bool
    ensures { IsTrue result ↔ (value <ℤ time_limit) × (whole_nanos value ≢ header_nanos) }
{
    value < TIME_LIMIT && !is_header_time(value)
}

// Whether each time has a record.
fn are_in_range(kept: &[Stored]) -> bool
    ensures { IsTrue result ↔ All (λ (s : Stored). (s.value <ℤ time_limit) × (whole_nanos s.value ≢ header_nanos)) kept.now }
{
    kept.iter().all(|stored| has_record(stored.value))
}

// What a packet is merged by.
fn merge_key(stored: &Stored) -> MergeKey
    ensures { result ≡ (timed stored.now).key }
{
    MergeKey {
        value: stored.value,
        place: stored.place,
        n: stored.n,
    }
}

/// Sorts packets by what they are merged by: by their times, then by the places of their labels, then by their numbers there.
///
/// No two have the same place and the same number. An error comes only where memory runs out; then nothing is promised of
/// their order.
pub fn sort(alloc: Global, kept: &mut [Stored]) -> Result<(), AllocError>
    requires { AreApart (merge_keys (all_timed kept.old)) }
    ensures { OnOk result (IsArranged (all_timed kept.old) (all_timed kept.new)) }
{
    kept.sort_by_key(alloc, |stored| merge_key(stored))
}

/// The same packets in the order of their times, then of the places of their labels, then of their numbers there, as
/// events are merged. No packet is copied.
///
/// No two have the same place and the same number, and no time is below 0. `Links` comes exactly where two packets have
/// different link types, `Range` exactly where none have, and a time has no record: 2^32 s or more, or, in whole ns, the
/// 2,712,812,621 s and 262,146 ns at which a record would begin as a file header does. `Memory` comes only where neither is
/// so. With an error the packets are dropped.
pub fn arrange(alloc: Global, kept: Vec<Stored>) -> Result<Vec<Stored>, ArrangeError>
    requires differ { AreApart (merge_keys (all_timed kept.items)) }
    requires times { All (λ (s : Stored). pos 0 ≤ℤ s.value) kept.items }
    ensures arranged { IfOk result (λ all. IsArranged (all_timed kept.items) (all_timed all.items)) }
    ensures writable { IfOk result (λ all. AreWritable (all_timed all.items)) }
    ensures fault { IfErr result (λ e. IsFault (all_timed kept.items) e) }
{
    if !have_one_link(&kept) {
        return Err(ArrangeError::Links);
    }
    if !are_in_range(&kept) {
        return Err(ArrangeError::Range);
    }
    let mut kept = kept;
    sort(alloc, &mut kept)?;
    Ok(kept)
}
