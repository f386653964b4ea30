// How many bytes packets have.
ghost use Rattle.std.specs.Prelude.{◌≡◌, ◌≤◌, ◌<◌, ◌+◌, length, IfSome, IfNone};
ghost use Rattle.mergecap.specs.Packets.{all_timed};
ghost use Rattle.merge_script.specs.Gathered.{bytes_in, most_bytes};

use mergecap::Stored;

// The most bytes that all packets have, so that they are held in memory.
const MOST_BYTES: u64 = 1 << 30;

// So many bytes and those of a packet; None where that is too many.
fn with_one(total: u64, stored: &Stored) -> Option<u64>
    requires { total ≤ most_bytes }
    ensures some { IfSome result (λ all. (all ≡ total + length stored.now.packet.bytes.items) × (all ≤ most_bytes)) }
    ensures none { IfNone result (most_bytes < total + length stored.now.packet.bytes.items) }
{
    let bytes = stored.packet.bytes.len() as u64;
    if bytes > MOST_BYTES - total {
        return None;
    }
    Some(total + bytes)
}

/// So many bytes and those of packets; None where that is too many.
pub(crate) fn with_all(total: u64, packets: &[Stored]) -> Option<u64>
    requires { total ≤ most_bytes }
    ensures some { IfSome result (λ all. (all ≡ total + bytes_in (all_timed packets.now)) × (all ≤ most_bytes)) }
    ensures none { IfNone result (most_bytes < total + bytes_in (all_timed packets.now)) }
{
    let mut all = total;
    for stored in packets {
        match with_one(all, stored) {
            Some(more) => all = more,
            None => return None,
        }
    }
    Some(all)
}
