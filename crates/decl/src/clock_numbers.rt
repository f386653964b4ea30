// The numbers of a clock: those of its own table, or else of its host's.
ghost use Rattle.std.specs.Prelude.{◌≡◌, ◌-◌, Some, None, if◌then◌else◌, codes};
ghost use Rattle.toml.specs.View.{table_view};
ghost use Rattle.decl.specs.Clocks.{own_or_host, own_number, has_wild_rate, has_wild_number, has_wild_offset, has_wild_owner, rate_of, clock_by_name, owner_by};
ghost use Rattle.decl.specs.Limits.{nano_limit};
ghost use Rattle.decl.specs.Values.{is_up_to};

use crate::Owner;
use crate::limits::{MOST_LONG, MOST_SHORT, NANO_LIMIT};
use crate::values::{nano_at, up_to, whole_at, whole_or_zero};
use atto::{Nano, Rate};
use problem_model::{Clock, Name};
use toml::Table;

// The whole number at a key of a clock's own table, or else of its host's, or else 0.
fn own_or_host(own: &Table, host: &Table, key: &str) -> i64
    ensures { result ≡ own_or_host key.now (table_view own.now) (table_view host.now) }
{
    match whole_at(own, key) {
        Some(z) => z,
        None => whole_or_zero(host, key),
    }
}

// The same without its sign, if it is 0 to a limit.
fn own_up_to(own: &Table, host: &Table, key: &str, limit: u64) -> Option<u64>
    ensures { result ≡ (if is_up_to limit (own_or_host key.now (table_view own.now) (table_view host.now)) then Some (own_number key.now (table_view own.now) (table_view host.now)) else None) }
{
    up_to(limit, own_or_host(own, host, key))
}

// The same for a number of ns, which is below 2^62.
fn own_nano(own: &Table, host: &Table, key: &str) -> Option<Nano>
    ensures { result ≡ (if is_up_to (nano_limit - 1) (own_or_host key.now (table_view own.now) (table_view host.now)) then Some (own_number key.now (table_view own.now) (table_view host.now)) else None) }
{
    match own_up_to(own, host, key, NANO_LIMIT - 1) {
        Some(n) => Nano::new(n),
        None => None,
    }
}

// How far a clock may be from real time, if both numbers are in their ranges.
fn read_rate(own: &Table, host: &Table) -> Option<Rate>
    ensures { result ≡ (if has_wild_rate (table_view own.now) (table_view host.now) then None else Some (rate_of (table_view own.now) (table_view host.now))) }
{
    let Some(short) = own_up_to(own, host, "short", MOST_SHORT) else {
        return None;
    };
    let Some(long) = own_up_to(own, host, "long", MOST_LONG) else {
        return None;
    };
    Rate::new(short as u32, long as u32)
}

// The clock of this name, if its numbers are in their ranges.
pub(crate) fn read_numbers(name: Name, own: &Table, host: &Table) -> Option<Clock>
    ensures { result ≡ (if has_wild_number (table_view own.now) (table_view host.now) then None else Some (clock_by_name name (table_view own.now) (table_view host.now))) }
{
    let Some(rate) = read_rate(own, host) else {
        return None;
    };
    let Some(early) = own_nano(own, host, "early") else {
        return None;
    };
    let Some(late) = own_nano(own, host, "late") else {
        return None;
    };
    Some(Clock {
        name,
        rate,
        early,
        late,
    })
}

// What a clock is ahead of true time, in ns, if that lies between -2^62 and 2^62.
fn read_offset(own: &Table, host: &Table) -> Option<i64>
    ensures { result ≡ (if has_wild_offset (table_view own.now) (table_view host.now) then None else Some (own_or_host (codes "offset") (table_view own.now) (table_view host.now))) }
{
    let offset = own_or_host(own, host, "offset");
    if offset.unsigned_abs() < NANO_LIMIT {
        Some(offset)
    } else {
        None
    }
}

// Whose a clock of the host at this place is, if its gap and its offset are in their ranges.
pub(crate) fn read_owner(place: u32, own: &Table, host: &Table) -> Option<Owner>
    ensures { result ≡ (if has_wild_owner (table_view own.now) (table_view host.now) then None else Some (owner_by place (table_view own.now) (table_view host.now))) }
{
    let Some(gap) = nano_at(own, "gap") else {
        return None;
    };
    let Some(offset) = read_offset(own, host) else {
        return None;
    };
    Some(Owner {
        host: place,
        gap,
        offset,
    })
}
