// How events come.
ghost use Rattle.std.specs.Prelude.{◌≡◌, ◌<◌, ◌≤◌, ◌+◌, ◌++◌, ◌^◌, length, slice_set, IfOk, OnOk, OnErr};
ghost use Rattle.std.specs.Vec.{vec_len, vec_capacity};
ghost use Rattle.std.specs.List.{range_with_len};
ghost use Rattle.roster.specs.Groups.{total, sizes_of, group_at, with_tail};
ghost use Rattle.roster.specs.Readings.{stamps_of};
ghost use Rattle.roster.specs.Roster.{came_from};

use crate::came::Came;
use crate::groups::Groups;
use crate::readings::Change;
use atto::Nano;
use std::alloc::{AllocError, Global};
use traces::Event;

/// So many numbers from the first one on.
pub(crate) fn numbers_from(alloc: Global, first: u32, count: usize) -> Result<Vec<u32>, AllocError>
    requires { first + count < 2 ^ 32 }
    ensures { IfOk result (λ numbers. numbers.items ≡ range_with_len first count) }
{
    let mut numbers = Vec::new(alloc);
    for k in 0..count {
        numbers.push(first + k as u32)?;
    }
    Ok(numbers)
}

/// Appends events of a label, which are numbered there from `first` on. There is room for them.
pub(crate) fn append_came(came: &mut Vec<Came>, label: u32, first: u32, events: &[Event])
    requires room { vec_len came.old + length events.now ≤ vec_capacity came.old }
    requires few { first + length events.now < 2 ^ 32 }
    ensures { came.new.items ≡ came.old.items ++ came_from label first (stamps_of events.now) }
{
    for (k, event) in events.iter().enumerate() {
        came.push_reserved(Came {
            stamp: event.stamp,
            label,
            number: first + k as u32,
            node: 0,
            partner: None,
        });
    }
}

/// Puts numbers behind those of a label, and changes the readings of a clock. Where memory runs out all stays.
pub(crate) fn put_both(
    under: &mut Groups<u32>,
    readings: &mut Groups<(Nano, u32)>,
    label: u32,
    numbers: &[u32],
    clock: u32,
    change: &Change,
) -> Result<(), AllocError>
    requires label { label < length under.old }
    requires clock { clock < length readings.old }
    requires few_under { total (sizes_of under.old) + length numbers.now < 2 ^ 32 }
    requires few_readings { total (sizes_of readings.old) + length change.now.tail.items < 2 ^ 32 }
    ensures under_ok { OnOk result (under.new ≡ slice_set under.old label (group_at under.old label ++ numbers.now)) }
    ensures readings_ok { OnOk result (readings.new ≡ with_tail readings.old clock change.now.from change.now.tail.items) }
    ensures under_err { OnErr result (under.new ≡ under.old) }
    ensures readings_err { OnErr result (readings.new ≡ readings.old) }
{
    let before = under.group(label).len();
    under.put_tail(label, before, numbers)?;
    match readings.put_tail(clock, change.from, &change.tail) {
        Ok(()) => Ok(()),
        Err(error) => {
            under.cut(label, before);
            Err(error)
        }
    }
}
