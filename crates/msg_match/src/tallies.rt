// What all groups count as, and the ambiguous ones among them.
ghost use Rattle.std.specs.Prelude.{◌≡◌, ◌≤◌, length, filter, slice_get};
ghost use Rattle.problem_model.specs.Limits.{most_items};
ghost use Rattle.msg_match.specs.Groups.{is_ambiguous};
ghost use Rattle.msg_match.specs.Held.{seen_groups, seen_found};
ghost use Rattle.msg_match.specs.Parts.{sum_of_groups, total_of};

use crate::{Group, Tallies};

// What all groups count as.
pub(crate) fn sum(groups: &[Group]) -> Tallies
    requires { total_of (seen_groups groups.now) ≤ most_items }
    ensures { result ≡ sum_of_groups (seen_groups groups.now) }
{
    let mut sum = Tallies::none();
    for group in groups {
        sum = sum.plus(group.tallies());
    }
    sum
}

// How many groups are ambiguous.
pub(crate) fn ambiguous_count(groups: &[Group]) -> u32
    requires { length groups.now ≤ most_items }
    ensures { result ≡ length (filter is_ambiguous (seen_groups groups.now)) }
{
    let mut count: u32 = 0;
    for group in groups {
        if group.is_ambiguous() {
            count += 1;
        }
    }
    count
}

// The ambiguous group with so many others before it.
pub(crate) fn ambiguous_group(groups: &[Group], k: u32) -> Option<&Group>
    ensures { seen_found result ≡ slice_get (filter is_ambiguous (seen_groups groups.now)) k }
{
    let mut before = k;
    for group in groups {
        if group.is_ambiguous() {
            if before == 0 {
                return Some(group);
            }
            before -= 1;
        }
    }
    None
}
