// The places of hosts.
ghost use Rattle.std.specs.Prelude.{◌≡◌, ◌≤◌, length, AllPairs};
ghost use Rattle.std.specs.Ordering.{nat_cmp};
ghost use Rattle.std.specs.Cmp.Lexicographic.{slice_cmp};
ghost use Rattle.decl.specs.Declaration.{Precedes};
ghost use Rattle.decl.specs.Limits.{most_entries};
ghost use Rattle.decl.specs.Places.{host_place};

use problem_model::Name;
use std::cmp::Ordering;

// How a host's name stands to a name, in byte order.
fn compare(host: &Name, name: &[u8]) -> Ordering
    ensures { result ≡ slice_cmp nat_cmp host.now name.now }
{
    host.bytes().cmp(name)
}

// The place of the host of this name, if there is one.
pub(crate) fn place_of(hosts: &[Name], name: &[u8]) -> Option<u32>
    requires rising { AllPairs Precedes hosts.now }
    requires few { length hosts.now ≤ most_entries }
    ensures { result ≡ host_place hosts.now name.now }
{
    match hosts.binary_search_by(|host| compare(host, name)) {
        Ok(place) => Some(place as u32),
        Err(_) => None,
    }
}
