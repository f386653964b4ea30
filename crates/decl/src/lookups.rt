// What a declaration says of an address, of two hosts, of a label by its name, and of neighbouring clocks.
ghost use Rattle.std.specs.Prelude.{◌≡◌, ◌≤◌, length, position};
ghost use Rattle.std.specs.List.{list_any};
ghost use Rattle.std.specs.Cmp.Lexicographic.{slice_cmp};
ghost use Rattle.std.specs.Ordering.{nat_cmp};
ghost use Rattle.std.specs.Str.{bytes_eq};
ghost use Rattle.problem_model.specs.Limits.{most_clocks};
ghost use Rattle.decl.specs.Declaration.{HasLawfulLabels, declaration_of, host_at, is_own, is_same_segment, link_bounds, follow_from, gives_bound, has_own_bounds, bounds_with, bounds_at, own_bounds, segment_of, subnets_of, whereabouts};
ghost use Rattle.decl.specs.Limits.{most_entries};

use crate::subnets::{give_near, narrowest, place_by};
use crate::{Decl, IpVersion, Label, Subnet, Whereabouts};
use atto::Nano;
use problem_model::{Clock, Follow, Name, StampBounds};
use std::cmp::Ordering;

// How a label's name stands to a name, in byte order.
fn compare(label: &Label, name: &[u8]) -> Ordering
    ensures { result ≡ slice_cmp nat_cmp label.now.name name.now }
{
    label.name.bytes().cmp(name)
}

// Whether these are the names of one segment, or none is named.
fn is_same_segment(a: Option<Name>, b: Option<Name>) -> bool
    ensures { result ≡ is_same_segment a b }
{
    match (a, b) {
        (Some(a), Some(b)) => a == b,
        (None, None) => true,
        _ => false,
    }
}

// Whether two labels are of one segment.
fn is_beside(other: &Label, label: &Label) -> bool
    ensures { result ≡ is_same_segment other.now.segment label.now.segment }
{
    is_same_segment(other.segment, label.segment)
}

// The place of the first of these labels that is of a label's segment.
fn first_of_segment(labels: &[Label], label: &Label) -> Option<usize>
    ensures { result ≡ position (λ other. is_same_segment other.segment label.now.segment) labels.now }
{
    labels.iter().position(|other| is_beside(other, label))
}

// Whether a label gives a bound of its trace's own stamps.
fn gives_bound(label: &Label) -> bool
    ensures { result ≡ gives_bound label.now }
{
    label.early.is_some() || label.late.is_some()
}

// Whether one of these labels does.
fn give_bounds(labels: &[Label]) -> bool
    ensures { result ≡ list_any gives_bound labels.now }
{
    labels.iter().any(|label| gives_bound(label))
}

// The bounds of a trace's stamps.
fn bounds_with(label: &Label, clock: &Clock) -> StampBounds
    ensures { result ≡ bounds_with label.now clock.now }
{
    StampBounds {
        early: label.early.unwrap_or(clock.early),
        late: label.late.unwrap_or(clock.late),
    }
}

impl Decl {
    // The subnets that a label gives.
    fn subnets_of(&self, label: &Label) -> &[Subnet]
        ensures { result.now ≡ subnets_of (declaration_of self.now) label.now }
    {
        let behind = self
            .subnets
            .get(label.first_subnet as usize..)
            .unwrap_or(&[]);
        behind.get(..label.subnet_count as usize).unwrap_or(behind)
    }

    // Whether an address is one of the host's own that count at a label.
    fn is_own(&self, label: &Label, version: IpVersion, address: u128) -> bool
        ensures { result ≡ is_own (declaration_of self.now) label.now version address }
    {
        if give_near(version, self.subnets_of(label)) {
            return false;
        }
        match self.host_of(version, address) {
            Some(host) => host == label.host,
            None => false,
        }
    }

    /// Where an address of this version is, the number of its octets in network byte order, as seen from where the trace of
    /// a label was taken: on the side of the narrowest of the label's subnets that has it. The addresses of the label's host
    /// are near, each as a subnet of its own, where the label gives no near ones of this version in their place. It takes a
    /// step for each subnet of the label.
    pub fn whereabouts(&self, label: &Label, version: IpVersion, address: u128) -> Whereabouts
        ensures { result ≡ whereabouts (declaration_of self.now) label.now version address }
    {
        let own = self.is_own(label, version, address);
        place_by(own, narrowest(version, address, self.subnets_of(label)))
    }

    /// The number of a label's segment: the place of the first label of it. It takes a step for each label before that.
    pub fn segment_of(&self, label: &Label) -> u32
        requires { length self.now.labels.items ≤ most_entries }
        ensures { result ≡ segment_of (declaration_of self.now) label.now }
    {
        match first_of_segment(&self.labels, label) {
            Some(place) => place as u32,
            None => 0,
        }
    }

    /// Whether some label gives a bound of its trace's own stamps: then each event has bounds of its own. It takes a step for
    /// each label.
    pub fn has_own_bounds(&self) -> bool
        ensures { result ≡ has_own_bounds (declaration_of self.now) }
    {
        give_bounds(&self.labels)
    }

    /// The bounds of the stamps of a label's trace: those that the label gives, and for one that it does not give that of its
    /// clock. None where it has no clock.
    pub fn bounds_at(&self, label: &Label) -> Option<StampBounds>
        ensures { result ≡ bounds_at (declaration_of self.now) label.now }
    {
        match self.clocks.get(label.clock as usize) {
            Some(clock) => Some(bounds_with(label, clock)),
            None => None,
        }
    }

    /// The bounds that events of a label's trace have of their own; None where no label gives any, so that those of their
    /// clocks count. It takes a step for each label.
    pub fn own_bounds(&self, label: &Label) -> Option<StampBounds>
        ensures { result ≡ own_bounds (declaration_of self.now) label.now }
    {
        self.own_bounds_if(self.has_own_bounds(), label)
    }

    /// The same, where it is known whether some label gives bounds.
    pub fn own_bounds_if(&self, given: bool, label: &Label) -> Option<StampBounds>
        requires { given ≡ has_own_bounds (declaration_of self.now) }
        ensures { result ≡ own_bounds (declaration_of self.now) label.now }
    {
        if given { self.bounds_at(label) } else { None }
    }

    /// The place of the host that has this address of this version, the number of its octets in network byte order; None
    /// exactly where no host has it.
    pub fn host_of(&self, version: IpVersion, address: u128) -> Option<u32>
        ensures { result ≡ host_at (declaration_of self.now) version address }
    {
        match version {
            IpVersion::V4 => self.addresses.host_of(address),
            IpVersion::V6 => self.addresses6.host_of(address),
        }
    }

    /// The least and the greatest delay from one host to another, in ns of real time: 0 and None where there is no link.
    pub fn link_of(&self, from: u32, to: u32) -> (Nano, Option<Nano>)
        ensures { result ≡ link_bounds (declaration_of self.now) from to }
    {
        self.links.bounds_of(from, to)
    }

    /// The place of the label of this name, from 0 on; None exactly where no label has it. Condition: labels stand in
    /// the byte order of their names, as those of each declaration that was read do.
    pub fn label_at(&self, name: &[u8]) -> Option<usize>
        requires { HasLawfulLabels (declaration_of self.now) }
        ensures { result ≡ position (λ label. bytes_eq label.name name.now) self.now.labels.items }
    {
        match self.labels.binary_search_by(|label| compare(label, name)) {
            Ok(place) => Some(place),
            Err(_) => None,
        }
    }

    /// The follow from the clock at a place to the next one; None exactly where these are not two clocks of one host. Its
    /// gap is that of the later clock. Condition: there are at most 65,536 clocks.
    pub fn follow_from(&self, earlier: u32) -> Option<Follow>
        requires { length self.now.owners.items ≤ most_clocks }
        ensures { result ≡ follow_from (declaration_of self.now) earlier }
    {
        let place = earlier as usize;
        let one = self.owners.get(place)?;
        let next = self.owners.get(place + 1)?;
        if one.host != next.host {
            return None;
        }
        Some(Follow {
            earlier,
            later: earlier + 1,
            gap: next.gap,
        })
    }
}
