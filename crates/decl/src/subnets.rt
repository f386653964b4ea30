// The subnets that labels give.
ghost use Rattle.std.specs.Prelude.{◌≡◌, ◌-◌, ◌+◌, ◌%◌, ◌++◌, ◌≤◌, ◌==◌, [], drop, length, find, option_map, unwrap_or, position, Some, None, if◌then◌else◌, IfOk};
ghost use Rattle.toml.specs.View.{items_view};
ghost use Rattle.decl.specs.Addresses.{read_as};
ghost use Rattle.decl.specs.Causes.{first};
ghost use Rattle.decl.specs.Subnets.{bits_in, bits_of, give_near, given_by, is_in, is_same_subnet, is_same_version, narrower, narrowest, prefix_by, place_by, prefix_in, side_of, size_of, subnet_causes, subnet_of, subnets_by, text_causes, twin_cause};

use crate::addresses::read_as;
use crate::cause::Cause;
use crate::{IpVersion, Subnet, Whereabouts};
use atto::{read_decimal, spellings_are_one};
use std::alloc::AllocError;
use toml::Value;

impl IpVersion {
    // How many bits an address has.
    fn bits(self) -> u32
        ensures { result ≡ bits_of self }
    {
        match self {
            IpVersion::V4 => 32,
            IpVersion::V6 => 128,
        }
    }

    // Whether it is that version.
    fn is(self, other: IpVersion) -> bool
        ensures { result ≡ is_same_version self other }
    {
        match (self, other) {
            (IpVersion::V4, IpVersion::V4) | (IpVersion::V6, IpVersion::V6) => true,
            (IpVersion::V4, IpVersion::V6) | (IpVersion::V6, IpVersion::V4) => false,
        }
    }
}

// How many bits a decimal says, if an address of this version has as many.
fn bits_in(version: IpVersion, text: &[u8]) -> Option<u32>
    ensures { result ≡ bits_in version text.now }
{
    spellings_are_one();
    match read_decimal(text) {
        Ok(bits) => {
            if bits <= u64::from(version.bits()) {
                Some(bits as u32)
            } else {
                None
            }
        }
        Err(_) => None,
    }
}

// The address of a text, of which so many bits count as the other text says.
fn prefix_by(version: IpVersion, address: &[u8], bits: &[u8]) -> Option<(u128, u32)>
    ensures { result ≡ prefix_by version address.now bits.now }
{
    let Some(address) = read_as(version, address) else {
        return None;
    };
    match bits_in(version, bits) {
        Some(bits) => Some((address, bits)),
        None => None,
    }
}

// The place of the first slash of a text.
fn slash_in(text: &[u8]) -> Option<usize>
    ensures { result ≡ position (λ c. c == 47) text.now }
{
    text.iter().position(|c| *c == b'/')
}

// The address of a text, of which all bits count.
fn whole_prefix(version: IpVersion, text: &[u8]) -> Option<(u128, u32)>
    ensures { result ≡ option_map (λ a. (a, bits_of version)) (read_as version text.now) }
{
    match read_as(version, text) {
        Some(address) => Some((address, version.bits())),
        None => None,
    }
}

// An address, and how many of its bits count.
fn prefix_in(version: IpVersion, text: &[u8]) -> Option<(u128, u32)>
    ensures { result ≡ prefix_in version text.now }
{
    match slash_in(text) {
        Some(slash) => prefix_by(version, &text[..slash], &text[slash + 1..]),
        None => whole_prefix(version, text),
    }
}

// By how much the last address that has so many bits in common with others is greater than the first.
fn spread_of(version: IpVersion, bits: u32) -> u128
    requires { bits ≤ bits_of version }
    ensures { result ≡ size_of version bits - 1 }
{
    let free = version.bits() - bits;
    if free == 128 {
        u128::MAX
    } else {
        (1 << free) - 1
    }
}

// Whether an address is the first of as many as a spread says.
fn is_first(address: u128, spread: u128) -> bool
    ensures { result ≡ (address % (spread + 1) == 0) }
{
    match spread.checked_add(1) {
        Some(many) => address % many == 0,
        None => address == 0,
    }
}

// The subnet that a text writes, on this side.
fn read_subnet(version: IpVersion, beyond: bool, text: &[u8]) -> Option<Subnet>
    ensures { result ≡ subnet_of (record { version = version; beyond = beyond; text = text.now }) }
{
    let Some((first, bits)) = prefix_in(version, text) else {
        return None;
    };
    let spread = spread_of(version, bits);
    if !is_first(first, spread) {
        return None;
    }
    Some(Subnet {
        version,
        beyond,
        first,
        spread,
    })
}

// Whether two subnets have the same addresses.
fn is_same_subnet(a: &Subnet, b: &Subnet) -> bool
    ensures { result ≡ is_same_subnet a.now b.now }
{
    a.version.is(b.version) && a.first == b.first && a.spread == b.spread
}

// The first of these subnets that has the same addresses.
fn twin_of<'a>(before: &'a [Subnet], subnet: &Subnet) -> Option<&'a Subnet>
    ensures { option_map (λ twin. twin.now) result ≡ find (is_same_subnet subnet.now) before.now }
{
    before.iter().find(|other| is_same_subnet(subnet, other))
}

// What is wrong with a subnet, by its side and that of one with the same addresses.
fn twin_cause(twin: bool, own: bool) -> Cause
    ensures { result ≡ twin_cause twin own }
{
    if twin == own {
        Cause::Address
    } else {
        Cause::Sides
    }
}

// What is wrong with a subnet behind these, if anything is.
fn cause_behind(before: &[Subnet], subnet: &Subnet) -> Option<Cause>
    ensures { result ≡ first (text_causes before.now (Some subnet.now)) }
{
    match twin_of(before, subnet) {
        Some(twin) => Some(twin_cause(twin.beyond, subnet.beyond)),
        None => None,
    }
}

// Appends the subnets that the items write to those of the label, which stand from a place on; the first cause, where
// something is wrong with one of them.
pub(crate) fn add_subnets(
    version: IpVersion,
    beyond: bool,
    items: &[Value],
    from: usize,
    subnets: &mut Vec<Subnet>,
) -> Result<Option<Cause>, AllocError>
    requires { from ≤ length subnets.old.items }
    ensures cause { IfOk result (λ cause. cause ≡ first (subnet_causes (drop from subnets.old.items) (given_by version beyond (items_view items.now)))) }
    ensures added { IfOk result (λ cause. cause ≡ None → subnets.new.items ≡ subnets.old.items ++ subnets_by (given_by version beyond (items_view items.now))) }
{
    for item in items {
        let text = match item.as_str() {
            Some(text) => text,
            None => "",
        };
        let Some(subnet) = read_subnet(version, beyond, text.as_bytes()) else {
            return Ok(Some(Cause::Address));
        };
        if let Some(cause) = cause_behind(&subnets[from..], &subnet) {
            return Ok(Some(cause));
        }
        subnets.push(subnet)?;
    }
    Ok(None)
}

impl Subnet {
    // Whether an address of a version is one of these.
    fn has(&self, version: IpVersion, address: u128) -> bool
        ensures { result ≡ is_in version address self.now }
    {
        self.version.is(version) && self.first <= address && address - self.first <= self.spread
    }

    // The side that it is on.
    fn side(&self) -> Whereabouts
        ensures { result ≡ side_of self.now }
    {
        if self.beyond {
            Whereabouts::Beyond
        } else {
            Whereabouts::Near
        }
    }
}

// The narrower one of a subnet and of the one that was found before it, if one was; that one where they are as wide.
fn narrower_of(found: Option<Subnet>, subnet: &Subnet) -> Subnet
    ensures { result ≡ unwrap_or (option_map (λ narrow. narrower narrow (Some subnet.now)) found) subnet.now }
{
    match found {
        Some(narrow) if subnet.spread >= narrow.spread => narrow,
        _ => *subnet,
    }
}

// The narrowest of these subnets that has the address.
pub(crate) fn narrowest(version: IpVersion, address: u128, subnets: &[Subnet]) -> Option<Subnet>
    ensures { result ≡ narrowest version address subnets.now }
{
    let mut found: Option<Subnet> = None;
    for subnet in subnets {
        if subnet.has(version, address) {
            found = Some(narrower_of(found, subnet));
        }
    }
    found
}

// Whether some of these subnets are near, and of this version.
pub(crate) fn give_near(version: IpVersion, subnets: &[Subnet]) -> bool
    ensures { result ≡ give_near version subnets.now }
{
    subnets
        .iter()
        .any(|subnet| subnet.version.is(version) && !subnet.beyond)
}

// Where an address is, by whether it is the host's own and by the narrowest subnet that has it.
pub(crate) fn place_by(own: bool, narrowest: Option<Subnet>) -> Whereabouts
    ensures { result ≡ place_by own narrowest }
{
    match narrowest {
        Some(subnet) if !own || subnet.spread == 0 => subnet.side(),
        None if !own => Whereabouts::Unsaid,
        _ => Whereabouts::Near,
    }
}
