// The addresses of hosts.
ghost use Rattle.std.specs.Prelude.{◌≡◌, ◌<◌, ◌++◌, ℕ, List, [], not, IfOk, IsTrue, Some, option_to_list};
ghost use Rattle.toml.specs.View.{items_view};
ghost use Rattle.decl.specs.Addresses.{IsAddress, IsAddress6, address_of, address6_of, is_bad_address, is_short_form, has_bad_address, read_as, written, texts_of, at_host, numbers_of};
ghost use Rattle.decl.specs.Firsts.{host_among};

use crate::{Address, IpVersion};
use std::alloc::{AllocError, Global};
use std::collections::BTreeMap;
use std::marker::Model;
use std::net::{Ipv4Addr, Ipv6Addr};
use toml::Value;

/// A law, which does nothing when it runs. The address of a text is the number whose four bytes the text writes as
/// decimals of 0 to 255 with points between and without zeros in front.
pub fn addresses_are_dotted()
    ensures found { (text : List ℕ) (address : ℕ) → address_of text ≡ Some address → IsAddress text address }
    ensures only { (text : List ℕ) (address : ℕ) → IsAddress text address → address_of text ≡ Some address }
{}

// The address that a text writes, its first byte the greatest.
fn read_address(text: &[u8]) -> Option<u32>
    ensures { result ≡ address_of text.now }
{
    match Ipv4Addr::parse_ascii(text) {
        Ok(address) => Some(address.to_bits()),
        Err(_) => None,
    }
}

/// A law, which does nothing when it runs. The address of a text is the number whose sixteen bytes the text writes as
/// eight groups of one to four hexadecimal digits, of either case, with colons between.
pub fn addresses6_are_groups()
    ensures found { (text : List ℕ) (address : ℕ) → address6_of text ≡ Some address → IsAddress6 text address }
    ensures only { (text : List ℕ) (address : ℕ) → IsAddress6 text address → address6_of text ≡ Some address }
{}

// Whether a text has a point in it, or two colons side by side. Addresses with these are short forms, which std reads too.
fn is_short_form(text: &[u8]) -> bool
    ensures { result ≡ is_short_form 0 text.now }
{
    let mut last = 0;
    for byte in text {
        if *byte == b'.' || (*byte == b':' && last == b':') {
            return true;
        }
        last = *byte;
    }
    false
}

// The address that a text writes in full, its first byte the greatest.
fn read_address6(text: &[u8]) -> Option<u128>
    ensures { result ≡ address6_of text.now }
{
    if is_short_form(text) {
        return None;
    }
    match Ipv6Addr::parse_ascii(text) {
        Ok(address) => Some(address.to_bits()),
        Err(_) => None,
    }
}

// The address of this version that a text writes.
pub(crate) fn read_as(version: IpVersion, text: &[u8]) -> Option<u128>
    ensures { result ≡ read_as version text.now }
{
    match version {
        IpVersion::V4 => match read_address(text) {
            Some(address) => Some(u128::from(address)),
            None => None,
        },
        IpVersion::V6 => read_address6(text),
    }
}

/// The addresses of one version of the hosts, by host, and those of one host as they were written. No two are the same. The
/// host of one is found in a time that grows as the logarithm of how many there are.
#[derive(Debug, Drop)]
pub struct Addresses {
    list: Vec<Address>,
    // The host of each address.
    hosts: BTreeMap<u128, u32>,
}

impl Model for Addresses {
    ghost use Rattle.std.specs.Prelude.{◌≡◌, ℕ, List};
    ghost use Rattle.std.specs.BTreeMap.{get};
    ghost use Rattle.std.specs.Ordering.{nat_cmp};
    ghost use Rattle.decl.specs.declared.items.Address.{Address};
    ghost use Rattle.decl.specs.Firsts.{host_among};

    ghost Value = { List Address };

    ghost view = { λ a. a.list.items };

    ghost invariant = { λ a. (address : ℕ) → get nat_cmp a.hosts address ≡ host_among a.list.items address };
}

impl Addresses {
    pub(crate) fn new(alloc: Global) -> Addresses
        ensures { result ≡ [] }
    {
        Addresses {
            list: Vec::new(alloc),
            hosts: BTreeMap::new(alloc),
        }
    }

    /// The addresses, by host, and those of one host as they were written.
    pub fn list(&self) -> &[Address]
        ensures { result.now ≡ self.now }
    {
        self.list.as_slice()
    }

    /// The place of the host that has this address; None exactly where no host has it.
    pub fn host_of(&self, address: u128) -> Option<u32>
        ensures { result ≡ host_among self.now address }
    {
        self.hosts.get(&address).copied()
    }

    // Adds the address that a text writes to those of a host; false, and nothing is added, exactly where it writes none
    // or one that is there.
    fn add(&mut self, version: IpVersion, host: u32, text: &[u8]) -> Result<bool, AllocError>
        ensures fresh { IfOk result (λ fresh. fresh ≡ not (is_bad_address (numbers_of self.old) (read_as version text.now))) }
        ensures added { IfOk result (λ fresh. IsTrue fresh → self.new ≡ self.old ++ at_host host (option_to_list (read_as version text.now))) }
    {
        let Some(address) = read_as(version, text) else {
            return Ok(false);
        };
        if self.hosts.contains_key(&address) {
            return Ok(false);
        }
        self.list.reserve(1)?;
        self.hosts.insert(address, host)?;
        self.list.push_reserved(Address { address, host });
        Ok(true)
    }

    // Adds the addresses that the items write to those of a host; false exactly where one of them writes none, or one
    // that is there by then.
    pub(crate) fn add_all(
        &mut self,
        version: IpVersion,
        host: u32,
        items: &[Value],
    ) -> Result<bool, AllocError>
        ensures fresh { IfOk result (λ fresh. fresh ≡ not (has_bad_address (read_as version) (numbers_of self.old) (texts_of (items_view items.now)))) }
        ensures added { IfOk result (λ fresh. IsTrue fresh → self.new ≡ self.old ++ at_host host (written (read_as version) (texts_of (items_view items.now)))) }
    {
        for item in items {
            let text = match item.as_str() {
                Some(text) => text,
                None => "",
            };
            if !self.add(version, host, text.as_bytes())? {
                return Ok(false);
            }
        }
        Ok(true)
    }
}
