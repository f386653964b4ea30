// The links of a declaration.
ghost use Rattle.std.specs.Prelude.{◌≡◌, ◌-◌, ◌≤◌, ◌++◌, ◌∷◌, [], false, Some, None, if◌then◌else◌, unwrap_or, codes, length, AllPairs, IfOk, IfErr, OnOk};
ghost use Rattle.toml.specs.Data.{as_table};
ghost use Rattle.toml.specs.View.{view, table_view, items_view};
ghost use Rattle.decl.specs.Causes.{Tells, IsFirstOf};
ghost use Rattle.decl.specs.Declaration.{Precedes};
ghost use Rattle.decl.specs.Firsts.{bounds_among};
ghost use Rattle.decl.specs.Keys.{entry_causes, entry_table};
ghost use Rattle.decl.specs.Labels.{host_at_key};
ghost use Rattle.decl.specs.Limits.{most_entries, nano_limit};
ghost use Rattle.decl.specs.Links.{has_link, is_astray, link_causes, link_of, links_faults, links_of};

use crate::cause::Cause;
use crate::keys::{Form, check_table};
use crate::labels::host_at_key;
use crate::limits::MOST_ENTRIES;
use crate::values::{nano_at, optional_nano};
use crate::{DeclError, Link, Section};
use atto::Nano;
use problem_model::Name;
use std::alloc::{AllocError, Global};
use std::collections::BTreeMap;
use std::marker::Model;
use toml::{Table, Value};

// The least and the greatest delay of a link.
fn bounds(link: &Link) -> (Nano, Option<Nano>)
    ensures { result ≡ (link.now.least, link.now.most) }
{
    (link.least, link.most)
}

/// What is known of delays, in the order in which it was written: no two of the links go from the same host to the same one.
/// The bounds of one are found in a time that grows as the logarithm of how many there are.
#[derive(Debug, Drop)]
pub struct Links {
    list: Vec<Link>,
    // The least and the greatest delay by the two ends.
    bounds: BTreeMap<(u32, u32), (Nano, Option<Nano>)>,
}

impl Model for Links {
    ghost use Rattle.std.specs.Prelude.{◌≡◌, ℕ, List, None, is_some, unwrap_or};
    ghost use Rattle.std.specs.BTreeMap.{get};
    ghost use Rattle.std.specs.Ordering.{nat_cmp, ordering_then};
    ghost use Rattle.decl.specs.declared.items.Link.{Link};
    ghost use Rattle.decl.specs.Firsts.{bounds_among};
    ghost use Rattle.decl.specs.Links.{has_link};

    ghost Value = { List Link };

    ghost view = { λ l. l.list.items };

    ghost invariant = { λ l. (q : ℕ × ℕ) → let found = get (λ x y. ordering_then (nat_cmp x.0 y.0) (nat_cmp x.1 y.1)) l.bounds q in
        (is_some found ≡ has_link l.list.items q.0 q.1) × (unwrap_or found (0, None) ≡ bounds_among l.list.items q.0 q.1) };
}

impl Links {
    fn new(alloc: Global) -> Links
        ensures { result ≡ [] }
    {
        Links {
            list: Vec::new(alloc),
            bounds: BTreeMap::new(alloc),
        }
    }

    /// The links.
    pub fn list(&self) -> &[Link]
        ensures { result.now ≡ self.now }
    {
        self.list.as_slice()
    }

    /// The least and the greatest delay from one host to another, in ns of real time: 0 and None where there is no link.
    pub fn bounds_of(&self, from: u32, to: u32) -> (Nano, Option<Nano>)
        ensures { result ≡ bounds_among self.now from to }
    {
        match self.bounds.get(&(from, to)) {
            Some(found) => (found.0, found.1),
            None => (Nano::new(0).unwrap(), None),
        }
    }

    // Whether there is a link from one host to another.
    fn has(&self, from: u32, to: u32) -> bool
        ensures { result ≡ has_link self.now from to }
    {
        self.bounds.contains_key(&(from, to))
    }

    // Adds a link that goes otherwise than each of those before.
    fn push(&mut self, link: &Link) -> Result<(), AllocError>
        requires new { has_link self.old link.now.from link.now.to ≡ false }
        ensures { OnOk result (self.new ≡ self.old ++ link.now ∷ []) }
    {
        let most: Option<Nano> = link.most;
        self.list.reserve(1)?;
        self.bounds.insert((link.from, link.to), bounds(link))?;
        self.list.push_reserved(Link {
            from: link.from,
            to: link.to,
            least: link.least,
            most,
        });
        Ok(())
    }
}

// The places of the hosts of a link, if it names two and goes otherwise than the links in the book.
fn read_ends(hosts: &[Name], book: &Links, table: &Table) -> Option<(u32, u32)>
    requires rising { AllPairs Precedes hosts.now }
    requires few { length hosts.now ≤ most_entries }
    ensures { let from = host_at_key hosts.now (codes "from") (table_view table.now) in
        let to = host_at_key hosts.now (codes "to") (table_view table.now) in
        result ≡ (if is_astray book.now from to then None else Some (unwrap_or from 0, unwrap_or to 0)) }
{
    let Some(from) = host_at_key(hosts, "from", table) else {
        return None;
    };
    let Some(to) = host_at_key(hosts, "to", table) else {
        return None;
    };
    if book.has(from, to) {
        return None;
    }
    Some((from, to))
}

// The link with this index.
fn read_link(hosts: &[Name], book: &Links, index: u32, table: &Table) -> Result<Link, Cause>
    requires rising { AllPairs Precedes hosts.now }
    requires few { length hosts.now ≤ most_entries }
    ensures { Tells (link_causes hosts.now index book.now (table_view table.now)) (link_of hosts.now (table_view table.now)) result }
{
    check_table(Form::Link, table)?;
    let Some((from, to)) = read_ends(hosts, book, table) else {
        return Err(Cause::Name);
    };
    if index > MOST_ENTRIES {
        return Err(Cause::Number);
    }
    let Some(least) = nano_at(table, "least") else {
        return Err(Cause::Number);
    };
    let Some(most) = optional_nano(table, "most") else {
        return Err(Cause::Number);
    };
    Ok(Link {
        from,
        to,
        least,
        most,
    })
}

// The link with this index, if it is a table.
fn read_entry(hosts: &[Name], book: &Links, index: u32, value: &Value) -> Result<Link, Cause>
    requires rising { AllPairs Precedes hosts.now }
    requires few { length hosts.now ≤ most_entries }
    ensures { Tells (entry_causes (link_causes hosts.now index book.now) (as_table (view value.now))) (link_of hosts.now (entry_table (view value.now))) result }
{
    match value.as_table() {
        Some(table) => read_link(hosts, book, index, table),
        None => Err(Cause::Shape),
    }
}

// The links of these items.
pub(crate) fn read_links(alloc: Global, hosts: &[Name], items: &[Value]) -> Result<Links, DeclError>
    requires rising { AllPairs Precedes hosts.now }
    requires few { length hosts.now ≤ most_entries }
    ensures fault { IfErr result (λ e. IsFirstOf (links_faults hosts.now 1 [] (items_view items.now)) e) }
    ensures sound { OnOk result (links_faults hosts.now 1 [] (items_view items.now) ≡ []) }
    ensures links { IfOk result (λ links. links ≡ links_of hosts.now (items_view items.now)) }
{
    let mut book = Links::new(alloc);
    let mut index: u32 = 0;
    for item in items {
        index += 1;
        let link = match read_entry(hosts, &book, index, item) {
            Ok(link) => link,
            Err(cause) => return Err(cause.at(Section::Links, index)),
        };
        book.push(&link)?;
    }
    Ok(book)
}
