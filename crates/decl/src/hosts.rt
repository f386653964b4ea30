// The hosts of a declaration.
ghost use Rattle.std.specs.Prelude.{◌≡◌, ◌-◌, ◌≤◌, ◌||◌, ◌++◌, [], Some, None, not, if◌then◌else◌, length, AllPairs, IfOk, IfErr, IsTrue, OnOk};
ghost use Rattle.toml.specs.Data.{as_table, no_members};
ghost use Rattle.toml.specs.View.{view, table_view};
ghost use Rattle.decl.specs.Addresses.{address_of, address6_of, at_host, none_known, written};
ghost use Rattle.decl.specs.Causes.{Tells, IsFirstOf, at, when};
ghost use Rattle.decl.specs.Clocks.{clock_by_name, clock_tables, clocks_by, has_wild_number, has_wild_owner, owner_by, owners_by};
ghost use Rattle.decl.specs.Declaration.{Precedes};
ghost use Rattle.decl.specs.Hosts.{address_texts, address6_texts, has_wrong_address, is_one_too_many, host_causes, hosts_faults, clocks_in, addresses_in, addresses6_in, owners_in, host_lists, addresses_from, addresses6_from};
ghost use Rattle.decl.specs.Inside.{known_in, hosts_and_clocks, IsTurnOf};
ghost use Rattle.decl.specs.Keys.{table_causes, entry_causes};
ghost use Rattle.decl.specs.Limits.{most_entries};
ghost use Rattle.decl.specs.Names.{is_clock_name};
ghost use Rattle.decl.specs.declared.cause.Cause.TheVariants as cause;

use crate::cause::Cause;
use crate::clock_numbers::{read_numbers, read_owner};
use crate::clock_tables::read_clocks;
use crate::clocks::ClockBook;
use crate::keys::{Form, check_table};
use crate::limits::MOST_ENTRIES;
use crate::values::items_or_none;
use crate::{Addresses, DeclError, IpVersion, Owner, Section};
use problem_model::{Clock, Name};
use std::alloc::{AllocError, Global};
use toml::{Table, Value};

// The hosts of a declaration, in the byte order of their names: their names, their clocks, and their addresses.
#[derive(Drop)]
pub(crate) struct Hosts {
    pub(crate) names: Vec<Name>,
    pub(crate) clocks: ClockBook,
    pub(crate) addresses: Addresses,
    pub(crate) addresses6: Addresses,
}

// The addresses of hosts so far, of IPv4 and of IPv6, and their clocks.
#[derive(Drop)]
pub(crate) struct Books {
    pub(crate) narrow: Addresses,
    pub(crate) wide: Addresses,
    pub(crate) clocks: ClockBook,
}

#[tactic(auto, using(crate::proofs::ClockNames::clock_name_is, crate::proofs::ClockNames::clock_name_tested, crate::proofs::ClockNames::clock_name_event))]
// The clock name of this text, if it is one.
pub(crate) fn read_clock_name(text: &[u8]) -> Option<Name>
    ensures { result ≡ (if is_clock_name text.now then Some text.now else None) }
{
    match Name::new(text) {
        Some(name) => { if name.is_short() { Some(name) } else { None } }
        None => None,
    }
}

// The clock that a host with this index and name has by its own numbers, and whose it is.
fn read_own(index: u32, name: &str, table: &Table, empty: &Table) -> Result<(Clock, Owner), Cause>
    requires first { 1 ≤ index }
    requires empty { table_view empty.now ≡ no_members }
    ensures { Tells (table_causes Form.Host (table_view table.now) ++ when (not (is_clock_name name.now)) cause.Name ++ when (is_one_too_many index || has_wild_number no_members (table_view table.now) || has_wild_owner no_members (table_view table.now)) cause.Number)
        (clock_by_name name.now no_members (table_view table.now), owner_by (index - 1) no_members (table_view table.now)) result }
{
    check_table(Form::Host, table)?;
    let Some(name) = read_clock_name(name.as_bytes()) else {
        return Err(Cause::Name);
    };
    if index > MOST_ENTRIES {
        return Err(Cause::Number);
    }
    let Some(clock) = read_numbers(name, empty, table) else {
        return Err(Cause::Number);
    };
    let Some(owner) = read_owner(index - 1, empty, table) else {
        return Err(Cause::Number);
    };
    Ok((clock, owner))
}

// Adds the addresses of the host at this place to those of hosts before; false exactly where one of them is misspelled, or
// one of those before.
fn read_addresses(host: u32, table: &Table, books: &mut Books) -> Result<bool, AllocError>
    ensures fresh { IfOk result (λ fresh. fresh ≡ not (has_wrong_address (known_in books.old) (table_view table.now))) }
    ensures booked { IfOk result (λ fresh. IsTrue fresh → books.new.narrow ≡ books.old.narrow ++ at_host host (written address_of (address_texts (table_view table.now)))) }
    ensures booked6 { IfOk result (λ fresh. IsTrue fresh → books.new.wide ≡ books.old.wide ++ at_host host (written address6_of (address6_texts (table_view table.now)))) }
    ensures clocks { books.new.clocks ≡ books.old.clocks }
{
    if !books
        .narrow
        .add_all(IpVersion::V4, host, items_or_none(table, "addresses"))?
    {
        return Ok(false);
    }
    books
        .wide
        .add_all(IpVersion::V6, host, items_or_none(table, "addresses6"))
}

// Reads the table of the host with this index and name. Its addresses and clocks go into the books, behind those of
// hosts before.
fn read_table(
    index: u32,
    name: &str,
    table: &Table,
    empty: &Table,
    books: &mut Books,
) -> Result<Name, DeclError>
    requires first { 1 ≤ index }
    requires empty { table_view empty.now ≡ no_members }
    requires turn { IsTurnOf books.old.clocks.owners (index - 1) }
    ensures sound { OnOk result (host_causes index (known_in books.old) books.old.clocks.clocks name.now (table_view table.now) ≡ []) }
    ensures named { IfOk result (λ own. own ≡ name.now) }
    ensures clocks { OnOk result (books.new.clocks.clocks ≡ books.old.clocks.clocks ++ clocks_by name.now (table_view table.now) (clock_tables (table_view table.now))) }
    ensures owners { OnOk result (books.new.clocks.owners ≡ books.old.clocks.owners ++ owners_by (index - 1) (table_view table.now) (clock_tables (table_view table.now))) }
    ensures booked { OnOk result (books.new.narrow ≡ books.old.narrow ++ at_host (index - 1) (written address_of (address_texts (table_view table.now)))) }
    ensures booked6 { OnOk result (books.new.wide ≡ books.old.wide ++ at_host (index - 1) (written address6_of (address6_texts (table_view table.now)))) }
    ensures fault { IfErr result (λ e. IsFirstOf (at Section.Hosts index (host_causes index (known_in books.old) books.old.clocks.clocks name.now (table_view table.now))) e) }
{
    let (clock, owner) = match read_own(index, name, table, empty) {
        Ok(own) => own,
        Err(cause) => return Err(cause.at(Section::Hosts, index)),
    };
    if !read_addresses(index - 1, table, books)? {
        return Err(Cause::Address.at(Section::Hosts, index));
    }
    match read_clocks(index, clock, owner, table, &mut books.clocks) {
        Ok(()) => Ok(clock.name),
        Err(e) => Err(e),
    }
}

// Reads the host with this index and name, if its value is a table.
fn read_host(
    index: u32,
    name: &str,
    value: &Value,
    empty: &Table,
    books: &mut Books,
) -> Result<Name, DeclError>
    requires first { 1 ≤ index }
    requires empty { table_view empty.now ≡ no_members }
    requires turn { IsTurnOf books.old.clocks.owners (index - 1) }
    ensures sound { OnOk result (entry_causes (host_causes index (known_in books.old) books.old.clocks.clocks name.now) (as_table (view value.now)) ≡ []) }
    ensures named { IfOk result (λ own. own ≡ name.now) }
    ensures clocks { OnOk result (books.new.clocks.clocks ≡ books.old.clocks.clocks ++ clocks_in name.now (view value.now)) }
    ensures owners { OnOk result (books.new.clocks.owners ≡ books.old.clocks.owners ++ owners_in (index - 1) (view value.now)) }
    ensures booked { OnOk result (books.new.narrow ≡ books.old.narrow ++ at_host (index - 1) (addresses_in (view value.now))) }
    ensures booked6 { OnOk result (books.new.wide ≡ books.old.wide ++ at_host (index - 1) (addresses6_in (view value.now))) }
    ensures fault { IfErr result (λ e. IsFirstOf (at Section.Hosts index (entry_causes (host_causes index (known_in books.old) books.old.clocks.clocks name.now) (as_table (view value.now)))) e) }
{
    match value.as_table() {
        Some(table) => read_table(index, name, table, empty, books),
        None => Err(Cause::Shape.at(Section::Hosts, index)),
    }
}

// The hosts of this table.
pub(crate) fn read_hosts(alloc: Global, table: &Table, empty: &Table) -> Result<Hosts, DeclError>
    requires { table_view empty.now ≡ no_members }
    ensures fault { IfErr result (λ e. IsFirstOf (hosts_faults 1 none_known [] (table_view table.now)) e) }
    ensures sound { OnOk result (hosts_faults 1 none_known [] (table_view table.now) ≡ []) }
    ensures lists { IfOk result (λ hosts. hosts_and_clocks hosts ≡ host_lists (table_view table.now)) }
    ensures addresses { IfOk result (λ hosts. hosts.addresses ≡ addresses_from 0 (table_view table.now)) }
    ensures addresses6 { IfOk result (λ hosts. hosts.addresses6 ≡ addresses6_from 0 (table_view table.now)) }
    ensures rising { IfOk result (λ hosts. AllPairs Precedes hosts.names.items) }
    ensures few { IfOk result (λ hosts. length hosts.names.items ≤ most_entries) }
{
    let mut names = Vec::new(alloc);
    let mut books = Books {
        narrow: Addresses::new(alloc),
        wide: Addresses::new(alloc),
        clocks: ClockBook::new(alloc),
    };
    let mut index: u32 = 0;
    for (name, value) in table {
        index += 1;
        let name = match read_host(index, name, value, empty, &mut books) {
            Ok(name) => name,
            Err(e) => return Err(e),
        };
        names.push(name)?;
    }
    Ok(Hosts {
        names,
        clocks: books.clocks,
        addresses: books.narrow,
        addresses6: books.wide,
    })
}
