// The clocks of a host: those of its tables, or its own one.
ghost use Rattle.std.specs.Prelude.{◌≡◌, ◌-◌, ◌≤◌, ◌||◌, ◌++◌, ◌∷◌, [], Some, None, not, if◌then◌else◌, IfErr, OnOk};
ghost use Rattle.toml.specs.Data.{as_table, no_members};
ghost use Rattle.toml.specs.View.{view, table_view, items_view};
ghost use Rattle.decl.specs.Causes.{Tells, IsFirstOf, at, when};
ghost use Rattle.decl.specs.Clocks.{clock_by_name, clock_causes, name_in, is_taken, have_no_room, table_clocks, table_owners, tables_causes, clock_tables, clocks_by, owner_by, owners_by, clocks_causes};
ghost use Rattle.decl.specs.Inside.{IsTurnOf};
ghost use Rattle.decl.specs.Keys.{entry_causes, entry_table};
ghost use Rattle.decl.specs.Names.{is_clock_name};
ghost use Rattle.decl.specs.declared.cause.Cause.TheVariants as cause;

use crate::cause::Cause;
use crate::clock_numbers::{read_numbers, read_owner};
use crate::clocks::ClockBook;
use crate::hosts::read_clock_name;
use crate::keys::{Form, check_table};
use crate::values::{items_or_none, text_or_empty};
use crate::{DeclError, Owner, Section};
use problem_model::{Clock, Name};
use toml::{Table, Value};

// The name of a clock's table, if it is one that no clock of the book has.
fn read_name(own: &Table, book: &ClockBook) -> Option<Name>
    ensures { result ≡ (if not (is_clock_name (name_in (table_view own.now))) || is_taken book.now.clocks (name_in (table_view own.now)) then None else Some (name_in (table_view own.now))) }
{
    let Some(name) = read_clock_name(text_or_empty(own, "name").as_bytes()) else {
        return None;
    };
    match book.place(&name) {
        Some(_) => None,
        None => Some(name),
    }
}

// The clock of a table of the host with this index, and whose it is, behind the clocks of the book.
fn read_clock(
    index: u32,
    own: &Table,
    host: &Table,
    book: &ClockBook,
) -> Result<(Clock, Owner), Cause>
    requires { 1 ≤ index }
    ensures { Tells (clock_causes (table_view host.now) book.now.clocks (table_view own.now))
        (clock_by_name (name_in (table_view own.now)) (table_view own.now) (table_view host.now), owner_by (index - 1) (table_view own.now) (table_view host.now)) result }
{
    check_table(Form::Clock, own)?;
    let Some(name) = read_name(own, book) else {
        return Err(Cause::Name);
    };
    let Some(clock) = read_numbers(name, own, host) else {
        return Err(Cause::Number);
    };
    let Some(owner) = read_owner(index - 1, own, host) else {
        return Err(Cause::Number);
    };
    if book.is_full() {
        return Err(Cause::Number);
    }
    Ok((clock, owner))
}

// Adds the clock of a table of the host with this index to the book.
fn add_clock(index: u32, value: &Value, host: &Table, book: &mut ClockBook) -> Result<(), DeclError>
    requires first { 1 ≤ index }
    requires turn { IsTurnOf book.old.owners (index - 1) }
    ensures fault { IfErr result (λ e. IsFirstOf (at Section.Hosts index (entry_causes (clock_causes (table_view host.now) book.old.clocks) (as_table (view value.now)))) e) }
    ensures sound { OnOk result (entry_causes (clock_causes (table_view host.now) book.old.clocks) (as_table (view value.now)) ≡ []) }
    ensures clocks { OnOk result (let own = entry_table (view value.now) in book.new.clocks ≡ book.old.clocks ++ clock_by_name (name_in own) own (table_view host.now) ∷ []) }
    ensures owners { OnOk result (book.new.owners ≡ book.old.owners ++ owner_by (index - 1) (entry_table (view value.now)) (table_view host.now) ∷ []) }
{
    let Some(own) = value.as_table() else {
        return Err(Cause::Shape.at(Section::Hosts, index));
    };
    let (clock, owner) = match read_clock(index, own, host, book) {
        Ok(read) => read,
        Err(cause) => return Err(cause.at(Section::Hosts, index)),
    };
    book.push(clock, owner)?;
    Ok(())
}

// Adds the clocks of these tables of the host with this index to the book.
fn add_clocks(
    index: u32,
    values: &[Value],
    host: &Table,
    book: &mut ClockBook,
) -> Result<(), DeclError>
    requires first { 1 ≤ index }
    requires turn { IsTurnOf book.old.owners (index - 1) }
    ensures fault { IfErr result (λ e. IsFirstOf (at Section.Hosts index (tables_causes (table_view host.now) book.old.clocks (items_view values.now))) e) }
    ensures sound { OnOk result (tables_causes (table_view host.now) book.old.clocks (items_view values.now) ≡ []) }
    ensures clocks { OnOk result (book.new.clocks ≡ book.old.clocks ++ table_clocks (table_view host.now) (items_view values.now)) }
    ensures owners { OnOk result (book.new.owners ≡ book.old.owners ++ table_owners (index - 1) (table_view host.now) (items_view values.now)) }
{
    for value in values {
        add_clock(index, value, host, book)?;
    }
    Ok(())
}

// Adds a host's own clock to the book, where the host has no tables of clocks.
fn add_own(index: u32, clock: Clock, owner: Owner, book: &mut ClockBook) -> Result<(), DeclError>
    requires turn { IsTurnOf book.old.owners owner.host }
    ensures fault { IfErr result (λ e. IsFirstOf (at Section.Hosts index (when (is_taken book.old.clocks clock.name) cause.Name ++ when (have_no_room book.old.clocks) cause.Number)) e) }
    ensures sound { OnOk result (when (is_taken book.old.clocks clock.name) cause.Name ++ when (have_no_room book.old.clocks) cause.Number ≡ []) }
    ensures clocks { OnOk result (book.new.clocks ≡ book.old.clocks ++ clock ∷ []) }
    ensures owners { OnOk result (book.new.owners ≡ book.old.owners ++ owner ∷ []) }
{
    if book.place(&clock.name).is_some() {
        return Err(Cause::Name.at(Section::Hosts, index));
    }
    if book.is_full() {
        return Err(Cause::Number.at(Section::Hosts, index));
    }
    book.push(clock, owner)?;
    Ok(())
}

// Adds the clocks of the host with this index, whose own clock and its owner are given, to the book.
pub(crate) fn read_clocks(
    index: u32,
    clock: Clock,
    owner: Owner,
    host: &Table,
    book: &mut ClockBook,
) -> Result<(), DeclError>
    requires first { 1 ≤ index }
    requires turn { IsTurnOf book.old.owners (index - 1) }
    requires own { clock ≡ clock_by_name clock.name no_members (table_view host.now) }
    requires owned { owner ≡ owner_by (index - 1) no_members (table_view host.now) }
    ensures fault { IfErr result (λ e. IsFirstOf (at Section.Hosts index (clocks_causes book.old.clocks clock.name (table_view host.now) (clock_tables (table_view host.now)))) e) }
    ensures sound { OnOk result (clocks_causes book.old.clocks clock.name (table_view host.now) (clock_tables (table_view host.now)) ≡ []) }
    ensures clocks { OnOk result (book.new.clocks ≡ book.old.clocks ++ clocks_by clock.name (table_view host.now) (clock_tables (table_view host.now))) }
    ensures owners { OnOk result (book.new.owners ≡ book.old.owners ++ owners_by (index - 1) (table_view host.now) (clock_tables (table_view host.now))) }
{
    let values = items_or_none(host, "clocks");
    if values.is_empty() {
        add_own(index, clock, owner, book)
    } else {
        add_clocks(index, values, host, book)
    }
}
