// A declaration as a whole.
ghost use Rattle.std.specs.Prelude.{◌≡◌, [], Some, None, option_and_then, codes, All, IfOk, IfErr, OnOk};
ghost use Rattle.toml.specs.View.{table_view};
ghost use Rattle.problem_model.specs.Name.{IsClockName};
ghost use Rattle.decl.specs.Causes.{Tells, IsFirstOf};
ghost use Rattle.decl.specs.Declaration.{declaration_of, IsDeclaration};
ghost use Rattle.decl.specs.Places.{clock_place};
ghost use Rattle.decl.specs.Values.{number_at, optional_number, text_at};
ghost use Rattle.decl.specs.Walk.{IsDocumentOf, IsFirstFault, declared, faults, is_true_at, shows_true, source_causes, top_causes};

use crate::cause::Cause;
use crate::clocks::ClockBook;
use crate::hosts::{read_clock_name, read_hosts};
use crate::keys::{Form, check_table};
use crate::labels::read_labels;
use crate::limits::{MOST_BYTES, MOST_PAYLOAD};
use crate::links::read_links;
use crate::values::{flag_at, items_or_none, number_up_to, optional_nano, table_or_empty, text_at};
use crate::{Decl, DeclError, Section};
use atto::Nano;
use problem_model::Clock;
use std::alloc::Global;
use toml::Table;

// Looks through the document's own keys; how many bytes of a payload tell a packet, and the window.
fn read_top(table: &Table) -> Result<(u8, Option<Nano>), Cause>
    ensures { Tells (top_causes (table_view table.now)) (number_at (codes "payload_bytes") (table_view table.now), optional_number (codes "window") (table_view table.now)) result }
{
    check_table(Form::Document, table)?;
    let Some(bytes) = number_up_to(table, "payload_bytes", MOST_PAYLOAD) else {
        return Err(Cause::Number);
    };
    let Some(window) = optional_nano(table, "window") else {
        return Err(Cause::Number);
    };
    Ok((bytes as u8, window))
}

fn shows_true(clock: &Clock) -> bool
    ensures { result ≡ shows_true (Some clock.now) }
{
    clock.rate.short() == 0 && clock.rate.long() == 0
}

// Whether this is the place of a clock that is never short or long.
fn is_true_at(clocks: &[Clock], place: Option<u32>) -> bool
    ensures { result ≡ is_true_at clocks.now place }
{
    let Some(place) = place else {
        return false;
    };
    match clocks.get(place as usize) {
        Some(clock) => shows_true(clock),
        None => false,
    }
}

// The place of the clock of this name.
fn named_clock(clocks: &ClockBook, name: &str) -> Option<u32>
    requires { All (λ c. IsClockName c.name) clocks.now.clocks }
    ensures { result ≡ clock_place clocks.now.clocks name.now }
{
    match read_clock_name(name.as_bytes()) {
        Some(name) => clocks.place(&name),
        None => None,
    }
}

// The place of the source, if one is named.
fn read_source(clocks: &ClockBook, table: &Table) -> Result<Option<u32>, Cause>
    requires { All (λ c. IsClockName c.name) clocks.now.clocks }
    ensures { let name = text_at (codes "source") (table_view table.now) in
        Tells (source_causes clocks.now.clocks name) (option_and_then (clock_place clocks.now.clocks) name) result }
{
    let Some(name) = text_at(table, "source") else {
        return Ok(None);
    };
    let place = named_clock(clocks, name);
    if !is_true_at(clocks.list(), place) {
        return Err(Cause::Source);
    }
    Ok(place)
}

// The declaration of a document.
fn read_document(alloc: Global, table: &Table) -> Result<Decl, DeclError>
    ensures fault { IfErr result (λ e. IsFirstOf (faults (table_view table.now)) e) }
    ensures sound { OnOk result (faults (table_view table.now) ≡ []) }
    ensures declared { IfOk result (λ d. declaration_of d ≡ declared (table_view table.now)) }
    ensures lawful { IfOk result (λ d. IsDeclaration (declaration_of d)) }
{
    let (payload_bytes, window) = match read_top(table) {
        Ok(top) => top,
        Err(cause) => return Err(cause.at(Section::Top, 0)),
    };
    let empty = Table::new(alloc);
    let hosts = match read_hosts(alloc, table_or_empty(table, "hosts", &empty), &empty) {
        Ok(hosts) => hosts,
        Err(e) => return Err(e),
    };
    let labels = match read_labels(alloc, &hosts, table_or_empty(table, "labels", &empty)) {
        Ok(labels) => labels,
        Err(e) => return Err(e),
    };
    let links = match read_links(alloc, &hosts.names, items_or_none(table, "links")) {
        Ok(links) => links,
        Err(e) => return Err(e),
    };
    let source = match read_source(&hosts.clocks, table) {
        Ok(source) => source,
        Err(cause) => return Err(cause.at(Section::Top, 0)),
    };
    let (clocks, owners) = hosts.clocks.into_lists();
    Ok(Decl {
        hosts: hosts.names,
        clocks,
        owners,
        addresses: hosts.addresses,
        addresses6: hosts.addresses6,
        labels: labels.list,
        subnets: labels.subnets,
        links,
        payload_bytes,
        tcp_options: flag_at(table, "tcp_options"),
        fragments: flag_at(table, "fragments"),
        window,
        source,
    })
}

/// Reads a declaration, a TOML document of at most 2^24 bytes, or finds its first fault. Each answer comes exactly where
/// it is defined, but for `Memory`, which comes where memory runs out.
pub fn read_decl(alloc: Global, bytes: &[u8]) -> Result<Decl, DeclError>
    ensures declares { IfOk result (λ d. IsDocumentOf bytes.now (declaration_of d)) }
    ensures fault { IfErr result (λ e. IsFirstFault bytes.now e) }
    ensures lawful { IfOk result (λ d. IsDeclaration (declaration_of d)) }
{
    if bytes.len() > MOST_BYTES {
        return Err(Cause::Size.at(Section::Top, 0));
    }
    match toml::table_from_slice(alloc, bytes) {
        Ok(table) => read_document(alloc, &table),
        Err(e) => {
            if e.is_memory() {
                Err(DeclError::Memory)
            } else {
                Err(Cause::Document.at(Section::Top, 0))
            }
        }
    }
}
