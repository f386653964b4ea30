// The labels of a declaration.
ghost use Rattle.std.specs.Prelude.{◌≡◌, ◌≤◌, ◌-◌, ◌*◌, ◌++◌, ◌∷◌, ◌||◌, true, false, codes, [], Some, None, drop, length, All, AllPairs, IfSome, IfNone, IfOk, IfErr, OnOk};
ghost use Rattle.toml.specs.View.{view, items_view, table_view};
ghost use Rattle.toml.specs.Data.{as_table};
ghost use Rattle.problem_model.specs.Name.{IsClockName};
ghost use Rattle.decl.specs.Causes.{IsFirstOf, at, first};
ghost use Rattle.decl.specs.declared.cause.Cause.TheVariants as cause;
ghost use Rattle.decl.specs.Clocks.{own_clock_place};
ghost use Rattle.decl.specs.Declaration.{Precedes};
ghost use Rattle.decl.specs.declared.items.IpVersion.TheVariants as version;
ghost use Rattle.decl.specs.Inside.{NamesOf, NumbersOf, hosts_and_clocks};
ghost use Rattle.decl.specs.Keys.{entry_causes, entry_table};
ghost use Rattle.decl.specs.Labels.{trace_kind_of, host_at_key, clock_at_key, places_at, is_misnamed, is_no_segment, speaks_of_packets, has_wild_interface, has_wild_bound, said_causes, label_causes, label_of, is_log, label_subnets, labels_faults, labels_of};
ghost use Rattle.decl.specs.Subnets.{given_by, given_in, has_many_subnets, subnet_causes, subnets_by, subnets_in};
ghost use Rattle.decl.specs.Hosts.{is_one_too_many};
ghost use Rattle.decl.specs.Values.{optional_number, text_at};
ghost use Rattle.decl.specs.Limits.{most_entries};

use crate::cause::Cause;
use crate::clocks::ClockBook;
use crate::host_places::place_of;
use crate::hosts::{Hosts, read_clock_name};
use crate::keys::{Form, check_table, lacks_one};
use crate::limits::{MOST_ENTRIES, MOST_INTERFACE, MOST_SUBNETS};
use crate::subnets::add_subnets;
use crate::values::{items_or_none, number_up_to, optional_nano, text_at, text_or_empty, whole_at};
use crate::{DeclError, IpVersion, Label, Section, Subnet, TraceKind};
use atto::Nano;
use problem_model::Name;
use std::alloc::{AllocError, Global};
use toml::{Table, Value};

fn read_kind(word: &str) -> Option<TraceKind>
    ensures { result ≡ trace_kind_of word.now }
{
    match word {
        "capture" => Some(TraceKind::Capture),
        "log" => Some(TraceKind::Log),
        _ => None,
    }
}

// The place of the host that a table names at a key.
pub(crate) fn host_at_key(hosts: &[Name], key: &str, table: &Table) -> Option<u32>
    requires rising { AllPairs Precedes hosts.now }
    requires few { length hosts.now ≤ most_entries }
    ensures { result ≡ host_at_key hosts.now key.now (table_view table.now) }
{
    place_of(hosts, text_or_empty(table, key).as_bytes())
}

// The place of the host's clock of this name.
fn named_clock(clocks: &ClockBook, host: u32, name: &str) -> Option<u32>
    requires { All (λ c. IsClockName c.name) clocks.now.clocks }
    ensures { result ≡ own_clock_place clocks.now.clocks clocks.now.owners host name.now }
{
    match read_clock_name(name.as_bytes()) {
        Some(name) => clocks.place_among(host, &name),
        None => None,
    }
}

// The place of the clock that a label of this host names, or of the host's first one.
fn clock_at_key(hosts: &Hosts, host: u32, table: &Table) -> Option<u32>
    requires { All (λ c. IsClockName c.name) hosts.now.clocks.clocks }
    ensures { result ≡ clock_at_key (hosts_and_clocks hosts.now) host (table_view table.now) }
{
    match text_at(table, "clock") {
        Some(name) => named_clock(&hosts.clocks, host, name),
        None => hosts.clocks.first_of(host),
    }
}

// The places of the host and of the clock of a label, if it names both.
fn places_at(hosts: &Hosts, table: &Table) -> Option<(u32, u32)>
    requires rising { AllPairs Precedes hosts.now.names.items }
    requires few { length hosts.now.names.items ≤ most_entries }
    requires named { All (λ c. IsClockName c.name) hosts.now.clocks.clocks }
    ensures { result ≡ places_at (hosts_and_clocks hosts.now) (table_view table.now) }
{
    let Some(host) = host_at_key(&hosts.names, "host", table) else {
        return None;
    };
    match clock_at_key(hosts, host, table) {
        Some(clock) => Some((host, clock)),
        None => None,
    }
}

// The name of the segment that a label names; `Err` where it is misspelled.
fn read_segment(table: &Table) -> Result<Option<Name>, Cause>
    ensures ok { IfOk result (λ segment. (segment ≡ text_at (codes "segment") (table_view table.now)) × (is_no_segment (text_at (codes "segment") (table_view table.now)) ≡ false)) }
    ensures err { IfErr result (λ fault. (fault ≡ cause.Name) × (is_no_segment (text_at (codes "segment") (table_view table.now)) ≡ true)) }
{
    let Some(text) = text_at(table, "segment") else {
        return Ok(None);
    };
    match read_clock_name(text.as_bytes()) {
        Some(name) => Ok(Some(name)),
        None => Err(Cause::Name),
    }
}

// What a label names.
#[derive(Clone, Copy)]
struct Names {
    name: Name,
    host: u32,
    clock: u32,
    kind: TraceKind,
    segment: Option<Name>,
}

// What a label of this name names, if all its names are lawful.
fn read_names(hosts: &Hosts, name: &str, table: &Table) -> Option<Names>
    requires rising { AllPairs Precedes hosts.now.names.items }
    requires few { length hosts.now.names.items ≤ most_entries }
    requires named { All (λ c. IsClockName c.name) hosts.now.clocks.clocks }
    ensures some { IfSome result (λ names. NamesOf (hosts_and_clocks hosts.now) name.now (table_view table.now) names × (is_misnamed (hosts_and_clocks hosts.now) name.now (table_view table.now) ≡ false)) }
    ensures none { IfNone result (is_misnamed (hosts_and_clocks hosts.now) name.now (table_view table.now) ≡ true) }
{
    let Some(name) = read_clock_name(name.as_bytes()) else {
        return None;
    };
    let Some((host, clock)) = places_at(hosts, table) else {
        return None;
    };
    let Some(kind) = read_kind(text_or_empty(table, "kind")) else {
        return None;
    };
    let Ok(segment) = read_segment(table) else {
        return None;
    };
    Some(Names {
        name,
        host,
        clock,
        kind,
        segment,
    })
}

// Whether a trace of this kind is a log.
fn is_log(kind: TraceKind) -> bool
    ensures { result ≡ is_log (Some kind) }
{
    match kind {
        TraceKind::Log => true,
        TraceKind::Capture => false,
    }
}

// Whether the table says of packets where they go.
fn speaks_of_packets(table: &Table) -> bool
    ensures { result ≡ speaks_of_packets (table_view table.now) }
{
    !(lacks_one(table, "interface")
        && lacks_one(table, "addresses")
        && lacks_one(table, "addresses6")
        && lacks_one(table, "beyond")
        && lacks_one(table, "beyond6"))
}

// Whether the table gives too many subnets, in texts.
fn has_many_subnets(table: &Table) -> bool
    ensures { result ≡ has_many_subnets (table_view table.now) }
{
    let near = items_or_none(table, "addresses").len();
    let near6 = items_or_none(table, "addresses6").len();
    let beyond = items_or_none(table, "beyond").len();
    let beyond6 = items_or_none(table, "beyond6").len();
    let near_count = near.saturating_add(near6);
    near_count.saturating_add(beyond).saturating_add(beyond6) > MOST_SUBNETS
}

// The number of the interface, if it says one; `Err` where this or how many subnets there are is out of its range.
fn read_interface(index: u32, table: &Table) -> Result<Option<u32>, Cause>
    ensures ok { IfOk result (λ interface. (interface ≡ optional_number (codes "interface") (table_view table.now)) × ((is_one_too_many index || has_wild_interface (table_view table.now) || has_many_subnets (table_view table.now)) ≡ false)) }
    ensures err { IfErr result (λ fault. (fault ≡ cause.Number) × ((is_one_too_many index || has_wild_interface (table_view table.now) || has_many_subnets (table_view table.now)) ≡ true)) }
{
    if index > MOST_ENTRIES {
        return Err(Cause::Number);
    }
    let Some(number) = number_up_to(table, "interface", MOST_INTERFACE) else {
        return Err(Cause::Number);
    };
    if has_many_subnets(table) {
        return Err(Cause::Number);
    }
    match whole_at(table, "interface") {
        Some(_) => Ok(Some(number as u32)),
        None => Ok(None),
    }
}

// The bounds of the trace's own stamps, if it says any; `Err` where one is out of its range.
fn read_bounds(table: &Table) -> Result<(Option<Nano>, Option<Nano>), Cause>
    ensures ok { IfOk result (λ bounds. (bounds.0 ≡ optional_number (codes "early") (table_view table.now)) × (bounds.1 ≡ optional_number (codes "late") (table_view table.now)) × (has_wild_bound (table_view table.now) ≡ false)) }
    ensures err { IfErr result (λ fault. (fault ≡ cause.Number) × (has_wild_bound (table_view table.now) ≡ true)) }
{
    let Some(early) = optional_nano(table, "early") else {
        return Err(Cause::Number);
    };
    let Some(late) = optional_nano(table, "late") else {
        return Err(Cause::Number);
    };
    Ok((early, late))
}

// The numbers that a label says.
#[derive(Clone, Copy)]
struct Numbers {
    interface: Option<u32>,
    early: Option<Nano>,
    late: Option<Nano>,
}

// The numbers that a label says; `Err` where one of them or how many subnets there are is out of its range.
fn read_numbers(index: u32, table: &Table) -> Result<Numbers, Cause>
    ensures ok { IfOk result (λ numbers. NumbersOf (table_view table.now) numbers × ((is_one_too_many index || has_wild_interface (table_view table.now) || has_many_subnets (table_view table.now) || has_wild_bound (table_view table.now)) ≡ false)) }
    ensures err { IfErr result (λ fault. (fault ≡ cause.Number) × ((is_one_too_many index || has_wild_interface (table_view table.now) || has_many_subnets (table_view table.now) || has_wild_bound (table_view table.now)) ≡ true)) }
{
    let interface = read_interface(index, table)?;
    let (early, late) = read_bounds(table)?;
    Ok(Numbers {
        interface,
        early,
        late,
    })
}

// Appends the subnets on one side of a label, whose subnets stand from a place on; the first cause, where something is
// wrong with one of them.
fn add_side(
    beyond: bool,
    narrow: &[Value],
    wide: &[Value],
    from: usize,
    subnets: &mut Vec<Subnet>,
) -> Result<Option<Cause>, AllocError>
    requires { from ≤ length subnets.old.items }
    ensures cause { let given = given_by version.V4 beyond (items_view narrow.now) ++ given_by version.V6 beyond (items_view wide.now) in
        IfOk result (λ cause. cause ≡ first (subnet_causes (drop from subnets.old.items) given)) }
    ensures added { let given = given_by version.V4 beyond (items_view narrow.now) ++ given_by version.V6 beyond (items_view wide.now) in
        IfOk result (λ cause. cause ≡ None → subnets.new.items ≡ subnets.old.items ++ subnets_by given) }
{
    if let Some(cause) = add_subnets(IpVersion::V4, beyond, narrow, from, subnets)? {
        return Ok(Some(cause));
    }
    add_subnets(IpVersion::V6, beyond, wide, from, subnets)
}

// Appends the subnets that a label gives; the first cause, where something is wrong with one of them.
fn read_subnets(table: &Table, subnets: &mut Vec<Subnet>) -> Result<Option<Cause>, AllocError>
    ensures cause { IfOk result (λ cause. cause ≡ first (subnet_causes [] (given_in (table_view table.now)))) }
    ensures added { IfOk result (λ cause. cause ≡ None → subnets.new.items ≡ subnets.old.items ++ subnets_in (table_view table.now)) }
{
    let from = subnets.len();
    let near = items_or_none(table, "addresses");
    let near6 = items_or_none(table, "addresses6");
    if let Some(cause) = add_side(false, near, near6, from, subnets)? {
        return Ok(Some(cause));
    }
    let beyond = items_or_none(table, "beyond");
    let beyond6 = items_or_none(table, "beyond6");
    add_side(true, beyond, beyond6, from, subnets)
}

// What a label says beside its subnets.
fn read_own(hosts: &Hosts, index: u32, name: &str, table: &Table) -> Result<(Names, Numbers), Cause>
    requires rising { AllPairs Precedes hosts.now.names.items }
    requires few { length hosts.now.names.items ≤ most_entries }
    requires named { All (λ c. IsClockName c.name) hosts.now.clocks.clocks }
    ensures ok { IfOk result (λ own. NamesOf (hosts_and_clocks hosts.now) name.now (table_view table.now) own.0 × NumbersOf (table_view table.now) own.1 × (said_causes (hosts_and_clocks hosts.now) index name.now (table_view table.now) ≡ [])) }
    ensures err { IfErr result (λ cause. first (said_causes (hosts_and_clocks hosts.now) index name.now (table_view table.now)) ≡ Some cause) }
{
    check_table(Form::Label, table)?;
    let Some(names) = read_names(hosts, name, table) else {
        return Err(Cause::Name);
    };
    if is_log(names.kind) && speaks_of_packets(table) {
        return Err(Cause::Key);
    }
    let numbers = read_numbers(index, table)?;
    Ok((names, numbers))
}

// The label with this index and name, whose subnets go behind those of labels before.
fn read_label(
    hosts: &Hosts,
    index: u32,
    name: &str,
    table: &Table,
    subnets: &mut Vec<Subnet>,
) -> Result<Label, DeclError>
    requires rising { AllPairs Precedes hosts.now.names.items }
    requires few { length hosts.now.names.items ≤ most_entries }
    requires named { All (λ c. IsClockName c.name) hosts.now.clocks.clocks }
    requires room { length subnets.old.items ≤ 256 * (index - 1) }
    ensures sound { OnOk result (label_causes (hosts_and_clocks hosts.now) index name.now (table_view table.now) ≡ []) }
    ensures label { IfOk result (λ label. label ≡ label_of (hosts_and_clocks hosts.now) (length subnets.old.items) name.now (table_view table.now)) }
    ensures added { OnOk result (subnets.new.items ≡ subnets.old.items ++ subnets_in (table_view table.now)) }
    ensures fault { IfErr result (λ e. IsFirstOf (at Section.Labels index (label_causes (hosts_and_clocks hosts.now) index name.now (table_view table.now))) e) }
{
    let (names, numbers) = match read_own(hosts, index, name, table) {
        Ok(own) => own,
        Err(cause) => return Err(cause.at(Section::Labels, index)),
    };
    let first_subnet = subnets.len() as u32;
    if let Some(cause) = read_subnets(table, subnets)? {
        return Err(cause.at(Section::Labels, index));
    }
    Ok(Label {
        name: names.name,
        host: names.host,
        clock: names.clock,
        kind: names.kind,
        interface: numbers.interface,
        segment: names.segment,
        early: numbers.early,
        late: numbers.late,
        first_subnet,
        subnet_count: subnets.len() as u32 - first_subnet,
    })
}

// The label with this index and name, if its value is a table.
fn read_entry(
    hosts: &Hosts,
    index: u32,
    name: &str,
    value: &Value,
    subnets: &mut Vec<Subnet>,
) -> Result<Label, DeclError>
    requires rising { AllPairs Precedes hosts.now.names.items }
    requires few { length hosts.now.names.items ≤ most_entries }
    requires named { All (λ c. IsClockName c.name) hosts.now.clocks.clocks }
    requires room { length subnets.old.items ≤ 256 * (index - 1) }
    ensures sound { OnOk result (entry_causes (label_causes (hosts_and_clocks hosts.now) index name.now) (as_table (view value.now)) ≡ []) }
    ensures label { IfOk result (λ label. label ≡ label_of (hosts_and_clocks hosts.now) (length subnets.old.items) name.now (entry_table (view value.now))) }
    ensures added { OnOk result (subnets.new.items ≡ subnets.old.items ++ subnets_in (entry_table (view value.now))) }
    ensures fault { IfErr result (λ e. IsFirstOf (at Section.Labels index (entry_causes (label_causes (hosts_and_clocks hosts.now) index name.now) (as_table (view value.now)))) e) }
{
    match value.as_table() {
        Some(table) => read_label(hosts, index, name, table, subnets),
        None => Err(Cause::Shape.at(Section::Labels, index)),
    }
}

// The labels of a declaration, and the subnets that they give.
#[derive(Drop)]
pub(crate) struct Labels {
    pub(crate) list: Vec<Label>,
    pub(crate) subnets: Vec<Subnet>,
}

// Appends a label.
fn push(list: &mut Vec<Label>, label: &Label) -> Result<(), AllocError>
    ensures { OnOk result (list.new.items ≡ list.old.items ++ label.now ∷ []) }
{
    let interface: Option<u32> = label.interface;
    let segment: Option<Name> = label.segment;
    let early: Option<Nano> = label.early;
    let late: Option<Nano> = label.late;
    list.push(Label {
        name: label.name,
        host: label.host,
        clock: label.clock,
        kind: label.kind,
        interface,
        segment,
        early,
        late,
        first_subnet: label.first_subnet,
        subnet_count: label.subnet_count,
    })?;
    Ok(())
}

// Appends the label with this index and name, and its subnets.
fn add_label(
    hosts: &Hosts,
    index: u32,
    name: &str,
    value: &Value,
    labels: &mut Labels,
) -> Result<(), DeclError>
    requires rising { AllPairs Precedes hosts.now.names.items }
    requires few { length hosts.now.names.items ≤ most_entries }
    requires named { All (λ c. IsClockName c.name) hosts.now.clocks.clocks }
    requires room { length labels.old.subnets.items ≤ 256 * (index - 1) }
    ensures sound { OnOk result (entry_causes (label_causes (hosts_and_clocks hosts.now) index name.now) (as_table (view value.now)) ≡ []) }
    ensures label { OnOk result (labels.new.list.items ≡ labels.old.list.items ++ label_of (hosts_and_clocks hosts.now) (length labels.old.subnets.items) name.now (entry_table (view value.now)) ∷ []) }
    ensures added { OnOk result (labels.new.subnets.items ≡ labels.old.subnets.items ++ subnets_in (entry_table (view value.now))) }
    ensures fault { IfErr result (λ e. IsFirstOf (at Section.Labels index (entry_causes (label_causes (hosts_and_clocks hosts.now) index name.now) (as_table (view value.now)))) e) }
{
    let label = match read_entry(hosts, index, name, value, &mut labels.subnets) {
        Ok(label) => label,
        Err(e) => return Err(e),
    };
    push(&mut labels.list, &label)?;
    Ok(())
}

// The labels of this table.
pub(crate) fn read_labels(alloc: Global, hosts: &Hosts, table: &Table) -> Result<Labels, DeclError>
    requires rising { AllPairs Precedes hosts.now.names.items }
    requires few { length hosts.now.names.items ≤ most_entries }
    requires named { All (λ c. IsClockName c.name) hosts.now.clocks.clocks }
    ensures fault { IfErr result (λ e. IsFirstOf (labels_faults (hosts_and_clocks hosts.now) 1 (table_view table.now)) e) }
    ensures sound { OnOk result (labels_faults (hosts_and_clocks hosts.now) 1 (table_view table.now) ≡ []) }
    ensures labels { IfOk result (λ labels. labels.list.items ≡ labels_of (hosts_and_clocks hosts.now) 0 (table_view table.now)) }
    ensures subnets { IfOk result (λ labels. labels.subnets.items ≡ label_subnets (table_view table.now)) }
    ensures rising { IfOk result (λ labels. AllPairs (λ a b. Precedes a.name b.name) labels.list.items) }
{
    let mut labels = Labels {
        list: Vec::new(alloc),
        subnets: Vec::new(alloc),
    };
    let mut index: u32 = 0;
    for (name, value) in table {
        index += 1;
        match add_label(hosts, index, name, value, &mut labels) {
            Ok(()) => {}
            Err(e) => return Err(e),
        }
    }
    Ok(labels)
}
