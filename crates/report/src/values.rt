// The parts of a report as values of JSON.
ghost use Rattle.std.specs.Prelude.{◌≡◌, All, IfOk, OnOk, map};
ghost use Rattle.std.specs.Str.{IsAscii};
ghost use Rattle.serde_json.specs.Data.{string};
ghost use Rattle.serde_json.specs.View.{members_view, view};
ghost use Rattle.report.specs.Report.{HasAsciiKey, dropped_data, drops_data, group_data, groups_data, nokey_data, passed_data, passes_none, report_data, reported, reported_drops, reported_key, texts};
ghost use Rattle.report.specs.Inside.{all_members, nokey_members, put_alone, put_dropped, put_interface, put_passed};

use crate::{LabelDrops, NamedGroup, NoKeys, PassedSums, View};
use problem_model::Name;
use serde_json::{Map, Value, json, put};
use std::alloc::{AllocError, Global};

// A text in ASCII.
fn text_value(alloc: Global, text: &[u8]) -> Result<Value, AllocError>
    requires { IsAscii text.now }
    ensures { IfOk result (λ value. view value ≡ string text.now) }
{
    match std::str::from_utf8(text) {
        Ok(text) => Value::try_from_str(alloc, text),
        Err(_) => unreachable!(),
    }
}

// A name.
fn name_value(alloc: Global, name: &Name) -> Result<Value, AllocError>
    ensures { IfOk result (λ value. view value ≡ string name.now) }
{
    text_value(alloc, name.bytes())
}

// An array of names.
fn names_value(alloc: Global, names: &[Name]) -> Result<Value, AllocError>
    ensures { IfOk result (λ value. view value ≡ texts names.now) }
{
    let mut values = Vec::with_capacity(alloc, names.len())?;
    for name in names {
        values.push(name_value(alloc, name)?)?;
    }
    Ok(Value::from(values))
}

// An ambiguous key with its events.
fn group_value(alloc: Global, group: &NamedGroup) -> Result<Value, AllocError>
    requires { HasAsciiKey group.now }
    ensures { IfOk result (λ value. view value ≡ group_data (reported_key group.now)) }
{
    let key = text_value(alloc, &group.key)?;
    let receives = names_value(alloc, &group.receives)?;
    let sends = names_value(alloc, &group.sends)?;
    json!(in alloc; {"key": key, "receives": receives, "sends": sends})
}

// The array of the ambiguous keys.
fn groups_value(alloc: Global, groups: &[NamedGroup]) -> Result<Value, AllocError>
    requires { All HasAsciiKey groups.now }
    ensures { IfOk result (λ value. view value ≡ groups_data (map reported_key groups.now)) }
{
    let mut values = Vec::with_capacity(alloc, groups.len())?;
    for group in groups {
        values.push(group_value(alloc, group)?)?;
    }
    Ok(Value::from(values))
}

// The numbers of events without a key that every report has.
fn nokey_members(alloc: Global, nokeys: &NoKeys) -> Result<Map<String, Value>, AllocError>
    ensures { IfOk result (λ members. members_view members.entries ≡ nokey_members nokeys.now) }
{
    let mut members = Map::new(alloc);
    put(
        &mut members,
        alloc,
        "fragment",
        Value::from(nokeys.fragment),
    )?;
    put(&mut members, alloc, "header", Value::from(nokeys.header))?;
    put(&mut members, alloc, "length", Value::from(nokeys.length))?;
    put(&mut members, alloc, "link", Value::from(nokeys.link))?;
    put(&mut members, alloc, "local", Value::from(nokeys.local))?;
    put(&mut members, alloc, "other", Value::from(nokeys.other))?;
    put(&mut members, alloc, "short", Value::from(nokeys.short))?;
    put(&mut members, alloc, "side", Value::from(nokeys.side))?;
    Ok(members)
}

// Puts the number of packets of another interface, if there are any.
fn put_interface(
    alloc: Global,
    count: u32,
    members: &mut Map<String, Value>,
) -> Result<(), AllocError>
    ensures { OnOk result (members_view members.new.entries ≡ put_interface count (members_view members.old.entries)) }
{
    if count == 0 {
        return Ok(());
    }
    put(members, alloc, "interface", Value::from(count))
}

// The numbers of events without a key.
fn nokey_value(alloc: Global, nokeys: &NoKeys) -> Result<Value, AllocError>
    ensures { IfOk result (λ value. view value ≡ nokey_data nokeys.now) }
{
    let mut members = nokey_members(alloc, nokeys)?;
    put_interface(alloc, nokeys.interface, &mut members)?;
    Ok(Value::from(members))
}

// Whether no packet was passed over.
fn passes_none(passed: &PassedSums) -> bool
    ensures { result ≡ passes_none passed.now }
{
    passed.obsolete == 0 && passed.other == 0 && passed.simple == 0
}

// The numbers of packets that were passed over.
fn passed_value(alloc: Global, passed: &PassedSums) -> Result<Value, AllocError>
    ensures { IfOk result (λ value. view value ≡ passed_data passed.now) }
{
    json!(in alloc; {
        "obsolete": passed.obsolete,
        "other": passed.other,
        "simple": passed.simple,
    })
}

// The numbers of packets that were dropped under a label.
fn drops_value(alloc: Global, drops: &LabelDrops) -> Result<Value, AllocError>
    ensures { IfOk result (λ value. view value ≡ drops_data (reported_drops drops.now)) }
{
    let label = name_value(alloc, &drops.label)?;
    json!(in alloc; {
        "interface": drops.dropped.interface,
        "label": label,
        "system": drops.dropped.system,
    })
}

// The array of the labels under which packets were dropped.
fn dropped_value(alloc: Global, dropped: &[LabelDrops]) -> Result<Value, AllocError>
    ensures { IfOk result (λ value. view value ≡ dropped_data (map reported_drops dropped.now)) }
{
    let mut values = Vec::with_capacity(alloc, dropped.len())?;
    for drops in dropped {
        values.push(drops_value(alloc, drops)?)?;
    }
    Ok(Value::from(values))
}

// The members that every report has.
fn members_of(alloc: Global, v: &View) -> Result<Map<String, Value>, AllocError>
    requires { All HasAsciiKey v.now.groups.items }
    ensures { IfOk result (λ members. members_view members.entries ≡ all_members (reported v.now)) }
{
    let ambiguous = groups_value(alloc, &v.groups)?;
    let nokey = nokey_value(alloc, &v.nokeys)?;
    let mut members = Map::new(alloc);
    put(&mut members, alloc, "ambiguous", ambiguous)?;
    put(&mut members, alloc, "consistent", Value::from(v.consistent))?;
    put(&mut members, alloc, "events", Value::from(v.events))?;
    put(&mut members, alloc, "messages", Value::from(v.messages))?;
    put(&mut members, alloc, "nokey", nokey)?;
    put(&mut members, alloc, "unmatched", Value::from(v.unmatched))?;
    Ok(members)
}

// Puts the number of keys that stand alone, where they are counted.
fn put_alone(
    alloc: Global,
    alone: Option<u32>,
    members: &mut Map<String, Value>,
) -> Result<(), AllocError>
    ensures { OnOk result (members_view members.new.entries ≡ put_alone alone (members_view members.old.entries)) }
{
    match alone {
        None => Ok(()),
        Some(count) => put(members, alloc, "alone", Value::from(count)),
    }
}

// Puts the labels under which packets were dropped, if there are any.
fn put_dropped(
    alloc: Global,
    dropped: &[LabelDrops],
    members: &mut Map<String, Value>,
) -> Result<(), AllocError>
    ensures { OnOk result (members_view members.new.entries ≡ put_dropped (map reported_drops dropped.now) (members_view members.old.entries)) }
{
    if dropped.is_empty() {
        return Ok(());
    }
    put(members, alloc, "dropped", dropped_value(alloc, dropped)?)
}

// Puts the numbers of packets that were passed over, if there are any.
fn put_passed(
    alloc: Global,
    passed: &PassedSums,
    members: &mut Map<String, Value>,
) -> Result<(), AllocError>
    ensures { OnOk result (members_view members.new.entries ≡ put_passed passed.now (members_view members.old.entries)) }
{
    if passes_none(passed) {
        return Ok(());
    }
    put(members, alloc, "passed", passed_value(alloc, passed)?)
}

// The whole report.
pub(crate) fn report_value(alloc: Global, v: &View) -> Result<Value, AllocError>
    requires { All HasAsciiKey v.now.groups.items }
    ensures { IfOk result (λ value. view value ≡ report_data (reported v.now)) }
{
    let mut members = members_of(alloc, v)?;
    put_dropped(alloc, &v.dropped, &mut members)?;
    put_passed(alloc, &v.passed, &mut members)?;
    put_alone(alloc, v.alone, &mut members)?;
    Ok(Value::from(members))
}
