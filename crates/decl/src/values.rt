// What stands at the keys of a table.
ghost use Rattle.std.specs.Prelude.{◌≡◌, ◌-◌, Some, None, Option, option_map, if◌then◌else◌, nat_abs};
ghost use Rattle.toml.specs.Data.{get_member, no_members};
ghost use Rattle.toml.specs.View.{view, table_view, array_view, items_view};
ghost use Rattle.decl.specs.Limits.{nano_limit};
ghost use Rattle.decl.specs.Values.{flag_at, whole_at, whole_or_zero, text_at, text_or_empty, table_or_empty, array_at, items_or_none, is_up_to, number_at, optional_number};

use crate::limits::NANO_LIMIT;
use atto::Nano;
use toml::value::Array;
use toml::{Table, Value};

// The value at a key.
pub(crate) fn value_at<'a>(table: &'a Table, key: &str) -> Option<&'a Value>
    ensures { option_map (λ v. view v.now) result ≡ get_member key.now (table_view table.now) }
{
    table.get(key)
}

// The whole number at a key, if one is there.
pub(crate) fn whole_at(table: &Table, key: &str) -> Option<i64>
    ensures { result ≡ whole_at key.now (table_view table.now) }
{
    match value_at(table, key) {
        Some(value) => value.as_integer(),
        None => None,
    }
}

// The flag at a key; false where none is there.
pub(crate) fn flag_at(table: &Table, key: &str) -> bool
    ensures { result ≡ flag_at key.now (table_view table.now) }
{
    match value_at(table, key) {
        Some(value) => value.as_bool() == Some(true),
        None => false,
    }
}

// The whole number at a key, or 0.
pub(crate) fn whole_or_zero(table: &Table, key: &str) -> i64
    ensures { result ≡ whole_or_zero key.now (table_view table.now) }
{
    match whole_at(table, key) {
        Some(z) => z,
        None => 0,
    }
}

// The text at a key, if one is there.
pub(crate) fn text_at<'a>(table: &'a Table, key: &str) -> Option<&'a str>
    ensures { option_map (λ t. t.now) result ≡ text_at key.now (table_view table.now) }
{
    match value_at(table, key) {
        Some(value) => value.as_str(),
        None => None,
    }
}

// The text at a key, or none of it.
pub(crate) fn text_or_empty<'a>(table: &'a Table, key: &str) -> &'a str
    ensures { result.now ≡ text_or_empty key.now (table_view table.now) }
{
    match text_at(table, key) {
        Some(text) => text,
        None => "",
    }
}

// The table at a key, or one that is empty.
pub(crate) fn table_or_empty<'a>(table: &'a Table, key: &str, empty: &'a Table) -> &'a Table
    requires { table_view empty.now ≡ no_members }
    ensures { table_view result.now ≡ table_or_empty key.now (table_view table.now) }
{
    match value_at(table, key) {
        Some(value) => match value.as_table() {
            Some(inner) => inner,
            None => empty,
        },
        None => empty,
    }
}

fn array_at<'a>(table: &'a Table, key: &str) -> Option<&'a Array>
    ensures { option_map (λ a. array_view a.now) result ≡ array_at key.now (table_view table.now) }
{
    match value_at(table, key) {
        Some(value) => value.as_array(),
        None => None,
    }
}

// The items of the array at a key, or none.
pub(crate) fn items_or_none<'a>(table: &'a Table, key: &str) -> &'a [Value]
    ensures { items_view result.now ≡ items_or_none key.now (table_view table.now) }
{
    match array_at(table, key) {
        Some(items) => items.as_slice(),
        None => &[],
    }
}

// The number without its sign, if it is 0 to a limit.
pub(crate) fn up_to(limit: u64, z: i64) -> Option<u64>
    ensures { result ≡ (if is_up_to limit z then Some (nat_abs z) else None) }
{
    if z < 0 {
        return None;
    }
    let n = z.unsigned_abs();
    if n <= limit { Some(n) } else { None }
}

// The number at a key, which is 0 where there is none, if it is 0 to a limit.
pub(crate) fn number_up_to(table: &Table, key: &str, limit: u64) -> Option<u64>
    ensures { result ≡ (if is_up_to limit (whole_or_zero key.now (table_view table.now)) then Some (number_at key.now (table_view table.now)) else None) }
{
    up_to(limit, whole_or_zero(table, key))
}

// The same for a number of ns, which is below 2^62.
pub(crate) fn nano_at(table: &Table, key: &str) -> Option<Nano>
    ensures { result ≡ (if is_up_to (nano_limit - 1) (whole_or_zero key.now (table_view table.now)) then Some (number_at key.now (table_view table.now)) else None) }
{
    match number_up_to(table, key, NANO_LIMIT - 1) {
        Some(n) => Nano::new(n),
        None => None,
    }
}

// The number of ns at a key, if one is there, where that is below 2^62.
pub(crate) fn optional_nano(table: &Table, key: &str) -> Option<Option<Nano>>
    ensures { result ≡ (if is_up_to (nano_limit - 1) (whole_or_zero key.now (table_view table.now)) then Some (optional_number key.now (table_view table.now)) else None) }
{
    let Some(number) = nano_at(table, key) else {
        return None;
    };
    match whole_at(table, key) {
        Some(_) => Some(Some(number)),
        None => Some(None),
    }
}
