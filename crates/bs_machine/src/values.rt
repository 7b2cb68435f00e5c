// What stands at a key, and the number or list that it is.
ghost use Rattle.std.specs.Prelude.{◌≡◌, ◌≤◌, IfOk, IfSome, IsTrue, Some, option_map};
ghost use Rattle.toml.specs.Data.{get_member, as_integer};
ghost use Rattle.toml.specs.View.{view, table_view, array_view};
ghost use Rattle.bs_machine.specs.Values.{value_in, value_at, is_text, within, number_at, numbers_in, are_within, list_at};

use crate::fault::MachineFault;
use crate::key::MachineKey;
use std::alloc::{AllocError, Global};
use toml::value::Array;
use toml::{Table, Value};

pub(crate) fn value<'a>(root: &'a Table, key: MachineKey) -> Option<&'a Value>
    ensures { option_map (λ value. view value.now) result ≡ value_at key (table_view root.now) }
{
    find(root, key.table(), key.name())
}

fn find<'a>(root: &'a Table, table: &str, name: &str) -> Option<&'a Value>
    ensures { option_map (λ value. view value.now) result ≡ value_in table.now name.now (table_view root.now) }
{
    match member(root, table) {
        Some(value) => match value.as_table() {
            Some(members) => member(members, name),
            None => None,
        },
        None => None,
    }
}

fn member<'a>(table: &'a Table, name: &str) -> Option<&'a Value>
    ensures { option_map (λ value. view value.now) result ≡ get_member name.now (table_view table.now) }
{
    table.get(name)
}

// Whether a key has this text.
pub(crate) fn says(root: &Table, key: MachineKey, text: &str) -> bool
    ensures { result ≡ is_text text.now (value_at key (table_view root.now)) }
{
    match value(root, key) {
        Some(value) => match value.as_str() {
            Some(said) => said == text,
            None => false,
        },
        None => false,
    }
}

// The whole number at a key, where it is from `low` to `high`.
pub(crate) fn number(
    root: &Table,
    key: MachineKey,
    low: u64,
    high: u64,
) -> Result<u64, MachineFault>
    ensures value { result ≡ number_at key low high (table_view root.now) }
    ensures range { IfOk result (λ n. (low ≤ n) × (n ≤ high)) }
{
    match value(root, key) {
        Some(value) => match value.as_integer() {
            Some(given) => match in_range(given, low, high) {
                Some(n) => Ok(n),
                None => Err(MachineFault::OutOfRange(key, Some(given))),
            },
            None => Err(MachineFault::OutOfRange(key, None)),
        },
        None => Err(MachineFault::OutOfRange(key, None)),
    }
}

// The same of a range below 2^32.
pub(crate) fn small_number(
    root: &Table,
    key: MachineKey,
    low: u32,
    high: u32,
) -> Result<u32, MachineFault>
    ensures value { result ≡ number_at key low high (table_view root.now) }
    ensures range { IfOk result (λ n. (low ≤ n) × (n ≤ high)) }
{
    let n = number(root, key, u64::from(low), u64::from(high))?;
    Ok(n as u32)
}

fn in_range(n: i64, low: u64, high: u64) -> Option<u64>
    ensures value { result ≡ within low high (Some n) }
    ensures range { IfSome result (λ m. (low ≤ m) × (m ≤ high)) }
{
    match u64::try_from(n) {
        Ok(n) if low <= n && n <= high => Some(n),
        _ => None,
    }
}

// The list at a key, where it is one of whole numbers from `low` to `high`.
pub(crate) fn list(
    alloc: Global,
    root: &Table,
    key: MachineKey,
    low: u32,
    high: u32,
) -> Result<Option<Vec<u32>>, AllocError>
    ensures value { IfOk result (λ list. option_map (λ v. v.items) list ≡ list_at key low high (table_view root.now)) }
    ensures range { IfOk result (λ list. IfSome list (λ v. IsTrue (are_within low high v.items))) }
{
    match value(root, key) {
        Some(value) => match value.as_array() {
            Some(items) => numbers(alloc, items, low, high),
            None => Ok(None),
        },
        None => Ok(None),
    }
}

fn numbers(
    alloc: Global,
    items: &Array,
    low: u32,
    high: u32,
) -> Result<Option<Vec<u32>>, AllocError>
    ensures value { IfOk result (λ list. option_map (λ v. v.items) list ≡ numbers_in low high (array_view items.now)) }
    ensures range { IfOk result (λ list. IfSome list (λ v. IsTrue (are_within low high v.items))) }
{
    let mut out = Vec::new(alloc);
    for value in items {
        match item(value, low, high) {
            Some(n) => out.push(n).map_err(|_| AllocError)?,
            None => return Ok(None),
        }
    }
    Ok(Some(out))
}

fn item(value: &Value, low: u32, high: u32) -> Option<u32>
    ensures value { result ≡ within low high (as_integer (view value.now)) }
    ensures range { IfSome result (λ n. (low ≤ n) × (n ≤ high)) }
{
    let n = in_range(value.as_integer()?, u64::from(low), u64::from(high))?;
    Some(n as u32)
}
