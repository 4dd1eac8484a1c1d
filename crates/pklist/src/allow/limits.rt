//! The limits of a list file.
ghost use Rattle.std.specs.Prelude.{◌≡◌, ◌≤◌, option_map};
ghost use Rattle.toml.specs.Data.{get_member};
ghost use Rattle.toml.specs.View.{table_view, view};
ghost use Rattle.pkops.specs.Limits.{AreWithin};
ghost use Rattle.pklist.specs.ListFile.{each_limit_fault, greatest_at, greatest_where, is_large};
ghost use Rattle.pklist.specs.ListFile.{is_limit, is_true_value, key_fault, large_fault};
ghost use Rattle.pklist.specs.ListFile.{is_unlimited, limit_fault};
ghost use Rattle.pklist.specs.ListFile.{limit_or, limits_among, limits_at, limits_fault};
ghost use Rattle.pklist.specs.ListFile.{limits_in, table_fault};

use crate::allow::costs::{greatest_cost, is_unlimited};
use crate::allow::rules::value_at;
use crate::allow::{AllowError, Where};
use pkops::Limits;
use toml::{Table, Value};

/// The first error in the table `limits`, if there is such a table.
pub fn limits_fault(limits: Option<&Value>) -> Option<AllowError>
    ensures { result ≡ limits_fault (option_map (λ v. view v.now) limits.entry) }
{
    match limits {
        None => None,
        Some(Value::Table(limits)) => table_fault(limits),
        Some(_) => Some(AllowError::Shape(Where::Limits)),
    }
}

/// The first error among the keys, in the order of their bytes.
fn table_fault(limits: &Table) -> Option<AllowError>
    ensures { result ≡ table_fault (table_view limits.now) }
{
    each_limit_fault(limits, &greatest_where(is_large(value_at(limits, "large"))))
}

fn large_fault(value: &Value) -> Option<AllowError>
    ensures { result ≡ large_fault (view value.now) }
{
    if is_true(value) {
        None
    } else {
        Some(AllowError::Shape(Where::Limit))
    }
}

/// Whether the limits are those for large data.
fn is_large(value: Option<&Value>) -> bool
    ensures { result ≡ is_large (option_map (λ v. view v.now) value.entry) }
{
    match value {
        Some(value) => is_true(value),
        None => false,
    }
}

fn is_true(value: &Value) -> bool
    ensures { result ≡ is_true_value (view value.now) }
{
    match value {
        Value::Boolean(value) => *value,
        _ => false,
    }
}

/// The greatest limits, for large data or not.
fn greatest_where(is_large: bool) -> Limits
    ensures { result ≡ greatest_where is_large }
{
    if is_large {
        Limits::GREATEST_LARGE
    } else {
        Limits::GREATEST
    }
}

fn each_limit_fault(limits: &Table, most: &Limits) -> Option<AllowError>
    ensures { result ≡ each_limit_fault most.now (table_view limits.now) }
{
    for (key, value) in limits {
        let fault = key_fault(most, key.as_str(), value);
        if fault.is_some() {
            return fault;
        }
    }
    None
}

fn key_fault(most: &Limits, key: &str, value: &Value) -> Option<AllowError>
    ensures { result ≡ key_fault most.now key.now (view value.now) }
{
    if key == "large" {
        large_fault(value)
    } else if is_unlimited(key, value) {
        None
    } else {
        limit_fault(greatest_at(most, key), value)
    }
}

fn limit_fault(most: Option<u64>, value: &Value) -> Option<AllowError>
    ensures { result ≡ limit_fault most (view value.now) }
{
    match most {
        Some(most) => {
            if is_limit(most, value) {
                None
            } else {
                Some(AllowError::Shape(Where::Limit))
            }
        }
        None => Some(AllowError::Shape(Where::LimitKey)),
    }
}

fn is_limit(most: u64, value: &Value) -> bool
    ensures { result ≡ is_limit most (view value.now) }
{
    match value {
        Value::Integer(number) => *number >= 0 && *number as u64 <= most,
        _ => false,
    }
}

/// The greatest value for a key, if the key names a limit.
fn greatest_at(most: &Limits, key: &str) -> Option<u64>
    ensures { result ≡ greatest_at most.now key.now }
{
    if key == "counted" {
        Some(most.counted())
    } else if key == "stack" {
        Some(most.stack())
    } else if key == "memo" {
        Some(most.memo())
    } else if key == "depth" {
        Some(most.depth())
    } else if key == "values" {
        Some(most.values())
    } else if key == "passed" {
        Some(most.passed())
    } else if key == "numbers" {
        Some(most.numbers())
    } else {
        greatest_cost(key)
    }
}

/// The limits of a document, from its table `limits`.
pub fn limits_in(limits: Option<&Value>) -> Limits
    ensures { result ≡ limits_in (option_map (λ v. view v.now) limits.entry) }
{
    match limits {
        Some(Value::Table(limits)) => limits_at(limits),
        _ => Limits::STANDARD,
    }
}

/// The limits in a table.
fn limits_at(limits: &Table) -> Limits
    ensures { result ≡ limits_at (table_view limits.now) }
{
    if is_large(value_at(limits, "large")) {
        limits_among(limits, &Limits::GREATEST_LARGE, &Limits::LARGE)
    } else {
        limits_among(limits, &Limits::GREATEST, &Limits::STANDARD)
    }
}

/// The limits in a table, each at most that in `most`; a missing one is that in `standard`.
fn limits_among(limits: &Table, most: &Limits, standard: &Limits) -> Limits
    requires { AreWithin standard.now most.now }
    ensures { result ≡ limits_among most.now standard.now (table_view limits.now) }
{
    let held = Limits::large(
        limit_at(limits, "counted", most.counted(), standard.counted()),
        limit_at(limits, "stack", most.stack(), standard.stack()),
        limit_at(limits, "memo", most.memo(), standard.memo()),
        limit_at(limits, "depth", most.depth(), standard.depth()),
        limit_at(limits, "values", most.values(), standard.values()),
    );
    let passed = limit_at(limits, "passed", most.passed(), standard.passed());
    let numbers = limit_at(limits, "numbers", most.numbers(), standard.numbers());
    let Some(held) = held else { unreachable!() };
    let Some(passing) = held.with_passed(passed) else {
        unreachable!()
    };
    let Some(limits) = passing.with_numbers(numbers) else {
        unreachable!()
    };
    limits
}

/// The limit at a key of a table; the standard one if it has none.
fn limit_at(limits: &Table, key: &str, most: u64, standard: u64) -> u64
    requires { standard ≤ most }
    ensures is { result ≡ limit_or most standard (get_member key.now (table_view limits.now)) }
    ensures most { result ≤ most }
{
    limit_or(most, standard, value_at(limits, key))
}

/// The limit in a value; the standard one if it has none.
fn limit_or(most: u64, standard: u64, value: Option<&Value>) -> u64
    requires { standard ≤ most }
    ensures is { result ≡ limit_or most standard (option_map (λ v. view v.now) value.entry) }
    ensures most { result ≤ most }
{
    match value {
        Some(Value::Integer(number)) => {
            if *number >= 0 && *number as u64 <= most {
                *number as u64
            } else {
                standard
            }
        }
        _ => standard,
    }
}
