//! The rules for list files, in the order in which they are checked.
ghost use Rattle.std.specs.Prelude.{◌≡◌, option_map};
ghost use Rattle.toml.specs.Data.{get_member};
ghost use Rattle.toml.specs.View.{array_view, table_view, view};
ghost use Rattle.pklist.specs.ListFile.{are_names, fault_of_document, imports_fault};
ghost use Rattle.pklist.specs.ListFile.{is_name_value, is_table_of_two, is_top_key};
ghost use Rattle.pklist.specs.ListFile.{is_two, keys_fault, module_fault, modules_fault};
ghost use Rattle.pklist.specs.ListFile.{limits_fault, rules_fault, substitutes_fault};
ghost use Rattle.pklist.specs.ListFile.{version_fault};

use crate::allow::costs::rules_fault;
use crate::allow::limits::limits_fault;
use crate::allow::substitutes::substitutes_fault;
use crate::allow::{AllowError, Where};
use toml::{Table, Value};

/// The first error in a document.
pub fn document_fault(document: &Table) -> Option<AllowError>
    ensures { result ≡ fault_of_document (table_view document.now) }
{
    let version = version_fault(value_at(document, "version"));
    if version.is_some() {
        return version;
    }
    let keys = keys_fault(document, is_two(value_at(document, "version")));
    if keys.is_some() {
        return keys;
    }
    let imports = imports_fault(value_at(document, "imports"));
    if imports.is_some() {
        return imports;
    }
    let limits = limits_fault(value_at(document, "limits"));
    if limits.is_some() {
        return limits;
    }
    let rules = rules_fault(value_at(document, "rules"));
    if rules.is_some() {
        return rules;
    }
    substitutes_fault(value_at(document, "substitutes"))
}

/// The value at a key.
pub fn value_at<'a>(table: &'a Table, key: &str) -> Option<&'a Value>
    ensures { option_map (λ v. view v.now) result ≡ get_member key.now (table_view table.now) }
{
    table.get(key)
}

fn version_fault(value: Option<&Value>) -> Option<AllowError>
    ensures { result ≡ version_fault (option_map (λ v. view v.now) value.entry) }
{
    match value {
        Some(Value::Integer(1)) => None,
        Some(Value::Integer(2)) => None,
        Some(Value::Integer(_)) => Some(AllowError::Version),
        _ => Some(AllowError::Shape(Where::Version)),
    }
}

/// Whether the version is 2, which allows limits, rules and substitutes.
fn is_two(version: Option<&Value>) -> bool
    ensures { result ≡ is_two (option_map (λ v. view v.now) version.entry) }
{
    match version {
        Some(Value::Integer(2)) => true,
        _ => false,
    }
}

fn keys_fault(document: &Table, limited: bool) -> Option<AllowError>
    ensures { result ≡ keys_fault limited (table_view document.now) }
{
    for (key, _value) in document {
        if !is_top_key(limited, key.as_str()) {
            return Some(AllowError::Shape(Where::TopKey));
        }
    }
    None
}

fn is_top_key(limited: bool, key: &str) -> bool
    ensures { result ≡ is_top_key limited key.now }
{
    key == "version" || key == "imports" || (limited && is_table_of_two(key))
}

/// Whether the key is that of a table beside `imports`.
fn is_table_of_two(key: &str) -> bool
    ensures { result ≡ is_table_of_two key.now }
{
    key == "limits" || key == "rules" || key == "substitutes"
}

fn imports_fault(value: Option<&Value>) -> Option<AllowError>
    ensures { result ≡ imports_fault (option_map (λ v. view v.now) value.entry) }
{
    match value {
        Some(Value::Table(imports)) => modules_fault(imports),
        _ => Some(AllowError::Shape(Where::Imports)),
    }
}

fn modules_fault(imports: &Table) -> Option<AllowError>
    ensures { result ≡ modules_fault (table_view imports.now) }
{
    for (module_name, names) in imports {
        let fault = module_fault(module_name.as_str(), names);
        if fault.is_some() {
            return fault;
        }
    }
    None
}

fn module_fault(module_name: &str, names: &Value) -> Option<AllowError>
    ensures { result ≡ module_fault module_name.now (view names.now) }
{
    match names {
        Value::Array(names) => {
            if module_name.is_empty() {
                Some(AllowError::Shape(Where::Module))
            } else if are_names(names) {
                None
            } else {
                Some(AllowError::Shape(Where::Name))
            }
        }
        _ => Some(AllowError::Shape(Where::Module)),
    }
}

#[tactic(auto, using(crate::proofs::ListFile::Items::are_names_step))]
fn are_names(values: &Vec<Value>) -> bool
    ensures { result ≡ are_names (array_view values.now) }
{
    for value in values {
        if !is_name(value) {
            return false;
        }
    }
    true
}

fn is_name(value: &Value) -> bool
    ensures { result ≡ is_name_value (view value.now) }
{
    match value {
        Value::String(text) => !text.is_empty(),
        _ => false,
    }
}
