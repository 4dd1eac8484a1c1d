//! The pairs of a list, for lookup in logarithmic time.
ghost use Rattle.std.specs.Prelude.{◌≡◌, IfOk, OnOk, Some, cond, true, option_map};
ghost use Rattle.toml.specs.View.{array_view, table_view, view};
ghost use Rattle.std.specs.BTreeMap.{get_by_text};
ghost use Rattle.std.specs.BTreeSet.{contains_text};
ghost use Rattle.std.specs.Str.{bytes_eq};
ghost use Rattle.toml.specs.Data.{table};
ghost use Rattle.pklist.specs.ListFile.{Text, has_name, is_this_text, items_have};
ghost use Rattle.pklist.specs.Private.ListIndex.{HasJust, Indexes, has_text};

use std::alloc::{AllocError, Global};
use std::collections::{BTreeMap, BTreeSet};
use toml::{Table, Value};

/// The names of each module.
pub type Index = BTreeMap<String, BTreeSet<String>>;

/// The index of the table `imports`.
pub fn index_of(alloc: Global, imports: Option<&Value>) -> Result<Index, AllocError>
    ensures { IfOk result (λ index. Indexes index (option_map (λ v. view v.now) imports.entry)) }
{
    match imports {
        Some(Value::Table(modules)) => index_modules(alloc, modules),
        _ => Ok(BTreeMap::new(alloc)),
    }
}

/// The index of the modules. If a module appears twice, the first one counts.
fn index_modules(alloc: Global, modules: &Table) -> Result<Index, AllocError>
    ensures { IfOk result (λ index. Indexes index (Some (table (table_view modules.now)))) }
{
    let mut index: Index = BTreeMap::new(alloc);
    for (module_name, names) in modules {
        if !index.contains_key(module_name.as_str()) {
            let set = names_of(alloc, names)?;
            put_module(alloc, &mut index, module_name.as_str(), set)?;
        }
    }
    Ok(index)
}

/// Adds a module with its names to the index.
fn put_module(
    alloc: Global,
    index: &mut Index,
    module_name: &str,
    set: BTreeSet<String>,
) -> Result<(), AllocError>
    ensures { (m : Text) → OnOk result (get_by_text index.new m
        ≡ cond (bytes_eq module_name.now m) (Some set) (get_by_text index.old m)) }
{
    let key = String::from_str(alloc, module_name)?;
    match index.insert(key, set) {
        Ok(_) => Ok(()),
        Err(_) => Err(AllocError),
    }
}

/// The names of a module.
fn names_of(alloc: Global, names: &Value) -> Result<BTreeSet<String>, AllocError>
    ensures { IfOk result (λ set. HasJust set (λ n. has_name n (Some (view names.now)))) }
{
    match names {
        Value::Array(values) => items_of(alloc, values),
        _ => Ok(BTreeSet::new(alloc)),
    }
}

/// The strings among the values of an array.
fn items_of(alloc: Global, values: &Vec<Value>) -> Result<BTreeSet<String>, AllocError>
    ensures { IfOk result (λ set. HasJust set (λ n. items_have n (array_view values.now))) }
{
    let mut set: BTreeSet<String> = BTreeSet::new(alloc);
    for value in values {
        put_text(alloc, &mut set, value)?;
    }
    Ok(set)
}

/// Adds a value to the set, if it is a string.
fn put_text(alloc: Global, set: &mut BTreeSet<String>, value: &Value) -> Result<(), AllocError>
    ensures { (n : Text) → OnOk result (contains_text set.new n
        ≡ cond (is_this_text n (view value.now)) true (contains_text set.old n)) }
{
    match value {
        Value::String(text) => put_name(alloc, set, text.as_str()),
        _ => Ok(()),
    }
}

/// Adds a name to the set.
fn put_name(alloc: Global, set: &mut BTreeSet<String>, name: &str) -> Result<(), AllocError>
    ensures { (n : Text) → OnOk result (contains_text set.new n
        ≡ cond (bytes_eq name.now n) true (contains_text set.old n)) }
{
    let copy = String::from_str(alloc, name)?;
    match set.insert(copy) {
        Ok(_) => Ok(()),
        Err(_) => Err(AllocError),
    }
}

/// Whether the index has the pair of this module and this name.
pub fn has_pair(index: &Index, module_name: &str, name: &str) -> bool
    ensures { result ≡ has_text (get_by_text index.now module_name.now) name.now }
{
    match index.get(module_name) {
        Some(set) => set.contains(name),
        None => false,
    }
}
