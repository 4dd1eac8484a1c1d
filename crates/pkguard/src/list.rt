//! Reads a list file, and writes its pairs and its substitutes to the caller's buffer.
ghost use Rattle.std.specs.Prelude.{◌≡◌, ◌++◌, ℕ, List, IfOk, IfErr, Ok, OnOk, codes, option_map};
ghost use Rattle.std.specs.Str.{IsUtf8};
ghost use Rattle.pklist.specs.Allow.{document_of};
ghost use Rattle.pklist.specs.ListFile.{list_of};
ghost use Rattle.toml.specs.Data.{get_member};
ghost use Rattle.toml.specs.View.{array_view, table_view, view};
ghost use Rattle.pkguard.specs.Encoding.{encoded_all, wanted_by};
ghost use Rattle.pkguard.specs.Guard.{IsNoList, placed};
ghost use Rattle.pkguard.specs.Listed.{pair_in, pairs_among, pairs_at, pairs_in, pairs_of};
ghost use Rattle.pkguard.specs.Listed.{substitutes_at, substitutes_in};
ghost use Rattle.pkguard.specs.Private.Written.{IsWritten};

use crate::encoding::put_import;
use pkcheck::Import;
use pklist::{Allow, AllowError};
use std::alloc::Global;
use std::str;
use toml::{Table, Value};

/// Reads a list from the bytes of a list file. Bytes that are not UTF-8 are not TOML.
pub fn list_from(alloc: Global, bytes: &[u8]) -> Result<Allow, AllowError>
    ensures text { OnOk result (IsUtf8 bytes.now) }
    ensures list { IfOk result (λ list. list_of bytes.now ≡ Ok (document_of list)) }
    ensures fault { IfErr result (IsNoList bytes.now) }
{
    match str::from_utf8(bytes) {
        Ok(text) => match Allow::from_toml(alloc, text) {
            Ok(list) => Ok(list),
            Err(error) => Err(error),
        },
        Err(_) => Err(AllowError::Syntax),
    }
}

/// Writes the pairs of a list to the buffer if it has room for all of them, and returns the number
/// of bytes they need.
pub fn give_pairs(list: &Allow, room: &mut [u8]) -> u64
    ensures wanted { result
        ≡ wanted_by (pairs_in (get_member (codes "imports") (document_of list.now))) }
    ensures room { room.new
        ≡ placed (encoded_all (pairs_in (get_member (codes "imports") (document_of list.now))))
        room.old }
{
    let wanted = put_pairs(list.imports(), &mut []);
    if wanted <= room.len() {
        put_pairs(list.imports(), room);
    }
    wanted as u64
}

/// Writes the pairs of a table `imports` to the front of the buffer.
fn put_pairs(imports: Option<&Value>, room: &mut [u8]) -> usize
    ensures { IsWritten (encoded_all (pairs_in (option_map (λ v. view v.now) imports.entry)))
        room.old room.new result }
{
    match imports {
        Some(Value::Table(modules)) => put_modules(modules, room),
        _ => 0,
    }
}

/// Writes the substitutes of a list to the buffer if it has room for all of them, each after its
/// name, and returns the number of bytes they need.
pub fn give_substitutes(list: &Allow, room: &mut [u8]) -> u64
    ensures wanted { result
        ≡ wanted_by (substitutes_in (get_member (codes "substitutes") (document_of list.now))) }
    ensures room { room.new ≡ placed
        (encoded_all (substitutes_in (get_member (codes "substitutes") (document_of list.now))))
        room.old }
{
    let wanted = put_substitutes(list.substitutes(), &mut []);
    if wanted <= room.len() {
        put_substitutes(list.substitutes(), room);
    }
    wanted as u64
}

/// Writes a table `substitutes` to the front of the buffer.
fn put_substitutes(substitutes: Option<&Value>, room: &mut [u8]) -> usize
    ensures { IsWritten
        (encoded_all (substitutes_in (option_map (λ v. view v.now) substitutes.entry)))
        room.old room.new result }
{
    match substitutes {
        Some(Value::Table(substitutes)) => put_rows(substitutes, room),
        _ => 0,
    }
}

/// Writes each name and its substitute to the front of the buffer.
fn put_rows(substitutes: &Table, room: &mut [u8]) -> usize
    ensures { IsWritten (encoded_all (substitutes_at (table_view substitutes.now)))
        room.old room.new result }
{
    let mut next = 0;
    for (name, substitute) in substitutes {
        next = put_name(room, next, name.as_str(), substitute);
    }
    next
}

/// Writes the pairs of each module to the front of the buffer.
fn put_modules(modules: &Table, room: &mut [u8]) -> usize
    ensures { IsWritten (encoded_all (pairs_at (table_view modules.now)))
        room.old room.new result }
{
    let mut next = 0;
    for (module_name, names) in modules {
        next = put_names(room, next, module_name.as_str(), names);
    }
    next
}

/// Appends the pairs of a module at offset `at`.
fn put_names(room: &mut [u8], at: usize, module_name: &str, names: &Value) -> usize
    ensures { (front before : List ℕ) → IsWritten front before room.old at
        → IsWritten (front ++ encoded_all (pairs_of module_name.now (view names.now)))
        before room.new result }
{
    match names {
        Value::Array(values) => put_each(room, at, module_name, values),
        _ => at,
    }
}

/// Appends the pairs of a module and each of these names at offset `at`.
fn put_each(room: &mut [u8], at: usize, module_name: &str, names: &Vec<Value>) -> usize
    ensures { (front before : List ℕ) → IsWritten front before room.old at
        → IsWritten (front ++ encoded_all (pairs_among module_name.now (array_view names.now)))
        before room.new result }
{
    let mut next = at;
    for name in names {
        next = put_name(room, next, module_name, name);
    }
    next
}

/// Appends the pair of a module and a name at offset `at`.
fn put_name(room: &mut [u8], at: usize, module_name: &str, name: &Value) -> usize
    ensures { (front before : List ℕ) → IsWritten front before room.old at
        → IsWritten (front ++ encoded_all (pair_in module_name.now (view name.now)))
        before room.new result }
{
    match name {
        Value::String(name) => {
            let pair = Import::Pair {
                module: module_name,
                name: name.as_str(),
            };
            put_import(room, at, pair)
        }
        _ => at,
    }
}
