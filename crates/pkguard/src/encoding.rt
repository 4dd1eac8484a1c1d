//! Writes pairs to the caller's buffer. They are written twice: first to an empty buffer, to count
//! the bytes they need, and then to the caller's, if it has room for them.
ghost use Rattle.std.specs.Prelude.{◌≡◌, ◌++◌, ℕ, List};
ghost use Rattle.pkimport.specs.Import.{import_shown};
ghost use Rattle.pkguard.specs.Encoding.{eight_bytes, encoded, encoded_all};
ghost use Rattle.pkguard.specs.Encoding.{encoded_text, wanted_by};
ghost use Rattle.pkguard.specs.Guard.{placed};
ghost use Rattle.pkguard.specs.Private.Written.{IsWritten};

use pkcheck::{Import, Imports};

/// Writes imports to the buffer if it has room for all of them, and returns the number of bytes
/// they need.
pub fn give_imports(imports: &Imports, room: &mut [u8]) -> u64
    ensures wanted { result ≡ wanted_by imports.now }
    ensures room { room.new ≡ placed (encoded_all imports.now) room.old }
{
    let wanted = put_imports(imports, &mut []);
    if wanted <= room.len() {
        put_imports(imports, room);
    }
    wanted as u64
}

/// Writes imports to the front of the buffer.
fn put_imports(imports: &Imports, room: &mut [u8]) -> usize
    ensures { IsWritten (encoded_all imports.now) room.old room.new result }
{
    let mut next = 0;
    for number in 0..imports.len() {
        let Some(import) = imports.get(number) else {
            unreachable!()
        };
        next = put_import(room, next, import);
    }
    next
}

/// Appends an import at offset `at`.
pub fn put_import(room: &mut [u8], at: usize, import: Import<'_>) -> usize
    ensures { (front before : List ℕ) → IsWritten front before room.old at
        → IsWritten (front ++ encoded (import_shown import.entry)) before room.new result }
{
    match import {
        Import::Pair { module, name } => {
            let next = put_text(room, at, module);
            put_text(room, next, name)
        }
        Import::Unknown => {
            let next = put_number(room, at, usize::MAX);
            put_number(room, next, usize::MAX)
        }
    }
}

/// Appends a text at offset `at`.
fn put_text(room: &mut [u8], at: usize, text: &str) -> usize
    ensures { (front before : List ℕ) → IsWritten front before room.old at
        → IsWritten (front ++ encoded_text text.now) before room.new result }
{
    let next = put_number(room, at, text.len());
    put(room, next, text.as_bytes())
}

/// Appends a number at offset `at`.
fn put_number(room: &mut [u8], at: usize, number: usize) -> usize
    ensures { (front before : List ℕ) → IsWritten front before room.old at
        → IsWritten (front ++ eight_bytes number) before room.new result }
{
    let digits = number.to_le_bytes();
    put(room, at, &digits)
}

/// Appends bytes at offset `at`, if they fit. Returns the offset after them, at most the greatest
/// number.
fn put(room: &mut [u8], at: usize, bytes: &[u8]) -> usize
    ensures { (front before : List ℕ) → IsWritten front before room.old at
        → IsWritten (front ++ bytes.now) before room.new result }
{
    let next = at.saturating_add(bytes.len());
    if next <= room.len() {
        room[at..next].copy_from_slice(bytes);
    }
    next
}
