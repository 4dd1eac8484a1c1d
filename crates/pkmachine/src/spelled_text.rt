//! The text that an instruction spells, as a string.
ghost use Rattle.pkmachine.specs.Runs.{text};
ghost use Rattle.pkops.specs.Inst.{instruction_of};
ghost use Rattle.pkops.specs.OldBytes.{old_bytes};
ghost use Rattle.std.specs.Prelude.{◌≡◌, [], IfOk, unwrap_or, encode_utf8_all, string_bytes};

use pkops::{Inst, old_bytes_of, text_of};
use std::alloc::{AllocError, Global};

/// The text that an instruction names.
pub fn text_spelled(alloc: Global, inst: &Inst<'_>) -> Result<String, AllocError>
    ensures { IfOk result (λ string. string_bytes string ≡ text (instruction_of inst.now)) }
{
    match text_of(alloc, inst)? {
        Some(text) => Ok(text),
        None => old_text(alloc, inst),
    }
}

/// A Python 2 string, with one character for each byte.
fn old_text(alloc: Global, inst: &Inst<'_>) -> Result<String, AllocError>
    ensures { IfOk result (λ string. string_bytes string
        ≡ encode_utf8_all (unwrap_or (old_bytes (instruction_of inst.now)) [])) }
{
    match old_bytes_of(alloc, inst)? {
        Some(bytes) => numbered_by(alloc, &bytes),
        None => Ok(String::new(alloc)),
    }
}

/// The characters with these numbers.
fn numbered_by(alloc: Global, bytes: &[u8]) -> Result<String, AllocError>
    ensures { IfOk result (λ text. string_bytes text ≡ encode_utf8_all bytes.now) }
{
    let mut text = String::new(alloc);
    'bytes: for byte in bytes {
        text.push(char::from(*byte))?;
    }
    Ok(text)
}
