//! The text that an instruction names.

ghost use Rattle.std.specs.Prelude.{◌≡◌, ℕ, List, IfOk, MatchOption, string_bytes};
ghost use Rattle.std.specs.Option.{option_map};
ghost use Rattle.pkops.specs.Inst.{instruction_of};
ghost use Rattle.pkops.specs.Text.{NamesText, text_bytes};

use crate::arg::Arg;
use crate::contents::Rule;
use crate::contents::escapes::read_text;
use crate::inst::Inst;
use std::alloc::{AllocError, Global};

/// The text of UNICODE, SHORT_BINUNICODE, BINUNICODE and BINUNICODE8; `None` for any other opcode.
/// Fails only if an allocation is refused.
pub fn text_of(alloc: Global, inst: &Inst<'_>) -> Result<Option<String>, AllocError>
    ensures named { IfOk result (λ text. MatchOption text
        ((bytes : List ℕ) → ¬ (NamesText (instruction_of inst.now) bytes))
        (λ string. NamesText (instruction_of inst.now) (string_bytes string))) }
    ensures bytes { IfOk result (λ text.
        option_map string_bytes text ≡ text_bytes (instruction_of inst.now)) }
{
    decoded(alloc, inst)
}

fn decoded(alloc: Global, inst: &Inst<'_>) -> Result<Option<String>, AllocError>
    ensures { IfOk result (λ text.
        option_map string_bytes text ≡ text_bytes (instruction_of inst.now)) }
{
    match (Rule::of(inst.op()), inst.arg()) {
        (Rule::Escapes, Arg::Line(line)) => read_text(alloc, line),
        (Rule::Utf8, Arg::Counted(payload)) => match str::from_utf8(payload) {
            Ok(text) => Ok(Some(text.to_string(alloc)?)),
            Err(_) => unreachable!(),
        },
        _ => Ok(None),
    }
}
