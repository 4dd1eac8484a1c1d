//! The bytes of a Python 2 string (type `str`).

ghost use Rattle.std.specs.Prelude.{◌≡◌, ℕ, List, IfOk, MatchOption};
ghost use Rattle.std.specs.Option.{option_map};
ghost use Rattle.pkops.specs.Inst.{instruction_of};
ghost use Rattle.pkops.specs.OldBytes.{NamesBytes, old_bytes};

use crate::arg::Arg;
use crate::contents::old_string::read_string;
use crate::inst::Inst;
use crate::op::Op;
use std::alloc::{AllocError, Global};

/// The bytes of a Python 2 string: the payload of BINSTRING and SHORT_BINSTRING, or what the line
/// of STRING spells between its quotes. There `\n` is 0a, `\r` 0d and `\t` 09, `\xHH` is the byte
/// of that number, and a backslash before `\`, `'` or `"` stands for that character. `None` for any
/// other opcode. Fails only if an allocation is refused.
pub fn old_bytes_of(alloc: Global, inst: &Inst<'_>) -> Result<Option<Vec<u8>>, AllocError>
    ensures named { IfOk result (λ bytes. MatchOption bytes
        ((named : List ℕ) → ¬ (NamesBytes (instruction_of inst.now) named))
        (λ vec. NamesBytes (instruction_of inst.now) vec.items)) }
    ensures bytes { IfOk result (λ bytes.
        option_map (λ vec. vec.items) bytes ≡ old_bytes (instruction_of inst.now)) }
{
    decoded(alloc, inst)
}

fn decoded(alloc: Global, inst: &Inst<'_>) -> Result<Option<Vec<u8>>, AllocError>
    ensures { IfOk result (λ bytes.
        option_map (λ vec. vec.items) bytes ≡ old_bytes (instruction_of inst.now)) }
{
    match (inst.op(), inst.arg()) {
        (Op::String, Arg::Line(line)) => read_string(alloc, line),
        (Op::BinString | Op::ShortBinString, Arg::Counted(payload)) => {
            Ok(Some(payload.to_vec(alloc)?))
        }
        _ => Ok(None),
    }
}
