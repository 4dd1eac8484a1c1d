//! Whether a Python 2 string is ASCII.
ghost use Rattle.std.specs.Prelude.{◌≡◌, [], IfOk, unwrap_or};
ghost use Rattle.std.specs.Char.{is_ascii};
ghost use Rattle.std.specs.List.{list_all};
ghost use Rattle.pkops.specs.Contents.{IsGood};
ghost use Rattle.pkops.specs.Inst.{instruction_of};
ghost use Rattle.pkops.specs.OldBytes.{old_bytes};
ghost use Rattle.pkops.specs.Spelling.{Counted, Line, instruction};
ghost use Rattle.pkmachine.specs.Private.Spelled.{IsSpelled};

use pkops::{Arg, Inst, Op, is_ascii, old_bytes_of};
use std::alloc::{AllocError, Global};

/// Whether the Python 2 string of an instruction is ASCII.
pub fn is_ascii_string(alloc: Global, inst: &Inst<'_>) -> Result<bool, AllocError>
    requires spells { IsSpelled (instruction_of inst.now).arg }
    ensures { IfOk result (λ answer. answer
        ≡ list_all is_ascii (unwrap_or (old_bytes (instruction_of inst.now)) [])) }
{
    match inst.arg() {
        Arg::Counted(payload) => is_ascii_payload(alloc, inst.op(), payload),
        Arg::Line(line) => is_ascii_line(alloc, inst.op(), line),
        _ => unreachable!(),
    }
}

/// Like `has_ascii`, for an opcode and its payload. A parameter of type `Inst` would force the
/// instruction into memory in every step.
fn is_ascii_payload(alloc: Global, op: Op, payload: &[u8]) -> Result<bool, AllocError>
    requires { IsGood (instruction op (Counted payload.now)) }
    ensures { IfOk result (λ answer. answer
        ≡ list_all is_ascii (unwrap_or (old_bytes (instruction op (Counted payload.now))) [])) }
{
    match op {
        Op::BinString => Ok(is_ascii(payload)),
        Op::ShortBinString => Ok(is_ascii(payload)),
        _ => has_ascii(alloc, &Inst::known(op, Arg::Counted(payload))),
    }
}

/// Like `has_ascii`, for an opcode and its line. See `is_ascii_payload`.
fn is_ascii_line(alloc: Global, op: Op, line: &[u8]) -> Result<bool, AllocError>
    requires { IsGood (instruction op (Line line.now)) }
    ensures { IfOk result (λ answer. answer
        ≡ list_all is_ascii (unwrap_or (old_bytes (instruction op (Line line.now))) [])) }
{
    has_ascii(alloc, &Inst::known(op, Arg::Line(line)))
}

/// Whether the Python 2 string of an instruction is ASCII. Decodes it first.
fn has_ascii(alloc: Global, inst: &Inst<'_>) -> Result<bool, AllocError>
    ensures { IfOk result (λ answer. answer
        ≡ list_all is_ascii (unwrap_or (old_bytes (instruction_of inst.now)) [])) }
{
    match old_bytes_of(alloc, inst)? {
        Some(bytes) => Ok(is_ascii(&bytes)),
        None => Ok(is_ascii(&[])),
    }
}
