//! The memory that loading takes.

ghost use Rattle.std.specs.List.{filter, list_all};
ghost use Rattle.std.specs.Prelude.{◌≡◌, ◌+◌, ◌*◌, ◌≤◌, IfErr, IfOk, length, ltb};
ghost use Rattle.pkops.specs.Inst.{instruction_of};
ghost use Rattle.pkload.specs.Memory.{argument_bytes, begins_character, character_width};
ghost use Rattle.pkload.specs.Memory.{held_memory, line_memory, move_memory, number_kept};
ghost use Rattle.pkload.specs.Memory.{set_memory, text_memory};
ghost use Rattle.pkload.specs.Private.Lost.{HasNoNumber, IsTooGreat, IsTooMuch};

use crate::halt::{Halt, plus};
use crate::memo::{self, MemoTable};
use pkops::{Arg, Inst, Op, is_ascii, spells_itself};
use pkstack::Move;

/// So much more than any memory that sums of some of them fit 64 bits.
pub const MOST: u64 = 1_125_899_906_842_624;

/// Whether all bytes are below this one.
fn are_below(bytes: &[u8], limit: u8) -> bool
    ensures { result ≡ list_all (λ byte. ltb byte limit) bytes.now }
{
    bytes.iter().all(|byte| *byte < limit)
}

/// The number of bytes that are the first of a character.
fn characters(bytes: &[u8]) -> usize
    ensures value { result ≡ length (filter begins_character bytes.now) }
    ensures small { result ≤ length bytes.now }
{
    bytes
        .iter()
        .filter(|byte| **byte < 128 || !(**byte < 192))
        .count()
}

/// The size of a text's characters: one, two or four bytes each.
fn character_width(bytes: &[u8]) -> u64
    ensures value { result ≡ character_width bytes.now }
    ensures small { result ≤ 4 }
{
    if are_below(bytes, 196) {
        return 1;
    }
    if are_below(bytes, 240) {
        return 2;
    }
    4
}

/// The memory of a text in UTF-8.
fn text_memory(bytes: &[u8]) -> u64
    requires { length bytes.now ≤ 1_125_899_906_842_624 }
    ensures value { result ≡ text_memory bytes.now }
    ensures small { result ≤ 9_007_199_254_740_992 }
{
    if is_ascii(bytes) {
        return 64 + bytes.len() as u64;
    }
    wide_memory(bytes)
}

/// The memory of a text in UTF-8 that isn't ASCII. Cold, so that no register is saved for this call
/// where a text is short ASCII.
#[cold]
fn wide_memory(bytes: &[u8]) -> u64
    requires { length bytes.now ≤ 1_125_899_906_842_624 }
    ensures value { result ≡ 88 + character_width bytes.now * length (filter begins_character
        bytes.now) }
    ensures small { result ≤ 9_007_199_254_740_992 }
{
    88 + character_width(bytes) * characters(bytes) as u64
}

/// The memory of a line of UNICODE, at most.
pub fn line_memory(line: &[u8]) -> u64
    requires { length line.now ≤ 1_125_899_906_842_624 }
    ensures value { result ≡ line_memory line.now }
    ensures small { result ≤ 9_007_199_254_740_992 }
{
    let size = line.len() as u64;
    if spells_itself(line) {
        return 64 + size;
    }
    88 + 4 * size
}

/// The memory of a set's table.
fn set_memory(least: u64, items: u64) -> u64
    requires least { least ≤ 128 }
    requires items { items ≤ 1_125_899_906_842_624 }
    ensures value { result ≡ set_memory least items }
    ensures small { result ≤ 162_129_586_585_337_984 }
{
    if items > 4 {
        144 * items
    } else {
        least + 8 * items
    }
}

/// The memory of an object with so many operands, or what they add to their receiver.
fn held_memory(op: Op, count: u64) -> u64
    requires { count ≤ 1_125_899_906_842_624 }
    ensures value { result ≡ held_memory op count }
    ensures small { result ≤ 162_129_586_585_338_224 }
{
    match op {
        Op::Tuple | Op::Tuple1 | Op::Tuple2 | Op::Tuple3 => 64 + 8 * count,
        Op::List => 80 + 8 * count,
        Op::Dict => { if count > 0 { 256 + 48 * count } else { 80 } }
        Op::FrozenSet => 240 + set_memory(0, count),
        Op::Append => 32,
        Op::Appends => 24 * count,
        Op::SetItem => 176,
        Op::SetItems => 128 + 48 * count,
        Op::AddItems => set_memory(128, count.saturating_sub(1)),
        _ => 0,
    }
}

/// The bytes in the line or payload of an instruction.
#[inline(always)]
pub fn argument_bytes<'a>(inst: &'a Inst<'_>) -> &'a [u8]
    ensures { result.now ≡ argument_bytes (instruction_of inst.now).arg }
{
    match inst.arg() {
        Arg::Line(line) => line,
        Arg::Counted(payload) => payload,
        _ => &[],
    }
}

/// The memory after an operation on so many objects.
pub fn after_operation(op: Op, count: u64, memory: u64) -> Result<u64, Halt>
    ensures ok { IfOk result (λ sum. sum ≡ memory + (16 + held_memory op count)) }
    ensures err { IfErr result (IsTooMuch count (memory + (16 + held_memory op count))) }
{
    if count > MOST {
        return Err(Halt::Lost);
    }
    plus(memory, 16 + held_memory(op, count))
}

/// The memory after an instruction that makes a text of these bytes.
pub fn after_text(bytes: &[u8], memory: u64) -> Result<u64, Halt>
    ensures ok { IfOk result (λ sum. sum ≡ memory + (16 + text_memory bytes.now)) }
    ensures err { IfErr result (IsTooMuch (length bytes.now)
        (memory + (16 + text_memory bytes.now))) }
{
    if bytes.len() as u64 > MOST {
        return Err(Halt::Lost);
    }
    plus(memory, 16 + text_memory(bytes))
}

/// The memory after STOP.
pub fn after_stop(memory: u64) -> Result<u64, Halt>
    ensures ok { IfOk result (λ sum. sum ≡ memory + 16) }
    ensures err { IfErr result (IsTooGreat (memory + 16)) }
{
    plus(memory, 16)
}

/// The memo number under which a move stores, otherwise 0.
#[inline(always)]
pub fn number_kept(what: Move, number: u32, memo: &MemoTable) -> Result<u32, Halt>
    ensures ok { IfOk result (λ kept. kept ≡ number_kept what number (length memo.now)) }
    ensures err { IfErr result (λ halt. (what ≡ Move.StoresNext) × HasNoNumber memo.now halt) }
{
    match what {
        Move::Stores => Ok(number),
        Move::StoresNext => memo::next_number(memo),
        _ => Ok(0),
    }
}

/// The memory after a move that stores under a number so far above the highest before.
#[inline(always)]
pub fn after_move(what: Move, grown: u32, memory: u64) -> Result<u64, Halt>
    ensures ok { IfOk result (λ sum. sum ≡ memory + move_memory what grown) }
    ensures err { IfErr result (IsTooGreat (memory + move_memory what grown)) }
{
    match what {
        Move::PushesMark => plus(memory, 32),
        Move::Stores | Move::StoresNext => plus(memory, 32 + 16 * u64::from(grown)),
        _ => plus(memory, 16),
    }
}
