//! Decodes an argument whose layout is known, without searching for line ends.

ghost use Rattle.std.specs.Prelude.{◌≡◌, ◌+◌, ◌-◌, ◌≤◌, ℕ, Some, length, take, drop, true};
ghost use Rattle.std.specs.Str.Parse.{digits_value};
ghost use Rattle.byteorder.specs.Endian.{little_number};
ghost use Rattle.pkops.specs.Numerals.{IsMemoNumber};
ghost use Rattle.pkops.specs.Operands.{names_bool_by, names_memo_entry, number_said};
ghost use Rattle.pkops.specs.declared.op.Op.TheVariants as opcode;
ghost use Rattle.pkops.specs.Spelling.{shown_arg, size_of};
ghost use Rattle.pkops.specs.ArgumentIn.{HasArgument, HasGoodArgument, OfArgument};
ghost use Rattle.pkops.specs.KnownLayout.{count_in};

use crate::arg::Arg;
use crate::contents::numeral::{is_bool_line, number_of, value_of};
use crate::layout::{Layout, Width};
use crate::op::Op;
use crate::table::layout_of_op;
use byteorder::{ByteOrder, LittleEndian};

/// The argument in the bytes of a whole instruction of this opcode. `split` is the length of the
/// first of two lines. Inlined everywhere, so that callers need no stack slot for the argument.
#[inline(always)]
pub fn argument_of<'a>(op: Op, split: usize, bytes: &'a [u8]) -> Arg<'a>
    requires { HasArgument op split bytes.now }
    ensures { OfArgument op split bytes.now (λ arg. shown_arg result ≡ arg) }
{
    match layout_of_op(op) {
        Layout::Nothing => Arg::None,
        Layout::U1 => Arg::U1(bytes[1]),
        Layout::U2 => Arg::U2(LittleEndian::read_u16(&bytes[1..])),
        Layout::I4 => Arg::I4(u32_behind(bytes).cast_signed()),
        Layout::U4 => Arg::U4(u32_behind(bytes)),
        Layout::U8 => Arg::U8(LittleEndian::read_u64(&bytes[1..])),
        Layout::F8 => Arg::F8(behind(1, bytes)),
        Layout::Line(_) => Arg::Line(between(1, bytes.len() - 1, bytes)),
        Layout::Pair(_) => Arg::Pair(
            between(1, split + 1, bytes),
            between(split + 2, bytes.len() - 1, bytes),
        ),
        // With `head_length` here, LLVM's code for this match is longer.
        Layout::Counted(width, _) => Arg::Counted(behind(width.size() + 1, bytes)),
    }
}

/// `argument_of` for large callers: out of line, but for short texts, the most frequent of them.
#[inline(always)]
pub fn argument_lent<'a>(op: Op, split: usize, bytes: &'a [u8]) -> Arg<'a>
    requires { HasArgument op split bytes.now }
    ensures { OfArgument op split bytes.now (λ arg. shown_arg result ≡ arg) }
{
    match op {
        Op::ShortBinUnicode => Arg::Counted(behind(2, bytes)),
        _ => argument_of_slowly(op, split, bytes),
    }
}

/// `argument_of` out of line.
#[inline(never)]
fn argument_of_slowly<'a>(op: Op, split: usize, bytes: &'a [u8]) -> Arg<'a>
    requires { HasArgument op split bytes.now }
    ensures { OfArgument op split bytes.now (λ arg. shown_arg result ≡ arg) }
{
    argument_of(op, split, bytes)
}

/// The memo number after the code. It makes no `Arg`, because filling the stack slot of one would
/// cost more than the rest of such an instruction.
#[inline(always)]
pub fn memo_number_behind(op: Op, bytes: &[u8]) -> u32
    requires names { names_memo_entry op ≡ true }
    requires good { (split : ℕ) × HasGoodArgument op split bytes.now }
    ensures { (split : ℕ) →
        OfArgument op split bytes.now (λ arg. number_said arg ≡ Some result) }
{
    match op {
        Op::BinGet | Op::BinPut => u32::from(bytes[1]),
        Op::LongBinGet | Op::LongBinPut => u32_behind(bytes),
        _ => line_number_behind(bytes),
    }
}

/// Whether the line of an INT spells a bool.
pub fn is_bool_behind(bytes: &[u8]) -> bool
    requires { (split : ℕ) × HasArgument opcode.Int split bytes.now }
    ensures { (split : ℕ) → OfArgument opcode.Int split bytes.now
        (λ arg. result ≡ names_bool_by opcode.Int arg) }
{
    is_bool_line(between(1, bytes.len() - 1, bytes))
}

/// The number in the line after the code. It often has one digit.
#[inline(never)]
fn line_number_behind(bytes: &[u8]) -> u32
    requires some { 2 ≤ length bytes.now }
    requires number { IsMemoNumber (take (length bytes.now - 2) (drop 1 bytes.now)) }
    ensures { result ≡ digits_value 10 (take (length bytes.now - 2) (drop 1 bytes.now)) }
{
    if bytes.len() == 3 {
        return value_of(bytes[1]);
    }
    number_of(between(1, bytes.len() - 1, bytes))
}

/// The count after the code.
pub fn count_behind(width: Width, bytes: &[u8]) -> u64
    requires { size_of width + 1 ≤ length bytes.now }
    ensures { result ≡ count_in width (drop 1 bytes.now) }
{
    match width {
        Width::One => u64::from(bytes[1]),
        Width::Four => u64::from(u32_behind(bytes)),
        Width::Eight => LittleEndian::read_u64(&bytes[1..]),
    }
}

fn u32_behind(bytes: &[u8]) -> u32
    requires { 5 ≤ length bytes.now }
    ensures { result ≡ little_number 4 (drop 1 bytes.now) }
{
    LittleEndian::read_u32(&bytes[1..])
}

fn behind(n: usize, bytes: &[u8]) -> &[u8]
    requires { n ≤ length bytes.now }
    ensures { result.now ≡ drop n bytes.now }
{
    &bytes[n..]
}

fn between(from: usize, to: usize, bytes: &[u8]) -> &[u8]
    requires low { from ≤ to }
    requires high { to ≤ length bytes.now }
    ensures { result.now ≡ take (to - from) (drop from bytes.now) }
{
    &bytes[from..to]
}
