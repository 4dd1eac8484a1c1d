//! Spells memo instructions with new numbers.

ghost use Rattle.std.specs.Prelude.{◌≡◌, ◌<◌, ◌+◌, ◌++◌, ◌∷◌, [], OnOk, cond, ltb, true};
ghost use Rattle.std.specs.Fmt.{decimal};
ghost use Rattle.pkops.specs.Operands.{names_memo_entry};
ghost use Rattle.pkops.specs.Spelling.{Number, instruction, line_feed, spelling};
ghost use Rattle.pkops.specs.Table.{code_of};
ghost use Rattle.pkopt.specs.Private.Produced.{respelled};

use crate::sink::Sink;
use itoa::Buffer;
use pkops::Op;

/// The code byte of an opcode that names a memo entry.
#[inline(always)]
pub(crate) fn code(op: Op) -> u8
    requires { names_memo_entry op ≡ true }
    ensures { result ≡ code_of op }
{
    match op {
        Op::Put => 0x70,
        Op::BinPut => 0x71,
        Op::LongBinPut => 0x72,
        Op::Get => 0x67,
        Op::BinGet => 0x68,
        _ => 0x6a,
    }
}

/// The character of a digit.
#[inline(always)]
fn digit(value: u32) -> u8
    requires { value < 10 }
    ensures { result ≡ 48 + value }
{
    b'0' + value as u8
}

/// Gives a sink an opcode and a number as a line of digits. In most long pickles the numbers that
/// stay have one or two.
fn give_line<S: Sink>(sink: &mut S, op: Op, number: u32) -> Result<(), S::Error>
    requires { names_memo_entry op ≡ true }
    ensures { OnOk result (S.takes sink.old sink.new
        (code_of op ∷ (decimal number ++ line_feed ∷ []))) }
{
    if number < 10 {
        return sink.take(&[code(op), digit(number), b'\n']);
    }
    if number < 100 {
        return sink.take(&[code(op), digit(number / 10), digit(number % 10), b'\n']);
    }
    give_long_line(sink, op, number)
}

/// Gives a sink an opcode and a number as a line of digits, however many.
fn give_long_line<S: Sink>(sink: &mut S, op: Op, number: u32) -> Result<(), S::Error>
    requires { names_memo_entry op ≡ true }
    ensures { OnOk result (S.takes sink.old sink.new
        (code_of op ∷ (decimal number ++ line_feed ∷ []))) }
{
    let mut digits = Buffer::new();
    sink.take(&[code(op)])?;
    sink.take(digits.format(number).as_bytes())?;
    sink.take(b"\n")
}

/// Gives a sink the short opcode and a one-byte number, or the long one and a four-byte number.
#[inline(always)]
fn give_binary<S: Sink>(sink: &mut S, short: Op, long: Op, number: u32) -> Result<(), S::Error>
    requires short { names_memo_entry short ≡ true }
    requires long { names_memo_entry long ≡ true }
    ensures { OnOk result (S.takes sink.old sink.new (cond (ltb number 256)
        (spelling (instruction short (Number 1 number)))
        (spelling (instruction long (Number 4 number))))) }
{
    let [first, second, third, fourth] = number.to_le_bytes();
    if number < 256 {
        sink.take(&[code(short), first])
    } else {
        sink.take(&[code(long), first, second, third, fourth])
    }
}

/// Gives a sink a memo instruction with this number.
#[inline(always)]
pub(crate) fn give_renumbered<S: Sink>(sink: &mut S, op: Op, number: u32) -> Result<(), S::Error>
    ensures { OnOk result (S.takes sink.old sink.new (respelled op number)) }
{
    match op {
        Op::Put => give_line(sink, Op::Put, number),
        Op::Get => give_line(sink, Op::Get, number),
        Op::BinPut => give_binary(sink, Op::BinPut, Op::LongBinPut, number),
        Op::LongBinPut => give_binary(sink, Op::BinPut, Op::LongBinPut, number),
        Op::BinGet => give_binary(sink, Op::BinGet, Op::LongBinGet, number),
        Op::LongBinGet => give_binary(sink, Op::BinGet, Op::LongBinGet, number),
        _ => Ok(()),
    }
}
