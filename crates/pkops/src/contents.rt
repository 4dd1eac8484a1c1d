//! What an argument may contain: a rule for each opcode, and a test of the rule.

ghost use Rattle.std.specs.Prelude.{◌≡◌, MatchBool};
ghost use Rattle.pkops.specs.Contents.{Keeps, rule_of};
ghost use Rattle.pkops.specs.RuleTests.{passes};
ghost use Rattle.pkops.specs.Spelling.{shown_arg};

use crate::arg::Arg;
use crate::contents::escapes::spells_text;
use crate::contents::float::is_float_line;
use crate::contents::name::{is_ascii, is_name};
use crate::contents::numeral::{is_int_line, is_long_line, is_memo_number};
use crate::contents::old_string::is_string_line;
use crate::contents::utf8::is_utf8;
use crate::op::Op;

pub mod digit;
pub mod escapes;
pub mod float;
pub mod name;
pub mod numeral;
pub mod old_string;
pub mod utf8;

/// A rule for the contents of an argument, beyond its layout. Rules belong to opcodes, not to
/// kinds: INT, GET and PUT share a kind.
#[derive(Clone, Copy, Debug, PartialEq, Eq)]
pub enum Rule {
    /// Any argument of the layout.
    Anything,
    /// INT: a line with `00`, `01` or a numeral. A numeral is digits without leading zeros, after
    /// an optional minus.
    Int,
    /// LONG: a line with a numeral and an optional `L` after it.
    Long,
    /// GET and PUT: a line with a memo number, a numeral from 0 to 4,294,967,295.
    MemoNumber,
    /// FLOAT: a line with an optional minus, then `inf`, `nan` or decimal digits with an optional
    /// fraction and an optional exponent.
    Float,
    /// STRING: a line with a string of printable ASCII and escapes, in quotes.
    OldString,
    /// UNICODE: a line of text. `\u` with four or `\U` with eight hexadecimal digits spells a code
    /// point.
    Escapes,
    /// SHORT_BINUNICODE, BINUNICODE and BINUNICODE8: a UTF-8 payload.
    Utf8,
    /// GLOBAL and INST: two lines, both ASCII and not empty.
    Names,
    /// PERSID: an ASCII line.
    Ascii,
}

impl Rule {
    /// The rule of an opcode.
    #[inline]
    pub fn of(op: Op) -> Rule
        ensures { result ≡ rule_of op }
    {
        match op {
            Op::Int => Rule::Int,
            Op::Long => Rule::Long,
            Op::Get | Op::Put => Rule::MemoNumber,
            Op::Float => Rule::Float,
            Op::String => Rule::OldString,
            Op::Unicode => Rule::Escapes,
            Op::ShortBinUnicode | Op::BinUnicode | Op::BinUnicode8 => Rule::Utf8,
            Op::Global | Op::Inst => Rule::Names,
            Op::PersId => Rule::Ascii,
            _ => Rule::Anything,
        }
    }
}

/// Whether the argument obeys the rule.
pub fn keeps(rule: Rule, arg: Arg<'_>) -> bool
    ensures { MatchBool result
        (Keeps rule (shown_arg arg.entry)) (¬ (Keeps rule (shown_arg arg.entry))) }
{
    passes(rule, arg)
}

fn passes(rule: Rule, arg: Arg<'_>) -> bool
    ensures { result ≡ passes rule (shown_arg arg.entry) }
{
    match (rule, arg) {
        (Rule::Anything, _) => true,
        (Rule::Int, Arg::Line(line)) => is_int_line(line),
        (Rule::Long, Arg::Line(line)) => is_long_line(line),
        (Rule::MemoNumber, Arg::Line(line)) => is_memo_number(line),
        (Rule::Float, Arg::Line(line)) => is_float_line(line),
        (Rule::OldString, Arg::Line(line)) => is_string_line(line),
        (Rule::Escapes, Arg::Line(line)) => spells_text(line),
        (Rule::Utf8, Arg::Counted(payload)) => is_utf8(payload),
        (Rule::Names, Arg::Pair(module, name)) => is_name(module) && is_name(name),
        (Rule::Ascii, Arg::Line(line)) => is_ascii(line),
        _ => false,
    }
}
