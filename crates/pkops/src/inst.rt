//! One instruction.

ghost use Rattle.std.specs.Prelude.{◌≡◌, ◌≢◌, ℕ, MatchBool, Some, SomeIff, ◌+◌, ◌^◌, ◌<◌, ◌≤◌};
ghost use Rattle.std.specs.Prelude.{length, true};
ghost use Rattle.pkops.specs.Spelling.{IsLine, Suits, instruction, laid, layout_at, shown_arg};
ghost use Rattle.pkops.specs.Spelling.{spelling};
ghost use Rattle.pkops.specs.Behind.{argument_in, spelled_by, split_by};
ghost use Rattle.pkops.specs.ArgumentIn.{HasGoodArgument, OfArgument};
ghost use Rattle.pkops.specs.KnownLayout.{split_of};
ghost use Rattle.pkops.specs.Scans.{count_len};
ghost use Rattle.pkops.specs.Contents.{IsGood};
ghost use Rattle.pkops.specs.Operands.{names_bool_by, names_memo_entry, number_said};
ghost use Rattle.pkops.specs.declared.op.Op.TheVariants as opcode;

use crate::arg::Arg;
use crate::contents::{Rule, keeps, numeral};
use crate::form::Form;
use crate::layout::{Layout, is_count};
use crate::lending::{argument_lent, is_bool_behind, memo_number_behind};
use crate::lengths::HIGHEST_PROTOCOL;
use crate::op::Op;
use crate::table::kind;

/// An instruction: an opcode with an argument of its kind, whose contents obey the opcode's rule.
#[derive(Clone, Copy, Debug)]
pub struct Inst<'a> {
    op: Op,
    form: Form<'a>,
    ghost good: { ∥ IsGood (instruction op (argument_in op form)) ∥₁ },
    ghost spelled: { spelled_by op form ≡ spelling (instruction op (argument_in op form)) },
    ghost split: { split_by form ≡ split_of (argument_in op form) },
}

impl<'a> Inst<'a> {
    ghost use Rattle.std.specs.Prelude.{length};
    ghost use Rattle.std.specs.Option.{option_map};
    ghost use Rattle.pkops.specs.Admitted.{is_admitted};
    ghost use Rattle.pkops.specs.Inst.{instruction_of};
    ghost use Rattle.pkops.specs.Operands.{memo_entry, names_bool, pair_named};
    ghost use Rattle.pkops.specs.Spelling.{spelling};

    /// The instruction with this opcode and argument. `None` unless the argument has the opcode's
    /// kind, its lines are within their limits, its count fits the count field and its contents
    /// obey the opcode's rule.
    pub fn new(op: Op, arg: Arg<'a>) -> Option<Inst<'a>>
        ensures { SomeIff (option_map instruction_of result)
            (IsGood (instruction op (shown_arg arg.entry))) (instruction op (shown_arg arg.entry)) }
    {
        if suits(kind(op).layout(), arg) && keeps(Rule::of(op), arg) {
            Some(Inst {
                op,
                form: Form::Made(arg),
            })
        } else {
            None
        }
    }

    /// The instruction with this opcode and an argument of its kind. `None` unless the contents of
    /// the argument obey the opcode's rule.
    #[inline(always)]
    pub fn judged(op: Op, arg: Arg<'a>) -> Option<Inst<'a>>
        requires { Suits (layout_at op) (shown_arg arg) }
        ensures { SomeIff (option_map instruction_of result)
            (IsGood (instruction op (shown_arg arg.entry))) (instruction op (shown_arg arg.entry)) }
    {
        if keeps(Rule::of(op), arg) {
            Some(Inst {
                op,
                form: Form::Made(arg),
            })
        } else {
            None
        }
    }

    /// The instruction with this opcode and an argument that is known to be good for it.
    pub fn known(op: Op, arg: Arg<'a>) -> Inst<'a>
        requires { IsGood (instruction op (shown_arg arg)) }
        ensures { instruction_of result ≡ instruction op (shown_arg arg.entry) }
    {
        Inst {
            op,
            form: Form::Made(arg),
        }
    }

    /// The instruction that these bytes spell, which is known to be good. `split` is the length of
    /// the first of two lines, otherwise 0.
    pub fn spelled(op: Op, split: usize, bytes: &'a [u8]) -> Inst<'a>
        requires { HasGoodArgument op split bytes.now }
        ensures { OfArgument op split bytes.entry.now
            (λ arg. instruction_of result ≡ instruction op arg) }
    {
        Inst {
            op,
            form: Form::Spelled(split, bytes),
        }
    }

    /// The opcode.
    pub fn op(&self) -> Op
        ensures op { result ≡ (instruction_of self.now).op }
        ensures good { IsGood (instruction_of self.now) }
    {
        self.op
    }

    /// The argument.
    #[inline(always)]
    pub fn arg(&self) -> Arg<'a>
        ensures arg { shown_arg result ≡ (instruction_of self.now).arg }
        ensures good { IsGood (instruction_of self.now) }
    {
        match self.form {
            Form::Made(arg) => arg,
            Form::Spelled(split, bytes) => argument_lent(self.op, split, bytes),
        }
    }

    /// Whether both are the same opcode with the same argument, wherever they lie in memory.
    pub fn same(&self, other: &Inst<'_>) -> bool
        ensures { MatchBool result (instruction_of self.now ≡ instruction_of other.now)
            (instruction_of self.now ≢ instruction_of other.now) }
    {
        is_same_opcode(self.op, other.op) && is_same_argument(self.arg(), other.arg())
    }

    /// The number of bytes that spell the instruction.
    #[inline(always)]
    pub fn len(&self) -> u64
        ensures { result ≡ length (spelling (instruction_of self.now)) }
    {
        match self.form {
            Form::Made(arg) => 1 + argument_len(self.op, arg),
            Form::Spelled(_, bytes) => bytes.len() as u64,
        }
    }

    /// The memo number that GET, BINGET, LONG_BINGET, PUT, BINPUT or LONG_BINPUT names; `None` for
    /// any other opcode.
    #[inline(always)]
    pub fn memo_number(&self) -> Option<u32>
        ensures { result ≡ memo_entry (instruction_of self.now) }
    {
        if !names_memo_entry(self.op) {
            return None;
        }
        match self.form {
            Form::Made(arg) => Some(memo_number_in(self.op, arg)),
            Form::Spelled(_, bytes) => Some(memo_number_behind(self.op, bytes)),
        }
    }

    /// Whether the instruction is an INT that makes a bool, by `00` or `01`.
    pub fn names_bool(&self) -> bool
        ensures { result ≡ names_bool (instruction_of self.now) }
    {
        if !is_int(self.op) {
            return false;
        }
        match self.form {
            Form::Made(arg) => is_bool_in(arg),
            Form::Spelled(_, bytes) => is_bool_behind(bytes),
        }
    }

    /// The module and the name that GLOBAL or INST names; `None` for any other opcode.
    pub fn pair(&self) -> Option<(&'a str, &'a str)>
        ensures { option_map (λ pair. (pair.0.now, pair.1.now)) result
            ≡ pair_named (instruction_of self.now) }
    {
        let Arg::Pair(module, name) = self.arg() else {
            return None;
        };
        let Ok(module) = str::from_utf8(module) else {
            unreachable!()
        };
        let Ok(name) = str::from_utf8(name) else {
            unreachable!()
        };
        Some((module, name))
    }

    /// Whether a reader admits the instruction: anything except EXT1, EXT2, EXT4 and a PROTO above
    /// 5.
    pub fn admitted(&self) -> bool
        ensures { result ≡ is_admitted (instruction_of self.now) }
    {
        match (self.op, self.arg()) {
            (Op::Ext1 | Op::Ext2 | Op::Ext4, _) => false,
            (Op::Proto, Arg::U1(protocol)) => protocol <= HIGHEST_PROTOCOL,
            _ => true,
        }
    }
}

/// Whether both opcodes are the same.
fn is_same_opcode(first: Op, second: Op) -> bool
    ensures { MatchBool result (first ≡ second) (first ≢ second) }
{
    first == second
}

/// Whether both arguments are the same.
fn is_same_argument(first: Arg<'_>, second: Arg<'_>) -> bool
    ensures { MatchBool result (shown_arg first.entry ≡ shown_arg second.entry)
        (shown_arg first.entry ≢ shown_arg second.entry) }
{
    first == second
}

/// Whether the opcode's argument is a memo number.
fn names_memo_entry(op: Op) -> bool
    ensures { result ≡ names_memo_entry op }
{
    matches!(
        op,
        Op::Get | Op::BinGet | Op::LongBinGet | Op::Put | Op::BinPut | Op::LongBinPut
    )
}

/// Whether the opcode is INT.
fn is_int(op: Op) -> bool
    ensures { MatchBool result (op ≡ opcode.Int) (op ≢ opcode.Int) }
{
    matches!(op, Op::Int)
}

/// Whether an argument of INT spells a bool.
fn is_bool_in(arg: Arg<'_>) -> bool
    ensures { result ≡ names_bool_by opcode.Int (shown_arg arg.entry) }
{
    match arg {
        Arg::Line(line) => numeral::is_bool_line(line),
        _ => false,
    }
}

/// The memo number in an argument.
#[inline(never)]
fn memo_number_in(op: Op, arg: Arg<'_>) -> u32
    requires names { names_memo_entry op ≡ true }
    requires good { IsGood (instruction op (shown_arg arg)) }
    ensures { number_said (shown_arg arg.entry) ≡ Some result }
{
    match arg {
        Arg::U1(number) => u32::from(number),
        Arg::U4(number) => number,
        Arg::Line(digits) => numeral::number_of(digits),
        _ => unreachable!(),
    }
}

/// The length of an argument in bytes.
fn argument_len(op: Op, arg: Arg<'_>) -> u64
    requires { Suits (layout_at op) (shown_arg arg) }
    ensures is { result ≡ length (laid (layout_at op) (shown_arg arg.entry)) }
    ensures small { result < 2 ^ 63 + 8 }
{
    match arg {
        Arg::None => 0,
        Arg::U1(_) => 1,
        Arg::U2(_) => 2,
        Arg::I4(_) | Arg::U4(_) => 4,
        Arg::U8(_) | Arg::F8(_) => 8,
        Arg::Line(text) => line_len(text),
        Arg::Pair(first, second) => line_len(first) + line_len(second),
        Arg::Counted(payload) => count_len(op) + payload.len() as u64,
    }
}

/// The length of a line in bytes, with its line feed.
fn line_len(text: &[u8]) -> u64
    ensures is { result ≡ length text.now + 1 }
    ensures small { result ≤ 2 ^ 63 }
{
    text.len() as u64 + 1
}

/// The length of the opcode's count field in bytes; 0 if it has none.
fn count_len(op: Op) -> u64
    ensures is { result ≡ count_len (layout_at op) }
    ensures small { result ≤ 8 }
{
    match kind(op).layout() {
        Layout::Counted(width, _) => width.size() as u64,
        _ => 0,
    }
}

/// Whether the argument fits the layout.
fn suits(layout: Layout, arg: Arg<'_>) -> bool
    ensures { MatchBool result
        (Suits layout (shown_arg arg.entry)) (¬ (Suits layout (shown_arg arg.entry))) }
{
    match (layout, arg) {
        (Layout::Nothing, Arg::None)
        | (Layout::U1, Arg::U1(_))
        | (Layout::U2, Arg::U2(_))
        | (Layout::I4, Arg::I4(_))
        | (Layout::U4, Arg::U4(_))
        | (Layout::U8, Arg::U8(_)) => true,
        (Layout::F8, Arg::F8(bytes)) => bytes.len() == 8,
        (Layout::Line(most), Arg::Line(text)) => is_line(most, text),
        (Layout::Pair(most), Arg::Pair(first, second)) => {
            is_line(most, first) && is_line(most, second)
        }
        (Layout::Counted(width, signed), Arg::Counted(payload)) => {
            is_count(width, signed, payload.len() as u64)
        }
        _ => false,
    }
}

/// Whether the text is a line of at most `most` bytes.
fn is_line(most: usize, text: &[u8]) -> bool
    ensures { MatchBool result (IsLine most text.now) (¬ (IsLine most text.now)) }
{
    text.len() <= most && text.iter().all(|byte| *byte != b'\n')
}
