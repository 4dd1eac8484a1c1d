//! The instruction at the front of the bytes that a source has at hand.

ghost use Rattle.std.specs.Prelude.{◌≡◌, ◌≢◌, ◌<◌, ◌/◌, ◌%◌, IfSome, false, length, slice_index};
ghost use Rattle.std.specs.Prelude.{true};
ghost use Rattle.std.specs.Str.{IsUtf8};
ghost use Rattle.pkops.specs.Inst.{instruction_of};
ghost use Rattle.pkops.specs.Limits.{Bounds};
ghost use Rattle.pkops.specs.Payloads.{payload_limit};
ghost use Rattle.pkops.specs.Spelling.{layout_at};
ghost use Rattle.pkops.specs.declared.Layout.TheVariants as layout;
ghost use Rattle.pkops.specs.Table.{code_of};
ghost use Rattle.pkops.specs.declared.Op.{Op as SpecOp};
ghost use Rattle.pkops.specs.declared.Op.TheVariants as opcode;
ghost use Rattle.pkread.specs.AtHand.{IsLent};
ghost use Rattle.pkread.specs.Private.Arms.{HasCode, HasFixedLength, IsFront, IsInFront};
ghost use Rattle.pkread.specs.Private.Arms.{first_of, length_of};
ghost use Rattle.pkread.specs.Private.Judgement.{is_plain};

use crate::admission::{is_good, is_plain};
use crate::frequent_lines::frequent_line_length;
use pkops::laws::growth;
use pkops::lengths::{HIGHEST_PROTOCOL, SEARCHED, counted_head, end_of_line};
use pkops::{Arg, Inst, Layout, Limits, Op, Width, is_utf8, layout_of_op};

/// Above the length of any instruction of which only 257 bytes are searched.
const ABOVE: usize = 512;

/// An instruction at the front of some bytes. `split` is the length of the first of two lines,
/// otherwise 0.
#[derive(Clone, Copy, Debug)]
struct Front {
    op: Op,
    split: usize,
    length: usize,
}

/// An opcode and the number of bytes of its instructions, or 0 if they vary in length. STOP with 0
/// stands for what is never lent: STOP, FRAME, opcodes of which an argument may be refused or a
/// count be negative, and bytes that are no codes.
#[derive(Clone, Copy)]
struct Start {
    op: Op,
    length: u8,
}

/// The entry of the table for an opcode with this length, or for none.
macro_rules! entry {
    (_) => {
        Start {
            op: Op::Stop,
            length: 0,
        }
    };
    (($name:ident $length:literal)) => {
        Start {
            op: Op::$name,
            length: $length,
        }
    };
}

/// The table with these entries.
macro_rules! entries {
    ($($entry:tt)*) => {
        [$(entry!($entry)),*]
    };
}

/// The opcode and the length for each code. One table has both, so that one look at it is enough.
static STARTS: [Start; 256] = entries! {
    // 0x00
    _ _ _ _ _ _ _ _ _ _ _ _ _ _ _ _
    // 0x10
    _ _ _ _ _ _ _ _ _ _ _ _ _ _ _ _
    // 0x20
    _ _ _ _ _ _ _ _ (Mark 1) (EmptyTuple 1) _ _ _ _ _ _
    // 0x30
    (Pop 1) (PopMark 1) (Dup 1) _ _ _ _ _ _ _ _ _ _ _ _ _
    // 0x40
    _ _ (BinBytes 0) (ShortBinBytes 0) _ _ (Float 0) (BinFloat 9) _ (Int 0) (BinInt 5) (BinInt1 2)
    (Long 0) (BinInt2 3) (None 1) _
    // 0x50
    (PersId 0) (BinPersid 1) (Reduce 1) (String 0) _ (ShortBinString 0) (Unicode 0) _ (BinUnicode 0)
    _ _ _ _ (EmptyList 1) _ _
    // 0x60
    _ (Append 1) (Build 1) (Global 0) (Dict 1) (Appends 1) _ (Get 0) (BinGet 2) (Inst 0)
    (LongBinGet 5) _ (List 1) _ _ (Obj 1)
    // 0x70
    (Put 0) (BinPut 2) (LongBinPut 5) (SetItem 1) (Tuple 1) (SetItems 1) _ _ _ _ _ _ _ (EmptyDict 1)
    _ _
    // 0x80
    (Proto 0) (NewObj 1) _ _ _ (Tuple1 1) (Tuple2 1) (Tuple3 1) (NewTrue 1) (NewFalse 1) (Long1 0) _
    (ShortBinUnicode 0) (BinUnicode8 0) (BinBytes8 0) (EmptySet 1)
    // 0x90
    (AddItems 1) (FrozenSet 1) (NewObjEx 1) (StackGlobal 1) (Memoize 1) _ (ByteArray8 0)
    (NextBuffer 1) (ReadonlyBuffer 1) _ _ _ _ _ _ _
    // 0xa0
    _ _ _ _ _ _ _ _ _ _ _ _ _ _ _ _
    // 0xb0
    _ _ _ _ _ _ _ _ _ _ _ _ _ _ _ _
    // 0xc0
    _ _ _ _ _ _ _ _ _ _ _ _ _ _ _ _
    // 0xd0
    _ _ _ _ _ _ _ _ _ _ _ _ _ _ _ _
    // 0xe0
    _ _ _ _ _ _ _ _ _ _ _ _ _ _ _ _
    // 0xf0
    _ _ _ _ _ _ _ _ _ _ _ _ _ _ _ _
};

fn start_of(code: u8) -> Start
    ensures code { (result.op ≡ opcode.Stop → result.length ≢ 0) → code_of result.op ≡ code }
    ensures fixed { (op : SpecOp) → code_of op ≡ code → result.length ≢ 0
        → HasFixedLength op result.length }
{
    STARTS[usize::from(code)]
}

/// The instruction that the bytes begin with, lent from where it lies, if they hold all of it, its
/// payload is within the limit of its opcode, and its lines end in the first 257 bytes. Never STOP,
/// which ends a pickle, nor FRAME. `None` says nothing about the bytes.
#[inline(always)]
pub fn lend<'a>(bytes: &'a [u8], limits: &Limits) -> Option<Inst<'a>>
    ensures { IfSome result (λ inst. IsLent limits.now bytes.now (instruction_of inst)) }
{
    let Some(front) = front_of(bytes, limits) else {
        return None;
    };
    Some(Inst::spelled(front.op, front.split, &bytes[..front.length]))
}

/// The instruction that `lend` lends.
#[inline(always)]
fn front_of(bytes: &[u8], limits: &Limits) -> Option<Front>
    ensures { IfSome result (λ front. IsFront limits.now front.op front.split front.length
        bytes.now) }
{
    growth();
    if bytes.len() == 0 {
        return None;
    }
    let start = start_of(bytes[0]);
    let length = usize::from(start.length);
    if length == 0 {
        return varying_front(start.op, bytes, limits);
    }
    if length > bytes.len() {
        return None;
    }
    Some(Front {
        op: start.op,
        split: 0,
        length,
    })
}

/// Like `front_of`, for opcodes whose arguments vary in length. What a call returns is a number,
/// because it needs no stack slot then.
#[inline(always)]
fn varying_front(op: Op, bytes: &[u8], limits: &Limits) -> Option<Front>
    requires some { 0 < length bytes.now }
    requires code { HasCode op bytes.now }
    ensures { IfSome result (λ front. IsFront limits.now front.op front.split front.length
        bytes.now) }
{
    let lengths = varying_lengths(op, bytes, limits);
    if lengths == 0 {
        return None;
    }
    Some(front_with(op, lengths))
}

/// The front with these lengths. The opcodes with two lines have an arm each, because with one for
/// both LLVM spills registers at every instruction.
#[inline(always)]
fn front_with(op: Op, lengths: usize) -> Front
    ensures op { result.op ≡ op }
    ensures split { result.split ≡ first_of op lengths }
    ensures length { result.length ≡ length_of op lengths }
{
    match op {
        Op::Global => Front {
            op,
            split: first_of_two(lengths),
            length: lengths % ABOVE,
        },
        Op::Inst => Front {
            op,
            split: first_of_two(lengths),
            length: lengths % ABOVE,
        },
        _ => Front {
            op,
            split: 0,
            length: lengths,
        },
    }
}

/// Both lengths of an instruction with two lines, that of the first and that of all of it, in one
/// number. A function that returned two would need a stack slot.
#[inline(always)]
fn both_lengths(first: usize, length: usize) -> usize
    requires first { first < 512 }
    requires length { length < 512 }
    ensures first { result / 512 ≡ first }
    ensures length { result % 512 ≡ length }
{
    ABOVE * first + length
}

/// The first of `both_lengths`. Out of line, so that it isn't computed for other opcodes.
#[inline(never)]
fn first_of_two(lengths: usize) -> usize
    ensures { result ≡ lengths / 512 }
{
    lengths / ABOVE
}

/// The number of bytes of the instruction that the bytes begin with, if its argument varies in
/// length, or `both_lengths` if it has two lines, or 0 if `front_of` finds none. Short texts and
/// byte strings, the most frequent ones, come first.
#[inline(never)]
fn varying_lengths(op: Op, bytes: &[u8], limits: &Limits) -> usize
    requires some { 0 < length bytes.now }
    requires code { HasCode op bytes.now }
    ensures { result ≢ 0 → IsInFront limits.now op result bytes.now }
{
    if let Op::ShortBinUnicode = op {
        return counted_length(Op::ShortBinUnicode, Width::One, bytes, limits);
    }
    if let Op::ShortBinBytes = op {
        return counted_length(Op::ShortBinBytes, Width::One, bytes, limits);
    }
    if let Op::BinUnicode = op {
        return counted_length(Op::BinUnicode, Width::Four, bytes, limits);
    }
    other_lengths(op, bytes, limits)
}

/// `varying_lengths` of the opcodes that it doesn't handle itself. The frequent ones of protocol 0
/// come first, and need no stack here.
#[inline(never)]
fn other_lengths(op: Op, bytes: &[u8], limits: &Limits) -> usize
    requires some { 0 < length bytes.now }
    requires code { HasCode op bytes.now }
    ensures { result ≢ 0 → IsInFront limits.now op result bytes.now }
{
    let line = frequent_line_length(op, bytes);
    if line != 0 {
        return line;
    }
    rare_lengths(op, bytes, limits)
}

/// `varying_lengths` of any opcode.
#[inline(never)]
fn rare_lengths(op: Op, bytes: &[u8], limits: &Limits) -> usize
    requires some { 0 < length bytes.now }
    requires code { HasCode op bytes.now }
    ensures { result ≢ 0 → IsInFront limits.now op result bytes.now }
{
    if let Op::Proto = op {
        return proto_length(bytes);
    }
    match layout_of_op(op) {
        Layout::Counted(width, false) => counted_length(op, width, bytes, limits),
        Layout::Line(most) => line_length(op, most, bytes),
        Layout::Pair(most) => pair_lengths(op, most, bytes),
        _ => 0,
    }
}

/// The number of bytes of the PROTO that the bytes begin with, or 0 if they don't hold all of it or
/// its protocol is unknown.
fn proto_length(bytes: &[u8]) -> usize
    requires code { code_of opcode.Proto ≡ slice_index bytes.now 0 }
    ensures { (limits : Bounds) → result ≢ 0 → IsFront limits opcode.Proto 0 result bytes.now }
{
    if bytes.len() < 2 || bytes[1] > HIGHEST_PROTOCOL {
        return 0;
    }
    2
}

/// The limit on the payload of an opcode.
fn limit_of(op: Op, limits: &Limits) -> u64
    ensures { result ≡ payload_limit limits.now op }
{
    if op.passed() {
        limits.passed()
    } else {
        limits.counted()
    }
}

/// The number of bytes of the instruction with a payload that the bytes begin with, or 0 if they
/// don't hold all of it, it is not good, or its payload is above the limit.
#[inline(always)]
fn counted_length(op: Op, width: Width, bytes: &[u8], limits: &Limits) -> usize
    requires some { 0 < length bytes.now }
    requires code { code_of op ≡ slice_index bytes.now 0 }
    requires lay { layout_at op ≡ layout.Counted width false }
    ensures { result ≢ 0 → IsFront limits.now op 0 result bytes.now }
{
    growth();
    let Some((head, count)) = counted_head(width, bytes) else {
        return 0;
    };
    if count > limit_of(op, limits) || ((bytes.len() - head) as u64) < count {
        return 0;
    }
    let length = head + count as usize;
    if !takes_payload(op, &bytes[head..length]) {
        return 0;
    }
    length
}

/// Whether a payload is good for its opcode.
#[inline(always)]
fn takes_payload(op: Op, payload: &[u8]) -> bool
    ensures { result ≡ true → is_plain op ≡ false → IsUtf8 payload.now }
{
    is_plain(op) || is_utf8(payload)
}

/// The number of bytes of the instruction with one line that the bytes begin with, or 0 if the
/// first 257 don't hold all of it, or it is not good.
fn line_length(op: Op, most: usize, bytes: &[u8]) -> usize
    requires some { 0 < length bytes.now }
    requires code { code_of op ≡ slice_index bytes.now 0 }
    requires lay { layout_at op ≡ layout.Line most }
    ensures { (limits : Bounds) → result ≢ 0 → IsFront limits op 0 result bytes.now }
{
    let line = &bytes[1..bytes.len().min(SEARCHED)];
    let Some(end) = end_of_line(line) else {
        return 0;
    };
    if end > most || !is_good(op, Arg::Line(&line[..end])) {
        return 0;
    }
    end + 2
}

/// Like `line_length`, for an instruction with two lines, and returns `both_lengths`.
fn pair_lengths(op: Op, most: usize, bytes: &[u8]) -> usize
    requires some { 0 < length bytes.now }
    requires code { code_of op ≡ slice_index bytes.now 0 }
    requires lay { layout_at op ≡ layout.Pair most }
    ensures { (limits : Bounds) → result ≢ 0
        → IsFront limits op (result / 512) (result % 512) bytes.now }
{
    let lines = &bytes[1..bytes.len().min(SEARCHED)];
    let Some(first) = end_of_line(lines) else {
        return 0;
    };
    let line = &lines[first + 1..];
    let Some(second) = end_of_line(line) else {
        return 0;
    };
    if first > most || second > most {
        return 0;
    }
    if !is_good(op, Arg::Pair(&lines[..first], &line[..second])) {
        return 0;
    }
    both_lengths(first, first + second + 3)
}
