//! A part of a pickle in two bytes.

ghost use Rattle.std.specs.Prelude.{◌≡◌, ◌<◌, ◌≤◌, ◌+◌, ◌^◌, IfSome, ltb, ℕ};
ghost use Rattle.pkopt.specs.Private.Places.{end_of, place_behind};
ghost use Rattle.pkopt.specs.Private.Packing.{fixed, long_part, part_with, unpacked};

use crate::place::{Part, Place};
use pkops::Op;
use std::marker::Model;

/// A MEMOIZE.
const MEMOIZE: u8 = 0;
/// A BINGET.
const BINGET: u8 = 1;
/// A LONG_BINPUT.
const LONG_BINPUT: u8 = 2;
/// A BINPUT.
const BINPUT: u8 = 3;
/// A LONG_BINGET.
const LONG_BINGET: u8 = 4;
/// A FRAME.
const FRAME: u8 = 5;
/// A GET of no bytes, to which its length is added.
const GET: u8 = 8;
/// A PUT of no bytes, to which its length is added.
const PUT: u8 = 72;
/// A GET that is a long part.
const LONG_GET: u8 = 136;
/// A PUT that is a long part.
const LONG_PUT: u8 = 144;
/// Bytes that stay as they are, as a long part.
const PLAIN: u8 = 152;

/// A part of a pickle. A pickle has millions of these, so it has only two bytes.
#[derive(Drop)]
pub(crate) struct PackedPart {
    /// The gap; in a long part, which has none, the lower byte of the length.
    gap: u8,
    /// The opcode. In a short line the length is added to it, in a long part the upper byte of the
    /// length.
    code: u8,
}

impl Model for PackedPart {
    ghost use Rattle.pkopt.specs.declared.place.Part.{Part};
    ghost use Rattle.pkopt.specs.Private.Packing.{unpacked};

    ghost Value = { Part };

    ghost view = { λ p. unpacked p.gap p.code };
}

impl PackedPart {
    /// The part in two bytes, if it fits. It does if its opcode has one length and it has that one,
    /// or if it is a line of less than 64 bytes, or of less than 2,048 without a gap.
    #[inline(always)]
    pub(crate) fn new(part: Part) -> Option<PackedPart>
        ensures { IfSome result (λ packed. packed ≡ part) }
    {
        match part.op {
            Op::BinGet => with_length(part, 2, BINGET),
            Op::Memoize => with_length(part, 1, MEMOIZE),
            Op::LongBinPut => with_length(part, 5, LONG_BINPUT),
            Op::BinPut => with_length(part, 2, BINPUT),
            Op::LongBinGet => with_length(part, 5, LONG_BINGET),
            Op::Frame => with_length(part, 9, FRAME),
            Op::Get => line(part, GET, LONG_GET),
            Op::Put => line(part, PUT, LONG_PUT),
            Op::Stop => long(part, PLAIN, 104),
            _ => None,
        }
    }

    /// The place of its instruction, if the part begins at this offset.
    #[inline(always)]
    pub(crate) fn place_behind(&self, from: u64) -> Place
        requires { end_of from self.now < 2 ^ 64 }
        ensures { result ≡ place_behind from self.now }
    {
        place_of(from, self.gap, self.code)
    }
}

/// A part whose opcode has one length.
#[inline(always)]
fn with_length(part: Part, size: u16, code: u8) -> Option<PackedPart>
    requires { unpacked part.gap code ≡ part_with part.gap size part.op }
    ensures { IfSome result (λ packed. packed ≡ part) }
{
    if part.size == size {
        Some(PackedPart {
            gap: part.gap,
            code,
        })
    } else {
        None
    }
}

/// A part that is a line.
#[inline(always)]
fn line(part: Part, short: u8, first: u8) -> Option<PackedPart>
    requires short { (gap size : ℕ) → size < 64
        → unpacked gap (short + size) ≡ part_with gap size part.op }
    requires long { (gap upper : ℕ) → upper < 8
        → unpacked gap (first + upper) ≡ long_part gap upper part.op }
    requires fits { short < 128 }
    requires room { first < 200 }
    ensures { IfSome result (λ packed. packed ≡ part) }
{
    if is_short(part.size) {
        return Some(PackedPart {
            gap: part.gap,
            code: short + part.size as u8,
        });
    }
    long(part, first, 8)
}

/// Whether a part that is a line of this length may have a gap.
#[inline(always)]
pub(crate) fn is_short(size: u16) -> bool
    ensures { result ≡ ltb size 64 }
{
    size < 64
}

/// A part without a gap, of which the length takes two bytes.
#[inline(never)]
fn long(part: Part, first: u8, most: u8) -> Option<PackedPart>
    requires long { (gap upper : ℕ) → upper < most
        → unpacked gap (first + upper) ≡ long_part gap upper part.op }
    requires fits { first + most < 257 }
    ensures { IfSome result (λ packed. packed ≡ part) }
{
    let [lower, upper] = part.size.to_le_bytes();
    if part.gap != 0 || upper >= most {
        return None;
    }
    Some(PackedPart {
        gap: lower,
        code: first + upper,
    })
}

/// The place of the instruction of the part that the two bytes stand for. The compiler would look
/// the length and the opcode up in tables, so the most frequent opcodes come first, each alone.
#[inline(always)]
fn place_of(from: u64, gap: u8, code: u8) -> Place
    requires { end_of from (unpacked gap code) < 2 ^ 64 }
    ensures { result ≡ place_behind from (unpacked gap code) }
{
    if code == BINGET {
        return behind(from, gap, 2, Op::BinGet);
    }
    if code == MEMOIZE {
        return behind(from, gap, 1, Op::Memoize);
    }
    if code == LONG_BINPUT {
        return behind(from, gap, 5, Op::LongBinPut);
    }
    if code >= GET && code < PUT {
        return behind(from, gap, code - GET, Op::Get);
    }
    if code >= PUT && code < LONG_GET {
        return behind(from, gap, code - PUT, Op::Put);
    }
    unpack(gap, code).place_behind(from)
}

/// The place of an instruction after a gap, from its length and opcode.
#[inline(always)]
fn behind(from: u64, gap: u8, size: u8, op: Op) -> Place
    requires { from + gap < 2 ^ 64 }
    ensures { result ≡ place_behind from (part_with gap size op) }
{
    Place {
        at: from + u64::from(gap),
        size: u16::from(size),
        op,
    }
}

/// A part from its gap, length and opcode.
fn made(gap: u8, size: u8, op: Op) -> Part
    ensures { result ≡ part_with gap size op }
{
    Part {
        size: u16::from(size),
        gap,
        op,
    }
}

/// The part that the two bytes stand for.
#[inline(never)]
fn unpack(gap: u8, code: u8) -> Part
    ensures { result ≡ unpacked gap code }
{
    if code < GET {
        return unpack_with_length(gap, code);
    }
    if code < PUT {
        return made(gap, code - GET, Op::Get);
    }
    if code < LONG_GET {
        return made(gap, code - PUT, Op::Put);
    }
    unpack_long(gap, code)
}

/// The part of an opcode that has one length.
fn unpack_with_length(gap: u8, code: u8) -> Part
    ensures { result ≡ fixed gap code }
{
    match code {
        0 => made(gap, 1, Op::Memoize),
        1 => made(gap, 2, Op::BinGet),
        2 => made(gap, 5, Op::LongBinPut),
        3 => made(gap, 2, Op::BinPut),
        4 => made(gap, 5, Op::LongBinGet),
        5 => made(gap, 9, Op::Frame),
        _ => made(gap, 0, Op::Stop),
    }
}

/// The part of which the length takes two bytes.
fn unpack_long(gap: u8, code: u8) -> Part
    requires { 136 ≤ code }
    ensures { result ≡ unpacked gap code }
{
    if code < LONG_PUT {
        return sized(gap, code - LONG_GET, Op::Get);
    }
    if code < PLAIN {
        return sized(gap, code - LONG_PUT, Op::Put);
    }
    sized(gap, code - PLAIN, Op::Stop)
}

/// A part without a gap, from the bytes of its length.
fn sized(lower: u8, upper: u8, op: Op) -> Part
    ensures { result ≡ long_part lower upper op }
{
    Part {
        size: 256 * u16::from(upper) + u16::from(lower),
        gap: 0,
        op,
    }
}
