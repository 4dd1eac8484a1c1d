//! The lines of GET, PUT, INT and UNICODE, the most frequent ones of protocol 0. One pass over such
//! a line both finds its end and judges it. Lines that it doesn't recognize are left to `front`.

ghost use Rattle.std.specs.Prelude.{◌≡◌, ◌≢◌, ◌<◌, ◌≤◌, false, length, not};
ghost use Rattle.std.specs.Prelude.{position, slice_index, true};
ghost use Rattle.std.specs.Char.{is_ascii_digit};
ghost use Rattle.pkops.specs.Limits.{Bounds};
ghost use Rattle.pkops.specs.declared.Rule.TheVariants as rule;
ghost use Rattle.pkread.specs.Private.Arms.{BeginsWithNumber, HasCode, HasLine, IsInFront};

use pkops::Op;
use pkops::laws::rules_are_computed;
use pkops::lengths::{SEARCHED, end_at};

/// The bytes of nine digits, which 32 bits always hold, and a line feed.
const NUMBER: usize = 10;

/// The number of bytes of the instruction that the bytes begin with, if it is a GET, PUT, INT or
/// UNICODE, it is good, its number has at most nine digits, and its text has no escape; otherwise
/// it may be 0.
#[inline(always)]
pub(crate) fn frequent_line_length(op: Op, bytes: &[u8]) -> usize
    requires some { 0 < length bytes.now }
    requires code { HasCode op bytes.now }
    ensures { (limits : Bounds) → result ≢ 0 → IsInFront limits op result bytes.now }
{
    if let Op::Get | Op::Put = op {
        return memo_line_length(bytes);
    }
    if let Op::Int = op {
        return int_line_length(bytes);
    }
    if let Op::Unicode = op {
        return text_line_length(bytes);
    }
    0
}

/// The number of bytes of an instruction with a memo number.
#[inline(always)]
fn memo_line_length(bytes: &[u8]) -> usize
    ensures { result ≢ 0 → HasLine rule.MemoNumber result bytes.now }
{
    rules_are_computed();
    if bytes.len() <= NUMBER {
        return 0;
    }
    let digits = number_length(&bytes[1..NUMBER + 1]);
    if digits == 0 {
        return 0;
    }
    digits + 2
}

/// The number of bytes of an INT.
#[inline(always)]
fn int_line_length(bytes: &[u8]) -> usize
    ensures { result ≢ 0 → HasLine rule.Int result bytes.now }
{
    if bytes.len() <= NUMBER + 1 {
        return 0;
    }
    match bytes[1] {
        b'0' => bool_line_length(bytes),
        b'-' => negative_line_length(bytes),
        _ => natural_line_length(bytes),
    }
}

/// The number of bytes of an INT that spells a bool.
#[inline(always)]
fn bool_line_length(bytes: &[u8]) -> usize
    requires room { 4 ≤ length bytes.now }
    requires zero { slice_index bytes.now 1 ≡ 48 }
    ensures { result ≢ 0 → HasLine rule.Int result bytes.now }
{
    if bytes[3] != b'\n' {
        return 0;
    }
    match bytes[2] {
        b'0' => 4,
        b'1' => 4,
        _ => 0,
    }
}

/// The number of bytes of an INT that is negative.
#[inline(always)]
fn negative_line_length(bytes: &[u8]) -> usize
    requires room { 12 ≤ length bytes.now }
    requires minus { slice_index bytes.now 1 ≡ 45 }
    ensures { result ≢ 0 → HasLine rule.Int result bytes.now }
{
    rules_are_computed();
    if bytes[2] == b'0' {
        return 0;
    }
    let digits = number_length(&bytes[2..NUMBER + 2]);
    if digits == 0 {
        return 0;
    }
    digits + 3
}

/// The number of bytes of an INT that is not negative.
#[inline(always)]
fn natural_line_length(bytes: &[u8]) -> usize
    requires room { 11 ≤ length bytes.now }
    ensures { result ≢ 0 → HasLine rule.Int result bytes.now }
{
    rules_are_computed();
    let digits = number_length(&bytes[1..NUMBER + 1]);
    if digits == 0 {
        return 0;
    }
    digits + 2
}

/// The number of digits that the bytes begin with, if they are those of a number without leading
/// zeros, and a line feed follows; otherwise 0.
#[inline(always)]
fn number_length(bytes: &[u8]) -> usize
    ensures { result ≢ 0 → BeginsWithNumber result bytes.now }
{
    let Some(end) = end_of_digits(bytes) else {
        return 0;
    };
    if bytes[end] != b'\n' || begins_with_needless_zero(bytes[0], end) {
        return 0;
    }
    end
}

/// Whether a number of several digits begins with zero.
#[inline(always)]
fn begins_with_needless_zero(first: u8, digits: usize) -> bool
    ensures { result ≡ false → first ≡ 48 → digits ≤ 1 }
{
    first == b'0' && digits > 1
}

/// The offset of the first byte that is no digit.
#[inline(always)]
fn end_of_digits(bytes: &[u8]) -> Option<usize>
    ensures { result ≡ position (λ byte. not (is_ascii_digit byte)) bytes.now }
{
    bytes.iter().position(|byte| !byte.is_ascii_digit())
}

/// The number of bytes of a UNICODE.
#[inline(always)]
fn text_line_length(bytes: &[u8]) -> usize
    requires some { 0 < length bytes.now }
    ensures { result ≢ 0 → HasLine rule.Escapes result bytes.now }
{
    let line = &bytes[1..bytes.len().min(SEARCHED)];
    let Some(end) = end_at(b'\\', line) else {
        return 0;
    };
    if line[end] != b'\n' {
        return 0;
    }
    end + 2
}
