//! Floats in decimal digits: the line of FLOAT.

ghost use Rattle.std.specs.Prelude.{◌≡◌, not, position};
ghost use Rattle.std.specs.Char.{is_ascii_digit};
ghost use Rattle.pkops.specs.RuleTests.{after_digits, is_after_whole, is_decimal};
ghost use Rattle.pkops.specs.RuleTests.{is_exponent_or_end, is_float_line, is_signed_digits};
ghost use Rattle.pkops.specs.RuleTests.{is_unsigned, starts_with_digit};

use crate::contents::numeral::are_digits;

/// Whether this is a line of FLOAT: an optional minus, then `inf`, `nan` or decimal digits.
pub fn is_float_line(line: &[u8]) -> bool
    ensures { result ≡ is_float_line line.now }
{
    match line {
        [b'-', rest @ ..] => is_unsigned(rest),
        _ => is_unsigned(line),
    }
}

fn is_unsigned(text: &[u8]) -> bool
    ensures { result ≡ is_unsigned text.now }
{
    matches!(text, [b'i', b'n', b'f'] | [b'n', b'a', b'n']) || is_decimal(text)
}

/// Whether the text is digits with an optional fraction and an optional exponent.
fn is_decimal(text: &[u8]) -> bool
    ensures { result ≡ is_decimal text.now }
{
    starts_with_digit(text) && is_after_whole(after_digits(text))
}

/// Whether the text may follow the digits before the point.
fn is_after_whole(text: &[u8]) -> bool
    ensures { result ≡ is_after_whole text.now }
{
    match text {
        [b'.', rest @ ..] => starts_with_digit(rest) && is_exponent_or_end(after_digits(rest)),
        _ => is_exponent_or_end(text),
    }
}

fn is_exponent_or_end(text: &[u8]) -> bool
    ensures { result ≡ is_exponent_or_end text.now }
{
    match text {
        [] => true,
        [b'e', rest @ ..] => is_signed_digits(rest),
        _ => false,
    }
}

fn is_signed_digits(text: &[u8]) -> bool
    ensures { result ≡ is_signed_digits text.now }
{
    match text {
        [b'+' | b'-', digits @ ..] => starts_with_digit(digits) && are_digits(digits),
        _ => false,
    }
}

fn starts_with_digit(text: &[u8]) -> bool
    ensures { result ≡ starts_with_digit text.now }
{
    match text {
        [first, ..] => first.is_ascii_digit(),
        [] => false,
    }
}

/// The bytes from the first non-digit on.
fn after_digits(text: &[u8]) -> &[u8]
    ensures { result.now ≡ after_digits text.now }
{
    match end_of_digits(text) {
        Some(end) => &text[end..],
        None => &[],
    }
}

fn end_of_digits(text: &[u8]) -> Option<usize>
    ensures { result ≡ position (λ byte. not (is_ascii_digit byte)) text.now }
{
    text.iter().position(|byte| !byte.is_ascii_digit())
}
