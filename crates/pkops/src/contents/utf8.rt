//! Payloads that are UTF-8.

ghost use Rattle.std.specs.Prelude.{MatchBool};
ghost use Rattle.std.specs.Str.{IsUtf8};

use crate::contents::name::{SHORT, is_ascii, is_short_ascii};

/// The length from which on `simdutf8` is faster than `std`.
const LONG: usize = 40;

/// The length from which on `simdutf8` is faster even for ASCII.
const VERY_LONG: usize = 256;

/// Whether the bytes are UTF-8. Most are ASCII, and short.
#[inline(always)]
pub fn is_utf8(bytes: &[u8]) -> bool
    ensures { MatchBool result (IsUtf8 bytes.now) (¬ (IsUtf8 bytes.now)) }
{
    if bytes.len() <= SHORT && is_short_ascii(bytes) {
        return true;
    }
    is_any_utf8(bytes)
}

/// Whether the bytes are UTF-8, which may be any. Long ones are checked without byte shuffles,
/// because the shipped libraries also run on processors that lack them. Cold, so that no register
/// is saved for this call where a text is short ASCII.
#[cold]
fn is_any_utf8(bytes: &[u8]) -> bool
    ensures { MatchBool result (IsUtf8 bytes.now) (¬ (IsUtf8 bytes.now)) }
{
    if bytes.len() < VERY_LONG && is_ascii(bytes) {
        return true;
    }
    if bytes.len() >= LONG {
        return simdutf8::is_utf8_baseline(bytes);
    }
    match str::from_utf8(bytes) {
        Ok(_) => true,
        Err(_) => false,
    }
}
