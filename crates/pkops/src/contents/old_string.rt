//! Strings in quotes: the line of STRING.

ghost use Rattle.std.specs.Prelude.{◌≡◌, Some, None, IfOk, IfSome};
ghost use Rattle.std.specs.Option.{option_map};
ghost use Rattle.pkops.specs.RuleTests.{are_items, is_string_line};
ghost use Rattle.pkops.specs.OldBytes.{bytes_between, bytes_of_line, letter_byte};
ghost use Rattle.pkops.specs.Private.Places.{HoldsDigit, place_step};

use crate::contents::digit::hex_value;
use std::alloc::{AllocError, Global};

/// The state of a reader of a string in quotes.
#[derive(Clone, Copy)]
pub enum Place {
    /// Outside any escape.
    Outside,
    /// After a backslash.
    Behind,
    /// Before the first digit of a `\x` escape.
    High,
    /// Before the second digit; the first has this value.
    Low(u8),
}

/// Whether this is a line of STRING: printable ASCII with escapes, in quotes.
pub fn is_string_line(line: &[u8]) -> bool
    ensures { result ≡ is_string_line line.now }
{
    match line {
        [quote, inside @ .., last] => {
            matches!(quote, b'\'' | b'"') && last == quote && are_items(*quote, inside)
        }
        _ => false,
    }
}

/// The bytes that a line of STRING spells, or `None` if it is no such line. Fails only if an
/// allocation is refused.
pub fn read_string(alloc: Global, line: &[u8]) -> Result<Option<Vec<u8>>, AllocError>
    ensures { IfOk result (λ bytes. option_map (λ v. v.items) bytes ≡ bytes_of_line line.now) }
{
    match line {
        [quote, inside @ .., last] if matches!(quote, b'\'' | b'"') && last == quote => {
            read_items(alloc, *quote, inside)
        }
        _ => Ok(None),
    }
}

/// Whether the bytes are complete characters and escapes, without an unescaped `quote`.
fn are_items(quote: u8, inside: &[u8]) -> bool
    ensures { result ≡ are_items quote inside.now }
{
    let mut place = Place::Outside;
    'bytes: for byte in inside {
        let Some((next, _)) = step(quote, place, *byte) else {
            return false;
        };
        place = next;
    }
    matches!(place, Place::Outside)
}

/// The bytes that complete characters and escapes spell, or `None` for anything else.
fn read_items(alloc: Global, quote: u8, inside: &[u8]) -> Result<Option<Vec<u8>>, AllocError>
    ensures { IfOk result (λ bytes.
        option_map (λ v. v.items) bytes ≡ bytes_between quote inside.now) }
{
    let mut bytes = Vec::new(alloc);
    let mut place = Place::Outside;
    'bytes: for byte in inside {
        let Some((next, ended)) = step(quote, place, *byte) else {
            return Ok(None);
        };
        place = next;
        if let Some(ended) = ended {
            bytes.push(ended)?;
        }
    }
    match place {
        Place::Outside => Ok(Some(bytes)),
        _ => Ok(None),
    }
}

/// The next place after a byte, if the byte is allowed, and the byte that it completes.
fn step(quote: u8, place: Place, byte: u8) -> Option<(Place, Option<u8>)>
    requires { HoldsDigit place }
    ensures step { result ≡ place_step quote place byte }
    ensures small { IfSome result (λ next. HoldsDigit next.0) }
{
    match place {
        Place::Outside => match byte {
            b'\\' => Some((Place::Behind, None)),
            0x20..=0x7e if byte != quote => Some((Place::Outside, Some(byte))),
            _ => None,
        },
        Place::Behind => match byte {
            b'x' => Some((Place::High, None)),
            b'\\' | b'\'' | b'"' | b'n' | b'r' | b't' => {
                Some((Place::Outside, Some(letter_byte(byte))))
            }
            _ => None,
        },
        Place::High => match hex_value(byte) {
            Some(digit) => Some((Place::Low(digit), None)),
            None => None,
        },
        Place::Low(high) => match hex_value(byte) {
            Some(digit) => Some((Place::Outside, Some(high * 16 + digit))),
            None => None,
        },
    }
}

/// The byte that the letter of an escape spells.
fn letter_byte(letter: u8) -> u8
    ensures { result ≡ letter_byte letter }
{
    match letter {
        b'n' => b'\n',
        b'r' => b'\r',
        b't' => b'\t',
        _ => letter,
    }
}
