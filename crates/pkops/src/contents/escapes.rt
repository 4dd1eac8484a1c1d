//! Text with escapes: the line of UNICODE.

ghost use Rattle.std.specs.Prelude.{◌≡◌, Some, None, encode_utf8_all, IfOk, IfSome};
ghost use Rattle.std.specs.Prelude.{is_some, string_bytes};
ghost use Rattle.std.specs.Prelude.{true};
ghost use Rattle.std.specs.List.{list_all};
ghost use Rattle.std.specs.Option.{option_map};
ghost use Rattle.pkops.specs.Private.EscapeSteps.{IsPointSoFar, digit_step, escape_step};
ghost use Rattle.pkops.specs.Escapes.{is_plain_ascii, points_of};

use crate::contents::digit::hex_value;
use std::alloc::{AllocError, Global};

/// The state of a reader of text with escapes.
#[derive(Clone, Copy)]
pub enum State {
    /// Outside any escape.
    Outside,
    /// After a backslash.
    Behind,
    /// Inside an escape: how many digits are left, and the value of those read so far.
    Digits(u8, u32),
}

/// The text that a line spells, or `None` if it spells none. Fails only if an allocation is
/// refused.
pub fn read_text(alloc: Global, line: &[u8]) -> Result<Option<String>, AllocError>
    ensures { IfOk result (λ text.
        option_map string_bytes text ≡ option_map encode_utf8_all (points_of line.now)) }
{
    if spells_itself(line) {
        read_plain(alloc, line)
    } else {
        read_escaped(alloc, line)
    }
}

/// Whether a line of UNICODE is ASCII without a backslash, as most are. Such a line is its own text
/// (`laws::plain_line_is_text`). It looks at every byte, as `is_ascii` does.
pub fn spells_itself(line: &[u8]) -> bool
    ensures { result ≡ list_all is_plain_ascii line.now }
{
    line.iter().fold(true, |plain, byte| {
        plain & (byte.is_ascii() & (*byte != b'\\'))
    })
}

/// The text of a plain line.
fn read_plain(alloc: Global, line: &[u8]) -> Result<Option<String>, AllocError>
    requires { list_all is_plain_ascii line.now ≡ true }
    ensures { IfOk result (λ text. option_map string_bytes text ≡ Some line.now) }
{
    match str::from_utf8(line) {
        Ok(text) => Ok(Some(text.to_string(alloc)?)),
        Err(_) => unreachable!(),
    }
}

/// The text of any line, read byte by byte.
fn read_escaped(alloc: Global, line: &[u8]) -> Result<Option<String>, AllocError>
    ensures { IfOk result (λ text.
        option_map string_bytes text ≡ option_map encode_utf8_all (points_of line.now)) }
{
    let mut text = String::new(alloc);
    let mut state = State::Outside;
    'bytes: for byte in line {
        let Some((next, character)) = step(state, *byte) else {
            return Ok(None);
        };
        state = next;
        if let Some(character) = character {
            text.push(character)?;
        }
    }
    match state {
        State::Outside => Ok(Some(text)),
        _ => Ok(None),
    }
}

/// Whether a line spells a text.
pub fn spells_text(line: &[u8]) -> bool
    ensures { result ≡ is_some (points_of line.now) }
{
    spells_itself(line) || spells_escaped(line)
}

/// Whether any line spells a text, read byte by byte.
fn spells_escaped(line: &[u8]) -> bool
    ensures { result ≡ is_some (points_of line.now) }
{
    let mut state = State::Outside;
    'bytes: for byte in line {
        let Some((next, _)) = step(state, *byte) else {
            return false;
        };
        state = next;
    }
    matches!(state, State::Outside)
}

/// The next state after a byte, if the byte is allowed, and the character that it completes.
fn step(state: State, byte: u8) -> Option<(State, Option<char>)>
    requires { IsPointSoFar state }
    ensures step { result ≡ escape_step state byte }
    ensures small { IfSome result (λ next. IsPointSoFar next.0) }
{
    match state {
        State::Outside => match byte {
            b'\\' => Some((State::Behind, None)),
            _ => Some((State::Outside, Some(char::from(byte)))),
        },
        State::Behind => match byte {
            b'u' => Some((State::Digits(4, 0), None)),
            b'U' => Some((State::Digits(8, 0), None)),
            _ => None,
        },
        State::Digits(left, value) => {
            let Some(digit) = hex_value(byte) else {
                return None;
            };
            digit_step(left, value * 16 + u32::from(digit))
        }
    }
}

/// The next state after a digit that raises the value of an escape to this; `left` counts the
/// digits to come, this one included.
fn digit_step(left: u8, value: u32) -> Option<(State, Option<char>)>
    ensures step { result ≡ digit_step left value }
    ensures small { IfSome result (λ next. IsPointSoFar next.0) }
{
    if left < 2 {
        match char::from_u32(value) {
            Some(character) => Some((State::Outside, Some(character))),
            None => None,
        }
    } else if value < 0x11_0000 {
        Some((State::Digits(left - 1, value), None))
    } else {
        None
    }
}
