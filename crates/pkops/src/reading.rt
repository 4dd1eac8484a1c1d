//! Reading an argument from the front of bytes.

ghost use Rattle.std.specs.Prelude.{◌≡◌, ◌⊎◌, ◌≤◌, ◌<◌, ◌^◌, ℕ, List, IfOk, Ok};
ghost use Rattle.std.specs.Int.{cast_signed, w32};
ghost use Rattle.pkops.specs.Spelling.{Argument, Number, Signed, Line, Pair, Counted};
ghost use Rattle.pkops.specs.Spelling.{shown_arg};
ghost use Rattle.pkops.specs.Private.FirstFaults.{ReturnsAs, pair_at, ◌>>=◌ as ◌and_then◌};
ghost use Rattle.pkops.specs.Private.FirstFaults.{bytes_at};
ghost use Rattle.pkops.specs.Private.FirstFaults.{number_at, line_at, payload_at, arg_at};

use crate::arg::Arg;
use crate::fault::Fault;
use crate::layout::{Layout, Width, is_count};
use crate::lengths::end_of_line;
use byteorder::{ByteOrder, LittleEndian};

/// Why no argument was read.
#[derive(Clone, Copy)]
pub enum Unread {
    /// The bytes end before the argument does.
    Short,
    /// The bytes begin no argument, whatever follows them.
    Bad(Fault),
}

/// The first n bytes, and the bytes after them.
fn bytes(n: usize, from: &[u8]) -> Result<(&[u8], &[u8]), Unread>
    ensures { ReturnsAs (λ x. (x.0.now, x.1.now)) result (bytes_at n from.now) }
{
    if from.len() < n {
        return Err(Unread::Short);
    }
    Ok(from.split_at(n))
}

/// A little-endian number of `width` bytes, and the bytes after it.
fn number(width: usize, from: &[u8]) -> Result<(u64, &[u8]), Unread>
    requires low { 1 ≤ width }
    requires high { width ≤ 8 }
    ensures value { ReturnsAs (λ x. (x.0, x.1.now)) result (number_at width from.now) }
    ensures fits { IfOk result (λ x. x.0 < 256 ^ width) }
{
    if from.len() < width {
        return Err(Unread::Short);
    }
    Ok((LittleEndian::read_uint(from, width), &from[width..]))
}

/// A line without its line feed, and the bytes after it.
#[tactic(auto, unfolding(crate::specs::Private::FirstFaults::line_at))]
fn line(most: usize, from: &[u8]) -> Result<(&[u8], &[u8]), Unread>
    ensures { ReturnsAs (λ x. (x.0.now, x.1.now)) result (line_at most from.now) }
{
    match end_of_line(from) {
        Some(end) if end <= most => Ok((&from[..end], &from[end + 1..])),
        Some(_) => Err(Unread::Bad(Fault::TooLarge)),
        None if from.len() <= most => Err(Unread::Short),
        None => Err(Unread::Bad(Fault::TooLarge)),
    }
}

/// An unsigned number as an argument, and the bytes after it.
fn unsigned(width: usize, from: &[u8]) -> Result<(Arg<'_>, &[u8]), Unread>
    requires { (width ≡ 1) ⊎ (width ≡ 2) ⊎ (width ≡ 4) ⊎ (width ≡ 8) }
    ensures { ReturnsAs {Y = Argument × List ℕ} (λ x. (shown_arg x.0, x.1.now)) result
        (number_at width from.now and_then λ n. Ok (Number width n.0, n.1)) }
{
    let (n, rest) = number(width, from)?;
    let arg = match width {
        1 => Arg::U1(n as u8),
        2 => Arg::U2(n as u16),
        4 => Arg::U4(n as u32),
        _ => Arg::U8(n),
    };
    Ok((arg, rest))
}

/// A signed number of four bytes as an argument, and the bytes after it.
fn signed(from: &[u8]) -> Result<(Arg<'_>, &[u8]), Unread>
    ensures { ReturnsAs {Y = Argument × List ℕ} (λ x. (shown_arg x.0, x.1.now)) result
        (number_at 4 from.now and_then λ n. Ok (Signed (cast_signed w32 n.0), n.1)) }
{
    let (n, rest) = number(4, from)?;
    Ok((Arg::I4((n as u32).cast_signed()), rest))
}

/// A line as an argument, and the bytes after its line feed.
fn text(most: usize, from: &[u8]) -> Result<(Arg<'_>, &[u8]), Unread>
    ensures { ReturnsAs {Y = Argument × List ℕ} (λ x. (shown_arg x.0, x.1.now)) result
        (line_at most from.now and_then λ text. Ok (Line text.0, text.1)) }
{
    let (text, rest) = line(most, from)?;
    Ok((Arg::Line(text), rest))
}

/// Two lines as an argument, and the bytes after them.
fn pair(most: usize, from: &[u8]) -> Result<(Arg<'_>, &[u8]), Unread>
    ensures { ReturnsAs {Y = Argument × List ℕ} (λ x. (shown_arg x.0, x.1.now)) result
        (pair_at most from.now and_then λ lines. Ok (Pair lines.0.0 lines.0.1, lines.1)) }
{
    let (first, rest) = line(most, from)?;
    let (second, rest) = line(most, rest)?;
    Ok((Arg::Pair(first, second), rest))
}

/// A payload as an argument, and the bytes after it.
#[tactic(auto, unfolding(crate::specs::Private::FirstFaults::payload_at))]
fn counted<'a>(
    limit: u64,
    width: Width,
    signed: bool,
    from: &'a [u8],
) -> Result<(Arg<'a>, &'a [u8]), Unread>
    ensures { ReturnsAs {Y = Argument × List ℕ} (λ x. (shown_arg x.0, x.1.now)) result
        (payload_at limit width signed from.now and_then λ payload.
        Ok (Counted payload.0, payload.1)) }
{
    let (count, rest) = number(width.size(), from)?;
    if !is_count(width, signed, count) {
        return Err(Unread::Bad(Fault::BadArgument));
    }
    if count > limit {
        return Err(Unread::Bad(Fault::TooLarge));
    }
    let (payload, rest) = bytes(count as usize, rest)?;
    Ok((Arg::Counted(payload), rest))
}

/// An argument of the layout, and the bytes after it.
#[tactic(auto, unfolding(crate::specs::Private::FirstFaults::arg_at))]
pub fn argument<'a>(
    limit: u64,
    layout: Layout,
    from: &'a [u8],
) -> Result<(Arg<'a>, &'a [u8]), Unread>
    ensures { ReturnsAs (λ x. (shown_arg x.0, x.1.now)) result (arg_at limit layout from.now) }
{
    match layout {
        Layout::Nothing => Ok((Arg::None, from)),
        Layout::U1 => unsigned(1, from),
        Layout::U2 => unsigned(2, from),
        Layout::U4 => unsigned(4, from),
        Layout::U8 => unsigned(8, from),
        Layout::I4 => signed(from),
        Layout::F8 => {
            let (eight, rest) = bytes(8, from)?;
            Ok((Arg::F8(eight), rest))
        }
        Layout::Line(most) => text(most, from),
        Layout::Pair(most) => pair(most, from),
        Layout::Counted(width, is_signed) => counted(limit, width, is_signed, from),
    }
}
