//! Lengths of instructions and of their parts. Whoever finds instructions in bytes takes them from
//! here.

ghost use Rattle.std.specs.Prelude.{◌≡◌, ◌≤◌, ◌==◌, ◌||◌, SomeIff, false, length, position, true};
ghost use Rattle.pkops.specs.Admitted.{highest_protocol};
ghost use Rattle.pkops.specs.Lengths.{counted_head, end_of_line, head_length, searched};
ghost use Rattle.pkops.specs.Payloads.{is_passed};
ghost use Rattle.pkops.specs.Spelling.{layout_at};
ghost use Rattle.pkops.specs.declared.layout.Layout.TheVariants as layout;
ghost use Rattle.pkops.specs.declared.lengths.TheConstants.{HIGHEST_PROTOCOL, SEARCHED};

use crate::layout::Width;
use crate::lending::count_behind;
use crate::op::Op;

/// The highest protocol that is known.
pub const HIGHEST_PROTOCOL: u8 = 5;

/// How many bytes are searched at a time.
const PIECE: usize = 8;

/// The most bytes, the code included, that are searched for the ends of lines.
pub const SEARCHED: usize = 257;

/// The constants are those of the definitions.
pub fn constants_are_defined()
    ensures protocol { HIGHEST_PROTOCOL ≡ highest_protocol }
    ensures searched { SEARCHED ≡ searched }
{}

/// The offset of the first line feed.
pub fn end_of_line(bytes: &[u8]) -> Option<usize>
    ensures { result ≡ end_of_line bytes.now }
{
    end_at(b'\n', bytes)
}

/// The offset of the first line feed or `other` byte. It searches pieces of a length that the
/// compiler knows, since it unrolls only such a search.
#[inline(always)]
pub fn end_at(other: u8, bytes: &[u8]) -> Option<usize>
    ensures { result ≡ position (λ byte. byte == 10 || byte == other) bytes.now }
{
    let mut rest = bytes;
    'pieces: while rest.len() >= PIECE {
        match end_in(other, &rest[..PIECE]) {
            Some(end) => return Some(bytes.len() - rest.len() + end),
            None => {}
        }
        rest = &rest[PIECE..];
    }
    match end_in(other, rest) {
        Some(end) => Some(bytes.len() - rest.len() + end),
        None => None,
    }
}

/// `end_at` by one search.
#[inline(always)]
fn end_in(other: u8, bytes: &[u8]) -> Option<usize>
    ensures { result ≡ position (λ byte. byte == 10 || byte == other) bytes.now }
{
    bytes
        .iter()
        .position(|byte| *byte == b'\n' || *byte == other)
}

/// The length of the head in front of a payload: the code and the count.
pub fn head_length(width: Width) -> usize
    ensures { result ≡ head_length width }
{
    match width {
        Width::One => 2,
        Width::Four => 5,
        Width::Eight => 9,
    }
}

/// The length of the head in front of a payload, and the count in it. `None` unless the bytes hold
/// the whole head. The caller judges the count and looks for the payload, because a reader that has
/// limits compares the count with them first.
pub fn counted_head(width: Width, bytes: &[u8]) -> Option<(usize, u64)>
    ensures { SomeIff result (head_length width ≤ length bytes.now)
        (counted_head width bytes.now) }
{
    let head = head_length(width);
    if bytes.len() < head {
        return None;
    }
    Some((head, count_behind(width, bytes)))
}

/// The width of the count of an opcode whose payload may be skipped. All of these counts are
/// unsigned.
pub fn count_width(op: Op) -> Width
    requires { is_passed op ≡ true }
    ensures { layout_at op ≡ layout.Counted result false }
{
    match op {
        Op::ShortBinBytes => Width::One,
        Op::BinBytes => Width::Four,
        _ => Width::Eight,
    }
}
