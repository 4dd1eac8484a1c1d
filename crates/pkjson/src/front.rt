//! The instruction at the front of the bytes of an accepted pickle.

ghost use Rattle.std.specs.Prelude.{◌≡◌, ℕ, Bool, IfSome, Some};
ghost use Rattle.pkops.specs.Spelling.{layout_at};
ghost use Rattle.pkops.specs.declared.Layout.TheVariants as layout;
ghost use Rattle.pkops.specs.declared.Op.{Op as SpecOp};
ghost use Rattle.pkjson.specs.Private.Fronts.{HasFront, IsFront, Measures};

use pkops::laws::one_code;
use pkops::lengths::{counted_head, end_of_line};
use pkops::{Inst, Layout, Limits, Op, Scan, Width, layout_of_op, op_of_byte, scan};

/// The instruction at the front of the bytes, and the number of bytes that spell it.
pub fn whole_at_front<'a>(bytes: &'a [u8], limits: &Limits) -> Option<(Inst<'a>, usize)>
    requires { HasFront limits.now.counted bytes.now }
    ensures { IsFront limits.now.counted bytes.now result }
{
    if let Some((inst, length)) = spelled_at_front(bytes) {
        return Some((inst, length));
    }
    // Wrapped again, so that the result needs no stack slot.
    match scanned(bytes, limits) {
        Some((inst, length)) => Some((inst, length)),
        None => None,
    }
}

/// Like `whole_at_front`, but checks the contents.
fn scanned<'a>(bytes: &'a [u8], limits: &Limits) -> Option<(Inst<'a>, usize)>
    ensures { IsFront limits.now.counted bytes.now result }
{
    match scan(bytes, limits) {
        Scan::Whole(inst, length) => Some((inst, length)),
        Scan::More => None,
        Scan::Bad(_) => None,
    }
}

/// Like `whole_at_front`, for opcodes without two lines. An accepted pickle's arguments are good,
/// so only the length is found out.
fn spelled_at_front<'a>(bytes: &'a [u8]) -> Option<(Inst<'a>, usize)>
    requires { (limit : ℕ) × HasFront limit bytes.now }
    ensures { IfSome result (λ found. (limit : ℕ) → IsFront limit bytes.now (Some found)) }
{
    one_code();
    let [code, ..] = bytes else {
        return None;
    };
    let Some(op) = op_of_byte(*code) else {
        return None;
    };
    let Some(length) = spelled_length(op, bytes) else {
        return None;
    };
    if length > bytes.len() {
        return None;
    }
    Some((Inst::spelled(op, 0, &bytes[..length]), length))
}

/// The number of bytes of the instruction with this opcode at the front of the bytes, unless it may
/// have two lines.
fn spelled_length(op: Op, bytes: &[u8]) -> Option<usize>
    ensures { IfSome result (Measures op bytes.now) }
{
    match layout_of_op(op) {
        Layout::Nothing => Some(1),
        Layout::U1 => Some(2),
        Layout::U2 => Some(3),
        Layout::I4 => Some(5),
        Layout::U4 => Some(5),
        Layout::Line(_) => line_length(bytes),
        Layout::Counted(width, _) => counted_length(width, bytes),
        _ => None,
    }
}

/// The number of bytes of an instruction with one line.
fn line_length(bytes: &[u8]) -> Option<usize>
    ensures { IfSome result (λ n. (op : SpecOp) (most : ℕ) →
        layout_at op ≡ layout.Line most → Measures op bytes.now n) }
{
    if bytes.len() == 0 {
        return None;
    }
    let Some(end) = end_of_line(&bytes[1..]) else {
        return None;
    };
    Some(end + 2)
}

/// The number of bytes of an instruction with a count of this width and a payload.
fn counted_length(width: Width, bytes: &[u8]) -> Option<usize>
    ensures { IfSome result (λ n. (op : SpecOp) (signed : Bool) →
        layout_at op ≡ layout.Counted width signed → Measures op bytes.now n) }
{
    let Some((head, count)) = counted_head(width, bytes) else {
        return None;
    };
    if count > bytes.len() as u64 {
        return None;
    }
    Some(head + count as usize)
}
