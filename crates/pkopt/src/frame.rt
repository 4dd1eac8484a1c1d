//! The front of a form that is inside a frame.

ghost use Rattle.std.specs.Prelude.{◌≡◌, ◌<◌, ◌≤◌, ◌^◌, [], IfOk, cond};
ghost use Rattle.pkopt.specs.Private.FrameBytes.{front_from, head_from};

use crate::measure::Measure;
use pkops::{Op, row};
use std::alloc::{AllocError, Global};

/// What stands in a form for the first bytes of the slim form.
#[derive(Drop)]
pub(crate) struct FormFront {
    /// The bytes in the form.
    pub bytes: Vec<u8>,
    /// For how many bytes of the slim form they stand.
    pub head: usize,
}

/// The number of bytes before the frame: two for a leading PROTO, otherwise 0.
fn head_length(measure: Measure) -> usize
    ensures is { result ≡ head_from measure }
    ensures fits { result ≤ measure.len }
    ensures short { result ≤ 2 }
{
    if measure.len >= 2 && measure.first == 0x80 {
        2
    } else {
        0
    }
}

/// A leading PROTO, then the FRAME around the other bytes of the slim form.
fn framed_front(alloc: Global, measure: Measure) -> Result<FormFront, AllocError>
    ensures bytes { IfOk result (λ front. front.bytes.items ≡ front_from measure) }
    ensures head { IfOk result (λ front. front.head ≡ head_from measure) }
    ensures fits { IfOk result (λ front. front.head ≤ measure.len) }
{
    let head = head_length(measure);
    let contents = measure.len - head as u64;
    let mut bytes = Vec::new(alloc);
    bytes.extend_from_slice(&[measure.first, measure.second][..head])?;
    bytes.push(row(Op::Frame).code)?;
    bytes.extend_from_slice(&contents.to_le_bytes())?;
    Ok(FormFront { bytes, head })
}

/// The front of a form, given the measure of the slim form. Without a frame it is empty.
pub(crate) fn front_of(
    alloc: Global,
    measure: Measure,
    framed: bool,
) -> Result<FormFront, AllocError>
    ensures bytes { IfOk result (λ front.
        front.bytes.items ≡ cond framed (front_from measure) []) }
    ensures head { IfOk result (λ front. front.head ≡ cond framed (head_from measure) 0) }
    ensures fits { IfOk result (λ front. front.head ≤ measure.len) }
    ensures small { IfOk result (λ _. measure.len < 2 ^ 64) }
{
    if framed {
        return framed_front(alloc, measure);
    }
    Ok(FormFront {
        bytes: Vec::new(alloc),
        head: 0,
    })
}
