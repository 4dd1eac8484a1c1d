//! Replaces the operands of an operation with its result.
ghost use Rattle.std.specs.Prelude.{◌≡◌, ◌<◌, ◌≤◌, ◌+◌, ◌++◌, length, IfErr, OnOk, IsSome, None};
ghost use Rattle.pkstack.specs.Places.{above, below};
ghost use Rattle.pkstack.specs.Shape.{front, marks_of, put};
ghost use Rattle.pkstack.specs.Faults.{WantsRoom};

use crate::domain::Item;
use crate::held::Held;
use crate::stack::Stack;
use pkops::{Limits, Reason};

/// Replaces the operands with a value. Without a value, it keeps the first operand and removes the
/// others. `marks` is the number of marks below the place.
#[inline(always)]
pub fn give<I: Item>(
    stack: &mut Stack<I>,
    limits: &Limits,
    place: usize,
    marks: usize,
    value: Option<Held<I>>,
) -> Result<(), Reason>
    requires at { place ≤ length stack.old }
    requires marks { marks ≡ marks_of (below place stack.old) }
    requires within { length stack.old ≤ limits.now.stack }
    requires there { value ≡ None → place < length stack.old }
    requires first { value ≡ None → below (place + 1) stack.old
        ≡ front (above place stack.old) ++ below place stack.old }
    ensures ok { OnOk result (stack.new
        ≡ put value (above place stack.old) ++ below place stack.old) }
    ensures room { OnOk result (length stack.new ≤ limits.now.stack) }
    ensures err { IfErr result (λ r. (stack.new ≡ stack.old) × IsSome value
        × WantsRoom limits.now.stack place r) }
{
    match value {
        Some(value) => stack.replace(limits, place, marks, value),
        None => {
            stack.end_with(place, marks);
            Ok(())
        }
    }
}
