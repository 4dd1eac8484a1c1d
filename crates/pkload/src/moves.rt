//! Actions that look at no object.

ghost use Rattle.std.specs.Prelude.{◌≡◌, ◌⊎◌, Err, IsErr, OnErr, OnOk, Ok};
ghost use Rattle.pkstack.specs.Shape.{NoItem, NoMark, moved};
ghost use Rattle.pkload.specs.Unkept.{MayAdd};

use crate::halt::Halt;
use crate::memo::{self, MemoTable};
use crate::stack::Stack;
use pkstack::Move;

/// Removes the topmost entry.
fn pop(stack: &mut Stack, memo: &MemoTable) -> Result<(), Halt>
    ensures ok { OnOk result
        (moved Move.Pops 0 (record { entries = stack.old; memo = memo.now })
        ≡ Ok (record { entries = stack.new; memo = memo.now })) }
    ensures err { OnErr result (moved Move.Pops 0 (record { entries = stack.old; memo = memo.now })
        ≡ Err NoItem) }
{
    stack.pop()
}

/// Removes the topmost mark and everything above it.
fn pop_mark(stack: &mut Stack, memo: &MemoTable) -> Result<(), Halt>
    ensures ok { OnOk result
        (moved Move.PopsMark 0 (record { entries = stack.old; memo = memo.now })
        ≡ Ok (record { entries = stack.new; memo = memo.now })) }
    ensures err { OnErr result
        (moved Move.PopsMark 0 (record { entries = stack.old; memo = memo.now }) ≡ Err NoMark) }
{
    let _count = stack.drop_slice()?;
    Ok(())
}

/// Pushes the top again.
fn duplicate(stack: &mut Stack, memo: &MemoTable) -> Result<(), Halt>
    ensures { OnOk result
        (moved Move.Duplicates 0 (record { entries = stack.old; memo = memo.now })
        ≡ Ok (record { entries = stack.new; memo = memo.now })) }
{
    match stack.top() {
        Some(heft) => stack.push(heft),
        None => Err(Halt::Lost),
    }
}

/// Stores the top under a number.
#[inline(always)]
fn store(stack: &Stack, memo: &mut MemoTable, number: u32) -> Result<(), Halt>
    ensures ok { OnOk result
        (moved Move.Stores number (record { entries = stack.now; memo = memo.old })
        ≡ Ok (record { entries = stack.now; memo = memo.new })) }
    ensures err { OnErr result
        (MayAdd Move.Stores number (record { entries = stack.now; memo = memo.old })
        ⊎ IsErr (moved Move.Stores number (record { entries = stack.now; memo = memo.old }))) }
{
    match stack.top() {
        Some(heft) => memo::store(memo, number, heft),
        None => Err(Halt::Lost),
    }
}

/// Stores the top under the next number.
#[inline(always)]
fn store_next(stack: &Stack, memo: &mut MemoTable) -> Result<(), Halt>
    ensures ok { OnOk result
        (moved Move.StoresNext 0 (record { entries = stack.now; memo = memo.old })
        ≡ Ok (record { entries = stack.now; memo = memo.new })) }
    ensures err { OnErr result
        (MayAdd Move.StoresNext 0 (record { entries = stack.now; memo = memo.old })
        ⊎ IsErr (moved Move.StoresNext 0 (record { entries = stack.now; memo = memo.old }))) }
{
    let Some(heft) = stack.top() else {
        return Err(Halt::Lost);
    };
    match memo.store_next(heft) {
        Ok(()) => Ok(()),
        Err(_) => Err(Halt::OutOfMemory),
    }
}

/// Pushes the memo entry of a number.
#[inline(always)]
fn fetch(stack: &mut Stack, memo: &MemoTable, number: u32) -> Result<(), Halt>
    ensures { OnOk result
        (moved Move.Fetches number (record { entries = stack.old; memo = memo.now })
        ≡ Ok (record { entries = stack.new; memo = memo.now })) }
{
    match memo.get(number) {
        Some(heft) => stack.push(heft),
        None => Err(Halt::Lost),
    }
}

/// Applies a move.
#[inline(always)]
pub fn apply(stack: &mut Stack, memo: &mut MemoTable, what: Move, number: u32) -> Result<(), Halt>
    ensures ok { OnOk result
        (moved what number (record { entries = stack.old; memo = memo.old })
        ≡ Ok (record { entries = stack.new; memo = memo.new })) }
    ensures err { OnErr result
        (MayAdd what number (record { entries = stack.old; memo = memo.old })
        ⊎ IsErr (moved what number (record { entries = stack.old; memo = memo.old }))) }
{
    match what {
        Move::PushesMark => stack.push_mark(),
        Move::Pops => pop(stack, memo),
        Move::PopsMark => pop_mark(stack, memo),
        Move::Duplicates => duplicate(stack, memo),
        Move::Stores => store(stack, memo, number),
        Move::StoresNext => store_next(stack, memo),
        Move::Fetches => fetch(stack, memo, number),
        Move::NoOp => Ok(()),
        Move::Extends => Err(Halt::Lost),
    }
}
