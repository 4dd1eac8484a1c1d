//! The moves: effects that look at no item.
ghost use Rattle.pkstack.specs.Faults.{IsFault, IsFaultOf};
ghost use Rattle.pkstack.specs.Shape.{moved, number_moved, slice, Entry, NoMark};
ghost use Rattle.pkops.specs.Inst.{instruction_of};
ghost use Rattle.pkops.specs.Operands.{memo_number};
ghost use Rattle.std.specs.Prelude.{◌≡◌, ◌≤◌, ◌∷◌, [], ℕ, List, length, IfErr, OnOk};

use crate::cells::Cell;
use crate::memo::{MemoTable, store};
use crate::stack::Stack;
use pkops::{Inst, Limits, Reason};

/// An effect that looks at no item.
#[derive(Clone, Copy)]
pub enum Move {
    /// Pushes a mark.
    PushesMark,
    /// Removes the topmost entry, a mark or an item.
    Pops,
    /// Removes the topmost mark and everything above it.
    PopsMark,
    /// Pushes the top of the stack again.
    Duplicates,
    /// Stores the top of the stack under the number that the instruction names.
    Stores,
    /// Stores the top of the stack under the number of entries of the memo.
    StoresNext,
    /// Pushes what is stored under the number that the instruction names.
    Fetches,
    /// Does nothing.
    NoOp,
    /// Looks for an extension code, which is always missing.
    Extends,
}

/// Pushes the top of the stack again.
#[inline(always)]
fn duplicate<V: Copy + Drop, C: Cell<V>>(
    stack: &mut Stack<V, C>,
    limits: &Limits,
) -> Result<(), Reason>
    ensures ok { (m : List (ℕ × V))
        → OnOk result (moved Move.Duplicates 0 (record { entries = stack.old; memo = m })
        ≡ Ok (record { entries = stack.new; memo = m })) }
    ensures room { OnOk result (length stack.new ≤ limits.now.stack) }
    ensures err { (m : List (ℕ × V)) → IfErr result (λ r. (stack.new ≡ stack.old)
        × IsFault limits.now 0 (moved Move.Duplicates 0
        (record { entries = stack.old; memo = m })) r) }
{
    let value = stack.top()?;
    stack.push(limits, value)
}

/// Stores the top of the stack under a number.
#[inline(always)]
fn remember<V: Copy + Drop, C: Cell<V>>(
    stack: &Stack<V, C>,
    memo: &mut MemoTable<V>,
    limits: &Limits,
    number: u64,
) -> Result<(), Reason>
    requires { length memo.old ≤ limits.now.memo }
    ensures ok { OnOk result (moved Move.Stores number
        (record { entries = stack.now; memo = memo.old })
        ≡ Ok (record { entries = stack.now; memo = memo.new })) }
    ensures room { OnOk result (length memo.new ≤ limits.now.memo) }
    ensures err { IfErr result (λ r. (memo.new ≡ memo.old)
        × IsFault limits.now 0 (moved Move.Stores number
        (record { entries = stack.now; memo = memo.old })) r) }
{
    let value = stack.top()?;
    store(memo, limits, number, value)
}

/// Like `remember`, but refuses a number above the limit.
#[inline(always)]
fn remember_at<V: Copy + Drop, C: Cell<V>>(
    stack: &Stack<V, C>,
    memo: &mut MemoTable<V>,
    limits: &Limits,
    number: u32,
) -> Result<(), Reason>
    requires { length memo.old ≤ limits.now.memo }
    ensures ok { OnOk result (moved Move.Stores number
        (record { entries = stack.now; memo = memo.old })
        ≡ Ok (record { entries = stack.now; memo = memo.new })) }
    ensures room { OnOk result (length memo.new ≤ limits.now.memo) }
    ensures number { OnOk result (number ≤ limits.now.numbers) }
    ensures err { IfErr result (λ r. (memo.new ≡ memo.old)
        × IsFaultOf Move.Stores limits.now number (moved Move.Stores number
        (record { entries = stack.now; memo = memo.old })) r) }
{
    if number as u64 > limits.numbers() {
        let _value = stack.top()?;
        return Err(Reason::TooLarge);
    }
    remember(stack, memo, limits, number as u64)
}

/// Pushes the item stored under a number.
#[inline(always)]
fn recall<V: Copy + Drop, C: Cell<V>>(
    stack: &mut Stack<V, C>,
    memo: &MemoTable<V>,
    limits: &Limits,
    number: u32,
) -> Result<(), Reason>
    ensures ok { OnOk result (moved Move.Fetches number
        (record { entries = stack.old; memo = memo.now })
        ≡ Ok (record { entries = stack.new; memo = memo.now })) }
    ensures room { OnOk result (length stack.new ≤ limits.now.stack) }
    ensures err { IfErr result (λ r. (stack.new ≡ stack.old)
        × IsFault limits.now 0 (moved Move.Fetches number
        (record { entries = stack.old; memo = memo.now })) r) }
{
    match memo.get(number) {
        Some(value) => stack.push(limits, value),
        None => Err(Reason::MissingMemo(number)),
    }
}

/// The memo number in the argument; 0 if there is none.
#[inline(always)]
fn number_of(inst: &Inst<'_>) -> u32
    ensures { result ≡ memo_number (instruction_of inst.now) }
{
    inst.memo_number().unwrap_or(0)
}

/// Removes the topmost entry. The separate function gives the result of the call a stack slot only
/// on this path, as `pop_mark` does.
#[inline(always)]
fn pop<V: Copy + Drop, C: Cell<V>>(stack: &mut Stack<V, C>) -> Result<(), Reason>
    ensures ok { OnOk result ((e : Entry V) × (stack.old ≡ e ∷ stack.new)) }
    ensures err { IfErr result (λ r. (stack.new ≡ stack.old) × (stack.old ≡ [])
        × (r ≡ Reason.MissingItem)) }
{
    stack.pop()?;
    Ok(())
}

/// Removes the topmost mark and everything above it.
#[inline(always)]
fn pop_mark<V: Copy + Drop, C: Cell<V>>(stack: &mut Stack<V, C>) -> Result<(), Reason>
    ensures fewer { length stack.new ≤ length stack.old }
    ensures ok { OnOk result ((above : List V) × (slice stack.old []
        ≡ Ok (record { operands = above; below = stack.new }))) }
    ensures err { IfErr result (λ r. (stack.new ≡ stack.old) × (slice stack.old [] ≡ Err NoMark)
        × (r ≡ Reason.MissingMark)) }
{
    stack.pop_mark()?;
    Ok(())
}

/// Applies a move of an instruction to the stack and the memo.
///
/// # Errors
///
/// The entry or the memo number that it needs isn't there, it exceeds a limit (`TooLarge`), or an
/// allocation was refused. The stack and the memo are as before then.
#[inline(always)]
pub fn apply<V: Copy + Drop, C: Cell<V>>(
    stack: &mut Stack<V, C>,
    memo: &mut MemoTable<V>,
    limits: &Limits,
    what: Move,
    inst: &Inst<'_>,
) -> Result<(), Reason>
    requires stack { length stack.old ≤ limits.now.stack }
    requires memo { length memo.old ≤ limits.now.memo }
    ensures ok { OnOk result (moved what (memo_number (instruction_of inst.now))
        (record { entries = stack.old; memo = memo.old })
        ≡ Ok (record { entries = stack.new; memo = memo.new })) }
    ensures room { OnOk result ((length stack.new ≤ limits.now.stack)
        × (length memo.new ≤ limits.now.memo)) }
    ensures number { OnOk result (number_moved what (memo_number (instruction_of inst.now))
        ≤ limits.now.numbers) }
    ensures err { IfErr result (λ r. (stack.new ≡ stack.old) × (memo.new ≡ memo.old)
        × IsFaultOf what limits.now (memo_number (instruction_of inst.now))
        (moved what (memo_number (instruction_of inst.now))
        (record { entries = stack.old; memo = memo.old })) r) }
{
    match what {
        Move::PushesMark => stack.push_mark(limits),
        Move::Pops => pop(stack),
        Move::PopsMark => pop_mark(stack),
        Move::Duplicates => duplicate(stack, limits),
        Move::Stores => remember_at(stack, memo, limits, number_of(inst)),
        Move::StoresNext => {
            let next = memo.len();
            remember(stack, memo, limits, next)
        }
        Move::Fetches => recall(stack, memo, limits, number_of(inst)),
        Move::NoOp => Ok(()),
        Move::Extends => Err(Reason::ExtensionCode),
    }
}
