//! Actions that look at no object.

ghost use Rattle.std.specs.Prelude.{◌≡◌, [], ◌∷◌, IfErr, OnOk, Ok};
ghost use Rattle.pkstack.specs.Shape.{moved};
ghost use Rattle.pkjson.specs.Private.Halts.{IsWant};
ghost use Rattle.pkjson.specs.Private.Seen.{seen_entry, seen_entries, shape_seen};

use crate::halt::Halt;
use crate::slots::{Slot, mark_place, top};
use pkbase::NumberedMap;
use pkstack::Move;

/// Object numbers by memo number.
pub type MemoTable = NumberedMap<u32>;

/// Pushes an entry.
#[tactic(auto, using(crate::proofs::Entries::shown_append))]
fn push(stack: &mut Vec<Slot>, slot: Slot) -> Result<(), Halt>
    ensures ok { OnOk result
        (seen_entries stack.new.items [] ≡ seen_entry slot ∷ seen_entries stack.old.items []) }
    ensures err { IfErr result (λ halt. halt ≡ Halt.OutOfMemory) }
{
    match stack.push(slot) {
        Ok(()) => Ok(()),
        Err(_) => Err(Halt::OutOfMemory),
    }
}

/// Removes the topmost entry.
fn pop(stack: &mut Vec<Slot>, memo: &MemoTable) -> Result<(), Halt>
    ensures ok { OnOk result
        (moved Move.Pops 0 (shape_seen stack.old.items memo.now)
        ≡ Ok (shape_seen stack.new.items memo.now)) }
    ensures err { IfErr result (IsWant
        (moved Move.Pops 0 (shape_seen stack.old.items memo.now))) }
{
    let count = stack.len();
    if count == 0 {
        return Err(Halt::Lacks);
    }
    stack.truncate(count - 1);
    Ok(())
}

/// Removes the topmost mark and everything above it.
fn pop_mark(stack: &mut Vec<Slot>, memo: &MemoTable) -> Result<(), Halt>
    ensures ok { OnOk result
        (moved Move.PopsMark 0 (shape_seen stack.old.items memo.now)
        ≡ Ok (shape_seen stack.new.items memo.now)) }
    ensures err { IfErr result (IsWant
        (moved Move.PopsMark 0 (shape_seen stack.old.items memo.now))) }
{
    let Some(place) = mark_place(stack) else {
        return Err(Halt::Lacks);
    };
    stack.truncate(place);
    Ok(())
}

/// Pushes the top again.
fn duplicate(stack: &mut Vec<Slot>, memo: &MemoTable) -> Result<(), Halt>
    ensures ok { OnOk result
        (moved Move.Duplicates 0 (shape_seen stack.old.items memo.now)
        ≡ Ok (shape_seen stack.new.items memo.now)) }
    ensures err { IfErr result (IsWant
        (moved Move.Duplicates 0 (shape_seen stack.old.items memo.now))) }
{
    let Some(number) = top(stack) else {
        return Err(Halt::Lacks);
    };
    push(stack, Slot::Object(number))
}

/// Stores the top under a number.
fn store(stack: &[Slot], memo: &mut MemoTable, number: u64) -> Result<(), Halt>
    ensures ok { OnOk result
        (moved Move.Stores number (shape_seen stack.now memo.old)
        ≡ Ok (shape_seen stack.now memo.new)) }
    ensures err { IfErr result (IsWant
        (moved Move.Stores number (shape_seen stack.now memo.old))) }
{
    let Some(object) = top(stack) else {
        return Err(Halt::Lacks);
    };
    match memo.store(number, object) {
        Ok(()) => Ok(()),
        Err(_) => Err(Halt::OutOfMemory),
    }
}

/// Pushes the memo entry of a number.
fn fetch(stack: &mut Vec<Slot>, memo: &MemoTable, number: u32) -> Result<(), Halt>
    ensures ok { OnOk result
        (moved Move.Fetches number (shape_seen stack.old.items memo.now)
        ≡ Ok (shape_seen stack.new.items memo.now)) }
    ensures err { IfErr result (IsWant
        (moved Move.Fetches number (shape_seen stack.old.items memo.now))) }
{
    match memo.get(number) {
        Some(object) => push(stack, Slot::Object(object)),
        None => Err(Halt::Lacks),
    }
}

/// Applies a move.
pub fn apply(
    stack: &mut Vec<Slot>,
    memo: &mut MemoTable,
    what: Move,
    number: u32,
) -> Result<(), Halt>
    ensures ok { OnOk result
        (moved what number (shape_seen stack.old.items memo.old)
        ≡ Ok (shape_seen stack.new.items memo.new)) }
    ensures err { IfErr result (IsWant
        (moved what number (shape_seen stack.old.items memo.old))) }
{
    match what {
        Move::PushesMark => push(stack, Slot::Mark),
        Move::Pops => pop(stack, memo),
        Move::PopsMark => pop_mark(stack, memo),
        Move::Duplicates => duplicate(stack, memo),
        Move::Stores => store(stack, memo, number as u64),
        Move::StoresNext => {
            let next = memo.len();
            store(stack, memo, next)
        }
        Move::Fetches => fetch(stack, memo, number),
        Move::NoOp => Ok(()),
        Move::Extends => Err(Halt::Lacks),
    }
}
