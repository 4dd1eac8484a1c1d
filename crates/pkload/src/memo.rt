//! The memo: what the objects stored under numbers cost.

ghost use Rattle.std.specs.Prelude.{◌≡◌, length, IfErr, IfOk, None, OnErr, OnOk};
ghost use Rattle.pkstack.specs.Shape.{recalled, stored};
ghost use Rattle.pkload.specs.Private.Lost.{HasNoNumber};

use crate::halt::Halt;
use crate::packed::PackedHeft;
use pkbase::NumberedMap;

/// What the stored objects cost, by number.
pub type MemoTable = NumberedMap<PackedHeft>;

/// The next number, if it has 32 bits.
#[inline(always)]
pub fn next_number(memo: &MemoTable) -> Result<u32, Halt>
    ensures ok { IfOk result (λ next. next ≡ length memo.now) }
    ensures err { IfErr result (HasNoNumber memo.now) }
{
    let next = memo.len();
    if next > u64::from(u32::MAX) {
        return Err(Halt::OutOfMemory);
    }
    Ok(next as u32)
}

/// Stores what an object costs. Under a number that is in use it needs no memory.
pub fn store(memo: &mut MemoTable, number: u32, heft: PackedHeft) -> Result<(), Halt>
    ensures ok { OnOk result (memo.new ≡ stored number heft memo.old) }
    ensures absent { OnErr result (recalled number memo.old ≡ None) }
{
    match memo.store(u64::from(number), heft) {
        Ok(()) => Ok(()),
        Err(_) => Err(Halt::OutOfMemory),
    }
}
