//! The memo: the items stored under numbers.

ghost use Rattle.pkstack.specs.Faults.{WantsMemo};
ghost use Rattle.pkstack.specs.Shape.{stored};
ghost use Rattle.std.specs.Prelude.{◌≡◌, ◌≤◌, length, IfErr, OnOk};

use pkbase::{NotStored, NumberedMap};
use pkops::{Limits, Reason};

/// The stored items, by number.
pub type MemoTable<V> = NumberedMap<V>;

/// Stores an item under a number, if the limit leaves room.
#[inline(always)]
pub fn store<V: Copy + Drop>(
    memo: &mut MemoTable<V>,
    limits: &Limits,
    number: u64,
    value: V,
) -> Result<(), Reason>
    requires { length memo.old ≤ limits.now.memo }
    ensures ok { OnOk result (memo.new ≡ stored number value memo.old) }
    ensures room { OnOk result (length memo.new ≤ limits.now.memo) }
    ensures err { IfErr result (λ r. (memo.new ≡ memo.old)
        × WantsMemo limits.now.memo (stored number value memo.old) r) }
{
    match memo.store_within(limits.memo(), number, value) {
        Ok(()) => Ok(()),
        Err(NotStored::Full) => Err(Reason::TooLarge),
        Err(NotStored::OutOfMemory) => Err(Reason::OutOfMemory),
    }
}
