//! The store that holds bytes, and after them room for the next ones.

ghost use Rattle.std.specs.Prelude.{◌≡◌, ◌+◌, ◌++◌, ◌∷◌, ◌<◌, ◌≤◌, ◌%◌, ◌^◌, [], IfErr, IfOk};
ghost use Rattle.std.specs.Prelude.{length, take};
ghost use Rattle.pkread.specs.Rows.{sight};
ghost use Rattle.pkread.specs.Pull.{AreAllBytes};
ghost use Rattle.pkread.specs.Private.Reads.{PulledInto};

use crate::source::{ReadFailed, Source};
use std::alloc::AllocError;

/// Writes a byte to the store at `at`.
pub(crate) fn put(store: &mut Vec<u8>, at: usize, byte: u8)
    requires { at < length store.old.items }
    ensures front { take (at + 1) store.new.items ≡ take at store.old.items ++ byte ∷ [] }
    ensures length { at < length store.new.items }
    ensures fits { byte < 256 }
{
    store[at] = byte;
}

/// Writes the bytes of a field to the store at `at`.
#[inline(always)]
pub(crate) fn put_field<const N: usize>(store: &mut Vec<u8>, at: usize, field: &[u8; N])
    requires { at + N ≤ length store.old.items }
    ensures front { take (at + N) store.new.items ≡ take at store.old.items ++ field.now }
    ensures length { length store.new.items ≡ length store.old.items }
    ensures fits { AreAllBytes store.new.items }
{
    store[at..at + N].copy_from_slice(field);
}

/// Makes room for `wanted` bytes after the first `from`.
pub(crate) fn make_room(store: &mut Vec<u8>, from: usize, wanted: usize) -> Result<(), AllocError>
    requires within { from ≤ length store.old.items }
    requires few { wanted ≤ 4096 }
    ensures ok { IfOk result (λ _. from + wanted ≤ length store.new.items) }
    ensures same { take from store.new.items ≡ take from store.old.items }
    ensures more { from ≤ length store.new.items }
{
    if store.len() - from < wanted {
        return make_room_slowly(store, from, wanted);
    }
    Ok(())
}

#[inline(never)]
fn make_room_slowly(store: &mut Vec<u8>, from: usize, wanted: usize) -> Result<(), AllocError>
    requires within { from ≤ length store.old.items }
    requires few { wanted ≤ 4096 }
    ensures ok { IfOk result (λ _. from + wanted ≤ length store.new.items) }
    ensures same { take from store.new.items ≡ take from store.old.items }
    ensures more { from ≤ length store.new.items }
{
    store.resize(from + wanted.max(64), 0)
}

/// Makes one read of at most `wanted` bytes into the store at `from`.
pub(crate) fn pull_into<R: Source>(
    source: &mut R,
    store: &mut Vec<u8>,
    from: usize,
    wanted: usize,
) -> Result<usize, ReadFailed>
    requires { from + wanted ≤ length store.old.items }
    ensures ok { IfOk result (λ n. PulledInto wanted n from store.old.items store.new.items
        (sight R.left R.failures source.old) (sight R.left R.failures source.new)) }
    ensures err { IfErr result (λ _.
        R.failures source.new ≡ (R.failures source.old + 1) % (2 ^ 64)) }
    ensures same { take from store.new.items ≡ take from store.old.items }
    ensures size { length store.new.items ≡ length store.old.items }
{
    source.pull(&mut store[from..from + wanted])
}
