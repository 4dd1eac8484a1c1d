//! A vector that keeps its store.

ghost use Rattle.std.specs.Option.{option_to_list};
ghost use Rattle.std.specs.Prelude.{◌≡◌, ◌↔◌, [], ◌∷◌, ◌++◌, ◌+◌, ◌^◌, ◌<◌, length, set};
ghost use Rattle.std.specs.Prelude.{IsSome, OnErr, OnOk, false, take, true};

use std::alloc::{AllocError, Global};
use std::marker::Model;

/// A vector that grows and shrinks at its end, for values that are copied. The store never shrinks,
/// so a push into a place that was in use before is a plain move.
///
/// ```rust
/// use pkbase::StackVec;
///
/// let mut stack = StackVec::new(alloc, 0u8);
/// stack.push(1)?;
/// stack.push(2)?;
/// assert_eq!(rt; stack.pop(), Some(2));
/// assert_eq!(rt; stack.entries(), [1].as_slice());
/// ```
#[derive(Debug, Drop)]
pub struct StackVec<T> {
    /// The entries, and after them values that aren't in use.
    store: Vec<T>,
    /// The number of entries.
    count: usize,
    /// What lengthens the store.
    filler: T,
}

impl<T> Model for StackVec<T> {
    ghost use Rattle.std.specs.Prelude.{◌≤◌, List, length, take};

    ghost Value = { List T };

    ghost view = { λ p. take p.count p.store.items };

    ghost invariant = { λ p. p.count ≤ length p.store.items };
}

impl<T: Copy + Drop> StackVec<T> {
    /// An empty vector. Allocates nothing. The filler, which any value may be, lengthens the store.
    pub fn new(alloc: Global, filler: T) -> StackVec<T>
        ensures { result ≡ [] }
    {
        StackVec {
            store: Vec::new(alloc),
            count: 0,
            filler,
        }
    }

    /// The number of entries.
    pub fn len(&self) -> usize
        ensures value { result ≡ length self.now }
        ensures small { result < 2 ^ 63 }
    {
        self.count
    }

    /// The entries.
    pub fn entries(&self) -> &[T]
        ensures { result.now ≡ self.now }
    {
        &self.store[..self.count]
    }

    /// Removes all entries, and keeps the memory.
    pub fn clear(&mut self)
        ensures { self.new ≡ [] }
    {
        self.count = 0;
    }

    /// Keeps the first `count` entries.
    pub fn truncate(&mut self, count: usize)
        ensures { self.new ≡ take count self.old }
    {
        if count < self.count {
            self.count = count;
        }
    }

    /// Keeps the entry at a place and those before it.
    pub fn end_with(&mut self, place: usize)
        requires { place < length self.old }
        ensures { self.new ≡ take (place + 1) self.old }
    {
        // The proof needs this read: it bounds the sum.
        let _count = self.count;
        self.count = place + 1;
    }

    /// Replaces the entry at an index.
    pub fn set(&mut self, index: usize, entry: T)
        requires { index < length self.old }
        ensures { self.new ≡ set self.old index entry }
    {
        self.store[index] = entry;
    }

    /// Appends an entry.
    #[inline(always)]
    pub fn push(&mut self, entry: T) -> Result<(), AllocError>
        ensures ok { OnOk result (self.new ≡ self.old ++ entry ∷ []) }
        ensures err { OnErr result (self.new ≡ self.old) }
    {
        let count = self.count;
        if count >= self.store.len() {
            let Ok(()) = lengthen(&mut self.store, self.filler) else {
                return Err(AllocError);
            };
        }
        self.store[count] = entry;
        self.count = count + 1;
        Ok(())
    }

    /// Appends an entry if the store has room for it, and says whether it has. It calls nothing, so
    /// no register is saved for a call.
    #[inline(always)]
    pub fn push_within_capacity(&mut self, entry: T) -> bool
        ensures pushed { result ≡ true → self.new ≡ self.old ++ entry ∷ [] }
        ensures kept { result ≡ false → self.new ≡ self.old }
    {
        let used = self.count;
        if used >= self.store.len() {
            return false;
        }
        self.store[used] = entry;
        self.count = used + 1;
        true
    }

    /// Removes the last entry, and returns it.
    #[inline]
    pub fn pop(&mut self) -> Option<T>
        ensures entries { self.old ≡ self.new ++ option_to_list result }
        ensures some { IsSome result ↔ (0 < length self.old) }
    {
        let count = self.count;
        if count == 0 {
            return None;
        }
        self.count = count - 1;
        Some(self.store[count - 1])
    }

    /// Replaces the entry at a place and all those after it with one entry.
    pub fn replace(&mut self, place: usize, entry: T)
        requires { place < length self.old }
        ensures { self.new ≡ take place self.old ++ entry ∷ [] }
    {
        self.store[place] = entry;
        self.count = place + 1;
    }
}

/// The number of entries of the first allocation. A short pickle needs no second one.
const FIRST: usize = 64;

/// The number of entries by which a store is lengthened: so few that a short pickle fills little,
/// and so many that a long one seldom calls.
const STEP: usize = 32;

/// Lengthens a store. The new entry is not a parameter: the compiler would then keep it in memory
/// even on the path without the call.
#[cold]
#[inline(never)]
fn lengthen<T: Copy + Drop>(store: &mut Vec<T>, filler: T) -> Result<(), AllocError>
    ensures ok { OnOk result (length store.old.items < length store.new.items) }
    ensures same { take (length store.old.items) store.new.items ≡ store.old.items }
    ensures err { OnErr result (store.new.items ≡ store.old.items) }
{
    let len = store.len();
    if len == 0 {
        store.reserve(FIRST)?;
    }
    store.resize(len + STEP, filler)
}
