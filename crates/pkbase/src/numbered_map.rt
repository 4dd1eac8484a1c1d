//! The map, in three parts.

ghost use Rattle.std.specs.BTreeMap.{insert_entry, is_at};
ghost use Rattle.std.specs.List.Sorted.{IsStrictlySortedBy};
ghost use Rattle.std.specs.Map.{keys_of, lookup};
ghost use Rattle.std.specs.Ordering.{nat_cmp};
ghost use Rattle.std.specs.Prelude.{◌≡◌, ◌↔◌, ◌<◌, ◌≤◌, ◌^◌, [], length, IfErr, IsTrue, None};
ghost use Rattle.std.specs.Prelude.{OnErr, OnOk};
ghost use Rattle.pkbase.specs.Room.{LacksRoom};

use crate::stack_vec::StackVec;
use std::alloc::{AllocError, Global};
use std::collections::BTreeMap;
use std::marker::Model;

/// Why a value isn't stored.
#[derive(Clone, Copy, Debug, Drop, PartialEq, Eq)]
pub enum NotStored {
    /// The map would have more entries than it may.
    Full,
    /// An allocation was refused, or the number has more than 32 bits and isn't the next in order.
    OutOfMemory,
}

/// Values by number. A contract sees the entries as they stand in a `BTreeMap`, by rising number.
///
/// Where each new number follows the last one, a value takes no more than its place in a
/// vector, and storing it or finding it takes a few instructions, whatever the first number is.
///
/// ```rust
/// use pkbase::NumberedMap;
///
/// let mut memo = NumberedMap::new(alloc, 0u8);
/// memo.store_next(10)?;
/// memo.store(4_000_000_000, 20)?;
/// assert_eq!(rt; (memo.get(0), memo.get(4_000_000_000), memo.get(1)), (Some(10), Some(20), None));
/// ```
#[derive(Drop)]
pub struct NumberedMap<V> {
    /// The entries of numbers below `first`.
    low: BTreeMap<u32, V>,
    /// The number that was stored first.
    first: u32,
    /// The values of the numbers from `first` on that were stored in order.
    ordered: StackVec<V>,
    /// The entries of greater numbers.
    rest: BTreeMap<u32, V>,
}

impl<V> Model for NumberedMap<V> {
    ghost use Rattle.std.specs.List.{enumerate_from};
    ghost use Rattle.std.specs.Prelude.{ℕ, List, ◌++◌};
    ghost use Rattle.pkbase.specs.Parts.{AreParts};

    ghost Value = { List (ℕ × V) };

    ghost view = { λ m. m.low.entries
        ++ (enumerate_from m.first m.ordered ++ m.rest.entries) };

    ghost invariant = { λ m. AreParts m.low.entries m.first m.ordered m.rest.entries };
}

impl<V: Copy + Drop> NumberedMap<V> {
    /// An empty map. Allocates nothing. Any value may be the filler.
    pub fn new(alloc: Global, filler: V) -> NumberedMap<V>
        ensures { result ≡ [] }
    {
        NumberedMap {
            low: BTreeMap::new(alloc),
            first: 0,
            ordered: StackVec::new(alloc, filler),
            rest: BTreeMap::new(alloc),
        }
    }

    /// Removes all entries, and keeps the memory of those that were stored in order.
    pub fn clear(&mut self)
        ensures { self.new ≡ [] }
    {
        self.low.clear();
        self.ordered.clear();
        self.rest.clear();
    }

    /// The number of entries.
    pub fn len(&self) -> u64
        ensures value { result ≡ length self.now }
        ensures rising { IsStrictlySortedBy nat_cmp (keys_of self.now) }
    {
        // The proof needs this read: it bounds the numbers below.
        let _first = self.first;
        self.low.len() as u64 + self.rest.len() as u64 + self.ordered.len() as u64
    }

    /// Whether there is no entry.
    pub fn is_empty(&self) -> bool
        ensures { IsTrue result ↔ (self.now ≡ []) }
    {
        self.len() == 0
    }

    /// The value of a number.
    #[inline(always)]
    pub fn get(&self, number: u32) -> Option<V>
        ensures { result ≡ lookup (is_at (nat_cmp number)) self.now }
    {
        if number < self.first {
            return found(&self.low, number);
        }
        let place = (number - self.first) as usize;
        if place < self.ordered.len() {
            return Some(self.ordered.entries()[place]);
        }
        found(&self.rest, number)
    }

    /// Whether a number is the next in order: `store` then appends its value. No entry has it.
    #[inline(always)]
    fn is_next(&self, number: u64) -> bool
        ensures { IsTrue result → lookup (is_at (nat_cmp number)) self.now ≡ None }
    {
        let next = u64::from(self.first) + self.ordered.len() as u64;
        number == next && self.rest.is_empty()
    }

    /// Stores a value under a number. It replaces the value that was there, which takes no memory.
    /// A number of more than 32 bits that isn't the next in order is refused.
    #[inline(always)]
    pub fn store(&mut self, number: u64, value: V) -> Result<(), AllocError>
        ensures ok { OnOk result (self.new ≡ insert_entry nat_cmp self.old number value) }
        ensures err { OnErr result (self.new ≡ self.old) }
        ensures absent { OnErr result (number < 2 ^ 32
            → lookup (is_at (nat_cmp number)) self.old ≡ None) }
    {
        let next = u64::from(self.first) + self.ordered.len() as u64;
        if number == next && self.rest.is_empty() {
            return self.ordered.push(value);
        }
        self.store_apart(number, value)
    }

    /// Stores a value under the number of entries. It replaces the value that was there.
    #[inline(always)]
    pub fn store_next(&mut self, value: V) -> Result<(), AllocError>
        ensures ok { OnOk result (self.new
            ≡ insert_entry nat_cmp self.old (length self.old) value) }
        ensures err { OnErr result (self.new ≡ self.old) }
        ensures absent { OnErr result (length self.old < 2 ^ 32
            → lookup (is_at (nat_cmp (length self.old))) self.old ≡ None) }
    {
        if self.low.len() as u64 == u64::from(self.first) && self.rest.is_empty() {
            return self.ordered.push(value);
        }
        let next = self.len();
        self.store_apart(next, value)
    }

    /// Stores a value as `store` does, unless the map would then have more than `most` entries.
    #[inline(always)]
    pub fn store_within(&mut self, most: u64, number: u64, value: V) -> Result<(), NotStored>
        requires { length self.old ≤ most }
        ensures ok { OnOk result (self.new ≡ insert_entry nat_cmp self.old number value) }
        ensures room { OnOk result (length self.new ≤ most) }
        ensures kept { OnErr result (self.new ≡ self.old) }
        ensures full { IfErr result (λ why. why ≡ NotStored.Full
            → most < length (insert_entry nat_cmp self.old number value)) }
        ensures memory { IfErr result (λ why. why ≡ NotStored.OutOfMemory → number < 2 ^ 32
            → LacksRoom most self.old number value) }
    {
        if self.is_next(number) {
            if self.len() >= most {
                return Err(NotStored::Full);
            }
            return self.store_allowed(number, value);
        }
        self.store_other_within(most, number, value)
    }

    /// `store_within` for a number that isn't the next in order.
    fn store_other_within(&mut self, most: u64, number: u64, value: V) -> Result<(), NotStored>
        requires { length self.old ≤ most }
        ensures ok { OnOk result (self.new ≡ insert_entry nat_cmp self.old number value) }
        ensures room { OnOk result (length self.new ≤ most) }
        ensures kept { OnErr result (self.new ≡ self.old) }
        ensures full { IfErr result (λ why. why ≡ NotStored.Full
            → most < length (insert_entry nat_cmp self.old number value)) }
        ensures memory { IfErr result (λ why. why ≡ NotStored.OutOfMemory → number < 2 ^ 32
            → LacksRoom most self.old number value) }
    {
        let Ok(key) = u32::try_from(number) else {
            return Err(NotStored::OutOfMemory);
        };
        if self.len() < most {
            return self.store_allowed(number, value);
        }
        if self.get(key).is_none() {
            return Err(NotStored::Full);
        }
        self.store_allowed(number, value)
    }

    /// Stores a value as `store` does, and says why it doesn't.
    #[inline(always)]
    fn store_allowed(&mut self, number: u64, value: V) -> Result<(), NotStored>
        ensures ok { OnOk result (self.new ≡ insert_entry nat_cmp self.old number value) }
        ensures kept { OnErr result (self.new ≡ self.old) }
        ensures why { IfErr result (λ why. why ≡ NotStored.OutOfMemory) }
        ensures absent { OnErr result (number < 2 ^ 32
            → lookup (is_at (nat_cmp number)) self.old ≡ None) }
    {
        match self.store(number, value) {
            Ok(()) => Ok(()),
            Err(_) => Err(NotStored::OutOfMemory),
        }
    }

    /// Stores a value under a number that isn't the next in order.
    #[inline(never)]
    fn store_apart(&mut self, number: u64, value: V) -> Result<(), AllocError>
        ensures ok { OnOk result (self.new ≡ insert_entry nat_cmp self.old number value) }
        ensures err { OnErr result (self.new ≡ self.old) }
        ensures absent { OnErr result (number < 2 ^ 32
            → lookup (is_at (nat_cmp number)) self.old ≡ None) }
    {
        if number > u64::from(u32::MAX) {
            return Err(AllocError);
        }
        let number = number as u32;
        if self.is_empty() {
            return self.begin(number, value);
        }
        if number < self.first {
            return put(&mut self.low, number, value);
        }
        let place = (number - self.first) as usize;
        if place < self.ordered.len() {
            self.ordered.set(place, value);
            return Ok(());
        }
        put(&mut self.rest, number, value)
    }

    /// Stores the first entry.
    fn begin(&mut self, number: u32, value: V) -> Result<(), AllocError>
        requires { self.old ≡ [] }
        ensures ok { OnOk result (self.new ≡ insert_entry nat_cmp self.old number value) }
        ensures err { OnErr result (self.new ≡ self.old) }
    {
        self.first = number;
        self.ordered.push(value)
    }
}

/// The value of a number in a tree.
#[inline(never)]
fn found<V: Copy + Drop>(tree: &BTreeMap<u32, V>, number: u32) -> Option<V>
    ensures { result ≡ lookup (is_at (nat_cmp number)) tree.now.entries }
{
    tree.get(&number).copied()
}

/// Stores a value under a number in a tree.
fn put<V: Copy + Drop>(tree: &mut BTreeMap<u32, V>, number: u32, value: V) -> Result<(), AllocError>
    ensures ok { OnOk result (tree.new.entries
        ≡ insert_entry nat_cmp tree.old.entries number value) }
    ensures err { OnErr result (tree.new.entries ≡ tree.old.entries) }
    ensures absent { OnErr result (lookup (is_at (nat_cmp number)) tree.old.entries ≡ None) }
{
    match tree.insert(number, value) {
        Ok(_) => Ok(()),
        Err(_) => Err(AllocError),
    }
}
