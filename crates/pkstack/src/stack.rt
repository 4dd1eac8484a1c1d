//! The stack: marks and items.
ghost use Rattle.pkstack.specs.Faults.{IsLack, WantsRoom};
ghost use Rattle.pkstack.specs.Places.{HasFirst, IsFew, ItemsFrom, above, below};
ghost use Rattle.pkstack.specs.Shape.{Entry, Mark, Item, NoItem, NoMark, front, items, marks_of};
ghost use Rattle.pkstack.specs.Shape.{operands, slice, top};
ghost use Rattle.std.specs.Prelude.{◌≡◌, true, List, [], ◌∷◌, ◌++◌, ◌+◌, ◌^◌, ◌<◌, ◌≤◌, length};
ghost use Rattle.std.specs.Prelude.{drop, false, nat_lt, IfOk, IfErr, MatchOption, OnOk};

mod operands;
mod slots;

use crate::cells::{Cell, Packed};
use crate::takes::Takes;
pub use operands::Operands;
use pkbase::StackVec;
use pkops::{Limits, Reason};
pub use slots::OperandsStart;
use slots::{few_objects, mark_place, marks_below, place_of, put_on_top, top};
use std::alloc::Global;
use std::marker::Model;

/// The stack. A place is the number of entries below it.
///
/// ```rust
/// use pkops::Limits;
/// use pkstack::{SliceRule, Slot, Stack, Takes};
///
/// let limits = Limits::STANDARD;
/// let mut stack: Stack<u8, Slot<u8>> = Stack::new(alloc);
/// stack.push(&limits, 1)?;
/// stack.push_mark(&limits)?;
/// stack.push(&limits, 2)?;
/// let found = stack.find(Takes::Slice(SliceRule::AnySlice))?;
/// assert_eq!(rt; stack.operands(found.place).first(), Some(2));
/// ```
#[derive(Drop)]
pub struct Stack<V, C: Cell<V>> {
    /// The entries; the last one is on top.
    slots: StackVec<Packed<V, C>>,
    /// The places of the marks.
    places: StackVec<usize>,
}

impl<V, C: Cell<V>> Model for Stack<V, C> {
    ghost use Rattle.std.specs.Prelude.{◌≡◌, List, []};
    ghost use Rattle.pkstack.specs.Shape.{Entry};
    ghost use Rattle.pkstack.specs.Private.Slots.{bars, shown};

    ghost Value = { List (Entry V) };

    ghost view = { λ s. shown s.slots [] };

    ghost invariant = { λ s. s.places ≡ bars 0 s.slots };
}

impl<V: Copy + Drop, C: Cell<V>> Stack<V, C> {
    /// An empty stack. It allocates nothing.
    pub fn new(alloc: Global) -> Stack<V, C>
        ensures { result ≡ [] }
    {
        Stack {
            slots: StackVec::new(alloc, Packed::mark()),
            places: StackVec::new(alloc, 0),
        }
    }

    /// Removes all entries, and keeps the memory.
    pub fn clear(&mut self)
        ensures { self.new ≡ [] }
    {
        self.slots.clear();
        self.places.clear();
    }

    /// The number of entries.
    #[tactic(auto, using(crate::proofs::Limited::length_shown))]
    pub fn len(&self) -> usize
        ensures { result ≡ length self.now }
    {
        self.slots.len()
    }

    /// The number of marks.
    pub fn marks(&self) -> usize
        ensures { result ≡ marks_of self.now }
    {
        self.places.len()
    }

    /// The item on top.
    ///
    /// # Errors
    ///
    /// `MissingItem`: a mark is on top, or nothing.
    pub fn top(&self) -> Result<V, Reason>
        ensures ok { IfOk result (λ v. top self.now ≡ Ok (v, drop 1 self.now)) }
        ensures err { IfErr result (λ r. IsLack (top self.now) r) }
    {
        match top(self.slots.entries()) {
            Some(value) => Ok(value),
            None => Err(Reason::MissingItem),
        }
    }

    /// The place where an operation's operands begin.
    ///
    /// # Errors
    ///
    /// What the operation takes isn't there: the reason is that of the first thing missing.
    #[inline(always)]
    pub fn find(&self, takes: Takes) -> Result<OperandsStart, Reason>
        ensures within { IfOk result (λ f. f.place ≤ length self.now) }
        ensures ok { IfOk result (λ f. operands takes self.now ≡ Ok (record {
          operands = above f.place self.now;
          below = below f.place self.now;
        })) }
        ensures marks { IfOk result (λ f. f.marks ≡ marks_of (below f.place self.now)) }
        ensures there { IfOk result (λ f. HasFirst takes → f.place < length self.now) }
        ensures first { IfOk result (λ f. HasFirst takes → below (f.place + 1) self.now
            ≡ front (above f.place self.now) ++ below f.place self.now) }
        ensures err { IfErr result (λ r. IsLack (operands takes self.now) r) }
    {
        place_of(self.slots.entries(), self.places.entries(), takes)
    }

    /// The place where the topmost one, two or three items begin; `None` for any other count, or if
    /// they are not there. It looks at its entries, which is faster than `find`.
    #[inline(always)]
    pub fn find_few(&self, count: usize) -> Option<usize>
        ensures { MatchOption result (IsFew count → items count self.now [] ≡ Err NoItem)
            (λ n. IsFew count × ItemsFrom count n self.now) }
    {
        few_objects(self.slots.entries(), count)
    }

    /// The items from a place on.
    #[inline(always)]
    #[tactic(auto, using(crate::proofs::Limited::length_shown, crate::proofs::Places::above_shown))]
    pub fn operands(&self, place: usize) -> Operands<'_, V, C>
        requires { place ≤ length self.now }
        ensures { result ≡ above place self.now }
    {
        Operands::from(self.slots.entries(), place)
    }

    /// Whether the limit leaves room for one more entry.
    #[tactic(auto, using(crate::proofs::Limited::length_shown))]
    fn has_room(&self, limits: &Limits) -> bool
        ensures value { result ≡ nat_lt (length self.now) limits.now.stack }
        ensures fits { result ≡ true → length self.now + 1 < 2 ^ 64 }
    {
        (self.slots.len() as u64) < limits.stack()
    }

    /// Pushes a mark, if the limit leaves room.
    ///
    /// # Errors
    ///
    /// `TooLarge` at the limit, or an allocation was refused. The stack is as before then.
    #[tactic(auto, using(crate::proofs::Limited::length_shown, crate::proofs::Shown::shown_append))]
    #[inline(always)]
    pub fn push_mark(&mut self, limits: &Limits) -> Result<(), Reason>
        ensures ok { OnOk result (self.new ≡ Mark ∷ self.old) }
        ensures room { OnOk result (length self.new ≤ limits.now.stack) }
        ensures err { IfErr result (λ r. (self.new ≡ self.old)
            × WantsRoom limits.now.stack (length self.old) r) }
    {
        if !self.has_room(limits) {
            return Err(Reason::TooLarge);
        }
        let place = self.slots.len();
        let Ok(()) = self.slots.push(Packed::mark()) else {
            return Err(Reason::OutOfMemory);
        };
        match self.places.push(place) {
            Ok(()) => Ok(()),
            Err(_) => {
                self.slots.truncate(place);
                Err(Reason::OutOfMemory)
            }
        }
    }

    /// Pushes an item, if the limit leaves room.
    ///
    /// # Errors
    ///
    /// `TooLarge` at the limit, or an allocation was refused. The stack is as before then.
    #[inline(always)]
    #[tactic(auto, using(crate::proofs::Limited::length_shown, crate::proofs::Shown::shown_append))]
    pub fn push(&mut self, limits: &Limits, value: V) -> Result<(), Reason>
        ensures ok { OnOk result (self.new ≡ Item value ∷ self.old) }
        ensures room { OnOk result (length self.new ≤ limits.now.stack) }
        ensures err { IfErr result (λ r. (self.new ≡ self.old)
            × WantsRoom limits.now.stack (length self.old) r) }
    {
        if !self.has_room(limits) {
            return Err(Reason::TooLarge);
        }
        match self.slots.push(Packed::object(value)) {
            Ok(()) => Ok(()),
            Err(_) => Err(Reason::OutOfMemory),
        }
    }

    /// Pushes an item, if the limit and the memory at hand leave room, and says whether they do.
    #[inline(always)]
    #[tactic(auto, using(crate::proofs::Limited::length_shown, crate::proofs::Shown::shown_append))]
    pub fn push_within_capacity(&mut self, limits: &Limits, value: V) -> bool
        ensures pushed { result ≡ true → self.new ≡ Item value ∷ self.old }
        ensures room { result ≡ true → length self.new ≤ limits.now.stack }
        ensures kept { result ≡ false → self.new ≡ self.old }
    {
        if !self.has_room(limits) {
            return false;
        }
        self.slots.push_within_capacity(Packed::object(value))
    }

    /// Pushes an item for `replace` when it removes nothing, which is rare. The caller checks the
    /// limit.
    #[inline(always)]
    #[tactic(auto, using(crate::proofs::Limited::length_shown, crate::proofs::Shown::shown_append))]
    fn push_object(&mut self, value: V) -> Result<(), Reason>
        ensures ok { OnOk result (self.new ≡ Item value ∷ self.old) }
        ensures err { IfErr result (λ r. (self.new ≡ self.old) × (r ≡ Reason.OutOfMemory)) }
    {
        match put_on_top(&mut self.slots, value) {
            Ok(()) => Ok(()),
            Err(_) => Err(Reason::OutOfMemory),
        }
    }

    /// Keeps the lowest `count` entries.
    #[tactic(auto, using(crate::proofs::Limited::length_shown, crate::proofs::Places::below_shown))]
    pub fn truncate(&mut self, count: usize)
        ensures { self.new ≡ below count self.old }
    {
        let left = marks_below(self.places.entries(), count);
        self.places.truncate(left);
        self.slots.truncate(count);
    }

    /// Removes the topmost entry.
    ///
    /// # Errors
    ///
    /// `MissingItem`: there is none.
    #[tactic(auto, using(crate::proofs::Places::one_more))]
    pub fn pop(&mut self) -> Result<(), Reason>
        ensures ok { OnOk result ((e : Entry V) × (self.old ≡ e ∷ self.new)) }
        ensures err { IfErr result (λ r. (self.new ≡ self.old) × (self.old ≡ [])
            × (r ≡ Reason.MissingItem)) }
    {
        let count = self.len();
        if count == 0 {
            return Err(Reason::MissingItem);
        }
        self.truncate(count - 1);
        Ok(())
    }

    /// Removes the topmost mark and everything above it.
    ///
    /// # Errors
    ///
    /// `MissingMark`: there is none, and nothing is removed.
    #[tactic(auto, using(crate::proofs::Places::below_shown))]
    pub fn pop_mark(&mut self) -> Result<(), Reason>
        ensures fewer { length self.new ≤ length self.old }
        ensures ok { OnOk result ((above : List V) × (slice self.old []
            ≡ Ok (record { operands = above; below = self.new }))) }
        ensures err { IfErr result (λ r. (self.new ≡ self.old) × (slice self.old [] ≡ Err NoMark)
            × (r ≡ Reason.MissingMark)) }
    {
        match mark_place(self.slots.entries(), self.places.entries()) {
            Some(place) => {
                self.truncate(place);
                Ok(())
            }
            None => Err(Reason::MissingMark),
        }
    }

    /// Keeps the entry at a place and those below it, of which `marks` are marks.
    pub fn end_with(&mut self, place: usize, marks: usize)
        requires there { place < length self.old }
        requires marks { marks ≡ marks_of (below (place + 1) self.old) }
        ensures { self.new ≡ below (place + 1) self.old }
    {
        self.places.truncate(marks);
        self.slots.end_with(place);
    }

    /// Replaces all entries from a place on with one item, if the limit leaves room. `marks` is the
    /// number of marks below the place.
    ///
    /// # Errors
    ///
    /// Where it removes nothing: `TooLarge` at the limit, or an allocation was refused. The stack
    /// is as before then.
    #[inline(always)]
    pub fn replace(
        &mut self,
        limits: &Limits,
        place: usize,
        marks: usize,
        value: V,
    ) -> Result<(), Reason>
        requires at { place ≤ length self.old }
        requires marks { marks ≡ marks_of (below place self.old) }
        requires within { length self.old ≤ limits.now.stack }
        ensures ok { OnOk result (self.new ≡ Item value ∷ below place self.old) }
        ensures room { OnOk result (length self.new ≤ limits.now.stack) }
        ensures err { IfErr result (λ r. (self.new ≡ self.old)
            × WantsRoom limits.now.stack place r) }
    {
        if place < self.len() {
            self.replace_all(place, marks, value);
            return Ok(());
        }
        if place as u64 >= limits.stack() {
            return Err(Reason::TooLarge);
        }
        self.push_object(value)
    }

    /// Replaces one or more entries, all those from a place on, with one item. `marks` is the
    /// number of marks below the place.
    #[inline(always)]
    pub fn replace_all(&mut self, place: usize, marks: usize, value: V)
        requires at { place < length self.old }
        requires marks { marks ≡ marks_of (below place self.old) }
        ensures { self.new ≡ Item value ∷ below place self.old }
    {
        self.places.truncate(marks);
        self.slots.replace(place, Packed::object(value));
    }
}
