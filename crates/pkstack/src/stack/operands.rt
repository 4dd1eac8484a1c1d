//! The operands of an operation.
ghost use Rattle.pkstack.specs.Private.Slots.{values_of};
ghost use Rattle.std.specs.Prelude.{◌≡◌, ◌≢◌, [], ◌∷◌, ◌≤◌, drop, length, MatchOption};
ghost use Rattle.std.specs.List.{slice_get};

use crate::cells::{Cell, Packed, Slot};
use crate::stack::slots::count_objects;
use std::marker::Model;

/// The operands of an operation, from the bottom up. Marks among the entries do not count.
#[derive(Drop)]
pub struct Operands<'a, V, C: Cell<V>> {
    slots: &'a [Packed<V, C>],
}

impl<'a, V, C: Cell<V>> Model for Operands<'a, V, C> {
    ghost use Rattle.std.specs.Prelude.{List};
    ghost use Rattle.pkstack.specs.Private.Slots.{values_of};

    ghost Value = { List V };

    ghost view = { λ o. values_of o.slots.now };
}

impl<'a, V: Copy + Drop, C: Cell<V>> Operands<'a, V, C> {
    /// The objects among the entries from a place on.
    pub(crate) fn from(slots: &'a [Packed<V, C>], place: usize) -> Operands<'a, V, C>
        requires { place ≤ length slots.now }
        ensures { result ≡ values_of (drop place slots.now) }
    {
        Operands {
            slots: &slots[place..],
        }
    }

    /// The first object. The lowest entry usually is one. If it is a mark, a search finds the
    /// object.
    #[inline(always)]
    pub fn first(&self) -> Option<V>
        ensures { result ≡ slice_get self.now 0 }
    {
        if self.slots.is_empty() {
            return None;
        }
        match self.slots[0].slot() {
            Slot::Object(value) => Some(value),
            Slot::Mark => self.get(0),
        }
    }

    /// The object at an index, counted from 0; `None` past the last.
    pub fn get(&self, index: usize) -> Option<V>
        ensures { result ≡ slice_get self.now index }
    {
        let mut before: usize = 0;
        for slot in self.slots {
            if let Slot::Object(value) = slot.slot() {
                if before == index {
                    return Some(value);
                }
                before += 1;
            }
        }
        None
    }

    /// Both objects, if there are exactly two.
    pub fn pair(&self) -> Option<(V, V)>
        ensures { MatchOption result (length self.now ≢ 2) (λ p. self.now ≡ p.0 ∷ p.1 ∷ []) }
    {
        if count_objects(self.slots) != 2 {
            return None;
        }
        let Some(first) = self.get(0) else {
            return None;
        };
        let Some(second) = self.get(1) else {
            return None;
        };
        Some((first, second))
    }
}
