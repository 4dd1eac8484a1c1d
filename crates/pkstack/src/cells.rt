//! Cells: an item, or a mark in the place of one.
ghost use Rattle.std.specs.Prelude.{◌≡◌};
ghost use Rattle.pkstack.specs.declared.cells.Slot.TheVariants as slot;

use std::alloc::AllocError;
use std::marker::{Model, PhantomData};

/// What a cell holds.
#[derive(Clone, Copy)]
pub enum Slot<V> {
    /// A mark.
    Mark,
    /// An item.
    Object(V),
}

/// A cell: an item or a mark, in as few bytes as the items allow.
pub trait Cell<V>: Copy + Drop {
    ghost use Rattle.std.specs.Prelude.{◌≡◌};
    ghost use Rattle.pkstack.specs.declared.cells.Slot.{Slot as Held};
    ghost use Rattle.pkstack.specs.declared.cells.Slot.TheVariants as slot;

    // What the cell holds.
    ghost held: { Self → Held V };

    // The cell that holds this.
    ghost holder: { Held V → Self };

    // Cells that are made here; what the others hold doesn't matter.
    ghost proper: { Self → Type 0 };

    // No two proper cells hold the same.
    ghost injective: { (cell : Self) → proper cell → holder (held cell) ≡ cell };

    /// The cell that holds a mark.
    fn mark() -> Self
        ensures holds { held result ≡ slot.Mark }
        ensures proper { proper result };

    /// The cell that holds an item.
    fn object(item: V) -> Self
        ensures holds { held result ≡ slot.Object item }
        ensures proper { proper result };

    /// What the cell holds.
    fn slot(self) -> Slot<V>
        ensures { result ≡ held self };
}

/// Any item has such a cell, which is larger than the item.
impl<V: Copy + Drop> Cell<V> for Slot<V> {
    ghost use Rattle.std.specs.Prelude.{refl, ⊤};

    ghost held = { λ cell. cell };

    ghost holder = { λ cell. cell };

    ghost proper = { λ cell. ⊤ };

    ghost injective = { λ cell proper. refl };

    fn mark() -> Slot<V> {
        Slot::Mark
    }

    fn object(item: V) -> Slot<V> {
        Slot::Object(item)
    }

    fn slot(self) -> Slot<V> {
        self
    }
}

/// A cell, which contracts see as what it holds.
pub struct Packed<V, C: Cell<V>> {
    cell: C,
    of: PhantomData<V>,
}

impl<V, C: Cell<V>> Clone for Packed<V, C> {
    ghost use Rattle.std.specs.Prelude.{◌≡◌, ⊤};

    ghost is_clone = { λ packed result. result ≡ packed };

    ghost is_infallible = { λ packed. ⊤ };

    fn clone(&self) -> Result<Packed<V, C>, AllocError> {
        Ok(Packed {
            cell: self.cell,
            of: PhantomData,
        })
    }
}

impl<V, C: Cell<V>> Copy for Packed<V, C> {}

impl<V, C: Cell<V>> Model for Packed<V, C> {
    ghost use Rattle.std.proofs.Common.{ap};
    ghost use Rattle.pkstack.specs.declared.cells.Slot.{Slot as Held};

    ghost Value = { Held V };

    ghost view = { λ p. C.held p.cell };

    ghost invariant = { λ p. C.proper p.cell };

    ghost inverse = { λ slot. record { cell = C.holder slot; of = record {} } };

    ghost inverse_ok = { λ p h. ap (λ cell. record { cell = cell; of = record {} })
        (C.injective p.cell h) };
}

impl<V: Copy + Drop, C: Cell<V>> Packed<V, C> {
    /// A mark.
    #[inline(always)]
    pub fn mark() -> Packed<V, C>
        ensures { result ≡ slot.Mark }
    {
        Packed {
            cell: C::mark(),
            of: PhantomData,
        }
    }

    /// An item.
    #[inline(always)]
    pub fn object(item: V) -> Packed<V, C>
        ensures { result ≡ slot.Object item }
    {
        Packed {
            cell: C::object(item),
            of: PhantomData,
        }
    }

    /// What it holds.
    #[inline(always)]
    pub fn slot(self) -> Slot<V>
        ensures { result ≡ self }
    {
        self.cell.slot()
    }
}
