//! What is kept of an object, and the cells that hold it.

use crate::domain::Item;
use crate::packed::{MARK, PackedValue};
use pkstack::{Cell, Slot};

/// What is kept of an object: what is known about it, and what the domain keeps of it.
#[derive(Clone, Copy)]
pub struct Held<I> {
    /// What is known.
    pub value: PackedValue,
    /// What the domain keeps.
    pub item: I,
}

/// An entry of the stack, what is kept of an object or a mark, in the bytes of the former.
#[derive(Clone, Copy)]
pub struct HeldCell<I> {
    code: u32,
    item: I,
}

impl<I: Item> Cell<Held<I>> for HeldCell<I> {
    ghost use Rattle.pkmachine.specs.Private.HeldCells.{HasItem, cell_code, cell_held, cell_item};
    ghost use Rattle.pkmachine.specs.Private.HeldCells.{code_held, item_held};

    ghost held = { λ cell. cell_held cell.code cell.item };

    ghost holder = { λ slot. record { code = cell_code slot; item = cell_item I.none slot } };

    ghost proper = { λ cell. HasItem I.none cell.code cell.item };

    ghost injective = { λ cell proper. λ i. record {
      code = code_held cell.code cell.item i;
      item = item_held I.none cell.code cell.item proper i;
    } };

    #[inline(always)]
    fn mark() -> HeldCell<I> {
        HeldCell {
            code: MARK,
            item: I::none(),
        }
    }

    #[inline(always)]
    fn object(held: Held<I>) -> HeldCell<I> {
        HeldCell {
            code: held.value.code,
            item: held.item,
        }
    }

    #[inline(always)]
    fn slot(self) -> Slot<Held<I>> {
        if self.code == MARK {
            return Slot::Mark;
        }
        Slot::Object(Held {
            value: PackedValue { code: self.code },
            item: self.item,
        })
    }
}
