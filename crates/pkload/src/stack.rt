//! The stack: marks, and what objects cost.

ghost use Rattle.std.specs.Prelude.{◌≡◌, ◌<◌, [], ◌∷◌, List, Err, IfNone, IfOk, IfSome, IsErr};
ghost use Rattle.std.specs.Prelude.{OnErr, OnOk, false, true};
ghost use Rattle.pkstack.specs.Shape.{Entry, Item, Mark, NoItem, NoMark, items, slice, top};
ghost use Rattle.pkload.specs.Heft.{Heft};
ghost use Rattle.pkload.specs.Private.Billing.{AreReplaced, HasReplaced, HasSlice};
ghost use Rattle.pkload.specs.Private.Shown.{HasObjects};

use crate::halt::Halt;
use crate::packed::PackedHeft;
use pkbase::StackVec;
use std::alloc::Global;
use std::marker::Model;

/// The stack, with four bytes for each entry. The last one is on top.
pub struct Stack {
    /// The code of each object, and for each mark the fence before it was pushed.
    codes: StackVec<u32>,
    /// The number of entries up to the topmost mark, with it; 0 if there is none.
    fence: u32,
}

impl Drop for Stack {
    fn drop(self) {
        let Stack {
            codes: _codes,
            fence: _fence,
        } = self;
    }
}

impl Model for Stack {
    ghost use Rattle.std.specs.Prelude.{List, ◌≤◌, length};
    ghost use Rattle.pkstack.specs.Shape.{Entry};
    ghost use Rattle.pkload.specs.Heft.{Heft};
    ghost use Rattle.pkload.specs.Private.Shown.{entries_of};

    ghost Value = { List (Entry Heft) };

    ghost view = { λ s. entries_of s.fence s.codes };

    ghost invariant = { λ s. s.fence ≤ length s.codes };
}

impl Stack {
    /// An empty stack. Allocates nothing.
    pub fn new(alloc: Global) -> Stack
        ensures { result ≡ [] }
    {
        Stack {
            codes: StackVec::new(alloc, 0),
            fence: 0,
        }
    }

    /// Removes all entries.
    pub fn clear(&mut self)
        ensures { self.new ≡ [] }
    {
        self.codes.clear();
        self.fence = 0;
    }

    /// Pushes a mark.
    pub fn push_mark(&mut self) -> Result<(), Halt>
        ensures { OnOk result (self.new ≡ Mark ∷ self.old) }
    {
        let count = self.codes.len();
        if count >= u32::MAX as usize {
            return Err(Halt::OutOfMemory);
        }
        let Ok(()) = self.codes.push(self.fence) else {
            return Err(Halt::OutOfMemory);
        };
        self.fence = count as u32 + 1;
        Ok(())
    }

    /// Pushes an object. Not `inline(always)`, which would count as part of `Machine::step`: that
    /// must stay small enough to be inlined itself.
    pub fn push(&mut self, heft: PackedHeft) -> Result<(), Halt>
        ensures { OnOk result (self.new ≡ Item heft ∷ self.old) }
    {
        let Ok(()) = self.codes.push(heft.code()) else {
            return Err(Halt::OutOfMemory);
        };
        Ok(())
    }

    /// Pushes an object if there is room for it, and says whether there is.
    #[inline(always)]
    pub fn push_within_capacity(&mut self, heft: PackedHeft) -> bool
        ensures pushed { result ≡ true → self.new ≡ Item heft ∷ self.old }
        ensures kept { result ≡ false → self.new ≡ self.old }
    {
        self.codes.push_within_capacity(heft.code())
    }

    /// The topmost entry, which must be an object.
    #[inline(always)]
    #[tactic(auto, using(crate::proofs::Slots::no_object))]
    pub fn top(&self) -> Option<PackedHeft>
        ensures some { IfSome result (λ heft. (below : List (Entry Heft))
            × (self.now ≡ Item heft ∷ below)) }
        ensures none { IfNone result (top self.now ≡ Err NoItem) }
    {
        let count = self.codes.len();
        if count <= self.fence as usize {
            return None;
        }
        Some(PackedHeft::from_code(self.codes.entries()[count - 1]))
    }

    /// Puts an object in place of the topmost entry, which must be an object.
    #[tactic(auto, using(crate::proofs::Slots::replaced, crate::proofs::Slots::no_object))]
    pub fn replace(&mut self, heft: PackedHeft) -> Result<(), Halt>
        ensures ok { OnOk result ((entry : Entry Heft) (below : List (Entry Heft))
            → self.old ≡ entry ∷ below → self.new ≡ Item heft ∷ below) }
        ensures err { OnErr result (top self.old ≡ Err NoItem) }
    {
        let count = self.codes.len();
        if count <= self.fence as usize {
            return Err(Halt::Lost);
        }
        self.codes.set(count - 1, heft.code());
        Ok(())
    }

    /// Removes the topmost entry, which must be an object.
    #[tactic(auto, using(crate::proofs::Slots::no_object))]
    pub fn pop_object(&mut self) -> Option<PackedHeft>
        ensures some { IfSome result (λ heft. self.old ≡ Item heft ∷ self.new) }
        ensures none { IfNone result (top self.old ≡ Err NoItem) }
    {
        let count = self.codes.len();
        if count <= self.fence as usize {
            return None;
        }
        let code = self.codes.entries()[count - 1];
        self.codes.truncate(count - 1);
        Some(PackedHeft::from_code(code))
    }

    /// Removes the topmost entry.
    #[tactic(auto, using(crate::proofs::Slots::mark_popped, crate::proofs::Slots::nothing_left))]
    pub fn pop(&mut self) -> Result<(), Halt>
        ensures ok { OnOk result ((entry : Entry Heft) × (self.old ≡ entry ∷ self.new)) }
        ensures err { OnErr result (self.old ≡ []) }
    {
        let before = self.codes.len();
        if before > self.fence as usize {
            self.codes.truncate(before - 1);
            return Ok(());
        }
        if before == 0 {
            return Err(Halt::Lost);
        }
        let outer = self.codes.entries()[before - 1];
        self.codes.truncate(before - 1);
        self.fence = outer.min(self.fence - 1);
        Ok(())
    }

    /// Puts an object in place of so many of the topmost entries, which must be objects. It wants
    /// no memory.
    #[tactic(auto, using(crate::proofs::Slots::all_replaced, crate::proofs::Slots::items_missing))]
    pub fn replace_objects(&mut self, count: usize, heft: PackedHeft) -> Result<(), Halt>
        requires { 0 < count }
        ensures ok { OnOk result (AreReplaced count self.old self.new heft) }
        ensures err { OnErr result (IsErr (items count self.old [])) }
    {
        let before = self.codes.len();
        if before - (self.fence as usize) < count {
            return Err(Halt::Lost);
        }
        self.codes.replace(before - count, heft.code());
        Ok(())
    }

    /// The codes of the objects above the topmost mark.
    #[tactic(auto, using(crate::proofs::Slots::objects_shown))]
    pub fn objects(&self) -> &[u32]
        ensures { HasObjects self.now result.now }
    {
        &self.codes.entries()[self.fence as usize..]
    }

    /// Removes the objects above the topmost mark, and the mark. Returns the number of the objects.
    #[tactic(auto, using(crate::proofs::Slots::slice_shown, crate::proofs::Slots::no_slice))]
    pub fn drop_slice(&mut self) -> Result<u64, Halt>
        ensures ok { IfOk result (HasSlice self.old self.new) }
        ensures err { OnErr result (slice self.old [] ≡ Err NoMark) }
    {
        let fence = self.fence as usize;
        if fence == 0 {
            return Err(Halt::Lost);
        }
        let outer = self.codes.entries()[fence - 1];
        let count = self.codes.len() - fence;
        self.codes.truncate(fence - 1);
        self.fence = outer.min(self.fence - 1);
        Ok(count as u64)
    }

    /// Puts an object in place of the objects above the topmost mark, and the mark. Returns their
    /// number.
    #[tactic(auto, using(crate::proofs::Slots::slice_replaced, crate::proofs::Slots::no_slice))]
    pub fn replace_slice(&mut self, heft: PackedHeft) -> Result<u64, Halt>
        ensures ok { IfOk result (HasReplaced self.old self.new heft) }
        ensures err { OnErr result (slice self.old [] ≡ Err NoMark) }
    {
        let fence = self.fence as usize;
        if fence == 0 {
            return Err(Halt::Lost);
        }
        let outer = self.codes.entries()[fence - 1];
        let count = self.codes.len() - fence;
        self.codes.replace(fence - 1, heft.code());
        self.fence = outer.min(self.fence - 1);
        Ok(count as u64)
    }
}
