//! Operations on the objects above the topmost mark.

ghost use Rattle.std.specs.Prelude.{◌≡◌, IfOk, Ok, OnErr, OnOk, false, true};
ghost use Rattle.pkload.specs.Private.Billing.{IsQuiet, op_billed};
ghost use Rattle.pkload.specs.Unkept.{IsLost};

use super::Machine;
use crate::gathering::{
    freeze_items, replace_pairs, take_items, take_pairs, tied_all, with_receiver,
};
use crate::halt::Halt;
use crate::memory::after_operation;
use crate::packed::PackedHeft;
use pkops::Op;

impl Machine {
    /// APPENDS, which leaves the list. Returns false, since it counts no key.
    #[inline(never)]
    pub(super) fn append_slice(&mut self) -> Result<bool, Halt>
        ensures billed { OnOk result (op_billed Op.Appends self.old ≡ Ok self.new) }
        ensures quiet { OnOk result (IsQuiet self.old self.new) }
        ensures lost { OnErr result (IsLost (op_billed Op.Appends self.old) self.old) }
    {
        let count = self.stack.drop_slice()?;
        let Some(_list) = self.stack.top() else {
            return Err(Halt::Lost);
        };
        self.memory = after_operation(Op::Appends, with_receiver(count)?, self.memory)?;
        Ok(false)
    }

    /// SETITEMS, which leaves the dict. Returns true, since it counts keys.
    #[inline(never)]
    pub(super) fn set_slice(&mut self) -> Result<bool, Halt>
        ensures billed { OnOk result (op_billed Op.SetItems self.old ≡ Ok self.new) }
        ensures counted { IfOk result (λ counted. counted ≡ true) }
        ensures lost { OnErr result (IsLost (op_billed Op.SetItems self.old) self.old) }
    {
        let count = take_pairs(&mut self.stack, &mut self.tally)?;
        let Some(_dict) = self.stack.top() else {
            return Err(Halt::Lost);
        };
        self.memory = after_operation(Op::SetItems, with_receiver(count)?, self.memory)?;
        Ok(true)
    }

    /// ADDITEMS, which leaves the set. Returns true.
    #[inline(never)]
    pub(super) fn add_slice(&mut self) -> Result<bool, Halt>
        ensures billed { OnOk result (op_billed Op.AddItems self.old ≡ Ok self.new) }
        ensures counted { IfOk result (λ counted. counted ≡ true) }
        ensures lost { OnErr result (IsLost (op_billed Op.AddItems self.old) self.old) }
    {
        let count = take_items(&mut self.stack, &mut self.tally)?;
        let Some(_set) = self.stack.top() else {
            return Err(Halt::Lost);
        };
        self.memory = after_operation(Op::AddItems, with_receiver(count)?, self.memory)?;
        Ok(true)
    }

    /// FROZENSET. Returns true.
    pub(super) fn freeze_slice(&mut self) -> Result<bool, Halt>
        ensures billed { OnOk result (op_billed Op.FrozenSet self.old ≡ Ok self.new) }
        ensures counted { IfOk result (λ counted. counted ≡ true) }
        ensures lost { OnErr result (IsLost (op_billed Op.FrozenSet self.old) self.old) }
    {
        let count = freeze_items(&mut self.stack, &mut self.tally)?;
        self.memory = after_operation(Op::FrozenSet, count, self.memory)?;
        Ok(true)
    }

    /// DICT. Returns true.
    #[inline(always)]
    pub(super) fn dict_slice(&mut self) -> Result<bool, Halt>
        ensures billed { OnOk result (op_billed Op.Dict self.old ≡ Ok self.new) }
        ensures counted { IfOk result (λ counted. counted ≡ true) }
        ensures lost { OnErr result (IsLost (op_billed Op.Dict self.old) self.old) }
    {
        let dict = PackedHeft::new(1, 0, false, false);
        let count = replace_pairs(&mut self.stack, &mut self.tally, dict)?;
        self.memory = after_operation(Op::Dict, count, self.memory)?;
        Ok(true)
    }

    /// LIST. Returns false, as does the next one.
    #[inline(always)]
    pub(super) fn list_slice(&mut self) -> Result<bool, Halt>
        ensures billed { OnOk result (op_billed Op.List self.old ≡ Ok self.new) }
        ensures quiet { OnOk result (IsQuiet self.old self.new) }
        ensures lost { OnErr result (IsLost (op_billed Op.List self.old) self.old) }
    {
        let count = self
            .stack
            .replace_slice(PackedHeft::new(1, 0, false, false))?;
        self.memory = after_operation(Op::List, count, self.memory)?;
        Ok(false)
    }

    /// TUPLE.
    #[inline(never)]
    pub(super) fn tie_slice(&mut self) -> Result<bool, Halt>
        ensures billed { OnOk result (op_billed Op.Tuple self.old ≡ Ok self.new) }
        ensures quiet { OnOk result (IsQuiet self.old self.new) }
        ensures lost { OnErr result (IsLost (op_billed Op.Tuple self.old) self.old) }
    {
        let heft = tied_all(self.stack.objects());
        let count = self.stack.replace_slice(heft)?;
        self.memory = after_operation(Op::Tuple, count, self.memory)?;
        Ok(false)
    }
}
