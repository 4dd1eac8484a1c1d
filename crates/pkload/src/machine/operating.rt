//! Operations on so many of the topmost objects.

ghost use Rattle.std.specs.Prelude.{◌≡◌, IfOk, Ok, OnErr, OnOk, false, true};
ghost use Rattle.pkload.specs.Private.Billing.{IsQuiet, op_billed};
ghost use Rattle.pkload.specs.Unkept.{IsLost};

use super::Machine;
use crate::halt::Halt;
use crate::making::tied;
use crate::memory::after_operation;
use pkops::Op;

impl Machine {
    /// TUPLE1. Returns false, as do the next ones.
    #[inline(never)]
    pub(super) fn tie_one(&mut self) -> Result<bool, Halt>
        ensures billed { OnOk result (op_billed Op.Tuple1 self.old ≡ Ok self.new) }
        ensures quiet { OnOk result (IsQuiet self.old self.new) }
        ensures lost { OnErr result (IsLost (op_billed Op.Tuple1 self.old) self.old) }
    {
        let Some(item) = self.stack.top() else {
            return Err(Halt::Lost);
        };
        self.memory = after_operation(Op::Tuple1, 1, self.memory)?;
        self.stack.replace(tied(item.weight(), item.depth()))?;
        Ok(false)
    }

    /// TUPLE2.
    #[inline(never)]
    pub(super) fn tie_two(&mut self) -> Result<bool, Halt>
        ensures billed { OnOk result (op_billed Op.Tuple2 self.old ≡ Ok self.new) }
        ensures quiet { OnOk result (IsQuiet self.old self.new) }
        ensures lost { OnErr result (IsLost (op_billed Op.Tuple2 self.old) self.old) }
    {
        let Some(second) = self.stack.pop_object() else {
            return Err(Halt::Lost);
        };
        let Some(first) = self.stack.top() else {
            return Err(Halt::Lost);
        };
        self.memory = after_operation(Op::Tuple2, 2, self.memory)?;
        let deepest = first.depth().max(second.depth());
        let held = first.weight() + second.weight();
        self.stack.replace(tied(held, deepest))?;
        Ok(false)
    }

    /// TUPLE3.
    #[inline(never)]
    pub(super) fn tie_three(&mut self) -> Result<bool, Halt>
        ensures billed { OnOk result (op_billed Op.Tuple3 self.old ≡ Ok self.new) }
        ensures quiet { OnOk result (IsQuiet self.old self.new) }
        ensures lost { OnErr result (IsLost (op_billed Op.Tuple3 self.old) self.old) }
    {
        let Some(third) = self.stack.pop_object() else {
            return Err(Halt::Lost);
        };
        let Some(second) = self.stack.pop_object() else {
            return Err(Halt::Lost);
        };
        let Some(first) = self.stack.top() else {
            return Err(Halt::Lost);
        };
        self.memory = after_operation(Op::Tuple3, 3, self.memory)?;
        let deepest = first.depth().max(second.depth()).max(third.depth());
        let held = first.weight() + second.weight() + third.weight();
        self.stack.replace(tied(held, deepest))?;
        Ok(false)
    }

    /// APPEND, which leaves the list.
    pub(super) fn append(&mut self) -> Result<bool, Halt>
        ensures billed { OnOk result (op_billed Op.Append self.old ≡ Ok self.new) }
        ensures quiet { OnOk result (IsQuiet self.old self.new) }
        ensures lost { OnErr result (IsLost (op_billed Op.Append self.old) self.old) }
    {
        let Some(_item) = self.stack.pop_object() else {
            return Err(Halt::Lost);
        };
        let Some(_list) = self.stack.top() else {
            return Err(Halt::Lost);
        };
        self.memory = after_operation(Op::Append, 2, self.memory)?;
        Ok(false)
    }

    /// SETITEM, which leaves the dict. Returns true, since it counts a key.
    #[inline(never)]
    pub(super) fn set(&mut self) -> Result<bool, Halt>
        ensures billed { OnOk result (op_billed Op.SetItem self.old ≡ Ok self.new) }
        ensures counted { IfOk result (λ counted. counted ≡ true) }
        ensures lost { OnErr result (IsLost (op_billed Op.SetItem self.old) self.old) }
    {
        let Some(_value) = self.stack.pop_object() else {
            return Err(Halt::Lost);
        };
        let Some(key) = self.stack.pop_object() else {
            return Err(Halt::Lost);
        };
        let Some(_dict) = self.stack.top() else {
            return Err(Halt::Lost);
        };
        self.memory = after_operation(Op::SetItem, 3, self.memory)?;
        self.tally.add(key)?;
        Ok(true)
    }
}
