//! Operations that answer: an answer costs what it may hold, and a name costs one.

ghost use Rattle.std.specs.Prelude.{◌≡◌, ◌+◌, [], IfOk, Ok, OnErr, OnOk, false, true};
ghost use Rattle.pkstack.specs.Shape.{items};
ghost use Rattle.pkload.specs.Private.Billing.{IsAnswered, IsQuiet, action_of, op_billed};
ghost use Rattle.pkload.specs.Private.Lost.{LacksSum};
ghost use Rattle.pkload.specs.Unkept.{IsLost};

use super::Machine;
use crate::action::Action;
use crate::gathering::answered_all;
use crate::halt::{Halt, plus};
use crate::making::answered;
use crate::packed::PackedHeft;
use pkops::Op;

impl Machine {
    /// Does what an opcode says that takes objects and has no action of its own. Returns whether it
    /// may have counted keys.
    #[tactic(auto, using(crate::proofs::Losses::answer_lost))]
    pub(super) fn operate(&mut self, op: Op) -> Result<bool, Halt>
        requires { action_of op ≡ Action.Operates }
        ensures billed { OnOk result (op_billed op self.old ≡ Ok self.new) }
        ensures lost { OnErr result (IsLost (op_billed op self.old) self.old) }
        ensures quiet { IfOk result (λ noted. noted ≡ false → IsQuiet self.old self.new) }
    {
        match op {
            Op::List => self.list_slice(),
            Op::Dict => self.dict_slice(),
            Op::StackGlobal => self.name(),
            Op::Reduce | Op::NewObj => self.answer_two(),
            Op::NewObjEx => self.answer_three(),
            Op::BinPersid => self.answer_one(16),
            Op::ReadonlyBuffer => self.answer_one(496),
            Op::Inst => self.answer_slice(false),
            Op::Obj => self.answer_slice(true),
            _ => Err(Halt::Lost),
        }
    }

    /// STACK_GLOBAL. Returns false, as do the next ones.
    #[inline(always)]
    #[tactic(auto, using(crate::proofs::Losses::nothing_found))]
    fn name(&mut self) -> Result<bool, Halt>
        ensures answered { OnOk result (IsAnswered (items 2 self.old.shape.entries [])
            (record { weight = 1; depth = 0; salted = true; imported = true }) 16
            self.old self.new) }
        ensures quiet { OnOk result (IsQuiet self.old self.new) }
        ensures lost { OnErr result (LacksSum (items 2 self.old.shape.entries [])
            (self.old.memory + 16)) }
    {
        self.stack
            .replace_objects(2, PackedHeft::new(1, 0, true, true))?;
        self.memory = plus(self.memory, 16)?;
        Ok(false)
    }

    /// BINPERSID, or READONLY_BUFFER, whose answer takes more memory.
    #[inline(never)]
    fn answer_one(&mut self, more: u64) -> Result<bool, Halt>
        ensures persid { more ≡ 16 → OnOk result (op_billed Op.BinPersid self.old ≡ Ok self.new) }
        ensures buffer { more ≡ 496
            → OnOk result (op_billed Op.ReadonlyBuffer self.old ≡ Ok self.new) }
        ensures quiet { OnOk result (IsQuiet self.old self.new) }
        ensures persid_lost { more ≡ 16
            → OnErr result (IsLost (op_billed Op.BinPersid self.old) self.old) }
        ensures buffer_lost { more ≡ 496
            → OnErr result (IsLost (op_billed Op.ReadonlyBuffer self.old) self.old) }
    {
        let Some(operand) = self.stack.top() else {
            return Err(Halt::Lost);
        };
        self.memory = plus(self.memory, more)?;
        self.stack
            .replace(answered(operand.weight(), operand.depth()))?;
        Ok(false)
    }

    /// REDUCE, or NEWOBJ.
    #[inline(never)]
    fn answer_two(&mut self) -> Result<bool, Halt>
        ensures reduce { OnOk result (op_billed Op.Reduce self.old ≡ Ok self.new) }
        ensures newobj { OnOk result (op_billed Op.NewObj self.old ≡ Ok self.new) }
        ensures quiet { OnOk result (IsQuiet self.old self.new) }
        ensures reduce_lost { OnErr result (IsLost (op_billed Op.Reduce self.old) self.old) }
        ensures newobj_lost { OnErr result (IsLost (op_billed Op.NewObj self.old) self.old) }
    {
        let Some(arguments) = self.stack.pop_object() else {
            return Err(Halt::Lost);
        };
        let Some(called) = self.stack.top() else {
            return Err(Halt::Lost);
        };
        self.memory = plus(self.memory, 16)?;
        let deepest = called.depth().max(arguments.depth());
        let held = called.weight() + arguments.weight();
        self.stack.replace(answered(held, deepest))?;
        Ok(false)
    }

    /// NEWOBJ_EX.
    #[inline(never)]
    fn answer_three(&mut self) -> Result<bool, Halt>
        ensures billed { OnOk result (op_billed Op.NewObjEx self.old ≡ Ok self.new) }
        ensures quiet { OnOk result (IsQuiet self.old self.new) }
        ensures lost { OnErr result (IsLost (op_billed Op.NewObjEx self.old) self.old) }
    {
        let Some(keywords) = self.stack.pop_object() else {
            return Err(Halt::Lost);
        };
        let Some(arguments) = self.stack.pop_object() else {
            return Err(Halt::Lost);
        };
        let Some(class) = self.stack.top() else {
            return Err(Halt::Lost);
        };
        self.memory = plus(self.memory, 16)?;
        let deepest = class.depth().max(arguments.depth()).max(keywords.depth());
        let held = class.weight() + arguments.weight() + keywords.weight();
        self.stack.replace(answered(held, deepest))?;
        Ok(false)
    }

    /// INST, or OBJ, which takes one object at least.
    fn answer_slice(&mut self, wants_some: bool) -> Result<bool, Halt>
        ensures inst { OnOk result (op_billed Op.Inst self.old ≡ Ok self.new) }
        ensures obj { wants_some ≡ true → OnOk result (op_billed Op.Obj self.old ≡ Ok self.new) }
        ensures quiet { OnOk result (IsQuiet self.old self.new) }
        ensures inst_lost { wants_some ≡ false
            → OnErr result (IsLost (op_billed Op.Inst self.old) self.old) }
        ensures obj_lost { wants_some ≡ true
            → OnErr result (IsLost (op_billed Op.Obj self.old) self.old) }
    {
        let heft = answered_all(self.stack.objects());
        let count = self.stack.replace_slice(heft)?;
        if wants_some && count == 0 {
            return Err(Halt::Lost);
        }
        self.memory = plus(self.memory, 16)?;
        Ok(false)
    }

    /// BUILD, which leaves the object. Returns true, since that may be imported.
    #[inline(never)]
    pub(super) fn build(&mut self) -> Result<bool, Halt>
        ensures billed { OnOk result (op_billed Op.Build self.old ≡ Ok self.new) }
        ensures counted { IfOk result (λ counted. counted ≡ true) }
        ensures lost { OnErr result (IsLost (op_billed Op.Build self.old) self.old) }
    {
        let Some(_state) = self.stack.pop_object() else {
            return Err(Halt::Lost);
        };
        let Some(object) = self.stack.top() else {
            return Err(Halt::Lost);
        };
        self.memory = plus(self.memory, 16)?;
        self.tally = self.tally.building(object.is_imported());
        Ok(true)
    }
}
