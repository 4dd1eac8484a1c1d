//! What is known before an instruction: the stack, the memo, the texts that both refer to by
//! number, and the imports so far.
ghost use Rattle.std.specs.Prelude.{◌≡◌, ◌≤◌, ◌++◌, [], length, IfOk, IfErr};
ghost use Rattle.std.specs.Prelude.{None, OnErr, OnOk, Some, false, suc};
ghost use Rattle.pkmachine.specs.Effects.{effect_of};
ghost use Rattle.pkmachine.specs.Private.Actions.{IsOperation, IsUnnamed};
ghost use Rattle.pkmachine.specs.Private.Steps.{IsStepFault};
ghost use Rattle.pkmachine.specs.Private.StepErrors.{IsStopFault, Proceeds};
ghost use Rattle.pkstack.specs.Faults.{IsFaultOf, WantsRoom};
ghost use Rattle.pkmachine.specs.Private.StepErrors.{pair_of_error, with_item, with_made};
ghost use Rattle.pkmachine.specs.Private.Spelled.{IsSpelled};
ghost use Rattle.pkmachine.specs.Private.Items.{with_made_item};
ghost use Rattle.pkmachine.specs.Following.{carried_on, followed, followed_by, move_followed};
ghost use Rattle.pkmachine.specs.Following.{HasLength, is_described, nothing_carried};
ghost use Rattle.pkmachine.specs.Following.{stop_followed};
ghost use Rattle.pkmachine.specs.declared.memo.Memo.TheVariants as Memo;
ghost use Rattle.pkmachine.specs.Runs.{Text, text};
ghost use Rattle.pkmachine.specs.Policies.{permit_of};
ghost use Rattle.pkmachine.specs.Knowledge.{learn, stop_learned, nothing_known};
ghost use Rattle.pkmachine.specs.Knowledge.{Policy as Pairs};
ghost use Rattle.pkops.specs.Spelling.{Instruction};
ghost use Rattle.pkstack.specs.Shape.{marks_of, moved, number_moved, top};
ghost use Rattle.pkops.specs.Inst.{instruction_of};
ghost use Rattle.pkops.specs.Operands.{memo_number};

use crate::config::MachineConfig;
use crate::domain::{Domain, Item};
use crate::effect::Class;
use crate::held::Held;
use crate::new_text::make_text;
use crate::operate::{Spelled, StepError, lines_of, operate_named, operate_unnamed};
use crate::packed::PackedValue;
use crate::policy::Permit;
use crate::stack::{MemoTable, Stack};
use pkimport::{ImportList, ImportTable, Imports};
use pkops::{Inst, Limits, Op, Reason};
use pkstack::{Move, apply};
use std::alloc::{AllocError, Global};
use std::marker::Model;
use std::mem;

/// What is known about the stack and the memo, and the imports so far.
#[derive(Drop)]
pub struct MachineState<D: Domain> {
    stack: Stack<D::Item>,
    memo: MemoTable<D::Item>,
    table: ImportTable,
    domain: D,
}

impl<D: Domain> Model for MachineState<D> {
    ghost use Rattle.std.specs.Prelude.{length};
    ghost use Rattle.pkmachine.specs.Private.Items.{CarriedState, shape_of};
    ghost use Rattle.pkmachine.specs.Private.Slots.{Resolves, resolved};

    ghost Value = { CarriedState D.Item D };

    ghost view = { λ h. record {
      view = record {
        knowledge = resolved h.table.texts (record { entries = h.stack; memo = h.memo });
        texts = length h.table.texts;
        imports = h.table.asked;
      };
      carried = record {
        shape = shape_of (record { entries = h.stack; memo = h.memo });
        domain = h.domain;
      };
    } };

    ghost invariant = { λ h.
        Resolves h.table.texts (record { entries = h.stack; memo = h.memo }) };
}

impl<D: Domain> MachineState<D> {
    /// An empty stack and memo, with no imports. Allocates nothing.
    pub fn new(alloc: Global, domain: D) -> MachineState<D>
        ensures known { result.view
            ≡ record { knowledge = nothing_known; texts = 0; imports = [] } }
        ensures carried { result.carried ≡ nothing_carried domain }
    {
        MachineState {
            stack: Stack::new(alloc),
            memo: MemoTable::new(alloc, no_object()),
            table: ImportTable::new(alloc),
            domain,
        }
    }

    /// Removes everything, and keeps the memory.
    pub fn clear(&mut self)
        ensures known { self.new.view
            ≡ record { knowledge = nothing_known; texts = 0; imports = [] } }
        ensures carried { self.new.carried ≡ carried_on Memo.Fresh self.old.carried }
    {
        self.stack.clear();
        self.memo.clear();
        self.table.clear();
    }

    /// Clears the stack, and keeps the rest.
    pub fn clear_stack(&mut self)
        ensures known { self.new.view ≡ record {
          knowledge = record { entries = []; memo = self.old.view.knowledge.memo };
          texts = self.old.view.texts;
          imports = self.old.view.imports;
        } }
        ensures carried { self.new.carried ≡ carried_on Memo.Kept self.old.carried }
    {
        self.stack.clear();
    }

    /// What follows the objects along.
    pub fn domain(&self) -> D
        ensures { result ≡ self.now.carried.domain }
    {
        self.domain
    }

    /// The number of open marks.
    pub fn marks(&self) -> usize
        ensures { result ≡ marks_of self.now.view.knowledge.entries }
    {
        self.stack.marks()
    }

    /// The number of texts in the table.
    pub fn texts(&self) -> usize
        ensures { result ≡ self.now.view.texts }
    {
        self.table.texts()
    }

    /// The imports, borrowed.
    pub fn imports(&self) -> ImportList<'_>
        ensures { result ≡ self.now.view.imports }
    {
        self.table.imports()
    }

    /// Appends the imports to a table.
    pub fn list_in(&self, alloc: Global, imports: &mut ImportTable) -> Result<(), AllocError>
        ensures { OnOk result (imports.new.asked ≡ imports.old.asked ++ self.now.view.imports) }
    {
        imports.append(alloc, &self.table)
    }

    /// Moves the imports out, and forgets the rest.
    pub fn take_imports(&mut self, alloc: Global) -> Imports
        ensures imports { result ≡ self.old.view.imports }
        ensures after { self.new.view
            ≡ record { knowledge = nothing_known; texts = 0; imports = [] } }
        ensures carried { self.new.carried ≡ carried_on Memo.Fresh self.old.carried }
    {
        self.stack.clear();
        self.memo.clear();
        Imports::from_table(mem::replace(&mut self.table, ImportTable::new(alloc)))
    }

    /// Pushes a new object of this class, which the instruction makes.
    #[inline(always)]
    pub fn make(&mut self, limits: &Limits, class: Class, inst: &Inst<'_>) -> Result<(), Reason>
        ensures ok { OnOk result (self.new.view.knowledge
            ≡ with_made class self.old.view.knowledge) }
        ensures carried { OnOk result (self.new.carried
            ≡ with_made_item D.follows (instruction_of inst.now) self.old.carried) }
        ensures room { OnOk result (length self.new.view.knowledge.entries ≤ limits.now.stack) }
        ensures texts { self.new.view.texts ≡ self.old.view.texts }
        ensures imports { self.new.view.imports ≡ self.old.view.imports }
        ensures kept { OnErr result (self.new.view ≡ self.old.view) }
        ensures err { IfErr result (WantsRoom limits.now.stack
            (length self.old.view.knowledge.entries)) }
    {
        let item = self.domain.made(inst);
        self.stack.push(
            limits,
            Held {
                value: PackedValue::made(class),
                item,
            },
        )
    }

    /// Pushes a new object of this class, which an instruction of `count` bytes makes, whose
    /// payload was skipped.
    pub fn make_passed(
        &mut self,
        limits: &Limits,
        class: Class,
        op: Op,
        count: u64,
    ) -> Result<(), Reason>
        ensures ok { OnOk result (self.new.view.knowledge
            ≡ with_made class self.old.view.knowledge) }
        ensures carried { (i : Instruction) → HasLength i op count → OnOk result (self.new.carried
            ≡ with_made_item D.follows i self.old.carried) }
        ensures room { OnOk result (length self.new.view.knowledge.entries ≤ limits.now.stack) }
        ensures texts { self.new.view.texts ≡ self.old.view.texts }
        ensures imports { self.new.view.imports ≡ self.old.view.imports }
        ensures kept { OnErr result (self.new.view ≡ self.old.view) }
        ensures err { IfErr result (WantsRoom limits.now.stack
            (length self.old.view.knowledge.entries)) }
    {
        let item = self.domain.passed(op, count);
        self.stack.push(
            limits,
            Held {
                value: PackedValue::made(class),
                item,
            },
        )
    }

    /// Pushes an object about which nothing is known, which the instruction makes.
    pub fn answer(&mut self, limits: &Limits, inst: &Inst<'_>) -> Result<(), Reason>
        ensures ok { OnOk result (self.new.view.knowledge
            ≡ with_item None self.old.view.knowledge) }
        ensures carried { OnOk result (self.new.carried
            ≡ with_made_item D.follows (instruction_of inst.now) self.old.carried) }
        ensures room { OnOk result (length self.new.view.knowledge.entries ≤ limits.now.stack) }
        ensures texts { self.new.view.texts ≡ self.old.view.texts }
        ensures imports { self.new.view.imports ≡ self.old.view.imports }
        ensures kept { OnErr result (self.new.view ≡ self.old.view) }
        ensures err { IfErr result (WantsRoom limits.now.stack
            (length self.old.view.knowledge.entries)) }
    {
        let item = self.domain.made(inst);
        self.stack.push(
            limits,
            Held {
                value: PackedValue::unknown(),
                item,
            },
        )
    }

    /// Pushes the text that an instruction spells.
    #[inline(always)]
    pub fn make_text(&mut self, config: &MachineConfig, inst: &Inst<'_>) -> Result<(), Reason>
        requires spells { IsSpelled (instruction_of inst.now).arg }
        ensures ok { OnOk result (self.new.view.knowledge
            ≡ with_item (Some (Text (text (instruction_of inst.now)))) self.old.view.knowledge) }
        ensures carried { OnOk result (self.new.carried
            ≡ with_made_item D.follows (instruction_of inst.now) self.old.carried) }
        ensures room { OnOk result (length self.new.view.knowledge.entries
            ≤ config.now.limits.stack) }
        ensures texts { OnOk result (self.new.view.texts ≡ suc self.old.view.texts) }
        ensures imports { OnOk result (self.new.view.imports ≡ self.old.view.imports) }
        ensures kept { OnErr result (self.new.view ≡ self.old.view) }
        ensures err { IfErr result (WantsRoom config.now.limits.stack
            (length self.old.view.knowledge.entries)) }
    {
        let item = self.domain.made(inst);
        make_text(&mut self.stack, &mut self.table, item, config, inst)
    }

    /// Applies a move to the stack and the memo.
    #[inline(always)]
    pub fn apply(&mut self, limits: &Limits, what: Move, inst: &Inst<'_>) -> Result<(), Reason>
        requires stack { length self.old.view.knowledge.entries ≤ limits.now.stack }
        requires memo { length self.old.view.knowledge.memo ≤ limits.now.memo }
        ensures ok { OnOk result (moved what (memo_number (instruction_of inst.now))
            self.old.view.knowledge ≡ Ok self.new.view.knowledge) }
        ensures carried { OnOk result (move_followed D.follows what (instruction_of inst.now)
            self.old.carried ≡ Ok self.new.carried) }
        ensures room { OnOk result ((length self.new.view.knowledge.entries ≤ limits.now.stack)
            × (length self.new.view.knowledge.memo ≤ limits.now.memo)) }
        ensures number { OnOk result (number_moved what (memo_number (instruction_of inst.now))
            ≤ limits.now.numbers) }
        ensures texts { self.new.view.texts ≡ self.old.view.texts }
        ensures imports { self.new.view.imports ≡ self.old.view.imports }
        ensures err { IfErr result (λ r. (self.new.view ≡ self.old.view)
            × IsFaultOf what limits.now (memo_number (instruction_of inst.now))
            (moved what (memo_number (instruction_of inst.now)) self.old.view.knowledge) r) }
    {
        self.domain.moved(what, self.memo.len(), inst);
        apply(&mut self.stack, &mut self.memo, limits, what, inst)
    }

    /// Applies the operation of an opcode that imports nothing.
    #[inline(always)]
    pub fn operate(&mut self, limits: &Limits, op: Op) -> Result<(), Reason>
        requires within { length self.old.view.knowledge.entries ≤ limits.now.stack }
        requires unnamed { IsUnnamed (effect_of op) }
        requires plain { is_described op ≡ false }
        ensures ok { (p : Pairs) (i : Instruction) → OnOk result (Proceeds
            (learn p (effect_of op) i self.old.view.knowledge) self.new.view.knowledge
            self.old.view.imports self.new.view.imports false) }
        ensures carried { (i : Instruction) → i.op ≡ op → OnOk result (followed_by D.follows
            (effect_of op) i self.old.carried ≡ Ok self.new.carried) }
        ensures room { OnOk result ((length self.new.view.knowledge.entries ≤ limits.now.stack)
            × (length self.new.view.knowledge.memo ≡ length self.old.view.knowledge.memo)) }
        ensures texts { self.new.view.texts ≡ self.old.view.texts }
        ensures kept { OnErr result (self.new.view ≡ self.old.view) }
        ensures err { (p : Pairs) (i : Instruction) → IfErr result (λ r. IsStepFault p limits.now
            (effect_of op) i self.old.view.knowledge r None) }
    {
        operate_unnamed(&mut self.stack, &mut self.domain, limits, op)?;
        Ok(())
    }

    /// Applies the operation of an instruction that imports a pair. Returns whether an import was
    /// listed.
    #[inline(always)]
    pub fn operate_named(
        &mut self,
        config: &MachineConfig,
        inst: &Inst,
        policy: &Permit,
    ) -> Result<bool, StepError>
        requires within { length self.old.view.knowledge.entries ≤ config.now.limits.stack }
        requires operation { IsOperation (effect_of (instruction_of inst.now).op) }
        requires plain { is_described (instruction_of inst.now).op ≡ false }
        ensures ok { IfOk result (Proceeds (learn (permit_of policy.now)
            (effect_of (instruction_of inst.now).op) (instruction_of inst.now)
            self.old.view.knowledge) self.new.view.knowledge self.old.view.imports
            self.new.view.imports) }
        ensures carried { OnOk result (followed D.follows (instruction_of inst.now)
            self.old.carried ≡ Ok self.new.carried) }
        ensures room { OnOk result ((length self.new.view.knowledge.entries
            ≤ config.now.limits.stack)
            × (length self.new.view.knowledge.memo ≡ length self.old.view.knowledge.memo)) }
        ensures texts { self.new.view.texts ≡ self.old.view.texts }
        ensures kept { OnErr result (self.new.view ≡ self.old.view) }
        ensures err { IfErr result (λ d. IsStepFault (permit_of policy.now) config.now.limits
            (effect_of (instruction_of inst.now).op) (instruction_of inst.now)
            self.old.view.knowledge d.reason (pair_of_error d)) }
    {
        let spelled = Spelled {
            op: inst.op(),
            lines: lines_of(inst),
        };
        operate_named(
            &mut self.stack,
            &mut self.domain,
            &mut self.table,
            config,
            &spelled,
            policy,
        )
    }

    /// Pops the result. Refuses with `LeftOver` if anything else is on the stack.
    pub fn finish(&mut self) -> Result<(), Reason>
        ensures ok { OnOk result (stop_learned self.old.view.knowledge.memo
            (top self.old.view.knowledge.entries)
            ≡ Ok (record { after = self.new.view.knowledge; import = None })) }
        ensures carried { OnOk result (stop_followed D.follows self.old.carried
            ≡ Ok self.new.carried) }
        ensures texts { self.new.view.texts ≡ self.old.view.texts }
        ensures imports { self.new.view.imports ≡ self.old.view.imports }
        ensures room { (length self.new.view.knowledge.entries
            ≤ length self.old.view.knowledge.entries)
            × (self.new.view.knowledge.memo ≡ self.old.view.knowledge.memo) }
        ensures kept { OnErr result (self.new.view ≡ self.old.view) }
        ensures err { IfErr result (λ r. IsStopFault (stop_learned self.old.view.knowledge.memo
            (top self.old.view.knowledge.entries)) r) }
    {
        self.stack.top()?;
        if self.stack.len() > 1 {
            return Err(Reason::LeftOver);
        }
        self.stack.truncate(0);
        self.domain.stopped();
        Ok(())
    }
}

/// What the memo holds where it holds no object.
fn no_object<I: Item>() -> Held<I> {
    Held {
        value: PackedValue::unknown(),
        item: I::none(),
    }
}
