//! The machine that keeps the bill.

ghost use Rattle.std.specs.Prelude.{◌≡◌, ◌⊎◌, IfOk, Ok, OnErr, OnOk, false, true};
ghost use Rattle.pkops.specs.Inst.{instruction_of};
ghost use Rattle.pkops.specs.Operands.{memo_number};
ghost use Rattle.pkcheck.specs.Reports.{Skipped};
ghost use Rattle.pkstack.specs.Shape.{top};
ghost use Rattle.pkload.specs.Bill.{billed, moved_by, no_bill, stop_billed};
ghost use Rattle.pkload.specs.Private.Billing.{IfBilled, IsQuiet, pushed};
ghost use Rattle.pkload.specs.Unkept.{CantBeKept, IsLost, MayAdd};
ghost use Rattle.pkload.specs.Private.Told.{next_in, told_billed};

mod answering;
mod operating;
mod reading;
mod slicing;

use crate::action::{Action, action_of};
use crate::halt::{Billing, Halt, plus};
use crate::memo::MemoTable;
use crate::memory::{after_move, after_stop, argument_bytes, number_kept};
use crate::moves::apply;
use crate::packed::{LIGHT, PackedHeft};
use crate::stack::Stack;
use crate::tally::Tally;
use pkcheck::Memo;
use pkops::{Inst, Op};
use pkstack::Move;
use std::alloc::Global;
use std::marker::Model;

/// The cost of each object on the stack and in the memo, what was counted, the memory that loading
/// takes, the highest memo number so far, and whether the pickle stopped.
pub struct Machine {
    stack: Stack,
    memo: MemoTable,
    tally: Tally,
    memory: u64,
    highest: u32,
    ended: bool,
}

impl Drop for Machine {
    fn drop(self) {
        let Machine {
            stack: _stack,
            memo: _memo,
            tally: _tally,
            memory: _memory,
            highest: _highest,
            ended: _ended,
        } = self;
    }
}

impl Model for Machine {
    ghost use Rattle.pkload.specs.Bill.{Bill};

    ghost Value = { Bill };

    ghost view = { λ m. record {
      shape = record { entries = m.stack; memo = m.memo };
      tally = m.tally;
      memory = m.memory;
      highest = m.highest;
      ended = m.ended;
    } };
}

impl Machine {
    /// A machine at the first instruction. Allocates nothing.
    pub fn new(alloc: Global) -> Machine
        ensures { result ≡ no_bill }
    {
        Machine {
            stack: Stack::new(alloc),
            memo: MemoTable::new(alloc, PackedHeft::from_code(LIGHT)),
            tally: Tally::new(),
            memory: 0,
            highest: 0,
            ended: false,
        }
    }

    /// What was counted.
    pub fn tally(&self) -> Tally
        ensures { result ≡ self.now.tally }
    {
        self.tally
    }

    /// The memory that loading takes.
    pub fn memory(&self) -> u64
        ensures { result ≡ self.now.memory }
    {
        self.memory
    }

    /// Whether the pickle stopped.
    pub fn ended(&self) -> bool
        ensures { result ≡ self.now.ended }
    {
        self.ended
    }

    /// Begins the next pickle of a row.
    pub fn begin_next(&mut self, between: Memo)
        ensures { self.new ≡ next_in between self.old }
    {
        match between {
            Memo::Fresh => {
                self.memo.clear();
                self.highest = 0;
            }
            Memo::Kept => {}
        }
        self.stack.clear();
        self.tally = Tally::new();
        self.memory = 0;
        self.ended = false;
    }

    /// Pushes a new object, which costs this as a key and takes this much memory. Returns false.
    #[inline(always)]
    fn make(&mut self, heft: PackedHeft, more: u64) -> Result<bool, Halt>
        ensures { OnOk result (self.new ≡ pushed heft more self.old) }
    {
        // In this order, nothing but the number of entries is kept over a call for more room.
        self.memory = plus(self.memory, more)?;
        self.stack.push(heft)?;
        Ok(false)
    }

    /// Takes the result. Returns true, since it ends the pickle.
    #[inline(never)]
    fn finish(&mut self) -> Result<bool, Halt>
        ensures ends { IfOk result (λ noted. noted ≡ true) }
        ensures billed { OnOk result (stop_billed self.old (top self.old.shape.entries)
            ≡ Ok self.new) }
        ensures lost { OnErr result (IsLost (stop_billed self.old (top self.old.shape.entries))
            self.old) }
    {
        let Some(_heft) = self.stack.pop_object() else {
            return Err(Halt::Lost);
        };
        self.memory = after_stop(self.memory)?;
        self.ended = true;
        Ok(true)
    }

    /// Executes a move that may name this number. Returns false.
    #[inline(always)]
    fn go(&mut self, what: Move, number: u32) -> Result<bool, Halt>
        ensures billed { OnOk result (moved_by what number self.old ≡ Ok self.new) }
        ensures quiet { OnOk result (IsQuiet self.old self.new) }
        ensures lost { OnErr result (MayAdd what number self.old.shape
            ⊎ IsLost (moved_by what number self.old) self.old) }
    {
        let kept = number_kept(what, number, &self.memo)?;
        apply(&mut self.stack, &mut self.memo, what, number)?;
        let highest = kept.max(self.highest);
        self.memory = after_move(what, highest - self.highest, self.memory)?;
        self.highest = highest;
        Ok(false)
    }

    /// Executes a move that names a number. Returns false.
    #[inline(always)]
    fn go_to(&mut self, what: Move, inst: &Inst<'_>) -> Result<bool, Halt>
        ensures billed { OnOk result (moved_by what (memo_number (instruction_of inst.now)) self.old
            ≡ Ok self.new) }
        ensures quiet { OnOk result (IsQuiet self.old self.new) }
        ensures lost { OnErr result
            (MayAdd what (memo_number (instruction_of inst.now)) self.old.shape
            ⊎ IsLost (moved_by what (memo_number (instruction_of inst.now)) self.old) self.old) }
    {
        self.go(what, inst.memo_number().unwrap_or(0))
    }

    /// Executes a move that is rare and names no number. Returns false.
    #[inline(never)]
    fn go_rarely(&mut self, what: Move) -> Result<bool, Halt>
        ensures billed { OnOk result (moved_by what 0 self.old ≡ Ok self.new) }
        ensures quiet { OnOk result (IsQuiet self.old self.new) }
        ensures lost { OnErr result (MayAdd what 0 self.old.shape
            ⊎ IsLost (moved_by what 0 self.old) self.old) }
    {
        self.go(what, 0)
    }

    /// Bills an instruction with this opcode and so many bytes, whose payload is skipped. An
    /// opcode without a payload of plain bytes is never skipped.
    #[inline(always)]
    pub fn step_skipped(&mut self, op: Op, count: u64) -> Billing
        requires running { self.old.ended ≡ false }
        ensures billed { IfBilled result (told_billed (Skipped op count) self.old ≡ Ok self.new) }
        ensures quiet { IfBilled result (IsQuiet self.old self.new) }
    {
        match op {
            Op::ShortBinBytes => Billing::of(self.hold(count.saturating_sub(2))),
            Op::BinBytes => Billing::of(self.hold(count.saturating_sub(5))),
            Op::BinBytes8 => Billing::of(self.hold(count.saturating_sub(9))),
            Op::ByteArray8 => Billing::of(self.hold_array(count.saturating_sub(9))),
            _ => Billing::Failed,
        }
    }

    /// Does what the opcode of an instruction says.
    ///
    /// What is rare is out of line, and so are most operations: in a function that would grow large
    /// the compiler inlines nothing. No address of the instruction is passed on, since that would
    /// force it into memory in every step.
    #[inline(always)]
    #[tactic(auto, using(crate::proofs::Losses::failed_by, crate::proofs::Losses::failed_room))]
    pub fn step(&mut self, inst: &Inst<'_>) -> Billing
        requires running { self.old.ended ≡ false }
        ensures billed { IfBilled result (billed (instruction_of inst.now) self.old
            ≡ Ok self.new) }
        ensures quiet { result ≡ Billing.Plain → IsQuiet self.old self.new }
        ensures failed { result ≡ Billing.Failed → CantBeKept (instruction_of inst.now) self.old }
    {
        match action_of(inst.op()) {
            Action::Makes(more) => {
                Billing::of(self.make(PackedHeft::new(1, 0, false, false), more))
            }
            Action::MakesTuple => Billing::of(self.make(PackedHeft::new(1, 1, false, false), 16)),
            Action::Fetches => Billing::of(self.go_to(Move::Fetches, inst)),
            Action::StoresNext => Billing::of(self.go(Move::StoresNext, 0)),
            Action::Stores => Billing::of(self.go_to(Move::Stores, inst)),
            Action::Marks => Billing::of(self.go(Move::PushesMark, 0)),
            Action::Texts => Billing::of(self.read_text(argument_bytes(inst))),
            Action::TiesOne => Billing::of(self.tie_one()),
            Action::TiesTwo => Billing::of(self.tie_two()),
            Action::TiesThree => Billing::of(self.tie_three()),
            Action::Appends => Billing::of(self.append()),
            Action::AppendsSlice => Billing::of(self.append_slice()),
            Action::AddsSlice => Billing::of(self.add_slice()),
            Action::TiesSlice => Billing::of(self.tie_slice()),
            Action::FreezesSlice => Billing::of(self.freeze_slice()),
            Action::Sets => Billing::of(self.set()),
            Action::SetsSlice => Billing::of(self.set_slice()),
            Action::Operates => Billing::of(self.operate(inst.op())),
            Action::Reads => Billing::of(self.read(inst.op(), argument_bytes(inst))),
            Action::Builds => Billing::of(self.build()),
            Action::Pops => Billing::of(self.go_rarely(Move::Pops)),
            Action::PopsMark => Billing::of(self.go_rarely(Move::PopsMark)),
            Action::Duplicates => Billing::of(self.go_rarely(Move::Duplicates)),
            Action::Passes => Billing::of(self.go_rarely(Move::NoOp)),
            Action::Extends => Billing::Failed,
            Action::Stops => Billing::of(self.finish()),
        }
    }
}
