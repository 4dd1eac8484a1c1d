//! The bill of one pickle of a row after the other.

ghost use Rattle.std.specs.Prelude.{◌≡◌, IfErr, OnOk, Ok, false, suc, true};
ghost use Rattle.pkops.specs.Inst.{instruction_of};
ghost use Rattle.pkcheck.specs.Reports.{Skipped, Whole};
ghost use Rattle.pkload.specs.Bill.{no_bill};
ghost use Rattle.pkmachine.specs.declared.memo.Memo.{Memo as Between};
ghost use Rattle.pkload.specs.Private.Billing.{IfBilled, IsQuiet};
ghost use Rattle.pkload.specs.Private.Lost.{IsTooGreat};
ghost use Rattle.pkload.specs.Private.Told.{CantBeMetered, metered_told, next_if, ready};

use crate::halt::{Billing, Halt, plus};
use crate::machine::Machine;
use pkcheck::Memo;
use pkops::{Inst, Op};
use std::alloc::Global;
use std::marker::Model;

/// The bill of a pickle, and the number of the pickle.
pub struct Metering {
    /// Its bill.
    pub machine: Machine,
    /// The number of the pickle.
    pub pickle: u64,
}

impl Drop for Metering {
    fn drop(self) {
        let Metering {
            machine: _machine,
            pickle: _pickle,
        } = self;
    }
}

impl Model for Metering {
    ghost use Rattle.pkload.specs.Private.Told.{Metering as View};

    ghost Value = { View };

    ghost view = { λ m. record { pickle = m.pickle; bill = m.machine } };
}

impl Metering {
    /// The bill of the first pickle at its first instruction. Allocates nothing.
    pub fn new(alloc: Global) -> Metering
        ensures { result ≡ record { pickle = 0; bill = no_bill } }
    {
        Metering {
            machine: Machine::new(alloc),
            pickle: 0,
        }
    }

    /// Begins the next pickle, if one has ended.
    fn begin(&mut self, memo: Memo) -> Result<(), Halt>
        ensures ok { OnOk result (self.new ≡ ready memo self.old) }
        ensures err { IfErr result (λ halt. (self.old.bill.ended ≡ true)
            × IsTooGreat (suc self.old.pickle) halt) }
    {
        if self.machine.ended() {
            return self.begin_next(memo);
        }
        Ok(())
    }

    /// Begins the next pickle.
    fn begin_next(&mut self, memo: Memo) -> Result<(), Halt>
        ensures ok { OnOk result (self.new ≡ next_if true memo self.old) }
        ensures err { IfErr result (IsTooGreat (suc self.old.pickle)) }
    {
        self.pickle = plus(self.pickle, 1)?;
        self.machine.begin_next(memo);
        Ok(())
    }

    /// Bills an instruction that is reported whole.
    pub fn bill(&mut self, memo: Memo, inst: &Inst<'_>) -> Billing
        ensures billed { IfBilled result (metered_told memo (Whole (instruction_of inst.now))
            self.old ≡ Ok self.new) }
        ensures failed { result ≡ Billing.Failed
            → CantBeMetered (ready memo self.old) (Whole (instruction_of inst.now)) }
    {
        let Ok(()) = self.begin(memo) else {
            return Billing::Failed;
        };
        self.machine.step(inst)
    }

    /// Bills an instruction that is reported whole, of a pickle that hasn't ended.
    #[inline(always)]
    pub fn bill_next(&mut self, inst: &Inst<'_>) -> Billing
        requires running { self.old.bill.ended ≡ false }
        ensures billed { (memo : Between) → IfBilled result
            (metered_told memo (Whole (instruction_of inst.now)) self.old ≡ Ok self.new) }
        ensures quiet { result ≡ Billing.Plain → IsQuiet self.old.bill self.new.bill }
        ensures failed { result ≡ Billing.Failed → (memo : Between)
            → CantBeMetered (ready memo self.old) (Whole (instruction_of inst.now)) }
    {
        self.machine.step(inst)
    }

    /// Bills an instruction whose payload is skipped.
    pub fn bill_skipped(&mut self, memo: Memo, op: Op, count: u64) -> Billing
        ensures billed { IfBilled result (metered_told memo (Skipped op count) self.old
            ≡ Ok self.new) }
    {
        let Ok(()) = self.begin(memo) else {
            return Billing::Failed;
        };
        self.machine.step_skipped(op, count)
    }

    /// Bills an instruction whose payload is skipped, of a pickle that hasn't ended.
    #[inline(always)]
    pub fn bill_next_skipped(&mut self, op: Op, count: u64) -> Billing
        requires running { self.old.bill.ended ≡ false }
        ensures billed { (memo : Between) → IfBilled result
            (metered_told memo (Skipped op count) self.old ≡ Ok self.new) }
        ensures quiet { result ≡ Billing.Plain → IsQuiet self.old.bill self.new.bill }
    {
        self.machine.step_skipped(op, count)
    }
}
