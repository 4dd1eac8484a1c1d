//! The audience that keeps the bill.

ghost use Rattle.std.specs.Prelude.{◌≡◌, ◌∷◌, [], ℕ, IfErr, MatchOption, None, OnOk, Some};
ghost use Rattle.std.specs.Prelude.{false, ltb, true};
ghost use Rattle.pkops.specs.Inst.{instruction_of};
ghost use Rattle.pkcheck.specs.Reports.{Skipped, Whole, report};
ghost use Rattle.pkload.specs.Bill.{no_bill};
ghost use Rattle.pkload.specs.Private.Billing.{IfBilled};
ghost use Rattle.pkload.specs.Private.Meter.{Fits, IsUnlimited, Meters, StopsFor};
ghost use Rattle.pkload.specs.Tolls.{Exceeds, unlimited};

use crate::halt::Billing;
use crate::metering::Metering;
use crate::tolls::{Excess, Tolls};
use pkcheck::{Audience, Memo};
use pkops::{Inst, Op};
use std::alloc::Global;
use std::marker::Model;

/// Keeps the bill of each pickle, until a limit is exceeded. It observes an instruction before the
/// check judges it. That the check accepts it is known when the meter observes the next one, and
/// then it stops the check.
pub struct Meter {
    /// The pickle that the instruction is in, and what it costs so far.
    pub metering: Metering,
    tolls: Tolls,
    memo: Memo,
    excess: Option<Excess>,
    at: u64,
    /// Whether the next instruction may be one too many, or begin another pickle.
    pausing: bool,
}

impl Drop for Meter {
    fn drop(self) {
        let Meter {
            metering: _metering,
            tolls: _tolls,
            memo: _memo,
            excess: _excess,
            at: _at,
            pausing: _pausing,
        } = self;
    }
}

impl Model for Meter {
    ghost use Rattle.std.specs.Prelude.{◌≡◌, None, false};
    ghost use Rattle.pkload.specs.Private.Meter.{Fits, IsUnlimited, Meter as View};
    ghost use Rattle.pkload.specs.Tolls.{unlimited};

    ghost Value = { View };

    ghost view = { λ m. record {
      metering = m.metering;
      tolls = m.tolls;
      memo = m.memo;
      excess = m.excess;
      at = m.at;
    } };

    // While no limit is exceeded, the bill is within the limits. Without limits none is exceeded.
    // Where it doesn't pause, no limit is exceeded, and the pickle goes on.
    ghost invariant = { λ m. (m.excess ≡ None → Fits m.tolls m.metering)
        × (m.tolls ≡ unlimited → IsUnlimited m.excess)
        × (m.pausing ≡ false → (m.excess ≡ None) × (m.metering.bill.ended ≡ false)) };
}

impl Meter {
    /// An audience at the first instruction.
    pub fn new(alloc: Global, tolls: &Tolls, memo: Memo) -> Meter
        ensures { result ≡ record {
          metering = record { pickle = 0; bill = no_bill };
          tolls = tolls.now;
          memo = memo;
          excess = None;
          at = 0;
        } }
    {
        Meter {
            metering: Metering::new(alloc),
            tolls: *tolls,
            memo,
            excess: None,
            at: 0,
            pausing: false,
        }
    }

    /// The first limit that was exceeded.
    pub fn excess(&self) -> Option<Excess>
        ensures excess { result ≡ self.now.excess }
        ensures unlimited { self.now.tolls ≡ unlimited → IsUnlimited result }
    {
        self.excess
    }

    /// Tells of a copy of an instruction where the meter pauses. Passing the address of the
    /// original would force it into memory in every step.
    #[inline(always)]
    fn tell_copy(&mut self, at: u64, inst: &Inst<'_>) -> Result<(), Excess>
        ensures ok { (marks : ℕ) → OnOk result (Meters self.old self.new
            (report at (Whole (instruction_of inst.now)) marks ∷ [])) }
        ensures err { IfErr result (StopsFor self.old self.new) }
    {
        let copy = Inst::known(inst.op(), inst.arg());
        self.tell_at_pause(at, &copy)
    }

    /// Tells of an instruction where the meter pauses.
    #[tactic(auto, using(crate::proofs::Metered::one_metered))]
    fn tell_at_pause(&mut self, at: u64, inst: &Inst<'_>) -> Result<(), Excess>
        ensures ok { (marks : ℕ) → OnOk result (Meters self.old self.new
            (report at (Whole (instruction_of inst.now)) marks ∷ [])) }
        ensures err { IfErr result (StopsFor self.old self.new) }
    {
        if let Some(excess) = self.excess {
            return Err(excess);
        }
        let billing = self.metering.bill(self.memo, inst);
        self.at = at;
        self.excess = excess_of(&self.tolls, &self.metering, billing, &mut self.pausing);
        Ok(())
    }

    /// Tells of an instruction whose payload is skipped, where the meter pauses.
    #[tactic(auto, using(crate::proofs::Metered::one_metered))]
    fn tell_skipped_at_pause(&mut self, at: u64, op: Op, length: u64) -> Result<(), Excess>
        ensures ok { (marks : ℕ) → OnOk result (Meters self.old self.new
            (report at (Skipped op length) marks ∷ [])) }
        ensures err { IfErr result (StopsFor self.old self.new) }
    {
        if let Some(excess) = self.excess {
            return Err(excess);
        }
        let billing = self.metering.bill_skipped(self.memo, op, length);
        self.at = at;
        self.excess = excess_of(&self.tolls, &self.metering, billing, &mut self.pausing);
        Ok(())
    }

    /// The offset of the instruction that exceeded a limit, if one did.
    pub fn at(&self) -> u64
        ensures { result ≡ self.now.at }
    {
        self.at
    }
}

/// The first limit that the bill exceeds, if it could be kept. Says whether the meter pauses.
#[inline(never)]
fn excess_of(
    tolls: &Tolls,
    metering: &Metering,
    billing: Billing,
    pausing: &mut bool,
) -> Option<Excess>
    ensures excess { IfBilled billing (MatchOption result (Fits tolls.now metering.now)
        (λ excess. Exceeds excess tolls.now metering.now.bill.tally metering.now.bill.memory)) }
    ensures failed { billing ≡ Billing.Failed → result ≡ Some Excess.OutOfMemory }
    ensures unlimited { tolls.now ≡ unlimited → IsUnlimited result }
    ensures pausing { pausing.new ≡ false → (result ≡ None)
        × (metering.now.bill.ended ≡ false) }
{
    *pausing = true;
    if matches!(billing, Billing::Failed) {
        return Some(Excess::OutOfMemory);
    }
    let excess = tolls.excess_of(&metering.machine.tally(), metering.machine.memory());
    *pausing = excess.is_some() || metering.machine.ended();
    excess
}

/// Whether the memory exceeds its limit. It is all that can do so if no key was counted.
fn takes_too_much(tolls: &Tolls, metering: &Metering) -> bool
    ensures value { result ≡ ltb tolls.now.memory metering.now.bill.memory }
    ensures unlimited { tolls.now ≡ unlimited → result ≡ false }
{
    metering.machine.memory() > tolls.memory
}

/// Whether no limit is exceeded, and the pickle goes on.
fn goes_on(tolls: &Tolls, metering: &Metering) -> bool
    ensures fits { result ≡ true → Fits tolls.now metering.now }
    ensures ended { result ≡ true → metering.now.bill.ended ≡ false }
{
    !metering.machine.ended()
        && tolls
            .excess_of(&metering.machine.tally(), metering.machine.memory())
            .is_none()
}

impl Audience for Meter {
    type Error = Excess;

    ghost use Rattle.std.specs.Prelude.{false};
    ghost use Rattle.pkload.specs.Private.Meter.{Meters, StopsFor, meters_more, meters_none};

    ghost holding = { false };

    ghost hears = { Meters };

    ghost fails = { λ old new told error. StopsFor old new error };

    fn holds() -> bool {
        false
    }

    #[inline(always)]
    fn tell(&mut self, at: u64, inst: &Inst<'_>, _marks: usize) -> Result<(), Excess> {
        if self.pausing {
            return self.tell_copy(at, inst);
        }
        let billing = self.metering.bill_next(inst);
        // With a constant in place of `billing`, no register is kept for it.
        if billing == Billing::Failed {
            self.at = at;
            self.excess = Some(Excess::OutOfMemory);
            self.pausing = true;
            return Ok(());
        }
        if billing == Billing::Plain && !takes_too_much(&self.tolls, &self.metering) {
            return Ok(());
        }
        if billing == Billing::Noted && goes_on(&self.tolls, &self.metering) {
            return Ok(());
        }
        self.at = at;
        self.excess = excess_of(
            &self.tolls,
            &self.metering,
            Billing::Noted,
            &mut self.pausing,
        );
        Ok(())
    }

    fn tell_skipped(&mut self, at: u64, op: Op, length: u64, _marks: usize) -> Result<(), Excess> {
        if self.pausing {
            return self.tell_skipped_at_pause(at, op, length);
        }
        let billing = self.metering.bill_next_skipped(op, length);
        if billing != Billing::Plain || takes_too_much(&self.tolls, &self.metering) {
            self.at = at;
            self.excess = excess_of(&self.tolls, &self.metering, billing, &mut self.pausing);
        }
        Ok(())
    }

    ghost hears_none = { meters_none };

    ghost hears_more = { meters_more };
}
