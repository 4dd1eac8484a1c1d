//! The frames and the machine of one check, which judge one instruction at a time.

ghost use Rattle.std.specs.Prelude.{◌≡◌, ◌+◌, ◌<◌, ◌≤◌, ◌∷◌, IfErr, IfOk, IsTrue, MatchResult};
ghost use Rattle.std.specs.Prelude.{[], None, OnErr, OnOk, drop, false, length, true};
ghost use Rattle.pkops.specs.Admitted.{is_admitted};
ghost use Rattle.pkops.specs.Inst.{instruction_of};
ghost use Rattle.pkops.specs.Payloads.{is_passed};
ghost use Rattle.pkops.specs.Spelling.{Instruction};
ghost use Rattle.pkread.specs.Core.{Open};
ghost use Rattle.pkread.specs.Pieces.{number_of, role_of};
ghost use Rattle.pkread.specs.ReaderCalls.{KeepsSource, TakesNoneAhead, has_ended, state};
ghost use Rattle.pkread.specs.Rows.{all_bytes};
ghost use Rattle.pkmachine.specs.Policies.{permit_of};
ghost use Rattle.pkmachine.specs.Following.{HasLength};
ghost use Rattle.pkcheck.specs.Private.Judgement.{BothGoOn, IsNoAt, IsRefused};
ghost use Rattle.pkcheck.specs.Private.Lent.{FailsAtHand, FailsInTurn, HearsAlong, HearsInTurn};
ghost use Rattle.pkcheck.specs.Private.Lent.{HearsRefused, HearsTurned, heard_before};
ghost use Rattle.pkmachine.specs.View.{moved_apart, restarted};
ghost use Rattle.pkcheck.specs.Private.Turns.{FailsNext, HearsNext, RefusesNext};
ghost use Rattle.pkmachine.specs.View.{fresh};

use crate::audience::{Audience, tell_lent};
use crate::checking::No;
use crate::turned::{Failed, Turned};
use crate::with_imports::NoWithImports;
use pkimport::{ImportTable, Imports};
use pkmachine::{Domain, Machine, Memo, OldStrings, Permit};
use pkops::{Inst, Limits, Op, Reason, Refusal};
use pkread::{Frames, Head, Next, Reader, Source, frame_argument, lend};
use std::alloc::{AllocError, Global};
use std::marker::Model;
use std::mem;

/// The frame rules and the machine of a check. If the frame rules refuse an instruction, the
/// machine stays unchanged.
pub(crate) struct Session<D: Domain> {
    frames: Frames,
    pub machine: Machine<D>,
}

/// Written by hand and inlined: the caller then doesn't move the session to a place of its own.
impl<D: Domain> Drop for Session<D> {
    #[inline(always)]
    fn drop(self) {
        let Session {
            frames: _frames,
            machine: _machine,
        } = self;
    }
}

impl<D: Domain> Model for Session<D> {
    ghost use Rattle.pkcheck.specs.Private.Judgement.{SessionView};

    ghost Value = { SessionView };

    ghost view = { λ s. record { frame = s.frames; machine = s.machine.view } };
}

impl<D: Domain> Session<D> {
    /// The state before the first instruction. Allocates nothing.
    pub fn new(alloc: Global, limits: &Limits, old_strings: OldStrings, domain: D) -> Session<D>
        ensures { result ≡ record { frame = 0; machine = fresh old_strings limits.now } }
    {
        Session {
            frames: Frames::new(),
            machine: Machine::followed(alloc, limits, old_strings, domain),
        }
    }

    /// Tells of the instructions that are at hand and judges each, and takes the bytes of those
    /// accepted and of the first one refused. If the audience fails, the bytes up to the end of the
    /// instruction at which it did are taken.
    #[inline(always)]
    pub fn hear_at_hand<R: Source, A: Audience>(
        &mut self,
        reader: &mut Reader<'_, R>,
        policy: &Permit<'_>,
        audience: &mut A,
    ) -> Result<Result<(), Refusal>, A::Error>
        requires ends { self.old.machine.stopped ≡ has_ended (state R.left R.failures reader.old) }
        requires well { self.old.machine.refused ≡ None }
        ensures source { KeepsSource reader.old reader.new }
        ensures ok { IfOk result (λ judged. OnOk judged (HearsAlong A.hears audience.old
            audience.new A.holding (permit_of policy.now) (state R.left R.failures reader.old)
            (state R.left R.failures reader.new) self.old self.new)) }
        ensures no { IfOk result (λ judged. IfErr judged (HearsRefused A.hears audience.old
            audience.new A.holding (permit_of policy.now) (state R.left R.failures reader.old)
            (state R.left R.failures reader.new) self.old self.new.machine)) }
        ensures err { IfErr result (FailsAtHand A.hears A.fails audience.old audience.new A.holding
            (permit_of policy.now) (state R.left R.failures reader.old)
            (state R.left R.failures reader.new) self.old) }
        ensures none { MatchResult result (λ judged. OnErr judged (TakesNoneAhead reader.new))
            (λ _. TakesNoneAhead reader.new) }
    {
        let Some(bytes) = reader.at_hand() else {
            return Ok(Ok(()));
        };
        let taken = reader.taken();
        match self.hear_all_lent(taken, bytes, policy, audience) {
            Ok(Ok(passed)) => {
                reader.advance(passed);
                return Ok(Ok(()));
            }
            Ok(Err(turned)) => {
                reader.advance(turned.before + turned.length);
                return Ok(Err(Refusal {
                    at: taken + turned.before as u64,
                    reason: turned.reason,
                }));
            }
            Err(failed) => {
                let Failed {
                    before,
                    length,
                    error,
                } = failed;
                reader.advance(before + length);
                return Err(error);
            }
        }
    }

    /// Tells of the instructions at the front of some bytes and judges each, as far as they can be
    /// lent and lie in the open frame. The first byte has the offset `at`. Returns the number of
    /// their bytes.
    fn hear_all_lent<A: Audience>(
        &mut self,
        at: u64,
        bytes: &[u8],
        policy: &Permit<'_>,
        audience: &mut A,
    ) -> Result<Result<usize, Turned>, Failed<A::Error>>
        requires running { self.old.machine.stopped ≡ false }
        requires well { self.old.machine.refused ≡ None }
        requires room { at + length bytes.now ≤ all_bytes }
        ensures ok { IfOk result (λ judged. IfOk judged (HearsInTurn A.hears audience.old
            audience.new A.holding (permit_of policy.now) at bytes.now self.old self.new)) }
        ensures no { IfOk result (λ judged. IfErr judged (HearsTurned A.hears audience.old
            audience.new A.holding (permit_of policy.now) at bytes.now self.old
            self.new.machine)) }
        ensures err { IfErr result (λ failed. FailsInTurn A.hears A.fails audience.old
            audience.new A.holding (permit_of policy.now) at bytes.now self.old failed.before
            failed.length failed.error) }
    {
        let inside = self.frames.inside(bytes);
        // Counted back from the end, an offset needs one value less in each turn.
        let end = at + inside.len() as u64;
        let mut rest = inside;
        'instructions: while let Some(inst) = lend(rest, self.machine.limits()) {
            let here = end - rest.len() as u64;
            let length = inst.len() as usize;
            if let Err(error) = tell_lent(audience, here, &inst, self.machine.marks()) {
                return Err(Failed {
                    before: inside.len() - rest.len(),
                    length,
                    error,
                });
            }
            if let Err(reason) = self.machine.step_on(&inst, policy) {
                return Ok(Err(Turned {
                    before: inside.len() - rest.len(),
                    length,
                    reason,
                }));
            }
            rest = &rest[length..];
        }
        let count = inside.len() - rest.len();
        self.frames.take_inside(count);
        Ok(Ok(count))
    }

    /// Takes the next instruction of a reader, reports it, and judges it.
    pub fn hear_next<R: Source, A: Audience>(
        &mut self,
        reader: &mut Reader<'_, R>,
        policy: &Permit<'_>,
        audience: &mut A,
    ) -> Result<Result<(), Refusal>, A::Error>
        requires ready { (state R.left R.failures reader.old).phase ≡ Open }
        requires running { self.old.machine.stopped ≡ false }
        requires well { self.old.machine.refused ≡ None }
        ensures source { KeepsSource reader.old reader.new }
        ensures none { TakesNoneAhead reader.new }
        ensures ok { IfOk result (λ judged. OnOk judged (HearsNext A.holding A.hears audience.old
            audience.new (permit_of policy.now) (state R.left R.failures reader.old)
            (state R.left R.failures reader.new) self.old self.new)) }
        ensures no { IfOk result (λ judged. IfErr judged (RefusesNext A.holding A.hears
            audience.old audience.new (permit_of policy.now) (state R.left R.failures reader.old)
            (state R.left R.failures reader.new) self.old self.new.machine)) }
        ensures err { IfErr result (FailsNext A.holding A.fails audience.old audience.new
            (state R.left R.failures reader.old) (state R.left R.failures reader.new) self.old) }
    {
        if A::holds() {
            match reader.next() {
                Err(refusal) => return Ok(Err(refusal)),
                Ok(Next::Ended) => unreachable!(),
                Ok(Next::Inst { at, inst }) => return self.hear_one(at, &inst, policy, audience),
            }
        }
        match reader.next_head() {
            Err(refusal) => return Ok(Err(refusal)),
            Ok(Head::Ended) => unreachable!(),
            Ok(Head::Inst { at, inst }) => return self.hear_one(at, &inst, policy, audience),
            Ok(Head::Passed { at, op, .. }) => {
                let length = reader.taken() - at;
                if let Err(error) = audience.tell_skipped(at, op, length, self.machine.marks()) {
                    return Err(error);
                }
                if let Err(reason) = self.judge_passed(op, length, policy) {
                    return Ok(Err(Refusal { at, reason }));
                }
                return Ok(Ok(()));
            }
        }
    }

    /// Tells of an instruction that was read whole, and judges it.
    #[inline(always)]
    fn hear_one<A: Audience>(
        &mut self,
        at: u64,
        inst: &Inst<'_>,
        policy: &Permit<'_>,
        audience: &mut A,
    ) -> Result<Result<(), Refusal>, A::Error>
        requires admitted { IsTrue (is_admitted (instruction_of inst.now)) }
        requires running { self.old.machine.stopped ≡ false }
        requires well { self.old.machine.refused ≡ None }
        ensures heard { IfOk result (λ _. A.hears audience.old audience.new
            (heard_before true at (instruction_of inst.now) self.old.machine ∷ [])) }
        ensures ok { IfOk result (λ judged. OnOk judged (BothGoOn (permit_of policy.now)
            (instruction_of inst.now) self.old.frame self.old.machine self.new.frame
            self.new.machine)) }
        ensures place { IfOk result (λ judged. IfErr judged (λ refusal. refusal.at ≡ at)) }
        ensures no { IfOk result (λ judged. IfErr judged (λ refusal. IsRefused
            (permit_of policy.now) (instruction_of inst.now) self.old.frame self.old.machine
            self.new.machine refusal.reason)) }
        ensures err { IfErr result (A.fails audience.old audience.new
            (heard_before true at (instruction_of inst.now) self.old.machine)) }
    {
        if let Err(error) = audience.tell(at, inst, self.machine.marks()) {
            return Err(error);
        }
        if let Err(reason) = self.judge(inst, policy) {
            return Ok(Err(Refusal { at, reason }));
        }
        Ok(Ok(()))
    }

    /// Judges an instruction that a loop seldom meets: any one that is not lent.
    pub fn judge(&mut self, inst: &Inst<'_>, policy: &Permit<'_>) -> Result<(), Reason>
        requires admitted { IsTrue (is_admitted (instruction_of inst.now)) }
        requires running { self.old.machine.stopped ≡ false }
        requires well { self.old.machine.refused ≡ None }
        ensures ok { IfOk result (λ _. BothGoOn (permit_of policy.now) (instruction_of inst.now)
            self.old.frame self.old.machine self.new.frame self.new.machine) }
        ensures err { IfErr result (IsRefused (permit_of policy.now) (instruction_of inst.now)
            self.old.frame self.old.machine self.new.machine) }
    {
        self.frames.take(inst.op(), inst.len(), frame_length(inst))?;
        self.machine.step_on(inst, policy)?;
        Ok(())
    }

    /// Judges an instruction with this opcode and length whose payload was skipped.
    pub fn judge_passed(&mut self, op: Op, length: u64, policy: &Permit<'_>) -> Result<(), Reason>
        requires passed { IsTrue (is_passed op) }
        requires some { 0 < length }
        requires running { self.old.machine.stopped ≡ false }
        requires well { self.old.machine.refused ≡ None }
        ensures ok { IfOk result (λ _. (i : Instruction) → HasLength i op length
            → BothGoOn (permit_of policy.now) i self.old.frame self.old.machine
            self.new.frame self.new.machine) }
        ensures err { IfErr result (λ reason. (i : Instruction) → HasLength i op length
            → IsRefused (permit_of policy.now) i self.old.frame self.old.machine
            self.new.machine reason) }
    {
        self.frames.take(op, length, 0)?;
        self.machine.step_passed_by(op, length, policy)?;
        Ok(())
    }

    /// Continues at the first instruction of another pickle of a row, with no frame open.
    pub fn restart(
        &mut self,
        alloc: Global,
        memo: Memo,
        apart: &mut ImportTable,
    ) -> Result<(), AllocError>
        requires { self.old.machine.refused ≡ None }
        ensures next { OnOk result (self.new ≡ record {
          frame = 0;
          machine = restarted memo self.old.machine;
        }) }
        ensures apart { OnOk result (apart.new.asked
            ≡ moved_apart memo apart.old.asked self.old.machine.imports) }
        ensures kept { OnErr result (self.new ≡ self.old) }
    {
        match self.take_machine(alloc).into_next(memo, apart) {
            Ok(next) => {
                self.machine = next;
                self.frames = Frames::new();
                Ok(())
            }
            Err(same) => {
                self.machine = same;
                Err(AllocError)
            }
        }
    }

    /// Moves the machine out, and leaves another in its place.
    fn take_machine(&mut self, alloc: Global) -> Machine<D>
        ensures machine { result.view ≡ self.old.machine }
        ensures frame { self.new.frame ≡ self.old.frame }
    {
        let domain = self.machine.domain();
        let other = Machine::followed(alloc, &Limits::STANDARD, OldStrings::Unknown, domain);
        mem::replace(&mut self.machine, other)
    }

    /// This refusal of a pickle, with the pair that is off the list, and the imports before it
    /// apart from so many earlier ones. This ends the session. By value it would need a stack slot,
    /// which the compiler clears at the start of every check.
    #[inline(never)]
    pub fn refuse_with_imports(
        &mut self,
        alloc: Global,
        refusal: Refusal,
        earlier: usize,
    ) -> NoWithImports
        ensures no { IsNoAt refusal.at refusal.reason self.old.machine.off result.no }
        ensures imports { result.imports ≡ drop earlier self.old.machine.imports }
    {
        let mut imports = self.machine.take_imports();
        imports.skip(earlier);
        let no = No {
            at: refusal.at,
            reason: refusal.reason,
            pair: self.take_machine(alloc).into_off_list(),
        };
        NoWithImports { no, imports }
    }

    /// The number of imports so far.
    pub fn imported(&self) -> usize
        ensures { result ≡ length self.now.machine.imports }
    {
        self.machine.imports().len()
    }
}

/// The length of the frame that a FRAME opens; 0 for any other instruction.
fn frame_length(inst: &Inst<'_>) -> u64
    ensures { role_of (instruction_of inst.now).op result
        ≡ role_of (instruction_of inst.now).op (number_of (instruction_of inst.now).arg) }
{
    match inst.op() {
        Op::Frame => frame_argument(inst),
        _ => 0,
    }
}
