//! The state of a reader apart from its source: the bytes of an instruction, and what comes next.

ghost use Rattle.std.specs.Prelude.{◌≡◌, ◌≢◌, ◌+◌, ◌<◌, ◌≤◌, [], ℕ, IfErr, IfOk, List, false};
ghost use Rattle.std.specs.Prelude.{length, max, true};
ghost use Rattle.pkops.specs.Inst.{instruction_of};
ghost use Rattle.pkops.specs.KnownLayout.{Lies};
ghost use Rattle.pkops.specs.Scans.{longest};
ghost use Rattle.pkops.specs.Spelling.{Argument, instruction};
ghost use Rattle.pkread.specs.Again.{WhyNoByte};
ghost use Rattle.pkread.specs.Core as phase;
ghost use Rattle.pkread.specs.Core.{NoneIfClosed, ahead_of, phase_after, phase_at, shown_phase};
ghost use Rattle.pkread.specs.Held.{most_held};
ghost use Rattle.pkread.specs.Private.OpenReader.{Advances, ByteCame, Collects, CollectsHead};
ghost use Rattle.pkread.specs.Private.OpenReader.{EndsHere, IfHeld, NoneCame, Waits, before_next};
ghost use Rattle.pkread.specs.Private.OpenReader.{behind_next, phase_behind};
ghost use Rattle.pkread.specs.Private.Arms.{IsFound};
ghost use Rattle.pkread.specs.Private.Progress.{KeepsRest};
ghost use Rattle.pkread.specs.Rows.{all_bytes, sight};

use crate::gather::Found;
use crate::gathering::Gathering;
use crate::heads::Gathered;
use crate::source::Source;
use pkops::{Inst, Limits, Op, Reason, Refusal};
use std::alloc::Global;
use std::marker::Model;

/// What the next call does.
#[derive(Clone, Copy, Debug, Drop)]
pub(crate) enum Phase {
    /// Reads the next instruction.
    Open,
    /// Reports the end, because STOP was returned.
    Ended,
    /// Returns the same refusal, on this call and every later one.
    Refused(Refusal),
}

/// The phase, and whether the buffer holds a byte that was read ahead of the next instruction. One
/// value has both, so that one test finds out whether an instruction can be lent.
#[derive(Clone, Copy, Debug, Drop)]
pub(crate) enum Stage {
    /// Open, and nothing was read ahead.
    Open,
    /// Open, and a byte was read ahead.
    Begun,
    /// Ended.
    Ended,
    /// Refused.
    Refused(Refusal),
}

/// The state of a reader apart from its source. It is a struct of its own so that dropping a reader
/// leaves the final state of its source known.
#[derive(Debug, Drop)]
pub struct Core {
    gathering: Gathering,
    stage: Stage,
}

impl Model for Core {
    ghost use Rattle.std.specs.Prelude.{◌≤◌, length};
    ghost use Rattle.pkread.specs.Core.{AtMostOneAhead, CoreView, NoneIfClosed, SomeIfEnded};
    ghost use Rattle.pkread.specs.Core.{ahead_of, phase_at};
    ghost use Rattle.pkread.specs.Held.{most_held};
    ghost use Rattle.pkops.specs.Scans.{longest};

    ghost Value = { CoreView };

    ghost view = { λ c. record {
      held = c.gathering.buffer;
      ahead = ahead_of c.stage c.gathering.buffer.bytes;
      taken = c.gathering.taken;
      limits = c.gathering.limits;
      phase = phase_at c.stage;
    } };

    ghost invariant = { λ c. (most_held c.gathering.buffer ≤ longest c.gathering.limits.counted)
        × (length (ahead_of c.stage c.gathering.buffer.bytes) ≤ c.gathering.buffer.peak)
        × SomeIfEnded (phase_at c.stage) (most_held c.gathering.buffer)
        × AtMostOneAhead (ahead_of c.stage c.gathering.buffer.bytes) c.gathering.taken
        × NoneIfClosed (phase_at c.stage) (ahead_of c.stage c.gathering.buffer.bytes) };
}

impl Core {
    ghost use Rattle.pkread.specs.Core.{CoreView, NoneIfClosed, phase_after, shown_phase};
    ghost use Rattle.pkread.specs.Held.{none_held};
    ghost use Rattle.pkread.specs.Core as phase;

    pub(crate) fn new(alloc: Global, limits: &Limits) -> Core
        ensures { result ≡ record {
          held = none_held;
          ahead = [];
          taken = 0;
          limits = limits.now;
          phase = phase.Open;
        } }
    {
        Core {
            gathering: Gathering::new(alloc, limits),
            stage: Stage::Open,
        }
    }

    pub(crate) fn taken(&self) -> u64
        ensures { result ≡ self.now.taken }
    {
        self.gathering.taken()
    }

    pub(crate) fn phase(&self) -> Phase
        ensures shown { shown_phase result ≡ self.now.phase }
        ensures closed { NoneIfClosed self.now.phase self.now.ahead }
    {
        match self.stage {
            Stage::Open => Phase::Open,
            Stage::Begun => Phase::Open,
            Stage::Ended => Phase::Ended,
            Stage::Refused(refusal) => Phase::Refused(refusal),
        }
    }

    pub(crate) fn most(&self) -> usize
        ensures most { result ≡ most_held self.now.held }
        ensures bound { result ≤ longest self.now.limits.counted }
    {
        self.gathering.most()
    }

    /// Whether an instruction is read next, and none of it was read ahead.
    pub(crate) fn is_open(&self) -> bool
        ensures open { result ≡ true → self.now.phase ≡ phase.Open }
        ensures none { result ≡ true → self.now.ahead ≡ [] }
    {
        matches!(self.stage, Stage::Open)
    }

    /// The number of bytes that can still be taken.
    pub(crate) fn room(&self) -> u64
        ensures { self.now.taken + result ≡ all_bytes }
    {
        self.gathering.room()
    }

    /// Counts `count` bytes of instructions that are lent from where they lie.
    pub(crate) fn count_lent(&mut self, count: usize)
        requires none { self.old.ahead ≡ [] }
        requires within { self.old.taken + count ≤ all_bytes }
        ensures { self.new ≡ record self.old { taken = self.old.taken + count } }
    {
        self.gathering.count_lent(count);
        let _taken = self.gathering.taken();
    }

    /// Sets the phase after an instruction with this opcode.
    fn give(&mut self, op: Op)
        requires open { self.old.phase ≡ phase.Open }
        requires none { self.old.ahead ≡ [] }
        requires some { 0 < most_held self.old.held }
        ensures { self.new ≡ record self.old { phase = phase_after op } }
    {
        match op {
            Op::Stop => self.stage = Stage::Ended,
            _ => {}
        }
    }

    /// Sets the phase after an instruction, held or skipped.
    fn give_head(&mut self, head: Gathered)
        requires open { self.old.phase ≡ phase.Open }
        requires none { self.old.ahead ≡ [] }
        requires some { IfHeld head (0 < most_held self.old.held) }
        ensures { self.new ≡ record self.old { phase = phase_behind head } }
    {
        match head {
            Gathered::Held(found) => self.give(found.op),
            Gathered::Skipped { .. } => {}
        }
    }

    /// Refuses this call and every later one.
    fn refuse(&mut self, at: u64, reason: Reason) -> Refusal
        requires { self.old.ahead ≡ [] }
        ensures refusal { result ≡ record { at = at; reason = reason } }
        ensures after { self.new ≡ record self.old { phase = phase.Refused result } }
    {
        let refusal = Refusal { at, reason };
        self.stage = Stage::Refused(refusal);
        refusal
    }

    /// The gathered instruction. Its contents were judged when they were taken, so this neither
    /// checks them again nor decodes the argument, which stays in the buffer.
    pub(crate) fn instruction(&self, found: Found) -> Inst<'_>
        requires { IsFound self.now.limits.counted self.now.held.bytes found.op found.split }
        ensures { (arg : Argument) →
            Lies self.now.limits.counted found.op arg found.split self.now.held.bytes →
            instruction_of result ≡ instruction found.op arg }
    {
        Inst::spelled(found.op, found.split, self.gathering.bytes())
    }

    /// Takes the bytes of the next instruction.
    pub(crate) fn collect<R: Source>(&mut self, source: &mut R) -> Result<Found, Refusal>
        requires { self.old.phase ≡ phase.Open }
        ensures advances { Advances self.old self.new }
        ensures collects { Collects result self.old self.new
            (before_next R.left R.failures source.old self.old)
            (behind_next R.left R.failures source.new self.new) }
    {
        let at = self.gathering.taken();
        keep(&mut self.gathering, &mut self.stage);
        let gathered = self.gathering.gather(source);
        let _taken = self.gathering.taken();
        match gathered {
            Ok(found) => {
                self.give(found.op);
                Ok(found)
            }
            Err(reason) => Err(self.refuse(at, reason)),
        }
    }

    /// Takes the bytes of the next instruction without holding byte payloads.
    pub(crate) fn collect_head<R: Source>(&mut self, source: &mut R) -> Result<Gathered, Refusal>
        requires { self.old.phase ≡ phase.Open }
        ensures advances { Advances self.old self.new }
        ensures collects { CollectsHead result self.old self.new
            (before_next R.left R.failures source.old self.old)
            (behind_next R.left R.failures source.new self.new) }
    {
        let at = self.gathering.taken();
        keep(&mut self.gathering, &mut self.stage);
        let gathered = self.gathering.gather_head(source);
        let _taken = self.gathering.taken();
        match gathered {
            Ok(head) => {
                self.give_head(head);
                Ok(head)
            }
            Err(reason) => Err(self.refuse(at, reason)),
        }
    }

    /// Reads the first byte of another instruction. Returns whether there is one.
    pub(crate) fn again<R: Source>(&mut self, source: &mut R) -> Result<bool, Refusal>
        requires { self.old.phase ≡ phase.Ended }
        ensures none { self.old.ahead ≡ [] }
        ensures kept { Waits self.old self.new }
        ensures room { IfOk result (λ _. self.old.taken < all_bytes) }
        ensures byte { IfOk result (λ more. more ≡ true → (self.new.phase ≡ phase.Open) × ByteCame
            (sight R.left R.failures source.old) (sight R.left R.failures source.new)
            self.new.ahead) }
        ensures end { IfOk result (λ more. more ≡ false → (self.new.phase ≡ phase.Ended) × NoneCame
            (sight R.left R.failures source.old) (sight R.left R.failures source.new)
            self.new.ahead) }
        ensures place { IfErr result (EndsHere self.old self.new) }
        ensures err { IfErr result (λ r. WhyNoByte (sight R.left R.failures source.old)
            (sight R.left R.failures source.new) self.old.taken r.reason) }
    {
        self.gathering.clear();
        match ask(source, &mut self.gathering) {
            Ok(more) => {
                self.stage = stage_of(more);
                Ok(more)
            }
            Err(reason) => {
                let at = self.gathering.taken();
                Err(self.refuse(at, reason))
            }
        }
    }
}

/// Starts an instruction. Keeps the byte that was read ahead for it, and otherwise clears the
/// buffer.
fn keep(gathering: &mut Gathering, stage: &mut Stage)
    requires { length (ahead_of stage.old gathering.old.buffer.bytes) ≤ gathering.old.buffer.peak }
    ensures kept { gathering.new ≡ record gathering.old {
      buffer = record {
        bytes = ahead_of stage.old gathering.old.buffer.bytes;
        peak = most_held gathering.old.buffer;
      };
    } }
    ensures phase { phase_at stage.new ≡ phase_at stage.old }
    ensures none { (bytes : List ℕ) → ahead_of stage.new bytes ≡ [] }
{
    match *stage {
        Stage::Begun => *stage = Stage::Open,
        _ => gathering.clear(),
    }
}

/// The stage after STOP: begun if another byte follows.
fn stage_of(more: bool) -> Stage
    ensures open { more ≡ true → phase_at result ≡ phase.Open }
    ensures ended { more ≡ false → phase_at result ≡ phase.Ended }
    ensures ahead { (bytes : List ℕ) → more ≡ true → ahead_of result bytes ≡ bytes }
    ensures none { (bytes : List ℕ) → more ≡ false → ahead_of result bytes ≡ [] }
{
    if more { Stage::Begun } else { Stage::Ended }
}

/// Reads one byte ahead. Returns whether one arrived.
fn ask<R: Source>(source: &mut R, gathering: &mut Gathering) -> Result<bool, Reason>
    requires { gathering.old.buffer.bytes ≡ [] }
    ensures keeps { KeepsRest gathering.old gathering.new }
    ensures taken { gathering.new.taken ≡ gathering.old.taken }
    ensures room { IfOk result (λ _. gathering.old.taken < all_bytes) }
    ensures byte { IfOk result (λ more. more ≡ true → ByteCame (sight R.left R.failures source.old)
        (sight R.left R.failures source.new) gathering.new.buffer.bytes) }
    ensures end { IfOk result (λ more. more ≡ false → NoneCame (sight R.left R.failures source.old)
        (sight R.left R.failures source.new) gathering.new.buffer.bytes) }
    ensures same { IfErr result (λ _. gathering.new.buffer.bytes ≡ []) }
    ensures err { IfErr result (WhyNoByte (sight R.left R.failures source.old)
        (sight R.left R.failures source.new) gathering.old.taken) }
{
    if gathering.taken() == u64::MAX {
        return Err(Reason::TooLarge);
    }
    match gathering.read_byte(source) {
        Ok(_) => Ok(true),
        Err(reason) => match reason {
            // No byte arrived.
            Reason::Truncated => Ok(false),
            _ => Err(reason),
        },
    }
}
