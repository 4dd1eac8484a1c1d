//! The symbolic machine, which knows what holds in every run and executes nothing.

ghost use Rattle.std.specs.Prelude.{◌≡◌, option_map, is_some, IfErr, IfOk, IsTrue};
ghost use Rattle.std.specs.Prelude.{[], None, Ok, false, true, OnErr, OnOk};
ghost use Rattle.pkmachine.specs.declared.memo.Memo.TheVariants as Memo;
ghost use Rattle.pkmachine.specs.declared.old_strings.OldStrings.TheVariants as OldStrings;
ghost use Rattle.pkops.specs.Inst.{instruction_of};
ghost use Rattle.pkops.specs.Admitted.{is_admitted};
ghost use Rattle.pkops.specs.Spelling.{Instruction};
ghost use Rattle.pkstack.specs.Shape.{marks_of};
ghost use Rattle.pkmachine.specs.Runs.{State, start};
ghost use Rattle.pkmachine.specs.Covers.{Covers};
ghost use Rattle.pkmachine.specs.Knowledge.{nothing_known};
ghost use Rattle.pkmachine.specs.Policies.{permit_of, policy_of};
ghost use Rattle.pkimport.specs.Import.{asked_shown, pair_shown};
ghost use Rattle.pkops.specs.Payloads.{is_passed};
ghost use Rattle.pkmachine.specs.Following.{HasLength, carried_on, followed, nothing_carried};
ghost use Rattle.pkmachine.specs.Step.{IsStep};
ghost use Rattle.pkmachine.specs.Texts.{texts_then};
ghost use Rattle.pkmachine.specs.View.{fresh, has_off_list, moved_apart, restarted, stopped_by};

use crate::config::MachineConfig;
use crate::domain::Domain;
use crate::effects::class_passed;
use crate::memo::Memo;
use crate::nothing::Nothing;
use crate::old_strings::OldStrings;
use crate::policy::{Permit, Policy};
use crate::state::MachineState;
use crate::stepping::{Moved, advance};
use pkimport::{Asked, ImportList, ImportTable, Imports};
use pklist::laws::bounded_names;
use pkops::{Inst, Limits, Op, Reason};
use std::alloc::{AllocError, Global};
use std::marker::Model;

/// A machine that follows the instructions of a pickle and knows what is true in every run of it,
/// whatever its operations answer. It executes nothing. It knows nothing about objects that
/// operations answer, the class of every other object, and the characters of a text.
#[derive(Drop)]
pub struct Machine<D: Domain> {
    config: MachineConfig,
    state: MachineState<D>,
    refused: Option<Reason>,
    off: Option<Asked>,
    stopped: bool,
}

impl<D: Domain> Model for Machine<D> {
    ghost use Rattle.pkmachine.specs.Following.{MachineView};

    ghost Value = { MachineView D.Item D };

    ghost use Rattle.std.specs.Prelude.{◌≡◌, None, is_some, option_map};
    ghost use Rattle.pkimport.specs.Import.{asked_shown, pair_shown};
    ghost use Rattle.pkmachine.specs.Private.StepErrors.{FitsLimits};
    ghost use Rattle.pkmachine.specs.View.{has_off_list};

    ghost view = { λ m. record {
      view = record {
        knowledge = m.state.view.knowledge;
        limits = m.config.limits;
        old_strings = m.config.old_strings;
        imports = m.state.view.imports;
        off = option_map asked_shown m.off;
        refused = m.refused;
        stopped = m.stopped;
        texts = m.state.view.texts;
      };
      carried = m.state.carried;
    } };

    // A machine that has refused nothing is within its limits and holds no pair. One that has
    // refused holds a pair exactly if the import was off the list.
    ghost invariant = { λ m. (m.refused ≡ None → FitsLimits m.config.limits m.state.view.knowledge)
        × (m.refused ≡ None → m.off ≡ None)
        × (is_some (pair_shown (option_map asked_shown m.off)) ≡ has_off_list m.refused) };
}

impl Machine<Nothing> {
    /// A machine at the first instruction, with an empty stack and memo. Python 2 strings may
    /// decode to anything. Allocates nothing.
    pub fn new(alloc: Global, limits: &Limits) -> Machine<Nothing>
        ensures fresh { result.view ≡ fresh OldStrings.Unknown limits.now }
        ensures covers { Covers result.view.knowledge start }
    {
        Machine::new_as(alloc, limits, OldStrings::Unknown)
    }

    /// Like `new`, for an unpickler that decodes Python 2 strings as `old_strings` says.
    pub fn new_as(alloc: Global, limits: &Limits, old_strings: OldStrings) -> Machine<Nothing>
        ensures fresh { result.view ≡ fresh old_strings limits.now }
        ensures covers { Covers result.view.knowledge start }
    {
        Machine::followed(alloc, limits, old_strings, Nothing)
    }

    /// Steps over an instruction whose payload was skipped. Returns what [`Machine::step`] returns
    /// for any instruction with this opcode. No step may follow STOP.
    ///
    /// # Errors
    ///
    /// `TooLarge` if the stack would exceed its limit; `OutOfMemory` if an allocation was refused.
    pub fn step_passed(&mut self, op: Op, policy: &Policy) -> Result<Moved, Reason>
        requires passed { IsTrue (is_passed op) }
        requires running { self.old.view.stopped ≡ false }
        ensures step { (instruction : Instruction) → instruction.op ≡ op
            → IsStep (policy_of policy.now) instruction self.old.view self.new.view
            result }
        ensures goes_on { IfOk result (λ moved. (moved ≡ Moved.On)
            × (self.new.view.stopped ≡ false)) }
        ensures imports { self.new.view.imports ≡ self.old.view.imports }
    {
        // Whoever keeps nothing asks for no length.
        self.step_passed_by(op, 0, &Permit::By(*policy))
    }
}

impl<D: Domain> Machine<D> {
    /// Like `new_as`, with a domain that follows the objects along.
    pub fn followed(
        alloc: Global,
        limits: &Limits,
        old_strings: OldStrings,
        domain: D,
    ) -> Machine<D>
        ensures fresh { result.view ≡ fresh old_strings limits.now }
        ensures carried { result.carried ≡ nothing_carried domain }
        ensures covers { Covers result.view.knowledge start }
    {
        Machine {
            config: MachineConfig {
                alloc,
                limits: *limits,
                old_strings,
            },
            state: MachineState::new(alloc, domain),
            refused: None,
            off: None,
            stopped: false,
        }
    }

    /// Steps over an admitted instruction. Checks what it needs, lists its import, and updates what
    /// is known. No step may follow STOP.
    ///
    /// # Errors
    ///
    /// The first of these faults that the instruction has: `MissingMark`, `MissingItem`,
    /// `MissingMemo`, `OddItems`, `WrongClass`, `NotText`, `UnknownImport`, `ImportOffList`,
    /// `LeftOver`, `NotAscii`, and `TooLarge` if the stack or the memo would exceed its limit.
    /// `OutOfMemory` if an allocation was refused. A refused step changes neither the imports nor
    /// the marks. Every later step returns the same reason.
    #[inline(always)]
    pub fn step(&mut self, inst: &Inst, policy: &Policy) -> Result<Moved, Reason>
        requires admitted { is_admitted (instruction_of inst.now) ≡ true }
        requires running { self.old.view.stopped ≡ false }
        ensures step { IsStep (policy_of policy.now) (instruction_of inst.now) self.old.view
            self.new.view result }
        ensures carried { OnOk result (followed D.follows (instruction_of inst.now)
            self.old.carried ≡ Ok self.new.carried) }
        ensures texts { OnOk result (self.new.view.texts
            ≡ texts_then self.old.view.old_strings (instruction_of inst.now).op
            self.old.view.texts) }
    {
        if let Some(reason) = self.refused {
            return Err(reason);
        }
        self.step_on(inst, &Permit::By(*policy))
    }

    /// Steps as [`Machine::step`] does, but does not ask whether an earlier step was refused.
    #[inline(always)]
    pub fn step_on(&mut self, inst: &Inst, policy: &Permit) -> Result<Moved, Reason>
        requires admitted { is_admitted (instruction_of inst.now) ≡ true }
        requires running { self.old.view.stopped ≡ false }
        requires well { self.old.view.refused ≡ None }
        ensures step { IsStep (permit_of policy.now) (instruction_of inst.now) self.old.view
            self.new.view result }
        ensures carried { OnOk result (followed D.follows (instruction_of inst.now)
            self.old.carried ≡ Ok self.new.carried) }
        ensures texts { OnOk result (self.new.view.texts
            ≡ texts_then self.old.view.old_strings (instruction_of inst.now).op
            self.old.view.texts) }
    {
        bounded_names();
        match advance(&mut self.state, &self.config, inst, policy, &mut self.off) {
            Ok(moved) => {
                stop_after(moved, &mut self.stopped);
                Ok(moved)
            }
            Err(reason) => {
                self.refused = Some(reason);
                Err(reason)
            }
        }
    }

    /// Steps as [`Machine::step_passed`] does over an instruction of `count` bytes, whatever
    /// permits the imports.
    pub fn step_passed_by(&mut self, op: Op, count: u64, policy: &Permit) -> Result<Moved, Reason>
        requires passed { IsTrue (is_passed op) }
        requires running { self.old.view.stopped ≡ false }
        ensures step { (instruction : Instruction) → instruction.op ≡ op
            → IsStep (permit_of policy.now) instruction self.old.view self.new.view
            result }
        ensures carried { (instruction : Instruction) → HasLength instruction op count
            → OnOk result (followed D.follows instruction self.old.carried ≡ Ok self.new.carried) }
        ensures goes_on { IfOk result (λ moved. (moved ≡ Moved.On)
            × (self.new.view.stopped ≡ false)) }
        ensures imports { self.new.view.imports ≡ self.old.view.imports }
    {
        bounded_names();
        if let Some(earlier) = self.refused {
            return Err(earlier);
        }
        match self
            .state
            .make_passed(&self.config.limits, class_passed(op), op, count)
        {
            Ok(()) => Ok(Moved::On),
            Err(reason) => {
                self.refused = Some(reason);
                self.off = None;
                Err(reason)
            }
        }
    }

    /// What follows the objects along, as it is now.
    pub fn domain(&self) -> D
        ensures { result ≡ self.now.carried.domain }
    {
        self.state.domain()
    }

    /// The limits of the check.
    pub fn limits(&self) -> &Limits
        ensures { result.now ≡ self.now.view.limits }
    {
        &self.config.limits
    }

    /// The number of open marks, which is the same in every run.
    pub fn marks(&self) -> usize
        ensures known { result ≡ marks_of self.now.view.knowledge.entries }
        ensures covered { (state : State) → Covers self.now.view.knowledge state
            → result ≡ marks_of state.shape.entries }
    {
        self.state.marks()
    }

    /// The number of texts in the table. An accepted step raises it by one for UNICODE,
    /// SHORT_BINUNICODE, BINUNICODE, BINUNICODE8, and a Python 2 string decoded as ASCII. Other
    /// steps leave it unchanged.
    pub fn texts(&self) -> usize
        ensures { result ≡ self.now.view.texts }
    {
        self.state.texts()
    }

    /// The imports so far, in order.
    pub fn imports(&self) -> ImportList<'_>
        ensures { result ≡ self.now.view.imports }
    {
        self.state.imports()
    }

    /// The module and the name of the import that was off the list; `None` unless the reason was
    /// `ImportOffList`.
    pub fn off_list(&self) -> Option<(&str, &str)>
        ensures pair { option_map (λ p. (p.0.now, p.1.now)) result ≡ pair_shown self.now.view.off }
        ensures present { is_some result ≡ has_off_list self.now.view.refused }
    {
        match &self.off {
            Some(
                Asked::Pair {
                    module: module_name,
                    name,
                },
            ) => Some((module_name.as_str(), name.as_str())),
            _ => None,
        }
    }

    /// The machine at the first instruction of another pickle, or this one if an allocation was
    /// refused. With a fresh memo it moves the imports to `apart`, after those already there, and
    /// forgets everything else. With a kept memo it only clears the stack, in constant time,
    /// because the memo may refer to any text.
    pub fn into_next(self, memo: Memo, apart: &mut ImportTable) -> Result<Machine<D>, Machine<D>>
        requires { self.view.refused ≡ None }
        ensures next { IfOk result (λ next. next.view ≡ restarted memo self.view) }
        ensures carried { IfOk result (λ next. next.carried ≡ carried_on memo self.carried) }
        ensures apart { OnOk result (apart.new.asked
            ≡ moved_apart memo apart.old.asked self.view.imports) }
        ensures kept { IfErr result (λ same. same ≡ self) }
    {
        let mut machine = self;
        match machine.restart(memo, apart) {
            Ok(()) => Ok(machine),
            Err(_) => Err(machine),
        }
    }

    /// Continues at the first instruction of another pickle.
    fn restart(&mut self, memo: Memo, apart: &mut ImportTable) -> Result<(), AllocError>
        requires { self.old.view.refused ≡ None }
        ensures next { OnOk result (self.new.view ≡ restarted memo self.old.view) }
        ensures carried { OnOk result (self.new.carried ≡ carried_on memo self.old.carried) }
        ensures apart { OnOk result (apart.new.asked
            ≡ moved_apart memo apart.old.asked self.old.view.imports) }
        ensures kept { OnErr result (self.new ≡ self.old) }
    {
        match memo {
            Memo::Fresh => {
                self.state.list_in(self.config.alloc, apart)?;
                self.state.clear();
            }
            Memo::Kept => self.state.clear_stack(),
        }
        self.stopped = false;
        Ok(())
    }

    /// Moves the imports out, and forgets the stack, the memo and the texts.
    pub fn take_imports(&mut self) -> Imports
        ensures imports { result ≡ self.old.view.imports }
        ensures off { self.new.view.off ≡ self.old.view.off }
        ensures after { self.new.view ≡ record self.old.view {
          knowledge = nothing_known;
          imports = [];
          texts = 0;
        } }
        ensures carried { self.new.carried ≡ carried_on Memo.Fresh self.old.carried }
    {
        self.state.take_imports(self.config.alloc)
    }

    /// The pair that was off the list.
    pub fn into_off_list(self) -> Option<Asked>
        ensures { option_map asked_shown result ≡ self.view.off }
    {
        let Machine { off, .. } = self;
        off
    }

    /// Whether STOP was accepted.
    pub fn stopped(&self) -> bool
        ensures { result ≡ self.now.view.stopped }
    {
        self.stopped
    }
}

/// Notes that the machine has stopped, if the step was a STOP. All other steps write nothing.
fn stop_after(moved: Moved, stopped: &mut bool)
    requires { stopped.old ≡ false }
    ensures { stopped.new ≡ stopped_by moved }
{
    match moved {
        Moved::Stopped => *stopped = true,
        _ => {}
    }
}
