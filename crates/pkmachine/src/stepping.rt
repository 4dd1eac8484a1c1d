//! One step of the machine.
ghost use Rattle.std.specs.Prelude.{◌≡◌, ◌≤◌, length, option_map, None, Ok};
ghost use Rattle.std.specs.Prelude.{IfOk, IfErr, OnOk, OnErr, false};
ghost use Rattle.pkmachine.specs.Effects.{effect_as, effect_of};
ghost use Rattle.pkmachine.specs.Following.{followed, is_described, stop_followed};
ghost use Rattle.pkmachine.specs.Knowledge.{stop_learned};
ghost use Rattle.pkmachine.specs.Private.Actions.{IsOperation};
ghost use Rattle.pkmachine.specs.Private.Steps.{Advances, HasReadOldString, IsAdvanceFault};
ghost use Rattle.pkmachine.specs.Private.Steps.{IsOldString, IsStepFault, LeadsTo};
ghost use Rattle.pkstack.specs.Shape.{top};
ghost use Rattle.pkmachine.specs.View.{texts_after};
ghost use Rattle.pkops.specs.Inst.{instruction_of};
ghost use Rattle.pkmachine.specs.Policies.{permit_of};
ghost use Rattle.pkimport.specs.Import.{asked_shown};
ghost use Rattle.pkmachine.specs.Private.StepErrors.{FitsLimits, IsStopFault, pair_of_error};

use crate::config::MachineConfig;
use crate::domain::Domain;
use crate::effect::Class;
use crate::effects::{Action, action_of};
use crate::old_strings::OldStrings;
use crate::old_text::is_ascii_string;
use crate::operate::StepError;
use crate::policy::Permit;
use crate::state::MachineState;
use crate::value::int_or_bool;
use pkimport::Asked;
use pkops::{Inst, Reason};

/// What an accepted step did.
#[derive(Clone, Copy, Debug, PartialEq, Eq)]
pub enum Moved {
    /// The step neither listed an import nor was STOP.
    On,
    /// The step listed an import.
    Import,
    /// The step was STOP.
    Stopped,
}

/// Applies an instruction to what is known. If the import is off the list, its pair is stored in
/// `off`, so the result of a step stays small.
#[inline(always)]
pub fn advance<D: Domain>(
    state: &mut MachineState<D>,
    config: &MachineConfig,
    inst: &Inst,
    policy: &Permit,
    off: &mut Option<Asked>,
) -> Result<Moved, Reason>
    requires room { FitsLimits config.now.limits state.old.view.knowledge }
    requires none { off.old ≡ None }
    ensures ok { IfOk result (Advances config.now (permit_of policy.now) (instruction_of inst.now)
        state.old.view state.new.view) }
    ensures carried { OnOk result (followed D.follows (instruction_of inst.now) state.old.carried
        ≡ Ok state.new.carried) }
    ensures room { OnOk result (FitsLimits config.now.limits state.new.view.knowledge) }
    ensures texts { OnOk result (state.new.view.texts ≡ texts_after
        (effect_as config.now.old_strings (instruction_of inst.now)) state.old.view.texts) }
    ensures off { OnOk result (off.new ≡ None) }
    ensures kept { OnErr result (state.new.view ≡ state.old.view) }
    ensures err { IfErr result (λ r. IsAdvanceFault config.now (permit_of policy.now)
        (instruction_of inst.now) state.old.view.knowledge r (option_map asked_shown off.new)) }
{
    let op = inst.op();
    match action_of(op) {
        Action::Makes(class) => {
            state.make(&config.limits, class, inst)?;
            Ok(Moved::On)
        }
        Action::MakesIntOrBool => {
            state.make(&config.limits, int_or_bool(inst), inst)?;
            Ok(Moved::On)
        }
        Action::MakesText => {
            state.make_text(config, inst)?;
            Ok(Moved::On)
        }
        Action::ReadsOldString => {
            read_copy(state, config, inst)?;
            Ok(Moved::On)
        }
        Action::Moves(what) => {
            state.apply(&config.limits, what, inst)?;
            Ok(Moved::On)
        }
        Action::Operates => {
            state.operate(&config.limits, op)?;
            Ok(Moved::On)
        }
        Action::Imports => import(state, config, inst, policy, off),
        Action::Stops => {
            finish(state)?;
            Ok(Moved::Stopped)
        }
    }
}

/// Pushes what a Python 2 string decodes to. It reads a copy of the instruction. Passing the
/// address of the original would force it into memory in every step.
#[inline(always)]
fn read_copy<D: Domain>(
    state: &mut MachineState<D>,
    config: &MachineConfig,
    inst: &Inst,
) -> Result<(), Reason>
    requires old { IsOldString (instruction_of inst.now) }
    requires memo { length state.old.view.knowledge.memo ≤ config.now.limits.memo }
    ensures { HasReadOldString D.follows config.now (instruction_of inst.now) state.old state.new
        result }
{
    let copy = Inst::known(inst.op(), inst.arg());
    read_old_string(state, config, &copy)?;
    Ok(())
}

/// Pushes what a Python 2 string decodes to. Refuses with `NotAscii` if it must be ASCII but is
/// not.
fn read_old_string<D: Domain>(
    state: &mut MachineState<D>,
    config: &MachineConfig,
    inst: &Inst,
) -> Result<(), Reason>
    requires old { IsOldString (instruction_of inst.now) }
    requires memo { length state.old.view.knowledge.memo ≤ config.now.limits.memo }
    ensures { HasReadOldString D.follows config.now (instruction_of inst.now) state.old state.new
        result }
{
    match config.old_strings {
        OldStrings::Unknown => state.answer(&config.limits, inst),
        OldStrings::Bytes => state.make(&config.limits, Class::Bytes, inst),
        OldStrings::Ascii => {
            let is_ascii = is_ascii_string(config.alloc, inst)?;
            if is_ascii {
                state.make_text(config, inst)
            } else {
                Err(Reason::NotAscii)
            }
        }
    }
}

/// Pops the result. Refuses with `LeftOver` if anything else is on the stack.
fn finish<D: Domain>(state: &mut MachineState<D>) -> Result<(), Reason>
    ensures ok { OnOk result (stop_learned state.old.view.knowledge.memo
        (top state.old.view.knowledge.entries)
        ≡ Ok (record { after = state.new.view.knowledge; import = None })) }
    ensures carried { OnOk result (stop_followed D.follows state.old.carried
        ≡ Ok state.new.carried) }
    ensures texts { state.new.view.texts ≡ state.old.view.texts }
    ensures imports { state.new.view.imports ≡ state.old.view.imports }
    ensures room { (length state.new.view.knowledge.entries
        ≤ length state.old.view.knowledge.entries)
        × (state.new.view.knowledge.memo ≡ state.old.view.knowledge.memo) }
    ensures kept { OnErr result (state.new.view ≡ state.old.view) }
    ensures err { IfErr result (λ r. IsStopFault (stop_learned state.old.view.knowledge.memo
        (top state.old.view.knowledge.entries)) r) }
{
    state.finish()?;
    Ok(())
}

/// Applies an instruction that imports a pair.
#[inline(always)]
fn import<D: Domain>(
    state: &mut MachineState<D>,
    config: &MachineConfig,
    inst: &Inst,
    policy: &Permit,
    off: &mut Option<Asked>,
) -> Result<Moved, Reason>
    requires operation { IsOperation (effect_of (instruction_of inst.now).op) }
    requires plain { is_described (instruction_of inst.now).op ≡ false }
    requires room { FitsLimits config.now.limits state.old.view.knowledge }
    requires none { off.old ≡ None }
    ensures ok { IfOk result (LeadsTo (permit_of policy.now) config.now.limits
        (effect_of (instruction_of inst.now).op) (instruction_of inst.now)
        state.old.view state.new.view) }
    ensures carried { OnOk result (followed D.follows (instruction_of inst.now) state.old.carried
        ≡ Ok state.new.carried) }
    ensures room { OnOk result (FitsLimits config.now.limits state.new.view.knowledge) }
    ensures texts { state.new.view.texts ≡ state.old.view.texts }
    ensures off { OnOk result (off.new ≡ None) }
    ensures kept { OnErr result (state.new.view ≡ state.old.view) }
    ensures err { IfErr result (λ r. IsStepFault (permit_of policy.now) config.now.limits
        (effect_of (instruction_of inst.now).op) (instruction_of inst.now)
        state.old.view.knowledge r (option_map asked_shown off.new)) }
{
    match state.operate_named(config, inst, policy) {
        Ok(true) => Ok(Moved::Import),
        Ok(false) => Ok(Moved::On),
        Err(error) => Err(put_aside(error, off)),
    }
}

/// Stores the pair of a step error in `off` and returns the reason.
#[inline(never)]
fn put_aside(error: StepError, off: &mut Option<Asked>) -> Reason
    ensures reason { result ≡ error.reason }
    ensures off { option_map asked_shown off.new ≡ pair_of_error error }
{
    let StepError { reason, pair } = error;
    *off = unboxed(pair);
    reason
}

/// Moves a pair out of its box.
fn unboxed(pair: Option<Box<Asked>>) -> Option<Asked>
    ensures { option_map asked_shown result ≡ option_map (λ b. asked_shown b.value) pair }
{
    match pair {
        Some(pair) => Some(Box::into_inner(pair)),
        None => None,
    }
}
