//! Which instructions are refused, and for which reason.

ghost use Rattle.std.specs.Prelude.{◌≡◌, IfErr, IfNone, IfOk, IfSome, MatchBool, false, true};
ghost use Rattle.pkops.specs.Contents.{IsGood};
ghost use Rattle.pkops.specs.Inst.{instruction_of};
ghost use Rattle.pkops.specs.Spelling.{Suits, instruction, layout_at, shown_arg};
ghost use Rattle.pkread.specs.Admission.{objection};
ghost use Rattle.pkread.specs.Private.Judgement.{IsFaulty, IsFine, IsSpelled, fault_reason};
ghost use Rattle.pkread.specs.Private.Judgement.{is_plain};

use pkops::{Arg, Fault, Inst, Op, Reason, Rule, argument_of};

/// The reason with the same name as the fault.
pub(crate) fn reason_of(fault: Fault) -> Reason
    ensures { result ≡ fault_reason fault }
{
    match fault {
        Fault::UnknownOpcode(code) => Reason::UnknownOpcode(code),
        Fault::BadArgument => Reason::BadArgument,
        Fault::TooLarge => Reason::TooLarge,
    }
}

/// Why an instruction is not admitted, or `None` if it is.
pub(crate) fn objection_to(inst: Inst<'_>) -> Option<Reason>
    ensures { result ≡ objection (instruction_of inst.entry) }
{
    if inst.admitted() {
        return None;
    }
    match (inst.op(), inst.arg()) {
        (Op::Proto, Arg::U1(protocol)) => Some(Reason::UnsupportedProtocol(protocol)),
        _ => Some(Reason::ExtensionCode),
    }
}

/// Judges whether an instruction is good and admitted. Its contents are checked only if the opcode
/// doesn't accept every argument.
#[inline(always)]
pub(crate) fn judged(op: Op, split: usize, bytes: &[u8]) -> Result<(), Reason>
    requires { IsSpelled op split bytes.now }
    ensures ok { IfOk result (λ _. IsFine op split bytes.now) }
    ensures err { IfErr result (IsFaulty op split bytes.now) }
{
    if is_plain(op) {
        return Ok(());
    }
    look(op, split, bytes)
}

/// Judges an instruction by its contents.
#[inline(always)]
fn look(op: Op, split: usize, bytes: &[u8]) -> Result<(), Reason>
    requires { IsSpelled op split bytes.now }
    ensures ok { IfOk result (λ _. IsFine op split bytes.now) }
    ensures err { IfErr result (IsFaulty op split bytes.now) }
{
    match look_slowly(op, split, bytes) {
        Some(reason) => Err(reason),
        None => Ok(()),
    }
}

/// Whether an argument is good for its opcode.
#[inline(never)]
pub(crate) fn is_good(op: Op, arg: Arg<'_>) -> bool
    requires { Suits (layout_at op) (shown_arg arg) }
    ensures { MatchBool result (IsGood (instruction op (shown_arg arg.entry)))
        (¬ (IsGood (instruction op (shown_arg arg.entry)))) }
{
    match Inst::judged(op, arg) {
        Some(_) => true,
        None => false,
    }
}

/// Why an instruction is refused, or `None` if it isn't. Handles every opcode.
fn look_slowly(op: Op, split: usize, bytes: &[u8]) -> Option<Reason>
    requires { IsSpelled op split bytes.now }
    ensures none { IfNone result (IsFine op split bytes.now) }
    ensures some { IfSome result (IsFaulty op split bytes.now) }
{
    let arg = argument_of(op, split, bytes);
    if !is_good(op, arg) {
        return Some(Reason::BadArgument);
    }
    objection_to(Inst::known(op, arg))
}

/// Whether the opcode accepts every argument of its layout.
#[inline(always)]
pub(crate) fn is_plain(op: Op) -> bool
    ensures { result ≡ is_plain op }
{
    match op {
        Op::Proto | Op::Ext1 | Op::Ext2 | Op::Ext4 => false,
        _ => matches!(Rule::of(op), Rule::Anything),
    }
}
