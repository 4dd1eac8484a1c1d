//! The operations that import a pair.
ghost use Rattle.std.specs.Prelude.{◌≡◌, ◌⊎◌, ◌≤◌, length, map, option_map, IfOk, IfErr};
ghost use Rattle.std.specs.Prelude.{IfSome, Ok, false};
ghost use Rattle.pkmachine.specs.Private.NamedOperations.{AreSeen, HasImported};
ghost use Rattle.pkmachine.specs.Private.Slots.{known};
ghost use Rattle.pkmachine.specs.Policies.{permit_of};
ghost use Rattle.pkmachine.specs.Private.Asking.{AreNumbered, Spells};
ghost use Rattle.pkimport.specs.Table.{IsNamedIf, named_asked};
ghost use Rattle.pkmachine.specs.Private.StepErrors.{judged, IgnoresArgument, IsForMemory};
ghost use Rattle.pkmachine.specs.Private.StepErrors.{IsRefusedWith, MayName, WellGiven};
ghost use Rattle.pkmachine.specs.Private.Actions.{IsOperation, effect_in};
ghost use Rattle.pkmachine.specs.Effects.{effect_of};
ghost use Rattle.pkmachine.specs.Following.{is_described};
ghost use Rattle.pkops.specs.Contents.{IsGood};
ghost use Rattle.pkops.specs.Spelling.{Instruction, Pair, instruction};

use crate::asking::asked_by;
use crate::config::MachineConfig;
use crate::domain::{Domain, Item};
use crate::effects::{Operation, operation_of};
use crate::operate::StepError;
use crate::operate::given::give;
use crate::operate::permitted::permit;
use crate::operate::receiver::receiver_fault;
use crate::policy::Permit;
use crate::stack::{Operands, Stack};
use crate::value::value_of;
use pkimport::{ImportTable, Named};
use pkops::{Arg, Inst, Op, Reason};
use std::alloc::Global;

/// An opcode with its two lines, if it has them. It stands for the instruction, which would need a
/// stack slot in every step.
#[derive(Clone, Copy)]
pub struct Spelled<'a> {
    pub op: Op,
    pub lines: Option<(&'a [u8], &'a [u8])>,
}

/// An operation that imports a pair, with the names in its lines, and the policy that it obeys.
#[derive(Clone, Copy)]
struct Request<'a> {
    op: Op,
    operation: Operation,
    names: Option<(&'a str, &'a str)>,
    policy: &'a Permit<'a>,
}

/// Checks the class of the receiver and the import. Returns the import, if there is one.
fn permitted_name<'a, I: Item>(
    alloc: Global,
    request: &Request<'a>,
    table: &ImportTable,
    operands: &Operands<'_, I>,
) -> Result<Option<Named<'a>>, StepError>
    requires numbered { AreNumbered (length table.now.texts) operands.now }
    ensures ok { (i : Instruction) → Spells request.now.names i
        → IfOk result (λ a. judged (permit_of request.now.policy.now) request.now.operation.names
        request.now.operation.gives i (map (known table.now.texts) operands.now)
        ≡ Ok (option_map (named_asked table.now.texts) a)) }
    ensures within { IfOk result (IsNamedIf (length table.now.texts)) }
    ensures err { (i : Instruction) → Spells request.now.names i
        → IfErr result (λ d. IsRefusedWith (judged (permit_of request.now.policy.now)
        request.now.operation.names request.now.operation.gives
        i (map (known table.now.texts) operands.now)) d
        ⊎ (MayName request.now.operation.names × IsForMemory d)) }
{
    if receiver_fault(request.operation.gives, operands) {
        return Err(StepError {
            reason: Reason::WrongClass,
            pair: None,
        });
    }
    let named = asked_by(request.operation.names, request.names, operands)?;
    if let Some(name) = named {
        permit(alloc, request.policy, table, name)?;
    }
    Ok(named)
}

/// The names in two lines.
fn names_of<'a>(spelled: &Spelled<'a>) -> Option<(&'a str, &'a str)>
    requires { IfSome spelled.now.lines (λ pair.
        IsGood (instruction spelled.now.op (Pair pair.0.now pair.1.now))) }
    ensures { (i : Instruction) → Spells spelled.now.lines i → Spells result i }
{
    match spelled.lines {
        Some((first, second)) => Inst::known(spelled.op, Arg::Pair(first, second)).pair(),
        None => None,
    }
}

/// Replaces the operands of an operation that imports a pair. Returns whether an import was listed.
fn replace_named<D: Domain>(
    stack: &mut Stack<D::Item>,
    domain: &mut D,
    table: &mut ImportTable,
    config: &MachineConfig,
    request: &Request<'_>,
) -> Result<bool, StepError>
    requires within { length stack.old ≤ config.now.limits.stack }
    requires given { WellGiven request.now.operation.gives request.now.operation.takes }
    requires plain { IgnoresArgument request.now.operation.gives }
    requires described { is_described request.now.op ≡ false }
    requires sees { AreSeen (record { entries = stack.old; table = table.old }) }
    ensures { HasImported D.follows (permit_of request.now.policy.now) config.now.limits
        request.now.op (effect_in request.now.operation) request.now.names
        (record { entries = stack.old; table = table.old }) domain.old
        (record { entries = stack.new; table = table.new }) domain.new result }
{
    let found = stack.find(request.operation.takes)?;
    let operands = stack.operands(found.place);
    let named = permitted_name(config.alloc, request, table, &operands)?;
    let item = domain.operated(request.op, &operands);
    let value = value_of(request.operation.gives, item);
    let count = table.len();
    let is_import = table.list(named)?;
    match give(stack, &config.limits, found.place, found.marks, value) {
        Ok(()) => Ok(is_import),
        Err(reason) => {
            table.keep(count);
            Err(StepError::from(reason))
        }
    }
}

/// Applies the operation of an opcode that may import a pair. Returns whether an import was listed.
pub fn operate_named<D: Domain>(
    stack: &mut Stack<D::Item>,
    domain: &mut D,
    table: &mut ImportTable,
    config: &MachineConfig,
    spelled: &Spelled<'_>,
    policy: &Permit,
) -> Result<bool, StepError>
    requires within { length stack.old ≤ config.now.limits.stack }
    requires operation { IsOperation (effect_of spelled.now.op) }
    requires described { is_described spelled.now.op ≡ false }
    requires good { IfSome spelled.now.lines (λ pair.
        IsGood (instruction spelled.now.op (Pair pair.0.now pair.1.now))) }
    requires sees { AreSeen (record { entries = stack.old; table = table.old }) }
    ensures { HasImported D.follows (permit_of policy.now) config.now.limits spelled.now.op
        (effect_of spelled.now.op) spelled.now.lines
        (record { entries = stack.old; table = table.old }) domain.old
        (record { entries = stack.new; table = table.new }) domain.new result }
{
    let request = Request {
        op: spelled.op,
        operation: operation_of(spelled.op),
        names: names_of(spelled),
        policy,
    };
    replace_named(stack, domain, table, config, &request)
}
