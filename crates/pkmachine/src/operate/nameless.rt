//! The operations that import nothing.
ghost use Rattle.std.specs.Prelude.{◌≡◌, ◌<◌, ◌≤◌, false, length, true, IfErr, OnErr, OnOk};
ghost use Rattle.pkmachine.specs.declared.effect.Names.{Names};
ghost use Rattle.pkmachine.specs.Effects.{Operates, effect_of, fills};
ghost use Rattle.pkmachine.specs.Following.{is_described};
ghost use Rattle.pkmachine.specs.Private.Actions.{IsUnnamed};
ghost use Rattle.pkmachine.specs.Private.StepErrors.{IgnoresArgument, WellGiven};
ghost use Rattle.pkmachine.specs.Private.Items.{FollowsEffect};
ghost use Rattle.pkmachine.specs.Private.NamelessOperations.{HasOperated, HasReplaced};
ghost use Rattle.pkmachine.specs.Private.NamelessOperations.{IsReplaceFault};
ghost use Rattle.pkmachine.specs.Private.NamelessOperations.{MakesOf, Replaces, StaysSeen};

use crate::domain::Domain;
use crate::effect::{Class, Gives, Wanted};
use crate::effects::{Operation, operation_of};
use crate::held::Held;
use crate::operate::given::give;
use crate::operate::receiver::receiver_fault;
use crate::packed::PackedValue;
use crate::stack::Stack;
use crate::value::value_of;
use pkops::{Limits, Op, Reason};
use pkstack::Takes;

/// Finds the operands and replaces them with the result.
#[inline(always)]
fn replace<D: Domain>(
    stack: &mut Stack<D::Item>,
    domain: &mut D,
    limits: &Limits,
    op: Op,
    operation: Operation,
) -> Result<(), Reason>
    requires within { length stack.old ≤ limits.now.stack }
    requires given { WellGiven operation.gives operation.takes }
    requires plain { IgnoresArgument operation.gives }
    requires described { is_described op ≡ false }
    ensures ok { OnOk result (Replaces (Operates operation.takes Names.NoName operation.gives)
        stack.old stack.new) }
    ensures follows { OnOk result (FollowsEffect D.follows op
        (Operates operation.takes Names.NoName operation.gives) stack.old domain.old stack.new
        domain.new) }
    ensures sees { OnOk result (StaysSeen stack.old stack.new) }
    ensures room { OnOk result (length stack.new ≤ limits.now.stack) }
    ensures kept { OnErr result (stack.new ≡ stack.old) }
    ensures err { IfErr result (IsReplaceFault limits.now
        (Operates operation.takes Names.NoName operation.gives) stack.old) }
{
    let found = stack.find(operation.takes)?;
    let operands = stack.operands(found.place);
    if receiver_fault(operation.gives, &operands) {
        return Err(Reason::WrongClass);
    }
    let item = domain.operated(op, &operands);
    let value = value_of(operation.gives, item);
    match give(stack, limits, found.place, found.marks, value) {
        Ok(()) => Ok(()),
        Err(reason) => Err(reason),
    }
}

/// Applies the most frequent operations that leave a new object, if their operands are there. They
/// look at one or two entries. Returns false and changes nothing at any other operation.
#[inline(always)]
fn make_quickly<D: Domain>(stack: &mut Stack<D::Item>, domain: &mut D, op: Op) -> bool
    ensures done { result ≡ true → HasReplaced D.follows op (effect_of op) stack.old domain.old
        stack.new domain.new }
    ensures kept { result ≡ false → stack.new ≡ stack.old }
    ensures still { result ≡ false → domain.new ≡ domain.old }
{
    match op {
        Op::Tuple1 => make_few(
            stack,
            domain,
            Op::Tuple1,
            1,
            PackedValue::made(Class::Tuple),
        ),
        Op::Tuple2 => make_few(
            stack,
            domain,
            Op::Tuple2,
            2,
            PackedValue::made(Class::Tuple),
        ),
        Op::Reduce => make_few(stack, domain, Op::Reduce, 2, PackedValue::unknown()),
        _ => false,
    }
}

/// Replaces the topmost objects, at most three, with a new one. Returns false and changes nothing
/// if they are not there.
#[inline(always)]
fn make_few<D: Domain>(
    stack: &mut Stack<D::Item>,
    domain: &mut D,
    op: Op,
    count: usize,
    value: PackedValue,
) -> bool
    requires some { 0 < count }
    requires described { is_described op ≡ false }
    ensures done { result ≡ true → MakesOf D.follows op count value stack.old domain.old stack.new
        domain.new }
    ensures kept { result ≡ false → stack.new ≡ stack.old }
    ensures still { result ≡ false → domain.new ≡ domain.old }
{
    let Some(place) = stack.find_few(count) else {
        return false;
    };
    let item = domain.operated(op, &stack.operands(place));
    let marks = stack.marks();
    stack.replace_all(place, marks, Held { value, item });
    true
}

/// Applies the most frequent operations that leave their receiver, if their operands are there and
/// the receiver is not known to have a wrong class. They look at two or three entries. Returns
/// false and changes nothing at any other operation. It only chooses among functions, so that the
/// compiler may keep those out of line where the loop would become too large.
#[inline(always)]
fn fill_quickly<D: Domain>(stack: &mut Stack<D::Item>, domain: &mut D, op: Op) -> bool
    ensures done { result ≡ true → HasReplaced D.follows op (effect_of op) stack.old domain.old
        stack.new domain.new }
    ensures kept { result ≡ false → stack.new ≡ stack.old }
    ensures still { result ≡ false → domain.new ≡ domain.old }
{
    match op {
        Op::Append => append(stack, domain),
        Op::SetItem => set_item(stack, domain),
        Op::Build => build(stack, domain),
        _ => false,
    }
}

/// APPEND, for `fill_quickly`.
fn append<D: Domain>(stack: &mut Stack<D::Item>, domain: &mut D) -> bool
    ensures done { result ≡ true → HasReplaced D.follows Op.Append (effect_of Op.Append) stack.old
        domain.old stack.new domain.new }
    ensures kept { result ≡ false → stack.new ≡ stack.old }
    ensures still { result ≡ false → domain.new ≡ domain.old }
{
    fill(stack, domain, Op::Append, 2, Wanted::WantsList)
}

/// SETITEM, for `fill_quickly`.
fn set_item<D: Domain>(stack: &mut Stack<D::Item>, domain: &mut D) -> bool
    ensures done { result ≡ true → HasReplaced D.follows Op.SetItem (effect_of Op.SetItem) stack.old
        domain.old stack.new domain.new }
    ensures kept { result ≡ false → stack.new ≡ stack.old }
    ensures still { result ≡ false → domain.new ≡ domain.old }
{
    fill(stack, domain, Op::SetItem, 3, Wanted::WantsDict)
}

/// BUILD, for `fill_quickly`.
fn build<D: Domain>(stack: &mut Stack<D::Item>, domain: &mut D) -> bool
    ensures done { result ≡ true → HasReplaced D.follows Op.Build (effect_of Op.Build) stack.old
        domain.old stack.new domain.new }
    ensures kept { result ≡ false → stack.new ≡ stack.old }
    ensures still { result ≡ false → domain.new ≡ domain.old }
{
    fill(stack, domain, Op::Build, 2, Wanted::WantsAny)
}

/// Removes the topmost `count` objects except the lowest one, the receiver. Returns false and
/// changes nothing if they are not there, or if the receiver is known to have a wrong class.
fn fill<D: Domain>(
    stack: &mut Stack<D::Item>,
    domain: &mut D,
    op: Op,
    count: usize,
    wanted: Wanted,
) -> bool
    requires some { 0 < count }
    requires described { is_described op ≡ false }
    ensures done { result ≡ true
        → HasReplaced D.follows op (fills (Takes.Objects count) wanted) stack.old domain.old
        stack.new domain.new }
    ensures kept { result ≡ false → stack.new ≡ stack.old }
    ensures still { result ≡ false → domain.new ≡ domain.old }
{
    let Some(place) = stack.find_few(count) else {
        return false;
    };
    let operands = stack.operands(place);
    if receiver_fault(Gives::Leaves(wanted), &operands) {
        return false;
    }
    domain.operated(op, &operands);
    let marks = stack.marks();
    stack.end_with(place, marks);
    true
}

/// Applies the operation of an opcode that imports nothing.
#[inline(always)]
pub fn operate_unnamed<D: Domain>(
    stack: &mut Stack<D::Item>,
    domain: &mut D,
    limits: &Limits,
    op: Op,
) -> Result<(), Reason>
    requires within { length stack.old ≤ limits.now.stack }
    requires unnamed { IsUnnamed (effect_of op) }
    requires described { is_described op ≡ false }
    ensures { HasOperated D.follows limits.now op (effect_of op) stack.old domain.old stack.new
        domain.new result }
{
    if make_quickly(stack, domain, op) {
        return Ok(());
    }
    if fill_quickly(stack, domain, op) {
        return Ok(());
    }
    operate_any(stack, domain, limits, op)
}

/// Applies the operation of an opcode that imports nothing. Frequent ones have arms of their own,
/// each with the tests of that operation alone.
fn operate_any<D: Domain>(
    stack: &mut Stack<D::Item>,
    domain: &mut D,
    limits: &Limits,
    op: Op,
) -> Result<(), Reason>
    requires within { length stack.old ≤ limits.now.stack }
    requires unnamed { IsUnnamed (effect_of op) }
    requires described { is_described op ≡ false }
    ensures { HasOperated D.follows limits.now op (effect_of op) stack.old domain.old stack.new
        domain.new result }
{
    match op {
        Op::Append => operate(stack, domain, limits, Op::Append),
        Op::Appends => operate(stack, domain, limits, Op::Appends),
        Op::SetItem => operate(stack, domain, limits, Op::SetItem),
        Op::SetItems => operate(stack, domain, limits, Op::SetItems),
        Op::Tuple => operate(stack, domain, limits, Op::Tuple),
        Op::Build => operate(stack, domain, limits, Op::Build),
        _ => operate_slowly(stack, domain, limits, op),
    }
}

/// Applies any operation that imports nothing. Out of line, because it needs more registers than
/// the arms for one operation.
#[inline(never)]
fn operate_slowly<D: Domain>(
    stack: &mut Stack<D::Item>,
    domain: &mut D,
    limits: &Limits,
    op: Op,
) -> Result<(), Reason>
    requires within { length stack.old ≤ limits.now.stack }
    requires unnamed { IsUnnamed (effect_of op) }
    requires described { is_described op ≡ false }
    ensures { HasOperated D.follows limits.now op (effect_of op) stack.old domain.old stack.new
        domain.new result }
{
    operate(stack, domain, limits, op)
}

/// Applies an operation that imports nothing. Where the compiler knows the opcode, it drops the
/// tests of all other operations.
#[inline(always)]
fn operate<D: Domain>(
    stack: &mut Stack<D::Item>,
    domain: &mut D,
    limits: &Limits,
    op: Op,
) -> Result<(), Reason>
    requires within { length stack.old ≤ limits.now.stack }
    requires unnamed { IsUnnamed (effect_of op) }
    requires described { is_described op ≡ false }
    ensures { HasOperated D.follows limits.now op (effect_of op) stack.old domain.old stack.new
        domain.new result }
{
    replace(stack, domain, limits, op, operation_of(op))
}
