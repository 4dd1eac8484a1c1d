//! Pushes the text that an instruction spells.
ghost use Rattle.std.specs.Prelude.{◌≡◌, ◌∷◌, ◌++◌, [], IfErr, OnOk, true};
ghost use Rattle.std.specs.Str.{IsUtf8};
ghost use Rattle.pkops.specs.Contents.{IsGood, rule_of};
ghost use Rattle.pkops.specs.Inst.{instruction_of};
ghost use Rattle.pkops.specs.Spelling.{Counted, Line, instruction};
ghost use Rattle.pkops.specs.declared.Rule.TheVariants as rule;
ghost use Rattle.pkmachine.specs.Private.NamedOperations.{AreSeen};
ghost use Rattle.pkmachine.specs.Private.NewTexts.{HasPushedText, with_reason};
ghost use Rattle.pkmachine.specs.Private.Spelled.{IsSpelled};
ghost use Rattle.pkmachine.specs.Runs.{text};
ghost use Rattle.pkstack.specs.Places.{below};

use crate::config::MachineConfig;
use crate::domain::Item;
use crate::held::Held;
use crate::packed::PackedValue;
use crate::spelled_text::text_spelled;
use crate::stack::Stack;
use pkimport::ImportTable;
use pkops::laws::{plain_line_is_text, text_is_named};
use pkops::{Arg, Inst, Limits, Op, Reason, is_ascii, spells_itself};

/// Why a text isn't pushed. A `Reason` would need a stack slot, which the compiler clears for each
/// text.
#[derive(Clone, Copy, Debug, Drop)]
enum NotPushed {
    /// The stack is as high as it may be.
    Full,
    /// An allocation was refused.
    OutOfMemory,
}

impl From<NotPushed> for Reason {
    ghost use Rattle.std.specs.Prelude.{◌≡◌};
    ghost use Rattle.pkmachine.specs.Private.NewTexts.{reason_for};

    ghost from_gives = { λ why reason. reason ≡ reason_for why };

    fn from(why: NotPushed) -> Reason {
        match why {
            NotPushed::Full => Reason::TooLarge,
            NotPushed::OutOfMemory => Reason::OutOfMemory,
        }
    }
}

/// An opcode with the bytes of its payload or line. It stands for the instruction, which would need
/// a stack slot in every step.
#[derive(Clone, Copy)]
struct SpelledBytes<'a> {
    op: Op,
    bytes: &'a [u8],
}

/// Adds a text to the table, and pushes its number. Where a short one finds room, the most frequent
/// case, nothing is called. Inlined, it would make the loop too large to become one function with
/// the meter of `pkload`, and each instruction would cost more.
#[inline(never)]
fn name_text<I: Item>(
    stack: &mut Stack<I>,
    table: &mut ImportTable,
    item: I,
    limits: &Limits,
    text: &[u8],
) -> Result<(), NotPushed>
    requires utf8 { IsUtf8 text.now }
    requires sees { AreSeen (record { entries = stack.old; table = table.old }) }
    ensures { HasPushedText item limits.now.stack text.now
        (record { entries = stack.old; table = table.old })
        (record { entries = stack.new; table = table.new }) (with_reason result) }
{
    let place = stack.len();
    let Some(value) = PackedValue::text(table.texts()) else {
        return Err(NotPushed::OutOfMemory);
    };
    if !stack.push_within_capacity(limits, Held { value, item }) {
        return name_any_text(stack, table, item, limits, text);
    }
    if !table.add_text_within_capacity(text) {
        return add_pushed_text(stack, table, place, text);
    }
    Ok(())
}

/// `name_text` of any text.
#[inline(never)]
fn name_any_text<I: Item>(
    stack: &mut Stack<I>,
    table: &mut ImportTable,
    item: I,
    limits: &Limits,
    text: &[u8],
) -> Result<(), NotPushed>
    requires utf8 { IsUtf8 text.now }
    requires sees { AreSeen (record { entries = stack.old; table = table.old }) }
    ensures { HasPushedText item limits.now.stack text.now
        (record { entries = stack.old; table = table.old })
        (record { entries = stack.new; table = table.new }) (with_reason result) }
{
    let place = stack.len();
    let Some(value) = PackedValue::text(table.texts()) else {
        return Err(NotPushed::OutOfMemory);
    };
    match stack.push(limits, Held { value, item }) {
        Ok(()) => add_pushed_text(stack, table, place, text),
        Err(Reason::TooLarge) => Err(NotPushed::Full),
        Err(_) => Err(NotPushed::OutOfMemory),
    }
}

/// Adds a text to the table whose number is on the stack already, at this place. The number is
/// taken back if an allocation is refused.
#[inline(never)]
fn add_pushed_text<I: Item>(
    stack: &mut Stack<I>,
    table: &mut ImportTable,
    place: usize,
    text: &[u8],
) -> Result<(), NotPushed>
    requires utf8 { IsUtf8 text.now }
    ensures pushed { OnOk result (stack.new ≡ stack.old) }
    ensures added { OnOk result (table.new ≡ record {
      texts = table.old.texts ++ text.now ∷ [];
      asked = table.old.asked;
    }) }
    ensures err { IfErr result (λ why. (stack.new ≡ below place stack.old)
        × (table.new ≡ table.old) × (why ≡ NotPushed.OutOfMemory)) }
{
    let Ok(()) = table.add_text(text) else {
        stack.truncate(place);
        return Err(NotPushed::OutOfMemory);
    };
    Ok(())
}

/// Like `name_text`, for an opcode and its payload.
fn name_payload<I: Item>(
    stack: &mut Stack<I>,
    table: &mut ImportTable,
    item: I,
    config: &MachineConfig,
    payload: &SpelledBytes<'_>,
) -> Result<(), NotPushed>
    requires good { IsGood (instruction payload.now.op (Counted payload.now.bytes.now)) }
    requires sees { AreSeen (record { entries = stack.old; table = table.old }) }
    ensures { HasPushedText item config.now.limits.stack
        (text (instruction payload.now.op (Counted payload.now.bytes.now)))
        (record { entries = stack.old; table = table.old })
        (record { entries = stack.new; table = table.new }) (with_reason result) }
{
    if is_old_text(payload.op, payload.bytes) {
        return name_text(stack, table, item, &config.limits, payload.bytes);
    }
    name_payload_slowly(stack, table, item, config, payload)
}

/// Whether the payload is a Python 2 string and the text itself.
fn is_old_text(op: Op, payload: &[u8]) -> bool
    ensures utf8 { result ≡ true → IsUtf8 payload.now }
    ensures text { result ≡ true → text (instruction op (Counted payload.now)) ≡ payload.now }
{
    match op {
        Op::BinString => is_ascii(payload),
        Op::ShortBinString => is_ascii(payload),
        _ => false,
    }
}

/// `name_payload` for any payload.
#[inline(never)]
fn name_payload_slowly<I: Item>(
    stack: &mut Stack<I>,
    table: &mut ImportTable,
    item: I,
    config: &MachineConfig,
    payload: &SpelledBytes<'_>,
) -> Result<(), NotPushed>
    requires good { IsGood (instruction payload.now.op (Counted payload.now.bytes.now)) }
    requires sees { AreSeen (record { entries = stack.old; table = table.old }) }
    ensures { HasPushedText item config.now.limits.stack
        (text (instruction payload.now.op (Counted payload.now.bytes.now)))
        (record { entries = stack.old; table = table.old })
        (record { entries = stack.new; table = table.new }) (with_reason result) }
{
    let inst = Inst::known(payload.op, Arg::Counted(payload.bytes));
    let Ok(text) = text_spelled(config.alloc, &inst) else {
        return Err(NotPushed::OutOfMemory);
    };
    name_text(stack, table, item, &config.limits, text.as_bytes())
}

/// Like `name_text`, for an opcode and its line.
#[inline(never)]
fn name_line<I: Item>(
    stack: &mut Stack<I>,
    table: &mut ImportTable,
    item: I,
    config: &MachineConfig,
    line: &SpelledBytes<'_>,
) -> Result<(), NotPushed>
    requires good { IsGood (instruction line.now.op (Line line.now.bytes.now)) }
    requires sees { AreSeen (record { entries = stack.old; table = table.old }) }
    ensures { HasPushedText item config.now.limits.stack
        (text (instruction line.now.op (Line line.now.bytes.now)))
        (record { entries = stack.old; table = table.old })
        (record { entries = stack.new; table = table.new }) (with_reason result) }
{
    if is_text(line.op, line.bytes) {
        return name_text(stack, table, item, &config.limits, line.bytes);
    }
    name_line_slowly(stack, table, item, config, line)
}

/// Whether the line is the text itself and needs no decoding.
fn is_text(op: Op, line: &[u8]) -> bool
    ensures utf8 { result ≡ true → IsUtf8 line.now }
    ensures text { result ≡ true → text (instruction op (Line line.now)) ≡ line.now }
{
    plain_line_is_text();
    text_is_named();
    match op {
        Op::Unicode => spells_itself(line),
        _ => false,
    }
}

/// `name_line` for any line.
#[inline(never)]
fn name_line_slowly<I: Item>(
    stack: &mut Stack<I>,
    table: &mut ImportTable,
    item: I,
    config: &MachineConfig,
    line: &SpelledBytes<'_>,
) -> Result<(), NotPushed>
    requires good { IsGood (instruction line.now.op (Line line.now.bytes.now)) }
    requires sees { AreSeen (record { entries = stack.old; table = table.old }) }
    ensures { HasPushedText item config.now.limits.stack
        (text (instruction line.now.op (Line line.now.bytes.now)))
        (record { entries = stack.old; table = table.old })
        (record { entries = stack.new; table = table.new }) (with_reason result) }
{
    let inst = Inst::known(line.op, Arg::Line(line.bytes));
    let Ok(text) = text_spelled(config.alloc, &inst) else {
        return Err(NotPushed::OutOfMemory);
    };
    name_text(stack, table, item, &config.limits, text.as_bytes())
}

/// Adds the text of an instruction to the table, and pushes its number.
#[inline(always)]
pub fn make_text<I: Item>(
    stack: &mut Stack<I>,
    table: &mut ImportTable,
    item: I,
    config: &MachineConfig,
    inst: &Inst<'_>,
) -> Result<(), Reason>
    requires spells { IsSpelled (instruction_of inst.now).arg }
    requires sees { AreSeen (record { entries = stack.old; table = table.old }) }
    ensures { HasPushedText item config.now.limits.stack (text (instruction_of inst.now))
        (record { entries = stack.old; table = table.old })
        (record { entries = stack.new; table = table.new }) result }
{
    match inst.arg() {
        Arg::Counted(payload) if holds_utf8(inst.op()) => {
            name_text(stack, table, item, &config.limits, payload)?;
            Ok(())
        }
        Arg::Counted(payload) => {
            let payload = SpelledBytes {
                op: inst.op(),
                bytes: payload,
            };
            name_payload(stack, table, item, config, &payload)?;
            Ok(())
        }
        Arg::Line(line) => {
            let line = SpelledBytes {
                op: inst.op(),
                bytes: line,
            };
            name_line(stack, table, item, config, &line)?;
            Ok(())
        }
        _ => unreachable!(),
    }
}

/// Whether the payload of the opcode is UTF-8 and needs no decoding.
fn holds_utf8(op: Op) -> bool
    ensures { result ≡ true → rule_of op ≡ rule.Utf8 }
{
    match op {
        Op::ShortBinUnicode => true,
        Op::BinUnicode => true,
        Op::BinUnicode8 => true,
        _ => false,
    }
}
