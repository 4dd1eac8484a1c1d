//! The kind of an object.

ghost use Rattle.std.specs.Prelude.{◌≡◌, IfOk, IfErr, IfSome, true, false};
ghost use Rattle.pkops.specs.Inst.{instruction_of};
ghost use Rattle.pkops.specs.Spelling.{shown_arg};
ghost use Rattle.pkjson.specs.Contents.{says_true, text_named};
ghost use Rattle.pkjson.specs.Private.PlainActions.{kind_made, number_made};
ghost use Rattle.pkjson.specs.Private.Halts.{IsNoKind};
ghost use Rattle.pkjson.specs.Private.Kinds.{kind_seen};

use crate::action::Made;
use crate::halt::Halt;
use crate::integer::integer;
use pkops::{Arg, Inst, Rule, text_of};
use std::alloc::Global;

/// The kind of an object, with the value of a scalar.
#[derive(Drop)]
pub enum Kind<'a> {
    /// A list or a tuple.
    Items,
    /// A dict.
    Pairs,
    Null,
    Bool(bool),
    Int(i64),
    /// A text that the pickle contains verbatim.
    Lent(&'a str),
    /// A text that the pickle spells with escapes.
    Decoded(String),
}

/// The kind of object that an instruction makes.
pub fn kind_of<'a>(alloc: Global, made: Made, inst: &Inst<'a>) -> Result<Kind<'a>, Halt>
    ensures fits { IfOk result (λ _. number_made made (instruction_of inst.now) ≡ true) }
    ensures kind { IfOk result (λ kind. kind_seen kind ≡ kind_made made (instruction_of inst.now)) }
    ensures err { IfErr result (IsNoKind (number_made made (instruction_of inst.now))) }
{
    match made {
        Made::Items => Ok(Kind::Items),
        Made::NoPairs => Ok(Kind::Pairs),
        Made::Pairs => Ok(Kind::Pairs),
        Made::Null => Ok(Kind::Null),
        Made::Truth(truth) => Ok(Kind::Bool(truth)),
        Made::Text => text(alloc, inst),
        Made::Int => number(inst),
        Made::IntOrTruth => {
            if inst.names_bool() {
                Ok(Kind::Bool(says_true(inst.arg())))
            } else {
                number(inst)
            }
        }
    }
}

/// A text.
fn text<'a>(alloc: Global, inst: &Inst<'a>) -> Result<Kind<'a>, Halt>
    ensures kind { IfOk result (λ kind. kind_seen kind
        ≡ kind_made Made.Text (instruction_of inst.now)) }
    ensures err { IfErr result (λ halt. halt ≡ Halt.OutOfMemory) }
{
    if let Some(text) = lent(inst) {
        return Ok(Kind::Lent(text));
    }
    match text_of(alloc, inst) {
        Ok(Some(text)) => Ok(Kind::Decoded(text)),
        Ok(None) => Ok(Kind::Decoded(String::new(alloc))),
        Err(_) => Err(Halt::OutOfMemory),
    }
}

/// The payload, if it is the text itself.
fn lent<'a>(inst: &Inst<'a>) -> Option<&'a str>
    ensures { IfSome result (λ text. text.now ≡ text_named (instruction_of inst.now)) }
{
    match (Rule::of(inst.op()), inst.arg()) {
        (Rule::Utf8, Arg::Counted(payload)) => match str::from_utf8(payload) {
            Ok(text) => Some(text),
            Err(_) => None,
        },
        _ => None,
    }
}

/// An integer.
fn number<'a>(inst: &Inst<'a>) -> Result<Kind<'a>, Halt>
    ensures fits { IfOk result (λ _. number_made Made.Int (instruction_of inst.now) ≡ true) }
    ensures kind { IfOk result (λ kind. kind_seen kind
        ≡ kind_made Made.Int (instruction_of inst.now)) }
    ensures err { IfErr result (λ halt. (halt ≡ Halt.LargeNumber)
        × (number_made Made.Int (instruction_of inst.now) ≡ false)) }
{
    match integer(inst.arg()) {
        Some(number) => Ok(Kind::Int(number)),
        None => Err(Halt::LargeNumber),
    }
}

/// Whether INT says True: 01 does, 00 says False.
fn says_true(arg: Arg<'_>) -> bool
    ensures { result ≡ says_true (shown_arg arg.entry) }
{
    match arg {
        Arg::Line([_, last]) => *last == b'1',
        _ => false,
    }
}
