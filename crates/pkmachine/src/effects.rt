//! What each opcode does to the stack and the memo.
ghost use Rattle.std.specs.Prelude.{◌≡◌, IsTrue};
ghost use Rattle.pkmachine.specs.Effects.{effect_of, pushes, makes, may_make, answers, imports};
ghost use Rattle.pkmachine.specs.Effects.{Operates, fills};
ghost use Rattle.pkmachine.specs.Private.Actions.{IsActionOf, IsOperation, effect_in};
ghost use Rattle.pkops.specs.Payloads.{is_passed};

use crate::effect::{Class, Gives, Names, Wanted};
use pkops::Op;
use pkstack::{Move, SliceRule, Takes};

/// What an operation takes, where the name of its import comes from, and what it leaves.
#[derive(Clone, Copy)]
pub struct Operation {
    pub takes: Takes,
    pub names: Names,
    pub gives: Gives,
}

/// What the machine does at an opcode. The most frequent actions are variants of their own. The
/// other operations look up their row of the table.
#[derive(Clone, Copy)]
pub enum Action {
    /// Pushes a new object of this class.
    Makes(Class),
    /// Pushes a new int or bool, depending on the line.
    MakesIntOrBool,
    /// Pushes the text that the argument spells.
    MakesText,
    /// Pushes what a Python 2 string decodes to.
    ReadsOldString,
    /// Looks at no object.
    Moves(Move),
    /// Takes objects and leaves one.
    Operates,
    /// Takes objects, imports a pair and pushes one object.
    Imports,
    /// Pops the result.
    Stops,
}

/// Takes the operands and pushes a new object of this class.
fn makes(takes: Takes, class: Class) -> Operation
    ensures { effect_in result ≡ makes takes class }
{
    unnamed(takes, Gives::Makes(class))
}

/// Takes the operands and pushes a new object of this class, or raises.
fn may_make(takes: Takes, class: Class) -> Operation
    ensures { effect_in result ≡ may_make takes class }
{
    unnamed(takes, Gives::MayMake(class))
}

/// Takes the operands and pushes any object, or raises.
fn answers(takes: Takes) -> Operation
    ensures { effect_in result ≡ answers takes }
{
    unnamed(takes, Gives::Answers)
}

/// Takes the operands except the first, which stays on the stack with more in it, or raises.
fn fills(takes: Takes, wanted: Wanted) -> Operation
    ensures { effect_in result ≡ fills takes wanted }
{
    unnamed(takes, Gives::Leaves(wanted))
}

/// An operation that imports nothing.
fn unnamed(takes: Takes, gives: Gives) -> Operation
    ensures { effect_in result ≡ Operates takes Names.NoName gives }
{
    Operation {
        takes,
        names: Names::NoName,
        gives,
    }
}

/// Takes the operands, imports a pair and pushes the object of that name, or raises.
fn imports(takes: Takes, names: Names) -> Operation
    ensures { effect_in result ≡ imports takes names }
{
    Operation {
        takes,
        names,
        gives: Gives::Answers,
    }
}

/// The operation of an opcode. The result is unspecified if the opcode has none.
#[inline(always)]
pub fn operation_of(op: Op) -> Operation
    ensures { IsOperation (effect_of op) → effect_of op ≡ effect_in result }
{
    match op {
        // bytes and buffers
        Op::ReadonlyBuffer => answers(Takes::Objects(1)),
        // lists
        Op::Append => fills(Takes::Objects(2), Wanted::WantsList),
        Op::Appends => fills(
            Takes::SliceAndReceiver(SliceRule::AnySlice),
            Wanted::WantsList,
        ),
        Op::List => makes(Takes::Slice(SliceRule::AnySlice), Class::List),
        // tuples
        Op::Tuple => makes(Takes::Slice(SliceRule::AnySlice), Class::Tuple),
        Op::Tuple1 => makes(Takes::Objects(1), Class::Tuple),
        Op::Tuple2 => makes(Takes::Objects(2), Class::Tuple),
        Op::Tuple3 => makes(Takes::Objects(3), Class::Tuple),
        // dicts
        Op::Dict => may_make(Takes::Slice(SliceRule::EvenSlice), Class::Dict),
        Op::SetItem => fills(Takes::Objects(3), Wanted::WantsDict),
        Op::SetItems => fills(
            Takes::SliceAndReceiver(SliceRule::EvenSlice),
            Wanted::WantsDict,
        ),
        // sets
        Op::AddItems => fills(
            Takes::SliceAndReceiver(SliceRule::AnySlice),
            Wanted::WantsSet,
        ),
        Op::FrozenSet => may_make(Takes::Slice(SliceRule::AnySlice), Class::FrozenSet),
        // imports
        Op::Global => imports(Takes::Objects(0), Names::OfArgument),
        Op::StackGlobal => imports(Takes::Objects(2), Names::OfOperands),
        // calls and state
        Op::Reduce => answers(Takes::Objects(2)),
        Op::Build => fills(Takes::Objects(2), Wanted::WantsAny),
        Op::Inst => imports(Takes::Slice(SliceRule::AnySlice), Names::OfArgument),
        Op::Obj => answers(Takes::Slice(SliceRule::FullSlice)),
        Op::NewObj => answers(Takes::Objects(2)),
        Op::NewObjEx => answers(Takes::Objects(3)),
        Op::BinPersid => answers(Takes::Objects(1)),
        // PERSID and NEXT_BUFFER
        _ => answers(Takes::Objects(0)),
    }
}

/// What the machine does at the opcode.
#[inline(always)]
pub fn action_of(op: Op) -> Action
    ensures { IsActionOf op result }
{
    match op {
        Op::Int => Action::MakesIntOrBool,
        Op::BinInt => Action::Makes(Class::Int),
        Op::BinInt1 => Action::Makes(Class::Int),
        Op::BinInt2 => Action::Makes(Class::Int),
        Op::Long => Action::Makes(Class::Int),
        Op::Long1 => Action::Makes(Class::Int),
        Op::Long4 => Action::Makes(Class::Int),
        Op::Float => Action::Makes(Class::Float),
        Op::BinFloat => Action::Makes(Class::Float),
        Op::String => Action::ReadsOldString,
        Op::BinString => Action::ReadsOldString,
        Op::ShortBinString => Action::ReadsOldString,
        Op::BinBytes => Action::Makes(Class::Bytes),
        Op::ShortBinBytes => Action::Makes(Class::Bytes),
        Op::BinBytes8 => Action::Makes(Class::Bytes),
        Op::ByteArray8 => Action::Makes(Class::ByteArray),
        Op::None => Action::Makes(Class::None),
        Op::NewTrue => Action::Makes(Class::Bool),
        Op::NewFalse => Action::Makes(Class::Bool),
        Op::Unicode => Action::MakesText,
        Op::ShortBinUnicode => Action::MakesText,
        Op::BinUnicode => Action::MakesText,
        Op::BinUnicode8 => Action::MakesText,
        Op::EmptyList => Action::Makes(Class::List),
        Op::EmptyTuple => Action::Makes(Class::Tuple),
        Op::EmptyDict => Action::Makes(Class::Dict),
        Op::EmptySet => Action::Makes(Class::Set),
        Op::Pop => Action::Moves(Move::Pops),
        Op::Dup => Action::Moves(Move::Duplicates),
        Op::Mark => Action::Moves(Move::PushesMark),
        Op::PopMark => Action::Moves(Move::PopsMark),
        Op::Get => Action::Moves(Move::Fetches),
        Op::BinGet => Action::Moves(Move::Fetches),
        Op::LongBinGet => Action::Moves(Move::Fetches),
        Op::Put => Action::Moves(Move::Stores),
        Op::BinPut => Action::Moves(Move::Stores),
        Op::LongBinPut => Action::Moves(Move::Stores),
        Op::Memoize => Action::Moves(Move::StoresNext),
        Op::Ext1 => Action::Moves(Move::Extends),
        Op::Ext2 => Action::Moves(Move::Extends),
        Op::Ext4 => Action::Moves(Move::Extends),
        Op::Global => Action::Imports,
        Op::StackGlobal => Action::Imports,
        Op::Inst => Action::Imports,
        Op::Proto => Action::Moves(Move::NoOp),
        Op::Frame => Action::Moves(Move::NoOp),
        Op::Stop => Action::Stops,
        _ => Action::Operates,
    }
}

/// The class of the object that an opcode with a skipped payload makes.
pub fn class_passed(op: Op) -> Class
    ensures { IsTrue (is_passed op) → effect_of op ≡ pushes result }
{
    match op {
        Op::ByteArray8 => Class::ByteArray,
        _ => Class::Bytes,
    }
}
