//! What the bill does at each opcode.

ghost use Rattle.std.specs.Prelude.{◌≡◌};
ghost use Rattle.pkmachine.specs.Effects.{effect_of};
ghost use Rattle.pkload.specs.Private.Billing.{action_in, action_of};

use pkops::Op;

/// What the bill does at an opcode.
#[derive(Clone, Copy)]
pub enum Action {
    /// Pushes a new object that weighs one, and takes this much memory.
    Makes(u64),
    /// Pushes the empty tuple.
    MakesTuple,
    /// Pushes a new object that is made of the argument.
    Reads,
    /// Pushes a text in UTF-8.
    Texts,
    /// Takes one object, two or three, and pushes a tuple of them.
    TiesOne,
    TiesTwo,
    TiesThree,
    /// Appends the top to the list below it.
    Appends,
    /// Appends a slice to the list below it.
    AppendsSlice,
    /// Adds a slice to the set below it.
    AddsSlice,
    /// Takes a slice and pushes a tuple of it, or a frozenset.
    TiesSlice,
    FreezesSlice,
    /// Puts a key and a value into the dict below them.
    Sets,
    /// Puts a slice of keys and values into the dict below it.
    SetsSlice,
    /// Takes a state, and leaves the object below it.
    Builds,
    /// Takes objects in another way, and pushes a new one.
    Operates,
    /// Pushes a mark.
    Marks,
    /// Pushes the memo entry of a number.
    Fetches,
    /// Stores the top under the next number.
    StoresNext,
    /// Stores the top under a number.
    Stores,
    /// Removes the topmost entry, or the topmost mark and what is above it.
    Pops,
    PopsMark,
    /// Pushes the top again.
    Duplicates,
    /// Changes nothing.
    Passes,
    /// Names an extension code, which is always missing.
    Extends,
    /// Takes the result.
    Stops,
}

/// The action of an opcode.
#[inline(always)]
pub fn action_of(op: Op) -> Action
    ensures { result ≡ action_of op }
{
    match op {
        Op::None | Op::NewTrue | Op::NewFalse | Op::BinInt1 => Action::Makes(16),
        Op::BinInt | Op::BinInt2 | Op::BinFloat => Action::Makes(48),
        Op::EmptyList | Op::EmptyDict => Action::Makes(96),
        Op::EmptySet => Action::Makes(256),
        Op::EmptyTuple => Action::MakesTuple,
        Op::ShortBinUnicode | Op::BinUnicode | Op::BinUnicode8 => Action::Texts,
        Op::Tuple1 => Action::TiesOne,
        Op::Tuple2 => Action::TiesTwo,
        Op::Tuple3 => Action::TiesThree,
        Op::Append => Action::Appends,
        Op::Appends => Action::AppendsSlice,
        Op::AddItems => Action::AddsSlice,
        Op::Tuple => Action::TiesSlice,
        Op::FrozenSet => Action::FreezesSlice,
        Op::Build => Action::Builds,
        Op::SetItem => Action::Sets,
        Op::SetItems => Action::SetsSlice,
        Op::Mark => Action::Marks,
        Op::Get | Op::BinGet | Op::LongBinGet => Action::Fetches,
        Op::Put | Op::BinPut | Op::LongBinPut => Action::Stores,
        Op::Memoize => Action::StoresNext,
        _ => rare_action_of(op),
    }
}

/// The action of an opcode by its effect.
pub fn rare_action_of(op: Op) -> Action
    ensures { result ≡ action_in (effect_of op) }
{
    match op {
        Op::Tuple | Op::Tuple1 | Op::Tuple2 | Op::Tuple3 | Op::FrozenSet => Action::Operates,
        Op::Append | Op::Appends | Op::List => Action::Operates,
        Op::SetItem | Op::SetItems | Op::Dict | Op::AddItems => Action::Operates,
        Op::Reduce | Op::NewObj | Op::NewObjEx | Op::Inst | Op::Obj => Action::Operates,
        Op::StackGlobal | Op::BinPersid | Op::ReadonlyBuffer | Op::Build => Action::Operates,
        Op::Pop => Action::Pops,
        Op::PopMark => Action::PopsMark,
        Op::Dup => Action::Duplicates,
        Op::Proto | Op::Frame => Action::Passes,
        Op::Ext1 | Op::Ext2 | Op::Ext4 => Action::Extends,
        Op::Mark => Action::Marks,
        Op::Get | Op::BinGet | Op::LongBinGet => Action::Fetches,
        Op::Put | Op::BinPut | Op::LongBinPut => Action::Stores,
        Op::Memoize => Action::StoresNext,
        Op::Stop => Action::Stops,
        _ => Action::Reads,
    }
}
