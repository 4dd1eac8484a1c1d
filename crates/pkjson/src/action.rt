//! The effect of each plain opcode on the objects.

ghost use Rattle.std.specs.Prelude.{◌≡◌, IfSome, is_some};
ghost use Rattle.pkops.specs.Spelling.{Argument, instruction};
ghost use Rattle.pkmachine.specs.Effects.{effect_of};
ghost use Rattle.pkjson.specs.Contents.{kind_by_effect};
ghost use Rattle.pkjson.specs.Plain.{is_plain_data};
ghost use Rattle.pkjson.specs.Private.PlainActions.{ActsAs, KindsAgree};

use pkops::Op;
use pkstack::Move;

/// What an action takes from the stack: this many objects, or the topmost mark and everything above
/// it.
#[derive(Clone, Copy)]
pub enum Takes {
    Objects(u8),
    Slice,
}

/// What an action makes of its operands.
#[derive(Clone, Copy)]
pub enum Made {
    /// A list or a tuple.
    Items,
    /// An empty dict.
    NoPairs,
    /// A dict of alternating keys and values.
    Pairs,
    Null,
    Truth(bool),
    Int,
    /// A bool or an integer, from a line of INT.
    IntOrTruth,
    Text,
}

/// What receives the operands: the list or dict below them.
#[derive(Clone, Copy)]
pub enum Filled {
    Items,
    Pairs,
}

/// The effect of an instruction.
#[derive(Clone, Copy)]
pub enum Action {
    Makes(Takes, Made),
    Fills(Takes, Filled),
    /// Looks at no object.
    Moves(Move),
    Stops,
}

/// The effect of a plain opcode; `None` for any other opcode.
pub fn plain_action(op: Op) -> Option<Action>
    ensures plain { is_some result ≡ is_plain_data op }
    ensures acts { IfSome result (λ action. ActsAs action (effect_of op)) }
    ensures kinds { (arg : Argument) → IfSome result (λ action.
        KindsAgree action (instruction op arg) (kind_by_effect (instruction op arg))) }
{
    match op {
        Op::None => Some(Action::Makes(Takes::Objects(0), Made::Null)),
        Op::NewTrue => Some(Action::Makes(Takes::Objects(0), Made::Truth(true))),
        Op::NewFalse => Some(Action::Makes(Takes::Objects(0), Made::Truth(false))),
        Op::Int => Some(Action::Makes(Takes::Objects(0), Made::IntOrTruth)),
        Op::Long | Op::BinInt | Op::BinInt1 | Op::BinInt2 | Op::Long1 | Op::Long4 => {
            Some(Action::Makes(Takes::Objects(0), Made::Int))
        }
        Op::Unicode | Op::ShortBinUnicode | Op::BinUnicode | Op::BinUnicode8 => {
            Some(Action::Makes(Takes::Objects(0), Made::Text))
        }
        Op::EmptyList | Op::EmptyTuple => Some(Action::Makes(Takes::Objects(0), Made::Items)),
        Op::Tuple1 => Some(Action::Makes(Takes::Objects(1), Made::Items)),
        Op::Tuple2 => Some(Action::Makes(Takes::Objects(2), Made::Items)),
        Op::Tuple3 => Some(Action::Makes(Takes::Objects(3), Made::Items)),
        Op::List | Op::Tuple => Some(Action::Makes(Takes::Slice, Made::Items)),
        Op::EmptyDict => Some(Action::Makes(Takes::Objects(0), Made::NoPairs)),
        Op::Dict => Some(Action::Makes(Takes::Slice, Made::Pairs)),
        Op::Append => Some(Action::Fills(Takes::Objects(1), Filled::Items)),
        Op::Appends => Some(Action::Fills(Takes::Slice, Filled::Items)),
        Op::SetItem => Some(Action::Fills(Takes::Objects(2), Filled::Pairs)),
        Op::SetItems => Some(Action::Fills(Takes::Slice, Filled::Pairs)),
        Op::Mark => Some(Action::Moves(Move::PushesMark)),
        Op::Pop => Some(Action::Moves(Move::Pops)),
        Op::PopMark => Some(Action::Moves(Move::PopsMark)),
        Op::Dup => Some(Action::Moves(Move::Duplicates)),
        Op::Put | Op::BinPut | Op::LongBinPut => Some(Action::Moves(Move::Stores)),
        Op::Memoize => Some(Action::Moves(Move::StoresNext)),
        Op::Get | Op::BinGet | Op::LongBinGet => Some(Action::Moves(Move::Fetches)),
        Op::Proto | Op::Frame => Some(Action::Moves(Move::NoOp)),
        Op::Stop => Some(Action::Stops),
        _ => None,
    }
}
