//! Checks the class of an operation's receiver.
ghost use Rattle.std.specs.Prelude.{◌≡◌, ℕ, List, [], ◌∷◌, map};
ghost use Rattle.pkmachine.specs.Private.Slots.{known, value_known};
ghost use Rattle.pkmachine.specs.Runs.{Plain};
ghost use Rattle.pkmachine.specs.Knowledge.{suits, wrong_first, wrong_receiver};

use crate::domain::Item;
use crate::effect::{Class, Gives, Wanted};
use crate::stack::Operands;
use crate::value::Value;

fn is_list(class: Class) -> bool
    ensures { result ≡ suits Wanted.WantsList (Plain class) }
{
    match class {
        Class::List => true,
        _ => false,
    }
}

fn is_dict(class: Class) -> bool
    ensures { result ≡ suits Wanted.WantsDict (Plain class) }
{
    match class {
        Class::Dict => true,
        _ => false,
    }
}

/// Whether a receiver of this class is allowed. The variants are compared one by one, because a
/// `match` on all of them compiles to a jump table, which is slower.
pub fn class_suits(wanted: Wanted, class: Class) -> bool
    ensures { result ≡ suits wanted (Plain class) }
{
    if let Wanted::WantsAny = wanted {
        return true;
    }
    if let Wanted::WantsList = wanted {
        return is_list(class);
    }
    if let Wanted::WantsDict = wanted {
        return is_dict(class);
    }
    match class {
        Class::Set => true,
        _ => false,
    }
}

/// Whether a value is known to have the wrong class.
pub fn is_wrong(wanted: Wanted, value: Value) -> bool
    ensures { (ts : List (List ℕ)) → result ≡ wrong_first wanted (value_known ts value ∷ []) }
{
    if let Wanted::WantsAny = wanted {
        return false;
    }
    match value {
        Value::Unknown => false,
        Value::Made(class) => !class_suits(wanted, class),
        Value::Text(_) => true,
    }
}

/// Whether the receiver of an operation is known to have the wrong class.
#[inline(always)]
pub fn receiver_fault<I: Item>(gives: Gives, operands: &Operands<'_, I>) -> bool
    ensures { (ts : List (List ℕ)) → result ≡ wrong_receiver gives (map (known ts) operands.now) }
{
    let Gives::Leaves(wanted) = gives else {
        return false;
    };
    match operands.first() {
        Some(held) => is_wrong(wanted, held.value.value()),
        None => false,
    }
}
