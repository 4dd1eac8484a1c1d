//! What is known about an object.
ghost use Rattle.std.specs.Prelude.{◌≡◌, ℕ, List, option_map};
ghost use Rattle.pkmachine.specs.Following.{item_left};
ghost use Rattle.pkmachine.specs.Knowledge.{known_given};
ghost use Rattle.pkmachine.specs.Private.Items.{item_of};
ghost use Rattle.pkmachine.specs.Private.StepErrors.{IgnoresArgument};
ghost use Rattle.pkmachine.specs.Private.Slots.{StandsIf};
ghost use Rattle.pkmachine.specs.Runs.{int_or_bool};
ghost use Rattle.pkops.specs.Inst.{instruction_of};
ghost use Rattle.pkops.specs.Spelling.{Instruction};

use crate::domain::Item;
use crate::effect::{Class, Gives};
use crate::held::Held;
use crate::packed::PackedValue;
use pkops::Inst;

/// What is known about an object.
#[derive(Clone, Copy)]
pub enum Value {
    /// Nothing, because an operation answered it.
    Unknown,
    /// Its class, because the machine made it.
    Made(Class),
    /// It is the text with this number in the table.
    Text(u32),
}

/// The class of the object that INT makes.
pub fn int_or_bool(inst: &Inst) -> Class
    ensures { result ≡ int_or_bool (instruction_of inst.now) }
{
    if inst.names_bool() {
        Class::Bool
    } else {
        Class::Int
    }
}

/// What is kept of the result of an operation, with this item; `None` if it leaves the receiver.
pub fn value_of<I: Item>(gives: Gives, item: I) -> Option<Held<I>>
    requires { IgnoresArgument gives }
    ensures stands { (ts : List (List ℕ)) (i : Instruction)
        → StandsIf ts result (known_given gives i) }
    ensures item { option_map item_of result ≡ item_left gives item }
{
    let value = match gives {
        Gives::Leaves(_) => return None,
        Gives::Makes(class) => PackedValue::made(class),
        Gives::MayMake(class) => PackedValue::made(class),
        Gives::Answers => PackedValue::unknown(),
        _ => unreachable!(),
    };
    Some(Held { value, item })
}
