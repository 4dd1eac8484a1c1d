//! Finds the import that an operation names.
ghost use Rattle.std.specs.Prelude.{◌≡◌, ℕ, List, map, option_map, IfOk, IfErr, None, Some};
ghost use Rattle.pkmachine.specs.Private.Slots.{IsTextBelow, known, value_known};
ghost use Rattle.pkmachine.specs.Private.Asking.{AreNumbered};
ghost use Rattle.pkmachine.specs.Knowledge.{asked_of, operands_asked, NotText};
ghost use Rattle.pkimport.specs.Table.{IsNamed, IsNamedIf, named_asked};
ghost use Rattle.pkops.specs.Operands.{pair_named};
ghost use Rattle.pkops.specs.Spelling.{Instruction};

use crate::domain::Item;
use crate::effect::Names;
use crate::stack::Operands;
use crate::value::Value;
use pkimport::Named;
use pkops::Reason;

/// The import that two operands name. Refuses an operand that is known not to be a text.
pub fn operands_named<'a>(module_name: Value, name: Value) -> Result<Named<'a>, Reason>
    ensures ok { (ts : List (List ℕ)) → IfOk result
        (λ a. operands_asked None (value_known ts module_name) (value_known ts name)
        ≡ Ok (Some (named_asked ts a))) }
    ensures within { (count : ℕ) → IsTextBelow count module_name → IsTextBelow count name
        → IfOk result (IsNamed count) }
    ensures err { (ts : List (List ℕ)) → IfErr result
        (λ r. (operands_asked None (value_known ts module_name) (value_known ts name) ≡ Err NotText)
        × (r ≡ Reason.NotText)) }
{
    match module_name {
        Value::Made(_) => Err(Reason::NotText),
        Value::Unknown => match name {
            Value::Made(_) => Err(Reason::NotText),
            _ => Ok(Named::Unknown),
        },
        Value::Text(first) => match name {
            Value::Made(_) => Err(Reason::NotText),
            Value::Unknown => Ok(Named::Unknown),
            Value::Text(second) => Ok(Named::Made(first, second)),
        },
    }
}

/// The import of an operation, or `None` if it imports nothing. `spelled` holds the names in its
/// argument.
pub fn asked_by<'a, I: Item>(
    names: Names,
    spelled: Option<(&'a str, &'a str)>,
    operands: &Operands<'_, I>,
) -> Result<Option<Named<'a>>, Reason>
    ensures ok { (i : Instruction)
        → option_map (λ pair. (pair.0.now, pair.1.now)) spelled.entry ≡ pair_named i
        → (ts : List (List ℕ)) → IfOk result (λ a. asked_of None names i
        (map (known ts) operands.now) ≡ Ok (option_map (named_asked ts) a)) }
    ensures within { (count : ℕ) → AreNumbered count operands.now
        → IfOk result (IsNamedIf count) }
    ensures err { (i : Instruction) (ts : List (List ℕ)) → IfErr result (λ r. (asked_of None names
        i (map (known ts) operands.now) ≡ Err NotText) × (r ≡ Reason.NotText)) }
{
    match names {
        Names::NoName => Ok(None),
        Names::OfArgument => {
            let Some((module_name, name)) = spelled else {
                return Ok(None);
            };
            Ok(Some(Named::Written(module_name, name)))
        }
        Names::OfOperands => {
            let Some((module_name, name)) = operands.pair() else {
                return Ok(None);
            };
            Ok(Some(operands_named(module_name.value.value(), name.value.value())?))
        }
    }
}
