//! The substitutes of a list file: what stands for a name when a pickle is loaded. The reader takes
//! any string for one; who loads the pickle knows which there are.
ghost use Rattle.std.specs.Prelude.{◌≡◌, option_map};
ghost use Rattle.toml.specs.View.{table_view, view};
ghost use Rattle.pklist.specs.ListFile.{each_substitute_fault, is_text_value, substitute_fault};
ghost use Rattle.pklist.specs.ListFile.{substitutes_fault};

use crate::allow::{AllowError, Where};
use toml::{Table, Value};

/// The first error in the table `substitutes`, if there is such a table.
pub fn substitutes_fault(substitutes: Option<&Value>) -> Option<AllowError>
    ensures { result ≡ substitutes_fault (option_map (λ v. view v.now) substitutes.entry) }
{
    match substitutes {
        None => None,
        Some(Value::Table(substitutes)) => each_substitute_fault(substitutes),
        Some(_) => Some(AllowError::Shape(Where::Substitutes)),
    }
}

/// The first error among the keys, in the order of their bytes.
fn each_substitute_fault(substitutes: &Table) -> Option<AllowError>
    ensures { result ≡ each_substitute_fault (table_view substitutes.now) }
{
    for (key, value) in substitutes {
        let fault = substitute_fault(key.as_str(), value);
        if fault.is_some() {
            return fault;
        }
    }
    None
}

fn substitute_fault(key: &str, value: &Value) -> Option<AllowError>
    ensures { result ≡ substitute_fault key.now (view value.now) }
{
    if !key.is_empty() && is_text(value) {
        None
    } else {
        Some(AllowError::Shape(Where::Substitute))
    }
}

fn is_text(value: &Value) -> bool
    ensures { result ≡ is_text_value (view value.now) }
{
    match value {
        Value::String(_) => true,
        _ => false,
    }
}
