//! What is known about an object, in four bytes.
ghost use Rattle.std.specs.Prelude.{◌≡◌, ◌<◌, IfSome};
ghost use Rattle.pkmachine.specs.Private.Packed.{unpacked};

use crate::effect::Class;
use crate::value::Value;
use std::marker::Model;

/// A `Value` in four bytes. Stack and memo have an entry for each object of a pickle, so their size
/// decides how many pages they touch. No value has the greatest code, which marks have.
#[derive(Clone, Copy)]
pub struct PackedValue {
    pub(crate) code: u32,
}

impl Model for PackedValue {
    ghost use Rattle.std.proofs.Common.{ap};
    ghost use Rattle.std.specs.Prelude.{◌<◌};
    ghost use Rattle.pkmachine.specs.Private.Packed.{mark, packed, packed_unpacked, unpacked};
    ghost use Rattle.pkmachine.specs.declared.value.Value.{Value as Object};

    ghost Value = { Object };

    ghost view = { λ p. unpacked p.code };

    ghost invariant = { λ p. p.code < mark };

    ghost inverse = { λ v. record { code = packed v } };

    ghost inverse_ok = { λ p h. ap (λ code. record { code = code }) (packed_unpacked p.code) };
}

/// The number of codes that aren't texts.
const PLAIN: u32 = 12;

/// The code of a mark.
pub(crate) const MARK: u32 = u32::MAX;

impl PackedValue {
    /// An object about which nothing is known.
    pub fn unknown() -> PackedValue
        ensures { result ≡ Value.Unknown }
    {
        PackedValue { code: 0 }
    }

    /// An object of a class, which the machine made.
    pub fn made(class: Class) -> PackedValue
        ensures { result ≡ Value.Made class }
    {
        PackedValue {
            code: class as u32 + 1,
        }
    }

    /// The text with this number; `None` if it has no code.
    pub fn text(number: usize) -> Option<PackedValue>
        ensures { IfSome result (λ packed. packed ≡ Value.Text number) }
    {
        if number >= (MARK - PLAIN) as usize {
            return None;
        }
        Some(PackedValue {
            code: number as u32 + PLAIN,
        })
    }

    /// The value.
    #[inline(always)]
    pub fn value(self) -> Value
        ensures { result ≡ self }
    {
        if self.code >= PLAIN {
            return Value::Text(self.code - PLAIN);
        }
        plain_of(self.code)
    }
}

/// The value of a code below `PLAIN`.
fn plain_of(code: u32) -> Value
    requires { code < 12 }
    ensures { result ≡ unpacked code }
{
    match code {
        0 => Value::Unknown,
        1 => Value::Made(Class::None),
        2 => Value::Made(Class::Bool),
        3 => Value::Made(Class::Int),
        4 => Value::Made(Class::Float),
        5 => Value::Made(Class::Bytes),
        6 => Value::Made(Class::ByteArray),
        7 => Value::Made(Class::List),
        8 => Value::Made(Class::Tuple),
        9 => Value::Made(Class::Dict),
        10 => Value::Made(Class::Set),
        _ => Value::Made(Class::FrozenSet),
    }
}
