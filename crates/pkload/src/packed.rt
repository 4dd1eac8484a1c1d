//! What an object costs as a key, in four bytes.

ghost use Rattle.std.specs.Prelude.{◌≡◌, ◌≤◌};
ghost use Rattle.pkload.specs.Private.Packed.{flag, unpacked};

use std::marker::Model;

/// The cost of an object. Stack and memo have an entry for each object of a pickle.
#[derive(Clone, Copy)]
pub struct PackedHeft {
    code: u32,
}

/// The code of an object that weighs one, with an unsalted hash, such as a small int.
pub const LIGHT: u32 = 4096;

/// The code of an object that weighs one, with a salted hash, such as a short text.
pub const LIGHT_SALTED: u32 = 4097;

impl Model for PackedHeft {
    ghost use Rattle.std.proofs.Common.{ap};
    ghost use Rattle.pkload.specs.Private.Packed.{packed, packed_unpacked, unpacked};
    ghost use Rattle.pkload.specs.Heft.{Heft};

    ghost Value = { Heft };

    ghost view = { λ p. unpacked p.code };

    ghost inverse = { λ v. record { code = packed v } };

    ghost inverse_ok = { λ p h. ap (λ code. record { code = code }) (packed_unpacked p.code) };
}

impl PackedHeft {
    /// The cost with these parts.
    pub fn new(weight: u32, depth: u32, salted: bool, imported: bool) -> PackedHeft
        requires weight { weight ≤ 1_048_575 }
        requires depth { depth ≤ 1_023 }
        ensures { result ≡ record {
          weight = weight;
          depth = depth;
          salted = salted;
          imported = imported;
        } }
    {
        PackedHeft {
            code: flag(salted) + 2 * flag(imported) + 4 * depth + 4096 * weight,
        }
    }

    /// The cost with a code.
    pub fn from_code(code: u32) -> PackedHeft
        ensures { result ≡ unpacked code }
    {
        PackedHeft { code }
    }

    /// The code.
    pub fn code(self) -> u32
        ensures { unpacked result ≡ self }
    {
        self.code
    }

    /// The weight.
    pub fn weight(self) -> u32
        ensures value { result ≡ self.weight }
        ensures small { result ≤ 1_048_575 }
    {
        self.code / 4096
    }

    /// The depth.
    pub fn depth(self) -> u32
        ensures value { result ≡ self.depth }
        ensures small { result ≤ 1_023 }
    {
        (self.code / 4) % 1024
    }

    /// Whether the hash is salted, or it isn't known what hashes the object.
    pub fn is_salted(self) -> bool
        ensures { result ≡ self.salted }
    {
        self.code % 2 == 1
    }

    /// Whether an import answered the object.
    pub fn is_imported(self) -> bool
        ensures { result ≡ self.imported }
    {
        (self.code / 2) % 2 == 1
    }
}

/// 1 or 0.
fn flag(set: bool) -> u32
    ensures { result ≡ flag set }
{
    if set { 1 } else { 0 }
}
