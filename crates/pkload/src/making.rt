//! What new objects cost.

ghost use Rattle.std.specs.Prelude.{◌≡◌, ◌+◌, ◌/◌, ◌≤◌, false, min, true};
ghost use Rattle.pkload.specs.Private.Billing.{frozen_heft, string_heft};

use crate::packed::PackedHeft;

/// What a text costs of so many bytes, or bytes.
pub fn made_text(size: u64) -> PackedHeft
    ensures { result ≡ string_heft size }
{
    let own = (size / 64).min(1_048_574) as u32;
    PackedHeft::new(1 + own, 0, true, false)
}

/// What an int of so many bytes or digits costs.
pub fn made_long(size: u64) -> PackedHeft
    ensures { result ≡ record {
      weight = min 1_048_575 (1 + size / 8);
      depth = 0;
      salted = false;
      imported = false;
    } }
{
    let own = (size / 8).min(1_048_574) as u32;
    PackedHeft::new(1 + own, 0, false, false)
}

/// What a tuple costs whose items together weigh this much, and the deepest of them is this deep.
pub fn tied(held: u32, deepest: u32) -> PackedHeft
    requires held { held ≤ 4_194_304 }
    requires deepest { deepest ≤ 1_023 }
    ensures { result ≡ record {
      weight = min 1_048_575 (1 + held);
      depth = min 1_023 (1 + deepest);
      salted = false;
      imported = false;
    } }
{
    let weight = (1 + held).min(1_048_575);
    let depth = (1 + deepest).min(1_023);
    PackedHeft::new(weight, depth, false, false)
}

/// What an answer costs whose operands together weigh this much, and the deepest of them is this
/// deep.
pub fn answered(held: u32, deepest: u32) -> PackedHeft
    requires held { held ≤ 4_194_304 }
    requires deepest { deepest ≤ 1_023 }
    ensures { result ≡ record {
      weight = min 1_048_575 (1 + held);
      depth = min 1_023 (1 + deepest);
      salted = true;
      imported = false;
    } }
{
    let tuple = tied(held, deepest);
    PackedHeft::new(tuple.weight(), tuple.depth(), true, false)
}

/// What a frozenset costs whose items together weigh this much.
pub fn frozen(held: u64) -> PackedHeft
    ensures { result ≡ frozen_heft held }
{
    let held = held.min(1_048_574) as u32;
    PackedHeft::new(1 + held, 0, false, false)
}
