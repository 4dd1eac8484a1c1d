//! Takes slices from the stack, and sums up their objects.

ghost use Rattle.std.specs.List.{list_all};
ghost use Rattle.std.specs.Prelude.{◌≡◌, IfErr, IfOk, OnErr, OnOk, map, suc, true};
ghost use Rattle.pkstack.specs.Shape.{is_even};
ghost use Rattle.pkload.specs.Keys.{every_other};
ghost use Rattle.pkload.specs.Private.Billing.{AreFrozen, ArePairsReplaced, HasKeys, HasPairs};
ghost use Rattle.pkload.specs.Private.Gathered.{IsAnswerAbout, IsTied, is_light};
ghost use Rattle.pkload.specs.Private.Lost.{IsTallyTooGreat, IsTooGreat, LacksKeys, LacksPairs};
ghost use Rattle.pkload.specs.Private.Packed.{unpacked};
ghost use Rattle.pkload.specs.Tally.{with_keys};

use crate::halt::{Halt, plus};
use crate::making::{frozen, tied};
use crate::packed::{LIGHT, LIGHT_SALTED, PackedHeft};
use crate::stack::Stack;
use crate::tally::Tally;

/// Counts objects as keys. Most keys are small ints, of which only the others are numbered.
fn count_items(codes: &[u32], tally: &mut Tally) -> Result<(), Halt>
    ensures ok { OnOk result (tally.new ≡ with_keys tally.old (map unpacked codes.now)) }
    ensures err { OnErr result (IsTallyTooGreat (with_keys tally.old (map unpacked codes.now))) }
{
    let mut seen: u64 = 0;
    let mut others: u64 = 0;
    let mut salted: u64 = 0;
    let mut place = codes.len();
    'keys: while place > 0 {
        place -= 1;
        seen += 1;
        let code = codes[place];
        if code != LIGHT {
            others += 1;
            if code == LIGHT_SALTED {
                salted += 1;
            } else {
                tally.add(PackedHeft::from_code(code))?;
            }
        }
    }
    tally.add_lights(seen - others, salted)
}

/// Counts the first, the third and so on of an even number of objects as keys.
#[tactic(auto, using(crate::proofs::Lights::even_more, crate::proofs::Lights::key_more))]
fn count_pairs(codes: &[u32], tally: &mut Tally) -> Result<(), Halt>
    ensures even { OnOk result (is_even (map unpacked codes.now) ≡ true) }
    ensures counted { OnOk result (tally.new
        ≡ with_keys tally.old (every_other (map unpacked codes.now))) }
    ensures err { OnErr result (is_even (map unpacked codes.now) ≡ true
        → IsTallyTooGreat (with_keys tally.old (every_other (map unpacked codes.now)))) }
{
    let mut seen: u64 = 0;
    let mut others: u64 = 0;
    let mut salted: u64 = 0;
    let mut place = codes.len();
    'pairs: while place > 1 {
        place -= 2;
        seen += 1;
        let key = codes[place];
        if key != LIGHT {
            others += 1;
            if key == LIGHT_SALTED {
                salted += 1;
            } else {
                tally.add(PackedHeft::from_code(key))?;
            }
        }
    }
    if place > 0 {
        return Err(Halt::Lost);
    }
    tally.add_lights(seen - others, salted)
}

/// Takes the objects above the topmost mark, and the mark, and counts them as keys. Returns their
/// number.
#[inline(always)]
#[tactic(auto, using(crate::proofs::Lights::keys_counted))]
pub fn take_items(stack: &mut Stack, tally: &mut Tally) -> Result<u64, Halt>
    ensures ok { IfOk result (HasKeys stack.old stack.new tally.old tally.new) }
    ensures err { OnErr result (LacksKeys stack.old tally.old) }
{
    count_items(stack.objects(), tally)?;
    stack.drop_slice()
}

/// Takes the keys and values above the topmost mark, and the mark, and counts the keys. Returns
/// the number of keys and values.
#[inline(always)]
#[tactic(auto, using(crate::proofs::Lights::pairs_counted))]
pub fn take_pairs(stack: &mut Stack, tally: &mut Tally) -> Result<u64, Halt>
    ensures ok { IfOk result (HasPairs stack.old stack.new tally.old tally.new) }
    ensures err { OnErr result (LacksPairs stack.old tally.old) }
{
    count_pairs(stack.objects(), tally)?;
    stack.drop_slice()
}

/// Counts the objects above the topmost mark as keys, and puts a frozenset in place of them and the
/// mark. Returns their number. What the keys weigh more is what the frozenset holds.
pub fn freeze_items(stack: &mut Stack, tally: &mut Tally) -> Result<u64, Halt>
    ensures ok { IfOk result (AreFrozen stack.old stack.new tally.old tally.new) }
    ensures err { OnErr result (LacksKeys stack.old tally.old) }
{
    let before = tally.work;
    count_items(stack.objects(), tally)?;
    let held = tally.work - before;
    stack.replace_slice(frozen(held))
}

/// Counts the keys above the topmost mark, and puts an object in place of the keys, the values and
/// the mark. Returns the number of keys and values.
#[inline(always)]
#[tactic(auto, using(crate::proofs::Lights::pairs_replaced))]
pub fn replace_pairs(stack: &mut Stack, tally: &mut Tally, heft: PackedHeft) -> Result<u64, Halt>
    ensures ok { IfOk result (ArePairsReplaced stack.old stack.new tally.old tally.new heft) }
    ensures err { OnErr result (LacksPairs stack.old tally.old) }
{
    count_pairs(stack.objects(), tally)?;
    stack.replace_slice(heft)
}

/// Whether each weighs one and isn't deep.
fn are_light(codes: &[u32]) -> bool
    ensures { result ≡ list_all is_light codes.now }
{
    codes
        .iter()
        .all(|code| *code == LIGHT || *code == LIGHT_SALTED)
}

/// What a tuple of these objects costs. Most tuples are of small ints and short texts.
#[tactic(auto, using(crate::proofs::Lights::light_weights, crate::proofs::Lights::light_depths))]
pub fn tied_all(codes: &[u32]) -> PackedHeft
    ensures { IsTied (map unpacked codes.now) result }
{
    if are_light(codes) {
        return tied(codes.len().min(1_048_575) as u32, 0);
    }
    tied_slowly(codes)
}

/// What an answer about these objects costs.
pub fn answered_all(codes: &[u32]) -> PackedHeft
    ensures { IsAnswerAbout (map unpacked codes.now) result }
{
    let tuple = tied_all(codes);
    PackedHeft::new(tuple.weight(), tuple.depth(), true, false)
}

/// What a tuple of any objects costs.
fn tied_slowly(codes: &[u32]) -> PackedHeft
    ensures { IsTied (map unpacked codes.now) result }
{
    let mut held: u32 = 0;
    let mut deepest: u32 = 0;
    let mut place = codes.len();
    'items: while place > 0 {
        place -= 1;
        let heft = PackedHeft::from_code(codes[place]);
        held = (held + heft.weight()).min(1_048_575);
        deepest = deepest.max(heft.depth());
    }
    tied(held, deepest)
}

/// So many objects, and one more.
pub fn with_receiver(count: u64) -> Result<u64, Halt>
    ensures ok { IfOk result (λ all. all ≡ suc count) }
    ensures err { IfErr result (IsTooGreat (suc count)) }
{
    plus(count, 1)
}
