//! Checks pickles, and bounds what loading them costs.
ghost use Rattle.std.specs.Prelude.{◌≡◌, ◌≢◌, ◌≤◌, Some, []};
ghost use Rattle.pkmachine.specs.Policies.{permit_of};
ghost use Rattle.pkguard.specs.Guard.{Answers, IsListFault};
ghost use Rattle.pkguard.specs.Loading.{AreCostsOf, IsNoOrCostly, IsUsageWith, IsYesWithBill};
ghost use Rattle.pkguard.specs.Loading.{IsYesWithin, SetsWith, extent_by, nothing_billed, tolls_by};
ghost use Rattle.pkguard.specs.Settings.{PermitsPairs, limits_by, listed_by, loading_by};

use crate::costs::{self, Bill, Costs};
use crate::list;
use crate::settings::{self, Settings};
use crate::verdict::{self, Verdict};
use pkcheck::{OldStrings, Permit, Terms};
use pklist::Pair;
use pklist::laws::halving;
use pkload::{Tolls, check_estimating, check_loading};
use pkread::Memory;
use std::alloc::Global;

/// Checks pickles under pairs, and bounds what loading each of them costs. `costs` says whether
/// they are the one at the front of `pickles` or all up to its end. If they are accepted, `bill`
/// says what loading the last of them costs; otherwise it is empty.
///
/// A limit that an instruction exceeds is reported unless something is refused there or before.
#[unsafe(no_mangle)]
pub extern "C" fn pkguard_check_loading(
    alloc: Global,
    pairs: &[Pair<'_>],
    settings: &Settings,
    costs: &Costs,
    pickles: &[u8],
    room: &mut [u8],
    out: &mut Verdict,
    bill: &mut Bill,
) -> u32
    ensures pairs { PermitsPairs settings.now pairs.now }
    ensures answer { Answers result out.new
        (SetsWith settings.now costs.now (λ old. IsYesWithBill (loading_by settings.now old)
        (Some (listed_by settings.now pairs.now)) (limits_by settings.now) (tolls_by costs.now)
        (extent_by costs.now) pickles.now room.old room.new out.new bill.new))
        (SetsWith settings.now costs.now (λ old. IsNoOrCostly (loading_by settings.now old)
        (Some (listed_by settings.now pairs.now)) (limits_by settings.now) (tolls_by costs.now)
        (extent_by costs.now) pickles.now room.old room.new out.new))
        ⊥ (IsUsageWith settings.now costs.now room.old room.new out.new) }
    ensures nothing { out.new.status ≢ 0 → bill.new ≡ nothing_billed }
{
    halving();
    *bill = costs::NOTHING;
    *out = match costs::old_strings_with(settings, costs) {
        None => verdict::of_usage(),
        Some(old) => {
            let order = Order {
                permit: settings::permit_by(settings, pairs),
                terms: terms_by(settings, costs, old),
                tolls: costs::tolls_by(costs),
            };
            judged(alloc, &order, pickles, room, bill)
        }
    };
    out.status
}

/// Checks pickles as `pkguard_check_loading` does, with the same verdict, but no bill. For
/// one pickle, if `costs` doesn't limit the memory, a bound from above mostly suffices, which takes
/// a fraction of the time that the bill does.
#[unsafe(no_mangle)]
pub extern "C" fn pkguard_check_within(
    alloc: Global,
    pairs: &[Pair<'_>],
    settings: &Settings,
    costs: &Costs,
    pickles: &[u8],
    room: &mut [u8],
    out: &mut Verdict,
) -> u32
    ensures pairs { PermitsPairs settings.now pairs.now }
    ensures answer { Answers result out.new
        (SetsWith settings.now costs.now (λ old. IsYesWithin (loading_by settings.now old)
        (Some (listed_by settings.now pairs.now)) (limits_by settings.now) (tolls_by costs.now)
        (extent_by costs.now) pickles.now room.old room.new out.new))
        (SetsWith settings.now costs.now (λ old. IsNoOrCostly (loading_by settings.now old)
        (Some (listed_by settings.now pairs.now)) (limits_by settings.now) (tolls_by costs.now)
        (extent_by costs.now) pickles.now room.old room.new out.new))
        ⊥ (IsUsageWith settings.now costs.now room.old room.new out.new) }
{
    halving();
    *out = match costs::old_strings_with(settings, costs) {
        None => verdict::of_usage(),
        Some(old) => {
            let order = Order {
                permit: settings::permit_by(settings, pairs),
                terms: terms_by(settings, costs, old),
                tolls: costs::tolls_by(costs),
            };
            judged_within(alloc, &order, pickles, room)
        }
    };
    out.status
}

/// Puts what a list file says of the cost of loading in place of these limits.
#[unsafe(no_mangle)]
pub extern "C" fn pkguard_list_costs(
    alloc: Global,
    list: &[u8],
    costs: &mut Costs,
    out: &mut Verdict,
) -> u32
    ensures answer { Answers result out.new (AreCostsOf list.now costs.old costs.new out.new) ⊥
        (IsListFault list.now [] [] out.new) ⊥ }
    ensures same { out.new.status ≢ 0 → costs.new ≡ costs.old }
{
    *out = read_costs(alloc, list, costs);
    out.status
}

/// The verdict for a list file, whose costs replace these limits.
fn read_costs(alloc: Global, list: &[u8], costs: &mut Costs) -> Verdict
    ensures bound { result.status ≤ 2 }
    ensures never { result.status ≢ 1 }
    ensures read { result.status ≡ 0 → AreCostsOf list.now costs.old costs.new result }
    ensures fault { result.status ≡ 2 → IsListFault list.now [] [] result }
    ensures same { result.status ≢ 0 → costs.new ≡ costs.old }
{
    match list::list_from(alloc, list) {
        Err(error) => verdict::of_fault(error),
        Ok(allow) => {
            *costs = costs::costs_over(costs, &allow.cost_limits());
            verdict::of_list()
        }
    }
}

/// The last bytes of a pickle whose object has a state.
const BUILD_AND_STOP: &[u8] = b"b.";

/// What a check obeys.
#[derive(Clone, Copy)]
struct Order<'a> {
    permit: Permit<'a>,
    terms: Terms,
    tolls: Tolls,
}

/// What a check goes by, with Python 2 strings decoded as `old` says.
fn terms_by(settings: &Settings, costs: &Costs, old: OldStrings) -> Terms
    ensures limits { result.limits ≡ limits_by settings.now }
    ensures loading { result.loading ≡ loading_by settings.now old }
    ensures extent { result.extent ≡ extent_by costs.now }
{
    Terms {
        limits: settings::limits_by(settings),
        loading: settings::loading_by(settings, old),
        extent: costs::extent_by(costs),
    }
}

/// The verdict, and the bill if it is yes.
fn judged(
    alloc: Global,
    order: &Order<'_>,
    pickles: &[u8],
    room: &mut [u8],
    bill: &mut Bill,
) -> Verdict
    ensures bound { result.status ≤ 1 }
    ensures yes { result.status ≡ 0 → IsYesWithBill order.now.terms.loading
        (permit_of order.now.permit) order.now.terms.limits order.now.tolls
        order.now.terms.extent pickles.now room.old room.new result bill.new }
    ensures no { result.status ≡ 1 → IsNoOrCostly order.now.terms.loading
        (permit_of order.now.permit) order.now.terms.limits order.now.tolls
        order.now.terms.extent pickles.now room.old room.new result }
    ensures nothing { result.status ≢ 0 → bill.new ≡ bill.old }
{
    let Order {
        permit,
        terms,
        tolls,
    } = order;
    let mut source = Memory::new(pickles);
    match check_loading(alloc, &mut source, permit, terms, tolls) {
        Ok(Ok(billed)) => {
            *bill = costs::bill_of(&billed.tally, billed.memory);
            verdict::of_yes(billed.yes.taken, &billed.yes.imports, billed.yes.pickles)
        }
        Ok(Err(refused)) => verdict::of_no(&refused.no, refused.pickle, room),
        Err(costly) => verdict::of_excess(&costly),
    }
}

/// The verdict, without a bill.
fn judged_within(alloc: Global, order: &Order<'_>, pickles: &[u8], room: &mut [u8]) -> Verdict
    ensures bound { result.status ≤ 1 }
    ensures yes { result.status ≡ 0 → IsYesWithin order.now.terms.loading
        (permit_of order.now.permit) order.now.terms.limits order.now.tolls
        order.now.terms.extent pickles.now room.old room.new result }
    ensures no { result.status ≡ 1 → IsNoOrCostly order.now.terms.loading
        (permit_of order.now.permit) order.now.terms.limits order.now.tolls
        order.now.terms.extent pickles.now room.old room.new result }
{
    let Order {
        permit,
        terms,
        tolls,
    } = order;
    // A BUILD that may not take everything puts the bound above the limits, after all of the pickle
    // was read.
    let has_state = !tolls.builds && pickles.ends_with(BUILD_AND_STOP);
    if !has_state {
        let mut source = Memory::new(pickles);
        match check_estimating(alloc, &mut source, permit, terms, tolls) {
            Some(Ok(yes)) => return verdict::of_yes(yes.taken, &yes.imports, yes.pickles),
            Some(Err(refused)) => return verdict::of_no(&refused.no, refused.pickle, room),
            None => {}
        }
    }
    let mut bill = costs::NOTHING;
    judged(alloc, order, pickles, room, &mut bill)
}
