//! Lists the imports of a pickle, and bounds what loading it costs.
ghost use Rattle.std.specs.Prelude.{◌≡◌, ◌≢◌, ◌≤◌};
ghost use Rattle.pkguard.specs.Guard.{Answers};
ghost use Rattle.pkguard.specs.Listing.{IsCutShort, IsImportsWithBill};
ghost use Rattle.pkguard.specs.Loading.{IsUsageWith, SetsWith, nothing_billed, tolls_by};
ghost use Rattle.pkguard.specs.Settings.{limits_by, loading_by};

use crate::costs::{self, Bill, Costs};
use crate::encoding;
use crate::settings::{self, Settings};
use crate::verdict::{self, Verdict};
use pkcheck::{Extent, Permit, Policy, Terms};
use pkload::{Tolls, check_loading};
use pkread::Memory;
use std::alloc::Global;

/// Checks the pickle at the front of `pickle`, permitting every import, and bounds what loading it
/// costs. Its imports are written to `room`, in order, if all of them fit; if it is refused, those
/// of the instructions before the refused one; if it exceeds a limit on costs, none. If it is
/// accepted, `bill` says what loading it costs; otherwise it is empty. The `all` of the costs
/// changes nothing.
#[unsafe(no_mangle)]
pub extern "C" fn pkguard_imports_loading(
    alloc: Global,
    settings: &Settings,
    costs: &Costs,
    pickle: &[u8],
    room: &mut [u8],
    wanted: &mut u64,
    out: &mut Verdict,
    bill: &mut Bill,
) -> u32
    ensures answer { Answers result out.new
        (SetsWith settings.now costs.now (λ old. IsImportsWithBill (loading_by settings.now old)
        (limits_by settings.now) (tolls_by costs.now) pickle.now room.old room.new wanted.new
        out.new bill.new))
        (SetsWith settings.now costs.now (λ old. IsCutShort (loading_by settings.now old)
        (limits_by settings.now) (tolls_by costs.now) pickle.now room.old room.new wanted.new
        out.new))
        ⊥ (IsUsageWith settings.now costs.now room.old room.new out.new) }
    ensures nothing { out.new.status ≢ 0 → bill.new ≡ nothing_billed }
    ensures unwanted { out.new.status ≡ 3 → wanted.new ≡ 0 }
{
    let listing = match costs::old_strings_with(settings, costs) {
        None => Listing::empty(verdict::of_usage()),
        Some(old) => {
            let terms = Terms {
                limits: settings::limits_by(settings),
                loading: settings::loading_by(settings, old),
                extent: Extent::OnePickle,
            };
            listing_by(alloc, &terms, &costs::tolls_by(costs), pickle, room)
        }
    };
    *wanted = listing.wanted;
    *bill = listing.bill;
    *out = listing.verdict;
    out.status
}

/// What is reported of a pickle whose imports are written to a buffer.
#[derive(Clone, Copy)]
struct Listing {
    verdict: Verdict,
    wanted: u64,
    bill: Bill,
}

impl Listing {
    /// No imports and no bill.
    fn empty(verdict: Verdict) -> Listing
        ensures { result ≡ record { verdict = verdict; wanted = 0; bill = nothing_billed } }
    {
        Listing {
            verdict,
            wanted: 0,
            bill: costs::NOTHING,
        }
    }
}

/// Lists the imports of one pickle.
fn listing_by(
    alloc: Global,
    terms: &Terms,
    tolls: &Tolls,
    pickle: &[u8],
    room: &mut [u8],
) -> Listing
    requires { terms.now.extent ≡ Extent.OnePickle }
    ensures bound { result.verdict.status ≤ 1 }
    ensures yes { result.verdict.status ≡ 0 → IsImportsWithBill terms.now.loading terms.now.limits
        tolls.now pickle.now room.old room.new result.wanted result.verdict result.bill }
    ensures no { result.verdict.status ≡ 1 → IsCutShort terms.now.loading terms.now.limits
        tolls.now pickle.now room.old room.new result.wanted result.verdict }
    ensures nothing { result.verdict.status ≢ 0 → result.bill ≡ nothing_billed }
{
    let mut source = Memory::new(pickle);
    let permit = Permit::By(Policy::AnyImport);
    match check_loading(alloc, &mut source, &permit, terms, tolls) {
        Ok(Ok(billed)) => Listing {
            wanted: encoding::give_imports(&billed.yes.imports, room),
            verdict: verdict::of_yes(billed.yes.taken, &billed.yes.imports, billed.yes.pickles),
            bill: costs::bill_of(&billed.tally, billed.memory),
        },
        Ok(Err(refused)) => Listing {
            wanted: encoding::give_imports(&refused.imports, room),
            verdict: verdict::of_no_with_imports(&refused.no, &refused.imports),
            bill: costs::NOTHING,
        },
        Err(costly) => Listing::empty(verdict::of_excess(&costly)),
    }
}
