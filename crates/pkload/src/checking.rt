//! A check that also bounds what loading costs.

ghost use Rattle.std.specs.Prelude.{◌≡◌, ◌≢◌, IfErr, IfOk, MatchResult, None};
ghost use Rattle.pkread.specs.Rows.{sight};
ghost use Rattle.pkmachine.specs.Policies.{permit_of};
ghost use Rattle.pkload.specs.Costly.{CostsTooMuch, FailsOnce, StopsAt};
ghost use Rattle.pkload.specs.Loading.{CountsLoaded, IsRightLoading};
ghost use Rattle.pkload.specs.Private.Settled.{IsBilledAs, IsCostlyBy, NoneBefore};
ghost use Rattle.pkload.specs.Tolls.{unlimited};

use crate::meter::Meter;
use crate::tally::Tally;
use crate::tolls::{Excess, Tolls};
use pkcheck::laws::faultless_is_run;
use pkcheck::{Permit, RefusedPickle, Terms, YesAll, check_pickles};
use pkread::Source;
use std::alloc::Global;
use std::fmt;

/// Accepted pickles, with what loading the last of them costs.
#[derive(Debug, Drop)]
pub struct YesWithBill {
    /// The answer of the check.
    pub yes: YesAll,
    /// What the keys of the last pickle cost.
    pub tally: Tally,
    /// The bytes of memory that loading the last pickle takes.
    pub memory: u64,
}

/// A pickle that exceeds a limit on what loading costs.
#[derive(Clone, Copy, Debug, PartialEq, Eq)]
pub struct Costly {
    /// The number of the pickle, counted from 0. Those before it are accepted.
    pub pickle: u64,
    /// The offset of the instruction, counted from the first byte taken from the source.
    pub at: u64,
    /// The limit that it exceeds.
    pub excess: Excess,
}

/// An excess is printed as `at P: REASON`, as a refusal is.
impl fmt::Display for Costly {
    ghost use Rattle.std.specs.Prelude.{Some};
    ghost use Rattle.pkload.specs.Printed.{costly_text};

    ghost output = { λ costly. Some (costly_text costly) };

    fn fmt<W: fmt::Write>(&self, f: &mut fmt::Formatter<W>) -> fmt::Result {
        let Costly { at, excess, .. } = *self;
        write!(f, "at {at}: {excess}")
    }
}

/// Checks pickles as [`check_pickles`] does, and bounds what the keys of each cost. If the answer
/// is yes, then in every run whose calls and imports answer new objects, each key is at most as
/// deep and as heavy as `tolls` allow, all keys of a pickle together cost at most the limits, and
/// BUILD never takes an imported object unless it may. A yes carries the bill of the last pickle.
/// A refusal says that all that precedes the refused instruction keeps within the limits.
///
/// ```rust
/// use pkcheck::{Extent, Loading, Memo, OldStrings, Permit, Policy, Terms};
/// use pkload::{Excess, Tolls, check_loading};
/// use pkops::Limits;
/// use pkread::Memory;
///
/// let terms = Terms {
///     limits: Limits::STANDARD,
///     loading: Loading {
///         memo: Memo::Fresh,
///         old_strings: OldStrings::Unknown,
///     },
///     extent: Extent::OnePickle,
/// };
/// let permit = Permit::By(Policy::AnyImport);
/// let mut source = Memory::new(b"}(K\x01K\x02K\x03K\x04tNs.");
/// let billed = check_loading(alloc, &mut source, &permit, &terms, &Tolls::standard())??;
/// assert_eq!(rt; (billed.tally.levels, billed.tally.weight), (1, 5));
/// let mut tolls = Tolls::standard();
/// tolls.weight = 4;
/// let mut source = Memory::new(b"}(K\x01K\x02K\x03K\x04tNs.");
/// let Err(costly) = check_loading(alloc, &mut source, &permit, &terms, &tolls) else {
///     panic!(rt; "a key that is too heavy is accepted");
/// };
/// assert_eq!(rt; (costly.at, costly.excess), (12, Excess::HeavyKeys));
/// ```
///
/// # Errors
///
/// The first limit that an instruction exceeds which the check accepts, with its place. What the
/// check refuses at this instruction or before it comes first. Some run whose answers are new
/// objects gets past the instruction, and each run that gets there exceeds the limit, whatever is
/// answered.
///
/// `OutOfMemory` says that the bill couldn't be kept after the instruction: it pushes an entry and
/// takes none, it stores in the memo, or a sum of the bill doesn't fit 64 bits. As for a limit, the
/// check accepts it, and all that precedes it keeps within the limits. For either, the bytes up to
/// its end were taken, and at most the next instruction. A read can only fail there.
pub fn check_loading<R: Source>(
    alloc: Global,
    source: &mut R,
    permit: &Permit<'_>,
    terms: &Terms,
    tolls: &Tolls,
) -> Result<Result<YesWithBill, RefusedPickle>, Costly>
    ensures answer { IfOk result (IsRightLoading terms.now.loading (permit_of permit.now)
        terms.now.limits tolls.now (sight R.left R.failures source.old)
        (sight R.left R.failures source.new) terms.now.extent) }
    ensures costly { IfErr result (λ costly. costly.excess ≢ Excess.OutOfMemory
        → CostsTooMuch terms.now.loading (permit_of permit.now) terms.now.limits tolls.now
        (sight R.left R.failures source.old) terms.now.extent costly.pickle costly.at
        costly.excess) }
    // Also if the bill couldn't be kept.
    ensures stops { IfErr result (λ costly. StopsAt terms.now.loading (permit_of permit.now)
        terms.now.limits tolls.now (sight R.left R.failures source.old)
        (sight R.left R.failures source.new) terms.now.extent costly.at costly.excess) }
    ensures count { MatchResult result
        (CountsLoaded (R.failures source.old) (R.failures source.new))
        (λ _. FailsOnce (R.failures source.old) (R.failures source.new)) }
    // Without limits, only an allocation can be refused, or a sum not fit.
    ensures unlimited { tolls.now ≡ unlimited
        → IfErr result (λ costly. costly.excess ≡ Excess.OutOfMemory) }
{
    faultless_is_run();
    let mut meter = Meter::new(alloc, tolls, terms.loading.memo);
    match check_pickles(alloc, source, permit, terms, &mut meter) {
        Ok(answer) => settled(answer, &meter),
        Err(excess) => Err(costly_at(&meter, excess)),
    }
}

/// The limit that was exceeded, with the place of the instruction.
fn costly_at(meter: &Meter, excess: Excess) -> Costly
    ensures { result ≡ record {
      pickle = meter.now.metering.pickle;
      at = meter.now.at;
      excess = excess;
    } }
{
    Costly {
        pickle: meter.metering.pickle,
        at: meter.at(),
        excess,
    }
}

/// The answer, with the bill of the last pickle if it is yes.
fn with_bill(
    answer: Result<YesAll, RefusedPickle>,
    meter: &Meter,
) -> Result<YesWithBill, RefusedPickle>
    ensures { IsBilledAs meter.now answer result }
{
    match answer {
        Ok(yes) => Ok(YesWithBill {
            yes,
            tally: meter.metering.machine.tally(),
            memory: meter.metering.machine.memory(),
        }),
        Err(refused) => Err(refused),
    }
}

/// The answer, unless a limit was exceeded before the check refused.
fn settled(
    answer: Result<YesAll, RefusedPickle>,
    meter: &Meter,
) -> Result<Result<YesWithBill, RefusedPickle>, Costly>
    ensures same { IfOk result (IsBilledAs meter.now answer) }
    ensures none { IfOk result (λ settled. IfOk settled (λ _. meter.now.excess ≡ None)) }
    ensures refused { IfOk result (λ settled. IfErr settled (λ refused.
        NoneBefore refused.no.at meter.now)) }
    ensures costly { IfErr result (IsCostlyBy meter.now answer) }
    ensures unlimited { meter.now.tolls ≡ unlimited
        → IfErr result (λ costly. costly.excess ≡ Excess.OutOfMemory) }
{
    let Some(excess) = meter.excess() else {
        return Ok(with_bill(answer, meter));
    };
    let costly = costly_at(meter, excess);
    match answer {
        Err(refused) if refused.no.at <= costly.at => Ok(Err(refused)),
        _ => Err(costly),
    }
}
