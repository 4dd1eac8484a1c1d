//! A check that also bounds what loading costs, and the lines of its answer.
ghost use Rattle.std.specs.Prelude.{◌≡◌, IfOk};
ghost use Rattle.std.specs.Io.KnownBytes.{Appends};
ghost use Rattle.pkread.specs.Rows.{sight};
ghost use Rattle.pkmachine.specs.Policies.{permit_of};
ghost use Rattle.pkprint.specs.Costs.{Answer, IsRightCosting, costing_lines, outcome_of_costing};

use crate::checking::Outcome;
use crate::printing::write_costing;
use pkcheck::{Permit, Terms};
use pkload::{Tolls, check_loading};
use pkread::Source;
use std::alloc::Global;
use std::io;
use std::io::Write;

/// Limits on what loading costs, and whether the bill is reported.
#[derive(Clone, Copy, Debug)]
pub struct Billing {
    /// The limits.
    pub tolls: Tolls,
    /// Whether a yes is followed by the bill of the last pickle.
    pub bill: bool,
}

/// Checks pickles as `check_loading` does, and writes the line of the answer. A yes is followed by
/// the line of the bill if `billing` asks for it.
///
/// ```rust
/// use pkcheck::{Extent, Loading, Memo, OldStrings, Permit, Policy, Terms};
/// use pkload::Tolls;
/// use pkops::Limits;
/// use pkprint::{Billing, Outcome, check_loading_to};
/// use pkread::Memory;
///
/// let terms = Terms {
///     limits: Limits::STANDARD,
///     loading: Loading {
///         memo: Memo::Fresh,
///         old_strings: OldStrings::Unknown,
///     },
///     extent: Extent::OnePickle,
/// };
/// let billing = Billing {
///     tolls: Tolls::standard(),
///     bill: false,
/// };
/// let permit = Permit::By(Policy::AnyImport);
/// let mut out = Vec::new(alloc);
/// let mut source = Memory::new(b"}K\x01Ns.");
/// let outcome = check_loading_to(alloc, &mut source, &permit, &terms, &billing, &mut out)?;
/// assert_eq!(rt; outcome, Outcome::Done);
/// assert_eq!(rt; out.as_slice(), b"yes: 6 bytes, 0 imports\n".as_slice());
/// ```
///
/// # Errors
///
/// The writer's. How much was written is then unspecified.
pub fn check_loading_to<R: Source, W: Write>(
    alloc: Global,
    source: &mut R,
    permit: &Permit<'_>,
    terms: &Terms,
    billing: &Billing,
    out: &mut W,
) -> Result<Outcome, io::Error>
    ensures { IfOk result (λ outcome. (answer : Answer)
        × IsRightCosting terms.now.loading (permit_of permit.now) terms.now.limits
        billing.now.tolls (sight R.left R.failures source.old)
        (sight R.left R.failures source.new) terms.now.extent answer
        × Appends (W.contents out.old) (W.contents out.new)
        (costing_lines terms.now.extent billing.now.bill answer)
        × (outcome ≡ outcome_of_costing answer)) }
{
    let answer = check_loading(alloc, source, permit, terms, &billing.tolls);
    write_costing(&answer, terms.extent, billing.bill, out)?;
    match answer {
        Ok(Ok(_)) => Ok(Outcome::Done),
        _ => Ok(Outcome::Refused),
    }
}
