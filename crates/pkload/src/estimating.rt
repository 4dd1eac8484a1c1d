//! A check that bounds from above what loading costs.

ghost use Rattle.std.specs.Prelude.{◌≡◌, IfSome};
ghost use Rattle.pkread.specs.Rows.{sight};
ghost use Rattle.pkmachine.specs.Policies.{permit_of};
ghost use Rattle.pkload.specs.Loading.{IsRightWithin};
ghost use Rattle.pkload.specs.Private.Ceiling.{bytes_of};

use crate::ceiling::Estimate;
use crate::tolls::Tolls;
use pkcheck::laws::faultless_is_run;
use pkcheck::{Extent, Permit, RefusedPickle, Terms, YesAll, check_pickles};
use pkread::Source;
use std::alloc::Global;

/// Checks a pickle as [`check_loading`](crate::check_loading) does, without the bill: it bounds
/// from above what the keys cost, which takes a fraction of the time that the bill does.
///
/// `None` says nothing about the pickle. It is the answer where the bound is above `tolls`, where
/// these limit the memory, and where more than one pickle is to be checked. What a tuple holds is
/// taken for as heavy and as deep as the heaviest and the deepest so far, unless the instructions
/// before it push just these objects, and none of them is a tuple. So the bound is above all limits
/// after some twenty nested tuples of two other objects, or three of more, and after a BUILD that
/// may not take everything.
pub fn check_estimating<R: Source>(
    alloc: Global,
    source: &mut R,
    permit: &Permit<'_>,
    terms: &Terms,
    tolls: &Tolls,
) -> Option<Result<YesAll, RefusedPickle>>
    ensures { IfSome result (IsRightWithin terms.now.loading (permit_of permit.now)
        terms.now.limits tolls.now (sight R.left R.failures source.old)
        (sight R.left R.failures source.new) terms.now.extent) }
{
    faultless_is_run();
    let Extent::OnePickle = terms.extent else {
        return None;
    };
    if tolls.memory < u64::MAX {
        return None;
    }
    let mut estimate = Estimate::new(tolls);
    let Ok(answer) = check_pickles(alloc, source, permit, terms, &mut estimate) else {
        return None;
    };
    if estimate.ceiling.fits_under(tolls, bytes_of(&answer)) {
        Some(answer)
    } else {
        None
    }
}

/// The bytes of the accepted pickle, or of the instructions before the refused one.
fn bytes_of(answer: &Result<YesAll, RefusedPickle>) -> u64
    ensures { result ≡ bytes_of answer.now }
{
    match answer {
        Ok(yes) => yes.taken,
        Err(refused) => refused.no.at,
    }
}
