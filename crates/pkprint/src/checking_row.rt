//! A check of a row of pickles, and the line of its answer.
ghost use Rattle.std.specs.Prelude.{◌≡◌, IfOk, Result};
ghost use Rattle.std.specs.Io.KnownBytes.{Appends};
ghost use Rattle.pkread.specs.Rows.{sight};
ghost use Rattle.pkmachine.specs.Policies.{policy_of};
ghost use Rattle.pkcheck.specs.RowOfPickles.{CountsInRow, IsRightOfRow, each_afresh};
ghost use Rattle.pkcheck.specs.declared.YesAll.{YesAll};
ghost use Rattle.pkcheck.specs.declared.NoAll.{NoAll};
ghost use Rattle.pkprint.specs.Verdict.{outcome_of_row, row_line};

use crate::checking::Outcome;
use crate::printing::write_row;
use pkcheck::{Loading, Memo, OldStrings, Permit, Policy, check_all_loaded};
use pkops::Limits;
use pkread::Source;
use std::alloc::Global;
use std::io;
use std::io::Write;

/// Checks a source of pickles that follow one another up to its end, each loaded afresh, and writes
/// the line of the answer.
///
/// ```rust
/// use pkcheck::{OldStrings, Policy};
/// use pkops::Limits;
/// use pkprint::{Outcome, check_all_to};
/// use pkread::Memory;
///
/// let (any, limits, unknown) = (Policy::AnyImport, Limits::STANDARD, OldStrings::Unknown);
/// let mut out = Vec::new(alloc);
/// let outcome = check_all_to(alloc, &mut Memory::new(b"N.0"), &any, &limits, &mut out, unknown)?;
/// assert_eq!(rt; outcome, Outcome::Refused);
/// assert_eq!(rt; out.as_slice(), b"no in pickle 1 at 2: MissingItem\n".as_slice());
/// ```
///
/// # Errors
///
/// The writer's. How much of the line was written is then unspecified.
pub fn check_all_to<R: Source, W: Write>(
    alloc: Global,
    source: &mut R,
    policy: &Policy<'_>,
    limits: &Limits,
    out: &mut W,
    old_strings: OldStrings,
) -> Result<Outcome, io::Error>
    ensures { IfOk result (λ outcome. (answer : Result YesAll NoAll)
        × IsRightOfRow (each_afresh old_strings) (policy_of policy.now) limits.now
        (sight R.left R.failures source.old) (sight R.left R.failures source.new) answer
        × CountsInRow (R.failures source.old) (R.failures source.new) answer
        × Appends (W.contents out.old) (W.contents out.new) (row_line answer)
        × (outcome ≡ outcome_of_row answer)) }
{
    let loading = Loading {
        memo: Memo::Fresh,
        old_strings,
    };
    check_all_loaded_to(alloc, source, policy, limits, out, loading)
}

/// [`check_all_to`] of pickles that are loaded as `loading` says.
///
/// # Errors
///
/// The writer's. How much of the line was written is then unspecified.
pub fn check_all_loaded_to<R: Source, W: Write>(
    alloc: Global,
    source: &mut R,
    policy: &Policy<'_>,
    limits: &Limits,
    out: &mut W,
    loading: Loading,
) -> Result<Outcome, io::Error>
    ensures { IfOk result (λ outcome. (answer : Result YesAll NoAll)
        × IsRightOfRow loading (policy_of policy.now) limits.now
        (sight R.left R.failures source.old) (sight R.left R.failures source.new) answer
        × CountsInRow (R.failures source.old) (R.failures source.new) answer
        × Appends (W.contents out.old) (W.contents out.new) (row_line answer)
        × (outcome ≡ outcome_of_row answer)) }
{
    let answer = check_all_loaded(alloc, source, &Permit::By(*policy), limits, loading);
    write_row(&answer, out)?;
    match answer {
        Ok(_) => Ok(Outcome::Done),
        Err(_) => Ok(Outcome::Refused),
    }
}
