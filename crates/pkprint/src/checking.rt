//! A check, and the line of its answer.
ghost use Rattle.std.specs.Prelude.{◌≡◌, IfOk, Result};
ghost use Rattle.std.specs.Io.KnownBytes.{Appends};
ghost use Rattle.pkread.specs.Rows.{sight};
ghost use Rattle.pkcheck.specs.Answered.{CountsFailures, IsRightAnswer};
ghost use Rattle.pkmachine.specs.Policies.{policy_of};
ghost use Rattle.pkcheck.specs.declared.Yes.{Yes};
ghost use Rattle.pkcheck.specs.declared.No.{No};
ghost use Rattle.pkprint.specs.Verdict.{outcome_of, verdict_line};

use crate::printing::write_verdict;
use pkcheck::{OldStrings, Policy, check_as};
use pkops::Limits;
use pkread::Source;
use std::alloc::Global;
use std::io;
use std::io::Write;

/// How a command ended after writing its answer.
#[derive(Clone, Copy, Debug, PartialEq, Eq)]
pub enum Outcome {
    /// With a yes.
    Done,
    /// With a no.
    Refused,
    /// With no answer: a read failed, and nothing was written. Only an export ends this way.
    Unread,
}

/// Checks the pickle at the front of a source, decoding Python 2 strings as `old_strings` says, and
/// writes the line of the answer.
///
/// ```rust
/// use pkcheck::{OldStrings, Policy};
/// use pkops::Limits;
/// use pkprint::{Outcome, check_to};
/// use pkread::Memory;
///
/// let (any, limits, unknown) = (Policy::AnyImport, Limits::STANDARD, OldStrings::Unknown);
/// let mut out = Vec::new(alloc);
/// let outcome = check_to(alloc, &mut Memory::new(b"N."), &any, &limits, &mut out, unknown)?;
/// assert_eq!(rt; outcome, Outcome::Done);
/// assert_eq!(rt; out.as_slice(), b"yes: 2 bytes, 0 imports\n".as_slice());
/// ```
///
/// # Errors
///
/// The writer's. How much of the line was written is then unspecified.
pub fn check_to<R: Source, W: Write>(
    alloc: Global,
    source: &mut R,
    policy: &Policy<'_>,
    limits: &Limits,
    out: &mut W,
    old_strings: OldStrings,
) -> Result<Outcome, io::Error>
    ensures { IfOk result (λ outcome. (answer : Result Yes No)
        × IsRightAnswer old_strings (policy_of policy.now) limits.now
        (sight R.left R.failures source.old) (sight R.left R.failures source.new) answer
        × CountsFailures (R.failures source.old) (R.failures source.new) answer
        × Appends (W.contents out.old) (W.contents out.new) (verdict_line answer)
        × (outcome ≡ outcome_of answer)) }
{
    let answer = check_as(alloc, source, policy, limits, old_strings);
    write_verdict(&answer, out)?;
    match answer {
        Ok(_) => Ok(Outcome::Done),
        Err(_) => Ok(Outcome::Refused),
    }
}
