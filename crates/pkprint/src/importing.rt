//! The imports of a pickle.
ghost use Rattle.std.specs.Prelude.{◌≡◌, IfOk, Result};
ghost use Rattle.std.specs.Io.KnownBytes.{Appends};
ghost use Rattle.pkread.specs.Rows.{sight};
ghost use Rattle.pkmachine.specs.declared.OldStrings.TheVariants.{Unknown};
ghost use Rattle.pkcheck.specs.Answered.{CountsFailures, IsRightAnswer};
ghost use Rattle.pkmachine.specs.Policies.{policy_of};
ghost use Rattle.pkmachine.specs.declared.Policy.TheVariants.{AnyImport};
ghost use Rattle.pkcheck.specs.declared.Yes.{Yes};
ghost use Rattle.pkcheck.specs.declared.No.{No};
ghost use Rattle.pkprint.specs.Imports.{imports_text};
ghost use Rattle.pkprint.specs.Verdict.{outcome_of};

use crate::checking::Outcome;
use crate::printing::{write_imports, write_verdict};
use pkcheck::{Policy, check};
use pkops::Limits;
use pkread::Source;
use std::alloc::Global;
use std::io;
use std::io::Write;

/// Checks the pickle at the front of a source under any import. For a yes it writes a line for each
/// import, in order, then the line of the answer; for a no, that line alone.
///
/// ```rust
/// use pkops::Limits;
/// use pkprint::imports_to;
/// use pkread::Memory;
///
/// let mut out = Vec::new(alloc);
/// imports_to(alloc, &mut Memory::new(b"cos\nsystem\n."), &Limits::STANDARD, &mut out)?;
/// let lines = b"\"os\" \"system\"\nyes: 12 bytes, 1 imports\n";
/// assert_eq!(rt; out.as_slice(), lines.as_slice());
/// ```
///
/// # Errors
///
/// The writer's. How much was written is then unspecified.
pub fn imports_to<R: Source, W: Write>(
    alloc: Global,
    source: &mut R,
    limits: &Limits,
    out: &mut W,
) -> Result<Outcome, io::Error>
    ensures { IfOk result (λ outcome. (answer : Result Yes No)
        × IsRightAnswer Unknown (policy_of AnyImport) limits.now
        (sight R.left R.failures source.old) (sight R.left R.failures source.new) answer
        × CountsFailures (R.failures source.old) (R.failures source.new) answer
        × Appends (W.contents out.old) (W.contents out.new) (imports_text answer)
        × (outcome ≡ outcome_of answer)) }
{
    let answer = check(alloc, source, &Policy::AnyImport, limits);
    write_imports(&answer, out)?;
    write_verdict(&answer, out)?;
    match answer {
        Ok(_) => Ok(Outcome::Done),
        Err(_) => Ok(Outcome::Refused),
    }
}
