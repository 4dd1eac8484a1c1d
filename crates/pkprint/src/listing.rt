//! The listing of a pickle.
ghost use Rattle.std.specs.Prelude.{◌≡◌, IfOk, List, Result};
ghost use Rattle.std.proofs.Common.{◌∙◌, refl};
ghost use Rattle.std.specs.Io.KnownBytes.{Appends};
ghost use Rattle.pkops.specs.Limits.{holding_all};
ghost use Rattle.pkread.specs.Rows.{sight};
ghost use Rattle.pkcheck.specs.Answered.{CountsFailures};
ghost use Rattle.pkcheck.specs.Heard.{Heard, IsRightAndHeard};
ghost use Rattle.pkmachine.specs.Policies.{policy_of};
ghost use Rattle.pkmachine.specs.declared.Policy.TheVariants.{AnyImport};
ghost use Rattle.pkcheck.specs.declared.Yes.{Yes};
ghost use Rattle.pkcheck.specs.declared.No.{No};
ghost use Rattle.pkprint.specs.Listing.{listing};
ghost use Rattle.pkprint.specs.Private.Lists.{Lists, lists_more, lists_none};
ghost use Rattle.pkprint.specs.Verdict.{outcome_of};

use crate::checking::Outcome;
use crate::printing::{write_last, write_line};
use pkcheck::{Listener, Policy, check_heard};
use pkops::{Inst, Limits, row};
use pkread::Source;
use std::alloc::Global;
use std::io;
use std::io::Write;

/// Writes the line of each instruction it gets, and records the highest protocol.
#[derive(Drop)]
struct Lines<'w, W> {
    out: &'w mut W,
    highest: u8,
}

impl<'w, W: Write> Listener for Lines<'w, W> {
    type Error = io::Error;

    ghost hears = { λ x y hs. (y.out.ghost_name ≡ x.out.ghost_name)
        × Lists (W.contents x.out.now) (W.contents y.out.now) x.highest y.highest hs };

    fn hear(&mut self, at: u64, inst: &Inst<'_>, marks: usize) -> Result<(), io::Error> {
        self.highest = self.highest.max(row(inst.op()).proto);
        write_line(at, inst, marks, self.out)
    }

    ghost hears_none = { λ x. (refl, lists_none _ _) };

    ghost hears_more = { λ x y z hs h f g. (g.0 ∙ f.0, lists_more _ _ _ _ _ _ hs h f.1 g.1) };
}

/// Lists the pickle at the front of a source: a line for each instruction, then a last line with
/// the protocol they need, or with the reason why the pickle is refused. Each line is written
/// before the next instruction is read, so the listing of a refused pickle reaches up to the
/// refused instruction.
///
/// ```rust
/// use pkops::Limits;
/// use pkprint::dis_to;
/// use pkread::Memory;
///
/// let mut out = Vec::new(alloc);
/// dis_to(alloc, &mut Memory::new(b"K\x07."), &Limits::STANDARD, &mut out)?;
/// let lines = b"    0: 4b BININT1 7\n    2: 2e STOP\nhighest protocol: 1\n";
/// assert_eq!(rt; out.as_slice(), lines.as_slice());
/// ```
///
/// # Errors
///
/// The writer's, which ends the listing. How much was written is then unspecified.
pub fn dis_to<R: Source, W: Write>(
    alloc: Global,
    source: &mut R,
    limits: &Limits,
    out: &mut W,
) -> Result<Outcome, io::Error>
    ensures { IfOk result (λ outcome. (answer : Result Yes No) × (hs : List Heard)
        × IsRightAndHeard (policy_of AnyImport) (holding_all limits.now)
        (sight R.left R.failures source.old) (sight R.left R.failures source.new) answer hs
        × CountsFailures (R.failures source.old) (R.failures source.new) answer
        × Appends (W.contents out.old) (W.contents out.new) (listing answer hs)
        × (outcome ≡ outcome_of answer)) }
{
    let mut lines = Lines { out, highest: 0 };
    let answer = check_heard(alloc, source, &Policy::AnyImport, limits, &mut lines)?;
    let Lines { out, highest } = lines;
    write_last(&answer, highest, out)?;
    match answer {
        Ok(_) => Ok(Outcome::Done),
        Err(_) => Ok(Outcome::Refused),
    }
}
