//! A check with a listener, which observes each instruction before it is judged.

ghost use Rattle.std.specs.Prelude.{◌≡◌, ◌∷◌, ◌++◌, [], List, Result};
ghost use Rattle.std.specs.Prelude.{IfErr, IfOk, MatchResult, OnOk};
ghost use Rattle.pkops.specs.Inst.{instruction_of};
ghost use Rattle.pkops.specs.Limits.{holding_all};
ghost use Rattle.pkread.specs.Rows.{sight};
ghost use Rattle.pkcheck.specs.Answered.{CountsFailures};
ghost use Rattle.pkcheck.specs.Heard.{Heard, IsCutShort, IsRightAndHeard, heard};
ghost use Rattle.pkmachine.specs.Policies.{policy_of};

use crate::check_loop::{Extent, Terms, check_pickles};
use crate::checking::{No, Yes};
use crate::loading::Loading;
use pkmachine::{Memo, OldStrings, Permit, Policy};
use pkops::{Inst, Limits};
use pkread::Source;
use std::alloc::Global;

/// Hears the instructions of a pickle while it is checked.
pub trait Listener {
    /// Why the listener stops.
    type Error;

    // What the listener observed between two of its states, in order.
    ghost hears: { Self → Self → List Heard → Type 0 };

    /// Hears an admitted instruction before it is judged. `at` is the offset of its first byte,
    /// counted from the first byte taken. `marks` is the number of open marks before it, which is
    /// the same in every run.
    ///
    /// # Errors
    ///
    /// An error ends the check.
    fn hear(&mut self, at: u64, inst: &Inst<'_>, marks: usize) -> Result<(), Self::Error>
        ensures { OnOk result (hears self.old self.new
            (heard at (instruction_of inst.now) marks ∷ [])) };

    ghost hears_none: { (x : Self) → hears x x [] };

    ghost hears_more: { (x y z : Self) (hs : List Heard) (h : Heard)
        → hears x y hs → hears y z (h ∷ []) → hears x z (hs ++ h ∷ []) };
}

/// Checks the pickle at the start of a source, as [`check`](crate::check) does. The listener gets
/// the instructions in order: the accepted ones, and the refused one if it was read completely and
/// is admitted. Payloads are held instead of skipped, so `counted` limits all of them.
///
/// ```rust
/// use pkcheck::{Listener, Policy, check_heard};
/// use pkops::{Inst, Limits};
/// use pkread::{Memory, ReadFailed};
///
/// #[derive(Drop)]
/// struct Deepest {
///     marks: usize,
/// }
///
/// impl Listener for Deepest {
///     ghost use Rattle.std.specs.Prelude.{⊤};
///
///     type Error = ReadFailed;
///
///     ghost hears = { λ old new heard. ⊤ };
///
///     fn hear(&mut self, _at: u64, _inst: &Inst<'_>, marks: usize) -> Result<(), ReadFailed> {
///         self.marks = self.marks.max(marks);
///         Ok(())
///     }
///
///     ghost hears_none = { λ x. tt };
///
///     ghost hears_more = { λ x y z hs h a b. tt };
/// }
///
/// let mut deepest = Deepest { marks: 0 };
/// let mut source = Memory::new(b"((K\x01tK\x02t.");
/// let (any, limits) = (Policy::AnyImport, Limits::STANDARD);
/// let yes = check_heard(alloc, &mut source, &any, &limits, &mut deepest)??;
/// assert_eq!(rt; (yes.taken, deepest.marks), (9, 2));
/// ```
///
/// # Errors
///
/// The listener's error, which ends the check. By then it has observed every earlier instruction,
/// and none of these was refused. The bytes taken are exactly those of these instructions and of
/// the one at which the listener failed.
pub fn check_heard<R: Source, L: Listener>(
    alloc: Global,
    source: &mut R,
    policy: &Policy<'_>,
    limits: &Limits,
    listener: &mut L,
) -> Result<Result<Yes, No>, L::Error>
    ensures answer { IfOk result (λ answer. (hs : List Heard)
        × IsRightAndHeard (policy_of policy.now) (holding_all limits.now)
        (sight R.left R.failures source.old) (sight R.left R.failures source.new) answer hs
        × L.hears listener.old listener.new hs) }
    ensures cut_short { IfErr result (λ _. (hs : List Heard) × (between : L)
        × IsCutShort (policy_of policy.now) (holding_all limits.now)
        (sight R.left R.failures source.old) (sight R.left R.failures source.new) hs
        × L.hears listener.old between hs) }
    ensures count { MatchResult result
        (CountsFailures (R.failures source.old) (R.failures source.new))
        (λ _. R.failures source.new ≡ R.failures source.old) }
{
    let terms = Terms {
        limits: limits.holding_all(),
        loading: Loading {
            memo: Memo::Fresh,
            old_strings: OldStrings::Unknown,
        },
        extent: Extent::OnePickle,
    };
    match check_pickles(alloc, source, &Permit::By(*policy), &terms, listener)? {
        Ok(yes) => Ok(Ok(Yes {
            taken: yes.taken,
            imports: yes.imports,
        })),
        Err(refused) => Ok(Err(refused.no)),
    }
}
