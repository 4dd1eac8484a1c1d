//! A check that also gives the imports of a refused pickle.

ghost use Rattle.pkread.specs.Rows.{sight};
ghost use Rattle.pkmachine.specs.Policies.{permit_of};
ghost use Rattle.pkcheck.specs.WithImports.{CountsWithImports, IsRightWithImports};

use crate::audience::Silent;
use crate::check_loop::{Extent, RefusedPickle, Terms, check_pickles};
use crate::checking::{No, Yes};
use crate::loading::Loading;
use pkimport::Imports;
use pkmachine::{Memo, OldStrings, Permit};
use pkops::Limits;
use pkread::Source;
use std::alloc::Global;

/// A refused pickle, and what it imports before the refused instruction.
#[derive(Debug, Drop)]
pub struct NoWithImports {
    /// The refusal.
    pub no: No,
    /// What the instructions before `no.at` import, in order.
    pub imports: Imports,
}

/// Checks the pickle at the start of a source, as [`check_as`](crate::check_as) does. A refusal
/// comes with the imports of the instructions before the refused one, in order, each as often as it
/// is made: some run reaches that instruction, and by then every run that does has made exactly
/// these imports. The runs that end before have made the first of them. This holds whatever the
/// reason, also if an allocation or a read failed. An import that is itself refused isn't among
/// them.
///
/// ```rust
/// use pkcheck::{Import, OldStrings, Permit, Policy, check_with_imports};
/// use pkops::Limits;
/// use pkread::{Memory, Reason};
///
/// let permit = Permit::By(Policy::AnyImport);
/// let mut source = Memory::new(b"cos\nsystem\n(Vecho gone\ntR");
/// let unknown = OldStrings::Unknown;
/// let answer = check_with_imports(alloc, &mut source, &permit, &Limits::STANDARD, unknown);
/// let Err(refused) = answer else {
///     panic!(rt; "a pickle without STOP is accepted");
/// };
/// assert_eq!(rt; (refused.no.at, refused.no.reason), (25, Reason::Truncated));
/// let system = Import::Pair {
///     module: "os",
///     name: "system",
/// };
/// assert_eq!(rt; refused.imports.get(0), Some(system));
/// ```
pub fn check_with_imports<R: Source>(
    alloc: Global,
    source: &mut R,
    policy: &Permit<'_>,
    limits: &Limits,
    old_strings: OldStrings,
) -> Result<Yes, NoWithImports>
    ensures answer { IsRightWithImports old_strings (permit_of policy.now) limits.now
        (sight R.left R.failures source.old) (sight R.left R.failures source.new) result }
    ensures count { CountsWithImports (R.failures source.old) (R.failures source.new) result }
{
    let terms = Terms {
        limits: *limits,
        loading: Loading {
            memo: Memo::Fresh,
            old_strings,
        },
        extent: Extent::OnePickle,
    };
    match check_pickles(alloc, source, policy, &terms, &mut Silent) {
        Ok(Ok(yes)) => Ok(Yes {
            taken: yes.taken,
            imports: yes.imports,
        }),
        Ok(Err(refused)) => {
            let RefusedPickle { no, imports, .. } = refused;
            Err(NoWithImports { no, imports })
        }
        Err(never) => match never {},
    }
}
