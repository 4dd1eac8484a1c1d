//! Laws of the definitions. Each is the contract of a function that does nothing.

ghost use Rattle.pkcheck.specs.ButForLimits.{RefusedForLimits};
ghost use Rattle.pkcheck.specs.EachSetting.{SoundInEach};
ghost use Rattle.pkcheck.specs.Ends.{ListedCarriesOver, SameAcross, SameAsItself, SameEitherWay};
ghost use Rattle.pkcheck.specs.Ends.{SameEvents, WellCarriesOver, WellIsFree};
ghost use Rattle.pkcheck.specs.Exclusive.{OneBegins, RefusedBehind, YesExcludesNo};
ghost use Rattle.pkcheck.specs.Exclusive.{YesOfRowExcludesNo};
ghost use Rattle.pkcheck.specs.NewRuns.{FaultlessIsRun};
ghost use Rattle.pkcheck.specs.OneRefusal.{OneRefusal};
ghost use Rattle.pkcheck.specs.SameImports.{SameImports, SameImportsOfRow};

use pkmachine::laws::steps;
use pkops::laws::{growth, one_answer};
use pkread::laws::one_sequence;

/// An accepted pickle is not refused under the same policy, limits and setting, if its runs begin
/// alike, except for a refused allocation or a failed read.
pub fn yes_excludes_no()
    ensures { YesExcludesNo }
{
    growth();
    one_answer();
    one_sequence();
}

/// A row of pickles that was accepted is not refused when it is loaded alike, under the same policy
/// and limits, except for a refused allocation or a failed read.
pub fn yes_of_row_excludes_no()
    ensures { YesOfRowExcludesNo }
{
    growth();
    one_answer();
    one_sequence();
}

/// Two yeses to the same bytes, whose runs begin alike, list the same imports, whatever permits
/// them and whatever the limits are. So what a check of a pickle shows is what a guarded load
/// imports.
pub fn same_imports()
    ensures { SameImports }
{
    one_sequence();
}

/// Two yeses to the same row of pickles, loaded alike, count as many pickles and list the same
/// imports.
pub fn same_imports_of_row()
    ensures { SameImportsOfRow }
{
    one_sequence();
}

/// Bytes that begin with instructions that have no fault are refused only after these, under the
/// same policy, limits and setting and after the same pickles, except for a refused allocation or
/// a failed read.
pub fn refused_behind()
    ensures { RefusedBehind }
{
    growth();
    one_answer();
    one_sequence();
}

/// Two refusals of the same bytes under the same policy, limits and setting, after the same
/// pickles, are at one offset, for one reason, with one pair, except for a refused allocation or a
/// failed read.
pub fn one_refusal()
    ensures { OneRefusal }
{
    growth();
    one_answer();
    one_sequence();
}

/// Of two lists of good instructions with which bytes begin, one begins with the other.
pub fn one_begins()
    ensures { OneBegins }
{
    one_sequence();
}

/// A pickle whose only faults are exceeded limits is refused only for a limit, a refused allocation
/// or a failed read.
pub fn refused_for_limits()
    ensures { RefusedForLimits }
{
    growth();
    one_answer();
    one_sequence();
}

/// If all runs of a pickle end well when Python 2 strings may decode to anything, they end well
/// under each setting of `old_strings`. The pickle may follow others of a row.
pub fn sound_in_each()
    ensures { SoundInEach }
{}

/// `SameEnd` is an equivalence on ends that aren't stuck. Runs with the same end have equal events;
/// if one ends well, or has all its imports listed, so does the other. A run that ends well isn't
/// stuck.
pub fn same_ends()
    ensures itself { SameAsItself }
    ensures either_way { SameEitherWay }
    ensures across { SameAcross }
    ensures events { SameEvents }
    ensures free { WellIsFree }
    ensures well { WellCarriesOver }
    ensures listed { ListedCarriesOver }
{}

/// Some run gets past instructions that have no fault and follow accepted pickles, and all that its
/// operations answer are new objects.
pub fn faultless_is_run()
    ensures { FaultlessIsRun }
{
    steps();
}
