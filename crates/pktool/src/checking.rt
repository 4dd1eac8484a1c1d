//! The answer of `check` about the pickles in a source.
ghost use Rattle.std.specs.Prelude.{◌≡◌, IfOk};
ghost use Rattle.pkread.specs.Rows.{sight};
ghost use Rattle.pktool.specs.Answers.{IsCheckOf, IsCostVerdict, IsVerdictOn, asks_costs};
ghost use Rattle.pktool.specs.Answers.{extent_of, loading_of};
ghost use Rattle.pktool.specs.Ends.{Writes};

use pkargs::Pickles;
use pkcheck::{Extent, Loading, Memo, OldStrings, Permit, Policy, Terms};
use pklist::Allow;
use pkload::Tolls;
use pkprint::{Billing, Outcome, check_all_loaded_to, check_loading_to, check_to};
use pkread::Source;
use std::alloc::Global;
use std::io;
use std::io::Write;

/// What the words of a check say, but for its files.
#[derive(Clone, Copy)]
pub struct Words {
    /// How Python 2 strings are decoded.
    pub old: OldStrings,
    /// Which pickles are checked.
    pub pickles: Pickles,
    /// Whether the bill is reported.
    pub bill: bool,
}

/// The answer about the pickles in a source that the words ask for. What loading costs is checked
/// only if the list limits it, or if the words ask for the bill.
pub fn check_source<R: Source, O: Write>(
    alloc: Global,
    source: &mut R,
    list: &Allow,
    words: &Words,
    out: &mut O,
) -> Result<Outcome, io::Error>
    ensures { IfOk result (Writes (O.contents out.old) (O.contents out.new)
        (IsCheckOf (asks_costs list.now words.now.bill) list.now words.now.old words.now.pickles
        words.now.bill (sight R.left R.failures source.old))) }
{
    if words.bill || !list.cost_limits().are_unsaid() {
        check_costs(alloc, source, list, words, out)
    } else {
        check_imports(alloc, source, list, words, out)
    }
}

/// The answer without what loading costs.
fn check_imports<R: Source, O: Write>(
    alloc: Global,
    source: &mut R,
    list: &Allow,
    words: &Words,
    out: &mut O,
) -> Result<Outcome, io::Error>
    ensures { IfOk result (Writes (O.contents out.old) (O.contents out.new)
        (IsVerdictOn list.now words.now.old words.now.pickles
        (sight R.left R.failures source.old))) }
{
    let policy = Policy::Listed(list);
    let limits = list.limits();
    match words.pickles {
        Pickles::First => check_to(alloc, source, &policy, &limits, out, words.old),
        Pickles::Row(memo) => {
            let loading = Loading {
                memo,
                old_strings: words.old,
            };
            check_all_loaded_to(alloc, source, &policy, &limits, out, loading)
        }
    }
}

/// The answer with what loading costs.
fn check_costs<R: Source, O: Write>(
    alloc: Global,
    source: &mut R,
    list: &Allow,
    words: &Words,
    out: &mut O,
) -> Result<Outcome, io::Error>
    ensures { IfOk result (Writes (O.contents out.old) (O.contents out.new)
        (IsCostVerdict list.now words.now.old words.now.pickles words.now.bill
        (sight R.left R.failures source.old))) }
{
    let terms = Terms {
        limits: list.limits(),
        loading: loading_of(words.old, words.pickles),
        extent: extent_of(words.pickles),
    };
    let billing = Billing {
        tolls: Tolls::said(&list.cost_limits()),
        bill: words.bill,
    };
    let permit = Permit::By(Policy::Listed(list));
    check_loading_to(alloc, source, &permit, &terms, &billing, out)
}

/// Where the check ends.
fn extent_of(pickles: Pickles) -> Extent
    ensures { result ≡ extent_of pickles }
{
    match pickles {
        Pickles::First => Extent::OnePickle,
        Pickles::Row(_) => Extent::ToTheEnd,
    }
}

/// How the pickles are loaded.
fn loading_of(old_strings: OldStrings, pickles: Pickles) -> Loading
    ensures { result ≡ loading_of old_strings pickles }
{
    let memo = match pickles {
        Pickles::First => Memo::Fresh,
        Pickles::Row(memo) => memo,
    };
    Loading { memo, old_strings }
}
