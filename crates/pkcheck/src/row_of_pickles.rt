//! Checks pickles that follow one another in a source.

ghost use Rattle.std.specs.Prelude.{◌≡◌, ◌<◌, [], None, drop, length, true};
ghost use Rattle.pkread.specs.ReaderCalls.{TakesNoneAhead, has_ended, state};
ghost use Rattle.pkread.specs.Rows.{all_bytes, sight};
ghost use Rattle.pkmachine.specs.Policies.{permit_of, policy_of};
ghost use Rattle.pkcheck.specs.Private.Judgement.{IsNoAt};
ghost use Rattle.pkcheck.specs.Private.NextPickle.{IsCounted, IsRestarted, LooksBehind, listed_in};
ghost use Rattle.pkcheck.specs.RowOfPickles.{CountsInRow, IsRightOfRow, each_afresh};

use crate::audience::Silent;
use crate::check_loop::{Extent, RefusedPickle, Terms, check_pickles};
use crate::checking::No;
use crate::loading::Loading;
use crate::session::Session;
use crate::with_imports::NoWithImports;
use pkimport::{ImportTable, Imports};
use pkmachine::{Domain, Memo, OldStrings, Permit, Policy};
use pkops::{Limits, Reason, Refusal};
use pkread::{Reader, Source};
use std::alloc::Global;
use std::error::Error;
use std::{fmt, mem};

/// An accepted row of pickles.
#[derive(Debug, Drop, PartialEq, Eq)]
pub struct YesAll {
    /// The number of bytes taken from the source: all it had.
    pub taken: u64,
    /// The number of pickles.
    pub pickles: u64,
    /// What the pickles import, in order.
    pub imports: Imports,
}

/// A refused pickle of a row.
#[derive(Debug, Drop, PartialEq, Eq)]
pub struct NoAll {
    /// The number of the refused pickle, counted from 0. Those before it are accepted.
    pub pickle: u64,
    /// Its refusal, with an offset counted from the first byte taken from the source.
    pub no: No,
}

/// A refusal in a row is printed as `in pickle K at P: REASON`.
impl fmt::Display for NoAll {
    ghost use Rattle.std.specs.Prelude.{Some};
    ghost use Rattle.pkcheck.specs.Printed.{no_all_text};

    ghost output = { λ refused. Some (no_all_text refused) };

    fn fmt<W: fmt::Write>(&self, f: &mut fmt::Formatter<W>) -> fmt::Result {
        let NoAll { pickle, no } = self;
        write!(f, "in pickle {pickle} {no}")
    }
}

impl Error for NoAll {}

/// Reads one pickle after another, up to the end of the source, and checks each as
/// [`check_as`](crate::check_as) does, with a fresh memo: this is [`check_all_loaded`] with
/// [`Memo::Fresh`].
///
/// ```rust
/// use pkcheck::{OldStrings, Policy, check_all};
/// use pkops::Limits;
/// use pkread::{Memory, Reason};
///
/// let (any, limits) = (Policy::AnyImport, Limits::STANDARD);
/// let mut source = Memory::new(b"N.K\x01.");
/// let yes = check_all(alloc, &mut source, &any, &limits, OldStrings::Unknown)?;
/// assert_eq!(rt; (yes.pickles, yes.taken), (2, 5));
/// let mut source = Memory::new(b"N.K\x01");
/// let Err(no) = check_all(alloc, &mut source, &any, &limits, OldStrings::Unknown) else {
///     panic!(rt; "a pickle without STOP is accepted");
/// };
/// assert_eq!(rt; (no.pickle, no.no.at, no.no.reason), (1, 4, Reason::Truncated));
/// ```
pub fn check_all<R: Source>(
    alloc: Global,
    source: &mut R,
    policy: &Policy<'_>,
    limits: &Limits,
    old_strings: OldStrings,
) -> Result<YesAll, NoAll>
    ensures answer { IsRightOfRow (each_afresh old_strings) (policy_of policy.now) limits.now
        (sight R.left R.failures source.old) (sight R.left R.failures source.new) result }
    ensures count { CountsInRow (R.failures source.old) (R.failures source.new) result }
{
    let loading = Loading {
        memo: Memo::Fresh,
        old_strings,
    };
    check_all_loaded(alloc, source, &Permit::By(*policy), limits, loading)
}

/// Reads one pickle after another, up to the end of the source, and checks each as
/// [`check_as`](crate::check_as) does. The time is linear in the number of bytes, however many
/// pickles there are.
///
/// With [`Memo::Fresh`] nothing is kept from one pickle to the next. The check needs memory for the
/// largest pickle and for the names of the imports.
///
/// With [`Memo::Kept`] each pickle begins with an empty stack, and with the memo, the objects and
/// the events of those before it. The answer about a pickle holds for every run of the row that
/// reaches it. The check needs memory for the whole row.
///
/// A `YesAll` covers at least one pickle. A `NoAll` names the first refused pickle; if it is
/// unknown whether another pickle begins, because the source failed or 2^64 - 1 bytes were taken,
/// it names that one.
///
/// ```rust
/// use pkcheck::{Loading, Memo, OldStrings, Permit, Policy, check_all_loaded};
/// use pkops::Limits;
/// use pkread::Memory;
///
/// let permit = Permit::By(Policy::AnyImport);
/// let loading = Loading {
///     memo: Memo::Kept,
///     old_strings: OldStrings::Unknown,
/// };
/// // The second pickle gets the list that the first one has stored.
/// let mut source = Memory::new(b"]q\x01.h\x01.");
/// let yes = check_all_loaded(alloc, &mut source, &permit, &Limits::STANDARD, loading)?;
/// assert_eq!(rt; yes.pickles, 2);
/// ```
pub fn check_all_loaded<R: Source>(
    alloc: Global,
    source: &mut R,
    policy: &Permit<'_>,
    limits: &Limits,
    loading: Loading,
) -> Result<YesAll, NoAll>
    ensures answer { IsRightOfRow loading (permit_of policy.now) limits.now
        (sight R.left R.failures source.old) (sight R.left R.failures source.new) result }
    ensures count { CountsInRow (R.failures source.old) (R.failures source.new) result }
{
    let terms = Terms {
        limits: *limits,
        loading,
        extent: Extent::ToTheEnd,
    };
    match check_pickles(alloc, source, policy, &terms, &mut Silent) {
        Ok(Ok(yes)) => Ok(yes),
        Ok(Err(refused)) => Err(NoAll {
            pickle: refused.pickle,
            no: refused.no,
        }),
        Err(never) => match never {},
    }
}

/// The pickles of a row so far.
#[derive(Drop)]
pub(crate) struct PickleRow {
    alloc: Global,
    memo: Memo,
    /// Where the check ends.
    pub extent: Extent,
    pickles: u64,
    /// The imports of pickles that the machine forgot.
    apart: ImportTable,
    /// How many of the machine's imports are those of earlier pickles.
    earlier: usize,
}

impl PickleRow {
    /// A row without a pickle.
    pub fn new(alloc: Global, memo: Memo, extent: Extent) -> PickleRow
        ensures { result ≡ record {
          alloc = alloc;
          memo = memo;
          extent = extent;
          pickles = 0;
          apart = record { texts = []; asked = [] };
          earlier = 0;
        } }
    {
        PickleRow {
            alloc,
            memo,
            extent,
            pickles: 0,
            apart: ImportTable::new(alloc),
            earlier: 0,
        }
    }

    /// Counts a pickle that has ended. Returns whether another one begins, for which the session is
    /// then ready.
    pub fn next<R: Source, D: Domain>(
        &mut self,
        reader: &mut Reader<'_, R>,
        session: &mut Session<D>,
    ) -> Result<bool, Refusal>
        requires ended { has_ended (state R.left R.failures reader.old) ≡ true }
        requires none { TakesNoneAhead reader.old }
        requires room { self.old.pickles < all_bytes }
        requires well { session.old.machine.refused ≡ None }
        requires off { session.old.machine.off ≡ None }
        ensures row { IsCounted self.old session.old.machine.imports self.new result }
        ensures session { IsRestarted self.old.memo session.old session.new result }
        ensures reader { LooksBehind R.left R.failures reader.old reader.new result }
        ensures earlier { self.new.earlier ≡ length session.new.machine.imports }
    {
        self.pickles += 1;
        let restarted = session.restart(self.alloc, self.memo, &mut self.apart);
        self.earlier = session.imported();
        let Ok(()) = restarted else {
            return Err(Refusal {
                at: reader.taken(),
                reason: Reason::OutOfMemory,
            });
        };
        reader.again()
    }

    /// The accepted row, in which this many bytes were taken. This ends the row and the session. By
    /// value, as in `refuse_with_imports` of `Session`, they would need stack slots.
    pub fn accepted<D: Domain>(&mut self, taken: u64, session: &mut Session<D>) -> YesAll
        ensures taken { result.taken ≡ taken }
        ensures pickles { result.pickles ≡ self.old.pickles }
        ensures imports { result.imports
            ≡ listed_in self.old.memo self.old.apart.asked session.old.machine.imports }
    {
        let imports = match self.memo {
            Memo::Fresh => {
                Imports::from_table(mem::replace(&mut self.apart, ImportTable::new(self.alloc)))
            }
            Memo::Kept => session.machine.take_imports(),
        };
        YesAll {
            taken,
            pickles: self.pickles,
            imports,
        }
    }

    /// The acceptance of a pickle that is alone and was not counted, of so many bytes.
    pub fn alone<D: Domain>(&self, taken: u64, session: &mut Session<D>) -> YesAll
        ensures taken { result.taken ≡ taken }
        ensures pickles { result.pickles ≡ 1 }
        ensures imports { result.imports ≡ session.old.machine.imports }
    {
        YesAll {
            taken,
            pickles: 1,
            imports: session.machine.take_imports(),
        }
    }

    /// The refusal of the pickle after those so far.
    pub fn refused<D: Domain>(&self, session: &mut Session<D>, refusal: Refusal) -> RefusedPickle
        ensures pickle { result.pickle ≡ self.now.pickles }
        ensures no { IsNoAt refusal.at refusal.reason session.old.machine.off result.no }
        ensures imports { result.imports ≡ drop self.now.earlier session.old.machine.imports }
    {
        let NoWithImports { no, imports } = session.refuse_with_imports(
            self.alloc,
            refusal,
            self.earlier,
        );
        RefusedPickle {
            pickle: self.pickles,
            no,
            imports,
        }
    }
}
