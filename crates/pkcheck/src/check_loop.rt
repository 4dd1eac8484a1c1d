//! The loop of every check.
//!
//! An audience may have the payloads of bytes and bytearrays held. `Limits::holding_all` lowers
//! `passed` to `counted` for it, so a pickle that `check` accepts may be `TooLarge` for a listing.

ghost use Rattle.std.specs.Prelude.{◌≡◌, IfErr, IfOk, MatchResult, true};
ghost use Rattle.pkread.specs.ReaderCalls.{KeepsSource, begun, source_of, state};
ghost use Rattle.pkread.specs.Rows.{sight};
ghost use Rattle.pkmachine.specs.Policies.{permit_of};
ghost use Rattle.pkcheck.specs.Private.FirstPickle.{HasJudgedNone, HasNoPickle, loading_of};
ghost use Rattle.pkcheck.specs.ThreeEnds.{AnswersTold, CountsTold, StopsTold};

use crate::audience::Audience;
use crate::checking::No;
use crate::loading::Loading;
use crate::row_of_pickles::{PickleRow, YesAll};
use crate::session::Session;
use pkimport::Imports;
use pklist::laws::bounded_names;
use pkmachine::laws::steps;
use pkmachine::{Domain, Nothing, Permit};
use pkops::Limits;
use pkread::laws::{frames, heads, nexts, rows};
use pkread::{Reader, Source};
use std::alloc::Global;

/// Where a check ends if nothing is refused.
#[derive(Clone, Copy, Debug, PartialEq, Eq)]
pub enum Extent {
    /// After the first STOP.
    OnePickle,
    /// At the end of the source.
    ToTheEnd,
}

/// What a check goes by, apart from the policy.
#[derive(Clone, Copy, Debug)]
pub struct Terms {
    /// The limits. For an audience that holds payloads, `counted` must limit all of them, as in
    /// `Limits::holding_all`.
    pub limits: Limits,
    /// How the pickles are loaded. A pickle that is alone begins with an empty memo.
    pub loading: Loading,
    /// Where the check ends.
    pub extent: Extent,
}

/// A refused pickle.
#[derive(Debug, Drop)]
pub struct RefusedPickle {
    /// The number of the refused pickle, counted from 0. Those before it are accepted.
    pub pickle: u64,
    /// Its refusal, with an offset counted from the first byte taken from the source.
    pub no: No,
    /// What the instructions of this pickle before `no.at` import, in order.
    pub imports: Imports,
}

/// Checks pickles that follow one another in a source, and reports each instruction to the audience
/// before it is judged: the accepted ones, and the refused one if it was read completely and is
/// admitted. The answer is that of [`check_with_imports`](crate::check_with_imports) or of
/// [`check_all_loaded`](crate::check_all_loaded), which are this loop with an audience that ignores
/// everything.
///
/// The payloads of plain bytes are skipped under the limit `passed`, and reported as skipped,
/// unless the audience holds payloads.
///
/// # Errors
///
/// The error of the audience, which ends the check. By then it has observed every earlier
/// instruction, and none of these was refused. The bytes taken are exactly those of these
/// instructions and of the one at which the audience failed. The audience is left as it was then.
pub fn check_pickles<R: Source, A: Audience>(
    alloc: Global,
    source: &mut R,
    policy: &Permit<'_>,
    terms: &Terms,
    audience: &mut A,
) -> Result<Result<YesAll, RefusedPickle>, A::Error>
    requires one { A.holding ≡ true → terms.now.limits.passed ≡ terms.now.limits.counted }
    ensures answer { IfOk result (AnswersTold A.holding terms.now.loading (permit_of policy.now)
        terms.now.limits (sight R.left R.failures source.old) (sight R.left R.failures source.new)
        A.hears audience.old audience.new terms.now.extent) }
    ensures stopped { IfErr result (StopsTold A.holding terms.now.loading
        (permit_of policy.now) terms.now.limits (sight R.left R.failures source.old)
        (sight R.left R.failures source.new) A.hears A.fails audience.old audience.new
        terms.now.extent) }
    ensures count { MatchResult result
        (CountsTold (R.failures source.old) (R.failures source.new))
        (λ _. R.failures source.new ≡ R.failures source.old) }
{
    let mut reader = Reader::new(alloc, source, &terms.limits);
    let mut session = Session::new(alloc, &terms.limits, terms.loading.old_strings, Nothing);
    let mut row = PickleRow::new(alloc, terms.loading.memo, terms.extent);
    hear_pickles(&mut session, &mut reader, &mut row, policy, audience)
}

/// The loop of `check_pickles`. It owns nothing that must be dropped: each exit of a loop that does
/// has stack slots of its own for that, which the compiler clears at the start of every check.
fn hear_pickles<R: Source, A: Audience, D: Domain>(
    session: &mut Session<D>,
    reader: &mut Reader<'_, R>,
    row: &mut PickleRow,
    policy: &Permit<'_>,
    audience: &mut A,
) -> Result<Result<YesAll, RefusedPickle>, A::Error>
    requires one { A.holding ≡ true
        → session.old.machine.limits.passed ≡ session.old.machine.limits.counted }
    requires session { HasJudgedNone session.old }
    requires row { HasNoPickle row.old }
    requires reader { state R.left R.failures reader.old
        ≡ begun (sight R.left R.failures (source_of reader.old)) session.old.machine.limits }
    ensures source { KeepsSource reader.old reader.new }
    ensures answer { IfOk result (AnswersTold A.holding (loading_of row.old session.old)
        (permit_of policy.now) session.old.machine.limits
        (sight R.left R.failures (source_of reader.old))
        (sight R.left R.failures (source_of reader.new)) A.hears audience.old audience.new
        row.old.extent) }
    ensures stopped { IfErr result (StopsTold A.holding (loading_of row.old session.old)
        (permit_of policy.now) session.old.machine.limits
        (sight R.left R.failures (source_of reader.old))
        (sight R.left R.failures (source_of reader.new)) A.hears A.fails audience.old
        audience.new row.old.extent) }
    ensures count { MatchResult result
        (CountsTold (R.failures (source_of reader.old)) (R.failures (source_of reader.new)))
        (λ _. R.failures (source_of reader.new) ≡ R.failures (source_of reader.old)) }
{
    nexts();
    heads();
    frames();
    rows();
    steps();
    bounded_names();
    'instructions: loop {
        if let Err(refusal) = session.hear_at_hand(reader, policy, audience)? {
            return Ok(Err(row.refused(session, refusal)));
        }
        if let Err(turned) = session.hear_next(reader, policy, audience)? {
            return Ok(Err(row.refused(session, turned)));
        }
        if reader.ended() {
            let taken = reader.taken();
            match row.extent {
                Extent::OnePickle => return Ok(Ok(row.alone(taken, session))),
                Extent::ToTheEnd => match row.next(reader, session) {
                    Err(refusal) => return Ok(Err(row.refused(session, refusal))),
                    Ok(true) => {}
                    Ok(false) => return Ok(Ok(row.accepted(taken, session))),
                },
            }
        }
    }
}
