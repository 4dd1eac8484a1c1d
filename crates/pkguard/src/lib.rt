//! The checker for C: a static library whose functions check pickles in memory.
//!
//! A list is an array of pairs that the caller owns, so nothing is created, shared or freed.
//! Settings that are not supported have a status of their own: to read an undefined number as the
//! default would answer another question. The buffer for names stays unchanged unless both names
//! fit, since half a name would be another name.
//!
//! `python/storklocker/storklocker.h` declares the C API. `python/storklocker.c` implements it with
//! these functions, and never passes a null pointer. They need nothing from their arguments beyond
//! their C types, so none has a `requires`. They keep no state and leave nothing to free, so any
//! number of threads may call them and share pairs, lists and settings.
#![tactic(auto)]

mod codes;
mod costing;
mod costs;
mod encoding;
mod layouts;
mod list;
mod listing;
mod said;
mod settings;
mod verdict;

ghost use Rattle.std.specs.Prelude.{◌≡◌, ◌≢◌, ◌≤◌, ◌⊎◌, None, Some};
ghost use Rattle.pkmachine.specs.Policies.{permit_of};
ghost use Rattle.pkguard.specs.Guard.{Answers, IsListFault, IsImports, IsImportsBefore, IsListRead};
ghost use Rattle.pkguard.specs.Guard.{IsLimitedList, IsNo, IsNoOfRow, IsOfAnotherSize, IsUsage};
ghost use Rattle.pkguard.specs.Guard.{IsYes, IsYesOfRow, Under};
ghost use Rattle.pkguard.specs.Settings.{PermitsPairs, Sets, limits_by, limits_within};
ghost use Rattle.pkguard.specs.Settings.{listed_by, loading_by};

pub use costing::{pkguard_check_loading, pkguard_check_within, pkguard_list_costs};
pub use costs::{Bill, Costs};
pub use layouts::pkguard_layout;
pub use listing::pkguard_imports_loading;
use pkcheck::{Loading, OldStrings, Permit, Policy, check_all_loaded, check_with_imports};
use pklist::Pair;
use pklist::laws::halving;
use pkops::Limits;
use pkread::Memory;
pub use said::{Said, pkguard_list_told};
pub use settings::Settings;
use std::alloc::Global;
pub use verdict::Verdict;

/// Checks the pickle at the front of `pickle` under pairs of a module and a name. Returns the
/// status, which is also in the verdict.
///
/// If the pairs are sorted by module and then by name, a listed pair is found in logarithmic time;
/// any other order gives the same answer. If the caller vouches for the order, an unlisted pair is
/// also refused in logarithmic time. If a pair is refused and `room` is large enough, its module
/// and its name are written there, one after the other; otherwise `room` stays unchanged.
#[unsafe(no_mangle)]
pub extern "C" fn pkguard_check_pairs(
    alloc: Global,
    pairs: &[Pair<'_>],
    settings: &Settings,
    pickle: &[u8],
    room: &mut [u8],
    out: &mut Verdict,
) -> u32
    ensures pairs { PermitsPairs settings.now pairs.now }
    ensures answer { Answers result out.new
        (Sets settings.now (λ old. IsYes old (Some (listed_by settings.now pairs.now))
        (limits_by settings.now) pickle.now room.old room.new out.new))
        (Sets settings.now (λ old. IsNo old (Some (listed_by settings.now pairs.now))
        (limits_by settings.now) pickle.now room.old room.new out.new))
        ⊥ (IsUsage settings.now room.old room.new out.new) }
{
    halving();
    *out = match settings::old_strings_in(settings) {
        None => verdict::of_usage(),
        Some(old) => {
            let request = Request {
                permit: settings::permit_by(settings, pairs),
                limits: settings::limits_by(settings),
                loading: settings::loading_by(settings, old),
            };
            answered(alloc, &request, pickle, room)
        }
    };
    out.status
}

/// Like `pkguard_check_pairs`, with the text of a list file, which is parsed on every call. The
/// limits of the list and of the settings both apply: each limit is the smaller of the two. A list
/// that limits what loading costs has the status of settings that are not supported.
#[unsafe(no_mangle)]
pub extern "C" fn pkguard_check_list(
    alloc: Global,
    list: &[u8],
    settings: &Settings,
    pickle: &[u8],
    room: &mut [u8],
    out: &mut Verdict,
) -> u32
    ensures answer { Answers result out.new
        (Sets settings.now (λ old. Under list.now (λ policy limits. IsYes old policy
        (limits_within limits settings.now) pickle.now room.old room.new out.new)))
        (Sets settings.now (λ old. Under list.now (λ policy limits. IsNo old policy
        (limits_within limits settings.now) pickle.now room.old room.new out.new)))
        (Sets settings.now (λ _. IsListFault list.now room.old room.new out.new))
        (IsUsage settings.now room.old room.new out.new
        ⊎ IsLimitedList list.now room.old room.new out.new) }
{
    *out = match settings::old_strings_in(settings) {
        None => verdict::of_usage(),
        Some(old_strings) => {
            let served = Served {
                settings,
                old_strings,
            };
            listed(alloc, list, &served, pickle, room)
        }
    };
    out.status
}

/// Checks the pickles in `pickles`, which follow one another up to its end, under pairs. The
/// settings say whether the memo of a pickle is kept for the next.
#[unsafe(no_mangle)]
pub extern "C" fn pkguard_check_row(
    alloc: Global,
    pairs: &[Pair<'_>],
    settings: &Settings,
    pickles: &[u8],
    room: &mut [u8],
    out: &mut Verdict,
) -> u32
    ensures pairs { PermitsPairs settings.now pairs.now }
    ensures answer { Answers result out.new
        (Sets settings.now (λ old. IsYesOfRow (loading_by settings.now old)
        (Some (listed_by settings.now pairs.now)) (limits_by settings.now) pickles.now
        room.old room.new out.new))
        (Sets settings.now (λ old. IsNoOfRow (loading_by settings.now old)
        (Some (listed_by settings.now pairs.now)) (limits_by settings.now) pickles.now
        room.old room.new out.new))
        ⊥ (IsUsage settings.now room.old room.new out.new) }
{
    halving();
    *out = match settings::old_strings_in(settings) {
        None => verdict::of_usage(),
        Some(old) => {
            let request = Request {
                permit: settings::permit_by(settings, pairs),
                limits: settings::limits_by(settings),
                loading: settings::loading_by(settings, old),
            };
            answered_row(alloc, &request, pickles, room)
        }
    };
    out.status
}

/// Reads a list file: its limits, and its pairs, which are written to `room` if all of them fit.
/// They are in the byte order of their modules, and within a module in the order of its array.
#[unsafe(no_mangle)]
pub extern "C" fn pkguard_read_list(
    alloc: Global,
    list: &[u8],
    room: &mut [u8],
    limits: &mut Settings,
    wanted: &mut u64,
    out: &mut Verdict,
) -> u32
    ensures answer { Answers result out.new
        (IsListRead list.now room.old room.new limits.new wanted.new out.new) ⊥
        (IsListFault list.now room.old room.new out.new)
        (IsOfAnotherSize limits.old room.old room.new out.new) }
    ensures size { out.new.status ≢ 3 → limits.old.size ≡ 64 }
    ensures nothing { out.new.status ≢ 0 → wanted.new ≡ 0 }
    ensures same { out.new.status ≢ 0 → limits.new ≡ limits.old }
{
    *wanted = 0;
    *out = if settings::has_size(limits) {
        read(alloc, list, room, limits, wanted)
    } else {
        verdict::of_usage()
    };
    out.status
}

/// Checks the pickle at the front of `pickle`, permitting every import. Its imports are written to
/// `room`, in order, if all of them fit; if it is refused, those of the instructions before the
/// refused one.
#[unsafe(no_mangle)]
pub extern "C" fn pkguard_imports(
    alloc: Global,
    settings: &Settings,
    pickle: &[u8],
    room: &mut [u8],
    wanted: &mut u64,
    out: &mut Verdict,
) -> u32
    ensures answer { Answers result out.new
        (Sets settings.now (λ old. IsImports old (limits_by settings.now) pickle.now
        room.old room.new wanted.new out.new))
        (Sets settings.now (λ old. IsImportsBefore old (limits_by settings.now) pickle.now
        room.old room.new wanted.new out.new))
        ⊥ (IsUsage settings.now room.old room.new out.new) }
    ensures nothing { out.new.status ≡ 3 → wanted.new ≡ 0 }
{
    *wanted = 0;
    *out = match settings::old_strings_in(settings) {
        None => verdict::of_usage(),
        Some(old) => {
            let request = Request {
                permit: Permit::By(Policy::AnyImport),
                limits: settings::limits_by(settings),
                loading: settings::loading_by(settings, old),
            };
            imported(alloc, &request, pickle, room, wanted)
        }
    };
    out.status
}

/// The verdict for a list file.
fn read(
    alloc: Global,
    list: &[u8],
    room: &mut [u8],
    limits: &mut Settings,
    wanted: &mut u64,
) -> Verdict
    ensures bound { result.status ≢ 1 }
    ensures most { result.status ≤ 2 }
    ensures read { result.status ≡ 0
        → IsListRead list.now room.old room.new limits.new wanted.new result }
    ensures fault { result.status ≡ 2 → IsListFault list.now room.old room.new result }
    ensures nothing { result.status ≢ 0 → wanted.new ≡ wanted.old }
    ensures same { result.status ≢ 0 → limits.new ≡ limits.old }
{
    match list::list_from(alloc, list) {
        Err(error) => verdict::of_fault(error),
        Ok(allow) => {
            *limits = settings::with_limits(&allow.limits());
            *wanted = list::give_pairs(&allow, room);
            verdict::of_list()
        }
    }
}

/// What a check obeys.
#[derive(Clone, Copy)]
struct Request<'a> {
    permit: Permit<'a>,
    limits: Limits,
    loading: Loading,
}

/// The verdict of `check_with_imports` with every import permitted, and the imports.
fn imported(
    alloc: Global,
    request: &Request<'_>,
    pickle: &[u8],
    room: &mut [u8],
    wanted: &mut u64,
) -> Verdict
    requires { permit_of request.now.permit ≡ None }
    ensures bound { result.status ≤ 1 }
    ensures yes { result.status ≡ 0 → IsImports request.now.loading.old_strings request.now.limits
        pickle.now room.old room.new wanted.new result }
    ensures no { result.status ≡ 1 → IsImportsBefore request.now.loading.old_strings
        request.now.limits pickle.now room.old room.new wanted.new result }
{
    let mut source = Memory::new(pickle);
    let old = request.loading.old_strings;
    match check_with_imports(alloc, &mut source, &request.permit, &request.limits, old) {
        Ok(yes) => {
            *wanted = encoding::give_imports(&yes.imports, room);
            verdict::of_yes(yes.taken, &yes.imports, 1)
        }
        Err(refused) => {
            *wanted = encoding::give_imports(&refused.imports, room);
            verdict::of_no_with_imports(&refused.no, &refused.imports)
        }
    }
}

/// Settings that this version serves, and how they decode Python 2 strings.
#[derive(Clone, Copy)]
struct Served<'a> {
    settings: &'a Settings,
    old_strings: OldStrings,
}

/// The verdict of `check` under a list file, which must say nothing of the cost of loading.
fn listed(
    alloc: Global,
    list: &[u8],
    served: &Served<'_>,
    pickle: &[u8],
    room: &mut [u8],
) -> Verdict
    ensures bound { result.status ≤ 3 }
    ensures yes { result.status ≡ 0 → Under list.now (λ policy limits. IsYes served.now.old_strings
        policy (limits_within limits served.now.settings.now)
        pickle.now room.old room.new result) }
    ensures no { result.status ≡ 1 → Under list.now (λ policy limits. IsNo served.now.old_strings
        policy (limits_within limits served.now.settings.now)
        pickle.now room.old room.new result) }
    ensures fault { result.status ≡ 2 → IsListFault list.now room.old room.new result }
    ensures usage { result.status ≡ 3 → IsLimitedList list.now room.old room.new result }
{
    match list::list_from(alloc, list) {
        Err(error) => verdict::of_fault(error),
        Ok(allow) => {
            if !allow.cost_limits().are_unsaid() {
                return verdict::of_usage();
            }
            let request = Request {
                limits: settings::limits_within(served.settings, &allow.limits()),
                permit: Permit::By(Policy::Listed(&allow)),
                loading: settings::loading_by(served.settings, served.old_strings),
            };
            answered(alloc, &request, pickle, room)
        }
    }
}

/// The verdict of `check`.
fn answered(alloc: Global, request: &Request<'_>, pickle: &[u8], room: &mut [u8]) -> Verdict
    ensures bound { result.status ≤ 1 }
    ensures yes { result.status ≡ 0 → IsYes request.now.loading.old_strings
        (permit_of request.now.permit) request.now.limits pickle.now room.old room.new result }
    ensures no { result.status ≡ 1 → IsNo request.now.loading.old_strings
        (permit_of request.now.permit) request.now.limits pickle.now room.old room.new result }
{
    let mut source = Memory::new(pickle);
    let Loading { old_strings, .. } = request.loading;
    match check_with_imports(
        alloc,
        &mut source,
        &request.permit,
        &request.limits,
        old_strings,
    ) {
        Ok(yes) => verdict::of_yes(yes.taken, &yes.imports, 1),
        Err(refused) => verdict::of_no(&refused.no, 0, room),
    }
}

/// The verdict of `check_all_loaded`.
fn answered_row(alloc: Global, request: &Request<'_>, pickles: &[u8], room: &mut [u8]) -> Verdict
    ensures bound { result.status ≤ 1 }
    ensures yes { result.status ≡ 0 → IsYesOfRow request.now.loading (permit_of request.now.permit)
        request.now.limits pickles.now room.old room.new result }
    ensures no { result.status ≡ 1 → IsNoOfRow request.now.loading (permit_of request.now.permit)
        request.now.limits pickles.now room.old room.new result }
{
    let mut source = Memory::new(pickles);
    match check_all_loaded(
        alloc,
        &mut source,
        &request.permit,
        &request.limits,
        request.loading,
    ) {
        Ok(yes) => verdict::of_yes(yes.taken, &yes.imports, yes.pickles),
        Err(all) => verdict::of_no(&all.no, all.pickle, room),
    }
}
