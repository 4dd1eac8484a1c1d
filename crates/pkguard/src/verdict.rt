//! Verdicts for C.
ghost use Rattle.std.specs.Prelude.{◌≡◌, ◌++◌, length, option_map};
ghost use Rattle.pkimport.specs.Import.{asked_shown};
ghost use Rattle.pkguard.specs.Guard.{placed, verdict_of_fault, verdict_of_no, verdict_of_yes};
ghost use Rattle.pkguard.specs.Guard.{names_placed, nothing_told, verdict_behind, verdict_of_usage};
ghost use Rattle.pkguard.specs.Loading.{verdict_of_excess};

use crate::codes::{excess_code, fault_code, reason_code, reason_number};
use pkcheck::{Asked, Imports, No};
use pklist::AllowError;
use pkload::Costly;

/// A verdict for C. Fields that do not apply to its status are 0.
#[repr(C)]
#[derive(Clone, Copy, Debug, Drop)]
pub struct Verdict {
    /// 0 if accepted, 1 if refused, 2 for a list file that cannot be read, 3 for unsupported
    /// settings.
    pub status: u32,
    /// The number of the reason at status 1, or of the list's error at status 2.
    pub reason: u32,
    /// The code byte, protocol or memo number that the reason carries.
    pub number: u32,
    /// 1 if the verdict has a pair.
    pub has_pair: u32,
    /// At status 1, the offset of the refused instruction in bytes.
    pub at: u64,
    /// At status 0, the number of accepted bytes.
    pub taken: u64,
    /// At status 0, the number of imports in those bytes. At status 1, that of the imports before
    /// the refused instruction, if they were asked for.
    pub imports: u64,
    /// The length of the pair's module in bytes.
    pub module_length: u64,
    /// The length of the pair's name in bytes.
    pub name_length: u64,
    /// The number of accepted pickles.
    pub pickles: u64,
}

/// An empty verdict.
const NOTHING: Verdict = Verdict {
    status: 0,
    reason: 0,
    number: 0,
    has_pair: 0,
    at: 0,
    taken: 0,
    imports: 0,
    module_length: 0,
    name_length: 0,
    pickles: 0,
};

/// The verdict for a list that was read.
pub fn of_list() -> Verdict
    ensures { result ≡ nothing_told }
{
    NOTHING
}

/// The verdict for a list file that cannot be read.
pub fn of_fault(error: AllowError) -> Verdict
    ensures { result ≡ verdict_of_fault error }
{
    Verdict {
        status: 2,
        reason: fault_code(error),
        ..NOTHING
    }
}

/// The verdict for unsupported settings.
pub fn of_usage() -> Verdict
    ensures { result ≡ verdict_of_usage }
{
    Verdict {
        status: 3,
        ..NOTHING
    }
}

/// The verdict if this many pickles are accepted.
pub fn of_yes(taken: u64, imports: &Imports, pickles: u64) -> Verdict
    ensures { result ≡ verdict_of_yes taken (length imports.now) pickles }
{
    Verdict {
        taken,
        imports: imports.len() as u64,
        pickles,
        ..NOTHING
    }
}

/// The verdict for a refusal after this many accepted pickles. The names of its pair are written to
/// the front of `room`, if both fit.
pub fn of_no(no: &No, pickles: u64, room: &mut [u8]) -> Verdict
    ensures told { result
        ≡ verdict_of_no no.now.at no.now.reason (option_map asked_shown no.now.pair) pickles }
    ensures place { result.at ≡ no.now.at }
    ensures count { result.pickles ≡ pickles }
    ensures names { room.new ≡ names_placed (option_map asked_shown no.now.pair) room.old }
{
    let (has_pair, module_length, name_length) = match &no.pair {
        Some(Asked::Pair { module, name }) => {
            place_both(room, module.as_bytes(), name.as_bytes());
            (1, module.len() as u64, name.len() as u64)
        }
        _ => (0, 0, 0),
    };
    Verdict {
        has_pair,
        module_length,
        name_length,
        pickles,
        ..of_no_alone(no)
    }
}

/// The verdict for a refusal, without its pair.
fn of_no_alone(no: &No) -> Verdict
    ensures { result ≡ verdict_behind no.now.at no.now.reason 0 }
{
    Verdict {
        number: reason_number(no.reason),
        ..of_refusal(no.at, reason_code(no.reason))
    }
}

/// The verdict for a refusal at this place, with the number of its reason.
fn of_refusal(place: u64, code: u32) -> Verdict
    ensures { result ≡ record nothing_told { status = 1; reason = code; at = place } }
{
    Verdict {
        status: 1,
        reason: code,
        at: place,
        ..NOTHING
    }
}

/// The verdict for a refusal after these imports, if every import is permitted.
pub fn of_no_with_imports(no: &No, imports: &Imports) -> Verdict
    ensures told { result ≡ verdict_behind no.now.at no.now.reason (length imports.now) }
    ensures place { result.at ≡ no.now.at }
{
    Verdict {
        imports: imports.len() as u64,
        ..of_no_alone(no)
    }
}

/// The verdict for an instruction that exceeds a limit on costs.
pub fn of_excess(costly: &Costly) -> Verdict
    ensures told { result
        ≡ verdict_of_excess costly.now.at costly.now.excess costly.now.pickle }
    ensures place { result.at ≡ costly.now.at }
    ensures count { result.pickles ≡ costly.now.pickle }
{
    Verdict {
        pickles: costly.pickle,
        ..of_refusal(costly.at, excess_code(costly.excess))
    }
}

/// Writes two byte strings to the front of `room`, one after the other, if both fit.
fn place_both(room: &mut [u8], first: &[u8], second: &[u8])
    ensures { room.new ≡ placed (first.now ++ second.now) room.old }
{
    let start = first.len();
    let more = second.len();
    if start <= room.len() && more <= room.len() - start {
        room[..start].copy_from_slice(first);
        room[start..start + more].copy_from_slice(second);
    }
}
