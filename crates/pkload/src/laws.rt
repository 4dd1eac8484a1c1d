//! Laws of the definitions. Each is the contract of a function that does nothing.

ghost use Rattle.pkload.specs.FollowedBill.{BillIsFollowed};
ghost use Rattle.pkload.specs.Laws.{BillBoundsRuns, ExcessStays, TollsOnlyRefuse};
ghost use Rattle.pkload.specs.OneEnd.{OneEndFits};

use pkcheck::laws::{
    one_begins, one_refusal, refused_behind, yes_excludes_no, yes_of_row_excludes_no,
};
use pkread::laws::one_sequence;

/// In every run whose answers are new objects, the keys cost what the bill says, and at most that
/// if the run raises.
#[tactic(auto, using(crate::proofs::Whole::bill_bounds_runs))]
pub fn bill_bounds_runs()
    ensures { BillBoundsRuns }
{}

/// What is accepted within limits on what loading costs is accepted without them.
#[tactic(auto, using(crate::proofs::Loading::tolls_only_refuse))]
pub fn tolls_only_refuse()
    ensures { TollsOnlyRefuse }
{}

/// The bill after an instruction is what a domain carries after it.
#[tactic(auto, using(crate::proofs::FollowedBill::bill_followed))]
pub fn bill_is_followed()
    ensures { BillIsFollowed }
{}

/// What exceeds a limit exceeds it however the pickle goes on.
#[tactic(auto, using(crate::proofs::Staying::excess_stays))]
pub fn excess_stays()
    ensures { ExcessStays }
{}

/// Two answers to the same bytes under the same settings are both yes with the same bill, both a
/// refusal of the same instruction for the same reason, or both the same limit at the same
/// instruction, except for a refused allocation or a failed read.
#[tactic(auto, using(crate::proofs::OneEnd::one_end))]
pub fn one_end()
    ensures { OneEndFits }
{
    one_begins();
    one_sequence();
    refused_behind();
    one_refusal();
    yes_excludes_no();
    yes_of_row_excludes_no();
}
