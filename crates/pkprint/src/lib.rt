//! Answers as lines: what `check`, `dis` and `imports` print about a pickle in any source, to any
//! writer.
#![tactic(auto)]

mod checking;
mod checking_row;
mod costing;
mod importing;
mod listing;
mod printing;

pub use checking::{Outcome, check_to};
pub use checking_row::{check_all_loaded_to, check_all_to};
pub use costing::{Billing, check_loading_to};
pub use importing::imports_to;
pub use listing::dis_to;
pub use printing::write_no;
