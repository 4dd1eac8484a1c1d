//! Bounds what loading a pickle costs, whatever its operations answer.
#![tactic(auto)]

mod action;
mod ceiling;
mod checking;
mod estimating;
mod gathering;
mod halt;
pub mod laws;
mod machine;
mod making;
mod memo;
mod memory;
mod meter;
mod metering;
mod moves;
mod packed;
mod stack;
mod tally;
mod tolls;

pub use checking::{Costly, YesWithBill, check_loading};
pub use estimating::check_estimating;
pub use tally::Tally;
pub use tolls::{Excess, Tolls};
