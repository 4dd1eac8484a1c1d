//! The pairs of a module and a name that may be imported, in a list file or in an array.
#![tactic(auto)]

mod allow;
pub mod laws;
pub mod pairs;

pub use allow::{Allow, AllowError, CostLimits, Where};
pub use pairs::Pair;
