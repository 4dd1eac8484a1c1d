//! The command line of the program: the job that its words ask for, and its help.
#![tactic(auto)]

mod building;
mod command;
mod help;
mod job;
mod matched;
mod usage;

pub use command::command_of;
pub use job::{Job, Pickles};
pub use usage::Usage;
