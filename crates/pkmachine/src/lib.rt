//! The symbolic machine: what every run of a pickle has in common, whatever its operations answer.
//!
//! [`Machine::step`] judges one instruction after another and executes none. The crate reads no
//! bytes: whoever has instructions may step over them.
#![tactic(auto)]

mod asking;
mod config;
mod domain;
pub mod effect;
mod effects;
mod held;
pub mod laws;
mod machine;
mod memo;
mod new_text;
mod nothing;
mod old_strings;
mod old_text;
mod operate;
mod packed;
mod policy;
mod spelled_text;
mod stack;
mod state;
mod stepping;
mod value;

pub use domain::{Domain, Item};
pub use held::{Held, HeldCell};
pub use machine::Machine;
pub use memo::Memo;
pub use nothing::{NoItem, Nothing};
pub use old_strings::OldStrings;
pub use policy::{Permit, Policy};
pub use stack::Operands;
pub use stepping::Moved;
