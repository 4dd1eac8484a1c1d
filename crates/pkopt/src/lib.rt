//! Makes pickles smaller: drops memo writes that nothing reads, and uses one frame. Every run of
//! the result is proved to be a run of the original.
#![tactic(auto)]

mod entry;
mod fate;
mod frame;
pub mod laws;
mod made;
mod measure;
mod memo;
mod numbers;
mod optimizing;
mod packed;
mod place;
mod renumbering;
mod rest;
mod sink;
mod slim;
mod sources;
mod trace;
mod writing;

pub use optimizing::{optimize, optimized_form};
pub use writing::Form;
