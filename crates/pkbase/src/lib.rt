//! A map whose keys are numbers, most of them consecutive.
//!
//! A pickle's memo holds objects under numbers. An instruction may name any number of 32 bits, but
//! most pickles count from 0 or 1 on. [`NumberedMap`] finds such entries by index, and all others
//! in trees.
#![tactic(auto)]

mod byte_vec;
mod numbered_map;
mod stack_vec;

pub use byte_vec::ByteVec;
pub use numbered_map::{NotStored, NumberedMap};
pub use stack_vec::StackVec;
