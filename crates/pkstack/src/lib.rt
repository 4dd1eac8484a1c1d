//! The stack of marks and items, the memo, and the moves of instructions on both.
//!
//! An item is what a crate above keeps of an object: all values of a type that is copied will do. A
//! [`Cell`] holds it, or a mark in its place, so that a mark takes no bytes beside the items.
//! [`apply`] is the step of an instruction that looks at no object; for all others the crate above
//! finds the operands on the [`Stack`], and replaces them.
#![tactic(auto)]

mod cells;
mod memo;
mod moves;
mod stack;
mod takes;

pub use cells::{Cell, Slot};
pub use memo::MemoTable;
pub use moves::{Move, apply};
pub use stack::{Operands, OperandsStart, Stack};
pub use takes::{SliceRule, Takes};
