//! Reads the instructions of a pickle, from memory or from any source, and checks its frames.
//! Nothing is executed: an instruction is an opcode and its argument as spelled.
//!
//! [`genops`] iterates over a slice. A [`Reader`] takes bytes from a [`Source`], lends one
//! instruction at a time and takes no byte after STOP; [`Reader::next_head`] holds no byte payload.
//! [`Frames`] enforces the frame rules. A [`Refusal`] is an offset and a [`Reason`].
#![tactic(auto)]

// Rare paths are kept out of line: `X` is inlined, and calls `X_slowly` when it has to. It unpacks
// the result with `?` and wraps it again, because otherwise all such results share one stack slot,
// which the compiler zeroes on every instruction.

mod admission;
mod arms;
mod frames;
mod frequent_lines;
mod front;
mod gather;
mod gathering;
mod heads;
pub mod laws;
mod lines;
mod reader;
mod slice;
mod source;
mod state;
mod store;
mod walk;

pub use frames::{BrokenFrame, Frames, frame_argument};
pub use front::lend;
pub use pkops::{Reason, Refusal};
pub use reader::{Head, Next, Reader};
pub use slice::genops;
pub use source::{Input, Memory, ReadFailed, Source};
pub use state::Core;
pub use walk::Genops;
