//! The answer of a scan.

use crate::fault::Fault;
use crate::inst::Inst;

/// What is at the front of some bytes.
#[derive(Clone, Copy, Debug)]
pub enum Scan<'a> {
    /// An instruction, and the number of bytes that spell it.
    Whole(Inst<'a>, usize),
    /// The bytes are a proper prefix of an instruction.
    More,
    /// The bytes begin no instruction within the limits.
    Bad(Fault),
}
