//! Why a pickle cannot be exported.

use pkops::{Op, Refusal};
use thiserror::Error;

/// Why a pickle cannot be exported, in the order in which the causes are checked. Offsets are those
/// of an instruction's first byte, counted from the first byte of the pickle.
#[derive(Clone, Copy, Debug, PartialEq, Eq, Error)]
pub enum ExportError {
    /// `check` refuses the pickle even with every import permitted.
    #[error("the pickle is refused")]
    Check(Refusal),
    /// The instruction at this offset, with this opcode, is not plain data.
    #[error("the instruction at {0} is not plain")]
    NotPlain(u64, Op),
    /// The instruction at this offset sets a dict key that is not text.
    #[error("the instruction at {0} sets a key that is not text")]
    Key(u64),
    /// The instruction at this offset names an integer that does not fit 64 signed bits.
    #[error("the instruction at {0} names an integer outside 64 bits")]
    Number(u64),
    /// The result contains itself, or nests deeper than the limit.
    #[error("the value is too deep")]
    TooDeep,
    /// The result has more values than the limit.
    #[error("the value is of too many values")]
    TooMany,
    /// An allocation was refused.
    #[error("out of memory")]
    OutOfMemory,
}
