//! Why an instruction cannot be applied.

/// Why an instruction cannot be applied.
#[derive(Clone, Copy)]
pub enum Halt {
    /// A dict key isn't text.
    OtherKey,
    /// The integer doesn't fit 64 signed bits.
    LargeNumber,
    /// Something is missing from the stack or the memo, which `check` rules out.
    Lacks,
    /// An allocation was refused.
    OutOfMemory,
}
