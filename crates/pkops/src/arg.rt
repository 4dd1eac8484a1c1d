//! The argument of an instruction.

/// The argument of an instruction, as it was spelled.
#[derive(Clone, Copy, Debug, PartialEq, Eq)]
pub enum Arg<'a> {
    /// No argument.
    None,
    /// An unsigned number of one byte.
    U1(u8),
    /// An unsigned number of two bytes.
    U2(u16),
    /// A signed number of four bytes.
    I4(i32),
    /// An unsigned number of four bytes.
    U4(u32),
    /// An unsigned number of eight bytes.
    U8(u64),
    /// The eight bytes of a big-endian IEEE 754 double.
    F8(&'a [u8]),
    /// A line, without its line feed.
    Line(&'a [u8]),
    /// Two lines, without their line feeds: a module and a name.
    Pair(&'a [u8], &'a [u8]),
    /// A payload, without the count before it.
    Counted(&'a [u8]),
}
